//! Where files are read and bytes are written: what is told of both, and how often they failed.
//!
//! The traits `Files` and `Sink` say what is told, that a told tree stays (`keeps`), that a failure comes only where the count
//! rose and any other answer leaves it (`cause`), that listed names are in the order of their bytes (`sorted`), that what is read
//! is within the limit (`bound`), that a write appends all of its piece, or on failure a prefix (`bytes`), and that an empty
//! piece succeeds (`empty`). `MemFiles` and `MemSink` meet them with their contents told, fail exactly where their lists and the
//! room say, and count each call and each failure once. `HostFiles` and `HostSink` meet them and tell nothing; their counts
//! start at 0 and rise by one at each failure, and what a `HostSink` writes is appended to its stream, where that stream's bytes
//! are known (`passes`).
#![tactic(auto)]

pub mod files;
pub mod host_files;
pub mod host_sink;
pub mod host_words;
pub mod mem_files;
pub mod mem_sink;
mod names;
pub mod sink;
