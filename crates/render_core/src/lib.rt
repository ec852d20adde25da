//! What a request means over the files: documents, or the first fault.
//!
//! `render` finds and reads the files (`file_units::read_units`), and runs them (`run_units`) one after another within one budget, with the
//! functions of all of them in one table: a template gives the documents that it builds, a file without code its own, and a library none;
//! each runs behind the files that it loads (`file_load`). It answers exactly what the request means, where the tree of the files is told
//! (`told`); its documents are such as can be written (`held`, `writable`); and each failure has its cause (`cause`). `run_units` gives
//! what units mean, of any units that the files are held of.
#![tactic(auto)]

mod parts;
mod rendering;
mod running;

pub use rendering::render;
pub use running::run_units;
