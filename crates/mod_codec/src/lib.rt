//! The natives of the modules `json`, `yaml`, `base64`, `sha256` and `md5`, over an arena.
//!
//! `codec_named` is the table of the definitions by names; `codec_call` gives exactly what the row of a native gives for its arguments, or
//! its refusal, and leaves exactly its objects and steps. How a text stands for a value of JSON is the kit's `serde_json`, and so are
//! `base64`, `sha2` and `md5` of the kit; YAML is read and written as any document.
#![tactic(auto)]

mod bytes;
mod call;
mod document;
mod table;

pub use call::codec_call;
pub use table::{Codec, codec_named};
