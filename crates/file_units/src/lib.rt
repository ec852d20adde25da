//! The files of a request, found and read: what each gives, or the first fault of all.
//!
//! `read_units` finds the files (`file_find`) and reads one after another: a template as its program (`template_program`), a file of
//! code as its own (`star_file`), and YAML without code as its documents. What is held of them is said by `specs/Held`, and what the
//! call answers by `specs/Reads`. `compile_documents` is the part of it that gives a template's program (`specs/Templates`).
#![tactic(auto)]

mod files;
mod names;
mod read;
mod source;
mod template;
mod units;

pub use read::read_units;
pub use template::compile_documents;
pub use units::{Content, RenderStop, Units, stop_with};
