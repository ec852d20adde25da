//! Plain scalars: the first form that fits, the kind and the value. `plain_kind`, `plain_scalar` and `type_plain` give the
//! definition's (`yaml_spec/specs/Scalars`), and `is_string` says whether a text is none of the other forms.
#![tactic(auto)]

mod bytes;
mod form;
mod kind;
mod number;
mod plain;
mod words;

pub use form::is_string;
pub use kind::{ScalarKind, plain_kind};
pub use plain::{plain_scalar, type_plain};
