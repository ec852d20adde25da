//! The definitions of texts as plain data: where a text occurs in another, what it is cut into, what its methods give, how `%`
//! and `format` fill it, and the text that a value is by `repr` and `str`, with steps and faults. They stand in `specs/`.
//! Places are counted in bytes, and letters, digits and white space are those of ASCII.
#![tactic(auto)]
