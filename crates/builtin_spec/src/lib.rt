//! The definitions of the language's own functions: what the attributes of a value are, what a call of a function or of a method of
//! the language gives, with steps and faults, and the whole table of operators. They stand in `specs/`; `sorted`, `min` and `max`, which
//! may ask for the keys of members, in `specs/Sorting`.
#![tactic(auto)]
