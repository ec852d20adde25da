//! The definitions of the table of operators as plain data: what each gives for every kind of value, its steps and its faults.
//! They stand in `specs/`.
#![tactic(auto)]
