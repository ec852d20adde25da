//! The definitions of Starlark's syntax as plain data: code, programs and their blocks, the numbers of functions, which names
//! may stand where, and which variable a name is. They stand in `specs/`.
#![tactic(auto)]
