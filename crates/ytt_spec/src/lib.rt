//! The definitions of the top call: the command that words ask for, what it means over the tree of files, and what is due. They
//! stand in `specs/`.
//!
//! Their laws: what is read as a request is one, and each request is read so; the number of a wrong word is that of the first at
//! which no request goes on; what a request means can be written and is such as the program holds.
#![tactic(auto)]
