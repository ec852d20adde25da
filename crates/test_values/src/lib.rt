//! Calls of the arena, which no command line shows: rows of short scripts with what each call answers.
#![tactic(auto)]

#[cfg(test)]
mod many;
#[cfg(test)]
mod owned;
#[cfg(test)]
mod rows;
#[cfg(test)]
mod script;
#[cfg(test)]
mod shown;
#[cfg(test)]
mod trial;
