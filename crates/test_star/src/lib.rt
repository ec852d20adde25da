//! The syntax trees that texts of code read as, and which texts are refused, which no command line shows.
#![tactic(auto)]

#[cfg(test)]
mod code;
#[cfg(test)]
mod whole;
