//! Noted documents, strings by positions, and trees made by hand with their text, which no command line shows.
#![tactic(auto)]

#[cfg(test)]
mod noted;
#[cfg(test)]
mod notes;
#[cfg(test)]
mod positions;
#[cfg(test)]
mod printed;
