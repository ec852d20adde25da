//! The machine's files, its streams as sinks, and its words, which no command line over files in memory shows.
#![tactic(auto)]

#[cfg(test)]
mod host;
#[cfg(test)]
mod sinks;
#[cfg(test)]
mod words;
