//! Types of data values: what schema documents give, trees that are of a type, offences, and filled trees, which no command line shows yet.
#![tactic(auto)]

#[cfg(test)]
mod arguments;
#[cfg(test)]
mod deep;
#[cfg(test)]
mod notation;
#[cfg(test)]
mod owned;
#[cfg(test)]
mod reading;
#[cfg(test)]
mod rows;
#[cfg(test)]
mod script;
#[cfg(test)]
mod shown;
