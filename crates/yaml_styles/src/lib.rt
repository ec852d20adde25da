//! How a string and a key are printed on one line. `fits_plain` is true exactly of the strings that stand without
//! quotes, and `key_text` gives the definition's text of a key (`yaml_spec/specs/Text`).
#![tactic(auto)]

mod key;
mod quoting;
mod style;

pub use key::key_text;
pub use quoting::{hex_digit, is_long_escaped, is_short_escaped, short_escape};
pub use style::{fits_plain, is_shown};
