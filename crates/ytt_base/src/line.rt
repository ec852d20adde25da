// Lines of a text.

use crate::fault::Place;
use crate::text::Text;
use sqlite_items::Items;

/// A line of a text, without its end.
#[derive(Drop)]
pub struct Line {
    /// Its file and its number, from 1.
    pub place: Place,
    /// The number of spaces at its start.
    pub indent: u32,
    /// All of it, those spaces included.
    pub text: Text,
}

/// Lines one after another.
pub type Lines = Items<Line>;
