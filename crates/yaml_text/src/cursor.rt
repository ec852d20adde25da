// A place in a text.

use ytt_base::fault::Place;
use ytt_base::line::Line;

/// A place in a text: the rest of a line, and the lines below it.
#[derive(Clone, Copy)]
pub struct Cursor<'a> {
    /// The file and the line.
    pub place: Place,
    /// What is left of the line.
    pub text: &'a str,
    pub below: &'a [Line],
}
