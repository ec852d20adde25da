// Positions in lines.
ghost use Rattle.std.specs.Prelude.{◌≡◌, ◌<◌, length};
ghost use Rattle.ytt_base.specs.declared.fault.Place.{Place};
ghost use Rattle.yaml_spec.specs.Held.{plain_lines};
ghost use Rattle.yaml_spec.specs.Positions.{cursor_at, read_up_to};
ghost use Rattle.yaml_text.specs.View.{cursor_of};
ghost use Rattle.yaml_scalar.specs.View.{BeginsAscii, quoted_of};

use yaml_text::Cursor;
use ytt_base::line::Line;
use ytt_base::text::Text;

/// A string that was read, and the position behind it.
#[derive(Drop)]
pub struct Quoted {
    /// The string itself.
    pub text: Text,
    /// The line of the position, by its index from 0 among the lines.
    pub line: u64,
    /// The position in that line, in bytes from 0.
    pub column: u64,
}

/// The place at a column of a line, by their indexes, where an ASCII character stands.
pub fn cursor_at(lines: &[Line], at: usize, column: usize) -> Cursor<'_>
    requires there { at < length lines.now }
    requires ascii { let here = cursor_at (plain_lines lines.now) at column in BeginsAscii here.text }
    ensures { cursor_of result ≡ cursor_at (plain_lines lines.now) at column }
{
    let line = &lines[at];
    Cursor {
        place: line.place,
        text: &line.text.as_str()[column..],
        below: &lines[at + 1..],
    }
}

/// A string with the position of the place behind it, where this is left of a line and these lines
/// stand below it.
pub fn read_up_to(lines: &[Line], text: Text, rest: &str, below: &[Line]) -> Quoted
    requires { 0 < length lines.now }
    ensures { (place : Place) → quoted_of result ≡ read_up_to (plain_lines lines.now) text (record { place = place; text = rest.now; below = plain_lines below.now }) }
{
    let at = lines.len().saturating_sub(below.len() + 1);
    let line = lines[at].text.as_str();
    Quoted {
        text,
        line: at as u64,
        column: line.len().saturating_sub(rest.len()) as u64,
    }
}
