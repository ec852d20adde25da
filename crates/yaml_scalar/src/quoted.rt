// Scalars in quotes by positions.
ghost use Rattle.std.specs.Prelude.{◌≡◌, true};
ghost use Rattle.ytt_base.specs.Outcomes.{Gives};
ghost use Rattle.yaml_spec.specs.Held.{plain_lines};
ghost use Rattle.yaml_spec.specs.Positions.{cursor_at, quoted_at};
ghost use Rattle.yaml_spec.specs.Quotes.{starts_quote};
ghost use Rattle.yaml_scalar.specs.View.{quoted_of};

use crate::position::{Quoted, cursor_at, read_up_to};
use std::alloc::Global;
use yaml_quotes::read_quote;
use ytt_base::fault::Stop;
use ytt_base::line::Lines;

/// The string in quotes, and the position behind the closing quote (YAML 1.2.2, 5.7 and 7.3).
///
/// `line` is the index of a line from 0, and `column` the bytes before the opening quote in it, an
/// apostrophe or a double quote. The scalar may go on over any number of lines, which are folded:
/// white space around a break is dropped, a break is a space, and a break before so many empty
/// lines is so many breaks. In double quotes a backslash escapes; at a line's end it drops the
/// break, and white space before it stays.
///
/// A wrong escape, one of a surrogate or past 10FFFF among them, is YamlForm at its line. A quote
/// that nothing closes is YamlForm where it opens. Want of memory is `Stop::Memory`.
pub fn read_quoted(alloc: Global, lines: &Lines, line: u64, column: u64) -> Result<Quoted, Stop>
    requires { let here = cursor_at (plain_lines lines.now) line column in starts_quote here.text ≡ true }
    ensures { Gives quoted_of result (quoted_at (plain_lines lines.now) line column) }
{
    let all = lines.as_slice();
    let cursor = cursor_at(all, line as usize, column as usize);
    let (text, end) = read_quote(alloc, cursor.place, cursor)?;
    Ok(read_up_to(all, text, end.text, end.below))
}
