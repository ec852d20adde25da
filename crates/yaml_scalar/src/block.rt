// Block scalars by positions.
ghost use Rattle.std.specs.Prelude.{◌≡◌, true};
ghost use Rattle.ytt_base.specs.Outcomes.{Gives};
ghost use Rattle.yaml_spec.specs.Held.{plain_lines};
ghost use Rattle.yaml_spec.specs.Openers.{starts_block};
ghost use Rattle.yaml_spec.specs.Positions.{block_at, cursor_at};
ghost use Rattle.yaml_scalar.specs.View.{quoted_of};

use crate::position::{Quoted, cursor_at, read_up_to};
use std::alloc::Global;
use yaml_blocks::{least_under, read_lines};
use ytt_base::fault::Stop;
use ytt_base::line::Lines;

/// The string of a block scalar, and the position behind it: the end of its last line (YAML 1.2.2,
/// 8.1).
///
/// `line` is the index of a line from 0, and `column` the bytes before `|` or `>` in it. `parent`
/// is the indent of the entry that it belongs to, -1 in a document. Behind the indicator may stand
/// a digit from 1 to 9 and `-` or `+`, in either order, and then white space or a comment. The
/// content indent is the parent's plus the digit, or that of the first line that is more than
/// spaces, if that is above the parent's. A line of spaces alone is empty up to the content indent;
/// behind the first content, what is longer than that is content.
///
/// With `|` breaks stay. With `>` a break between two lines that begin with no white space is
/// folded: it is a space, and so many empty lines between are so many breaks. Next to a line that
/// begins with white space they stay, and so many empty lines between keep one break more. After the
/// last line with content `-` keeps no break, `+` all, and neither keeps one.
///
/// Another header is YamlForm at its line. Without a digit, a line of spaces alone that is longer
/// than the content indent and stands before the first content is YamlForm there. Want of memory
/// is `Stop::Memory`.
pub fn read_block(
    alloc: Global,
    lines: &Lines,
    line: u64,
    column: u64,
    parent: i64,
) -> Result<Quoted, Stop>
    requires { let here = cursor_at (plain_lines lines.now) line column in starts_block here.text ≡ true }
    ensures { Gives quoted_of result (block_at (plain_lines lines.now) line column parent) }
{
    let all = lines.as_slice();
    let cursor = cursor_at(all, line as usize, column as usize);
    let (text, _comment, size) = read_lines(alloc, least_under(parent), cursor)?;
    Ok(read_up_to(all, text, "", &cursor.below[size..]))
}
