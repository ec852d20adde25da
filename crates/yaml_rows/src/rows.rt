// The row that begins with a line, and its value.
ghost use Rattle.std.specs.Prelude.{◌≡◌, ◌+◌, ◌<◌, ◌≤◌, ◌^◌, IfOk, List, length};
ghost use Rattle.ytt_base.specs.Outcomes.{Gives};
ghost use Rattle.yaml_spec.specs.Held.{plain_line, plain_lines};
ghost use Rattle.yaml_spec.specs.Noted.{Comment};
ghost use Rattle.yaml_spec.specs.Rows.{least_behind, open_place_of, owner_of, passing, row_at, row_value};
ghost use Rattle.yaml_noted.specs.View.{comments_of};
ghost use Rattle.yaml_rows.specs.View.{heads_of, row_of, value_of};

use crate::heads::{has_tab_before, read_heads};
use crate::row::{Heads, Row};
use crate::values::{Value, read_value};
use std::alloc::Global;
use yaml_noted::Comments;
use yaml_text::{Cursor, indent, skip_white};
use ytt_base::fault::{Place, Stop};
use ytt_base::line::Line;
use ytt_base::text::Memory;

/// The least indent of what the entry at the last head takes, and `least` where there is no head.
fn least_behind(least: usize, heads: &Heads) -> usize
    requires { least_behind least (heads_of heads.now) ≤ 2 ^ 63 }
    ensures { result ≡ least_behind least (heads_of heads.now) }
{
    match heads.as_slice().last() {
        Some(head) => head.column + 1,
        None => least,
    }
}

/// Where a value that is left open is told: `stop` is the line of the marker that ends the document,
/// or 0.
pub fn open_place_of(stop: u32, place: Place) -> Place
    ensures { result ≡ open_place_of stop place }
{
    if stop == 0 {
        place
    } else {
        Place {
            file: place.file,
            line: stop,
        }
    }
}

/// The line on which an item starts, if it is the row's, or 0.
fn owner_of(row: &Row<'_>) -> u32
    ensures { (before : List Comment) → result ≡ owner_of (row_of before row.now) }
{
    if row.is_owned {
        return row.place.line;
    }
    if row.heads.is_empty() {
        0
    } else {
        row.place.line
    }
}

/// The logical line that begins with this line.
///
/// `stop` is the line of the marker that ends the document, or 0. `is_owned` says that an item starts
/// on the line though it has no head, and `least` is the least indent of what the entry before takes.
pub fn row_at<'a>(
    alloc: Global,
    stop: u32,
    is_owned: bool,
    least: usize,
    line: &'a Line,
    below: &'a [Line],
) -> Result<Row<'a>, Memory>
    requires bound { least ≤ 2 ^ 63 }
    ensures row { IfOk result (λ r. (before : List Comment) → row_of before r ≡ row_at stop is_owned least before (plain_line line.now) (plain_lines below.now)) }
    ensures bound { IfOk result (λ r. r.least ≤ 2 ^ 63) }
{
    let text = line.text.as_str();
    let start = skip_white(text);
    let column = text.len() - start.len();
    let (heads, rest) = read_heads(alloc, column, has_tab_before(text), start)?;
    let least = least_behind(least, &heads);
    Ok(Row {
        place: line.place,
        indent: indent(text),
        heads,
        is_owned,
        least,
        open_place: open_place_of(stop, line.place),
        text: rest,
        below,
    })
}

/// The value of a row that has one, in which at most `left` collections may nest. `loose` are the
/// comments before a row without a head, and none for another.
pub fn row_value(alloc: Global, left: u32, row: &Row<'_>, loose: Comments) -> Result<Value, Stop>
    requires bound { row.now.least ≤ 2 ^ 63 }
    requires fits { row.now.place.line + length row.now.below.now < 2 ^ 32 }
    ensures { (before : List Comment) → passing (row_of before row.now) ≡ comments_of loose → Gives value_of result (row_value left (row_of before row.now)) }
{
    let cursor = Cursor {
        place: row.place,
        text: row.text,
        below: row.below,
    };
    let owner = owner_of(row);
    read_value(alloc, left, row.open_place, row.least, owner, loose, cursor)
}
