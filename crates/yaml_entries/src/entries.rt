// What a row has at its last head.
ghost use Rattle.std.specs.Prelude.{◌≡◌, ◌-◌, ◌<◌, ◌≤◌, [], IfOk, List, Ok, length, option_map};
ghost use Rattle.ytt_base.specs.Outcomes.{Gives};
ghost use Rattle.ytt_base.specs.View.{key_of};
ghost use Rattle.yaml_pass.specs.Machine.{begin_content, filled};
ghost use Rattle.yaml_noted.specs.View.{comment_of, comments_of};
ghost use Rattle.yaml_entries.specs.Heads.{FitsRow, begin_last, key_in};
ghost use Rattle.yaml_entries.specs.View.{begun_of, extent_of, found_of, started_of};
ghost use Rattle.yaml_rows.specs.View.{mark_of, row_of, value_of};
ghost use Rattle.yaml_spec.specs.Entries.{row_comment};
ghost use Rattle.yaml_spec.specs.Noted.{Comment};
ghost use Rattle.yaml_spec.specs.Rows.{taken};

use crate::frames::{Begun, Extent, Found, Note, Opened, Started};
use sqlite_items::Items;
use std::alloc::Global;
use yaml_noted::{Comments, RawComment};
use yaml_rows::{Mark, Row, Value, has_value, row_value};
use yaml_text::refusal;
use ytt_base::fault::{Place, Stop};
use ytt_base::text::{Memory, Text};
use ytt_base::tree::Key;

fn copy_comment(comment: &Option<RawComment>) -> Result<Option<RawComment>, Memory>
    ensures { IfOk result (λ c. c ≡ comment.now) }
{
    match comment {
        None => Ok(None),
        Some(comment) => Ok(Some(RawComment {
            line: comment.line,
            own_line: comment.own_line,
            text: comment.text.copy()?,
        })),
    }
}

/// The comment on a row without a value. Its only error is want of memory.
pub fn row_comment(alloc: Global, row: &Row<'_>) -> Result<Option<RawComment>, Memory>
    ensures { (before : List Comment) → IfOk result (λ c. option_map comment_of c ≡ row_comment (row_of before row.now)) }
{
    if row.text.is_empty() {
        return Ok(None);
    }
    Ok(Some(RawComment {
        line: row.place.line,
        own_line: false,
        text: Text::of(alloc, row.text)?,
    }))
}

/// The content of a value that begins on this line, and how far it reaches.
pub fn found_by(value: Value, line: u32) -> (Found, Extent)
    ensures found { found_of result.0 ≡ ((value_of value).content, (value_of value).trailing) }
    ensures extent { extent_of result.1 ≡ (value.last - line, (value_of value).loose) }
{
    let Value {
        content,
        loose,
        trailing,
        last,
    } = value;
    (
        Found { content, trailing },
        Extent {
            skip: last.saturating_sub(line),
            loose,
        },
    )
}

/// What an entry has by a value that begins on this line.
fn filled_by(value: Value, line: u32) -> Result<Started, Memory>
    ensures content { IfOk result (λ s. started_of s ≡ ((value_of value).trailing, filled ((value_of value).content, (value_of value).trailing))) }
    ensures extent { IfOk result (λ s. extent_of s.extent ≡ (value.last - line, (value_of value).loose)) }
{
    let (found, extent) = found_by(value, line);
    Ok(Started {
        trailing: copy_comment(&found.trailing)?,
        hole: Some(found),
        extent,
    })
}

/// What stands behind the last head of a row.
fn begin_content(alloc: Global, left: u32, row: &Row<'_>) -> Result<Started, Stop>
    requires heads { 0 < length row.now.heads }
    requires shallow { left ≤ 100 }
    requires fits { FitsRow row.now }
    ensures content { (before : List Comment) → Gives started_of result (begin_content left (row_of before row.now)) }
    ensures extent { (before : List Comment) → IfOk result (λ s. taken (row_of before row.now) ≡ Ok (extent_of s.extent)) }
{
    if !has_value(row) {
        return Ok(Started {
            trailing: row_comment(alloc, row)?,
            hole: None,
            extent: Extent {
                skip: 0,
                loose: Items::new(alloc),
            },
        });
    }
    let value = row_value(alloc, left, row, Items::new(alloc))?;
    Ok(filled_by(value, row.place.line)?)
}

/// The key of an entry, if it has one, or why it can't be one.
fn key_in(alloc: Global, mark: &Mark, place: Place) -> Result<Option<Key>, Stop>
    ensures { Gives (option_map key_of) result (key_in place (mark_of mark.now)) }
{
    match mark {
        Mark::Dash => Ok(None),
        Mark::Key(key) => Ok(Some(key.copy()?)),
        Mark::NoKey(kind) => Err(refusal(alloc, *kind, place)),
    }
}

/// The entry at the last head of a row, behind these comments, in which at most `left` collections may nest.
///
/// Its key is read before its content, so the first fault of the two is the one that comes. Want of memory is `Stop::Memory`.
pub fn begin_last(
    alloc: Global,
    left: u32,
    row: &Row<'_>,
    mark: &Mark,
    before: Comments,
) -> Result<Begun, Stop>
    requires heads { 0 < length row.now.heads }
    requires shallow { left ≤ 100 }
    requires fits { FitsRow row.now }
    ensures content { Gives begun_of result (begin_last left (row_of (comments_of before) row.now) (mark_of mark.now)) }
    ensures extent { (bs : List Comment) → IfOk result (λ b. taken (row_of bs row.now) ≡ Ok (extent_of b.inner.extent)) }
    ensures frames { IfOk result (λ b. b.inner.frames ≡ []) }
{
    let key = key_in(alloc, mark, row.place)?;
    let Started {
        trailing,
        hole,
        extent,
    } = begin_content(alloc, left, row)?;
    Ok(Begun {
        note: Note {
            place: row.place,
            key,
            before,
            trailing,
        },
        inner: Opened {
            frames: Items::new(alloc),
            hole,
            extent,
        },
    })
}
