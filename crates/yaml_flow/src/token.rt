// From one token to the next.
ghost use Rattle.std.specs.Prelude.{[], ◌∷◌, ◌++◌, ◌≡◌, ◌<◌, ◌≤◌, IfOk, OnOk};
ghost use Rattle.ytt_base.specs.Outcomes.{Gives};
ghost use Rattle.yaml_flow.specs.Members.{line_below, token_behind, trimmed};
ghost use Rattle.yaml_flow.specs.View.{comments_and_place};
ghost use Rattle.yaml_spec.specs.Bytes.{first};
ghost use Rattle.yaml_spec.specs.Flow.{size};
ghost use Rattle.yaml_spec.specs.Quotes.{after};
ghost use Rattle.yaml_noted.specs.View.{comments_of};
ghost use Rattle.yaml_text.specs.View.{cursor_of};

use crate::looks::{Look, look_at};
use std::alloc::Global;
use yaml_noted::{Comments, RawComment};
use yaml_text::{Cursor, behind, refusal, skip_white};
use ytt_base::fault::{FaultKind, Place, Stop};
use ytt_base::text::Memory;

/// The place behind the mark that begins the text, an ASCII character.
pub(crate) fn behind_mark<'a>(cursor: Cursor<'a>) -> Cursor<'a>
    requires some { 0 < first cursor.text.now }
    requires ascii { first cursor.text.now < 128 }
    ensures place { cursor_of result ≡ after 1 (cursor_of cursor.entry) }
    ensures within { size (cursor_of result) < size (cursor_of cursor.entry) }
{
    Cursor {
        place: cursor.place,
        text: behind(cursor.text, 1),
        below: cursor.below,
    }
}

/// The start of the line below. What is left open is told at `open_place` where there is none.
fn line_below<'a>(alloc: Global, open_place: Place, cursor: Cursor<'a>) -> Result<Cursor<'a>, Stop>
    ensures { Gives cursor_of result (line_below open_place (cursor_of cursor.entry)) }
{
    match cursor.below.split_first() {
        Some((line, below)) => Ok(Cursor {
            place: line.place,
            text: line.text.as_str(),
            below,
        }),
        None => Err(refusal(alloc, FaultKind::YamlForm, open_place)),
    }
}

/// Puts a comment behind the others.
fn add_comment(comments: &mut Comments, comment: RawComment) -> Result<(), Memory>
    ensures { OnOk result (comments.new ≡ comments.old ++ comment ∷ []) }
{
    comments.push(comment)?;
    Ok(())
}

/// The place with its text without the white space at its start.
fn without_white<'a>(cursor: Cursor<'a>) -> Cursor<'a>
    ensures { cursor_of result ≡ trimmed (cursor_of cursor.entry) }
{
    Cursor {
        place: cursor.place,
        text: skip_white(cursor.text),
        below: cursor.below,
    }
}

/// The place of the next token (YAML 1.2.2, 6.6 and 6.7), with the comments before it behind those
/// that stood there already. What is left open is told at `open_place` where there is none.
pub(crate) fn next_token<'a>(
    alloc: Global,
    open_place: Place,
    comments: Comments,
    cursor: Cursor<'a>,
) -> Result<(Comments, Cursor<'a>), Stop>
    ensures token { Gives comments_and_place result (token_behind open_place (comments_of comments) (cursor_of cursor.entry)) }
    ensures within { IfOk result (λ g. size (cursor_of g.1) ≤ size (cursor_of cursor.entry)) }
{
    let mut comments = comments;
    let mut here = cursor;
    let mut is_fresh = false;
    'lines: loop {
        match look_at(alloc, is_fresh, here.place, here.text)? {
            Look::Token => return Ok((comments, without_white(here))),
            Look::NoteComment => return Err(refusal(alloc, FaultKind::YamlOut, here.place)),
            Look::Comment(comment) => add_comment(&mut comments, comment)?,
            Look::LineOver => {}
        }
        here = line_below(alloc, open_place, here)?;
        is_fresh = true;
    }
}
