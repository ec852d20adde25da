// What stands at a place between tokens.
ghost use Rattle.std.specs.Prelude.{◌≡◌, IfOk};
ghost use Rattle.yaml_flow.specs.View.{look_of};
ghost use Rattle.yaml_spec.specs.Flow.{look};
ghost use Rattle.yaml_spec.specs.Noted.{is_note};

use std::alloc::Global;
use yaml_noted::RawComment;
use yaml_text::{first, is_note, skip_white};
use ytt_base::fault::Place;
use ytt_base::text::{Memory, Text};

/// What stands at a place between tokens.
#[derive(Drop)]
pub(crate) enum Look {
    /// Nothing more on the line.
    LineOver,
    Comment(RawComment),
    /// A comment of the template, which may not stand in brackets.
    NoteComment,
    Token,
}

/// What stands at the start of a text; `is_fresh` says that this is a line's start. A comment begins
/// there or after white space (YAML 1.2.2, 6.6).
pub(crate) fn look_at(
    alloc: Global,
    is_fresh: bool,
    place: Place,
    text: &str,
) -> Result<Look, Memory>
    ensures { IfOk result (λ l. look_of l ≡ look is_fresh place text.now) }
{
    let rest = skip_white(text);
    if rest.is_empty() {
        return Ok(Look::LineOver);
    }
    if first(rest) != b'#' || !(is_fresh || rest.len() < text.len()) {
        return Ok(Look::Token);
    }
    if is_note(rest) {
        return Ok(Look::NoteComment);
    }
    Ok(Look::Comment(RawComment {
        line: place.line,
        own_line: is_fresh,
        text: Text::of(alloc, rest)?,
    }))
}
