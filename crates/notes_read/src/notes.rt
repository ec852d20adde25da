// Notes.
ghost use Rattle.std.specs.Prelude.{◌≡◌, Err};
ghost use Rattle.notes_read.specs.View.{said_of};
ghost use Rattle.star_grammar.specs.CodeReaders.{GivesCode};
ghost use Rattle.star_tree.specs.Whole.{exprs_of};
ghost use Rattle.template_spec.specs.Comments as spec;
ghost use Rattle.ytt_base.specs.declared.fault.Stop.TheVariants as stop;
ghost use Rattle.ytt_base.specs.Outcomes.{Gives, fault_at};

use crate::code::read_args;
use crate::comment::Comment;
use crate::words::{is_bare_note, is_note_name};
use star_tree::code::Args;
use std::alloc::Global;
use ytt_base::fault::{Fault, FaultKind, Place, Stop};
use ytt_base::text::Text;

/// A fault without a detail.
pub fn fault(alloc: Global, kind: FaultKind, at: Place) -> Stop
    ensures { result ≡ stop.Fault (fault_at kind at) }
{
    Stop::Fault(Fault {
        kind,
        place: Some(at),
        detail: Text::new(alloc),
    })
}

/// What stands before the first space.
#[tactic(auto, using(crate::proofs::Splitting::splits))]
fn name_in(text: &str) -> &str
    ensures { result.now ≡ spec.name_in text.now }
{
    match text.split_once(' ') {
        Some((name, _)) => name,
        None => text,
    }
}

/// What stands behind it.
#[tactic(auto, using(crate::proofs::Splitting::splits))]
fn arguments_in(text: &str) -> &str
    ensures { result.now ≡ spec.arguments_in text.now }
{
    match text.split_once(' ') {
        Some((_, arguments)) => arguments,
        None => "",
    }
}

/// The refusal of a note of no known name, with the name; or want of memory.
fn unknown_note(alloc: Global, name: &str, at: Place) -> Stop
    ensures { Gives (said_of at.file) (Err result) (spec.unknown_note at name.now) }
{
    match Text::of(alloc, name) {
        Ok(detail) => Stop::Fault(Fault {
            kind: FaultKind::NoteUnknown,
            place: Some(at),
            detail,
        }),
        Err(_) => Stop::Memory,
    }
}

/// The note of a known name with these arguments; NoteForm for one that may have none.
fn note_with(alloc: Global, name: &str, args: Args, at: Place) -> Result<Comment, Stop>
    ensures { Gives (said_of at.file) result (spec.note_with at name.now (exprs_of at.file args)) }
{
    if !args.as_slice().is_empty() && is_bare_note(name) {
        return Err(fault(alloc, FaultKind::NoteForm, at));
    }
    Ok(Comment::Note(Text::of(alloc, name)?, args))
}

/// The note of a known name, with the arguments that stand in this text.
fn read_known(alloc: Global, name: &str, arguments: &str, at: Place) -> Result<Comment, Stop>
    ensures { GivesCode (said_of at.file) result (λ r. spec.known_said r at name.now arguments.now) }
{
    let args = read_args(alloc, arguments, at)?;
    note_with(alloc, name, args, at)
}

/// A note, from behind its `#@`.
pub fn read_note(alloc: Global, text: &str, at: Place) -> Result<Comment, Stop>
    ensures { GivesCode (said_of at.file) result (λ r. spec.note_said r at text.now) }
{
    if text.is_empty() {
        return Err(fault(alloc, FaultKind::NoteForm, at));
    }
    let name = name_in(text);
    if !is_note_name(name) {
        return Err(unknown_note(alloc, name, at));
    }
    read_known(alloc, name, arguments_in(text), at)
}
