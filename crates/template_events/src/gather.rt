// What comments say, each together with those that continue it.
ghost use Rattle.std.specs.Prelude.{◌≡◌, ◌==◌, ◌++◌, [], ◌∷◌, ℕ, suc, true, false, IfOk, OnOk, MatchOption, None, Some, option_map};
ghost use Rattle.notes_read.specs.View.{said_of};
ghost use Rattle.star_grammar.specs.CodeReaders.{GivesCode};
ghost use Rattle.template_events.specs.Hearing as spec;
ghost use Rattle.template_events.specs.Heard.{AreOpenBefore, ContinuesHeld, Gathers, GrowsFrom, with_held};
ghost use Rattle.template_events.specs.Levels as level;
ghost use Rattle.template_events.specs.View as view;
ghost use Rattle.template_events.specs.View.{held_by, held_of, kept_of, owner_of, rows_of, start_of};
ghost use Rattle.yaml_noted.specs.View.{comment_of};
ghost use Rattle.yaml_spec.specs.Noted.{code_in, is_code};

use crate::event::{Owner, Row, Rows, Start};
use crate::kept::{Growth, Kept, grown, line_of, open_at_end, said_by};
use notes_read::Comment;
use std::alloc::Global;
use std::mem;
use yaml_noted::RawComment;
use ytt_base::fault::Stop;
use ytt_base::text::Memory;

/// How a template's text is heard: where memory comes from, the number of its file, and whether comments of no known form say nothing.
#[derive(Clone, Copy)]
pub struct Setting {
    pub alloc: Global,
    pub file: u32,
    pub ignore_unknown: bool,
}

/// A comment that may go on.
#[derive(Drop)]
pub struct Held<'a> {
    /// The item to which it belongs.
    pub owner: Option<Owner>,
    pub comment: Kept<'a>,
    /// The line of its last part.
    pub last: u32,
}

/// What was gathered so far: rows, and the comment behind them that may go on.
#[derive(Drop)]
pub struct Gathering<'a> {
    pub rows: Rows,
    pub held: Option<Held<'a>>,
}

fn push(rows: &mut Rows, row: Row) -> Result<(), Memory>
    ensures { OnOk result (rows.new.items ≡ rows.old.items ++ row ∷ []) }
{
    rows.push(row)?;
    Ok(())
}

/// The code of a comment, or `None` where the comment is none.
#[tactic(auto, using(notes_read::proofs::Texts::texts))]
fn code_in(text: &str) -> Option<&str>
    ensures { MatchOption result (is_code text.now ≡ false) (λ code. (is_code text.now ≡ true) × (code.now ≡ code_in text.now)) }
{
    text.strip_prefix("#@ ")
}

/// Whether a line is the one below another.
fn is_below(line: u32, above: u32) -> bool
    ensures { result ≡ (line == suc above) }
{
    match line.checked_sub(1) {
        Some(before) => before == above,
        None => false,
    }
}

/// With what a comment of no item continues this one, or `None` where it doesn't.
fn continuation<'a>(
    alloc: Global,
    held: &Held<'_>,
    below: &'a RawComment,
) -> Result<Option<Growth<'a>>, Memory>
    ensures open { IfOk result (GrowsFrom (kept_of held.now.comment).text) }
    ensures goes_on { ContinuesHeld (Some (held_by held.now)) None (comment_of below.now) result }
{
    if !below.own_line || !is_below(below.line, held.last) {
        return Ok(None);
    }
    let Some(code) = code_in(below.text.as_str()) else {
        return Ok(None);
    };
    match open_at_end(alloc, &held.comment)? {
        Some(open) => Ok(Some(Growth { code, open })),
        None => Ok(None),
    }
}

/// With what a comment continues what is held. The comment of an item continues none.
fn going_on<'a>(
    alloc: Global,
    held: &Option<Held<'_>>,
    owner: Option<Owner>,
    below: &'a RawComment,
) -> Result<Option<Growth<'a>>, Memory>
    ensures open { IfOk result (AreOpenBefore (held_of held.now)) }
    ensures goes_on { ContinuesHeld (held_of held.now) (option_map owner_of owner) (comment_of below.now) result }
{
    match (held, owner) {
        (Some(held), None) => continuation(alloc, held, below),
        _ => Ok(None),
    }
}

/// What is held with more code, up to this line.
fn longer_held<'a>(
    alloc: Global,
    held: Option<Held<'a>>,
    growth: Growth<'_>,
    line: u32,
) -> Result<Option<Held<'a>>, Memory>
    requires { AreOpenBefore (held_of held) (Some growth) }
    ensures { IfOk result (λ h. held_of h ≡ spec.grown (held_of held.entry) growth.entry.code.now line) }
{
    match held {
        Some(held) => Ok(Some(Held {
            owner: held.owner,
            comment: grown(alloc, held.comment, growth)?,
            last: line,
        })),
        None => Ok(None),
    }
}

/// A comment that is held from now on.
fn held_from<'a>(owner: Option<Owner>, comment: &'a RawComment) -> Held<'a>
    ensures { held_by result ≡ spec.held_from (option_map owner_of owner) (comment_of comment.now) }
{
    Held {
        owner,
        comment: Kept::Read(comment),
        last: comment.line,
    }
}

fn row_of(owner: Option<Owner>, line: u32, said: Comment) -> Row
    ensures { (file : ℕ) → view.row_of file result ≡ spec.row_of (option_map owner_of owner) line (said_of file said) }
{
    match owner {
        Some(owner) => Row::Beside(owner.level, owner.kind, owner.is_collection, line, said),
        None => Row::Says(line, said),
    }
}

/// The row of what was said, or `None` where the comment is ignored.
fn spoken(owner: Option<Owner>, line: u32, said: Comment) -> Option<Row>
    ensures { (file : ℕ) → view.rows_in file result ≡ spec.spoken (option_map owner_of owner) line (said_of file said) }
{
    match said {
        Comment::Ignored => None,
        said => Some(row_of(owner, line, said)),
    }
}

/// The row of a comment.
fn heard(setting: Setting, held: Held<'_>) -> Result<Option<Row>, Stop>
    ensures { GivesCode (view.rows_in setting.file) result (λ r. spec.heard r setting.ignore_unknown setting.file (held_by held.entry)) }
{
    let owner = held.owner;
    let line = line_of(&held.comment);
    let said = said_by(
        setting.alloc,
        held.comment,
        setting.file,
        setting.ignore_unknown,
    )?;
    Ok(spoken(owner, line, said))
}

/// Adds a row, if there is one.
fn add(row: Option<Row>, rows: &mut Rows) -> Result<(), Memory>
    ensures { (file : ℕ) → OnOk result (rows_of file rows.new.items ≡ rows_of file rows.old.items ++ view.rows_in file row) }
{
    match row {
        Some(row) => push(rows, row),
        None => Ok(()),
    }
}

/// Adds the row of what is held.
fn add_held(setting: Setting, held: Option<Held<'_>>, rows: &mut Rows) -> Result<(), Stop>
    ensures { GivesCode (λ _. rows_of setting.file rows.new.items) result (with_held setting rows.old.items held.entry) }
{
    match held {
        Some(held) => {
            let row = heard(setting, held)?;
            add(row, rows)?;
            Ok(())
        }
        None => Ok(()),
    }
}

/// Lets go of what is held, and adds its row.
pub fn let_go(setting: Setting, gathering: &mut Gathering<'_>) -> Result<(), Stop>
    ensures rows { GivesCode (λ _. rows_of setting.file gathering.new.rows.items) result (with_held setting gathering.old.rows.items gathering.old.held) }
    ensures held { gathering.new.held ≡ None }
{
    let held = mem::replace(&mut gathering.held, None);
    add_held(setting, held, &mut gathering.rows)
}

/// Holds a comment from now on, where none is held.
fn hold<'a>(owner: Option<Owner>, comment: &'a RawComment, gathering: &mut Gathering<'a>)
    requires { gathering.old.held ≡ None }
    ensures held { held_of gathering.new.held ≡ Some (spec.held_from (option_map owner_of owner) (comment_of comment.now)) }
    ensures rows { gathering.new.rows ≡ gathering.old.rows }
{
    gathering.held = Some(held_from(owner, comment));
}

/// Gathers a comment: it continues what is held, or is held from now on.
pub fn gather_comment<'a>(
    setting: Setting,
    owner: Option<Owner>,
    comment: &'a RawComment,
    gathering: &mut Gathering<'a>,
) -> Result<(), Stop>
    ensures { Gathers setting (level.comment (option_map owner_of owner) (comment_of comment.now) ∷ []) gathering.old gathering.new result }
{
    if let Some(growth) = going_on(setting.alloc, &gathering.held, owner, comment)? {
        let held = mem::replace(&mut gathering.held, None);
        gathering.held = longer_held(setting.alloc, held, growth, comment.line)?;
        return Ok(());
    }
    let_go(setting, gathering)?;
    hold(owner, comment, gathering);
    Ok(())
}

/// Gathers an item that begins: what is held ends before it.
pub fn gather_start(
    setting: Setting,
    start: Start,
    gathering: &mut Gathering<'_>,
) -> Result<(), Stop>
    ensures { Gathers setting (start_of start ∷ []) gathering.old gathering.new result }
{
    let_go(setting, gathering)?;
    push(&mut gathering.rows, Row::Begins(start))?;
    Ok(())
}
