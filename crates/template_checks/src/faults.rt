// What is wrong with one row where it stands.
ghost use Rattle.std.specs.Prelude.{◌≡◌, ℕ, Bool, List, ◌∷◌, false, true};
ghost use Rattle.notes_read.specs.View.{said_of};
ghost use Rattle.star_tree.specs.View.{item_kind_of};
ghost use Rattle.template_events.specs.View.{row_of};
ghost use Rattle.template_spec.specs.Comments as comments;
ghost use Rattle.template_spec.specs.Misplaced as spec;
ghost use Rattle.template_pass.specs.Levels as levels;
ghost use Rattle.template_pass.specs.Levels.{is_lost, next_level};
ghost use Rattle.template_pass.specs.Rows as plain;
ghost use Rattle.template_checks.specs.Held.{opens_of, wrong_of};

use crate::blocks::Blocks;
use crate::statements::statements_fault;
use crate::wrong::{Wrong, unless};
use notes_read::Comment;
use star_tree::ItemKind;
use template_events::Row;
use ytt_base::fault::{FaultKind, Place};

/// What may stand between an opener for one item and the item.
fn may_wait(comment: &Comment) -> bool
    ensures { (file : ℕ) → result ≡ spec.may_wait (said_of file comment.now) }
{
    match comment {
        Comment::Note(_, _) => true,
        Comment::Open(_, for_one) => *for_one,
        Comment::Code(_)
        | Comment::Else
        | Comment::Elif(_)
        | Comment::End
        | Comment::Value(_)
        | Comment::Ignored => false,
    }
}

fn said_fault(
    file: u32,
    blocks: &Blocks,
    next: Option<usize>,
    line: u32,
    comment: &Comment,
) -> Option<Wrong>
    ensures { wrong_of result ≡ levels.said_fault file (opens_of blocks.now) next line (said_of file comment.now) }
{
    match comment {
        Comment::Code(stmts) => {
            statements_fault(file, blocks, blocks.belongs(next), stmts.as_slice())
        }
        Comment::Open(_, _) => unless(blocks.has_room(), FaultKind::TooDeep, file, line),
        Comment::Elif(_) | Comment::Else => {
            unless(blocks.takes_branch(), FaultKind::BlockStray, file, line)
        }
        Comment::End => unless(blocks.takes_end(next), FaultKind::BlockStray, file, line),
        Comment::Value(_) | Comment::Note(_, _) | Comment::Ignored => None,
    }
}

/// Nothing but notes and further such openers comes between an opener for one item and the item.
#[tactic(auto, using(crate::proofs::Waiting::waiting_split))]
fn waiting_or_said(
    file: u32,
    blocks: &Blocks,
    next: Option<usize>,
    line: u32,
    comment: &Comment,
) -> Option<Wrong>
    ensures { wrong_of result ≡ levels.waiting_or_said file (opens_of blocks.now) next line (said_of file comment.now) }
{
    match blocks.waiting_line() {
        None => said_fault(file, blocks, next, line, comment),
        Some(open) => {
            if may_wait(comment) {
                return said_fault(file, blocks, next, line, comment);
            }
            Some(Wrong {
                kind: FaultKind::BlockOpen,
                place: Place { file, line: open },
            })
        }
    }
}

/// A value expression stands for a written scalar.
fn beside_fault(file: u32, is_collection: bool, line: u32, comment: &Comment) -> Option<Wrong>
    ensures { wrong_of result ≡ spec.beside_fault file is_collection line (said_of file comment.now) }
{
    match comment {
        Comment::Value(_) => unless(!is_collection, FaultKind::CodeForm, file, line),
        Comment::Code(_)
        | Comment::Open(_, _)
        | Comment::Else
        | Comment::Elif(_)
        | Comment::End
        | Comment::Note(_, _)
        | Comment::Ignored => None,
    }
}

/// What is wrong with a row where these blocks are open and an item of that level begins next.
pub fn row_fault(file: u32, blocks: &Blocks, next: Option<usize>, row: &Row) -> Option<Wrong>
    ensures { wrong_of result ≡ levels.row_fault file (opens_of blocks.now) next (row_of file row.now) }
{
    match row {
        Row::Begins(start) => unless(
            blocks.holds(start.level),
            FaultKind::BlockCrossed,
            file,
            start.line,
        ),
        Row::Beside(_, _, is_collection, line, comment) => {
            beside_fault(file, *is_collection, *line, comment)
        }
        Row::Says(line, comment) => waiting_or_said(file, blocks, next, *line, comment),
    }
}

// ---- notes

/// Whether a note of this name is for documents alone.
#[tactic(auto, using(notes_read::proofs::Texts::texts))]
fn is_data_note(name: &str) -> bool
    ensures { result ≡ comments.is_data_note name.now }
{
    name.starts_with("data/")
}

fn is_document(kind: ItemKind) -> bool
    ensures { result ≡ spec.is_document (item_kind_of kind) }
{
    match kind {
        ItemKind::Document => true,
        ItemKind::Pair | ItemKind::Element => false,
    }
}

/// The fault of a note that stands alone; whether one is lost here, and one of documents, is known.
fn alone_fault(
    file: u32,
    line: u32,
    comment: &Comment,
    lost: bool,
    lost_data: bool,
) -> Option<Wrong>
    ensures { (rs : List plain.Row) → lost ≡ is_lost false rs → lost_data ≡ is_lost true rs → wrong_of result ≡ levels.note_fault file (plain.says line (said_of file comment.now)) rs }
{
    match comment {
        Comment::Note(name, _) => {
            if is_data_note(name.as_str()) {
                unless(!lost_data, FaultKind::NoteForm, file, line)
            } else {
                unless(!lost, FaultKind::NoteForm, file, line)
            }
        }
        Comment::Code(_)
        | Comment::Open(_, _)
        | Comment::Else
        | Comment::Elif(_)
        | Comment::End
        | Comment::Value(_)
        | Comment::Ignored => None,
    }
}

/// The fault of a note beside an item.
fn noted_fault(file: u32, kind: ItemKind, line: u32, comment: &Comment) -> Option<Wrong>
    ensures { (rs : List plain.Row) (d : ℕ) (b : Bool) → wrong_of result ≡ levels.note_fault file (plain.beside d (item_kind_of kind) b line (said_of file comment.now)) rs }
{
    match comment {
        Comment::Note(name, _) => unless(
            is_document(kind) || !is_data_note(name.as_str()),
            FaultKind::NoteForm,
            file,
            line,
        ),
        Comment::Code(_)
        | Comment::Open(_, _)
        | Comment::Else
        | Comment::Elif(_)
        | Comment::End
        | Comment::Value(_)
        | Comment::Ignored => None,
    }
}

/// The fault of a row's note, before rows where a note is lost or not, and one of documents.
pub fn note_fault(file: u32, row: &Row, lost: bool, lost_data: bool) -> Option<Wrong>
    ensures { (rs : List plain.Row) → lost ≡ is_lost false rs → lost_data ≡ is_lost true rs → wrong_of result ≡ levels.note_fault file (row_of file row.now) rs }
{
    match row {
        Row::Begins(_) => None,
        Row::Beside(_, kind, _, line, comment) => noted_fault(file, *kind, *line, comment),
        Row::Says(line, comment) => alone_fault(file, *line, comment, lost, lost_data),
    }
}

fn lost_before_said(comment: &Comment, lost: bool) -> bool
    ensures { (file line : ℕ) (z : Bool) (rs : List plain.Row) → lost ≡ is_lost z rs → result ≡ is_lost z (plain.says line (said_of file comment.now) ∷ rs) }
{
    match comment {
        Comment::Else | Comment::Elif(_) | Comment::End => true,
        Comment::Code(_)
        | Comment::Open(_, _)
        | Comment::Value(_)
        | Comment::Note(_, _)
        | Comment::Ignored => lost,
    }
}

/// Whether a note, of documents or not, is lost before a row, where it is known whether it is behind it.
pub fn lost_before(is_data: bool, row: &Row, lost: bool) -> bool
    ensures { (file : ℕ) (rs : List plain.Row) → lost ≡ is_lost is_data rs → result ≡ is_lost is_data (row_of file row.now ∷ rs) }
{
    match row {
        Row::Begins(start) => !is_document(start.kind) && is_data,
        Row::Beside(_, _, _, _, _) => lost,
        Row::Says(_, comment) => lost_before_said(comment, lost),
    }
}

/// The level of the item that begins first from a row on, where that behind it is known.
pub fn next_before(row: &Row, next: Option<usize>) -> Option<usize>
    ensures { (file : ℕ) (rs : List plain.Row) → next ≡ next_level rs → result ≡ next_level (row_of file row.now ∷ rs) }
{
    match row {
        Row::Begins(start) => Some(start.level),
        Row::Beside(_, _, _, _, _) | Row::Says(_, _) => next,
    }
}
