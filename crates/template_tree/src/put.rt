// What each row puts where.
ghost use Rattle.std.specs.Prelude.{◌≡◌, ℕ, [], ◌∷◌, ◌++◌, IfOk, OnOk};
ghost use Rattle.notes_read.specs.View.{said_of};
ghost use Rattle.star_tree.specs.Whole.{exprs_of};
ghost use Rattle.template_events.specs.View.{row_of, rows_of};
ghost use Rattle.template_spec.specs.Comments.{a_note};
ghost use Rattle.template_pass.specs.Building as building;
ghost use Rattle.template_pass.specs.Rows as plain;
ghost use Rattle.template_tree.specs.Puts.{PutNext, befores_of, puts_of};
ghost use Rattle.template_tree.specs.Marked.{put_at, puts_at, said_at};

use crate::tree::{TNote, TNotes};
use notes_read::Comment;
use sqlite_items::Items;
use star_tree::code::Args;
use std::alloc::Global;
use template_events::{Row, Rows, Start};
use ytt_base::text::{Memory, Text};

/// An item with the notes before it; what is said beside it; or a statement, an opener, a branch or an end with its level.
#[derive(Drop)]
pub enum Put {
    Item(Start, TNotes),
    Beside(usize, u32, Comment),
    Mark(usize, u32, Comment),
}

/// What rows put, in text order.
pub type Puts = Items<Put>;

fn push(puts: &mut Puts, put: Put) -> Result<(), Memory>
    ensures { OnOk result (puts.new ≡ puts.old ++ put ∷ []) }
{
    puts.push(put)?;
    Ok(())
}

/// Puts a statement, an opener, a branch or an end; the notes go on waiting.
fn put_mark(
    level: usize,
    line: u32,
    comment: Comment,
    waiting: TNotes,
    puts: &mut Puts,
) -> Result<TNotes, Memory>
    ensures puts { (file : ℕ) → OnOk result (puts_of file puts.new ≡ puts_of file puts.old ++ building.put_mark level line (said_of file comment) ∷ []) }
    ensures notes { IfOk result (λ ns. ns ≡ waiting) }
{
    push(puts, Put::Mark(level, line, comment))?;
    Ok(waiting)
}

fn put_note(line: u32, name: Text, args: Args, waiting: TNotes) -> Result<TNotes, Memory>
    ensures { (file : ℕ) → IfOk result (λ ns. befores_of file ns ≡ building.waiting (befores_of file waiting) (plain.says line (a_note name (exprs_of file args)))) }
{
    let mut notes = waiting;
    notes.push(TNote { name, args, line })?;
    Ok(notes)
}

/// What is said on a line of its own, with the notes that wait for an item.
fn put_said(
    level: usize,
    line: u32,
    comment: Comment,
    waiting: TNotes,
    puts: &mut Puts,
) -> Result<TNotes, Memory>
    ensures puts { (file : ℕ) → OnOk result (puts_of file puts.new ≡ puts_of file puts.old ++ said_at level line (said_of file comment)) }
    ensures notes { (file : ℕ) → IfOk result (λ ns. befores_of file ns ≡ building.waiting (befores_of file waiting) (plain.says line (said_of file comment))) }
{
    match comment {
        Comment::Note(name, args) => Ok(put_note(line, name, args, waiting)?),
        Comment::Value(_) | Comment::Ignored => {
            drop(comment);
            Ok(waiting)
        }
        Comment::Code(stmts) => {
            let mark = Comment::Code(stmts);
            Ok(put_mark(level, line, mark, waiting, puts)?)
        }
        Comment::Open(header, for_one) => {
            let mark = Comment::Open(header, for_one);
            Ok(put_mark(level, line, mark, waiting, puts)?)
        }
        Comment::Elif(test) => {
            let mark = Comment::Elif(test);
            Ok(put_mark(level, line, mark, waiting, puts)?)
        }
        Comment::Else => Ok(put_mark(level, line, Comment::Else, waiting, puts)?),
        Comment::End => Ok(put_mark(level, line, Comment::End, waiting, puts)?),
    }
}

/// What a row puts whose mark goes to this level, behind these notes; and the notes that wait behind it.
fn put_row(
    alloc: Global,
    level: usize,
    row: Row,
    waiting: TNotes,
    puts: &mut Puts,
) -> Result<TNotes, Memory>
    ensures puts { (file : ℕ) → OnOk result (puts_of file puts.new ≡ puts_of file puts.old ++ put_at level (befores_of file waiting) (row_of file row)) }
    ensures notes { (file : ℕ) → IfOk result (λ ns. befores_of file ns ≡ building.waiting (befores_of file waiting) (row_of file row)) }
{
    match row {
        Row::Begins(start) => {
            push(puts, Put::Item(start, waiting))?;
            Ok(Items::new(alloc))
        }
        Row::Beside(at, _, _, line, comment) => {
            push(puts, Put::Beside(at, line, comment))?;
            Ok(waiting)
        }
        Row::Says(line, comment) => Ok(put_said(level, line, comment, waiting, puts)?),
    }
}

/// What the next row puts, whose mark goes to this level.
fn put_next(
    alloc: Global,
    level: usize,
    left: &mut Rows,
    waiting: TNotes,
    puts: &mut Puts,
) -> Result<TNotes, Memory>
    ensures { IfOk result (λ ns. PutNext level left.old.items left.new.items waiting ns puts.old puts.new) }
{
    match left.pop() {
        Some(row) => {
            let notes = put_row(alloc, level, row, waiting, puts)?;
            Ok(notes)
        }
        None => Ok(waiting),
    }
}

/// What rows put whose marks go to these levels.
pub fn puts(alloc: Global, rows: Rows, levels: &[usize]) -> Result<Puts, Memory>
    ensures { (file : ℕ) → IfOk result (λ ps. puts_of file ps ≡ puts_at levels.now [] (rows_of file rows.items)) }
{
    let mut left = rows;
    left.reverse();
    let mut waiting: TNotes = Items::new(alloc);
    let mut puts: Puts = Items::new(alloc);
    for level in levels {
        waiting = put_next(alloc, *level, &mut left, waiting, &mut puts)?;
    }
    Ok(puts)
}
