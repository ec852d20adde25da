// The pass over the rows from the left.
ghost use Rattle.std.specs.Prelude.{◌≡◌, ◌||◌, ◌==◌, ℕ, List, ◌++◌, ◌∷◌, [], IfOk, Option, OnOk, reverse};
ghost use Rattle.std.specs.List.{list_any};
ghost use Rattle.notes_read.specs.View.{said_of};
ghost use Rattle.template_events.specs.View.{row_of, rows_of};
ghost use Rattle.template_spec.specs.Misplaced.{earliest};
ghost use Rattle.template_pass.specs.Levels as levels;
ghost use Rattle.template_pass.specs.Rows as plain;
ghost use Rattle.template_checks.specs.Held.{open_in, opens_of, return_of, returned_of, wrong_of};
ghost use Rattle.template_checks.specs.Walk.{IsWalked, bare_row, flag, flagged_faults, mark_level, nexts_of};

use crate::blocks::{Block, Blocks, form_of};
use crate::faults::row_fault;
use crate::statements::{Return, put_returns};
use crate::wrong::{Wrong, earlier};
use notes_read::Comment;
use sqlite_items::Items;
use std::alloc::Global;
use template_events::Row;
use ytt_base::fault::FaultKind;
use ytt_base::text::Memory;

/// What the pass finds: the `def`s that hold items by the numbers of rows before them, the `return`s, the fault that stopped it, the
/// level of what each row puts between items, and the fault of a block that is open at the end.
#[derive(Drop)]
pub struct Walked {
    pub flags: Items<bool>,
    pub returned: Items<Return>,
    pub stop: Option<Wrong>,
    pub levels: Items<usize>,
    pub left: Option<Wrong>,
}

/// Raises the flag of a number.
fn raise(flags: &mut Items<bool>, at: usize) -> Result<(), Memory>
    ensures { OnOk result ((k : ℕ) → flag flags.new k ≡ (at == k || flag flags.old k)) }
{
    while flags.len() <= at {
        flags.push(false)?;
    }
    flags.set(at, true);
    Ok(())
}

/// Raises the flag of the innermost `def`, where it belongs to this level.
fn raise_holder(level: usize, block: Option<Block>, flags: &mut Items<bool>) -> Result<(), Memory>
    ensures { OnOk result ((k : ℕ) → flag flags.new k ≡ (list_any (λ h. h == k) (levels.holder_in level (open_in block)) || flag flags.old k)) }
{
    match block {
        None => Ok(()),
        Some(block) => {
            if block.level == level {
                return raise(flags, block.before);
            }
            Ok(())
        }
    }
}

/// Raises the flag of the `def` that holds a row's item.
fn put_holder(blocks: &Blocks, row: &Row, flags: &mut Items<bool>) -> Result<(), Memory>
    ensures { (file : ℕ) → OnOk result ((k : ℕ) → flag flags.new k ≡ (list_any (λ h. h == k) (levels.holder_at (opens_of blocks.now) (row_of file row.now)) || flag flags.old k)) }
{
    match row {
        Row::Begins(start) => raise_holder(start.level, blocks.innermost_def(), flags),
        Row::Beside(_, _, _, _, _) | Row::Says(_, _) => Ok(()),
    }
}

/// Puts a row's `return`s behind the others.
fn put_returned(
    file: u32,
    blocks: &Blocks,
    row: &Row,
    returned: &mut Items<Return>,
) -> Result<(), Memory>
    ensures { OnOk result (returned_of returned.new ≡ returned_of returned.old ++ levels.returned_at (opens_of blocks.now) (row_of file row.now)) }
{
    match row {
        Row::Begins(_) | Row::Beside(_, _, _, _, _) => Ok(()),
        Row::Says(_, comment) => match comment {
            Comment::Code(stmts) => {
                put_returns(file, blocks.innermost_def(), stmts.as_slice(), returned)
            }
            Comment::Open(_, _)
            | Comment::Else
            | Comment::Elif(_)
            | Comment::End
            | Comment::Value(_)
            | Comment::Note(_, _)
            | Comment::Ignored => Ok(()),
        },
    }
}

/// The level of what is put between items.
fn mark_level(blocks: &Blocks, next: Option<usize>, row: &Row) -> usize
    ensures { (file : ℕ) → result ≡ mark_level (opens_of blocks.now) next (row_of file row.now) }
{
    match row {
        Row::Begins(_) | Row::Beside(_, _, _, _, _) => blocks.belongs(next),
        Row::Says(_, comment) => match comment {
            Comment::Else | Comment::Elif(_) | Comment::End => blocks.innermost(),
            Comment::Code(_)
            | Comment::Open(_, _)
            | Comment::Value(_)
            | Comment::Note(_, _)
            | Comment::Ignored => blocks.belongs(next),
        },
    }
}

/// The blocks behind what is said.
fn behind_said(
    blocks: Blocks,
    next: Option<usize>,
    count: usize,
    line: u32,
    comment: &Comment,
) -> Result<Blocks, Memory>
    ensures { (file : ℕ) → IfOk result (λ bs. opens_of bs ≡ levels.behind (opens_of blocks) next count (bare_row (plain.says line (said_of file comment.now)))) }
{
    let mut open = blocks;
    match comment {
        Comment::Open(header, for_one) => {
            open.open(next, count, line, form_of(header), *for_one)?;
        }
        Comment::Else => {
            open.put_else()?;
        }
        Comment::End => {
            open.close();
        }
        Comment::Code(_)
        | Comment::Elif(_)
        | Comment::Value(_)
        | Comment::Note(_, _)
        | Comment::Ignored => {}
    }
    Ok(open)
}

/// The blocks behind a row, before which so many stand.
fn behind(
    alloc: Global,
    blocks: Blocks,
    next: Option<usize>,
    count: usize,
    row: &Row,
) -> Result<Blocks, Memory>
    ensures { (file : ℕ) → IfOk result (λ bs. opens_of bs ≡ levels.behind (opens_of blocks) next count (bare_row (row_of file row.now))) }
{
    match row {
        Row::Begins(start) => blocks.advanced(alloc, start.level, next),
        Row::Beside(_, _, _, _, _) => Ok(blocks),
        Row::Says(line, comment) => behind_said(blocks, next, count, *line, comment),
    }
}

/// Takes the level of the item that comes next behind the first row.
fn take_next(nexts: &mut Items<Option<usize>>) -> Option<usize>
    ensures value { (n : Option ℕ) (ns : List (Option ℕ)) → reverse nexts.old ≡ n ∷ ns → result ≡ n }
    ensures rest { (n : Option ℕ) (ns : List (Option ℕ)) → reverse nexts.old ≡ n ∷ ns → reverse nexts.new ≡ ns }
{
    match nexts.pop() {
        Some(next) => next,
        None => None,
    }
}

/// Walks over rows behind each of which an item of that level comes next, that of the first row last.
pub fn walk(
    alloc: Global,
    file: u32,
    rows: &[Row],
    nexts: Items<Option<usize>>,
) -> Result<Walked, Memory>
    requires { reverse nexts ≡ nexts_of (rows_of file rows.now) }
    ensures { IfOk result (λ w. IsWalked file (rows_of file rows.now) w.flags (returned_of w.returned) (wrong_of w.stop) w.levels (wrong_of w.left)) }
{
    let mut left = nexts;
    let mut blocks = Blocks::new(alloc);
    let mut flags = Items::new(alloc);
    let mut returned = Items::new(alloc);
    let mut levels = Items::new(alloc);
    for (at, row) in rows.iter().enumerate() {
        let next = take_next(&mut left);
        put_returned(file, &blocks, row, &mut returned)?;
        if let Some(wrong) = row_fault(file, &blocks, next, row) {
            return Ok(Walked {
                flags,
                returned,
                stop: Some(wrong),
                levels,
                left: None,
            });
        }
        put_holder(&blocks, row, &mut flags)?;
        levels.push(mark_level(&blocks, next, row))?;
        blocks = behind(alloc, blocks, next, at, row)?;
    }
    Ok(Walked {
        flags,
        returned,
        stop: None,
        levels,
        left: blocks.left_open(file),
    })
}

fn raised_fault(flags: &Items<bool>, one: Return) -> Option<Wrong>
    ensures { wrong_of result ≡ earliest (flagged_faults flags.now (return_of one ∷ [])) }
{
    if is_raised(flags, one.within) {
        return Some(Wrong {
            kind: FaultKind::CodeForm,
            place: one.place,
        });
    }
    None
}

/// The first of the `return`s in `def`s that hold items.
pub fn return_fault(flags: &Items<bool>, returned: &[Return]) -> Option<Wrong>
    ensures { wrong_of result ≡ earliest (flagged_faults flags.now (returned_of returned.now)) }
{
    let mut wrong = None;
    for one in returned {
        wrong = earlier(wrong, raised_fault(flags, *one));
    }
    wrong
}

fn is_raised(flags: &Items<bool>, at: usize) -> bool
    ensures { result ≡ flag flags.now at }
{
    match flags.get(at) {
        Some(raised) => *raised,
        None => false,
    }
}
