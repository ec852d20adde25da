// What is read of a program from its end: the blocks that are closed further on.
ghost use Rattle.std.specs.Prelude.{◌≡◌, ℕ, reverse, OnOk};
ghost use Rattle.ytt_base.specs.Outcomes.{place_at};
ghost use Rattle.code_spec.specs.Blocks.{broken, inside, last_arm, next_arm, no_arm, no_ops, open_if, put};
ghost use Rattle.star_tree.specs.Whole.{expr_of};
ghost use Rattle.star_blocks.specs.Nested.{op_of};
ghost use Rattle.star_blocks.specs.Reading.{Taken, parsed_of};

use crate::block::{Arm, Block, Op, Statement};
use sqlite_items::{Boxed, Items};
use star_tree::code::Expr;
use std::alloc::Global;
use ytt_base::text::Memory;

/// A block that is closed further on: what it holds so far, and the branches behind it where it is one
/// of an `if`, each from its end.
#[derive(Drop)]
pub struct Level {
    pub ops: Vec<Op>,
    pub arms: Vec<Arm>,
}

/// What is read: what stands in no block, from its end, or `None` once a block isn't closed where it
/// should be; and the blocks that are closed further on, the innermost last.
#[derive(Drop)]
pub struct Reading {
    pub top: Option<Vec<Op>>,
    pub inner: Items<Level>,
}

/// These, the last one first. It takes no memory.
pub(crate) fn reversed<T: Drop>(items: Vec<T>) -> Items<T>
    ensures { result ≡ reverse items.items }
{
    let mut items = items;
    items.reverse();
    Items::from_vec(items)
}

/// A block isn't closed where it should be.
fn break_off(alloc: Global, reading: &mut Reading)
    ensures { (file : ℕ) → parsed_of file reading.new ≡ broken }
{
    reading.top = None;
    reading.inner = Items::new(alloc);
}

/// A part of a node, or a statement, in front of what is read.
pub(crate) fn put(op: Op, reading: &mut Reading) -> Result<(), Memory>
    ensures { (file : ℕ) → OnOk result (parsed_of file reading.new ≡ put (op_of file op) (parsed_of file reading.old)) }
{
    match reading.inner.pop() {
        Some(mut level) => {
            level.ops.push(op)?;
            reading.inner.push(level)?;
        }
        None => {
            if let Some(ops) = &mut reading.top {
                ops.push(op)?;
            }
        }
    }
    Ok(())
}

/// The end of a block in front of what is read.
pub(crate) fn close(alloc: Global, reading: &mut Reading) -> Result<(), Memory>
    ensures { (file : ℕ) → OnOk result (parsed_of file reading.new ≡ inside no_ops no_arm (parsed_of file reading.old)) }
{
    reading.inner.push(Level {
        ops: Vec::new(alloc),
        arms: Vec::new(alloc),
    })?;
    Ok(())
}

/// The innermost block begins here, as the first of an `if`.
pub(crate) fn open_if(
    alloc: Global,
    line: u32,
    test: Boxed<Expr>,
    reading: &mut Reading,
) -> Result<(), Memory>
    ensures { (file : ℕ) → OnOk result (parsed_of file reading.new ≡ open_if (place_at file line) (expr_of file test) (parsed_of file reading.old)) }
{
    match reading.inner.pop() {
        Some(level) => {
            let mut arms = level.arms;
            arms.push(Arm::Test(test, reversed(level.ops)))?;
            put(Op::Code(Statement::If(line, reversed(arms))), reading)
        }
        None => {
            break_off(alloc, reading);
            Ok(())
        }
    }
}

/// The innermost block begins here, as a further one of an `if`, with a test.
#[tactic(auto, using(crate::proofs::Forms::forms))]
pub(crate) fn next_arm(
    alloc: Global,
    test: Boxed<Expr>,
    reading: &mut Reading,
) -> Result<(), Memory>
    ensures { (file : ℕ) → OnOk result (parsed_of file reading.new ≡ next_arm (expr_of file test) (parsed_of file reading.old)) }
{
    match reading.inner.pop() {
        Some(level) => {
            let mut arms = level.arms;
            arms.push(Arm::Test(test, reversed(level.ops)))?;
            let ops = Vec::new(alloc);
            reading.inner.push(Level { ops, arms })?;
        }
        None => break_off(alloc, reading),
    }
    Ok(())
}

/// The innermost block begins here, where no test of an `if` holds: only the last one may be that.
#[tactic(auto, using(crate::proofs::Forms::forms))]
pub(crate) fn last_arm(alloc: Global, reading: &mut Reading) -> Result<(), Memory>
    ensures { (file : ℕ) → OnOk result (parsed_of file reading.new ≡ last_arm (parsed_of file reading.old)) }
{
    if let Some(block) = take_block(alloc, reading) {
        let ops = Vec::new(alloc);
        let mut arms = Vec::new(alloc);
        arms.push(Arm::Else(block))?;
        reading.inner.push(Level { ops, arms })?;
    }
    Ok(())
}

/// Takes the innermost block. Where branches of an `if` stand behind it, or there is none, all is broken.
pub(crate) fn take_block(alloc: Global, reading: &mut Reading) -> Option<Block>
    ensures { (file : ℕ) → Taken file result (parsed_of file reading.old) (parsed_of file reading.new) }
{
    if let Some(level) = reading.inner.pop() {
        if level.arms.is_empty() {
            return Some(reversed(level.ops));
        }
    }
    break_off(alloc, reading);
    None
}
