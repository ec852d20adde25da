// The blocks of a program, read from its end.
ghost use Rattle.std.specs.Prelude.{◌≡◌, ℕ, IfOk, OnOk};
ghost use Rattle.std.specs.Option.{option_map};
ghost use Rattle.ytt_base.specs.Outcomes.{place_at};
ghost use Rattle.code_spec.specs.Blocks.{blocks, op_def, op_for, open_block, parse};
ghost use Rattle.star_tree.specs.View.{item_kind_of};
ghost use Rattle.star_tree.specs.Whole.{expr_of, instruction_of, instructions_of, parameters_of};
ghost use Rattle.star_blocks.specs.Nested.{ops_of};
ghost use Rattle.star_blocks.specs.Reading.{parsed_of, read_one};

use crate::block::{Block, Op, Statement};
use crate::level::{Reading, close, last_arm, next_arm, open_if, put, reversed, take_block};
use sqlite_items::{Boxed, Items};
use star_tree::ItemKind;
use star_tree::code::{Expr, Params, Stmt};
use std::alloc::Global;
use ytt_base::text::{Memory, Text};

/// The innermost block begins here, as that of a loop.
fn open_for(
    alloc: Global,
    line: u32,
    target: Boxed<Expr>,
    members: Boxed<Expr>,
    reading: &mut Reading,
) -> Result<(), Memory>
    ensures { (file : ℕ) → OnOk result (parsed_of file reading.new ≡ open_block (op_for (place_at file line) (expr_of file target) (expr_of file members)) (parsed_of file reading.old)) }
{
    match take_block(alloc, reading) {
        Some(block) => {
            let loops = Statement::For(line, target, members, block);
            put(Op::Code(loops), reading)
        }
        None => Ok(()),
    }
}

/// The innermost block begins here, as that of a function.
fn open_def(
    alloc: Global,
    line: u32,
    number: usize,
    fragment: Option<ItemKind>,
    name: Text,
    params: Params,
    reading: &mut Reading,
) -> Result<(), Memory>
    ensures { (file : ℕ) → OnOk result (parsed_of file reading.new ≡ open_block (op_def (place_at file line) number (option_map item_kind_of fragment) name (parameters_of file params)) (parsed_of file reading.old)) }
{
    match take_block(alloc, reading) {
        Some(block) => {
            let def = Statement::Def(line, number, fragment, name, params, block);
            put(Op::Code(def), reading)
        }
        None => Ok(()),
    }
}

/// One statement more, in front of what is read.
fn read(alloc: Global, stmt: Stmt, reading: &mut Reading) -> Result<(), Memory>
    ensures { (file : ℕ) → OnOk result (parsed_of file reading.new ≡ read_one (instruction_of file stmt) (parsed_of file reading.old)) }
{
    match stmt {
        Stmt::Expr(line, value) => put(Op::Code(Statement::Expr(line, value)), reading),
        Stmt::Assign(line, target, value) => {
            put(Op::Code(Statement::Assign(line, target, value)), reading)
        }
        Stmt::Augment(line, op, op_line, target, value) => put(
            Op::Code(Statement::Augment(line, op, op_line, target, value)),
            reading,
        ),
        Stmt::Load(line, path, names) => {
            put(Op::Code(Statement::Load(line, path, names)), reading)
        }
        Stmt::Return(line, value) => put(Op::Code(Statement::Return(line, value)), reading),
        Stmt::Break(line) => put(Op::Code(Statement::Break(line)), reading),
        Stmt::Continue(line) => put(Op::Code(Statement::Continue(line)), reading),
        Stmt::Pass(line) => put(Op::Code(Statement::Pass(line)), reading),
        Stmt::If(line, test) => open_if(alloc, line, test, reading),
        Stmt::Elif(_, test) => next_arm(alloc, test, reading),
        Stmt::Else(_) => last_arm(alloc, reading),
        Stmt::For(line, target, members) => open_for(alloc, line, target, members, reading),
        Stmt::Def(line, number, fragment, name, params) => {
            open_def(alloc, line, number, fragment, name, params, reading)
        }
        Stmt::Close(_) => close(alloc, reading),
        Stmt::Node(part) => put(Op::Node(part), reading),
    }
}

/// What is read of a program whole.
fn read_all(alloc: Global, code: Items<Stmt>) -> Result<Reading, Memory>
    ensures { (file : ℕ) → IfOk result (λ reading. parsed_of file reading ≡ parse (instructions_of file code)) }
{
    let mut left = code;
    let mut reading = Reading {
        top: Some(Vec::new(alloc)),
        inner: Items::new(alloc),
    };
    while let Some(stmt) = left.pop() {
        read(alloc, stmt, &mut reading)?;
    }
    Ok(reading)
}

/// The blocks of a program, whose statements are moved into them, or `None` where some block isn't closed
/// where it should be. The error is that memory is out.
pub fn nest(alloc: Global, code: Items<Stmt>) -> Result<Option<Block>, Memory>
    ensures { (file : ℕ) → IfOk result (λ o. option_map (ops_of file) o ≡ blocks (instructions_of file code)) }
{
    let Reading { top, inner } = read_all(alloc, code)?;
    match top {
        Some(ops) => {
            if inner.is_empty() {
                Ok(Some(reversed(ops)))
            } else {
                Ok(None)
            }
        }
        None => Ok(None),
    }
}
