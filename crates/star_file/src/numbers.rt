// The statements of a program with the numbers of its functions. `next` is the next number.
ghost use Rattle.std.specs.Prelude.{◌≡◌, IfOk};
ghost use Rattle.star_number.specs.Rows.{Numbers};
ghost use Rattle.star_tree.specs.Whole.{instruction_of, part_of, program_of};
ghost use Rattle.template_spec.specs.Numbered.{number_instruction, number_part, numbered_program};

use sqlite_items::Items;
use star_number::{number_boxed, number_exprs, number_params, number_simple, take};
use star_tree::code::{NodeOp, Program, Stmt};
use std::alloc::Global;
use ytt_base::text::Memory;

/// A part of a node.
fn number_part(alloc: Global, file: u32, part: &NodeOp, next: &mut usize) -> Result<NodeOp, Memory>
    ensures { Numbers (part_of file) (number_part (part_of file part.now)) result next.old next.new }
{
    match part {
        NodeOp::Start(place, kind, holds) => Ok(NodeOp::Start(*place, *kind, *holds)),
        NodeOp::Note(place, name, args) => {
            let name = name.copy()?;
            let args = number_exprs(alloc, file, args, next)?;
            Ok(NodeOp::Note(*place, name, args))
        }
        NodeOp::Key(place, key) => Ok(NodeOp::Key(*place, key.copy()?)),
        NodeOp::KeyFrom(place, expr) => {
            let expr = number_boxed(alloc, file, expr, next)?;
            Ok(NodeOp::KeyFrom(*place, expr))
        }
        NodeOp::Value(place, scalar) => Ok(NodeOp::Value(*place, scalar.copy()?)),
        NodeOp::ValueFrom(place, expr) => {
            let expr = number_boxed(alloc, file, expr, next)?;
            Ok(NodeOp::ValueFrom(*place, expr))
        }
        NodeOp::End(place) => Ok(NodeOp::End(*place)),
    }
}

/// A statement, or the head or the end of a block, that equals this one but for the numbers of its functions, which begin with the next
/// one. A `def` has its own number before those in its parameters.
fn number_stmt(alloc: Global, file: u32, stmt: &Stmt, next: &mut usize) -> Result<Stmt, Memory>
    ensures { Numbers (instruction_of file) (number_instruction (instruction_of file stmt.now)) result next.old next.new }
{
    match stmt {
        Stmt::If(line, test) => {
            let test = number_boxed(alloc, file, test, next)?;
            Ok(Stmt::If(*line, test))
        }
        Stmt::Elif(line, test) => {
            let test = number_boxed(alloc, file, test, next)?;
            Ok(Stmt::Elif(*line, test))
        }
        Stmt::Else(line) => Ok(Stmt::Else(*line)),
        Stmt::For(line, target, members) => {
            let target = number_boxed(alloc, file, target, next)?;
            let members = number_boxed(alloc, file, members, next)?;
            Ok(Stmt::For(*line, target, members))
        }
        Stmt::Def(line, _, fragment, name, params) => {
            let number = take(next)?;
            let name = name.copy()?;
            let params = number_params(alloc, file, params, next)?;
            Ok(Stmt::Def(*line, number, *fragment, name, params))
        }
        Stmt::Close(line) => Ok(Stmt::Close(*line)),
        Stmt::Node(part) => {
            let part = number_part(alloc, file, part, next)?;
            Ok(Stmt::Node(part))
        }
        Stmt::Expr(..)
        | Stmt::Assign(..)
        | Stmt::Augment(..)
        | Stmt::Load(..)
        | Stmt::Return(..)
        | Stmt::Break(_)
        | Stmt::Continue(_)
        | Stmt::Pass(_) => number_simple(alloc, file, stmt, next),
    }
}

/// The program with the numbers of its functions: that of each is how many others begin before it in the text.
pub(crate) fn numbered(alloc: Global, program: &Program) -> Result<Program, Memory>
    ensures code { IfOk result (λ p. program_of p ≡ numbered_program (program_of program.now)) }
    ensures file { IfOk result (λ p. p.file ≡ program.now.file) }
{
    let mut next = 0;
    let mut code = Items::new(alloc);
    for stmt in program.code.as_slice() {
        code.push(number_stmt(alloc, program.file, stmt, &mut next)?)?;
    }
    Ok(Program {
        file: program.file,
        code,
    })
}
