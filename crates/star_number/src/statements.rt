// Simple statements with the numbers of their lambdas. `file` is the file of the places in them.
ghost use Rattle.star_number.specs.Rows.{Numbers};
ghost use Rattle.star_number.specs.Statements.{number_stmt};
ghost use Rattle.star_tree.specs.Whole.{instruction_of};

use crate::exprs::number_boxed;
use sqlite_items::Boxed;
use star_tree::code::{BinOp, Expr, Stmt};
use star_tree::copies::copy_loaded;
use std::alloc::Global;
use ytt_base::text::Memory;

/// An assignment.
fn number_assign(
    alloc: Global,
    file: u32,
    line: u32,
    target: &Boxed<Expr>,
    value: &Boxed<Expr>,
    next: &mut usize,
) -> Result<Stmt, Memory>
    ensures { Numbers (instruction_of file) (number_stmt file (Stmt.Assign line target.now value.now)) result next.old next.new }
{
    let target = number_boxed(alloc, file, target, next)?;
    let value = number_boxed(alloc, file, value, next)?;
    Ok(Stmt::Assign(line, target, value))
}

/// An assignment with an operator, which stands on line `at`.
fn number_augment(
    alloc: Global,
    file: u32,
    line: u32,
    op: BinOp,
    at: u32,
    target: &Boxed<Expr>,
    value: &Boxed<Expr>,
    next: &mut usize,
) -> Result<Stmt, Memory>
    ensures { Numbers (instruction_of file) (number_stmt file (Stmt.Augment line op at target.now value.now)) result next.old next.new }
{
    let target = number_boxed(alloc, file, target, next)?;
    let value = number_boxed(alloc, file, value, next)?;
    Ok(Stmt::Augment(line, op, at, target, value))
}

/// A simple statement that equals this one but for the numbers of its lambdas, which begin with the next one. For the head or
/// the end of a block, one that does nothing.
pub fn number_simple(
    alloc: Global,
    file: u32,
    stmt: &Stmt,
    next: &mut usize,
) -> Result<Stmt, Memory>
    ensures { Numbers (instruction_of file) (number_stmt file stmt.now) result next.old next.new }
{
    match stmt {
        Stmt::Expr(line, expr) => {
            let expr = number_boxed(alloc, file, expr, next)?;
            Ok(Stmt::Expr(*line, expr))
        }
        Stmt::Assign(line, target, value) => {
            number_assign(alloc, file, *line, target, value, next)
        }
        Stmt::Augment(line, op, at, target, value) => {
            number_augment(alloc, file, *line, *op, *at, target, value, next)
        }
        Stmt::Load(line, path, loaded) => {
            let loaded = copy_loaded(alloc, loaded)?;
            Ok(Stmt::Load(*line, path.copy()?, loaded))
        }
        Stmt::Return(line, expr) => {
            let expr = number_boxed(alloc, file, expr, next)?;
            Ok(Stmt::Return(*line, expr))
        }
        Stmt::Break(line) => Ok(Stmt::Break(*line)),
        Stmt::Continue(line) => Ok(Stmt::Continue(*line)),
        Stmt::Pass(line) => Ok(Stmt::Pass(*line)),
        _ => Ok(Stmt::Pass(0)),
    }
}
