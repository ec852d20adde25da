// Expressions with the numbers of their lambdas. `file` is the file of the places in them.
ghost use Rattle.std.specs.Prelude.{◌≡◌, IfOk, Ok};
ghost use Rattle.star_number.specs.Rows.{Numbers, number_clause, number_entry, number_parameter, number_piece};
ghost use Rattle.code_spec.specs.Numbering.{number_clauses, number_entries, number_expr, number_exprs, number_optional, number_parameters, number_pieces};
ghost use Rattle.star_tree.specs.Listed.{clause_of, clauses_of, entries_of, entry_of, optional_of, piece_of, pieces_of};
ghost use Rattle.star_tree.specs.Whole.{expr_of, exprs_of, parameter_of, parameters_of};

use crate::next::take;
use sqlite_items::{Boxed, Items};
use star_tree::code::{Args, Clause, Entry, Expr, Param, Params, Piece};
use std::alloc::Global;
use ytt_base::text::Memory;

/// Both, where both are there.
fn both<A: Drop, B: Drop>(
    first: Result<A, Memory>,
    second: Result<B, Memory>,
) -> Result<(A, B), Memory>
    ensures { IfOk result (λ two. (first ≡ Ok two.0) × (second ≡ Ok two.1)) }
{
    let a = first?;
    let b = second?;
    Ok((a, b))
}

/// An expression that equals this one but for the numbers of its lambdas, which begin with the next one.
#[cycle(number)]
pub(crate) fn number_expr(
    alloc: Global,
    file: u32,
    expr: &Expr,
    next: &mut usize,
) -> Result<Expr, Memory>
    ensures { Numbers (expr_of file) (number_expr (expr_of file expr.now)) result next.old next.new }
{
    match expr {
        Expr::Int(_, _) | Expr::Text(_, _) | Expr::Name(_, _) => expr.copy(alloc),
        Expr::List(line, members) => {
            let members = number_exprs(alloc, file, members, next)?;
            Ok(Expr::List(*line, members))
        }
        Expr::Tuple(line, members) => {
            let members = number_exprs(alloc, file, members, next)?;
            Ok(Expr::Tuple(*line, members))
        }
        Expr::Dict(line, entries) => {
            let entries = number_entries(alloc, file, entries, next)?;
            Ok(Expr::Dict(*line, entries))
        }
        Expr::Unary(line, op, a) => {
            let a = number_boxed(alloc, file, a, next)?;
            Ok(Expr::Unary(*line, *op, a))
        }
        Expr::Binary(line, op, a, b) => {
            let (a, b) = both(
                number_boxed(alloc, file, a, next),
                number_boxed(alloc, file, b, next),
            )?;
            Ok(Expr::Binary(*line, *op, a, b))
        }
        Expr::And(line, a, b) => {
            let (a, b) = both(
                number_boxed(alloc, file, a, next),
                number_boxed(alloc, file, b, next),
            )?;
            Ok(Expr::And(*line, a, b))
        }
        Expr::Or(line, a, b) => {
            let (a, b) = both(
                number_boxed(alloc, file, a, next),
                number_boxed(alloc, file, b, next),
            )?;
            Ok(Expr::Or(*line, a, b))
        }
        Expr::If(line, test, a, b) => {
            let ((a, test), b) = both(
                both(
                    number_boxed(alloc, file, a, next),
                    number_boxed(alloc, file, test, next),
                ),
                number_boxed(alloc, file, b, next),
            )?;
            Ok(Expr::If(*line, test, a, b))
        }
        Expr::Call(line, function, args) => {
            let (function, args) = both(
                number_boxed(alloc, file, function, next),
                number_exprs(alloc, file, args, next),
            )?;
            Ok(Expr::Call(*line, function, args))
        }
        Expr::Named(line, name, a) => {
            let (name, a) = both(name.copy(), number_boxed(alloc, file, a, next))?;
            Ok(Expr::Named(*line, name, a))
        }
        Expr::Star(line, a) => {
            let a = number_boxed(alloc, file, a, next)?;
            Ok(Expr::Star(*line, a))
        }
        Expr::Stars(line, a) => {
            let a = number_boxed(alloc, file, a, next)?;
            Ok(Expr::Stars(*line, a))
        }
        Expr::Index(line, a, b) => {
            let (a, b) = both(
                number_boxed(alloc, file, a, next),
                number_boxed(alloc, file, b, next),
            )?;
            Ok(Expr::Index(*line, a, b))
        }
        Expr::Slice(line, a, low, high, step) => {
            let (a, low) = both(
                number_boxed(alloc, file, a, next),
                number_optional(alloc, file, low, next),
            )?;
            let (high, step) = both(
                number_optional(alloc, file, high, next),
                number_optional(alloc, file, step, next),
            )?;
            Ok(Expr::Slice(*line, a, low, high, step))
        }
        Expr::Dot(line, a, name) => {
            let (a, name) = both(number_boxed(alloc, file, a, next), name.copy())?;
            Ok(Expr::Dot(*line, a, name))
        }
        Expr::Lambda(line, _, params, body) => {
            let number = take(next)?;
            let (params, body) = both(
                number_params(alloc, file, params, next),
                number_boxed(alloc, file, body, next),
            )?;
            Ok(Expr::Lambda(*line, number, params, body))
        }
        Expr::ListFor(line, element, clauses) => {
            let (element, clauses) = both(
                number_boxed(alloc, file, element, next),
                number_clauses(alloc, file, clauses, next),
            )?;
            Ok(Expr::ListFor(*line, element, clauses))
        }
        Expr::DictFor(line, key, value, clauses) => {
            let ((key, value), clauses) = both(
                both(
                    number_boxed(alloc, file, key, next),
                    number_boxed(alloc, file, value, next),
                ),
                number_clauses(alloc, file, clauses, next),
            )?;
            Ok(Expr::DictFor(*line, key, value, clauses))
        }
        Expr::Template(line, pieces) => {
            let pieces = number_pieces(alloc, file, pieces, next)?;
            Ok(Expr::Template(*line, pieces))
        }
    }
}

/// The same in a box.
#[cycle(number)]
pub fn number_boxed(
    alloc: Global,
    file: u32,
    expr: &Boxed<Expr>,
    next: &mut usize,
) -> Result<Boxed<Expr>, Memory>
    ensures { Numbers (expr_of file) (number_expr (expr_of file expr.now)) result next.old next.new }
{
    let numbered = number_expr(alloc, file, expr.get(), next)?;
    Ok(Boxed::new(alloc, numbered)?)
}

/// Expressions, in their order.
#[cycle(number)]
pub fn number_exprs(
    alloc: Global,
    file: u32,
    exprs: &Items<Expr>,
    next: &mut usize,
) -> Result<Args, Memory>
    ensures { Numbers (exprs_of file) (number_exprs (exprs_of file exprs.now)) result next.old next.new }
{
    let mut numbered = Items::new(alloc);
    for expr in exprs.as_slice() {
        numbered.push(number_expr(alloc, file, expr, next)?)?;
    }
    Ok(numbered)
}

#[cycle(number)]
fn number_optional(
    alloc: Global,
    file: u32,
    part: &Option<Boxed<Expr>>,
    next: &mut usize,
) -> Result<Option<Boxed<Expr>>, Memory>
    ensures { Numbers (optional_of file) (number_optional (optional_of file part.now)) result next.old next.new }
{
    match part {
        Some(expr) => {
            let numbered = number_expr(alloc, file, expr.get(), next)?;
            Ok(Some(Boxed::new(alloc, numbered)?))
        }
        None => Ok(None),
    }
}

#[cycle(number)]
fn number_entry(alloc: Global, file: u32, entry: &Entry, next: &mut usize) -> Result<Entry, Memory>
    ensures { Numbers (entry_of file) (number_entry (entry_of file entry.now)) result next.old next.new }
{
    match entry {
        Entry::Pair(key, value) => {
            let (key, value) = both(
                number_boxed(alloc, file, key, next),
                number_boxed(alloc, file, value, next),
            )?;
            Ok(Entry::Pair(key, value))
        }
    }
}

#[cycle(number)]
fn number_entries(
    alloc: Global,
    file: u32,
    entries: &Items<Entry>,
    next: &mut usize,
) -> Result<Items<Entry>, Memory>
    ensures { Numbers (entries_of file) (number_entries (entries_of file entries.now)) result next.old next.new }
{
    let mut numbered = Items::new(alloc);
    for entry in entries.as_slice() {
        numbered.push(number_entry(alloc, file, entry, next)?)?;
    }
    Ok(numbered)
}

#[cycle(number)]
fn number_clause(
    alloc: Global,
    file: u32,
    clause: &Clause,
    next: &mut usize,
) -> Result<Clause, Memory>
    ensures { Numbers (clause_of file) (number_clause (clause_of file clause.now)) result next.old next.new }
{
    match clause {
        Clause::ForIn(target, members) => {
            let (target, members) = both(
                number_boxed(alloc, file, target, next),
                number_boxed(alloc, file, members, next),
            )?;
            Ok(Clause::ForIn(target, members))
        }
        Clause::OnlyIf(test) => {
            let test = number_boxed(alloc, file, test, next)?;
            Ok(Clause::OnlyIf(test))
        }
    }
}

#[cycle(number)]
fn number_clauses(
    alloc: Global,
    file: u32,
    clauses: &Items<Clause>,
    next: &mut usize,
) -> Result<Items<Clause>, Memory>
    ensures { Numbers (clauses_of file) (number_clauses (clauses_of file clauses.now)) result next.old next.new }
{
    let mut numbered = Items::new(alloc);
    for clause in clauses.as_slice() {
        numbered.push(number_clause(alloc, file, clause, next)?)?;
    }
    Ok(numbered)
}

#[cycle(number)]
fn number_piece(alloc: Global, file: u32, piece: &Piece, next: &mut usize) -> Result<Piece, Memory>
    ensures { Numbers (piece_of file) (number_piece (piece_of file piece.now)) result next.old next.new }
{
    match piece {
        Piece::Written(text) => Ok(Piece::Written(text.copy()?)),
        Piece::Shown(expr) => {
            let expr = number_boxed(alloc, file, expr, next)?;
            Ok(Piece::Shown(expr))
        }
    }
}

#[cycle(number)]
fn number_pieces(
    alloc: Global,
    file: u32,
    pieces: &Items<Piece>,
    next: &mut usize,
) -> Result<Items<Piece>, Memory>
    ensures { Numbers (pieces_of file) (number_pieces (pieces_of file pieces.now)) result next.old next.new }
{
    let mut numbered = Items::new(alloc);
    for piece in pieces.as_slice() {
        numbered.push(number_piece(alloc, file, piece, next)?)?;
    }
    Ok(numbered)
}

#[cycle(number)]
fn number_param(alloc: Global, file: u32, param: &Param, next: &mut usize) -> Result<Param, Memory>
    ensures { Numbers (parameter_of file) (number_parameter (parameter_of file param.now)) result next.old next.new }
{
    match param {
        Param::Required(name) => Ok(Param::Required(name.copy()?)),
        Param::Defaulted(name, default) => {
            let default = number_boxed(alloc, file, default, next)?;
            Ok(Param::Defaulted(name.copy()?, default))
        }
        Param::BareStar => Ok(Param::BareStar),
        Param::Starred(name) => Ok(Param::Starred(name.copy()?)),
        Param::DoubleStarred(name) => Ok(Param::DoubleStarred(name.copy()?)),
    }
}

/// Parameters, in their order.
#[cycle(number)]
pub fn number_params(
    alloc: Global,
    file: u32,
    params: &Params,
    next: &mut usize,
) -> Result<Params, Memory>
    ensures { Numbers (parameters_of file) (number_parameters (parameters_of file params.now)) result next.old next.new }
{
    let mut numbered = Items::new(alloc);
    for param in params.as_slice() {
        numbered.push(number_param(alloc, file, param, next)?)?;
    }
    Ok(numbered)
}
