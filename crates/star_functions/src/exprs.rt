// The lambdas of expressions.
ghost use Rattle.std.specs.Prelude.{◌≡◌, ◌++◌, ℕ, OnOk};
ghost use Rattle.star_functions.specs.Numbered.{clauses_functions, entries_functions, expr_functions, exprs_functions, optional_functions, parameters_functions, pieces_functions};
ghost use Rattle.star_functions.specs.View.{all_of};
ghost use Rattle.star_tree.specs.Listed.{clauses_of, entries_of, optional_of, pieces_of};
ghost use Rattle.star_tree.specs.Whole.{expr_of, exprs_of, parameters_of};

use crate::function::{Found, FunctionCode, Numbered};
use sqlite_items::{Boxed, Items};
use star_tree::code::{Clause, Entry, Expr, Param, Params, Piece};
use ytt_base::text::Memory;

/// Puts the functions of an expression behind those that were found.
#[cycle(exprs)]
pub(crate) fn find_in_expr<'p>(expr: &'p Expr, found: &mut Found<'p>) -> Result<(), Memory>
    ensures { (file : ℕ) → OnOk result (all_of file found.new ≡ all_of file found.old ++ expr_functions (expr_of file expr.now)) }
{
    match expr {
        Expr::Int(_, _) | Expr::Text(_, _) | Expr::Name(_, _) => Ok(()),
        Expr::List(_, members) | Expr::Tuple(_, members) => find_in_exprs(members, found),
        Expr::Dict(_, entries) => find_in_entries(entries, found),
        Expr::Unary(_, _, a)
        | Expr::Named(_, _, a)
        | Expr::Star(_, a)
        | Expr::Stars(_, a)
        | Expr::Dot(_, a, _) => find_in_expr(a.get(), found),
        Expr::Binary(_, _, a, b) | Expr::And(_, a, b) | Expr::Or(_, a, b) | Expr::Index(_, a, b) =>
            {
                find_in_expr(a.get(), found)?;
                find_in_expr(b.get(), found)
            }
        Expr::If(_, test, a, b) => {
            find_in_expr(a.get(), found)?;
            find_in_expr(test.get(), found)?;
            find_in_expr(b.get(), found)
        }
        Expr::Call(_, function, args) => {
            find_in_expr(function.get(), found)?;
            find_in_exprs(args, found)
        }
        Expr::Slice(_, a, low, high, step) => {
            find_in_expr(a.get(), found)?;
            find_in_optional(low, found)?;
            find_in_optional(high, found)?;
            find_in_optional(step, found)
        }
        Expr::Lambda(_, number, params, body) => {
            found.push(Numbered {
                number: *number,
                code: FunctionCode::Lambda(params, body.get()),
            })?;
            find_in_params(params, found)?;
            find_in_expr(body.get(), found)
        }
        Expr::ListFor(_, element, clauses) => {
            find_in_expr(element.get(), found)?;
            find_in_clauses(clauses, found)
        }
        Expr::DictFor(_, key, value, clauses) => {
            find_in_expr(key.get(), found)?;
            find_in_expr(value.get(), found)?;
            find_in_clauses(clauses, found)
        }
        Expr::Template(_, pieces) => find_in_pieces(pieces, found),
    }
}

/// Puts the functions of expressions behind those that were found.
#[cycle(exprs)]
pub(crate) fn find_in_exprs<'p>(exprs: &'p Items<Expr>, found: &mut Found<'p>) -> Result<(), Memory>
    ensures { (file : ℕ) → OnOk result (all_of file found.new ≡ all_of file found.old ++ exprs_functions (exprs_of file exprs.now)) }
{
    for expr in exprs.as_slice() {
        find_in_expr(expr, found)?;
    }
    Ok(())
}

#[cycle(exprs)]
fn find_in_optional<'p>(part: &'p Option<Boxed<Expr>>, found: &mut Found<'p>) -> Result<(), Memory>
    ensures { (file : ℕ) → OnOk result (all_of file found.new ≡ all_of file found.old ++ optional_functions (optional_of file part.now)) }
{
    match part {
        Some(expr) => find_in_expr(expr.get(), found),
        None => Ok(()),
    }
}

#[cycle(exprs)]
fn find_in_entries<'p>(entries: &'p Items<Entry>, found: &mut Found<'p>) -> Result<(), Memory>
    ensures { (file : ℕ) → OnOk result (all_of file found.new ≡ all_of file found.old ++ entries_functions (entries_of file entries.now)) }
{
    for entry in entries.as_slice() {
        match entry {
            Entry::Pair(key, value) => {
                find_in_expr(key.get(), found)?;
                find_in_expr(value.get(), found)?;
            }
        }
    }
    Ok(())
}

#[cycle(exprs)]
fn find_in_clauses<'p>(clauses: &'p Items<Clause>, found: &mut Found<'p>) -> Result<(), Memory>
    ensures { (file : ℕ) → OnOk result (all_of file found.new ≡ all_of file found.old ++ clauses_functions (clauses_of file clauses.now)) }
{
    for clause in clauses.as_slice() {
        match clause {
            Clause::ForIn(target, members) => {
                find_in_expr(target.get(), found)?;
                find_in_expr(members.get(), found)?;
            }
            Clause::OnlyIf(test) => find_in_expr(test.get(), found)?,
        }
    }
    Ok(())
}

#[cycle(exprs)]
fn find_in_pieces<'p>(pieces: &'p Items<Piece>, found: &mut Found<'p>) -> Result<(), Memory>
    ensures { (file : ℕ) → OnOk result (all_of file found.new ≡ all_of file found.old ++ pieces_functions (pieces_of file pieces.now)) }
{
    for piece in pieces.as_slice() {
        match piece {
            Piece::Written(_) => (),
            Piece::Shown(expr) => find_in_expr(expr.get(), found)?,
        }
    }
    Ok(())
}

/// Puts the functions of the defaults of parameters behind those that were found.
#[cycle(exprs)]
pub(crate) fn find_in_params<'p>(params: &'p Params, found: &mut Found<'p>) -> Result<(), Memory>
    ensures { (file : ℕ) → OnOk result (all_of file found.new ≡ all_of file found.old ++ parameters_functions (parameters_of file params.now)) }
{
    for param in params.as_slice() {
        if let Param::Defaulted(_, default) = param {
            find_in_expr(default.get(), found)?;
        }
    }
    Ok(())
}
