// Expressions that are given away, with the numbers of their lambdas. `file` is the file of the places in them.
ghost use Rattle.std.specs.Prelude.{◌≡◌, ℕ, IsTrue};
ghost use Rattle.code_spec.specs.Numbering.{keep, number_expr, number_exprs};
ghost use Rattle.star_number.specs.Rows.{Numbers};
ghost use Rattle.star_tree.specs.Whole.{expr_of, exprs_of};

use crate::exprs::number_boxed;
use sqlite_items::{Boxed, Items};
use star_tree::code::Expr;
use std::alloc::Global;
use ytt_base::text::Memory;

/// Whether no lambda is in an expression, as far as is seen: a form that seldom stands in a value isn't looked into.
#[cycle(seen)]
fn has_no_lambda(expr: &Expr) -> bool
    ensures { (file : ℕ) → IsTrue result → (n : ℕ) → number_expr (expr_of file expr.now) n ≡ keep (expr_of file expr.now) n }
{
    match expr {
        Expr::Int(_, _) | Expr::Text(_, _) | Expr::Name(_, _) => true,
        Expr::List(_, members) | Expr::Tuple(_, members) => none_has_lambda(members),
        Expr::Unary(_, _, a)
        | Expr::Named(_, _, a)
        | Expr::Star(_, a)
        | Expr::Stars(_, a)
        | Expr::Dot(_, a, _) => has_no_lambda(a.get()),
        Expr::Binary(_, _, a, b) | Expr::And(_, a, b) | Expr::Or(_, a, b) | Expr::Index(_, a, b) =>
            { has_no_lambda(a.get()) && has_no_lambda(b.get()) }
        Expr::If(_, test, a, b) => {
            has_no_lambda(test.get()) && has_no_lambda(a.get()) && has_no_lambda(b.get())
        }
        Expr::Call(_, function, args) => has_no_lambda(function.get()) && none_has_lambda(args),
        _ => false,
    }
}

/// The same of each of these.
#[cycle(seen)]
fn none_has_lambda(exprs: &Items<Expr>) -> bool
    ensures { (file : ℕ) → IsTrue result → (n : ℕ) → number_exprs (exprs_of file exprs.now) n ≡ keep (exprs_of file exprs.now) n }
{
    for expr in exprs.as_slice() {
        if !has_no_lambda(expr) {
            return false;
        }
    }
    true
}

/// An expression that is given away, with the numbers of its lambdas, which begin with the next one. One in which no lambda is seen stays
/// as it is, and takes no memory.
pub fn number_owned(
    alloc: Global,
    file: u32,
    expr: Boxed<Expr>,
    next: &mut usize,
) -> Result<Boxed<Expr>, Memory>
    ensures { Numbers (expr_of file) (number_expr (expr_of file expr)) result next.old next.new }
{
    if has_no_lambda(expr.get()) {
        return Ok(expr);
    }
    number_boxed(alloc, file, &expr, next)
}
