// Expressions of their parts.
ghost use Rattle.std.specs.Prelude.{◌≡◌, OnOk, IfOk};
ghost use Rattle.star_grammar.specs.Trees as spec;
ghost use Rattle.star_grammar.specs.declared.table.Made.TheVariants as made;

use crate::parts::Parts;
use crate::values::{boxed_of, name_of, no_items, optional_of};
use sqlite_items::Boxed;
use star_grammar::{Made, Mark, Part, operation, unary_of};
use star_tree::code::Expr;
use std::alloc::Global;
use ytt_base::text::Memory;

/// What stands in parentheses, whose first one stands on this line: several expressions are a tuple.
fn grouped(alloc: Global, line: u32, part: Part) -> Result<Boxed<Expr>, Memory>
    ensures { IfOk result (λ e. e ≡ spec.grouped line part) }
{
    match part {
        Part::Exprs(_, exprs) => Ok(Boxed::new(alloc, Expr::Tuple(line, exprs))?),
        other => boxed_of(alloc, other),
    }
}

fn listed(alloc: Global, line: u32, part: Part) -> Expr
    ensures { result ≡ spec.listed line part }
{
    match part {
        Part::Exprs(_, exprs) => Expr::List(line, exprs),
        Part::ListFor(value, clauses) => Expr::ListFor(line, value, clauses),
        other => Expr::List(line, no_items(alloc, other)),
    }
}

fn dicted(alloc: Global, line: u32, part: Part) -> Expr
    ensures { result ≡ spec.dicted line part }
{
    match part {
        Part::Entries(entries) => Expr::Dict(line, entries),
        Part::DictFor(key, value, clauses) => Expr::DictFor(line, key, value, clauses),
        other => Expr::Dict(line, no_items(alloc, other)),
    }
}

fn starred(line: u32, mark: Mark, value: Boxed<Expr>) -> Expr
    ensures { result ≡ spec.starred line mark value }
{
    match mark {
        Mark::Stars => Expr::Stars(line, value),
        _ => Expr::Star(line, value),
    }
}

fn group(alloc: Global, parts: &mut Parts) -> Result<(), Memory>
    ensures { OnOk result (parts.new ≡ spec.made_parts made.Group parts.old) }
{
    let inner = parts.pop();
    let line = parts.pop_line();
    parts.push(Part::Expr(line, grouped(alloc, line, inner)?))
}

fn list(alloc: Global, parts: &mut Parts) -> Result<(), Memory>
    ensures { OnOk result (parts.new ≡ spec.made_parts made.List parts.old) }
{
    let members = parts.pop();
    let line = parts.pop_line();
    parts.push_expr(alloc, line, listed(alloc, line, members))
}

fn dict(alloc: Global, parts: &mut Parts) -> Result<(), Memory>
    ensures { OnOk result (parts.new ≡ spec.made_parts made.Dict parts.old) }
{
    let entries = parts.pop();
    let line = parts.pop_line();
    parts.push_expr(alloc, line, dicted(alloc, line, entries))
}

fn unary(alloc: Global, parts: &mut Parts) -> Result<(), Memory>
    ensures { OnOk result (parts.new ≡ spec.made_parts made.Unary parts.old) }
{
    let operand = parts.pop_boxed(alloc)?;
    let line = parts.line();
    let mark = parts.pop_mark();
    parts.push_expr(alloc, line, Expr::Unary(line, unary_of(mark), operand))
}

fn binary(alloc: Global, parts: &mut Parts) -> Result<(), Memory>
    ensures { OnOk result (parts.new ≡ spec.made_parts made.Binary parts.old) }
{
    let right = parts.pop_boxed(alloc)?;
    let at = parts.line();
    let mark = parts.pop_mark();
    let line = parts.line();
    let left = parts.pop_boxed(alloc)?;
    parts.push_expr(alloc, line, operation(at, mark, left, right))
}

fn conditional(alloc: Global, parts: &mut Parts) -> Result<(), Memory>
    ensures { OnOk result (parts.new ≡ spec.made_parts made.Conditional parts.old) }
{
    let other = parts.pop_boxed(alloc)?;
    let test = parts.pop_boxed(alloc)?;
    let at = parts.pop_line();
    let line = parts.line();
    let value = parts.pop_boxed(alloc)?;
    parts.push_expr(alloc, line, Expr::If(at, test, value, other))
}

fn lambda(alloc: Global, parts: &mut Parts) -> Result<(), Memory>
    ensures { OnOk result (parts.new ≡ spec.made_parts made.Lambda parts.old) }
{
    let value = parts.pop_boxed(alloc)?;
    let params = parts.pop_params(alloc).into_items();
    let line = parts.pop_line();
    parts.push_expr(alloc, line, Expr::Lambda(line, 0, params, value))
}

fn dot(alloc: Global, parts: &mut Parts) -> Result<(), Memory>
    ensures { OnOk result (parts.new ≡ spec.made_parts made.Dot parts.old) }
{
    let name = name_of(alloc, parts.pop_expr(alloc));
    let at = parts.pop_line();
    let line = parts.line();
    let whole = parts.pop_boxed(alloc)?;
    parts.push_expr(alloc, line, Expr::Dot(at, whole, name))
}

fn call(alloc: Global, parts: &mut Parts) -> Result<(), Memory>
    ensures { OnOk result (parts.new ≡ spec.made_parts made.Call parts.old) }
{
    let args = parts.pop_exprs(alloc);
    let at = parts.pop_line();
    let line = parts.line();
    let function = parts.pop_boxed(alloc)?;
    parts.push_expr(alloc, line, Expr::Call(at, function, args))
}

/// An index of the whole before the bracket.
pub fn index(alloc: Global, parts: &mut Parts) -> Result<(), Memory>
    ensures { OnOk result (parts.new ≡ spec.indexed parts.old) }
{
    let place = parts.pop_boxed(alloc)?;
    let at = parts.pop_line();
    let line = parts.line();
    let whole = parts.pop_boxed(alloc)?;
    parts.push_expr(alloc, line, Expr::Index(at, whole, place))
}

fn slice(alloc: Global, parts: &mut Parts) -> Result<(), Memory>
    ensures { OnOk result (parts.new ≡ spec.made_parts made.Slice parts.old) }
{
    let step = optional_of(alloc, parts.pop())?;
    let high = optional_of(alloc, parts.pop())?;
    let low = optional_of(alloc, parts.pop())?;
    let at = parts.pop_line();
    let line = parts.line();
    let whole = parts.pop_boxed(alloc)?;
    parts.push_expr(alloc, line, Expr::Slice(at, whole, low, high, step))
}

fn named(alloc: Global, parts: &mut Parts) -> Result<(), Memory>
    ensures { OnOk result (parts.new ≡ spec.made_parts made.Named parts.old) }
{
    let value = parts.pop_boxed(alloc)?;
    let line = parts.line();
    let name = name_of(alloc, parts.pop_expr(alloc));
    parts.push_expr(alloc, line, Expr::Named(line, name, value))
}

fn star(alloc: Global, parts: &mut Parts) -> Result<(), Memory>
    ensures { OnOk result (parts.new ≡ spec.made_parts made.Starred parts.old) }
{
    let value = parts.pop_boxed(alloc)?;
    let line = parts.line();
    let mark = parts.pop_mark();
    parts.push_expr(alloc, line, starred(line, mark, value))
}

/// The last parts become an expression.
pub fn make_expr(alloc: Global, action: Made, parts: &mut Parts) -> Result<(), Memory>
    ensures { OnOk result (parts.new ≡ spec.made_parts action parts.old) }
{
    match action {
        Made::Tuple => Ok(()),
        Made::Group => group(alloc, parts),
        Made::List => list(alloc, parts),
        Made::Dict => dict(alloc, parts),
        Made::Unary => unary(alloc, parts),
        Made::Binary => binary(alloc, parts),
        Made::Conditional => conditional(alloc, parts),
        Made::Lambda => lambda(alloc, parts),
        Made::Dot => dot(alloc, parts),
        Made::Call => call(alloc, parts),
        Made::Index => index(alloc, parts),
        Made::Slice => slice(alloc, parts),
        Made::Named => named(alloc, parts),
        Made::Starred => star(alloc, parts),
    }
}
