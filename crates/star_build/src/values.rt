// What stands in a part.
ghost use Rattle.std.specs.Prelude.{◌≡◌, ◌++◌, ◌∷◌, [], IfOk};
ghost use Rattle.star_grammar.specs.Parts as spec;

use sqlite_items::{Boxed, Items};
use star_grammar::{Mark, Part};
use star_params::Parameters;
use star_tree::code::Expr;
use std::alloc::Global;
use ytt_base::text::{Memory, Text};

/// The items and one more.
pub fn with<T: Drop>(mut items: Items<T>, item: T) -> Result<Items<T>, Memory>
    ensures { IfOk result (λ r. r ≡ items ++ item ∷ []) }
{
    items.push(item)?;
    Ok(items)
}

/// The line of the first token, or 0.
pub fn line_of(part: &Part) -> u32
    ensures { result ≡ spec.line_in part.now }
{
    match part {
        Part::Mark(line, _) | Part::Expr(line, _) | Part::Exprs(line, _) => *line,
        _ => 0,
    }
}

/// The token that was kept.
pub fn mark_of(part: &Part) -> Mark
    ensures { result ≡ spec.mark_in part.now }
{
    match part {
        Part::Mark(_, mark) => *mark,
        _ => Mark::Comma,
    }
}

/// What stands where no expression is. It takes no memory.
pub fn nothing(alloc: Global) -> Expr
    ensures { result ≡ spec.nothing }
{
    Expr::Tuple(0, Items::new(alloc))
}

/// No expression, where a part is none.
fn no_expr(alloc: Global, part: Part) -> Expr
    ensures { result ≡ spec.nothing }
{
    drop(part);
    nothing(alloc)
}

/// No text, where an expression has none.
fn no_text(alloc: Global, expr: Expr) -> Text
    ensures { result ≡ [] }
{
    drop(expr);
    Text::new(alloc)
}

/// The expression; several without brackets are a tuple. It takes no memory.
pub fn expr_of(alloc: Global, part: Part) -> Expr
    ensures { result ≡ spec.expr_in part }
{
    match part {
        Part::Expr(_, expr) => expr.into_inner(),
        Part::Exprs(line, exprs) => Expr::Tuple(line, exprs),
        other => no_expr(alloc, other),
    }
}

/// The expression in a box.
pub fn boxed_of(alloc: Global, part: Part) -> Result<Boxed<Expr>, Memory>
    ensures { IfOk result (λ e. e ≡ spec.expr_in part) }
{
    match part {
        Part::Expr(_, expr) => Ok(expr),
        other => Ok(Boxed::new(alloc, expr_of(alloc, other))?),
    }
}

/// The expression, where there is a part.
pub fn optional_of(alloc: Global, part: Part) -> Result<Option<Boxed<Expr>>, Memory>
    ensures { IfOk result (λ e. e ≡ spec.optional_in part) }
{
    match part {
        Part::Missing => Ok(None),
        other => Ok(Some(boxed_of(alloc, other)?)),
    }
}

/// The name that an expression is.
pub fn name_of(alloc: Global, expr: Expr) -> Text
    ensures { result ≡ spec.name_of expr }
{
    match expr {
        Expr::Name(_, name) => name,
        other => no_text(alloc, other),
    }
}

/// The text that an expression is.
pub fn text_of(alloc: Global, expr: Expr) -> Text
    ensures { result ≡ spec.text_of expr }
{
    match expr {
        Expr::Text(_, text) => text,
        other => no_text(alloc, other),
    }
}

/// No items, where a part holds others.
pub fn no_items<T>(alloc: Global, part: Part) -> Items<T>
    ensures { result ≡ [] }
{
    drop(part);
    Items::new(alloc)
}

/// No parameters, where a part holds others.
pub fn no_params(alloc: Global, part: Part) -> Parameters
    ensures { result ≡ [] }
{
    drop(part);
    Parameters::new(alloc)
}
