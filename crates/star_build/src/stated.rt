// Statements, and the heads and ends of blocks.
ghost use Rattle.std.specs.Prelude.{◌≡◌, ◌∷◌, OnOk};
ghost use Rattle.star_grammar.specs.Parts.{top, under};
ghost use Rattle.star_grammar.specs.Trees as spec;
ghost use Rattle.star_grammar.specs.declared.table.Stated.TheVariants as stated;

use crate::parts::Parts;
use crate::values::{name_of, text_of, with};
use sqlite_items::Boxed;
use star_grammar::{Mark, Part, Stated, augmented_of};
use star_tree::code::{Expr, Stmt};
use std::alloc::Global;
use ytt_base::text::Memory;

fn statement_of_word(line: u32, mark: Mark) -> Stmt
    ensures { result ≡ spec.statement_of_word line mark }
{
    match mark {
        Mark::Break => Stmt::Break(line),
        Mark::Continue => Stmt::Continue(line),
        Mark::Else => Stmt::Else(line),
        Mark::End => Stmt::Close(line),
        _ => Stmt::Pass(line),
    }
}

fn statement_with(line: u32, mark: Mark, expr: Boxed<Expr>) -> Stmt
    ensures { result ≡ spec.statement_with line mark expr }
{
    match mark {
        Mark::If => Stmt::If(line, expr),
        Mark::Elif => Stmt::Elif(line, expr),
        _ => Stmt::Return(line, expr),
    }
}

/// The code that stands last, and one more statement.
fn add_statement(alloc: Global, parts: &mut Parts, statement: Stmt) -> Result<(), Memory>
    ensures { OnOk result (parts.new ≡ spec.with_statement (top parts.old) statement ∷ under parts.old) }
{
    let code = parts.pop_code(alloc);
    parts.push(Part::Code(with(code, statement)?))
}

fn word(alloc: Global, parts: &mut Parts) -> Result<(), Memory>
    ensures { OnOk result (parts.new ≡ spec.stated_parts stated.Word parts.old) }
{
    let line = parts.line();
    let mark = parts.pop_mark();
    add_statement(alloc, parts, statement_of_word(line, mark))
}

fn word_expr(alloc: Global, parts: &mut Parts) -> Result<(), Memory>
    ensures { OnOk result (parts.new ≡ spec.stated_parts stated.WordExpr parts.old) }
{
    let expr = parts.pop_boxed(alloc)?;
    let line = parts.line();
    let mark = parts.pop_mark();
    add_statement(alloc, parts, statement_with(line, mark, expr))
}

fn load(alloc: Global, parts: &mut Parts) -> Result<(), Memory>
    ensures { OnOk result (parts.new ≡ spec.stated_parts stated.Load parts.old) }
{
    let loads = parts.pop_loads(alloc);
    let path = text_of(alloc, parts.pop_expr(alloc));
    let line = parts.pop_line();
    add_statement(alloc, parts, Stmt::Load(line, path, loads))
}

fn assign(alloc: Global, parts: &mut Parts) -> Result<(), Memory>
    ensures { OnOk result (parts.new ≡ spec.stated_parts stated.Assign parts.old) }
{
    let value = parts.pop_boxed(alloc)?;
    let line = parts.line();
    let target = parts.pop_boxed(alloc)?;
    add_statement(alloc, parts, Stmt::Assign(line, target, value))
}

fn augment(alloc: Global, parts: &mut Parts) -> Result<(), Memory>
    ensures { OnOk result (parts.new ≡ spec.stated_parts stated.Augment parts.old) }
{
    let value = parts.pop_boxed(alloc)?;
    let at = parts.line();
    let operator = augmented_of(parts.pop_mark());
    let line = parts.line();
    let target = parts.pop_boxed(alloc)?;
    add_statement(
        alloc,
        parts,
        Stmt::Augment(line, operator, at, target, value),
    )
}

fn evaluate(alloc: Global, parts: &mut Parts) -> Result<(), Memory>
    ensures { OnOk result (parts.new ≡ spec.stated_parts stated.Evaluate parts.old) }
{
    let line = parts.line();
    let expr = parts.pop_boxed(alloc)?;
    add_statement(alloc, parts, Stmt::Expr(line, expr))
}

fn begin_for(alloc: Global, parts: &mut Parts) -> Result<(), Memory>
    ensures { OnOk result (parts.new ≡ spec.stated_parts stated.For parts.old) }
{
    let members = parts.pop_boxed(alloc)?;
    let target = parts.pop_boxed(alloc)?;
    let line = parts.pop_line();
    add_statement(alloc, parts, Stmt::For(line, target, members))
}

fn begin_def(alloc: Global, parts: &mut Parts) -> Result<(), Memory>
    ensures { OnOk result (parts.new ≡ spec.stated_parts stated.Def parts.old) }
{
    let params = parts.pop_params(alloc).into_items();
    let name = name_of(alloc, parts.pop_expr(alloc));
    let line = parts.pop_line();
    add_statement(alloc, parts, Stmt::Def(line, 0, None, name, params))
}

/// The last parts become a statement of the code before them.
pub fn state(alloc: Global, action: Stated, parts: &mut Parts) -> Result<(), Memory>
    ensures { OnOk result (parts.new ≡ spec.stated_parts action parts.old) }
{
    match action {
        Stated::Word => word(alloc, parts),
        Stated::WordExpr => word_expr(alloc, parts),
        Stated::Load => load(alloc, parts),
        Stated::Assign => assign(alloc, parts),
        Stated::Augment => augment(alloc, parts),
        Stated::Evaluate => evaluate(alloc, parts),
        Stated::For => begin_for(alloc, parts),
        Stated::Def => begin_def(alloc, parts),
    }
}
