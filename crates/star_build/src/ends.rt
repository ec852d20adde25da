// The end of each alternative, and each token.
ghost use Rattle.std.specs.Prelude.{◌≡◌, OnOk, IfOk};
ghost use Rattle.star_grammar.specs.Language as language;
ghost use Rattle.star_grammar.specs.Trees as spec;

use crate::added::{add_part, open_part};
use crate::made::make_expr;
use crate::parts::Parts;
use crate::stated::state;
use crate::values::nothing;
use sqlite_items::Boxed;
use star_grammar::{Action, Mark, Part, Terminal, Token, TokenKind};
use star_tree::code::Expr;
use std::alloc::Global;
use ytt_base::text::Memory;

/// What the end of an alternative makes of the parts. Its only error is want of memory.
pub fn build(alloc: Global, action: Action, parts: &mut Parts) -> Result<(), Memory>
    ensures { OnOk result (parts.new ≡ spec.built action parts.old) }
{
    match action {
        Action::Keep | Action::Floor => Ok(()),
        Action::Open(opened) => open_part(alloc, opened, parts),
        Action::Add(added) => add_part(alloc, added, parts),
        Action::Make(made) => make_expr(alloc, made, parts),
        Action::State(stated) => state(alloc, stated, parts),
    }
}

/// The expression that a name, an integer or a text is.
fn leaf(alloc: Global, line: u32, kind: &TokenKind) -> Result<Expr, Memory>
    ensures { IfOk result (λ e. e ≡ language.leaf line kind.now) }
{
    match kind {
        TokenKind::Name(name) => Ok(Expr::Name(line, name.copy()?)),
        TokenKind::Int(n) => Ok(Expr::Int(line, *n)),
        TokenKind::Text(text) => Ok(Expr::Text(line, text.copy()?)),
        TokenKind::Mark(_) => Ok(nothing(alloc)),
    }
}

fn mark_of(kind: &TokenKind) -> Mark
    ensures { result ≡ language.mark_of kind.now }
{
    match kind {
        TokenKind::Mark(mark) => *mark,
        _ => Mark::Comma,
    }
}

fn leaf_part(alloc: Global, token: &Token) -> Result<Part, Memory>
    ensures { IfOk result (λ p. p ≡ language.leaf_part token.now) }
{
    let expr = leaf(alloc, token.line, &token.kind)?;
    Ok(Part::Expr(token.line, Boxed::new(alloc, expr)?))
}

/// What a token makes of the parts, where it stands at this place of an alternative. Its only error is
/// want of memory.
pub fn put_token(
    alloc: Global,
    terminal: Terminal,
    token: &Token,
    parts: &mut Parts,
) -> Result<(), Memory>
    ensures { OnOk result (parts.new ≡ language.with_token terminal token.now parts.old) }
{
    match terminal {
        Terminal::Passed(_) => Ok(()),
        Terminal::Kept(_) | Terminal::Enter(_) | Terminal::Leave => parts.push(Part::Mark(
            token.line,
            mark_of(&token.kind),
        )),
        Terminal::Leaf(_) | Terminal::Word | Terminal::Param => parts.push(leaf_part(
            alloc, token,
        )?),
    }
}
