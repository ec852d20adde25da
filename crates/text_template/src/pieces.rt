// Reading the pieces of a text.
ghost use Rattle.std.specs.Prelude.{◌≡◌, ◌≤◌, ◌∷◌, ◌++◌, ℕ, [], IfOk, OnOk, length};
ghost use Rattle.star_grammar.specs.CodeReaders.{GivesCode};
ghost use Rattle.star_tree.specs.Listed.{pieces_of};
ghost use Rattle.star_tree.specs.Whole.{expr_of};
ghost use Rattle.text_template.specs.Cuts.{PutsCode, PutsText};
ghost use Rattle.text_template_spec.specs.TextPieces.{pieces_in};

use crate::cut::cut_code;
use sqlite_items::{Boxed, Items};
use star_read::read_expr;
use star_token::tokens;
use star_tree::code::{Expr, Piece};
use std::alloc::Global;
use ytt_base::fault::{Place, Stop};
use ytt_base::text::{Memory, Text};

/// The expression that code is, whose first line is this place's.
fn read_code(alloc: Global, code: &str, at: Place) -> Result<Boxed<Expr>, Stop>
    ensures { GivesCode (expr_of at.file) result (λ r. r.expr at code.now) }
{
    let found = tokens(alloc, code, at.file, at.line)?;
    read_expr(alloc, &found)
}

/// Puts a piece behind the others.
fn put(piece: Piece, pieces: &mut Items<Piece>) -> Result<(), Memory>
    ensures { OnOk result (pieces.new ≡ pieces.old ++ piece ∷ []) }
{
    pieces.push(piece)?;
    Ok(())
}

/// Puts what stands outside of code behind the pieces, if it isn't empty.
fn put_text(alloc: Global, text: &str, pieces: &mut Items<Piece>) -> Result<(), Memory>
    ensures { (file : ℕ) → PutsText file text.now pieces.old pieces.new result }
{
    if text.is_empty() {
        return Ok(());
    }
    put(Piece::Written(Text::of(alloc, text)?), pieces)
}

/// Puts the expression of a mark, from behind its `(@`, behind the pieces. What stands behind the expression is left.
fn put_code<'t>(
    alloc: Global,
    marked: &'t str,
    at: Place,
    pieces: &mut Items<Piece>,
) -> Result<&'t str, Stop>
    ensures puts { PutsCode at marked.now pieces.old pieces.new result }
    ensures shorter { IfOk result (λ more. length more.now ≤ length marked.now) }
{
    let (code, behind) = cut_code(alloc, marked, at)?;
    let expr = read_code(alloc, code, at)?;
    put(Piece::Shown(expr), pieces)?;
    Ok(behind)
}

/// The pieces of a text: the expressions that stand between `(@=` and the first `@)` behind it, and what stands around them.
///
/// `at` is the place of the item in which the text stands: each expression is read as one whose first line is that, and a fault of the
/// text's form stands there. A text that isn't empty is no empty row, and no piece is an empty text.
///
/// Faults are TextForm for `(@` without `=` behind it, for code that isn't closed, and for a dash directly before the `@)` that closes it;
/// and those of the code, where `read_expr` and `tokens` tell them. The first from the left decides. Want of memory is `Stop::Memory`.
pub fn read_text(alloc: Global, text: &str, at: Place) -> Result<Items<Piece>, Stop>
    ensures pieces { GivesCode (pieces_of at.file) result (λ r. pieces_in r at text.now) }
{
    let mut pieces = Items::new(alloc);
    let mut rest = text;
    while let Some((written, marked)) = rest.split_once("(@") {
        put_text(alloc, written, &mut pieces)?;
        rest = put_code(alloc, marked, at, &mut pieces)?;
    }
    put_text(alloc, rest, &mut pieces)?;
    Ok(pieces)
}
