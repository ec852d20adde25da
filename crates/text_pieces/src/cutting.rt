// What a text is cut into.
ghost use Rattle.std.specs.Prelude.{◌≡◌, ◌++◌, ◌<◌, IfOk, length};
ghost use Rattle.text_spec.specs.Cutting.{pieces, pieces_back, pieces_between};
ghost use Rattle.text_spec.specs.Texts.{texts_of};
ghost use Rattle.text_pieces.specs.Texts.{AreLast, AreNext, pieces_on};

use crate::character::first_character;
use crate::cuts::{cut_first, cut_last};
use sqlite_items::Items;
use std::alloc::Global;
use ytt_base::text::Memory;

/// The next piece and what is left to be cut; `None` where all that is left is one piece.
fn next_piece<'t>(separator: &str, cuts: u128, text: &'t str) -> Option<(&'t str, &'t str)>
    ensures { AreNext separator.now cuts text.now result }
{
    if cuts == 0 {
        return None;
    }
    if separator.is_empty() {
        return first_character(text);
    }
    cut_first(separator, text)
}

/// Puts what a text is cut into behind these pieces.
fn cut_on<'t>(
    mut made: Items<&'t str>,
    separator: &str,
    cuts: u128,
    text: &'t str,
) -> Result<Items<&'t str>, Memory>
    ensures { IfOk result (λ ps. texts_of ps ≡ texts_of made.entry ++ pieces_on separator.now cuts text.now) }
{
    let mut left = cuts;
    let mut rest = text;
    while let Some((piece, behind)) = next_piece(separator, left, rest) {
        made.push(piece)?;
        left -= 1;
        rest = behind;
    }
    made.push(rest)?;
    Ok(made)
}

/// What stands between the first places of a separator, with so many cuts at most; or want of memory.
pub fn pieces<'t>(
    alloc: Global,
    separator: &str,
    cuts: u128,
    text: &'t str,
) -> Result<Items<&'t str>, Memory>
    requires { 0 < length separator.now }
    ensures { IfOk result (λ ps. texts_of ps ≡ pieces separator.now cuts text.now) }
{
    cut_on(Items::new(alloc), separator, cuts, text)
}

/// The same for a separator that may be empty, which cuts at the bounds of characters.
pub fn pieces_between<'t>(
    alloc: Global,
    separator: &str,
    cuts: u128,
    text: &'t str,
) -> Result<Items<&'t str>, Memory>
    ensures { IfOk result (λ ps. texts_of ps ≡ pieces_between separator.now cuts text.now) }
{
    let mut made = Items::new(alloc);
    if separator.is_empty() && cuts > 0 {
        made.push("")?;
        return cut_on(made, separator, cuts - 1, text);
    }
    cut_on(made, separator, cuts, text)
}

/// What is left to be cut and the last piece behind it; `None` where all that is left is one piece.
fn last_piece<'t>(separator: &str, cuts: u128, text: &'t str) -> Option<(&'t str, &'t str)>
    requires { 0 < length separator.now }
    ensures { AreLast separator.now cuts text.now result }
{
    if cuts == 0 {
        return None;
    }
    cut_last(separator, text)
}

/// What stands between the last places of a separator, with so many cuts at most; or want of memory.
pub fn pieces_back<'t>(
    alloc: Global,
    separator: &str,
    cuts: u128,
    text: &'t str,
) -> Result<Items<&'t str>, Memory>
    requires { 0 < length separator.now }
    ensures { IfOk result (λ ps. texts_of ps ≡ pieces_back separator.now cuts text.now) }
{
    let mut turned = Vec::new(alloc);
    let mut left = cuts;
    let mut rest = text;
    while let Some((before, piece)) = last_piece(separator, left, rest) {
        turned.push(piece)?;
        left -= 1;
        rest = before;
    }
    turned.push(rest)?;
    turned.reverse();
    Ok(Items::from_vec(turned))
}
