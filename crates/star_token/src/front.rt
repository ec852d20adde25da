// What stands at the front of a text.
ghost use Rattle.std.specs.Prelude.{◌≡◌, IfOk, drop, true, if◌then◌else◌};
ghost use Rattle.std.specs.List.{prefix_len};
ghost use Rattle.star_grammar.specs.Pieces as spec;

use crate::marks::operator_piece;
use crate::numbers::{begins_number, number_piece};
use crate::texts::text_piece;
use crate::words::{begins_word, word_piece};
use star_grammar::{Origin, Piece};
use star_letters::{behind, byte};
use std::alloc::Global;
use ytt_base::fault::FaultKind;
use ytt_base::text::Memory;

fn is_blank(byte: u8) -> bool
    ensures { result ≡ spec.is_blank byte }
{
    byte == b' ' || byte == b'\t'
}

fn is_quote(byte: u8) -> bool
    ensures { result ≡ spec.is_quote byte }
{
    byte == b'"' || byte == b'\''
}

fn no_line_end(byte: u8) -> bool
    ensures { result ≡ spec.no_line_end byte }
{
    !(byte == b'\n')
}

fn comment_size(text: &[u8]) -> usize
    ensures { result ≡ prefix_len spec.no_line_end text.now }
{
    text.iter().take_while(|b| no_line_end(**b)).count()
}

/// A comment up to the line's end, in a file.
fn comment_piece(origin: Origin, text: &[u8]) -> Piece
    ensures { result ≡ spec.comment_piece origin text.now }
{
    match origin {
        Origin::File => Piece::Blank(comment_size(text)),
        Origin::Comment => Piece::Refused(FaultKind::CodeForm),
    }
}

/// Whether `r` stands before a quote.
fn is_raw(text: &[u8]) -> bool
    ensures { result ≡ spec.is_raw text.now }
{
    byte(text, 0) == b'r' && is_quote(byte(text, 1))
}

/// A word, a number or an operator. Its only error is want of memory.
fn other_piece(alloc: Global, text: &[u8]) -> Result<Piece, Memory>
    ensures { IfOk result (λ p. p ≡ spec.other_piece text.now) }
{
    if begins_word(byte(text, 0)) {
        return word_piece(alloc, text);
    }
    if begins_number(text) {
        return Ok(number_piece(text));
    }
    Ok(operator_piece(text))
}

/// A text without escapes, or another token. Its only error is want of memory.
fn raw_piece(alloc: Global, origin: Origin, text: &[u8]) -> Result<Piece, Memory>
    ensures { IfOk result (λ p. p ≡ (if spec.is_raw text.now then spec.text_piece origin true 1 (drop 1 text.now) else spec.other_piece text.now)) }
{
    if is_raw(text) {
        return text_piece(alloc, origin, true, 1, behind(text, 1));
    }
    other_piece(alloc, text)
}

/// The longest token at the front, bytes that are none, or what is no token. Its only error is want of memory.
pub fn front(alloc: Global, origin: Origin, text: &[u8]) -> Result<Piece, Memory>
    ensures { IfOk result (λ p. p ≡ spec.front origin text.now) }
{
    let first = byte(text, 0);
    if is_blank(first) {
        return Ok(Piece::Blank(1));
    }
    if first == b'\n' {
        return Ok(Piece::LineEnd);
    }
    if first == b'#' {
        return Ok(comment_piece(origin, text));
    }
    if is_quote(first) {
        return text_piece(alloc, origin, false, 0, text);
    }
    raw_piece(alloc, origin, text)
}
