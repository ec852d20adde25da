// Texts in quotes.
ghost use Rattle.std.specs.Prelude.{◌≡◌, ◌≤◌, IfOk, Some, length};
ghost use Rattle.std.specs.Option.{option_map};
ghost use Rattle.star_grammar.specs.Pieces as spec;
ghost use Rattle.star_token.specs.View.{span_of};

use star_grammar::{Form, Origin, Piece, TokenKind};
use star_letters::{behind, byte, letter_at, push_said};
use std::alloc::Global;
use std::str;
use ytt_base::fault::FaultKind;
use ytt_base::text::{Memory, Text};

/// The bytes of a text, and how many bytes are left behind its closing quotes.
#[derive(Drop)]
pub struct Span {
    pub bytes: Vec<u8>,
    pub left: usize,
}

/// Whether the closing quote stands at the front, or three of them.
fn closes(form: Form, text: &[u8]) -> bool
    ensures { result ≡ spec.closes form text.now }
{
    byte(text, 0) == form.quote
        && (!form.triple || (byte(text, 1) == form.quote && byte(text, 2) == form.quote))
}

fn quotes(form: Form) -> usize
    ensures { result ≡ spec.quotes form }
{
    if form.triple { 3 } else { 1 }
}

/// The text behind its opening quotes; none where it is open or a letter is wrong. Its only error is want of memory.
fn quoted(alloc: Global, form: Form, text: &[u8]) -> Result<Option<Span>, Memory>
    ensures { IfOk result (λ s. option_map span_of s ≡ spec.quoted form text.now) }
{
    let mut bytes = Vec::new(alloc);
    let mut rest = text;
    while let Some((_, more)) = rest.split_first() {
        if closes(form, rest) {
            let left = rest.len().saturating_sub(quotes(form));
            return Ok(Some(Span { bytes, left }));
        }
        let Some(letter) = letter_at(form, rest) else {
            return Ok(None);
        };
        push_said(&mut bytes, letter.said)?;
        rest = behind(more, letter.size.saturating_sub(1));
    }
    Ok(None)
}

/// How many line ends are in the first bytes.
fn line_ends(size: usize, text: &[u8]) -> usize
    requires { size ≤ length text.now }
    ensures { result ≡ spec.line_ends size text.now }
{
    text[..size].iter().filter(|b| **b == b'\n').count()
}

/// A text of this span behind its opening quotes, which stand behind so many bytes.
fn text_token(alloc: Global, before: usize, text: &[u8], span: &Span) -> Result<Piece, Memory>
    requires { before ≤ 4 }
    ensures { IfOk result (λ p. p ≡ spec.text_token before text.now (Some (span_of span.now))) }
{
    let Ok(string) = str::from_utf8(span.bytes.as_slice()) else {
        return Ok(Piece::Refused(FaultKind::CodeForm));
    };
    let size = text.len().saturating_sub(span.left);
    let ends = line_ends(size, text);
    let kind = TokenKind::Text(Text::of(alloc, string)?);
    Ok(Piece::Whole(kind, before.saturating_add(size), ends))
}

fn text_of_form(alloc: Global, form: Form, before: usize, text: &[u8]) -> Result<Piece, Memory>
    requires { before ≤ 4 }
    ensures { IfOk result (λ p. p ≡ spec.text_token before text.now (spec.quoted form text.now)) }
{
    match quoted(alloc, form, text)? {
        Some(span) => text_token(alloc, before, text, &span),
        None => Ok(Piece::Refused(FaultKind::CodeForm)),
    }
}

fn is_triple(text: &[u8]) -> bool
    ensures { result ≡ spec.is_triple text.now }
{
    byte(text, 1) == byte(text, 0) && byte(text, 2) == byte(text, 0)
}

/// Only texts in three quotes, in a file, hold line ends.
fn holds_lines(origin: Origin) -> bool
    ensures { result ≡ spec.holds_lines origin }
{
    match origin {
        Origin::File => true,
        Origin::Comment => false,
    }
}

/// The text whose quote is the first byte here, behind so many bytes. Its only error is want of memory.
pub fn text_piece(
    alloc: Global,
    origin: Origin,
    raw: bool,
    before: usize,
    text: &[u8],
) -> Result<Piece, Memory>
    requires { before ≤ 1 }
    ensures { IfOk result (λ p. p ≡ spec.text_piece origin raw before text.now) }
{
    let triple = is_triple(text);
    let lines = triple && holds_lines(origin);
    let quote = byte(text, 0);
    let form = Form {
        raw,
        triple,
        lines,
        quote,
    };
    let opening = quotes(form);
    text_of_form(alloc, form, before + opening, behind(text, opening))
}
