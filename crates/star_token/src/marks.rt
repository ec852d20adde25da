// Operators and punctuation.
ghost use Rattle.std.specs.Prelude.{◌≡◌};
ghost use Rattle.star_grammar.specs.Pieces as spec;

use star_grammar::{Mark, Piece, TokenKind};
use star_letters::byte;
use ytt_base::fault::FaultKind;

/// `+ - * % ~ & | ^ < > =`
fn operator_mark(byte: u8) -> Option<Mark>
    ensures { result ≡ spec.operator_mark byte }
{
    match byte {
        b'+' => Some(Mark::Plus),
        b'-' => Some(Mark::Minus),
        b'*' => Some(Mark::Star),
        b'%' => Some(Mark::Percent),
        b'~' => Some(Mark::Tilde),
        b'&' => Some(Mark::Ampersand),
        b'|' => Some(Mark::Bar),
        b'^' => Some(Mark::Caret),
        b'<' => Some(Mark::Less),
        b'>' => Some(Mark::Greater),
        b'=' => Some(Mark::Assign),
        _ => None,
    }
}

/// `, : ; . ( ) [ ] { }`
fn punctuation(byte: u8) -> Option<Mark>
    ensures { result ≡ spec.punctuation byte }
{
    match byte {
        b',' => Some(Mark::Comma),
        b':' => Some(Mark::Colon),
        b';' => Some(Mark::Semicolon),
        b'.' => Some(Mark::Dot),
        b'(' => Some(Mark::Open),
        b')' => Some(Mark::Close),
        b'[' => Some(Mark::OpenBracket),
        b']' => Some(Mark::CloseBracket),
        b'{' => Some(Mark::OpenBrace),
        b'}' => Some(Mark::CloseBrace),
        _ => None,
    }
}

/// A byte before `=`.
fn assigning(byte: u8) -> Option<Mark>
    ensures { result ≡ spec.assigning byte }
{
    match byte {
        b'=' => Some(Mark::Equal),
        b'!' => Some(Mark::Unequal),
        b'<' => Some(Mark::AtMost),
        b'>' => Some(Mark::AtLeast),
        b'+' => Some(Mark::PlusAssign),
        b'-' => Some(Mark::MinusAssign),
        b'*' => Some(Mark::StarAssign),
        b'%' => Some(Mark::PercentAssign),
        b'&' => Some(Mark::AmpersandAssign),
        b'|' => Some(Mark::BarAssign),
        b'^' => Some(Mark::CaretAssign),
        _ => None,
    }
}

/// A byte that stands twice.
fn doubled(byte: u8) -> Option<Mark>
    ensures { result ≡ spec.doubled byte }
{
    match byte {
        b'*' => Some(Mark::Stars),
        b'/' => Some(Mark::DoubleSlash),
        b'<' => Some(Mark::ShiftLeft),
        b'>' => Some(Mark::ShiftRight),
        _ => None,
    }
}

/// A byte that stands twice before `=`.
fn doubled_assigning(byte: u8) -> Option<Mark>
    ensures { result ≡ spec.doubled_assigning byte }
{
    match byte {
        b'/' => Some(Mark::DoubleSlashAssign),
        b'<' => Some(Mark::ShiftLeftAssign),
        b'>' => Some(Mark::ShiftRightAssign),
        _ => None,
    }
}

/// A token of this size whose text is always the same.
pub fn mark_piece(mark: Mark, size: usize) -> Piece
    ensures { result ≡ spec.mark_piece mark size }
{
    Piece::Whole(TokenKind::Mark(mark), size, 0)
}

fn single(byte: u8) -> Option<Mark>
    ensures { result ≡ spec.single byte }
{
    match operator_mark(byte) {
        Some(mark) => Some(mark),
        None => punctuation(byte),
    }
}

/// A token of one byte; `/` would divide to a float.
fn short_piece(byte: u8) -> Piece
    ensures { result ≡ spec.short_piece byte }
{
    match single(byte) {
        Some(mark) => mark_piece(mark, 1),
        None if byte == b'/' => Piece::Refused(FaultKind::FloatRefused),
        None => Piece::Refused(FaultKind::CodeForm),
    }
}

/// The mark, if there is reason for it.
fn only_if(holds: bool, mark: Option<Mark>) -> Option<Mark>
    ensures { result ≡ spec.only_if holds mark }
{
    if holds { mark } else { None }
}

fn middle_piece(text: &[u8]) -> Piece
    ensures { result ≡ spec.middle_piece text.now }
{
    match only_if(byte(text, 1) == b'=', assigning(byte(text, 0))) {
        Some(mark) => mark_piece(mark, 2),
        None => short_piece(byte(text, 0)),
    }
}

fn is_double(text: &[u8]) -> bool
    ensures { result ≡ spec.is_double text.now }
{
    byte(text, 1) == byte(text, 0)
}

fn double_piece(text: &[u8]) -> Piece
    ensures { result ≡ spec.double_piece text.now }
{
    match only_if(is_double(text), doubled(byte(text, 0))) {
        Some(mark) => mark_piece(mark, 2),
        None => middle_piece(text),
    }
}

fn is_double_assign(text: &[u8]) -> bool
    ensures { result ≡ spec.is_double_assign text.now }
{
    is_double(text) && byte(text, 2) == b'='
}

/// The longest operator or punctuation at the front.
pub fn operator_piece(text: &[u8]) -> Piece
    ensures { result ≡ spec.operator_piece text.now }
{
    match only_if(is_double_assign(text), doubled_assigning(byte(text, 0))) {
        Some(mark) => mark_piece(mark, 3),
        None => double_piece(text),
    }
}
