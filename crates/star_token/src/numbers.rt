// Integers.
ghost use Rattle.std.specs.Prelude.{◌≡◌, ◌<◌, ◌≤◌, ◌==◌, ◌||◌, true, length, pos, MatchOption};
ghost use Rattle.std.specs.Char.{is_ascii_digit, is_ascii_hexdigit};
ghost use Rattle.std.specs.List.{prefix_len};
ghost use Rattle.std.specs.Str.Parse.{AllDigits, digits_value};
ghost use Rattle.star_grammar.specs.Pieces as spec;

use star_grammar::{Piece, TokenKind};
use star_letters::{before, behind, byte};
use std::str;
use ytt_base::fault::FaultKind;

fn is_octal(byte: u8) -> bool
    ensures { result ≡ spec.is_octal byte }
{
    (b'0'..=b'7').contains(&byte)
}

fn decimal_size(text: &[u8]) -> usize
    ensures { result ≡ prefix_len is_ascii_digit text.now }
{
    text.iter().take_while(|b| b.is_ascii_digit()).count()
}

/// The longest run of decimal digits at the front.
fn decimal_digits(text: &[u8]) -> &[u8]
    ensures value { result.now ≡ spec.run_at is_ascii_digit text.now }
    ensures all { AllDigits 10 result.now }
{
    before(text, decimal_size(text))
}

fn octal_size(text: &[u8]) -> usize
    ensures { result ≡ prefix_len spec.is_octal text.now }
{
    text.iter().take_while(|b| is_octal(**b)).count()
}

fn octal_digits(text: &[u8]) -> &[u8]
    ensures value { result.now ≡ spec.run_at spec.is_octal text.now }
    ensures all { AllDigits 8 result.now }
{
    before(text, octal_size(text))
}

fn hexadecimal_size(text: &[u8]) -> usize
    ensures { result ≡ prefix_len is_ascii_hexdigit text.now }
{
    text.iter().take_while(|b| b.is_ascii_hexdigit()).count()
}

fn hexadecimal_digits(text: &[u8]) -> &[u8]
    ensures value { result.now ≡ spec.run_at is_ascii_hexdigit text.now }
    ensures all { AllDigits 16 result.now }
{
    before(text, hexadecimal_size(text))
}

/// The value of some digits, if it is not too great.
fn integer_of(base: u32, digits: &[u8]) -> Option<i128>
    requires base { (2 ≤ base) × (base ≤ 36) }
    requires some { 0 < length digits.now }
    requires all { AllDigits base digits.now }
    ensures { MatchOption result (spec.greatest_integer < digits_value base digits.now) (λ z. (z ≡ pos (digits_value base digits.now)) × (digits_value base digits.now ≤ spec.greatest_integer)) }
{
    match str::from_utf8(digits) {
        Ok(text) => i128::from_str_radix(text, base).ok(),
        Err(_) => unreachable!(),
    }
}

/// An integer of these digits and of this size.
fn integer_piece(base: u32, digits: &[u8], size: usize) -> Piece
    requires base { (2 ≤ base) × (base ≤ 36) }
    requires some { 0 < length digits.now }
    requires all { AllDigits base digits.now }
    ensures { result ≡ spec.integer_piece base digits.now size }
{
    match integer_of(base, digits) {
        Some(value) => Piece::Whole(TokenKind::Int(value), size, 0),
        None => Piece::Refused(FaultKind::IntWide),
    }
}

/// `e` or `E`, a sign or none, and a digit.
fn is_exponent(text: &[u8]) -> bool
    ensures { result ≡ spec.is_exponent text.now }
{
    (byte(text, 0) == b'e' || byte(text, 0) == b'E')
        && (byte(text, 1).is_ascii_digit()
            || ((byte(text, 1) == b'+' || byte(text, 1) == b'-') && byte(text, 2).is_ascii_digit()))
}

/// No leading zero but `0` itself.
fn is_decimal(digits: &[u8]) -> bool
    ensures { result ≡ spec.is_decimal digits.now }
{
    digits.len() == 1 || !(byte(digits, 0) == b'0')
}

fn is_float(rest: &[u8]) -> bool
    ensures { result ≡ ((spec.first rest.now == 46) || spec.is_exponent rest.now) }
{
    byte(rest, 0) == b'.' || is_exponent(rest)
}

/// The decimal integer at the front, or the float that it begins.
fn decimal_piece(text: &[u8]) -> Piece
    requires { spec.begins_number text.now ≡ true }
    ensures { result ≡ spec.decimal_piece (spec.run_at is_ascii_digit text.now) (spec.rest_of (spec.run_at is_ascii_digit text.now) text.now) }
{
    let digits = decimal_digits(text);
    if is_float(behind(text, digits.len())) {
        return Piece::Refused(FaultKind::FloatRefused);
    }
    if !is_decimal(digits) {
        return Piece::Refused(FaultKind::CodeForm);
    }
    integer_piece(10, digits, digits.len())
}

/// A digit, or a point before one.
pub fn begins_number(text: &[u8]) -> bool
    ensures { result ≡ spec.begins_number text.now }
{
    byte(text, 0).is_ascii_digit() || (byte(text, 0) == b'.' && byte(text, 1).is_ascii_digit())
}

/// The integer at the front.
pub fn number_piece(text: &[u8]) -> Piece
    requires { spec.begins_number text.now ≡ true }
    ensures { result ≡ spec.number_piece text.now }
{
    let begins = byte(text, 0) == b'0';
    if begins && byte(text, 1) == b'x' && byte(text, 2).is_ascii_hexdigit() {
        let digits = hexadecimal_digits(behind(text, 2));
        return integer_piece(16, digits, 2 + digits.len());
    }
    if begins && byte(text, 1) == b'o' && is_octal(byte(text, 2)) {
        let digits = octal_digits(behind(text, 2));
        return integer_piece(8, digits, 2 + digits.len());
    }
    decimal_piece(text)
}
