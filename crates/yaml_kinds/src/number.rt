// The texts that are written as numbers.
ghost use Rattle.std.specs.Prelude.{◌≡◌, ◌==◌, codes, drop, if◌then◌else◌};
ghost use Rattle.yaml_spec.specs.Bytes.{dot, first, is_digit, is_hex_digit, is_octal_digit};
ghost use Rattle.yaml_spec.specs.Scalars.{has_prefix, is_decimal_fraction, is_exponent, is_float, skip_digits, unsigned};

use crate::bytes::{is_digit, some_digits, some_hex_digits, some_octal_digits};
use crate::words::{is_infinity_word, is_nan_word};

/// The text behind its sign, where it has one.
pub fn unsigned(text: &[u8]) -> &[u8]
    ensures { result.now ≡ unsigned text.now }
{
    match text.split_first() {
        Some((b'+' | b'-', rest)) => rest,
        _ => text,
    }
}

fn skip_digits(text: &[u8]) -> &[u8]
    ensures { result.now ≡ skip_digits text.now }
{
    let mut rest = text;
    while let Some((byte, others)) = rest.split_first() {
        if !is_digit(*byte) {
            return rest;
        }
        rest = others;
    }
    rest
}

fn skip_fraction(text: &[u8]) -> &[u8]
    ensures { result.now ≡ (if first text.now == dot then skip_digits (drop 1 text.now) else text.now) }
{
    match text.split_first() {
        Some((b'.', digits)) => skip_digits(digits),
        _ => text,
    }
}

fn is_exponent(text: &[u8]) -> bool
    ensures { result ≡ is_exponent text.now }
{
    match text.split_first() {
        None => true,
        Some((b'E' | b'e', digits)) => some_digits(unsigned(digits)),
        Some(_) => false,
    }
}

fn begins_with_digit(text: &[u8]) -> bool
    ensures { result ≡ is_digit (first text.now) }
{
    match text.first() {
        None => false,
        Some(byte) => is_digit(*byte),
    }
}

fn is_decimal_fraction(text: &[u8]) -> bool
    ensures { result ≡ is_decimal_fraction text.now }
{
    match text.split_first() {
        Some((b'.', digits)) => begins_with_digit(digits) && is_exponent(skip_digits(digits)),
        _ => begins_with_digit(text) && is_exponent(skip_fraction(skip_digits(text))),
    }
}

/// Whether the text is a float: a decimal fraction or an infinity, with a sign or without one,
/// or no number. An integer counts too.
pub fn is_float(text: &[u8]) -> bool
    ensures { result ≡ is_float text.now }
{
    let number = unsigned(text);
    is_decimal_fraction(number) || is_infinity_word(number) || is_nan_word(text)
}

/// Whether the text is `0o` and octal digits.
#[tactic(auto, using(crate::proofs::ByteTests::too_short))]
pub fn is_prefixed_octal(text: &[u8]) -> bool
    ensures { result ≡ has_prefix (codes "0o") is_octal_digit text.now }
{
    text.len() > 2 && text[..2] == b"0o"[..] && some_octal_digits(&text[2..])
}

/// Whether the text is `0x` and hexadecimal digits.
#[tactic(auto, using(crate::proofs::ByteTests::too_short))]
pub fn is_prefixed_hex(text: &[u8]) -> bool
    ensures { result ≡ has_prefix (codes "0x") is_hex_digit text.now }
{
    text.len() > 2 && text[..2] == b"0x"[..] && some_hex_digits(&text[2..])
}
