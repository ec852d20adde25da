// Escapes of a text, and their escapes.
ghost use Rattle.std.specs.Prelude.{◌≡◌, ◌<◌, IfSome, OnOk, ◌++◌};
ghost use Rattle.star_grammar.specs.Pieces as spec;
ghost use Rattle.star_grammar.specs.declared.token.Said.TheVariants as said;

use crate::bytes::{behind, byte};
use star_grammar::{Form, Letter, Said};
use ytt_base::text::Memory;

/// The value of a hexadecimal digit.
fn hex1(byte: u8) -> Option<u32>
    ensures value { result ≡ spec.hex1 byte }
    ensures small { IfSome result (λ n. n < 16) }
{
    match byte {
        b'0'..=b'9' => Some(u32::from(byte - b'0')),
        b'a'..=b'f' => Some(u32::from(byte - b'a') + 10),
        b'A'..=b'F' => Some(u32::from(byte - b'A') + 10),
        _ => None,
    }
}

/// The value of two hexadecimal digits at the front.
#[tactic(auto, using(crate::proofs::Escapes::digits))]
fn hex2(text: &[u8]) -> Option<u32>
    ensures value { result ≡ spec.hex2 text.now }
    ensures small { IfSome result (λ n. n < 256) }
{
    match (hex1(byte(text, 0)), hex1(byte(text, 1))) {
        (Some(high), Some(low)) => Some(high * 16 + low),
        _ => None,
    }
}

/// The value of four.
#[tactic(auto, using(crate::proofs::Escapes::digits))]
fn hex4(text: &[u8]) -> Option<u32>
    ensures value { result ≡ spec.hex4 text.now }
    ensures small { IfSome result (λ n. n < 65536) }
{
    match (hex2(text), hex2(behind(text, 2))) {
        (Some(high), Some(low)) => Some(high * 256 + low),
        _ => None,
    }
}

/// The value of eight.
#[tactic(auto, using(crate::proofs::Escapes::digits))]
fn hex8(text: &[u8]) -> Option<u32>
    ensures value { result ≡ spec.hex8 text.now }
{
    match (hex4(text), hex4(behind(text, 4))) {
        (Some(high), Some(low)) => Some(high * 65536 + low),
        _ => None,
    }
}

fn letter(said: Said, size: usize) -> Letter
    ensures { result ≡ spec.letter said size }
{
    Letter { said, size }
}

/// Whether a character has this number, up to a greatest one; surrogates have none.
fn is_character(most: u32, number: u32) -> bool
    ensures { result ≡ spec.is_character most number }
{
    number <= most && !(number >= 0xD800 && number <= 0xDFFF)
}

/// The character of a number that has so many bytes as an escape.
fn numbered(most: u32, size: usize, number: Option<u32>) -> Option<Letter>
    ensures { result ≡ spec.numbered most size number }
{
    match number {
        Some(number) if is_character(most, number) => Some(letter(Said::Char(number), size)),
        _ => None,
    }
}

/// The byte that a letter behind a backslash stands for.
fn short_escape(byte: u8) -> Option<u8>
    ensures { result ≡ spec.short_escape byte }
{
    match byte {
        b'a' => Some(7),
        b'b' => Some(8),
        b'f' => Some(12),
        b'n' => Some(10),
        b'r' => Some(13),
        b't' => Some(9),
        b'v' => Some(11),
        b'\\' => Some(92),
        b'\'' => Some(39),
        b'"' => Some(34),
        _ => None,
    }
}

/// An escape by a number, whose first letter is this one and whose digits follow.
fn long_escape(letter: u8, text: &[u8]) -> Option<Letter>
    ensures { result ≡ spec.long_escape letter text.now }
{
    match letter {
        b'x' => numbered(127, 4, hex2(text)),
        b'u' => numbered(65535, 6, hex4(text)),
        b'U' => numbered(1114111, 10, hex8(text)),
        _ => None,
    }
}

/// What stands behind a backslash.
fn escape(lines: bool, text: &[u8]) -> Option<Letter>
    ensures { result ≡ spec.escape lines text.now }
{
    if byte(text, 0) == b'\n' {
        return if lines {
            Some(letter(Said::Nothing, 2))
        } else {
            None
        };
    }
    match short_escape(byte(text, 0)) {
        Some(byte) => Some(letter(Said::Byte(byte), 2)),
        None => long_escape(byte(text, 0), behind(text, 1)),
    }
}

/// The letter at the front of a text that isn't closed there.
pub fn letter_at(form: Form, text: &[u8]) -> Option<Letter>
    ensures { result ≡ spec.letter_at form text.now }
{
    if byte(text, 0) == b'\n' {
        return if form.lines {
            Some(letter(Said::Byte(10), 1))
        } else {
            None
        };
    }
    if byte(text, 0) == b'\\' && !form.raw {
        return escape(form.lines, behind(text, 1));
    }
    Some(letter(Said::Byte(byte(text, 0)), 1))
}

/// Puts a character of this number behind the bytes, in UTF-8.
fn push_character(bytes: &mut Vec<u8>, number: u32) -> Result<(), Memory>
    ensures { OnOk result (bytes.new.items ≡ bytes.old.items ++ spec.bytes_of (said.Char number)) }
{
    if number < 128 {
        bytes.push(number as u8)?;
        return Ok(());
    }
    if number < 2048 {
        bytes.push((192 + number / 64) as u8)?;
    } else if number < 65536 {
        bytes.push((224 + number / 4096) as u8)?;
        bytes.push((128 + number / 64 % 64) as u8)?;
    } else {
        bytes.push((240 + number / 262144 % 8) as u8)?;
        bytes.push((128 + number / 4096 % 64) as u8)?;
        bytes.push((128 + number / 64 % 64) as u8)?;
    }
    bytes.push((128 + number % 64) as u8)?;
    Ok(())
}

/// Puts what a letter says behind the bytes. Its only error is want of memory.
pub fn push_said(bytes: &mut Vec<u8>, said: Said) -> Result<(), Memory>
    ensures { OnOk result (bytes.new.items ≡ bytes.old.items ++ spec.bytes_of said) }
{
    match said {
        Said::Nothing => Ok(()),
        Said::Byte(byte) => {
            bytes.push(byte)?;
            Ok(())
        }
        Said::Char(number) => push_character(bytes, number),
    }
}
