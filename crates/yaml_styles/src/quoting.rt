// A string in double quotes, on one line.
ghost use Rattle.std.specs.Prelude.{◌≡◌, ◌<◌, ◌/◌, ◌++◌, IfOk, MatchOption, OnOk, chars, codes, string_bytes};
ghost use Rattle.yaml_spec.specs.Text.{hex2, hex_digit, quoted_char, quoted_chars, quoted_text};
ghost use Rattle.yaml_styles.specs.Numbered.{is_long_escaped, is_short_escaped, numbered_char};

use std::alloc::Global;
use ytt_base::text::{Memory, Text};

/// A digit of base 16, in capitals.
pub fn hex_digit(n: u32) -> char
    requires { n < 16 }
    ensures { result ≡ hex_digit n }
{
    char::from(if n < 10 {
        b'0' + n as u8
    } else {
        b'A' + (n - 10) as u8
    })
}

fn push_hex2(out: &mut String, code: u32) -> Result<(), Memory>
    ensures { OnOk result (string_bytes out.new ≡ string_bytes out.old ++ hex2 code) }
{
    out.push(hex_digit(code / 16 % 16))?;
    out.push(hex_digit(code % 16))?;
    Ok(())
}

fn push_short(out: &mut String, code: u32) -> Result<(), Memory>
    ensures { OnOk result (string_bytes out.new ≡ string_bytes out.old ++ (codes "\\x" ++ hex2 code)) }
{
    out.push_str("\\x")?;
    push_hex2(out, code)
}

fn push_long(out: &mut String, code: u32) -> Result<(), Memory>
    ensures { OnOk result (string_bytes out.new ≡ string_bytes out.old ++ (codes "\\u" ++ (hex2 (code / 256) ++ hex2 code))) }
{
    out.push_str("\\u")?;
    push_hex2(out, code / 256)?;
    push_hex2(out, code)
}

/// Whether the character of this number has an escape of two digits, where it has none of its own.
pub fn is_short_escaped(code: u32) -> bool
    ensures { result ≡ is_short_escaped code }
{
    code < 0x20 || (code >= 0x7F && code <= 0xA0)
}

/// Whether the character of this number has an escape of four digits.
pub fn is_long_escaped(code: u32) -> bool
    ensures { result ≡ is_long_escaped code }
{
    code == 0x2028 || code == 0x2029 || code == 0xFEFF || code == 0xFFFE || code == 0xFFFF
}

/// The escape of a character that has one of its own.
pub fn short_escape(c: char) -> Option<&'static str>
    ensures { MatchOption result (quoted_char c ≡ numbered_char c) (λ t. quoted_char c ≡ t.now) }
{
    match c {
        '"' => Some("\\\""),
        '\\' => Some("\\\\"),
        '\n' => Some("\\n"),
        '\t' => Some("\\t"),
        '\r' => Some("\\r"),
        _ => None,
    }
}

/// A character as itself, or where it is none to show, by its number.
fn push_numbered(out: &mut String, c: char) -> Result<(), Memory>
    ensures { OnOk result (string_bytes out.new ≡ string_bytes out.old ++ numbered_char c) }
{
    let code = c as u32;
    if is_short_escaped(code) {
        return push_short(out, code);
    }
    if is_long_escaped(code) {
        return push_long(out, code);
    }
    out.push(c)?;
    Ok(())
}

fn push_char(out: &mut String, c: char) -> Result<(), Memory>
    ensures { OnOk result (string_bytes out.new ≡ string_bytes out.old ++ quoted_char c) }
{
    match short_escape(c) {
        Some(escape) => out.push_str(escape)?,
        None => push_numbered(out, c)?,
    }
    Ok(())
}

fn push_chars(out: &mut String, text: &str) -> Result<(), Memory>
    ensures { OnOk result (string_bytes out.new ≡ string_bytes out.old ++ quoted_chars (chars text.now)) }
{
    for c in text.chars() {
        push_char(out, c)?;
    }
    Ok(())
}

/// The string in double quotes, on one line. Its only error is want of memory.
pub fn quoted_text(alloc: Global, text: &str) -> Result<Text, Memory>
    ensures { IfOk result (λ t. t ≡ quoted_text text.now) }
{
    let mut out = String::new(alloc);
    out.push('"')?;
    push_chars(&mut out, text)?;
    out.push('"')?;
    Ok(Text::of_string(out))
}
