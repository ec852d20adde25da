// A text in double quotes, on one line.
ghost use Rattle.std.specs.Prelude.{◌≡◌, ◌<◌, ◌/◌, ◌++◌, OnOk, chars, codes, string_bytes};
ghost use Rattle.yaml_spec.specs.Text.{hex2, quoted_char, quoted_chars, quoted_text};
ghost use Rattle.yaml_styles.specs.Numbered.{numbered_char};

use crate::texts::{Pushed, push};
use yaml_styles::{hex_digit, is_long_escaped, is_short_escaped, short_escape};

/// Puts the last two digits of base 16 of a number.
fn push_hex2(code: u32, out: &mut String) -> Pushed
    ensures { OnOk result (string_bytes out.new ≡ string_bytes out.old ++ hex2 code) }
{
    out.push(hex_digit(code / 16 % 16))?;
    out.push(hex_digit(code % 16))?;
    Ok(())
}

/// Puts a character as itself, or where it is none to show, by its number.
fn push_numbered(c: char, out: &mut String) -> Pushed
    ensures { OnOk result (string_bytes out.new ≡ string_bytes out.old ++ numbered_char c) }
{
    let code = c as u32;
    if is_short_escaped(code) {
        push("\\x", out)?;
        return push_hex2(code, out);
    }
    if is_long_escaped(code) {
        push("\\u", out)?;
        push_hex2(code / 256, out)?;
        return push_hex2(code, out);
    }
    out.push(c)?;
    Ok(())
}

fn push_char(c: char, out: &mut String) -> Pushed
    ensures { OnOk result (string_bytes out.new ≡ string_bytes out.old ++ quoted_char c) }
{
    match short_escape(c) {
        Some(escape) => push(escape, out),
        None => push_numbered(c, out),
    }
}

fn push_chars(text: &str, out: &mut String) -> Pushed
    ensures { OnOk result (string_bytes out.new ≡ string_bytes out.old ++ quoted_chars (chars text.now)) }
{
    for c in text.chars() {
        push_char(c, out)?;
    }
    Ok(())
}

/// Puts a text in double quotes.
pub(crate) fn push_quoted(text: &str, out: &mut String) -> Pushed
    ensures { OnOk result (string_bytes out.new ≡ string_bytes out.old ++ quoted_text text.now) }
{
    push("\"", out)?;
    push_chars(text, out)?;
    push("\"", out)
}
