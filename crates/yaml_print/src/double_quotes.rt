// A string in double quotes, on one line.
ghost use Rattle.std.specs.Prelude.{◌<◌, ◌∷◌, [], List, chars};
ghost use Rattle.yaml_print.specs.Puts.{Puts};
ghost use Rattle.yaml_styles.specs.Numbered.{numbered_char};
ghost use Rattle.yaml_spec.specs.Text.{hex2, hex_digit, quoted_char, quoted_chars, quoted_text};

use crate::put::Put;
use yaml_styles::{hex_digit, is_long_escaped, is_short_escaped, short_escape};

#[tactic(auto, using(crate::proofs::Chars::digits))]
fn write_digit<W: Put>(n: u32, out: &mut W)
    requires { n < 16 }
    ensures { Puts W.has out.old out.new (hex_digit n ∷ []) }
{
    let mut buffer = [0u8; 4];
    out.put(hex_digit(n).encode_utf8(&mut buffer));
}

#[tactic(auto, using(crate::proofs::Putting::putting))]
fn write_hex2<W: Put>(code: u32, out: &mut W)
    ensures { Puts W.has out.old out.new (hex2 code) }
{
    write_digit(code / 16 % 16, out);
    write_digit(code % 16, out);
}

/// A character as itself, or where it is no character to show, by its number.
#[tactic(auto, using(crate::proofs::Putting::putting))]
fn write_numbered<W: Put>(c: char, out: &mut W)
    ensures { Puts W.has out.old out.new (numbered_char c) }
{
    let code = c as u32;
    if is_short_escaped(code) {
        out.put("\\x");
        write_hex2(code, out);
        return;
    }
    if is_long_escaped(code) {
        out.put("\\u");
        write_hex2(code / 256, out);
        write_hex2(code, out);
        return;
    }
    let mut buffer = [0u8; 4];
    out.put(c.encode_utf8(&mut buffer));
}

fn write_char<W: Put>(c: char, out: &mut W)
    ensures { Puts W.has out.old out.new (quoted_char c) }
{
    match short_escape(c) {
        Some(escape) => out.put(escape),
        None => write_numbered(c, out),
    }
}

fn write_chars<W: Put>(text: &str, out: &mut W)
    ensures { Puts W.has out.old out.new (quoted_chars (chars text.now)) }
{
    for c in text.chars() {
        write_char(c, out);
    }
}

/// The string in double quotes.
#[tactic(auto, using(crate::proofs::Putting::putting))]
pub fn write_quoted<W: Put>(text: &str, out: &mut W)
    ensures { Puts W.has out.old out.new (quoted_text text.now) }
{
    out.put("\"");
    write_chars(text, out);
    out.put("\"");
}
