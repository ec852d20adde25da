// The characters of a line.
ghost use Rattle.std.specs.Prelude.{◌≡◌, ◌<◌, ◌^◌, ◌==◌, ◌||◌, length};
ghost use Rattle.yaml_spec.specs.Bytes.{indent, tab};
ghost use Rattle.yaml_spec.specs.Lines.{has_good_chars, is_printable};

/// Whether the character is printable (YAML 1.2.2, 5.1, rule 1, without the tab and the breaks).
pub fn is_printable(c: char) -> bool
    ensures { result ≡ is_printable c }
{
    let code = c as u32;
    (code >= 0x20 && code <= 0x7E)
        || code == 0x85
        || (code >= 0xA0 && code <= 0xD7FF)
        || (code >= 0xE000 && code <= 0xFFFD)
        || (code >= 0x10000 && code <= 0x10FFFF)
}

fn may_stand(c: char) -> bool
    ensures { result ≡ (c == tab || is_printable c) }
{
    c == '\t' || is_printable(c)
}

/// Whether each character is printable or a tab (YAML 1.2.2, 5.1).
pub fn has_good_chars(text: &str) -> bool
    ensures { result ≡ has_good_chars text.now }
{
    text.chars().all(|c| may_stand(c))
}

/// The number of spaces at the start of a text.
pub fn indent(text: &[u8]) -> u32
    requires { length text.now < 2 ^ 32 }
    ensures { result ≡ indent text.now }
{
    let mut spaces = 0;
    for byte in text {
        if *byte != b' ' {
            return spaces;
        }
        spaces += 1;
    }
    spaces
}
