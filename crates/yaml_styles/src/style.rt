// The style of a string on one line.
ghost use Rattle.std.specs.Prelude.{◌≡◌, ◌∷◌, [], bytes_eq, chars, codes, take};
ghost use Rattle.std.specs.List.{list_all};
ghost use Rattle.yaml_spec.specs.Bytes.{colon, first, is_one_of, space};
ghost use Rattle.yaml_spec.specs.Text.{fits_plain, has_pair, is_hidden, is_shown, last, start_marks};

use yaml_kinds::is_string;
use yaml_lines::is_printable;

/// Whether the character can be taken for no character, or for a break or a space.
fn is_hidden(c: char) -> bool
    ensures { result ≡ is_hidden c }
{
    c == '\u{85}' || c == '\u{A0}' || c == '\u{2028}' || c == '\u{2029}' || c == '\u{FEFF}'
}

/// Whether the character is written as itself.
pub fn is_shown(c: char) -> bool
    ensures { result ≡ is_shown c }
{
    is_printable(c) && !is_hidden(c)
}

fn all_shown(text: &str) -> bool
    ensures { result ≡ list_all is_shown (chars text.now) }
{
    text.chars().all(|c| is_shown(c))
}

#[tactic(auto, using(crate::proofs::StyleTests::marks))]
fn begins_with_mark(text: &[u8]) -> bool
    ensures { result ≡ is_one_of start_marks (first text.now) }
{
    match text.first() {
        None => false,
        Some(byte) => b" -?:,[]{}#&*!|>'\"%@<=`".as_slice().contains(byte),
    }
}

fn begins_with_dots(text: &[u8]) -> bool
    ensures { result ≡ bytes_eq (take 3 text.now) (codes "...") }
{
    text.starts_with(b"...".as_slice())
}

#[tactic(auto, using(crate::proofs::StyleTests::lasts))]
fn ends_with_mark(text: &[u8]) -> bool
    ensures { result ≡ is_one_of (space ∷ colon ∷ []) (last text.now) }
{
    match text.split_last() {
        None => false,
        Some((last, _)) => *last == b' ' || *last == b':',
    }
}

#[tactic(auto, using(crate::proofs::StyleTests::no_pair))]
fn has_pair(text: &[u8], first: u8, second: u8) -> bool
    ensures { result ≡ has_pair first second text.now }
{
    let mut rest = text;
    while let [byte, next, ..] = rest {
        if *byte == first && *next == second {
            return true;
        }
        rest = &rest[1..];
    }
    false
}

/// Whether the string reads back as itself without quotes.
#[tactic(auto, unfolding(yaml_spec::specs::Text::fits_plain))]
pub fn fits_plain(text: &str) -> bool
    ensures { result ≡ fits_plain text.now }
{
    let bytes = text.as_bytes();
    is_string(bytes)
        && all_shown(text)
        && !begins_with_mark(bytes)
        && !begins_with_dots(bytes)
        && !ends_with_mark(bytes)
        && !has_pair(bytes, b':', b' ')
        && !has_pair(bytes, b' ', b'#')
}
