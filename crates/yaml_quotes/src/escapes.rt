// What stands in a quoted scalar behind bytes that stand for themselves.
ghost use Rattle.std.specs.Prelude.{◌≡◌, ◌+◌, ◌<◌, None, Some, false, if◌then◌else◌, length, true};
ghost use Rattle.std.specs.List.{prefix_len};
ghost use Rattle.yaml_spec.specs.Bytes.{digit_value, is_hex_digit};
ghost use Rattle.yaml_spec.specs.Quotes.{escape_digits, escaped};
ghost use Rattle.yaml_quotes.specs.Turns.{LeavesBelow, double_at, escape_at, is_plain, number_at, single_at, turn_at};
ghost use Rattle.yaml_quotes.specs.View.{turn_of};

use yaml_text::behind;

/// What comes behind bytes that stand for themselves.
#[derive(Clone, Copy)]
pub enum Turn<'a> {
    /// The line ends, or an escaped break ends it.
    LineEnd { joined: bool },
    /// The closing quote, and the text behind it.
    Closed(&'a str),
    /// A character that is escaped or written twice, and the text behind it.
    Char(char, &'a str),
    /// A wrong escape.
    Wrong,
}

/// The character of an escape of one letter.
fn escaped_char(byte: u8) -> Option<char>
    ensures { result ≡ escaped byte }
{
    match byte {
        b'0' => Some('\0'),
        b'a' => Some('\u{7}'),
        b'b' => Some('\u{8}'),
        b't' => Some('\t'),
        b'n' => Some('\n'),
        b'v' => Some('\u{B}'),
        b'f' => Some('\u{C}'),
        b'r' => Some('\r'),
        b'e' => Some('\u{1B}'),
        b' ' => Some(' '),
        b'"' => Some('"'),
        b'/' => Some('/'),
        b'\\' => Some('\\'),
        b'N' => Some('\u{85}'),
        b'_' => Some('\u{A0}'),
        b'L' => Some('\u{2028}'),
        b'P' => Some('\u{2029}'),
        _ => None,
    }
}

/// How many digits a numbered escape has.
fn digits_of(byte: u8) -> Option<usize>
    ensures { result ≡ escape_digits byte }
{
    match byte {
        b'x' => Some(2),
        b'u' => Some(4),
        b'U' => Some(8),
        _ => None,
    }
}

/// The value of a hexadecimal digit.
fn hex_value(byte: u8) -> Option<u32>
    ensures { result ≡ (if is_hex_digit byte then Some (digit_value byte) else None) }
{
    match byte {
        b'0'..=b'9' => Some(u32::from(byte - b'0')),
        b'A'..=b'F' => Some(u32::from(byte - b'A') + 10),
        b'a'..=b'f' => Some(u32::from(byte - b'a') + 10),
        _ => None,
    }
}

/// The character that so many hexadecimal digits write. A number past 10FFFF is wrong whatever
/// digits follow, and so is one of a surrogate.
fn number(text: &str, count: usize) -> Turn<'_>
    requires { 0 < count }
    ensures value { turn_of result ≡ number_at count 0 text.now }
    ensures shorter { LeavesBelow (length text.now + 1) (turn_of result) }
{
    let bytes = text.as_bytes();
    let mut value = 0u32;
    for at in 0..count {
        if at >= bytes.len() {
            return Turn::Wrong;
        }
        let Some(digit) = hex_value(bytes[at]) else {
            return Turn::Wrong;
        };
        value = value * 16 + digit;
        if value > 0x10FFFF {
            return Turn::Wrong;
        }
    }
    match char::from_u32(value) {
        Some(character) => Turn::Char(character, behind(text, count)),
        None => Turn::Wrong,
    }
}

/// What stands behind a backslash.
#[tactic(auto, using(crate::proofs::Escaping::escapes))]
fn escape(text: &str) -> Turn<'_>
    ensures value { turn_of result ≡ escape_at text.now }
    ensures shorter { LeavesBelow (length text.now + 1) (turn_of result) }
{
    let Some(byte) = text.as_bytes().first() else {
        return Turn::LineEnd { joined: true };
    };
    if let Some(character) = escaped_char(*byte) {
        return Turn::Char(character, behind(text, 1));
    }
    match digits_of(*byte) {
        Some(count) => number(behind(text, 1), count),
        None => Turn::Wrong,
    }
}

fn double_turn(text: &str) -> Turn<'_>
    requires { prefix_len (is_plain true) text.now ≡ 0 }
    ensures value { turn_of result ≡ double_at text.now }
    ensures shorter { LeavesBelow (length text.now) (turn_of result) }
{
    match text.as_bytes().first() {
        None => Turn::LineEnd { joined: false },
        Some(b'"') => Turn::Closed(behind(text, 1)),
        Some(_) => escape(behind(text, 1)),
    }
}

fn single_turn(text: &str) -> Turn<'_>
    requires { prefix_len (is_plain false) text.now ≡ 0 }
    ensures value { turn_of result ≡ single_at text.now }
    ensures shorter { LeavesBelow (length text.now) (turn_of result) }
{
    match text.as_bytes() {
        [] => Turn::LineEnd { joined: false },
        [_, b'\'', ..] => Turn::Char('\'', behind(text, 2)),
        [_, ..] => Turn::Closed(behind(text, 1)),
    }
}

/// What stands at a text that begins with no byte that stands for itself.
pub fn turn_here(is_double: bool, text: &str) -> Turn<'_>
    requires { prefix_len (is_plain is_double) text.now ≡ 0 }
    ensures value { turn_of result ≡ turn_at is_double text.now }
    ensures shorter { LeavesBelow (length text.now) (turn_of result) }
{
    if is_double {
        double_turn(text)
    } else {
        single_turn(text)
    }
}
