// The text of a key, as it stands in the detail of a fault.
ghost use Rattle.std.specs.Prelude.{◌≡◌, ◌∷◌, ◌++◌, ◌<◌};
ghost use Rattle.star_steps.specs.Names.{[], IfOk, MatchOption, OnOk, string_bytes, AreKeysWithin, IsKeyWithin, closed, hex_digit, integer_text, key_text, key_texts, more_texts, quoted, quoted_bytes, tuple_of, values_from, seen, Owns, OwnsAll, View, value_of, values_of};
ghost use Rattle.star_index.specs.Quoting.{quoted_character, unescaped};

use crate::texts::append;
use itoa::Buffer;
use object_arena::{Arena, Value};
use ytt_base::text::{Memory, Text};

/// A text was shown, if there was room.
pub type Shown = Result<(), Memory>;

/// How many tuples of a key may stand in one another.
const MAX_DEPTH: u32 = 100;

/// The text of a key.
pub fn key_text(arena: &Arena, key: Value) -> Result<Text, Memory>
    requires owned { Owns (seen arena.now) key }
    requires key { IsKeyWithin 100 (value_of (seen arena.now) key) }
    ensures { IfOk result (λ t. t ≡ key_text (value_of (seen arena.now) key)) }
{
    let mut shown = String::new(arena.alloc());
    push_key(arena, MAX_DEPTH, key, &mut shown)?;
    Ok(Text::of_string(shown))
}

#[cycle(keys)]
fn push_key(arena: &Arena, levels: u32, key: Value, shown: &mut String) -> Shown
    requires owned { Owns (seen arena.now) key }
    requires key { IsKeyWithin levels (value_of (seen arena.now) key) }
    ensures { OnOk result (string_bytes shown.new ≡ string_bytes shown.old ++ key_text (value_of (seen arena.now) key)) }
{
    match key {
        Value::None => append(shown, "None"),
        Value::Bool(true) => append(shown, "True"),
        Value::Bool(false) => append(shown, "False"),
        Value::Int(number) => push_integer(number, shown),
        Value::Text(text) => push_quoted(arena.text(text).as_str(), shown),
        Value::Tuple(tuple) => push_tuple(arena, levels - 1, arena.tuple(tuple), shown),
        _ => unreachable!(),
    }
}

#[cycle(keys)]
fn push_tuple(arena: &Arena, levels: u32, members: &[Value], shown: &mut String) -> Shown
    requires owned { OwnsAll (seen arena.now) members.now }
    requires keys { AreKeysWithin levels (values_from (values_of (seen arena.now) members.now)) }
    ensures { OnOk result (string_bytes shown.new ≡ string_bytes shown.old ++ key_text (tuple_of (values_of (seen arena.now) members.now))) }
{
    append(shown, "(")?;
    push_members(arena, levels, members, shown)?;
    append(shown, closed(members))
}

/// What ends a tuple: one of one member has a comma.
pub fn closed(members: &[Value]) -> &'static str
    ensures { (a : View) → result.now ≡ closed (values_from (values_of a members.now)) }
{
    if members.len() == 1 { ",)" } else { ")" }
}

/// The members of a tuple, with `, ` between them.
#[cycle(keys)]
fn push_members(arena: &Arena, levels: u32, members: &[Value], shown: &mut String) -> Shown
    requires owned { OwnsAll (seen arena.now) members.now }
    requires keys { AreKeysWithin levels (values_from (values_of (seen arena.now) members.now)) }
    ensures { OnOk result (string_bytes shown.new ≡ string_bytes shown.old ++ key_texts (values_from (values_of (seen arena.now) members.now))) }
{
    match members {
        [] => Ok(()),
        [first, rest @ ..] => {
            push_key(arena, levels, *first, shown)?;
            push_more(arena, levels, rest, shown)
        }
    }
}

/// Members with `, ` before each.
#[cycle(keys)]
fn push_more(arena: &Arena, levels: u32, members: &[Value], shown: &mut String) -> Shown
    requires owned { OwnsAll (seen arena.now) members.now }
    requires keys { AreKeysWithin levels (values_from (values_of (seen arena.now) members.now)) }
    ensures { OnOk result (string_bytes shown.new ≡ string_bytes shown.old ++ more_texts (values_from (values_of (seen arena.now) members.now))) }
{
    let mut rest = members;
    while let [first, more @ ..] = rest {
        append(shown, ", ")?;
        push_key(arena, levels, *first, shown)?;
        rest = more;
    }
    Ok(())
}

/// Puts an integer in decimal digits behind a text.
pub fn push_integer(number: i128, shown: &mut String) -> Shown
    ensures { OnOk result (string_bytes shown.new ≡ string_bytes shown.old ++ integer_text number) }
{
    let mut buffer = Buffer::new();
    append(shown, buffer.format(number))
}

/// Puts a text in double quotes behind another.
pub fn push_quoted(text: &str, shown: &mut String) -> Shown
    ensures { OnOk result (string_bytes shown.new ≡ string_bytes shown.old ++ quoted text.now) }
{
    append(shown, "\"")?;
    push_characters(text, shown)?;
    append(shown, "\"")
}

fn push_characters(text: &str, shown: &mut String) -> Shown
    ensures { OnOk result (string_bytes shown.new ≡ string_bytes shown.old ++ quoted_bytes text.now) }
{
    for c in text.chars() {
        push_character(c, shown)?;
    }
    Ok(())
}

fn push_character(c: char, shown: &mut String) -> Shown
    ensures { OnOk result (string_bytes shown.new ≡ string_bytes shown.old ++ quoted_character c) }
{
    match escape(c) {
        Some(escaped) => append(shown, escaped),
        None => push_unescaped(c, shown),
    }
}

/// What stands for a character that has a short escape.
fn escape(c: char) -> Option<&'static str>
    ensures { MatchOption result (quoted_character c ≡ unescaped c) (λ e. e.now ≡ quoted_character c) }
{
    match c {
        '"' => Some("\\\""),
        '\\' => Some("\\\\"),
        '\n' => Some("\\n"),
        '\t' => Some("\\t"),
        '\r' => Some("\\r"),
        _ => None,
    }
}

fn push_unescaped(c: char, shown: &mut String) -> Shown
    ensures { OnOk result (string_bytes shown.new ≡ string_bytes shown.old ++ unescaped c) }
{
    let code = c as u32;
    if code < 32 || code == 127 {
        append(shown, "\\x")?;
        push_digit(code / 16, shown)?;
        push_digit(code % 16, shown)
    } else {
        Ok(shown.push(c)?)
    }
}

fn push_digit(n: u32, shown: &mut String) -> Shown
    requires { n < 16 }
    ensures { OnOk result (string_bytes shown.new ≡ string_bytes shown.old ++ hex_digit n ∷ []) }
{
    let digit = if n < 10 {
        b'0' + n as u8
    } else {
        b'A' - 10 + n as u8
    };
    Ok(shown.push(digit as char)?)
}
