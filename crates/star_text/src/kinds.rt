// As what the arguments of a method are read.
ghost use Rattle.std.specs.Prelude.{◌≡◌, IfOk, option_and_then, option_map};
ghost use Rattle.star_steps.specs.Names.{members_in, Owns, OwnsAll, seen, value_of, values_of};
ghost use Rattle.text_spec.specs.Signatures.{bool_in, integer_or, read_as, read_operands, read_separator, read_text, read_texts, text_in, texts_in, value_at};
ghost use Rattle.text_spec.specs.Texts.{texts_of};
ghost use Rattle.star_text.specs.View.{kind_of, kinds_of, operand_of, operands_of};

use object_arena::{Arena, Value};
use sqlite_items::Items;
use star_ops::{member_count, members_of};
use star_steps::tuple_members;
use star_values::value_at;
use ytt_base::text::Memory;

/// As what an argument is read: a text, one that isn't empty, the same two or None, an integer or a bool or None, a text or a tuple of
/// texts, or what has members, each of which is a text.
#[derive(Clone, Copy)]
pub(crate) enum Kind {
    Nothing,
    Text,
    Separator,
    OptionalText,
    OptionalSeparator,
    OptionalInteger,
    OptionalBool,
    TextOrTexts,
    TextMembers,
}

/// The kinds of the first three arguments.
#[derive(Clone, Copy)]
pub(crate) struct Kinds {
    pub first: Kind,
    pub second: Kind,
    pub third: Kind,
}

/// What an argument is read as.
#[derive(Drop)]
pub(crate) enum Operand<'a> {
    Absent,
    Text(&'a str),
    Integer(i128),
    Bool(bool),
    Texts(Items<&'a str>),
}

/// What the first three arguments are read as.
#[derive(Drop)]
pub(crate) struct Operands<'a> {
    pub first: Operand<'a>,
    pub second: Operand<'a>,
    pub third: Operand<'a>,
}

/// The first three arguments, each as its kind reads it, or `None` where one is of another kind.
pub(crate) fn read_operands<'a>(
    arena: &'a Arena,
    kinds: Kinds,
    values: &[Value],
) -> Result<Option<Operands<'a>>, Memory>
    requires { OwnsAll (seen arena.now) values.now }
    ensures { IfOk result (λ o. option_map operands_of o ≡ read_operands (seen arena.now).store (kinds_of kinds) (values_of (seen arena.now) values.now)) }
{
    let first = read(arena, kinds.first, argument(arena, values, 0))?;
    let second = read(arena, kinds.second, argument(arena, values, 1))?;
    let third = read(arena, kinds.third, argument(arena, values, 2))?;
    match (first, second, third) {
        (Some(first), Some(second), Some(third)) => Ok(Some(Operands {
            first,
            second,
            third,
        })),
        _ => Ok(None),
    }
}

/// An argument, or None where there are fewer.
pub fn argument(arena: &Arena, values: &[Value], place: usize) -> Value
    requires { OwnsAll (seen arena.now) values.now }
    ensures value { value_of (seen arena.now) result ≡ value_at place (values_of (seen arena.now) values.now) }
    ensures owns { Owns (seen arena.now) result }
{
    let _arena = arena;
    value_at(values, place).unwrap_or(Value::None)
}

/// An argument as its kind reads it, or `None` where it is of another kind.
fn read<'a>(arena: &'a Arena, kind: Kind, value: Value) -> Result<Option<Operand<'a>>, Memory>
    requires { Owns (seen arena.now) value }
    ensures { IfOk result (λ o. option_map operand_of o ≡ read_as (seen arena.now).store (kind_of kind) (value_of (seen arena.now) value)) }
{
    match (kind, value) {
        (Kind::Nothing, _) => Ok(Some(Operand::Absent)),
        (Kind::Text, _) => Ok(read_text(arena, value)),
        (Kind::Separator, _) => Ok(read_separator(arena, value)),
        (Kind::OptionalText, Value::None) => Ok(Some(Operand::Absent)),
        (Kind::OptionalText, _) => Ok(read_text(arena, value)),
        (Kind::OptionalSeparator, Value::None) => Ok(Some(Operand::Absent)),
        (Kind::OptionalSeparator, _) => Ok(read_separator(arena, value)),
        (Kind::OptionalInteger, Value::None) => Ok(Some(Operand::Absent)),
        (Kind::OptionalInteger, Value::Int(number)) => Ok(Some(Operand::Integer(number))),
        (Kind::OptionalInteger, _) => Ok(None),
        (Kind::OptionalBool, Value::None) => Ok(Some(Operand::Absent)),
        (Kind::OptionalBool, Value::Bool(told)) => Ok(Some(Operand::Bool(told))),
        (Kind::OptionalBool, _) => Ok(None),
        (Kind::TextOrTexts, Value::Tuple(tuple)) => read_texts(arena, tuple_members(arena, tuple)),
        (Kind::TextOrTexts, _) => read_texts(arena, &[value]),
        (Kind::TextMembers, _) => read_members(arena, value),
    }
}

fn read_text(arena: &Arena, value: Value) -> Option<Operand<'_>>
    requires { Owns (seen arena.now) value }
    ensures { option_map operand_of result ≡ read_text (value_of (seen arena.now) value) }
{
    match value {
        Value::Text(text) => Some(Operand::Text(arena.text(text).as_str())),
        _ => None,
    }
}

fn read_separator(arena: &Arena, value: Value) -> Option<Operand<'_>>
    requires { Owns (seen arena.now) value }
    ensures { option_map operand_of result ≡ read_separator (value_of (seen arena.now) value) }
{
    match value {
        Value::Text(text) => {
            let separator = arena.text(text).as_str();
            if separator.is_empty() {
                return None;
            }
            Some(Operand::Text(separator))
        }
        _ => None,
    }
}

/// The texts that these values are, if each is one.
fn read_texts<'a>(arena: &'a Arena, values: &[Value]) -> Result<Option<Operand<'a>>, Memory>
    requires { OwnsAll (seen arena.now) values.now }
    ensures { IfOk result (λ o. option_map operand_of o ≡ read_texts (values_of (seen arena.now) values.now)) }
{
    let mut texts = Items::new(arena.alloc());
    let mut rest = values;
    while let Some((first, more)) = rest.split_first() {
        match *first {
            Value::Text(text) => texts.push(arena.text(text).as_str())?,
            _ => return Ok(None),
        }
        rest = more;
    }
    Ok(Some(Operand::Texts(texts)))
}

/// The members of a value, if it is of a kind that has some, and each is a text. The numbers of a range are never made.
fn read_members(arena: &Arena, value: Value) -> Result<Option<Operand<'_>>, Memory>
    requires { Owns (seen arena.now) value }
    ensures { IfOk result (λ o. option_map operand_of o ≡ option_and_then read_texts (members_in (seen arena.now).store (value_of (seen arena.now) value))) }
{
    match value {
        Value::Tuple(_) | Value::List(_) | Value::Dict(_) => {
            let members = members_of(arena, value)?;
            read_texts(arena, members.as_slice())
        }
        Value::Range(_) => {
            if member_count(arena, value) == 0 {
                read_texts(arena, &[])
            } else {
                Ok(None)
            }
        }
        _ => Ok(None),
    }
}

// ---- what is taken from an operand

/// The text that it is, or an empty one.
pub(crate) fn text_in<'a>(operand: &Operand<'a>) -> &'a str
    ensures { result.now ≡ text_in (operand_of operand.now) }
{
    match operand {
        Operand::Text(text) => *text,
        _ => "",
    }
}

/// The texts that it is, or none.
pub(crate) fn texts_in<'o, 'a>(operand: &'o Operand<'a>) -> &'o [&'a str]
    ensures { texts_of result.now ≡ texts_in (operand_of operand.now) }
{
    match operand {
        Operand::Texts(texts) => texts.as_slice(),
        _ => &[],
    }
}

pub(crate) fn bool_in(operand: &Operand<'_>) -> bool
    ensures { result ≡ bool_in (operand_of operand.now) }
{
    match operand {
        Operand::Bool(told) => *told,
        _ => false,
    }
}

/// The number that it is, or this one.
pub(crate) fn integer_or(other: i128, operand: &Operand<'_>) -> i128
    ensures { result ≡ integer_or other (operand_of operand.now) }
{
    match operand {
        Operand::Integer(number) => *number,
        _ => other,
    }
}
