// Values of an arena by their names, as arguments of notes have them.

use crate::owned::is_owned;
use object_arena::{Arena, NamedValue, NamedValues, Value, Values};
use sqlite_items::Items;
use std::alloc::Global;
use std::test::Fail;
use ytt_base::text::{Memory, Text};

/// The names: `{c:7}` is a struct, a range has no tree, and the numbers of lists in one another stand at the end.
const NAMES: &[&str] = &[
    "None", "True", "False", "7", "x", "[x]", "[None]", "[]", "[1,2]", "{c:7}", "range",
    "100-deep", "101-deep",
];

/// A list of one value.
fn list_of(arena: &mut Arena, value: Value) -> Result<Value, Fail> {
    if !is_owned(arena, value) {
        return Err(Fail::from("a value of another arena"));
    }
    Ok(arena.new_list(&[value])?)
}

/// A list of one text.
fn list_of_text(alloc: Global, arena: &mut Arena, text: &str) -> Result<Value, Fail> {
    let text = arena.new_text(Text::of(alloc, text)?)?;
    list_of(arena, text)
}

/// A struct with an integer under a name.
fn struct_of(alloc: Global, arena: &mut Arena, name: &str, n: i128) -> Result<Value, Memory> {
    let name = Text::of(alloc, name)?;
    let mut fields: NamedValues = Items::new(alloc);
    fields.push(NamedValue {
        name,
        value: Value::Int(n),
    })?;
    arena.new_struct(fields)
}

/// An integer in so many lists.
fn nested(arena: &mut Arena, count: u32) -> Result<Value, Fail> {
    let mut value = Value::Int(1);
    for _ in 0..count {
        value = list_of(arena, value)?;
    }
    Ok(value)
}

/// The value of a name.
fn made(alloc: Global, arena: &mut Arena, name: &str) -> Result<Value, Fail> {
    match name {
        "True" => Ok(Value::Bool(true)),
        "False" => Ok(Value::Bool(false)),
        "7" => Ok(Value::Int(7)),
        "x" => Ok(arena.new_text(Text::of(alloc, "x")?)?),
        "[x]" => list_of_text(alloc, arena, "x"),
        "[None]" => list_of(arena, Value::None),
        "[]" => Ok(arena.new_list(&[])?),
        "[1,2]" => Ok(arena.new_list(&[Value::Int(1), Value::Int(2)])?),
        "{c:7}" => Ok(struct_of(alloc, arena, "c", 7)?),
        "range" => Ok(arena.new_range(0, 3, 1)?),
        "100-deep" => nested(arena, 100),
        "101-deep" => nested(arena, 101),
        _ => Ok(Value::None),
    }
}

/// The value of each name.
pub fn all_values(alloc: Global, arena: &mut Arena) -> Result<Values, Fail> {
    let mut values = Items::new(alloc);
    for name in NAMES {
        values.push(made(alloc, arena, name)?)?;
    }
    Ok(values)
}

/// The value of a name among them.
pub fn value_of(values: &Values, name: &str) -> Result<Value, Fail> {
    for (at, other) in NAMES.iter().enumerate() {
        if *other == name {
            return Ok(*values.get(at).ok_or("a value that wasn't made")?);
        }
    }
    Err(Fail::from("a word that names no value"))
}
