// Values and answers as texts.

use crate::owned::is_of;
use crate::trial::Said;
use object_arena::{Arena, ArenaStop, Ref, Sort, Value};
use test_shown::Shown;

/// A value by itself: what stands in an arena and is no text is told by its kind.
fn put_alone(out: &mut Shown, arena: &Arena, value: Value) {
    match value {
        Value::None => out.put("None"),
        Value::Bool(true) => out.put("True"),
        Value::Bool(false) => out.put("False"),
        Value::Int(n) => out.put_number(n),
        Value::Text(text) => {
            if is_of(arena, text, Sort::Text) {
                out.put(arena.text(text).as_str());
            }
        }
        Value::List(_) => out.put("list"),
        Value::Dict(_) => out.put("dict"),
        Value::Tuple(_) => out.put("tuple"),
        _ => out.put("other"),
    }
}

/// The members of a list or tuple, in square brackets.
fn put_members(out: &mut Shown, arena: &Arena, members: &[Value]) {
    out.put("[");
    for member in members {
        put_alone(out, arena, *member);
        out.put(",");
    }
    out.put("]");
}

/// The pairs of a dict, in curly brackets.
fn put_pairs(out: &mut Shown, arena: &Arena, dict: Ref) {
    out.put("{");
    if is_of(arena, dict, Sort::Dict) {
        for at in 0..arena.length(dict) {
            if let Ok((key, value)) = arena.dict_at(dict, at) {
                put_pair(out, arena, key, value);
                out.put(",");
            }
        }
    }
    out.put("}");
}

fn put_pair(out: &mut Shown, arena: &Arena, key: Value, value: Value) {
    put_alone(out, arena, key);
    out.put(":");
    put_alone(out, arena, value);
}

/// A value with its members.
fn put_value(out: &mut Shown, arena: &Arena, value: Value) {
    match value {
        Value::List(list) => {
            if is_of(arena, list, Sort::List) {
                put_members(out, arena, arena.list(list));
            }
        }
        Value::Tuple(tuple) => {
            if is_of(arena, tuple, Sort::Tuple) {
                put_members(out, arena, arena.tuple(tuple));
            }
        }
        Value::Dict(dict) => put_pairs(out, arena, dict),
        _ => put_alone(out, arena, value),
    }
}

fn name_of(stop: ArenaStop) -> &'static str {
    match stop {
        ArenaStop::Frozen => "Frozen",
        ArenaStop::Iterating => "Iterating",
        ArenaStop::IndexRange => "IndexRange",
        ArenaStop::KeyMissing => "KeyMissing",
        ArenaStop::Memory => "Memory",
    }
}

/// What a call answered.
pub fn put_said(out: &mut Shown, arena: &Arena, said: Said) {
    match said {
        Said::Done => out.put("ok"),
        Said::Value(value) => put_value(out, arena, value),
        Said::Pair(key, value) => put_pair(out, arena, key, value),
        Said::Number(number) => out.put_number(number as i128),
        Said::Truth(true) => out.put("yes"),
        Said::Truth(false) => out.put("no"),
        Said::Stop(stop) => out.put(name_of(stop)),
        Said::Unfit => out.put("unfit"),
    }
}
