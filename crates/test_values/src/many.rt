// A million pushes, puts and look-ups.

use crate::trial::{Said, get, look, push, put};
use object_arena::{Arena, Ref, Value};
use std::alloc::Global;
use std::test::Fail;
use ytt_base::text::{Memory, Text};

/// Pushes the numbers below `count` onto a list, and puts each under its text into a dict.
fn fill(alloc: Global, arena: &mut Arena, list: Ref, dict: Ref, count: u32) -> Result<(), Memory> {
    for n in 0..count {
        let number = Value::Int(n as i128);
        push(arena, list, number);
        let text = format!(in alloc; "key{n}")?;
        let key = arena.new_text(Text::of_string(text))?;
        put(arena, dict, key, number);
    }
    Ok(())
}

fn is_number(said: Said, number: u32) -> bool {
    matches!(said, Said::Value(Value::Int(n)) if n == number as i128)
}

/// Whether each number stands at its place of the list and under its text in the dict.
fn stands(
    alloc: Global,
    arena: &mut Arena,
    list: Ref,
    dict: Ref,
    count: u32,
) -> Result<bool, Memory> {
    let mut all = true;
    for n in 0..count {
        let text = format!(in alloc; "key{n}")?;
        let key = arena.new_text(Text::of_string(text))?;
        let pushed = is_number(get(arena, list, n as u64), n);
        let found = is_number(look(arena, dict, key), n);
        all = all && pushed && found;
    }
    Ok(all)
}

/// Whether all of a million numbers, each pushed onto a list and put into a dict, are found again.
fn all_stand(alloc: Global, arena: &mut Arena) -> Result<bool, Memory> {
    let list = arena.new_list(&[])?;
    let dict = arena.new_dict()?;
    match (list, dict) {
        (Value::List(list), Value::Dict(dict)) => {
            fill(alloc, arena, list, dict, 1_000_000)?;
            stands(alloc, arena, list, dict, 1_000_000)
        }
        _ => Ok(false),
    }
}

/// The same in an arena of its own.
fn all_stand_alone(alloc: Global) -> Result<bool, Memory> {
    let mut arena = Arena::new(alloc);
    all_stand(alloc, &mut arena)
}

#[test]
fn a_million_of_each(rt: HostRuntime) -> Result<(), Fail> {
    assert!(rt; all_stand_alone(rt.alloc())?);
    Ok(())
}
