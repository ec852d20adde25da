// Scripts: calls one behind the other, each with its words.

use crate::owned::are_owned;
use crate::shown::put_said;
use crate::trial::{
    Said, clear, cut, extend, get, insert, leave, length, look, may_change, pair, push, put,
    remove, set, walk,
};
use object_arena::{Arena, Mark, Ref, Value, Values};
use sqlite_items::Items;
use star_values::value_at;
use std::alloc::Global;
use test_shown::Shown;
use ytt_base::text::{Memory, Text};

/// A place; one below 0 or past all places is the last of all places.
fn place_from(number: i128) -> u64 {
    if number < 0 || number > u64::MAX as i128 {
        u64::MAX
    } else {
        number as u64
    }
}

/// The value at a place, or None where there is none.
fn value(values: &[Value], at: usize) -> Value {
    match value_at(values, at) {
        Some(value) => value,
        None => Value::None,
    }
}

/// The place that a value tells.
fn place(values: &[Value], at: usize) -> u64 {
    match value(values, at) {
        Value::Int(number) => place_from(number),
        _ => u64::MAX,
    }
}

/// The number that a word tells, if it tells one.
fn number_in(word: &str) -> Option<i128> {
    match word.parse::<i128>() {
        Ok(number) => Some(number),
        Err(_) => None,
    }
}

/// What a word stands for: `#0` for what was made first, a number, a name of the language, or a text.
fn meant(alloc: Global, arena: &mut Arena, made: &[Value], word: &str) -> Result<Value, Memory> {
    match word {
        "None" => return Ok(Value::None),
        "True" => return Ok(Value::Bool(true)),
        "False" => return Ok(Value::Bool(false)),
        _ => (),
    }
    if let Some(number) = word.strip_prefix("#") {
        if let Some(at) = number_in(number) {
            return Ok(value(made, place_from(at) as usize));
        }
    }
    if let Some(number) = number_in(word) {
        return Ok(Value::Int(number));
    }
    arena.new_text(Text::of(alloc, word)?)
}

/// Puts what a word stands for behind the arguments, if it is one.
fn put_arg(
    alloc: Global,
    arena: &mut Arena,
    made: &[Value],
    word: &str,
    args: &mut Values,
) -> Result<(), Memory> {
    if word != "" {
        let value = meant(alloc, arena, made, word)?;
        args.push(value)?;
    }
    Ok(())
}

/// What the words stand for.
fn args_of(
    alloc: Global,
    arena: &mut Arena,
    made: &[Value],
    words: &str,
) -> Result<Values, Memory> {
    let mut args = Items::new(alloc);
    for word in words.split(" ") {
        put_arg(alloc, arena, made, word, &mut args)?;
    }
    Ok(args)
}

/// Makes a list, a tuple, a dict or a box. A box is kept as a list whose reference says that it is a box, so that no call takes
/// it for a value.
fn make(arena: &mut Arena, made: &mut Values, name: &str, args: &[Value]) -> Result<Said, Memory> {
    if !are_owned(arena, args) {
        return Ok(Said::Unfit);
    }
    let value = match name {
        "list" => arena.new_list(args)?,
        "tuple" => arena.new_tuple(args)?,
        "dict" => arena.new_dict()?,
        _ => Value::List(arena.new_box()?),
    };
    made.push(value)?;
    Ok(Said::Done)
}

/// What a call does on what stands at a reference.
#[derive(Clone, Copy)]
enum Act {
    Push,
    Extend,
    MayChange,
    Set,
    Get,
    Insert,
    Remove,
    Clear,
    Length,
    Put,
    Look,
    Cut,
    Pair,
    Walk,
    Leave,
    Owns,
    Other,
}

/// What a call of this name among these does.
fn act_among(name: &str, acts: &[(&str, Act)]) -> Option<Act> {
    for act in acts {
        if name == act.0 {
            return Some(act.1);
        }
    }
    None
}

/// What a call of this name does.
fn act_named(name: &str) -> Option<Act> {
    act_among(
        name,
        &[
            ("push", Act::Push),
            ("extend", Act::Extend),
            ("may-change", Act::MayChange),
            ("set", Act::Set),
            ("get", Act::Get),
            ("insert", Act::Insert),
            ("remove", Act::Remove),
            ("clear", Act::Clear),
            ("length", Act::Length),
            ("put", Act::Put),
            ("look", Act::Look),
            ("cut", Act::Cut),
            ("pair", Act::Pair),
            ("walk", Act::Walk),
            ("leave", Act::Leave),
            ("owns", Act::Owns),
            ("other", Act::Other),
        ],
    )
}

/// A call on what stands at a reference, with the arguments behind it.
fn call_on(alloc: Global, arena: &mut Arena, act: Act, r: Ref, args: &[Value]) -> Said {
    match act {
        Act::Push => push(arena, r, value(args, 0)),
        Act::Extend => extend(arena, r, args),
        Act::MayChange => may_change(arena, r),
        Act::Set => set(arena, r, place(args, 0), value(args, 1)),
        Act::Get => get(arena, r, place(args, 0)),
        Act::Insert => insert(arena, r, place(args, 0), value(args, 1)),
        Act::Remove => remove(arena, r, place(args, 0)),
        Act::Clear => clear(arena, r),
        Act::Length => length(arena, r),
        Act::Put => put(arena, r, value(args, 0), value(args, 1)),
        Act::Look => look(arena, r, value(args, 0)),
        Act::Cut => cut(arena, r, value(args, 0)),
        Act::Pair => pair(arena, r, place(args, 0)),
        Act::Walk => walk(arena, r),
        Act::Leave => leave(arena, r),
        Act::Owns => Said::Truth(arena.owns(r)),
        Act::Other => Said::Truth(Arena::new(alloc).owns(r)),
    }
}

/// One call: its name and its arguments.
fn call(
    alloc: Global,
    arena: &mut Arena,
    made: &mut Values,
    mark: &mut Mark,
    name: &str,
    args: &[Value],
) -> Result<Said, Memory> {
    match name {
        "list" | "tuple" | "dict" | "box" => return make(arena, made, name, args),
        "mark" => {
            *mark = arena.mark();
            return Ok(Said::Done);
        }
        "freeze" => {
            arena.freeze_since(*mark);
            return Ok(Said::Done);
        }
        "same" => return Ok(Said::Truth(value(args, 0) == value(args, 1))),
        "show" => return Ok(Said::Value(value(args, 0))),
        _ => (),
    }
    let Some(act) = act_named(name) else {
        return Ok(Said::Unfit);
    };
    Ok(match args {
        [Value::List(r) | Value::Dict(r) | Value::Tuple(r), rest @ ..] => {
            call_on(alloc, arena, act, *r, rest)
        }
        _ => Said::Unfit,
    })
}

/// Makes one call of a script, and shows what it answers.
fn answer(
    alloc: Global,
    arena: &mut Arena,
    made: &mut Values,
    mark: &mut Mark,
    one: &str,
    said: &mut Shown,
) -> Result<(), Memory> {
    let (name, words) = match one.split_once(" ") {
        None => (one, ""),
        Some(parts) => parts,
    };
    let args = args_of(alloc, arena, made.as_slice(), words)?;
    let answer = call(alloc, arena, made, mark, name, args.as_slice())?;
    put_said(said, arena, answer);
    said.put(" ");
    Ok(())
}

/// Makes all calls of a script in an arena, and shows what they answer.
fn answer_all(
    alloc: Global,
    arena: &mut Arena,
    made: &mut Values,
    script: &str,
    said: &mut Shown,
) -> Result<(), Memory> {
    let mut mark = arena.mark();
    for one in script.split("; ") {
        answer(alloc, arena, made, &mut mark, one, said)?;
    }
    Ok(())
}

/// What each call of a script answers.
pub fn answers(alloc: Global, script: &str) -> Result<String, Memory> {
    let mut arena = Arena::new(alloc);
    let mut made = Items::new(alloc);
    let mut said = Shown::new(alloc);
    answer_all(alloc, &mut arena, &mut made, script, &mut said)?;
    said.take()
}
