// Scripts of calls, and what each call answers.

use crate::owned::{are_owned, has_members, has_room, is_key, is_of, is_owned, is_walked};
use object_arena::{Arena, ArenaStop, Ref, Sort, Value};

/// What a call answered.
#[derive(Clone, Copy)]
pub enum Said {
    Done,
    Value(Value),
    Pair(Value, Value),
    Number(u64),
    Truth(bool),
    Stop(ArenaStop),
    /// The call's condition isn't met, so it wasn't made.
    Unfit,
}

fn done(answer: Result<(), ArenaStop>) -> Said {
    match answer {
        Ok(()) => Said::Done,
        Err(stop) => Said::Stop(stop),
    }
}

fn given(answer: Result<Value, ArenaStop>) -> Said {
    match answer {
        Ok(value) => Said::Value(value),
        Err(stop) => Said::Stop(stop),
    }
}

/// Puts a value behind the members of a list, or into a box that has none.
pub fn push(arena: &mut Arena, list: Ref, value: Value) -> Said {
    if is_owned(arena, value) && has_room(arena, list) {
        return done(arena.list_push(list, value));
    }
    Said::Unfit
}

/// Puts values behind the members of a list.
pub fn extend(arena: &mut Arena, list: Ref, more: &[Value]) -> Said {
    if are_owned(arena, more) && is_of(arena, list, Sort::List) {
        return done(arena.list_extend(list, more));
    }
    Said::Unfit
}

/// Whether a list or a dict may be changed.
pub fn may_change(arena: &Arena, r: Ref) -> Said {
    if is_walked(arena, r) {
        return done(arena.may_change(r));
    }
    Said::Unfit
}

/// Puts a value in the place of a member, or of what a box has.
pub fn set(arena: &mut Arena, list: Ref, at: u64, value: Value) -> Said {
    if is_owned(arena, value) && has_members(arena, list) {
        return done(arena.list_set(list, at, value));
    }
    Said::Unfit
}

/// A member, or what a box has.
pub fn get(arena: &Arena, list: Ref, at: u64) -> Said {
    if has_members(arena, list) {
        return given(arena.list_get(list, at));
    }
    if is_of(arena, list, Sort::Tuple) {
        return given(arena.tuple_get(list, at));
    }
    Said::Unfit
}

/// Puts a value in front of a member.
pub fn insert(arena: &mut Arena, list: Ref, at: u64, value: Value) -> Said {
    if is_owned(arena, value) && is_of(arena, list, Sort::List) {
        return done(arena.list_insert(list, at, value));
    }
    Said::Unfit
}

/// Takes a member out.
pub fn remove(arena: &mut Arena, list: Ref, at: u64) -> Said {
    if is_of(arena, list, Sort::List) {
        return given(arena.list_remove(list, at));
    }
    Said::Unfit
}

/// Takes all members or pairs out.
pub fn clear(arena: &mut Arena, r: Ref) -> Said {
    if is_walked(arena, r) {
        return done(arena.clear(r));
    }
    Said::Unfit
}

/// Puts a value under a key.
pub fn put(arena: &mut Arena, dict: Ref, key: Value, value: Value) -> Said {
    if is_of(arena, dict, Sort::Dict)
        && is_owned(arena, key)
        && is_key(arena, key)
        && is_owned(arena, value)
    {
        return done(arena.dict_put(dict, key, value));
    }
    Said::Unfit
}

/// The value of a key.
pub fn look(arena: &Arena, dict: Ref, key: Value) -> Said {
    if is_of(arena, dict, Sort::Dict) && is_owned(arena, key) && is_key(arena, key) {
        return given(arena.dict_get(dict, key));
    }
    Said::Unfit
}

/// Takes the pair of a key out.
pub fn cut(arena: &mut Arena, dict: Ref, key: Value) -> Said {
    if is_of(arena, dict, Sort::Dict) && is_owned(arena, key) && is_key(arena, key) {
        return given(arena.dict_remove(dict, key));
    }
    Said::Unfit
}

/// The pair at a place.
pub fn pair(arena: &Arena, dict: Ref, at: u64) -> Said {
    if is_of(arena, dict, Sort::Dict) {
        return match arena.dict_at(dict, at) {
            Ok((key, value)) => Said::Pair(key, value),
            Err(stop) => Said::Stop(stop),
        };
    }
    Said::Unfit
}

/// How many members or pairs there are.
pub fn length(arena: &Arena, r: Ref) -> Said {
    match r.sort {
        Sort::List | Sort::Dict | Sort::Tuple | Sort::Box => {
            if arena.owns(r) {
                Said::Number(arena.length(r))
            } else {
                Said::Unfit
            }
        }
        _ => Said::Unfit,
    }
}

/// One more loop walks a list or a dict, and lets go at once of what is lent to it.
pub fn walk(arena: &mut Arena, r: Ref) -> Said {
    if is_walked(arena, r) && arena.may_walk(r) {
        return match arena.begin_loop(r) {
            Ok(_lent) => Said::Done,
            Err(_) => Said::Stop(ArenaStop::Memory),
        };
    }
    Said::Unfit
}

/// One loop less walks a list or a dict.
pub fn leave(arena: &mut Arena, r: Ref) -> Said {
    if is_walked(arena, r) {
        return match arena.end_loop(r) {
            Ok(()) => Said::Done,
            Err(_) => Said::Stop(ArenaStop::Memory),
        };
    }
    Said::Unfit
}
