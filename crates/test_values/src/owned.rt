// What a call of the arena asks of its arguments, tested.
ghost use Rattle.std.specs.Prelude.{IsTrue, slice_get};
ghost use Rattle.object_arena.specs.Stands as stands;
ghost use Rattle.value_spec.specs.Keys.{AreKeys, IsKey};
ghost use Rattle.value_spec.specs.Values.{values_from};
ghost use Rattle.star_values.specs.Objects.{seen};
ghost use Rattle.star_values.specs.Owns.{Owns, OwnsAll};
ghost use Rattle.star_values.specs.View.{View, value_of, values_of};
ghost use Rattle.test_values.specs.Standing.{IsOf};

use object_arena::{Arena, Ref, Sort, Value};

/// Whether what stands at a reference is owned and of a kind.
pub fn is_of(arena: &Arena, r: Ref, sort: Sort) -> bool
    ensures { IsTrue result → IsOf (seen arena.now) sort r }
{
    if r.sort == sort {
        return arena.owns(r);
    }
    false
}

/// Whether the arena owns what the value says, of the kind that its variant names.
pub fn is_owned(arena: &Arena, value: Value) -> bool
    ensures { IsTrue result → Owns (seen arena.now) value }
{
    match value {
        Value::None | Value::Bool(_) | Value::Int(_) => true,
        Value::Text(r) => is_of(arena, r, Sort::Text),
        Value::List(r) => is_of(arena, r, Sort::List),
        Value::Dict(r) => is_of(arena, r, Sort::Dict),
        Value::Tuple(r) => is_of(arena, r, Sort::Tuple),
        Value::Range(r) => is_of(arena, r, Sort::Range),
        Value::Struct(r) => is_of(arena, r, Sort::Struct),
        Value::Fragment(r) => is_of(arena, r, Sort::Fragment),
        Value::Func(r) => is_of(arena, r, Sort::Func),
        Value::Native(r) => is_of(arena, r, Sort::Native),
        Value::Module(r) => is_of(arena, r, Sort::Module),
    }
}

/// Whether all values are owned.
pub fn are_owned(arena: &Arena, values: &[Value]) -> bool
    ensures { IsTrue result → OwnsAll (seen arena.now) values.now }
{
    match values {
        [] => true,
        [first, rest @ ..] => is_owned(arena, *first) && are_owned(arena, rest),
    }
}

/// Whether a list or a box stands there.
pub fn has_members(arena: &Arena, r: Ref) -> bool
    ensures { IsTrue result → IsTrue (stands.has_members (slice_get (seen arena.now).store r.at)) }
{
    if is_of(arena, r, Sort::List) {
        return true;
    }
    is_of(arena, r, Sort::Box)
}

/// Whether a list or a box without a value stands there.
pub fn has_room(arena: &Arena, r: Ref) -> bool
    ensures { IsTrue result → IsTrue (stands.has_room (slice_get (seen arena.now).store r.at)) }
{
    if is_of(arena, r, Sort::List) {
        return true;
    }
    if is_of(arena, r, Sort::Box) {
        return match arena.boxed(r) {
            None => true,
            Some(_) => false,
        };
    }
    false
}

/// Whether a list or a dict stands there.
pub fn is_walked(arena: &Arena, r: Ref) -> bool
    ensures { IsTrue result → IsTrue (stands.is_walked (slice_get (seen arena.now).store r.at)) }
{
    if is_of(arena, r, Sort::List) {
        return true;
    }
    is_of(arena, r, Sort::Dict)
}

/// Whether a value is a key of its own: None, a bool, an integer or a text.
fn is_plain_key(value: Value) -> bool
    ensures { (a : View) → IsTrue result → IsKey (value_of a value) }
{
    match value {
        Value::None | Value::Bool(_) | Value::Int(_) | Value::Text(_) => true,
        _ => false,
    }
}

/// Whether all values are such keys.
fn are_plain_keys(values: &[Value]) -> bool
    ensures { (a : View) → IsTrue result → AreKeys (values_from (values_of a values.now)) }
{
    match values {
        [] => true,
        [first, rest @ ..] => is_plain_key(*first) && are_plain_keys(rest),
    }
}

/// Whether an owned value is a key of its own or a tuple of such.
pub fn is_key(arena: &Arena, value: Value) -> bool
    requires { Owns (seen arena.now) value }
    ensures { IsTrue result → IsKey (value_of (seen arena.now) value) }
{
    match value {
        Value::Tuple(tuple) => are_plain_keys(arena.tuple(tuple)),
        _ => is_plain_key(value),
    }
}
