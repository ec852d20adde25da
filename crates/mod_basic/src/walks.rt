// Structs from dicts, and dicts from structs, through all that stands in them.
ghost use Rattle.std.specs.Prelude.{◌≡◌, ◌<◌, ◌-◌, ℕ, List, OnOk, length};
ghost use Rattle.ytt_base.specs.Trees.{max_depth};
ghost use Rattle.star_steps.specs.Names.{Meets, Owns, OwnsAll, OwnsPair, as_is, seen, state_in, take_steps, text_cost, text_value, value_of};
ghost use Rattle.star_values.specs.declared.value.Value.TheVariants as value;
ghost use Rattle.mod_basic.specs.Walks.{MemberDone, MembersDone, OwnsPairs, PairDone, PairsDone, PaysName, ValueDone, name_in};
ghost use Rattle.mod_basic.specs.declared.walks.Way.TheVariants as way;

use crate::fields::{PairItems, copied_pairs, distinct, fields_of, push, struct_pairs};
use object_arena::{Arena, Ref, Value, Values};
use sqlite_items::Items;
use star_ops::members_of;
use star_steps::{Depth, Given, Paid, pay, refusal};
use ytt_base::fault::{FaultKind, Place, Stop};

/// The greatest depth of collections in one another.
const MAX_DEPTH: u32 = 100;

/// The steps of each member, before those of what it is.
const MEMBER_STEPS: u128 = 1;

/// Which way: dicts become structs, or structs dicts.
#[derive(Clone, Copy)]
pub(crate) enum Way {
    Encode,
    Decode,
}

/// All collections may stand in one another there.
pub(crate) fn outermost(place: Place) -> Depth
    ensures { result ≡ record { place = place; levels = max_depth } }
{
    let levels = MAX_DEPTH;
    Depth { place, levels }
}

/// A value with all that stands in it converted. A walk goes through lists, tuples and what it converts, where collections may stand in
/// one another so many levels more: deeper ones are `TooDeep`. It takes a step before each member and each pair, and a sixteenth of the
/// bytes of each text; a key that is no text is `ValueKind`.
#[cycle(walk)]
pub(crate) fn converted(
    arena: &mut Arena,
    way: Way,
    at: Depth,
    value: Value,
    steps: &mut u64,
) -> Given
    requires { Owns (seen arena.old) value }
    ensures { ValueDone way at value result arena.old arena.new steps.old steps.new }
{
    match (way, value) {
        (_, Value::Text(text)) => {
            pay_text(arena, at.place, text, steps)?;
            Ok(value)
        }
        (_, Value::List(list)) => list_done(arena, way, at, list, steps),
        (_, Value::Tuple(tuple)) => tuple_done(arena, way, at, tuple, steps),
        (Way::Encode, Value::Dict(dict)) => dict_done(arena, at, dict, steps),
        (Way::Decode, Value::Struct(of)) => struct_done(arena, at, of, steps),
        _ => Ok(value),
    }
}

/// Takes a sixteenth of a text's bytes.
fn pay_text(arena: &Arena, place: Place, text: Ref, steps: &mut u64) -> Paid
    requires { Owns (seen arena.now) (value.Text text) }
    ensures { (t : List ℕ) → value_of (seen arena.now) (value.Text text) ≡ text_value t →
        Meets as_is result (state_in (seen arena.now) steps.new) (take_steps (text_cost (length t)) place (state_in (seen arena.now) steps.old)) }
{
    pay(
        arena,
        place,
        arena.text(text).as_str().len() as u128 / 16,
        steps,
    )
}

#[cycle(walk)]
fn list_done(arena: &mut Arena, way: Way, at: Depth, list: Ref, steps: &mut u64) -> Given
    requires { Owns (seen arena.old) (value.List list) }
    ensures { ValueDone way at (value.List list) result arena.old arena.new steps.old steps.new }
{
    let members = members_of(arena, Value::List(list))?;
    let values = members_done(arena, way, at, members.as_slice(), steps)?;
    Ok(arena.new_list(values.as_slice())?)
}

#[cycle(walk)]
fn tuple_done(arena: &mut Arena, way: Way, at: Depth, tuple: Ref, steps: &mut u64) -> Given
    requires { Owns (seen arena.old) (value.Tuple tuple) }
    ensures { ValueDone way at (value.Tuple tuple) result arena.old arena.new steps.old steps.new }
{
    let members = members_of(arena, Value::Tuple(tuple))?;
    let values = members_done(arena, way, at, members.as_slice(), steps)?;
    Ok(arena.new_tuple(values.as_slice())?)
}

/// A struct of a dict's pairs.
#[cycle(walk)]
fn dict_done(arena: &mut Arena, at: Depth, dict: Ref, steps: &mut u64) -> Given
    requires { Owns (seen arena.old) (value.Dict dict) }
    ensures { ValueDone way.Encode at (value.Dict dict) result arena.old arena.new steps.old steps.new }
{
    let pairs = copied_pairs(arena.alloc(), arena.pairs(dict))?;
    let pairs = pairs_done(arena, Way::Encode, at, pairs.as_slice(), steps)?;
    let fields = fields_of(arena, pairs.as_slice())?;
    Ok(arena.new_struct(fields)?)
}

/// A dict of a struct's fields.
#[cycle(walk)]
fn struct_done(arena: &mut Arena, at: Depth, of: Ref, steps: &mut u64) -> Given
    requires { Owns (seen arena.old) (value.Struct of) }
    ensures { ValueDone way.Decode at (value.Struct of) result arena.old arena.new steps.old steps.new }
{
    let pairs = struct_pairs(arena, of)?;
    let pairs = pairs_done(arena, Way::Decode, at, pairs.as_slice(), steps)?;
    let pairs = distinct(arena, pairs.as_slice())?;
    Ok(arena.new_dict_of(pairs)?)
}

/// Members, one level in.
#[cycle(walk)]
fn members_done(
    arena: &mut Arena,
    way: Way,
    at: Depth,
    members: &[Value],
    steps: &mut u64,
) -> Result<Values, Stop>
    requires { OwnsAll (seen arena.old) members.now }
    ensures { MembersDone way at members.now result arena.old arena.new steps.old steps.new }
{
    if at.levels == 0 {
        return Err(refusal(arena, FaultKind::TooDeep, at.place));
    }
    let inside = one_in(at);
    let mut values = Items::new(arena.alloc());
    for member in members {
        let value = member_done(arena, way, inside, *member, steps)?;
        push(&mut values, value)?;
    }
    Ok(values)
}

/// A level less.
fn one_in(at: Depth) -> Depth
    requires { 0 < at.levels }
    ensures { result ≡ record { place = at.place; levels = at.levels - 1 } }
{
    let Depth { place, levels } = at;
    Depth {
        place,
        levels: levels - 1,
    }
}

/// A member, which takes a step.
#[cycle(walk)]
fn member_done(arena: &mut Arena, way: Way, at: Depth, value: Value, steps: &mut u64) -> Given
    requires { Owns (seen arena.old) value }
    ensures { MemberDone way at value result arena.old arena.new steps.old steps.new }
{
    pay(arena, at.place, MEMBER_STEPS, steps)?;
    converted(arena, way, at, value, steps)
}

/// Pairs, one level in.
#[cycle(walk)]
fn pairs_done(
    arena: &mut Arena,
    way: Way,
    at: Depth,
    pairs: &[(Value, Value)],
    steps: &mut u64,
) -> Result<PairItems, Stop>
    requires { OwnsPairs (seen arena.old) pairs.now }
    ensures { PairsDone way at pairs.now result arena.old arena.new steps.old steps.new }
{
    if at.levels == 0 {
        return Err(refusal(arena, FaultKind::TooDeep, at.place));
    }
    let inside = one_in(at);
    let mut done = Items::new(arena.alloc());
    for pair in pairs {
        let pair = pair_done(arena, way, inside, *pair, steps)?;
        push(&mut done, pair)?;
    }
    Ok(done)
}

/// A key with its value converted.
#[cycle(walk)]
fn pair_done(
    arena: &mut Arena,
    way: Way,
    at: Depth,
    pair: (Value, Value),
    steps: &mut u64,
) -> Result<(Value, Value), Stop>
    requires { OwnsPair (seen arena.old) pair }
    ensures { PairDone way at pair result arena.old arena.new steps.old steps.new }
{
    let (key, value) = pair;
    pay_name(arena, at.place, key, steps)?;
    let value = converted(arena, way, at, value, steps)?;
    Ok((key, value))
}

/// Takes a step, and a sixteenth of the bytes of the text that a key is.
fn pay_name(arena: &Arena, place: Place, key: Value, steps: &mut u64) -> Paid
    requires { Owns (seen arena.now) key }
    ensures meaning { PaysName (seen arena.now) place key result steps.old steps.new }
    ensures text { OnOk result (value_of (seen arena.now) key ≡ text_value (name_in (value_of (seen arena.now) key))) }
{
    pay(arena, place, MEMBER_STEPS, steps)?;
    match key {
        Value::Text(text) => pay_text(arena, place, text, steps),
        _ => Err(refusal(arena, FaultKind::ValueKind, place)),
    }
}
