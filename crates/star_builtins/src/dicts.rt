// The methods of dicts.
ghost use Rattle.std.specs.Prelude.{◌≡◌, ℕ, IfOk, map as each};
ghost use Rattle.builtin_spec.specs.Dicts.{get_row, listing_row, pop_key_row, popitem_row, setdefault_row};
ghost use Rattle.object_arena.specs.Made.{Makes};
ghost use Rattle.star_steps.specs.Names.{Each, Gives, Grows, IsKey, Owns, OwnsAll, OwnsPair, acting, pair_in, pairs_at, pairs_in, seen, state_in, value_of, values_of};
ghost use Rattle.star_values.specs.declared.value.Value.TheVariants as value;
ghost use Rattle.star_builtins.specs.Listing.{listed};
ghost use Rattle.star_builtins.specs.View.{dict_method_gives};
ghost use Rattle.value_spec.specs.Store.{dict_remove};

use crate::changes::clear;
use crate::table::DictMethod;
use indexmap::map::Slice;
use object_arena::{Arena, Ref, Value, Values, Work};
use sqlite_items::Items;
use star_compare::{key_size, pair_count, value_under};
use star_index::missing;
use star_steps::{Given, refusal, stop_at};
use star_text::{argument, pay_operation};
use std::alloc::Global;
use ytt_base::fault::{FaultKind, Place};
use ytt_base::text::Memory;

/// Pairs of keys and values.
pub(crate) type PairItems = Items<(Value, Value)>;

/// What is listed of each pair.
#[derive(Clone, Copy)]
pub(crate) enum Listed {
    Keys,
    Values,
    Items,
}

/// What a method of a dict gives for the values of its parameters.
pub(crate) fn apply_to_dict(
    arena: &mut Arena,
    work: &mut Work,
    method: DictMethod,
    dict: Ref,
    given: bool,
    values: &[Value],
    at: Place,
) -> Given
    requires dict { Owns (seen arena.old) (value.Dict dict) }
    requires values { OwnsAll (seen arena.old) values.now }
    ensures row { Gives (dict_method_gives dict.at method given at (values_of (seen arena.old) values.now) (state_in (seen arena.old) work.old.steps)) result (seen arena.old) (seen arena.new) work.new.steps }
    ensures depth { work.new.depth ≡ work.old.depth }
{
    let key = argument(arena, values, 0);
    let other = argument(arena, values, 1);
    let steps = &mut work.steps;
    match method {
        DictMethod::Clear => clear(arena, steps, dict, Value::Dict(dict), at),
        DictMethod::Get => get(arena, steps, dict, key, other, at),
        DictMethod::Items => list_pairs(arena, steps, dict, Listed::Items, at),
        DictMethod::Keys => list_pairs(arena, steps, dict, Listed::Keys, at),
        DictMethod::Pop => pop(arena, steps, dict, key, given, other, at),
        DictMethod::PopItem => pop_item(arena, steps, dict, at),
        DictMethod::SetDefault => set_default(arena, steps, dict, key, other, at),
        DictMethod::Values => list_pairs(arena, steps, dict, Listed::Values, at),
    }
}

/// The value of a key, or another where the key isn't there.
#[tactic(auto, using(star_index::proofs::KeyLevels::is_key))]
fn get(arena: &Arena, steps: &mut u64, dict: Ref, key: Value, other: Value, at: Place) -> Given
    requires dict { Owns (seen arena.now) (value.Dict dict) }
    requires key { Owns (seen arena.now) key }
    requires other { Owns (seen arena.now) other }
    ensures { Gives (get_row at dict.at (value_of (seen arena.now) key) (value_of (seen arena.now) other) (state_in (seen arena.now) steps.old)) result (seen arena.now) (seen arena.now) steps.new }
{
    key_size(arena, at, key, steps)?;
    match value_under(arena, dict, key) {
        Some(value) => Ok(value),
        None => Ok(other),
    }
}

/// A new list of what each pair is.
fn list_pairs(arena: &mut Arena, steps: &mut u64, dict: Ref, what: Listed, at: Place) -> Given
    requires { Owns (seen arena.old) (value.Dict dict) }
    ensures { Gives (listing_row (listed what) at dict.at (state_in (seen arena.old) steps.old)) result (seen arena.old) (seen arena.new) steps.new }
{
    let members = u128::from(pair_count(arena, dict));
    pay_operation(
        arena,
        at,
        Value::Dict(dict),
        &[],
        Some(0),
        Some(members),
        steps,
    )?;
    let pairs = copied(arena.alloc(), arena.pairs(dict))?;
    let parts = parts(arena, pairs.as_slice(), what)?;
    Ok(arena.new_list(parts.as_slice())?)
}

/// A copy of pairs.
pub(crate) fn copied(alloc: Global, pairs: Slice<'_, Value, Value>) -> Result<PairItems, Memory>
    ensures { IfOk result (λ ps. ps ≡ pairs.entry) }
{
    let mut all = Items::new(alloc);
    let mut rest = pairs;
    while let Some(((key, value), more)) = rest.split_first() {
        all.push((*key, *value))?;
        rest = more;
    }
    Ok(all)
}

/// What is listed of each pair.
fn parts(arena: &mut Arena, pairs: &[(Value, Value)], what: Listed) -> Result<Values, Memory>
    requires { Each (OwnsPair (seen arena.old)) pairs.now }
    ensures values { IfOk result (λ vs. values_of (seen arena.new) vs ≡ each (listed what) (pairs_in (seen arena.old).held pairs.now)) }
    ensures owns { IfOk result (OwnsAll (seen arena.new)) }
    ensures store { (seen arena.new).store ≡ (seen arena.old).store }
    ensures grows { Grows (seen arena.old) (seen arena.new) }
{
    let mut parts = Items::new(arena.alloc());
    let mut rest = pairs;
    while let Some((pair, more)) = rest.split_first() {
        let part = part(arena, *pair, what)?;
        parts.push(part)?;
        rest = more;
    }
    Ok(parts)
}

/// What is listed of a pair.
fn part(arena: &mut Arena, pair: (Value, Value), what: Listed) -> Result<Value, Memory>
    requires key { Owns (seen arena.old) pair.0 }
    requires value { Owns (seen arena.old) pair.1 }
    ensures { Makes (listed what (pair_in (seen arena.old).held pair)) result (seen arena.old) (seen arena.new) }
{
    match what {
        Listed::Keys => Ok(pair.0),
        Listed::Values => Ok(pair.1),
        Listed::Items => arena.new_tuple(&[pair.0, pair.1]),
    }
}

/// The value of a key, whose pair goes, or another where the key isn't there and one is given; else `KeyMissing`.
#[tactic(auto, using(star_index::proofs::KeyLevels::is_key))]
fn pop(
    arena: &mut Arena,
    steps: &mut u64,
    dict: Ref,
    key: Value,
    given: bool,
    other: Value,
    at: Place,
) -> Given
    requires dict { Owns (seen arena.old) (value.Dict dict) }
    requires key { Owns (seen arena.old) key }
    requires other { Owns (seen arena.old) other }
    ensures { Gives (pop_key_row at dict.at (value_of (seen arena.old) key) given (value_of (seen arena.old) other) (state_in (seen arena.old) steps.old)) result (seen arena.old) (seen arena.new) steps.new }
{
    if let Err(stop) = arena.may_change(dict) {
        return Err(stop_at(arena, stop, at));
    }
    key_size(arena, at, key, steps)?;
    match value_under(arena, dict, key) {
        Some(_) => take(arena, dict, key, at),
        None => {
            if given {
                Ok(other)
            } else {
                Err(missing(arena, at, key))
            }
        }
    }
}

/// Takes the pair of a key out, and gives its value.
fn take(arena: &mut Arena, dict: Ref, key: Value, at: Place) -> Given
    requires dict { Owns (seen arena.old) (value.Dict dict) }
    requires owned { Owns (seen arena.old) key }
    requires key { IsKey (value_of (seen arena.old) key) }
    ensures { (n : ℕ) → Gives (acting at (dict_remove dict.at (value_of (seen arena.old) key)) (state_in (seen arena.old) n)) result (seen arena.old) (seen arena.new) n }
{
    match arena.dict_remove(dict, key) {
        Ok(value) => Ok(value),
        Err(stop) => Err(stop_at(arena, stop, at)),
    }
}

/// The first pair, which goes, as a tuple.
fn pop_item(arena: &mut Arena, steps: &mut u64, dict: Ref, at: Place) -> Given
    requires { Owns (seen arena.old) (value.Dict dict) }
    ensures { Gives (popitem_row at dict.at (state_in (seen arena.old) steps.old)) result (seen arena.old) (seen arena.new) steps.new }
{
    if let Err(stop) = arena.may_change(dict) {
        return Err(stop_at(arena, stop, at));
    }
    let (key, value) = match arena.pairs(dict).split_first() {
        None => return Err(refusal(arena, FaultKind::KeyMissing, at)),
        Some(((key, value), _)) => (*key, *value),
    };
    key_size(arena, at, key, steps)?;
    take(arena, dict, key, at)?;
    Ok(arena.new_tuple(&[key, value])?)
}

/// The value of a key, which gets this one where it isn't there.
#[tactic(auto, using(star_index::proofs::KeyLevels::is_key))]
fn set_default(
    arena: &mut Arena,
    steps: &mut u64,
    dict: Ref,
    key: Value,
    other: Value,
    at: Place,
) -> Given
    requires dict { Owns (seen arena.old) (value.Dict dict) }
    requires key { Owns (seen arena.old) key }
    requires other { Owns (seen arena.old) other }
    ensures { Gives (setdefault_row at dict.at (value_of (seen arena.old) key) (value_of (seen arena.old) other) (state_in (seen arena.old) steps.old)) result (seen arena.old) (seen arena.new) steps.new }
{
    if let Err(stop) = arena.may_change(dict) {
        return Err(stop_at(arena, stop, at));
    }
    key_size(arena, at, key, steps)?;
    if let Some(value) = value_under(arena, dict, key) {
        return Ok(value);
    }
    match arena.dict_put(dict, key, other) {
        Ok(_) => Ok(other),
        Err(stop) => Err(stop_at(arena, stop, at)),
    }
}
