// `dict`, and `update` of dicts, which take their arguments as they are: at most one by position, and those by name.
ghost use Rattle.std.specs.Prelude.{◌≡◌, ◌++◌, [], ℕ, IfOk, OnOk, Some, length, option_map};
ghost use Rattle.builtin_spec.specs.Dicts.{all_keys, all_pairs, dict_row, field_values, keys_sized, pair_of, pairs_bound, pairs_given, pairs_of, pairs_taken, put_each, update_row};
ghost use Rattle.builtin_spec.specs.Lists.{done_by};
ghost use Rattle.star_steps.specs.Names.{Each, Grows, Owns, OwnsAll, OwnsPair, as_is, members_in, pair_in, pairs_in, put_pairs, seen, value_of, values_of};
ghost use Rattle.star_values.specs.Owns.{OwnsArguments, OwnsFields};
ghost use Rattle.star_values.specs.View.{View, arguments_in, fields_in};
ghost use Rattle.star_values.specs.declared.value.Value.TheVariants as value;
ghost use Rattle.value_spec.specs.Binding.{text_pairs};
ghost use Rattle.value_spec.specs.Values.{values_from};
ghost use Rattle.star_builtins.specs.Asked.{Tells, Yields, of_arguments};
ghost use Rattle.star_builtins.specs.Pairing.{AreNamed, OwnsBoth, OwnsOnePair, OwnsPairs, dict_from, pairs_paid, update_from};

use crate::dicts::{PairItems, copied};
use crate::members::has_members;
use indexmap::IndexMap;
use object_arena::{Arena, CallArgs, NamedValue, Pairs, Ref, Value, Values};
use sqlite_items::Items;
use star_calls::has_twice;
use star_compare::{key_offence, key_size};
use star_ops::{member_count, members_of};
use star_steps::{Given, Paid, refusal, stop_at};
use star_text::pay_operation;
use std::alloc::Global;
use ytt_base::fault::{FaultKind, Place, Stop};
use ytt_base::text::Memory;

/// A new dict of the pairs that a value is and those of arguments by name: `ArgBind` of more than one argument by position and of a name
/// that is given twice, `ValueKind` of a value that isn't one of pairs, and the refusal of what is no key.
pub(crate) fn dict(arena: &mut Arena, steps: &mut u64, args: &CallArgs, at: Place) -> Given
    requires { OwnsArguments (seen arena.old) args.now }
    ensures { Yields (dict_row at (arguments_in (seen arena.old).held args.now)) result arena.old arena.new steps.old steps.new }
{
    let bound = pairs_bound(arena.alloc(), args)?;
    if !bound {
        return Err(refusal(arena, FaultKind::ArgBind, at));
    }
    let named = named_pairs(arena, args.named.as_slice())?;
    dict_from(arena, steps, args, named, at)
}

/// The same of arguments that fit, and the pairs of those by name.
fn dict_from(
    arena: &mut Arena,
    steps: &mut u64,
    args: &CallArgs,
    named: PairItems,
    at: Place,
) -> Given
    requires args { OwnsArguments (seen arena.old) args.now }
    requires named { AreNamed (seen arena.old) args.now.named named }
    ensures { Yields (of_arguments (seen arena.old) args.now (dict_from at)) result arena.old arena.new steps.old steps.new }
{
    let pairs = pairs_taken(arena, *steps, args, named, at)?;
    let distinct = put_all(arena, pairs.as_slice())?;
    let count = count_of(arena, &distinct);
    pay_pairs(arena, steps, Value::None, args, count, pairs.as_slice(), at)?;
    Ok(arena.new_dict_of(distinct)?)
}

/// None, and the same pairs stand in a dict, put one after another: `ArgBind` as for `dict`, then `Frozen` and `Iterating`, and then what
/// else `dict` refuses.
pub(crate) fn update(
    arena: &mut Arena,
    steps: &mut u64,
    dict: Ref,
    args: &CallArgs,
    at: Place,
) -> Given
    requires dict { Owns (seen arena.old) (value.Dict dict) }
    requires args { OwnsArguments (seen arena.old) args.now }
    ensures { Yields (update_row dict.at at (arguments_in (seen arena.old).held args.now)) result arena.old arena.new steps.old steps.new }
{
    let bound = pairs_bound(arena.alloc(), args)?;
    if !bound {
        return Err(refusal(arena, FaultKind::ArgBind, at));
    }
    let named = named_pairs(arena, args.named.as_slice())?;
    update_from(arena, steps, dict, args, named, at)
}

/// The same of arguments that fit, and the pairs of those by name.
fn update_from(
    arena: &mut Arena,
    steps: &mut u64,
    dict: Ref,
    args: &CallArgs,
    named: PairItems,
    at: Place,
) -> Given
    requires dict { Owns (seen arena.old) (value.Dict dict) }
    requires args { OwnsArguments (seen arena.old) args.now }
    requires named { AreNamed (seen arena.old) args.now.named named }
    ensures { Yields (of_arguments (seen arena.old) args.now (update_from dict.at at)) result arena.old arena.new steps.old steps.new }
{
    if let Err(stop) = arena.may_change(dict) {
        return Err(stop_at(arena, stop, at));
    }
    let pairs = pairs_taken(arena, *steps, args, named, at)?;
    let put = pairs.as_slice();
    pay_pairs(arena, steps, Value::Dict(dict), args, 0, put, at)?;
    put_each(arena, dict, put, at)
}

/// Whether there is at most one argument by position, and no name twice.
fn pairs_bound(alloc: Global, args: &CallArgs) -> Result<bool, Memory>
    ensures { (a : View) → IfOk result (λ bound. bound ≡ pairs_bound (values_from (values_of a args.now.positional)) (fields_in a.held args.now.named)) }
{
    if args.positional.as_slice().len() > 1 {
        return Ok(false);
    }
    let twice = has_twice(alloc, args.named.as_slice())?;
    Ok(!twice)
}

/// The pairs that the argument by position is, and behind them those of arguments by name: `ValueKind` of a value that isn't one of
/// pairs, and the refusal of what is no key. It takes no steps.
fn pairs_taken(
    arena: &Arena,
    steps: u64,
    args: &CallArgs,
    named: PairItems,
    at: Place,
) -> Result<PairItems, Stop>
    requires args { OwnsArguments (seen arena.now) args.now }
    requires named { AreNamed (seen arena.now) args.now.named named }
    ensures meaning { Tells (pairs_in (seen arena.now).held) (of_arguments (seen arena.now) args.now (pairs_taken at)) result arena.now steps steps }
    ensures owned { IfOk result (Each (OwnsPair (seen arena.now))) }
{
    let _steps = steps;
    let pairs = match pairs_given(arena, args.positional.as_slice())? {
        Some(pairs) => pairs,
        None => return Err(refusal(arena, FaultKind::ValueKind, at)),
    };
    all_keys(arena, pairs.as_slice(), at)?;
    Ok(joined(pairs, named)?)
}

/// Pairs, and others behind them.
fn joined(pairs: PairItems, more: PairItems) -> Result<PairItems, Memory>
    ensures { IfOk result (λ qs. qs ≡ pairs ++ more) }
{
    let mut all = pairs;
    all.append(more)?;
    Ok(all)
}

/// The pairs that a value is, or none where there is no value; `None` where it isn't one of pairs.
fn pairs_given(arena: &Arena, values: &[Value]) -> Result<Option<PairItems>, Memory>
    requires { OwnsAll (seen arena.now) values.now }
    ensures pairs { IfOk result (λ o. option_map (pairs_in (seen arena.now).held) o ≡ pairs_given (seen arena.now).store (values_of (seen arena.now) values.now)) }
    ensures owned { IfOk result (OwnsPairs (seen arena.now)) }
{
    match values.split_first() {
        None => Ok(Some(Items::new(arena.alloc()))),
        Some((value, _)) => pairs_of(arena, *value),
    }
}

/// The pairs of a dict, or those that the members of a value are, each with two members. A range that isn't empty has no pairs, and its
/// members aren't made.
fn pairs_of(arena: &Arena, value: Value) -> Result<Option<PairItems>, Memory>
    requires { Owns (seen arena.now) value }
    ensures pairs { IfOk result (λ o. option_map (pairs_in (seen arena.now).held) o ≡ pairs_of (seen arena.now).store (value_of (seen arena.now) value)) }
    ensures owned { IfOk result (OwnsPairs (seen arena.now)) }
{
    match value {
        Value::Dict(dict) => Ok(Some(copied(arena.alloc(), arena.pairs(dict))?)),
        Value::Tuple(_) | Value::List(_) => {
            let members = members_of(arena, value)?;
            all_pairs(arena, members.as_slice())
        }
        Value::Range(_) => {
            if member_count(arena, value) == 0 {
                Ok(Some(Items::new(arena.alloc())))
            } else {
                Ok(None)
            }
        }
        Value::None
        | Value::Bool(_)
        | Value::Int(_)
        | Value::Text(_)
        | Value::Struct(_)
        | Value::Fragment(_)
        | Value::Func(_)
        | Value::Native(_)
        | Value::Module(_) => Ok(None),
    }
}

/// The pairs that these are, if each has two members.
fn all_pairs(arena: &Arena, values: &[Value]) -> Result<Option<PairItems>, Memory>
    requires { OwnsAll (seen arena.now) values.now }
    ensures pairs { IfOk result (λ o. option_map (pairs_in (seen arena.now).held) o ≡ all_pairs (seen arena.now).store (values_of (seen arena.now) values.now)) }
    ensures owned { IfOk result (OwnsPairs (seen arena.now)) }
{
    let mut pairs = Items::new(arena.alloc());
    let mut rest = values;
    while let Some((first, more)) = rest.split_first() {
        match pair_of(arena, *first)? {
            None => return Ok(None),
            Some(pair) => pairs.push(pair)?,
        }
        rest = more;
    }
    Ok(Some(pairs))
}

/// The two members of a value, if it has two.
fn pair_of(arena: &Arena, value: Value) -> Result<Option<(Value, Value)>, Memory>
    requires { Owns (seen arena.now) value }
    ensures pair { IfOk result (λ o. option_map (pair_in (seen arena.now).held) o ≡ pair_of (members_in (seen arena.now).store (value_of (seen arena.now) value))) }
    ensures owned { IfOk result (OwnsOnePair (seen arena.now)) }
{
    if !has_members(value) {
        return Ok(None);
    }
    if member_count(arena, value) != 2 {
        return Ok(None);
    }
    let members = members_of(arena, value)?;
    Ok(two_of(members.as_slice()))
}

/// These values, if they are two.
fn two_of(values: &[Value]) -> Option<(Value, Value)>
    ensures pair { (a : View) → option_map (pair_in a.held) result ≡ pair_of (Some (values_of a values.now)) }
    ensures owned { (a : View) → OwnsAll a values.now → OwnsOnePair a result }
{
    match values {
        [key, value] => Some((*key, *value)),
        _ => None,
    }
}

/// That each key is one, or the refusal of the first that isn't.
fn all_keys(arena: &Arena, pairs: &[(Value, Value)], at: Place) -> Paid
    requires { Each (OwnsBoth (seen arena.now)) pairs.now }
    ensures meaning { (n : ℕ) → Tells as_is (all_keys at (pairs_in (seen arena.now).held pairs.now)) result arena.now n n }
    ensures keys { OnOk result (Each (OwnsPair (seen arena.now)) pairs.now) }
{
    let mut rest = pairs;
    while let Some((pair, more)) = rest.split_first() {
        if let Some(kind) = key_offence(arena, pair.0) {
            return Err(refusal(arena, kind, at));
        }
        rest = more;
    }
    Ok(())
}

/// The pairs of arguments by name, whose keys are their names.
fn named_pairs(arena: &mut Arena, named: &[NamedValue]) -> Result<PairItems, Memory>
    requires { OwnsFields (seen arena.old) named.now }
    ensures pairs { IfOk result (λ qs. pairs_in (seen arena.new).held qs ≡ text_pairs (fields_in (seen arena.old).held named.now)) }
    ensures owned { IfOk result (Each (OwnsPair (seen arena.new))) }
    ensures store { (seen arena.new).store ≡ (seen arena.old).store }
    ensures grows { Grows (seen arena.old) (seen arena.new) }
{
    let mut pairs = Items::new(arena.alloc());
    let mut rest = named;
    while let Some((field, more)) = rest.split_first() {
        let key = arena.new_text(field.name.copy()?)?;
        pairs.push((key, field.value))?;
        rest = more;
    }
    Ok(pairs)
}

/// These pairs put by their keys, of which a later one changes the value of an earlier one.
fn put_all(arena: &Arena, pairs: &[(Value, Value)]) -> Result<Pairs, Memory>
    requires { Each (OwnsPair (seen arena.now)) pairs.now }
    ensures pairs { IfOk result (λ qs. pairs_in (seen arena.now).held qs.entries ≡ put_pairs [] (pairs_in (seen arena.now).held pairs.now)) }
    ensures owned { IfOk result (λ qs. Each (OwnsPair (seen arena.now)) qs.entries) }
{
    let mut all = IndexMap::new(arena.alloc());
    let mut rest = pairs;
    while let Some((pair, more)) = rest.split_first() {
        arena.put_pair(&mut all, pair.0, pair.1)?;
        rest = more;
    }
    Ok(all)
}

/// How many pairs these are.
fn count_of(arena: &Arena, pairs: &Pairs) -> u128
    ensures { result ≡ length (pairs_in (seen arena.now).held pairs.now.entries) }
{
    let _arena = arena;
    pairs.len() as u128
}

/// The arguments, those by name behind those by position.
fn operands_of(alloc: Global, args: &CallArgs) -> Result<Values, Memory>
    ensures values { (a : View) → IfOk result (λ vs. values_of a vs ≡ values_of a args.now.positional ++ field_values (fields_in a.held args.now.named)) }
    ensures owned { (a : View) → OwnsArguments a args.now → IfOk result (OwnsAll a) }
{
    let mut all = Items::from_slice(alloc, args.positional.as_slice())?;
    let mut rest = args.named.as_slice();
    while let Some((field, more)) = rest.split_first() {
        all.push(field.value)?;
        rest = more;
    }
    Ok(all)
}

/// Takes the steps of the operation on a value and arguments, and then those of each key.
fn pay_pairs(
    arena: &Arena,
    steps: &mut u64,
    first: Value,
    args: &CallArgs,
    members: u128,
    pairs: &[(Value, Value)],
    at: Place,
) -> Paid
    requires first { Owns (seen arena.now) first }
    requires args { OwnsArguments (seen arena.now) args.now }
    requires pairs { Each (OwnsPair (seen arena.now)) pairs.now }
    ensures { Tells as_is (of_arguments (seen arena.now) args.now (pairs_paid at (value_of (seen arena.now) first) members (pairs_in (seen arena.now).held pairs.now))) result arena.now steps.old steps.new }
{
    let operands = operands_of(arena.alloc(), args)?;
    pay_operation(
        arena,
        at,
        first,
        operands.as_slice(),
        Some(0),
        Some(members),
        steps,
    )?;
    pay_keys(arena, steps, pairs, at)
}

/// Takes the steps of each key.
fn pay_keys(arena: &Arena, steps: &mut u64, pairs: &[(Value, Value)], at: Place) -> Paid
    requires { Each (OwnsPair (seen arena.now)) pairs.now }
    ensures { Tells as_is (keys_sized at (pairs_in (seen arena.now).held pairs.now)) result arena.now steps.old steps.new }
{
    let mut rest = pairs;
    while let Some((pair, more)) = rest.split_first() {
        key_size(arena, at, pair.0, steps)?;
        rest = more;
    }
    Ok(())
}

/// Puts each pair into a dict in turn.
fn put_each(arena: &mut Arena, dict: Ref, pairs: &[(Value, Value)], at: Place) -> Given
    requires dict { Owns (seen arena.old) (value.Dict dict) }
    requires pairs { Each (OwnsPair (seen arena.old)) pairs.now }
    ensures { (n : ℕ) → Yields (done_by (put_each at dict.at (pairs_in (seen arena.old).held pairs.now))) result arena.old arena.new n n }
{
    let mut rest = pairs;
    while let Some((pair, more)) = rest.split_first() {
        if let Err(stop) = arena.dict_put(dict, pair.0, pair.1) {
            return Err(stop_at(arena, stop, at));
        }
        rest = more;
    }
    Ok(Value::None)
}
