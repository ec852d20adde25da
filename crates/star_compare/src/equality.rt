// Equality.
ghost use Rattle.std.specs.Prelude.{◌≡◌};
ghost use Rattle.star_steps.specs.Names.{ℕ, get_or, IsTrue, Some, paid, pairs_at, value_of_key, none_value, range_value, text_value, all_found, equal_by, equal_found, equal_members, equal_pairs, equality, inside_at, named_values, seen, pair_in, Owns, OwnsAll, OwnsField, OwnsFields, OwnsPair, held_at, fields_in, struct_in, value_of, values_of, Meets, as_is, state_in};
ghost use Rattle.operator_spec.specs.Equality as table;
ghost use Rattle.star_values.specs.declared.value.Value.TheVariants as value;
ghost use Rattle.star_values.specs.declared.value.Sort.TheVariants as sort;
ghost use Rattle.star_compare.specs.Alike.{alike, is_named, known_name, numbers_from};

use crate::pairs::{field_under, pair_count, value_under};
use crate::sizes::MAX_DEPTH;
use object_arena::{Arena, NamedValue, Ref, Shape, Value};
use star_fragments::fragments_equal;
use star_integers::{number_at, range_count};
use star_steps::{Depth, Told, pay, refusal, texts_equal, tuple_members};
use ytt_base::fault::{FaultKind, Place};

/// The first number of a range, the number before which it ends, and its step.
pub type Bounds = (i128, i128, i128);

/// Whether two values are equal. It takes 1 for each pair of members up to the first difference, and a sixteenth of the bytes of the
/// shorter of two texts.
pub fn equal(arena: &Arena, place: Place, left: Value, right: Value, steps: &mut u64) -> Told
    requires left { Owns (seen arena.now) left }
    requires right { Owns (seen arena.now) right }
    ensures { Meets as_is result (state_in (seen arena.now) steps.new) (equality place (value_of (seen arena.now) left) (value_of (seen arena.now) right) (state_in (seen arena.now) steps.old)) }
{
    let levels = MAX_DEPTH;
    let at = Depth { place, levels };
    equal_within(arena, at, left, right, steps)
}

/// Whether a member equals the value: 1 and an equality for each, up to the first that does.
pub fn among(arena: &Arena, place: Place, value: Value, members: &[Value], steps: &mut u64) -> Told
    requires value { Owns (seen arena.now) value }
    requires members { OwnsAll (seen arena.now) members.now }
    ensures { Meets as_is result (state_in (seen arena.now) steps.new) (table.among place (value_of (seen arena.now) value) (values_of (seen arena.now) members.now) (state_in (seen arena.now) steps.old)) }
{
    let levels = MAX_DEPTH;
    let at = Depth { place, levels };
    let mut rest = members;
    while let [first, more @ ..] = rest {
        if pair_equal(arena, at, *first, value, steps)? {
            return Ok(true);
        }
        rest = more;
    }
    Ok(false)
}

/// The same, where collections may nest so many levels.
#[cycle(equality)]
#[tactic(auto, unfolding(crate::specs::Alike::alike))]
fn equal_within(arena: &Arena, at: Depth, left: Value, right: Value, steps: &mut u64) -> Told
    requires left { Owns (seen arena.now) left }
    requires right { Owns (seen arena.now) right }
    ensures { Meets as_is result (state_in (seen arena.now) steps.new) (alike at.levels at.place (value_of (seen arena.now) left) (value_of (seen arena.now) right) (state_in (seen arena.now) steps.old)) }
{
    match (left, right) {
        (Value::None, Value::None) => Ok(true),
        (Value::Bool(a), Value::Bool(b)) => Ok(a == b),
        (Value::Int(a), Value::Int(b)) => Ok(a == b),
        (Value::Text(a), Value::Text(b)) => {
            let other = arena.text(b).as_str();
            texts_equal(arena, at.place, arena.text(a).as_str(), other, steps)
        }
        (Value::Tuple(a), Value::Tuple(b)) => {
            let others = tuple_members(arena, b);
            members_equal(arena, at, tuple_members(arena, a), others, steps)
        }
        (Value::List(a), Value::List(b)) => {
            members_equal(arena, at, arena.list(a), arena.list(b), steps)
        }
        (Value::Dict(a), Value::Dict(b)) => dicts_equal(arena, at, a, b, steps),
        (Value::Range(a), Value::Range(b)) => ranges_equal(arena, at, a, b, steps),
        (Value::Struct(a), Value::Struct(b)) => structs_equal(arena, at, a, b, steps),
        (Value::Fragment(a), Value::Fragment(b)) => fragments_equal(arena, at, a, b, steps),
        (Value::Func(a), Value::Func(b)) => Ok(a.at == b.at),
        (Value::Module(a), Value::Module(b)) => Ok(name_of(arena, a) == name_of(arena, b)),
        (Value::Native(a), Value::Native(b)) => Ok(name_of(arena, a) == name_of(arena, b)),
        _ => Ok(false),
    }
}

#[cycle(equality)]
fn members_equal(arena: &Arena, at: Depth, left: &[Value], right: &[Value], steps: &mut u64) -> Told
    requires left { OwnsAll (seen arena.now) left.now }
    requires right { OwnsAll (seen arena.now) right.now }
    ensures { Meets as_is result (state_in (seen arena.now) steps.new) ((inside_at at.levels at.place).members (values_of (seen arena.now) left.now) (values_of (seen arena.now) right.now) (state_in (seen arena.now) steps.old)) }
{
    if at.levels == 0 {
        return Err(refusal(arena, FaultKind::TooDeep, at.place));
    }
    if left.len() != right.len() {
        return Ok(false);
    }
    let mut inside = at;
    inside.levels -= 1;
    pairs_equal(arena, inside, left, right, steps)
}

#[cycle(equality)]
fn pairs_equal(arena: &Arena, at: Depth, left: &[Value], right: &[Value], steps: &mut u64) -> Told
    requires left { OwnsAll (seen arena.now) left.now }
    requires right { OwnsAll (seen arena.now) right.now }
    ensures { Meets as_is result (state_in (seen arena.now) steps.new) (equal_pairs (alike at.levels at.place) at.place (values_of (seen arena.now) left.now) (values_of (seen arena.now) right.now) (state_in (seen arena.now) steps.old)) }
{
    let mut lefts = left;
    let mut rights = right;
    while let [first, more @ ..] = lefts {
        match rights {
            [] => return Ok(true),
            [second, others @ ..] => {
                if !pair_equal(arena, at, *first, *second, steps)? {
                    return Ok(false);
                }
                lefts = more;
                rights = others;
            }
        }
    }
    Ok(true)
}

/// The same of a pair of members, which takes a step.
#[cycle(equality)]
fn pair_equal(arena: &Arena, at: Depth, left: Value, right: Value, steps: &mut u64) -> Told
    requires left { Owns (seen arena.now) left }
    requires right { Owns (seen arena.now) right }
    ensures { Meets as_is result (state_in (seen arena.now) steps.new) (paid at.place (alike at.levels at.place (value_of (seen arena.now) left) (value_of (seen arena.now) right)) (state_in (seen arena.now) steps.old)) }
{
    pay(arena, at.place, 1, steps)?;
    equal_within(arena, at, left, right, steps)
}

#[cycle(equality)]
fn dicts_equal(arena: &Arena, at: Depth, left: Ref, right: Ref, steps: &mut u64) -> Told
    requires left { Owns (seen arena.now) (value.Dict left) }
    requires right { Owns (seen arena.now) (value.Dict right) }
    ensures { Meets as_is result (state_in (seen arena.now) steps.new) ((inside_at at.levels at.place).pairs (pairs_at left.at (seen arena.now).store) (pairs_at right.at (seen arena.now).store) (state_in (seen arena.now) steps.old)) }
{
    if at.levels == 0 {
        return Err(refusal(arena, FaultKind::TooDeep, at.place));
    }
    if pair_count(arena, left) != pair_count(arena, right) {
        return Ok(false);
    }
    let mut inside = at;
    inside.levels -= 1;
    keys_found(arena, inside, left, right, steps)
}

/// Whether each key of the left stands in the right with an equal value.
#[cycle(equality)]
fn keys_found(arena: &Arena, at: Depth, left: Ref, right: Ref, steps: &mut u64) -> Told
    requires left { Owns (seen arena.now) (value.Dict left) }
    requires right { Owns (seen arena.now) (value.Dict right) }
    ensures { Meets as_is result (state_in (seen arena.now) steps.new) (all_found (alike at.levels at.place) at.place (pairs_at left.at (seen arena.now).store) (pairs_at right.at (seen arena.now).store) (state_in (seen arena.now) steps.old)) }
{
    let mut rest = arena.pairs(left);
    while let Some(((key, value), more)) = rest.split_first() {
        if !key_found(arena, at, (*key, *value), right, steps)? {
            return Ok(false);
        }
        rest = more;
    }
    Ok(true)
}

/// Whether the key of a pair stands in a dict with an equal value. It takes a step, and the key's size.
#[cycle(equality)]
fn key_found(arena: &Arena, at: Depth, pair: (Value, Value), right: Ref, steps: &mut u64) -> Told
    requires pair { OwnsPair (seen arena.now) pair }
    requires right { Owns (seen arena.now) (value.Dict right) }
    ensures { Meets as_is result (state_in (seen arena.now) steps.new) (paid at.place (equal_found (alike at.levels at.place) (pair_in (seen arena.now).held pair) (value_of_key (value_of (seen arena.now) pair.0) (pairs_at right.at (seen arena.now).store))) (state_in (seen arena.now) steps.old)) }
{
    pay(arena, at.place, 1, steps)?;
    match value_under(arena, right, pair.0) {
        None => Ok(false),
        Some(found) => {
            equal_within(arena, at, pair.0, pair.0, steps)?;
            equal_within(arena, at, pair.1, found, steps)
        }
    }
}

#[cycle(equality)]
fn structs_equal(arena: &Arena, at: Depth, left: Ref, right: Ref, steps: &mut u64) -> Told
    requires left { Owns (seen arena.now) (value.Struct left) }
    requires right { Owns (seen arena.now) (value.Struct right) }
    ensures { Meets as_is result (state_in (seen arena.now) steps.new) ((inside_at at.levels at.place).pairs (named_values (struct_in (get_or (seen arena.now).held left.at none_value))) (named_values (struct_in (get_or (seen arena.now).held right.at none_value))) (state_in (seen arena.now) steps.old)) }
{
    if at.levels == 0 {
        return Err(refusal(arena, FaultKind::TooDeep, at.place));
    }
    let first = fields(arena, left);
    let second = fields(arena, right);
    if first.len() != second.len() {
        return Ok(false);
    }
    let mut inside = at;
    inside.levels -= 1;
    names_found(arena, inside, first, second, steps)
}

#[cycle(equality)]
fn names_found(
    arena: &Arena,
    at: Depth,
    left: &[NamedValue],
    right: &[NamedValue],
    steps: &mut u64,
) -> Told
    requires left { OwnsFields (seen arena.now) left.now }
    requires right { OwnsFields (seen arena.now) right.now }
    ensures { Meets as_is result (state_in (seen arena.now) steps.new) (all_found (alike at.levels at.place) at.place (named_values (fields_in (seen arena.now).held left.now)) (named_values (fields_in (seen arena.now).held right.now)) (state_in (seen arena.now) steps.old)) }
{
    let mut rest = left;
    while let Some((field, more)) = rest.split_first() {
        if !name_found(arena, at, field, right, steps)? {
            return Ok(false);
        }
        rest = more;
    }
    Ok(true)
}

/// Whether a struct has a field of the same name with an equal value. It takes a step, and a sixteenth of the name's bytes.
#[cycle(equality)]
#[tactic(auto, unfolding(crate::specs::Alike::alike))]
fn name_found(
    arena: &Arena,
    at: Depth,
    field: &NamedValue,
    right: &[NamedValue],
    steps: &mut u64,
) -> Told
    requires field { OwnsField (seen arena.now) field.now }
    requires right { OwnsFields (seen arena.now) right.now }
    ensures { Meets as_is result (state_in (seen arena.now) steps.new) (paid at.place (equal_found (alike at.levels at.place) (text_value field.now.name, value_of (seen arena.now) field.now.value) (value_of_key (text_value field.now.name) (named_values (fields_in (seen arena.now).held right.now)))) (state_in (seen arena.now) steps.old)) }
{
    pay(arena, at.place, 1, steps)?;
    match field_under(right, field.name.as_str()) {
        None => Ok(false),
        Some(found) => {
            let name = field.name.as_str();
            texts_equal(arena, at.place, name, name, steps)?;
            equal_within(arena, at, field.value, found, steps)
        }
    }
}

/// The name by which a module, or what can be called, is known.
pub fn name_of(arena: &Arena, r: Ref) -> &str
    requires { IsTrue (is_named r.sort) × (held_at (seen arena.now) r.at ≡ Some r.sort) }
    ensures module { r.sort ≡ sort.Module → result.now ≡ known_name (value_of (seen arena.now) (value.Module r)) }
    ensures native { r.sort ≡ sort.Native → result.now ≡ known_name (value_of (seen arena.now) (value.Native r)) }
{
    match arena.shape(r) {
        Shape::Module(name, _) => name.as_str(),
        Shape::Native(_, name, _) => name.as_str(),
        Shape::Replacement(_) => "template.replace",
        _ => unreachable!(),
    }
}

/// Ranges by their numbers, which aren't made: as many, and each the same.
fn ranges_equal(arena: &Arena, at: Depth, left: Ref, right: Ref, steps: &mut u64) -> Told
    requires left { Owns (seen arena.now) (value.Range left) }
    requires right { Owns (seen arena.now) (value.Range right) }
    ensures { Meets as_is result (state_in (seen arena.now) steps.new) (equal_by (inside_at at.levels at.place) at.place (value_of (seen arena.now) (value.Range left)) (value_of (seen arena.now) (value.Range right)) (state_in (seen arena.now) steps.old)) }
{
    if at.levels == 0 {
        return Err(refusal(arena, FaultKind::TooDeep, at.place));
    }
    let first = bounds(arena, left);
    let second = bounds(arena, right);
    numbers_equal(arena, at.place, first, second, steps)
}

/// Whether there are as many numbers of two ranges, and each is the same: 1 for each pair up to the first difference.
fn numbers_equal(arena: &Arena, place: Place, left: Bounds, right: Bounds, steps: &mut u64) -> Told
    ensures { (levels : ℕ) → Meets as_is result (state_in (seen arena.now) steps.new) (equal_members (alike levels place) place (numbers_from left) (numbers_from right) (state_in (seen arena.now) steps.old)) }
{
    let count = range_count(left.0, left.1, left.2);
    if count != range_count(right.0, right.1, right.2) {
        return Ok(false);
    }
    for number in 0..count {
        pay(arena, place, 1, steps)?;
        if number_at(left.0, left.2, number) != number_at(right.0, right.2, number) {
            return Ok(false);
        }
    }
    Ok(true)
}

/// The fields of a struct.
pub fn fields(arena: &Arena, r: Ref) -> &[NamedValue]
    requires { Owns (seen arena.now) (value.Struct r) }
    ensures fields { struct_in (get_or (seen arena.now).held r.at none_value) ≡ fields_in (seen arena.now).held result.now }
    ensures owns { OwnsFields (seen arena.now) result.now }
{
    match arena.shape(r) {
        Shape::Struct(fields) => fields.as_slice(),
        _ => unreachable!(),
    }
}

/// The bounds of a range.
pub fn bounds(arena: &Arena, r: Ref) -> Bounds
    requires { Owns (seen arena.now) (value.Range r) }
    ensures { value_of (seen arena.now) (value.Range r) ≡ range_value result.0 result.1 result.2 }
{
    match arena.shape(r) {
        Shape::Range(from, to, step) => (from, to, step),
        _ => unreachable!(),
    }
}
