// `in`.
ghost use Rattle.std.specs.Prelude.{◌≡◌};
ghost use Rattle.star_steps.specs.Names.{int_value, contained_in, is_part, key_of_dict, part_of_text, seen, Owns, value_of, Meets, as_is, state_in};
ghost use Rattle.star_values.specs.declared.value.Value.TheVariants as value;

use object_arena::{Arena, Ref, Value};
use star_compare::{among, bounds, key_size, value_under};
use star_integers::{in_range, range_count};
use star_steps::{Told, pay, refusal, tuple_members};
use ytt_base::fault::{FaultKind, Place};

/// Whether a text is part of another, a key stands in a dict, an integer is one of a range's, or an equal value is among the members of a
/// tuple or list; else `ValueKind`.
pub fn is_in(arena: &Arena, place: Place, value: Value, whole: Value, steps: &mut u64) -> Told
    requires value { Owns (seen arena.now) value }
    requires whole { Owns (seen arena.now) whole }
    ensures { Meets as_is result (state_in (seen arena.now) steps.new) (contained_in place (value_of (seen arena.now) value) (value_of (seen arena.now) whole) (state_in (seen arena.now) steps.old)) }
{
    match (whole, value) {
        (Value::Text(text), Value::Text(part)) => {
            let bytes = arena.text(text).as_str();
            part_found(arena, place, arena.text(part).as_str(), bytes, steps)
        }
        (Value::Tuple(tuple), _) => among(arena, place, value, tuple_members(arena, tuple), steps),
        (Value::List(list), _) => among(arena, place, value, arena.list(list), steps),
        (Value::Dict(dict), _) => key_found(arena, place, value, dict, steps),
        (Value::Range(range), Value::Int(number)) => {
            number_found(arena, place, number, range, steps)
        }
        _ => Err(refusal(arena, FaultKind::ValueKind, place)),
    }
}

/// It takes a sixteenth of the bytes of both as steps.
fn part_found(arena: &Arena, place: Place, part: &str, whole: &str, steps: &mut u64) -> Told
    ensures { Meets as_is result (state_in (seen arena.now) steps.new) (part_of_text place part.now whole.now (state_in (seen arena.now) steps.old)) }
{
    let bytes = part.len() as u128 + whole.len() as u128;
    pay(arena, place, bytes / 16, steps)?;
    Ok(has_part(whole, part))
}

fn has_part(whole: &str, part: &str) -> bool
    ensures { result ≡ is_part part.now whole.now }
{
    whole.contains(part)
}

/// It takes the key's size as steps.
fn key_found(arena: &Arena, place: Place, key: Value, dict: Ref, steps: &mut u64) -> Told
    requires key { Owns (seen arena.now) key }
    requires dict { Owns (seen arena.now) (value.Dict dict) }
    ensures { Meets as_is result (state_in (seen arena.now) steps.new) (key_of_dict place (value_of (seen arena.now) key) dict.at (state_in (seen arena.now) steps.old)) }
{
    key_size(arena, place, key, steps)?;
    Ok(value_under(arena, dict, key).is_some())
}

/// It takes the range's numbers as steps.
fn number_found(arena: &Arena, place: Place, number: i128, range: Ref, steps: &mut u64) -> Told
    requires { Owns (seen arena.now) (value.Range range) }
    ensures { Meets as_is result (state_in (seen arena.now) steps.new) (contained_in place (int_value number) (value_of (seen arena.now) (value.Range range)) (state_in (seen arena.now) steps.old)) }
{
    let (from, to, step) = bounds(arena, range);
    pay(arena, place, range_count(from, to, step), steps)?;
    Ok(in_range(from, to, step, number))
}
