// What stands under a key.
ghost use Rattle.index_spec.specs.Index.{absent_field};
ghost use Rattle.star_steps.specs.Names.{field_of, index_row, key_offence, max_depth, missing, other_key, IsKeyWithin, seen, Owns, OwnsFields, fields_in, value_of, Gives, state_in};
ghost use Rattle.star_values.specs.declared.value.Value.TheVariants as value;
ghost use Rattle.star_index.specs.Cuts.{Refuses};

use crate::key_text::key_text;
use object_arena::{Arena, NamedValue, Ref, Shape, Value};
use star_compare::{field_under, key_offence, key_size, value_under};
use star_steps::{Given, refusal};
use ytt_base::fault::{Fault, FaultKind, Place, Stop};
use ytt_base::text::Memory;

/// The refusal of a key that isn't there, with the key's text.
pub fn missing(arena: &Arena, place: Place, key: Value) -> Stop
    requires owned { Owns (seen arena.now) key }
    requires key { IsKeyWithin 100 (value_of (seen arena.now) key) }
    ensures { Refuses result (missing place (value_of (seen arena.now) key)) }
{
    match key_text(arena, key) {
        Ok(detail) => Stop::Fault(Fault {
            kind: FaultKind::KeyMissing,
            place: Some(place),
            detail,
        }),
        Err(Memory) => Stop::Memory,
    }
}

/// The value of a key of a dict.
pub fn value_of_key(arena: &Arena, place: Place, dict: Ref, key: Value, steps: &mut u64) -> Given
    requires dict { Owns (seen arena.now) (value.Dict dict) }
    requires key { Owns (seen arena.now) key }
    ensures { Gives (index_row place (value_of (seen arena.now) (value.Dict dict)) (value_of (seen arena.now) key) (state_in (seen arena.now) steps.old)) result (seen arena.now) (seen arena.now) steps.new }
{
    key_size(arena, place, key, steps)?;
    match value_under(arena, dict, key) {
        Some(value) => Ok(value),
        None => Err(missing(arena, place, key)),
    }
}

/// The value of a name of a struct. A key takes no steps, of whatever kind and length it is.
pub fn field_of(arena: &Arena, place: Place, fields: Ref, key: Value, steps: &mut u64) -> Given
    requires fields { Owns (seen arena.now) (value.Struct fields) }
    requires key { Owns (seen arena.now) key }
    ensures { Gives (index_row place (value_of (seen arena.now) (value.Struct fields)) (value_of (seen arena.now) key) (state_in (seen arena.now) steps.old)) result (seen arena.now) (seen arena.now) steps.new }
{
    match arena.shape(fields) {
        Shape::Struct(named) => field_named(arena, place, named.as_slice(), key, steps),
        _ => unreachable!(),
    }
}

fn field_named(
    arena: &Arena,
    place: Place,
    fields: &[NamedValue],
    key: Value,
    steps: &mut u64,
) -> Given
    requires fields { OwnsFields (seen arena.now) fields.now }
    requires key { Owns (seen arena.now) key }
    ensures { Gives (field_of place (fields_in (seen arena.now).held fields.now) (value_of (seen arena.now) key) (state_in (seen arena.now) steps.old)) result (seen arena.now) (seen arena.now) steps.new }
{
    match key {
        Value::Text(name) => match field_under(fields, arena.text(name).as_str()) {
            Some(value) => Ok(value),
            None => Err(missing(arena, place, key)),
        },
        _ => Err(absent_field(arena, place, key)),
    }
}

/// The refusal of a key that is no text: the offence of a value that is no key, and else `KeyMissing`.
fn absent_field(arena: &Arena, place: Place, key: Value) -> Stop
    requires { Owns (seen arena.now) key }
    ensures { Refuses result (absent_field place (value_of (seen arena.now) key) (key_offence max_depth (value_of (seen arena.now) key))) }
{
    match key_offence(arena, key) {
        Some(offence) => refusal(arena, offence, place),
        None => missing(arena, place, key),
    }
}

/// A key of another kind takes its size, and isn't there.
pub fn other_key(arena: &Arena, place: Place, key: Value, steps: &mut u64) -> Given
    requires { Owns (seen arena.now) key }
    ensures { Gives (other_key place (value_of (seen arena.now) key) (state_in (seen arena.now) steps.old)) result (seen arena.now) (seen arena.now) steps.new }
{
    key_size(arena, place, key, steps)?;
    Err(missing(arena, place, key))
}
