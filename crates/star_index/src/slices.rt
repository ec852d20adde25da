// Slices.
ghost use Rattle.std.specs.Prelude.{◌≡◌};
ghost use Rattle.star_steps.specs.Names.{IfOk, length, cut_row, members_cut, slice_row, seen, Owns, OwnsAll, value_of, values_of, Gives, Meets, as_is, state_in};
ghost use Rattle.star_values.specs.declared.value.Value.TheVariants as value;
ghost use Rattle.star_index.specs.Cuts.{AreAmong, bytes_paid, cut_in, members_paid, places_in};

use crate::places::{Places, cut_places, has_bounds};
use crate::texts::{Part, bytes_cut};
use object_arena::{Arena, Cut, Ref, Value, Values};
use star_steps::{Given, pay, refusal};
use std::alloc::Global;
use ytt_base::fault::{FaultKind, Place, Stop};
use ytt_base::text::{Memory, Text};

/// What a slice of a text, a tuple or a list gives, each refusal at its place: `ValueKind` for other kinds, for a bound that is no
/// integer and for a step of 0; `Steps`; and `CutsCharacter`.
pub fn slice(arena: &mut Arena, place: Place, value: Value, cut: Cut, steps: &mut u64) -> Given
    requires value { Owns (seen arena.old) value }
    ensures { Gives (slice_row place (value_of (seen arena.old) value) (cut_in (seen arena.old).held cut) (state_in (seen arena.old) steps.old)) result (seen arena.old) (seen arena.new) steps.new }
{
    if !has_bounds(&cut) {
        return Err(refusal(arena, FaultKind::ValueKind, place));
    }
    match value {
        Value::Text(text) => text_slice(arena, place, text, &cut, steps),
        Value::Tuple(tuple) => tuple_slice(arena, place, tuple, &cut, steps),
        Value::List(list) => list_slice(arena, place, list, &cut, steps),
        _ => Err(refusal(arena, FaultKind::ValueKind, place)),
    }
}

fn text_slice(arena: &mut Arena, place: Place, text: Ref, cut: &Cut, steps: &mut u64) -> Given
    requires { Owns (seen arena.old) (value.Text text) }
    ensures { Gives (cut_row place (value_of (seen arena.old) (value.Text text)) (cut_in (seen arena.old).held cut.now) (state_in (seen arena.old) steps.old)) result (seen arena.old) (seen arena.new) steps.new }
{
    let bytes = bytes_slice(arena, place, arena.text(text).as_str(), cut, steps)?;
    Ok(arena.new_text(bytes)?)
}

/// The bytes of a slice, for the steps that it takes.
fn bytes_slice(arena: &Arena, place: Place, text: &str, cut: &Cut, steps: &mut u64) -> Part
    ensures { Meets as_is result (state_in (seen arena.now) steps.new) (bytes_paid place text.now (cut_in (seen arena.now).held cut.now) (state_in (seen arena.now) steps.old)) }
{
    let places = cut_places(text.len(), cut);
    pay(
        arena,
        place,
        (text.len() as u128 + places.count()) / 16,
        steps,
    )?;
    bytes_cut(arena, place, text, &places)
}

fn tuple_slice(arena: &mut Arena, place: Place, tuple: Ref, cut: &Cut, steps: &mut u64) -> Given
    requires { Owns (seen arena.old) (value.Tuple tuple) }
    ensures { Gives (cut_row place (value_of (seen arena.old) (value.Tuple tuple)) (cut_in (seen arena.old).held cut.now) (state_in (seen arena.old) steps.old)) result (seen arena.old) (seen arena.new) steps.new }
{
    let members = members_slice(arena, place, arena.tuple(tuple), cut, steps)?;
    Ok(arena.new_tuple(members.as_slice())?)
}

fn list_slice(arena: &mut Arena, place: Place, list: Ref, cut: &Cut, steps: &mut u64) -> Given
    requires { Owns (seen arena.old) (value.List list) }
    ensures { Gives (cut_row place (value_of (seen arena.old) (value.List list)) (cut_in (seen arena.old).held cut.now) (state_in (seen arena.old) steps.old)) result (seen arena.old) (seen arena.new) steps.new }
{
    let members = members_slice(arena, place, arena.list(list), cut, steps)?;
    Ok(arena.new_list(members.as_slice())?)
}

/// The members of a slice, for the steps that it takes.
fn members_slice(
    arena: &Arena,
    place: Place,
    members: &[Value],
    cut: &Cut,
    steps: &mut u64,
) -> Result<Values, Stop>
    requires { OwnsAll (seen arena.now) members.now }
    ensures meaning { Meets (values_of (seen arena.now)) result (state_in (seen arena.now) steps.new) (members_paid place (values_of (seen arena.now) members.now) (cut_in (seen arena.now).held cut.now) (state_in (seen arena.now) steps.old)) }
    ensures owns { IfOk result (OwnsAll (seen arena.now)) }
{
    let places = cut_places(members.len(), cut);
    pay(arena, place, members.len() as u128 + places.count(), steps)?;
    Ok(members_at(arena.alloc(), members, &places)?)
}

/// The members at the places of a slice.
fn members_at(alloc: Global, members: &[Value], places: &Places) -> Result<Values, Memory>
    requires { AreAmong (length members.now) (places_in places.now) }
    ensures { IfOk result (λ vs. vs ≡ members_cut members.now (places_in places.now)) }
{
    let mut cut = Values::new(alloc);
    for number in 0..places.count() {
        cut.push(members[places.at(number)])?;
    }
    Ok(cut)
}
