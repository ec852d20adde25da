// Steps, refusals, and the members of tuples.
ghost use Rattle.std.specs.Prelude.{◌≡◌};
ghost use Rattle.star_steps.specs.Names.{Meets, Owns, OwnsAll, as_is, equal_texts, fault_at, get_or, none_value, seen, state_in, stop_of, take_steps, values_in, values_of};
ghost use Rattle.star_values.specs.View.{members_in};
ghost use Rattle.star_values.specs.declared.value.Value.TheVariants as value;
ghost use Rattle.ytt_base.specs.declared.fault.Stop.TheVariants as stop;

use object_arena::{Arena, ArenaStop, Ref, Value};
use ytt_base::fault::{Fault, FaultKind, Place, Stop};
use ytt_base::text::Text;

/// The value that a call gave, or its refusal.
pub type Given = Result<Value, Stop>;

/// What a test told, or its refusal.
pub type Told = Result<bool, Stop>;

/// That steps were taken, or the refusal.
pub type Paid = Result<(), Stop>;

/// A place, and how many collections may stand in one another there.
#[derive(Clone, Copy)]
pub struct Depth {
    pub place: Place,
    pub levels: u32,
}

/// The refusal of this kind at a place, without a detail.
pub fn refusal(arena: &Arena, kind: FaultKind, place: Place) -> Stop
    ensures { result ≡ stop.Fault (fault_at kind place) }
{
    Stop::Fault(Fault {
        kind,
        place: Some(place),
        detail: Text::new(arena.alloc()),
    })
}

/// Takes so many steps at a place, or refuses with `Steps` where fewer are left, and takes none.
pub fn pay(arena: &Arena, place: Place, cost: u128, steps: &mut u64) -> Paid
    ensures { Meets as_is result (state_in (seen arena.now) steps.new) (take_steps cost place (state_in (seen arena.now) steps.old)) }
{
    if u128::from(*steps) < cost {
        return Err(refusal(arena, FaultKind::Steps, place));
    }
    *steps -= cost as u64;
    Ok(())
}

/// Whether two texts are the same. It takes a sixteenth of the shorter one's bytes as steps.
pub fn texts_equal(arena: &Arena, place: Place, left: &str, right: &str, steps: &mut u64) -> Told
    ensures { Meets as_is result (state_in (seen arena.now) steps.new) (equal_texts place left.now right.now (state_in (seen arena.now) steps.old)) }
{
    let shorter = (left.len() / 16).min(right.len() / 16);
    pay(arena, place, shorter as u128, steps)?;
    Ok(left == right)
}

/// The refusal of an arena's call, at a place.
pub fn stop_at(arena: &Arena, stop: ArenaStop, place: Place) -> Stop
    ensures { result ≡ stop_of place stop }
{
    match stop {
        ArenaStop::Frozen => refusal(arena, FaultKind::Frozen, place),
        ArenaStop::Iterating => refusal(arena, FaultKind::Iterating, place),
        ArenaStop::IndexRange => refusal(arena, FaultKind::IndexRange, place),
        ArenaStop::KeyMissing => refusal(arena, FaultKind::KeyMissing, place),
        ArenaStop::Memory => Stop::Memory,
    }
}

/// The members of a tuple.
pub fn tuple_members(arena: &Arena, tuple: Ref) -> &[Value]
    requires { Owns (seen arena.now) (value.Tuple tuple) }
    ensures members { values_in (members_in (get_or (seen arena.now).held tuple.at none_value)) ≡ values_of (seen arena.now) result.now }
    ensures owns { OwnsAll (seen arena.now) result.now }
{
    arena.tuple(tuple)
}
