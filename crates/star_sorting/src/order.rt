// Members in the order of their keys.
ghost use Rattle.std.specs.Prelude.{◌≡◌, IfOk, map as each, min, ℕ, true};
ghost use Rattle.std.specs.Ordering.{is_lt};
ghost use Rattle.builtin_spec.specs.Sorting.{beside, chosen, in_order};
ghost use Rattle.star_sorting.specs.Places.{earlier, pair_at, value_at};
ghost use Rattle.star_steps.specs.Names.{Gives, OwnsAll, seen, state_in, values_of};

use object_arena::{Arena, Value, Values};
use sqlite_items::Items;
use star_compare::order_of;
use star_steps::{Given, refusal};
use std::alloc::Global;
use std::cmp::Ordering;
use ytt_base::fault::{FaultKind, Place};
use ytt_base::text::Memory;

/// These members in the order of their keys, the greatest key first where it is wanted so. Where keys are the same, members stay in their
/// order.
pub fn in_order(
    arena: &Arena,
    descending: bool,
    members: &[Value],
    keys: &[Value],
) -> Result<Values, Memory>
    requires members { OwnsAll (seen arena.now) members.now }
    requires keys { OwnsAll (seen arena.now) keys.now }
    ensures values { IfOk result (λ vs. values_of (seen arena.now) vs ≡ in_order descending (seen arena.now).store (values_of (seen arena.now) members.now) (values_of (seen arena.now) keys.now)) }
    ensures owned { IfOk result (OwnsAll (seen arena.now)) }
{
    let mut places = places_of(arena, members, keys)?;
    places.sort_by(|left, right| key_order(arena, descending, keys, *left, *right))?;
    gathered(arena.alloc(), members, places.as_slice())
}

/// The first member in the order of their keys; where keys are the same, the first of their members. `ValueKind` where no member has a key.
#[tactic(auto, using(crate::proofs::Places::first_begins, crate::proofs::Places::first_stays, crate::proofs::Places::first_moves))]
pub(crate) fn first_alone(
    arena: &Arena,
    descending: bool,
    members: &[Value],
    keys: &[Value],
    at: Place,
) -> Given
    requires members { OwnsAll (seen arena.now) members.now }
    requires keys { OwnsAll (seen arena.now) keys.now }
    ensures { (n : ℕ) → Gives (chosen at true (in_order descending (seen arena.now).store (values_of (seen arena.now) members.now) (values_of (seen arena.now) keys.now)) (state_in (seen arena.now) n)) result (seen arena.now) (seen arena.now) n }
{
    let count = keys.len().min(members.len());
    if count == 0 {
        return Err(refusal(arena, FaultKind::ValueKind, at));
    }
    let mut place = count - 1;
    let mut first = place;
    while place > 0 {
        place -= 1;
        if !key_order(arena, descending, keys, first, place).is_lt() {
            first = place;
        }
    }
    Ok(value_or_none(members, first))
}

/// Which of the keys at two places comes first, the greater one where it is wanted so.
#[tactic(auto, using(crate::proofs::Places::owned_at, crate::proofs::Laws::told), unfolding(crate::specs::Places::earlier))]
fn key_order(arena: &Arena, descending: bool, keys: &[Value], left: usize, right: usize) -> Ordering
    requires { OwnsAll (seen arena.now) keys.now }
    ensures { is_lt result ≡ earlier descending (seen arena.now) keys.now left right }
{
    let first = value_or_none(keys, left);
    let second = value_or_none(keys, right);
    if descending {
        order_of(arena, second, first)
    } else {
        order_of(arena, first, second)
    }
}

/// The value at a place, or None past the end.
fn value_or_none(values: &[Value], place: usize) -> Value
    ensures { result ≡ value_at values.now place }
{
    match values.get(place) {
        Some(value) => *value,
        None => Value::None,
    }
}

/// The places of the members that have a key.
fn places_of(arena: &Arena, members: &[Value], keys: &[Value]) -> Result<Vec<usize>, Memory>
    ensures { IfOk result (λ ps. each (pair_at (seen arena.now) keys.now members.now) ps.items ≡ beside (values_of (seen arena.now) keys.now) (values_of (seen arena.now) members.now)) }
{
    let count = keys.len().min(members.len());
    let mut places = Vec::new(arena.alloc());
    let mut place = 0;
    while place < count {
        places.push(place)?;
        place += 1;
    }
    Ok(places)
}

/// The members at these places.
fn gathered(alloc: Global, members: &[Value], places: &[usize]) -> Result<Values, Memory>
    ensures { IfOk result (λ vs. vs ≡ each (value_at members.now) places.now) }
{
    let mut all = Items::new(alloc);
    let mut rest = places;
    while let [first, more @ ..] = rest {
        all.push(value_or_none(members, *first))?;
        rest = more;
    }
    Ok(all)
}
