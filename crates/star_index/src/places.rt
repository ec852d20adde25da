// Places among members: of an index, and of a slice.
ghost use Rattle.std.specs.Prelude.{◌≡◌, ◌^◌, ◌≤ℤ◌};
ghost use Rattle.star_steps.specs.Names.{pos, at_least_zero, place_among, bound_or, has_bounds, is_bound, place_count, places_of, step_in, View, value_of};
ghost use Rattle.star_index.specs.Cuts.{IsPlace, cut_in, place_at, places_in};

use object_arena::{Cut, Value};
use star_integers::{number_at, range_count};

/// A place among so many: from 0 on, or from the end where it is negative.
pub fn place_among(count: u128, index: i128) -> Option<u128>
    ensures { result ≡ place_among count index }
{
    if index >= 0 {
        let place = index as u128;
        return if place < count { Some(place) } else { None };
    }
    let from_end = !index as u128;
    if from_end < count {
        Some(count - 1 - from_end)
    } else {
        None
    }
}

/// The places of a slice: the first, the one before which they end, and the step.
#[derive(Clone, Copy)]
pub(crate) struct Places {
    pub first: i128,
    pub end: i128,
    pub step: i128,
}

impl Places {
    /// How many there are.
    pub fn count(&self) -> u128
        ensures { result ≡ place_count (places_in self.now) }
    {
        range_count(self.first, self.end, self.step)
    }

    /// The place after so many steps.
    pub fn at(&self, number: u128) -> usize
        requires { IsPlace (2 ^ 64) (place_at (places_in self.now) number) }
        ensures { result ≡ at_least_zero (place_at (places_in self.now) number) }
    {
        number_at(self.first, self.step, number) as usize
    }
}

/// Whether each part of a slice is absent or an integer, and the step isn't 0.
pub fn has_bounds(cut: &Cut) -> bool
    ensures { (a : View) → result ≡ has_bounds (cut_in a.held cut.now) }
{
    is_bound(cut.from) && is_bound(cut.to) && is_bound(cut.step) && step_of(cut) != 0
}

fn is_bound(value: Value) -> bool
    ensures { (a : View) → result ≡ is_bound (value_of a value) }
{
    matches!(value, Value::None | Value::Int(_))
}

fn step_of(cut: &Cut) -> i128
    ensures { (a : View) → result ≡ step_in (value_of a cut.now.step) }
{
    match cut.step {
        Value::Int(step) => step,
        _ => 1,
    }
}

/// The places of a slice of so many members.
pub fn cut_places(count: usize, cut: &Cut) -> Places
    ensures { (a : View) → places_in result ≡ places_of count (cut_in a.held cut.now) }
{
    let step = step_of(cut);
    let count = count as i128;
    if step < 0 {
        Places {
            first: bound_or(count - 1, -1, count - 1, count, cut.from),
            end: bound_or(-1, -1, count - 1, count, cut.to),
            step,
        }
    } else {
        Places {
            first: bound_or(0, 0, count, count, cut.from),
            end: bound_or(count, 0, count, count, cut.to),
            step,
        }
    }
}

/// A bound, which is counted from the end where it is negative and is no further down or up than this; or another where it is
/// absent.
fn bound_or(absent: i128, low: i128, high: i128, count: i128, bound: Value) -> i128
    requires { pos 0 ≤ℤ count }
    ensures { (a : View) → result ≡ bound_or absent low high (at_least_zero count) (value_of a bound) }
{
    match bound {
        Value::Int(number) => {
            let place = if number < 0 { number + count } else { number };
            if place < low {
                low
            } else if high < place {
                high
            } else {
                place
            }
        }
        _ => absent,
    }
}
