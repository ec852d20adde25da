// The numbers of a range.
ghost use Rattle.std.specs.Prelude.{◌≡◌, ℕ, ◌<◌, pos, ◌+ℤ◌, ◌*ℤ◌, FitsSigned};
ghost use Rattle.std.specs.Int.{w128};
ghost use Rattle.value_spec.specs.Numbers.{range_count};

use star_integers::range_count;

/// The numbers of a range: the first, the one before which they end, their step, and how many they are.
#[derive(Drop)]
pub(crate) struct Numbers {
    pub from: i128,
    pub to: i128,
    pub step: i128,
    pub count: u128,
    ghost counted: { count ≡ range_count from to step },
    ghost within: { (i : ℕ) → i < count → FitsSigned w128 (from +ℤ (pos i *ℤ step)) },
}

impl Numbers {
    /// Those of a range.
    pub(crate) fn of(from: i128, to: i128, step: i128) -> Numbers
        ensures from { result.from ≡ from }
        ensures to { result.to ≡ to }
        ensures step { result.step ≡ step }
    {
        Numbers {
            from,
            to,
            step,
            count: range_count(from, to, step),
        }
    }
}
