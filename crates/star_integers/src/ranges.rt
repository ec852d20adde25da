// The numbers of ranges, which are never made as a list.
ghost use Rattle.std.specs.Prelude.{◌≡◌, ◌+ℤ◌, ◌*ℤ◌, pos, FitsSigned};
ghost use Rattle.std.specs.Int.{w128};
ghost use Rattle.value_spec.specs.Numbers.{progression, range_count};
ghost use Rattle.operator_spec.specs.Operators.{is_one_of};

/// How many numbers there are from `start` on and before `stop`, by steps of `step`. By steps of 0 there are none.
pub fn range_count(start: i128, stop: i128, step: i128) -> u128
    ensures { result ≡ range_count start stop step }
{
    if step > 0 && start < stop {
        (stop.abs_diff(start) - 1) / step.unsigned_abs() + 1
    } else if step < 0 && stop < start {
        (start.abs_diff(stop) - 1) / step.unsigned_abs() + 1
    } else {
        0
    }
}

/// The number at a place from `start` on.
pub fn number_at(start: i128, step: i128, place: u128) -> i128
    requires { FitsSigned w128 (start +ℤ (pos place *ℤ step)) }
    ensures { result ≡ start +ℤ (pos place *ℤ step) }
{
    start.wrapping_add(place.cast_signed().wrapping_mul(step))
}

/// Whether a number is one of a range's.
pub fn in_range(start: i128, stop: i128, step: i128, number: i128) -> bool
    ensures { result ≡ is_one_of number (progression (range_count start stop step) start step) }
{
    if step > 0 {
        start <= number && number < stop && number.abs_diff(start) % step.unsigned_abs() == 0
    } else if step < 0 {
        stop < number && number <= start && start.abs_diff(number) % step.unsigned_abs() == 0
    } else {
        false
    }
}
