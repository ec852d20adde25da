// Operators of two integers.
ghost use Rattle.std.specs.Prelude.{◌≡◌, ◌^◌, ◌≤◌, false, neg_ℤ, pos, FitsSigned, ℤ};
ghost use Rattle.std.specs.Int.{w128};
ghost use Rattle.std.specs.Option.{SomeIff};
ghost use Rattle.value_spec.specs.Numbers.{complement, floor_quotient, floor_remainder, is_zero, shifted_left, shifted_right};
ghost use Rattle.star_integers.specs.Answers.{answer_of, fitting, integer_answer};
ghost use Rattle.star_integers.specs.declared.operators.IntegerOp.TheVariants as integer;

use crate::operators::IntegerOp;
use ytt_base::fault::FaultKind;

/// What an operator gives for two integers, or why it gives nothing: `IntOverflow`, `DivideZero` where the
/// right is 0, and `ValueKind` for a shift by a negative number of places.
pub fn between(op: IntegerOp, left: i128, right: i128) -> Result<i128, FaultKind>
    ensures { answer_of result ≡ integer_answer op left right }
{
    match op {
        IntegerOp::Add => fitting(left.checked_add(right)),
        IntegerOp::Subtract => fitting(left.checked_sub(right)),
        IntegerOp::Multiply => fitting(left.checked_mul(right)),
        IntegerOp::FloorDivide => quotient(left, right),
        IntegerOp::Remainder => remainder(left, right),
        IntegerOp::BitAnd => Ok(left & right),
        IntegerOp::BitOr => Ok(left | right),
        IntegerOp::BitXor => Ok(left ^ right),
        IntegerOp::ShiftLeft => shift_left(left, right),
        IntegerOp::ShiftRight => shift_right(left, right),
    }
}

/// The number with its sign turned, or `IntOverflow`.
pub fn negated(number: i128) -> Result<i128, FaultKind>
    ensures { answer_of result ≡ fitting (neg_ℤ number) }
{
    fitting(number.checked_neg())
}

/// The number with each bit turned.
pub fn turned(number: i128) -> i128
    ensures { result ≡ complement number }
{
    -1 - number
}

/// A computed number, or `IntOverflow` where it has more than 128 bits.
fn fitting(number: Option<i128>) -> Result<i128, FaultKind>
    ensures { (z : ℤ) → SomeIff number (FitsSigned w128 z) z → answer_of result ≡ fitting z }
{
    match number {
        Some(number) => Ok(number),
        None => Err(FaultKind::IntOverflow),
    }
}

fn quotient(dividend: i128, divisor: i128) -> Result<i128, FaultKind>
    ensures { answer_of result ≡ integer_answer integer.FloorDivide dividend divisor }
{
    if divisor == 0 {
        return Err(FaultKind::DivideZero);
    }
    fitting(floor_divide(dividend, divisor))
}

fn remainder(dividend: i128, divisor: i128) -> Result<i128, FaultKind>
    ensures { answer_of result ≡ integer_answer integer.Remainder dividend divisor }
{
    if divisor == 0 {
        return Err(FaultKind::DivideZero);
    }
    Ok(floor_rest(dividend, divisor))
}

fn shift_left(number: i128, places: i128) -> Result<i128, FaultKind>
    ensures { answer_of result ≡ integer_answer integer.ShiftLeft number places }
{
    if places < 0 {
        return Err(FaultKind::ValueKind);
    }
    fitting(doubled(number, places as u128))
}

fn shift_right(number: i128, places: i128) -> Result<i128, FaultKind>
    ensures { answer_of result ≡ integer_answer integer.ShiftRight number places }
{
    if places < 0 {
        return Err(FaultKind::ValueKind);
    }
    Ok(halved(number, places as u128))
}

/// The quotient rounded down, or `None` where it has more than 128 bits.
fn floor_divide(dividend: i128, divisor: i128) -> Option<i128>
    requires { is_zero divisor ≡ false }
    ensures { SomeIff result (FitsSigned w128 (floor_quotient dividend divisor)) (floor_quotient dividend divisor) }
{
    let quotient = dividend.checked_div_euclid(divisor)?;
    if divisor < 0 && dividend.rem_euclid(divisor) != 0 {
        Some(quotient - 1)
    } else {
        Some(quotient)
    }
}

/// What the quotient leaves, which has the divisor's sign.
fn floor_rest(dividend: i128, divisor: i128) -> i128
    requires { is_zero divisor ≡ false }
    ensures fits { FitsSigned w128 (floor_remainder dividend divisor) }
    ensures value { result ≡ floor_remainder dividend divisor }
{
    if divisor == -1 {
        return 0;
    }
    let rest = dividend.rem_euclid(divisor);
    if divisor < 0 && rest != 0 {
        rest + divisor
    } else {
        rest
    }
}

/// The number halved so many times, each half rounded down.
fn halved(number: i128, places: u128) -> i128
    ensures fits { FitsSigned w128 (shifted_right number places) }
    ensures value { result ≡ shifted_right number places }
{
    if places >= 127 {
        if number < 0 { -1 } else { 0 }
    } else {
        number >> places as u32
    }
}

/// The number doubled so many times, or `None` where it has more than 128 bits.
fn doubled(number: i128, places: u128) -> Option<i128>
    ensures { SomeIff result (FitsSigned w128 (shifted_left number places)) (shifted_left number places) }
{
    if number == 0 {
        return Some(0);
    }
    if places >= 128 {
        return None;
    }
    let places = places as u32;
    let part = times_power(number, places / 2)?;
    times_power(part, places - places / 2)
}

fn times_power(number: i128, places: u32) -> Option<i128>
    requires { places ≤ 64 }
    ensures { SomeIff result (FitsSigned w128 (shifted_left number places)) (shifted_left number places) }
{
    number.checked_mul(power(places))
}

/// 2 to so many.
fn power(places: u32) -> i128
    requires { places ≤ 64 }
    ensures { result ≡ pos (2 ^ places) }
{
    1 << places
}
