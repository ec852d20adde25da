// An integer from a text, from another integer or from a bool.
ghost use Rattle.std.specs.Int.{w128};
ghost use Rattle.std.specs.List.{list_all};
ghost use Rattle.std.specs.Option.{SomeIff};
ghost use Rattle.std.specs.Prelude.{◌≡◌, ◌≤◌, ◌<◌, ◌^◌, ◌+◌, ◌*◌, ℕ, FitsSigned, MatchOption, nat_lt, option_map};
ghost use Rattle.builtin_spec.specs.Builtins.{base_of, digit_of, digits_read, integer_read, integer_row, number_of, read_row};
ghost use Rattle.star_builtins.specs.Reading.{integer_told, signed};
ghost use Rattle.star_steps.specs.Names.{Gives, Owns, get_or, none_value, seen, state_in, value_of};
ghost use Rattle.star_values.specs.View.{View, text_in};
ghost use Rattle.star_values.specs.declared.value.Value.TheVariants as value;
ghost use Rattle.text_spec.specs.Classes.{is_all};

use object_arena::{Arena, Ref, Value};
use star_steps::{Given, refusal};
use star_text::pay_operation;
use ytt_base::fault::{FaultKind, Place};

/// An integer from a text in a base, which is 10 where none is given, or from an integer or a bool with none given; else `ValueKind`.
/// `IntOverflow` where it has more than 128 bits.
pub(crate) fn integer_of(
    arena: &Arena,
    steps: &mut u64,
    value: Value,
    given: bool,
    base: Value,
    at: Place,
) -> Given
    requires value { Owns (seen arena.now) value }
    ensures { Gives (integer_row at (value_of (seen arena.now) value) given (value_of (seen arena.now) base) (state_in (seen arena.now) steps.old)) result (seen arena.now) (seen arena.now) steps.new }
{
    match (value, given) {
        (Value::Text(text), true) => match base_of(base) {
            Some(base) => read(arena, steps, text, base, at),
            None => Err(refusal(arena, FaultKind::ValueKind, at)),
        },
        (Value::Text(text), false) => read(arena, steps, text, 10, at),
        (Value::Int(_), false) => Ok(value),
        (Value::Bool(truth), false) => Ok(Value::Int(i128::from(truth))),
        _ => Err(refusal(arena, FaultKind::ValueKind, at)),
    }
}

/// The base that a value is, if it is one.
fn base_of(base: Value) -> Option<u8>
    ensures value { (a : View) → result ≡ base_of (value_of a base) }
    ensures bounds { MatchOption result (Unit {0}) (λ n. 2 ≤ n × n ≤ 36) }
{
    match base {
        Value::Int(number) if number >= 2 && number <= 36 => Some(number as u8),
        _ => None,
    }
}

/// The integer that a text is in a base: digits behind a sign, or without one. The text's cost is taken first.
fn read(arena: &Arena, steps: &mut u64, text: Ref, base: u8, at: Place) -> Given
    requires text { Owns (seen arena.now) (value.Text text) }
    requires base { 2 ≤ base }
    ensures { Gives (read_row at base (text_in (get_or (seen arena.now).held text.at none_value)) (state_in (seen arena.now) steps.old)) result (seen arena.now) (seen arena.now) steps.new }
{
    pay_operation(arena, at, Value::Text(text), &[], Some(0), Some(0), steps)?;
    read_bytes(arena, arena.text(text).as_str().as_bytes(), base, at)
}

/// The same behind the cost: `ValueKind` of other bytes than digits behind a sign, `IntOverflow` past 128 bits.
fn read_bytes(arena: &Arena, text: &[u8], base: u8, at: Place) -> Given
    requires { 2 ≤ base }
    ensures { (n : ℕ) → Gives (integer_told at (integer_read base text.now) (state_in (seen arena.now) n)) result (seen arena.now) (seen arena.now) n }
{
    let (negative, digits) = split_sign(text);
    if !are_digits(base, digits) {
        return Err(refusal(arena, FaultKind::ValueKind, at));
    }
    match with_sign(negative, number_of(base, digits)) {
        Some(number) => Ok(Value::Int(number)),
        None => Err(refusal(arena, FaultKind::IntOverflow, at)),
    }
}

/// Whether a text begins with `-`, and what stands behind its sign, if it has one.
fn split_sign(text: &[u8]) -> (bool, &[u8])
    ensures { (base : ℕ) → integer_read base text.now ≡ option_map (signed result.0) (digits_read base result.1.now) }
{
    match text.split_first() {
        Some((b'-', digits)) => (true, digits),
        Some((b'+', digits)) => (false, digits),
        _ => (false, text),
    }
}

/// Whether there are bytes, and each is a digit of the base.
#[tactic(auto, using(crate::proofs::Reading::every_one))]
fn are_digits(base: u8, text: &[u8]) -> bool
    ensures { result ≡ is_all (λ b. nat_lt (digit_of b) base) text.now }
{
    match text {
        [] => false,
        bytes => has_all(base, bytes),
    }
}

/// Whether each byte is a digit of the base.
fn has_all(base: u8, bytes: &[u8]) -> bool
    ensures { result ≡ list_all (λ b. nat_lt (digit_of b) base) bytes.now }
{
    bytes.iter().all(|byte| digit_of(*byte) < base)
}

/// What a byte is as a digit; 36 where it is none.
#[tactic(auto, using(std::proofs::lemmas::Bool::Decides::nat_tests))]
fn digit_of(byte: u8) -> u8
    ensures { result ≡ digit_of byte }
{
    if byte.is_ascii_digit() {
        byte - b'0'
    } else if byte.is_ascii_alphabetic() {
        byte.to_ascii_lowercase() - 87
    } else {
        36
    }
}

/// The number of digits, or `None` where it is past 128 bits.
fn number_of(base: u8, digits: &[u8]) -> Option<u128>
    requires { 2 ≤ base }
    ensures { SomeIff result (number_of base 0 digits.now < 2 ^ 128) (number_of base 0 digits.now) }
{
    let mut number = Some(0);
    for byte in digits {
        number = with_digit(base, number, *byte);
    }
    number
}

/// A number with a digit more.
fn with_digit(base: u8, number: Option<u128>, byte: u8) -> Option<u128>
    requires { 2 ≤ base }
    ensures { (n : ℕ) → SomeIff number (n < 2 ^ 128) n → SomeIff result (n * base + digit_of byte < 2 ^ 128) (n * base + digit_of byte) }
{
    number?
        .checked_mul(u128::from(base))?
        .checked_add(u128::from(digit_of(byte)))
}

/// A number with its sign, or `None` where that has more than 128 bits.
fn with_sign(negative: bool, number: Option<u128>) -> Option<i128>
    ensures { (n : ℕ) → SomeIff number (n < 2 ^ 128) n → SomeIff result (FitsSigned w128 (signed negative n)) (signed negative n) }
{
    if negative {
        0i128.checked_sub_unsigned(number?)
    } else {
        0i128.checked_add_unsigned(number?)
    }
}
