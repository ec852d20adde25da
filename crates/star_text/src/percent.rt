// `%` with a text at the left.
ghost use Rattle.std.specs.Fmt.{digit_glyph, digits_onto};
ghost use Rattle.std.specs.Prelude.{◌≡◌, ◌<◌, ◌≤◌, ◌++◌, ◌∷◌, [], IfOk, MatchOption, OnOk, length, string_bytes};
ghost use Rattle.star_steps.specs.Names.{Owns, OwnsAll, seen, value_of, values_of};
ghost use Rattle.star_values.specs.declared.value.Value.TheVariants as value;
ghost use Rattle.text_spec.specs.Percent.{conversion_of, converted, filled, in_base, no_conversion, percent_row, values_for};
ghost use Rattle.star_text.specs.Calls.{ConversionGoesOn, ConversionsGoOn, Fills, GivesOf, MeetsFrom, RefusesOther};
ghost use Rattle.star_text.specs.Filling.{BeginsHigh, IsConversion, NoConversion, conversion_in, is_of_float, takes_value};

use crate::costs::pay_operation;
use object_arena::{Arena, Ref, Value, Work};
use star_index::{append, push_integer};
use star_shown::{push_repr, push_str};
use star_steps::{Given, refusal, tuple_members};
use ytt_base::fault::{FaultKind, Place, Stop};
use ytt_base::text::{Memory, Text};

/// A text was filled, or the refusal.
pub(crate) type Filled = Result<(), Stop>;

/// What stands behind a `%`: how a value is shown, `%` itself, or what is of floats.
#[derive(Clone, Copy)]
pub(crate) enum Conversion {
    Str,
    Repr,
    Decimal,
    Hexadecimal,
    Capitals,
    Octal,
    Percent,
    Float,
}

/// The text `on` with each conversion filled by the next of the members of a tuple, or by the one value. Faults come in the text's
/// order: `ValueKind` of a conversion that there isn't, of one without a value, of a value that is no integer, and of values that are
/// left, `FloatRefused` of `%e`, `%f` and `%g`, `TooDeep` and `Steps` of a value that is shown, each at the place.
pub fn text_percent(
    arena: &mut Arena,
    work: &mut Work,
    on: Value,
    operand: Value,
    at: Place,
) -> Given
    requires on { Owns (seen arena.old) on }
    requires operand { Owns (seen arena.old) operand }
    ensures row { GivesOf on (λ t. percent_row at t (value_of (seen arena.old) operand)) result (seen arena.old) (seen arena.new) work.old.steps work.new.steps }
    ensures other { RefusesOther on at result (seen arena.old) (seen arena.new) work.old.steps work.new.steps }
    ensures depth { work.new.depth ≡ work.old.depth }
{
    match on {
        Value::Text(text) => percent(arena, at, text, operand, &mut work.steps),
        _ => Err(refusal(arena, FaultKind::ValueKind, at)),
    }
}

/// What `text_percent` says, of a text that the arena holds.
fn percent(arena: &mut Arena, place: Place, text: Ref, operand: Value, steps: &mut u64) -> Given
    requires text { Owns (seen arena.old) (value.Text text) }
    requires operand { Owns (seen arena.old) operand }
    ensures { GivesOf (value.Text text) (λ t. percent_row place t (value_of (seen arena.old) operand)) result (seen arena.old) (seen arena.new) steps.old steps.new }
{
    let made = filled_by(arena, place, arena.text(text).as_str(), operand, steps)?;
    let bytes = Some(made.len() as u128);
    pay_operation(
        arena,
        place,
        Value::Text(text),
        &[operand],
        bytes,
        Some(0),
        steps,
    )?;
    Ok(arena.new_text(Text::of_string(made))?)
}

/// The text, filled by the members of a tuple, or by one value.
fn filled_by(
    arena: &Arena,
    place: Place,
    text: &str,
    operand: Value,
    steps: &mut u64,
) -> Result<String, Stop>
    requires { Owns (seen arena.now) operand }
    ensures { MeetsFrom (seen arena.now) string_bytes result (filled place text.now (values_for (value_of (seen arena.now) operand))) steps.old steps.new }
{
    match operand {
        Value::Tuple(tuple) => filled_with(arena, place, text, tuple_members(arena, tuple), steps),
        _ => filled_with(arena, place, text, &[operand], steps),
    }
}

/// The text, filled by these values.
fn filled_with(
    arena: &Arena,
    place: Place,
    text: &str,
    values: &[Value],
    steps: &mut u64,
) -> Result<String, Stop>
    requires { OwnsAll (seen arena.now) values.now }
    ensures { MeetsFrom (seen arena.now) string_bytes result (filled place text.now (values_of (seen arena.now) values.now)) steps.old steps.new }
{
    let mut made = String::new(arena.alloc());
    fill(arena, place, text, values, &mut made, steps)?;
    Ok(made)
}

/// Puts the text, filled by these values, behind what was made.
fn fill(
    arena: &Arena,
    place: Place,
    text: &str,
    values: &[Value],
    made: &mut String,
    steps: &mut u64,
) -> Filled
    requires { OwnsAll (seen arena.now) values.now }
    ensures { Fills (seen arena.now) result (filled place text.now (values_of (seen arena.now) values.now)) made.old made.new steps.old steps.new }
{
    let mut rest = text;
    let mut left = values;
    while let Some((before, behind)) = rest.split_once('%') {
        append(made, before)?;
        let (more, values) = convert(arena, place, behind, left, made, steps)?;
        rest = more;
        left = values;
    }
    if !left.is_empty() {
        return Err(refusal(arena, FaultKind::ValueKind, place));
    }
    append(made, rest)?;
    Ok(())
}

/// Puts what the conversion behind a `%` shows behind what was made, and gives the text behind it and the values that are left.
fn convert<'t, 'v>(
    arena: &Arena,
    place: Place,
    text: &'t str,
    values: &'v [Value],
    made: &mut String,
    steps: &mut u64,
) -> Result<(&'t str, &'v [Value]), Stop>
    requires { OwnsAll (seen arena.now) values.now }
    ensures goes { ConversionsGoOn (seen arena.now) place (37 ∷ text.now) values.now result made.old made.new steps.old steps.new }
    ensures owned { IfOk result (λ q. OwnsAll (seen arena.now) q.1.now) }
    ensures shorter { IfOk result (λ q. length q.0.now < length text.now) }
{
    match conversion_at(text) {
        None => Err(refusal(arena, FaultKind::ValueKind, place)),
        Some((conversion, more)) => {
            if takes_value(conversion) {
                let left = convert_next(arena, place, conversion, values, made, steps)?;
                return Ok((more, left));
            }
            if is_of_float(conversion) {
                return Err(refusal(arena, FaultKind::FloatRefused, place));
            }
            append(made, "%")?;
            Ok((more, values))
        }
    }
}

/// Whether a conversion is filled by a value.
fn takes_value(conversion: Conversion) -> bool
    ensures { result ≡ takes_value conversion }
{
    !matches!(conversion, Conversion::Percent | Conversion::Float)
}

fn is_of_float(conversion: Conversion) -> bool
    ensures { result ≡ is_of_float conversion }
{
    matches!(conversion, Conversion::Float)
}

/// Puts the next value behind what was made, as the conversion shows it, and gives those that are left.
fn convert_next<'v>(
    arena: &Arena,
    place: Place,
    conversion: Conversion,
    values: &'v [Value],
    made: &mut String,
    steps: &mut u64,
) -> Result<&'v [Value], Stop>
    requires { OwnsAll (seen arena.now) values.now }
    ensures goes { ConversionGoesOn (seen arena.now) place conversion values.now result made.old made.new steps.old steps.new }
    ensures owned { IfOk result (λ vs. OwnsAll (seen arena.now) vs.now) }
{
    match values.split_first() {
        None => Err(refusal(arena, FaultKind::ValueKind, place)),
        Some((first, left)) => {
            push_converted(arena, place, conversion, *first, made, steps)?;
            Ok(left)
        }
    }
}

/// The conversion that stands behind a `%`, if there is one, and the text behind it.
fn conversion_at(text: &str) -> Option<(Conversion, &str)>
    ensures { MatchOption result (NoConversion text.now) (λ found. IsConversion text.now found.0 found.1.now) }
{
    match first_ascii(text) {
        None => None,
        Some((byte, more)) => match conversion_of(byte) {
            None => None,
            Some(conversion) => Some((conversion, more)),
        },
    }
}

/// The first byte, if it is one of ASCII, and the text behind it.
pub(crate) fn first_ascii(text: &str) -> Option<(u8, &str)>
    ensures { MatchOption result (BeginsHigh text.now) (λ first. text.now ≡ first.0 ∷ first.1.now) }
{
    match text.as_bytes().first() {
        None => None,
        Some(byte) => {
            if *byte < 128 {
                Some((*byte, &text[1..]))
            } else {
                None
            }
        }
    }
}

/// The conversion of a letter.
fn conversion_of(byte: u8) -> Option<Conversion>
    ensures { MatchOption result (conversion_of byte ≡ no_conversion) (λ c. conversion_of byte ≡ conversion_in c) }
{
    match byte {
        b's' => Some(Conversion::Str),
        b'r' => Some(Conversion::Repr),
        b'd' => Some(Conversion::Decimal),
        b'x' => Some(Conversion::Hexadecimal),
        b'X' => Some(Conversion::Capitals),
        b'o' => Some(Conversion::Octal),
        b'%' => Some(Conversion::Percent),
        b'e' | b'f' | b'g' => Some(Conversion::Float),
        _ => None,
    }
}

/// Puts a value behind what was made, as the conversion shows it.
pub(crate) fn push_converted(
    arena: &Arena,
    place: Place,
    conversion: Conversion,
    value: Value,
    made: &mut String,
    steps: &mut u64,
) -> Filled
    requires { Owns (seen arena.now) value }
    ensures { Fills (seen arena.now) result (converted place (conversion_in conversion) (value_of (seen arena.now) value)) made.old made.new steps.old steps.new }
{
    match (conversion, value) {
        (Conversion::Str, _) => push_str(arena, place, value, made, steps),
        (Conversion::Repr, _) => push_repr(arena, place, value, made, steps),
        (Conversion::Decimal, Value::Int(number)) => Ok(push_integer(number, made)?),
        (Conversion::Hexadecimal, Value::Int(number)) => Ok(push_in_base(16, false, number, made)?),
        (Conversion::Capitals, Value::Int(number)) => Ok(push_in_base(16, true, number, made)?),
        (Conversion::Octal, Value::Int(number)) => Ok(push_in_base(8, false, number, made)?),
        _ => Err(refusal(arena, FaultKind::ValueKind, place)),
    }
}

/// An integer in a base, with a sign before it where it is negative.
fn push_in_base(base: u128, capitals: bool, number: i128, made: &mut String) -> Result<(), Memory>
    requires { 2 ≤ base × base ≤ 16 }
    ensures { OnOk result (string_bytes made.new ≡ string_bytes made.old ++ in_base base capitals number) }
{
    if number < 0 {
        append(made, "-")?;
    }
    push_digits(64, base, capitals, number.unsigned_abs(), made)
}

/// The last so many digits of a number.
fn push_digits(
    count: u32,
    base: u128,
    capitals: bool,
    number: u128,
    made: &mut String,
) -> Result<(), Memory>
    requires { 2 ≤ base × base ≤ 16 }
    ensures { OnOk result (string_bytes made.new ≡ string_bytes made.old ++ digits_onto count base capitals number []) }
{
    if count == 0 {
        return Ok(());
    }
    if number / base != 0 {
        push_digits(count - 1, base, capitals, number / base, made)?;
    }
    push_glyph(capitals, (number % base) as u8, made)
}

fn push_glyph(capitals: bool, digit: u8, made: &mut String) -> Result<(), Memory>
    requires { digit < 16 }
    ensures { OnOk result (string_bytes made.new ≡ string_bytes made.old ++ digit_glyph capitals digit ∷ []) }
{
    let glyph = if digit < 10 {
        b'0' + digit
    } else if capitals {
        b'A' - 10 + digit
    } else {
        b'a' - 10 + digit
    };
    Ok(made.push(glyph as char)?)
}
