// The method `format`.
ghost use Rattle.std.specs.Prelude.{◌≡◌, false, ◌+◌, ◌^◌, ◌++◌, ◌<◌, ◌≤◌, ◌∷◌, ℕ, IfOk, MatchOption, length, string_bytes};
ghost use Rattle.star_steps.specs.Names.{Meets, Owns, OwnsAll, seen, slice_get, state_in, values_of};
ghost use Rattle.star_values.specs.Owns.{OwnsArguments, OwnsFields, OwnsOption};
ghost use Rattle.star_values.specs.View.{View, fields_in, option_in};
ghost use Rattle.star_values.specs.declared.value.Value.TheVariants as value;
ghost use Rattle.text_spec.specs.Fields.{at_place, begins, format, none_met, values_of_fields};
ghost use Rattle.text_spec.specs.Fields as fields;
ghost use Rattle.value_spec.specs.Binding.{field_of};
ghost use Rattle.value_spec.specs.Outcomes.{fail_with};
ghost use Rattle.ytt_base.specs.declared.fault.FaultKind.TheVariants as kind;
ghost use Rattle.star_text.specs.ByName.{HasFirstIfAny};
ghost use Rattle.star_text.specs.Calls.{FieldsGoOn, Fills, FillsField, Finds, FindsFor, GivesWith, MeetsFrom, formatted_once};
ghost use Rattle.star_text.specs.Formatting.{HasNoBrace, IsCut, IsPlace, brace, formatted_here, met_in, value_and_met};

use crate::by_name::ByName;
use crate::costs::pay_operation;
use crate::fields::{Which, field_in};
use crate::percent::{Filled, first_ascii, push_converted};
use memchr::memchr2;
use object_arena::{Arena, CallArgs, Ref, Value, Values};
use star_calls::has_twice;
use star_index::append;
use star_steps::{Given, refusal};
use star_values::{NamedValue, value_at};
use std::alloc::Global;
use ytt_base::fault::{Fault, FaultKind, Place, Stop};
use ytt_base::text::{Memory, Text};

/// Which kinds of fields were met: none so far, so many by turn, or those by number.
#[derive(Clone, Copy)]
pub(crate) enum Met {
    Nothing,
    ByTurn(usize),
    ByNumber,
}

// ---- the argument of a field

/// The first value of this name, if there is one.
pub fn named_value(named: &[NamedValue], name: &str) -> Option<Value>
    ensures value { (a : View) → option_in a.held result ≡ field_of name.now (fields_in a.held named.now) }
    ensures owned { (a : View) → OwnsFields a named.now → OwnsOption a result }
{
    let mut rest = named;
    while let Some((field, more)) = rest.split_first() {
        if name == field.name.as_str() {
            return Some(field.value);
        }
        rest = more;
    }
    None
}

/// The argument of a number, if there is one.
fn numbered_value(values: &[Value], at: Option<usize>) -> Option<Value>
    ensures value { (k : ℕ) → IsPlace at k → result ≡ slice_get values.now k }
    ensures owned { (a : View) → OwnsAll a values.now → OwnsOption a result }
    ensures below { MatchOption result (Unit {0}) (λ v. MatchOption at ⊥ (λ k. k + 1 < 2 ^ 64)) }
{
    // No slice has so many members that a place past every number is among them.
    let _count = values.len();
    match at {
        None => None,
        Some(at) => value_at(values, at),
    }
}

/// The refusal of a name that no argument has.
fn missing(alloc: Global, place: Place, name: &str) -> Result<(Value, Met), Stop>
    ensures refused { (a : View) (n : ℕ) → Meets (value_and_met a) result (state_in a n) (fail_with kind.KeyMissing place name.now (state_in a n)) }
    ensures none { IfOk result (λ q. ⊥) }
{
    let detail = Text::of(alloc, name)?;
    Err(Stop::Fault(Fault {
        kind: FaultKind::KeyMissing,
        place: Some(place),
        detail,
    }))
}

/// The argument of a number, and which kinds of fields were met then.
fn by_number(
    arena: &Arena,
    place: Place,
    values: &[Value],
    at: Option<usize>,
    met: Met,
) -> Result<(Value, Met), Stop>
    requires { OwnsAll (seen arena.now) values.now }
    ensures found { (k : ℕ) → IsPlace at k → Finds (seen arena.now) result (at_place place k (met_in met) (values_of (seen arena.now) values.now)) }
    ensures owned { IfOk result (λ q. Owns (seen arena.now) q.0) }
{
    match numbered_value(values, at) {
        None => Err(refusal(arena, FaultKind::IndexRange, place)),
        Some(value) => Ok((value, met)),
    }
}

/// The argument that fills a field, and which kinds of fields were met then.
fn argument_for(
    arena: &Arena,
    place: Place,
    args: &ByName<'_>,
    met: Met,
    which: Which<'_>,
) -> Result<(Value, Met), Stop>
    requires args { OwnsArguments (seen arena.now) args.now.given.now }
    requires first { HasFirstIfAny args.now.values args.now.given.now.named }
    ensures found { FindsFor (seen arena.now) place args.now.given.now met which.entry result }
    ensures owned { IfOk result (λ q. Owns (seen arena.now) q.0) }
{
    let values = args.given.positional.as_slice();
    match (which, met) {
        (Which::Next, Met::Nothing) => by_number(arena, place, values, Some(0), Met::ByTurn(1)),
        (Which::Next, Met::ByTurn(turn)) => by_turn(arena, place, values, turn),
        (Which::Numbered(at), Met::Nothing) => by_number(arena, place, values, at, Met::ByNumber),
        (Which::Numbered(at), Met::ByNumber) => by_number(arena, place, values, at, Met::ByNumber),
        (Which::Named(name), _) => match args.value(name) {
            None => missing(arena.alloc(), place, name),
            Some(value) => Ok((value, met)),
        },
        _ => Err(refusal(arena, FaultKind::ValueKind, place)),
    }
}

/// The argument of the next turn.
fn by_turn(arena: &Arena, place: Place, values: &[Value], turn: usize) -> Result<(Value, Met), Stop>
    requires { OwnsAll (seen arena.now) values.now }
    ensures found { Finds (seen arena.now) result (at_place place turn (fields.by_turn (turn + 1)) (values_of (seen arena.now) values.now)) }
    ensures owned { IfOk result (λ q. Owns (seen arena.now) q.0) }
{
    match numbered_value(values, Some(turn)) {
        None => Err(refusal(arena, FaultKind::IndexRange, place)),
        Some(value) => Ok((value, Met::ByTurn(turn + 1))),
    }
}

// ---- the text

/// Puts what a field shows behind what was made, and tells which kinds of fields were met then.
fn fill_field(
    arena: &Arena,
    place: Place,
    field: &str,
    args: &ByName<'_>,
    met: Met,
    made: &mut String,
    steps: &mut u64,
) -> Result<Met, Stop>
    requires args { OwnsArguments (seen arena.now) args.now.given.now }
    requires first { HasFirstIfAny args.now.values args.now.given.now.named }
    ensures { FillsField (seen arena.now) place args.now.given.now met (fields.field_in field.now) result made.old made.new steps.old steps.new }
{
    let (which, conversion) = field_in(field);
    match conversion {
        None => Err(refusal(arena, FaultKind::ValueKind, place)),
        Some(conversion) => {
            let (value, met) = argument_for(arena, place, args, met, which)?;
            push_converted(arena, place, conversion, value, made, steps)?;
            Ok(met)
        }
    }
}

/// The text before the first brace, whether that opens, and the text behind it.
fn next_brace(text: &str) -> Option<(&str, bool, &str)>
    ensures { MatchOption result (HasNoBrace text.now) (λ q. IsCut text.now q.0.now q.1 q.2.now) }
{
    match memchr2(b'{', b'}', text.as_bytes()) {
        None => None,
        Some(at) => {
            let opens = text.as_bytes()[at] == b'{';
            Some((&text[..at], opens, &text[at + 1..]))
        }
    }
}

/// The text behind a brace of this kind, if it begins with one.
fn behind_brace(opens: bool, text: &str) -> Option<&str>
    ensures { MatchOption result (begins (brace opens) text.now ≡ false) (λ more. text.now ≡ brace opens ∷ more.now) }
{
    match first_ascii(text) {
        None => None,
        Some((byte, more)) => {
            if byte == (if opens { b'{' } else { b'}' }) {
                Some(more)
            } else {
                None
            }
        }
    }
}

/// Fills the field that a brace opens, and gives the text behind it and which kinds of fields were met then.
fn fill_opened<'t>(
    arena: &Arena,
    place: Place,
    text: &'t str,
    args: &ByName<'_>,
    met: Met,
    made: &mut String,
    steps: &mut u64,
) -> Result<(&'t str, Met), Stop>
    requires args { OwnsArguments (seen arena.now) args.now.given.now }
    requires first { HasFirstIfAny args.now.values args.now.given.now.named }
    requires single { begins 123 text.now ≡ false }
    ensures goes { FieldsGoOn (seen arena.now) place args.now.given.now met (123 ∷ text.now) result made.old made.new steps.old steps.new }
    ensures shorter { IfOk result (λ q. length q.0.now ≤ length text.now) }
{
    match text.split_once('}') {
        None => Err(refusal(arena, FaultKind::ValueKind, place)),
        Some((field, more)) => {
            let met = fill_field(arena, place, field, args, met, made, steps)?;
            Ok((more, met))
        }
    }
}

/// Puts what a brace means behind what was made, and gives the text behind that and which kinds of fields were met then.
fn fill_brace<'t>(
    arena: &Arena,
    place: Place,
    opens: bool,
    text: &'t str,
    args: &ByName<'_>,
    met: Met,
    made: &mut String,
    steps: &mut u64,
) -> Result<(&'t str, Met), Stop>
    requires args { OwnsArguments (seen arena.now) args.now.given.now }
    requires first { HasFirstIfAny args.now.values args.now.given.now.named }
    ensures goes { FieldsGoOn (seen arena.now) place args.now.given.now met (brace opens ∷ text.now) result made.old made.new steps.old steps.new }
    ensures shorter { IfOk result (λ q. length q.0.now ≤ length text.now) }
{
    match behind_brace(opens, text) {
        Some(more) => {
            append(made, if opens { "{" } else { "}" })?;
            Ok((more, met))
        }
        None => {
            if opens {
                fill_opened(arena, place, text, args, met, made, steps)
            } else {
                Err(refusal(arena, FaultKind::ValueKind, place))
            }
        }
    }
}

/// Puts the text, with its fields filled, behind what was made.
fn fill(
    arena: &Arena,
    place: Place,
    text: &str,
    args: &ByName<'_>,
    made: &mut String,
    steps: &mut u64,
) -> Filled
    requires args { OwnsArguments (seen arena.now) args.now.given.now }
    requires first { HasFirstIfAny args.now.values args.now.given.now.named }
    ensures { Fills (seen arena.now) result (formatted_here (seen arena.now) place args.now.given.now none_met text.now) made.old made.new steps.old steps.new }
{
    let mut rest = text;
    let mut met = Met::Nothing;
    while let Some((before, opens, behind)) = next_brace(rest) {
        append(made, before)?;
        let (more, next) = fill_brace(arena, place, opens, behind, args, met, made, steps)?;
        rest = more;
        met = next;
    }
    append(made, rest)?;
    Ok(())
}

// ---- the method

/// The arguments by position, and behind them those by name.
fn all_values(args: CallArgs) -> Result<Values, Memory>
    ensures values { (a : View) → IfOk result (λ vs. values_of a vs ≡ values_of a args.positional ++ values_of_fields (fields_in a.held args.named)) }
    ensures owned { (a : View) → OwnsArguments a args → IfOk result (OwnsAll a) }
{
    let CallArgs { positional, named } = args;
    let mut values = positional;
    let mut rest = named.as_slice();
    while let Some((first, more)) = rest.split_first() {
        values.push(first.value)?;
        rest = more;
    }
    Ok(values)
}

/// The text with its fields filled.
fn formatted(
    arena: &Arena,
    place: Place,
    text: &str,
    args: &CallArgs,
    steps: &mut u64,
) -> Result<String, Stop>
    requires { OwnsArguments (seen arena.now) args.now }
    ensures { MeetsFrom (seen arena.now) string_bytes result (formatted_once (seen arena.now) place args.now text.now) steps.old steps.new }
{
    let twice = has_twice(arena.alloc(), args.named.as_slice())?;
    if twice {
        return Err(refusal(arena, FaultKind::ArgBind, place));
    }
    let args = ByName::of(arena.alloc(), args)?;
    let mut made = String::new(arena.alloc());
    fill(arena, place, text, &args, &mut made, steps)?;
    Ok(made)
}

/// A text with each field in braces filled by an argument: by turn, by number or by name. A name that is given twice is `ArgBind`
/// before anything else. Other faults come in the text's order: `ValueKind` of a brace that stands alone, of a field in no proper form,
/// and where fields by turn and by number stand in one text; `IndexRange` and `KeyMissing` (with the name) of an argument that there
/// isn't; `TooDeep` and `Steps` of a value that is shown. Each stands at the place.
pub(crate) fn format(
    arena: &mut Arena,
    place: Place,
    text: Ref,
    args: CallArgs,
    steps: &mut u64,
) -> Given
    requires text { Owns (seen arena.old) (value.Text text) }
    requires args { OwnsArguments (seen arena.old) args }
    ensures { GivesWith (value.Text text) (format place) args result (seen arena.old) (seen arena.new) steps.old steps.new }
{
    let made = formatted(arena, place, arena.text(text).as_str(), &args, steps)?;
    let values = all_values(args)?;
    let bytes = Some(made.len() as u128);
    pay_operation(
        arena,
        place,
        Value::Text(text),
        values.as_slice(),
        bytes,
        Some(0),
        steps,
    )?;
    Ok(arena.new_text(Text::of_string(made))?)
}
