// Calls that fail, and the rules that checks are made of.
ghost use Rattle.std.specs.Prelude.{◌≡◌, ◌∷◌, ℕ, IfOk, Some};
ghost use Rattle.ytt_base.specs.declared.fault.FaultKind.TheVariants as kind;
ghost use Rattle.ytt_base.specs.declared.fault.Stop.TheVariants as stop;
ghost use Rattle.module_spec.specs.Asserting.{checking, equals_row, rule_of_number, rule_of_value, unless_not};
ghost use Rattle.operator_spec.specs.Operators.{tuple_of};
ghost use Rattle.star_steps.specs.Names.{Gives, Owns, OwnsAll, seen, state_in, text_value, value_of, values_of};
ghost use Rattle.mod_basic.specs.View.{failing};
ghost use Rattle.mod_basic.specs.Walks.{Adds, Yields};

use crate::costs::pay_for;
use object_arena::{Answerer, Arena, NamedValue, Value, Values};
use sqlite_items::Items;
use star_compare::equal;
use star_steps::{Given, refusal};
use std::alloc::Global;
use ytt_base::fault::{Fault, FaultKind, Place, Stop};
use ytt_base::text::{Memory, Text};

/// The failure of an assertion at a place, with this text.
fn failure(place: Place, detail: Text) -> Stop
    ensures { result ≡ stop.Fault (record { kind = kind.AssertFailed; place = Some place; detail = detail }) }
{
    Stop::Fault(Fault {
        kind: FaultKind::AssertFailed,
        place: Some(place),
        detail,
    })
}

/// None where something holds, and else the failure of the call of this name.
pub(crate) fn unless_not(arena: &Arena, place: Place, name: &str, holds: bool) -> Given
    ensures { (n : ℕ) → Gives (unless_not place name.now holds (state_in (seen arena.now) n)) result (seen arena.now) (seen arena.now) n }
{
    if holds {
        return Ok(Value::None);
    }
    Err(failure(place, Text::of(arena.alloc(), name)?))
}

/// The failure with the text that a value is, for its cost; `ValueKind` where it is none.
pub(crate) fn fail(arena: &mut Arena, steps: &mut u64, value: Value, at: Place) -> Given
    requires { Owns (seen arena.old) value }
    ensures { Yields (failing at (value_of (seen arena.old) value)) result arena.old arena.new steps.old steps.new }
{
    match value {
        Value::Text(text) => {
            pay_for(arena, at, &[value], steps)?;
            Err(failure(at, arena.text(text).copy()?))
        }
        _ => Err(refusal(arena, FaultKind::ValueKind, at)),
    }
}

/// None where two values are equal, and else the failure.
pub(crate) fn equals(
    arena: &mut Arena,
    steps: &mut u64,
    left: Value,
    right: Value,
    at: Place,
) -> Given
    requires left { Owns (seen arena.old) left }
    requires right { Owns (seen arena.old) right }
    ensures { Yields (equals_row at (value_of (seen arena.old) left) (value_of (seen arena.old) right)) result arena.old arena.new steps.old steps.new }
{
    let same = equal(arena, at, left, right, steps)?;
    unless_not(arena, at, "equals", same)
}

// ---- rules

/// The check of a rule that is made of an integer, for its cost; `ValueKind` where it is none.
pub(crate) fn rule_of_number(
    arena: &mut Arena,
    steps: &mut u64,
    rule: &str,
    number: Value,
    at: Place,
) -> Given
    requires { Owns (seen arena.old) number }
    ensures { Yields (rule_of_number rule.now at (value_of (seen arena.old) number)) result arena.old arena.new steps.old steps.new }
{
    match number {
        Value::Int(_) => rule_of_value(arena, steps, rule, number, at),
        _ => Err(refusal(arena, FaultKind::ValueKind, at)),
    }
}

/// The check of a rule that is made of a value, for its cost.
pub(crate) fn rule_of_value(
    arena: &mut Arena,
    steps: &mut u64,
    rule: &str,
    value: Value,
    at: Place,
) -> Given
    requires { Owns (seen arena.old) value }
    ensures { Yields (rule_of_value rule.now at (value_of (seen arena.old) value)) result arena.old arena.new steps.old steps.new }
{
    pay_for(arena, at, &[value], steps)?;
    Ok(check_of(arena, rule, &[value])?)
}

/// A struct whose `check` holds a rule, which is made of these values.
pub(crate) fn check_of(arena: &mut Arena, rule: &str, of: &[Value]) -> Result<Value, Memory>
    requires { OwnsAll (seen arena.old) of.now }
    ensures { Adds (checking rule.now (values_of (seen arena.old) of.now)) result (seen arena.old) (seen arena.new) }
{
    let held = rule_held(arena, rule, of)?;
    let name = Text::of(arena.alloc(), "assert.check")?;
    let value = arena.new_native(Answerer::Host, name, Some(held))?;
    let name = Text::of(arena.alloc(), "check")?;
    let mut fields = Items::new(arena.alloc());
    fields.push(NamedValue { name, value })?;
    arena.new_struct(fields)
}

/// A tuple of a rule's name and what it is made of.
fn rule_held(arena: &mut Arena, rule: &str, of: &[Value]) -> Result<Value, Memory>
    requires { OwnsAll (seen arena.old) of.now }
    ensures { Adds (tuple_of (text_value rule.now ∷ values_of (seen arena.old) of.now)) result (seen arena.old) (seen arena.new) }
{
    let name = Text::of(arena.alloc(), rule)?;
    let name = arena.new_text(name)?;
    let parts = in_front(arena.alloc(), name, of)?;
    arena.new_tuple(parts.as_slice())
}

/// A value in front of others.
fn in_front(alloc: Global, first: Value, rest: &[Value]) -> Result<Values, Memory>
    ensures { IfOk result (λ vs. vs ≡ first ∷ rest.now) }
{
    let mut all = Items::from_slice(alloc, &[first])?;
    all.append(Items::from_slice(alloc, rest)?)?;
    Ok(all)
}
