// The texts of values, put behind what stands in a string.
ghost use Rattle.std.specs.Prelude.{◌≡◌, ◌++◌, codes, string_bytes};
ghost use Rattle.star_steps.specs.Names.{OnOk, body_paid, fragment_body, give, paid_by, range_count, seen, Owns, value_of, Meets, as_is, state_in};
ghost use Rattle.value_spec.specs.Built.{below};
ghost use Rattle.star_values.specs.declared.value.Value.TheVariants as value;
ghost use Rattle.text_spec.specs.Shown.{range_text, repr_of, step_text, str_of};
ghost use Rattle.star_fragments.specs.Fragments.{children_at, kind_at};
ghost use Rattle.star_shown.specs.Pushes.{OwnsMember, OwnsMembers, all_pushed, behind, member_pushed, more_pushed, pushed_within, pushes, showing};

use crate::members::{Member, Members, first_member};
use object_arena::{Arena, Ref, Shape, Value};
use star_compare::{Bounds, bounds, fields, name_of};
use star_fragments::pay_items;
use star_index::{Shown, append, closed, push_integer, push_quoted};
use star_integers::range_count;
use star_steps::{Depth, Paid, pay, refusal, tuple_members};
use ytt_base::fault::{FaultKind, Place};

/// How many collections may stand in one another.
const MAX_DEPTH: u32 = 100;

/// Puts the text that a value is by `repr` behind what is shown. It takes 1 step for each member, and for each number of a range,
/// and a sixteenth of the bytes of each text and name; where fewer are left it is `Steps`. More than 100 collections in one
/// another are `TooDeep`. After a fault nothing is said of what is shown.
pub fn push_repr(
    arena: &Arena,
    place: Place,
    value: Value,
    shown: &mut String,
    steps: &mut u64,
) -> Paid
    requires { Owns (seen arena.now) value }
    ensures { Meets (λ u. string_bytes shown.new) result (state_in (seen arena.now) steps.new) (behind (string_bytes shown.old) (repr_of place (value_of (seen arena.now) value)) (state_in (seen arena.now) steps.old)) }
{
    let levels = MAX_DEPTH;
    let at = Depth { place, levels };
    push_value(arena, at, value, shown, steps)
}

/// The same by `str`: a text is itself, for a sixteenth of its bytes as steps, and all else is as by `repr`.
pub fn push_str(
    arena: &Arena,
    place: Place,
    value: Value,
    shown: &mut String,
    steps: &mut u64,
) -> Paid
    requires { Owns (seen arena.now) value }
    ensures { Meets (λ u. string_bytes shown.new) result (state_in (seen arena.now) steps.new) (behind (string_bytes shown.old) (str_of place (value_of (seen arena.now) value)) (state_in (seen arena.now) steps.old)) }
{
    match value {
        Value::Text(text) => {
            let text = arena.text(text).as_str();
            pay(arena, place, text.len() as u128 / 16, steps)?;
            Ok(append(shown, text)?)
        }
        _ => push_repr(arena, place, value, shown, steps),
    }
}

/// The text by `repr`, where collections may nest so many levels.
#[cycle(shown)]
#[tactic(auto, unfolding(crate::specs::Pushes::showing))]
fn push_value(arena: &Arena, at: Depth, value: Value, shown: &mut String, steps: &mut u64) -> Paid
    requires { Owns (seen arena.now) value }
    ensures { Meets (λ u. string_bytes shown.new) result (state_in (seen arena.now) steps.new) (behind (string_bytes shown.old) (showing at.levels at.place (value_of (seen arena.now) value)) (state_in (seen arena.now) steps.old)) }
{
    match value {
        Value::None => Ok(append(shown, "None")?),
        Value::Bool(true) => Ok(append(shown, "True")?),
        Value::Bool(false) => Ok(append(shown, "False")?),
        Value::Int(number) => Ok(push_integer(number, shown)?),
        Value::Text(text) => {
            let text = arena.text(text).as_str();
            pay(arena, at.place, text.len() as u128 / 16, steps)?;
            Ok(push_quoted(text, shown)?)
        }
        Value::Range(range) => push_range(arena, at, bounds(arena, range), shown, steps),
        Value::Fragment(fragment) => {
            pay_fragment(arena, at, fragment, steps)?;
            Ok(append(shown, "<yamlfragment>")?)
        }
        Value::Func(function) => {
            let name = arena.function(function).name.as_str();
            Ok(push_named("<function ", name, shown)?)
        }
        Value::Module(module) => Ok(push_named("<module ", name_of(arena, module), shown)?),
        Value::Native(native) => Ok(push_named("<builtin ", name_of(arena, native), shown)?),
        Value::Tuple(tuple) => {
            let members = tuple_members(arena, tuple);
            let end = closed(members);
            push_within(arena, at, "(", Members::Values(members), end, shown, steps)
        }
        Value::List(list) => {
            let members = Members::Values(arena.list(list));
            push_within(arena, at, "[", members, "]", shown, steps)
        }
        Value::Dict(dict) => {
            let members = Members::Pairs(arena.pairs(dict));
            push_within(arena, at, "{", members, "}", shown, steps)
        }
        Value::Struct(r) => {
            let members = Members::Fields(fields(arena, r));
            push_within(arena, at, "struct(", members, ")", shown, steps)
        }
    }
}

/// What stands in a collection, between an opening and a closing.
#[cycle(shown)]
fn push_within(
    arena: &Arena,
    at: Depth,
    opening: &str,
    members: Members<'_>,
    closing: &str,
    shown: &mut String,
    steps: &mut u64,
) -> Paid
    requires { OwnsMembers (seen arena.now) members }
    ensures { Meets (λ u. string_bytes shown.new) result (state_in (seen arena.now) steps.new) (below at.place at.levels (λ n. pushed_within opening.now (pushes n at.place (seen arena.now).held members.entry) closing.now (string_bytes shown.old)) (state_in (seen arena.now) steps.old)) }
{
    if at.levels == 0 {
        return Err(refusal(arena, FaultKind::TooDeep, at.place));
    }
    let mut inside = at;
    inside.levels -= 1;
    append(shown, opening)?;
    push_members(arena, inside, members, shown, steps)?;
    Ok(append(shown, closing)?)
}

/// Members, with `, ` between them.
#[cycle(shown)]
fn push_members(
    arena: &Arena,
    at: Depth,
    members: Members<'_>,
    shown: &mut String,
    steps: &mut u64,
) -> Paid
    requires { OwnsMembers (seen arena.now) members }
    ensures { Meets (λ u. string_bytes shown.new) result (state_in (seen arena.now) steps.new) (all_pushed (pushes at.levels at.place (seen arena.now).held members.entry) (string_bytes shown.old) (state_in (seen arena.now) steps.old)) }
{
    match first_member(members) {
        None => Ok(()),
        Some((member, rest)) => {
            push_member(arena, at, member, shown, steps)?;
            push_more(arena, at, rest, shown, steps)
        }
    }
}

/// Members, with `, ` before each.
#[cycle(shown)]
fn push_more(
    arena: &Arena,
    at: Depth,
    members: Members<'_>,
    shown: &mut String,
    steps: &mut u64,
) -> Paid
    requires { OwnsMembers (seen arena.now) members }
    ensures { Meets (λ u. string_bytes shown.new) result (state_in (seen arena.now) steps.new) (more_pushed (pushes at.levels at.place (seen arena.now).held members.entry) (string_bytes shown.old) (state_in (seen arena.now) steps.old)) }
{
    let mut left = members;
    while let Some((member, rest)) = first_member(left) {
        append(shown, ", ")?;
        push_member(arena, at, member, shown, steps)?;
        left = rest;
    }
    Ok(())
}

/// A member, which takes a step. A field takes a sixteenth of its name's bytes too.
#[cycle(shown)]
fn push_member(
    arena: &Arena,
    at: Depth,
    member: Member<'_>,
    shown: &mut String,
    steps: &mut u64,
) -> Paid
    requires { OwnsMember (seen arena.now) member }
    ensures { Meets (λ u. string_bytes shown.new) result (state_in (seen arena.now) steps.new) (member_pushed at.levels at.place (seen arena.now).held member.entry (string_bytes shown.old) (state_in (seen arena.now) steps.old)) }
{
    pay(arena, at.place, 1, steps)?;
    match member {
        Member::Value(value) => push_value(arena, at, value, shown, steps),
        Member::Pair(key, value) => {
            push_value(arena, at, key, shown, steps)?;
            append(shown, ": ")?;
            push_value(arena, at, value, shown, steps)
        }
        Member::Field(field) => {
            let name = field.name.as_str();
            pay(arena, at.place, name.len() as u128 / 16, steps)?;
            append(shown, name)?;
            append(shown, " = ")?;
            push_value(arena, at, field.value, shown, steps)
        }
    }
}

/// A range by its bounds, which takes its count as steps.
fn push_range(arena: &Arena, at: Depth, bounds: Bounds, shown: &mut String, steps: &mut u64) -> Paid
    ensures { Meets (λ u. string_bytes shown.new) result (state_in (seen arena.now) steps.new) (below at.place at.levels (λ n. paid_by (range_count bounds.0 bounds.1 bounds.2) at.place (give (string_bytes shown.old ++ range_text bounds.0 bounds.1 bounds.2))) (state_in (seen arena.now) steps.old)) }
{
    if at.levels == 0 {
        return Err(refusal(arena, FaultKind::TooDeep, at.place));
    }
    let (from, to, step) = bounds;
    pay(arena, at.place, range_count(from, to, step), steps)?;
    Ok(push_bounds(from, to, step, shown)?)
}

/// The text of a range.
fn push_bounds(from: i128, to: i128, step: i128, shown: &mut String) -> Shown
    ensures { OnOk result (string_bytes shown.new ≡ string_bytes shown.old ++ range_text from to step) }
{
    append(shown, "range(")?;
    push_integer(from, shown)?;
    append(shown, ", ")?;
    push_integer(to, shown)?;
    push_step(step, shown)?;
    append(shown, ")")?;
    Ok(())
}

/// The step of a range, where it isn't 1.
fn push_step(step: i128, shown: &mut String) -> Shown
    ensures { OnOk result (string_bytes shown.new ≡ string_bytes shown.old ++ step_text step) }
{
    if step == 1 {
        return Ok(());
    }
    append(shown, ", ")?;
    push_integer(step, shown)
}

/// Takes the size of what stands in a fragment as steps.
fn pay_fragment(arena: &Arena, at: Depth, fragment: Ref, steps: &mut u64) -> Paid
    requires { Owns (seen arena.now) (value.Fragment fragment) }
    ensures { Meets as_is result (state_in (seen arena.now) steps.new) (body_paid at.place at.levels (fragment_body (kind_at (seen arena.now) fragment) (children_at (seen arena.now) fragment)) (state_in (seen arena.now) steps.old)) }
{
    match arena.shape(fragment) {
        Shape::Fragment(_, items) => {
            pay_items(arena, at.place, at.levels, items.as_slice(), steps)
        }
        _ => unreachable!(),
    }
}

/// A name behind an opening, and `>`.
fn push_named(opening: &str, name: &str, shown: &mut String) -> Shown
    ensures { OnOk result (string_bytes shown.new ≡ string_bytes shown.old ++ (opening.now ++ (name.now ++ codes ">"))) }
{
    append(shown, opening)?;
    append(shown, name)?;
    append(shown, ">")
}
