// What `*e` and `**e` give.
ghost use Rattle.std.specs.Prelude.{◌≡◌, IfOk, MatchOption, None, Some};
ghost use Rattle.builtin_spec.specs.Sorting.{members_taken};
ghost use Rattle.object_arena.specs.Names.{Each, Owns, OwnsAll, OwnsPair, pairs_in, seen, value_of, values_of};
ghost use Rattle.star_ops.specs.Acts.{is_iterable};
ghost use Rattle.star_spec.specs.Eval.{as_fields};
ghost use Rattle.star_steps.specs.Meets.{Meets, state_in};
ghost use Rattle.value_spec.specs.Members.{as_text};
ghost use Rattle.star_calls.specs.View.{OwnsIfNamed, fields_of_dict, named, room_within};

use indexmap::map::Slice;
use object_arena::Arena;
use sqlite_items::Items;
use star_ops::{member_count, members_of};
use star_steps::refusal;
use star_values::{NamedValue, NamedValues, Value, Values};
use ytt_base::fault::{FaultKind, Place, Stop};
use ytt_base::text::{Memory, Text};

/// Whether a value has members to go through.
fn has_members(value: Value) -> bool
    ensures { result ≡ is_iterable value }
{
    matches!(
        value,
        Value::Tuple(_) | Value::List(_) | Value::Dict(_) | Value::Range(_)
    )
}

/// Whether as many steps are left as a range has members; of another value it doesn't matter.
fn has_room(arena: &Arena, steps: u64, value: Value) -> bool
    requires { Owns (seen arena.now) value }
    ensures { result ≡ room_within steps (value_of (seen arena.now) value) }
{
    match value {
        Value::Range(_) => member_count(arena, value) <= u128::from(steps),
        _ => true,
    }
}

/// The members of a value: `ValueKind` where it has none to have, `Steps` of a range that has more than steps are left.
pub(crate) fn members_taken(
    arena: &Arena,
    steps: u64,
    value: Value,
    at: Place,
) -> Result<Values, Stop>
    requires { Owns (seen arena.now) value }
    ensures meaning { Meets (values_of (seen arena.now)) result (state_in (seen arena.now) steps) (members_taken at (value_of (seen arena.now) value) (state_in (seen arena.now) steps)) }
    ensures owns { IfOk result (OwnsAll (seen arena.now)) }
{
    if !has_members(value) {
        return Err(refusal(arena, FaultKind::ValueKind, at));
    }
    if !has_room(arena, steps, value) {
        return Err(refusal(arena, FaultKind::Steps, at));
    }
    Ok(members_of(arena, value)?)
}

/// The pairs of a dict as arguments by name, if it is one, and each key is a text.
pub(crate) fn fields_if_any(arena: &Arena, value: Value) -> Result<Option<NamedValues>, Memory>
    requires { Owns (seen arena.now) value }
    ensures fields { IfOk result (λ fs. fields_of_dict (seen arena.now).store (value_of (seen arena.now) value) ≡ named (seen arena.now) fs) }
    ensures owns { IfOk result (OwnsIfNamed (seen arena.now)) }
{
    match value {
        Value::Dict(dict) => fields_of(arena, arena.pairs(dict)),
        _ => Ok(None),
    }
}

/// Pairs as arguments by name, if each key is a text.
fn fields_of(arena: &Arena, pairs: Slice<'_, Value, Value>) -> Result<Option<NamedValues>, Memory>
    requires { Each (OwnsPair (seen arena.now)) pairs }
    ensures fields { IfOk result (λ fs. as_fields (pairs_in (seen arena.now).held pairs.entry) ≡ named (seen arena.now) fs) }
    ensures owns { IfOk result (OwnsIfNamed (seen arena.now)) }
{
    let mut fields = Items::new(arena.alloc());
    let mut rest = pairs;
    while let Some(((key, value), more)) = rest.split_first() {
        match text_of(arena, *key) {
            None => return Ok(None),
            Some(text) => fields.push(NamedValue {
                name: text.copy()?,
                value: *value,
            })?,
        }
        rest = more;
    }
    Ok(Some(fields))
}

/// The text that a value is, if it is one.
fn text_of(arena: &Arena, value: Value) -> Option<&Text>
    requires { Owns (seen arena.now) value }
    ensures { MatchOption result (as_text (value_of (seen arena.now) value) ≡ None) (λ text. as_text (value_of (seen arena.now) value) ≡ Some text.now) }
{
    match value {
        Value::Text(text) => Some(arena.text(text)),
        _ => None,
    }
}
