// Why a value is no key.
ghost use Rattle.std.specs.Prelude.{◌≡◌};
ghost use Rattle.star_steps.specs.Names.{None, IsKey, first_offence, key_offence, tuple_value, values_from, max_depth, seen, Owns, OwnsAll, value_of, values_of};

use crate::sizes::MAX_DEPTH;
use object_arena::{Arena, Value};
use ytt_base::fault::FaultKind;

/// Why a value is no key of a dict: `TooDeep` where more than 100 tuples stand in one another, and `ValueKind` for what is no
/// None, bool, integer, text or tuple of such. The first in the order of the members decides.
pub fn key_offence(arena: &Arena, value: Value) -> Option<FaultKind>
    requires { Owns (seen arena.now) value }
    ensures offence { result ≡ key_offence max_depth (value_of (seen arena.now) value) }
    ensures key { result ≡ None → IsKey (value_of (seen arena.now) value) }
{
    offence_within(arena, MAX_DEPTH, value)
}

/// The same, where so many tuples may stand in one another.
#[cycle(offence)]
fn offence_within(arena: &Arena, levels: u32, value: Value) -> Option<FaultKind>
    requires { Owns (seen arena.now) value }
    ensures { result ≡ key_offence levels (value_of (seen arena.now) value) }
{
    match value {
        Value::None | Value::Bool(_) | Value::Int(_) | Value::Text(_) => None,
        Value::Tuple(tuple) => tuple_offence(arena, levels, arena.tuple(tuple)),
        _ => Some(FaultKind::ValueKind),
    }
}

/// The same of a tuple with these members.
#[cycle(offence)]
fn tuple_offence(arena: &Arena, levels: u32, members: &[Value]) -> Option<FaultKind>
    requires { OwnsAll (seen arena.now) members.now }
    ensures { result ≡ key_offence levels (tuple_value (values_from (values_of (seen arena.now) members.now))) }
{
    if levels == 0 {
        return Some(FaultKind::TooDeep);
    }
    first_offence(arena, levels - 1, members)
}

/// Why the first member that is no key is none.
#[cycle(offence)]
fn first_offence(arena: &Arena, levels: u32, members: &[Value]) -> Option<FaultKind>
    requires { OwnsAll (seen arena.now) members.now }
    ensures { result ≡ first_offence levels (values_from (values_of (seen arena.now) members.now)) }
{
    let mut rest = members;
    while let [first, more @ ..] = rest {
        if let Some(kind) = offence_within(arena, levels, *first) {
            return Some(kind);
        }
        rest = more;
    }
    None
}
