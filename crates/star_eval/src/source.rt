// The members that a loop goes over.
ghost use Rattle.std.specs.Prelude.{◌≡◌, IfOk, slice_get};
ghost use Rattle.value_spec.specs.Members.{members_in};
ghost use Rattle.star_values.specs.Objects.{seen};
ghost use Rattle.star_values.specs.Owns.{Owns, OwnsOption};
ghost use Rattle.star_values.specs.View.{option_in, value_of};
ghost use Rattle.star_eval.specs.Sources.{Advances, OwnsIfAny, OwnsMembers, OwnsSource, all_members, are_members, number_found};

use crate::numbers::Numbers;
use object_arena::{Arena, Lent, Ref, Value, Values};
use star_compare::bounds;
use star_integers::number_at;
use star_ops::members_of as list_members;
use star_values::value_at;
use ytt_base::text::Memory;

/// The number at a place, if there is one.
fn number_found(numbers: &Numbers, place: u64) -> Option<Value>
    ensures { result ≡ number_found numbers.now.from numbers.now.to numbers.now.step place }
{
    if u128::from(place) >= numbers.count {
        return None;
    }
    Some(Value::Int(number_at(numbers.from, numbers.step, u128::from(place))))
}

/// What members are taken from, one after another. Nothing is copied for a loop: a tuple never changes, what a loop walks is lent
/// to it, and the numbers of a range are never made as a list.
#[derive(Drop)]
pub(crate) enum Members {
    /// Members as they stood.
    Listed(Values),
    Tuple(Ref),
    Lent(Lent),
    Numbers(Numbers),
}

/// The members from a place on.
#[derive(Drop)]
pub(crate) struct Source {
    pub members: Members,
    pub next: u64,
}

/// The members that a value has now, if it is of a kind that has some.
pub(crate) fn members_of(arena: &Arena, value: Value) -> Result<Option<Members>, Memory>
    requires { Owns (seen arena.now) value }
    ensures members { IfOk result (λ ms. members_in (seen arena.now).store (value_of (seen arena.now) value) ≡ are_members (seen arena.now) ms) }
    ensures owned { IfOk result (OwnsIfAny (seen arena.now)) }
{
    match value {
        Value::Range(range) => {
            let (from, to, step) = bounds(arena, range);
            Ok(Some(Members::Numbers(Numbers::of(from, to, step))))
        }
        Value::Tuple(tuple) => Ok(Some(Members::Tuple(tuple))),
        Value::List(_) | Value::Dict(_) => Ok(Some(Members::Listed(list_members(arena, value)?))),
        _ => Ok(None),
    }
}

impl Members {
    /// The one at a place.
    fn at(&self, arena: &Arena, place: u64) -> Option<Value>
        requires { OwnsMembers (seen arena.now) self.now }
        ensures member { option_in (seen arena.now).held result ≡ slice_get (all_members (seen arena.now) self.now) place }
        ensures owned { OwnsOption (seen arena.now) result }
    {
        match self {
            Members::Listed(values) => value_at(values.as_slice(), place as usize),
            Members::Tuple(tuple) => value_at(arena.tuple(*tuple), place as usize),
            Members::Lent(lent) => lent.member(place as usize),
            Members::Numbers(numbers) => number_found(numbers, place),
        }
    }
}

impl Source {
    /// All of these members.
    pub(crate) fn of(members: Members) -> Source
        ensures { result ≡ record { members = members; next = 0 } }
    {
        Source { members, next: 0 }
    }

    /// The next member, with those behind it, if there is one.
    pub(crate) fn advance(self, arena: &Arena) -> Result<Option<(Value, Source)>, Memory>
        requires { OwnsSource (seen arena.now) self }
        ensures { IfOk result (Advances (seen arena.now) self) }
    {
        let value = match self.members.at(arena, self.next) {
            None => return Ok(None),
            Some(value) => value,
        };
        let next = match self.next.checked_add(1) {
            None => return Err(Memory),
            Some(next) => next,
        };
        let members = self.members;
        Ok(Some((value, Source { members, next })))
    }
}
