// What stands in a tuple, a list, a dict or a struct.
ghost use Rattle.star_steps.specs.Names.{ℕ, List, Place, View};
ghost use Rattle.value_spec.specs.Values as plain;
ghost use Rattle.star_shown.specs.Pushes.{IsFirst, OwnsFirst, OwnsMembers, pushes};

use indexmap::map::Slice;
use object_arena::{NamedValue, Value};

/// The members of a tuple or a list, the pairs of a dict, or the fields of a struct.
#[derive(Drop)]
pub(crate) enum Members<'a> {
    Values(&'a [Value]),
    Pairs(Slice<'a, Value, Value>),
    Fields(&'a [NamedValue]),
}

/// One of them.
#[derive(Clone, Copy)]
pub(crate) enum Member<'a> {
    Value(Value),
    Pair(Value, Value),
    Field(&'a NamedValue),
}

/// The first, and the others.
pub(crate) type First<'a> = (Member<'a>, Members<'a>);

/// The first of what stands in a collection, and the others.
pub(crate) fn first_member(members: Members<'_>) -> Option<First<'_>>
    ensures first { (n : ℕ) (p : Place) (held : List plain.Value) → IsFirst n p held (pushes n p held members.entry) result }
    ensures owned { (a : View) → OwnsMembers a members.entry → OwnsFirst a result }
{
    match members {
        Members::Values(values) => {
            let (value, rest) = values.split_first()?;
            Some((Member::Value(*value), Members::Values(rest)))
        }
        Members::Pairs(pairs) => {
            let ((key, value), rest) = pairs.split_first()?;
            Some((Member::Pair(*key, *value), Members::Pairs(rest)))
        }
        Members::Fields(fields) => {
            let (field, rest) = fields.split_first()?;
            Some((Member::Field(field), Members::Fields(rest)))
        }
    }
}
