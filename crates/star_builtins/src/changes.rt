// Changes of lists and dicts.
ghost use Rattle.std.specs.Prelude.{◌≡◌, IsTrue, slice_get};
ghost use Rattle.builtin_spec.specs.Lists.{clear_row};
ghost use Rattle.object_arena.specs.Stands.{is_walked};
ghost use Rattle.star_steps.specs.Names.{Gives, Owns, seen, state_in, value_of};
ghost use Rattle.star_builtins.specs.Changes.{changed_to};

use object_arena::{Arena, ArenaStop, Ref, Value};
use star_steps::{Given, stop_at};
use star_text::pay_operation;
use ytt_base::fault::Place;

/// None, or the refusal of a change at a place.
pub(crate) fn changed(arena: &Arena, done: Result<(), ArenaStop>, at: Place) -> Given
    ensures { result ≡ changed_to at done }
{
    match done {
        Ok(_) => Ok(Value::None),
        Err(stop) => Err(stop_at(arena, stop, at)),
    }
}

/// Takes all members of a list, or all pairs of a dict, out.
pub(crate) fn clear(
    arena: &mut Arena,
    steps: &mut u64,
    object: Ref,
    itself: Value,
    at: Place,
) -> Given
    requires object { IsTrue (is_walked (slice_get (seen arena.old).store object.at)) }
    requires itself { Owns (seen arena.old) itself }
    ensures { Gives (clear_row at object.at (value_of (seen arena.old) itself) (state_in (seen arena.old) steps.old)) result (seen arena.old) (seen arena.new) steps.new }
{
    if let Err(stop) = arena.may_change(object) {
        return Err(stop_at(arena, stop, at));
    }
    pay_operation(arena, at, itself, &[], Some(0), Some(0), steps)?;
    let done = arena.clear(object);
    changed(arena, done, at)
}
