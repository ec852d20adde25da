// What goes on through a run.
ghost use Rattle.index_spec.specs.Index.{set_index_row};
ghost use Rattle.std.specs.Prelude.{◌≡◌, []};
ghost use Rattle.star_eval.specs.Meets.{Acts, GivesFrom, arena_of, in_store, state_of};
ghost use Rattle.value_spec.specs.Outcomes.{give, new_dict, new_list};
ghost use Rattle.value_spec.specs.Values.{text_value, tuple_value, values_from};
ghost use Rattle.star_values.specs.Objects.{pairs_in};
ghost use Rattle.star_values.specs.Owns.{Each, Owns, OwnsAll, OwnsPair};
ghost use Rattle.star_values.specs.View.{value_of, values_of};

use object_arena::{Arena, Pairs, Value, Work};
use std::alloc::Global;
use ytt_base::fault::{Place, Stop};
use ytt_base::text::Text;

/// What goes on from one call to the next: the arena of all values and objects, the steps that are left and how many calls of
/// functions may stand in one another.
#[derive(Drop)]
pub struct Session {
    pub arena: Arena,
    pub work: Work,
}

impl Session {
    /// A session without objects.
    pub fn new(alloc: Global, steps: u64, depth: u32) -> Session
        ensures state { state_of result ≡ in_store [] steps }
        ensures depth { result.work.depth ≡ depth }
    {
        Session {
            arena: Arena::new(alloc),
            work: Work { steps, depth },
        }
    }
}

/// A text.
pub(crate) fn make_text(session: &mut Session, text: Text) -> Result<Value, Stop>
    ensures { GivesFrom (give (text_value text)) result session.new session.old }
{
    Ok(session.arena.new_text(text)?)
}

/// A tuple of these members.
pub(crate) fn make_tuple(session: &mut Session, members: &[Value]) -> Result<Value, Stop>
    requires { OwnsAll (arena_of session.old) members.now }
    ensures { GivesFrom (give (tuple_value (values_from (values_of (arena_of session.old) members.now)))) result session.new session.old }
{
    Ok(session.arena.new_tuple(members)?)
}

/// A new list of these members.
pub(crate) fn make_list(session: &mut Session, members: &[Value]) -> Result<Value, Stop>
    requires { OwnsAll (arena_of session.old) members.now }
    ensures { GivesFrom (new_list (values_of (arena_of session.old) members.now)) result session.new session.old }
{
    Ok(session.arena.new_list(members)?)
}

/// A new dict of these pairs.
pub(crate) fn make_dict(session: &mut Session, pairs: Pairs) -> Result<Value, Stop>
    requires { Each (OwnsPair (arena_of session.old)) pairs.entries }
    ensures { GivesFrom (new_dict (pairs_in (arena_of session.old).held pairs.entries)) result session.new session.old }
{
    Ok(session.arena.new_dict_of(pairs)?)
}

/// A value gets another one at an index.
pub(crate) fn set_at(
    session: &mut Session,
    place: Place,
    value: Value,
    index: Value,
    new: Value,
) -> Result<(), Stop>
    requires value { Owns (arena_of session.old) value }
    requires index { Owns (arena_of session.old) index }
    requires new { Owns (arena_of session.old) new }
    ensures { Acts
        (set_index_row place (value_of (arena_of session.old) value) (value_of (arena_of session.old) index) (value_of (arena_of session.old) new))
        result session.new session.old }
{
    star_ops::set_index(
        &mut session.arena,
        &mut session.work,
        value,
        index,
        new,
        place,
    )
}
