// Names.
ghost use Rattle.std.specs.Prelude.{◌≡◌, ℕ};
ghost use Rattle.star_spec.specs.Names.{box_of, constant, read_name, unbound, write_name};
ghost use Rattle.star_values.specs.Objects.{env_in, seen};
ghost use Rattle.star_values.specs.Owns.{Owns, OwnsEnv};
ghost use Rattle.star_values.specs.View.{View, value_of};
ghost use Rattle.value_spec.specs.Outcomes.{fail_with};
ghost use Rattle.star_steps.specs.Meets.{Gives, state_in};
ghost use Rattle.star_eval.specs.Meets.{Acts, GivesFrom, arena_of};
ghost use Rattle.star_eval.specs.Scope.{OwnsBox, position_of, variables_in};

use crate::session::Session;
use object_arena::{Arena, NamedBox, Ref, Value};
use star_builtins::own_function;
use star_tree::names::is_own_function;
use ytt_base::fault::{Fault, FaultKind, Place, Stop};
use ytt_base::text::Text;

/// The box of a name in a scope, if it has one there.
pub(crate) fn find(arena: &Arena, scope: &[NamedBox], name: &Text) -> Option<Ref>
    requires { OwnsEnv (seen arena.now) scope.now }
    ensures at { position_of result ≡ box_of name.now (env_in (seen arena.now).held scope.now) }
    ensures owned { OwnsBox (seen arena.now) result }
{
    let mut rest = scope;
    while let [first, more @ ..] = rest {
        if arena.text(first.name).as_str() == name.as_str() {
            return Some(first.at);
        }
        rest = more;
    }
    None
}

/// The refusal of a name.
fn refused(kind: FaultKind, place: Place, name: &Text) -> Result<Value, Stop>
    ensures { (a : View) (n : ℕ) → Gives (fail_with kind place name.now (state_in a n)) result a a n }
{
    let detail = name.copy()?;
    Err(Stop::Fault(Fault {
        kind,
        place: Some(place),
        detail,
    }))
}

/// A name that has no box: one of the language's that is a value, or one of its functions, or `NameUnknown`.
fn unbound(arena: &mut Arena, place: Place, name: &Text) -> Result<Value, Stop>
    ensures { (n : ℕ) → Gives (unbound place name.now (constant name.now) (state_in (seen arena.old) n)) result (seen arena.old) (seen arena.new) n }
{
    match name.as_str() {
        "None" => Ok(Value::None),
        "True" => Ok(Value::Bool(true)),
        "False" => Ok(Value::Bool(false)),
        other => {
            if is_own_function(other) {
                Ok(own_function(arena, name)?)
            } else {
                refused(FaultKind::NameUnknown, place, name)
            }
        }
    }
}

/// The value of a name: that of its box, or `NameUnset` where the box has none; without a box as `unbound` says.
pub(crate) fn read(
    session: &mut Session,
    scope: &[NamedBox],
    place: Place,
    name: &Text,
) -> Result<Value, Stop>
    requires { OwnsEnv (arena_of session.old) scope.now }
    ensures { GivesFrom (read_name place name.now (box_of name.now (variables_in session.old scope.now))) result session.new session.old }
{
    match find(&session.arena, scope, name) {
        None => unbound(&mut session.arena, place, name),
        Some(at) => match session.arena.boxed(at) {
            None => refused(FaultKind::NameUnset, place, name),
            Some(value) => Ok(value),
        },
    }
}

/// A name gets a value: `NameUnknown` where it has no box.
pub(crate) fn write(
    session: &mut Session,
    scope: &[NamedBox],
    place: Place,
    name: &Text,
    value: Value,
) -> Result<(), Stop>
    requires scope { OwnsEnv (arena_of session.old) scope.now }
    requires value { Owns (arena_of session.old) value }
    ensures { Acts
        (write_name place name.now (value_of (arena_of session.old) value) (box_of name.now (variables_in session.old scope.now)))
        result session.new session.old }
{
    match find(&session.arena, scope, name) {
        None => {
            let detail = name.copy()?;
            Err(Stop::Fault(Fault {
                kind: FaultKind::NameUnknown,
                place: Some(place),
                detail,
            }))
        }
        Some(at) => {
            session.arena.set_box(at, value);
            Ok(())
        }
    }
}
