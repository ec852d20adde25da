// The texts of values by themselves.
ghost use Rattle.std.specs.Prelude.{◌≡◌};
ghost use Rattle.star_steps.specs.Names.{seen, Owns, value_of, Meets, as_is, state_in};
ghost use Rattle.text_spec.specs.Shown.{repr_of, str_of};

use crate::values::{push_repr, push_str};
use object_arena::{Arena, Value, Work};
use ytt_base::fault::{Place, Stop};
use ytt_base::text::Text;

/// The text that a value is by `repr`: 1 step for each member, and a sixteenth of the bytes of each text. More than 100
/// collections in one another are `TooDeep`, and too few steps are `Steps`.
pub fn repr_of(arena: &Arena, work: &mut Work, value: Value, at: Place) -> Result<Text, Stop>
    requires { Owns (seen arena.now) value }
    ensures meaning { Meets as_is result (state_in (seen arena.now) work.new.steps) (repr_of at (value_of (seen arena.now) value) (state_in (seen arena.now) work.old.steps)) }
    ensures depth { work.new.depth ≡ work.old.depth }
{
    let mut shown = String::new(arena.alloc());
    push_repr(arena, at, value, &mut shown, &mut work.steps)?;
    Ok(Text::of_string(shown))
}

/// The same by `str`: a text is itself, and all else is as by `repr`.
pub fn str_of(arena: &Arena, work: &mut Work, value: Value, at: Place) -> Result<Text, Stop>
    requires { Owns (seen arena.now) value }
    ensures meaning { Meets as_is result (state_in (seen arena.now) work.new.steps) (str_of at (value_of (seen arena.now) value) (state_in (seen arena.now) work.old.steps)) }
    ensures depth { work.new.depth ≡ work.old.depth }
{
    let mut shown = String::new(arena.alloc());
    push_str(arena, at, value, &mut shown, &mut work.steps)?;
    Ok(Text::of_string(shown))
}
