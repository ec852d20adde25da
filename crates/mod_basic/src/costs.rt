// The cost of an operation.
ghost use Rattle.star_steps.specs.Names.{Meets, OwnsAll, as_is, give, seen, state_in, values_of};
ghost use Rattle.text_spec.specs.Answers.{paid_operation};

use object_arena::{Arena, Value};
use star_steps::Paid;
use star_text::pay_operation;
use ytt_base::fault::Place;

/// Takes a sixteenth of the bytes of the texts among values, and the members of the collections among them.
pub(crate) fn pay_for(arena: &Arena, place: Place, values: &[Value], steps: &mut u64) -> Paid
    requires { OwnsAll (seen arena.now) values.now }
    ensures { Meets as_is result (state_in (seen arena.now) steps.new) (paid_operation place (values_of (seen arena.now) values.now) 0 0 (give tt) (state_in (seen arena.now) steps.old)) }
{
    pay_operation(arena, place, Value::None, values, Some(0), Some(0), steps)
}
