// Who answers natives that aren't the language's own.
ghost use Rattle.star_spec.specs.Hosts.{Answers};
ghost use Rattle.star_values.specs.Owns.{OwnsArguments};
ghost use Rattle.star_steps.specs.Replies.{OwnsGot};
ghost use Rattle.star_eval.specs.Hosts.{HostGives, OwnsHosted, call_of, resume_of};
ghost use Rattle.star_eval.specs.Meets.{arena_of};

use crate::session::Session;
use object_arena::{CallArgs, Ref, Reply, Value};
use ytt_base::fault::{Fault, Place, Stop};

/// Who answers the natives of a host (`Answerer::Host` of an arena).
///
/// A native answers with a value or a fault, or asks for a call, with a tag of its own. The step of that call is taken where the
/// native was called; where none is left, that is `Steps`, and the native isn't resumed. Else it is resumed once, with what the call
/// gave or the fault that it ended with. What a call gives and leaves is a function of the host's own state, the session's, and what
/// is asked; values that it gives are the session's own, and all that the session held stays what it was.
pub trait Host {
    /// The reply or the fault, and the state that is left, by the question and the state in which it is asked.
    ghost answers: { Answers Self };

    /// The native is called with these arguments at a place.
    fn call(
        &mut self,
        session: &mut Session,
        native: Ref,
        args: &CallArgs,
        at: Place,
    ) -> Result<Reply, Stop>
        requires native { OwnsHosted (arena_of session.old) native }
        requires args { OwnsArguments (arena_of session.old) args.now }
        ensures { HostGives answers (call_of (arena_of session.old) native args.now at) result session.new session.old self.new self.old };

    /// The call with this tag, which the native asked for, has given a value or ended with a fault.
    fn resume(
        &mut self,
        session: &mut Session,
        native: Ref,
        tag: u64,
        got: Result<Value, Fault>,
        at: Place,
    ) -> Result<Reply, Stop>
        requires native { OwnsHosted (arena_of session.old) native }
        requires got { OwnsGot (arena_of session.old) got }
        ensures { HostGives answers (resume_of (arena_of session.old) native tag got at) result session.new session.old self.new self.old };
}
