// A call from outside of a run.
ghost use Rattle.std.specs.Prelude.{◌≡◌};
ghost use Rattle.star_values.specs.Owns.{Owns, OwnsArguments};
ghost use Rattle.star_eval.specs.FileRun.{CallsAs};
ghost use Rattle.star_eval.specs.Meets.{arena_of};

use crate::host::Host;
use crate::looped::{Called, run_call};
use crate::session::Session;
use object_arena::{CallArgs, Value};
use star_functions::Functions;
use std::alloc::Global;
use std::mem;
use ytt_base::fault::{Place, Stop};

/// Calls a value in a session with these arguments at a place, with a host that answers the natives which aren't the language's own.
/// The result is the value that the call gives, from the objects and the steps that the session has, the functions of files that may be
/// called, and the host's state, or the fault that it ends with. The session is left with the objects and the steps that are left, as deep
/// as it was, and the host in the state that its last answer left. What the session held before stays what it was, after a fault too.
///
/// What can't be called is `ValueKind` at the place, a call past the session's depth `Depth`, and arguments that don't fit the
/// parameters `ArgBind`; what the function does ends with the faults that `run_file` tells of. A function that isn't among them is
/// `CodeForm` at no place. After want of memory the session is of no use.
pub fn call_function<H: Host>(
    alloc: Global,
    session: &mut Session,
    functions: &Functions<'_>,
    function: Value,
    args: CallArgs,
    host: &mut H,
    at: Place,
) -> Result<Value, Stop>
    requires function { Owns (arena_of session.old) function }
    requires args { OwnsArguments (arena_of session.old) args }
    ensures calls { CallsAs H.answers functions.now function args at result session.new session.old host.new host.old }
    ensures depth { session.new.work.depth ≡ session.old.work.depth }
{
    let depth = session.work.depth;
    let functions = functions.shared()?;
    let own = mem::replace(session, Session::new(alloc, 0, depth));
    let called = run_call(alloc, functions, depth, own, at, function, args, host)?;
    let Called {
        session: after,
        result,
    } = called;
    *session = after;
    session.work.depth = depth;
    match result {
        Ok(value) => Ok(value),
        Err(fault) => Err(Stop::Fault(fault)),
    }
}
