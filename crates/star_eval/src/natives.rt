// Natives of a host: what it is asked, and what follows from what it answers.
ghost use Rattle.std.specs.Prelude.{◌≡◌, ◌∷◌, IfOk};
ghost use Rattle.star_values.specs.Objects.{seen};
ghost use Rattle.star_values.specs.Owns.{Owns, OwnsAll};
ghost use Rattle.star_values.specs.declared.value.Value.TheVariants as value;
ghost use Rattle.value_spec.specs.Outcomes.{call_then};
ghost use Rattle.star_eval.specs.Frames.{GoesTo, GoesToValue, Waits, after_answer, inside};
ghost use Rattle.star_steps.specs.Replies.{OwnsGot, OwnsReply, reply_of};
ghost use Rattle.star_eval.specs.Hosts.{HostGives, OwnsHosted, OwnsQuestion, answer_of, is_hosted, native_at, question_of};
ghost use Rattle.star_eval.specs.Meets.{arena_of};
ghost use Rattle.star_eval.specs.View.{OwnsPending, Sound, arena_in, native_frame, waiting_in};
ghost use Rattle.star_eval.specs.Seen.{after_call, called_within, positional_in, value_in};

use crate::calls::call_within;
use crate::frame::{Asking, Control, Frame, Machine, Pending, Question};
use crate::host::Host;
use crate::machine::failed;
use crate::session::Session;
use node_build::Builder;
use object_arena::{Answerer, Arena, CallArgs, Ref, Reply, Shape, Value, Values};
use sqlite_items::{Boxed, Items};
use std::mem;
use ytt_base::fault::{Fault, FaultKind, Stop};
use ytt_base::text::Memory;

/// Whether a host answers a native.
pub(crate) fn is_hosted(arena: &Arena, native: Ref) -> bool
    requires { Owns (seen arena.now) (value.Native native) }
    ensures { result ≡ is_hosted (native_at (seen arena.now) native) }
{
    match arena.shape(native) {
        Shape::Native(Answerer::Host, _, _) => true,
        Shape::Native(Answerer::Language, _, _) => false,
        Shape::Replacement(_) => false,
        _ => unreachable!(),
    }
}

/// What a host answers to a question about a native.
pub(crate) fn answered<H: Host>(
    session: &mut Session,
    host: &mut H,
    asking: Asking,
    question: Question,
) -> Result<Reply, Stop>
    requires native { OwnsHosted (arena_of session.old) asking.native }
    requires question { OwnsQuestion (arena_of session.old) question }
    ensures { HostGives H.answers (question_of (arena_of session.old) asking question) result session.new session.old host.new host.old }
{
    match question {
        Question::Called(args) => host.call(session, asking.native, &args, asking.place),
        Question::Resumed(tag, got) => host.resume(session, asking.native, tag, got, asking.place),
    }
}

/// What follows from a native's reply: a value, or a call that it asks for.
pub(crate) fn go_on<'p>(
    m: &mut Machine<'p>,
    asking: Asking,
    reply: Reply,
) -> Result<Control<'p>, Memory>
    requires sound { Sound m.old }
    requires native { OwnsHosted (arena_in m.old) asking.native }
    requires reply { OwnsReply (arena_in m.old) reply }
    ensures { GoesToValue result m.new m.old (after_answer m.old asking (reply_of (arena_in m.old) reply)) }
{
    match reply {
        Reply::Value(value) => Ok(Control::Gave(value)),
        Reply::CallThen {
            function,
            args,
            tag,
        } => call_asked(m, asking, tag, function, args),
    }
}

/// A call that a native asks for, which takes a step where the native was called.
fn call_asked<'p>(
    m: &mut Machine<'p>,
    asking: Asking,
    tag: u64,
    function: Value,
    args: Values,
) -> Result<Control<'p>, Memory>
    requires sound { Sound m.old }
    requires native { OwnsHosted (arena_in m.old) asking.native }
    requires function { Owns (arena_in m.old) function }
    requires args { OwnsAll (arena_in m.old) args }
    ensures { GoesToValue result m.new m.old (after_answer m.old asking (call_then (value_in m.old function) (positional_in m.old args) tag)) }
{
    if asking.left == 0 {
        return Ok(failed(m, FaultKind::Steps, asking.place));
    }
    if m.session.work.steps == 0 {
        return Ok(failed(m, FaultKind::Steps, asking.place));
    }
    m.session.work.steps -= 1;
    let left = asking.left - 1;
    call_for(m, Asking { left, ..asking }, tag, function, args)
}

/// A call that a native asks for, which is told of what it comes to.
fn call_for<'p>(
    m: &mut Machine<'p>,
    asking: Asking,
    tag: u64,
    function: Value,
    args: Values,
) -> Result<Control<'p>, Memory>
    requires sound { Sound m.old }
    requires native { OwnsHosted (arena_in m.old) asking.native }
    requires function { Owns (arena_in m.old) function }
    requires args { OwnsAll (arena_in m.old) args }
    ensures { GoesToValue result m.new m.old
        (λ s. after_call m.old asking tag (called_within m.old asking.left asking.place function (positional_in m.old args) s)) }
{
    wait_for(m, asking, tag)?;
    let named = Items::new(m.session.arena.alloc());
    let given = CallArgs {
        positional: args,
        named,
    };
    call_within(m, asking.left, asking.place, function, given)
}

/// Puts a native that waits for a call on the other frames, with the open nodes.
fn wait_for(m: &mut Machine<'_>, asking: Asking, tag: u64) -> Result<(), Memory>
    ensures { IfOk result (λ u. Waits asking tag m.old m.new) }
{
    let empty = Builder::new(m.session.arena.alloc());
    let pending = Pending {
        asking,
        tag,
        nodes: mem::replace(&mut m.nodes, empty),
    };
    let alloc = m.session.arena.alloc();
    m.frames.push(Frame::Native(Boxed::new(alloc, pending)?))?;
    Ok(())
}

/// The end of a call that a native asked for, of which it is told.
pub(crate) fn resume<'p>(
    m: &mut Machine<'p>,
    pending: Pending,
    got: Result<Value, Fault>,
) -> Result<Control<'p>, Memory>
    requires sound { Sound m.old }
    requires pending { OwnsPending (arena_in m.old) pending }
    requires got { OwnsGot (arena_in m.old) got }
    ensures { GoesTo result m.new m.old (inside m.old (native_frame (arena_in m.old) pending ∷ waiting_in m.old) (answer_of got)) }
{
    let question = Question::Resumed(pending.tag, got);
    let question = Boxed::new(m.session.arena.alloc(), question)?;
    m.nodes = pending.nodes;
    Ok(Control::Ask(pending.asking, question))
}
