// What `assert.try_to` asks for, and what it replies then.
ghost use Rattle.std.specs.Prelude.{◌≡◌, ℕ, Err, IfOk, true};
ghost use Rattle.std.specs.Str.{is_utf8};
ghost use Rattle.module_spec.specs.Asserting.{fault_shown, is_budget, is_callable, tried};
ghost use Rattle.star_steps.specs.Names.{Owns, seen, state_in, value_of};
ghost use Rattle.star_steps.specs.Replies.{GivesReply, OwnsGot, got_of};
ghost use Rattle.ytt_base.specs.declared.fault.Place.{Place};
ghost use Rattle.mod_basic.specs.View.{asked_call};

use object_arena::{Arena, Reply, Shape, Value};
use sqlite_items::Items;
use star_steps::refusal;
use std::alloc::Global;
use ytt_base::fault::{Fault, FaultKind, Place, Stop};
use ytt_base::text::{Memory, Text};

/// A call without arguments, which is asked for; `ValueKind` of what can't be called.
pub(crate) fn asked_call(arena: &Arena, function: Value, at: Place) -> Result<Reply, Stop>
    requires { Owns (seen arena.now) function }
    ensures { (n : ℕ) → GivesReply (asked_call at (value_of (seen arena.now) function) (state_in (seen arena.now) n)) result (seen arena.now) (seen arena.now) n }
{
    if !is_callable(arena, function) {
        return Err(refusal(arena, FaultKind::ValueKind, at));
    }
    Ok(Reply::CallThen {
        function,
        args: Items::new(arena.alloc()),
        tag: 0,
    })
}

fn is_callable(arena: &Arena, value: Value) -> bool
    requires { Owns (seen arena.now) value }
    ensures { result ≡ is_callable (value_of (seen arena.now) value) }
{
    match value {
        Value::Func(_) => true,
        Value::Native(native) => match arena.shape(native) {
            Shape::Native(_, _, _) => true,
            Shape::Replacement(_) => false,
            _ => unreachable!(),
        },
        _ => false,
    }
}

/// What `assert.try_to` replies once the call that it asked for has come to this: its value and None, or None and the fault's kind and
/// detail as a text. The budget's faults aren't caught.
pub fn try_resumed(arena: &mut Arena, got: Result<Value, Fault>, at: Place) -> Result<Reply, Stop>
    requires { OwnsGot (seen arena.old) got }
    ensures { (n : ℕ) → GivesReply (tried at (got_of (seen arena.old) got) (state_in (seen arena.old) n)) result (seen arena.old) (seen arena.new) n }
{
    match got {
        Ok(value) => Ok(Reply::Value(arena.new_tuple(&[value, Value::None])?)),
        Err(fault) => caught(arena, fault),
    }
}

/// The same of a fault.
fn caught(arena: &mut Arena, fault: Fault) -> Result<Reply, Stop>
    ensures { (at : Place) (n : ℕ) → GivesReply (tried at (Err fault) (state_in (seen arena.old) n)) result (seen arena.old) (seen arena.new) n }
{
    if is_budget(fault.kind) {
        return Err(Stop::Fault(fault));
    }
    let text = fault_shown(arena.alloc(), &fault)?;
    let shown = arena.new_text(text)?;
    Ok(Reply::Value(arena.new_tuple(&[Value::None, shown])?))
}

/// Whether a fault is one of the budget's.
fn is_budget(kind: FaultKind) -> bool
    ensures { result ≡ is_budget kind }
{
    matches!(kind, FaultKind::Steps | FaultKind::Depth)
}

/// The kind of a fault, and its detail where there is one.
fn fault_shown(alloc: Global, fault: &Fault) -> Result<Text, Memory>
    ensures text { IfOk result (λ t. t ≡ fault_shown fault.now) }
    ensures utf8 { IfOk result (λ t. is_utf8 t ≡ true) }
{
    let kind = fault.kind.name();
    let detail = fault.detail.as_str();
    let shown = if detail.is_empty() {
        String::from_str(alloc, kind)?
    } else {
        format!(in alloc; "{kind}: {detail}")?
    };
    Ok(Text::of_string(shown))
}
