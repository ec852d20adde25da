// What goes on from a value.
ghost use Rattle.star_values.specs.Owns.{Owns};
ghost use Rattle.node_build.specs.Parts.{taking};
ghost use Rattle.star_eval.specs.declared.frame.Control.TheVariants as control;
ghost use Rattle.star_eval.specs.Frames.{GoesTo, GoesToFlow, GoesToValue, inside};
ghost use Rattle.star_eval.specs.View.{OwnsFrame, OwnsInStatement, OwnsInValue, Sound, arena_in, nodes_in, waiting_with};
ghost use Rattle.star_eval.specs.Seen.{statement_goes_in, value_goes_in, value_in};

use crate::arguments::{argued, call_with, no_arguments, note_argued};
use crate::assign::{augment_at, augmented, augmented_at, name_gets, next_target, target_gets};
use crate::calls::{next_key, restore};
use crate::comprehensions::{first, give_element};
use crate::dicts::pair;
use crate::eval::{attribute, gather, operated, operated_on, right_operand};
use crate::frame::{Control, Flow, Frame, InStatement, InValue, Machine};
use crate::functions::make_function;
use crate::indexes::give_index;
use crate::machine::{push_value, settle_flow};
use crate::natives::resume;
use crate::parts::take_key;
use crate::run::{choose, within};
use crate::templates::shown;
use crate::walk::walk;
use crate::went::misplaced;
use object_arena::Value;
use star_ops::truth;
use ytt_base::text::Memory;

/// A frame with this value in its hole.
pub(crate) fn give<'p>(
    m: &mut Machine<'p>,
    frame: Frame<'p>,
    value: Value,
) -> Result<Control<'p>, Memory>
    requires sound { Sound m.old }
    requires frame { OwnsFrame (arena_in m.old) frame }
    requires value { Owns (arena_in m.old) value }
    ensures { GoesTo result m.new m.old (inside m.old (waiting_with m.old frame.entry) (control.Gave value)) }
{
    match frame {
        Frame::Value(inner) => give_value(m, inner.into_inner(), value),
        Frame::Statement(inner) => give_statement(m, inner.into_inner(), value),
        Frame::Element(inner) => give_element(m, inner.into_inner(), value),
        Frame::Call(caller) => {
            restore(m, caller.into_inner());
            Ok(Control::Gave(value))
        }
        Frame::Native(pending) => resume(m, pending.into_inner(), Ok(value)),
        Frame::Block(inner) => misplaced(m, Frame::Block(inner)),
        Frame::Clauses(inner) => misplaced(m, Frame::Clauses(inner)),
        Frame::Gather(scope) => misplaced(m, Frame::Gather(scope)),
    }
}

/// A value in an expression.
fn give_value<'p>(
    m: &mut Machine<'p>,
    frame: InValue<'p>,
    value: Value,
) -> Result<Control<'p>, Memory>
    requires sound { Sound m.old }
    requires frame { OwnsInValue (arena_in m.old) frame }
    requires value { Owns (arena_in m.old) value }
    ensures { GoesToValue result m.new m.old (value_goes_in m.old frame.entry (value_in m.old value)) }
{
    match frame {
        InValue::Right(place, op, right) => right_operand(m, place, op, value, right),
        InValue::Operate(place, op, left) => operated(m, place, op, left, value),
        InValue::OperateOn(place, op) => operated_on(m, place, op, value),
        InValue::Member(gathering, rest, mut values) => {
            values.push(value)?;
            gather(m, gathering, rest, values)
        }
        InValue::AndThen(other) => {
            if truth(&m.session.arena, value) {
                Ok(Control::Eval(other))
            } else {
                Ok(Control::Gave(value))
            }
        }
        InValue::OrElse(other) => {
            if truth(&m.session.arena, value) {
                Ok(Control::Gave(value))
            } else {
                Ok(Control::Eval(other))
            }
        }
        InValue::Choose(yes, no) => {
            if truth(&m.session.arena, value) {
                Ok(Control::Eval(yes))
            } else {
                Ok(Control::Eval(no))
            }
        }
        InValue::Targets(place, targets, source) => next_target(m, place, targets, source),
        InValue::KeyOf(place, other, rest, pairs) => {
            let frame = InValue::PairOf(place, value, rest, pairs);
            push_value(m, frame, Control::Eval(other))
        }
        InValue::PairOf(place, key, rest, pairs) => pair(m, place, key, value, rest, pairs),
        InValue::Index(inner) => give_index(m, inner, value),
        InValue::Callee(place, exprs) => {
            let given = no_arguments(m.session.arena.alloc());
            call_with(m, place, value, exprs, given)
        }
        InValue::Argument(place, function, form, rest, given) => {
            argued(m, place, function, form, rest, given, value)
        }
        InValue::Default(making, rest, mut defaults) => {
            defaults.push(value)?;
            make_function(m, making, rest, defaults)
        }
        InValue::First(place, clauses, bag) => first(m, place, clauses, bag, value),
        InValue::Attribute(place, name) => attribute(m, place, name, value),
        InValue::Key(left, place, wanted, function, members, mut keys) => {
            keys.push(value)?;
            next_key(m, left, place, wanted, function, members, keys)
        }
        InValue::Shown(place, rest, text) => shown(m, place, rest, text, value),
    }
}

/// A value in a statement, or in a node.
fn give_statement<'p>(
    m: &mut Machine<'p>,
    frame: InStatement<'p>,
    value: Value,
) -> Result<Control<'p>, Memory>
    requires sound { Sound m.old }
    requires frame { OwnsInStatement (arena_in m.old) frame }
    requires value { Owns (arena_in m.old) value }
    ensures { GoesToFlow result m.new m.old (statement_goes_in m.old frame.entry (value_in m.old value)) }
{
    match frame {
        InStatement::Discard => Ok(Control::Went(Flow::On)),
        InStatement::AssignTo(place, target) => target_gets(m, place, target, value),
        InStatement::Augment(place, op, at, name, old) => {
            augmented(m, place, op, at, name, old, value)
        }
        InStatement::AugmentOf(place, op, at, index, expr) => {
            within(m, InStatement::AugmentAt(place, op, at, value, expr), index)
        }
        InStatement::AugmentAt(place, op, at, indexed, expr) => {
            augment_at(m, place, op, at, indexed, value, expr)
        }
        InStatement::AugmentIndex(place, op, at, indexed, index, old) => {
            augmented_at(m, place, op, at, (indexed, index), old, value)
        }
        InStatement::Return => Ok(Control::Went(Flow::Return(value))),
        InStatement::Branch(body, more) => {
            if truth(&m.session.arena, value) {
                Ok(Control::Run(body))
            } else {
                choose(m, more)
            }
        }
        InStatement::Walk(place, target, body) => walk(m, place, target, body, value),
        InStatement::Enter(body) => Ok(Control::Run(body)),
        InStatement::Take => take(m, value),
        InStatement::TakeKey => take_key(m, value),
        InStatement::Bind(place, name) => name_gets(m, place, name, value),
        InStatement::NoteArgument(name, form, rest, given) => {
            note_argued(m, name, form, rest, given, value)
        }
    }
}

/// The value of the innermost open node.
fn take<'p>(m: &mut Machine<'p>, value: Value) -> Result<Control<'p>, Memory>
    requires sound { Sound m.old }
    requires value { Owns (arena_in m.old) value }
    ensures { GoesToFlow result m.new m.old (taking (value_in m.old value) (nodes_in m.old)) }
{
    settle_flow(m.nodes.value(&m.session.arena, &mut m.session.work, value))
}
