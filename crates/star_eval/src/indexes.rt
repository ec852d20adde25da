// Indexes and slices, and targets that are indexes.
ghost use Rattle.index_spec.specs.Index.{index_row, set_index_row};
ghost use Rattle.index_spec.specs.Slices.{slice_row};
ghost use Rattle.star_tree.specs.Listed.{optional_of};
ghost use Rattle.star_values.specs.Owns.{Owns};
ghost use Rattle.value_spec.specs.Outcomes.{then_do};
ghost use Rattle.star_eval.specs.Frames.{GoesToValue};
ghost use Rattle.star_eval.specs.Doing.{cut};
ghost use Rattle.star_eval.specs.View.{OwnsInIndex, Sound, arena_in, setting_of};
ghost use Rattle.star_eval.specs.Waiting.{cut_at, end_of, step_of, value_goes, with_none};
ghost use Rattle.star_eval.specs.Seen.{bound_then_in, evaluated_in, index_goes_in, value_in};

use crate::frame::{Bound, Control, InIndex, InValue, Machine};
use crate::machine::{push_value, settle, settle_none};
use crate::session::set_at;
use object_arena::{Cut, Value};
use star_tree::code::Expr;
use ytt_base::fault::Place;
use ytt_base::text::Memory;

/// An expression in an index.
pub(crate) fn within_index<'p>(
    m: &mut Machine<'p>,
    frame: InIndex<'p>,
    expr: &'p Expr,
) -> Result<Control<'p>, Memory>
    requires sound { Sound m.old }
    requires frame { OwnsInIndex (arena_in m.old) frame }
    ensures { GoesToValue result m.new m.old (λ s. then_do (evaluated_in m.old expr.now s) (index_goes_in m.old frame.entry)) }
{
    push_value(m, InValue::Index(frame), Control::Eval(expr))
}

/// A value in an index, in a slice, or in a target that is an index.
pub(crate) fn give_index<'p>(
    m: &mut Machine<'p>,
    frame: InIndex<'p>,
    value: Value,
) -> Result<Control<'p>, Memory>
    requires sound { Sound m.old }
    requires frame { OwnsInIndex (arena_in m.old) frame }
    requires value { Owns (arena_in m.old) value }
    ensures { GoesToValue result m.new m.old (index_goes_in m.old frame.entry (value_in m.old value)) }
{
    match frame {
        InIndex::IndexOf(place, index) => within_index(m, InIndex::IndexAt(place, value), index),
        InIndex::IndexAt(place, indexed) => at_index(m, place, indexed, value),
        InIndex::BoundsOf(place, from, to, step) => bounds(m, place, value, from, to, step),
        InIndex::EndOf(place, indexed, to, step) => {
            end_bound(m, place, indexed, value, to, step)
        },
        InIndex::StepOf(place, indexed, from, step) => {
            step_bound(m, place, indexed, from, value, step)
        },
        InIndex::CutAt(place, indexed, from, to) => {
            let parts = Cut {
                from,
                to,
                step: value,
            };
            slice(m, place, indexed, parts)
        }
        InIndex::TargetOf(place, index, new) => {
            within_index(m, InIndex::TargetAt(place, value, new), index)
        }
        InIndex::TargetAt(place, indexed, new) => index_gets(m, place, indexed, value, new),
    }
}

/// What an index of a value gives.
fn at_index<'p>(
    m: &mut Machine<'p>,
    place: Place,
    value: Value,
    index: Value,
) -> Result<Control<'p>, Memory>
    requires sound { Sound m.old }
    requires value { Owns (arena_in m.old) value }
    requires index { Owns (arena_in m.old) index }
    ensures { GoesToValue result m.new m.old (index_row place (value_in m.old value) (value_in m.old index)) }
{
    let session = &mut m.session;
    settle(star_ops::index(&mut session.arena, &mut session.work, value, index, place))
}

/// A value gets another one at an index; None is given then.
fn index_gets<'p>(
    m: &mut Machine<'p>,
    place: Place,
    value: Value,
    index: Value,
    new: Value,
) -> Result<Control<'p>, Memory>
    requires sound { Sound m.old }
    requires value { Owns (arena_in m.old) value }
    requires index { Owns (arena_in m.old) index }
    requires new { Owns (arena_in m.old) new }
    ensures { GoesToValue result m.new m.old (with_none (set_index_row place (value_in m.old value) (value_in m.old index) (value_in m.old new))) }
{
    settle_none(set_at(&mut m.session, place, value, index, new))
}

/// A slice of a value, by all of its parts.
fn bounds<'p>(
    m: &mut Machine<'p>,
    place: Place,
    value: Value,
    from: &'p Bound,
    to: &'p Bound,
    step: &'p Bound,
) -> Result<Control<'p>, Memory>
    requires sound { Sound m.old }
    requires value { Owns (arena_in m.old) value }
    ensures { GoesToValue result m.new m.old (bound_then_in m.old from.now
        (value_goes (setting_of m.old) (end_of place (value_in m.old value) (optional_of m.old.code.file to.now) (optional_of m.old.code.file step.now)))) }
{
    match from {
        None => end_bound(m, place, value, Value::None, to, step),
        Some(expr) => within_index(m, InIndex::EndOf(place, value, to, step), expr.get()),
    }
}

/// A slice of a value, by its first part and the further ones.
fn end_bound<'p>(
    m: &mut Machine<'p>,
    place: Place,
    value: Value,
    from: Value,
    to: &'p Bound,
    step: &'p Bound,
) -> Result<Control<'p>, Memory>
    requires sound { Sound m.old }
    requires value { Owns (arena_in m.old) value }
    requires from { Owns (arena_in m.old) from }
    ensures { GoesToValue result m.new m.old (bound_then_in m.old to.now
        (value_goes (setting_of m.old) (step_of place (value_in m.old value) (value_in m.old from) (optional_of m.old.code.file step.now)))) }
{
    match to {
        None => step_bound(m, place, value, from, Value::None, step),
        Some(expr) => within_index(m, InIndex::StepOf(place, value, from, step), expr.get()),
    }
}

/// A slice of a value, by its first parts and the step.
fn step_bound<'p>(
    m: &mut Machine<'p>,
    place: Place,
    value: Value,
    from: Value,
    to: Value,
    step: &'p Bound,
) -> Result<Control<'p>, Memory>
    requires sound { Sound m.old }
    requires value { Owns (arena_in m.old) value }
    requires from { Owns (arena_in m.old) from }
    requires to { Owns (arena_in m.old) to }
    ensures { GoesToValue result m.new m.old (bound_then_in m.old step.now
        (value_goes (setting_of m.old) (cut_at place (value_in m.old value) (value_in m.old from) (value_in m.old to)))) }
{
    match step {
        None => {
            let parts = Cut {
                from,
                to,
                step: Value::None,
            };
            slice(m, place, value, parts)
        }
        Some(expr) => within_index(m, InIndex::CutAt(place, value, from, to), expr.get()),
    }
}

/// A slice of a value.
fn slice<'p>(
    m: &mut Machine<'p>,
    place: Place,
    value: Value,
    parts: Cut,
) -> Result<Control<'p>, Memory>
    requires sound { Sound m.old }
    requires value { Owns (arena_in m.old) value }
    ensures { GoesToValue result m.new m.old
        (slice_row place (value_in m.old value) (cut (value_in m.old parts.from) (value_in m.old parts.to) (value_in m.old parts.step))) }
{
    let session = &mut m.session;
    settle(star_ops::slice(&mut session.arena, &mut session.work, value, parts, place))
}
