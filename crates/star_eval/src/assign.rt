// Assignments.
ghost use Rattle.index_spec.specs.Index.{set_index_row};
ghost use Rattle.star_values.specs.Owns.{Owns};
ghost use Rattle.star_eval.specs.Frames.{GoesToFlow, GoesToValue};
ghost use Rattle.star_eval.specs.Doing.{assigned_each, concluded, spread_over};
ghost use Rattle.star_eval.specs.Sources.{OwnsSource};
ghost use Rattle.star_eval.specs.View.{Sound, arena_in, nodes_in, setting_of};
ghost use Rattle.star_eval.specs.Waiting.{with_none};
ghost use Rattle.star_eval.specs.Seen.{assigned_in, exprs_in, left_in, statement_goes_in, value_in, written_in};
ghost use Rattle.star_eval.specs.declared.frame.InStatement.TheVariants as statement_frames;

use crate::frame::{Control, InIndex, InStatement, InValue, Machine};
use crate::indexes::within_index;
use crate::machine::{failed, ill_formed, push_statement, push_value, settle_flow, settle_none};
use crate::names::write;
use crate::run::within;
use crate::session::set_at;
use crate::source::{Source, members_of};
use object_arena::Value;
use star_ops::member_count;
use star_tree::code::{BinOp, Expr};
use ytt_base::fault::{FaultKind, Place, Stop};
use ytt_base::text::{Memory, Text};

/// A value to a target of a statement at this place; None is given then. A target in a row gets its value before the next.
pub(crate) fn assign<'p>(
    m: &mut Machine<'p>,
    place: Place,
    target: &'p Expr,
    value: Value,
) -> Result<Control<'p>, Memory>
    requires sound { Sound m.old }
    requires value { Owns (arena_in m.old) value }
    ensures { GoesToValue result m.new m.old (with_none (assigned_in m.old place target.now value)) }
{
    match target {
        Expr::Name(line, name) => {
            let at = Place {
                file: m.code.file,
                line: *line,
            };
            settle_none(write(&mut m.session, m.scope.as_slice(), at, name, value))
        }
        Expr::List(_, targets) => spread(m, place, targets.as_slice(), value),
        Expr::Tuple(_, targets) => spread(m, place, targets.as_slice(), value),
        Expr::Index(line, a, index) => {
            let at = Place {
                file: m.code.file,
                line: *line,
            };
            within_index(m, InIndex::TargetOf(at, index.get(), value), a.get())
        }
        Expr::Int(_, _)
        | Expr::Text(_, _)
        | Expr::Dict(_, _)
        | Expr::Unary(_, _, _)
        | Expr::Binary(_, _, _, _)
        | Expr::And(_, _, _)
        | Expr::Or(_, _, _)
        | Expr::If(_, _, _, _)
        | Expr::Call(_, _, _)
        | Expr::Named(_, _, _)
        | Expr::Star(_, _)
        | Expr::Stars(_, _)
        | Expr::Slice(_, _, _, _, _)
        | Expr::Dot(_, _, _)
        | Expr::Lambda(_, _, _, _)
        | Expr::ListFor(_, _, _)
        | Expr::DictFor(_, _, _, _)
        | Expr::Template(_, _) => Ok(ill_formed(m)),
    }
}

/// The same, and the statement ends.
pub(crate) fn target_gets<'p>(
    m: &mut Machine<'p>,
    place: Place,
    target: &'p Expr,
    value: Value,
) -> Result<Control<'p>, Memory>
    requires sound { Sound m.old }
    requires value { Owns (arena_in m.old) value }
    ensures { GoesToFlow result m.new m.old (concluded (assigned_in m.old place target.now value) (nodes_in m.old)) }
{
    match target {
        Expr::Name(line, name) => {
            let at = Place {
                file: m.code.file,
                line: *line,
            };
            name_gets(m, at, name, value)
        }
        _ => {
            let control = Control::Assign(place, target, value);
            push_statement(m, InStatement::Discard, control)
        }
    }
}

/// The members of a value, which has as many, to these targets.
fn spread<'p>(
    m: &mut Machine<'p>,
    place: Place,
    targets: &'p [Expr],
    value: Value,
) -> Result<Control<'p>, Memory>
    requires sound { Sound m.old }
    requires value { Owns (arena_in m.old) value }
    ensures { GoesToValue result m.new m.old (with_none (spread_over (setting_of m.old) place (exprs_in m.old targets.now) (value_in m.old value))) }
{
    // The count comes first, so that no more members are copied than there are targets.
    if member_count(&m.session.arena, value) != targets.len() as u128 {
        return Ok(failed(m, FaultKind::ValueKind, place));
    }
    match members_of(&m.session.arena, value)? {
        None => Ok(failed(m, FaultKind::ValueKind, place)),
        Some(members) => next_target(m, place, targets, Source::of(members)),
    }
}

/// The first of these targets gets the first of these members, and then the others.
pub(crate) fn next_target<'p>(
    m: &mut Machine<'p>,
    place: Place,
    targets: &'p [Expr],
    source: Source,
) -> Result<Control<'p>, Memory>
    requires sound { Sound m.old }
    requires source { OwnsSource (arena_in m.old) source }
    ensures { GoesToValue result m.new m.old (with_none (assigned_each (setting_of m.old) place (exprs_in m.old targets.now) (left_in m.old source))) }
{
    let (target, rest) = match targets.split_first() {
        None => return Ok(Control::Gave(Value::None)),
        Some((target, rest)) => (target, rest),
    };
    match source.advance(&m.session.arena)? {
        None => Ok(Control::Gave(Value::None)),
        Some((value, source)) => {
            let frame = InValue::Targets(place, rest, source);
            push_value(m, frame, Control::Assign(place, target, value))
        }
    }
}

/// A name, at a place, gets what the operation gives for what it had, and the statement ends.
pub(crate) fn augmented<'p>(
    m: &mut Machine<'p>,
    place: Place,
    op: BinOp,
    at: Place,
    name: &Text,
    old: Value,
    value: Value,
) -> Result<Control<'p>, Memory>
    requires sound { Sound m.old }
    requires old { Owns (arena_in m.old) old }
    requires value { Owns (arena_in m.old) value }
    ensures { GoesToFlow result m.new m.old (statement_goes_in m.old (statement_frames.Augment place op at name.entry old) (value_in m.old value)) }
{
    match star_builtins::augment(
        &mut m.session.arena,
        &mut m.session.work,
        op,
        old,
        value,
        place,
    ) {
        Ok(changed) => name_gets(m, at, name, changed),
        Err(Stop::Fault(fault)) => Ok(Control::Left(fault)),
        Err(Stop::Memory) => Err(Memory),
    }
}

/// A name, at a place, gets a value, and the statement ends.
pub(crate) fn name_gets<'p>(
    m: &mut Machine<'p>,
    place: Place,
    name: &Text,
    value: Value,
) -> Result<Control<'p>, Memory>
    requires sound { Sound m.old }
    requires value { Owns (arena_in m.old) value }
    ensures { GoesToFlow result m.new m.old (concluded (written_in m.old place name.now (value_in m.old value)) (nodes_in m.old)) }
{
    settle_flow(write(&mut m.session, m.scope.as_slice(), place, name, value))
}

/// What a value has at an index, then the value of an expression, and then the operation, whose value it gets there.
pub(crate) fn augment_at<'p>(
    m: &mut Machine<'p>,
    place: Place,
    op: BinOp,
    at: Place,
    indexed: Value,
    index: Value,
    expr: &'p Expr,
) -> Result<Control<'p>, Memory>
    requires sound { Sound m.old }
    requires indexed { Owns (arena_in m.old) indexed }
    requires index { Owns (arena_in m.old) index }
    ensures { GoesToFlow result m.new m.old (statement_goes_in m.old (statement_frames.AugmentAt place op at indexed expr.entry) (value_in m.old index)) }
{
    let session = &mut m.session;
    match star_ops::index(&mut session.arena, &mut session.work, indexed, index, at) {
        Ok(old) => {
            let frame = InStatement::AugmentIndex(place, op, at, indexed, index, old);
            within(m, frame, expr)
        }
        Err(Stop::Fault(fault)) => Ok(Control::Left(fault)),
        Err(Stop::Memory) => Err(Memory),
    }
}

/// A value gets at an index what the operation gives for what it had there, and the statement ends.
pub(crate) fn augmented_at<'p>(
    m: &mut Machine<'p>,
    place: Place,
    op: BinOp,
    at: Place,
    indexed: (Value, Value),
    old: Value,
    value: Value,
) -> Result<Control<'p>, Memory>
    requires sound { Sound m.old }
    requires indexed { Owns (arena_in m.old) indexed.0 }
    requires index { Owns (arena_in m.old) indexed.1 }
    requires old { Owns (arena_in m.old) old }
    requires value { Owns (arena_in m.old) value }
    ensures { GoesToFlow result m.new m.old
        (statement_goes_in m.old (statement_frames.AugmentIndex place op at indexed.0 indexed.1 old) (value_in m.old value)) }
{
    let session = &mut m.session;
    match star_builtins::augment(&mut session.arena, &mut session.work, op, old, value, place) {
        Ok(changed) => index_gets(m, at, indexed, changed),
        Err(Stop::Fault(fault)) => Ok(Control::Left(fault)),
        Err(Stop::Memory) => Err(Memory),
    }
}

/// A value gets another one at an index, and the statement ends.
fn index_gets<'p>(
    m: &mut Machine<'p>,
    place: Place,
    indexed: (Value, Value),
    new: Value,
) -> Result<Control<'p>, Memory>
    requires sound { Sound m.old }
    requires indexed { Owns (arena_in m.old) indexed.0 }
    requires index { Owns (arena_in m.old) indexed.1 }
    requires new { Owns (arena_in m.old) new }
    ensures { GoesToFlow result m.new m.old
        (concluded (set_index_row place (value_in m.old indexed.0) (value_in m.old indexed.1) (value_in m.old new)) (nodes_in m.old)) }
{
    let (value, index) = indexed;
    settle_flow(set_at(&mut m.session, place, value, index, new))
}
