// Loops.
ghost use Rattle.std.specs.Prelude.{◌≡◌, IfOk};
ghost use Rattle.star_spec.specs.Flow.{turns};
ghost use Rattle.star_values.specs.Owns.{Owns};
ghost use Rattle.star_values.specs.View.{View, value_of};
ghost use Rattle.star_eval.specs.Frames.{GoesToFlow};
ghost use Rattle.star_eval.specs.Meets.{Begins, arena_of};
ghost use Rattle.star_eval.specs.Doing.{looped};
ghost use Rattle.star_eval.specs.Sources.{IsWalkOf, OwnsMembers, OwnsSource, Walked, all_members, members_at};
ghost use Rattle.star_eval.specs.View.{Sound, arena_in, nodes_in, setting_of};
ghost use Rattle.star_eval.specs.Waiting.{turn_and_more, walked};
ghost use Rattle.star_eval.specs.Seen.{expr_in, left_in, members_walked, through_in, turn_in, value_in};

use crate::frame::{Control, Flow, Frame, InBlock, InStatement, Machine};
use crate::machine::{left, push_statement, settle_run};
use crate::names::write;
use crate::session::Session;
use crate::source::{Members, Source, members_of};
use object_arena::{Ref, Value};
use sqlite_items::Boxed;
use star_blocks::Op;
use star_tree::code::Expr;
use ytt_base::fault::{FaultKind, Place};
use ytt_base::text::Memory;

/// The object that a walk over a value goes through, if there is one.
pub(crate) fn walk_of(value: Value) -> Option<Ref>
    ensures { (a : View) → Owns a value → IsWalkOf a (value_of a value) result }
{
    match value {
        Value::List(list) => Some(list),
        Value::Dict(dict) => Some(dict),
        _ => None,
    }
}

/// A loop over this value.
pub(crate) fn walk<'p>(
    m: &mut Machine<'p>,
    place: Place,
    target: &'p Expr,
    body: &'p [Op],
    value: Value,
) -> Result<Control<'p>, Memory>
    requires sound { Sound m.old }
    requires value { Owns (arena_in m.old) value }
    ensures { GoesToFlow result m.new m.old
        (looped (setting_of m.old) place (expr_in m.old target.now) (through_in m.old body.now) (value_in m.old value) (nodes_in m.old)) }
{
    match walk_of(value) {
        Some(object) => walk_object(m, place, target, body, object),
        None => match members_of(&m.session.arena, value)? {
            None => Ok(left(m, FaultKind::ValueKind, place)),
            Some(members) => turn(m, place, target, body, Source::of(members)),
        },
    }
}

/// One more loop walks an object, whose members are lent to it.
#[tactic(auto, using(crate::proofs::Walked::lent_members))]
pub(crate) fn begin(session: &mut Session, object: Ref) -> Result<Members, Memory>
    requires { Walked (arena_of session.old) object }
    ensures begins { IfOk result (λ ms. Begins object.at session.new session.old) }
    ensures members { IfOk result (λ ms. members_at object.at (arena_of session.old).store ≡ all_members (arena_of session.new) ms) }
    ensures owned { IfOk result (OwnsMembers (arena_of session.new)) }
{
    if !session.arena.may_walk(object) {
        return Err(Memory);
    }
    let lent = session.arena.begin_loop(object)?;
    Ok(Members::Lent(lent))
}

/// A loop over the members of an object, which it walks until its end.
fn walk_object<'p>(
    m: &mut Machine<'p>,
    place: Place,
    target: &'p Expr,
    body: &'p [Op],
    object: Ref,
) -> Result<Control<'p>, Memory>
    requires sound { Sound m.old }
    requires object { Walked (arena_in m.old) object }
    ensures { GoesToFlow result m.new m.old
        (walked object.at (turns place (turn_in m.old place target.now body.now) (members_walked m.old object)) (nodes_in m.old)) }
{
    let members = begin(&mut m.session, object)?;
    m.frames.push(Frame::Block(InBlock::WalkEnd(object)))?;
    turn(m, place, target, body, Source::of(members))
}

/// The turn of a loop for the next member, or its end. Each turn takes a step.
pub(crate) fn turn<'p>(
    m: &mut Machine<'p>,
    place: Place,
    target: &'p Expr,
    body: &'p [Op],
    source: Source,
) -> Result<Control<'p>, Memory>
    requires sound { Sound m.old }
    requires source { OwnsSource (arena_in m.old) source }
    ensures { GoesToFlow result m.new m.old (turns place (turn_in m.old place target.now body.now) (left_in m.old source) (nodes_in m.old)) }
{
    match source.advance(&m.session.arena)? {
        None => Ok(Control::Went(Flow::On)),
        Some((value, source)) => {
            if m.session.work.steps == 0 {
                return Ok(left(m, FaultKind::Steps, place));
            }
            m.session.work.steps -= 1;
            enter(m, place, target, body, value, source)
        }
    }
}

/// The turn for a value after its step, and then the others.
fn enter<'p>(
    m: &mut Machine<'p>,
    place: Place,
    target: &'p Expr,
    body: &'p [Op],
    value: Value,
    source: Source,
) -> Result<Control<'p>, Memory>
    requires sound { Sound m.old }
    requires value { Owns (arena_in m.old) value }
    requires source { OwnsSource (arena_in m.old) source }
    ensures { GoesToFlow result m.new m.old
        (turn_and_more place (turn_in m.old place target.now body.now) (value_in m.old value) (left_in m.old source) (nodes_in m.old)) }
{
    let source = Boxed::new(m.session.arena.alloc(), source)?;
    let frame = InBlock::Turn(place, target, body, source);
    m.frames.push(Frame::Block(frame))?;
    bound(m, place, target, body, value)
}

/// A block behind its target, which gets a value.
fn bound<'p>(
    m: &mut Machine<'p>,
    place: Place,
    target: &'p Expr,
    body: &'p [Op],
    value: Value,
) -> Result<Control<'p>, Memory>
    requires sound { Sound m.old }
    requires value { Owns (arena_in m.old) value }
    ensures { GoesToFlow result m.new m.old (turn_in m.old place target.now body.now (value_in m.old value) (nodes_in m.old)) }
{
    match target {
        Expr::Name(line, name) => {
            let at = Place {
                file: m.code.file,
                line: *line,
            };
            let done = write(&mut m.session, m.scope.as_slice(), at, name, value);
            settle_run(done, body)
        }
        _ => {
            let control = Control::Assign(place, target, value);
            push_statement(m, InStatement::Enter(body), control)
        }
    }
}
