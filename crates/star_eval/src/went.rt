// What goes on from the end of a block, from what a comprehension has gathered, or from a fault.
ghost use Rattle.std.specs.Prelude.{◌∷◌, IfOk};
ghost use Rattle.ytt_base.specs.declared.fault.FaultKind.TheVariants as kind;
ghost use Rattle.ytt_base.specs.Outcomes.{fault_of};
ghost use Rattle.value_spec.specs.Outcomes.{bad, done};
ghost use Rattle.star_spec.specs.Flow.{on};
ghost use Rattle.star_eval.specs.declared.frame.Control.TheVariants as control;
ghost use Rattle.star_eval.specs.Frames.{GoesTo, GoesToBag, GoesToFlow, inside};
ghost use Rattle.star_eval.specs.Meets.{Ends, arena_of};
ghost use Rattle.star_eval.specs.Sources.{Walked};
ghost use Rattle.star_eval.specs.View.{OwnsBag, OwnsFlow, OwnsFrame, OwnsInBlock, OwnsInClauses, Sound, arena_in, waiting_in, waiting_with};
ghost use Rattle.star_eval.specs.Waiting.{gather};
ghost use Rattle.star_values.specs.Owns.{OwnsEnv};
ghost use Rattle.star_eval.specs.Seen.{bag_in, block_ends_in, clauses_end_in, flow_in};
ghost use Rattle.star_eval.specs.Scope.{variables_in};

use crate::calls::{restore, returned};
use crate::comprehensions::{bag_made, clause_turn};
use crate::frame::{Bag, Caller, Control, Flow, Frame, InBlock, InClauses, Machine};
use crate::machine::form_fault;
use crate::natives::resume;
use crate::session::Session;
use crate::walk::turn;
use object_arena::{Boxes, Ref};
use ytt_base::fault::Fault;
use ytt_base::text::Memory;

/// A frame with this end of a part in its hole.
pub(crate) fn went<'p>(
    m: &mut Machine<'p>,
    frame: Frame<'p>,
    flow: Flow,
) -> Result<Control<'p>, Memory>
    requires sound { Sound m.old }
    requires frame { OwnsFrame (arena_in m.old) frame }
    requires flow { OwnsFlow (arena_in m.old) flow }
    ensures { GoesTo result m.new m.old (inside m.old (waiting_with m.old frame.entry) (control.Went flow)) }
{
    match frame {
        Frame::Block(inner) => go_on(m, inner, flow),
        Frame::Call(caller) => returned(m, caller.into_inner(), flow),
        Frame::Value(inner) => misplaced(m, Frame::Value(inner)),
        Frame::Statement(inner) => misplaced(m, Frame::Statement(inner)),
        Frame::Element(inner) => misplaced(m, Frame::Element(inner)),
        Frame::Clauses(inner) => misplaced(m, Frame::Clauses(inner)),
        Frame::Gather(scope) => misplaced(m, Frame::Gather(scope)),
        Frame::Native(pending) => misplaced(m, Frame::Native(pending)),
    }
}

/// The end of a part in a block or in a loop.
fn go_on<'p>(m: &mut Machine<'p>, frame: InBlock<'p>, flow: Flow) -> Result<Control<'p>, Memory>
    requires sound { Sound m.old }
    requires frame { OwnsInBlock (arena_in m.old) frame }
    requires flow { OwnsFlow (arena_in m.old) flow }
    ensures { GoesToFlow result m.new m.old (λ s. block_ends_in m.old frame.entry (done (flow_in m.old flow) s)) }
{
    match frame {
        InBlock::Rest(rest) => match flow {
            Flow::On => Ok(Control::Run(rest)),
            Flow::Break => Ok(Control::Went(Flow::Break)),
            Flow::Continue => Ok(Control::Went(Flow::Continue)),
            Flow::Return(value) => Ok(Control::Went(Flow::Return(value))),
        },
        InBlock::Turn(place, target, body, source) => match flow {
            Flow::On => turn(m, place, target, body, source.into_inner()),
            Flow::Continue => turn(m, place, target, body, source.into_inner()),
            Flow::Break => Ok(Control::Went(Flow::On)),
            Flow::Return(value) => Ok(Control::Went(Flow::Return(value))),
        },
        InBlock::WalkEnd(object) => {
            end(&mut m.session, object)?;
            Ok(Control::Went(flow))
        }
    }
}

/// A frame with what was gathered so far in its hole.
pub(crate) fn bagged<'p>(
    m: &mut Machine<'p>,
    frame: Frame<'p>,
    bag: Bag<'p>,
) -> Result<Control<'p>, Memory>
    requires sound { Sound m.old }
    requires frame { OwnsFrame (arena_in m.old) frame }
    requires bag { OwnsBag (arena_in m.old) bag }
    ensures { GoesTo result m.new m.old (inside m.old (waiting_with m.old frame.entry) (control.Bagged bag.entry)) }
{
    match frame {
        Frame::Clauses(inner) => next_clause_turn(m, inner.into_inner(), bag),
        Frame::Gather(scope) => gathered(m, scope, bag),
        Frame::Value(inner) => misplaced(m, Frame::Value(inner)),
        Frame::Statement(inner) => misplaced(m, Frame::Statement(inner)),
        Frame::Block(inner) => misplaced(m, Frame::Block(inner)),
        Frame::Element(inner) => misplaced(m, Frame::Element(inner)),
        Frame::Call(caller) => misplaced(m, Frame::Call(caller)),
        Frame::Native(pending) => misplaced(m, Frame::Native(pending)),
    }
}

/// The end of a turn of a clause.
fn next_clause_turn<'p>(
    m: &mut Machine<'p>,
    frame: InClauses<'p>,
    bag: Bag<'p>,
) -> Result<Control<'p>, Memory>
    requires sound { Sound m.old }
    requires frame { OwnsInClauses (arena_in m.old) frame }
    requires bag { OwnsBag (arena_in m.old) bag }
    ensures { GoesToBag result m.new m.old (λ s. clauses_end_in m.old frame.entry (done (on (bag_in m.old bag.entry)) s)) }
{
    match frame {
        InClauses::Turn(place, target, clauses, source) => {
            clause_turn(m, place, target, clauses, source, bag)
        }
        InClauses::WalkEnd(object) => {
            end(&mut m.session, object)?;
            Ok(Control::Bagged(bag))
        }
    }
}

/// What a comprehension has gathered, in the scope around it.
fn gathered<'p>(m: &mut Machine<'p>, scope: Boxes, bag: Bag<'p>) -> Result<Control<'p>, Memory>
    requires sound { Sound m.old }
    requires scope { OwnsEnv (arena_in m.old) scope }
    requires bag { OwnsBag (arena_in m.old) bag }
    ensures { GoesTo result m.new m.old (inside m.old (gather (variables_in m.old.session scope) ∷ waiting_in m.old) (control.Bagged bag.entry)) }
{
    m.scope = scope;
    bag_made(m, bag)
}

/// One loop less walks an object.
fn end(session: &mut Session, object: Ref) -> Result<(), Memory>
    requires { Walked (arena_of session.old) object }
    ensures { IfOk result (λ u. Ends object.at session.new session.old) }
{
    session.arena.end_loop(object)
}

/// A fault in the hole of a frame, which ends its walk, brings the scope and the nodes of a caller back, and is told to a native.
pub(crate) fn fail<'p>(
    m: &mut Machine<'p>,
    frame: Frame<'p>,
    fault: Fault,
) -> Result<Control<'p>, Memory>
    requires sound { Sound m.old }
    requires frame { OwnsFrame (arena_in m.old) frame }
    ensures { GoesTo result m.new m.old (inside m.old (waiting_with m.old frame.entry) (control.Failed fault)) }
{
    match frame {
        Frame::Value(_inner) => Ok(Control::Failed(fault)),
        Frame::Statement(_inner) => Ok(Control::Left(fault)),
        Frame::Block(inner) => leave_block(m, inner, fault),
        Frame::Element(_inner) => Ok(Control::Lost(fault)),
        Frame::Clauses(inner) => leave_clauses(m, inner.into_inner(), fault),
        Frame::Gather(scope) => {
            m.scope = scope;
            Ok(Control::Failed(fault))
        }
        Frame::Call(caller) => {
            restore(m, caller.into_inner());
            Ok(Control::Failed(fault))
        }
        Frame::Native(pending) => resume(m, pending.into_inner(), Err(fault)),
    }
}

/// What comes where a frame waits for something else: the program is in no proper form.
pub(crate) fn misplaced<'p>(m: &mut Machine<'p>, frame: Frame<'p>) -> Result<Control<'p>, Memory>
    requires sound { Sound m.old }
    requires frame { OwnsFrame (arena_in m.old) frame }
    ensures { GoesTo result m.new m.old (inside m.old (waiting_with m.old frame.entry) (control.Failed (fault_of kind.CodeForm))) }
{
    let fault = form_fault(&m.session.arena);
    fail(m, frame, fault)
}

/// A fault in the hole of a part of a block, which ends its walk.
fn leave_block<'p>(
    m: &mut Machine<'p>,
    frame: InBlock<'p>,
    fault: Fault,
) -> Result<Control<'p>, Memory>
    requires sound { Sound m.old }
    requires frame { OwnsInBlock (arena_in m.old) frame }
    ensures { GoesToFlow result m.new m.old (λ s. block_ends_in m.old frame.entry (bad fault s)) }
{
    match frame {
        InBlock::WalkEnd(object) => {
            end(&mut m.session, object)?;
            Ok(Control::Left(fault))
        }
        InBlock::Rest(_rest) => Ok(Control::Left(fault)),
        InBlock::Turn(_place, _target, _body, _source) => Ok(Control::Left(fault)),
    }
}

/// The same of a turn of a clause.
fn leave_clauses<'p>(
    m: &mut Machine<'p>,
    frame: InClauses<'p>,
    fault: Fault,
) -> Result<Control<'p>, Memory>
    requires sound { Sound m.old }
    requires frame { OwnsInClauses (arena_in m.old) frame }
    ensures { GoesToBag result m.new m.old (λ s. clauses_end_in m.old frame.entry (bad fault s)) }
{
    match frame {
        InClauses::WalkEnd(object) => {
            end(&mut m.session, object)?;
            Ok(Control::Lost(fault))
        }
        InClauses::Turn(_place, _target, _clauses, _source) => Ok(Control::Lost(fault)),
    }
}
