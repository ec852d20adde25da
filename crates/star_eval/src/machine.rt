// What is put on others, and ways to end.
ghost use Rattle.std.specs.Prelude.{◌≡◌, ◌∷◌};
ghost use Rattle.ytt_base.specs.declared.fault.FaultKind.TheVariants as kind;
ghost use Rattle.ytt_base.specs.Outcomes.{fault_at, fault_of};
ghost use Rattle.star_eval.specs.declared.frame.Control.TheVariants as control;
ghost use Rattle.star_eval.specs.Frames.{GoesTo, inside};
ghost use Rattle.star_eval.specs.Settled.{Settles, SettlesFlow, SettlesNone, SettlesRun};
ghost use Rattle.star_eval.specs.View.{OwnsControl, OwnsFrame, OwnsInStatement, OwnsInValue, Sound, arena_in, waiting_in, waiting_with};
ghost use Rattle.star_eval.specs.Waiting.{in_statement, in_value};
ghost use Rattle.star_eval.specs.Seen.{statement_frame_in, value_frame_in};

use crate::frame::{Control, Flow, Frame, InStatement, InValue, Machine};
use object_arena::{Arena, Value};
use sqlite_items::Boxed;
use star_blocks::Op;
use ytt_base::fault::{Fault, FaultKind, Place, Stop};
use ytt_base::text::{Memory, Text};

/// Puts a frame on the others, and does this in it.
pub(crate) fn push<'p>(
    m: &mut Machine<'p>,
    frame: Frame<'p>,
    control: Control<'p>,
) -> Result<Control<'p>, Memory>
    requires sound { Sound m.old }
    requires frame { OwnsFrame (arena_in m.old) frame }
    requires control { OwnsControl (arena_in m.old) control }
    ensures { GoesTo result m.new m.old (inside m.old (waiting_with m.old frame.entry) control.entry) }
{
    m.frames.push(frame)?;
    Ok(control)
}

/// The same, in a frame where a value goes on to a value.
pub(crate) fn push_value<'p>(
    m: &mut Machine<'p>,
    frame: InValue<'p>,
    control: Control<'p>,
) -> Result<Control<'p>, Memory>
    requires sound { Sound m.old }
    requires frame { OwnsInValue (arena_in m.old) frame }
    requires control { OwnsControl (arena_in m.old) control }
    ensures { GoesTo result m.new m.old (inside m.old (in_value (value_frame_in m.old frame.entry) ∷ waiting_in m.old) control.entry) }
{
    let boxed = Boxed::new(m.session.arena.alloc(), frame)?;
    push(m, Frame::Value(boxed), control)
}

/// The same, where it goes on to the end of a statement.
pub(crate) fn push_statement<'p>(
    m: &mut Machine<'p>,
    frame: InStatement<'p>,
    control: Control<'p>,
) -> Result<Control<'p>, Memory>
    requires sound { Sound m.old }
    requires frame { OwnsInStatement (arena_in m.old) frame }
    requires control { OwnsControl (arena_in m.old) control }
    ensures { GoesTo result m.new m.old (inside m.old (in_statement (statement_frame_in m.old frame.entry) ∷ waiting_in m.old) control.entry) }
{
    let boxed = Boxed::new(m.session.arena.alloc(), frame)?;
    push(m, Frame::Statement(boxed), control)
}

/// What a call that gives a value comes to.
pub(crate) fn settle<'p>(given: Result<Value, Stop>) -> Result<Control<'p>, Memory>
    ensures { Settles given result }
{
    match given {
        Ok(value) => Ok(Control::Gave(value)),
        Err(Stop::Fault(fault)) => Ok(Control::Failed(fault)),
        Err(Stop::Memory) => Err(Memory),
    }
}

/// The same of a call that gives nothing, in the place of a value.
pub(crate) fn settle_none<'p>(done: Result<(), Stop>) -> Result<Control<'p>, Memory>
    ensures { SettlesNone done result }
{
    match done {
        Ok(_) => Ok(Control::Gave(Value::None)),
        Err(Stop::Fault(fault)) => Ok(Control::Failed(fault)),
        Err(Stop::Memory) => Err(Memory),
    }
}

/// The same in the place of the end of a statement.
pub(crate) fn settle_flow<'p>(done: Result<(), Stop>) -> Result<Control<'p>, Memory>
    ensures { SettlesFlow done result }
{
    match done {
        Ok(_) => Ok(Control::Went(Flow::On)),
        Err(Stop::Fault(fault)) => Ok(Control::Left(fault)),
        Err(Stop::Memory) => Err(Memory),
    }
}

/// The same, with a block that runs then.
pub(crate) fn settle_run<'p>(done: Result<(), Stop>, body: &'p [Op]) -> Result<Control<'p>, Memory>
    ensures { SettlesRun body.entry done result }
{
    match done {
        Ok(_) => Ok(Control::Run(body)),
        Err(Stop::Fault(fault)) => Ok(Control::Left(fault)),
        Err(Stop::Memory) => Err(Memory),
    }
}

/// A fault of this kind at a place.
pub(crate) fn fault_at(arena: &Arena, kind: FaultKind, place: Place) -> Fault
    ensures { result ≡ fault_at kind place }
{
    Fault {
        kind,
        place: Some(place),
        detail: Text::new(arena.alloc()),
    }
}

/// The fault of a program in no proper form, of no place.
pub(crate) fn form_fault(arena: &Arena) -> Fault
    ensures { result ≡ fault_of kind.CodeForm }
{
    Fault {
        kind: FaultKind::CodeForm,
        place: None,
        detail: Text::new(arena.alloc()),
    }
}

/// A fault of this kind at a place, in the place of a value.
pub(crate) fn failed<'p>(m: &Machine<'p>, kind: FaultKind, place: Place) -> Control<'p>
    ensures { result ≡ control.Failed (fault_at kind place) }
{
    Control::Failed(fault_at(&m.session.arena, kind, place))
}

/// The same in the place of the end of a block.
pub(crate) fn left<'p>(m: &Machine<'p>, kind: FaultKind, place: Place) -> Control<'p>
    ensures { result ≡ control.Left (fault_at kind place) }
{
    Control::Left(fault_at(&m.session.arena, kind, place))
}

/// The same in the place of what a comprehension has gathered.
pub(crate) fn lost<'p>(m: &Machine<'p>, kind: FaultKind, place: Place) -> Control<'p>
    ensures { result ≡ control.Lost (fault_at kind place) }
{
    Control::Lost(fault_at(&m.session.arena, kind, place))
}

/// The fault of a program in no proper form, in the place of a value.
pub(crate) fn ill_formed<'p>(m: &Machine<'p>) -> Control<'p>
    ensures { result ≡ control.Failed (fault_of kind.CodeForm) }
{
    Control::Failed(form_fault(&m.session.arena))
}

/// The same in the place of the end of a block.
pub(crate) fn ill_flow<'p>(m: &Machine<'p>) -> Control<'p>
    ensures { result ≡ control.Left (fault_of kind.CodeForm) }
{
    Control::Left(form_fault(&m.session.arena))
}
