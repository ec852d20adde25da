// The loop.
ghost use Rattle.std.specs.Prelude.{◌≡◌, IfOk, true, false};
ghost use Rattle.node_build.specs.View.{OwnsNodes};
ghost use Rattle.star_values.specs.Owns.{Grows, Owns, OwnsArguments, OwnsEnv};
ghost use Rattle.star_eval.specs.Finishes.{Finishes, block_ending, block_run, call_ending, called};
ghost use Rattle.star_eval.specs.Frames.{GoesTo, asks_host, given_by, is_active, left_by, means};
ghost use Rattle.star_eval.specs.Hosted.{Comes, hosted_at};
ghost use Rattle.star_eval.specs.Hosts.{OwnsHosted, OwnsQuestion};
ghost use Rattle.star_eval.specs.declared.frame.Control.TheVariants as control;
ghost use Rattle.star_spec.specs.Hosts.{hosted};
ghost use Rattle.star_eval.specs.Meets.{arena_of};
ghost use Rattle.star_eval.specs.View.{OwnsControl, Sound, arena_in};
ghost use Rattle.star_eval.specs.Waiting.{end_env, flow_ends, value_ends};
ghost use Rattle.star_eval.specs.Scope.{variables_in};

use crate::assign::assign;
use crate::calls::call;
use crate::comprehensions::clauses;
use crate::eval::eval;
use crate::frame::{Asking, Code, Control, Flow, Machine, Question};
use crate::give::give;
use crate::host::Host;
use crate::machine::form_fault;
use crate::natives::{answered, go_on};
use crate::run::run;
use crate::session::Session;
use crate::went::{bagged, fail, went};
use node_build::Builder;
use object_arena::{Boxes, CallArgs, Value};
use sqlite_items::Items;
use star_blocks::Op;
use star_functions::Functions;
use std::alloc::Global;
use ytt_base::fault::{Fault, Place, Stop};
use ytt_base::text::Memory;

/// A machine with nothing more to do.
#[derive(Drop)]
struct Stopped<'p> {
    machine: Machine<'p>,
    control: Control<'p>,
}

/// Whether there is more to do.
fn goes_on<'p>(m: &Machine<'p>, control: &Control<'p>) -> bool
    ensures { result ≡ is_active m.now control.now }
{
    match control {
        Control::Eval(_) => true,
        Control::Gave(_) => !m.frames.is_empty(),
        Control::Failed(_) => !m.frames.is_empty(),
        Control::Run(_) => true,
        Control::Went(_) => !m.frames.is_empty(),
        Control::Left(_) => !m.frames.is_empty(),
        Control::Assign(_, _, _) => true,
        Control::Clauses(_, _, _) => true,
        Control::Bagged(_) => !m.frames.is_empty(),
        Control::Lost(_) => !m.frames.is_empty(),
        Control::Ask(_, _) => true,
    }
}

/// One step, where there is more to do and no host is asked.
fn step<'p>(m: &mut Machine<'p>, control: Control<'p>) -> Result<Control<'p>, Memory>
    requires active { is_active m.old control ≡ true }
    requires alone { asks_host control ≡ false }
    requires sound { Sound m.old }
    requires control { OwnsControl (arena_in m.old) control }
    ensures { GoesTo result m.new m.old (means m.old control.entry) }
{
    match control {
        Control::Eval(expr) => eval(m, expr),
        Control::Gave(value) => match m.frames.pop() {
            None => Ok(Control::Gave(value)),
            Some(frame) => give(m, frame, value),
        },
        Control::Failed(fault) => match m.frames.pop() {
            None => Ok(Control::Failed(fault)),
            Some(frame) => fail(m, frame, fault),
        },
        Control::Run(block) => run(m, block),
        Control::Went(flow) => match m.frames.pop() {
            None => Ok(Control::Went(flow)),
            Some(frame) => went(m, frame, flow),
        },
        Control::Left(fault) => match m.frames.pop() {
            None => Ok(Control::Left(fault)),
            Some(frame) => fail(m, frame, fault),
        },
        Control::Assign(place, target, value) => assign(m, place, target, value),
        Control::Clauses(place, rest, bag) => clauses(m, place, rest, bag),
        Control::Bagged(bag) => match m.frames.pop() {
            None => Ok(Control::Bagged(bag)),
            Some(frame) => bagged(m, frame, bag),
        },
        Control::Lost(fault) => match m.frames.pop() {
            None => Ok(Control::Lost(fault)),
            Some(frame) => fail(m, frame, fault),
        },
        Control::Ask(_, _) => unreachable!(),
    }
}

/// A host is asked about a native, and what follows from its answer.
fn ask<'p, H: Host>(
    m: &mut Machine<'p>,
    host: &mut H,
    asking: Asking,
    question: Question,
) -> Result<Control<'p>, Memory>
    requires sound { Sound m.old }
    requires native { OwnsHosted (arena_in m.old) asking.native }
    requires question { OwnsQuestion (arena_in m.old) question }
    ensures { IfOk result (λ c. Comes H.answers (arena_in m.old) m.new c host.new (hosted_at H.answers (means m.old (control.Ask asking question)) host.old)) }
{
    match answered(&mut m.session, host, asking, question) {
        Ok(reply) => go_on(m, asking, reply),
        Err(Stop::Fault(fault)) => Ok(Control::Failed(fault)),
        Err(Stop::Memory) => Err(Memory),
    }
}

/// One step, where there is more to do.
fn turn<'p, H: Host>(
    m: &mut Machine<'p>,
    host: &mut H,
    control: Control<'p>,
) -> Result<Control<'p>, Memory>
    requires active { is_active m.old control ≡ true }
    requires sound { Sound m.old }
    requires control { OwnsControl (arena_in m.old) control }
    ensures { IfOk result (λ c. Comes H.answers (arena_in m.old) m.new c host.new (hosted_at H.answers (means m.old control.entry) host.old)) }
{
    match control {
        Control::Ask(asking, question) => ask(m, host, asking, question.into_inner()),
        other => step(m, other),
    }
}

/// Goes on until there is nothing more to do. No run takes as many turns as a count of 64 bits has; the steps end it long
/// before.
fn run_down<'p, H: Host>(
    machine: Machine<'p>,
    start: Control<'p>,
    host: &mut H,
) -> Result<Stopped<'p>, Memory>
    requires sound { Sound machine }
    requires control { OwnsControl (arena_in machine) start }
    ensures comes { IfOk result (λ e.
        Comes H.answers (arena_in machine.entry) e.machine e.control host.new (hosted_at H.answers (means machine.entry start.entry) host.old)) }
    ensures over { IfOk result (λ e. is_active e.machine e.control ≡ false) }
{
    let mut machine = machine;
    let mut control = start;
    let mut turns_left = u64::MAX;
    while goes_on(&machine, &control) {
        if turns_left == 0 {
            return Err(Memory);
        }
        turns_left -= 1;
        control = turn(&mut machine, host, control)?;
    }
    Ok(Stopped { machine, control })
}

/// How a block ended: the session after it with the scope and the nodes that are open then, and how it was left or its fault.
#[derive(Drop)]
pub(crate) struct Finished {
    pub session: Session,
    pub scope: Boxes,
    pub nodes: Builder,
    pub result: Result<Flow, Fault>,
}

/// How a block ended that goes on to this, with this fault where something else comes.
fn how_left(control: Control<'_>, form: Fault) -> Result<Flow, Fault>
    ensures { result ≡ left_by form control.entry }
{
    match control {
        Control::Went(flow) => Ok(flow),
        Control::Failed(fault) => Err(fault),
        Control::Left(fault) => Err(fault),
        Control::Eval(_expr) => Err(form),
        Control::Run(_block) => Err(form),
        Control::Gave(_value) => Err(form),
        Control::Assign(_place, _target, _value) => Err(form),
        Control::Clauses(_place, _clauses, _bag) => Err(form),
        Control::Bagged(_bag) => Err(form),
        Control::Lost(fault) => Err(fault),
        Control::Ask(_asking, _question) => Err(form),
    }
}

/// How a block ended, where there is nothing more to do.
fn flow_at_end<'p>(machine: Machine<'p>, control: Control<'p>) -> Finished
    requires over { is_active machine control ≡ false }
    requires sound { Sound machine }
    ensures ended { block_ending result ≡ flow_ends (means machine.entry control.entry) }
    ensures finishes { Finishes (arena_in machine.entry) (end_env (means machine.entry control.entry)) result }
{
    let form = form_fault(&machine.session.arena);
    let Machine {
        session,
        scope,
        nodes,
        ..
    } = machine;
    let result = how_left(control, form);
    Finished {
        session,
        scope,
        nodes,
        result,
    }
}

/// Runs a block of this code in a scope, where so many calls may stand in one another and a host answers its natives, with the
/// session, the scope and the open nodes that it leaves.
pub(crate) fn run_block<'p, H: Host>(
    alloc: Global,
    code: Code<'p>,
    depth: u32,
    block: &'p [Op],
    scope: Boxes,
    session: Session,
    nodes: Builder,
    host: &mut H,
) -> Result<Finished, Memory>
    requires scope { OwnsEnv (arena_of session) scope }
    requires nodes { OwnsNodes (arena_of session) nodes }
    ensures ended { IfOk result (λ e.
        hosted H.answers (block_ending e) host.new ≡ hosted H.answers (block_run code.entry depth block.now scope nodes session) host.old) }
    ensures finishes { IfOk result (Finishes (arena_of session) (variables_in session scope)) }
{
    let machine = Machine {
        code,
        depth,
        scope,
        session,
        nodes,
        frames: Items::new(alloc),
    };
    let Stopped { machine, control } = run_down(machine, Control::Run(block), host)?;
    Ok(flow_at_end(machine, control))
}

/// What a call gave or the fault that it ended with, and the session after it.
#[derive(Drop)]
pub(crate) struct Called {
    pub session: Session,
    pub result: Result<Value, Fault>,
}

/// What a call gave that goes on to this, with this fault where something else comes.
fn what_given(control: Control<'_>, form: Fault) -> Result<Value, Fault>
    ensures { result ≡ given_by form control.entry }
{
    match control {
        Control::Gave(value) => Ok(value),
        Control::Failed(fault) => Err(fault),
        Control::Left(fault) => Err(fault),
        Control::Eval(_expr) => Err(form),
        Control::Run(_block) => Err(form),
        Control::Went(_flow) => Err(form),
        Control::Assign(_place, _target, _value) => Err(form),
        Control::Clauses(_place, _clauses, _bag) => Err(form),
        Control::Bagged(_bag) => Err(form),
        Control::Lost(fault) => Err(fault),
        Control::Ask(_asking, _question) => Err(form),
    }
}

/// What a call gave, where there is nothing more to do.
fn value_at_end<'p>(machine: Machine<'p>, control: Control<'p>) -> Called
    requires over { is_active machine control ≡ false }
    requires control { OwnsControl (arena_in machine) control }
    ensures ended { call_ending result ≡ value_ends (means machine.entry control.entry) }
    ensures owned { IfOk result.result (Owns (arena_of result.session)) }
    ensures arena { arena_of result.session ≡ arena_in machine.entry }
{
    let form = form_fault(&machine.session.arena);
    let result = what_given(control, form);
    Called {
        session: machine.session,
        result,
    }
}

/// Calls a value with these arguments at a place, where so many calls may stand in one another, these functions are known, and a host
/// answers natives, with the session that the call leaves.
pub(crate) fn run_call<'p, H: Host>(
    alloc: Global,
    functions: Functions<'p>,
    depth: u32,
    session: Session,
    place: Place,
    function: Value,
    args: CallArgs,
    host: &mut H,
) -> Result<Called, Memory>
    requires function { Owns (arena_of session) function }
    requires args { OwnsArguments (arena_of session) args }
    ensures ended { IfOk result (λ e.
        hosted H.answers (call_ending e) host.new ≡ hosted H.answers (called functions.entry depth place function args session) host.old) }
    ensures owned { IfOk result (λ e. IfOk e.result (Owns (arena_of e.session))) }
    ensures grows { IfOk result (λ e. Grows (arena_of session) (arena_of e.session)) }
{
    let code = Code {
        file: place.file,
        functions,
    };
    let scope = Items::new(alloc);
    let nodes = Builder::new(alloc);
    let frames = Items::new(alloc);
    let mut machine = Machine {
        code,
        depth,
        scope,
        session,
        nodes,
        frames,
    };
    let control = call(&mut machine, place, function, args)?;
    let Stopped { machine, control } = run_down(machine, control, host)?;
    Ok(value_at_end(machine, control))
}
