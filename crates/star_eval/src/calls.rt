// Calls of values, and their ends.
ghost use Rattle.std.specs.Prelude.{false, ◌≡◌, ◌-◌, ◌≤◌, ◌∷◌, [], ℕ, IfOk, option_map};
ghost use Rattle.star_spec.specs.Calls.{enter_code, parameters_of};
ghost use Rattle.star_tree.specs.View.{item_kind_of};
ghost use Rattle.star_tree.specs.Whole as whole;
ghost use Rattle.star_spec.specs.Eval.{starlark};
ghost use Rattle.star_functions.specs.View.{code_of};
ghost use Rattle.star_values.specs.Owns.{Owns, OwnsAll, OwnsArguments, OwnsEnv, OwnsObjectRef};
ghost use Rattle.star_values.specs.declared.value.Sort.TheVariants as sort;
ghost use Rattle.star_values.specs.declared.value.Value.TheVariants as value;
ghost use Rattle.template_meaning.specs.Calls.{enter_ops, level_of};
ghost use Rattle.value_spec.specs.Values.{function_value};
ghost use Rattle.star_eval.specs.declared.frame.Control.TheVariants as control;
ghost use Rattle.star_eval.specs.Calling.{calls_at};
ghost use Rattle.star_eval.specs.Asking.{called_with, keys_in};
ghost use Rattle.star_eval.specs.Hosts.{is_hosted, native_at};
ghost use Rattle.star_eval.specs.Frames.{GoesTo, GoesToValue, Opened, ResultGiven, inside};
ghost use Rattle.star_eval.specs.View.{OwnsCaller, OwnsFlow, Sound, arena_in, in_file, setting_of, waiting_with};
ghost use Rattle.star_eval.specs.declared.frame.Frame.TheVariants as frame;
ghost use Rattle.star_eval.specs.Seen.{arguments_in, called_in, called_within};
ghost use Rattle.star_eval.specs.Scope.{variables_in};

use crate::frame::{Asking, Caller, Control, Flow, Frame, InValue, Machine, Question};
use crate::machine::{failed, ill_formed, settle};
use crate::natives::is_hosted;
use node_build::Builder;
use object_arena::{Boxes, CallArgs, Ref, Value, Values};
use sqlite_items::{Boxed, Items};
use star_builtins::{Asked, own_call};
use star_calls::call_scope;
use star_functions::FunctionCode;
use star_sorting::{Wanted, choose};
use star_tree::ItemKind;
use star_tree::code::Param;
use std::alloc::Global;
use std::mem;
use ytt_base::fault::{FaultKind, Place, Stop};
use ytt_base::text::Memory;

/// A call of a value with these arguments at a place.
pub(crate) fn call<'p>(
    m: &mut Machine<'p>,
    place: Place,
    function: Value,
    args: CallArgs,
) -> Result<Control<'p>, Memory>
    requires sound { Sound m.old }
    requires function { Owns (arena_in m.old) function }
    requires args { OwnsArguments (arena_in m.old) args }
    ensures { GoesToValue result m.new m.old (called_in m.old place function (arguments_in m.old args)) }
{
    let left = m.session.work.steps;
    call_within(m, left, place, function, args)
}

/// A call of a value, in which natives may ask for so many calls.
pub(crate) fn call_within<'p>(
    m: &mut Machine<'p>,
    left: u64,
    place: Place,
    function: Value,
    args: CallArgs,
) -> Result<Control<'p>, Memory>
    requires sound { Sound m.old }
    requires function { Owns (arena_in m.old) function }
    requires args { OwnsArguments (arena_in m.old) args }
    ensures { GoesToValue result m.new m.old (called_within m.old left place function (arguments_in m.old args)) }
{
    match function {
        Value::Func(function) => call_function(m, place, function, args),
        Value::Native(native) => call_native(m, left, place, native, args),
        Value::None
        | Value::Bool(_)
        | Value::Int(_)
        | Value::Text(_)
        | Value::List(_)
        | Value::Dict(_)
        | Value::Tuple(_)
        | Value::Range(_)
        | Value::Struct(_)
        | Value::Fragment(_)
        | Value::Module(_) => Ok(failed(m, FaultKind::ValueKind, place)),
    }
}

/// A call of a native: a host is asked for its own.
fn call_native<'p>(
    m: &mut Machine<'p>,
    left: u64,
    place: Place,
    native: Ref,
    args: CallArgs,
) -> Result<Control<'p>, Memory>
    requires sound { Sound m.old }
    requires native { Owns (arena_in m.old) (value.Native native) }
    requires args { OwnsArguments (arena_in m.old) args }
    ensures { GoesToValue result m.new m.old (called_within m.old left place (value.Native native) (arguments_in m.old args)) }
{
    if is_hosted(&m.session.arena, native) {
        let asking = Asking {
            left,
            place,
            native,
        };
        let question = Boxed::new(m.session.arena.alloc(), Question::Called(args))?;
        return Ok(Control::Ask(asking, question));
    }
    call_own(m, left, place, native, args)
}

/// A call of a native of the language, which answers it, or asks for keys.
fn call_own<'p>(
    m: &mut Machine<'p>,
    left: u64,
    place: Place,
    native: Ref,
    args: CallArgs,
) -> Result<Control<'p>, Memory>
    requires sound { Sound m.old }
    requires native { Owns (arena_in m.old) (value.Native native) }
    requires own { is_hosted (native_at (arena_in m.old) native) ≡ false }
    requires args { OwnsArguments (arena_in m.old) args }
    ensures { GoesToValue result m.new m.old (called_within m.old left place (value.Native native) (arguments_in m.old args)) }
{
    match own_call(
        &mut m.session.arena,
        &mut m.session.work,
        native,
        args,
        place,
    ) {
        Ok(Asked::Value(value)) => Ok(Control::Gave(value)),
        Ok(Asked::Keys(wanted, function, members)) => {
            let keys = Items::new(m.session.arena.alloc());
            next_key(m, left, place, wanted, function, members, keys)
        }
        Err(Stop::Fault(fault)) => Ok(Control::Failed(fault)),
        Err(Stop::Memory) => Err(Memory),
    }
}

/// What is wanted of members by these keys of theirs, and those that a function gives for the members that are left.
pub(crate) fn next_key<'p>(
    m: &mut Machine<'p>,
    left: u64,
    place: Place,
    wanted: Wanted,
    function: Value,
    members: Values,
    keys: Values,
) -> Result<Control<'p>, Memory>
    requires sound { Sound m.old }
    requires function { Owns (arena_in m.old) function }
    requires members { OwnsAll (arena_in m.old) members }
    requires keys { OwnsAll (arena_in m.old) keys }
    ensures { GoesToValue result m.new m.old (keys_in m.old left place wanted function members keys) }
{
    match members.get(keys.len()) {
        None => settle(choose(
            &mut m.session.arena,
            &mut m.session.work.steps,
            wanted,
            members.as_slice(),
            keys.as_slice(),
            place,
        )),
        Some(member) => {
            let member = *member;
            let frame = InValue::Key(left, place, wanted, function, members, keys);
            let boxed = Boxed::new(m.session.arena.alloc(), frame)?;
            m.frames.push(Frame::Value(boxed))?;
            call_for_key(m, left, place, function, member)
        }
    }
}

/// One argument by position.
fn one_argument(alloc: Global, value: Value) -> Result<CallArgs, Memory>
    ensures { IfOk result (λ args. args ≡ record { positional = value ∷ []; named = [] }) }
{
    let mut positional = Items::new(alloc);
    positional.push(value)?;
    let named = Items::new(alloc);
    Ok(CallArgs { positional, named })
}

/// A call of a value with one argument.
fn call_for_key<'p>(
    m: &mut Machine<'p>,
    left: u64,
    place: Place,
    function: Value,
    member: Value,
) -> Result<Control<'p>, Memory>
    requires sound { Sound m.old }
    requires function { Owns (arena_in m.old) function }
    requires member { Owns (arena_in m.old) member }
    ensures { GoesToValue result m.new m.old (called_with m.old left place function member) }
{
    let args = one_argument(m.session.arena.alloc(), member)?;
    match function {
        Value::Func(function) => call_function(m, place, function, args),
        Value::Native(native) => native_for_key(m, left, place, native, member, args),
        Value::None
        | Value::Bool(_)
        | Value::Int(_)
        | Value::Text(_)
        | Value::List(_)
        | Value::Dict(_)
        | Value::Tuple(_)
        | Value::Range(_)
        | Value::Struct(_)
        | Value::Fragment(_)
        | Value::Module(_) => Ok(failed(m, FaultKind::ValueKind, place)),
    }
}

/// A call of a native with this member as its one argument: a host is asked for its own.
fn native_for_key<'p>(
    m: &mut Machine<'p>,
    left: u64,
    place: Place,
    native: Ref,
    member: Value,
    args: CallArgs,
) -> Result<Control<'p>, Memory>
    requires sound { Sound m.old }
    requires native { Owns (arena_in m.old) (value.Native native) }
    requires member { Owns (arena_in m.old) member }
    requires args { args ≡ record { positional = member ∷ []; named = [] } }
    ensures { GoesToValue result m.new m.old (called_with m.old left place (value.Native native) member) }
{
    if is_hosted(&m.session.arena, native) {
        let asking = Asking {
            left,
            place,
            native,
        };
        let question = Boxed::new(m.session.arena.alloc(), Question::Called(args))?;
        return Ok(Control::Ask(asking, question));
    }
    own_for_key(m, left, place, native, member, args)
}

/// A call of a native of the language with this member as its one argument, for which none asks for keys.
fn own_for_key<'p>(
    m: &mut Machine<'p>,
    left: u64,
    place: Place,
    native: Ref,
    member: Value,
    args: CallArgs,
) -> Result<Control<'p>, Memory>
    requires sound { Sound m.old }
    requires native { Owns (arena_in m.old) (value.Native native) }
    requires own { is_hosted (native_at (arena_in m.old) native) ≡ false }
    requires member { Owns (arena_in m.old) member }
    requires args { args ≡ record { positional = member ∷ []; named = [] } }
    ensures { GoesToValue result m.new m.old (called_with m.old left place (value.Native native) member) }
{
    match own_call(
        &mut m.session.arena,
        &mut m.session.work,
        native,
        args,
        place,
    ) {
        Ok(Asked::Value(value)) => Ok(Control::Gave(value)),
        Ok(Asked::Keys(_wanted, _function, _members)) => unreachable!(),
        Err(Stop::Fault(fault)) => Ok(Control::Failed(fault)),
        Err(Stop::Memory) => Err(Memory),
    }
}

/// A call of a function. Where no more calls may stand in one another, it is `Depth`.
fn call_function<'p>(
    m: &mut Machine<'p>,
    place: Place,
    function: Ref,
    args: CallArgs,
) -> Result<Control<'p>, Memory>
    requires sound { Sound m.old }
    requires function { OwnsObjectRef (arena_in m.old) sort.Func function }
    requires args { OwnsArguments (arena_in m.old) args }
    ensures { GoesToValue result m.new m.old ((setting_of m.old).function place (function_value function.at) (arguments_in m.old args)) }
{
    let known = m.session.arena.function(function);
    let file = known.file;
    let number = known.code as usize;
    if m.depth == 0 {
        return Ok(failed(m, FaultKind::Depth, place));
    }
    let (code, opened) = match m.code.functions.find(file, number) {
        None => return Ok(ill_formed(m)),
        Some(found) => {
            let params = params_of(found.code);
            let arena = &mut m.session.arena;
            (
                found.code,
                call_scope(arena, params, &found.fresh, function, args, place),
            )
        }
    };
    match opened {
        Ok(scope) => enter(m, file, code, scope),
        Err(Stop::Fault(fault)) => Ok(Control::Failed(fault)),
        Err(Stop::Memory) => Err(Memory),
    }
}

/// The parameters of a function.
fn params_of<'p>(code: FunctionCode<'p>) -> &'p [Param]
    ensures { (file : ℕ) → whole.parameters_of file result.now ≡ parameters_of (code_of file code.entry) }
{
    match code {
        FunctionCode::Lambda(params, _) => params.as_slice(),
        FunctionCode::Def(params, _, _) => params.as_slice(),
    }
}

/// How many collections stand around what a function builds: a list of documents doesn't count.
fn level_of(fragment: Option<ItemKind>) -> u32
    ensures { result ≡ level_of (option_map item_kind_of fragment) }
{
    match fragment {
        None => 0,
        Some(ItemKind::Document) => 0,
        Some(ItemKind::Pair) => 1,
        Some(ItemKind::Element) => 1,
    }
}

/// The code of a function of a file in its scope, with one call less that may stand in it.
fn enter<'p>(
    m: &mut Machine<'p>,
    file: u32,
    code: FunctionCode<'p>,
    scope: Boxes,
) -> Result<Control<'p>, Memory>
    requires sound { Sound m.old }
    requires scope { OwnsEnv (arena_in m.old) scope }
    requires depth { 1 ≤ m.old.depth }
    ensures { GoesToValue result m.new m.old
        (enter_code starlark (enter_ops starlark) (calls_at m.old.code.functions (m.old.depth - 1)) (code_of file code.entry)
        (variables_in m.old.session scope)) }
{
    match code {
        FunctionCode::Lambda(_, body) => {
            open_call(m, file, None, scope)?;
            Ok(Control::Eval(body))
        }
        FunctionCode::Def(_, fragment, body) => {
            open_call(m, file, fragment, scope)?;
            Ok(Control::Run(body))
        }
    }
}

/// Puts the frame of a call on the others, and goes on in this file and scope with no open nodes of its caller.
fn open_call(
    m: &mut Machine<'_>,
    file: u32,
    fragment: Option<ItemKind>,
    scope: Boxes,
) -> Result<(), Memory>
    requires depth { 1 ≤ m.old.depth }
    ensures { IfOk result (λ u. Opened file fragment scope m.old m.new) }
{
    let nodes = Builder::within(m.session.arena.alloc(), level_of(fragment));
    let alloc = m.session.arena.alloc();
    let caller = Caller {
        file: m.code.file,
        depth: m.depth,
        scope: mem::replace(&mut m.scope, scope),
        nodes: mem::replace(&mut m.nodes, nodes),
        fragment,
    };
    m.code.file = file;
    m.depth -= 1;
    m.frames.push(Frame::Call(Boxed::new(alloc, caller)?))?;
    Ok(())
}

/// What there was before a call is there again.
pub(crate) fn restore(m: &mut Machine<'_>, caller: Caller)
    ensures { m.new ≡ record m.old { code = in_file caller.file m.old.code; depth = caller.depth; scope = caller.scope; nodes = caller.nodes } }
{
    m.code.file = caller.file;
    m.depth = caller.depth;
    m.scope = caller.scope;
    m.nodes = caller.nodes;
}

/// What a call gives whose block ended so: a fragment of what it built, or what it returned, None where it returned nothing.
fn result_of(m: &mut Machine<'_>, fragment: Option<ItemKind>, flow: Flow) -> Result<Value, Memory>
    requires sound { Sound m.old }
    requires flow { OwnsFlow (arena_in m.old) flow }
    ensures { IfOk result (ResultGiven fragment flow m.old m.new) }
{
    match fragment {
        Some(kind) => {
            let empty = Builder::new(m.session.arena.alloc());
            let items = mem::replace(&mut m.nodes, empty).into_children();
            m.session.arena.new_fragment(kind, items)
        }
        None => match flow {
            Flow::Return(value) => Ok(value),
            Flow::On => Ok(Value::None),
            Flow::Break => Ok(Value::None),
            Flow::Continue => Ok(Value::None),
        },
    }
}

/// The end of a call whose block ended so.
pub(crate) fn returned<'p>(
    m: &mut Machine<'p>,
    caller: Caller,
    flow: Flow,
) -> Result<Control<'p>, Memory>
    requires sound { Sound m.old }
    requires caller { OwnsCaller (arena_in m.old) caller }
    requires flow { OwnsFlow (arena_in m.old) flow }
    ensures { GoesTo result m.new m.old (inside m.old (waiting_with m.old (frame.Call caller)) (control.Went flow)) }
{
    let value = result_of(m, caller.fragment, flow)?;
    restore(m, caller);
    Ok(Control::Gave(value))
}
