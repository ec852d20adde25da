// Arguments of calls and of notes.
ghost use Rattle.std.specs.Prelude.{◌≡◌, []};
ghost use Rattle.node_build.specs.Parts.{noting};
ghost use Rattle.star_calls.specs.View.{form_of};
ghost use Rattle.star_tree.specs.Whole.{expr_of};
ghost use Rattle.star_values.specs.Owns.{Owns, OwnsArguments};
ghost use Rattle.star_eval.specs.Doing.{argument_form, argument_value};
ghost use Rattle.star_eval.specs.Frames.{GoesToFlow, GoesToValue};
ghost use Rattle.star_eval.specs.View.{Sound, arena_in, nodes_in};
ghost use Rattle.star_eval.specs.Seen.{arguments_in, arguments_then_in, called_in, statement_goes_in, value_goes_in, value_in};
ghost use Rattle.star_eval.specs.declared.frame.InValue.TheVariants as value_frames;
ghost use Rattle.star_eval.specs.declared.frame.InStatement.TheVariants as statement_frames;

use crate::calls::call;
use crate::frame::{Control, Flow, InStatement, InValue, Machine};
use crate::machine::{push_statement, push_value};
use object_arena::{BuiltNote, CallArgs, Value};
use sqlite_items::Items;
use star_calls::{ArgumentForm, add_argument};
use star_tree::code::Expr;
use std::alloc::Global;
use ytt_base::fault::{Place, Stop};
use ytt_base::text::{Memory, Text};

/// No arguments.
pub(crate) fn no_arguments(alloc: Global) -> CallArgs
    ensures { result ≡ record { positional = []; named = [] } }
{
    CallArgs {
        positional: Items::new(alloc),
        named: Items::new(alloc),
    }
}

/// How an argument stands, and its value.
fn argument<'p>(file: u32, expr: &'p Expr) -> (ArgumentForm<'p>, &'p Expr)
    ensures form { form_of result.0 ≡ argument_form (expr_of file expr.now) }
    ensures value { expr_of file result.1.now ≡ argument_value (expr_of file expr.now) }
{
    match expr {
        Expr::Named(_, name, value) => (ArgumentForm::Named(name), value.get()),
        Expr::Star(line, value) => {
            let place = Place { file, line: *line };
            (ArgumentForm::Star(place), value.get())
        }
        Expr::Stars(line, value) => {
            let place = Place { file, line: *line };
            (ArgumentForm::Stars(place), value.get())
        }
        Expr::Int(_, _)
        | Expr::Text(_, _)
        | Expr::Name(_, _)
        | Expr::List(_, _)
        | Expr::Tuple(_, _)
        | Expr::Dict(_, _)
        | Expr::Unary(_, _, _)
        | Expr::Binary(_, _, _, _)
        | Expr::And(_, _, _)
        | Expr::Or(_, _, _)
        | Expr::If(_, _, _, _)
        | Expr::Call(_, _, _)
        | Expr::Index(_, _, _)
        | Expr::Slice(_, _, _, _, _)
        | Expr::Dot(_, _, _)
        | Expr::Lambda(_, _, _, _)
        | Expr::ListFor(_, _, _)
        | Expr::DictFor(_, _, _, _)
        | Expr::Template(_, _) => (ArgumentForm::Positional, expr),
    }
}

/// The call of a value with these arguments, and those of these expressions behind them.
pub(crate) fn call_with<'p>(
    m: &mut Machine<'p>,
    place: Place,
    function: Value,
    exprs: &'p [Expr],
    given: CallArgs,
) -> Result<Control<'p>, Memory>
    requires sound { Sound m.old }
    requires function { Owns (arena_in m.old) function }
    requires given { OwnsArguments (arena_in m.old) given }
    ensures { GoesToValue result m.new m.old (arguments_then_in m.old exprs.now given (called_in m.old place function)) }
{
    match exprs.split_first() {
        None => call(m, place, function, given),
        Some((first, rest)) => {
            let (form, expr) = argument(m.code.file, first);
            let frame = InValue::Argument(place, function, form, rest, given);
            push_value(m, frame, Control::Eval(expr))
        }
    }
}

/// The same behind one more argument, which has this value.
pub(crate) fn argued<'p>(
    m: &mut Machine<'p>,
    place: Place,
    function: Value,
    form: ArgumentForm<'p>,
    rest: &'p [Expr],
    given: CallArgs,
    value: Value,
) -> Result<Control<'p>, Memory>
    requires sound { Sound m.old }
    requires function { Owns (arena_in m.old) function }
    requires given { OwnsArguments (arena_in m.old) given }
    requires value { Owns (arena_in m.old) value }
    ensures { GoesToValue result m.new m.old (value_goes_in m.old (value_frames.Argument place function form.entry rest.entry given) (value_in m.old value)) }
{
    let steps = m.session.work.steps;
    match add_argument(&m.session.arena, steps, form, value, given) {
        Ok(more) => call_with(m, place, function, rest, more),
        Err(Stop::Fault(fault)) => Ok(Control::Failed(fault)),
        Err(Stop::Memory) => Err(Memory),
    }
}

/// The note with these arguments, and those of these expressions behind them, at the innermost open node.
pub(crate) fn note_with<'p>(
    m: &mut Machine<'p>,
    name: &'p Text,
    exprs: &'p [Expr],
    given: CallArgs,
) -> Result<Control<'p>, Memory>
    requires sound { Sound m.old }
    requires given { OwnsArguments (arena_in m.old) given }
    ensures { GoesToFlow result m.new m.old (arguments_then_in m.old exprs.now given (λ vs. noting name.now vs (nodes_in m.old))) }
{
    match exprs.split_first() {
        None => noted(m, name, given),
        Some((first, rest)) => {
            let (form, expr) = argument(m.code.file, first);
            let frame = InStatement::NoteArgument(name, form, rest, given);
            push_statement(m, frame, Control::Eval(expr))
        }
    }
}

/// The note with these arguments.
fn noted<'p>(m: &mut Machine<'p>, name: &Text, args: CallArgs) -> Result<Control<'p>, Memory>
    requires sound { Sound m.old }
    requires args { OwnsArguments (arena_in m.old) args }
    ensures { GoesToFlow result m.new m.old (noting name.now (arguments_in m.old args) (nodes_in m.old)) }
{
    let name = name.copy()?;
    m.nodes.note(BuiltNote { name, args })?;
    Ok(Control::Went(Flow::On))
}

/// The note behind one more argument, which has this value.
pub(crate) fn note_argued<'p>(
    m: &mut Machine<'p>,
    name: &'p Text,
    form: ArgumentForm<'p>,
    rest: &'p [Expr],
    given: CallArgs,
    value: Value,
) -> Result<Control<'p>, Memory>
    requires sound { Sound m.old }
    requires given { OwnsArguments (arena_in m.old) given }
    requires value { Owns (arena_in m.old) value }
    ensures { GoesToFlow result m.new m.old
        (statement_goes_in m.old (statement_frames.NoteArgument name.entry form.entry rest.entry given) (value_in m.old value)) }
{
    let steps = m.session.work.steps;
    match add_argument(&m.session.arena, steps, form, value, given) {
        Ok(more) => note_with(m, name, rest, more),
        Err(Stop::Fault(fault)) => Ok(Control::Left(fault)),
        Err(Stop::Memory) => Err(Memory),
    }
}
