// New functions.
ghost use Rattle.std.specs.Prelude.{◌≡◌, ◌∷◌, ℕ, IfNone, IfOk, IfSome, List, Some};
ghost use Rattle.star_tree.specs.Whole.{Parameter, expr_of, parameter_of, parameters_from, parameters_of};
ghost use Rattle.star_values.specs.Owns.{OwnsAll, OwnsEnv};
ghost use Rattle.star_values.specs.View.{values_of};
ghost use Rattle.star_eval.specs.Doing.{function_made, making as plain_making, next_default};
ghost use Rattle.star_eval.specs.Frames.{GoesToValue};
ghost use Rattle.star_eval.specs.Meets.{GivesFrom, arena_of};
ghost use Rattle.star_eval.specs.View.{Sound, arena_in, default_of, making_of, setting_of};
ghost use Rattle.star_eval.specs.Seen.{parameters_in, values_in};
ghost use Rattle.star_eval.specs.Scope.{variables_in};

use crate::frame::{Control, InValue, Machine, Making};
use crate::machine::{push_value, settle};
use crate::session::Session;
use object_arena::{Boxes, Value, Values};
use sqlite_items::Items;
use star_tree::code::{Expr, Param};
use std::alloc::Global;
use ytt_base::fault::Stop;
use ytt_base::text::{Memory, Text};

/// The default of a parameter, if it has one.
fn default_in<'p>(param: &'p Param) -> Option<&'p Expr>
    ensures some { (file : ℕ) → (qs : List Parameter) →
        IfSome result (λ e. next_default (parameters_from (parameter_of file param.now ∷ qs)) ≡ Some (expr_of file e.now, parameters_from qs)) }
    ensures none { (file : ℕ) → (qs : List Parameter) →
        IfNone result (next_default (parameters_from (parameter_of file param.now ∷ qs)) ≡ next_default (parameters_from qs)) }
{
    match param {
        Param::Defaulted(_, expr) => Some(expr.get()),
        Param::Required(_) => None,
        Param::BareStar => None,
        Param::Starred(_) => None,
        Param::DoubleStarred(_) => None,
    }
}

/// The first of these parameters that has a default, with those behind it.
fn next_default<'p>(params: &'p [Param]) -> Option<(&'p Expr, &'p [Param])>
    ensures { (file : ℕ) → default_of file result ≡ next_default (parameters_of file params.now) }
{
    let mut rest = params;
    while let Some((param, more)) = rest.split_first() {
        if let Some(expr) = default_in(param) {
            return Some((expr, more));
        }
        rest = more;
    }
    None
}

/// The function with these defaults, and those of these parameters behind them.
pub(crate) fn make_function<'p>(
    m: &mut Machine<'p>,
    making: Making<'p>,
    params: &'p [Param],
    defaults: Values,
) -> Result<Control<'p>, Memory>
    requires sound { Sound m.old }
    requires defaults { OwnsAll (arena_in m.old) defaults }
    ensures { GoesToValue result m.new m.old
        (plain_making (setting_of m.old) (making_of making.entry) (parameters_in m.old params.now) (values_in m.old defaults)) }
{
    match next_default(params) {
        None => made(m, making, defaults),
        Some((expr, rest)) => {
            let frame = InValue::Default(making, rest, defaults);
            push_value(m, frame, Control::Eval(expr))
        }
    }
}

/// The name that a function shows.
fn name_of(alloc: Global, making: Making<'_>) -> Result<Text, Memory>
    ensures { IfOk result (λ name. name ≡ (making_of making.entry).name) }
{
    match making.name {
        Some(name) => name.copy(),
        None => Text::of(alloc, "lambda"),
    }
}

/// The same boxes.
fn copied(alloc: Global, boxes: &Boxes) -> Result<Boxes, Memory>
    ensures { IfOk result (λ copy. copy ≡ boxes.now) }
{
    Ok(Items::from_slice(alloc, boxes.as_slice())?)
}

/// A new function with these defaults, in this scope.
fn new_function(
    session: &mut Session,
    scope: &Boxes,
    making: Making<'_>,
    defaults: Values,
) -> Result<Value, Stop>
    requires scope { OwnsEnv (arena_of session.old) scope.now }
    requires defaults { OwnsAll (arena_of session.old) defaults }
    ensures { GivesFrom
        (function_made (variables_in session.old scope.now) (making_of making.entry) (values_of (arena_of session.old) defaults))
        result session.new session.old }
{
    let alloc = session.arena.alloc();
    let name = name_of(alloc, making)?;
    let boxes = copied(alloc, scope)?;
    let (file, number) = (making.place.file, making.number as u64);
    Ok(session.arena.new_func(name, file, number, boxes, defaults)?)
}

/// The function with these defaults.
fn made<'p>(
    m: &mut Machine<'p>,
    making: Making<'p>,
    defaults: Values,
) -> Result<Control<'p>, Memory>
    requires sound { Sound m.old }
    requires defaults { OwnsAll (arena_in m.old) defaults }
    ensures { GoesToValue result m.new m.old (function_made (setting_of m.old).env (making_of making.entry) (values_in m.old defaults)) }
{
    settle(new_function(&mut m.session, &m.scope, making, defaults))
}
