// Expressions.
ghost use Rattle.std.specs.Prelude.{◌≡◌, ◌++◌, [], codes, IfSome};
ghost use Rattle.builtin_spec.specs.Attributes.{attribute_row};
ghost use Rattle.builtin_spec.specs.Operators.{operator_row};
ghost use Rattle.operator_spec.specs.Operators.{unary_row};
ghost use Rattle.star_spec.specs.Names.{box_of, read_name};
ghost use Rattle.star_tree.specs.Whole.{binary_operator_of, expr_of, unary_operator_of};
ghost use Rattle.star_values.specs.Owns.{Owns, OwnsAll};
ghost use Rattle.value_spec.specs.Outcomes.{give, then_do};
ghost use Rattle.value_spec.specs.Values.{text_value};
ghost use Rattle.star_eval.specs.declared.frame.Control.TheVariants as control;
ghost use Rattle.star_eval.specs.Frames.{GoesTo, GoesToValue, Known, means};
ghost use Rattle.star_eval.specs.Doing.{acted, comprehended, making, pairs_bag, place_in, values_bag};
ghost use Rattle.star_eval.specs.View.{Sound, arena_in, env_of, gathering_of, setting_of};
ghost use Rattle.star_eval.specs.Waiting.{gathered};
ghost use Rattle.star_eval.specs.Seen.{all_evaluated_in, clauses_in, evaluated_in, expr_in, parameters_in, value_goes_in, value_in, values_in};
ghost use Rattle.star_eval.specs.declared.frame.InValue.TheVariants as value_frames;

use crate::arguments::{call_with, no_arguments};
use crate::comprehensions::comprehension;
use crate::dicts::entries;
use crate::frame::{Bag, Control, Gathering, InIndex, InValue, Machine, Making};
use crate::functions::make_function;
use crate::indexes::within_index;
use crate::machine::{failed, ill_formed, push_value, settle};
use crate::names::{find, read};
use crate::session::{make_list, make_text, make_tuple};
use crate::templates::template;
use indexmap::IndexMap;
use object_arena::{Value, Values};
use sqlite_items::{Boxed, Items};
use star_tree::code::{BinOp, Clause, Expr, Param, UnOp};
use ytt_base::fault::{FaultKind, Place};
use ytt_base::text::{Memory, Text};

/// Where an expression takes its step. An argument that is no expression takes none.
fn place_of(file: u32, expr: &Expr) -> Option<Place>
    ensures { result ≡ place_in (expr_of file expr.now) }
{
    let line = match expr {
        Expr::Named(_, _, _) | Expr::Star(_, _) | Expr::Stars(_, _) => return None,
        Expr::Int(line, _) => *line,
        Expr::Text(line, _) => *line,
        Expr::Name(line, _) => *line,
        Expr::List(line, _) => *line,
        Expr::Tuple(line, _) => *line,
        Expr::Dict(line, _) => *line,
        Expr::Unary(line, _, _) => *line,
        Expr::Binary(line, _, _, _) => *line,
        Expr::And(line, _, _) => *line,
        Expr::Or(line, _, _) => *line,
        Expr::If(line, _, _, _) => *line,
        Expr::Call(line, _, _) => *line,
        Expr::Index(line, _, _) => *line,
        Expr::Slice(line, _, _, _, _) => *line,
        Expr::Dot(line, _, _) => *line,
        Expr::Lambda(line, _, _, _) => *line,
        Expr::ListFor(line, _, _) => *line,
        Expr::DictFor(line, _, _, _) => *line,
        Expr::Template(line, _) => *line,
    };
    Some(Place { file, line })
}

/// An expression, which takes a step before it acts.
pub(crate) fn eval<'p>(m: &mut Machine<'p>, expr: &'p Expr) -> Result<Control<'p>, Memory>
    requires { Sound m.old }
    ensures { GoesTo result m.new m.old (means m.old (control.Eval expr.entry)) }
{
    match place_of(m.code.file, expr) {
        None => Ok(ill_formed(m)),
        Some(place) => {
            if m.session.work.steps == 0 {
                return Ok(failed(m, FaultKind::Steps, place));
            }
            m.session.work.steps -= 1;
            act(m, place, expr)
        }
    }
}

/// What an expression does after its step at this place.
fn act<'p>(m: &mut Machine<'p>, place: Place, expr: &'p Expr) -> Result<Control<'p>, Memory>
    requires { Sound m.old }
    ensures { GoesToValue result m.new m.old (acted (setting_of m.old) place (expr_in m.old expr.now)) }
{
    match expr {
        Expr::Int(_, n) => Ok(Control::Gave(Value::Int(*n))),
        Expr::Text(_, text) => literal(m, text),
        Expr::Name(_, name) => variable(m, place, name),
        Expr::List(_, members) => row(m, Gathering::List, members.as_slice()),
        Expr::Tuple(_, members) => row(m, Gathering::Tuple, members.as_slice()),
        Expr::Dict(_, members) => {
            let pairs = IndexMap::new(m.session.arena.alloc());
            entries(m, place, members.as_slice(), pairs)
        }
        Expr::Index(_, a, index) => within_index(m, InIndex::IndexOf(place, index.get()), a.get()),
        Expr::Slice(_, a, from, to, step) => {
            within_index(m, InIndex::BoundsOf(place, from, to, step), a.get())
        }
        Expr::Unary(_, op, a) => {
            let frame = InValue::OperateOn(place, *op);
            push_value(m, frame, Control::Eval(a.get()))
        }
        Expr::Binary(_, op, a, b) => binary(m, place, *op, a.get(), b.get()),
        Expr::And(_, a, b) => {
            let frame = InValue::AndThen(b.get());
            push_value(m, frame, Control::Eval(a.get()))
        }
        Expr::Or(_, a, b) => {
            let frame = InValue::OrElse(b.get());
            push_value(m, frame, Control::Eval(a.get()))
        }
        Expr::If(_, test, a, b) => {
            let frame = InValue::Choose(a.get(), b.get());
            push_value(m, frame, Control::Eval(test.get()))
        }
        Expr::Call(_, function, args) => called(m, place, function.get(), args.as_slice()),
        Expr::Dot(_, a, name) => {
            let frame = InValue::Attribute(place, name);
            push_value(m, frame, Control::Eval(a.get()))
        }
        Expr::Lambda(_, number, params, _) => lambda(m, place, *number, params.as_slice()),
        Expr::ListFor(_, expr, clauses) => list_for(m, place, expr.get(), clauses),
        Expr::DictFor(_, key, value, clauses) => {
            dict_for(m, place, key.get(), value.get(), clauses)
        }
        Expr::Template(_, pieces) => template(m, place, pieces.as_slice()),
        Expr::Named(_, _, _) | Expr::Star(_, _) | Expr::Stars(_, _) => Ok(ill_formed(m)),
    }
}

/// The value of a number, or of a name whose box has one, with the steps that are left behind it: what needs no frame. None says nothing.
fn known<'p>(m: &Machine<'p>, expr: &Expr) -> Option<(Value, u64)>
    requires { Sound m.now }
    ensures { IfSome result (Known m.now (expr_in m.now expr.now)) }
{
    let left = m.session.work.steps.checked_sub(1)?;
    match expr {
        Expr::Int(_, n) => Some((Value::Int(*n), left)),
        Expr::Name(_, name) => {
            let at = find(&m.session.arena, m.scope.as_slice(), name)?;
            let value = m.session.arena.boxed(at)?;
            Some((value, left))
        }
        _ => None,
    }
}

/// An operation between the values of two expressions.
fn binary<'p>(
    m: &mut Machine<'p>,
    place: Place,
    op: BinOp,
    a: &'p Expr,
    b: &'p Expr,
) -> Result<Control<'p>, Memory>
    requires { Sound m.old }
    ensures { GoesToValue result m.new m.old (λ s. then_do (evaluated_in m.old a.now s) (value_goes_in m.old (value_frames.Right place op b.entry))) }
{
    match known(m, a) {
        Some((left, steps)) => {
            m.session.work.steps = steps;
            right_operand(m, place, op, left, b)
        }
        None => {
            let frame = InValue::Right(place, op, b);
            push_value(m, frame, Control::Eval(a))
        }
    }
}

/// An operation between a value and that of an expression.
pub(crate) fn right_operand<'p>(
    m: &mut Machine<'p>,
    place: Place,
    op: BinOp,
    left: Value,
    b: &'p Expr,
) -> Result<Control<'p>, Memory>
    requires sound { Sound m.old }
    requires left { Owns (arena_in m.old) left }
    ensures { GoesToValue result m.new m.old (value_goes_in m.old (value_frames.Right place op b.entry) (value_in m.old left)) }
{
    match known(m, b) {
        Some((value, steps)) => {
            m.session.work.steps = steps;
            operated(m, place, op, left, value)
        }
        None => {
            let frame = InValue::Operate(place, op, left);
            push_value(m, frame, Control::Eval(b))
        }
    }
}

/// The call of the value of an expression with these arguments.
fn called<'p>(
    m: &mut Machine<'p>,
    place: Place,
    function: &'p Expr,
    exprs: &'p [Expr],
) -> Result<Control<'p>, Memory>
    requires { Sound m.old }
    ensures { GoesToValue result m.new m.old (λ s. then_do (evaluated_in m.old function.now s) (value_goes_in m.old (value_frames.Callee place exprs.entry))) }
{
    match known(m, function) {
        Some((value, steps)) => {
            m.session.work.steps = steps;
            let given = no_arguments(m.session.arena.alloc());
            call_with(m, place, value, exprs, given)
        }
        None => {
            let frame = InValue::Callee(place, exprs);
            push_value(m, frame, Control::Eval(function))
        }
    }
}

/// A lambda with a number, in the scope here.
fn lambda<'p>(
    m: &mut Machine<'p>,
    place: Place,
    number: usize,
    params: &'p [Param],
) -> Result<Control<'p>, Memory>
    requires { Sound m.old }
    ensures { GoesToValue result m.new m.old
        (making (setting_of m.old) (record { place = place; name = codes "lambda"; number = number }) (parameters_in m.old params.now) []) }
{
    let making = Making {
        place,
        name: None,
        number,
    };
    let none = Items::new(m.session.arena.alloc());
    make_function(m, making, params, none)
}

/// A list of the values of an expression, for the members of clauses.
fn list_for<'p>(
    m: &mut Machine<'p>,
    place: Place,
    expr: &'p Expr,
    clauses: &'p Items<Clause>,
) -> Result<Control<'p>, Memory>
    requires { Sound m.old }
    ensures { GoesToValue result m.new m.old (comprehended (setting_of m.old) place (clauses_in m.old clauses.now) (values_bag (expr_in m.old expr.now) [])) }
{
    let none = Items::new(m.session.arena.alloc());
    comprehension(m, place, clauses, Bag::Values(expr, none))
}

/// A dict of the pairs of two expressions, for the members of clauses.
fn dict_for<'p>(
    m: &mut Machine<'p>,
    place: Place,
    key: &'p Expr,
    value: &'p Expr,
    clauses: &'p Items<Clause>,
) -> Result<Control<'p>, Memory>
    requires { Sound m.old }
    ensures { GoesToValue result m.new m.old
        (comprehended (setting_of m.old) place (clauses_in m.old clauses.now) (pairs_bag (expr_in m.old key.now) (expr_in m.old value.now) [])) }
{
    let alloc = m.session.arena.alloc();
    let none = Boxed::new(alloc, IndexMap::new(alloc))?;
    comprehension(m, place, clauses, Bag::Pairs(key, value, none))
}

/// A text as it is written.
fn literal<'p>(m: &mut Machine<'p>, text: &Text) -> Result<Control<'p>, Memory>
    requires { Sound m.old }
    ensures { GoesToValue result m.new m.old (give (text_value text.now)) }
{
    let copy = text.copy()?;
    settle(make_text(&mut m.session, copy))
}

/// The value of a name.
fn variable<'p>(m: &mut Machine<'p>, place: Place, name: &Text) -> Result<Control<'p>, Memory>
    requires { Sound m.old }
    ensures { GoesToValue result m.new m.old (read_name place name.now (box_of name.now (env_of m.old))) }
{
    settle(read(&mut m.session, m.scope.as_slice(), place, name))
}

/// The attribute of a value.
pub(crate) fn attribute<'p>(
    m: &mut Machine<'p>,
    place: Place,
    name: &Text,
    value: Value,
) -> Result<Control<'p>, Memory>
    requires sound { Sound m.old }
    requires value { Owns (arena_in m.old) value }
    ensures { GoesToValue result m.new m.old (attribute_row place (value_in m.old value) name.now) }
{
    settle(star_builtins::attribute(&mut m.session.arena, value, name, place))
}

/// What these expressions are gathered into.
fn row<'p>(
    m: &mut Machine<'p>,
    gathering: Gathering,
    members: &'p [Expr],
) -> Result<Control<'p>, Memory>
    requires { Sound m.old }
    ensures { GoesToValue result m.new m.old (λ s. then_do (all_evaluated_in m.old members.now s) (gathered (gathering_of gathering))) }
{
    let before = Items::new(m.session.arena.alloc());
    gather(m, gathering, members, before)
}

/// What these values are gathered into, and behind them those of these expressions.
pub(crate) fn gather<'p>(
    m: &mut Machine<'p>,
    gathering: Gathering,
    members: &'p [Expr],
    values: Values,
) -> Result<Control<'p>, Memory>
    requires sound { Sound m.old }
    requires values { OwnsAll (arena_in m.old) values }
    ensures { GoesToValue result m.new m.old
        (λ s. then_do (all_evaluated_in m.old members.now s) (λ ws. gathered (gathering_of gathering) (values_in m.old values ++ ws))) }
{
    match members.split_first() {
        Some((member, rest)) => {
            let frame = InValue::Member(gathering, rest, values);
            push_value(m, frame, Control::Eval(member))
        }
        None => gather_all(m, gathering, values),
    }
}

/// What values are gathered into.
fn gather_all<'p>(
    m: &mut Machine<'p>,
    gathering: Gathering,
    values: Values,
) -> Result<Control<'p>, Memory>
    requires sound { Sound m.old }
    requires values { OwnsAll (arena_in m.old) values }
    ensures { GoesToValue result m.new m.old (gathered (gathering_of gathering) (values_in m.old values)) }
{
    match gathering {
        Gathering::Tuple => settle(make_tuple(&mut m.session, values.as_slice())),
        Gathering::List => settle(make_list(&mut m.session, values.as_slice())),
    }
}

/// What an operator before this operand gives.
pub(crate) fn operated_on<'p>(
    m: &mut Machine<'p>,
    place: Place,
    op: UnOp,
    operand: Value,
) -> Result<Control<'p>, Memory>
    requires sound { Sound m.old }
    requires operand { Owns (arena_in m.old) operand }
    ensures { GoesToValue result m.new m.old (unary_row place (unary_operator_of op) (value_in m.old operand)) }
{
    settle(star_ops::unary(
        &mut m.session.arena,
        &mut m.session.work,
        op,
        operand,
        place,
    ))
}

/// What an operator between these operands gives.
pub(crate) fn operated<'p>(
    m: &mut Machine<'p>,
    place: Place,
    op: BinOp,
    left: Value,
    right: Value,
) -> Result<Control<'p>, Memory>
    requires sound { Sound m.old }
    requires left { Owns (arena_in m.old) left }
    requires right { Owns (arena_in m.old) right }
    ensures { GoesToValue result m.new m.old (operator_row place (binary_operator_of op) (value_in m.old left) (value_in m.old right)) }
{
    settle(star_builtins::binary(
        &mut m.session.arena,
        &mut m.session.work,
        op,
        left,
        right,
        place,
    ))
}
