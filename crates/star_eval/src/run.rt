// Blocks and statements.
ghost use Rattle.std.specs.Prelude.{◌≡◌, Some};
ghost use Rattle.code_spec.specs.Code as plain;
ghost use Rattle.star_blocks.specs.Nested.{statement_of};
ghost use Rattle.star_spec.specs.Flow.{in_turn};
ghost use Rattle.star_tree.specs.Whole.{binary_operator_of};
ghost use Rattle.value_spec.specs.Outcomes.{then_do};
ghost use Rattle.star_eval.specs.declared.frame.Control.TheVariants as control;
ghost use Rattle.star_eval.specs.Frames.{GoesTo, GoesToFlow, means};
ghost use Rattle.star_eval.specs.Doing.{arms_done, augmented, defined, done_after, op_done, op_place, op_through};
ghost use Rattle.star_eval.specs.View.{OwnsInStatement, Sound, arena_in, nodes_in, setting_of};
ghost use Rattle.star_eval.specs.Seen.{arms_in, evaluated_in, expr_in, op_in, parameters_in, statement_goes_in, statement_in, through_in};

use crate::frame::{Control, Flow, Frame, InBlock, InStatement, Machine, Making};
use crate::functions::make_function;
use crate::machine::{ill_flow, left, push_statement};
use crate::names::read;
use crate::parts::node_part;
use sqlite_items::{Boxed, Items};
use star_blocks::{Arm, Op, Statement};
use star_tree::code::{BinOp, Expr, Param};
use ytt_base::fault::{FaultKind, Place, Stop};
use ytt_base::text::{Memory, Text};

/// Where a statement takes its step.
fn place_of(file: u32, statement: &Statement) -> Place
    ensures { Some result ≡ op_place (statement_of file statement.now) }
{
    let line = match statement {
        Statement::Expr(line, _) => *line,
        Statement::Assign(line, _, _) => *line,
        Statement::Augment(line, _, _, _, _) => *line,
        Statement::Load(line, _, _) => *line,
        Statement::Return(line, _) => *line,
        Statement::Break(line) => *line,
        Statement::Continue(line) => *line,
        Statement::Pass(line) => *line,
        Statement::If(line, _) => *line,
        Statement::For(line, _, _, _) => *line,
        Statement::Def(line, _, _, _, _, _) => *line,
    };
    Place { file, line }
}

/// A block: what stands first in it, and then the rest. Each statement takes a step before it acts.
pub(crate) fn run<'p>(m: &mut Machine<'p>, block: &'p [Op]) -> Result<Control<'p>, Memory>
    requires { Sound m.old }
    ensures { GoesTo result m.new m.old (means m.old (control.Run block.entry)) }
{
    match block.split_first() {
        None => Ok(Control::Went(Flow::On)),
        Some((first, rest)) => run_first(m, first, rest),
    }
}

/// What stands first in a block, and then the rest.
fn run_first<'p>(m: &mut Machine<'p>, first: &'p Op, rest: &'p [Op]) -> Result<Control<'p>, Memory>
    requires { Sound m.old }
    ensures { GoesToFlow result m.new m.old (in_turn (op_through (setting_of m.old) (op_in m.old first.now)) (through_in m.old rest.now) (nodes_in m.old)) }
{
    match first {
        Op::Node(part) => node_part(m, part, rest),
        Op::Code(statement) => run_statement(m, statement, rest),
    }
}

/// A statement, and then the rest of its block.
fn run_statement<'p>(
    m: &mut Machine<'p>,
    statement: &'p Statement,
    rest: &'p [Op],
) -> Result<Control<'p>, Memory>
    requires { Sound m.old }
    ensures { GoesToFlow result m.new m.old
        (in_turn (op_done (setting_of m.old) (statement_in m.old statement.now)) (through_in m.old rest.now) (nodes_in m.old)) }
{
    if rest.is_empty() {
        return begin(m, statement);
    }
    m.frames.push(Frame::Block(InBlock::Rest(rest)))?;
    begin(m, statement)
}

fn begin<'p>(m: &mut Machine<'p>, statement: &'p Statement) -> Result<Control<'p>, Memory>
    requires { Sound m.old }
    ensures { GoesToFlow result m.new m.old (op_done (setting_of m.old) (statement_in m.old statement.now) (nodes_in m.old)) }
{
    let place = place_of(m.code.file, statement);
    if m.session.work.steps == 0 {
        return Ok(left(m, FaultKind::Steps, place));
    }
    m.session.work.steps -= 1;
    act(m, place, statement)
}

/// What a statement does after its step at this place.
fn act<'p>(
    m: &mut Machine<'p>,
    place: Place,
    statement: &'p Statement,
) -> Result<Control<'p>, Memory>
    requires { Sound m.old }
    ensures { GoesToFlow result m.new m.old (done_after (setting_of m.old) place (statement_in m.old statement.now) (nodes_in m.old)) }
{
    match statement {
        Statement::Expr(_, expr) => within(m, InStatement::Discard, expr.get()),
        Statement::Assign(_, target, expr) => {
            within(m, InStatement::AssignTo(place, target.get()), expr.get())
        }
        Statement::Augment(_, op, line, target, expr) => {
            let at = Place {
                file: m.code.file,
                line: *line,
            };
            augment(m, at, *op, target.get(), expr.get())
        }
        Statement::Load(_, _, _) => Ok(Control::Went(Flow::On)),
        Statement::Return(_, expr) => within(m, InStatement::Return, expr.get()),
        Statement::Break(_) => Ok(Control::Went(Flow::Break)),
        Statement::Continue(_) => Ok(Control::Went(Flow::Continue)),
        Statement::Pass(_) => Ok(Control::Went(Flow::On)),
        Statement::If(_, arms) => choose(m, arms.as_slice()),
        Statement::For(_, target, expr, body) => {
            let frame = InStatement::Walk(place, target.get(), body.as_slice());
            within(m, frame, expr.get())
        }
        Statement::Def(_, number, _, name, params, _) => {
            define(m, place, *number, name, params.as_slice())
        }
    }
}

/// A function with this name and number, which the name gets.
fn define<'p>(
    m: &mut Machine<'p>,
    place: Place,
    number: usize,
    name: &'p Text,
    params: &'p [Param],
) -> Result<Control<'p>, Memory>
    requires { Sound m.old }
    ensures { GoesToFlow result m.new m.old
        (defined (setting_of m.old) (record { place = place; name = name.now; number = number }) (parameters_in m.old params.now) (nodes_in m.old)) }
{
    let frame = Boxed::new(m.session.arena.alloc(), InStatement::Bind(place, name))?;
    m.frames.push(Frame::Statement(frame))?;
    let making = Making {
        place,
        name: Some(name),
        number,
    };
    let none = Items::new(m.session.arena.alloc());
    make_function(m, making, params, none)
}

/// An expression in a statement.
pub(crate) fn within<'p>(
    m: &mut Machine<'p>,
    frame: InStatement<'p>,
    expr: &'p Expr,
) -> Result<Control<'p>, Memory>
    requires sound { Sound m.old }
    requires frame { OwnsInStatement (arena_in m.old) frame }
    ensures { GoesToFlow result m.new m.old (λ s. then_do (evaluated_in m.old expr.now s) (statement_goes_in m.old frame.entry)) }
{
    push_statement(m, frame, Control::Eval(expr))
}

/// An augmented assignment, with its operator at this place.
fn augment<'p>(
    m: &mut Machine<'p>,
    place: Place,
    op: BinOp,
    target: &'p Expr,
    expr: &'p Expr,
) -> Result<Control<'p>, Memory>
    requires { Sound m.old }
    ensures { GoesToFlow result m.new m.old
        (augmented (setting_of m.old) (binary_operator_of op) place (expr_in m.old target.now) (expr_in m.old expr.now) (nodes_in m.old)) }
{
    match target {
        Expr::Name(line, name) => {
            let at = Place {
                file: m.code.file,
                line: *line,
            };
            augment_name(m, place, op, at, name, expr)
        }
        Expr::Index(line, a, index) => {
            let at = Place {
                file: m.code.file,
                line: *line,
            };
            within(
                m,
                InStatement::AugmentOf(place, op, at, index.get(), expr),
                a.get(),
            )
        }
        Expr::List(_, _)
        | Expr::Tuple(_, _)
        | Expr::Int(_, _)
        | Expr::Text(_, _)
        | Expr::Dict(_, _)
        | Expr::Unary(_, _, _)
        | Expr::Binary(_, _, _, _)
        | Expr::And(_, _, _)
        | Expr::Or(_, _, _)
        | Expr::If(_, _, _, _)
        | Expr::Call(_, _, _)
        | Expr::Named(_, _, _)
        | Expr::Star(_, _)
        | Expr::Stars(_, _)
        | Expr::Slice(_, _, _, _, _)
        | Expr::Dot(_, _, _)
        | Expr::Lambda(_, _, _, _)
        | Expr::ListFor(_, _, _)
        | Expr::DictFor(_, _, _, _)
        | Expr::Template(_, _) => Ok(ill_flow(m)),
    }
}

/// An augmented assignment of a name at a place.
fn augment_name<'p>(
    m: &mut Machine<'p>,
    place: Place,
    op: BinOp,
    at: Place,
    name: &'p Text,
    expr: &'p Expr,
) -> Result<Control<'p>, Memory>
    requires { Sound m.old }
    ensures { GoesToFlow result m.new m.old
        (augmented (setting_of m.old) (binary_operator_of op) place (plain.name at name.now) (expr_in m.old expr.now) (nodes_in m.old)) }
{
    match read(&mut m.session, m.scope.as_slice(), at, name) {
        Ok(old) => within(m, InStatement::Augment(place, op, at, name, old), expr),
        Err(Stop::Fault(fault)) => Ok(Control::Left(fault)),
        Err(Stop::Memory) => Err(Memory),
    }
}

/// The first of these branches whose test holds.
pub(crate) fn choose<'p>(m: &mut Machine<'p>, arms: &'p [Arm]) -> Result<Control<'p>, Memory>
    requires { Sound m.old }
    ensures { GoesToFlow result m.new m.old (arms_done (setting_of m.old) (arms_in m.old arms.now) (nodes_in m.old)) }
{
    match arms.split_first() {
        None => Ok(Control::Went(Flow::On)),
        Some((Arm::Else(body), _)) => Ok(Control::Run(body.as_slice())),
        Some((Arm::Test(test, body), more)) => {
            within(m, InStatement::Branch(body.as_slice(), more), test.get())
        }
    }
}
