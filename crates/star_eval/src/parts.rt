// Parts of nodes.
ghost use Rattle.node_build.specs.Parts.{Tells};
ghost use Rattle.node_build.specs.View.{OwnsNodes, nodes_of};
ghost use Rattle.star_values.specs.Objects.{seen};
ghost use Rattle.star_values.specs.Owns.{Owns};
ghost use Rattle.star_values.specs.View.{value_of};
ghost use Rattle.code_spec.specs.Program.{node_start};
ghost use Rattle.star_spec.specs.Flow.{in_turn, on};
ghost use Rattle.star_tree.specs.View.{holds_of, item_kind_of};
ghost use Rattle.star_eval.specs.Frames.{GoesToFlow};
ghost use Rattle.star_eval.specs.Doing.{keyed_by, part_done, written_part};
ghost use Rattle.star_eval.specs.View.{Sound, arena_in, nodes_in, setting_of};
ghost use Rattle.star_eval.specs.Seen.{part_in, through_in, value_in};

use crate::arguments::{no_arguments, note_with};
use crate::frame::{Control, Flow, Frame, InBlock, InStatement, Machine};
use crate::machine::{ill_flow, left, push_statement, settle_flow};
use node_build::Builder;
use object_arena::{Arena, Value};
use star_blocks::Op;
use star_steps::refusal;
use star_tree::code::NodeOp;
use star_tree::{Holds, ItemKind};
use ytt_base::fault::{FaultKind, Place, Stop};
use ytt_base::text::Memory;
use ytt_base::tree::Key;

/// A part of a node, and then the rest of its block.
pub(crate) fn node_part<'p>(
    m: &mut Machine<'p>,
    part: &'p NodeOp,
    rest: &'p [Op],
) -> Result<Control<'p>, Memory>
    requires { Sound m.old }
    ensures { GoesToFlow result m.new m.old (in_turn (part_done (setting_of m.old) (part_in m.old part.now)) (through_in m.old rest.now) (nodes_in m.old)) }
{
    m.frames.push(Frame::Block(InBlock::Rest(rest)))?;
    build(m, part)
}

/// What a part of a node does. A start takes a step.
fn build<'p>(m: &mut Machine<'p>, part: &'p NodeOp) -> Result<Control<'p>, Memory>
    requires { Sound m.old }
    ensures { GoesToFlow result m.new m.old (part_done (setting_of m.old) (part_in m.old part.now) (nodes_in m.old)) }
{
    match part {
        NodeOp::Start(place, kind, holds) => start(m, *place, *kind, *holds),
        NodeOp::Key(_, key) => {
            let key = key.copy()?;
            m.nodes.key(key);
            Ok(Control::Went(Flow::On))
        }
        NodeOp::KeyFrom(_, expr) => {
            push_statement(m, InStatement::TakeKey, Control::Eval(expr.get()))
        }
        NodeOp::Value(_, value) => {
            m.nodes.scalar(value)?;
            Ok(Control::Went(Flow::On))
        }
        NodeOp::End(_) => settle_flow(m.nodes.end()),
        NodeOp::ValueFrom(_, expr) => {
            if m.nodes.holds_two() {
                push_statement(m, InStatement::Take, Control::Eval(expr.get()))
            } else {
                Ok(ill_flow(m))
            }
        }
        NodeOp::Note(_, name, args) => {
            let none = no_arguments(m.session.arena.alloc());
            note_with(m, name, args.as_slice(), none)
        }
    }
}

/// A node starts, which takes a step.
fn start<'p>(
    m: &mut Machine<'p>,
    place: Place,
    kind: ItemKind,
    holds: Holds,
) -> Result<Control<'p>, Memory>
    requires { Sound m.old }
    ensures { GoesToFlow result m.new m.old (written_part (node_start place (item_kind_of kind) (holds_of holds)) (nodes_in m.old)) }
{
    if m.session.work.steps == 0 {
        return Ok(left(m, FaultKind::Steps, place));
    }
    m.session.work.steps -= 1;
    m.nodes.start(kind, holds, place)?;
    Ok(Control::Went(Flow::On))
}

/// The key of the innermost open node.
pub(crate) fn take_key<'p>(m: &mut Machine<'p>, value: Value) -> Result<Control<'p>, Memory>
    requires sound { Sound m.old }
    requires value { Owns (arena_in m.old) value }
    ensures { GoesToFlow result m.new m.old (keyed_by (value_in m.old value) (nodes_in m.old)) }
{
    settle_flow(key_from(&mut m.nodes, &m.session.arena, value))
}

/// Gives the node on top the key that a value is: a text. All else is `NotYaml` at the node's place.
fn key_from(nodes: &mut Builder, arena: &Arena, value: Value) -> Result<(), Stop>
    requires { Owns (seen arena.now) value }
    ensures meaning { Tells (λ u. on (nodes_of (seen arena.now) nodes.new)) result
        (keyed_by (value_of (seen arena.now) value) (nodes_of (seen arena.now) nodes.old)) }
    ensures owned { OwnsNodes (seen arena.now) nodes.old → OwnsNodes (seen arena.now) nodes.new }
{
    match value {
        Value::Text(text) => {
            let key = Key::Str(arena.text(text).copy()?);
            nodes.key(key);
            Ok(())
        }
        _ => Err(refusal(arena, FaultKind::NotYaml, nodes.place())),
    }
}
