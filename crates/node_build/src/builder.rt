// The nodes that are open while a program runs.
ghost use Rattle.std.specs.Prelude.{◌≡◌, ◌≤◌, ◌+◌, ◌∷◌, [], IfOk, OnErr, length};
ghost use Rattle.ytt_base.specs.declared.fault.Stop.TheVariants as stop;
ghost use Rattle.ytt_base.specs.declared.fault.FaultKind.TheVariants as fault_kind;
ghost use Rattle.ytt_base.specs.Outcomes.{fault_of};
ghost use Rattle.ytt_base.specs.View.{key_of};
ghost use Rattle.star_spec.specs.Flow.{on};
ghost use Rattle.star_tree.specs.View.{holds_of, item_kind_of};
ghost use Rattle.star_values.specs.Objects.{seen};
ghost use Rattle.star_values.specs.Owns.{Each, Owns, OwnsAll, OwnsBuilt, note_values};
ghost use Rattle.star_values.specs.View.{View, arguments_in, built_in, value_of};
ghost use Rattle.template_meaning.specs.Calls.{bottom, bottom_children};
ghost use Rattle.node_build.specs.Parts.{Changes, Does, Spends, Tells, IsOnTopAt, cut_to, ending, finished, has_two, keying, noting, starting, taking, valuing};

use crate::end::ended;
use crate::fill::{scalar_tree, taken_over};
use crate::list::push;
use crate::node::{Filled, OpenNode};
use object_arena::{Arena, Built, BuiltNote, BuiltValue, Value, Work};
use star_tree::{Holds, ItemKind};
use std::alloc::Global;
use std::mem;
use ytt_base::fault::{Fault, FaultKind, Place, Stop};
use ytt_base::text::{Memory, Text};
use ytt_base::tree::Key;

/// The refusal of what is in no proper form, of no place.
fn ill_formed(alloc: Global) -> Stop
    ensures { result ≡ stop.Fault (fault_of fault_kind.CodeForm) }
{
    Stop::Fault(Fault {
        kind: FaultKind::CodeForm,
        place: None,
        detail: Text::new(alloc),
    })
}

/// Open nodes: the innermost one, and those below it, the outermost one first, around which so many collections stand.
#[derive(Drop)]
pub struct Builder {
    alloc: Global,
    around: u32,
    top: OpenNode,
    below: Vec<OpenNode>,
}

impl Builder {
    ghost use Rattle.node_build.specs.View.{OwnsNode, OwnsNodes, Takes, nodes_from, nodes_of};

    /// The place under all nodes, alone. It takes no memory.
    pub fn new(alloc: Global) -> Builder
        ensures meaning { (a : View) → nodes_of a result ≡ bottom 0 ∷ [] }
        ensures owned { (a : View) → OwnsNodes a result }
    {
        Builder::within(alloc, 0)
    }

    /// The same, where so many collections stand around what is built.
    pub fn within(alloc: Global, around: u32) -> Builder
        ensures meaning { (a : View) → nodes_of a result ≡ bottom around ∷ [] }
        ensures owned { (a : View) → OwnsNodes a result }
    {
        let start = Place { file: 1, line: 1 };
        Builder {
            alloc,
            around,
            top: OpenNode::new(alloc, start, ItemKind::Document, Holds::List),
            below: Vec::new(alloc),
        }
    }

    /// Opens a node. Its caller takes the step.
    pub fn start(&mut self, kind: ItemKind, holds: Holds, at: Place) -> Result<(), Memory>
        ensures meaning { (a : View) → Changes (starting at (item_kind_of kind) (holds_of holds)) result (nodes_of a self.old) (nodes_of a self.new) }
        ensures owned { (a : View) → OwnsNodes a self.old → OwnsNodes a self.new }
    {
        let node = OpenNode::new(self.alloc, at, kind, holds);
        let under = mem::replace(&mut self.top, node);
        match self.below.push(under) {
            Ok(()) => Ok(()),
            Err(failed) => {
                drop(mem::replace(&mut self.top, failed.value));
                Err(Memory)
            }
        }
    }

    /// Gives the node on top this key.
    pub fn key(&mut self, key: Key)
        ensures meaning { (a : View) → Does (keying (key_of key)) (nodes_of a self.old) (nodes_of a self.new) }
        ensures owned { (a : View) → OwnsNodes a self.old → OwnsNodes a self.new }
    {
        self.top.key = Some(key);
    }

    /// Gives the node on top this written value.
    pub fn scalar(&mut self, value: &Key) -> Result<(), Memory>
        ensures meaning { (a : View) → Changes (valuing (key_of value.now)) result (nodes_of a self.old) (nodes_of a self.new) }
        ensures owned { (a : View) → OwnsNodes a self.old → OwnsNodes a self.new }
    {
        self.top.value = Filled::One(BuiltValue::One(scalar_tree(value)?));
        Ok(())
    }

    /// Puts a note behind those of the node on top.
    pub fn note(&mut self, note: BuiltNote) -> Result<(), Memory>
        ensures meaning { (a : View) → Changes (noting note.name (arguments_in a.held note.args)) result (nodes_of a self.old) (nodes_of a self.new) }
        ensures owned { (a : View) → OwnsAll a (note_values (note ∷ [])) → OwnsNodes a self.old → OwnsNodes a self.new }
    {
        push(&mut self.top.notes, note)?;
        Ok(())
    }

    /// Takes a value of code over into the node on top, each refusal at the node's place: what has no tree is `NotYaml`, and what
    /// would stand deeper than 100 collections `TooDeep`. Where no node is open but the outermost one, it is `CodeForm`.
    pub fn value(&mut self, arena: &Arena, work: &mut Work, value: Value) -> Result<(), Stop>
        requires { Owns (seen arena.now) value }
        ensures meaning { Takes (seen arena.now) value self.old self.new result work.old.steps work.new.steps }
        ensures err { OnErr result (self.new ≡ self.old) }
        ensures owned { OwnsNodes (seen arena.now) self.old → OwnsNodes (seen arena.now) self.new }
        ensures depth { work.new.depth ≡ work.old.depth }
    {
        match self.below.len().checked_sub(1) {
            None => Err(ill_formed(self.alloc)),
            Some(last) => {
                let around = self.around as usize + last;
                let (place, kind) = (self.top.place, self.top.kind);
                self.top.value = taken_over(arena, place, kind, around, value, &mut work.steps)?;
                Ok(())
            }
        }
    }

    /// Closes the node on top, which is added to the children of the one below. A key that stands there already is `KeyTwice`
    /// with the key, unless the notes override. What `template.replace` gave is added one by one.
    pub fn end(&mut self) -> Result<(), Stop>
        ensures meaning { (a : View) → Tells (λ u. on (nodes_of a self.new)) result (ending (nodes_of a self.old)) }
        ensures err { (a : View) → OnErr result (nodes_of a self.new ≡ nodes_of a self.old) }
        ensures owned { (a : View) → OwnsNodes a self.old → OwnsNodes a self.new }
    {
        match self.below.len().checked_sub(1) {
            None => Err(ill_formed(self.alloc)),
            Some(last) => {
                ended(self.alloc, &mut self.below[last], &mut self.top)?;
                self.drop_top();
                Ok(())
            }
        }
    }

    /// Drops the node on top, over which one is open.
    fn drop_top(&mut self)
        requires { 1 ≤ length self.old.below.items }
        ensures meaning { (a : View) → nodes_of a self.new ≡ nodes_from a.held self.old.around self.old.below.items [] }
        ensures owned { (a : View) → Each (OwnsNode a) self.old.below.items → OwnsNodes a self.new }
    {
        match self.below.pop() {
            Some(node) => self.top = node,
            None => unreachable!(),
        }
    }

    /// How many nodes are open above the outermost one.
    pub fn height(&self) -> u64
        ensures { (a : View) → result + 1 ≡ length (nodes_of a self.now) }
    {
        self.below.len() as u64
    }

    /// Drops the nodes above so many.
    pub fn cut_back(&mut self, height: u64)
        ensures meaning { (a : View) → nodes_of a self.new ≡ cut_to height (nodes_of a self.old) }
        ensures owned { (a : View) → OwnsNodes a self.old → OwnsNodes a self.new }
    {
        if height < self.below.len() as u64 {
            self.below.truncate(height as usize + 1);
            self.drop_top();
        }
    }

    /// Whether a node is open that isn't the outermost one.
    pub fn holds_two(&self) -> bool
        ensures { (a : View) → result ≡ has_two (nodes_of a self.now) }
    {
        !self.below.is_empty()
    }

    /// Where the node on top stands.
    pub fn place(&self) -> Place
        ensures { (a : View) → IsOnTopAt result (nodes_of a self.now) }
    {
        self.top.place
    }

    /// The finished children of the outermost node. No node is open then but a new outermost one.
    pub fn take(&mut self) -> Built
        ensures children { (a : View) → built_in a.held result ≡ finished (nodes_of a self.old) }
        ensures owned { (a : View) → OwnsNodes a self.old → OwnsBuilt a result }
        ensures empty { (a : View) → nodes_of a self.new ≡ bottom 0 ∷ [] }
        ensures fresh { (a : View) → OwnsNodes a self.new }
    {
        let alloc = self.alloc;
        mem::replace(self, Builder::new(alloc))
            .outermost()
            .into_items()
    }

    /// The children of the node on top.
    pub fn into_children(self) -> Built
        ensures children { (a : View) → built_in a.held result ≡ bottom_children (nodes_of a self) }
        ensures owned { (a : View) → OwnsNodes a self → OwnsBuilt a result }
    {
        self.top.into_items()
    }

    /// The outermost node.
    fn outermost(self) -> OpenNode
        ensures children { (a : View) → built_in a.held result.children.items.items ≡ finished (nodes_of a self) }
        ensures owned { (a : View) → OwnsNodes a self → OwnsNode a result }
    {
        let mut below = self.below;
        if below.is_empty() {
            self.top
        } else {
            below.swap_remove(0)
        }
    }
}
