// How high a text is at least that goes on from here.
ghost use Rattle.std.specs.Prelude.{
  ◌≡◌,
  ◌∷◌,
  ◌≤◌,
  ◌+◌,
  ◌-◌,
  ◌^◌,
  ◌↔◌,
  true,
  reverse,
  List,
  IsTrue,
  IfOk,
  OnOk,
};
ghost use Rattle.ll.specs.Shapes as shape;
ghost use Rattle.star_grammar.specs.Reading.{empty_of, max_height};
ghost use Rattle.star_grammar.specs.Table.{head};
ghost use Rattle.star_grammar.specs.declared.start.Start.{Start};
ghost use Rattle.star_machine.specs.Pending.{begun, opened, wants_rule};
ghost use Rattle.star_machine.specs.Turns.{along, passed, weigh};
ghost use Rattle.star_machine.specs.Weights as spec;
ghost use Rattle.star_machine.specs.Weights.{Weighed};
ghost use Rattle.star_machine.specs.declared.pending.Item.{Item};

use crate::growth::{Growth, growth_of};
use crate::pending::{Item, Pending};
use ll::{Effect, Shapes};
use star_grammar::{Choice, Symbol};
use star_guards::{MAX_HEIGHT, fits};
use star_tables::{action_of, effect_of, given, least};
use std::alloc::Global;
use ytt_base::text::Memory;

/// What some effects make of the shapes, from the first on.
fn run(effects: &[Effect], shapes: &mut Shapes) -> Result<(), Memory>
    ensures { OnOk result (shapes.new ≡ shape.run effects.now shapes.old) }
{
    for effect in effects {
        shapes.apply(*effect)?;
    }
    Ok(())
}

/// What an item makes of the shapes at least.
fn pass(item: Item, shapes: &mut Shapes) -> Result<(), Memory>
    ensures { OnOk result (shapes.new ≡ passed item shapes.old) }
{
    match item {
        Item::Close(choice) => shapes.apply(effect_of(action_of(choice))),
        Item::Want(Symbol::Token(terminal)) => shapes.apply(given(terminal)),
        Item::Want(Symbol::Rule(rule)) => run(least(rule), shapes),
    }
}

/// What all items make of them, the last one first.
fn pass_all(items: &[Item], shapes: &mut Shapes) -> Result<(), Memory>
    ensures { OnOk result (shapes.new ≡ along (reverse items.now) shapes.old) }
{
    let mut left = items.len();
    while left > 0 {
        left -= 1;
        pass(items[left], shapes)?;
    }
    Ok(())
}

/// Whether a text that goes on so may be no higher than an expression may be, by a walk over all that waits.
fn weighs_little(alloc: Global, pending: &Pending, shapes: &Shapes) -> Result<bool, Memory>
    ensures { IfOk result (λ b. IsTrue b ↔ (weigh pending.now shapes.now ≤ max_height)) }
{
    let mut made = shapes.copy(alloc)?;
    pass_all(pending.as_slice(), &mut made)?;
    Ok(fits(made.top().high))
}

/// Whether what was low stays so, where a new tree of this height gets so many levels more.
fn stays_low(low: bool, high: usize, levels: usize) -> bool
    ensures { result ≡ true → (low ≡ true) × (high + levels ≤ max_height) }
{
    low && high.saturating_add(levels) <= MAX_HEIGHT as usize
}

/// What is known of the height of a text that goes on so.
///
/// What waits makes the trees before it higher by so many levels and no more. So where an alternative is opened that makes a new
/// tree, the text is low still if the tree is with these levels on it, and else as low as it was before.
#[derive(Clone, Copy)]
pub struct Weight {
    /// How many levels the items that wait put on a tree that stands before them.
    rises: usize,
    /// Whether it is known that a text that goes on so may be no higher than an expression may be.
    low: bool,
}

impl Weight {
    /// What is known before a text, where it is to be read whole.
    pub fn new() -> Weight
        ensures { (start : Start) → Weighed result (begun start) (empty_of start).shapes }
    {
        Weight {
            rises: 0,
            low: true,
        }
    }

    /// An alternative ends, which makes this of the shapes.
    pub(crate) fn close(&mut self, effect: Effect)
        ensures rises { self.new.rises ≡ self.old.rises - spec.rise effect }
        ensures low { self.new.low ≡ self.old.low }
    {
        if let Effect::Node(..) = effect {
            self.rises = self.rises.saturating_sub(1);
        }
    }

    /// An alternative is opened in place of its rule, behind these shapes.
    pub(crate) fn open(&mut self, choice: Choice, shapes: &Shapes)
        requires few { self.old.rises + 2 ^ 8 ≤ 2 ^ 64 }
        ensures { (rest : List Item) → Weighed self.old (wants_rule (head choice) ∷ rest) shapes.now → Weighed self.new (opened choice rest) shapes.now }
    {
        match growth_of(choice) {
            Growth::None => {}
            growth => {
                self.low = stays_low(self.low, growth.high(shapes), self.rises);
                self.rises += growth.levels();
            }
        }
    }
}

/// Whether a text that goes on so may be no higher than an expression may be.
///
/// Where that isn't known, it walks over all items. A text that may go on has at most 100 levels and 50 blocks open, and each
/// of them has a few items, so the walk is bounded whatever the length of the text.
pub fn is_low(
    alloc: Global,
    pending: &Pending,
    shapes: &Shapes,
    weight: &mut Weight,
) -> Result<bool, Memory>
    requires weighed { Weighed weight.old pending.now shapes.now }
    ensures told { IfOk result (λ b. IsTrue b ↔ (weigh pending.now shapes.now ≤ max_height)) }
    ensures weighed { OnOk result (Weighed weight.new pending.now shapes.now) }
{
    if weight.low {
        return Ok(true);
    }
    let low = weighs_little(alloc, pending, shapes)?;
    weight.low = low && weight.rises <= MAX_HEIGHT as usize;
    Ok(low)
}
