// What is still to be read.
ghost use Rattle.std.specs.Prelude.{◌≡◌, ◌<◌, ◌^◌, [], ◌∷◌, length, reverse, OnOk, MatchOption};
ghost use Rattle.star_machine.specs.Pending as spec;

use star_grammar::{Action, Choice, Symbol};
use star_tables::{action_of, symbols_of};
use std::alloc::Global;
use std::marker::Model;
use ytt_base::text::Memory;

/// What is still to be read, or the end of an alternative.
#[derive(Clone, Copy)]
pub enum Item {
    Want(Symbol),
    Close(Choice),
}

/// Items, seen as their list, the next one first.
#[derive(Drop)]
pub struct Pending {
    items: Vec<Item>,
}

impl Model for Pending {
    ghost use Rattle.std.specs.Prelude.{List, reverse};
    ghost use Rattle.star_machine.specs.declared.pending.Item.{Item};

    ghost Value = { List Item };

    ghost view = { λ s. reverse s.items.items };
}

impl Pending {
    /// Nothing. It takes no memory.
    pub fn new(alloc: Global) -> Pending
        ensures { result ≡ [] }
    {
        Pending {
            items: Vec::new(alloc),
        }
    }

    /// Makes room for so many more.
    pub fn reserve(&mut self, more: usize) -> Result<(), Memory>
        ensures { OnOk result (self.new ≡ self.old) }
    {
        self.items.reserve(more)?;
        Ok(())
    }

    pub fn push(&mut self, item: Item) -> Result<(), Memory>
        ensures { OnOk result (self.new ≡ item ∷ self.old) }
    {
        self.items.push(item)?;
        Ok(())
    }

    pub fn pop(&mut self) -> Option<Item>
        ensures { MatchOption result ((self.old ≡ []) × (self.new ≡ [])) (λ item. self.old ≡ item ∷ self.new) }
    {
        self.items.pop()
    }

    /// The items, the next one last.
    pub fn as_slice(&self) -> &[Item]
        ensures { reverse result.now ≡ self.now }
    {
        &self.items
    }

    /// The end of an alternative, where it makes something.
    fn end(&mut self, choice: Choice) -> Result<(), Memory>
        ensures { OnOk result (self.new ≡ spec.ended choice self.old) }
    {
        match action_of(choice) {
            Action::Keep => Ok(()),
            _ => self.push(Item::Close(choice)),
        }
    }

    /// Opens an alternative: its symbols, and then its end.
    pub fn open(&mut self, choice: Choice) -> Result<(), Memory>
        ensures opened { OnOk result (self.new ≡ spec.opened choice self.old) }
        ensures few { OnOk result (length self.new < 2 ^ 63) }
    {
        self.end(choice)?;
        put_wanted(&mut self.items, symbols_of(choice))
    }
}

/// Puts symbols that are wanted on items, the next one last.
fn put_wanted(items: &mut Vec<Item>, symbols: &[Symbol]) -> Result<(), Memory>
    ensures { OnOk result (reverse items.new.items ≡ spec.wanted symbols.now (reverse items.old.items)) }
{
    items.reserve(symbols.len())?;
    let mut left = symbols.len();
    while left > 0 {
        left -= 1;
        items.push_reserved(Item::Want(symbols[left]));
    }
    Ok(())
}
