// Objects: what can be changed.
ghost use Rattle.std.specs.Prelude.{◌≡◌, List, Some, true, false, slice_get};
ghost use Rattle.value_spec.specs.Store.{count_of, list_of_contents, pairs_of_contents, with_contents};
ghost use Rattle.value_spec.specs.Values.{of_box};
ghost use Rattle.value_spec.specs.Values as plain;
ghost use Rattle.star_values.specs.Changing.{IsBox, IsDict, IsList, Unlocks, contents_kind, pairs_of};
ghost use Rattle.star_values.specs.Objects.{contents_in, loops_in, object_in, pairs_in};
ghost use Rattle.star_values.specs.Owns.{Each, Owns, OwnsAll, OwnsContents, OwnsOption, OwnsPair};
ghost use Rattle.star_values.specs.View.{View, option_in, values_in, value_in};

use crate::lent::Lent;
use crate::value::{Ref, Sort, Value, Values, value_at};
use indexmap::IndexMap;
use sqlite_items::Items;
use std::alloc::Global;
use ytt_base::text::{Memory, Text};

/// The name of a variable, which is a text of the arena, and its box.
#[derive(Clone, Copy)]
pub struct NamedBox {
    pub name: Ref,
    pub at: Ref,
}

/// The variables of a scope, the innermost first.
pub type Boxes = Items<NamedBox>;

/// A function: the name that it shows, its file, the number of its code there, the variables that stood around it, and the
/// values of its defaults.
#[derive(Drop)]
pub struct Function {
    pub name: Text,
    pub file: u32,
    pub code: u64,
    pub boxes: Boxes,
    pub defaults: Values,
}

/// What an object holds. What loops walk is lent to them: the count says how many walk it besides one.
#[derive(Drop)]
pub enum Contents {
    List(Vec<Value>),
    Dict(IndexMap<Value, Value>),
    Lent(Lent, u64),
    Box(Option<Value>),
    Func(Function),
}

/// An object: what it holds, which also says how many loops walk it, and whether it is frozen.
#[derive(Drop)]
pub struct Object {
    pub contents: Contents,
    pub frozen: bool,
}

impl Contents {
    /// Contents of the same kind with nothing in them. They take no memory.
    pub fn empty_like(&self, alloc: Global) -> Contents
        ensures kind { contents_kind result ≡ contents_kind self.now }
        ensures owned { (a : View) → OwnsContents a result }
    {
        match self {
            Contents::List(_) | Contents::Lent(Lent::List(_), _) => {
                Contents::List(Vec::new(alloc))
            }
            Contents::Dict(_) | Contents::Lent(Lent::Dict(_), _) => {
                Contents::Dict(IndexMap::new(alloc))
            }
            Contents::Box(_) => Contents::Box(None),
            Contents::Func(_) => Contents::Func(Function {
                name: Text::new(alloc),
                file: 0,
                code: 0,
                boxes: Items::new(alloc),
                defaults: Items::new(alloc),
            }),
        }
    }

    /// Their kind.
    pub fn sort(&self) -> Sort
        ensures { result ≡ contents_kind self.now }
    {
        match self {
            Contents::List(_) | Contents::Lent(Lent::List(_), _) => Sort::List,
            Contents::Dict(_) | Contents::Lent(Lent::Dict(_), _) => Sort::Dict,
            Contents::Box(_) => Sort::Box,
            Contents::Func(_) => Sort::Func,
        }
    }

    /// How many members or pairs there are.
    pub fn len(&self) -> usize
        ensures { (held : List plain.Value) → result ≡ count_of (contents_in held self.now) }
    {
        match self {
            Contents::List(items) => items.len(),
            Contents::Dict(pairs) => pairs.len(),
            Contents::Lent(lent, _) => lent.len(),
            Contents::Box(None) => 0,
            Contents::Box(Some(_)) => 1,
            Contents::Func(_) => 0,
        }
    }

    /// The member of a list at a place; what a box has stands at place 0.
    pub fn member(&self, at: usize) -> Option<Value>
        ensures value { (held : List plain.Value) → option_in held result ≡ slice_get (list_of_contents (contents_in held self.now)) at }
        ensures owned { (a : View) → OwnsContents a self.now → OwnsOption a result }
    {
        match self {
            Contents::List(items) => value_at(items.as_slice(), at),
            Contents::Lent(Lent::List(items), _) => value_at(items.as_ref().as_slice(), at),
            Contents::Box(inside) => { if at == 0 { *inside } else { None } }
            _ => None,
        }
    }

    /// The members of a list.
    pub fn list(&self) -> &[Value]
        requires { IsList self.now }
        ensures members { (held : List plain.Value) → list_of_contents (contents_in held self.now) ≡ values_in held result.now }
        ensures owned { (a : View) → OwnsContents a self.now → OwnsAll a result.now }
    {
        match self {
            Contents::List(items) => items.as_slice(),
            Contents::Lent(Lent::List(items), _) => items.as_ref().as_slice(),
            _ => unreachable!(),
        }
    }

    /// The pairs of a dict.
    pub fn dict(&self) -> &IndexMap<Value, Value>
        requires { IsDict self.now }
        ensures pairs { pairs_of self.now ≡ result.now.entries }
        ensures members { (held : List plain.Value) → pairs_of_contents (contents_in held self.now) ≡ pairs_in held result.now.entries }
        ensures owned { (a : View) → OwnsContents a self.now → Each (OwnsPair a) result.now.entries }
    {
        match self {
            Contents::Dict(pairs) => pairs,
            Contents::Lent(Lent::Dict(pairs), _) => pairs.as_ref(),
            _ => unreachable!(),
        }
    }

    /// How many loops walk it.
    pub fn loops(&self) -> u128
        ensures { result ≡ loops_in self.now }
    {
        match self {
            Contents::Lent(_, more) => u128::from(*more) + 1,
            _ => 0,
        }
    }
}

impl Object {
    /// A new object, which isn't frozen.
    pub fn new(contents: Contents) -> Object
        ensures { result ≡ record { contents = contents; frozen = false } }
    {
        Object {
            contents,
            frozen: false,
        }
    }

    /// Whether it may be changed: not where it is frozen, nor where a loop walks it.
    pub fn unlocked(&self) -> Result<(), ArenaStop>
        ensures { Unlocks result self.now }
    {
        if self.frozen {
            return Err(ArenaStop::Frozen);
        }
        if self.contents.loops() != 0 {
            return Err(ArenaStop::Iterating);
        }
        Ok(())
    }

    /// It can't be changed any more.
    pub fn freeze(&mut self)
        ensures { self.new ≡ record self.old { frozen = true } }
    {
        self.frozen = true;
    }

    /// A box has this value from now on, whatever the marks say.
    pub fn fill(&mut self, value: Value)
        requires { IsBox self.old.contents }
        ensures meaning { (held : List plain.Value) → object_in held self.new ≡ with_contents (of_box (Some (value_in held value))) (object_in held self.old) }
        ensures kind { contents_kind self.new.contents ≡ contents_kind self.old.contents }
        ensures owned { (a : View) → Owns a value → OwnsContents a self.new.contents }
    {
        self.contents = Contents::Box(Some(value));
    }
}

/// Why a call of an arena refuses: the object is frozen, a loop walks it, it has no such place, it has no such key, or memory
/// is wanting.
#[derive(Clone, Copy, PartialEq, Eq)]
pub enum ArenaStop {
    Frozen,
    Iterating,
    IndexRange,
    KeyMissing,
    Memory,
}

impl From<Memory> for ArenaStop {
    ghost use Rattle.std.specs.Prelude.{◌≡◌};
    ghost use Rattle.star_values.specs.declared.object.ArenaStop.TheVariants as stop;

    ghost from_gives = { λ _ s. s ≡ stop.Memory };

    fn from(_: Memory) -> Self {
        ArenaStop::Memory
    }
}
