// What loops walk: a list or a dict that stays as it is until the last of them ends.
ghost use Rattle.std.specs.Prelude.{◌≡◌, ◌<◌, ◌^◌, ◌+◌, ◌-◌, List, IfErr, IfOk, IsTrue, OnErr, OnOk, slice_get};
ghost use Rattle.value_spec.specs.Store.{count_of, walked};
ghost use Rattle.value_spec.specs.Values as plain;
ghost use Rattle.star_values.specs.Changing.{contents_kind, is_walked, lent_kind};
ghost use Rattle.star_values.specs.Objects.{contents_in, lent_in, key_of_pair, loops_in, object_in, walked_members};
ghost use Rattle.star_values.specs.Owns.{OwnsContents, OwnsLent, OwnsOption};
ghost use Rattle.star_values.specs.View.{View, option_in};

use crate::object::{Contents, Object};
use crate::value::{Value, value_at};
use indexmap::IndexMap;
use std::alloc::Global;
use std::mem;
use std::rc::Rc;
use ytt_base::text::Memory;

/// A list or a dict that its object and the loops that walk it hold together, so that a loop begins without a copy.
#[derive(Drop)]
pub enum Lent {
    List(Rc<Vec<Value>>),
    Dict(Rc<IndexMap<Value, Value>>),
}

/// The key of the pair at a place, if there is one.
fn key_at(pairs: &IndexMap<Value, Value>, at: usize) -> Option<Value>
    ensures { result ≡ key_of_pair (slice_get pairs.now.entries at) }
{
    match pairs.get_index(at) {
        None => None,
        Some((key, _)) => Some(*key),
    }
}

impl Lent {
    /// How many members or keys there are.
    pub fn len(&self) -> usize
        ensures { (held : List plain.Value) → result ≡ count_of (lent_in held self.now) }
    {
        match self {
            Lent::List(items) => items.as_ref().len(),
            Lent::Dict(pairs) => pairs.as_ref().len(),
        }
    }

    /// The member of a list, or the key of a dict, at a place.
    #[tactic(auto, using(crate::proofs::Lending::keys_at, crate::proofs::Lending::key_owned))]
    pub fn member(&self, at: usize) -> Option<Value>
        ensures value { (held : List plain.Value) → option_in held result ≡ slice_get (walked_members (lent_in held self.now)) at }
        ensures owned { (a : View) → OwnsLent a self.now → OwnsOption a result }
    {
        match self {
            Lent::List(items) => value_at(items.as_ref().as_slice(), at),
            Lent::Dict(pairs) => key_at(pairs.as_ref(), at),
        }
    }

    /// The same, for one holder more.
    fn share(&self) -> Result<Lent, Memory>
        ensures same { IfOk result (λ l. (held : List plain.Value) → lent_in held l ≡ lent_in held self.now) }
        ensures owned { IfOk result (λ l. (a : View) → OwnsLent a self.now → OwnsLent a l) }
    {
        match self {
            Lent::List(items) => Ok(Lent::List(items.clone()?)),
            Lent::Dict(pairs) => Ok(Lent::Dict(pairs.clone()?)),
        }
    }
}

impl Contents {
    /// What is lent when one more loop walks them, and how many loops walk them now; the same where memory is wanting.
    fn lend(self, alloc: Global) -> Result<(Lent, u64), Contents>
        requires kind { IsTrue (is_walked (contents_kind self)) }
        requires room { loops_in self < 2 ^ 63 }
        ensures lent { IfOk result (λ p. (held : List plain.Value) → lent_in held p.0 ≡ contents_in held self) }
        ensures kind { IfOk result (λ p. lent_kind p.0 ≡ contents_kind self) }
        ensures loops { IfOk result (λ p. p.1 ≡ loops_in self) }
        ensures owned { IfOk result (λ p. (a : View) → OwnsContents a self → OwnsLent a p.0) }
        ensures err { IfErr result (λ c. c ≡ self) }
    {
        match self {
            Contents::Lent(lent, more) => Ok((lent, more + 1)),
            Contents::List(items) => match Rc::new(alloc, items) {
                Ok(items) => Ok((Lent::List(items), 0)),
                Err(failed) => Err(Contents::List(failed.value)),
            },
            Contents::Dict(pairs) => match Rc::new(alloc, pairs) {
                Ok(pairs) => Ok((Lent::Dict(pairs), 0)),
                Err(failed) => Err(Contents::Dict(failed.value)),
            },
            _ => unreachable!(),
        }
    }

    /// The same where one loop less walks them. They are the object's own again where it was the last, and the same where
    /// something else holds them still.
    fn take_back(self) -> Result<Contents, Contents>
        ensures members { IfOk result (λ c. (held : List plain.Value) → contents_in held c ≡ contents_in held self) }
        ensures kind { IfOk result (λ c. contents_kind c ≡ contents_kind self) }
        ensures loops { IfOk result (λ c. loops_in c ≡ loops_in self - 1) }
        ensures owned { IfOk result (λ c. (a : View) → OwnsContents a self → OwnsContents a c) }
        ensures err { IfErr result (λ c. c ≡ self) }
    {
        match self {
            Contents::Lent(Lent::List(items), 0) => match Rc::try_unwrap(items) {
                Ok(items) => Ok(Contents::List(items)),
                Err(items) => Err(Contents::Lent(Lent::List(items), 0)),
            },
            Contents::Lent(Lent::Dict(pairs), 0) => match Rc::try_unwrap(pairs) {
                Ok(pairs) => Ok(Contents::Dict(pairs)),
                Err(pairs) => Err(Contents::Lent(Lent::Dict(pairs), 0)),
            },
            Contents::Lent(lent, more) => Ok(Contents::Lent(lent, more - 1)),
            own => Ok(own),
        }
    }
}

impl Object {
    /// One more loop walks a list or a dict, and goes over what is given. Where memory is wanting the members are as they were.
    pub fn begin_loop(&mut self, alloc: Global) -> Result<Lent, Memory>
        requires kind { IsTrue (is_walked (contents_kind self.old.contents)) }
        requires room { loops_in self.old.contents < 2 ^ 63 }
        ensures meaning { (held : List plain.Value) → OnOk result (object_in held self.new ≡ walked (λ n. n + 1) (object_in held self.old)) }
        ensures lent { IfOk result (λ l. (held : List plain.Value) → lent_in held l ≡ contents_in held self.old.contents) }
        ensures err { (held : List plain.Value) → OnErr result (contents_in held self.new.contents ≡ contents_in held self.old.contents) }
        ensures kind { contents_kind self.new.contents ≡ contents_kind self.old.contents }
        ensures owned { (a : View) → OwnsContents a self.old.contents → OwnsContents a self.new.contents }
        ensures given { IfOk result (λ l. (a : View) → OwnsContents a self.old.contents → OwnsLent a l) }
    {
        match mem::replace(&mut self.contents, Contents::Box(None)).lend(alloc) {
            Err(contents) => {
                self.contents = contents;
                Err(Memory)
            }
            Ok((lent, more)) => {
                let shared = lent.share();
                self.contents = Contents::Lent(lent, more);
                shared
            }
        }
    }

    /// One loop less walks it. A loop lets go of the members before it ends, so that the object has them for itself behind the
    /// last; where something holds them still, to take them back would be a copy, and nothing is changed.
    pub fn end_loop(&mut self) -> Result<(), Memory>
        ensures meaning { (held : List plain.Value) → OnOk result (object_in held self.new ≡ walked (λ n. n - 1) (object_in held self.old)) }
        ensures err { OnErr result (self.new ≡ self.old) }
        ensures kind { contents_kind self.new.contents ≡ contents_kind self.old.contents }
        ensures owned { (a : View) → OwnsContents a self.old.contents → OwnsContents a self.new.contents }
    {
        match mem::replace(&mut self.contents, Contents::Box(None)).take_back() {
            Err(contents) => {
                self.contents = contents;
                Err(Memory)
            }
            Ok(contents) => {
                self.contents = contents;
                Ok(())
            }
        }
    }
}
