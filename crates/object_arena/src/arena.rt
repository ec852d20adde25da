// The arena, and the few steps by which all its calls go.
ghost use Rattle.std.specs.Prelude.{◌≡◌, ◌<◌};
ghost use Rattle.object_arena.specs.Names.{[], ℕ, length, slice_get, slice_set, IsSome, Some, IfOk, OnErr, OnOk, with_object, contents_kind, contents_in, held_value, loops_in, object_in, seen, thing_value, Grows, NumberedAt, OwnsContents, OwnsHeld, SameHeld, held_at, held_sort, object_at, View, IsBack, IsOut, MeansSame};
ghost use Rattle.star_values.specs.declared.held.Held.TheVariants as held;

use indexmap::IndexSet;
use star_values::{Contents, Held, Numbered, Object, Thing, equal_values_are_one};
use std::alloc::Global;
use std::marker::Model;
use std::mem;
use ytt_base::text::Memory;

/// The owner of what values hold and of objects.
#[derive(Drop)]
pub struct Arena {
    pub(crate) alloc: Global,
    held: IndexSet<Held>,
    objects: Vec<Object>,
}

impl Model for Arena {
    ghost use Rattle.std.specs.Coded.{codes};
    ghost use Rattle.star_values.specs.contracts.held.Held as a_held;
    ghost use Rattle.star_values.specs.contracts.object.Object as an_object;
    ghost use Rattle.star_values.specs.Objects.{Slots};
    ghost use Rattle.star_values.specs.Owns.{Sound};

    ghost Value = { Slots };

    ghost coded = { Prim.hlevel (codes, a_held.the_row.coded, an_object.the_row.coded) };

    ghost view = { λ a. record { held = a.held.keys; objects = a.objects.items } };

    ghost invariant = { λ a. Sound (record { held = a.held.keys; objects = a.objects.items }) };
}

/// Held things that are compared are equal exactly where they are the same.
fn equal_things_are_same()
    ensures { MeansSame ⟦<Held as PartialEq>⟧.eq }
{
    equal_values_are_one();
}

impl Arena {
    /// An arena with nothing in it. It takes no memory.
    pub fn new(alloc: Global) -> Arena
        ensures { seen result ≡ record { held = []; store = [] } }
    {
        Arena {
            alloc,
            held: IndexSet::new(alloc),
            objects: Vec::new(alloc),
        }
    }

    /// Where it takes its memory from.
    pub fn alloc(&self) -> Global {
        self.alloc
    }

    /// How many held things there are. Each is of a kind.
    pub(crate) fn held_count(&self) -> usize
        ensures count { result ≡ length (seen self.now).held }
        ensures each { (i : ℕ) → i < length (seen self.now).held → IsSome (held_at (seen self.now) i) }
    {
        self.held.len()
    }

    /// How many objects there are.
    pub(crate) fn object_count(&self) -> usize
        ensures { result ≡ length (seen self.now).store }
    {
        self.objects.len()
    }

    /// Where a held thing stands now: where the same one stood before, or behind the others.
    pub(crate) fn push_held(&mut self, held: Held) -> Result<usize, Memory>
        requires owns { OwnsHeld (seen self.old) held }
        requires number { NumberedAt (length (seen self.old).held) held }
        ensures here { IfOk result (λ i. slice_get (seen self.new).held i ≡ Some (held_value (seen self.old).held held)) }
        ensures store { (seen self.new).store ≡ (seen self.old).store }
        ensures grows { Grows (seen self.old) (seen self.new) }
        ensures err { OnErr result (seen self.new ≡ seen self.old) }
    {
        equal_things_are_same();
        let (at, _) = self.held.insert_full(held)?;
        Ok(at)
    }

    /// Where a thing stands now, which is behind the others.
    pub(crate) fn push_thing(&mut self, thing: Thing) -> Result<usize, Memory>
        requires { (number : ℕ) → OwnsHeld (seen self.old) (held.Other (record { number = number; thing = thing })) }
        ensures here { IfOk result (λ i. slice_get (seen self.new).held i ≡ Some (thing_value (seen self.old).held thing)) }
        ensures store { (seen self.new).store ≡ (seen self.old).store }
        ensures grows { Grows (seen self.old) (seen self.new) }
        ensures err { OnErr result (seen self.new ≡ seen self.old) }
    {
        let number = self.held_count();
        self.push_held(Held::Other(Numbered { number, thing }))
    }

    /// Where a new object stands, which is behind the others.
    pub(crate) fn push_object(&mut self, contents: Contents) -> Result<usize, Memory>
        requires owns { OwnsContents (seen self.old) contents }
        requires still { loops_in contents ≡ 0 }
        ensures here { IfOk result (λ i. i ≡ length (seen self.old).store) }
        ensures store { OnOk result ((seen self.new).store ≡ with_object (contents_in (seen self.old).held contents) (seen self.old).store) }
        ensures held { (seen self.new).held ≡ (seen self.old).held }
        ensures grows { Grows (seen self.old) (seen self.new) }
        ensures err { OnErr result (seen self.new ≡ seen self.old) }
    {
        let at = self.object_count();
        self.objects.push(Object::new(contents))?;
        Ok(at)
    }

    /// The held thing at a place.
    pub(crate) fn held(&self, at: usize) -> &Held
        requires { IsSome (held_at (seen self.now) at) }
        ensures here { slice_get (seen self.now).held at ≡ Some (held_value (seen self.now).held result.now) }
        ensures owns { OwnsHeld (seen self.now) result.now }
    {
        &self.held.as_slice()[at]
    }

    /// The object at a place.
    pub(crate) fn object(&self, at: usize) -> &Object
        requires { IsSome (object_at (seen self.now) at) }
        ensures here { slice_get (seen self.now).store at ≡ Some (object_in (seen self.now).held result.now) }
        ensures owns { OwnsContents (seen self.now) result.now.contents }
    {
        &self.objects[at]
    }

    /// Puts an object in the place of one of its kind, which it gives.
    fn replace(&mut self, at: usize, object: Object) -> Object
        requires kind { object_at (seen self.old) at ≡ Some (contents_kind object.contents) }
        requires owns { OwnsContents (seen self.old) object.contents }
        ensures was { slice_get (seen self.old).store at ≡ Some (object_in (seen self.old).held result) }
        ensures owned { OwnsContents (seen self.old) result.contents }
        ensures store { (seen self.new).store ≡ slice_set (seen self.old).store at (object_in (seen self.old).held object) }
        ensures held { (seen self.new).held ≡ (seen self.old).held }
        ensures grows { Grows (seen self.old) (seen self.new) }
    {
        mem::replace(&mut self.objects[at], object)
    }

    /// Takes an object out, and leaves an empty one of its kind in its place.
    pub(crate) fn take(&mut self, at: usize) -> Object
        requires { IsSome (object_at (seen self.old) at) }
        ensures was { slice_get (seen self.old).store at ≡ Some (object_in (seen self.old).held result) }
        ensures kind { object_at (seen self.new) at ≡ Some (contents_kind result.contents) }
        ensures had { OwnsContents (seen self.old) result.contents }
        ensures owned { OwnsContents (seen self.new) result.contents }
        ensures out { IsOut at (seen self.old) (seen self.new) }
    {
        let empty = self.object(at).contents.empty_like(self.alloc);
        self.replace(at, Object::new(empty))
    }

    /// Puts an object back that was taken out.
    pub(crate) fn put_back(&mut self, at: usize, object: Object)
        requires kind { object_at (seen self.old) at ≡ Some (contents_kind object.contents) }
        requires owns { OwnsContents (seen self.old) object.contents }
        ensures { (a : View) → IsOut at a (seen self.old) → IsBack at object a (seen self.new) }
    {
        self.replace(at, object);
    }
}
