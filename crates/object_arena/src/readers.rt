// What an arena shows.
ghost use Rattle.std.specs.Prelude.{◌≡◌, ◌↔◌};
ghost use Rattle.object_arena.specs.Names.{IfOk, IsSome, IsTrue, Some, slice_get, box_at, found, function_at, index_range, list_at, list_get, may_change, fragment_value, module_value, range_value, struct_value, text_value, tuple_value, values_from, item_kind_of, Answers, TakesNone, function_in, seen, thing_value, Owns, OwnsAll, OwnsBuilt, OwnsFields, OwnsFunction, OwnsOption, OwnsThing, held_at, object_at, built_in, fields_in, option_in, value_of, values_of};
ghost use Rattle.star_values.specs.declared.value.Sort.TheVariants as sort;
ghost use Rattle.star_values.specs.declared.value.Value.TheVariants as value;
ghost use Rattle.object_arena.specs.Shapes.{HasShape};
ghost use Rattle.object_arena.specs.Stands.{has_length, has_members, has_shape, holds_thing, length_of, sort_at, tuple_members};

use crate::arena::Arena;
use star_values::{
    Answerer, ArenaStop, Built, Contents, Function, Held, ItemKind, NamedValues, Ref, Sort, Thing,
    Value, value_at,
};
use ytt_base::text::Text;

/// What a value is made of that is no list, dict, tuple or box.
pub enum Shape<'a> {
    Text(&'a Text),
    /// The first number, the number before which it ends, and its step.
    Range(i128, i128, i128),
    Struct(&'a NamedValues),
    Func(&'a Function),
    /// Who answers it, its name, and what it is of or what it holds.
    Native(Answerer, &'a Text, Option<Value>),
    /// The value whose members stand in a node's place.
    Replacement(Value),
    Module(&'a Text, &'a NamedValues),
    Fragment(ItemKind, &'a Built),
}

impl Arena {
    /// Whether this arena owns a reference: what stands there is of the kind that the reference names.
    pub fn owns(&self, r: Ref) -> bool
        ensures { IsTrue result ↔ (sort_at (seen self.now) r ≡ Some r.sort) }
    {
        match r.sort {
            Sort::List | Sort::Dict | Sort::Func | Sort::Box => {
                r.at < self.object_count() && self.object(r.at).contents.sort() == r.sort
            }
            _ => r.at < self.held_count() && self.held(r.at).sort() == r.sort,
        }
    }

    /// The bytes of a text.
    pub fn text(&self, text: Ref) -> &Text
        requires { held_at (seen self.now) text.at ≡ Some sort.Text }
        ensures { value_of (seen self.now) (value.Text text) ≡ text_value result.now }
    {
        match self.held(text.at) {
            Held::Text(word) => &word.text,
            _ => unreachable!(),
        }
    }

    /// The members of a tuple.
    pub fn tuple(&self, tuple: Ref) -> &[Value]
        requires { held_at (seen self.now) tuple.at ≡ Some sort.Tuple }
        ensures members { value_of (seen self.now) (value.Tuple tuple) ≡ tuple_value (values_from (values_of (seen self.now) result.now)) }
        ensures owns { OwnsAll (seen self.now) result.now }
    {
        match self.held(tuple.at) {
            Held::Tuple(members) => members.as_slice(),
            _ => unreachable!(),
        }
    }

    /// The members of a list.
    pub fn list(&self, list: Ref) -> &[Value]
        requires { object_at (seen self.now) list.at ≡ Some sort.List }
        ensures members { list_at list.at (seen self.now).store ≡ values_of (seen self.now) result.now }
        ensures owns { OwnsAll (seen self.now) result.now }
    {
        self.object(list.at).contents.list()
    }

    /// What a box has.
    pub fn boxed(&self, at: Ref) -> Option<Value>
        requires { object_at (seen self.now) at.at ≡ Some sort.Box }
        ensures value { box_at at.at (seen self.now).store ≡ option_in (seen self.now).held result }
        ensures owns { OwnsOption (seen self.now) result }
    {
        match &self.object(at.at).contents {
            Contents::Box(inside) => *inside,
            _ => unreachable!(),
        }
    }

    /// How many members a list, a tuple or a box has, or how many pairs a dict has. A box without a value has none.
    pub fn length(&self, r: Ref) -> u64
        requires owned { sort_at (seen self.now) r ≡ Some r.sort }
        requires kind { IsTrue (has_length r.sort) }
        ensures { result ≡ length_of (seen self.now) r }
    {
        match r.sort {
            Sort::Tuple => self.tuple(r).len() as u64,
            _ => self.object(r.at).contents.len() as u64,
        }
    }

    /// A member of a list, or what a box has at place 0. It refuses with `IndexRange` where there is no such place.
    pub fn list_get(&self, list: Ref, at: u64) -> Result<Value, ArenaStop>
        requires { IsTrue (has_members (slice_get (seen self.now).store list.at)) }
        ensures meaning { Answers (value_of (seen self.now)) result (seen self.now).store (seen self.now).store (list_get list.at at (seen self.now).store) }
        ensures owns { IfOk result (Owns (seen self.now)) }
        ensures no_memory { TakesNone result }
    {
        match self.object(list.at).contents.member(at as usize) {
            None => Err(ArenaStop::IndexRange),
            Some(value) => Ok(value),
        }
    }

    /// Whether an object may be changed. It refuses with what any change of the object is refused with: a frozen one with
    /// `Frozen`, and then one that a loop walks with `Iterating`.
    pub fn may_change(&self, r: Ref) -> Result<(), ArenaStop>
        requires { IsSome (object_at (seen self.now) r.at) }
        ensures meaning { Answers (λ u. u) result (seen self.now).store (seen self.now).store (may_change r.at (seen self.now).store) }
        ensures no_memory { TakesNone result }
    {
        self.object(r.at).unlocked()
    }

    /// A member of a tuple. It refuses with `IndexRange` where there is no such place.
    pub fn tuple_get(&self, tuple: Ref, at: u64) -> Result<Value, ArenaStop>
        requires { held_at (seen self.now) tuple.at ≡ Some sort.Tuple }
        ensures meaning { Answers (value_of (seen self.now)) result (seen self.now).store (seen self.now).store (found index_range (slice_get (tuple_members (slice_get (seen self.now).held tuple.at)) at) (seen self.now).store) }
        ensures owns { IfOk result (Owns (seen self.now)) }
        ensures no_memory { TakesNone result }
    {
        match value_at(self.tuple(tuple), at as usize) {
            None => Err(ArenaStop::IndexRange),
            Some(value) => Ok(value),
        }
    }

    /// What is held at a place besides texts and tuples.
    fn thing(&self, at: usize) -> &Thing
        requires { IsTrue (holds_thing (held_at (seen self.now) at)) }
        ensures here { slice_get (seen self.now).held at ≡ Some (thing_value (seen self.now).held result.now) }
        ensures owns { OwnsThing (seen self.now) result.now }
    {
        match self.held(at) {
            Held::Other(numbered) => &numbered.thing,
            _ => unreachable!(),
        }
    }

    /// A function.
    pub fn function(&self, function: Ref) -> &Function
        requires { object_at (seen self.now) function.at ≡ Some sort.Func }
        ensures here { function_at function.at (seen self.now).store ≡ Some (function_in (seen self.now).held result.now) }
        ensures owns { OwnsFunction (seen self.now) result.now }
    {
        match &self.object(function.at).contents {
            Contents::Func(function) => function,
            _ => unreachable!(),
        }
    }

    /// What a thing is made of.
    fn thing_shape(&self, r: Ref) -> Shape<'_>
        requires here { held_at (seen self.now) r.at ≡ Some r.sort }
        requires thing { IsTrue (holds_thing (Some r.sort)) }
        ensures { HasShape (seen self.now) r result }
    {
        match self.thing(r.at) {
            Thing::Range(from, to, step) => Shape::Range(*from, *to, *step),
            Thing::Struct(fields) => Shape::Struct(fields),
            Thing::Module(name, fields) => Shape::Module(name, fields),
            Thing::Native(by, name, on) => Shape::Native(*by, name, *on),
            Thing::Replacement(value) => Shape::Replacement(*value),
            Thing::Fragment(kind, items) => Shape::Fragment(*kind, items),
        }
    }

    /// What a value is made of that is no list, dict, tuple or box.
    pub fn shape(&self, r: Ref) -> Shape<'_>
        requires owned { sort_at (seen self.now) r ≡ Some r.sort }
        requires kind { IsTrue (has_shape r.sort) }
        ensures { HasShape (seen self.now) r result }
    {
        match r.sort {
            Sort::Text => Shape::Text(self.text(r)),
            Sort::Func => Shape::Func(self.function(r)),
            Sort::Range | Sort::Struct | Sort::Fragment | Sort::Native | Sort::Module => {
                self.thing_shape(r)
            }
            _ => unreachable!(),
        }
    }
}
