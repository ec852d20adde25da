// Changes of lists, and of boxes, which are lists of at most one member. Each refuses a frozen object with `Frozen`, and then
// one that a loop walks with `Iterating`.
ghost use Rattle.std.specs.Prelude.{◌≡◌};
ghost use Rattle.object_arena.specs.Names.{IfOk, IsTrue, Some, change, of_box, slice_get, with_contents, clear, list_extend, list_insert, list_push, list_remove, list_set, Answers, TakesNone, seen, Grows, Owns, OwnsAll, object_at, value_of, values_of};
ghost use Rattle.star_values.specs.declared.value.Sort.TheVariants as sort;
ghost use Rattle.object_arena.specs.Stands.{has_members, has_room, is_walked};

use crate::arena::Arena;
use star_values::{ArenaStop, Ref, Value};

impl Arena {
    /// Puts a value in the place of a member, or of what a box has at place 0. It also refuses with `IndexRange` past the last.
    pub fn list_set(&mut self, list: Ref, at: u64, v: Value) -> Result<(), ArenaStop>
        requires list { IsTrue (has_members (slice_get (seen self.old).store list.at)) }
        requires value { Owns (seen self.old) v }
        ensures meaning { Answers (λ u. u) result (seen self.old).store (seen self.new).store (list_set list.at at (value_of (seen self.old) v) (seen self.old).store) }
        ensures held { (seen self.new).held ≡ (seen self.old).held }
        ensures grows { Grows (seen self.old) (seen self.new) }
        ensures no_memory { TakesNone result }
    {
        let mut object = self.take(list.at);
        let answer = object.set(at as usize, v);
        self.put_back(list.at, object);
        answer
    }

    /// Puts a value behind the members of a list, or into a box that has none.
    pub fn list_push(&mut self, list: Ref, v: Value) -> Result<(), ArenaStop>
        requires list { IsTrue (has_room (slice_get (seen self.old).store list.at)) }
        requires value { Owns (seen self.old) v }
        ensures meaning { Answers (λ u. u) result (seen self.old).store (seen self.new).store (list_push list.at (value_of (seen self.old) v) (seen self.old).store) }
        ensures held { (seen self.new).held ≡ (seen self.old).held }
        ensures grows { Grows (seen self.old) (seen self.new) }
    {
        let mut object = self.take(list.at);
        let answer = object.push(v);
        self.put_back(list.at, object);
        answer
    }

    /// Puts values behind the members of a list.
    pub fn list_extend(&mut self, list: Ref, more: &[Value]) -> Result<(), ArenaStop>
        requires list { object_at (seen self.old) list.at ≡ Some sort.List }
        requires values { OwnsAll (seen self.old) more.now }
        ensures meaning { Answers (λ u. u) result (seen self.old).store (seen self.new).store (list_extend list.at (values_of (seen self.old) more.now) (seen self.old).store) }
        ensures held { (seen self.new).held ≡ (seen self.old).held }
        ensures grows { Grows (seen self.old) (seen self.new) }
    {
        let mut object = self.take(list.at);
        let answer = object.extend(more);
        self.put_back(list.at, object);
        answer
    }

    /// Puts a value in front of the member of a list at a place, or behind all. It also refuses with `IndexRange` past the length.
    pub fn list_insert(&mut self, list: Ref, at: u64, v: Value) -> Result<(), ArenaStop>
        requires list { object_at (seen self.old) list.at ≡ Some sort.List }
        requires value { Owns (seen self.old) v }
        ensures meaning { Answers (λ u. u) result (seen self.old).store (seen self.new).store (list_insert list.at at (value_of (seen self.old) v) (seen self.old).store) }
        ensures held { (seen self.new).held ≡ (seen self.old).held }
        ensures grows { Grows (seen self.old) (seen self.new) }
    {
        let mut object = self.take(list.at);
        let answer = object.insert(at as usize, v);
        self.put_back(list.at, object);
        answer
    }

    /// Takes the member of a list at a place out, and gives it. It also refuses with `IndexRange` where there is no such place.
    pub fn list_remove(&mut self, list: Ref, at: u64) -> Result<Value, ArenaStop>
        requires { object_at (seen self.old) list.at ≡ Some sort.List }
        ensures meaning { Answers (value_of (seen self.old)) result (seen self.old).store (seen self.new).store (list_remove list.at at (seen self.old).store) }
        ensures owns { IfOk result (Owns (seen self.new)) }
        ensures held { (seen self.new).held ≡ (seen self.old).held }
        ensures grows { Grows (seen self.old) (seen self.new) }
        ensures no_memory { TakesNone result }
    {
        let mut object = self.take(list.at);
        let answer = object.remove(at as usize);
        self.put_back(list.at, object);
        answer
    }

    /// A box has this value from now on, whatever its marks say.
    pub fn set_box(&mut self, at: Ref, v: Value)
        requires at { object_at (seen self.old) at.at ≡ Some sort.Box }
        requires value { Owns (seen self.old) v }
        ensures store { (seen self.new).store ≡ change (with_contents (of_box (Some (value_of (seen self.old) v)))) at.at (seen self.old).store }
        ensures held { (seen self.new).held ≡ (seen self.old).held }
        ensures grows { Grows (seen self.old) (seen self.new) }
    {
        let mut object = self.take(at.at);
        object.fill(v);
        self.put_back(at.at, object);
    }

    /// Takes all members of a list, or all pairs of a dict, out.
    pub fn clear(&mut self, r: Ref) -> Result<(), ArenaStop>
        requires { IsTrue (is_walked (slice_get (seen self.old).store r.at)) }
        ensures meaning { Answers (λ u. u) result (seen self.old).store (seen self.new).store (clear r.at (seen self.old).store) }
        ensures held { (seen self.new).held ≡ (seen self.old).held }
        ensures grows { Grows (seen self.old) (seen self.new) }
        ensures no_memory { TakesNone result }
    {
        let mut object = self.take(r.at);
        let answer = object.clear();
        self.put_back(r.at, object);
        answer
    }
}
