// Dicts and their keys. A change refuses a frozen dict with `Frozen`, and then one that a loop walks with `Iterating`.
ghost use Rattle.std.specs.Prelude.{◌≡◌, ◌<◌, ◌^◌, length};
ghost use Rattle.object_arena.specs.Names.{IfOk, Some, get_by, IsKey, dict_at, dict_get, dict_put, dict_remove, Answers, TakesNone, pair_in, seen, pairs_at, pairs_in, Each, Grows, OneKey, Owns, OwnsPair, object_at, value_of};
ghost use Rattle.star_values.specs.declared.value.Sort.TheVariants as sort;

use crate::arena::Arena;
use indexmap::IndexMap;
use indexmap::map::Slice;
use star_values::{ArenaStop, Ref, Value, equal_values_are_one};

/// The value under a key.
pub(crate) fn value_under(pairs: &IndexMap<Value, Value>, key: Value) -> Option<Value>
    ensures { result ≡ get_by (⟦<Value as PartialEq>⟧.eq key) pairs.now }
{
    pairs.get(&key).copied()
}

impl Arena {
    /// Owned values that are equal to this one as keys are this one, since texts and tuples stand once.
    pub(crate) fn keys_stand_once(&self, key: Value)
        requires owned { Owns (seen self.now) key }
        requires key { IsKey (value_of (seen self.now) key) }
        ensures { OneKey (seen self.now) key }
    {
        let _alloc = self.alloc;
    }

    /// The value of a key of a dict. It refuses with `KeyMissing`, and takes no memory.
    pub fn dict_get(&self, dict: Ref, key: Value) -> Result<Value, ArenaStop>
        requires dict { object_at (seen self.now) dict.at ≡ Some sort.Dict }
        requires owned { Owns (seen self.now) key }
        requires key { IsKey (value_of (seen self.now) key) }
        ensures meaning { Answers (value_of (seen self.now)) result (seen self.now).store (seen self.now).store (dict_get dict.at (value_of (seen self.now) key) (seen self.now).store) }
        ensures owns { IfOk result (Owns (seen self.now)) }
        ensures no_memory { TakesNone result }
    {
        equal_values_are_one();
        self.keys_stand_once(key);
        match value_under(self.object(dict.at).contents.dict(), key) {
            None => Err(ArenaStop::KeyMissing),
            Some(value) => Ok(value),
        }
    }

    /// The pairs of a dict, in the order in which the keys came.
    pub fn pairs(&self, dict: Ref) -> Slice<'_, Value, Value>
        requires { object_at (seen self.now) dict.at ≡ Some sort.Dict }
        ensures pairs { pairs_at dict.at (seen self.now).store ≡ pairs_in (seen self.now).held result }
        ensures owns { Each (OwnsPair (seen self.now)) result }
        ensures fits { length result < 2 ^ 63 }
    {
        self.object(dict.at).contents.dict().as_slice()
    }

    /// The pair of a dict at a place, in the order in which the keys came. It refuses with `IndexRange` past the last.
    pub fn dict_at(&self, dict: Ref, at: u64) -> Result<(Value, Value), ArenaStop>
        requires { object_at (seen self.now) dict.at ≡ Some sort.Dict }
        ensures meaning { Answers (pair_in (seen self.now).held) result (seen self.now).store (seen self.now).store (dict_at dict.at at (seen self.now).store) }
        ensures owns { IfOk result (OwnsPair (seen self.now)) }
        ensures no_memory { TakesNone result }
    {
        match self.object(dict.at).contents.dict().get_index(at as usize) {
            None => Err(ArenaStop::IndexRange),
            Some((key, value)) => Ok((*key, *value)),
        }
    }

    /// Puts a value under a key of a dict: in the key's pair, or in a new one behind the others.
    pub fn dict_put(&mut self, dict: Ref, key: Value, v: Value) -> Result<(), ArenaStop>
        requires dict { object_at (seen self.old) dict.at ≡ Some sort.Dict }
        requires owned { Owns (seen self.old) key }
        requires key { IsKey (value_of (seen self.old) key) }
        requires value { Owns (seen self.old) v }
        ensures meaning { Answers (λ u. u) result (seen self.old).store (seen self.new).store (dict_put dict.at (value_of (seen self.old) key) (value_of (seen self.old) v) (seen self.old).store) }
        ensures held { (seen self.new).held ≡ (seen self.old).held }
        ensures grows { Grows (seen self.old) (seen self.new) }
    {
        self.keys_stand_once(key);
        let mut object = self.take(dict.at);
        let answer = object.put(key, v);
        self.put_back(dict.at, object);
        answer
    }

    /// Takes a key's pair out of a dict, and gives its value. The others keep their order. It also refuses with `KeyMissing`.
    pub fn dict_remove(&mut self, dict: Ref, key: Value) -> Result<Value, ArenaStop>
        requires dict { object_at (seen self.old) dict.at ≡ Some sort.Dict }
        requires owned { Owns (seen self.old) key }
        requires key { IsKey (value_of (seen self.old) key) }
        ensures meaning { Answers (value_of (seen self.old)) result (seen self.old).store (seen self.new).store (dict_remove dict.at (value_of (seen self.old) key) (seen self.old).store) }
        ensures owns { IfOk result (Owns (seen self.new)) }
        ensures held { (seen self.new).held ≡ (seen self.old).held }
        ensures grows { Grows (seen self.old) (seen self.new) }
        ensures no_memory { TakesNone result }
    {
        self.keys_stand_once(key);
        let mut object = self.take(dict.at);
        let answer = object.cut(key);
        self.put_back(dict.at, object);
        answer
    }
}
