// Pairs that are gathered before their dict is made.
ghost use Rattle.std.specs.Prelude.{◌≡◌};
ghost use Rattle.object_arena.specs.Names.{IfOk, OnOk, length, is_some, of_dict, dict_value, IsKey, place_of_key, put_pair, pairs_in, seen, Each, Owns, OwnsPair, value_of};
ghost use Rattle.object_arena.specs.Made.{MakesObject};

use crate::arena::Arena;
use crate::dicts::value_under;
use indexmap::IndexMap;
use star_values::{Contents, Ref, Sort, Value, equal_values_are_one, put_under};
use ytt_base::text::Memory;

/// Pairs of a key and a value, in the order in which the keys came.
pub type Pairs = IndexMap<Value, Value>;

impl Arena {
    /// Whether one of these pairs has a key.
    pub fn has_key(&self, pairs: &Pairs, key: Value) -> bool
        requires pairs { Each (OwnsPair (seen self.now)) pairs.now.entries }
        requires owned { Owns (seen self.now) key }
        requires key { IsKey (value_of (seen self.now) key) }
        ensures { result ≡ is_some (place_of_key (value_of (seen self.now) key) (pairs_in (seen self.now).held pairs.now.entries)) }
    {
        equal_values_are_one();
        self.keys_stand_once(key);
        value_under(pairs, key).is_some()
    }

    /// Puts a value under a key of these pairs: in the key's pair, or in a new one behind the others.
    pub fn put_pair(&self, pairs: &mut Pairs, key: Value, v: Value) -> Result<(), Memory>
        requires pairs { Each (OwnsPair (seen self.now)) pairs.old.entries }
        requires owned { Owns (seen self.now) key }
        requires key { IsKey (value_of (seen self.now) key) }
        requires value { Owns (seen self.now) v }
        ensures pairs { OnOk result (pairs_in (seen self.now).held pairs.new.entries ≡ put_pair (value_of (seen self.now) key) (value_of (seen self.now) v) (pairs_in (seen self.now).held pairs.old.entries)) }
        ensures owned { OnOk result (Each (OwnsPair (seen self.now)) pairs.new.entries) }
    {
        equal_values_are_one();
        self.keys_stand_once(key);
        put_under(pairs, key, v)
    }

    /// A dict of these pairs.
    pub fn new_dict_of(&mut self, pairs: Pairs) -> Result<Value, Memory>
        requires { Each (OwnsPair (seen self.old)) pairs.entries }
        ensures made { MakesObject (dict_value (length (seen self.old).store)) (of_dict (pairs_in (seen self.old).held pairs.entries)) result (seen self.old) (seen self.new) }
    {
        let at = self.push_object(Contents::Dict(pairs))?;
        Ok(Value::Dict(Ref::of(at, Sort::Dict)))
    }
}
