// What starred parameters get.
ghost use Rattle.std.specs.Prelude.{◌≡◌, false};
ghost use Rattle.object_arena.specs.Names.{OnOk, length, dict_value, of_dict, pairs_in, put_pair, seen, text_value, Each, Grows, Owns, OwnsFields, OwnsPair, fields_in, value_of, with_object};
ghost use Rattle.object_arena.specs.Made.{MakesObject};
ghost use Rattle.value_spec.specs.Binding.{has_twice, text_pairs};
ghost use Rattle.star_calls.specs.Left.{MakesDict};

use indexmap::IndexMap;
use object_arena::{Arena, Pairs};
use star_values::{NamedValue, Value};
use ytt_base::text::{Memory, Text};

/// A new dict of arguments by name, whose names are distinct.
pub(crate) fn dict_of(arena: &mut Arena, named: &[NamedValue]) -> Result<Value, Memory>
    requires owns { OwnsFields (seen arena.old) named.now }
    requires once { has_twice (fields_in (seen arena.old).held named.now) ≡ false }
    ensures { MakesDict (text_pairs (fields_in (seen arena.old).held named.now)) result (seen arena.old) (seen arena.new) }
{
    let mut pairs = IndexMap::new(arena.alloc());
    let mut rest = named;
    while let Some((field, more)) = rest.split_first() {
        put_named(arena, &mut pairs, field.name.copy()?, field.value)?;
        rest = more;
    }
    arena.new_dict_of(pairs)
}

/// Puts a value under a name of these pairs.
fn put_named(arena: &mut Arena, pairs: &mut Pairs, name: Text, value: Value) -> Result<(), Memory>
    requires pairs { Each (OwnsPair (seen arena.old)) pairs.old.entries }
    requires value { Owns (seen arena.old) value }
    ensures pairs { OnOk result (pairs_in (seen arena.new).held pairs.new.entries ≡ put_pair (text_value name) (value_of (seen arena.old) value) (pairs_in (seen arena.old).held pairs.old.entries)) }
    ensures owned { OnOk result (Each (OwnsPair (seen arena.new)) pairs.new.entries) }
    ensures store { (seen arena.new).store ≡ (seen arena.old).store }
    ensures grows { Grows (seen arena.old) (seen arena.new) }
{
    let key = arena.new_text(name)?;
    arena.put_pair(pairs, key, value)
}
