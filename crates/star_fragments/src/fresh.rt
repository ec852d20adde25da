// Trees as values: new lists and dicts, each made behind those that stand in it.
ghost use Rattle.std.specs.Prelude.{◌≡◌, ◌++◌, ◌∷◌};
ghost use Rattle.star_steps.specs.Names.{[], IfOk, OnOk, length, key_of, give, new_dict, did, dict_put, may_change, put_pairs, with_object, of_dict, value_of_scalar, seen, Grows, Owns, OwnsPair, value_of, OwnsAll, values_of};
ghost use Rattle.star_values.specs.declared.value.Value.TheVariants as value;
ghost use Rattle.star_fragments.specs.Fresh.{Builds, OwnsPairs, each_made, pair_made, pair_of, pairs_of, value_made};

use object_arena::{Arena, ArenaStop, Ref, Value, Values};
use sqlite_items::Items;
use ytt_base::text::Memory;
use ytt_base::tree::{Key, Pairs, Tree, Trees};

fn push<T: Drop>(items: &mut Items<T>, item: T) -> Result<(), Memory>
    ensures { OnOk result (items.new ≡ items.old ++ item ∷ []) }
{
    items.push(item)?;
    Ok(())
}

/// The value of a key. Its only error is want of memory.
pub fn key_value(arena: &mut Arena, key: &Key) -> Result<Value, Memory>
    ensures { Builds value_of Owns (give (value_of_scalar (key_of key.now))) result (seen arena.old) (seen arena.new) }
{
    match key {
        Key::Null => Ok(Value::None),
        Key::Bool(b) => Ok(Value::Bool(*b)),
        Key::Int(n) => Ok(Value::Int(*n)),
        Key::Str(text) => arena.new_text(text.copy()?),
    }
}

/// A new dict without pairs.
fn empty_dict(arena: &mut Arena) -> Result<Ref, Memory>
    ensures here { IfOk result (λ r. r.at ≡ length (seen arena.old).store) }
    ensures owns { IfOk result (λ r. Owns (seen arena.new) (value.Dict r)) }
    ensures store { OnOk result ((seen arena.new).store ≡ with_object (of_dict []) (seen arena.old).store) }
    ensures held { (seen arena.new).held ≡ (seen arena.old).held }
    ensures grows { Grows (seen arena.old) (seen arena.new) }
{
    match arena.new_dict()? {
        Value::Dict(dict) => Ok(dict),
        _ => unreachable!(),
    }
}

/// Puts a pair into a dict that nothing keeps from being changed.
fn put_pair(arena: &mut Arena, dict: Ref, key: Value, held: Value) -> Result<(), Memory>
    requires dict { Owns (seen arena.old) (value.Dict dict) }
    requires open { may_change dict.at (seen arena.old).store ≡ did tt (seen arena.old).store }
    requires pair { OwnsPair (seen arena.old) (key, held) }
    ensures ok { OnOk result (dict_put dict.at (value_of (seen arena.old) key) (value_of (seen arena.old) held) (seen arena.old).store ≡ did tt (seen arena.new).store) }
    ensures held { (seen arena.new).held ≡ (seen arena.old).held }
    ensures grows { Grows (seen arena.old) (seen arena.new) }
{
    match arena.dict_put(dict, key, held) {
        Ok(()) => Ok(()),
        Err(ArenaStop::Memory) => Err(Memory),
        Err(_) => unreachable!(),
    }
}

/// A new dict of pairs, of which the later ones change the values of keys that there are.
pub fn dict_of(arena: &mut Arena, pairs: &[(Value, Value)]) -> Result<Value, Memory>
    requires { OwnsPairs (seen arena.old) pairs.now }
    ensures { Builds value_of Owns (new_dict (put_pairs [] (pairs_of (seen arena.old) pairs.now))) result (seen arena.old) (seen arena.new) }
{
    let dict = empty_dict(arena)?;
    for (key, held) in pairs {
        put_pair(arena, dict, *key, *held)?;
    }
    Ok(Value::Dict(dict))
}

/// A tree as a value, whose lists and dicts are new objects. Its only error is want of memory.
#[cycle(fresh)]
pub fn fresh_value(arena: &mut Arena, tree: &Tree) -> Result<Value, Memory>
    ensures { Builds value_of Owns (value_made tree.now) result (seen arena.old) (seen arena.new) }
{
    match tree {
        Tree::Null => Ok(Value::None),
        Tree::Bool(b) => Ok(Value::Bool(*b)),
        Tree::Int(n) => Ok(Value::Int(*n)),
        Tree::Str(text) => arena.new_text(text.copy()?),
        Tree::List(trees) => {
            let values = fresh_values(arena, trees)?;
            arena.new_list(values.as_slice())
        }
        Tree::Map(entries) => {
            let pairs = fresh_pairs(arena, entries)?;
            dict_of(arena, pairs.as_slice())
        }
    }
}

#[cycle(fresh)]
fn fresh_values(arena: &mut Arena, trees: &Trees) -> Result<Values, Memory>
    ensures { Builds values_of OwnsAll (each_made value_made trees.now) result (seen arena.old) (seen arena.new) }
{
    let mut values = Items::new(arena.alloc());
    for tree in trees.as_slice() {
        let value = fresh_value(arena, tree)?;
        push(&mut values, value)?;
    }
    Ok(values)
}

#[cycle(fresh)]
fn fresh_pair(arena: &mut Arena, key: &Key, tree: &Tree) -> Result<(Value, Value), Memory>
    ensures { Builds pair_of OwnsPair (pair_made (key.now, tree.now)) result (seen arena.old) (seen arena.new) }
{
    let value = fresh_value(arena, tree)?;
    let key = key_value(arena, key)?;
    Ok((key, value))
}

#[cycle(fresh)]
fn fresh_pairs(arena: &mut Arena, entries: &Pairs) -> Result<Items<(Value, Value)>, Memory>
    ensures { Builds pairs_of OwnsPairs (each_made pair_made entries.now) result (seen arena.old) (seen arena.new) }
{
    let mut pairs = Items::new(arena.alloc());
    for (key, tree) in entries.as_slice() {
        let pair = fresh_pair(arena, key, tree)?;
        push(&mut pairs, pair)?;
    }
    Ok(pairs)
}
