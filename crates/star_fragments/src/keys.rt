// Where the member of a key stands.
ghost use Rattle.std.specs.Prelude.{◌≡◌};
ghost use Rattle.star_steps.specs.Names.{List, None, Some, Scalar, as_scalar, has_key, seen, Owns, built_in, scalar_key, value_of};
ghost use Rattle.ytt_base.specs.Trees.{same_key};
ghost use Rattle.value_spec.specs.Values as plain;
ghost use Rattle.star_values.specs.declared.value.Value.TheVariants as value;
ghost use Rattle.star_fragments.specs.Fragments.{Finds, children_at};
ghost use Rattle.star_fragments.specs.Nodes.{key_in, scalar_in};

use crate::fragment::items_of;
use crate::node::{Leaf, leaf_of};
use object_arena::{Arena, BuiltItem, Ref, Value};
use ytt_base::tree::Key;

/// A value as a key of a pair, if it is of a kind that such keys have.
fn leaf_of_value(arena: &Arena, value: Value) -> Option<Leaf<'_>>
    requires { Owns (seen arena.now) value }
    ensures { key_in result ≡ as_scalar (value_of (seen arena.now) value) }
{
    match value {
        Value::None => Some(Leaf::Null),
        Value::Bool(b) => Some(Leaf::Bool(b)),
        Value::Int(n) => Some(Leaf::Int(n)),
        Value::Text(text) => Some(Leaf::Str(arena.text(text))),
        _ => None,
    }
}

fn are_one(left: Leaf<'_>, right: Leaf<'_>) -> bool
    ensures { result ≡ same_key (scalar_in left.entry) (scalar_in right.entry) }
{
    match (left, right) {
        (Leaf::Null, Leaf::Null) => true,
        (Leaf::Bool(a), Leaf::Bool(b)) => a == b,
        (Leaf::Int(a), Leaf::Int(b)) => a == b,
        (Leaf::Str(a), Leaf::Str(b)) => a.as_str() == b.as_str(),
        _ => false,
    }
}

fn is_under(wanted: Leaf<'_>, key: &Option<Key>) -> bool
    ensures { result ≡ has_key (scalar_in wanted.entry) (scalar_key key.now) }
{
    match key {
        None => false,
        Some(key) => are_one(wanted, leaf_of(key)),
    }
}

fn place_among(items: &[BuiltItem], wanted: Leaf<'_>) -> Option<usize>
    ensures { (held : List plain.Value) → Finds (scalar_in wanted.entry) (built_in held items.now) result }
{
    for (at, item) in items.iter().enumerate() {
        if is_under(wanted, &item.key) {
            return Some(at);
        }
    }
    None
}

/// The place of the first member of a fragment whose key is this value. A value of a kind that keys of pairs don't have is no such key.
pub fn place_of_key(arena: &Arena, fragment: Ref, key: Value) -> Option<usize>
    requires fragment { Owns (seen arena.now) (value.Fragment fragment) }
    requires key { Owns (seen arena.now) key }
    ensures found { (x : Scalar) → as_scalar (value_of (seen arena.now) key) ≡ Some x → Finds x (children_at (seen arena.now) fragment) result }
    ensures other { as_scalar (value_of (seen arena.now) key) ≡ None → result ≡ None }
{
    match leaf_of_value(arena, key) {
        None => None,
        Some(wanted) => place_among(items_of(arena, fragment), wanted),
    }
}
