// The members of fragments.
ghost use Rattle.std.specs.Prelude.{◌≡◌, ◌<◌};
ghost use Rattle.star_steps.specs.Names.{Some, Body, fresh_body, body_at, body_value, child_count, seen, Owns, body_in, Gives, state_in, value_of};
ghost use Rattle.star_values.specs.declared.value.Value.TheVariants as value;
ghost use Rattle.star_fragments.specs.Fragments.{children_at};
ghost use Rattle.star_fragments.specs.Fresh.{Builds, OwnsBody};

use crate::copies::copy_value;
use crate::fragment::items_of;
use crate::fresh::fresh_value;
use crate::node::node_of_value;
use crate::sizes::{MAX_DEPTH, pay_node};
use object_arena::{Arena, BuiltValue, ItemKind, Ref, Value};
use sqlite_items::at as item_at;
use star_steps::{Depth, Given};
use ytt_base::fault::Place;
use ytt_base::text::Memory;

/// How many members a fragment has.
pub fn fragment_length(arena: &Arena, fragment: Ref) -> usize
    requires { Owns (seen arena.now) (value.Fragment fragment) }
    ensures { result ≡ child_count (children_at (seen arena.now) fragment) }
{
    items_of(arena, fragment).len()
}

/// What the member at a place holds.
fn held_at(arena: &Arena, fragment: Ref, at: usize) -> &BuiltValue
    requires fragment { Owns (seen arena.now) (value.Fragment fragment) }
    requires at { at < child_count (children_at (seen arena.now) fragment) }
    ensures here { body_at at (children_at (seen arena.now) fragment) ≡ Some (body_in (seen arena.now).held result.now) }
    ensures owned { OwnsBody (seen arena.now) result.now }
{
    match item_at(items_of(arena, fragment), at) {
        Some(item) => &item.value,
        None => unreachable!(),
    }
}

/// What an item holds, as a value: a fragment where it was built of items.
fn made(arena: &mut Arena, held: BuiltValue) -> Result<Value, Memory>
    requires { OwnsBody (seen arena.old) held }
    ensures { Builds value_of Owns (fresh_body (body_in (seen arena.old).held held)) result (seen arena.old) (seen arena.new) }
{
    match held {
        BuiltValue::One(tree) => fresh_value(arena, &tree),
        BuiltValue::Map(items) => arena.new_fragment(ItemKind::Pair, items),
        BuiltValue::List(items) => arena.new_fragment(ItemKind::Element, items),
    }
}

/// The value of the member at a place, which takes its size as steps: 1 for each member, and a sixteenth of the bytes of each text. A member
/// that nests too deep is `TooDeep`.
pub fn member_value(
    arena: &mut Arena,
    place: Place,
    fragment: Ref,
    at: usize,
    steps: &mut u64,
) -> Given
    requires fragment { Owns (seen arena.old) (value.Fragment fragment) }
    requires at { at < child_count (children_at (seen arena.old) fragment) }
    ensures { (b : Body) → body_at at (children_at (seen arena.old) fragment) ≡ Some b → Gives (body_value place b (state_in (seen arena.old) steps.old)) result (seen arena.old) (seen arena.new) steps.new }
{
    let held = held_at(arena, fragment, at);
    let levels = MAX_DEPTH;
    let depth = Depth { place, levels };
    pay_node(arena, depth, node_of_value(held), steps)?;
    let copy = copy_value(arena.alloc(), held)?;
    let value = made(arena, copy)?;
    Ok(value)
}
