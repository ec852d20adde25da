// What fills an open node.
ghost use Rattle.std.specs.Prelude.{◌≡◌, ◌-◌, List, IfOk};
ghost use Rattle.ytt_base.specs.Trees as trees;
ghost use Rattle.ytt_base.specs.View.{key_of, tree_of, trees_of, pairs_of};
ghost use Rattle.code_spec.specs.Program as program;
ghost use Rattle.code_spec.specs.Program.{same_kind};
ghost use Rattle.star_tree.specs.View.{item_kind_of};
ghost use Rattle.star_values.specs.Objects.{seen};
ghost use Rattle.star_values.specs.Owns.{Owns, OwnsBuilt, OwnsItem};
ghost use Rattle.star_values.specs.View.{View, built_in, child_in, scalar_key, value_of};
ghost use Rattle.star_values.specs.declared.value.Value.TheVariants as value;
ghost use Rattle.node_build.specs.Parts.{Spends};
ghost use Rattle.node_build.specs.Taking.{as_tree, items_taken, members_in_place};
ghost use Rattle.node_build.specs.View.{Fills, OwnsFilled};
ghost use Rattle.template_meaning.specs.Take.{elements_at, members_at, pairs_at, replaced, take_over};
ghost use Rattle.value_spec.specs.Values as plain;
ghost use Rattle.value_spec.specs.Values.{child, no_built, one};

use crate::list::push;
use crate::node::Filled;
use crate::take::{MAX_DEPTH, taken_tree};
use object_arena::{Arena, Built, BuiltItem, BuiltValue, ItemKind, Ref, Shape, Value};
use sqlite_items::Items;
use star_fragments::{copy_items, pay_items};
use star_steps::refusal;
use std::alloc::Global;
use ytt_base::fault::{FaultKind, Place, Stop};
use ytt_base::text::Memory;
use ytt_base::tree::{Key, Pairs, Tree, Trees};

/// The tree that a written scalar is.
pub(crate) fn scalar_tree(scalar: &Key) -> Result<Tree, Memory>
    ensures { IfOk result (λ t. tree_of t ≡ trees.scalar (key_of scalar.now)) }
{
    match scalar {
        Key::Null => Ok(Tree::Null),
        Key::Bool(b) => Ok(Tree::Bool(*b)),
        Key::Int(n) => Ok(Tree::Int(*n)),
        Key::Str(text) => Ok(Tree::Str(text.copy()?)),
    }
}

/// The levels that are left of so many, where so many collections stand around.
fn levels_left(levels: u32, around: usize) -> u32
    ensures { result ≡ levels - around }
{
    (levels as usize).saturating_sub(around) as u32
}

/// A copy of items, after their size as steps.
fn paid_items(
    arena: &Arena,
    place: Place,
    levels: u32,
    items: &Built,
    steps: &mut u64,
) -> Result<Built, Stop>
    requires { OwnsBuilt (seen arena.now) items.now }
    ensures meaning { Spends (built_in (seen arena.now).held) result (seen arena.now) steps.old steps.new (items_taken levels place (λ cs. cs) (built_in (seen arena.now).held items.now)) }
    ensures owned { IfOk result (OwnsBuilt (seen arena.now)) }
{
    pay_items(arena, place, levels, items.as_slice(), steps)?;
    Ok(copy_items(arena.alloc(), items)?)
}

/// A member of a tree as an item at a place.
fn member(alloc: Global, place: Place, key: Option<Key>, tree: &Tree) -> Result<BuiltItem, Memory>
    ensures meaning { (held : List plain.Value) → IfOk result (λ i. child_in held i ≡ child place no_built (scalar_key key) (one (tree_of tree.now))) }
    ensures owned { (a : View) → IfOk result (OwnsItem a) }
{
    Ok(BuiltItem {
        place,
        key,
        notes: Items::new(alloc),
        value: BuiltValue::One(tree.copy(alloc)?),
    })
}

/// The elements of a list as items at a place.
fn elements(alloc: Global, place: Place, trees: &Trees) -> Result<Built, Memory>
    ensures meaning { (held : List plain.Value) → IfOk result (λ is. built_in held is ≡ elements_at place (trees_of trees.now)) }
    ensures owned { (a : View) → IfOk result (OwnsBuilt a) }
{
    let mut items = Items::new(alloc);
    for tree in trees.as_slice() {
        push(&mut items, member(alloc, place, None, tree)?)?;
    }
    Ok(items)
}

/// The pairs of a map as items at a place.
fn pairs(alloc: Global, place: Place, pairs: &Pairs) -> Result<Built, Memory>
    ensures meaning { (held : List plain.Value) → IfOk result (λ is. built_in held is ≡ pairs_at place (pairs_of pairs.now)) }
    ensures owned { (a : View) → IfOk result (OwnsBuilt a) }
{
    let mut items = Items::new(alloc);
    for (key, tree) in pairs.as_slice() {
        push(&mut items, member(alloc, place, Some(key.copy()?), tree)?)?;
    }
    Ok(items)
}

/// The members of a tree as items at a place.
fn members(alloc: Global, place: Place, tree: &Tree) -> Result<Built, Memory>
    ensures meaning { (held : List plain.Value) → IfOk result (λ is. built_in held is ≡ members_at place (tree_of tree.now)) }
    ensures owned { (a : View) → IfOk result (OwnsBuilt a) }
{
    match tree {
        Tree::List(trees) => elements(alloc, place, trees),
        Tree::Map(entries) => pairs(alloc, place, entries),
        _ => Ok(Items::new(alloc)),
    }
}

fn same_kind(first: ItemKind, second: ItemKind) -> bool
    ensures { result ≡ same_kind (item_kind_of first) (item_kind_of second) }
{
    match first {
        ItemKind::Document => match second {
            ItemKind::Document => true,
            _ => false,
        },
        ItemKind::Pair => match second {
            ItemKind::Pair => true,
            _ => false,
        },
        ItemKind::Element => match second {
            ItemKind::Element => true,
            _ => false,
        },
    }
}

/// The members of a value's tree as items in a node's place.
fn members_of(
    arena: &Arena,
    place: Place,
    around: usize,
    value: Value,
    steps: &mut u64,
) -> Result<Filled, Stop>
    requires { Owns (seen arena.now) value }
    ensures meaning { Fills result (seen arena.now) steps.old steps.new (members_in_place place around (value_of (seen arena.now) value)) }
    ensures owned { IfOk result (OwnsFilled (seen arena.now)) }
{
    let tree = taken_tree(
        arena,
        place,
        levels_left(MAX_DEPTH + 1, around),
        value,
        steps,
    )?;
    Ok(Filled::Many(members(arena.alloc(), place, &tree)?))
}

/// The items of a fragment in the place of a node of the same kind.
fn items_of(
    arena: &Arena,
    place: Place,
    kind: ItemKind,
    around: usize,
    fragment: Ref,
    steps: &mut u64,
) -> Result<Filled, Stop>
    requires { Owns (seen arena.now) (value.Fragment fragment) }
    ensures meaning { Fills result (seen arena.now) steps.old steps.new (replaced place (item_kind_of kind) around (value_of (seen arena.now) (value.Fragment fragment))) }
    ensures owned { IfOk result (OwnsFilled (seen arena.now)) }
{
    match arena.shape(fragment) {
        Shape::Fragment(of, items) => {
            if !same_kind(of, kind) {
                return Err(refusal(arena, FaultKind::FragmentMixed, place));
            }
            let levels = levels_left(MAX_DEPTH + 1, around);
            Ok(Filled::Many(paid_items(arena, place, levels, items, steps)?))
        }
        _ => unreachable!(),
    }
}

/// What `template.replace` of a value gives in the place of a node of this kind: a dict's pairs, a list's elements, or a
/// fragment's items of the same kind. All else is `FragmentMixed`.
fn replaced(
    arena: &Arena,
    place: Place,
    kind: ItemKind,
    around: usize,
    value: Value,
    steps: &mut u64,
) -> Result<Filled, Stop>
    requires { Owns (seen arena.now) value }
    ensures meaning { Fills result (seen arena.now) steps.old steps.new (replaced place (item_kind_of kind) around (value_of (seen arena.now) value)) }
    ensures owned { IfOk result (OwnsFilled (seen arena.now)) }
{
    match value {
        Value::Fragment(fragment) => items_of(arena, place, kind, around, fragment, steps),
        Value::Dict(_) => match kind {
            ItemKind::Pair => members_of(arena, place, around, value, steps),
            _ => Err(refusal(arena, FaultKind::FragmentMixed, place)),
        },
        Value::List(_) => match kind {
            ItemKind::Element => members_of(arena, place, around, value, steps),
            _ => Err(refusal(arena, FaultKind::FragmentMixed, place)),
        },
        _ => Err(refusal(arena, FaultKind::FragmentMixed, place)),
    }
}

/// A native, taken over: what stands in a node's place. Any other is `NotYaml`.
fn native_taken(
    arena: &Arena,
    place: Place,
    kind: ItemKind,
    around: usize,
    native: Ref,
    steps: &mut u64,
) -> Result<Filled, Stop>
    requires { Owns (seen arena.now) (value.Native native) }
    ensures meaning { Fills result (seen arena.now) steps.old steps.new (take_over place (item_kind_of kind) around (value_of (seen arena.now) (value.Native native))) }
    ensures owned { IfOk result (OwnsFilled (seen arena.now)) }
{
    match arena.shape(native) {
        Shape::Replacement(value) => replaced(arena, place, kind, around, value, steps),
        Shape::Native(_, _, _) => Err(refusal(arena, FaultKind::NotYaml, place)),
        _ => unreachable!(),
    }
}

/// A fragment, taken over with its items.
fn fragment_taken(
    arena: &Arena,
    place: Place,
    around: usize,
    fragment: Ref,
    steps: &mut u64,
) -> Result<Filled, Stop>
    requires { Owns (seen arena.now) (value.Fragment fragment) }
    ensures meaning { (kind : program.ItemKind) → Fills result (seen arena.now) steps.old steps.new (take_over place kind around (value_of (seen arena.now) (value.Fragment fragment))) }
    ensures owned { IfOk result (OwnsFilled (seen arena.now)) }
{
    let levels = levels_left(MAX_DEPTH, around);
    match arena.shape(fragment) {
        Shape::Fragment(ItemKind::Pair, items) => Ok(Filled::One(BuiltValue::Map(paid_items(
            arena, place, levels, items, steps,
        )?))),
        Shape::Fragment(ItemKind::Element, items) => Ok(Filled::One(BuiltValue::List(paid_items(
            arena, place, levels, items, steps,
        )?))),
        Shape::Fragment(ItemKind::Document, _) => { Err(refusal(arena, FaultKind::NotYaml, place)) }
        _ => unreachable!(),
    }
}

/// A value taken over as its tree.
fn tree_taken(
    arena: &Arena,
    place: Place,
    around: usize,
    value: Value,
    steps: &mut u64,
) -> Result<Filled, Stop>
    requires { Owns (seen arena.now) value }
    ensures meaning { Fills result (seen arena.now) steps.old steps.new (as_tree place around (value_of (seen arena.now) value)) }
    ensures owned { IfOk result (OwnsFilled (seen arena.now)) }
{
    let tree = taken_tree(arena, place, levels_left(MAX_DEPTH, around), value, steps)?;
    Ok(Filled::One(BuiltValue::One(tree)))
}

/// A value taken over at an item of this kind with so many collections around it.
pub(crate) fn taken_over(
    arena: &Arena,
    place: Place,
    kind: ItemKind,
    around: usize,
    value: Value,
    steps: &mut u64,
) -> Result<Filled, Stop>
    requires { Owns (seen arena.now) value }
    ensures meaning { Fills result (seen arena.now) steps.old steps.new (take_over place (item_kind_of kind) around (value_of (seen arena.now) value)) }
    ensures owned { IfOk result (OwnsFilled (seen arena.now)) }
{
    match value {
        Value::Native(native) => native_taken(arena, place, kind, around, native, steps),
        Value::Fragment(fragment) => fragment_taken(arena, place, around, fragment, steps),
        _ => tree_taken(arena, place, around, value, steps),
    }
}
