// Trees, the keys in them and the paths through them.
ghost use Rattle.std.specs.Prelude.{◌≡◌, ◌-◌, ◌^◌, [], ◌∷◌, ◌++◌, false, IfOk, OnErr, OnOk, List, min};
ghost use Rattle.std.specs.Option.{option_map};
ghost use Rattle.ytt_base.specs.Trees.{at, child, depth, get_pair, get_tree, has_key, keys, pairs_depth, same_key, trees_depth};
ghost use Rattle.ytt_base.specs.View.{key_of, pairs_of, path_of, step_of, tree_of, trees_of};

use crate::text::{Memory, Text};
use sqlite_items::Items;
use std::alloc::Global;

/// A key of a map.
#[derive(Drop)]
pub enum Key {
    Null,
    Bool(bool),
    Int(i128),
    Str(Text),
}

/// A document, or a part of one (YAML 1.2.2, 3.2.1, with the scalars of this profile).
#[derive(Drop)]
pub enum Tree {
    Null,
    Bool(bool),
    Int(i128),
    Str(Text),
    List(Trees),
    Map(Pairs),
}

/// A list of trees.
pub type Trees = Items<Tree>;

/// The pairs of a map in their order. Its keys are distinct: add pairs by `push_pair`.
pub type Pairs = Items<(Key, Tree)>;

/// A step from a tree to a part of it: to the value under a key, or to the element at an index,
/// counted from 0.
#[derive(Drop)]
pub enum Step {
    Key(Key),
    Index(u64),
}

/// Steps from a tree to a part of it, the first one first.
pub type Path = Items<Step>;

/// Adds a pair behind those of a map. After want of memory the pairs are as before.
pub fn push_pair(pairs: &mut Pairs, key: Key, tree: Tree) -> Result<(), Memory>
    requires { has_key (key_of key) (keys (pairs_of pairs.old)) ≡ false }
    ensures ok { OnOk result (pairs.new ≡ pairs.old ++ (key, tree) ∷ []) }
    ensures err { OnErr result (pairs.new ≡ pairs.old) }
{
    pairs.push((key, tree))?;
    Ok(())
}

impl Key {
    /// A key that equals this one.
    pub fn copy(&self) -> Result<Key, Memory>
        ensures { IfOk result (λ k. k ≡ self.now) }
    {
        match self {
            Key::Null => Ok(Key::Null),
            Key::Bool(b) => Ok(Key::Bool(*b)),
            Key::Int(n) => Ok(Key::Int(*n)),
            Key::Str(s) => Ok(Key::Str(s.copy()?)),
        }
    }

    /// Whether the two are one key. Keys of two kinds, as `1` and `"1"`, are two.
    pub fn is_same(&self, other: &Key) -> bool
        ensures { result ≡ same_key (key_of self.now) (key_of other.now) }
    {
        match (self, other) {
            (Key::Null, Key::Null) => true,
            (Key::Bool(a), Key::Bool(b)) => *a == *b,
            (Key::Int(m), Key::Int(n)) => *m == *n,
            (Key::Str(s), Key::Str(t)) => s.as_str() == t.as_str(),
            _ => false,
        }
    }
}

impl Tree {
    /// A tree that equals this one.
    #[cycle(copy)]
    pub fn copy(&self, alloc: Global) -> Result<Tree, Memory>
        ensures { IfOk result (λ t. t ≡ self.now) }
    {
        match self {
            Tree::Null => Ok(Tree::Null),
            Tree::Bool(b) => Ok(Tree::Bool(*b)),
            Tree::Int(n) => Ok(Tree::Int(*n)),
            Tree::Str(s) => Ok(Tree::Str(s.copy()?)),
            Tree::List(trees) => Ok(Tree::List(copy_trees(alloc, trees)?)),
            Tree::Map(pairs) => Ok(Tree::Map(copy_pairs(alloc, pairs)?)),
        }
    }

    /// How many lists and maps nest: 0 for a scalar, 1 for an empty list or map, else 1 more than
    /// the deepest member. Where that is past `u32::MAX`, it is `u32::MAX`.
    #[cycle(depth)]
    pub fn depth(&self) -> u32
        ensures { result ≡ min (depth (tree_of self.now)) (2 ^ 32 - 1) }
    {
        match self {
            Tree::List(trees) => {
                let deepest = depth_of_trees(trees);
                deepest.saturating_add(1)
            }
            Tree::Map(pairs) => {
                let deepest = depth_of_pairs(pairs);
                deepest.saturating_add(1)
            }
            _ => 0,
        }
    }

    /// The part of the tree that the steps reach, or `None` where they reach nothing.
    pub fn at(&self, path: &Path) -> Option<&Tree>
        ensures { option_map (λ t. tree_of t.now) result ≡ at (tree_of self.now) (path_of path.now) }
    {
        let mut tree = self;
        for step in path.as_slice() {
            tree = child_at(tree, step)?;
        }
        Some(tree)
    }
}

#[cycle(copy)]
fn copy_trees(alloc: Global, trees: &Trees) -> Result<Trees, Memory>
    ensures { IfOk result (λ ts. ts ≡ trees.now) }
{
    let mut copies = Items::new(alloc);
    for tree in trees.as_slice() {
        copies.push(tree.copy(alloc)?)?;
    }
    Ok(copies)
}

#[cycle(copy)]
fn copy_pairs(alloc: Global, pairs: &Pairs) -> Result<Pairs, Memory>
    ensures { IfOk result (λ ps. ps ≡ pairs.now) }
{
    let mut copies = Items::new(alloc);
    for (key, tree) in pairs.as_slice() {
        copies.push((key.copy()?, tree.copy(alloc)?))?;
    }
    Ok(copies)
}

#[cycle(depth)]
fn depth_of_trees(trees: &Trees) -> u32
    ensures { result ≡ min (trees_depth (trees_of trees.now)) (2 ^ 32 - 1) }
{
    let mut deepest = 0;
    for tree in trees.as_slice() {
        deepest = deepest.max(tree.depth());
    }
    deepest
}

#[cycle(depth)]
fn depth_of_pairs(pairs: &Pairs) -> u32
    ensures { result ≡ min (pairs_depth (pairs_of pairs.now)) (2 ^ 32 - 1) }
{
    let mut deepest = 0;
    for (_, tree) in pairs.as_slice() {
        deepest = deepest.max(tree.depth());
    }
    deepest
}

fn element_at(trees: &Trees, index: u64) -> Option<&Tree>
    ensures { option_map (λ t. tree_of t.now) result ≡ get_tree index (trees_of trees.now) }
{
    trees.get(index as usize)
}

fn value_under<'a>(pairs: &'a [(Key, Tree)], key: &Key) -> Option<&'a Tree>
    ensures { option_map (λ t. tree_of t.now) result ≡ get_pair (key_of key.now) (pairs_of pairs.now) }
{
    for (other, tree) in pairs {
        if key.is_same(other) {
            return Some(tree);
        }
    }
    None
}

fn child_at<'a>(tree: &'a Tree, step: &Step) -> Option<&'a Tree>
    ensures { option_map (λ t. tree_of t.now) result ≡ child (step_of step.now) (tree_of tree.now) }
{
    match step {
        Step::Index(index) => match tree {
            Tree::List(trees) => element_at(trees, *index),
            Tree::Null => None,
            Tree::Bool(_) => None,
            Tree::Int(_) => None,
            Tree::Str(_) => None,
            Tree::Map(_) => None,
        },
        Step::Key(key) => match tree {
            Tree::Map(pairs) => value_under(pairs.as_slice(), key),
            Tree::Null => None,
            Tree::Bool(_) => None,
            Tree::Int(_) => None,
            Tree::Str(_) => None,
            Tree::List(_) => None,
        },
    }
}
