// What the items of a collection and of a block are.
ghost use Rattle.std.specs.Prelude.{◌≡◌, ℕ, [], None, option_map};
ghost use Rattle.star_tree.specs.View.{holds_of as plain_holds, item_kind_of};
ghost use Rattle.template_tree.specs.View.{branches_of, content_of, in_content, item_of, items_of};
ghost use Rattle.template_spec.specs.Compiled.{fragment_of, holds_of};
ghost use Rattle.template_spec.specs.Template.{branches_have_nodes, branches_have_written, has_nodes, has_written, is_node, is_void, is_written};

use star_tree::{Holds, ItemKind};
use template_tree::{TContent, TElifs, TElse, TItem, TItems, TNode};

/// Whether an item stands among these, outside the blocks of functions.
#[cycle(nodes)]
pub(crate) fn has_nodes(items: &TItems) -> bool
    ensures { (file : ℕ) → result ≡ has_nodes (items_of file items.now) }
{
    for item in items.as_slice() {
        if is_node(item) {
            return true;
        }
    }
    false
}

#[cycle(nodes)]
fn is_node(item: &TItem) -> bool
    ensures { (file : ℕ) → result ≡ is_node (item_of file item.now) }
{
    match item {
        TItem::Node(_) => true,
        TItem::Code(_) => false,
        TItem::If(_, _, body, elifs, last) => {
            if has_nodes(body) {
                return true;
            }
            elifs_have_nodes(elifs) || else_has_nodes(last)
        }
        TItem::For(_, _, _, body) => has_nodes(body),
        TItem::Def(_, _, _, _, _) => false,
    }
}

#[cycle(nodes)]
fn elifs_have_nodes(elifs: &TElifs) -> bool
    ensures { (file : ℕ) → result ≡ branches_have_nodes (branches_of file elifs.now None) }
{
    for elif in elifs.as_slice() {
        if has_nodes(&elif.body) {
            return true;
        }
    }
    false
}

#[cycle(nodes)]
fn else_has_nodes(last: &Option<TElse>) -> bool
    ensures { (file : ℕ) → result ≡ branches_have_nodes (branches_of file [] last.now) }
{
    match last {
        Some(last) => has_nodes(&last.body),
        None => false,
    }
}

/// Whether an item is written among these, in the blocks of functions too.
#[cycle(written)]
fn has_written(items: &TItems) -> bool
    ensures { (file : ℕ) → result ≡ has_written (items_of file items.now) }
{
    for item in items.as_slice() {
        if is_written(item) {
            return true;
        }
    }
    false
}

#[cycle(written)]
fn is_written(item: &TItem) -> bool
    ensures { (file : ℕ) → result ≡ is_written (item_of file item.now) }
{
    match item {
        TItem::Node(_) => true,
        TItem::Code(_) => false,
        TItem::If(_, _, body, elifs, last) => {
            if has_written(body) {
                return true;
            }
            elifs_have_written(elifs) || else_has_written(last)
        }
        TItem::For(_, _, _, body) => has_written(body),
        TItem::Def(_, _, _, _, body) => has_written(body),
    }
}

#[cycle(written)]
fn elifs_have_written(elifs: &TElifs) -> bool
    ensures { (file : ℕ) → result ≡ branches_have_written (branches_of file elifs.now None) }
{
    for elif in elifs.as_slice() {
        if has_written(&elif.body) {
            return true;
        }
    }
    false
}

#[cycle(written)]
fn else_has_written(last: &Option<TElse>) -> bool
    ensures { (file : ℕ) → result ≡ branches_have_written (branches_of file [] last.now) }
{
    match last {
        Some(last) => has_written(&last.body),
        None => false,
    }
}

/// Whether a collection has written items, all of them in blocks of functions.
fn is_void(items: &TItems) -> bool
    ensures { (file : ℕ) → result ≡ is_void (items_of file items.now) }
{
    has_written(items) && !has_nodes(items)
}

/// What a node holds.
pub(crate) fn holds(node: &TNode) -> Holds
    ensures { (file : ℕ) → plain_holds result ≡ holds_of (in_content file node.now.value (content_of file node.now.content)) }
{
    match &node.value {
        Some(_) => Holds::One,
        None => match &node.content {
            TContent::Scalar(_) => Holds::One,
            TContent::Map(pairs) => {
                if is_void(pairs) {
                    Holds::Void
                } else {
                    Holds::Map
                }
            }
            TContent::List(elements) => {
                if is_void(elements) {
                    Holds::Void
                } else {
                    Holds::List
                }
            }
        },
    }
}

/// The kind of the items that a function with this block builds a fragment of, if it is to build one.
pub(crate) fn fragment(kind: ItemKind, body: &TItems) -> Option<ItemKind>
    ensures { (file : ℕ) → option_map item_kind_of result ≡ fragment_of (item_kind_of kind) (items_of file body.now) }
{
    if has_nodes(body) { Some(kind) } else { None }
}
