// The items of a collection, with the statements and blocks between them.
ghost use Rattle.std.specs.Prelude.{◌≡◌, ◌++◌, ℕ, List, [], ◌∷◌, IfOk, OnOk, option_map};
ghost use Rattle.notes_read.specs.View.{said_of};
ghost use Rattle.star_tree.specs.View.{item_kind_of};
ghost use Rattle.star_tree.specs.Whole.{expr_of, header_of, instruction_of, instructions_of};
ghost use Rattle.template_spec.specs.Nesting as nesting;
ghost use Rattle.template_spec.specs.Template.{an_item, no_branch, no_items};
ghost use Rattle.template_tree.specs.Nests.{Pops, is_no_branch, is_statement, nest_step, nested_of, parts_of, part_of};
ghost use Rattle.template_tree.specs.View.{branches_of, item_of, items_of};
ghost use Rattle.template_tree.specs.declared.nest.Nested as Nested;
ghost use Rattle.ytt_base.specs.Outcomes.{place_at};

use crate::tree::{TElif, TElifs, TElse, TItem, TItems};
use notes_read::Comment;
use sqlite_items::{Boxed, Items};
use star_tree::ItemKind;
use star_tree::code::{Expr, Header, Params, Stmt};
use std::alloc::Global;
use ytt_base::fault::Place;
use ytt_base::text::{Memory, Text};

/// An item, or something said between items, with its line.
#[derive(Drop)]
pub enum Part {
    Node(TItem),
    Mark(u32, Comment),
}

/// Parts of a collection, the first one last.
pub type Parts = Vec<Part>;

/// What was read from the end of a collection: the items so far, the first one last, in the blocks that are closed further on.
#[derive(Drop)]
pub enum Nested {
    Broken,
    AtTop(Vec<TItem>),
    Inside(Vec<TItem>, TElifs, Option<TElse>, Boxed<Nested>),
}

// ---- items

/// The blocks aren't closed in order, so nothing is what was read.
fn break_off(nested: &mut Nested)
    ensures { nested.new ≡ Nested.Broken }
{
    drop(std::mem::replace(nested, Nested::Broken));
}

fn push_item(items: &mut Vec<TItem>, item: TItem) -> Result<(), Memory>
    ensures { OnOk result (items.new.items ≡ items.old.items ++ item ∷ []) }
{
    items.push(item)?;
    Ok(())
}

/// An item in front of what was read.
#[tactic(auto, using(crate::proofs::Nesting::nests))]
fn put_item(item: TItem, nested: &mut Nested) -> Result<(), Memory>
    ensures { (file : ℕ) → OnOk result (nested_of file nested.new ≡ nesting.put (item_of file item) (nested_of file nested.old)) }
{
    match nested {
        Nested::Broken => {
            drop(item);
            Ok(())
        }
        Nested::AtTop(items) => push_item(items, item),
        Nested::Inside(items, _, _, _) => push_item(items, item),
    }
}

/// Whether it is a simple statement, and no head or end of a block.
fn is_statement(stmt: &Stmt) -> bool
    ensures { (file : ℕ) → result ≡ is_statement (instruction_of file stmt.now) }
{
    match stmt {
        Stmt::Expr(_, _)
        | Stmt::Assign(_, _, _)
        | Stmt::Augment(_, _, _, _, _)
        | Stmt::Load(_, _, _)
        | Stmt::Return(_, _)
        | Stmt::Break(_)
        | Stmt::Continue(_)
        | Stmt::Pass(_) => true,
        Stmt::If(_, _)
        | Stmt::Elif(_, _)
        | Stmt::Else(_)
        | Stmt::For(_, _, _)
        | Stmt::Def(_, _, _, _, _)
        | Stmt::Node(_)
        | Stmt::Close(_) => false,
    }
}

#[tactic(auto, using(crate::proofs::Nesting::nests))]
fn put_statement(stmt: Stmt, nested: &mut Nested) -> Result<(), Memory>
    ensures { (file : ℕ) → OnOk result (nested_of file nested.new ≡ nesting.put_statements (instruction_of file stmt ∷ []) (nested_of file nested.old)) }
{
    if is_statement(&stmt) {
        return put_item(TItem::Code(stmt), nested);
    }
    drop(stmt);
    Ok(())
}

#[tactic(auto, using(crate::proofs::Nesting::nests))]
fn put_statements(stmts: Items<Stmt>, nested: &mut Nested) -> Result<(), Memory>
    ensures { (file : ℕ) → OnOk result (nested_of file nested.new ≡ nesting.put_statements (instructions_of file stmts) (nested_of file nested.old)) }
{
    let mut left = stmts;
    while let Some(stmt) = left.pop() {
        put_statement(stmt, nested)?;
    }
    Ok(())
}

// ---- blocks

#[tactic(auto, using(crate::proofs::Nesting::nests))]
fn is_nothing(elifs: &TElifs, last: &Option<TElse>) -> bool
    ensures { (file : ℕ) → result ≡ is_no_branch (branches_of file elifs.now last.now) }
{
    elifs.is_empty() && last.is_none()
}

/// The same of branches that are let fall.
fn is_no_more(elifs: TElifs, last: Option<TElse>) -> bool
    ensures { (file : ℕ) → result ≡ is_no_branch (branches_of file elifs last) }
{
    let nothing = is_nothing(&elifs, &last);
    drop(elifs);
    drop(last);
    nothing
}

/// The block of a head; `kind` is that of the items of its collection.
#[tactic(auto, using(crate::proofs::Nesting::nests))]
fn block_of(
    kind: ItemKind,
    place: Place,
    header: Header,
    items: TItems,
    elifs: TElifs,
    last: Option<TElse>,
) -> Option<TItem>
    ensures { (file : ℕ) → option_map (item_of file) result ≡ nesting.block_of (item_kind_of kind) (place_at file place.line) (header_of file header) (items_of file items) (branches_of file elifs last) }
{
    match header {
        Header::If(test) => Some(TItem::If(place, test, items, elifs, last)),
        Header::For(target, members) => {
            if is_no_more(elifs, last) {
                return Some(TItem::For(place, target, members, items));
            }
            drop(items);
            None
        }
        Header::Def(name, params) => {
            if is_no_more(elifs, last) {
                return Some(TItem::Def(place, name, params, kind, items));
            }
            drop(items);
            None
        }
        Header::Elif(_) | Header::Else | Header::End => {
            drop(items);
            drop(elifs);
            drop(last);
            None
        }
    }
}

#[tactic(auto, using(crate::proofs::Nesting::nests))]
fn put_block(block: Option<TItem>, nested: &mut Nested) -> Result<(), Memory>
    ensures { (file : ℕ) → OnOk result (nested_of file nested.new ≡ nesting.put_block (option_map (item_of file) block) (nested_of file nested.old)) }
{
    match block {
        None => {
            break_off(nested);
            Ok(())
        }
        Some(item) => put_item(item, nested),
    }
}

#[tactic(auto, using(crate::proofs::Nesting::nests))]
fn open_block(
    kind: ItemKind,
    place: Place,
    header: Header,
    nested: &mut Nested,
) -> Result<(), Memory>
    ensures { (file : ℕ) → OnOk result (nested_of file nested.new ≡ nesting.open_block (item_kind_of kind) (place_at file place.line) (header_of file header) (nested_of file nested.old)) }
{
    match std::mem::replace(nested, Nested::Broken) {
        Nested::Inside(items, elifs, last, outer) => {
            drop(std::mem::replace(nested, outer.into_inner()));
            put_block(
                block_of(kind, place, header, Items::from_vec(items), elifs, last),
                nested,
            )
        }
        Nested::Broken | Nested::AtTop(_) => {
            drop(header);
            Ok(())
        }
    }
}

/// The block of a head around one item.
#[tactic(auto, using(crate::proofs::Nesting::nests))]
fn block_around(
    alloc: Global,
    kind: ItemKind,
    place: Place,
    header: Header,
    item: TItem,
) -> Result<Option<TItem>, Memory>
    ensures { (file : ℕ) → IfOk result (λ b. option_map (item_of file) b ≡ nesting.block_of (item_kind_of kind) (place_at file place.line) (header_of file header) (an_item (item_of file item) no_items) no_branch) }
{
    let mut items: TItems = Items::new(alloc);
    items.push(item)?;
    Ok(block_of(kind, place, header, items, Items::new(alloc), None))
}

/// Takes the first of the items that were read.
fn pop_item(nested: &mut Nested) -> Option<TItem>
    ensures { (file : ℕ) → Pops file nested.old nested.new result }
{
    match nested {
        Nested::AtTop(items) => items.pop(),
        Nested::Inside(items, _, _, _) => items.pop(),
        Nested::Broken => None,
    }
}

/// A block for one item.
fn around_one(
    alloc: Global,
    kind: ItemKind,
    place: Place,
    header: Header,
    nested: &mut Nested,
) -> Result<(), Memory>
    ensures { (file : ℕ) → OnOk result (nested_of file nested.new ≡ nesting.around_one (item_kind_of kind) (place_at file place.line) (header_of file header) (nested_of file nested.old)) }
{
    match pop_item(nested) {
        None => {
            drop(header);
            break_off(nested);
            Ok(())
        }
        Some(item) => {
            let block = block_around(alloc, kind, place, header, item)?;
            put_block(block, nested)
        }
    }
}

#[tactic(auto, using(crate::proofs::Nesting::nests))]
fn next_branch(
    alloc: Global,
    place: Place,
    test: Boxed<Expr>,
    nested: &mut Nested,
) -> Result<(), Memory>
    ensures { (file : ℕ) → OnOk result (nested_of file nested.new ≡ nesting.next_branch (place_at file place.line) (expr_of file test) (nested_of file nested.old)) }
{
    match nested {
        Nested::Inside(items, elifs, _last, _outer) => {
            let body = Items::from_vec(std::mem::replace(items, Vec::new(alloc)));
            elifs.push(TElif { place, test, body })?;
            Ok(())
        }
        Nested::Broken | Nested::AtTop(_) => {
            break_off(nested);
            Ok(())
        }
    }
}

#[tactic(auto, using(crate::proofs::Nesting::nests))]
fn last_branch(alloc: Global, place: Place, nested: &mut Nested)
    ensures { (file : ℕ) → nested_of file nested.new ≡ nesting.last_branch (place_at file place.line) (nested_of file nested.old) }
{
    match nested {
        Nested::Inside(items, elifs, last, _outer) => {
            if is_nothing(elifs, last) {
                let body = Items::from_vec(std::mem::replace(items, Vec::new(alloc)));
                drop(std::mem::replace(last, Some(TElse { place, body })));
                return;
            }
            break_off(nested);
        }
        Nested::Broken | Nested::AtTop(_) => break_off(nested),
    }
}

#[tactic(auto, using(crate::proofs::Nesting::nests))]
fn close_block(alloc: Global, nested: &mut Nested) -> Result<(), Memory>
    ensures { (file : ℕ) → OnOk result (nested_of file nested.new ≡ nesting.inside no_items no_branch (nested_of file nested.old)) }
{
    let outer = Boxed::new(alloc, std::mem::replace(nested, Nested::Broken))?;
    drop(std::mem::replace(
        nested,
        Nested::Inside(Vec::new(alloc), Items::new(alloc), None, outer),
    ));
    Ok(())
}

// ---- all parts

/// What is said in front of what was read.
fn nest_said(
    alloc: Global,
    kind: ItemKind,
    place: Place,
    comment: Comment,
    nested: &mut Nested,
) -> Result<(), Memory>
    ensures { (file : ℕ) → OnOk result (nested_of file nested.new ≡ nesting.nest_said (item_kind_of kind) (place_at file place.line) (said_of file comment) (nested_of file nested.old)) }
{
    match comment {
        Comment::Code(stmts) => put_statements(stmts, nested),
        Comment::Open(header, for_one) => {
            if for_one {
                return around_one(alloc, kind, place, header, nested);
            }
            open_block(kind, place, header, nested)
        }
        Comment::Elif(test) => next_branch(alloc, place, test, nested),
        Comment::Else => {
            last_branch(alloc, place, nested);
            Ok(())
        }
        Comment::End => close_block(alloc, nested),
        Comment::Value(_) | Comment::Note(_, _) | Comment::Ignored => {
            drop(comment);
            Ok(())
        }
    }
}

fn nest_part(
    alloc: Global,
    file: u32,
    kind: ItemKind,
    part: Part,
    nested: &mut Nested,
) -> Result<(), Memory>
    ensures { OnOk result (nested_of file nested.new ≡ nest_step file (item_kind_of kind) (part_of file part) (nested_of file nested.old)) }
{
    match part {
        Part::Node(item) => put_item(item, nested),
        Part::Mark(line, comment) => nest_said(alloc, kind, Place { file, line }, comment, nested),
    }
}

/// What parts of a collection of such items are, in their blocks.
fn nest(alloc: Global, file: u32, kind: ItemKind, parts: Parts) -> Result<Nested, Memory>
    ensures { IfOk result (λ n. nested_of file n ≡ nesting.nest file (item_kind_of kind) (parts_of file parts.items)) }
{
    let mut left = parts;
    left.reverse();
    let mut nested = Nested::AtTop(Vec::new(alloc));
    while let Some(part) = left.pop() {
        nest_part(alloc, file, kind, part, &mut nested)?;
    }
    Ok(nested)
}

#[tactic(auto, using(crate::proofs::Nesting::nests))]
fn whole(alloc: Global, nested: Nested) -> TItems
    ensures { (file : ℕ) → items_of file result ≡ nesting.whole (nested_of file nested) }
{
    match nested {
        Nested::AtTop(items) => Items::from_vec(items),
        Nested::Broken | Nested::Inside(_, _, _, _) => Items::new(alloc),
    }
}

/// The items of a collection of such items, with the statements and blocks between them.
pub fn items_in(alloc: Global, file: u32, kind: ItemKind, parts: Parts) -> Result<TItems, Memory>
    ensures { IfOk result (λ is. items_of file is ≡ nesting.whole (nesting.nest file (item_kind_of kind) (parts_of file parts.items))) }
{
    let nested = nest(alloc, file, kind, parts)?;
    Ok(whole(alloc, nested))
}
