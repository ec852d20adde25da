// Building items from what rows put, from the last one to the first.
ghost use Rattle.std.specs.Prelude.{◌≡◌, ◌<◌, ◌+◌, ℕ, List, ◌∷◌, IfOk, OnOk, length, option_map, take};
ghost use Rattle.ytt_base.specs.View.{key_of, tree_of};
ghost use Rattle.notes_read.specs.View.{said_of};
ghost use Rattle.star_tree.specs.View.{item_kind_of};
ghost use Rattle.star_tree.specs.Whole.{expr_of};
ghost use Rattle.template_spec.specs.Comments.{a_value};
ghost use Rattle.template_events.specs.View.{shape_of};
ghost use Rattle.template_pass.specs.Building as build;
ghost use Rattle.template_spec.specs.Nesting as nesting;
ghost use Rattle.template_tree.specs.Nests.{part_of, parts_of};
ghost use Rattle.template_tree.specs.Puts.{befores_of, put_of, puts_of};
ghost use Rattle.template_tree.specs.Slots.{same_slot, slot_of, slots_of, with_notes};
ghost use Rattle.template_tree.specs.View.{content_of, item_of, items_of, notes_of};

use crate::nest::{Part, Parts, items_in};
use crate::put::{Put, Puts};
use crate::tree::{TContent, TItem, TItems, TNode, TNote, TNotes};
use notes_read::Comment;
use sqlite_items::{Boxed, Items};
use star_tree::ItemKind;
use star_tree::code::Expr;
use std::alloc::Global;
use template_events::{Start, Written};
use ytt_base::fault::Place;
use ytt_base::text::Memory;
use ytt_base::tree::{Key, Tree};

/// What was read of a collection from its end, and what stands beside the item whose value it is.
#[derive(Drop)]
pub struct Slot {
    pub parts: Parts,
    pub value: Option<Boxed<Expr>>,
    pub notes: TNotes,
}

fn fresh(alloc: Global) -> Slot
    ensures { (file : ℕ) → slot_of file result ≡ build.fresh }
{
    Slot {
        parts: Vec::new(alloc),
        value: None,
        notes: Items::new(alloc),
    }
}

// ---- slots

/// Adds slots until there is one of this level.
fn reach(alloc: Global, slots: &mut Vec<Slot>, level: usize) -> Result<(), Memory>
    ensures same { (file : ℕ) (f : build.Slot → build.Slot) → OnOk result (build.changed level f (slots_of file slots.new.items) ≡ build.changed level f (slots_of file slots.old.items)) }
    ensures long { OnOk result (level < length slots.new.items) }
{
    while slots.len() <= level {
        slots.push(fresh(alloc))?;
    }
    Ok(())
}

fn put_part(alloc: Global, slots: &mut Vec<Slot>, level: usize, part: Part) -> Result<(), Memory>
    ensures { (file : ℕ) → OnOk result (slots_of file slots.new.items ≡ build.changed level (build.with_part (part_of file part)) (slots_of file slots.old.items)) }
{
    match reach(alloc, slots, level) {
        Err(stop) => {
            drop(part);
            Err(stop)
        }
        Ok(()) => {
            let slot = &mut slots[level];
            slot.parts.push(part)?;
            Ok(())
        }
    }
}

fn put_value(
    alloc: Global,
    slots: &mut Vec<Slot>,
    level: usize,
    value: Boxed<Expr>,
) -> Result<(), Memory>
    ensures { (file line : ℕ) → OnOk result (slots_of file slots.new.items ≡ build.changed level (build.with_beside file line (a_value (expr_of file value))) (slots_of file slots.old.items)) }
{
    reach(alloc, slots, level)?;
    let slot = &mut slots[level];
    slot.value = Some(value);
    Ok(())
}

fn put_notes(
    alloc: Global,
    slots: &mut Vec<Slot>,
    level: usize,
    notes: TNotes,
) -> Result<(), Memory>
    ensures { (file : ℕ) → OnOk result (slots_of file slots.new.items ≡ build.changed level (with_notes (notes_of file notes)) (slots_of file slots.old.items)) }
{
    reach(alloc, slots, level)?;
    let slot = &mut slots[level];
    slot.notes = notes;
    Ok(())
}

fn put_none(alloc: Global, slots: &mut Vec<Slot>, level: usize) -> Result<(), Memory>
    ensures { (file : ℕ) → OnOk result (slots_of file slots.new.items ≡ build.changed level same_slot (slots_of file slots.old.items)) }
{
    reach(alloc, slots, level)
}

/// What is said beside the item whose value's slot this is.
fn put_beside(
    alloc: Global,
    slots: &mut Vec<Slot>,
    level: usize,
    line: u32,
    comment: Comment,
) -> Result<(), Memory>
    ensures { (file : ℕ) → OnOk result (slots_of file slots.new.items ≡ build.changed level (build.with_beside file line (said_of file comment)) (slots_of file slots.old.items)) }
{
    match comment {
        Comment::Value(value) => put_value(alloc, slots, level, value),
        Comment::Note(name, args) => {
            let mut notes: TNotes = Items::new(alloc);
            notes.push(TNote { name, args, line })?;
            put_notes(alloc, slots, level, notes)
        }
        Comment::Code(_) => {
            drop(comment);
            put_none(alloc, slots, level)
        }
        Comment::Open(_, _) => {
            drop(comment);
            put_none(alloc, slots, level)
        }
        Comment::Else => put_none(alloc, slots, level),
        Comment::Elif(_) => {
            drop(comment);
            put_none(alloc, slots, level)
        }
        Comment::End => put_none(alloc, slots, level),
        Comment::Ignored => {
            drop(comment);
            put_none(alloc, slots, level)
        }
    }
}

/// Takes the slot of this level off, and those behind it.
fn cut(alloc: Global, slots: &mut Vec<Slot>, level: usize) -> Slot
    ensures slot { (file : ℕ) → slot_of file result ≡ build.slot_at level (slots_of file slots.old.items) }
    ensures rest { (file : ℕ) → slots_of file slots.new.items ≡ take level (slots_of file slots.old.items) }
{
    let mut taken = fresh(alloc);
    while slots.len() > level {
        if let Some(slot) = slots.pop() {
            taken = slot;
        }
    }
    taken
}

// ---- items

/// The scalar that a noted scalar is. Of a list or a map it would be null, but all that is read as a noted scalar
/// is a scalar.
#[tactic(auto, using(ytt_base::proofs::Views::views))]
fn scalar_of(tree: Tree) -> Key
    ensures { key_of result ≡ nesting.scalar_of (tree_of tree) }
{
    match tree {
        Tree::Null => Key::Null,
        Tree::Bool(b) => Key::Bool(b),
        Tree::Int(n) => Key::Int(n),
        Tree::Str(text) => Key::Str(text),
        Tree::List(_) | Tree::Map(_) => Key::Null,
    }
}

/// What is written in an item in whose collection these parts stand.
#[tactic(auto, using(crate::proofs::Views::templates))]
fn content_of(alloc: Global, file: u32, written: Written, parts: Parts) -> Result<TContent, Memory>
    ensures { IfOk result (λ c. content_of file c ≡ build.content_of file (shape_of written) (parts_of file parts.items)) }
{
    match written {
        Written::Scalar(tree) => Ok(TContent::Scalar(scalar_of(tree))),
        Written::Map => Ok(TContent::Map(items_in(alloc, file, ItemKind::Pair, parts)?)),
        Written::List => Ok(TContent::List(items_in(alloc, file, ItemKind::Element, parts)?)),
    }
}

fn joined(before: TNotes, beside: TNotes) -> Result<TNotes, Memory>
    ensures { (file : ℕ) → IfOk result (λ ns. notes_of file ns ≡ build.notes_then file (befores_of file before) (notes_of file beside)) }
{
    let mut notes = before;
    notes.append(beside)?;
    Ok(notes)
}

/// The item whose value's slot this is.
fn item_with(
    alloc: Global,
    file: u32,
    start: Start,
    notes: TNotes,
    slot: Slot,
) -> Result<TItem, Memory>
    ensures { IfOk result (λ i. item_of file i ≡ build.item_with file (item_kind_of start.kind) start.line (option_map key_of start.key) (shape_of start.written) (befores_of file notes) (slot_of file slot)) }
{
    let Start {
        kind,
        line,
        key,
        written,
        ..
    } = start;
    let Slot {
        parts,
        value,
        notes: beside,
    } = slot;
    let notes = joined(notes, beside)?;
    let content = content_of(alloc, file, written, parts)?;
    Ok(TItem::Node(TNode {
        place: Place { file, line },
        kind,
        key,
        notes,
        value,
        content,
    }))
}

/// The level below; want of memory past the greatest number.
fn below(level: usize) -> Result<usize, Memory>
    ensures { IfOk result (λ d. d ≡ level + 1) }
{
    match level.checked_add(1) {
        Some(below) => Ok(below),
        None => Err(Memory),
    }
}

/// One more of what rows put, in front of the others.
fn put_front(alloc: Global, file: u32, put: Put, slots: &mut Vec<Slot>) -> Result<(), Memory>
    ensures { OnOk result (slots_of file slots.new.items ≡ build.built_step file (put_of file put) (slots_of file slots.old.items)) }
{
    match put {
        Put::Item(start, notes) => {
            let level = start.level;
            match below(level) {
                Err(stop) => {
                    drop(start);
                    drop(notes);
                    Err(stop)
                }
                Ok(deeper) => {
                    let slot = cut(alloc, slots, deeper);
                    let item = item_with(alloc, file, start, notes, slot)?;
                    put_part(alloc, slots, level, Part::Node(item))
                }
            }
        }
        Put::Beside(level, line, comment) => match below(level) {
            Err(stop) => {
                drop(comment);
                Err(stop)
            }
            Ok(deeper) => put_beside(alloc, slots, deeper, line, comment),
        },
        Put::Mark(level, line, comment) => {
            put_part(alloc, slots, level, Part::Mark(line, comment))
        }
    }
}

/// The documents that these put.
pub fn build(alloc: Global, file: u32, puts: Puts) -> Result<TItems, Memory>
    ensures { IfOk result (λ is. items_of file is ≡ build.documents_in file (build.built file (puts_of file puts))) }
{
    let mut left = puts;
    let mut slots: Vec<Slot> = Vec::new(alloc);
    while let Some(put) = left.pop() {
        put_front(alloc, file, put, &mut slots)?;
    }
    let slot = cut(alloc, &mut slots, 0);
    let Slot { parts, .. } = slot;
    items_in(alloc, file, ItemKind::Document, parts)
}
