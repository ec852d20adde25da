// The items and comments of documents, which are heard one after another.
ghost use Rattle.std.specs.Prelude.{◌≡◌, [], IfOk, None, option_map};
ghost use Rattle.star_tree.specs.View.{item_kind_of};
ghost use Rattle.template_events.specs.Heard.{AreHeard, Hears, HearsWhole, begin_parts, kept, trailing_parts};
ghost use Rattle.template_events.specs.Levels as spec;
ghost use Rattle.template_events.specs.Levels.{first_begins_on};
ghost use Rattle.template_events.specs.View.{owner_of, shape_of, start_of};
ghost use Rattle.template_pass.specs.Flat.{shape};
ghost use Rattle.template_spec.specs.Events.{begins_on, comes_behind, is_collection};
ghost use Rattle.yaml_noted.specs.View.{comment_of, comments_of, content_of, documents_of, items_of, note_of};

use crate::event::{Owner, Rows, Start, Written};
use crate::gather::{Gathering, Setting, let_go};
use crate::hear::{Hearing, hear_alone, hear_beside, hear_start, let_come};
use star_tree::ItemKind;
use std::alloc::Global;
use yaml_noted::{Comments, Content, NotedDocs, NotedItem, NotedItems, RawComment};
use ytt_base::fault::Stop;
use ytt_base::text::Memory;
use ytt_base::tree::Key;

fn copy_key(key: &Option<Key>) -> Result<Option<Key>, Memory>
    ensures { IfOk result (λ k. k ≡ key.now) }
{
    match key {
        Some(key) => Ok(Some(key.copy()?)),
        None => Ok(None),
    }
}

/// What is written in an item.
#[tactic(auto, using(yaml_noted::proofs::Views::views))]
fn written(alloc: Global, content: &Content) -> Result<Written, Memory>
    ensures { IfOk result (λ w. shape_of w ≡ shape (content_of content.now)) }
{
    match content {
        Content::Scalar(tree) => Ok(Written::Scalar(tree.copy(alloc)?)),
        Content::Map(_) => Ok(Written::Map),
        Content::List(_) => Ok(Written::List),
    }
}

#[tactic(auto, using(yaml_noted::proofs::Views::views))]
fn is_collection(content: &Content) -> bool
    ensures { result ≡ is_collection (content_of content.now) }
{
    match content {
        Content::Scalar(_) => false,
        Content::Map(_) | Content::List(_) => true,
    }
}

fn first_begins_on(line: u32, items: &NotedItems) -> bool
    ensures { result ≡ first_begins_on line (items_of items.now) }
{
    match items.as_slice().first() {
        Some(item) => item.place.line <= line,
        None => false,
    }
}

/// Whether the first member of a collection begins on this line.
#[tactic(auto, using(yaml_noted::proofs::Views::views))]
fn begins_on(line: u32, content: &Content) -> bool
    ensures { result ≡ begins_on line (content_of content.now) }
{
    match content {
        Content::Scalar(_) => false,
        Content::Map(items) | Content::List(items) => first_begins_on(line, items),
    }
}

/// Whether an item's comment comes behind what the item holds: behind the members that begin on its line.
fn comes_behind(item: &NotedItem) -> bool
    ensures { result ≡ comes_behind (option_map comment_of item.now.trailing) (content_of item.now.content) }
{
    match &item.trailing {
        Some(comment) => begins_on(comment.line, &item.content),
        None => false,
    }
}

fn start(alloc: Global, item: &NotedItem, kind: ItemKind, level: usize) -> Result<Start, Memory>
    ensures { IfOk result (λ s. start_of s ≡ spec.start level (item_kind_of kind) (note_of item.now) (content_of item.now.content)) }
{
    Ok(Start {
        level,
        kind,
        line: item.place.line,
        key: copy_key(&item.key)?,
        written: written(alloc, &item.content)?,
    })
}

fn owner(item: &NotedItem, kind: ItemKind, level: usize) -> Owner
    ensures { owner_of result ≡ spec.owner level (item_kind_of kind) (content_of item.now.content) }
{
    Owner {
        level,
        kind,
        is_collection: is_collection(&item.content),
    }
}

fn hear_loose<'a>(
    setting: Setting,
    comments: &'a Comments,
    hearing: &mut Hearing<'a>,
) -> Result<(), Stop>
    ensures { Hears setting (spec.loose_all (comments_of comments.now)) hearing.old hearing.new result }
{
    for comment in comments.as_slice() {
        hear_alone(setting, comment, hearing)?;
    }
    Ok(())
}

/// The item begins, behind the comments before it.
fn hear_begin<'a>(
    setting: Setting,
    item: &'a NotedItem,
    kind: ItemKind,
    level: usize,
    hearing: &mut Hearing<'a>,
) -> Result<(), Stop>
    ensures { Hears setting (begin_parts level kind item.now) hearing.old hearing.new result }
{
    hear_loose(setting, &item.before, hearing)?;
    let start = start(setting.alloc, item, kind, level)?;
    hear_start(setting, start, hearing)
}

fn hear_trailing<'a>(
    setting: Setting,
    item: &'a NotedItem,
    kind: ItemKind,
    level: usize,
    hearing: &mut Hearing<'a>,
) -> Result<(), Stop>
    ensures { Hears setting (trailing_parts level kind item.now) hearing.old hearing.new result }
{
    match &item.trailing {
        Some(comment) => {
            let owner = owner(item, kind, level);
            hear_beside(setting, owner, comment, hearing)
        }
        None => Ok(()),
    }
}

/// Hears the comment of an item and what the item holds.
#[cycle(flat)]
fn hear_inside<'a>(
    setting: Setting,
    item: &'a NotedItem,
    kind: ItemKind,
    level: usize,
    hearing: &mut Hearing<'a>,
) -> Result<(), Stop>
    ensures { Hears setting (spec.inside_item (item_kind_of kind) level (note_of item.now) (content_of item.now.content)) hearing.old hearing.new result }
{
    if comes_behind(item) {
        hear_below(setting, &item.content, level, hearing)?;
        hear_trailing(setting, item, kind, level, hearing)
    } else {
        hear_trailing(setting, item, kind, level, hearing)?;
        hear_below(setting, &item.content, level, hearing)
    }
}

/// Hears what an item of this level holds.
#[cycle(flat)]
#[tactic(auto, using(yaml_noted::proofs::Views::views))]
fn hear_below<'a>(
    setting: Setting,
    content: &'a Content,
    level: usize,
    hearing: &mut Hearing<'a>,
) -> Result<(), Stop>
    ensures { Hears setting (spec.parts_below level (content_of content.now)) hearing.old hearing.new result }
{
    let Some(inner) = level.checked_add(1) else {
        return Err(Stop::Memory);
    };
    match content {
        Content::Scalar(_) => Ok(()),
        Content::Map(items) => hear_items(setting, items, ItemKind::Pair, inner, hearing),
        Content::List(items) => hear_items(setting, items, ItemKind::Element, inner, hearing),
    }
}

/// Hears items, each behind the comments before it, an outer one before an inner one.
#[cycle(flat)]
fn hear_items<'a>(
    setting: Setting,
    items: &'a NotedItems,
    kind: ItemKind,
    level: usize,
    hearing: &mut Hearing<'a>,
) -> Result<(), Stop>
    ensures { Hears setting (spec.parts_among (item_kind_of kind) level (items_of items.now)) hearing.old hearing.new result }
{
    for item in items.as_slice() {
        hear_begin(setting, item, kind, level, hearing)?;
        hear_inside(setting, item, kind, level, hearing)?;
    }
    Ok(())
}

/// Hears documents, and the comments behind the last item.
fn hear_all<'a>(
    setting: Setting,
    docs: &'a NotedDocs,
    hearing: &mut Hearing<'a>,
) -> Result<(), Stop>
    ensures { Hears setting (spec.parts_in (documents_of docs.now)) hearing.old hearing.new result }
{
    hear_items(setting, &docs.items, ItemKind::Document, 0, hearing)?;
    hear_loose(setting, &docs.after, hearing)
}

/// Hears documents from their begin; at their end what waits comes, and then what is held.
fn hear_whole<'a>(
    setting: Setting,
    docs: &'a NotedDocs,
    hearing: &mut Hearing<'a>,
) -> Result<(), Stop>
    requires rows { hearing.old.gathering.rows.items ≡ [] }
    requires held { hearing.old.gathering.held ≡ None }
    requires waiting { hearing.old.waiting ≡ None }
    ensures { HearsWhole setting (documents_of docs.now) hearing.new.gathering result }
{
    hear_all(setting, docs, hearing)?;
    let_come(setting, hearing)?;
    let_go(setting, &mut hearing.gathering)
}

/// The rows that were heard, or why not all were.
fn rows_of(heard: Result<(), Stop>, hearing: Hearing<'_>) -> Result<Rows, Stop>
    ensures { result ≡ kept heard hearing.entry.gathering.rows }
{
    let Hearing { gathering, .. } = hearing;
    let Gathering { rows, .. } = gathering;
    match heard {
        Ok(()) => Ok(rows),
        Err(stop) => {
            drop(rows);
            Err(stop)
        }
    }
}

/// The rows of documents in text order: each item as it begins, and what the comments say.
///
/// `file` is the number of the documents' file, which faults and places name. Comments come in the order of their lines; the comment on an
/// item's line comes behind the members of its collection that begin on that line. A comment of code whose brackets are open at its end
/// goes on with the code on a line of its own directly below; ignored comments, such as those that begin with `#!`, and under
/// `ignore_unknown` those that don't begin with `#@`, are no rows.
///
/// A fault is the first one of a comment in text order, as `read_comment` of `notes_read` tells it. Want of memory is `Stop::Memory`.
pub fn read_events(
    alloc: Global,
    docs: &NotedDocs,
    file: u32,
    ignore_unknown: bool,
) -> Result<Rows, Stop>
    ensures events { AreHeard (λ rows. rows.items) ignore_unknown file (documents_of docs.now) result }
{
    let setting = Setting {
        alloc,
        file,
        ignore_unknown,
    };
    let mut hearing = Hearing {
        gathering: Gathering {
            rows: Vec::new(alloc),
            held: None,
        },
        waiting: None,
    };
    let heard = hear_whole(setting, docs, &mut hearing);
    rows_of(heard, hearing)
}
