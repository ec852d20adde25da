// Nodes in brackets.
ghost use Rattle.std.specs.Prelude.{◌≡◌, ◌<◌, ◌≤◌, IfOk, OnOk, true};
ghost use Rattle.ytt_base.specs.Outcomes.{Gives};
ghost use Rattle.yaml_flow.specs.Members.{collection, levels_inside, member, members, node_at, turn};
ghost use Rattle.yaml_flow.specs.View.{member_of, members_of, node_of, turn_of, with_some};
ghost use Rattle.yaml_noted.specs.View.{comments_of, content_of, items_of};
ghost use Rattle.yaml_spec.specs.Flow.{flow, size, starts_collection};
ghost use Rattle.yaml_spec.specs.Quotes.{after};
ghost use Rattle.yaml_text.specs.View.{cursor_of};

use crate::member::{Start, closing, is_single_pair, member_start, read_end};
use crate::scalar::read_scalar;
use crate::token::{behind_mark, next_token};
use sqlite_items::Items;
use std::alloc::Global;
use yaml_noted::{Comments, Content, NotedItem, NotedItems};
use yaml_text::{Cursor, first, refusal, starts_collection};
use ytt_base::fault::{FaultKind, Place, Stop};
use ytt_base::text::Memory;
use ytt_base::tree::Tree;

/// What was read between two marks of a collection.
#[derive(Drop)]
struct Turn<'a> {
    /// The member, if one stands there.
    item: Option<NotedItem>,
    /// Whether the closing mark was read.
    is_over: bool,
    /// The comments before the mark that no item has.
    comments: Comments,
    /// The place behind the mark.
    cursor: Cursor<'a>,
}

/// A node in brackets, or a collection with its brackets (YAML 1.2.2, 7.4), with the comments in it
/// that no item of it has, and the place behind it.
///
/// At most `left` collections may stand inside each other. `open_place` is where what is left open is
/// told, and `comments` stand before the node.
#[cycle(flow)]
pub fn read_flow<'a>(
    alloc: Global,
    left: u32,
    open_place: Place,
    comments: Comments,
    cursor: Cursor<'a>,
) -> Result<(Content, Comments, Cursor<'a>), Stop>
    ensures node { Gives node_of result (flow left open_place (comments_of comments) (cursor_of cursor.entry)) }
    ensures within { IfOk result (λ n. size (cursor_of n.2) ≤ size (cursor_of cursor.entry)) }
{
    if !starts_collection(cursor.text) {
        return read_scalar(alloc, open_place, comments, cursor);
    }
    let inside = levels_inside(alloc, left, cursor.place)?;
    let is_map = first(cursor.text) == b'{';
    let (items, comments, behind) = read_members(
        alloc, inside, open_place, is_map, comments, cursor,
    )?;
    Ok((collection(is_map, items), comments, behind))
}

/// How many collections may stand in each other inside one that stands here, where so many are left.
fn levels_inside(alloc: Global, left: u32, place: Place) -> Result<u32, Stop>
    ensures levels { Gives (λ n. n) result (levels_inside left place) }
    ensures less { IfOk result (λ n. n < left) }
{
    if left == 0 {
        return Err(refusal(alloc, FaultKind::YamlDepth, place));
    }
    Ok(left - 1)
}

/// A map or a list of these items.
#[tactic(auto, using(yaml_noted::proofs::Views::views))]
fn collection(is_map: bool, items: NotedItems) -> Content
    ensures { content_of result ≡ collection is_map (items_of items) }
{
    if is_map {
        Content::Map(items)
    } else {
        Content::List(items)
    }
}

/// The members of the collection whose opening bracket stands here, the comments behind the last, and
/// the place behind the closing bracket.
#[cycle(flow)]
fn read_members<'a>(
    alloc: Global,
    left: u32,
    open_place: Place,
    is_map: bool,
    comments: Comments,
    cursor: Cursor<'a>,
) -> Result<(NotedItems, Comments, Cursor<'a>), Stop>
    requires { starts_collection cursor.text.now ≡ true }
    ensures members { Gives members_of result (members open_place (flow left open_place) is_map (size (cursor_of cursor.entry)) (comments_of comments) (after 1 (cursor_of cursor.entry))) }
    ensures within { IfOk result (λ m. size (cursor_of m.2) ≤ size (cursor_of cursor.entry)) }
{
    let mut items = Items::new(alloc);
    let mut comments = comments;
    let mut here = behind_mark(cursor);
    'members: loop {
        let turn = read_turn(alloc, left, open_place, is_map, comments, here)?;
        add_item(&mut items, turn.item)?;
        if turn.is_over {
            return Ok((items, turn.comments, turn.cursor));
        }
        comments = turn.comments;
        here = turn.cursor;
    }
}

/// Puts an item, if there is one, behind the others.
fn add_item(items: &mut NotedItems, item: Option<NotedItem>) -> Result<(), Memory>
    ensures { OnOk result (items.new ≡ with_some items.old item) }
{
    if let Some(item) = item {
        items.push(item)?;
    }
    Ok(())
}

/// What stands before the next mark: a member and a comma, or the closing bracket with or without a
/// member before it.
#[cycle(flow)]
#[tactic(auto, unfolding(crate::specs::Members::turn))]
fn read_turn<'a>(
    alloc: Global,
    left: u32,
    open_place: Place,
    is_map: bool,
    comments: Comments,
    cursor: Cursor<'a>,
) -> Result<Turn<'a>, Stop>
    ensures turn { Gives turn_of result (turn open_place (flow left open_place) is_map (comments_of comments) (cursor_of cursor.entry)) }
    ensures within { IfOk result (λ t. size (cursor_of t.cursor) < size (cursor_of cursor.entry)) }
{
    let (before, here) = next_token(alloc, open_place, comments, cursor)?;
    if first(here.text) == closing(is_map) {
        return Ok(Turn {
            item: None,
            is_over: true,
            comments: before,
            cursor: behind_mark(here),
        });
    }
    let (item, comments, there) = read_member(alloc, left, open_place, is_map, before, here)?;
    let (is_over, comments, cursor) = read_end(alloc, open_place, is_map, comments, there)?;
    Ok(Turn {
        item: Some(item),
        is_over,
        comments,
        cursor,
    })
}

/// The member that begins here, which these comments stand before, the comments in it that no item has,
/// and the place behind it. A list's member that is the key of a pair is YamlOut.
#[cycle(flow)]
#[tactic(auto, unfolding(crate::specs::Members::member))]
fn read_member<'a>(
    alloc: Global,
    left: u32,
    open_place: Place,
    is_map: bool,
    before: Comments,
    here: Cursor<'a>,
) -> Result<(NotedItem, Comments, Cursor<'a>), Stop>
    ensures member { Gives member_of result (member open_place (flow left open_place) is_map (comments_of before) (cursor_of here.entry)) }
    ensures within { IfOk result (λ m. size (cursor_of m.2) ≤ size (cursor_of here.entry)) }
{
    let Start {
        key,
        has_node,
        comments,
        cursor,
    } = member_start(alloc, open_place, is_map, here)?;
    let (content, comments, there) = read_node(
        alloc, left, open_place, has_node, comments, cursor,
    )?;
    if !is_map && is_single_pair(here, there) {
        return Err(refusal(alloc, FaultKind::YamlOut, there.place));
    }
    let item = NotedItem {
        place: here.place,
        key,
        before,
        trailing: None,
        flow: true,
        content,
    };
    Ok((item, comments, there))
}

/// The node that begins here, or null where there is none.
#[cycle(flow)]
fn read_node<'a>(
    alloc: Global,
    left: u32,
    open_place: Place,
    has_node: bool,
    comments: Comments,
    cursor: Cursor<'a>,
) -> Result<(Content, Comments, Cursor<'a>), Stop>
    ensures node { Gives node_of result (node_at (flow left open_place) has_node (comments_of comments) (cursor_of cursor.entry)) }
    ensures within { IfOk result (λ n. size (cursor_of n.2) ≤ size (cursor_of cursor.entry)) }
{
    if has_node {
        read_flow(alloc, left, open_place, comments, cursor)
    } else {
        Ok((Content::Scalar(Tree::Null), comments, cursor))
    }
}
