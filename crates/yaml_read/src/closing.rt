// How open blocks close.
ghost use Rattle.std.specs.Prelude.{◌≡◌, ◌≤◌, [], ◌∷◌, ◌++◌, IfOk, drop, length, take};
ghost use Rattle.yaml_pass.specs.Machine.{finish, with_items, wrap};
ghost use Rattle.yaml_noted.specs.View.{content_of, noted_of};
ghost use Rattle.yaml_spec.specs.Noted.{item, no_items};
ghost use Rattle.yaml_entries.specs.View.{done_of, found_of, frames_of, hole_of, note_of};

use std::alloc::Global;
use yaml_entries::{Found, Frame, Frames, Note};
use yaml_noted::{Content, NotedItem, NotedItems};
use ytt_base::text::Memory;
use ytt_base::tree::Tree;

fn item_of(note: Note, content: Content) -> NotedItem
    ensures { noted_of result ≡ (note_of note, content_of content) }
{
    let Note {
        place,
        key,
        before,
        trailing,
    } = note;
    NotedItem {
        place,
        key,
        before,
        trailing,
        flow: false,
        content,
    }
}

/// The items of a block, the last of which has this content.
pub fn with_entry(done: NotedItems, note: Note, content: Content) -> Result<NotedItems, Memory>
    ensures { IfOk result (λ is. done_of is ≡ done_of done ++ (note_of note, content_of content) ∷ []) }
{
    let mut items = done;
    items.push(item_of(note, content))?;
    Ok(items)
}

/// The content of a block whose open entry has this content.
fn closed(frame: Frame, content: Content) -> Result<Content, Memory>
    ensures { IfOk result (λ c. content_of c ≡ wrap frame.is_list (with_items (done_of frame.done) (item (note_of frame.note) (content_of content) no_items))) }
{
    let Frame {
        is_list,
        done,
        note,
        ..
    } = frame;
    let items = with_entry(done, note, content)?;
    if is_list {
        Ok(Content::List(items))
    } else {
        Ok(Content::Map(items))
    }
}

/// What an entry has: its content, or null where it has none.
fn or_null(hole: Option<Found>) -> Found
    ensures { found_of result ≡ finish [] (hole_of hole) }
{
    match hole {
        Some(found) => found,
        None => Found {
            content: Content::Scalar(Tree::Null),
            trailing: None,
        },
    }
}

/// Closes the blocks behind the first `count`, the innermost first. It gives the blocks that stay
/// open, and what the open entry of the last of them has.
#[tactic(auto, using(crate::proofs::Blocks::blocks))]
pub fn close_behind(
    alloc: Global,
    frames: Frames,
    count: usize,
    hole: Option<Found>,
) -> Result<(Frames, Found), Memory>
    requires { count ≤ length frames }
    ensures { IfOk result (λ r. (r.0 ≡ take count frames) × (found_of r.1 ≡ finish (drop count (frames_of frames)) (hole_of hole))) }
{
    let mut open = frames;
    let mut found = or_null(hole);
    'inner: while open.len() > count {
        match open.pop() {
            Some(frame) => {
                found = Found {
                    content: closed(frame, found.content)?,
                    trailing: None,
                };
            }
            None => return Ok((open, found)),
        }
    }
    Ok((open, found))
}
