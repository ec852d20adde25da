// One row, where blocks are open.
ghost use Rattle.std.specs.Prelude.{◌≡◌, ◌+◌, ◌<◌, ◌≤◌, [], ◌∷◌, ◌++◌, IfOk, List, Ok, drop, length, not, slice_get, take, true, Some};
ghost use Rattle.std.specs.List.{prefix_len};
ghost use Rattle.ytt_base.specs.Outcomes.{Gives};
ghost use Rattle.yaml_pass.specs.Machine.{begin_at, opens, step};
ghost use Rattle.yaml_noted.specs.View.{comments_of, content_of};
ghost use Rattle.yaml_entries.specs.Heads.{FitsRow};
ghost use Rattle.yaml_read.specs.Steps.{begins, entry_in, fits_at, last_left, misfit, root_in, with_next};
ghost use Rattle.yaml_entries.specs.View.{begun_of, extent_of, frame_of, frames_of, hole_of, note_of, opened_of};
ghost use Rattle.yaml_rows.specs.View.{head_of, row_of};
ghost use Rattle.yaml_spec.specs.Entries.{begins_entry};
ghost use Rattle.yaml_spec.specs.Noted.{Comment};
ghost use Rattle.yaml_spec.specs.Rows.{has_value, taken};

use crate::closing::{close_behind, with_entry};
use crate::opening::{begin_entry, is_dash, misplaced, open_blocks, starts_with_dash};
use std::alloc::Global;
use yaml_entries::{Begun, Found, Frame, Frames, Note, Opened, found_by};
use yaml_noted::{Comments, Content};
use yaml_plain::start_fault;
use yaml_rows::{Head, MAX_DEPTH, Row, row_value};
use yaml_text::refusal;
use ytt_base::fault::{FaultKind, Stop};
use ytt_base::text::Memory;

/// Whether the row begins an entry of the block.
fn begins_entry(frame: &Frame, row: &Row<'_>) -> bool
    ensures { result ≡ begins (row_of [] row.now) frame.now }
{
    if row.indent == frame.indent {
        return frame.is_list || !starts_with_dash(row.heads.as_slice());
    }
    row.indent < frame.indent
}

/// How many blocks stay open around the row: those before the first of which it begins an entry.
fn blocks_around(frames: &[Frame], row: &Row<'_>) -> usize
    ensures { result ≡ prefix_len (λ f. not (begins (row_of [] row.now) f)) frames.now }
{
    frames
        .iter()
        .take_while(|frame| !begins_entry(frame, row))
        .count()
}

/// Why a row without a head can't begin an entry of a block of this indent.
fn misfit(row: &Row<'_>, indent: usize) -> FaultKind
    ensures { (before : List Comment) → result ≡ misfit indent (row_of before row.now) }
{
    if row.indent != indent {
        return FaultKind::YamlForm;
    }
    match start_fault(false, row.text) {
        Some(reason) => reason,
        None => FaultKind::YamlForm,
    }
}

/// Whether an entry of a block of this indent begins at a head of a row of the other indent.
fn fits(is_list: bool, indent: usize, row_indent: usize, head: &Head) -> bool
    ensures { result ≡ fits_at is_list indent row_indent (head_of head.now) }
{
    if head.has_tab || row_indent != indent {
        return false;
    }
    is_list == is_dash(&head.mark)
}

/// The entry of an open block that the row begins, where `left` more blocks may be opened. The
/// comments go to the entry.
fn begin_at(
    alloc: Global,
    left: u32,
    is_list: bool,
    indent: usize,
    row: &Row<'_>,
    before: Comments,
) -> Result<Begun, Stop>
    requires shallow { left ≤ 100 }
    requires fits { FitsRow row.now }
    ensures content { Gives begun_of result (begin_at left (opens left) is_list indent (row_of (comments_of before) row.now)) }
    ensures extent { (bs : List Comment) → IfOk result (λ b. taken (row_of bs row.now) ≡ Ok (extent_of b.inner.extent)) }
{
    let heads = row.heads.as_slice();
    match heads.split_first() {
        None => Err(refusal(alloc, misfit(row, indent), row.place)),
        Some((head, behind)) => {
            if !fits(is_list, indent, row.indent, head) {
                return Err(misplaced(alloc, heads, FaultKind::YamlForm, row.place));
            }
            begin_entry(alloc, left, row, head, behind, before)
        }
    }
}

/// The block, where its open entry has this content and an entry with this note begins.
fn next_entry(frame: Frame, content: Content, note: Note) -> Result<Frame, Memory>
    ensures { IfOk result (λ f. frame_of f ≡ with_next (frame_of frame) (content_of content) (note_of note)) }
{
    let Frame {
        left,
        indent,
        is_list,
        done,
        note: open_note,
        ..
    } = frame;
    Ok(Frame {
        left,
        indent,
        is_list,
        done: with_entry(done, open_note, content)?,
        note,
    })
}

/// The same of the innermost of these blocks.
fn with_next_entry(frames: Frames, content: Content, note: Note) -> Result<Frames, Memory>
    requires { 0 < length frames }
    ensures { (outer : List Frame) (f : Frame) → frames ≡ outer ++ f ∷ [] →
        IfOk result (λ fs. frames_of fs ≡ frames_of outer ++ with_next (frame_of f) (content_of content) (note_of note) ∷ []) }
{
    let mut open = frames;
    match open.pop() {
        Some(frame) => open.push(next_entry(frame, content, note)?)?,
        None => unreachable!(),
    }
    Ok(open)
}

fn joined(outer: Frames, inner: Frames) -> Result<Frames, Memory>
    ensures { IfOk result (λ fs. fs ≡ outer ++ inner) }
{
    let mut frames = outer;
    frames.append(inner)?;
    Ok(frames)
}

/// The row begins an entry of the block at this index, and the blocks behind it close.
fn step_at(
    alloc: Global,
    frames: Frames,
    at: usize,
    hole: Option<Found>,
    row: &Row<'_>,
    before: Comments,
) -> Result<Opened, Stop>
    requires within { at < length frames }
    requires fits { FitsRow row.now }
    ensures content { (f : Frame) → slice_get frames at ≡ Some f →
        Gives opened_of result (entry_in (take at (frames_of frames)) (frame_of f) (drop (at + 1) (frames_of frames)) (hole_of hole) (row_of (comments_of before) row.now)) }
    ensures extent { (bs : List Comment) → IfOk result (λ o. taken (row_of bs row.now) ≡ Ok (extent_of o.extent)) }
{
    let frame = &frames.as_slice()[at];
    let begun = begin_at(alloc, frame.left, frame.is_list, frame.indent, row, before)?;
    let Begun { note, inner } = begun;
    let (outer, found) = close_behind(alloc, frames, at + 1, hole)?;
    let open = with_next_entry(outer, found.content, note)?;
    Ok(Opened {
        frames: joined(open, inner.frames)?,
        hole: inner.hole,
        extent: inner.extent,
    })
}

/// How many collections may nest in the innermost block.
fn innermost(frames: &[Frame]) -> u32
    ensures left { result ≡ last_left 100 (frames_of frames.now) }
    ensures shallow { result ≤ 100 }
{
    match frames.last() {
        Some(frame) => frame.left,
        None => MAX_DEPTH,
    }
}

/// The row belongs to the open entry of the innermost of these blocks, in which `left` more may be
/// opened.
fn step_root(
    alloc: Global,
    left: u32,
    frames: Frames,
    hole: Option<Found>,
    row: &Row<'_>,
    before: Comments,
) -> Result<Opened, Stop>
    requires shallow { left ≤ 100 }
    requires fits { FitsRow row.now }
    requires value { row.now.heads ≡ [] → has_value (row_of [] row.now) ≡ true }
    ensures content { Gives opened_of result (root_in (frames_of frames) left (hole_of hole) (row_of (comments_of before) row.now)) }
    ensures extent { IfOk result (λ o. taken (row_of (comments_of before) row.now) ≡ Ok (extent_of o.extent)) }
{
    let heads = row.heads.as_slice();
    if hole.is_some() {
        return Err(misplaced(alloc, heads, FaultKind::YamlForm, row.place));
    }
    if !heads.is_empty() {
        return open_blocks(alloc, left, row, row.indent, heads, before, frames);
    }
    let value = row_value(alloc, left, row, before)?;
    let (found, extent) = found_by(value, row.place.line);
    Ok(Opened {
        frames,
        hole: Some(found),
        extent,
    })
}

/// The blocks and the hole behind a row, and how far the row reaches. The comments stand before it.
pub fn step(
    alloc: Global,
    frames: Frames,
    hole: Option<Found>,
    row: &Row<'_>,
    before: Comments,
) -> Result<Opened, Stop>
    requires fits { FitsRow row.now }
    requires value { row.now.heads ≡ [] → has_value (row_of [] row.now) ≡ true }
    ensures content { Gives opened_of result (step 100 (frames_of frames) (hole_of hole) (row_of (comments_of before) row.now)) }
    ensures extent { IfOk result (λ o. taken (row_of (comments_of before) row.now) ≡ Ok (extent_of o.extent)) }
{
    let at = blocks_around(frames.as_slice(), row);
    if at < frames.len() {
        return step_at(alloc, frames, at, hole, row, before);
    }
    let left = innermost(frames.as_slice());
    step_root(alloc, left, frames, hole, row, before)
}
