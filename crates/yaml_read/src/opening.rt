// How the heads of a row open blocks.
ghost use Rattle.std.specs.Prelude.{◌≡◌, ◌<◌, ◌≤◌, [], ◌∷◌, ◌++◌, IfOk, List, None, Ok, if◌then◌else◌, length};
ghost use Rattle.ytt_base.specs.declared.fault.FaultKind.TheVariants as kind;
ghost use Rattle.ytt_base.specs.declared.fault.Stop.TheVariants as stop;
ghost use Rattle.ytt_base.specs.Outcomes.{Gives, fault_at};
ghost use Rattle.yaml_pass.specs.Machine.{begin_entry, opens};
ghost use Rattle.yaml_noted.specs.View.{comments_of};
ghost use Rattle.yaml_entries.specs.Heads.{FitsRow};
ghost use Rattle.yaml_read.specs.Heads.{first_dash, first_tab, goes_on, new_frame, opens_in, row_from};
ghost use Rattle.yaml_entries.specs.View.{begun_of, extent_of, frames_of, note_of, opened_of};
ghost use Rattle.yaml_rows.specs.View.{heads_of, mark_of, row_of};
ghost use Rattle.yaml_spec.specs.Entries as plain;
ghost use Rattle.yaml_spec.specs.Entries.{is_dash_mark};
ghost use Rattle.yaml_spec.specs.Noted.{Comment};
ghost use Rattle.yaml_spec.specs.Rows as rows;
ghost use Rattle.yaml_spec.specs.Rows.{taken};

use sqlite_items::Items;
use std::alloc::Global;
use yaml_entries::{Begun, Frame, Frames, Note, Opened, begin_last};
use yaml_noted::Comments;
use yaml_rows::{Head, Mark, Row};
use yaml_text::refusal;
use ytt_base::fault::{FaultKind, Place, Stop};
use ytt_base::text::Memory;

pub fn is_dash(mark: &Mark) -> bool
    ensures { result ≡ is_dash_mark (mark_of mark.now) }
{
    match mark {
        Mark::Dash => true,
        Mark::Key(_) => false,
        Mark::NoKey(_) => false,
    }
}

/// Whether the first head is a dash.
pub fn starts_with_dash(heads: &[Head]) -> bool
    ensures { result ≡ first_dash (heads_of heads.now) }
{
    match heads.first() {
        Some(head) => is_dash(&head.mark),
        None => false,
    }
}

/// Whether a tab stands before the first head.
fn has_tab(heads: &[Head]) -> bool
    ensures { result ≡ first_tab (heads_of heads.now) }
{
    match heads.first() {
        Some(head) => head.has_tab,
        None => false,
    }
}

/// The refusal of a row with these heads where it stands: a tab before its entry comes first.
pub fn misplaced(alloc: Global, heads: &[Head], reason: FaultKind, place: Place) -> Stop
    ensures { result ≡ stop.Fault (fault_at (if first_tab (heads_of heads.now) then kind.YamlTab else reason) place) }
{
    if has_tab(heads) {
        refusal(alloc, FaultKind::YamlTab, place)
    } else {
        refusal(alloc, reason, place)
    }
}

/// Whether a block begins behind the head.
fn goes_on(mark: &Mark, behind: &[Head]) -> bool
    ensures { result ≡ goes_on (mark_of mark.now) (heads_of behind.now) }
{
    is_dash(mark) && !behind.is_empty()
}

/// The note of an entry without a key, whose content is a block.
fn bare_note(place: Place, before: Comments) -> Note
    ensures { (r : rows.Row) → r.place ≡ place → r.before ≡ comments_of before → note_of result ≡ plain.note_of r None None }
{
    Note {
        place,
        key: None,
        before,
        trailing: None,
    }
}

/// These blocks, and inside them one that begins at this indent, with what its first entry has so far.
fn with_block(
    alloc: Global,
    outer: Frames,
    left: u32,
    indent: usize,
    is_list: bool,
    note: Note,
) -> Result<Frames, Memory>
    requires { left ≤ 100 }
    ensures { IfOk result (λ fs. frames_of fs ≡ frames_of outer ++ new_frame left indent is_list (note_of note) ∷ []) }
{
    let mut frames = outer;
    frames.push(Frame {
        left,
        indent,
        is_list,
        done: Items::new(alloc),
        note,
    })?;
    Ok(frames)
}

/// The blocks that these heads of a row open, inside those around them.
///
/// The first head has this indent. `left` blocks may be opened, and the comments go to the first entry.
pub fn open_blocks(
    alloc: Global,
    left: u32,
    row: &Row<'_>,
    indent: usize,
    heads: &[Head],
    before: Comments,
    outer: Frames,
) -> Result<Opened, Stop>
    requires some { 0 < length heads.now }
    requires heads { 0 < length row.now.heads }
    requires shallow { left ≤ 100 }
    requires fits { FitsRow row.now }
    ensures content { Gives opened_of result (opens_in (frames_of outer) left indent (row_from (comments_of before) indent heads.now row.now)) }
    ensures extent { (bs : List Comment) → IfOk result (λ o. taken (row_of bs row.now) ≡ Ok (extent_of o.extent)) }
{
    let Some((head, behind)) = heads.split_first() else {
        unreachable!()
    };
    if left == 0 || head.has_tab {
        return Err(misplaced(alloc, heads, FaultKind::YamlDepth, row.place));
    }
    let inside = left - 1;
    if goes_on(&head.mark, behind) {
        let note = bare_note(row.place, before);
        let frames = with_block(alloc, outer, inside, indent, true, note)?;
        let column = behind[0].column;
        let none = Items::new(alloc);
        return open_blocks(alloc, inside, row, column, behind, none, frames);
    }
    let Begun { note, inner } = begin_last(alloc, inside, row, &head.mark, before)?;
    let is_list = is_dash(&head.mark);
    let frames = with_block(alloc, outer, inside, indent, is_list, note)?;
    Ok(Opened {
        frames,
        hole: inner.hole,
        extent: inner.extent,
    })
}

/// The entry that begins at this head of a row, with the blocks that the heads behind it open.
///
/// `left` blocks may be opened, and the comments go to the entry.
pub fn begin_entry(
    alloc: Global,
    left: u32,
    row: &Row<'_>,
    head: &Head,
    behind: &[Head],
    before: Comments,
) -> Result<Begun, Stop>
    requires heads { 0 < length row.now.heads }
    requires shallow { left ≤ 100 }
    requires fits { FitsRow row.now }
    ensures content { Gives begun_of result (begin_entry left (opens left) (row_of (comments_of before) row.now) (mark_of head.now.mark) (heads_of behind.now)) }
    ensures extent { (bs : List Comment) → IfOk result (λ b. taken (row_of bs row.now) ≡ Ok (extent_of b.inner.extent)) }
{
    if !goes_on(&head.mark, behind) {
        return begin_last(alloc, left, row, &head.mark, before);
    }
    let column = behind[0].column;
    let inner = open_blocks(
        alloc,
        left,
        row,
        column,
        behind,
        Items::new(alloc),
        Items::new(alloc),
    )?;
    Ok(Begun {
        note: bare_note(row.place, before),
        inner,
    })
}
