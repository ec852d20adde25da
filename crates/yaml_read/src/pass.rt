// The lines of a document, gone over once with a stack of open blocks.
ghost use Rattle.std.specs.Prelude.{◌≡◌, ◌==◌, ◌+◌, ◌<◌, ◌≤◌, ◌^◌, [], ◌∷◌, IfOk, List, ℕ, false, true, length};
ghost use Rattle.ytt_base.specs.Outcomes.{Gives};
ghost use Rattle.yaml_pass.specs.Machine.{own_comment, pass};
ghost use Rattle.yaml_noted.specs.View.{comment_of, comments_of};
ghost use Rattle.yaml_spec.specs.Bytes.{first, hash, is_blank, skip_white};
ghost use Rattle.yaml_spec.specs.Held.{plain_line, plain_lines};
ghost use Rattle.yaml_spec.specs.Lines as plain;
ghost use Rattle.yaml_spec.specs.Rows.{has_value};
ghost use Rattle.yaml_rows.specs.View.{row_of};
ghost use Rattle.yaml_entries.specs.Heads.{FitsRow};
ghost use Rattle.yaml_read.specs.Lines.{FitLines};
ghost use Rattle.yaml_read.specs.Passing.{Leads, pass_behind, pass_from};
ghost use Rattle.yaml_entries.specs.View.{frames_of, hole_of};
ghost use Rattle.yaml_read.specs.View.{passed_of};

use crate::closing::close_behind;
use crate::state::State;
use crate::stepping::step;
use sqlite_items::Items;
use std::alloc::Global;
use yaml_entries::{Extent, Found, Opened};
use yaml_noted::{Comments, RawComment};
use yaml_rows::{Row, row_at};
use yaml_text::{first, is_blank, skip_white};
use ytt_base::fault::Stop;
use ytt_base::line::Line;
use ytt_base::text::{Memory, Text};

/// What the lines of a document hold: its content, and the comments behind its last item.
#[derive(Drop)]
pub struct Passed {
    pub found: Found,
    pub after: Comments,
}

/// The comment that is all of a line.
pub fn own_comment(alloc: Global, line: &Line) -> Result<RawComment, Memory>
    ensures { IfOk result (λ c. comment_of c ≡ own_comment (plain_line line.now)) }
{
    Ok(RawComment {
        line: line.place.line,
        own_line: true,
        text: Text::of(alloc, skip_white(line.text.as_str()))?,
    })
}

/// A line that belongs to the row before.
fn skipped(state: State) -> State
    requires { 0 < state.skip }
    ensures { (stop : ℕ) (l : plain.Line) (ls : List plain.Line) → pass_from stop (l ∷ ls) state ≡ pass_from stop ls result }
{
    let State {
        is_owned,
        skip,
        least,
        comments,
        frames,
        hole,
        ..
    } = state;
    State {
        is_owned,
        skip: skip - 1,
        least,
        comments,
        frames,
        hole,
    }
}

/// A line that is a comment alone.
fn with_comment(alloc: Global, state: State, line: &Line) -> Result<State, Memory>
    requires now { state.skip ≡ 0 }
    requires text { is_blank line.now.text ≡ false }
    requires mark { first (skip_white line.now.text) ≡ hash }
    ensures { (stop : ℕ) (ls : List plain.Line) → IfOk result (λ s. pass_from stop (plain_line line.now ∷ ls) state ≡ pass_from stop ls s) }
{
    let State {
        is_owned,
        skip,
        least,
        mut comments,
        frames,
        hole,
        ..
    } = state;
    comments.push(own_comment(alloc, line)?)?;
    Ok(State {
        is_owned,
        skip,
        least,
        comments,
        frames,
        hole,
    })
}

/// The state behind a row, where this state stands before it.
fn pass_row(alloc: Global, state: State, row: &Row<'_>) -> Result<State, Stop>
    requires fits { FitsRow row.now }
    requires bound { row.now.least ≤ 2 ^ 63 }
    requires value { row.now.heads ≡ [] → has_value (row_of [] row.now) ≡ true }
    ensures { (stop : ℕ) (ls : List plain.Line) → Leads (pass_from stop ls) result (pass_behind stop ls (row_of (comments_of state.comments) row.now) (frames_of state.frames) (hole_of state.hole)) }
{
    let State {
        comments,
        frames,
        hole,
        ..
    } = state;
    let Opened {
        frames: open,
        hole: found,
        extent,
    } = step(alloc, frames, hole, row, comments)?;
    let Extent { skip, loose } = extent;
    Ok(State {
        is_owned: false,
        skip,
        least: row.least,
        comments: loose,
        frames: open,
        hole: found,
    })
}

/// A line that begins a row.
fn pass_start<'a>(
    alloc: Global,
    stop: u32,
    state: State,
    line: &'a Line,
    below: &'a [Line],
) -> Result<State, Stop>
    requires now { state.skip ≡ 0 }
    requires text { is_blank line.now.text ≡ false }
    requires content { (first (skip_white line.now.text) == hash) ≡ false }
    requires fits { line.now.place.line + length below.now < 2 ^ 32 }
    ensures { Leads (pass_from stop (plain_lines below.now)) result (pass_from stop (plain_line line.now ∷ plain_lines below.now) state) }
{
    let row = row_at(alloc, stop, state.is_owned, state.least, line, below)?;
    pass_row(alloc, state, &row)
}

fn pass_line<'a>(
    alloc: Global,
    stop: u32,
    state: State,
    line: &'a Line,
    below: &'a [Line],
) -> Result<State, Stop>
    requires fits { line.now.place.line + length below.now < 2 ^ 32 }
    ensures { Leads (pass_from stop (plain_lines below.now)) result (pass_from stop (plain_line line.now ∷ plain_lines below.now) state) }
{
    if state.skip > 0 {
        return Ok(skipped(state));
    }
    if is_blank(line.text.as_str()) {
        return Ok(state);
    }
    if first(skip_white(line.text.as_str())) == b'#' {
        return Ok(with_comment(alloc, state, line)?);
    }
    pass_start(alloc, stop, state, line, below)
}

/// The state behind the last of these lines.
fn pass_each(alloc: Global, stop: u32, start: State, lines: &[Line]) -> Result<State, Stop>
    requires fits { FitLines (plain_lines lines.now) }
    ensures { Leads (pass_from stop []) result (pass_from stop (plain_lines lines.now) start) }
{
    let mut state = start;
    let mut rest = lines;
    'lines: while let Some((line, below)) = rest.split_first() {
        state = pass_line(alloc, stop, state, line, below)?;
        rest = below;
    }
    Ok(state)
}

/// The content of a document's lines, or the first refusal.
///
/// `stop` is the line of the marker that ends the document, or 0. `is_owned` says that an item starts
/// on the first line with content though that has no head. So many lines are skipped first, and these
/// comments stand before what follows. `hole` is the content that the document has already, if any.
pub fn pass_lines(
    alloc: Global,
    stop: u32,
    is_owned: bool,
    skip: u32,
    comments: Comments,
    hole: Option<Found>,
    lines: &[Line],
) -> Result<Passed, Stop>
    requires fits { FitLines (plain_lines lines.now) }
    ensures { Gives passed_of result (pass stop is_owned skip 0 (comments_of comments) [] (hole_of hole) (plain_lines lines.now)) }
{
    let start = State {
        is_owned,
        skip,
        least: 0,
        comments,
        frames: Items::new(alloc),
        hole,
    };
    let State {
        comments: after,
        frames,
        hole: last,
        ..
    } = pass_each(alloc, stop, start, lines)?;
    let (_, found) = close_behind(alloc, frames, 0, last)?;
    Ok(Passed { found, after })
}
