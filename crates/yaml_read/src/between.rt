// What stands between documents.
ghost use Rattle.std.specs.Prelude.{◌≡◌, ◌||◌, ◌==◌, ◌∷◌, [], ◌++◌, IfOk, OnOk, not, true, option_map};
ghost use Rattle.ytt_base.specs.Outcomes.{Gives};
ghost use Rattle.ytt_base.specs.declared.fault.Stop.TheVariants as stop;
ghost use Rattle.yaml_noted.specs.View.{comments_of as comments_told};
ghost use Rattle.yaml_spec.specs.Bytes.{first, hash, is_blank, skip_white};
ghost use Rattle.yaml_spec.specs.Held.{plain_line, plain_lines};
ghost use Rattle.yaml_spec.specs.Noted.{is_note};
ghost use Rattle.yaml_spec.specs.Read.{comments_of, first_content, is_stop};
ghost use Rattle.yaml_read.specs.Between.{ended_behind, only_comments, outside_fault};
ghost use Rattle.yaml_read.specs.Segments.{segment_of};

use crate::markers::behind_marker;
use crate::segments::Segment;
use std::alloc::Global;
use yaml_noted::{Comments, RawComment};
use yaml_text::{first, is_blank, is_note, refusal, skip_white};
use ytt_base::fault::{FaultKind, Stop};
use ytt_base::line::Line;
use ytt_base::text::{Memory, Text};

/// Whether the line is more than white space and a comment.
fn has_content(line: &Line) -> bool
    ensures { result ≡ not (is_blank line.now.text || first (skip_white line.now.text) == hash) }
{
    let text = line.text.as_str();
    !is_blank(text) && first(skip_white(text)) != b'#'
}

/// The first line that is more than white space and a comment.
pub fn first_content(lines: &[Line]) -> Option<&Line>
    ensures { option_map (λ l. plain_line l.now) result ≡ first_content (plain_lines lines.now) }
{
    for line in lines {
        if has_content(line) {
            return Some(line);
        }
    }
    None
}

/// Puts a comment behind others.
fn push_comment(
    alloc: Global,
    comments: &mut Comments,
    line: &Line,
    own_line: bool,
    text: &str,
) -> Result<(), Memory>
    ensures { OnOk result (comments_told comments.new ≡ comments_told comments.old ++ record { line = line.now.place.line; own_line = own_line; text = text.now } ∷ []) }
{
    comments.push(RawComment {
        line: line.place.line,
        own_line,
        text: Text::of(alloc, text)?,
    })?;
    Ok(())
}

/// Puts what stands on a line of its own behind other comments, unless it is blank.
fn push_own(alloc: Global, comments: &mut Comments, line: &Line) -> Result<(), Memory>
    ensures { OnOk result (comments_told comments.new ≡ comments_told comments.old ++ comments_of (plain_line line.now ∷ [])) }
{
    let text = skip_white(line.text.as_str());
    if text.is_empty() {
        return Ok(());
    }
    push_comment(alloc, comments, line, true, text)
}

/// Puts the comments of lines behind others. Lines are blank or a comment.
pub fn push_comments(alloc: Global, comments: Comments, lines: &[Line]) -> Result<Comments, Memory>
    ensures { IfOk result (λ cs. comments_told cs ≡ comments_told comments ++ comments_of (plain_lines lines.now)) }
{
    let mut all = comments;
    for line in lines {
        push_own(alloc, &mut all, line)?;
    }
    Ok(all)
}

/// The refusal of a line that stands between documents: of a directive, which the profile leaves out,
/// YamlOut, and of another YamlForm.
pub fn outside(alloc: Global, line: &Line) -> Stop
    ensures { result ≡ stop.Fault (outside_fault (plain_line line.now)) }
{
    if first(line.text.as_str()) == b'%' {
        refusal(alloc, FaultKind::YamlOut, line.place)
    } else {
        refusal(alloc, FaultKind::YamlForm, line.place)
    }
}

/// The comments of lines behind these, where the lines have no content.
fn only_comments(alloc: Global, comments: Comments, lines: &[Line]) -> Result<Comments, Stop>
    ensures { Gives comments_told result (only_comments (comments_told comments) (plain_lines lines.now)) }
{
    if let Some(line) = first_content(lines) {
        return Err(outside(alloc, line));
    }
    Ok(push_comments(alloc, comments, lines)?)
}

/// The comments behind these, where only comments stand behind a `...` and below it (YAML 1.2.2,
/// 9.1.3).

pub fn read_ended(alloc: Global, before: Comments, segment: Segment<'_>) -> Result<Comments, Stop>
    requires { is_stop (plain_line segment.marker.now) ≡ true }
    ensures { Gives comments_told result (ended_behind (comments_told before) (segment_of segment.entry)) }
{
    let marker = segment.marker;
    let text = behind_marker(marker);
    if text.is_empty() {
        return only_comments(alloc, before, segment.lines);
    }
    if first(text) != b'#' {
        return Err(refusal(alloc, FaultKind::YamlForm, marker.place));
    }
    if is_note(text) {
        return Err(refusal(alloc, FaultKind::YamlOut, marker.place));
    }
    let mut comments = before;
    push_comment(alloc, &mut comments, marker, false, text)?;
    only_comments(alloc, comments, segment.lines)
}
