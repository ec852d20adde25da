// Block scalars at a place in a text.
ghost use Rattle.std.specs.Prelude.{◌≡◌, ◌==◌, ◌+◌, ◌<◌, ◌≤◌, ◌^◌, IfOk, length, true};
ghost use Rattle.ytt_base.specs.Outcomes.{Gives};
ghost use Rattle.yaml_spec.specs.Blocks.{Block, block_text};
ghost use Rattle.yaml_spec.specs.Held.{plain_lines};
ghost use Rattle.yaml_spec.specs.Openers.{starts_block};
ghost use Rattle.yaml_blocks.specs.BlockLines.{contents_of, end_at, lines_read};
ghost use Rattle.yaml_blocks.specs.BlockView.{held_chomp};
ghost use Rattle.yaml_text.specs.View.{cursor_of};

use crate::blocktext::BlockText;
use crate::header::{Chomp, Header, ends_header, read_header};
use crate::indent::{content, content_indent};
use std::alloc::Global;
use yaml_text::{Cursor, behind, first, refusal, skip_white};
use ytt_base::fault::{FaultKind, Place, Stop};
use ytt_base::line::Line;
use ytt_base::text::{Memory, Text};

/// The text of the lines that belong to a scalar of this content indent, and how many they are.
fn read_body(
    alloc: Global,
    is_literal: bool,
    chomp: Chomp,
    indent: Option<usize>,
    below: &[Line],
) -> Result<(Text, usize), Memory>
    ensures text { IfOk result (λ r. r.0 ≡ block_text is_literal (held_chomp chomp) (contents_of indent (plain_lines below.now))) }
    ensures size { IfOk result (λ r. r.1 ≡ length (contents_of indent (plain_lines below.now))) }
{
    let mut block = BlockText::new(alloc, is_literal);
    for (at, line) in below.iter().enumerate() {
        let Some(content) = content(indent, line.text.as_str()) else {
            return Ok((block.finish(chomp)?, at));
        };
        block.add(content)?;
    }
    Ok((block.finish(chomp)?, below.len()))
}

/// The text of the lines of a block scalar, and how many they are.
fn read_below(
    alloc: Global,
    is_literal: bool,
    header: Header<'_>,
    least: usize,
    below: &[Line],
) -> Result<(Text, usize), Stop>
    requires small { header.digit ≤ 9 }
    requires bound { least ≤ 2 ^ 63 }
    ensures read { Gives (λ r. (r.0, r.1)) result (lines_read is_literal (held_chomp header.entry.chomp) least header.entry.digit (plain_lines below.now)) }
    ensures within { IfOk result (λ r. r.1 ≤ length below.now) }
{
    let indent = content_indent(alloc, least, header.digit, below)?;
    Ok(read_body(alloc, is_literal, header.chomp, indent, below)?)
}

/// The text of a block scalar, the comment on the line of its header, and how many lines it has below
/// that line.
pub fn read_lines<'a>(
    alloc: Global,
    least: usize,
    cursor: Cursor<'a>,
) -> Result<(Text, &'a str, usize), Stop>
    requires opens { starts_block cursor.text.now ≡ true }
    requires bound { least ≤ 2 ^ 63 }
    ensures read { Gives (λ r. (r.0, r.1.now, end_at (cursor_of cursor.entry) r.2)) result (Block least (cursor_of cursor.entry)) }
    ensures within { IfOk result (λ r. r.2 ≤ length cursor.entry.below.now) }
{
    let header = read_header(behind(cursor.text, 1));
    if !ends_header(header.rest) {
        return Err(refusal(alloc, FaultKind::YamlForm, cursor.place));
    }
    let is_literal = first(cursor.text) == b'|';
    let (text, size) = read_below(alloc, is_literal, header, least, cursor.below)?;
    Ok((text, skip_white(header.rest), size))
}

/// The string of the block scalar at `|` or `>`, the comment on the line of its header, which is
/// empty where there is none, and the place behind it (YAML 1.2.2, 8.1). Its lines have at least the
/// indent `least`.
pub fn read_block_at<'a>(
    alloc: Global,
    least: usize,
    cursor: Cursor<'a>,
) -> Result<(Text, &'a str, Cursor<'a>), Stop>
    requires opens { starts_block cursor.text.now ≡ true }
    requires bound { least ≤ 2 ^ 63 }
    requires fits { cursor.place.line + length cursor.below.now < 2 ^ 32 }
    ensures { Gives (λ r. (r.0, r.1.now, cursor_of r.2)) result (Block least (cursor_of cursor.entry)) }
{
    let (text, comment, size) = read_lines(alloc, least, cursor)?;
    let place = Place {
        file: cursor.place.file,
        line: cursor.place.line + size as u32,
    };
    let end = Cursor {
        place,
        text: "",
        below: &cursor.below[size..],
    };
    Ok((text, comment, end))
}
