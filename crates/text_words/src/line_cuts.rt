// The lines of a text.
ghost use Rattle.std.specs.Prelude.{◌≡◌, IfOk, drop, length};
ghost use Rattle.text_spec.specs.Classes.{behind, front};
ghost use Rattle.text_spec.specs.Cutting.{end_length, is_line_byte, line_with, lines};
ghost use Rattle.text_spec.specs.Texts.{texts_of};

use crate::runs::{End, Run, split_run};
use sqlite_items::Items;
use std::alloc::Global;
use ytt_base::text::Memory;

/// How many bytes end a line, of what stands behind it.
fn end_len(bytes: &[u8]) -> usize
    ensures { result ≡ end_length bytes.now }
{
    match bytes {
        [] => 0,
        [b'\r', b'\n', ..] => 2,
        _ => 1,
    }
}

/// The first line, with its end if that is kept, and what stands behind its end.
fn split_line(keep: bool, text: &str) -> (&str, &str)
    ensures line { result.0.now ≡ line_with keep (front is_line_byte text.now) (behind is_line_byte text.now) }
    ensures rest { result.1.now ≡ drop (end_length (behind is_line_byte text.now)) (behind is_line_byte text.now) }
{
    let (line, behind) = split_run(End::Front, Run::Line, text);
    let (whole, rest) = text.split_at(line.len() + end_len(behind.as_bytes()));
    (if keep { whole } else { line }, rest)
}

/// The lines of a text, each with its end if `keep`. A line ends with LF, CR or CRLF; behind the last end there is no further
/// one. The only error is want of memory.
pub fn lines<'t>(alloc: Global, keep: bool, text: &'t str) -> Result<Items<&'t str>, Memory>
    ensures { IfOk result (λ ls. texts_of ls ≡ lines keep (length text.now) text.now) }
{
    let mut lines = Items::new(alloc);
    let mut rest = text;
    while !rest.is_empty() {
        let (line, more) = split_line(keep, rest);
        lines.push(line)?;
        rest = more;
    }
    Ok(lines)
}
