// The lines of a text.
ghost use Rattle.std.specs.Prelude.{◌≡◌, ◌<◌, ◌^◌, [], ◌∷◌, ◌++◌, IfOk, OnOk, length};
ghost use Rattle.ytt_base.specs.declared.fault.FaultKind.TheVariants as kind;
ghost use Rattle.ytt_base.specs.Outcomes.{Gives, fault_at};
ghost use Rattle.yaml_spec.specs.Lines.{Lines, first_failing, has_good_chars, lines_of};
ghost use Rattle.yaml_spec.specs.Held.{plain_line, plain_lines};
ghost use Rattle.yaml_spec.specs.Indents.{HasIndent, HaveIndents};
ghost use Rattle.yaml_lines.specs.Utf8.{utf8_line, utf8_lines};

use crate::characters::{has_good_chars, indent};
use crate::ends::{skip_mark, split_line};
use sqlite_items::Items;
use std::alloc::Global;
use std::str;
use yaml_text::refusal;
use ytt_base::fault::{FaultKind, Place, Stop};
use ytt_base::line::{Line, Lines};
use ytt_base::text::{Memory, Text};

/// A line of its own. One that isn't UTF-8 is NotUtf8 at its place.
#[tactic(auto, using(crate::proofs::Cutting::utf8_tests))]
fn read_line(alloc: Global, bytes: &[u8], place: Place) -> Result<Line, Stop>
    requires { length bytes.now < 2 ^ 32 }
    ensures line { Gives plain_line result (utf8_line place bytes.now) }
    ensures indent { IfOk result (λ l. HasIndent l) }
{
    match str::from_utf8(bytes) {
        Ok(text) => Ok(Line {
            place,
            indent: indent(bytes),
            text: Text::of(alloc, text)?,
        }),
        Err(_) => Err(refusal(alloc, FaultKind::NotUtf8, place)),
    }
}

fn push_line(lines: &mut Lines, line: Line) -> Result<(), Memory>
    ensures { OnOk result (lines.new ≡ lines.old ++ line ∷ []) }
{
    lines.push(line)?;
    Ok(())
}

/// The lines of a text, whatever characters stand in them.
#[tactic(auto, using(crate::proofs::Cutting::cutting))]
fn utf8_lines(alloc: Global, bytes: &[u8], file: u32) -> Result<Lines, Stop>
    requires { length bytes.now < 2 ^ 32 }
    ensures lines { Gives plain_lines result (utf8_lines (lines_of file bytes.now)) }
    ensures indents { IfOk result (λ ls. HaveIndents ls) }
{
    let mut lines: Lines = Items::new(alloc);
    let mut rest = skip_mark(bytes);
    let mut number = 1u64;
    while !rest.is_empty() {
        let (text, others) = split_line(rest);
        let place = Place {
            file,
            line: number as u32,
        };
        let line = read_line(alloc, text, place)?;
        push_line(&mut lines, line)?;
        rest = others;
        number += 1;
    }
    Ok(lines)
}

/// The place of the first line with a character that may not stand.
fn first_bad(lines: &Lines) -> Option<Place>
    ensures { result ≡ first_failing has_good_chars (plain_lines lines.now) }
{
    for line in lines.as_slice() {
        if !has_good_chars(line.text.as_str()) {
            return Some(line.place);
        }
    }
    None
}

/// The lines of a text, without their ends, each with its place and indent.
///
/// `bytes` is the text and `file` the number of its file, which a place names; lines are numbered
/// from 1. A byte order mark at the start is skipped. A line ends with a line feed, or with a
/// carriage return and a line feed, and the end of the text ends a line that has a byte (YAML
/// 1.2.2, 5.2 and 5.4). The indent is the number of spaces at a line's start, in bytes.
///
/// The first line that isn't UTF-8 is the fault NotUtf8 at its place. Where all are, the first line
/// with a character that is neither printable nor a tab (5.1) is BadChar at its place; so a
/// carriage return before anything but a line feed is one. Want of memory is `Stop::Memory`.
#[tactic(auto, using(crate::proofs::Cutting::checking))]
pub fn cut_lines(alloc: Global, bytes: &[u8], file: u32) -> Result<Lines, Stop>
    requires { length bytes.now < 2 ^ 32 }
    ensures lines { Gives plain_lines result (Lines file bytes.now) }
    ensures indents { IfOk result (λ ls. HaveIndents ls) }
{
    let lines = utf8_lines(alloc, bytes, file)?;
    match first_bad(&lines) {
        Some(place) => Err(refusal(alloc, FaultKind::BadChar, place)),
        None => Ok(lines),
    }
}
