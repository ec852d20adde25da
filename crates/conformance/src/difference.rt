// What differs from what is due, shown so that a person sees it.

use crate::rows::{Row, Steps};
use crate::run::{Ran, run_row, run_text};
use crate::stop::Stop;
use std::alloc::{AllocError, Global};

/// What is due of a run.
#[derive(Clone, Copy)]
struct Due<'a> {
    status: u8,
    out: &'a [u8],
    err: &'a [u8],
}

/// How many bytes of a text are shown before and behind the first that differs.
const BEFORE: usize = 60;

const BEHIND: usize = 140;

/// The first place at which two texts differ.
fn first_difference(left: &[u8], right: &[u8]) -> usize {
    for (at, (a, b)) in left.iter().zip(right.iter()).enumerate() {
        if a != b {
            return at;
        }
    }
    left.len().min(right.len())
}

fn push_char(alloc: Global, line: &mut String, c: char) -> Result<(), AllocError> {
    match c {
        '\n' => line.push_str("\\n"),
        '\t' => line.push_str("\\t"),
        '\r' => line.push_str("\\r"),
        '"' => line.push_str("\\\""),
        '\\' => line.push_str("\\\\"),
        c if c.is_control() => {
            let code = format!(in alloc; "\\x{:02X}", c as u32)?;
            line.push_str(code.as_str())
        }
        c => line.push(c),
    }
}

/// Puts bytes behind a text, so that a person sees each of them.
fn push_bytes(alloc: Global, line: &mut String, bytes: &[u8]) -> Result<(), AllocError> {
    for chunk in bytes.utf8_chunks() {
        for c in chunk.valid().chars() {
            push_char(alloc, line, c)?;
        }
        for byte in chunk.invalid() {
            let code = format!(in alloc; "\\x{byte:02X}")?;
            line.push_str(code.as_str())?;
        }
    }
    Ok(())
}

/// Puts a text in double quotes behind another, cut around a place where it is long.
fn push_shown(
    alloc: Global,
    line: &mut String,
    bytes: &[u8],
    place: usize,
) -> Result<(), AllocError> {
    let start = place.saturating_sub(BEFORE);
    let end = bytes.len().min(place.saturating_add(BEHIND));
    line.push_str(if start > 0 { "..\"" } else { "\"" })?;
    push_bytes(alloc, line, bytes.get(start..end).unwrap_or(bytes))?;
    line.push_str(if end < bytes.len() { "\".." } else { "\"" })
}

/// Puts a line behind the others for a stream that differs.
fn push_stream(
    alloc: Global,
    lines: &mut String,
    name: &str,
    is: &[u8],
    due: &[u8],
) -> Result<(), AllocError> {
    if is == due {
        return Ok(());
    }
    let place = first_difference(is, due);
    lines.push_str(name)?;
    lines.push_str(" is ")?;
    push_shown(alloc, lines, is, place)?;
    lines.push_str(" and not ")?;
    push_shown(alloc, lines, due, place)?;
    let end = format!(in alloc; ", from byte {place} on\n")?;
    lines.push_str(end.as_str())
}

/// Puts a line behind the others for a status that differs.
fn push_status(alloc: Global, lines: &mut String, is: u8, due: u8) -> Result<(), AllocError> {
    if is == due {
        return Ok(());
    }
    let line = format!(in alloc; "status is {is} and not {due}\n")?;
    lines.push_str(line.as_str())
}

/// A line for each difference of what a run left from what is due, or nothing.
fn compared(alloc: Global, ran: &Ran, due: Due<'_>) -> Result<String, AllocError> {
    let mut lines = String::new(alloc);
    push_differing(alloc, &mut lines, ran, due)?;
    Ok(lines)
}

fn push_differing(
    alloc: Global,
    lines: &mut String,
    ran: &Ran,
    due: Due<'_>,
) -> Result<(), AllocError> {
    push_status(alloc, lines, ran.status, due.status)?;
    push_stream(alloc, lines, "out", ran.out.bytes(), due.out)?;
    push_stream(alloc, lines, "err", ran.err.bytes(), due.err)
}

/// Puts each of the lines behind the text, behind a few words.
fn push_lines(text: &mut String, about: &str, lines: &str) -> Result<(), AllocError> {
    for line in lines.split_inclusive('\n') {
        text.push_str(about)?;
        text.push_str(line)?;
    }
    Ok(())
}

/// Puts a line for each difference behind the text, behind a few words.
fn push_compared(
    alloc: Global,
    text: &mut String,
    about: &str,
    ran: &Ran,
    due: Due<'_>,
) -> Result<(), AllocError> {
    let lines = compared(alloc, ran, due)?;
    push_lines(text, about, lines.as_str())
}

/// Runs the row with so many steps, if there are any, and puts a line for each difference behind the text.
fn push_run(
    alloc: Global,
    text: &mut String,
    about: &str,
    row: &Row,
    steps: Option<u64>,
    due: Due<'_>,
) -> Result<(), Stop> {
    let ran = run_row(alloc, row, steps)?;
    push_compared(alloc, text, about, &ran, due)?;
    Ok(())
}

/// Runs the row with one step less than just suffices, which is to be short where the row says.
fn short(alloc: Global, row: &Row, steps: &Steps, text: &mut String) -> Result<(), Stop> {
    let less = steps.enough.saturating_sub(1);
    let err = format!(in alloc; "error: Steps at {}\n", steps.place.as_str())?;
    let due = Due {
        status: 1,
        out: b"",
        err: err.as_bytes(),
    };
    push_run(alloc, text, "with one step less ", row, Some(less), due)
}

/// Renders what the row prints, which is to give itself.
fn again(alloc: Global, out: &[u8], text: &mut String) -> Result<(), Stop> {
    let ran = run_text(alloc, out)?;
    let due = Due {
        status: 0,
        out,
        err: b"",
    };
    push_compared(alloc, text, "printed again ", &ran, due)?;
    Ok(())
}

/// Runs the row as it stands.
fn run_once(alloc: Global, row: &Row, text: &mut String) -> Result<(), Stop> {
    let enough = row.steps.as_ref().map(|steps| steps.enough);
    let due = Due {
        status: row.status,
        out: row.out.as_slice(),
        err: row.err.as_slice(),
    };
    push_run(alloc, text, "", row, enough, due)
}

/// Runs the row with fewer steps, and the documents that it prints once more, where that is due.
fn run_further(alloc: Global, row: &Row, text: &mut String) -> Result<(), Stop> {
    if let Some(steps) = &row.steps {
        short(alloc, row, steps, text)?;
    }
    if row.status == 0 && !row.prints_listing() {
        again(alloc, row.out.as_slice(), text)?;
    }
    Ok(())
}

fn run_whole(alloc: Global, row: &Row, text: &mut String) -> Result<(), Stop> {
    run_once(alloc, row, text)?;
    run_further(alloc, row, text)
}

/// What the row gives in place of what is due, a line for each difference.
pub fn differences(alloc: Global, row: &Row) -> Result<String, Stop> {
    let mut text = String::new(alloc);
    run_whole(alloc, row, &mut text)?;
    Ok(text)
}
