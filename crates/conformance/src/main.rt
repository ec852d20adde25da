//! Runs rows: command lines that are written down as text, over files and sinks in memory. It writes a line for each difference
//! from what is due and a last line that counts, and ends with the status 1 where one differs or an archive has no such form.
//!
//! **An archive** is a file `NAME.txtar` where it runs, in the form of Go's tools: a comment, and then again and again a line
//! that is exactly `-- NAME --` and the text below it as it stands. **A row** begins at `-- row TITLE --`. Below it `words` is
//! the command line, without it `render -f a.yml`; `out`, `err` and `status` what is due, without them nothing and 0; `steps`
//! holds `N FILE:LINE`, the budget that just suffices and where one step less is short; `fails` what fails, by lines as `files 2`,
//! `out 1 after 3` and `err room 22`; any other name is a file in memory, and `N files PATH`, as `20 files d/#.yml`, so many of one
//! text, with the numbers from 1 for each `#`, all of the last one's length; `{next}` in the text is the next file's number.
//!
//! Below `-- NAME by rule --` stands a rule on each line, `text "..."`, `repeat N "..."`, `indented N "..."` or `numbered N "..."`,
//! and `-- NAME from PATH --` takes the text of a file where it runs. In double quotes, in a rule and in `words`, may stand
//! spaces and `\n`, `\t`, `\r`, `\"`, `\\`, `\xHH`. The documents that a row with the status 0 prints are rendered once more and have
//! to give themselves; a listing isn't. The page `docs/conformance.md` says all of this at length.
#![tactic(auto)]

mod archive;
mod difference;
mod many;
mod rows;
mod rule;
mod run;
mod scan;
mod stop;

use crate::archive::sections;
use crate::difference::differences;
use crate::rows::{Row, read_file, rows_of};
use crate::stop::Stop;
use std::alloc::{AllocError, Global};
use std::io;
use std::process::ExitCode;
use ytt_outside::files::Files;
use ytt_outside::host_files::HostFiles;

/// How many rows there are, and how many of them differ.
#[derive(Clone, Copy)]
struct Count {
    rows: u64,
    differ: u64,
}

/// Puts a line for each difference of a row behind the text, with where the row stands.
fn push_wrong(
    alloc: Global,
    wrong: &mut String,
    name: &str,
    row: &Row,
    lines: &str,
) -> Result<(), AllocError> {
    let title = row.title.as_str();
    for line in lines.split_inclusive('\n') {
        let line = format!(in alloc; "{name}:{} {title}: {line}", row.line)?;
        wrong.push_str(line.as_str())?;
    }
    Ok(())
}

/// Runs a row, and puts a line for each difference behind the text.
fn run_counted(
    alloc: Global,
    wrong: &mut String,
    name: &str,
    row: &Row,
    count: &mut Count,
) -> Result<(), Stop> {
    let lines = differences(alloc, row)?;
    count.rows = count.rows.saturating_add(1);
    if lines.is_empty() {
        return Ok(());
    }
    count.differ = count.differ.saturating_add(1);
    push_wrong(alloc, wrong, name, row, lines.as_str())?;
    Ok(())
}

/// The rows of an archive's file.
fn read_rows(alloc: Global, outside: &mut impl Files, name: &str) -> Result<Vec<Row>, Stop> {
    let archive = read_file(alloc, outside, name, 1)?;
    let Ok(archive) = String::from_utf8(archive) else {
        return Err(Stop::Form(1, "no UTF-8"));
    };
    let sections = sections(alloc, archive.as_str())?;
    rows_of(alloc, outside, sections.as_slice())
}

/// Runs the rows of an archive, and gives a line for each difference.
fn run_archive(
    alloc: Global,
    outside: &mut impl Files,
    name: &str,
    count: &mut Count,
) -> Result<String, Stop> {
    let mut wrong = String::new(alloc);
    let rows = read_rows(alloc, outside, name)?;
    for row in rows.as_slice() {
        run_counted(alloc, &mut wrong, name, row, count)?;
    }
    Ok(wrong)
}

/// Writes what an archive gave, and says whether it has the form of an archive.
fn show<R: Print>(rt: &R, name: &str, given: Result<String, Stop>) -> io::Result<bool> {
    match given {
        Ok(wrong) => {
            print!(rt; "{wrong}")?;
            Ok(true)
        }
        Err(Stop::Form(line, what)) => {
            println!(rt; "{name}:{line}: {what}")?;
            Ok(false)
        }
        Err(Stop::Memory) => {
            println!(rt; "{name}: out of memory")?;
            Ok(false)
        }
    }
}

/// Runs an archive, if a file of this name is one, and says whether it has the form of an archive.
fn run_named<R: Print + AllocGlobal>(
    rt: &R,
    outside: &mut impl Files,
    name: &str,
    count: &mut Count,
) -> io::Result<bool> {
    if !name.ends_with(".txtar") {
        return Ok(true);
    }
    let given = run_archive(rt.alloc(), outside, name, count);
    show(rt, name, given)
}

/// Runs all archives, and says whether each row gives what is due.
fn run_archives<R: Print + AllocGlobal>(rt: &R, outside: &mut impl Files) -> io::Result<bool> {
    let Ok(names) = outside.list(rt.alloc(), ".") else {
        println!(rt; "the folder can't be read")?;
        return Ok(false);
    };
    let mut count = Count { rows: 0, differ: 0 };
    let mut is_right = true;
    for name in names.as_slice() {
        if !run_named(rt, outside, name.as_str(), &mut count)? {
            is_right = false;
        }
    }
    println!(rt; "{} rows, {} differ", count.rows, count.differ)?;
    Ok(is_right && count.differ == 0)
}

fn main(rt: HostRuntime) -> ExitCode {
    let mut outside = HostFiles::new(rt);
    match run_archives(&rt, &mut outside) {
        Ok(true) => ExitCode::SUCCESS,
        _ => ExitCode::FAILURE,
    }
}
