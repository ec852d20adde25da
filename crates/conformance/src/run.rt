// A command line over files and sinks in memory.

use crate::rows::{Row, SinkFails};
use crate::stop::Stop;
use sqlite_items::Items;
use std::alloc::Global;
use ytt_base::text::Memory;
use ytt_main::ytt_main;
use ytt_outside::mem_files::MemFiles;
use ytt_outside::mem_sink::MemSink;

/// What a run left.
#[derive(Drop)]
pub struct Ran {
    pub status: u8,
    pub out: MemSink,
    pub err: MemSink,
}

/// A sink that fails as the row says, with the room that it gives or else that for a text of so many
/// bytes and a good deal more.
fn sink(alloc: Global, fails: &SinkFails, due: usize) -> Result<MemSink, Stop> {
    let points = Items::from_slice(alloc, fails.points.as_slice())?;
    let ample = (due as u64).saturating_add(1 << 20);
    Ok(MemSink::new(alloc, points, fails.room.unwrap_or(ample))?)
}

/// Adds a file where none stands. It says whether that is so.
fn add(alloc: Global, files: &mut MemFiles, path: &str, bytes: &[u8]) -> Result<bool, Memory> {
    if !files.is_free(path) {
        return Ok(false);
    }
    files.add(alloc, path, bytes)?;
    Ok(true)
}

fn files(alloc: Global, row: &Row) -> Result<MemFiles, Stop> {
    let fails = Items::from_slice(alloc, row.files_fail.as_slice())?;
    let mut files = MemFiles::new(alloc, fails);
    for (path, bytes) in &row.files {
        if !add(alloc, &mut files, path.as_str(), bytes.as_slice())? {
            return Err(Stop::Form(row.line, "a file where another stands"));
        }
    }
    Ok(files)
}

/// Runs the words, and gives the exit status.
fn status_of(
    alloc: Global,
    words: &[String],
    files: &mut MemFiles,
    out: &mut MemSink,
    err: &mut MemSink,
) -> u8 {
    ytt_main(alloc, words, files, out, err).code()
}

/// Runs the words over what the row says of the outside.
pub fn run_words(alloc: Global, row: &Row, words: &[String]) -> Result<Ran, Stop> {
    let mut files = files(alloc, row)?;
    let mut out = sink(alloc, &row.out_fails, row.out.len())?;
    let mut err = sink(alloc, &row.err_fails, row.err.len())?;
    let status = status_of(alloc, words, &mut files, &mut out, &mut err);
    Ok(Ran { status, out, err })
}

/// Puts the option for a budget of steps behind the words.
fn put_steps(alloc: Global, words: &mut Vec<String>, steps: u64) -> Result<(), Stop> {
    words.push(String::from_str(alloc, "--steps")?)?;
    words.push(format!(in alloc; "{steps}")?)?;
    Ok(())
}

/// Puts the words of the row behind the others, and behind them a budget of steps if there is one.
fn put_words(
    alloc: Global,
    words: &mut Vec<String>,
    row: &Row,
    steps: Option<u64>,
) -> Result<(), Stop> {
    for word in &row.words {
        words.push(word.clone()?)?;
    }
    match steps {
        Some(steps) => put_steps(alloc, words, steps),
        None => Ok(()),
    }
}

/// Runs the words of the row, and behind them a budget of steps if there is one.
pub fn run_row(alloc: Global, row: &Row, steps: Option<u64>) -> Result<Ran, Stop> {
    let mut words = Vec::new(alloc);
    put_words(alloc, &mut words, row, steps)?;
    run_words(alloc, row, words.as_slice())
}

/// Renders a text as the file `a.yml`.
pub fn run_text(alloc: Global, text: &[u8]) -> Result<Ran, Stop> {
    let row = Row::of_text(alloc, text)?;
    run_words(alloc, &row, row.words.as_slice())
}
