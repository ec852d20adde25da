// Rows of an archive.

use crate::archive::Section;
use crate::many::{many_in, numbered_path, numbered_text};
use crate::rule::ruled;
use crate::scan::words_of;
use crate::stop::Stop;
use sqlite_items::Items;
use std::alloc::{AllocError, Global};
use std::collections::BTreeSet;
use ytt_outside::files::{Files, Got};
use ytt_outside::mem_files::Numbers;
use ytt_outside::mem_sink::{FailPoint, FailPoints};

/// The longest file that is read, in bytes.
const LONGEST: u64 = 1 << 26;

/// How a sink is made: the calls that fail, and its room if that is given.
#[derive(Drop)]
pub struct SinkFails {
    pub points: FailPoints,
    pub room: Option<u64>,
}

impl SinkFails {
    fn none(alloc: Global) -> SinkFails {
        SinkFails {
            points: Items::new(alloc),
            room: None,
        }
    }

    /// Takes `room N`, or `N after M`. It says whether it is one of them.
    fn take(&mut self, text: &str) -> Result<bool, Stop> {
        if let Some(room) = text.strip_prefix("room ") {
            self.room = room.parse::<u64>().ok();
            return Ok(self.room.is_some());
        }
        let Some((call, taken)) = text.split_once(" after ") else {
            return Ok(false);
        };
        match (call.parse::<u64>(), taken.parse::<u64>()) {
            (Ok(call), Ok(taken)) => {
                self.points.push(FailPoint { call, taken })?;
                Ok(true)
            }
            _ => Ok(false),
        }
    }
}

/// The budget that just suffices, and where one step less is short.
#[derive(Drop)]
pub struct Steps {
    pub enough: u64,
    pub place: String,
}

/// A command line, the outside that it meets, and what is due.
#[derive(Drop)]
pub struct Row {
    pub title: String,
    pub line: u64,
    /// The names below which a text stands.
    names: BTreeSet<String>,
    pub words: Vec<String>,
    pub files: Vec<(String, Vec<u8>)>,
    pub files_fail: Numbers,
    pub out_fails: SinkFails,
    pub err_fails: SinkFails,
    pub steps: Option<Steps>,
    pub out: Vec<u8>,
    pub err: Vec<u8>,
    pub status: u8,
}

impl Row {
    /// The row `render -f a.yml`, over no files, to which nothing is due.
    fn new(alloc: Global, title: &str, line: u64) -> Result<Row, Stop> {
        let title = String::from_str(alloc, title)?;
        let words = words_in(alloc, "render -f a.yml", line)?;
        Ok(Row {
            title,
            line,
            names: BTreeSet::new(alloc),
            words,
            files: Vec::new(alloc),
            files_fail: Items::new(alloc),
            out_fails: SinkFails::none(alloc),
            err_fails: SinkFails::none(alloc),
            steps: None,
            out: Vec::new(alloc),
            err: Vec::new(alloc),
            status: 0,
        })
    }
}

/// The bytes of the file at a path of the folder where it runs.
pub fn read_file(
    alloc: Global,
    outside: &mut impl Files,
    path: &str,
    line: u64,
) -> Result<Vec<u8>, Stop> {
    match outside.read(alloc, path, LONGEST) {
        Ok(Got::Bytes(bytes)) => Ok(Vec::from_slice(alloc, bytes.as_slice())?),
        Ok(Got::TooLarge) => Err(Stop::Form(line, "a file that is too large")),
        _ => Err(Stop::Form(line, "no file that can be read")),
    }
}

/// The name that a section gives a text to, and the text.
fn part_of<'a>(
    alloc: Global,
    outside: &mut impl Files,
    section: &'a Section,
) -> Result<(&'a str, Vec<u8>), Stop> {
    let marked = section.name.as_str();
    if let Some(name) = marked.strip_suffix(" by rule") {
        let first = section.line.saturating_add(1);
        return Ok((name, ruled(alloc, section.text.as_str(), first)?));
    }
    if let Some((name, path)) = marked.split_once(" from ") {
        if !section.text.is_empty() {
            return Err(Stop::Form(section.line, "a text below a text from a file"));
        }
        return Ok((name, read_file(alloc, outside, path, section.line)?));
    }
    Ok((marked, Vec::from_slice(alloc, section.text.as_bytes())?))
}

fn words_in(alloc: Global, text: &str, line: u64) -> Result<Vec<String>, Stop> {
    let Some(all) = words_of(alloc, text)? else {
        return Err(Stop::Form(line, "no words"));
    };
    let mut words = Vec::new(alloc);
    for word in all {
        match String::from_utf8(word) {
            Ok(word) => words.push(word)?,
            Err(_) => return Err(Stop::Form(line, "a word that is no UTF-8")),
        }
    }
    Ok(words)
}

/// `N FILE:LINE`
fn steps_in(alloc: Global, text: &str) -> Result<Option<Steps>, Stop> {
    let Some((enough, place)) = text.split_once(' ') else {
        return Ok(None);
    };
    let Ok(enough) = enough.parse::<u64>() else {
        return Ok(None);
    };
    let place = String::from_str(alloc, place)?;
    Ok(Some(Steps { enough, place }))
}

impl Row {
    /// Takes a text as the file `a.yml`, and as what is due.
    fn take_text(&mut self, alloc: Global, text: &[u8]) -> Result<(), Stop> {
        let bytes = Vec::from_slice(alloc, text)?;
        self.take_file(alloc, "a.yml", bytes)?;
        self.out = Vec::from_slice(alloc, text)?;
        Ok(())
    }

    /// Whether what is printed is a listing, and no documents.
    pub fn prints_listing(&self) -> bool {
        match self.words.as_slice().first() {
            Some(word) => word.as_str() == "compile",
            None => false,
        }
    }

    /// The row of a text as the file `a.yml`, which is to give itself.
    pub fn of_text(alloc: Global, text: &[u8]) -> Result<Row, Stop> {
        let mut row = Row::new(alloc, "", 0)?;
        row.take_text(alloc, text)?;
        Ok(row)
    }

    /// Takes a line of `fails`. It says whether it is one.
    fn take_fail(&mut self, text: &str) -> Result<bool, Stop> {
        if let Some(text) = text.strip_prefix("out ") {
            return self.out_fails.take(text);
        }
        if let Some(text) = text.strip_prefix("err ") {
            return self.err_fails.take(text);
        }
        match text.strip_prefix("files ").map(|call| call.parse::<u64>()) {
            Some(Ok(call)) => {
                self.files_fail.push(call)?;
                Ok(true)
            }
            _ => Ok(false),
        }
    }

    /// Takes an exit status. It says whether it is one.
    fn take_status(&mut self, text: &str) -> bool {
        match text.parse::<u8>() {
            Ok(status) => {
                self.status = status;
                true
            }
            Err(_) => false,
        }
    }

    /// Takes what isn't taken as it stands: `words`, `status`, `steps` and `fails`. It says whether it has that form.
    fn take_line(
        &mut self,
        alloc: Global,
        name: &str,
        text: &str,
        line: u64,
    ) -> Result<bool, Stop> {
        match name {
            "words" => {
                self.words = words_in(alloc, text, line)?;
                Ok(true)
            }
            "steps" => {
                self.steps = steps_in(alloc, text)?;
                Ok(self.steps.is_some())
            }
            "fails" => self.take_fail(text),
            _ => Ok(self.take_status(text)),
        }
    }

    /// Takes the lines below one of these names.
    fn take_lines(
        &mut self,
        alloc: Global,
        name: &str,
        text: Vec<u8>,
        line: u64,
    ) -> Result<(), Stop> {
        let Ok(text) = String::from_utf8(text) else {
            return Err(Stop::Form(line, "a line that is no UTF-8"));
        };
        if name == "words" && text.is_empty() {
            self.words = Vec::new(alloc);
        }
        for text in text.as_str().lines() {
            if !self.take_line(alloc, name, text, line)? {
                return Err(Stop::Form(line, "a line of another form"));
            }
        }
        Ok(())
    }

    fn take_file(&mut self, alloc: Global, name: &str, text: Vec<u8>) -> Result<(), AllocError> {
        let path = String::from_str(alloc, name)?;
        self.files.push((path, text))?;
        Ok(())
    }

    /// Takes so many files of one text, with their numbers from 1 in their paths, and the next one's in their texts.
    fn take_many(
        &mut self,
        alloc: Global,
        count: u64,
        path: &str,
        text: &[u8],
    ) -> Result<(), AllocError> {
        for before in 0..count {
            let number = before.saturating_add(1);
            let path = numbered_path(alloc, path, number, count)?;
            let text = numbered_text(alloc, text, number, count)?;
            self.take_file(alloc, path.as_str(), text)?;
        }
        Ok(())
    }

    /// Takes the file of a name, or the files that it gives.
    fn take_files(&mut self, alloc: Global, name: &str, text: Vec<u8>) -> Result<(), AllocError> {
        match many_in(name) {
            Some((count, path)) => self.take_many(alloc, count, path, text.as_slice()),
            None => self.take_file(alloc, name, text),
        }
    }

    /// Takes the text below a name.
    fn take(&mut self, alloc: Global, name: &str, text: Vec<u8>, line: u64) -> Result<(), Stop> {
        if !self.names.insert(String::from_str(alloc, name)?)? {
            return Err(Stop::Form(line, "a name that stands twice"));
        }
        match name {
            "out" => self.out = text,
            "err" => self.err = text,
            "words" | "status" | "steps" | "fails" => {
                return self.take_lines(alloc, name, text, line);
            }
            _ => self.take_files(alloc, name, text)?,
        }
        Ok(())
    }
}

/// Takes a section: a new row, or a part of the last one.
fn take_section(
    alloc: Global,
    outside: &mut impl Files,
    rows: &mut Vec<Row>,
    section: &Section,
) -> Result<(), Stop> {
    if let Some(title) = section.title() {
        rows.push(Row::new(alloc, title, section.line)?)?;
        return Ok(());
    }
    let (name, text) = part_of(alloc, outside, section)?;
    match rows.last_mut() {
        Some(row) => row.take(alloc, name, text, section.line),
        None => Err(Stop::Form(section.line, "a text before the first row")),
    }
}

/// The rows of an archive.
pub fn rows_of(
    alloc: Global,
    outside: &mut impl Files,
    sections: &[Section],
) -> Result<Vec<Row>, Stop> {
    let mut rows: Vec<Row> = Vec::new(alloc);
    for section in sections {
        take_section(alloc, outside, &mut rows, section)?;
    }
    Ok(rows)
}
