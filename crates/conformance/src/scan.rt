// Words with spaces between, some of them in double quotes.

use std::alloc::{AllocError, Global};

/// Where the scan of a line is.
#[derive(Clone, Copy)]
enum Place {
    /// Before the first byte of a word.
    Start,
    Plain,
    Quoted,
    /// Behind a backslash.
    Escape,
    /// Behind `\x`, and behind its first digit.
    Hex,
    Low(u8),
    /// Behind the closing quote.
    Closed,
    /// Behind what has no such form.
    Wrong,
}

fn digit(byte: u8) -> Option<u8> {
    match byte {
        b'0'..=b'9' => Some(byte - b'0'),
        b'A'..=b'F' => Some(byte - b'A' + 10),
        _ => None,
    }
}

/// The byte that a backslash and this one stand for.
fn escaped(byte: u8) -> Option<u8> {
    match byte {
        b'n' => Some(b'\n'),
        b't' => Some(b'\t'),
        b'r' => Some(b'\r'),
        b'"' | b'\\' => Some(byte),
        _ => None,
    }
}

/// Where the scan is behind the first byte of a word, and the byte that the word gets, if it gets one.
fn begin(byte: u8) -> (Place, Option<u8>) {
    match byte {
        b'"' => (Place::Quoted, None),
        b' ' => (Place::Wrong, None),
        _ => (Place::Plain, Some(byte)),
    }
}

/// The same behind a further byte of a word that stands in no quotes.
fn go_on(byte: u8) -> (Place, Option<u8>) {
    match byte {
        b' ' => (Place::Start, None),
        b'"' => (Place::Wrong, None),
        _ => (Place::Plain, Some(byte)),
    }
}

/// The same behind a byte in quotes.
fn quoted(byte: u8) -> (Place, Option<u8>) {
    match byte {
        b'"' => (Place::Closed, None),
        b'\\' => (Place::Escape, None),
        _ => (Place::Quoted, Some(byte)),
    }
}

/// The same behind a byte that a backslash stands before.
fn escape(byte: u8) -> (Place, Option<u8>) {
    if byte == b'x' {
        return (Place::Hex, None);
    }
    match escaped(byte) {
        Some(byte) => (Place::Quoted, Some(byte)),
        None => (Place::Wrong, None),
    }
}

/// The same behind any byte.
fn step(place: Place, byte: u8) -> (Place, Option<u8>) {
    match place {
        Place::Start => begin(byte),
        Place::Plain => go_on(byte),
        Place::Quoted => quoted(byte),
        Place::Escape => escape(byte),
        Place::Hex => match digit(byte) {
            Some(high) => (Place::Low(high << 4), None),
            None => (Place::Wrong, None),
        },
        Place::Low(high) => match digit(byte) {
            Some(low) => (Place::Quoted, Some(high | low)),
            None => (Place::Wrong, None),
        },
        Place::Closed if byte == b' ' => (Place::Start, None),
        Place::Closed | Place::Wrong => (Place::Wrong, None),
    }
}

/// The words of a line, or nothing where it has no such form. An empty line has none.
pub fn words_of(alloc: Global, line: &str) -> Result<Option<Vec<Vec<u8>>>, AllocError> {
    let mut words = Vec::new(alloc);
    if line.is_empty() {
        return Ok(Some(words));
    }
    let mut word = Vec::new(alloc);
    let mut place = Place::Start;
    for byte in line.bytes() {
        let (behind, taken) = step(place, byte);
        if let Some(byte) = taken {
            word.push(byte)?;
        }
        if matches!(behind, Place::Start) {
            words.push(std::mem::replace(&mut word, Vec::new(alloc)))?;
        }
        place = behind;
    }
    if !matches!(place, Place::Plain | Place::Closed) {
        return Ok(None);
    }
    words.push(word)?;
    Ok(Some(words))
}
