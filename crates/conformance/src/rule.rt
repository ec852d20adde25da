// Texts that are given by rules.

use crate::scan::words_of;
use crate::stop::Stop;
use std::alloc::{AllocError, Global};
use std::str;

fn number_of(word: &[u8]) -> Option<u64> {
    str::from_utf8(word).ok()?.parse::<u64>().ok()
}

fn push_indented(all: &mut Vec<u8>, count: u64, text: &[u8]) -> Result<(), AllocError> {
    for level in 0..count {
        for _ in 0..level {
            all.extend_from_slice(b"  ")?;
        }
        all.extend_from_slice(text)?;
    }
    Ok(())
}

/// The text with this one in the place of each `{}`.
fn push_filled(all: &mut Vec<u8>, filling: &str, text: &str) -> Result<(), AllocError> {
    for (at, part) in text.split("{}").enumerate() {
        if at > 0 {
            all.extend_from_slice(filling.as_bytes())?;
        }
        all.extend_from_slice(part.as_bytes())?;
    }
    Ok(())
}

/// The text with each number in turn in the place of each `{}`.
fn push_numbered(
    alloc: Global,
    all: &mut Vec<u8>,
    count: u64,
    text: &str,
) -> Result<(), AllocError> {
    for number in 0..count {
        let number = format!(in alloc; "{number}")?;
        push_filled(all, number.as_str(), text)?;
    }
    Ok(())
}

fn push_repeated(all: &mut Vec<u8>, count: u64, text: &[u8]) -> Result<(), AllocError> {
    for _ in 0..count {
        all.extend_from_slice(text)?;
    }
    Ok(())
}

/// Puts what a rule of this name gives for a count and a text. It says whether it is a rule.
fn push_counted(
    alloc: Global,
    all: &mut Vec<u8>,
    name: &[u8],
    count: u64,
    text: &[u8],
) -> Result<bool, AllocError> {
    if name == b"repeat".as_slice() {
        push_repeated(all, count, text)?;
        return Ok(true);
    }
    if name == b"indented".as_slice() {
        push_indented(all, count, text)?;
        return Ok(true);
    }
    match str::from_utf8(text) {
        Ok(text) if name == b"numbered".as_slice() => {
            push_numbered(alloc, all, count, text)?;
            Ok(true)
        }
        _ => Ok(false),
    }
}

/// Puts what a rule gives behind the text. It says whether it is a rule.
fn push_ruled(alloc: Global, all: &mut Vec<u8>, words: &[Vec<u8>]) -> Result<bool, AllocError> {
    match words {
        [name, text] if name.as_slice() == b"text".as_slice() => {
            all.extend_from_slice(text.as_slice())?;
            Ok(true)
        }
        [name, count, text] => match number_of(count.as_slice()) {
            Some(count) => push_counted(alloc, all, name.as_slice(), count, text.as_slice()),
            None => Ok(false),
        },
        _ => Ok(false),
    }
}

/// The text that the rules give, one on each line, of which the first has this number.
pub fn ruled(alloc: Global, rules: &str, first: u64) -> Result<Vec<u8>, Stop> {
    let mut all = Vec::new(alloc);
    for (at, rule) in rules.lines().enumerate() {
        let is_rule = match words_of(alloc, rule)? {
            Some(words) => push_ruled(alloc, &mut all, words.as_slice())?,
            None => false,
        };
        if !is_rule {
            return Err(Stop::Form(first.saturating_add(at as u64), "no rule"));
        }
    }
    Ok(all)
}
