// Many files that one name gives.

use std::alloc::{AllocError, Global};
use std::str;

/// `N files PATH`, where the path has a `#`: how many files there are, and their path.
pub fn many_in(name: &str) -> Option<(u64, &str)> {
    let (count, path) = name.split_once(" files ")?;
    let count = count.parse::<u64>().ok()?;
    if path.contains('#') {
        return Some((count, path));
    }
    None
}

/// Puts a number behind a text, with zeros before it that make it as long as the last number.
fn push_number(alloc: Global, text: &mut String, number: u64, last: u64) -> Result<(), AllocError> {
    let digits = format!(in alloc; "{number}")?;
    let most = format!(in alloc; "{last}")?;
    for _ in digits.len()..most.len() {
        text.push('0')?;
    }
    text.push_str(digits.as_str())
}

/// The path with a number in the place of each `#`, which is as long there as the last number is.
pub fn numbered_path(
    alloc: Global,
    path: &str,
    number: u64,
    last: u64,
) -> Result<String, AllocError> {
    let mut whole = String::new(alloc);
    for (at, part) in path.split('#').enumerate() {
        if at > 0 {
            push_number(alloc, &mut whole, number, last)?;
        }
        whole.push_str(part)?;
    }
    Ok(whole)
}

/// The text of a file among so many: the next file's number, as long as the last one, for each `{next}`. One that isn't UTF-8 stays.
pub fn numbered_text(
    alloc: Global,
    text: &[u8],
    number: u64,
    last: u64,
) -> Result<Vec<u8>, AllocError> {
    let Ok(text) = str::from_utf8(text) else {
        return Vec::from_slice(alloc, text);
    };
    let mut whole = String::new(alloc);
    for (at, part) in text.split("{next}").enumerate() {
        if at > 0 {
            push_number(alloc, &mut whole, number.saturating_add(1), last)?;
        }
        whole.push_str(part)?;
    }
    Vec::from_slice(alloc, whole.as_bytes())
}
