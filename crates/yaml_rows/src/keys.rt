// Keys on a line of a block.
ghost use Rattle.std.specs.Prelude.{◌≡◌, IfOk, false, true};
ghost use Rattle.std.specs.Option.{option_map};
ghost use Rattle.yaml_spec.specs.Plain.{plain_key};
ghost use Rattle.yaml_spec.specs.Quotes.{quote_on_line, starts_quote};
ghost use Rattle.yaml_spec.specs.Rows.{behind_colon, key_at, key_mark, quoted_key};
ghost use Rattle.yaml_rows.specs.Heads.{bare_key, collection_key, marked, marked_by};
ghost use Rattle.yaml_rows.specs.View.{mark_of};

use crate::row::Mark;
use sqlite_items::Items;
use std::alloc::Global;
use yaml_flow::read_flow;
use yaml_plain::{read_plain_key, split_plain, start_fault};
use yaml_quotes::quote_on_line;
use yaml_text::{Cursor, behind, first, is_gap, skip_white, starts_collection, starts_quote};
use ytt_base::fault::{FaultKind, Place, Stop};
use ytt_base::text::Memory;
use ytt_base::tree::Key;

/// How many collections may stand inside each other.
pub const MAX_DEPTH: u32 = 100;

/// The text behind the colon of a key, where it has one: white space may stand before it, and behind
/// it stands white space or nothing.
fn behind_colon(text: &str) -> Option<&str>
    ensures { option_map (λ t. t.now) result ≡ behind_colon text.now }
{
    let rest = skip_white(text);
    if first(rest) != b':' {
        return None;
    }
    let behind = behind(rest, 1);
    if is_gap(behind) { Some(behind) } else { None }
}

/// What begins a pair, where a colon stands behind it.
fn marked_by<'a>(mark: Mark, text: &'a str) -> Option<(Mark, &'a str)>
    ensures { option_map (λ k. (mark_of k.0, k.1.now)) result ≡ marked_by (mark_of mark) text.now }
{
    match behind_colon(text) {
        Some(behind) => Some((mark, behind)),
        None => None,
    }
}

/// The key in quotes that close on its line, and the text behind its colon.
fn read_quoted_key<'a>(alloc: Global, text: &'a str) -> Result<Option<(Mark, &'a str)>, Memory>
    requires { starts_quote text.now ≡ true }
    ensures { IfOk result (λ o. option_map (λ k. (mark_of k.0, k.1.now)) o ≡ marked (quoted_key (quote_on_line text.now))) }
{
    match quote_on_line(alloc, text)? {
        Some((string, behind)) => Ok(marked_by(Mark::Key(Key::Str(string)), behind)),
        None => Ok(None),
    }
}

/// A collection in brackets where a key stands, which is none of this profile, and the text behind its
/// colon.
fn read_collection_key<'a>(alloc: Global, text: &'a str) -> Result<Option<(Mark, &'a str)>, Memory>
    ensures { IfOk result (λ o. option_map (λ k. (mark_of k.0, k.1.now)) o ≡ marked (collection_key text.now)) }
{
    let nowhere = Place { file: 1, line: 1 };
    let cursor = Cursor {
        place: nowhere,
        text,
        below: &[],
    };
    match read_flow(alloc, MAX_DEPTH, nowhere, Items::new(alloc), cursor) {
        Ok((_content, _comments, end)) => {
            Ok(marked_by(Mark::NoKey(FaultKind::YamlOut), end.text))
        }
        Err(Stop::Fault(_)) => Ok(None),
        Err(Stop::Memory) => Err(Memory),
    }
}

/// A plain key, or why it is none.
fn plain_mark(alloc: Global, text: &str) -> Result<Mark, Memory>
    ensures { IfOk result (λ m. mark_of m ≡ key_mark (plain_key false text.now)) }
{
    match read_plain_key(alloc, false, text)? {
        Ok(key) => Ok(Mark::Key(key)),
        Err(fault) => Ok(Mark::NoKey(fault)),
    }
}

/// The plain key at the start of a text, and the text behind its colon.
fn read_bare_key<'a>(alloc: Global, text: &'a str) -> Result<Option<(Mark, &'a str)>, Memory>
    ensures { IfOk result (λ o. option_map (λ k. (mark_of k.0, k.1.now)) o ≡ marked (bare_key text.now)) }
{
    if start_fault(false, text).is_some() {
        return Ok(None);
    }
    let (_part, rest) = split_plain(false, text);
    match behind_colon(rest) {
        Some(behind) => Ok(Some((plain_mark(alloc, text)?, behind))),
        None => Ok(None),
    }
}

/// The key at the start of a text and the text behind its colon, if a key stands there (YAML 1.2.2,
/// 8.2.2).
pub fn read_key<'a>(alloc: Global, text: &'a str) -> Result<Option<(Mark, &'a str)>, Memory>
    ensures { IfOk result (λ o. option_map (λ k. (mark_of k.0, k.1.now)) o ≡ marked (key_at text.now)) }
{
    if starts_quote(text) {
        return read_quoted_key(alloc, text);
    }
    if starts_collection(text) {
        return read_collection_key(alloc, text);
    }
    read_bare_key(alloc, text)
}
