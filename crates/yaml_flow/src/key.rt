// Keys in brackets.
ghost use Rattle.std.specs.Prelude.{◌≡◌, ◌≤◌, IfOk, true};
ghost use Rattle.ytt_base.specs.Outcomes.{Gives};
ghost use Rattle.yaml_flow.specs.Members.{key_at, plain_key_at, quoted_key_at};
ghost use Rattle.yaml_flow.specs.View.{key_and_place};
ghost use Rattle.yaml_spec.specs.Flow.{size};
ghost use Rattle.yaml_spec.specs.Quotes.{starts_quote};
ghost use Rattle.yaml_text.specs.View.{cursor_of};

use std::alloc::Global;
use yaml_plain::{read_plain_key, split_plain, start_fault};
use yaml_quotes::quote_on_line;
use yaml_text::{Cursor, refusal, starts_collection, starts_quote};
use ytt_base::fault::{FaultKind, Stop};
use ytt_base::tree::Key;

/// The place on the same line at which this text stands.
fn at_text<'a>(cursor: Cursor<'a>, text: &'a str) -> Cursor<'a>
    ensures { cursor_of result ≡ record (cursor_of cursor.entry) { text = text.now } }
{
    Cursor {
        place: cursor.place,
        text,
        below: cursor.below,
    }
}

/// The key in quotes.
fn read_quoted_key<'a>(alloc: Global, cursor: Cursor<'a>) -> Result<(Key, bool, Cursor<'a>), Stop>
    requires { starts_quote cursor.text.now ≡ true }
    ensures key { Gives key_and_place result (quoted_key_at (cursor_of cursor.entry)) }
    ensures within { IfOk result (λ k. size (cursor_of k.2) ≤ size (cursor_of cursor.entry)) }
{
    match quote_on_line(alloc, cursor.text)? {
        Some((text, behind)) => Ok((Key::Str(text), true, at_text(cursor, behind))),
        None => Err(refusal(alloc, FaultKind::YamlForm, cursor.place)),
    }
}

/// The plain key.
fn read_unquoted_key<'a>(alloc: Global, cursor: Cursor<'a>) -> Result<(Key, bool, Cursor<'a>), Stop>
    ensures key { Gives key_and_place result (plain_key_at (cursor_of cursor.entry)) }
    ensures within { IfOk result (λ k. size (cursor_of k.2) ≤ size (cursor_of cursor.entry)) }
{
    let (_, behind) = split_plain(true, cursor.text);
    match read_plain_key(alloc, true, cursor.text)? {
        Ok(key) => Ok((key, false, at_text(cursor, behind))),
        Err(kind) => Err(refusal(alloc, kind, cursor.place)),
    }
}

/// The key of a pair in brackets, plain or in quotes, on one line (YAML 1.2.2, 7.4.2), whether it is
/// in quotes, and the place behind it. A collection as a key is YamlOut.
#[tactic(auto, unfolding(yaml_spec::specs::Flow::flow_key))]
pub(crate) fn read_key<'a>(
    alloc: Global,
    cursor: Cursor<'a>,
) -> Result<(Key, bool, Cursor<'a>), Stop>
    ensures key { Gives key_and_place result (key_at (cursor_of cursor.entry)) }
    ensures within { IfOk result (λ k. size (cursor_of k.2) ≤ size (cursor_of cursor.entry)) }
{
    if starts_quote(cursor.text) {
        return read_quoted_key(alloc, cursor);
    }
    if starts_collection(cursor.text) {
        return Err(refusal(alloc, FaultKind::YamlOut, cursor.place));
    }
    match start_fault(true, cursor.text) {
        Some(kind) => Err(refusal(alloc, kind, cursor.place)),
        None => read_unquoted_key(alloc, cursor),
    }
}
