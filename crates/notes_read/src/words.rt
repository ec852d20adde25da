// The words that begin code, and the names of notes.
ghost use Rattle.std.specs.Prelude.{◌≡◌, ◌++◌, codes, drop, length, IfOk, Some, None, map as each, if◌then◌else◌};
ghost use Rattle.std.specs.List.{list_any};
ghost use Rattle.notes_read.specs.Texts.{IsBehind};
ghost use Rattle.template_spec.specs.Comments as spec;
ghost use Rattle.template_spec.specs.Comments.{begins_with_word, for_one_word, header_words, note_names, opening_words};
ghost use Rattle.yaml_spec.specs.Bytes.{first, is_word, skip_white};

use std::alloc::Global;
use yaml_text::{first, skip_white};
use ytt_base::text::{Memory, Text};

/// Whether a text begins with this one.
#[tactic(auto, using(crate::proofs::Texts::texts))]
pub fn begins(text: &str, front: &str) -> bool
    ensures { result ≡ spec.begins text.now front.now }
{
    text.starts_with(front)
}

/// What stands behind this front of a text, or `None` where the text doesn't begin so.
#[tactic(auto, using(crate::proofs::Texts::texts))]
pub fn behind<'a>(text: &'a str, front: &str) -> Option<&'a str>
    ensures { IsBehind text.now front.now result }
{
    text.strip_prefix(front)
}

fn in_word(byte: u8) -> bool
    ensures { result ≡ spec.in_word byte }
{
    byte.is_ascii_alphanumeric() || byte == b'_'
}

/// Whether a text begins with a word, which ends there.
fn begins_with_word(text: &str, word: &str) -> bool
    ensures { result ≡ begins_with_word text.now word.now }
{
    match behind(text, word) {
        Some(rest) => !in_word(first(rest)),
        None => false,
    }
}

/// Whether it begins with one of these.
fn begins_with_one(text: &str, words: &[&str]) -> bool
    ensures { result ≡ list_any (begins_with_word text.now) (each (λ w. w.now) words.now) }
{
    for word in words {
        if begins_with_word(text, *word) {
            return true;
        }
    }
    false
}

/// Whether code is the head or the end of a block.
pub fn is_header(code: &str) -> bool
    ensures { result ≡ spec.is_header code.now }
{
    begins_with_one(
        skip_white(code),
        &["if", "elif", "else", "for", "def", "end"],
    )
}

/// Whether it begins with `if/end`, `for/end` or `def/end`.
pub fn is_for_one(code: &str) -> bool
    ensures { result ≡ spec.is_for_one code.now }
{
    begins_with_one(skip_white(code), &["if/end", "for/end", "def/end"])
}

fn joined(alloc: Global, front: &str, rest: &str) -> Result<Text, Memory>
    ensures { IfOk result (λ t. t ≡ front.now ++ rest.now) }
{
    let mut string = String::from_str(alloc, front)?;
    string.push_str(rest)?;
    Ok(Text::of_string(string))
}

/// The word and what stands behind its `/end` form, if the text begins with that.
fn shortened(alloc: Global, text: &str, word: &str, long: &str) -> Result<Option<Text>, Memory>
    ensures { IfOk result (λ t. t ≡ (if begins_with_word text.now long.now then Some (word.now ++ drop (length long.now) text.now) else None)) }
{
    match behind(text, long) {
        Some(rest) => {
            if in_word(first(rest)) {
                return Ok(None);
            }
            Ok(Some(joined(alloc, word, rest)?))
        }
        None => Ok(None),
    }
}

/// The code without the `/end` of its head.
pub fn without_end(alloc: Global, code: &str) -> Result<Text, Memory>
    ensures { IfOk result (λ t. t ≡ spec.without_end code.now) }
{
    let text = skip_white(code);
    if let Some(shorter) = shortened(alloc, text, "if", "if/end")? {
        return Ok(shorter);
    }
    if let Some(shorter) = shortened(alloc, text, "for", "for/end")? {
        return Ok(shorter);
    }
    if let Some(shorter) = shortened(alloc, text, "def", "def/end")? {
        return Ok(shorter);
    }
    Ok(Text::of(alloc, code)?)
}

fn is_one_of(words: &[&str], text: &str) -> bool
    ensures { result ≡ is_word (each (λ w. w.now) words.now) text.now }
{
    for word in words {
        if *word == text {
            return true;
        }
    }
    false
}

/// Whether a note of this name is known.
pub fn is_note_name(name: &str) -> bool
    ensures { result ≡ is_word note_names name.now }
{
    is_one_of(
        &[
            "yaml/text-templated-strings",
            "yaml/map-key-override",
            "data/values",
            "data/values-schema",
            "schema/nullable",
            "schema/type",
            "schema/default",
            "schema/title",
            "schema/desc",
            "schema/examples",
            "schema/deprecated",
            "overlay/match",
            "overlay/match-child-defaults",
            "overlay/merge",
            "overlay/remove",
            "overlay/replace",
            "overlay/insert",
            "overlay/append",
            "overlay/assert",
        ],
        name,
    )
}

/// Whether a note of this name has no arguments.
pub fn is_bare_note(name: &str) -> bool
    ensures { result ≡ spec.is_bare_note name.now }
{
    begins(name, "data/") || begins(name, "yaml/")
}
