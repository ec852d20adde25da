// Names and keywords.
ghost use Rattle.std.specs.Prelude.{◌≡◌, map as each, IfOk};
ghost use Rattle.std.specs.List.{prefix_len};
ghost use Rattle.star_grammar.specs.Pieces as spec;
ghost use Rattle.star_token.specs.View.{mark_among, words_of};

use crate::marks::mark_piece;
use star_grammar::{Mark, Piece, TokenKind};
use star_letters::before;
use std::alloc::Global;
use std::str;
use ytt_base::fault::FaultKind;
use ytt_base::text::{Memory, Text};

/// The keyword among these that a word is.
fn mark_among(word: &str, words: &[(&str, Mark)]) -> Option<Mark>
    ensures { result ≡ mark_among word.now (words_of words.now) }
{
    for named in words {
        if named.0 == word {
            return Some(named.1);
        }
    }
    None
}

/// A keyword in expressions.
fn joining_word(word: &str) -> Option<Mark>
    ensures { result ≡ spec.joining_word word.now }
{
    mark_among(
        word,
        &[
            ("and", Mark::And),
            ("else", Mark::Else),
            ("for", Mark::For),
            ("if", Mark::If),
            ("in", Mark::In),
            ("lambda", Mark::Lambda),
            ("not", Mark::Not),
            ("or", Mark::Or),
        ],
    )
}

/// A keyword that begins a statement.
fn leading_word(word: &str) -> Option<Mark>
    ensures { result ≡ spec.leading_word word.now }
{
    mark_among(
        word,
        &[
            ("break", Mark::Break),
            ("continue", Mark::Continue),
            ("def", Mark::Def),
            ("elif", Mark::Elif),
            ("end", Mark::End),
            ("load", Mark::Load),
            ("pass", Mark::Pass),
            ("return", Mark::Return),
        ],
    )
}

fn keyword(word: &str) -> Option<Mark>
    ensures { result ≡ spec.keyword word.now }
{
    match joining_word(word) {
        Some(mark) => Some(mark),
        None => leading_word(word),
    }
}

fn is_one_of(word: &str, words: &[&str]) -> bool
    ensures { result ≡ spec.is_among (each (λ w. w.now) words.now) word.now }
{
    for other in words {
        if *other == word {
            return true;
        }
    }
    false
}

/// Whether a word is no name.
fn is_refused(word: &str) -> bool
    ensures { result ≡ spec.is_among spec.refused_words word.now }
{
    is_one_of(
        word,
        &[
            "as", "class", "del", "except", "finally", "from", "global", "import", "is",
            "nonlocal", "raise", "try", "while", "with", "yield",
        ],
    )
}

pub fn begins_word(byte: u8) -> bool
    ensures { result ≡ spec.begins_word byte }
{
    byte.is_ascii_alphabetic() || byte == b'_'
}

fn in_word(byte: u8) -> bool
    ensures { result ≡ spec.in_word byte }
{
    byte.is_ascii_alphanumeric() || byte == b'_'
}

fn word_size(text: &[u8]) -> usize
    ensures { result ≡ prefix_len spec.in_word text.now }
{
    text.iter().take_while(|b| in_word(**b)).count()
}

/// The longest run of letters, digits and `_` at the front.
fn word_at(text: &[u8]) -> &str
    ensures { result.now ≡ spec.word_at text.now }
{
    let front = before(text, word_size(text));
    match str::from_utf8(front) {
        Ok(word) => word,
        Err(_) => unreachable!(),
    }
}

/// The name, the keyword or the refused word at the front. Its only error is want of memory.
pub fn word_piece(alloc: Global, text: &[u8]) -> Result<Piece, Memory>
    ensures { IfOk result (λ p. p ≡ spec.word_piece text.now) }
{
    let word = word_at(text);
    if let Some(mark) = keyword(word) {
        return Ok(mark_piece(mark, word.len()));
    }
    if is_refused(word) {
        return Ok(Piece::Refused(FaultKind::CodeForm));
    }
    let size = word.len();
    Ok(Piece::Whole(TokenKind::Name(Text::of(alloc, word)?), size, 0))
}
