// Characters that are stripped, as they are looked up.
ghost use Rattle.std.specs.Prelude.{◌≡◌, ◌+◌, ◌<◌, ℕ, IfOk, OnOk, IfSome, List, length, option_map};
ghost use Rattle.std.specs.Str.{IsUtf8};
ghost use Rattle.text_spec.specs.Classes.{characters};
ghost use Rattle.text_spec.specs.Texts.{texts_of};
ghost use Rattle.text_words.specs.Sets.{IsCharacterSet, characters_in};
ghost use Rattle.text_words.specs.Strips.{AreCharacters, HasAll, HasMore, cut_at, cut_one, set_of};

use crate::edges::edge;
use crate::runs::End;
use std::alloc::Global;
use std::collections::HashSet;
use ytt_base::text::Memory;

/// So many characters are tried one by one. Of more a set is made.
const FEW_CHARACTERS: usize = 8;

/// Characters, and where they are more than a few a set of them.
#[derive(Drop)]
pub struct CharacterSet<'s> {
    given: &'s [&'s str],
    many: Option<HashSet<&'s str>>,
}

impl<'s> CharacterSet<'s> {
    /// The characters of some text, and white space of ASCII where none are given. Its only error is want of memory.
    pub fn of(alloc: Global, set: Option<&'s [&'s str]>) -> Result<CharacterSet<'s>, Memory>
        requires { IfSome set (λ cs. (t : List ℕ) × (texts_of cs.now ≡ characters t)) }
        ensures characters { IfOk result (λ made. characters_in made ≡ set_of set.entry) }
        ensures made { IfOk result (λ made. IsCharacterSet made) }
    {
        let given = characters_of(set);
        let many = if given.len() > FEW_CHARACTERS {
            Some(set_of_all(alloc, given)?)
        } else {
            None
        };
        Ok(CharacterSet { given, many })
    }

    /// The text without the character at an end, or `None` where that isn't one of these.
    pub(crate) fn without<'t>(&self, end: End, text: &'t str) -> Option<&'t str>
        requires { IsCharacterSet self.now }
        ensures cut { option_map (λ s. s.now) result ≡ cut_at end (characters_in self.now) text.now }
        ensures shorter { IfSome result (λ s. length s.now < length text.now) }
    {
        match &self.many {
            Some(many) => without_looked_up(end, many, text),
            None => without_one(end, self.given, text),
        }
    }
}

/// The characters that are stripped: white space of ASCII where none are given.
fn characters_of<'s>(set: Option<&'s [&'s str]>) -> &'s [&'s str]
    requires { IfSome set (λ cs. (t : List ℕ) × (texts_of cs.now ≡ characters t)) }
    ensures set { texts_of result.now ≡ set_of set.entry }
    ensures characters { AreCharacters (texts_of result.now) }
{
    match set {
        Some(characters) => characters,
        None => &[" ", "\t", "\n", "\u{b}", "\u{c}", "\r"],
    }
}

/// A set of all these.
fn set_of_all<'s>(alloc: Global, characters: &'s [&'s str]) -> Result<HashSet<&'s str>, Memory>
    ensures { IfOk result (λ set. HasAll set (texts_of characters.now)) }
{
    let mut set: HashSet<&'s str> = HashSet::new(alloc);
    for character in characters {
        put(&mut set, *character)?;
    }
    Ok(set)
}

/// Puts a text into a set.
fn put<'s>(set: &mut HashSet<&'s str>, text: &'s str) -> Result<(), Memory>
    ensures utf8 { IsUtf8 text.now }
    ensures more { OnOk result (HasMore set.old text.now set.new) }
{
    set.insert(text)?;
    Ok(())
}

/// The text without the character at an end, if a set has that.
fn without_looked_up<'t>(end: End, set: &HashSet<&str>, text: &'t str) -> Option<&'t str>
    ensures cut { (cs : List (List ℕ)) → AreCharacters cs → HasAll set.now cs → option_map (λ s. s.now) result ≡ cut_at end cs text.now }
    ensures shorter { IfSome result (λ s. length s.now < length text.now) }
{
    let (character, rest) = edge(end, text)?;
    if set.contains(character) {
        Some(rest)
    } else {
        None
    }
}

/// The text without the first of these that stands at an end, or `None` where none does.
fn without_one<'t>(end: End, set: &[&str], text: &'t str) -> Option<&'t str>
    requires { AreCharacters (texts_of set.now) }
    ensures cut { option_map (λ s. s.now) result ≡ cut_at end (texts_of set.now) text.now }
    ensures shorter { IfSome result (λ s. length s.now < length text.now) }
{
    let mut parts = set;
    while let [part, more @ ..] = parts {
        if let Some(left) = without(end, part, text) {
            return Some(left);
        }
        parts = more;
    }
    None
}

/// The text without this one at an end, or `None` where it doesn't stand there.
fn without<'t>(end: End, part: &str, text: &'t str) -> Option<&'t str>
    ensures cut { option_map (λ s. s.now) result ≡ cut_one end part.now text.now }
    ensures shorter { IfSome result (λ s. length s.now + length part.now ≡ length text.now) }
{
    match end {
        End::Front => text.strip_prefix(part),
        End::Back => text.strip_suffix(part),
    }
}
