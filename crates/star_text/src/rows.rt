// What each method answers.
ghost use Rattle.std.specs.Prelude.{◌≡◌, ◌<◌, IfOk, [], ◌∷◌, length};
ghost use Rattle.text_spec.specs.Answers.{text_tuple};
ghost use Rattle.text_spec.specs.Methods.{join_row, parts_at, replace_row, some_of, split_row, strip_row};
ghost use Rattle.text_spec.specs.Cutting.{pieces, pieces_back, words, words_back};
ghost use Rattle.text_spec.specs.Places.{first_place, last_place};
ghost use Rattle.text_spec.specs.Texts.{texts_of};
ghost use Rattle.text_words.specs.Sets.{IsCharacterSet, characters_in};
ghost use Rattle.star_text.specs.View.{IsSeparated, answer_of, at_end, changed_by, method_of, operands_of, passes, stripped_at};

use crate::answers::Answer;
use crate::kinds::{Operand, Operands, bool_in, text_in, texts_in};
use crate::searches::{limit_in, search};
use crate::table::{End, Letters, Test, TextMethod};
use sqlite_items::Items;
use std::alloc::Global;
use text_pieces::{
    begins_with, characters, cut_first, cut_last, ends_with, pieces, pieces_back, pieces_between,
    without_prefix, without_suffix,
};
use text_words::{
    CharacterSet, Class, capitalized, is_all, is_lower, is_upper, lines, lowered, stripped_back,
    stripped_front, uppered, words, words_back,
};
use ytt_base::text::{Memory, Text};

/// An answer, if there is room.
type Answered<'a> = Result<Answer<'a>, Memory>;

/// What a method of a text answers for its arguments.
pub(crate) fn answer<'a>(
    alloc: Global,
    method: TextMethod,
    text: &'a str,
    operands: &Operands<'a>,
) -> Answered<'a>
    requires { IsSeparated method (operands_of operands.now) }
    ensures { IfOk result (λ a. answer_of a ≡ (method_of method).answer text.now (operands_of operands.now)) }
{
    let first = &operands.first;
    match method {
        TextMethod::Search(sought, must_be) => Ok(search(sought, must_be, text, operands)),
        TextMethod::AtFront => Ok(Answer::Test(some_of(End::Front, text, texts_in(first)))),
        TextMethod::AtBack => Ok(Answer::Test(some_of(End::Back, text, texts_in(first)))),
        TextMethod::WithoutPrefix => Ok(Answer::Part(without_prefix(text_in(first), text))),
        TextMethod::WithoutSuffix => Ok(Answer::Part(without_suffix(text_in(first), text))),
        TextMethod::Replace => replace(alloc, text, operands),
        TextMethod::Join => join(alloc, text, operands),
        TextMethod::Partition => partition(alloc, text, text_in(first)),
        TextMethod::PartitionBack => partition_back(alloc, text, text_in(first)),
        TextMethod::Split => split(alloc, text, operands),
        TextMethod::SplitBack => split_back(alloc, text, operands),
        TextMethod::Lines => Ok(Answer::List(lines(alloc, bool_in(first), text)?)),
        TextMethod::Strip(end) => strip(alloc, end, text, operands),
        TextMethod::Change(letters) => Ok(Answer::Whole(changed(alloc, letters, text)?)),
        TextMethod::Ask(test) => Ok(Answer::Test(passes(test, text))),
    }
}

/// Whether one of these texts stands at an end.
fn some_of(end: End, text: &str, parts: &[&str]) -> bool
    ensures { result ≡ some_of (λ x. at_end end x text.now) (texts_of parts.now) }
{
    for part in parts {
        if is_at(end, *part, text) {
            return true;
        }
    }
    false
}

fn is_at(end: End, part: &str, text: &str) -> bool
    ensures { result ≡ at_end end part.now text.now }
{
    match end {
        End::Back => ends_with(part, text),
        _ => begins_with(part, text),
    }
}

fn replace<'a>(alloc: Global, text: &'a str, operands: &Operands<'a>) -> Answered<'a>
    ensures { IfOk result (λ a. answer_of a ≡ replace_row text.now (operands_of operands.now)) }
{
    let limit = limit_in(text, &operands.third);
    let parts = pieces_between(alloc, text_in(&operands.first), limit, text)?;
    Ok(Answer::Joined(text_in(&operands.second), parts))
}

fn join<'a>(alloc: Global, text: &'a str, operands: &Operands<'a>) -> Answered<'a>
    ensures { IfOk result (λ a. answer_of a ≡ join_row text.now (operands_of operands.now)) }
{
    let texts = Items::from_slice(alloc, texts_in(&operands.first))?;
    Ok(Answer::Joined(text, texts))
}

/// The text around the first place of another.
fn partition<'a>(alloc: Global, text: &'a str, part: &'a str) -> Answered<'a>
    requires { 0 < length part.now }
    ensures { IfOk result (λ a. answer_of a ≡ parts_at part.now text.now (text_tuple (text.now ∷ [] ∷ [] ∷ [])) (first_place part.now text.now)) }
{
    match cut_first(part, text) {
        Some((before, behind)) => three(alloc, before, part, behind),
        None => three(alloc, text, "", ""),
    }
}

/// The text around the last place of another.
fn partition_back<'a>(alloc: Global, text: &'a str, part: &'a str) -> Answered<'a>
    requires { 0 < length part.now }
    ensures { IfOk result (λ a. answer_of a ≡ parts_at part.now text.now (text_tuple ([] ∷ [] ∷ text.now ∷ [])) (last_place part.now text.now)) }
{
    match cut_last(part, text) {
        Some((before, behind)) => three(alloc, before, part, behind),
        None => three(alloc, "", "", text),
    }
}

fn three<'a>(alloc: Global, first: &'a str, second: &'a str, third: &'a str) -> Answered<'a>
    ensures { IfOk result (λ a. answer_of a ≡ text_tuple (first.now ∷ second.now ∷ third.now ∷ [])) }
{
    Ok(Answer::Tuple(Items::from_slice(alloc, &[first, second, third])?))
}

fn split<'a>(alloc: Global, text: &'a str, operands: &Operands<'a>) -> Answered<'a>
    ensures { IfOk result (λ a. answer_of a ≡ split_row words pieces text.now (operands_of operands.now)) }
{
    let separator = text_in(&operands.first);
    let limit = limit_in(text, &operands.second);
    let parts = if separator.is_empty() {
        words(alloc, limit, text)?
    } else {
        pieces(alloc, separator, limit, text)?
    };
    Ok(Answer::List(parts))
}

fn split_back<'a>(alloc: Global, text: &'a str, operands: &Operands<'a>) -> Answered<'a>
    ensures { IfOk result (λ a. answer_of a ≡ split_row words_back pieces_back text.now (operands_of operands.now)) }
{
    let separator = text_in(&operands.first);
    let limit = limit_in(text, &operands.second);
    let parts = if separator.is_empty() {
        words_back(alloc, limit, text)?
    } else {
        pieces_back(alloc, separator, limit, text)?
    };
    Ok(Answer::List(parts))
}

/// The text without characters of a set at an end, or at both; white space where no set is given.
fn strip<'a>(alloc: Global, end: End, text: &'a str, operands: &Operands<'a>) -> Answered<'a>
    ensures { IfOk result (λ a. answer_of a ≡ strip_row (stripped_at end) text.now (operands_of operands.now)) }
{
    match &operands.first {
        Operand::Text(set) => {
            let characters = characters(alloc, *set)?;
            let set = CharacterSet::of(alloc, Some(characters.as_slice()))?;
            Ok(Answer::Part(stripped(end, &set, text)))
        }
        _ => {
            let set = CharacterSet::of(alloc, None)?;
            Ok(Answer::Part(stripped(end, &set, text)))
        }
    }
}

fn stripped<'a>(end: End, set: &CharacterSet, text: &'a str) -> &'a str
    requires { IsCharacterSet set.now }
    ensures { result.now ≡ stripped_at end (characters_in set.now) text.now }
{
    match end {
        End::Front => stripped_front(set, text),
        End::Back => stripped_back(set, text),
        End::Both => stripped_back(set, stripped_front(set, text)),
    }
}

fn changed(alloc: Global, letters: Letters, text: &str) -> Result<Text, Memory>
    ensures { IfOk result (λ t. t ≡ changed_by letters text.now) }
{
    match letters {
        Letters::Lower => lowered(alloc, text),
        Letters::Upper => uppered(alloc, text),
        Letters::Capital => capitalized(alloc, text),
    }
}

fn passes(test: Test, text: &str) -> bool
    ensures { result ≡ passes test text.now }
{
    match test {
        Test::LetterOrDigit => is_all(Class::LetterOrDigit, text),
        Test::Letter => is_all(Class::Letter, text),
        Test::Digit => is_all(Class::Digit, text),
        Test::Space => is_all(Class::Space, text),
        Test::Lower => is_lower(text),
        Test::Upper => is_upper(text),
    }
}
