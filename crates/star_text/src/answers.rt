// What a method answers: its cost, and the value that it becomes.
ghost use Rattle.std.specs.Prelude.{◌≡◌, ℕ, IfOk};
ghost use Rattle.star_steps.specs.Names.{Gives, Grows, OwnsAll, seen, state_in, values_of};
ghost use Rattle.text_spec.specs.Answers.{answer_bytes, answer_members, give_answer, text_values};
ghost use Rattle.text_spec.specs.Texts.{texts_of};
ghost use Rattle.star_text.specs.View.{answer_of, made_of};

use object_arena::{Arena, Value, Values};
use sqlite_items::Items;
use star_steps::{Given, refusal};
use std::alloc::Global;
use text_pieces::{joined, joined_length};
use ytt_base::fault::{FaultKind, Place};
use ytt_base::text::{Memory, Text, Texts};

/// What a method answers: a part of a text that stands, a whole one, texts joined by another, a test, a number, a list or a
/// tuple of texts, or nothing, since what was sought isn't there.
#[derive(Drop)]
pub(crate) enum Answer<'a> {
    Part(&'a str),
    Whole(Text),
    Joined(&'a str, Items<&'a str>),
    Test(bool),
    Number(i128),
    List(Items<&'a str>),
    Tuple(Items<&'a str>),
    Nowhere,
}

/// The same with texts of its own.
#[derive(Drop)]
pub(crate) enum Made {
    Text(Text),
    Test(bool),
    Number(i128),
    List(Texts),
    Tuple(Texts),
    Nowhere,
}

// ---- the cost

/// The bytes of the text that an answer is.
pub(crate) fn answer_bytes(answer: &Answer<'_>) -> u128
    ensures { result ≡ answer_bytes (answer_of answer.now) }
{
    match answer {
        Answer::Part(text) => text.len() as u128,
        Answer::Whole(text) => text.as_str().len() as u128,
        Answer::Joined(between, parts) => joined_length(*between, parts.as_slice()),
        _ => 0,
    }
}

/// The members of the list or tuple that an answer is.
pub(crate) fn answer_members(answer: &Answer<'_>) -> u128
    ensures { result ≡ answer_members (answer_of answer.now) }
{
    match answer {
        Answer::List(texts) => texts.len() as u128,
        Answer::Tuple(texts) => texts.len() as u128,
        _ => 0,
    }
}

// ---- the value

/// The answer with texts of its own.
pub(crate) fn owned(alloc: Global, answer: Answer<'_>) -> Result<Made, Memory>
    ensures { IfOk result (λ m. made_of m ≡ answer_of answer.entry) }
{
    match answer {
        Answer::Part(text) => Ok(Made::Text(Text::of(alloc, text)?)),
        Answer::Whole(text) => Ok(Made::Text(text)),
        Answer::Joined(between, parts) => {
            Ok(Made::Text(joined(alloc, between, parts.as_slice())?))
        }
        Answer::Test(told) => Ok(Made::Test(told)),
        Answer::Number(number) => Ok(Made::Number(number)),
        Answer::List(texts) => Ok(Made::List(copies(alloc, texts.as_slice())?)),
        Answer::Tuple(texts) => Ok(Made::Tuple(copies(alloc, texts.as_slice())?)),
        Answer::Nowhere => Ok(Made::Nowhere),
    }
}

/// Texts of their own.
fn copies(alloc: Global, texts: &[&str]) -> Result<Texts, Memory>
    ensures { IfOk result (λ ts. ts ≡ texts_of texts.now) }
{
    let mut all = Items::new(alloc);
    for text in texts {
        all.push(Text::of(alloc, *text)?)?;
    }
    Ok(all)
}

/// The value that an answer is, or `KeyMissing` where what was sought isn't there.
pub(crate) fn give(arena: &mut Arena, place: Place, made: Made) -> Given
    ensures { (n : ℕ) → Gives (give_answer place (made_of made) (state_in (seen arena.old) n)) result (seen arena.old) (seen arena.new) n }
{
    match made {
        Made::Text(text) => Ok(arena.new_text(text)?),
        Made::Test(told) => Ok(Value::Bool(told)),
        Made::Number(number) => Ok(Value::Int(number)),
        Made::List(texts) => {
            let values = text_values(arena, texts.as_slice())?;
            Ok(arena.new_list(values.as_slice())?)
        }
        Made::Tuple(texts) => {
            let values = text_values(arena, texts.as_slice())?;
            Ok(arena.new_tuple(values.as_slice())?)
        }
        Made::Nowhere => Err(refusal(arena, FaultKind::KeyMissing, place)),
    }
}

/// Texts as values.
fn text_values(arena: &mut Arena, texts: &[Text]) -> Result<Values, Memory>
    ensures values { IfOk result (λ vs. values_of (seen arena.new) vs ≡ text_values texts.now) }
    ensures owns { IfOk result (OwnsAll (seen arena.new)) }
    ensures store { (seen arena.new).store ≡ (seen arena.old).store }
    ensures grows { Grows (seen arena.old) (seen arena.new) }
{
    let mut values = Items::new(arena.alloc());
    let mut rest = texts;
    while let Some((first, more)) = rest.split_first() {
        let value = arena.new_text(first.copy()?)?;
        values.push(value)?;
        rest = more;
    }
    Ok(values)
}
