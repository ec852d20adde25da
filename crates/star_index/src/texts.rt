// Characters of texts.
ghost use Rattle.std.specs.Prelude.{◌≡◌, ◌++◌};
ghost use Rattle.star_steps.specs.Names.{ℕ, OnOk, length, option_map, string_bytes, cut_text, bytes_cut, picked_bytes, place_count, seen, Meets, as_is, state_in};
ghost use Rattle.star_index.specs.Cuts.{AreAmong, WholeCut, places_in};

use crate::places::Places;
use object_arena::Arena;
use star_steps::refusal;
use ytt_base::fault::{FaultKind, Place, Stop};
use ytt_base::text::{Memory, Text};

/// A part of a text, or its refusal.
pub type Part = Result<Text, Stop>;

/// The bytes of a text from one place to another, or `None` where they cut a character. Nothing is cut where the places are
/// one, or the second comes first.
fn whole_cut(text: &str, from: usize, to: usize) -> Option<&str>
    ensures { WholeCut text.now from to (option_map (λ s. s.now) result) }
{
    let to = to.min(text.len());
    if from >= to {
        return Some("");
    }
    if !text.is_char_boundary(from) || !text.is_char_boundary(to) {
        return None;
    }
    Some(&text[from..to])
}

/// A part of a text, or `CutsCharacter`.
pub fn cut_text(arena: &Arena, place: Place, text: &str, from: usize, to: usize) -> Part
    ensures { (n : ℕ) → Meets as_is result (state_in (seen arena.now) n) (cut_text place text.now from to (state_in (seen arena.now) n)) }
{
    match whole_cut(text, from, to) {
        Some(part) => Ok(Text::of(arena.alloc(), part)?),
        None => Err(refusal(arena, FaultKind::CutsCharacter, place)),
    }
}

/// The bytes of a text at the places of a slice, or `CutsCharacter`.
pub fn bytes_cut(arena: &Arena, place: Place, text: &str, places: &Places) -> Part
    requires { AreAmong (length text.now) (places_in places.now) }
    ensures { (n : ℕ) → Meets as_is result (state_in (seen arena.now) n) (bytes_cut place text.now (places_in places.now) (state_in (seen arena.now) n)) }
{
    let count = places.count() as usize;
    if count == 0 {
        return Ok(Text::new(arena.alloc()));
    }
    if places.step == 1 {
        let first = places.at(0);
        return cut_text(arena, place, text, first, first + count);
    }
    picked_bytes(arena, place, text, places)
}

/// One byte at each place, each of which is a whole character.
fn picked_bytes(arena: &Arena, place: Place, text: &str, places: &Places) -> Part
    requires { AreAmong (length text.now) (places_in places.now) }
    ensures { (n : ℕ) → Meets as_is result (state_in (seen arena.now) n) (picked_bytes place text.now (place_count (places_in places.now)) places.now.first places.now.step (state_in (seen arena.now) n)) }
{
    let mut bytes = String::new(arena.alloc());
    for number in 0..places.count() {
        let at = places.at(number);
        match whole_cut(text, at, at + 1) {
            Some(byte) => append(&mut bytes, byte)?,
            None => return Err(refusal(arena, FaultKind::CutsCharacter, place)),
        }
    }
    Ok(Text::of_string(bytes))
}

/// Puts a text behind another.
pub fn append(text: &mut String, more: &str) -> Result<(), Memory>
    ensures { OnOk result (string_bytes text.new ≡ string_bytes text.old ++ more.now) }
{
    text.push_str(more)?;
    Ok(())
}
