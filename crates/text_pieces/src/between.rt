// Where a text occurs between two places of another. An empty one occurs at each bound of a character.
ghost use Rattle.std.specs.Prelude.{◌≡◌, ℕ, ◌-◌, ◌<◌, ◌≤◌, drop, length, take};
ghost use Rattle.text_spec.specs.Cutting.{pieces};
ghost use Rattle.text_spec.specs.Methods.{count_between, first_between, last_between};

use crate::bounds::bounds;
use crate::places::{first_place, last_place};

/// The bytes of a text from one place to another.
fn between(text: &str, from: usize, to: usize) -> &[u8]
    requires order { from ≤ to }
    requires within { to ≤ length text.now }
    ensures { result.now ≡ drop from (take to text.now) }
{
    &text.as_bytes()[from..to]
}

/// The first place of `part` among the bytes of `text` from one place to another.
pub fn first_between(part: &str, text: &str, from: usize, to: usize) -> Option<usize>
    requires order { from ≤ to }
    requires within { to ≤ length text.now }
    ensures { result ≡ first_between part.now text.now from to }
{
    if part.is_empty() {
        return bounds(text.as_bytes(), from, to).first;
    }
    let first = first_place(part, between(text, from, to))?;
    Some(from + first)
}

/// The last place of `part` among the bytes of `text` from one place to another.
pub fn last_between(part: &str, text: &str, from: usize, to: usize) -> Option<usize>
    requires order { from ≤ to }
    requires within { to ≤ length text.now }
    ensures { result ≡ last_between part.now text.now from to }
{
    if part.is_empty() {
        return bounds(text.as_bytes(), from, to).last;
    }
    let last = last_place(part, between(text, from, to))?;
    Some(from + last)
}

/// How often `part` occurs among the bytes of `text` from one place to another, where none overlaps one before it.
pub fn count_between(part: &str, text: &str, from: usize, to: usize) -> usize
    requires order { from ≤ to }
    requires within { to ≤ length text.now }
    ensures { result ≡ count_between part.now text.now from to }
{
    if part.is_empty() {
        return bounds(text.as_bytes(), from, to).count;
    }
    count_places(part, between(text, from, to))
}

/// How often a text that isn't empty occurs among bytes, where none overlaps one before it.
fn count_places(part: &str, text: &[u8]) -> usize
    requires { 0 < length part.now }
    ensures { (cuts : ℕ) → length text.now ≤ cuts → result ≡ length (pieces part.now cuts text.now) - 1 }
{
    let mut count = 0;
    let mut rest = text;
    while let Some(at) = first_place(part, rest) {
        count += 1;
        rest = &rest[at + part.len()..];
    }
    count
}
