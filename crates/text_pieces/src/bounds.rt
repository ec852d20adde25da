// The bounds of characters, which are the places of an empty text.
ghost use Rattle.std.specs.Prelude.{◌≡◌, ◌-◌, ◌≤◌, drop, length};
ghost use Rattle.index_spec.specs.Index.{begins_inner};
ghost use Rattle.text_spec.specs.Places.{bounds, first_of, last_of};

use crate::character::is_inner;

/// Whether a place is inside a character.
fn is_inside(text: &[u8], at: usize) -> bool
    ensures { result ≡ begins_inner (drop at text.now) }
{
    at < text.len() && is_inner(text[at])
}

/// The first of some bounds, the last, and how many they are.
#[derive(Clone, Copy)]
pub struct Ends {
    pub first: Option<usize>,
    pub last: Option<usize>,
    pub count: usize,
}

/// The bounds from one place to another.
pub fn bounds(text: &[u8], from: usize, to: usize) -> Ends
    requires order { from ≤ to }
    requires within { to ≤ length text.now }
    ensures first { result.first ≡ first_of (bounds (to - from) from (drop from text.now)) }
    ensures last { result.last ≡ last_of (bounds (to - from) from (drop from text.now)) }
    ensures count { result.count ≡ length (bounds (to - from) from (drop from text.now)) }
{
    let mut found = Ends {
        first: None,
        last: None,
        count: 0,
    };
    for at in from..=to {
        if !is_inside(text, at) {
            found = Ends {
                first: found.first.or(Some(at)),
                last: Some(at),
                count: found.count + 1,
            };
        }
    }
    found
}
