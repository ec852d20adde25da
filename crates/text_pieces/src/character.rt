// The characters of a text.
ghost use Rattle.std.specs.Prelude.{◌≡◌, ◌∷◌, ◌<◌, ◌≤◌, [], IfOk, IfSome, MatchOption, length};
ghost use Rattle.std.specs.List.{prefix_len};
ghost use Rattle.index_spec.specs.Index.{is_inner};
ghost use Rattle.text_spec.specs.Classes.{characters};
ghost use Rattle.text_spec.specs.Texts.{texts_of};

use sqlite_items::Items;
use std::alloc::Global;
use ytt_base::text::Memory;

/// Whether a byte stands inside a character.
pub fn is_inner(byte: u8) -> bool
    ensures { result ≡ is_inner byte }
{
    byte >= 128 && byte < 192
}

/// How many bytes inside a character these begin with.
fn inner_len(bytes: &[u8]) -> usize
    ensures len { result ≡ prefix_len is_inner bytes.now }
    ensures within { result ≤ length bytes.now }
{
    bytes.iter().take_while(|byte| is_inner(**byte)).count()
}

/// The first character and what stands behind it, or `None` for an empty text.
pub fn first_character(text: &str) -> Option<(&str, &str)>
    ensures character { MatchOption result (text.now ≡ []) (λ p. characters text.now ≡ p.0.now ∷ characters p.1.now) }
    ensures shorter { IfSome result (λ p. length p.1.now < length text.now) }
{
    if text.is_empty() {
        return None;
    }
    Some(text.split_at(1 + inner_len(&text.as_bytes()[1..])))
}

/// The characters of a text, or want of memory.
pub fn characters<'t>(alloc: Global, text: &'t str) -> Result<Items<&'t str>, Memory>
    ensures { IfOk result (λ cs. texts_of cs ≡ characters text.now) }
{
    let mut made = Items::new(alloc);
    let mut rest = text;
    while let Some((character, behind)) = first_character(rest) {
        made.push(character)?;
        rest = behind;
    }
    Ok(made)
}
