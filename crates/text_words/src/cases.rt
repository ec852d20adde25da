// Texts with their letters changed. Letters beyond ASCII stay.
ghost use Rattle.std.specs.Prelude.{◌≡◌, ◌++◌, IfOk};
ghost use Rattle.text_spec.specs.Classes.{capitalized, lowered, uppered};

use std::alloc::Global;
use ytt_base::text::{Memory, Text};

/// The text with its capital letters small.
#[tactic(auto, using(crate::proofs::Bytes::letters))]
pub fn lowered(alloc: Global, text: &str) -> Result<Text, Memory>
    ensures { IfOk result (λ t. t ≡ lowered text.now) }
{
    Ok(Text::of_string(text.to_ascii_lowercase(alloc)?))
}

/// The text with its small letters capital.
#[tactic(auto, using(crate::proofs::Bytes::letters))]
pub fn uppered(alloc: Global, text: &str) -> Result<Text, Memory>
    ensures { IfOk result (λ t. t ≡ uppered text.now) }
{
    Ok(Text::of_string(text.to_ascii_uppercase(alloc)?))
}

/// The first character where it is ASCII, and what stands behind it.
fn split_first(text: &str) -> (&str, &str)
    ensures { uppered result.0.now ++ lowered result.1.now ≡ capitalized text.now }
{
    match text.split_at_checked(1) {
        Some(parts) => parts,
        None => ("", text),
    }
}

/// The text with its first character a capital letter, where it is a letter, and all other letters small.
#[tactic(auto, using(crate::proofs::Bytes::letters))]
pub fn capitalized(alloc: Global, text: &str) -> Result<Text, Memory>
    ensures { IfOk result (λ t. t ≡ capitalized text.now) }
{
    let (first, rest) = split_first(text);
    let mut string = first.to_ascii_uppercase(alloc)?;
    string.push_str(rest.to_ascii_lowercase(alloc)?.as_str())?;
    Ok(Text::of_string(string))
}
