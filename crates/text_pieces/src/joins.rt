// Texts in one, with another between them.
ghost use Rattle.std.specs.Prelude.{◌≡◌, IfOk, length};
ghost use Rattle.text_spec.specs.Cutting.{joined_by};
ghost use Rattle.text_spec.specs.Texts.{texts_of};

use std::alloc::Global;
use ytt_base::text::{Memory, Text};

/// How many bytes the joined text has. It takes no memory.
#[tactic(auto, using(crate::proofs::Joining::joins))]
pub fn joined_length(between: &str, parts: &[&str]) -> u128
    ensures { result ≡ length (joined_by between.now (texts_of parts.now)) }
{
    let mut total = 0;
    for part in parts {
        total += between.len() as u128 + part.len() as u128;
    }
    total.saturating_sub(between.len() as u128)
}

/// The parts one behind another with `between` between them, or want of memory.
#[tactic(auto, using(crate::proofs::Joining::joins))]
pub fn joined(alloc: Global, between: &str, parts: &[&str]) -> Result<Text, Memory>
    ensures { IfOk result (λ t. t ≡ joined_by between.now (texts_of parts.now)) }
{
    Ok(Text::of_string(parts.join(alloc, between)?))
}
