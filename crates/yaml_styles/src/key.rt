// The text of a key.
ghost use Rattle.std.specs.Prelude.{◌≡◌, IfOk, codes, if◌then◌else◌};
ghost use Rattle.ytt_base.specs.View.{key_of};
ghost use Rattle.yaml_spec.specs.Text.{key_text, string_text};

use crate::quoting::quoted_text;
use crate::style::fits_plain;
use std::alloc::Global;
use ytt_base::text::{Memory, Text};
use ytt_base::tree::Key;

fn string_text(alloc: Global, text: &Text) -> Result<Text, Memory>
    ensures { IfOk result (λ t. t ≡ string_text text.now) }
{
    if fits_plain(text.as_str()) {
        text.copy()
    } else {
        quoted_text(alloc, text.as_str())
    }
}

fn bool_text(alloc: Global, b: bool) -> Result<Text, Memory>
    ensures { IfOk result (λ t. t ≡ (if b then codes "true" else codes "false")) }
{
    Text::of(alloc, if b { "true" } else { "false" })
}

/// A key as it is printed: `null`, a bool, decimal digits, or a string as it stands where it reads
/// back as itself, and else in double quotes on one line. Its only error is want of memory.
pub fn key_text(alloc: Global, key: &Key) -> Result<Text, Memory>
    ensures { IfOk result (λ t. t ≡ key_text (key_of key.now)) }
{
    match key {
        Key::Null => Text::of(alloc, "null"),
        Key::Bool(b) => bool_text(alloc, *b),
        Key::Int(n) => Ok(Text::of_string(format!(in alloc; "{n}")?)),
        Key::Str(text) => string_text(alloc, text),
    }
}
