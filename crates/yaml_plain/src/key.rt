// Plain keys.
ghost use Rattle.std.specs.Prelude.{◌≡◌, IfOk};
ghost use Rattle.yaml_kinds.specs.View.{key_or_fault};
ghost use Rattle.yaml_spec.specs.Plain.{plain_key};

use crate::ends::{hangs, split_plain};
use std::alloc::Global;
use yaml_kinds::plain_scalar;
use ytt_base::fault::FaultKind;
use ytt_base::text::{Memory, Text};
use ytt_base::tree::Key;

/// The plain key at the start of a text, by its form, or the fault that it is. The merge key `<<` is
/// left out of the profile: YamlOut.
pub fn read_plain_key(
    alloc: Global,
    in_flow: bool,
    text: &str,
) -> Result<Result<Key, FaultKind>, Memory>
    ensures { IfOk result (λ k. key_or_fault k ≡ plain_key in_flow text.now) }
{
    let (part, behind) = split_plain(in_flow, text);
    if hangs(part, behind) {
        return Ok(Err(FaultKind::YamlForm));
    }
    if part == "<<" {
        return Ok(Err(FaultKind::YamlOut));
    }
    plain_scalar(&Text::of(alloc, part)?)
}
