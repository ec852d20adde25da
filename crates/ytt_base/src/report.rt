// The line that reports a fault.
ghost use Rattle.std.specs.Prelude.{◌≡◌, IfOk, string_bytes};
ghost use Rattle.std.specs.Option.{option_map};
ghost use Rattle.ytt_base.specs.FaultText.{detail_text, fault_line, line_text, name_at, place_text};

use crate::fault::{Fault, Place};
use crate::text::{Memory, Names, Text};
use std::alloc::Global;

fn name_at(names: &Names, file: u32) -> Option<&Text>
    ensures { option_map (λ t. t.now) result ≡ name_at names.now file }
{
    if file == 0 {
        return None;
    }
    names.get((file - 1) as usize)
}

fn line_text(alloc: Global, place: Place, names: &Names) -> Result<String, Memory>
    ensures { IfOk result (λ s. string_bytes s ≡ line_text names.now place) }
{
    match name_at(names, place.file) {
        None => Ok(String::new(alloc)),
        Some(name) => {
            let line = place.line;
            Ok(format!(in alloc; " at {}:{line}", name.as_str())?)
        }
    }
}

fn place_text(alloc: Global, place: Option<Place>, names: &Names) -> Result<String, Memory>
    ensures { IfOk result (λ s. string_bytes s ≡ place_text names.now place) }
{
    match place {
        None => Ok(String::new(alloc)),
        Some(place) => line_text(alloc, place, names),
    }
}

fn detail_text(alloc: Global, detail: &Text) -> Result<String, Memory>
    ensures { IfOk result (λ s. string_bytes s ≡ detail_text detail.now) }
{
    let text = detail.as_str();
    if text.is_empty() {
        return Ok(String::new(alloc));
    }
    Ok(format!(in alloc; ": {text}")?)
}

/// The line that reports a fault, with its line break: `error: KIND at FILE:LINE: DETAIL`.
///
/// `names` are the names of the files, the first for file number 1. ` at FILE:LINE` is absent where
/// the fault has no place or no file has its number, and `: DETAIL` where the detail is empty.
pub fn fault_text(alloc: Global, fault: &Fault, names: &Names) -> Result<Text, Memory>
    ensures { IfOk result (λ t. t ≡ fault_line names.now fault.now) }
{
    let place = place_text(alloc, fault.place, names)?;
    let detail = detail_text(alloc, &fault.detail)?;
    let kind = fault.kind.name();
    let line = format!(in alloc; "error: {kind}{place}{detail}\n")?;
    Ok(Text::of_string(line))
}
