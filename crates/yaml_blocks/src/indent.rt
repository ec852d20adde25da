// The indents of the lines of a block scalar.
ghost use Rattle.std.specs.Prelude.{◌≡◌, ◌==◌, ◌^◌, ◌<◌, ◌≤◌};
ghost use Rattle.std.specs.Option.{option_map};
ghost use Rattle.ytt_base.specs.Outcomes.{Gives};
ghost use Rattle.yaml_spec.specs.Blocks.{found_indent, is_spaces, too_long};
ghost use Rattle.yaml_spec.specs.Bytes.{indent};
ghost use Rattle.yaml_spec.specs.Held.{plain_lines};
ghost use Rattle.yaml_spec.specs.Positions.{least_under};
ghost use Rattle.yaml_blocks.specs.BlockLines.{content_at, indent_of};

use std::alloc::Global;
use yaml_text::{indent, refusal};
use ytt_base::fault::{FaultKind, Place, Stop};
use ytt_base::line::Line;

/// Whether the text is nothing but spaces.
#[tactic(auto, using(crate::proofs::BlockIndents::spaces))]
fn is_spaces(text: &str) -> bool
    ensures { result ≡ is_spaces text.now }
{
    indent(text) == text.len()
}

/// The least indent of a block scalar's lines under a parent of this indent.
pub fn least_under(parent: i64) -> usize
    ensures least { result ≡ least_under parent }
    ensures bound { result ≤ 2 ^ 63 }
{
    if parent < 0 { 0 } else { parent as usize + 1 }
}

/// The indent of the first line that is more than spaces, if it is not below the least one.
fn found_indent(least: usize, below: &[Line]) -> Option<usize>
    ensures { result ≡ found_indent least (plain_lines below.now) }
{
    for line in below {
        let text = line.text.as_str();
        if !is_spaces(text) {
            let found = indent(text);
            return if least <= found { Some(found) } else { None };
        }
    }
    None
}

/// The place of the line of spaces alone that is longer than the indent, before the first line
/// that is more than spaces.
fn too_long(indent: usize, below: &[Line]) -> Option<Place>
    ensures { result ≡ too_long indent (plain_lines below.now) }
{
    for line in below {
        if !is_spaces(line.text.as_str()) {
            return None;
        }
        if indent < line.text.as_str().len() {
            return Some(line.place);
        }
    }
    None
}

/// The content indent, or `None` where no line has content. The indentation indicator counts from
/// the parent's indent; without one it is that of the first line with content, before which an
/// empty line with more spaces is YamlForm.
pub fn content_indent(
    alloc: Global,
    least: usize,
    digit: usize,
    below: &[Line],
) -> Result<Option<usize>, Stop>
    requires bound { least ≤ 2 ^ 63 }
    requires small { digit ≤ 9 }
    ensures { Gives (λ n. n) result (indent_of least digit (plain_lines below.now)) }
{
    if digit > 0 {
        return Ok(Some(least + digit - 1));
    }
    let Some(found) = found_indent(least, below) else {
        return Ok(None);
    };
    match too_long(found, below) {
        Some(place) => Err(refusal(alloc, FaultKind::YamlForm, place)),
        None => Ok(Some(found)),
    }
}

/// What a line adds to a scalar of this content indent, and `None` for a line that ends it.
pub fn content(indent_at: Option<usize>, text: &str) -> Option<&str>
    ensures { option_map (λ t. t.now) result ≡ content_at indent_at text.now }
{
    let spaces = indent(text);
    let least = indent_at.unwrap_or(text.len());
    if least <= spaces {
        return Some(&text[least..]);
    }
    if spaces == text.len() {
        return Some(&text[spaces..]);
    }
    None
}
