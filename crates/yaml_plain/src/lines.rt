// Plain scalars over lines.
ghost use Rattle.std.specs.Prelude.{◌≡◌, ◌≤◌, List, ℕ, [], ◌∷◌, ◌++◌, IfOk, OnOk, Ok, map as each, replicate};
ghost use Rattle.ytt_base.specs.Outcomes.{Gives, and_then};
ghost use Rattle.ytt_base.specs.View.{tree_of};
ghost use Rattle.yaml_spec.specs.Flow.{size};
ghost use Rattle.yaml_spec.specs.Folding.{whole_line};
ghost use Rattle.yaml_spec.specs.Plain.{plain_lines};
ghost use Rattle.yaml_quotes.specs.Joining.{with_parts};
ghost use Rattle.yaml_plain.specs.Lines.{further_from, text_from, typed_from};
ghost use Rattle.yaml_plain.specs.Trees.{as_tree};
ghost use Rattle.yaml_text.specs.View.{cursor_of};

use crate::ends::{hangs, split_plain};
use crate::further::{Further, look_further};
use crate::starts::start_fault;
use std::alloc::Global;
use yaml_kinds::type_plain;
use yaml_quotes::Folded;
use yaml_text::{Cursor, is_blank, refusal};
use ytt_base::fault::{FaultKind, Place, Stop};
use ytt_base::text::{Memory, Text};
use ytt_base::tree::Tree;

/// Adds a part and so many empty lines, behind which another part follows.
fn add_part(folded: &mut Folded, part: &str, empties: usize) -> Result<(), Memory>
    ensures { OnOk result ((next : List ℕ) (parts : List (List ℕ)) → with_parts folded.old (each whole_line (part.now ∷ (replicate empties [] ++ next ∷ parts))) ≡ with_parts folded.new (each whole_line (next ∷ parts))) }
{
    folded.add(part, false)?;
    for _line in 0..empties {
        folded.add("", false)?;
    }
    Ok(())
}

/// The text of a plain scalar with this first part, behind which its line ends, and the place behind it.
fn read_further<'a>(
    alloc: Global,
    in_flow: bool,
    least: usize,
    first: &'a str,
    here: Cursor<'a>,
) -> Result<(Text, Cursor<'a>), Stop>
    ensures text { Gives (λ r. (r.0, cursor_of r.1)) result (further_from in_flow least first.now (cursor_of here.entry)) }
    ensures within { IfOk result (λ r. size (cursor_of r.1) ≤ size (cursor_of here.entry)) }
{
    let mut folded = Folded::new(alloc);
    let mut last = first;
    let mut end = here;
    let mut empties = 0;
    for (at, line) in here.below.iter().enumerate() {
        match look_further(in_flow, least, line.text.as_str()) {
            Further::Empty => empties += 1,
            Further::Ends => break,
            Further::Wrong => return Err(refusal(alloc, FaultKind::YamlForm, line.place)),
            Further::GoesOn(part, behind) => {
                add_part(&mut folded, last, empties)?;
                last = part;
                empties = 0;
                end = Cursor {
                    place: line.place,
                    text: behind,
                    below: &here.below[at + 1..],
                };
                if !is_blank(behind) {
                    break;
                }
            }
        }
    }
    Ok((folded.finish(last)?, end))
}

/// The text of a plain scalar with this first part, and the place behind it.
fn read_text<'a>(
    alloc: Global,
    in_flow: bool,
    least: usize,
    first: &'a str,
    here: Cursor<'a>,
) -> Result<(Text, Cursor<'a>), Stop>
    ensures text { Gives (λ r. (r.0, cursor_of r.1)) result (text_from in_flow least first.now (cursor_of here.entry)) }
    ensures within { IfOk result (λ r. size (cursor_of r.1) ≤ size (cursor_of here.entry)) }
{
    if is_blank(here.text) {
        read_further(alloc, in_flow, least, first, here)
    } else {
        Ok((Text::of(alloc, first)?, here))
    }
}

/// The value of a plain scalar with this first part, and the place behind it. Its faults are told at `place`.
fn read_typed<'a>(
    alloc: Global,
    in_flow: bool,
    least: usize,
    place: Place,
    first: &'a str,
    here: Cursor<'a>,
) -> Result<(Tree, Cursor<'a>), Stop>
    ensures scalar { Gives (λ r. (tree_of r.0, cursor_of r.1)) result (typed_from in_flow least place first.now (cursor_of here.entry)) }
    ensures within { IfOk result (λ r. size (cursor_of r.1) ≤ size (cursor_of here.entry)) }
{
    let (text, end) = read_text(alloc, in_flow, least, first, here)?;
    Ok((type_plain(alloc, &text, place)?, end))
}

/// The value at the start of a plain scalar, and the place behind it (YAML 1.2.2, 7.3.3). It goes on
/// over lines of at least the indent `least`, and in brackets over lines of any.
pub fn read_plain_scalar<'a>(
    alloc: Global,
    in_flow: bool,
    least: usize,
    cursor: Cursor<'a>,
) -> Result<(Tree, Cursor<'a>), Stop>
    ensures scalar { Gives (λ r. (tree_of r.0, cursor_of r.1)) result (and_then as_tree (plain_lines in_flow least (cursor_of cursor.entry))) }
    ensures within { IfOk result (λ r. size (cursor_of r.1) ≤ size (cursor_of cursor.entry)) }
{
    if let Some(kind) = start_fault(in_flow, cursor.text) {
        return Err(refusal(alloc, kind, cursor.place));
    }
    let (part, behind) = split_plain(in_flow, cursor.text);
    if hangs(part, behind) {
        return Err(refusal(alloc, FaultKind::YamlForm, cursor.place));
    }
    let here = Cursor {
        place: cursor.place,
        text: behind,
        below: cursor.below,
    };
    read_typed(alloc, in_flow, least, cursor.place, part, here)
}
