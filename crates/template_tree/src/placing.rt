// Placing documents.
ghost use Rattle.std.specs.Prelude.{◌≡◌, IfOk};
ghost use Rattle.star_grammar.specs.CodeReaders.{GivesCode};
ghost use Rattle.template_events.specs.View.{rows_of};
ghost use Rattle.template_spec.specs.Nesting.{placed_whole};
ghost use Rattle.template_spec.specs.Placed.{Placed};
ghost use Rattle.yaml_held.specs.Keyed.{KeyedDocuments};
ghost use Rattle.template_tree.specs.View.{template_of};
ghost use Rattle.template_tree.specs.Marked.{placed_by_levels};
ghost use Rattle.yaml_noted.specs.View.{documents_of};
ghost use Rattle.ytt_base.specs.Outcomes.{Gives};

use crate::put::puts;
use crate::slots::build;
use crate::tree::Template;
use notes_read::a_code_reader_exists;
use std::alloc::Global;
use template_checks::{Checked, first_fault, stop_at};
use template_events::{Rows, read_events};
use yaml_noted::NotedDocs;
use ytt_base::fault::Stop;

/// The template of a file's rows, or their first fault.
///
/// `rows` are the items and what the comments say, in text order, and `file` the number of their file, which the template and a fault
/// name. A statement, a block, an item or a note that doesn't stand where it may is a fault at its line, and of several the one at the
/// least line; a block that is open at the end is one only where nothing else is wrong. Want of memory is `Stop::Memory`.
fn place_rows(alloc: Global, rows: Rows, file: u32) -> Result<Template, Stop>
    ensures template { Gives template_of result (placed_by_levels file (rows_of file rows.items)) }
    ensures file { IfOk result (λ t. t.file ≡ file) }
{
    let Checked { wrong, levels } = first_fault(alloc, file, rows.as_slice())?;
    if let Some(wrong) = wrong {
        return Err(stop_at(alloc, wrong));
    }
    let puts = puts(alloc, rows, levels.as_slice())?;
    let items = build(alloc, file, puts)?;
    Ok(Template { file, items })
}

/// The template of noted documents, or the first fault of their comments and then of their placing.
///
/// `docs` are the noted documents of a text and `file` the number of their file, which the template and a fault name. Under
/// `ignore_unknown` a comment of no known form says nothing. A comment's faults are those of `read_comment`, and those of placing those of
/// `place_rows`: BlockOpen, BlockCrossed, BlockStray, TooDeep, NoteForm and CodeForm, each at its line. Want of memory is
/// `Stop::Memory`.
///
/// Where an item has a key exactly where it stands in a map, as in each text that is read, the template is placed: its nodes are of the
/// kinds of their collections, pairs alone have keys, and each statement stands where it may.
pub fn place(
    alloc: Global,
    docs: NotedDocs,
    file: u32,
    ignore_unknown: bool,
) -> Result<Template, Stop>
    ensures template { GivesCode template_of result (λ r. placed_whole r ignore_unknown file (documents_of docs)) }
    ensures placed { KeyedDocuments (documents_of docs) → IfOk result (λ t. Placed (template_of t)) }
    ensures file { IfOk result (λ t. t.file ≡ file) }
{
    a_code_reader_exists();
    let read = read_events(alloc, &docs, file, ignore_unknown);
    drop(docs);
    let rows = read?;
    place_rows(alloc, rows, file)
}
