// YAML: a value as one document, and the one document of a text.
ghost use Rattle.std.specs.Prelude.{◌≡◌, IfOk, true};
ghost use Rattle.std.specs.Str.{is_utf8};
ghost use Rattle.mod_json.specs.View.{text_at};
ghost use Rattle.module_spec.specs.YamlCodec.{decode, document_read, distinct_of, encode, only_one, tree_read};
ghost use Rattle.star_steps.specs.Names.{Gives, Ok, Owns, or_fail, seen, state_in, tree_of, trees_of, value_of, no_trees, tree};
ghost use Rattle.star_values.specs.declared.value.Value.TheVariants as value;
ghost use Rattle.yaml_noted.specs.View.{documents_of};
ghost use Rattle.yaml_spec.specs.Text as printed;
ghost use Rattle.ytt_base.specs.declared.fault.FaultKind.TheVariants as kind;
ghost use Rattle.mod_codec.specs.View.{Tells};

use mod_json::give_tree;
use node_build::to_tree;
use object_arena::{Arena, Ref, Value, Work};
use sqlite_items::Items;
use star_steps::{Given, refusal};
use std::alloc::Global;
use yaml_noted::NotedDocs;
use yaml_print::print_text;
use yaml_read::{plain_trees, read_noted};
use ytt_base::fault::{FaultKind, Place, Stop};
use ytt_base::text::{Memory, Text};
use ytt_base::tree::Tree;

/// A text of as many bytes is too long to be read.
const TOO_LONG: u64 = 1 << 32;

/// The text of a value as one document. It takes the steps of the value's tree; `NotYaml` where it has none, and `TooDeep` where it nests
/// more than 100 collections.
pub(crate) fn yaml_encode(arena: &mut Arena, work: &mut Work, value: Value, at: Place) -> Given
    requires { Owns (seen arena.old) value }
    ensures row { Gives (encode at (value_of (seen arena.old) value) (state_in (seen arena.old) work.old.steps)) result (seen arena.old) (seen arena.new) work.new.steps }
    ensures depth { work.new.depth ≡ work.old.depth }
{
    let tree = to_tree(arena, work, value, at)?;
    let text = document_text(arena.alloc(), tree)?;
    Ok(arena.new_text(text)?)
}

fn document_text(alloc: Global, document: Tree) -> Result<Text, Memory>
    ensures text { IfOk result (λ t. t ≡ printed.Text (tree (tree_of document) no_trees)) }
    ensures utf8 { IfOk result (λ t. is_utf8 t ≡ true) }
{
    let mut trees = Items::new(alloc);
    trees.push(document)?;
    let text = print_text(alloc, &trees)?;
    // A string slice is UTF-8.
    let _slice = text.as_str();
    Ok(text)
}

/// A fresh value of the one document of a text, which is None where there is none. It takes a sixteenth of the bytes of the text and of a
/// text that it is, and its members, as steps; `CodecForm` where the text isn't YAML or has more documents.
pub(crate) fn yaml_decode(arena: &mut Arena, steps: &mut u64, text: Ref, at: Place) -> Given
    requires { Owns (seen arena.old) (value.Text text) }
    ensures { Gives (decode at (text_at (seen arena.old) text) (state_in (seen arena.old) steps.old)) result (seen arena.old) (seen arena.new) steps.new }
{
    let tree = document_of(arena, arena.text(text).as_str(), at)?;
    give_tree(arena, steps, text, &tree, at)
}

/// The one document of a text.
fn document_of(arena: &Arena, text: &str, at: Place) -> Result<Tree, Stop>
    ensures { Tells tree_of result (or_fail kind.CodecForm at (tree_read text.now)) }
{
    if text.len() as u64 >= TOO_LONG {
        return Err(refusal(arena, FaultKind::CodecForm, at));
    }
    match read_noted(arena.alloc(), text.as_bytes(), 1) {
        Ok(documents) => only_document(arena, &documents, at),
        Err(Stop::Memory) => Err(Stop::Memory),
        Err(Stop::Fault(_)) => Err(refusal(arena, FaultKind::CodecForm, at)),
    }
}

/// The only one of documents, null ones among them.
fn only_document(arena: &Arena, documents: &NotedDocs, at: Place) -> Result<Tree, Stop>
    ensures { Tells tree_of result (or_fail kind.CodecForm at (document_read (distinct_of (Ok (documents_of documents.now))))) }
{
    match plain_trees(arena.alloc(), documents) {
        Ok(mut trees) => {
            if documents.items.len() > 1 {
                return Err(refusal(arena, FaultKind::CodecForm, at));
            }
            match trees.pop() {
                Some(tree) => Ok(tree),
                None => Ok(Tree::Null),
            }
        }
        Err(Stop::Memory) => Err(Stop::Memory),
        Err(Stop::Fault(_)) => Err(refusal(arena, FaultKind::CodecForm, at)),
    }
}
