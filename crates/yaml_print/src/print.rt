// Documents, one after another.
ghost use Rattle.ytt_base.specs.Trees.{AreTrees, Writable};
ghost use Rattle.ytt_base.specs.View.{tree_of, trees_of};
ghost use Rattle.ytt_outside.specs.Sink.{SinkCounts, Writes};
ghost use Rattle.yaml_print.specs.Puts.{Puts};
ghost use Rattle.yaml_spec.specs.ReadsBack.{ReadsAlone};
ghost use Rattle.yaml_spec.specs.Text.{Text, document_text};

use crate::blocks::write_node;
use crate::indent::Indent;
use crate::printer::Printer;
use crate::put::Put;
use crate::scalar::write_line;
use ytt_base::tree::{Tree, Trees};
use ytt_outside::sink::{Sink, SinkFailed};

/// A document. The lines of a literal stand at indent 2.
fn write_document<W: Put>(tree: &Tree, out: &mut W)
    ensures { Puts W.has out.old out.new (document_text (tree_of tree.now)) }
{
    match tree {
        Tree::List(_) => write_node(tree, &Indent::none(), out),
        Tree::Map(_) => write_node(tree, &Indent::none(), out),
        _ => write_line(tree, &Indent::inside(&Indent::none()), out),
    }
}

/// The documents, with a line `---` between two.
#[tactic(auto, using(crate::proofs::Putting::putting))]
pub fn write_documents<W: Put>(trees: &[Tree], out: &mut W)
    ensures { Puts W.has out.old out.new (Text (trees_of trees.now)) }
{
    if let Some((first, rest)) = trees.split_first() {
        write_document(first, out);
        for tree in rest {
            out.put("---\n");
            write_document(tree, out);
        }
    }
}

/// Appends the text of the documents to the sink, or on failure a prefix of it. It takes no memory.
///
/// Documents stand in their order, with a line `---` between two. What `buffer` held is
/// overwritten: the text goes through it, and is written when it is full and at the end.
/// `SinkFailed` comes only where the sink's count of failures rose. Where no map has a key twice, no
/// document is null and none nests more than 100 collections, the text reads back: a reader of this
/// profile gets these documents from it, and no others.
pub fn print_to<O: Sink>(
    trees: &Trees,
    out: &mut O,
    buffer: &mut [u8; 4096],
) -> Result<(), SinkFailed>
    ensures bytes { Writes (O.held out.old) (O.held out.new) (Text (trees_of trees.now)) result }
    ensures reads_back { AreTrees (trees_of trees.now) → Writable (trees_of trees.now) → ReadsAlone (Text (trees_of trees.now)) (trees_of trees.now) }
    ensures cause { SinkCounts (O.faults out.old) (O.faults out.new) result }
{
    let mut printer = Printer::new(out, buffer);
    write_documents(trees.as_slice(), &mut printer);
    printer.finish()
}
