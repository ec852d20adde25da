// A string in literal style, line by line.
ghost use Rattle.std.specs.Prelude.{◌∷◌, ◌++◌, [], List};
ghost use Rattle.yaml_print.specs.Indent.{width};
ghost use Rattle.yaml_print.specs.Puts.{Puts};
ghost use Rattle.yaml_spec.specs.Text.{literal_line, literal_lines, literal_text, pieces};

use crate::indent::{Indent, write_indent};
use crate::literal_fit::{literal_header, split_at_break};
use crate::put::Put;

/// A line under its indent, and its break. An empty one has no indent.
#[tactic(auto, using(crate::proofs::Putting::putting))]
fn write_literal_line<W: Put>(line: &str, indent: &Indent<'_>, out: &mut W)
    ensures { Puts W.has out.old out.new (literal_line (width indent.now) line.now) }
{
    if line.is_empty() {
        out.put("\n");
        return;
    }
    write_indent(indent, out);
    out.put(line);
    out.put("\n");
}

/// The lines of the string. Where nothing stands behind its last break, no line is written for it.
#[tactic(auto, using(crate::proofs::Literals::lines))]
fn write_literal_lines<W: Put>(text: &str, indent: &Indent<'_>, out: &mut W)
    ensures { Puts W.has out.old out.new (literal_lines (width indent.now) (pieces text.now)) }
{
    let mut rest = text;
    while let Some((line, below)) = split_at_break(rest) {
        write_literal_line(line, indent, out);
        rest = below;
    }
    if !rest.is_empty() {
        write_literal_line(rest, indent, out);
    }
}

/// The string in literal style, its lines at this indent, with the break at its end.
#[tactic(auto, using(crate::proofs::Putting::putting))]
pub fn write_literal<W: Put>(text: &str, indent: &Indent<'_>, out: &mut W)
    ensures { Puts W.has out.old out.new (literal_text (width indent.now) text.now) }
{
    out.put(literal_header(text));
    out.put("\n");
    write_literal_lines(text, indent, out);
}
