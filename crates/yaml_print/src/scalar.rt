// Scalars and keys.
ghost use Rattle.std.specs.Prelude.{◌∷◌, ◌++◌, [], List, if◌then◌else◌, codes};
ghost use Rattle.std.specs.Fmt.{signed_decimal};
ghost use Rattle.ytt_base.specs.Trees.{string};
ghost use Rattle.ytt_base.specs.View.{key_of, tree_of};
ghost use Rattle.yaml_print.specs.Indent.{width};
ghost use Rattle.yaml_print.specs.LineText.{line_text};
ghost use Rattle.yaml_print.specs.Puts.{Puts};
ghost use Rattle.yaml_spec.specs.Text.{key_text, scalar_text, string_text};

use crate::double_quotes::write_quoted;
use crate::indent::Indent;
use crate::literal::write_literal;
use crate::literal_fit::fits_literal;
use crate::put::Put;
use itoa::Buffer;
use yaml_styles::fits_plain;
use ytt_base::tree::{Key, Tree};

fn write_bool<W: Put>(b: bool, out: &mut W)
    ensures { Puts W.has out.old out.new (if b then codes "true" else codes "false") }
{
    if b {
        out.put("true");
    } else {
        out.put("false");
    }
}

fn write_int<W: Put>(n: i128, out: &mut W)
    ensures { Puts W.has out.old out.new (signed_decimal n) }
{
    let mut buffer = Buffer::new();
    out.put(buffer.format(n));
}

/// The string in the first style of one line that fits: as it stands, else in double quotes.
fn write_string<W: Put>(text: &str, out: &mut W)
    ensures { Puts W.has out.old out.new (string_text text.now) }
{
    if fits_plain(text) {
        out.put(text);
    } else {
        write_quoted(text, out);
    }
}

/// A key of a map.
pub fn write_key<W: Put>(key: &Key, out: &mut W)
    ensures { Puts W.has out.old out.new (key_text (key_of key.now)) }
{
    match key {
        Key::Null => out.put("null"),
        Key::Bool(b) => write_bool(*b, out),
        Key::Int(n) => write_int(*n, out),
        Key::Str(s) => write_string(s.as_str(), out),
    }
}

/// A string as a value, in the first style that fits: as it stands, in literal style, else in double
/// quotes.
#[tactic(auto, using(crate::proofs::Putting::putting))]
fn write_string_value<W: Put>(text: &str, indent: &Indent<'_>, out: &mut W)
    ensures { Puts W.has out.old out.new (scalar_text (width indent.now) (string text.now)) }
{
    if fits_plain(text) {
        out.put(text);
        out.put("\n");
        return;
    }
    if fits_literal(text) {
        write_literal(text, indent, out);
        return;
    }
    write_quoted(text, out);
    out.put("\n");
}

/// A scalar, or an empty list or map, with the break at its end. Of another list or map it writes
/// the empty one.
#[tactic(auto, using(crate::proofs::Putting::putting))]
pub fn write_line<W: Put>(tree: &Tree, indent: &Indent<'_>, out: &mut W)
    ensures { Puts W.has out.old out.new (line_text (width indent.now) (tree_of tree.now)) }
{
    match tree {
        Tree::Null => out.put("null\n"),
        Tree::Bool(b) => {
            write_bool(*b, out);
            out.put("\n");
        }
        Tree::Int(n) => {
            write_int(*n, out);
            out.put("\n");
        }
        Tree::Str(s) => write_string_value(s.as_str(), indent, out),
        Tree::List(_) => out.put("[]\n"),
        Tree::Map(_) => out.put("{}\n"),
    }
}
