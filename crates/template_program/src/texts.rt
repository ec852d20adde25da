// The texts of a template that are text templates.
ghost use Rattle.std.specs.Prelude.{◌≡◌, ◌||◌, ℕ, IfOk, option_map, true};
ghost use Rattle.star_grammar.specs.CodeReaders.{GivesCode};
ghost use Rattle.star_tree.specs.Whole.{expr_of};
ghost use Rattle.template_spec.specs.Compiled.{content_code, key_code};
ghost use Rattle.template_spec.specs.Template.{written_key};
ghost use Rattle.template_tree.specs.View.{in_key, notes_of};
ghost use Rattle.template_program.specs.Emits.{EmitsCode};
ghost use Rattle.text_template_spec.specs.TextTemplates as spec;
ghost use Rattle.text_template_spec.specs.TextTemplates.{texted_key, texted_value};
ghost use Rattle.ytt_base.specs.Trees.{string};
ghost use Rattle.ytt_base.specs.View.{key_of};

use crate::parts::put;
use sqlite_items::{Boxed, Items};
use star_number::number_owned;
use star_tree::code::{Expr, NodeOp, Stmt};
use std::alloc::Global;
use template_tree::TNotes;
use text_template::{is_templated, read_text};
use ytt_base::fault::{Place, Stop};
use ytt_base::text::Memory;
use ytt_base::tree::Key;

/// Whether one of an item's notes asks for text templates in the item and in what it holds.
fn asks_for_texts(notes: &TNotes) -> bool
    ensures { (file : ℕ) → result ≡ spec.asks_for_texts (notes_of file notes.now) }
{
    for note in notes.as_slice() {
        if note.name.as_str() == "yaml/text-templated-strings" {
            return true;
        }
    }
    false
}

/// Whether text templates are asked for in an item with these notes; `asked` is whether they are around it.
pub(crate) fn asked_in(asked: bool, notes: &TNotes) -> bool
    ensures { (file : ℕ) → result ≡ (asked || spec.asks_for_texts (notes_of file notes.now)) }
{
    asked || asks_for_texts(notes)
}

fn boxed(alloc: Global, expr: Expr) -> Result<Boxed<Expr>, Memory>
    ensures { IfOk result (λ b. b ≡ expr) }
{
    Ok(Boxed::new(alloc, expr)?)
}

/// The text template that a text is, or `None` for a text without a mark.
fn text_template(alloc: Global, place: Place, text: &str) -> Result<Option<Boxed<Expr>>, Stop>
    ensures { GivesCode (option_map (expr_of place.file)) result (λ r. spec.template_in r true place (string text.now)) }
{
    if !is_templated(text) {
        return Ok(None);
    }
    let pieces = read_text(alloc, text, place)?;
    Ok(Some(boxed(alloc, Expr::Template(place.line, pieces))?))
}

/// The text template that a written scalar is, or `None` for one that stays as it is written: for any where text templates aren't asked for.
fn template_in(
    alloc: Global,
    asked: bool,
    place: Place,
    scalar: &Key,
) -> Result<Option<Boxed<Expr>>, Stop>
    ensures { GivesCode (option_map (expr_of place.file)) result (λ r. spec.template_in r asked place (key_of scalar.now)) }
{
    if !asked {
        return Ok(None);
    }
    match scalar {
        Key::Str(text) => text_template(alloc, place, text.as_str()),
        Key::Null | Key::Bool(_) | Key::Int(_) => Ok(None),
    }
}

/// Puts a written key behind the instructions, as it is or from the text template that it is.
fn put_written_key(
    alloc: Global,
    asked: bool,
    place: Place,
    key: Key,
    next: &mut usize,
    code: &mut Items<Stmt>,
) -> Result<(), Stop>
    ensures { EmitsCode place.file code.old code.new next.old next.new (key_code place) result (λ r. texted_key r asked place (written_key (key_of key))) }
{
    match template_in(alloc, asked, place, &key)? {
        None => Ok(put(code, Stmt::Node(NodeOp::Key(place, key)))?),
        Some(expr) => {
            let numbered = number_owned(alloc, place.file, expr, next)?;
            Ok(put(code, Stmt::Node(NodeOp::KeyFrom(place, numbered)))?)
        }
    }
}

/// Puts the key of a pair behind the instructions, where the node has one.
pub(crate) fn put_key(
    alloc: Global,
    asked: bool,
    place: Place,
    key: Option<Key>,
    next: &mut usize,
    code: &mut Items<Stmt>,
) -> Result<(), Stop>
    ensures { EmitsCode place.file code.old code.new next.old next.new (key_code place) result (λ r. texted_key r asked place (in_key key)) }
{
    match key {
        Some(written) => put_written_key(alloc, asked, place, written, next, code),
        None => Ok(()),
    }
}

/// Puts a written value behind the instructions, as it is or from the text template that it is.
pub(crate) fn put_scalar(
    alloc: Global,
    asked: bool,
    place: Place,
    scalar: Key,
    next: &mut usize,
    code: &mut Items<Stmt>,
) -> Result<(), Stop>
    ensures { EmitsCode place.file code.old code.new next.old next.new (content_code place) result (λ r. texted_value r asked place (key_of scalar)) }
{
    match template_in(alloc, asked, place, &scalar)? {
        None => Ok(put(code, Stmt::Node(NodeOp::Value(place, scalar)))?),
        Some(expr) => {
            let numbered = number_owned(alloc, place.file, expr, next)?;
            Ok(put(code, Stmt::Node(NodeOp::ValueFrom(place, numbered)))?)
        }
    }
}
