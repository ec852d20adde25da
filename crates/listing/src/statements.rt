// Instructions, put behind what is listed. `file` is the file of the places in them.
ghost use Rattle.std.specs.Prelude.{◌≡◌, ℕ, [], ◌∷◌, ◌++◌, OnOk, codes, string_bytes};
ghost use Rattle.std.specs.Option.{option_map};
ghost use Rattle.yaml_spec.specs.Bytes.{space};
ghost use Rattle.ytt_base.specs.View.{key_of};
ghost use Rattle.listing.specs.Forms.{spaced};
ghost use Rattle.listing.specs.Lines.{fragment_rest, function_rest, node_rest, rest};
ghost use Rattle.listing_spec.specs.Listing.{binary_word, instruction_phrases, instruction_place, line_listed, loaded_phrases, node_place, scalar_phrase};
ghost use Rattle.listing_spec.specs.Phrases.{spaced_text};
ghost use Rattle.star_tree.specs.View.{item_kind_of};
ghost use Rattle.star_tree.specs.Whole.{binary_operator_of, instruction_of, loaded_names_of, parameters_of, part_of};

use crate::exprs::{push_expr, push_exprs, push_params};
use crate::quoted::push_quoted;
use crate::texts::{Pushed, push, push_integer, push_line, push_word};
use crate::words::{binary_word, first_word, holds_word, kind_word};
use sqlite_items::Items;
use star_tree::ItemKind;
use star_tree::code::{BinOp, Loaded, NodeOp, Params, Stmt};
use ytt_base::text::Text;
use ytt_base::tree::Key;

/// Puts a written key or value, behind a space.
fn push_scalar(key: &Key, out: &mut String) -> Pushed
    ensures { OnOk result (string_bytes out.new ≡ string_bytes out.old ++ spaced (scalar_phrase (key_of key.now))) }
{
    push(" ", out)?;
    match key {
        Key::Null => push("null", out),
        Key::Bool(true) => push("true", out),
        Key::Bool(false) => push("false", out),
        Key::Int(number) => push_integer(*number, out),
        Key::Str(text) => push_quoted(text.as_str(), out),
    }
}

/// Puts the operator of an augmented assignment, behind a space.
fn push_augmented(op: BinOp, out: &mut String) -> Pushed
    ensures { OnOk result (string_bytes out.new ≡ string_bytes out.old ++ space ∷ (binary_word (binary_operator_of op) ++ codes "=")) }
{
    push_word(binary_word(op), out)?;
    push("=", out)
}

/// Puts a name that a load statement binds, and the name that it has in the loaded file, behind a space.
fn push_name(loaded: &Loaded, out: &mut String) -> Pushed
    ensures { OnOk result (string_bytes out.new ≡ string_bytes out.old ++ spaced_text (loaded_phrases (loaded_names_of (loaded.now ∷ [])))) }
{
    push(" (", out)?;
    push(loaded.bound.as_str(), out)?;
    push(" ", out)?;
    push_quoted(loaded.origin.as_str(), out)?;
    push(")", out)
}

fn push_names(names: &Items<Loaded>, out: &mut String) -> Pushed
    ensures { OnOk result (string_bytes out.new ≡ string_bytes out.old ++ spaced_text (loaded_phrases (loaded_names_of names.now))) }
{
    for name in names.as_slice() {
        push_name(name, out)?;
    }
    Ok(())
}

/// Puts the kind of a fragment's items, behind a space.
fn push_fragment(fragment: Option<ItemKind>, out: &mut String) -> Pushed
    ensures { OnOk result (string_bytes out.new ≡ string_bytes out.old ++ fragment_rest (option_map item_kind_of fragment)) }
{
    match fragment {
        Some(kind) => push_word(kind_word(kind), out),
        None => Ok(()),
    }
}

/// Puts the head of a function behind its word.
fn push_function(
    file: u32,
    fragment: Option<ItemKind>,
    name: &Text,
    params: &Params,
    out: &mut String,
) -> Pushed
    ensures { OnOk result (string_bytes out.new ≡ string_bytes out.old ++ function_rest (option_map item_kind_of fragment) name.now (parameters_of file params.now)) }
{
    push_fragment(fragment, out)?;
    push_word(name.as_str(), out)?;
    push_params(file, params, out)
}

/// Puts what stands behind the word of a part of a node.
fn push_node(file: u32, op: &NodeOp, out: &mut String) -> Pushed
    ensures { OnOk result (string_bytes out.new ≡ string_bytes out.old ++ node_rest (part_of file op.now)) }
{
    match op {
        NodeOp::Start(_, kind, holds) => {
            push_word(kind_word(*kind), out)?;
            push_word(holds_word(*holds), out)
        }
        NodeOp::Note(_, name, args) => {
            push_word(name.as_str(), out)?;
            push_exprs(file, args, out)
        }
        NodeOp::Key(_, key) | NodeOp::Value(_, key) => push_scalar(key, out),
        NodeOp::KeyFrom(_, expr) | NodeOp::ValueFrom(_, expr) => push_expr(file, " ", expr, out),
        NodeOp::End(_) => Ok(()),
    }
}

/// Puts what stands behind the word of an instruction.
fn push_rest(file: u32, stmt: &Stmt, out: &mut String) -> Pushed
    ensures { OnOk result (string_bytes out.new ≡ string_bytes out.old ++ rest (instruction_of file stmt.now)) }
{
    match stmt {
        Stmt::Expr(_, expr) | Stmt::Return(_, expr) | Stmt::If(_, expr) | Stmt::Elif(_, expr) => {
            push_expr(file, " ", expr, out)
        }
        Stmt::Assign(_, target, value) | Stmt::For(_, target, value) => {
            push_expr(file, " ", target, out)?;
            push_expr(file, " ", value, out)
        }
        Stmt::Augment(_, op, _, target, value) => {
            push_augmented(*op, out)?;
            push_expr(file, " ", target, out)?;
            push_expr(file, " ", value, out)
        }
        Stmt::Load(_, path, names) => {
            push(" ", out)?;
            push_quoted(path.as_str(), out)?;
            push_names(names, out)
        }
        Stmt::Def(_, _, fragment, name, params) => {
            push_function(file, *fragment, name, params, out)
        }
        Stmt::Node(op) => push_node(file, op, out),
        Stmt::Break(_) | Stmt::Continue(_) | Stmt::Pass(_) | Stmt::Else(_) | Stmt::Close(_) => {
            Ok(())
        }
    }
}

/// The line of a part of a node.
fn node_line(op: &NodeOp) -> u32
    ensures { (file : ℕ) → result ≡ (node_place (part_of file op.now)).line }
{
    match op {
        NodeOp::Start(place, _, _)
        | NodeOp::Note(place, _, _)
        | NodeOp::Key(place, _)
        | NodeOp::KeyFrom(place, _)
        | NodeOp::Value(place, _)
        | NodeOp::ValueFrom(place, _)
        | NodeOp::End(place) => place.line,
    }
}

/// The line of an instruction.
fn line_of(stmt: &Stmt) -> u32
    ensures { (file : ℕ) → result ≡ (instruction_place (instruction_of file stmt.now)).line }
{
    match stmt {
        Stmt::Expr(line, _)
        | Stmt::Assign(line, _, _)
        | Stmt::Augment(line, _, _, _, _)
        | Stmt::Load(line, _, _)
        | Stmt::Return(line, _)
        | Stmt::Break(line)
        | Stmt::Continue(line)
        | Stmt::Pass(line)
        | Stmt::If(line, _)
        | Stmt::Elif(line, _)
        | Stmt::Else(line)
        | Stmt::For(line, _, _)
        | Stmt::Def(line, _, _, _, _)
        | Stmt::Close(line) => *line,
        Stmt::Node(op) => node_line(op),
    }
}

/// Puts the line of an instruction.
pub(crate) fn push_instruction(file: u32, stmt: &Stmt, out: &mut String) -> Pushed
    ensures { OnOk result (string_bytes out.new ≡ string_bytes out.old ++ line_listed (instruction_place (instruction_of file stmt.now)).line (instruction_phrases (instruction_of file stmt.now))) }
{
    push_line(line_of(stmt), out)?;
    push(first_word(stmt), out)?;
    push_rest(file, stmt, out)?;
    push("\n", out)
}
