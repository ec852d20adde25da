// Expressions, put behind what is listed. `file` is the file of the places in them.
ghost use Rattle.std.specs.Prelude.{◌≡◌, ◌∷◌, ◌++◌, OnOk, string_bytes};
ghost use Rattle.code_spec.specs.Code.{BinaryOperator};
ghost use Rattle.yaml_spec.specs.Bytes.{space};
ghost use Rattle.listing.specs.Forms.{binary_words, clause_phrase, entry_phrase, inside, opening, operator_words, parameter_phrase, piece_phrase, spaced, spaced_optional};
ghost use Rattle.listing_spec.specs.Listing.{clauses_phrases, entries_phrases, expr_phrase, exprs_phrases, parameters_phrases, pieces_phrases};
ghost use Rattle.listing_spec.specs.Phrases.{bracketed, phrase_text, spaced_text};
ghost use Rattle.star_tree.specs.Listed.{clause_of, clauses_of, entries_of, entry_of, optional_of, piece_of, pieces_of};
ghost use Rattle.star_tree.specs.Whole.{binary_operator_of, expr_of, exprs_of, parameter_of, parameters_of};

use crate::quoted::push_quoted;
use crate::texts::{Pushed, push, push_integer, push_word};
use crate::words::{binary_word, closing, form_word, unary_word};
use sqlite_items::{Boxed, Items};
use star_tree::code::{BinOp, Clause, Entry, Expr, Param, Params, Piece};

/// Puts the words of an operator between its operands.
fn push_binary(op: BinOp, out: &mut String) -> Pushed
    ensures { OnOk result (string_bytes out.new ≡ string_bytes out.old ++ binary_words (binary_operator_of op)) }
{
    match op {
        BinOp::NotIn => push("not in", out),
        _ => push(binary_word(op), out),
    }
}

/// Puts the operator of an expression, where it has one.
fn push_operator(file: u32, expr: &Expr, out: &mut String) -> Pushed
    ensures { OnOk result (string_bytes out.new ≡ string_bytes out.old ++ operator_words (expr_of file expr.now)) }
{
    match expr {
        Expr::Unary(_, op, _) => push(unary_word(*op), out),
        Expr::Binary(_, op, _, _) => push_binary(*op, out),
        _ => Ok(()),
    }
}

/// Puts what opens the form of an expression.
fn push_opening(file: u32, expr: &Expr, out: &mut String) -> Pushed
    ensures { OnOk result (string_bytes out.new ≡ string_bytes out.old ++ opening (expr_of file expr.now)) }
{
    push(form_word(expr), out)?;
    push_operator(file, expr, out)
}

/// Puts what stands inside the form of an expression, or a literal or a name whole.
#[cycle(put)]
fn push_inside(file: u32, expr: &Expr, out: &mut String) -> Pushed
    ensures { OnOk result (string_bytes out.new ≡ string_bytes out.old ++ inside (expr_of file expr.now)) }
{
    match expr {
        Expr::Int(_, number) => push_integer(*number, out),
        Expr::Text(_, text) => push_quoted(text.as_str(), out),
        Expr::Name(_, name) => push(name.as_str(), out),
        Expr::List(_, members) | Expr::Tuple(_, members) => push_exprs(file, members, out),
        Expr::Dict(_, entries) => push_entries(file, entries, out),
        Expr::Unary(_, _, a) | Expr::Star(_, a) | Expr::Stars(_, a) => {
            push_expr(file, " ", a, out)
        }
        Expr::Named(_, name, a) => {
            push_word(name.as_str(), out)?;
            push_expr(file, " ", a, out)
        }
        Expr::Binary(_, _, a, b) | Expr::And(_, a, b) | Expr::Or(_, a, b) | Expr::Index(_, a, b) =>
            {
                push_expr(file, " ", a, out)?;
                push_expr(file, " ", b, out)
            }
        Expr::If(_, test, a, b) => {
            push_expr(file, " ", test, out)?;
            push_expr(file, " ", a, out)?;
            push_expr(file, " ", b, out)
        }
        Expr::Call(_, function, args) => {
            push_expr(file, " ", function, out)?;
            push_exprs(file, args, out)
        }
        Expr::Slice(_, a, low, high, step) => {
            push_expr(file, " ", a, out)?;
            push_optional(file, low, out)?;
            push_optional(file, high, out)?;
            push_optional(file, step, out)
        }
        Expr::Dot(_, a, name) => {
            push_expr(file, " ", a, out)?;
            push_word(name.as_str(), out)
        }
        Expr::Lambda(_, _, params, body) => {
            push_params(file, params, out)?;
            push_expr(file, " ", body, out)
        }
        Expr::ListFor(_, element, clauses) => {
            push_expr(file, " ", element, out)?;
            push_clauses(file, clauses, out)
        }
        Expr::DictFor(_, key, value, clauses) => {
            push_expr(file, " ", key, out)?;
            push_expr(file, " ", value, out)?;
            push_clauses(file, clauses, out)
        }
        Expr::Template(_, pieces) => push_pieces(file, pieces, out),
    }
}

/// Puts an expression, behind what stands before it.
#[cycle(put)]
pub(crate) fn push_expr(file: u32, before: &str, expr: &Boxed<Expr>, out: &mut String) -> Pushed
    ensures { OnOk result (string_bytes out.new ≡ string_bytes out.old ++ (before.now ++ phrase_text (expr_phrase (expr_of file expr.now)))) }
{
    let expr = expr.get();
    push(before, out)?;
    push_opening(file, expr, out)?;
    push_inside(file, expr, out)?;
    push(closing(expr), out)
}

/// Puts expressions, a space before each.
#[cycle(put)]
pub(crate) fn push_exprs(file: u32, exprs: &Items<Expr>, out: &mut String) -> Pushed
    ensures { OnOk result (string_bytes out.new ≡ string_bytes out.old ++ spaced_text (exprs_phrases (exprs_of file exprs.now))) }
{
    for expr in exprs.as_slice() {
        push(" ", out)?;
        push_opening(file, expr, out)?;
        push_inside(file, expr, out)?;
        push(closing(expr), out)?;
    }
    Ok(())
}

/// Puts a part that may be left out, behind a space.
#[cycle(put)]
fn push_optional(file: u32, part: &Option<Boxed<Expr>>, out: &mut String) -> Pushed
    ensures { OnOk result (string_bytes out.new ≡ string_bytes out.old ++ spaced_optional (optional_of file part.now)) }
{
    match part {
        Some(expr) => {
            let expr = expr.get();
            push(" ", out)?;
            push_opening(file, expr, out)?;
            push_inside(file, expr, out)?;
            push(closing(expr), out)
        }
        None => push(" -", out),
    }
}

/// Puts an entry of a dict, behind a space.
#[cycle(put)]
fn push_entry(file: u32, entry: &Entry, out: &mut String) -> Pushed
    ensures { OnOk result (string_bytes out.new ≡ string_bytes out.old ++ spaced (entry_phrase (entry_of file entry.now))) }
{
    match entry {
        Entry::Pair(key, value) => {
            push_expr(file, " (", key, out)?;
            push_expr(file, " ", value, out)?;
            push(")", out)
        }
    }
}

#[cycle(put)]
fn push_entries(file: u32, entries: &Items<Entry>, out: &mut String) -> Pushed
    ensures { OnOk result (string_bytes out.new ≡ string_bytes out.old ++ spaced_text (entries_phrases (entries_of file entries.now))) }
{
    for entry in entries.as_slice() {
        push_entry(file, entry, out)?;
    }
    Ok(())
}

/// Puts a clause of a comprehension, behind a space.
#[cycle(put)]
fn push_clause(file: u32, clause: &Clause, out: &mut String) -> Pushed
    ensures { OnOk result (string_bytes out.new ≡ string_bytes out.old ++ spaced (clause_phrase (clause_of file clause.now))) }
{
    match clause {
        Clause::ForIn(target, members) => {
            push_expr(file, " (for ", target, out)?;
            push_expr(file, " ", members, out)?;
            push(")", out)
        }
        Clause::OnlyIf(test) => {
            push_expr(file, " (if ", test, out)?;
            push(")", out)
        }
    }
}

#[cycle(put)]
fn push_clauses(file: u32, clauses: &Items<Clause>, out: &mut String) -> Pushed
    ensures { OnOk result (string_bytes out.new ≡ string_bytes out.old ++ spaced_text (clauses_phrases (clauses_of file clauses.now))) }
{
    for clause in clauses.as_slice() {
        push_clause(file, clause, out)?;
    }
    Ok(())
}

/// Puts a piece of a text template, behind a space.
#[cycle(put)]
fn push_piece(file: u32, piece: &Piece, out: &mut String) -> Pushed
    ensures { OnOk result (string_bytes out.new ≡ string_bytes out.old ++ spaced (piece_phrase (piece_of file piece.now))) }
{
    match piece {
        Piece::Written(text) => {
            push(" ", out)?;
            push_quoted(text.as_str(), out)
        }
        Piece::Shown(expr) => push_expr(file, " ", expr, out),
    }
}

#[cycle(put)]
fn push_pieces(file: u32, pieces: &Items<Piece>, out: &mut String) -> Pushed
    ensures { OnOk result (string_bytes out.new ≡ string_bytes out.old ++ spaced_text (pieces_phrases (pieces_of file pieces.now))) }
{
    for piece in pieces.as_slice() {
        push_piece(file, piece, out)?;
    }
    Ok(())
}

#[cycle(put)]
fn push_param(file: u32, param: &Param, out: &mut String) -> Pushed
    ensures { OnOk result (string_bytes out.new ≡ string_bytes out.old ++ phrase_text (parameter_phrase (parameter_of file param.now))) }
{
    match param {
        Param::Required(name) => push(name.as_str(), out),
        Param::Defaulted(name, default) => {
            push("(default", out)?;
            push_word(name.as_str(), out)?;
            push_expr(file, " ", default, out)?;
            push(")", out)
        }
        Param::BareStar => push("*", out),
        Param::Starred(name) => {
            push("(star", out)?;
            push_word(name.as_str(), out)?;
            push(")", out)
        }
        Param::DoubleStarred(name) => {
            push("(stars", out)?;
            push_word(name.as_str(), out)?;
            push(")", out)
        }
    }
}

/// Puts the parameters of a function in brackets, behind a space.
#[cycle(put)]
pub(crate) fn push_params(file: u32, params: &Params, out: &mut String) -> Pushed
    ensures { OnOk result (string_bytes out.new ≡ string_bytes out.old ++ spaced (bracketed (parameters_phrases (parameters_of file params.now)))) }
{
    push(" (", out)?;
    let mut between = "";
    for param in params.as_slice() {
        push(between, out)?;
        push_param(file, param, out)?;
        between = " ";
    }
    push(")", out)
}
