// Code whole: expressions, statements, and heads of blocks. A part that stands on another line than the first has its line
// behind `@`.

use sqlite_items::{Boxed, Items};
use star_tree::code::{BinOp, Clause, Entry, Expr, Header, Loaded, Param, Stmt, UnOp};
use std::alloc::Global;
use test_shown::Shown;
use ytt_base::text::Memory;

fn unary_head(op: UnOp) -> &'static str {
    match op {
        UnOp::Minus => "(-",
        UnOp::Plus => "(+",
        UnOp::Invert => "(~",
        UnOp::Not => "(not",
    }
}

fn binary_head(op: BinOp) -> &'static str {
    match op {
        BinOp::Add => "(+",
        BinOp::Subtract => "(-",
        BinOp::Multiply => "(*",
        BinOp::FloorDivide => "(//",
        BinOp::Remainder => "(%",
        BinOp::BitAnd => "(&",
        BinOp::BitOr => "(|",
        BinOp::BitXor => "(^",
        BinOp::ShiftLeft => "(<<",
        BinOp::ShiftRight => "(>>",
        BinOp::Equal => "(==",
        BinOp::Unequal => "(!=",
        BinOp::Less => "(<",
        BinOp::Greater => "(>",
        BinOp::AtMost => "(<=",
        BinOp::AtLeast => "(>=",
        BinOp::In => "(in",
        BinOp::NotIn => "(not-in",
    }
}

/// The word that an expression begins with, none for a literal and a name, and its line.
fn head_of(expr: &Expr) -> (&'static str, u32) {
    match expr {
        Expr::Int(line, _) | Expr::Text(line, _) | Expr::Name(line, _) => ("", *line),
        Expr::Named(line, _, _) => ("", *line),
        Expr::Template(line, _) => ("template", *line),
        Expr::List(line, _) => ("(list", *line),
        Expr::Tuple(line, _) => ("(tuple", *line),
        Expr::Dict(line, _) => ("(dict", *line),
        Expr::Unary(line, op, _) => (unary_head(*op), *line),
        Expr::Star(line, _) => ("(*", *line),
        Expr::Stars(line, _) => ("(**", *line),
        Expr::Binary(line, op, _, _) => (binary_head(*op), *line),
        Expr::And(line, _, _) => ("(and", *line),
        Expr::Or(line, _, _) => ("(or", *line),
        Expr::Index(line, _, _) => ("(at", *line),
        Expr::If(line, _, _, _) => ("(if", *line),
        Expr::Call(line, _, _) => ("(call", *line),
        Expr::Slice(line, _, _, _, _) => ("(slice", *line),
        Expr::Dot(line, _, _) => ("(.", *line),
        Expr::Lambda(line, _, _, _) => ("(lambda", *line),
        Expr::ListFor(line, _, _) => ("(list-for", *line),
        Expr::DictFor(line, _, _, _) => ("(dict-for", *line),
    }
}

/// A word and its line.
fn put_word(out: &mut Shown, word: &str, line: u32) {
    out.put(word);
    if line != 1 {
        out.put("@");
        out.put_number(i128::from(line));
    }
}

/// ` PART`
#[cycle(code)]
fn put_part(out: &mut Shown, part: &Expr) {
    out.put(" ");
    put_expr(out, part);
}

/// ` PART`, or ` _` where it is left out.
#[cycle(code)]
fn put_optional(out: &mut Shown, part: &Option<Boxed<Expr>>) {
    match part {
        Some(part) => put_part(out, part.get()),
        None => out.put(" _"),
    }
}

/// Expressions, each behind a space.
#[cycle(code)]
fn put_exprs(out: &mut Shown, exprs: &Items<Expr>) {
    for expr in exprs.as_slice() {
        put_part(out, expr);
    }
}

#[cycle(code)]
fn put_entries(out: &mut Shown, entries: &Items<Entry>) {
    for Entry::Pair(key, value) in entries.as_slice() {
        put_part(out, key.get());
        out.put(":");
        put_expr(out, value.get());
    }
}

#[cycle(code)]
fn put_clauses(out: &mut Shown, clauses: &Items<Clause>) {
    for clause in clauses.as_slice() {
        match clause {
            Clause::ForIn(target, members) => {
                out.put(" for");
                put_part(out, target.get());
                put_part(out, members.get());
            }
            Clause::OnlyIf(test) => {
                out.put(" if");
                put_part(out, test.get());
            }
        }
    }
}

/// The mark and the name of a parameter.
fn param_name(param: &Param) -> (&'static str, &str) {
    match param {
        Param::Required(name) => (" ", name.as_str()),
        Param::BareStar => (" *", ""),
        Param::Starred(name) => (" *", name.as_str()),
        Param::DoubleStarred(name) => (" **", name.as_str()),
        Param::Defaulted(name, _) => (" ", name.as_str()),
    }
}

/// Parameters, each behind a space.
#[cycle(code)]
fn put_params(out: &mut Shown, params: &Items<Param>) {
    for param in params.as_slice() {
        let (mark, name) = param_name(param);
        out.put(mark);
        out.put(name);
        if let Param::Defaulted(_, value) = param {
            out.put("=");
            put_expr(out, value.get());
        }
    }
}

/// The parts of an expression.
#[cycle(code)]
fn put_parts(out: &mut Shown, expr: &Expr) {
    match expr {
        Expr::Int(_, _) | Expr::Text(_, _) | Expr::Name(_, _) | Expr::Template(_, _) => (),
        Expr::List(_, parts) | Expr::Tuple(_, parts) => put_exprs(out, parts),
        Expr::Dict(_, entries) => put_entries(out, entries),
        Expr::Unary(_, _, a) | Expr::Star(_, a) | Expr::Stars(_, a) => put_part(out, a.get()),
        Expr::Named(_, _, value) => {
            out.put("=");
            put_expr(out, value.get());
        }
        Expr::Binary(_, _, a, b) | Expr::And(_, a, b) | Expr::Or(_, a, b) | Expr::Index(_, a, b) =>
            {
                put_part(out, a.get());
                put_part(out, b.get());
            }
        Expr::If(_, test, a, b) => {
            put_part(out, test.get());
            put_part(out, a.get());
            put_part(out, b.get());
        }
        Expr::Call(_, function, args) => {
            put_part(out, function.get());
            put_exprs(out, args);
        }
        Expr::Slice(_, whole, low, high, step) => {
            put_part(out, whole.get());
            put_optional(out, low);
            put_optional(out, high);
            put_optional(out, step);
        }
        Expr::Dot(_, whole, name) => {
            put_part(out, whole.get());
            out.put(" ");
            out.put(name.as_str());
        }
        Expr::Lambda(_, _, params, body) => {
            put_params(out, params);
            out.put(" :");
            put_part(out, body.get());
        }
        Expr::ListFor(_, value, clauses) => {
            put_part(out, value.get());
            put_clauses(out, clauses);
        }
        Expr::DictFor(_, key, value, clauses) => {
            put_part(out, key.get());
            put_part(out, value.get());
            put_clauses(out, clauses);
        }
    }
}

/// An expression.
#[cycle(code)]
fn put_expr(out: &mut Shown, expr: &Expr) {
    match expr {
        Expr::Int(_, value) => out.put_number(*value),
        Expr::Text(_, text) => out.put_quoted(text.as_str()),
        Expr::Name(_, name) | Expr::Named(_, name, _) => out.put(name.as_str()),
        _ => (),
    }
    let (head, line) = head_of(expr);
    put_word(out, head, line);
    put_parts(out, expr);
    out.put(if head.starts_with("(") { ")" } else { "" });
}

/// The word that a statement begins with, and its line.
fn head_of_statement(statement: &Stmt) -> (&'static str, u32) {
    match statement {
        Stmt::Expr(line, _) => ("(do", *line),
        Stmt::Assign(line, _, _) => ("(=", *line),
        Stmt::Augment(line, op, _, _, _) => (binary_head(*op), *line),
        Stmt::Load(line, _, _) => ("(load", *line),
        Stmt::Return(line, _) => ("(return", *line),
        Stmt::Break(line) => ("break", *line),
        Stmt::Continue(line) => ("continue", *line),
        Stmt::Pass(line) => ("pass", *line),
        Stmt::If(line, _) => ("(if", *line),
        Stmt::Elif(line, _) => ("(elif", *line),
        Stmt::Else(line) => ("else", *line),
        Stmt::For(line, _, _) => ("(for", *line),
        Stmt::Def(line, _, _, _, _) => ("(def", *line),
        Stmt::Close(line) => ("end", *line),
        Stmt::Node(_) => ("node", 1),
    }
}

fn put_two(out: &mut Shown, a: &Expr, b: &Expr) {
    put_part(out, a);
    put_part(out, b);
}

fn put_signature(out: &mut Shown, name: &str, params: &Items<Param>) {
    out.put(" ");
    out.put(name);
    put_params(out, params);
}

fn put_loaded(out: &mut Shown, names: &Items<Loaded>) {
    for name in names.as_slice() {
        out.put(" ");
        out.put(name.bound.as_str());
        out.put("=");
        out.put(name.origin.as_str());
    }
}

/// A statement; of a part of a node, only that it is one.
fn put_statement(out: &mut Shown, statement: &Stmt) {
    let (head, line) = head_of_statement(statement);
    put_word(out, head, line);
    match statement {
        Stmt::Expr(_, a) | Stmt::Return(_, a) | Stmt::If(_, a) | Stmt::Elif(_, a) => {
            put_part(out, a.get())
        }
        Stmt::Assign(_, a, b) | Stmt::For(_, a, b) => put_two(out, a.get(), b.get()),
        Stmt::Augment(_, _, _, a, b) => {
            out.put("=");
            put_two(out, a.get(), b.get());
        }
        Stmt::Load(_, path, names) => {
            out.put(" ");
            out.put_quoted(path.as_str());
            put_loaded(out, names);
        }
        Stmt::Def(_, _, _, name, params) => put_signature(out, name.as_str(), params),
        _ => (),
    }
    out.put(if head.starts_with("(") { ")" } else { "" });
}

/// An expression of whole code: `(+ 1 (at x@2 0))`. The error is want of memory.
pub fn shown_code(alloc: Global, expr: &Expr) -> Result<String, Memory> {
    let mut out = Shown::new(alloc);
    put_expr(&mut out, expr);
    out.take()
}

/// Arguments, each behind a space. The error is want of memory.
pub fn shown_args(alloc: Global, args: &Items<Expr>) -> Result<String, Memory> {
    let mut out = Shown::new(alloc);
    out.put("(args");
    put_exprs(&mut out, args);
    out.put(")");
    out.take()
}

/// Statements with ` | ` between. The error is want of memory.
pub fn shown_statements(alloc: Global, code: &Items<Stmt>) -> Result<String, Memory> {
    let mut out = Shown::new(alloc);
    for (at, statement) in code.as_slice().iter().enumerate() {
        out.put(if at > 0 { " | " } else { "" });
        put_statement(&mut out, statement);
    }
    out.take()
}

/// The head or the end of a block. The error is want of memory.
pub fn shown_header(alloc: Global, header: &Header) -> Result<String, Memory> {
    let mut out = Shown::new(alloc);
    match header {
        Header::Else => out.put("else"),
        Header::End => out.put("end"),
        Header::If(test) => {
            out.put("(if");
            put_part(&mut out, test.get());
            out.put(")");
        }
        Header::Elif(test) => {
            out.put("(elif");
            put_part(&mut out, test.get());
            out.put(")");
        }
        Header::For(target, members) => {
            out.put("(for");
            put_two(&mut out, target.get(), members.get());
            out.put(")");
        }
        Header::Def(name, params) => {
            out.put("(def");
            put_signature(&mut out, name.as_str(), params);
            out.put(")");
        }
    }
    out.take()
}
