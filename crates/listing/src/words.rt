// The words of a listing.
ghost use Rattle.std.specs.Prelude.{◌≡◌, ℕ};
ghost use Rattle.listing.specs.Forms.{closing, form_word};
ghost use Rattle.listing.specs.Lines.{first_word, node_word};
ghost use Rattle.listing_spec.specs.Listing.{binary_word, holds_word, kind_word, unary_word};
ghost use Rattle.star_tree.specs.View.{holds_of, item_kind_of};
ghost use Rattle.star_tree.specs.Whole.{binary_operator_of, expr_of, instruction_of, part_of, unary_operator_of};

use star_tree::code::{BinOp, Expr, NodeOp, Stmt, UnOp};
use star_tree::{Holds, ItemKind};

pub(crate) fn unary_word(op: UnOp) -> &'static str
    ensures { result.now ≡ unary_word (unary_operator_of op) }
{
    match op {
        UnOp::Minus => "-",
        UnOp::Plus => "+",
        UnOp::Invert => "~",
        UnOp::Not => "not",
    }
}

/// The word of an operator between its operands; of `not in` the first.
pub(crate) fn binary_word(op: BinOp) -> &'static str
    ensures { result.now ≡ binary_word (binary_operator_of op) }
{
    match op {
        BinOp::Add => "+",
        BinOp::Subtract => "-",
        BinOp::Multiply => "*",
        BinOp::FloorDivide => "//",
        BinOp::Remainder => "%",
        BinOp::BitAnd => "&",
        BinOp::BitOr => "|",
        BinOp::BitXor => "^",
        BinOp::ShiftLeft => "<<",
        BinOp::ShiftRight => ">>",
        BinOp::Equal => "==",
        BinOp::Unequal => "!=",
        BinOp::Less => "<",
        BinOp::Greater => ">",
        BinOp::AtMost => "<=",
        BinOp::AtLeast => ">=",
        BinOp::In => "in",
        BinOp::NotIn => "not",
    }
}

pub(crate) fn kind_word(kind: ItemKind) -> &'static str
    ensures { result.now ≡ kind_word (item_kind_of kind) }
{
    match kind {
        ItemKind::Document => "document",
        ItemKind::Pair => "pair",
        ItemKind::Element => "element",
    }
}

pub(crate) fn holds_word(holds: Holds) -> &'static str
    ensures { result.now ≡ holds_word (holds_of holds) }
{
    match holds {
        Holds::One => "one",
        Holds::Map => "map",
        Holds::List => "list",
        Holds::Void => "void",
    }
}

/// What opens the form of an expression, up to its operator; nothing for a literal and a name.
pub(crate) fn form_word(expr: &Expr) -> &'static str
    ensures { (file : ℕ) → result.now ≡ form_word (expr_of file expr.now) }
{
    match expr {
        Expr::Int(_, _) | Expr::Text(_, _) | Expr::Name(_, _) => "",
        Expr::List(_, _) => "(list",
        Expr::Tuple(_, _) => "(tuple",
        Expr::Dict(_, _) => "(dict",
        Expr::Unary(_, _, _) => "(un ",
        Expr::Binary(_, _, _, _) => "(bin ",
        Expr::And(_, _, _) => "(and",
        Expr::Or(_, _, _) => "(or",
        Expr::If(_, _, _, _) => "(if",
        Expr::Call(_, _, _) => "(call",
        Expr::Named(_, _, _) => "(named",
        Expr::Star(_, _) => "(star",
        Expr::Stars(_, _) => "(stars",
        Expr::Index(_, _, _) => "(index",
        Expr::Slice(_, _, _, _, _) => "(slice",
        Expr::Dot(_, _, _) => "(dot",
        Expr::Lambda(_, _, _, _) => "(lambda",
        Expr::ListFor(_, _, _) => "(list-for",
        Expr::DictFor(_, _, _, _) => "(dict-for",
        Expr::Template(_, _) => "(text",
    }
}

/// What closes the form of an expression.
pub(crate) fn closing(expr: &Expr) -> &'static str
    ensures { (file : ℕ) → result.now ≡ closing (expr_of file expr.now) }
{
    match expr {
        Expr::Int(_, _) | Expr::Text(_, _) | Expr::Name(_, _) => "",
        _ => ")",
    }
}

/// The word of a part of a node, behind a space.
fn node_word(op: &NodeOp) -> &'static str
    ensures { (file : ℕ) → result.now ≡ node_word (part_of file op.now) }
{
    match op {
        NodeOp::Start(_, _, _) => " start",
        NodeOp::Note(_, _, _) => " note",
        NodeOp::Key(_, _) => " key",
        NodeOp::KeyFrom(_, _) => " key-from",
        NodeOp::Value(_, _) => " value",
        NodeOp::ValueFrom(_, _) => " value-from",
        NodeOp::End(_) => " end",
    }
}

/// The word that the line of an instruction begins with, behind a space.
pub(crate) fn first_word(stmt: &Stmt) -> &'static str
    ensures { (file : ℕ) → result.now ≡ first_word (instruction_of file stmt.now) }
{
    match stmt {
        Stmt::Expr(_, _) => " expr",
        Stmt::Assign(_, _, _) => " assign",
        Stmt::Augment(_, _, _, _, _) => " augment",
        Stmt::Load(_, _, _) => " load",
        Stmt::Return(_, _) => " return",
        Stmt::Break(_) => " break",
        Stmt::Continue(_) => " continue",
        Stmt::Pass(_) => " pass",
        Stmt::If(_, _) => " if",
        Stmt::Elif(_, _) => " elif",
        Stmt::Else(_) => " else",
        Stmt::For(_, _, _) => " for",
        Stmt::Def(_, _, None, _, _) => " def",
        Stmt::Def(_, _, Some(_), _, _) => " fragment",
        Stmt::Close(_) => " close",
        Stmt::Node(op) => node_word(op),
    }
}
