// Code whole: expressions with their entries, clauses and parameters, statements, parts of nodes, and the
// programs of all these.

use crate::program::{Holds, ItemKind};
use sqlite_items::{Boxed, Items};
use ytt_base::fault::Place;
use ytt_base::text::Text;
use ytt_base::tree::Key;

/// An operator before its operand.
#[derive(Clone, Copy, PartialEq, Eq)]
pub enum UnOp {
    /// `-a`
    Minus,
    /// `+a`
    Plus,
    /// `~a`
    Invert,
    /// `not a`
    Not,
}

/// An operator between its operands; `and` and `or` are expressions of their own.
#[derive(Clone, Copy, PartialEq, Eq)]
pub enum BinOp {
    Add,
    Subtract,
    Multiply,
    FloorDivide,
    Remainder,
    BitAnd,
    BitOr,
    BitXor,
    ShiftLeft,
    ShiftRight,
    Equal,
    Unequal,
    Less,
    Greater,
    AtMost,
    AtLeast,
    In,
    NotIn,
}

/// An expression. Each has the line, from 1, of the token that it stands at: a literal or a name its
/// own, an operation its operator's, a conditional its `if`, a call, an index, a slice, a display and a
/// comprehension the opening bracket, a tuple without brackets its first token, an attribute the dot.
#[cycle(tree)]
#[derive(Drop)]
pub enum Expr {
    Int(u32, i128),
    Text(u32, Text),
    Name(u32, Text),
    List(u32, Items<Expr>),
    Tuple(u32, Items<Expr>),
    Dict(u32, Items<Entry>),
    Unary(u32, UnOp, Boxed<Expr>),
    Binary(u32, BinOp, Boxed<Expr>, Boxed<Expr>),
    And(u32, Boxed<Expr>, Boxed<Expr>),
    Or(u32, Boxed<Expr>, Boxed<Expr>),
    /// The test, the value where it holds, and the other one.
    If(u32, Boxed<Expr>, Boxed<Expr>, Boxed<Expr>),
    Call(u32, Boxed<Expr>, Items<Expr>),
    /// An argument `x=e`.
    Named(u32, Text, Boxed<Expr>),
    /// An argument `*e`.
    Star(u32, Boxed<Expr>),
    /// An argument `**e`.
    Stars(u32, Boxed<Expr>),
    Index(u32, Boxed<Expr>, Boxed<Expr>),
    /// `x[low:high:step]`.
    Slice(u32, Boxed<Expr>, Option<Boxed<Expr>>, Option<Boxed<Expr>>, Option<Boxed<Expr>>),
    Dot(u32, Boxed<Expr>, Text),
    /// A lambda, with its number among the functions of its file once these are counted, and 0 before.
    Lambda(u32, usize, Items<Param>, Boxed<Expr>),
    ListFor(u32, Boxed<Expr>, Items<Clause>),
    DictFor(u32, Boxed<Expr>, Boxed<Expr>, Items<Clause>),
    /// A text with expressions between `(@=` and `@)`.
    Template(u32, Items<Piece>),
}

/// An entry of a dict display.
#[cycle(tree)]
#[derive(Drop)]
pub enum Entry {
    /// The key and the value.
    Pair(Boxed<Expr>, Boxed<Expr>),
}

/// A clause of a comprehension.
#[cycle(tree)]
#[derive(Drop)]
pub enum Clause {
    /// The target and the members.
    ForIn(Boxed<Expr>, Boxed<Expr>),
    OnlyIf(Boxed<Expr>),
}

/// A parameter.
#[cycle(tree)]
#[derive(Drop)]
pub enum Param {
    /// `x`
    Required(Text),
    /// `x=e`
    Defaulted(Text, Boxed<Expr>),
    /// A `*` alone.
    BareStar,
    /// `*x`
    Starred(Text),
    /// `**x`
    DoubleStarred(Text),
}

/// A piece of a text template.
#[cycle(tree)]
#[derive(Drop)]
pub enum Piece {
    Written(Text),
    Shown(Boxed<Expr>),
}

/// The arguments of a call or of a note, in their order.
pub type Args = Items<Expr>;

/// The parameters of a function, in their order.
pub type Params = Items<Param>;

/// A name that a load statement binds, and the name that it has in the loaded file.
#[derive(Drop)]
pub struct Loaded {
    pub bound: Text,
    pub origin: Text,
}

/// A part of a node, with its place: its start, a note with its name and arguments, a pair's key as it is
/// written or from an expression, its value as a written scalar, which is exactly what a key may be, or from
/// an expression, its end.
#[derive(Drop)]
pub enum NodeOp {
    Start(Place, ItemKind, Holds),
    Note(Place, Text, Args),
    Key(Place, Key),
    KeyFrom(Place, Boxed<Expr>),
    Value(Place, Key),
    ValueFrom(Place, Boxed<Expr>),
    End(Place),
}

/// A statement, or the head or the end of a block, with its line; or a part of a node.
#[derive(Drop)]
pub enum Stmt {
    Expr(u32, Boxed<Expr>),
    /// The target and the value.
    Assign(u32, Boxed<Expr>, Boxed<Expr>),
    /// The operator and its line, the target and the value.
    Augment(u32, BinOp, u32, Boxed<Expr>, Boxed<Expr>),
    /// The path and the names.
    Load(u32, Text, Items<Loaded>),
    /// A `return` alone returns the name None.
    Return(u32, Boxed<Expr>),
    Break(u32),
    Continue(u32),
    Pass(u32),
    If(u32, Boxed<Expr>),
    Elif(u32, Boxed<Expr>),
    Else(u32),
    /// The target and the members.
    For(u32, Boxed<Expr>, Boxed<Expr>),
    /// The number among the functions of the file once these are counted, and 0 before; the kind of the
    /// items that its block holds, if it is to build a fragment; the name and the parameters.
    Def(u32, usize, Option<ItemKind>, Text, Params),
    /// The end of a block.
    Close(u32),
    Node(NodeOp),
}

/// The program of a file: its number, and its statements with the heads and ends of their blocks, and
/// the parts of its nodes, in text order.
#[derive(Drop)]
pub struct Program {
    pub file: u32,
    pub code: Items<Stmt>,
}

/// The head of a block in a template.
#[derive(Drop)]
pub enum Header {
    If(Boxed<Expr>),
    Elif(Boxed<Expr>),
    Else,
    /// The target and the members.
    For(Boxed<Expr>, Boxed<Expr>),
    Def(Text, Params),
    End,
}
