// Blocks: code whose statements hold the blocks that they open.

use sqlite_items::{Boxed, Items};
use star_tree::ItemKind;
use star_tree::code::{BinOp, Expr, Loaded, NodeOp, Params};
use ytt_base::text::Text;

/// A part of a node, or a statement.
#[cycle(block)]
#[derive(Drop)]
pub enum Op {
    Node(NodeOp),
    Code(Statement),
}

/// A statement with its line.
#[cycle(block)]
#[derive(Drop)]
pub enum Statement {
    Expr(u32, Boxed<Expr>),
    /// The target and the value.
    Assign(u32, Boxed<Expr>, Boxed<Expr>),
    /// The operator and its line, the target and the value.
    Augment(u32, BinOp, u32, Boxed<Expr>, Boxed<Expr>),
    /// The path and the names.
    Load(u32, Text, Items<Loaded>),
    Return(u32, Boxed<Expr>),
    Break(u32),
    Continue(u32),
    Pass(u32),
    If(u32, Items<Arm>),
    /// The target, the members and the block.
    For(u32, Boxed<Expr>, Boxed<Expr>, Items<Op>),
    /// The number, the kind of the items that it builds a fragment of, the name, the parameters and the block.
    Def(u32, usize, Option<ItemKind>, Text, Params, Items<Op>),
}

/// A branch of an `if`: a test with its block, or the block where no test holds.
#[cycle(block)]
#[derive(Drop)]
pub enum Arm {
    Test(Boxed<Expr>, Items<Op>),
    Else(Items<Op>),
}

/// Parts of nodes and statements in their order.
pub type Block = Items<Op>;
