// What a reader has read.

use crate::token::Mark;
use sqlite_items::{Boxed, Items};
use star_params::Parameters;
use star_tree::code::{Clause, Entry, Expr, Loaded, Stmt};

/// A part of a text that was read: nothing where a part may be left out, a token that is kept, with its
/// line, an expression or several, with the line of the first token, or what stands in a list.
#[derive(Drop)]
pub enum Part {
    Missing,
    Mark(u32, Mark),
    Expr(u32, Boxed<Expr>),
    Exprs(u32, Items<Expr>),
    Entries(Items<Entry>),
    Clauses(Items<Clause>),
    /// A value and the clauses of a comprehension.
    ListFor(Boxed<Expr>, Items<Clause>),
    /// A key, a value and the clauses of a comprehension.
    DictFor(Boxed<Expr>, Boxed<Expr>, Items<Clause>),
    Params(Parameters),
    Loads(Items<Loaded>),
    Code(Items<Stmt>),
}

/// A block that is open. Around a comment's code any block may be.
#[derive(Clone, Copy)]
pub enum Block {
    Anywhere,
    Function,
    Loop,
    Branch,
}
