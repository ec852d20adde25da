// What a comment says.

use sqlite_items::{Boxed, Items};
use star_tree::code::{Args, Expr, Header, Stmt};
use ytt_base::text::Text;

/// What a comment of a template says.
#[derive(Drop)]
pub enum Comment {
    /// The simple statements of a line of its own.
    Code(Items<Stmt>),
    /// The head of an `if`, a `for` or a `def`, and whether it has `/end` and so holds for one item alone.
    Open(Header, bool),
    Else,
    Elif(Boxed<Expr>),
    End,
    /// The value expression of the item on its line.
    Value(Boxed<Expr>),
    /// A note: its name without the `#@`, and its arguments.
    Note(Text, Args),
    Ignored,
}
