// The items of a template.

use sqlite_items::{Boxed, Items};
use star_tree::ItemKind;
use star_tree::code::{Args, Expr, Params, Stmt};
use ytt_base::fault::Place;
use ytt_base::text::Text;
use ytt_base::tree::Key;

/// A note of an item: its name without the `@`, its arguments, and its line.
#[derive(Drop)]
pub struct TNote {
    pub name: Text,
    pub args: Args,
    pub line: u32,
}

/// The notes of an item, in the order of the text.
pub type TNotes = Items<TNote>;

/// An item of a template, or what stands between items.
#[cycle(template)]
#[derive(Drop)]
pub enum TItem {
    /// A document, a pair or an element: at the top of a template, in a map, or in a list.
    Node(TNode),
    /// A simple statement.
    Code(Stmt),
    /// The place, the test, the first branch, the further ones with a test, and the one where no test holds.
    If(Place, Boxed<Expr>, TItems, TElifs, Option<TElse>),
    /// The place, the target and the members, and the body.
    For(Place, Boxed<Expr>, Boxed<Expr>, TItems),
    /// The place, the name and the parameters, the kind of the items of the collection that it stands in, and the body.
    Def(Place, Text, Params, ItemKind, TItems),
}

/// Items, the first one of the text last.
pub type TItems = Items<TItem>;

/// Further branches of an `if` that have a test, the first one of the text last.
pub type TElifs = Items<TElif>;

/// A further branch with a test.
#[cycle(template)]
#[derive(Drop)]
pub struct TElif {
    pub place: Place,
    pub test: Boxed<Expr>,
    pub body: TItems,
}

/// The branch where no test holds.
#[cycle(template)]
#[derive(Drop)]
pub struct TElse {
    pub place: Place,
    pub body: TItems,
}

/// A document, a pair of a map, or an element of a list.
#[cycle(template)]
#[derive(Drop)]
pub struct TNode {
    /// Its file, and the line on which it begins.
    pub place: Place,
    pub kind: ItemKind,
    /// The key of a pair. Documents and elements have none.
    pub key: Option<Key>,
    pub notes: TNotes,
    /// The value expression on its line, which stands for what is written there.
    pub value: Option<Boxed<Expr>>,
    pub content: TContent,
}

/// What is written in an item.
#[cycle(template)]
#[derive(Drop)]
pub enum TContent {
    /// A scalar, which is exactly what a key may be.
    Scalar(Key),
    /// The pairs of a map.
    Map(TItems),
    /// The elements of a list.
    List(TItems),
}

/// The template of a file: its number, and its documents.
#[derive(Drop)]
pub struct Template {
    pub file: u32,
    pub items: TItems,
}
