// Items and nodes.

/// What an item is.
#[derive(Clone, Copy, PartialEq, Eq)]
pub enum ItemKind {
    Document,
    Pair,
    Element,
}

/// What a node holds: one value, the pairs of a map, the elements of a list, or nothing, where all
/// items that are written in it stand in `def` blocks.
#[derive(Clone, Copy, PartialEq, Eq)]
pub enum Holds {
    One,
    Map,
    List,
    Void,
}
