// Logical lines.
ghost use Rattle.std.specs.Prelude.{◌≡◌, List};
ghost use Rattle.yaml_spec.specs.Noted.{Comment};
ghost use Rattle.yaml_spec.specs.Rows.{has_value};
ghost use Rattle.yaml_rows.specs.View.{row_of};

use sqlite_items::Items;
use yaml_text::first;
use ytt_base::fault::{FaultKind, Place};
use ytt_base::line::Line;
use ytt_base::tree::Key;

/// What begins an entry.
#[derive(Drop)]
pub enum Mark {
    /// A dash, which begins an element of a list.
    Dash,
    /// A key and its colon, which begin a pair of a map.
    Key(Key),
    /// What stands where a key stands, and is none: why.
    NoKey(FaultKind),
}

/// The start of an entry on a line.
#[derive(Drop)]
pub struct Head {
    /// The bytes before it on its line.
    pub column: usize,
    /// Whether a tab stands directly before it.
    pub has_tab: bool,
    pub mark: Mark,
}

/// Starts of entries, from left to right.
pub type Heads = Items<Head>;

/// A logical line: a line of a block, with the lines below it, of which its value may take some. The
/// comments that stand before it are kept apart.
#[derive(Drop)]
pub struct Row<'a> {
    pub place: Place,
    /// The number of spaces at its start.
    pub indent: usize,
    pub heads: Heads,
    /// Whether an item starts on its line though it has no head.
    pub is_owned: bool,
    /// The least indent of a line that its value may take.
    pub least: usize,
    /// Where a value that is left open is told.
    pub open_place: Place,
    /// What stands behind the heads: a value, a comment or nothing.
    pub text: &'a str,
    /// The lines below it.
    pub below: &'a [Line],
}

/// Whether more than nothing or a comment stands behind the heads.
pub fn has_value(row: &Row<'_>) -> bool
    ensures { (before : List Comment) → result ≡ has_value (row_of before row.now) }
{
    !row.text.is_empty() && first(row.text) != b'#'
}
