// What a pass over lines keeps.
ghost use Rattle.std.specs.Prelude.{◌≤◌, ◌^◌};

use yaml_entries::{Found, Frames};
use yaml_noted::Comments;

/// What a pass over the lines of a document has found so far.
#[derive(Drop)]
pub struct State {
    /// Whether an item starts on the next row though it has no head.
    pub is_owned: bool,
    /// How many of the next lines belong to the row before.
    pub skip: u32,
    /// The least indent of what the last entry takes.
    pub least: usize,
    /// The comments that have no item yet.
    pub comments: Comments,
    pub frames: Frames,
    /// What the innermost open entry has so far.
    pub hole: Option<Found>,
    ghost bounded: { least ≤ 2 ^ 63 },
}
