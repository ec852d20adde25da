// A comment that went on.
ghost use Rattle.std.specs.Prelude.{◌≡◌, string_bytes};
ghost use Rattle.notes_read.specs.Depths.{depth_of};

/// A comment that went on with the code of those below it.
#[derive(Drop)]
pub struct Longer {
    pub line: u32,
    pub own_line: bool,
    /// It grows in place: one line more takes no copy of those before it.
    pub text: String,
    /// How many brackets are open at its end, or `None` where a piece of it is no token.
    pub depth: Option<u32>,
    ghost known: { depth ≡ depth_of (string_bytes text) },
}
