// How high an expression may be.
ghost use Rattle.std.specs.Prelude.{◌≤◌, ◌↔◌, IsTrue};
ghost use Rattle.star_grammar.specs.Reading.{max_height};

/// How high an expression may be.
pub const MAX_HEIGHT: u32 = 100;

/// Whether an expression may be so high.
pub fn fits(high: u32) -> bool
    ensures { IsTrue result ↔ (high ≤ max_height) }
{
    high <= MAX_HEIGHT
}
