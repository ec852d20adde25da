// Where a text is put, piece behind piece.
ghost use Rattle.std.specs.Prelude.{ℕ, List};
ghost use Rattle.yaml_print.specs.Puts.{Puts};
ghost use Rattle.yaml_print.specs.Start.{Start};

/// Where a text is put, piece behind piece.
///
/// It keeps its first failure and drops what is put afterwards: whoever made it asks at the end, and
/// the writers between go on as if nothing had failed.
pub trait Put {
    /// Whether what began so was given this text in all.
    ghost has: { Start → Self → List ℕ → Type 0 };

    /// Puts the piece behind what was put.
    fn put(&mut self, piece: &str)
        ensures { Puts has self.old self.new piece.now };
}
