ghost use Rattle.std.specs.Prelude.{◌≡◌, ℕ, [], IsOk, List};
ghost use Rattle.std.specs.declared.option.Option.{Option};
ghost use Rattle.ytt_outside.specs.Sink.{SinkCounts, Writes};

use thiserror::Error;

/// A write failed.
#[derive(Clone, Copy, Debug, PartialEq, Eq, Error)]
#[error("the write failed")]
pub struct SinkFailed;

/// Where bytes are written.
///
/// The count `faults` never falls. `SinkFailed` comes only where it rose (or stands at its last
/// value, 2^64 - 1), and success leaves it as it was.
pub trait Sink {
    /// The bytes that it holds, or nothing where it doesn't tell.
    ghost held: { Self → Option (List ℕ) };

    /// How often it has failed.
    ghost faults: { Self → ℕ };

    /// Appends the piece, or on failure a prefix of it. An empty piece succeeds. It takes no memory.
    fn write_piece(&mut self, piece: &[u8]) -> Result<(), SinkFailed>
        ensures bytes { Writes (held self.old) (held self.new) piece.now result }
        ensures cause { SinkCounts (faults self.old) (faults self.new) result }
        ensures empty { piece.now ≡ [] → IsOk result };
}
