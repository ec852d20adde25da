// A sink over one of the machine's streams.
ghost use Rattle.std.specs.Prelude.{◌≡◌, [], IsOk, None};
ghost use Rattle.ytt_outside.specs.HostSink.{Passes, faults_in, stream_in};
ghost use Rattle.ytt_outside.specs.Sink.{SinkCounts, Writes, count_after};

use crate::sink::{Sink, SinkFailed};
use std::io::Write;

/// A sink over a stream of std. It tells nothing of its bytes: where those of its stream are known,
/// what a call writes is appended to them.
///
/// Each `Err` of the stream counts as a failure, and so does a stream that takes nothing of a piece
/// that isn't empty.
#[derive(Drop)]
pub struct HostSink<W> {
    stream: W,
    faults: u64,
}

impl<W: Write> HostSink<W> {
    /// A sink that has not failed yet.
    pub fn new(stream: W) -> HostSink<W>
        ensures stream { stream_in result ≡ stream }
        ensures faults { faults_in result ≡ 0 }
    {
        HostSink { stream, faults: 0 }
    }
}

impl<W: Write> Sink for HostSink<W> {
    ghost held = { λ _. None };

    ghost faults = { faults_in };

    fn write_piece(&mut self, piece: &[u8]) -> Result<(), SinkFailed>
        ensures bytes { Writes None None piece.now result }
        ensures cause { SinkCounts (faults_in self.old) (faults_in self.new) result }
        ensures empty { piece.now ≡ [] → IsOk result }
        ensures counts { faults_in self.new ≡ count_after result (faults_in self.old) }
        ensures passes { Passes (W.contents (stream_in self.old)) (W.contents (stream_in self.new)) piece.now result }
    {
        let mut rest = piece;
        while !rest.is_empty() {
            match self.stream.write(rest) {
                Ok(count) if count > 0 => rest = &rest[count..],
                _ => {
                    self.faults = self.faults.saturating_add(1);
                    return Err(SinkFailed);
                }
            }
        }
        Ok(())
    }
}
