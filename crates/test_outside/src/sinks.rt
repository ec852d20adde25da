// A sink over a stream.

use std::io::{self, ErrorKind, Write};
use std::test::Fail;
use ytt_outside::host_sink::HostSink;
use ytt_outside::sink::Sink;

/// A stream that takes at most so many bytes at a call, and fails at the call of this number.
#[derive(Drop)]
struct Slow {
    taken: Vec<u8>,
    most: usize,
    calls: u64,
    fails_at: u64,
}

impl Write for Slow {
    fn write(&mut self, buf: &[u8]) -> io::Result<usize> {
        self.calls = self.calls.saturating_add(1);
        if self.calls == self.fails_at {
            return Err(io::Error::from(ErrorKind::BrokenPipe));
        }
        let count = buf.len().min(self.most);
        self.taken.extend_from_slice(&buf[..count])?;
        Ok(count)
    }

    fn flush(&mut self) -> io::Result<()> {
        Ok(())
    }
}

/// How many bytes the stream takes at a call and which call fails; whether a piece `abcde` is written,
/// and what the stream then holds.
const STREAMS: &[(usize, u64, bool, &[u8])] = &[
    (9, 0, true, b"abcde"),
    (2, 0, true, b"abcde"),
    (0, 0, false, b""),
    (2, 1, false, b""),
    (2, 3, false, b"abcd"),
    (2, 4, true, b"abcde"),
];

/// Whether an empty piece is written to a stream, and whether `abcde` is behind it.
fn written(slow: &mut Slow) -> (bool, bool) {
    let mut sink = HostSink::new(slow);
    let empty = sink.write_piece(b"").is_ok();
    (empty, sink.write_piece(b"abcde").is_ok())
}

#[test]
fn a_stream_gets_the_whole_piece_or_a_front(rt: HostRuntime) -> Result<(), Fail> {
    for (most, fails_at, succeeds, taken) in STREAMS {
        let mut slow = Slow {
            taken: Vec::new(rt.alloc()),
            most: *most,
            calls: 0,
            fails_at: *fails_at,
        };
        assert!(rt; written(&mut slow) == (true, *succeeds));
        assert_eq!(rt; slow.taken.as_slice(), *taken);
    }
    Ok(())
}
