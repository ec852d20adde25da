// A sink behind a buffer.
ghost use Rattle.std.specs.Prelude.{◌≡◌, ◌+◌, ◌≤◌, ◌++◌, [], List, false, length, take};
ghost use Rattle.yaml_print.specs.Puts.{Puts};

use crate::put::Put;
use ytt_outside::sink::{Sink, SinkFailed};

/// A sink behind a buffer, in which what is put waits.
///
/// The first failure is kept, and nothing is written after it.
#[derive(Drop)]
pub struct Printer<'a, O> {
    out: &'a mut O,
    buffer: &'a mut [u8],
    filled: usize,
    failed: bool,
    ghost within: { filled ≤ length buffer.now },
}

impl<'a, O: Sink> Printer<'a, O> {
    ghost use Rattle.yaml_print.specs.Printer.{Finishes, IsPrinter, start_of};

    /// Nothing waits. What the buffer held is overwritten.
    pub fn new(out: &'a mut O, buffer: &'a mut [u8]) -> Printer<'a, O>
        ensures { IsPrinter O.held O.faults (start_of O.held O.faults out.entry buffer.entry) result [] }
    {
        Printer {
            out,
            buffer,
            filled: 0,
            failed: false,
        }
    }

    /// Puts the bytes behind what waits.
    fn add(&mut self, bytes: &[u8])
        requires { self.old.filled + length bytes.now ≤ length self.old.buffer.now }
        ensures { Puts (IsPrinter O.held O.faults) self.old self.new bytes.now }
    {
        let at = self.filled;
        let buffer = &mut *self.buffer;
        copy_at(buffer, at, bytes);
        self.filled = at + bytes.len();
    }

    /// Writes what waits.
    fn flush(&mut self)
        ensures puts { Puts (IsPrinter O.held O.faults) self.old self.new [] }
        ensures empty { self.new.failed ≡ false → self.new.filled ≡ 0 }
    {
        if self.failed {
            return;
        }
        let filled = self.filled;
        match self.out.write_piece(&self.buffer[..filled]) {
            Ok(()) => self.filled = 0,
            Err(_) => self.failed = true,
        }
    }

    /// Writes the bytes, where nothing waits.
    fn write(&mut self, bytes: &[u8])
        requires { self.old.failed ≡ false → self.old.filled ≡ 0 }
        ensures { Puts (IsPrinter O.held O.faults) self.old self.new bytes.now }
    {
        if self.failed {
            return;
        }
        match self.out.write_piece(bytes) {
            Ok(()) => {}
            Err(_) => self.failed = true,
        }
    }

    /// Writes what waits, and tells whether anything failed.
    pub fn finish(&mut self) -> Result<(), SinkFailed>
        ensures { Finishes O.held O.faults self.old self.new result }
    {
        self.flush();
        if self.failed {
            return Err(SinkFailed);
        }
        Ok(())
    }
}

impl<O: Sink> Put for Printer<'_, O> {
    ghost use Rattle.yaml_print.specs.Printer.{IsPrinter};

    ghost has = { IsPrinter O.held O.faults };

    fn put(&mut self, piece: &str) {
        let bytes = piece.as_bytes();
        if bytes.len() <= self.buffer.len() - self.filled {
            self.add(bytes);
            return;
        }
        self.flush();
        self.write(bytes);
    }
}

fn copy_at(bytes: &mut [u8], at: usize, piece: &[u8])
    requires { at + length piece.now ≤ length bytes.old }
    ensures { take (at + length piece.now) bytes.new ≡ take at bytes.old ++ piece.now }
{
    bytes[at..at + piece.len()].copy_from_slice(piece);
}
