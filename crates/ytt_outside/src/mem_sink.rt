// A sink in memory.
ghost use Rattle.std.specs.Prelude.{◌≡◌, ◌+◌, ◌≤◌, ◌++◌, [], IfOk, IsOk, List, Some, is_err, length, vec_capacity, vec_len};
ghost use Rattle.ytt_outside.specs.Counts.{raised};
ghost use Rattle.ytt_outside.specs.Sink.{SinkCounts, Writes, count_after};
ghost use Rattle.ytt_outside.specs.SinkSteps.{bytes_after, fails_at, appended_part, taken_at};

use crate::sink::{Sink, SinkFailed};
use sqlite_items::Items;
use std::alloc::Global;
use ytt_base::text::Memory;

/// A call of a sink that is to fail, by its number from 1, and how many bytes of its piece it
/// appends at most before it fails.
#[derive(Clone, Copy, PartialEq, Eq)]
pub struct FailPoint {
    pub call: u64,
    pub taken: u64,
}

/// The calls that are to fail.
pub type FailPoints = Items<FailPoint>;

/// A sink in memory. It took its room when it was made, and tells what it holds.
///
/// A call fails exactly where its piece isn't empty and the call is listed or what it would append
/// doesn't fit in the room. What doesn't fit is not appended at all.
#[derive(Drop)]
pub struct MemSink {
    bytes: Vec<u8>,
    room: u64,
    fails: FailPoints,
    calls: u64,
    faults: u64,
    ghost has_room: { room ≤ vec_capacity bytes },
}

impl MemSink {
    ghost use Rattle.ytt_outside.specs.MemSink.{bytes_in, calls_in, fails_in, faults_in, room_in};

    /// An empty sink that fails at the listed calls and has this room, in bytes.
    pub fn new(alloc: Global, fails: FailPoints, room: u64) -> Result<MemSink, Memory>
        ensures bytes { IfOk result (λ s. bytes_in s ≡ []) }
        ensures counts { IfOk result (λ s. (calls_in s ≡ 0) × (faults_in s ≡ 0)) }
        ensures limits { IfOk result (λ s. (fails_in s ≡ fails) × (room_in s ≡ room)) }
    {
        Ok(MemSink {
            bytes: Vec::with_capacity(alloc, room as usize)?,
            room,
            fails,
            calls: 0,
            faults: 0,
        })
    }

    /// The bytes that were appended, in their order.
    pub fn bytes(&self) -> &[u8]
        ensures { result.now ≡ bytes_in self.now }
    {
        self.bytes.as_slice()
    }
}

fn taken_at(fails: &[FailPoint], call: u64) -> Option<u64>
    ensures { result ≡ taken_at fails.now call }
{
    for fail in fails {
        if fail.call == call {
            return Some(fail.taken);
        }
    }
    None
}

/// Appends bytes for which there is capacity.
fn append(bytes: &mut Vec<u8>, more: &[u8])
    requires { vec_len bytes.old + length more.now ≤ vec_capacity bytes.old }
    ensures items { bytes.new.items ≡ bytes.old.items ++ more.now }
    ensures capacity { vec_capacity bytes.old ≤ vec_capacity bytes.new }
{
    match bytes.extend_from_slice(more) {
        Ok(()) => {}
        Err(_) => unreachable!(),
    }
}

fn appended_part(taken: Option<u64>, piece: &[u8]) -> &[u8]
    ensures { result.now ≡ appended_part taken piece.now }
{
    match taken {
        None => piece,
        Some(taken) => &piece[..piece.len().min(taken as usize)],
    }
}

impl Sink for MemSink {
    ghost use Rattle.ytt_outside.specs.MemSink.{bytes_in, calls_in, fails_in, faults_in, room_in};

    ghost held = { λ s. Some (bytes_in s) };

    ghost faults = { faults_in };

    fn write_piece(&mut self, piece: &[u8]) -> Result<(), SinkFailed>
        ensures bytes { Writes (Some (bytes_in self.old)) (Some (bytes_in self.new)) piece.now result }
        ensures cause { SinkCounts (faults_in self.old) (faults_in self.new) result }
        ensures empty { piece.now ≡ [] → IsOk result }
        ensures counts { faults_in self.new ≡ count_after result (faults_in self.old) }
        ensures after { bytes_in self.new ≡ bytes_after (room_in self.old) (bytes_in self.old) (taken_at (fails_in self.old) (raised (calls_in self.old))) piece.now }
        ensures fails { is_err result ≡ fails_at (room_in self.old) (bytes_in self.old) (taken_at (fails_in self.old) (raised (calls_in self.old))) piece.now }
        ensures calls { calls_in self.new ≡ raised (calls_in self.old) }
        ensures limits { (fails_in self.new ≡ fails_in self.old) × (room_in self.new ≡ room_in self.old) }
    {
        self.calls = self.calls.saturating_add(1);
        if piece.is_empty() {
            return Ok(());
        }
        let taken = taken_at(self.fails.as_slice(), self.calls);
        let part = appended_part(taken, piece);
        let is_over = self.room < self.bytes.len() as u64
            || self.room - (self.bytes.len() as u64) < part.len() as u64;
        if !is_over {
            append(&mut self.bytes, part);
        }
        if is_over || taken.is_some() {
            self.faults = self.faults.saturating_add(1);
            return Err(SinkFailed);
        }
        Ok(())
    }
}
