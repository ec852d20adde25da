// The run of the program.
ghost use Rattle.std.specs.Prelude.{◌≡◌, ◌≢◌, map, string_bytes};
ghost use Rattle.ytt_main.specs.Endings.{Ends};
ghost use Rattle.ytt_main.specs.Headline.{GivesDue, IsWhole};
ghost use Rattle.ytt_main.specs.Seen.{seen_files, seen_sink};

use crate::answer::answer_words;
use crate::written::write_answer;
use std::alloc::Global;
use ytt_outside::files::Files;
use ytt_outside::sink::Sink;

/// How a run ended.
#[derive(Clone, Copy, PartialEq, Eq)]
pub enum Status {
    /// The documents are written, or the listing.
    Done,
    /// What the words ask for means a fault.
    Fault,
    /// The words are no request.
    Usage,
    /// The files failed.
    ReadFault,
    /// A sink failed.
    WriteFault,
    /// There was no room.
    Memory,
}

impl Status {
    ghost use Rattle.std.specs.Prelude.{◌≡◌};
    ghost use Rattle.ytt_main.specs.Status.{code_of};

    /// The exit status with which the program ends: 0 for Done, and 1 to 5 for the others in their
    /// order.
    pub fn code(self) -> u8
        ensures { result ≡ code_of self }
    {
        match self {
            Status::Done => 0,
            Status::Fault => 1,
            Status::Usage => 2,
            Status::ReadFault => 3,
            Status::WriteFault => 4,
            Status::Memory => 5,
        }
    }
}

/// All that the program does: it reads the words, which are the command line without the program's
/// name, and the files that they ask for, and then writes the documents or the listing to `out`, or one
/// line to `err`.
///
/// | Status | It comes | `err` gets |
/// |---|---|---|
/// | Done | where the request means documents or a listing, which `out` gets | nothing |
/// | Fault | where it means that fault | `error: KIND at FILE:LINE: DETAIL` |
/// | Usage | where the words are no request | `error: usage at word N` |
/// | ReadFault | where the files failed | `error: read failed: PATH` |
/// | WriteFault | where a sink failed | `error: write failed`, tried once, where it was `out` |
/// | Memory | where there was no room | `error: out of memory`, tried once |
///
/// Where the status is neither Done nor WriteFault, `out` is unchanged.
pub fn ytt_main<F: Files, O: Sink, E: Sink>(
    alloc: Global,
    words: &[String],
    files: &mut F,
    out: &mut O,
    err: &mut E,
) -> Status
    // Where nothing failed and there was room, the status and all bytes are those that are due.
    ensures headline { GivesDue result (map string_bytes words.now) (seen_files F.tree F.faults files.old files.new)
        (seen_sink O.held O.faults out.old out.new) (seen_sink E.held E.faults err.old err.new) }
    // Each ending has its cause and shows it, also where contents aren't told.
    ensures ending { Ends result (map string_bytes words.now) (seen_files F.tree F.faults files.old files.new)
        (seen_sink O.held O.faults out.old out.new) (seen_sink E.held E.faults err.old err.new) }

    // So only documents and listings are written to `out`, and no failure is passed over.
    ensures out_unchanged { result ≢ Status.Done → result ≢ Status.WriteFault → O.held out.new ≡ O.held out.old }
    ensures out_count_unchanged { result ≢ Status.Done → result ≢ Status.WriteFault → O.faults out.new ≡ O.faults out.old }
    ensures files_whole { IsWhole result → F.faults files.new ≡ F.faults files.old }
    ensures out_whole { result ≡ Status.Done → O.faults out.new ≡ O.faults out.old }
{
    let answer = answer_words(alloc, words, files);
    write_answer(&answer, out, err)
}
