// What is written for an answer.
ghost use Rattle.ytt_base.specs.View.{trees_of};
ghost use Rattle.std.specs.Prelude.{◌≡◌};
ghost use Rattle.ytt_spec.specs.Due.{write_failed_line};
ghost use Rattle.ytt_main.specs.Endings.{HasTried};
ghost use Rattle.ytt_main.specs.Seen.{seen_sink};
ghost use Rattle.ytt_main.specs.Written.{Written, WrittenDocuments, WrittenLine, WrittenText};

use crate::answer::Answer;
use crate::run::Status;
use yaml_print::print_to;
use ytt_base::text::Text;
use ytt_base::tree::Trees;
use ytt_outside::sink::Sink;

/// Tries the line that says that `out` failed.
fn write_failed<E: Sink>(err: &mut E) -> Status
    ensures status { result ≡ Status.WriteFault }
    ensures tried { HasTried (seen_sink E.held E.faults err.old err.new) write_failed_line }
{
    let _ = err.write_piece(b"error: write failed\n");
    Status::WriteFault
}

/// Writes the documents to `out`, and where that fails a line to `err`.
fn write_documents<O: Sink, E: Sink>(trees: &Trees, out: &mut O, err: &mut E) -> Status
    ensures { WrittenDocuments (trees_of trees.now) result (seen_sink O.held O.faults out.old out.new) (seen_sink E.held E.faults err.old err.new) }
{
    let mut buffer = [0u8; 4096];
    match print_to(trees, out, &mut buffer) {
        Ok(()) => Status::Done,
        Err(_) => write_failed(err),
    }
}

/// Writes a listing to `out`, and where that fails a line to `err`.
fn write_listing<O: Sink, E: Sink>(text: &Text, out: &mut O, err: &mut E) -> Status
    ensures { WrittenText text.now result (seen_sink O.held O.faults out.old out.new) (seen_sink E.held E.faults err.old err.new) }
{
    match out.write_piece(text.as_str().as_bytes()) {
        Ok(()) => Status::Done,
        Err(_) => write_failed(err),
    }
}

/// Writes a line to `err`. The status is this one, unless that fails.
fn write_line<E: Sink>(line: &Text, status: Status, err: &mut E) -> Status
    ensures { WrittenLine line.now status result (seen_sink E.held E.faults err.old err.new) }
{
    match err.write_piece(line.as_str().as_bytes()) {
        Ok(()) => status,
        Err(_) => Status::WriteFault,
    }
}

/// Writes an answer: documents or a listing to `out`, and any line to `err`.
pub fn write_answer<O: Sink, E: Sink>(answer: &Answer, out: &mut O, err: &mut E) -> Status
    ensures { Written answer.now result (seen_sink O.held O.faults out.old out.new) (seen_sink E.held E.faults err.old err.new) }
{
    match answer {
        Answer::Documents(trees) => write_documents(trees, out, err),
        Answer::Listing(text) => write_listing(text, out, err),
        Answer::Fault(line) => write_line(line, Status::Fault, err),
        Answer::Usage(line) => write_line(line, Status::Usage, err),
        Answer::ReadFailed(line) => write_line(line, Status::ReadFault, err),
        Answer::Memory => {
            let _ = err.write_piece(b"error: out of memory\n");
            Status::Memory
        }
    }
}
