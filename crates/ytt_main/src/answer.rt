// The answer to the words, before anything is written.
ghost use Rattle.std.specs.Prelude.{◌≡◌, ℕ, IfOk, IfSome, List, map, string_bytes};
ghost use Rattle.ytt_spec.specs.Due.{IsDue, read_failed_line, usage_line};
ghost use Rattle.ytt_spec.specs.Requests.{IsRequest};
ghost use Rattle.ytt_words.specs.Asks.{compile_of, render_of};
ghost use Rattle.ytt_main.specs.Answers.{Answers, AnswersStop, AnswersWords, IsMeantDue};
ghost use Rattle.ytt_main.specs.Found.{Found};
ghost use Rattle.ytt_main.specs.Seen.{seen_files};

use file_listing::compile_file;
use file_units::RenderStop;
use render_core::render;
use std::alloc::Global;
use ytt_base::report::fault_text;
use ytt_base::text::{Memory, Text};
use ytt_base::tree::Trees;
use ytt_outside::files::Files;
use ytt_words::{Command, CompileRequest, Request, WordsStop, read_words};

/// What is to be written, and where: documents or a listing to `out`, or a line to `err`.
#[derive(Drop)]
pub enum Answer {
    Documents(Trees),
    Listing(Text),
    Fault(Text),
    Usage(Text),
    ReadFailed(Text),
    Memory,
}

fn usage_text(alloc: Global, word: u64) -> Result<Text, Memory>
    ensures { IfOk result (λ t. t ≡ usage_line word) }
{
    Ok(Text::of_string(format!(in alloc; "error: usage at word {word}\n")?))
}

fn read_failed_text(alloc: Global, path: &Text) -> Result<Text, Memory>
    ensures { IfOk result (λ t. t ≡ read_failed_line path.now) }
{
    let path = path.as_str();
    Ok(Text::of_string(format!(in alloc; "error: read failed: {path}\n")?))
}

/// The answer where there is nothing for `out`: the line of a fault or of a failed read.
fn answer_stop(alloc: Global, stop: RenderStop) -> Answer
    ensures { AnswersStop stop result }
{
    match stop {
        RenderStop::Refused { fault, names } => match fault_text(alloc, &fault, &names) {
            Ok(line) => Answer::Fault(line),
            Err(_) => Answer::Memory,
        },
        RenderStop::ReadFailed(path) => match read_failed_text(alloc, &path) {
            Ok(line) => Answer::ReadFailed(line),
            Err(_) => Answer::Memory,
        },
        RenderStop::Memory => Answer::Memory,
    }
}

/// The answer to a wrong word, or where there was no room for the words.
fn answer_words_stop(alloc: Global, stop: WordsStop) -> Answer
    ensures { AnswersWords stop result }
{
    match stop {
        WordsStop::Wrong(word) => match usage_text(alloc, word) {
            Ok(line) => Answer::Usage(line),
            Err(_) => Answer::Memory,
        },
        WordsStop::Memory => Answer::Memory,
    }
}

/// The answer to what `render` is asked with.
fn answer_render<F: Files>(alloc: Global, request: &Request, files: &mut F) -> Answer
    ensures told { IfSome (F.tree files.old) (λ tree. Answers (IsMeantDue (render_of request.now) tree) result) }
    ensures found { (words : List (List ℕ)) → IsRequest words (render_of request.now) → Found words (seen_files F.tree F.faults files.old files.new) result }
{
    match render(alloc, request, files) {
        Ok(trees) => Answer::Documents(trees),
        Err(stop) => answer_stop(alloc, stop),
    }
}

/// The answer to what `compile` is asked with.
fn answer_compile<F: Files>(alloc: Global, request: &CompileRequest, files: &mut F) -> Answer
    ensures told { IfSome (F.tree files.old) (λ tree. Answers (IsMeantDue (compile_of request.now) tree) result) }
    ensures found { (words : List (List ℕ)) → IsRequest words (compile_of request.now) → Found words (seen_files F.tree F.faults files.old files.new) result }
{
    match compile_file(alloc, &request.path, request.ignore_unknown, files) {
        Ok(text) => Answer::Listing(text),
        Err(stop) => answer_stop(alloc, stop),
    }
}

/// The answer to the words.
pub fn answer_words<F: Files>(alloc: Global, words: &[String], files: &mut F) -> Answer
    ensures told { IfSome (F.tree files.old) (λ tree. Answers (IsDue (map string_bytes words.now) tree) result) }
    ensures found { Found (map string_bytes words.now) (seen_files F.tree F.faults files.old files.new) result }
{
    match read_words(alloc, words) {
        Ok(Command::Render(request)) => answer_render(alloc, &request, files),
        Ok(Command::Compile(request)) => answer_compile(alloc, &request, files),
        Err(stop) => answer_words_stop(alloc, stop),
    }
}
