// The code of a file, from its bytes to its statements.
ghost use Rattle.std.specs.Prelude.{◌≡◌, ◌<◌, ◌^◌, length, IfOk};
ghost use Rattle.star_grammar.specs.CodeReaders.{GivesCode};
ghost use Rattle.star_tree.specs.Whole.{program_of};
ghost use Rattle.world_spec.specs.Laws.{AreCodeBlocks};
ghost use Rattle.world_spec.specs.StarFiles.{lines_text};
ghost use Rattle.yaml_spec.specs.Held.{plain_lines};
ghost use Rattle.yaml_spec.specs.Lines.{Lines};
ghost use Rattle.ytt_base.specs.Outcomes.{and_then};

use star_read::read_file;
use star_token::file_tokens;
use star_tree::code::Program;
use std::alloc::Global;
use yaml_lines::cut_lines;
use ytt_base::fault::Stop;
use ytt_base::line::Lines;
use ytt_base::text::{Memory, Text};

/// Lines, with a line feed behind each.
fn joined(alloc: Global, lines: &Lines) -> Result<Text, Memory>
    ensures { IfOk result (λ t. t ≡ lines_text (plain_lines lines.now)) }
{
    let mut text = String::new(alloc);
    for line in lines.as_slice() {
        text.push_str(line.text.as_str())?;
        text.push_str("\n")?;
    }
    Ok(Text::of_string(text))
}

/// The statements of a text of code, or its first fault.
fn read_text(alloc: Global, text: &str, file: u32) -> Result<Program, Stop>
    ensures read { GivesCode program_of result (λ r. r.file file text.now) }
    ensures file { IfOk result (λ p. p.file ≡ file) }
    ensures code { IfOk result (λ p. AreCodeBlocks (program_of p)) }
{
    let tokens = file_tokens(alloc, text, file)?;
    read_file(alloc, &tokens)
}

/// The statements of the bytes of a file of code, or their first fault: those of its lines come first.
pub(crate) fn read_bytes(alloc: Global, bytes: &[u8], file: u32) -> Result<Program, Stop>
    requires { length bytes.now < 2 ^ 32 }
    ensures read { GivesCode program_of result (λ r. and_then (λ ls. r.file file (lines_text ls)) (Lines file bytes.now)) }
    ensures file { IfOk result (λ p. p.file ≡ file) }
    ensures code { IfOk result (λ p. AreCodeBlocks (program_of p)) }
{
    let lines = cut_lines(alloc, bytes, file)?;
    let text = joined(alloc, &lines)?;
    read_text(alloc, text.as_str(), file)
}
