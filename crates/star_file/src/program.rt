// Files of code as programs.
ghost use Rattle.std.specs.Prelude.{◌≡◌, ◌<◌, ◌^◌, Some, length, IfOk, IsSome};
ghost use Rattle.code_spec.specs.Blocks.{blocks};
ghost use Rattle.star_blocks.specs.Nested.{ops_of};
ghost use Rattle.star_file.specs.Programs.{ReadsItems, ReadsProgram};
ghost use Rattle.star_tree.specs.Whole.{program_of};
ghost use Rattle.world_spec.specs.StarFiles.{star_items};
ghost use Rattle.world_spec.specs.Units.{passed};
ghost use Rattle.ytt_base.specs.Outcomes.{and_then};

use crate::numbers::numbered;
use crate::passes::passed;
use crate::text::read_bytes;
use star_blocks::nest;
use star_functions::FileBlock;
use star_resolve::{Resolved, Scope};
use star_tree::code::Program;
use std::alloc::Global;
use ytt_base::fault::Stop;
use ytt_base::text::Memory;

/// The program of a file: its number with its blocks, and the names that it binds, which are its variables.
#[derive(Drop)]
pub struct FileProgram {
    pub block: FileBlock,
    pub globals: Scope,
}

/// The program of a file's bytes, with the numbers of its functions, before its names are looked up.
fn read_program(alloc: Global, bytes: &[u8], file: u32) -> Result<Program, Stop>
    requires { length bytes.now < 2 ^ 32 }
    ensures items { ReadsItems result (λ r. star_items r file bytes.now) }
    ensures file { IfOk result (λ p. p.file ≡ file) }
    ensures closed { IfOk result (λ p. IsSome (blocks (program_of p))) }
{
    let program = read_bytes(alloc, bytes, file)?;
    Ok(numbered(alloc, &program)?)
}

/// A program with its names, cut into its blocks, which are closed. Want of memory is `Memory`.
pub fn nested(alloc: Global, resolved: Resolved) -> Result<FileProgram, Memory>
    requires { IsSome (blocks (program_of resolved.program)) }
    ensures file { IfOk result (λ p. p.block.file ≡ resolved.program.file) }
    ensures blocks { IfOk result (λ p. Some (ops_of resolved.program.file p.block.block) ≡ blocks (program_of resolved.program)) }
    ensures globals { IfOk result (λ p. p.globals ≡ resolved.globals) }
{
    let Resolved {
        program,
        globals,
        ..
    } = resolved;
    let Program { file, code } = program;
    let cut = nest(alloc, code)?;
    match cut {
        Some(block) => Ok(FileProgram {
            block: FileBlock { file, block },
            globals,
        }),
        None => unreachable!(),
    }
}

/// The program of the bytes of a file of code, or its first fault.
///
/// `file` is the number of the file, which places name. The faults of the bytes and of the lines come first, then that of the code, then
/// the first name that neither the file nor the language binds, and then the first `load` of a module that comes later, which isn't
/// built yet. Want of memory is `Stop::Memory`.
pub fn read_star_file(alloc: Global, bytes: &[u8], file: u32) -> Result<FileProgram, Stop>
    requires { length bytes.now < 2 ^ 32 }
    ensures { ReadsProgram file result (λ r. and_then passed (star_items r file bytes.now)) }
{
    let program = read_program(alloc, bytes, file)?;
    let resolved = passed(alloc, program)?;
    Ok(nested(alloc, resolved)?)
}
