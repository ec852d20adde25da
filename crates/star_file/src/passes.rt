// The passes over a program of a file of code: its names, and then what of it isn't built yet.
ghost use Rattle.std.specs.Prelude.{◌≡◌, IfOk, IsSome};
ghost use Rattle.code_spec.specs.Blocks.{blocks};
ghost use Rattle.code_spec.specs.Scopes.{program_names};
ghost use Rattle.star_file.specs.Passing.{Bound, Passed};
ghost use Rattle.star_resolve.specs.Variables.{each_once};
ghost use Rattle.star_tree.specs.Whole.{program_of};

use crate::loads::first_load;
use star_resolve::{Resolved, resolve};
use star_tree::code::Program;
use star_tree::names::language_names;
use std::alloc::Global;
use yaml_text::refusal;
use ytt_base::fault::{FaultKind, Stop};

/// The program with the variables of its names, which are all bound, in the file or by the language. The first in text order that is not
/// is a fault of the kind NameUnknown at its place, with the name as the detail.
fn bound(alloc: Global, program: Program) -> Result<Resolved, Stop>
    requires { IsSome (blocks (program_of program)) }
    ensures passes { Bound (program_of program) result }
    ensures program { IfOk result (λ r. r.program ≡ program) }
    ensures globals { IfOk result (λ r. r.globals ≡ each_once (program_names (program_of program))) }
{
    let builtins = language_names(alloc)?;
    resolve(alloc, program, &builtins)
}

/// The same, where all of the program is built. Behind the names, the first place at the least line that isn't is a fault of the kind
/// NotBuilt.
pub(crate) fn passed(alloc: Global, program: Program) -> Result<Resolved, Stop>
    requires { IsSome (blocks (program_of program)) }
    ensures passes { Passed (program_of program) result }
    ensures program { IfOk result (λ r. r.program ≡ program) }
    ensures globals { IfOk result (λ r. r.globals ≡ each_once (program_names (program_of program))) }
{
    let unbuilt = first_load(&program);
    let resolved = bound(alloc, program)?;
    match unbuilt {
        None => Ok(resolved),
        Some(place) => Err(refusal(alloc, FaultKind::NotBuilt, place)),
    }
}
