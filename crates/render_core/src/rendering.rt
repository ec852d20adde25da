// What a request means.
ghost use Rattle.std.specs.Prelude.{◌≡◌, List, length, IfOk, IfSome};
ghost use Rattle.ytt_base.specs.Trees.{AreTrees, Writable};
ghost use Rattle.ytt_base.specs.View.{trees_of};
ghost use Rattle.file_units.specs.Held.{AreHeld, MayRun};
ghost use Rattle.file_units.specs.Reads.{HasCause};
ghost use Rattle.world_spec.specs.Units.{FileUnit, names_of};
ghost use Rattle.ytt_spec.specs.Meaning.{Means};
ghost use Rattle.ytt_words.specs.Asks.{budget_of, render_of};
ghost use Rattle.render_core.specs.Renders.{Renders, RendersUnits};

use crate::running::run_units;
use file_units::{RenderStop, Units, read_units};
use notes_read::a_code_reader_exists;
use std::alloc::Global;
use ytt_base::fault::Stop;
use ytt_base::tree::Trees;
use ytt_outside::files::Files;
use ytt_words::{Budget, Request};

/// The documents of units, or the first fault with their names.
fn render_units(alloc: Global, units: Units, budget: Budget) -> Result<Trees, RenderStop>
    requires files { MayRun 1 units.files units.contents }
    requires names { length units.names ≡ length units.files }
    ensures { (us : List FileUnit) → AreHeld 1 us units.files units.contents → units.names ≡ names_of us → RendersUnits (budget_of budget) us units.names result }
{
    let Units {
        names,
        files,
        contents,
    } = units;
    match run_units(alloc, names.as_slice(), files.as_slice(), contents, budget) {
        Ok(trees) => Ok(trees),
        Err(Stop::Fault(fault)) => Err(RenderStop::Refused { fault, names }),
        Err(Stop::Memory) => Err(RenderStop::Memory),
    }
}

/// The documents of the files that are asked for, within the budget of the request, or the first fault of all.
///
/// The faults of finding the files come first, then those of reading each in its turn, and then those of their runs, which stand in one
/// budget. `Refused` has the names of all files that were found, the first for number 1. `ReadFailed` has the path where the files failed,
/// and `Memory` says that there was no room.
pub fn render<F: Files>(
    alloc: Global,
    request: &Request,
    files: &mut F,
) -> Result<Trees, RenderStop>
    ensures told { IfSome (F.tree files.old) (λ tree. Renders (Means (render_of request.now) tree) result) }
    ensures held { IfOk result (λ trees. AreTrees (trees_of trees)) }
    ensures writable { IfOk result (λ trees. Writable (trees_of trees)) }
    ensures keeps { F.tree files.new ≡ F.tree files.old }
    ensures cause { HasCause request.now.ignore_unknown request.now.paths (F.tree files.old) (F.faults files.old) (F.faults files.new) result }
{
    a_code_reader_exists();
    match read_units(alloc, &request.paths, request.ignore_unknown, files) {
        Ok(units) => render_units(alloc, units, request.budget),
        Err(stop) => Err(stop),
    }
}
