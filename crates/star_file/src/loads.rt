// Where a program loads a module that comes later, which isn't built yet.
ghost use Rattle.std.specs.Prelude.{◌≡◌};
ghost use Rattle.star_file.specs.Loads.{load_places};
ghost use Rattle.star_tree.specs.Whole.{program_of};
ghost use Rattle.passes_spec.specs.Unbuilt.{first_unbuilt};

use star_tree::code::Program;
use star_unbuilt::see_load;
use ytt_base::fault::Place;

/// The first place at the least line where a program loads a module that comes later.
pub(crate) fn first_load(program: &Program) -> Option<Place>
    ensures { result ≡ first_unbuilt (load_places (program_of program.now)) }
{
    let mut first = None;
    for stmt in program.code.as_slice() {
        see_load(program.file, stmt, &mut first);
    }
    first
}
