// The programs of the files of a run.
ghost use Rattle.std.specs.Prelude.{◌≡◌, ◌<◌, length, slice_get, suc, option_map, IfSome};
ghost use Rattle.world_spec.specs.Paths.{number_from};
ghost use Rattle.file_load.specs.Programs.{AreRunnable, Finds, names_in};

use sqlite_items::at;
use star_functions::FileBlock;
use star_resolve::Scope;
use ytt_base::text::Text;

/// A file that runs: its name, its block with its number, and the names of its scope.
#[derive(Clone, Copy)]
pub struct Program<'p> {
    pub name: &'p Text,
    pub block: &'p FileBlock,
    pub scope: &'p Scope,
}

/// The program at a place, from 0, if there is one.
pub(crate) fn program_at<'p>(programs: &[Program<'p>], place: usize) -> Option<Program<'p>>
    ensures { result ≡ slice_get programs.now place }
{
    at(programs, place).copied()
}

/// At which place the first file of this name stands, if there is one.
fn place_named(programs: &[Program<'_>], name: &str) -> Option<usize>
    ensures number { option_map suc result ≡ number_from 1 name.now (names_in programs.now) }
    ensures within { IfSome result (λ i. i < length programs.now) }
{
    let mut place = 0;
    let mut rest = programs;
    while let [first, more @ ..] = rest {
        if first.name.as_str() == name {
            return Some(place);
        }
        place += 1;
        rest = more;
    }
    None
}

/// The program of the first file of this name, if there is one.
pub(crate) fn program_named<'p>(programs: &[Program<'p>], name: &str) -> Option<Program<'p>>
    requires { AreRunnable 1 programs.now }
    ensures { Finds programs.now name.now result }
{
    match place_named(programs, name) {
        None => None,
        Some(place) => program_at(programs, place),
    }
}
