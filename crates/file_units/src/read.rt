// Finding the files of a request and reading them.
ghost use Rattle.std.specs.Prelude.{◌≡◌, ◌≤◌, IfOk, length, map as each};
ghost use Rattle.file_find.specs.Finds.{file_of};
ghost use Rattle.file_spec.specs.Limits.{most_files};
ghost use Rattle.file_units.specs.Files.{IsReached, ReadsFound};
ghost use Rattle.file_units.specs.Held.{MayRun};
ghost use Rattle.file_units.specs.Reads.{HasCause, ReadsUnits};
ghost use Rattle.file_units.specs.Stops.{EndsAt};
ghost use Rattle.ytt_spec.specs.Meaning.{found_names};

use crate::files::read_files;
use crate::units::{HeldFiles, RenderStop, Units, stop_with};
use file_find::{FoundFile, find_files};
use sqlite_items::Items;
use std::alloc::Global;
use ytt_base::text::{Memory, Names};
use ytt_outside::files::Files;

/// The names of files that were found.
fn names_of(alloc: Global, found: &Items<FoundFile>) -> Result<Names, Memory>
    ensures { IfOk result (λ names. names ≡ found_names (each file_of found.now)) }
{
    let mut names: Names = Items::new(alloc);
    for file in found.as_slice() {
        names.push(file.name.copy()?)?;
    }
    Ok(names)
}

/// The files that were found, read one after another, or the first fault, with the names of them all.
fn read_found<F: Files>(
    alloc: Global,
    found: &Items<FoundFile>,
    ignore_unknown: bool,
    files: &mut F,
) -> Result<Units, RenderStop>
    requires { length found.now ≤ most_files }
    ensures read { ReadsFound ignore_unknown (each file_of found.now) (F.tree files.old) result }
    ensures runs { IfOk result (λ units. MayRun 1 units.files units.contents) }
    ensures keeps { F.tree files.new ≡ F.tree files.old }
    ensures cause { EndsAt (IsReached ignore_unknown (each file_of found.now) (F.tree files.old)) (F.faults files.old) (F.faults files.new) result }
{
    let names = names_of(alloc, found)?;
    match read_files(alloc, found, ignore_unknown, files) {
        Err(stop) => Err(stop_with(stop, names)),
        Ok(HeldFiles { blocks, contents }) => Ok(Units {
            names,
            files: blocks,
            contents,
        }),
    }
}

/// The files that these paths name, found and read one after another, or the first fault.
///
/// The faults of finding come first, and then those of each file in its turn: of its read, of its text, of its code and of what isn't
/// built yet. `Refused` has the names of all files that were found, the first for number 1. `ReadFailed` has the path where the files
/// failed, and `Memory` says that there was no room.
pub fn read_units<F: Files>(
    alloc: Global,
    paths: &Names,
    ignore_unknown: bool,
    files: &mut F,
) -> Result<Units, RenderStop>
    ensures read { ReadsUnits ignore_unknown paths.now (F.tree files.old) result }
    ensures runs { IfOk result (λ units. MayRun 1 units.files units.contents) }
    ensures keeps { F.tree files.new ≡ F.tree files.old }
    ensures cause { HasCause ignore_unknown paths.now (F.tree files.old) (F.faults files.old) (F.faults files.new) result }
{
    match find_files(alloc, paths, files) {
        Err(stop) => Err(stop_with(stop, Items::new(alloc))),
        Ok(found) => read_found(alloc, &found, ignore_unknown, files),
    }
}
