// Reading the files that were found, one after another.
ghost use Rattle.std.specs.Prelude.{◌≡◌, ◌≤◌, IfOk, length, map as each};
ghost use Rattle.file_find.specs.Finds.{file_of};
ghost use Rattle.file_spec.specs.Limits.{most_files};
ghost use Rattle.file_units.specs.Files.{IsReached, IsWholeAs, ReadsFile, ReadsFiles};
ghost use Rattle.file_units.specs.Held.{MayRun};
ghost use Rattle.file_units.specs.Stops.{FailsAt};

use crate::source::read_source;
use crate::units::{HeldFile, HeldFiles};
use file_find::{FindStop, FoundFile, read_file};
use sqlite_items::Items;
use std::alloc::Global;
use ytt_outside::files::Files;

/// How many bytes all files together have at most.
const LARGEST_WHOLE: u64 = 64 * 1024 * 1024;

/// What is held of one file, which is read within what is left for it and all that follow; what is left behind it stays.
fn read_one<F: Files>(
    alloc: Global,
    file: &FoundFile,
    number: u32,
    left: &mut u64,
    ignore_unknown: bool,
    files: &mut F,
) -> Result<HeldFile, FindStop>
    ensures read { ReadsFile ignore_unknown number (file_of file.now) left.old left.new (F.tree files.old) result }
    ensures whole { IfOk result (IsWholeAs number) }
    ensures keeps { F.tree files.new ≡ F.tree files.old }
    ensures cause { FailsAt (λ path. path ≡ file.now.path) (F.faults files.old) (F.faults files.new) result }
{
    let bytes = read_file(alloc, files, &file.path, *left)?;
    let held = read_source(
        alloc,
        file.name.as_str(),
        bytes.as_slice(),
        number,
        ignore_unknown,
    )?;
    *left -= bytes.len() as u64;
    Ok(held)
}

/// What is held of the files that were found, in their order, or the first fault of all. The first file has number 1.
pub fn read_files<F: Files>(
    alloc: Global,
    found: &Items<FoundFile>,
    ignore_unknown: bool,
    files: &mut F,
) -> Result<HeldFiles, FindStop>
    requires { length found.now ≤ most_files }
    ensures read { ReadsFiles ignore_unknown (each file_of found.now) (F.tree files.old) result }
    ensures runs { IfOk result (λ held. MayRun 1 held.blocks held.contents) }
    ensures keeps { F.tree files.new ≡ F.tree files.old }
    ensures cause { FailsAt (IsReached ignore_unknown (each file_of found.now) (F.tree files.old)) (F.faults files.old) (F.faults files.new) result }
{
    let mut held = HeldFiles::new(alloc);
    let mut left = LARGEST_WHOLE;
    let mut number = 1;
    for file in found.as_slice() {
        let one = read_one(alloc, file, number, &mut left, ignore_unknown, files)?;
        held.push(one)?;
        number += 1;
    }
    Ok(held)
}
