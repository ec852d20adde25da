// The machine's files.
ghost use Rattle.std.specs.Prelude.{◌≡◌, ◌≢◌, Err, IfOk, None};
ghost use Rattle.ytt_outside.specs.Files.{FilesCounts, IsWithin, count_after};
ghost use Rattle.ytt_outside.specs.HostFiles.{faults_in};
ghost use Rattle.ytt_outside.specs.Names.{AreSorted};

use crate::files::{Files, FilesStop, Got, PathKind};
use crate::names::texts_of;
use sqlite_items::Items;
use std::alloc::Global;
use std::collections::BTreeSet;
use std::fs;
use std::io::{self, ErrorKind, Read};
use ytt_base::text::Names;

/// The files that the runtime gives. It tells nothing of them.
///
/// Each `Err` of the machine counts as a failure, but for a path at which nothing stands or can stand
/// (as behind a loop of links), or no folder, or in `read` a folder, and in `read` and `list` for
/// want of memory. A name that isn't
/// UTF-8 is such an `Err`, and so is a source that isn't at its end after as many turns as the
/// standard library makes.
#[derive(Drop)]
pub struct HostFiles<R> {
    rt: R,
    faults: u64,
}

impl<R> HostFiles<R> {
    /// Files that have not failed yet.
    pub fn new(rt: R) -> HostFiles<R>
        ensures { faults_in result ≡ 0 }
    {
        HostFiles { rt, faults: 0 }
    }

    /// What an error of the machine is, which it counts where it is a failure.
    fn stop(&mut self, error: &io::Error) -> FilesStop
        ensures { faults_in self.new ≡ count_after {T = Unit {0}} (Err result) (faults_in self.old) }
    {
        if error.kind() == ErrorKind::OutOfMemory {
            return FilesStop::Memory;
        }
        self.faults = self.faults.saturating_add(1);
        FilesStop::Failed
    }
}

/// Whether the error says that nothing stands at the path, or that nothing can: a link to nothing, a
/// loop of links, a name that is longer than names may be, or a path below a file. For a read a
/// folder is no file.
fn is_missing(error: &io::Error) -> bool {
    let kind = error.kind();
    matches!(
        kind,
        ErrorKind::NotFound
            | ErrorKind::NotADirectory
            | ErrorKind::IsADirectory
            | ErrorKind::FilesystemLoop
            | ErrorKind::InvalidFilename
    )
}

/// At most `limit` bytes from the start of the file.
fn read_start<R: std::rt::Files>(
    alloc: Global,
    rt: &R,
    path: &str,
    limit: u64,
) -> io::Result<Vec<u8>> {
    let file = fs::File::open(rt, path)?;
    let mut bytes = Vec::new(alloc);
    file.take(limit).read_to_end(&mut bytes)?;
    Ok(bytes)
}

/// Puts the name of an entry among the others.
fn put_name<R: std::rt::Files + Alloc + Clone + Drop>(
    alloc: Global,
    names: &mut BTreeSet<String>,
    entry: io::Result<fs::DirEntry<R, R::A>>,
) -> io::Result<()> {
    let entry = entry?;
    names.insert(String::from_str(alloc, entry.file_name())?)?;
    Ok(())
}

/// The names of a folder's entries.
fn names_of<R: std::rt::Files + Alloc + Clone + Drop>(
    alloc: Global,
    entries: fs::ReadDir<R, R::A>,
) -> io::Result<BTreeSet<String>> {
    let mut names = BTreeSet::new(alloc);
    for entry in entries {
        put_name(alloc, &mut names, entry)?;
    }
    Ok(names)
}

/// The names in the folder, where it is one. The standard library leaves out `.` and `..`, and refuses a name that isn't
/// UTF-8, as it refuses a path that is too long: so what it says of an entry stands apart.
fn read_names<R: std::rt::Files + Alloc + Clone + Drop>(
    alloc: Global,
    rt: &R,
    path: &str,
) -> io::Result<io::Result<BTreeSet<String>>> {
    let entries = fs::read_dir(rt, path)?;
    Ok(names_of(alloc, entries))
}

impl<R: std::rt::Files + Alloc + Clone + Drop> Files for HostFiles<R> {
    ghost tree = { λ _. None };

    ghost faults = { faults_in };

    fn kind(&mut self, path: &str) -> Result<PathKind, FilesStop>
        ensures cause { FilesCounts (faults_in self.old) (faults_in self.new) result }
        ensures counts { faults_in self.new ≡ count_after result (faults_in self.old) }
        ensures takes_no_memory { result ≢ Err FilesStop.Memory }
    {
        match fs::metadata(&self.rt, path) {
            Ok(metadata) => {
                if metadata.is_dir() {
                    return Ok(PathKind::Folder);
                }
                Ok(PathKind::File)
            }
            Err(error) => {
                if is_missing(&error) {
                    return Ok(PathKind::Missing);
                }
                self.faults = self.faults.saturating_add(1);
                Err(FilesStop::Failed)
            }
        }
    }

    fn list(&mut self, alloc: Global, path: &str) -> Result<Names, FilesStop>
        ensures sorted { IfOk result AreSorted }
        ensures cause { FilesCounts (faults_in self.old) (faults_in self.new) result }
        ensures counts { faults_in self.new ≡ count_after result (faults_in self.old) }
    {
        match read_names(alloc, &self.rt, path) {
            Ok(Ok(names)) => match texts_of(alloc, names) {
                Ok(names) => Ok(names),
                Err(_) => Err(FilesStop::Memory),
            },
            Ok(Err(error)) => Err(self.stop(&error)),
            Err(error) => {
                if is_missing(&error) {
                    return Ok(Items::new(alloc));
                }
                Err(self.stop(&error))
            }
        }
    }

    fn read(&mut self, alloc: Global, path: &str, limit: u64) -> Result<Got, FilesStop>
        ensures bound { IfOk result (λ got. IsWithin limit got) }
        ensures cause { FilesCounts (faults_in self.old) (faults_in self.new) result }
        ensures counts { faults_in self.new ≡ count_after result (faults_in self.old) }
    {
        match read_start(alloc, &self.rt, path, limit.saturating_add(1)) {
            Ok(bytes) => {
                if bytes.len() as u64 > limit {
                    return Ok(Got::TooLarge);
                }
                Ok(Got::Bytes(Items::from_vec(bytes)))
            }
            Err(error) => {
                if is_missing(&error) {
                    return Ok(Got::Missing);
                }
                Err(self.stop(&error))
            }
        }
    }
}
