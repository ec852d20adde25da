ghost use Rattle.std.specs.Prelude.{◌≡◌, ◌≢◌, ℕ, List, Err, IfOk, IfSome};
ghost use Rattle.std.specs.declared.option.Option.{Option};
ghost use Rattle.ytt_outside.specs.Files.{FilesCounts, IsWithin, got_of, kind_of, names_of};
ghost use Rattle.ytt_outside.specs.Names.{AreSorted};
ghost use Rattle.ytt_outside.specs.Standing.{Standing};

use sqlite_items::Items;
use std::alloc::Global;
use thiserror::Error;
use ytt_base::text::Names;

/// The bytes of a file.
pub type Bytes = Items<u8>;

/// What stands at a path.
#[derive(Clone, Copy, PartialEq, Eq)]
pub enum PathKind {
    File,
    Folder,
    Missing,
}

/// What the read of a file gives.
#[derive(Drop)]
pub enum Got {
    /// All of its bytes.
    Bytes(Bytes),
    /// The file is longer than the limit.
    TooLarge,
    /// There is no such file.
    Missing,
}

/// Why a call of `Files` gave nothing.
#[derive(Clone, Copy, Debug, PartialEq, Eq, Error)]
pub enum FilesStop {
    #[error("the files failed")]
    Failed,
    #[error("out of memory")]
    Memory,
}

/// Where files are read.
///
/// The count `faults` never falls. `Failed` comes only where it rose (or stands at its last value,
/// 2^64 - 1), and any other answer leaves it as it was. No call changes a told tree.
pub trait Files {
    /// What stands at each path, or nothing where it doesn't tell.
    ghost tree: { Self → Option (List ℕ → Standing) };

    /// How often it has failed.
    ghost faults: { Self → ℕ };

    /// What stands at the path. It takes no memory.
    fn kind(&mut self, path: &str) -> Result<PathKind, FilesStop>
        ensures told { IfOk result (λ k. IfSome (tree self.old) (λ t. k ≡ kind_of (t path.now))) }
        ensures keeps { tree self.new ≡ tree self.old }
        ensures cause { FilesCounts (faults self.old) (faults self.new) result }
        ensures takes_no_memory { result ≢ Err FilesStop.Memory };

    /// The names in the folder at the path, each below the next one by its bytes. What is no folder
    /// has no names.
    fn list(&mut self, alloc: Global, path: &str) -> Result<Names, FilesStop>
        ensures told { IfOk result (λ names. IfSome (tree self.old) (λ t. names ≡ names_of (t path.now))) }
        ensures sorted { IfOk result AreSorted }
        ensures keeps { tree self.new ≡ tree self.old }
        ensures cause { FilesCounts (faults self.old) (faults self.new) result };

    /// The bytes of the file at the path, where they are at most `limit`.
    fn read(&mut self, alloc: Global, path: &str, limit: u64) -> Result<Got, FilesStop>
        ensures told { IfOk result (λ got. IfSome (tree self.old) (λ t. got ≡ got_of limit (t path.now))) }
        ensures bound { IfOk result (λ got. IsWithin limit got) }
        ensures keeps { tree self.new ≡ tree self.old }
        ensures cause { FilesCounts (faults self.old) (faults self.new) result };
}
