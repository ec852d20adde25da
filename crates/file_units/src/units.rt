// What is held of the files of a request.
ghost use Rattle.std.specs.Prelude.{◌≡◌, ◌++◌, ◌∷◌, [], OnOk};
ghost use Rattle.file_units.specs.Stops.{stop_with};

use file_find::FindStop;
use sqlite_items::Items;
use star_functions::FileBlock;
use star_resolve::Scope;
use std::alloc::Global;
use ytt_base::fault::Fault;
use ytt_base::text::{Memory, Names, Text};
use ytt_base::tree::Trees;

/// What a file gives.
#[derive(Drop)]
pub enum Content {
    /// The documents that its block builds, whose scope has these names.
    Template(Scope),
    /// No documents: its block, whose scope has these names, is for other files.
    Library(Scope),
    /// These documents, of which none is null; its block is empty.
    Documents(Trees),
}

/// What is held of one file: its block, and what it gives.
#[derive(Drop)]
pub struct HeldFile {
    pub block: FileBlock,
    pub content: Content,
}

/// What is held of files in the order of their numbers: the block of each, and what it gives.
#[derive(Drop)]
pub struct HeldFiles {
    pub blocks: Items<FileBlock>,
    pub contents: Items<Content>,
}

impl HeldFiles {
    pub fn new(alloc: Global) -> HeldFiles
        ensures blocks { result.blocks ≡ [] }
        ensures contents { result.contents ≡ [] }
    {
        HeldFiles {
            blocks: Items::new(alloc),
            contents: Items::new(alloc),
        }
    }

    /// Adds a file behind the others.
    pub fn push(&mut self, file: HeldFile) -> Result<(), Memory>
        ensures blocks { OnOk result (self.new.blocks ≡ self.old.blocks ++ file.block ∷ []) }
        ensures contents { OnOk result (self.new.contents ≡ self.old.contents ++ file.content ∷ []) }
    {
        self.blocks.push(file.block)?;
        self.contents.push(file.content)?;
        Ok(())
    }
}

/// The files of a request in the order of their numbers from 1: the name of each, its block, and what it gives.
#[derive(Drop)]
pub struct Units {
    pub names: Names,
    pub files: Items<FileBlock>,
    pub contents: Items<Content>,
}

/// Why there are no documents: a fault with the names of the files in which it may stand, the first for number 1; the path at which
/// the files failed; or want of memory.
#[derive(Drop)]
pub enum RenderStop {
    Refused { fault: Fault, names: Names },
    ReadFailed(Text),
    Memory,
}

impl From<Memory> for RenderStop {
    ghost use Rattle.std.specs.Prelude.{◌≡◌};
    ghost use Rattle.file_units.specs.declared.units.RenderStop.TheVariants as stop;

    ghost from_gives = { λ _ s. s ≡ stop.Memory };

    fn from(_: Memory) -> Self {
        RenderStop::Memory
    }
}

/// A stop of finding or reading, whose fault may stand in the files of these names.
pub fn stop_with(stop: FindStop, names: Names) -> RenderStop
    ensures { result ≡ stop_with names stop }
{
    match stop {
        FindStop::Fault(fault) => RenderStop::Refused { fault, names },
        FindStop::ReadFailed(path) => RenderStop::ReadFailed(path),
        FindStop::Memory => RenderStop::Memory,
    }
}
