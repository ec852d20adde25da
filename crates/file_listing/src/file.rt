// Reading one file, and listing its program.
ghost use Rattle.std.specs.Prelude.{◌≡◌, ◌∷◌, ◌<◌, ◌^◌, [], IfOk, IfSome, length};
ghost use Rattle.compile_spec.specs.Compiling.{items_asked, listed_items, text_items};
ghost use Rattle.file_find.specs.Reads.{FailsAt};
ghost use Rattle.file_listing.specs.Lists.{HasListCause, Lists, ListsFile, ListsFound};
ghost use Rattle.file_spec.specs.Names.{last_part};
ghost use Rattle.yaml_held.specs.Keyed.{KeyedDocuments};
ghost use Rattle.yaml_noted.specs.View.{documents_of};

use crate::names::is_compiled;
use file_find::{FindStop, last_part, path_fault, read_file};
use file_units::{RenderStop, compile_documents, stop_with};
use listing::listing;
use sqlite_items::Items;
use std::alloc::Global;
use yaml_held::reads_keyed;
use yaml_read::{NotedDocs, has_code, read_noted};
use ytt_base::fault::{FaultKind, Stop};
use ytt_base::text::{Memory, Names, Text};
use ytt_outside::files::Files;

/// How many bytes the file has at most.
const LARGEST_FILE: u64 = 8 * 1024 * 1024;

/// The listing of documents of file number 1. A file without code counts as a template whose comments are ignored.
fn list_documents(alloc: Global, documents: NotedDocs, ignore_unknown: bool) -> Result<Text, Stop>
    requires { KeyedDocuments (documents_of documents) }
    ensures { Lists result (λ r. listed_items r ignore_unknown (documents_of documents)) }
{
    let ignored = !has_code(&documents) || ignore_unknown;
    let resolved = compile_documents(alloc, documents, 1, ignored)?;
    Ok(listing(alloc, &resolved.program)?)
}

/// The listing of a text, as that of file number 1.
fn list_text(alloc: Global, bytes: &[u8], ignore_unknown: bool) -> Result<Text, Stop>
    requires { length bytes.now < 2 ^ 32 }
    ensures { Lists result (λ r. text_items r ignore_unknown bytes.now) }
{
    let documents = read_noted(alloc, bytes, 1)?;
    reads_keyed();
    list_documents(alloc, documents, ignore_unknown)
}

/// The listing of the file at a path, or why there is none.
fn list_file<F: Files>(
    alloc: Global,
    path: &Text,
    ignore_unknown: bool,
    files: &mut F,
) -> Result<Text, FindStop>
    ensures told { ListsFile ignore_unknown path.now (F.tree files.old) result }
    ensures keeps { F.tree files.new ≡ F.tree files.old }
    ensures cause { FailsAt path.now (F.faults files.old) (F.faults files.new) result }
{
    if !is_compiled(last_part(path.as_str()).as_bytes()) {
        return Err(FindStop::Fault(path_fault(FaultKind::FileMissing, path.copy()?)));
    }
    let bytes = read_file(alloc, files, path, LARGEST_FILE)?;
    Ok(list_text(alloc, bytes.as_slice(), ignore_unknown)?)
}

/// The name of the file at a path, alone.
fn name_at(alloc: Global, path: &Text) -> Result<Names, Memory>
    ensures { IfOk result (λ names. names ≡ last_part path.now ∷ []) }
{
    let mut names: Names = Items::new(alloc);
    names.push(Text::of(alloc, last_part(path.as_str()))?)?;
    Ok(names)
}

/// The listing of the program of the file at a path: one instruction a line. Nothing of it is run.
///
/// A path at which nothing stands or a folder, or whose last part ends neither in `.yml` nor in `.yaml`, is FileMissing, and a file of more
/// than 8 MiB FileTooLarge; then come the faults of its text and of its passes, up to what isn't built yet. A file without code has a listing
/// too. Under `ignore_unknown` comments of no known form say nothing. `Refused` has the last part of the path as the file's name;
/// `ReadFailed` has the path where the files failed, and `Memory` says that there was no room.
pub fn compile_file<F: Files>(
    alloc: Global,
    path: &Text,
    ignore_unknown: bool,
    files: &mut F,
) -> Result<Text, RenderStop>
    ensures listed { ListsFound ignore_unknown path.now (F.tree files.old) result }
    ensures keeps { F.tree files.new ≡ F.tree files.old }
    ensures cause { HasListCause ignore_unknown path.now (F.tree files.old) (F.faults files.old) (F.faults files.new) result }
{
    let names = name_at(alloc, path)?;
    match list_file(alloc, path, ignore_unknown, files) {
        Ok(text) => Ok(text),
        Err(stop) => Err(stop_with(stop, names)),
    }
}
