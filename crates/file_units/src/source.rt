// What the bytes of a file are read as.
ghost use Rattle.std.specs.Prelude.{◌≡◌, ◌<◌, ◌^◌, true, IfOk, length};
ghost use Rattle.ytt_base.specs.Outcomes.{and_then};
ghost use Rattle.file_units.specs.Files.{IsWholeAs, ReadsSource, content_for, plain_for, role_for, yaml_for};
ghost use Rattle.world_spec.specs.Units.{code_items, code_source, role_of, source_of};
ghost use Rattle.yaml_held.specs.Keyed.{KeyedDocuments};
ghost use Rattle.yaml_noted.specs.View.{documents_of};
ghost use Rattle.yaml_spec.specs.Read.{Read};

use crate::names::{is_star, is_yaml_library};
use crate::template::read_template;
use crate::units::{Content, HeldFile};
use sqlite_items::Items;
use star_file::{FileProgram, read_star_file};
use star_functions::FileBlock;
use star_resolve::Scope;
use std::alloc::Global;
use yaml_held::reads_keyed;
use yaml_read::{NotedDocs, has_code, plain_trees, read_noted};
use ytt_base::fault::Stop;

/// What is held of a program: in a library it gives no documents.
fn of_program(program: FileProgram, library: bool) -> HeldFile
    ensures block { result.block ≡ program.block }
    ensures content { result.content ≡ content_for library program.globals }
{
    let FileProgram { block, globals } = program;
    let content = if library {
        Content::Library(globals)
    } else {
        Content::Template(globals)
    };
    HeldFile { block, content }
}

/// What is held of a file of code.
fn read_code(alloc: Global, bytes: &[u8], file: u32) -> Result<HeldFile, Stop>
    requires { length bytes.now < 2 ^ 32 }
    ensures read { ReadsSource file (role_for true) result (λ r. code_source (code_items r file bytes.now)) }
    ensures whole { IfOk result (IsWholeAs file) }
{
    let program = read_star_file(alloc, bytes, file)?;
    Ok(of_program(program, true))
}

/// What is held of YAML without code: its documents, or in a library nothing.
fn without_code(
    alloc: Global,
    documents: &NotedDocs,
    file: u32,
    library: bool,
) -> Result<HeldFile, Stop>
    ensures read { ReadsSource file (role_for library) result (λ r. plain_for library (documents_of documents.now)) }
    ensures whole { IfOk result (IsWholeAs file) }
{
    let block = FileBlock {
        file,
        block: Items::new(alloc),
    };
    if library {
        let names = Scope::of(alloc, &Items::new(alloc))?;
        let content = Content::Library(names);
        return Ok(HeldFile { block, content });
    }
    let content = Content::Documents(plain_trees(alloc, documents)?);
    Ok(HeldFile { block, content })
}

/// What is held of YAML by its documents.
fn of_documents(
    alloc: Global,
    documents: NotedDocs,
    file: u32,
    library: bool,
    ignore_unknown: bool,
) -> Result<HeldFile, Stop>
    requires { KeyedDocuments (documents_of documents) }
    ensures read { ReadsSource file (role_for library) result (λ r. yaml_for r ignore_unknown file library (documents_of documents)) }
    ensures whole { IfOk result (IsWholeAs file) }
{
    if has_code(&documents) {
        let program = read_template(alloc, documents, file, ignore_unknown)?;
        return Ok(of_program(program, library));
    }
    without_code(alloc, &documents, file, library)
}

/// What is held of YAML.
fn read_yaml(
    alloc: Global,
    bytes: &[u8],
    file: u32,
    library: bool,
    ignore_unknown: bool,
) -> Result<HeldFile, Stop>
    requires { length bytes.now < 2 ^ 32 }
    ensures read { ReadsSource file (role_for library) result (λ r. and_then (yaml_for r ignore_unknown file library) (Read file bytes.now)) }
    ensures whole { IfOk result (IsWholeAs file) }
{
    let documents = read_noted(alloc, bytes, file)?;
    reads_keyed();
    of_documents(alloc, documents, file, library, ignore_unknown)
}

/// What is held of the file of this name and number, or its first fault: of its text first, then of its code, and then of what isn't
/// built yet.
pub fn read_source(
    alloc: Global,
    name: &str,
    bytes: &[u8],
    file: u32,
    ignore_unknown: bool,
) -> Result<HeldFile, Stop>
    requires { length bytes.now < 2 ^ 32 }
    ensures read { ReadsSource file (role_of name.now) result (λ r. source_of r ignore_unknown file name.now bytes.now) }
    ensures whole { IfOk result (IsWholeAs file) }
{
    if is_star(name.as_bytes()) {
        return read_code(alloc, bytes, file);
    }
    let library = is_yaml_library(name.as_bytes());
    read_yaml(alloc, bytes, file, library, ignore_unknown)
}
