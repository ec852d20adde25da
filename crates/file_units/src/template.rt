// Templates as programs.
ghost use Rattle.file_units.specs.Templates.{CompilesItems};
ghost use Rattle.star_file.specs.Programs.{ReadsProgram};
ghost use Rattle.world_spec.specs.Units.{template_items};
ghost use Rattle.yaml_held.specs.Keyed.{KeyedDocuments};
ghost use Rattle.yaml_noted.specs.View.{documents_of};

use star_file::{FileProgram, nested};
use star_resolve::Resolved;
use std::alloc::Global;
use template_program::compile;
use template_tree::place;
use yaml_read::NotedDocs;
use ytt_base::fault::Stop;

/// The program of a template's documents as they stand in the file of this number, or its first fault: those of its comments and of their
/// placing come first, then those of its text templates, then the first name that neither the template nor the language binds, and then
/// what isn't built yet. Under `ignore_unknown` a comment of no known form says nothing. Want of memory is `Stop::Memory`.
pub fn compile_documents(
    alloc: Global,
    documents: NotedDocs,
    file: u32,
    ignore_unknown: bool,
) -> Result<Resolved, Stop>
    requires { KeyedDocuments (documents_of documents) }
    ensures { CompilesItems file result (λ r. template_items r ignore_unknown file (documents_of documents)) }
{
    let template = place(alloc, documents, file, ignore_unknown)?;
    compile(alloc, template)
}

/// The same with its blocks nested.
pub fn read_template(
    alloc: Global,
    documents: NotedDocs,
    file: u32,
    ignore_unknown: bool,
) -> Result<FileProgram, Stop>
    requires { KeyedDocuments (documents_of documents) }
    ensures { ReadsProgram file result (λ r. template_items r ignore_unknown file (documents_of documents)) }
{
    let resolved = compile_documents(alloc, documents, file, ignore_unknown)?;
    Ok(nested(alloc, resolved)?)
}
