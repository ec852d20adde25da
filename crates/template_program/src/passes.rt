// The passes over a template: its text templates, its program with the variables of its names and the numbers of its
// functions, and then what of it isn't built.
ghost use Rattle.std.specs.Prelude.{◌≡◌, IfOk};
ghost use Rattle.star_resolve.specs.Variables.{each_once};
ghost use Rattle.code_spec.specs.Scopes.{program_names};
ghost use Rattle.star_tree.specs.Whole.{program_of};
ghost use Rattle.template_tree.specs.View.{template_of};
ghost use Rattle.template_program.specs.Programs.{Compiles, HasNames};

use crate::program::program;
use crate::unbuilt::first_unbuilt;
use notes_read::a_code_reader_exists;
use star_resolve::{Resolved, resolve};
use star_tree::names::language_names;
use std::alloc::Global;
use template_tree::Template;
use ytt_base::fault::{Fault, FaultKind, Stop};
use ytt_base::text::Text;

/// The program of a template with the variable of each of its names and the number of each of its functions,
/// where each name is bound, in the template or by the language. The first in text order that is not is a fault
/// of the kind NameUnknown at its place, with the name as the detail. Those of text templates come before it.
fn bound(alloc: Global, template: Template) -> Result<Resolved, Stop>
    ensures program { HasNames (template_of template) result }
    ensures globals { IfOk result (λ r. r.globals ≡ each_once (program_names (program_of r.program))) }
    ensures file { IfOk result (λ r. r.program.file ≡ template.file) }
{
    let program = program(alloc, template)?;
    let builtins = language_names(alloc)?;
    let resolved = resolve(alloc, program, &builtins)?;
    Ok(resolved)
}

/// The program of a template, in the template's file: its statements, the heads and ends of its blocks, and
/// a part of a node for each start, note, key, value and end, in the order of the text; with the variable of
/// each of its names, and the number of each of its functions. Where a note asks for text templates, a key and a value that are
/// texts with marks are expressions.
///
/// The first fault of a text template in text order is told first: TextForm, where the text isn't of the form, at its
/// item's place, and those of its code. Behind these, the first name in text order that is bound neither in the template nor by
/// the language is a fault of the kind NameUnknown at its place, with the name as the detail. Behind that, where something
/// isn't built, the first such place at the least line is a fault of the kind NotBuilt. Want of memory is `Stop::Memory`.
pub fn compile(alloc: Global, template: Template) -> Result<Resolved, Stop>
    ensures program { Compiles (template_of template) result }
    ensures globals { IfOk result (λ r. r.globals ≡ each_once (program_names (program_of r.program))) }
    ensures file { IfOk result (λ r. r.program.file ≡ template.file) }
{
    a_code_reader_exists();
    let unbuilt = first_unbuilt(&template);
    let resolved = bound(alloc, template)?;
    match unbuilt {
        None => Ok(resolved),
        Some(place) => Err(Stop::Fault(Fault {
            kind: FaultKind::NotBuilt,
            place: Some(place),
            detail: Text::new(alloc),
        })),
    }
}
