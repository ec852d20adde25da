//! The definitions of the two meanings of templates, and the law between them. They stand in `specs/`.
//!
//! A program that is a template compiled runs as the template is built, for every language, every host and every state of it,
//! where in the template and in those of the other files no `break`, `continue` or `return` leaves a node (`WordsStand`): in a
//! scope (`scopes`), for a whole file (`files`) and for files that load one another (`loads`) of `compiled_runs_as_built`.
#![tactic(auto)]

ghost use Rattle.std.specs.Prelude.{◌≡◌, List};
ghost use Rattle.code_spec.specs.Program.{Instruction};
ghost use Rattle.star_spec.specs.Calls.{Host};
ghost use Rattle.star_spec.specs.Language.{Language};
ghost use Rattle.template_meaning.specs.Files.{Shelf};
ghost use Rattle.template_meaning.specs.Meaning.{Agrees, FilesAgree, LoadsAgree};
ghost use Rattle.template_spec.specs.Compiled.{compiled};
ghost use Rattle.template_spec.specs.ControlWords.{WordsStand, free};
ghost use Rattle.template_spec.specs.Template.{Items};

/// A program that is a template compiled runs as the template is built, in each scope and as a file, and so
/// do files that load one another: the same children, or the same fault at the same place, the same steps
/// left, and the same store and state of the host, for every language, every host and every state of it.
pub fn compiled_runs_as_built<H>()
    ensures scopes { (language : Language H) (host : Host H) (program : List Instruction) (t : Items) → program ≡ compiled t → WordsStand free t → Agrees language host program t }
    ensures files { (language : Language H) (host : Host H) (program : List Instruction) (t : Items) → program ≡ compiled t → WordsStand free t → FilesAgree language host program t }
    ensures loads { (language : Language H) (host : Host H) (shelf : Shelf H) → LoadsAgree language host shelf }
{}
