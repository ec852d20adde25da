// What is held of files, in the parts that a run needs apart: their programs, and what each gives.
ghost use Rattle.std.specs.Prelude.{◌≡◌, List, length, map as each, reverse, IfOk};
ghost use Rattle.star_functions.specs.Known.{blocks_in};
ghost use Rattle.file_load.specs.Programs.{names_in};
ghost use Rattle.render_core.specs.Parts.{file_blocks, gives_in, scope_in, scopes_of};

use file_load::Program;
use file_units::Content;
use sqlite_items::Items;
use star_functions::FileBlock;
use star_resolve::Scope;
use std::alloc::Global;
use ytt_base::text::{Memory, Text};
use ytt_base::tree::Trees;

/// What a file gives: the documents that its block builds, none, or these.
#[derive(Drop)]
pub(crate) enum Output {
    Built,
    Nothing,
    Documents(Trees),
}

/// The scopes of files in their order, and what each gives, the last one first.
#[derive(Drop)]
pub(crate) struct Parts {
    pub scopes: Items<Scope>,
    pub outputs: Items<Output>,
}

/// References to files, in their order.
pub(crate) fn references<'p>(
    alloc: Global,
    files: &'p [FileBlock],
) -> Result<Items<&'p FileBlock>, Memory>
    ensures { IfOk result (λ found. blocks_in found ≡ files.now) }
{
    let mut found = Items::new(alloc);
    let mut rest = files;
    while let Some((file, more)) = rest.split_first() {
        found.push(file)?;
        rest = more;
    }
    Ok(found)
}

/// Scopes, the last one first.
fn turned(alloc: Global, scopes: Items<Scope>) -> Result<Items<Scope>, Memory>
    ensures { IfOk result (λ turned. turned ≡ reverse scopes) }
{
    let mut turned = Items::new(alloc);
    let mut left = scopes;
    while let Some(scope) = left.pop() {
        turned.push(scope)?;
    }
    Ok(turned)
}

/// The scope of a file, and what it gives.
fn part(alloc: Global, content: Content) -> Result<(Scope, Output), Memory>
    ensures { IfOk result (λ p. p ≡ (scope_in content, gives_in content)) }
{
    match content {
        Content::Template(names) => Ok((names, Output::Built)),
        Content::Library(names) => Ok((names, Output::Nothing)),
        Content::Documents(trees) => {
            let none = Scope::of(alloc, &Items::new(alloc))?;
            Ok((none, Output::Documents(trees)))
        }
    }
}

/// The scopes of files, and what each gives.
pub(crate) fn parted(alloc: Global, contents: Items<Content>) -> Result<Parts, Memory>
    ensures scopes { IfOk result (λ p. p.scopes ≡ each scope_in contents) }
    ensures outputs { IfOk result (λ p. reverse p.outputs ≡ each gives_in contents) }
{
    let mut scopes = Items::new(alloc);
    let mut outputs = Items::new(alloc);
    let mut left = contents;
    while let Some(content) = left.pop() {
        let (scope, output) = part(alloc, content)?;
        scopes.push(scope)?;
        outputs.push(output)?;
    }
    let scopes = turned(alloc, scopes)?;
    Ok(Parts { scopes, outputs })
}

/// The programs of files, by the name, the block and the scope of each.
pub(crate) fn programs_of<'p>(
    alloc: Global,
    names: &'p [Text],
    files: &'p [FileBlock],
    scopes: &'p [Scope],
) -> Result<Items<Program<'p>>, Memory>
    requires names { length names.now ≡ length files.now }
    requires scopes { length scopes.now ≡ length files.now }
    ensures names { IfOk result (λ ps. names_in ps ≡ names.now) }
    ensures files { IfOk result (λ ps. file_blocks ps ≡ files.now) }
    ensures scopes { IfOk result (λ ps. scopes_of ps ≡ scopes.now) }
{
    let mut programs = Items::new(alloc);
    let mut names_left = names;
    let mut scopes_left = scopes;
    let mut rest = files;
    while let Some((block, more)) = rest.split_first() {
        let Some((name, names_behind)) = names_left.split_first() else {
            unreachable!()
        };
        let Some((scope, scopes_behind)) = scopes_left.split_first() else {
            unreachable!()
        };
        programs.push(Program { name, block, scope })?;
        names_left = names_behind;
        scopes_left = scopes_behind;
        rest = more;
    }
    Ok(programs)
}
