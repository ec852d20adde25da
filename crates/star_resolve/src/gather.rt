// The names that files and functions bind, read from the end of a program, so that they are known at its heads.
ghost use Rattle.std.specs.Prelude.{◌≡◌, ℕ, [], ◌∷◌, ◌++◌, reverse, map as each, IfOk, OnOk};
ghost use Rattle.code_spec.specs.Names.{target_names};
ghost use Rattle.star_resolve.specs.Gathered.{all_names, begun_by, bind, gather, gathered, gathered_of, merged, own_names, with_function};
ghost use Rattle.star_tree.specs.Whole.{expr_of, instruction_of};

use crate::names::{of_loaded, parameter_names, put_target_names};
use sqlite_items::Items;
use star_tree::code::{Expr, Stmt};
use std::alloc::Global;
use ytt_base::text::{Memory, Text, Texts};

/// What is read of a program from its end: the names so far of the blocks that are closed further on,
/// the innermost last, each from its end; and the names that each function binds, the first one last.
#[derive(Drop)]
pub struct Blocks {
    pub inner: Items<Texts>,
    pub functions: Items<Texts>,
}

/// Moves the names to the end, the last one first.
fn put_reversed(names: Texts, onto: &mut Texts) -> Result<(), Memory>
    ensures { OnOk result (onto.new ≡ onto.old ++ reverse names) }
{
    let mut left = names;
    while let Some(name) = left.pop() {
        onto.push(name)?;
    }
    Ok(())
}

/// The innermost block binds the names too, in front of its others.
fn bind(names: Texts, blocks: &mut Blocks) -> Result<(), Memory>
    ensures { OnOk result (gathered_of blocks.new ≡ bind names (gathered_of blocks.old)) }
{
    if let Some(mut block) = blocks.inner.pop() {
        put_reversed(names, &mut block)?;
        blocks.inner.push(block)?;
    }
    Ok(())
}

/// The names of the innermost block, which is no function's, are those of the block around it.
fn merge(blocks: &mut Blocks) -> Result<(), Memory>
    ensures { OnOk result (gathered_of blocks.new ≡ record (gathered_of blocks.old) { inner = merged (reverse blocks.old.inner) }) }
{
    if let Some(block) = blocks.inner.pop() {
        if let Some(mut around) = blocks.inner.pop() {
            around.append(block)?;
            blocks.inner.push(around)?;
        }
    }
    Ok(())
}

/// The innermost block is that of a function with these parameters.
fn end_function(parameters: Texts, blocks: &mut Blocks) -> Result<(), Memory>
    ensures { OnOk result (gathered_of blocks.new ≡ with_function parameters (gathered_of blocks.old)) }
{
    let mut names = parameters;
    if let Some(block) = blocks.inner.pop() {
        put_reversed(block, &mut names)?;
    }
    blocks.functions.push(names)?;
    Ok(())
}

/// The block that a statement begins has been read whole.
fn begin(alloc: Global, stmt: &Stmt, blocks: &mut Blocks) -> Result<(), Memory>
    ensures { (file : ℕ) → OnOk result (gathered_of blocks.new ≡ begun_by (instruction_of file stmt.now) (gathered_of blocks.old)) }
{
    match stmt {
        Stmt::If(..) | Stmt::For(..) => merge(blocks),
        Stmt::Def(_, _, _, _, params) => end_function(parameter_names(alloc, params)?, blocks),
        Stmt::Close(_) => {
            blocks.inner.push(Items::new(alloc))?;
            Ok(())
        }
        _ => Ok(()),
    }
}

/// The names of a target alone.
fn of_target(alloc: Global, target: &Expr) -> Result<Texts, Memory>
    ensures { (file : ℕ) → IfOk result (λ names. names ≡ target_names (expr_of file target.now)) }
{
    let mut names = Items::new(alloc);
    put_target_names(target, &mut names)?;
    Ok(names)
}

/// The names that a statement binds where it stands.
fn own_names(alloc: Global, stmt: &Stmt) -> Result<Texts, Memory>
    ensures { (file : ℕ) → IfOk result (λ names. names ≡ own_names (instruction_of file stmt.now)) }
{
    match stmt {
        Stmt::Assign(_, target, _) => of_target(alloc, target.get()),
        Stmt::Augment(_, _, _, target, _) => of_target(alloc, target.get()),
        Stmt::Load(_, _, loaded) => of_loaded(alloc, loaded),
        Stmt::For(_, target, _) => of_target(alloc, target.get()),
        Stmt::Def(_, _, _, name, _) => alone(alloc, name),
        _ => Ok(Items::new(alloc)),
    }
}

fn alone(alloc: Global, name: &Text) -> Result<Texts, Memory>
    ensures { IfOk result (λ names. names ≡ name.now ∷ []) }
{
    let mut names = Items::new(alloc);
    names.push(name.copy()?)?;
    Ok(names)
}

/// What is read with one more statement in front.
fn gather(alloc: Global, stmt: &Stmt, blocks: &mut Blocks) -> Result<(), Memory>
    ensures { (file : ℕ) → OnOk result (gathered_of blocks.new ≡ gather (instruction_of file stmt.now) (gathered_of blocks.old)) }
{
    begin(alloc, stmt, blocks)?;
    bind(own_names(alloc, stmt)?, blocks)
}

/// What is read of a program whole.
fn gather_all(alloc: Global, code: &[Stmt]) -> Result<Blocks, Memory>
    ensures { (file : ℕ) → IfOk result (λ blocks. gathered_of blocks ≡ gathered (each (instruction_of file) code.now)) }
{
    let mut blocks = Blocks {
        inner: Items::new(alloc),
        functions: Items::new(alloc),
    };
    blocks.inner.push(Items::new(alloc))?;
    for at in (0..code.len()).rev() {
        gather(alloc, &code[at], &mut blocks)?;
    }
    Ok(blocks)
}

/// The names that a program binds, from the last function's to those of the file.
pub(crate) fn all_names(alloc: Global, code: &[Stmt]) -> Result<Items<Texts>, Memory>
    ensures { (file : ℕ) → IfOk result (λ names. reverse names ≡ all_names (each (instruction_of file) code.now)) }
{
    let mut blocks = gather_all(alloc, code)?;
    end_function(Items::new(alloc), &mut blocks)?;
    Ok(blocks.functions)
}
