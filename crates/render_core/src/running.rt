// The run of files that are held.
ghost use Rattle.std.specs.Prelude.{◌≡◌, ◌++◌, ◌<◌, List, length, map as each, reverse, suc, IfOk, OnOk};
ghost use Rattle.ytt_base.specs.Outcomes.{Gives};
ghost use Rattle.ytt_base.specs.View.{trees_of};
ghost use Rattle.file_load.specs.Gave.{OwnsGiven};
ghost use Rattle.file_load.specs.Programs.{AreRunnable};
ghost use Rattle.file_units.specs.Held.{AreHeld, MayRun};
ghost use Rattle.star_eval.specs.Meets.{arena_of};
ghost use Rattle.world_spec.specs.Parts.{at_start, outcome_of, units_meaning};
ghost use Rattle.world_spec.specs.Units.{FileUnit, names_of};
ghost use Rattle.ytt_words.specs.Asks.{budget_of};
ghost use Rattle.file_units.specs.declared.units.Content.{Content};
ghost use Rattle.render_core.specs.Parts.{AreWhole, gives_in};
ghost use Rattle.render_core.specs.Runs.{EndsFrom, all_documents, files_in};
ghost use Rattle.render_core.specs.declared.parts.Output.TheVariants as output;

use crate::parts::{Output, Parts, parted, programs_of, references};
use file_load::{Modules, Program, run_at};
use file_units::Content;
use sqlite_items::Items;
use star_eval::Session;
use star_functions::{FileBlock, Functions, functions_of};
use star_resolve::Scope;
use std::alloc::Global;
use ytt_base::fault::Stop;
use ytt_base::text::{Memory, Text};
use ytt_base::tree::Trees;
use ytt_words::Budget;

/// The documents that the file at a place builds, or the fault that its run ends with.
fn run_block<'p>(
    alloc: Global,
    programs: &[Program<'p>],
    place: usize,
    functions: &Functions<'p>,
    session: &mut Session,
    modules: &mut Modules,
) -> Result<Trees, Stop>
    requires programs { AreRunnable 1 programs.now }
    requires given { OwnsGiven (arena_of session.old) modules.old }
    requires place { place < length programs.now }
    ensures ends { EndsFrom functions.now programs.now (suc place) output.Built result modules.new modules.old session.new session.old }
    ensures depth { session.new.work.depth ≡ session.old.work.depth }
{
    let file = run_at(alloc, programs, functions, session, modules, place)?;
    let trees = node_build::documents_of(alloc, file.documents.as_slice())?;
    Ok(trees)
}

/// The documents that the file at a place gives: what its block builds, none, or its own.
fn run_output<'p>(
    alloc: Global,
    programs: &[Program<'p>],
    place: usize,
    output: Output,
    functions: &Functions<'p>,
    session: &mut Session,
    modules: &mut Modules,
) -> Result<Trees, Stop>
    requires programs { AreRunnable 1 programs.now }
    requires given { OwnsGiven (arena_of session.old) modules.old }
    requires place { place < length programs.now }
    ensures ends { EndsFrom functions.now programs.now (suc place) output result modules.new modules.old session.new session.old }
    ensures depth { session.new.work.depth ≡ session.old.work.depth }
{
    match output {
        Output::Built => run_block(alloc, programs, place, functions, session, modules),
        Output::Nothing => Ok(Items::new(alloc)),
        Output::Documents(trees) => Ok(trees),
    }
}

/// Puts documents behind the others.
fn put_behind(trees: &mut Trees, behind: Trees) -> Result<(), Memory>
    ensures { OnOk result (trees.new ≡ trees.old ++ behind) }
{
    trees.append(behind)?;
    Ok(())
}

/// The documents of files, in their order, where these functions may be called and `left` has what each gives, the last one first.
fn run_all<'p>(
    alloc: Global,
    programs: &[Program<'p>],
    mut left: Items<Output>,
    functions: &Functions<'p>,
    budget: Budget,
) -> Result<Trees, Stop>
    requires programs { AreRunnable 1 programs.now }
    requires outputs { length left ≡ length programs.now }
    ensures { Gives trees_of result (outcome_of (all_documents (files_in functions.now programs.now budget.depth) 1 (reverse left) (at_start budget.steps))) }
{
    let mut session = Session::new(alloc, budget.steps, budget.depth);
    let mut modules = Items::new(alloc);
    let mut trees = Items::new(alloc);
    let mut place = 0;
    while let Some(output) = left.pop() {
        let behind = run_output(
            alloc,
            programs,
            place,
            output,
            functions,
            &mut session,
            &mut modules,
        )?;
        put_behind(&mut trees, behind)?;
        place += 1;
    }
    Ok(trees)
}

/// The documents of files that have these names and scopes, within one budget, where `outputs` has what each gives, the last one first.
fn run_programs<'p>(
    alloc: Global,
    names: &'p [Text],
    files: &'p [FileBlock],
    scopes: &'p [Scope],
    outputs: Items<Output>,
    budget: Budget,
) -> Result<Trees, Stop>
    requires files { AreWhole 1 files.now scopes.now }
    requires names { length names.now ≡ length files.now }
    requires outputs { length outputs ≡ length files.now }
    ensures { (us : List FileUnit) (cs : List Content) → MayRun 1 files.now cs → AreHeld 1 us files.now cs → names.now ≡ names_of us → reverse outputs ≡ each gives_in cs →
        Gives trees_of result (units_meaning (budget_of budget) us) }
{
    let known = references(alloc, files)?;
    let functions = functions_of(alloc, known.as_slice())?;
    let programs = programs_of(alloc, names, files, scopes)?;
    run_all(alloc, programs.as_slice(), outputs, &functions, budget)
}

/// The documents of files that are held under these names, in their order and within one budget, or the first fault. Each file may load those
/// that are for others, and call the functions of all.
pub fn run_units(
    alloc: Global,
    names: &[Text],
    files: &[FileBlock],
    contents: Items<Content>,
    budget: Budget,
) -> Result<Trees, Stop>
    requires files { MayRun 1 files.now contents }
    requires names { length names.now ≡ length files.now }
    ensures { (us : List FileUnit) → AreHeld 1 us files.now contents → names.now ≡ names_of us → Gives trees_of result (units_meaning (budget_of budget) us) }
{
    let Parts { scopes, outputs } = parted(alloc, contents)?;
    run_programs(alloc, names, files, scopes.as_slice(), outputs, budget)
}
