// What there is under the path of a load statement.
ghost use Rattle.std.specs.Prelude.{◌≡◌, IfOk, List, MatchOption, false, true};
ghost use Rattle.module_spec.specs.Modules.{module_name, names_module};
ghost use Rattle.star_values.specs.Objects.{seen};
ghost use Rattle.star_values.specs.View.{View};
ghost use Rattle.world_spec.specs.Paths.{file_named, name_at};
ghost use Rattle.world_spec.specs.Worlds.{file_loading, given_by, unless_given};
ghost use Rattle.file_load.specs.Gave.{OwnsGiven, given_in};
ghost use Rattle.file_load.specs.Looking.{FindsModule, LooksUp, OwnsFound, loading_of};
ghost use Rattle.file_load.specs.Programs.{AreRunnable, Stands, names_in};
ghost use Rattle.file_load.specs.Seen.{files_of, kept_of};
ghost use Rattle.file_load.specs.declared.programs.Program.{Program};

use crate::given::{Given, globals_given};
use crate::programs::{Program, program_named};
use crate::statements::Load;
use crate::waiting::{Waiting, is_begun};
use load_names::{make_module, may_load, name_for};
use object_arena::{Arena, NamedValues};
use std::alloc::Global;
use ytt_base::text::Memory;

/// What there is under a path.
#[derive(Drop)]
pub(crate) enum Found<'g, 'p> {
    Missing,
    /// A file that is under way.
    UnderWay,
    /// The globals of a file that was loaded and has ended.
    Given(&'g NamedValues),
    /// The one name of a module.
    Module(NamedValues),
    /// A file that nothing has loaded yet.
    NotBegun(Program<'p>),
}

/// How far the file of a program is: it has ended, it is under way, or nothing has loaded it yet.
fn standing<'g, 'p>(
    given: &'g [Given],
    waiting: &[Waiting<'_>],
    program: Program<'p>,
) -> Found<'g, 'p>
    ensures meaning { (a : View) → loading_of a result
        ≡ unless_given program.entry.block.now.file (kept_of a given.now (files_of waiting.now)) (given_by program.entry.block.now.file (given_in a given.now)) }
    ensures owned { (a : View) (ps : List Program) → OwnsGiven a given.now → Stands ps program.entry → OwnsFound ps a result }
{
    let file = program.block.file;
    match globals_given(given, file) {
        Some(globals) => Found::Given(globals),
        None => {
            if is_begun(waiting, file) {
                Found::UnderWay
            } else {
                Found::NotBegun(program)
            }
        }
    }
}

/// What there is under the path of a load statement in the file of this name, where the path names no module.
fn look_for<'g, 'p>(
    alloc: Global,
    programs: &[Program<'p>],
    given: &'g [Given],
    waiting: &[Waiting<'_>],
    from: &str,
    load: Load<'_>,
) -> Result<Found<'g, 'p>, Memory>
    requires programs { AreRunnable 1 programs.now }
    requires from { name_at (names_in programs.now) load.place.file ≡ from.now }
    ensures meaning { IfOk result (λ f. (a : View) → loading_of a f
        ≡ file_loading (kept_of a given.now (files_of waiting.now)) (file_named (names_in programs.now) load.entry.place.file load.entry.path.now)) }
    ensures owned { IfOk result (λ f. (a : View) → OwnsGiven a given.now → OwnsFound programs.now a f) }
{
    if !may_load(load.path.as_str()) {
        return Ok(Found::Missing);
    }
    let name = name_for(alloc, from, load.path.as_str())?;
    match program_named(programs, name.as_str()) {
        None => Ok(Found::Missing),
        Some(program) => Ok(standing(given, waiting, program)),
    }
}

/// The name of the module that a path names, if it names one.
#[tactic(auto, using(crate::proofs::Modules::strips))]
fn module_named(path: &str) -> Option<&str>
    ensures { MatchOption result (names_module path.now ≡ false) (λ name. (names_module path.now ≡ true) × (name.now ≡ module_name path.now)) }
{
    path.strip_prefix("@ytt:")
}

/// The module of a name.
fn look_in_modules<'g, 'p>(arena: &mut Arena, name: &str) -> Result<Found<'g, 'p>, Memory>
    ensures { IfOk result (FindsModule name.now (seen arena.new) (seen arena.old)) }
{
    match make_module(arena, name)? {
        None => Ok(Found::Missing),
        Some(globals) => Ok(Found::Module(globals)),
    }
}

/// What there is under the path of a load statement in the file of this name: a module, which is made in the arena, or a file, by how far
/// it is.
pub(crate) fn look<'g, 'p>(
    alloc: Global,
    programs: &[Program<'p>],
    arena: &mut Arena,
    given: &'g [Given],
    waiting: &[Waiting<'_>],
    from: &str,
    load: Load<'_>,
) -> Result<Found<'g, 'p>, Memory>
    requires programs { AreRunnable 1 programs.now }
    requires from { name_at (names_in programs.now) load.place.file ≡ from.now }
    ensures { IfOk result (LooksUp programs.now given.now (files_of waiting.now) load.entry (seen arena.new) (seen arena.old)) }
{
    match module_named(load.path.as_str()) {
        Some(name) => look_in_modules(arena, name),
        None => look_for(alloc, programs, given, waiting, from, load),
    }
}
