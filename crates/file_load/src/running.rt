// The runs of files that load one another.
ghost use Rattle.std.specs.Prelude.{◌≡◌, ◌<◌, [], length, suc, List};
ghost use Rattle.ytt_base.specs.declared.fault.FaultKind.TheVariants as kind;
ghost use Rattle.ytt_base.specs.declared.fault.Stop.TheVariants as stop;
ghost use Rattle.ytt_base.specs.Outcomes.{fault_of};
ghost use Rattle.star_blocks.specs.Nested.{ops_of};
ghost use Rattle.star_eval.specs.Meets.{arena_of};
ghost use Rattle.star_values.specs.Owns.{OwnsFields};
ghost use Rattle.template_meaning.specs.Files.{ops_loads};
ghost use Rattle.file_load.specs.Gave.{OwnsGiven};
ghost use Rattle.file_load.specs.Programs.{AreRunnable};
ghost use Rattle.file_load.specs.Turns.{GaveOrFails, GoesBehind, RunsFileAt, Sound, TakesFound, TakesLoad, TakesNames, TakesTurn, left_of, setting_in};
ghost use Rattle.file_load.specs.declared.looking.Found.TheVariants as there;
ghost use Rattle.file_load.specs.declared.programs.Program.{Program};

use crate::given::{Given, Modules, put};
use crate::host::Natives;
use crate::looking::{Found, look};
use crate::programs::{Program, program_at};
use crate::statements::{Load, next_load};
use crate::waiting::{Run, Waiting, wait};
use load_names::{fault_with, names_loaded, private_among};
use object_arena::NamedValue;
use sqlite_items::Items;
use star_eval::{FileResult, Session, run_file};
use star_functions::Functions;
use star_tree::code::Loaded;
use std::alloc::Global;
use ytt_base::fault::{Fault, FaultKind, Place, Stop};
use ytt_base::text::Text;

/// What a turn leaves: the run of a file, or what the last one gave.
#[derive(Drop)]
pub(crate) enum Turn<'p> {
    Goes(Run<'p>),
    Ended(FileResult),
}

/// The refusal of loads that stand in one another more often than there are files, of no place.
fn ill_formed(alloc: Global) -> Stop
    ensures { result ≡ stop.Fault (fault_of kind.CodeForm) }
{
    Stop::Fault(Fault {
        kind: FaultKind::CodeForm,
        place: None,
        detail: Text::new(alloc),
    })
}

/// A run that has got these names of what it loads.
fn with_names<'p>(
    place: Place,
    names: &[Loaded],
    globals: &[NamedValue],
    run: Run<'p>,
) -> Result<Run<'p>, Stop>
    ensures { TakesNames place names.now globals.now run.entry result }
{
    let mut run = run;
    names_loaded(place, names, globals, &mut run.got)?;
    Ok(run)
}

/// The run of a file that nothing has loaded yet, for which the loading one waits from here on.
fn begin<'p>(
    alloc: Global,
    program: Program<'p>,
    load: Load<'p>,
    run: Run<'p>,
    waiting: &mut Items<Waiting<'p>>,
) -> Result<Run<'p>, Stop>
    ensures { TakesFound (there.NotBegun program.entry) load.entry run.entry result waiting.new waiting.old }
{
    if run.loads == 0 {
        return Err(ill_formed(alloc));
    }
    let loads = run.loads - 1;
    let last = Waiting {
        run,
        place: load.place,
        names: load.names,
        file: program.block.file,
    };
    wait(waiting, last)?;
    Ok(Run {
        program,
        rest: program.block.block.as_slice(),
        got: Items::new(alloc),
        loads,
    })
}

/// What is left behind a load statement, where this was found under its path.
fn load_found<'p>(
    alloc: Global,
    found: Found<'_, 'p>,
    load: Load<'p>,
    run: Run<'p>,
    waiting: &mut Items<Waiting<'p>>,
) -> Result<Run<'p>, Stop>
    ensures { TakesFound found.entry load.entry run.entry result waiting.new waiting.old }
{
    match found {
        Found::Missing => Err(fault_with(FaultKind::LoadMissing, load.place, load.path)),
        Found::UnderWay => Err(fault_with(FaultKind::LoadCycle, load.place, load.path)),
        Found::Given(globals) => with_names(load.place, load.names, globals.as_slice(), run),
        Found::Module(globals) => with_names(load.place, load.names, globals.as_slice(), run),
        Found::NotBegun(program) => begin(alloc, program, load, run, waiting),
    }
}

/// What is left behind a load statement. A name that begins with `_` is `LoadPrivate`, before it is known what there is under the path.
fn take_load<'p>(
    alloc: Global,
    programs: &[Program<'p>],
    session: &mut Session,
    given: &[Given],
    load: Load<'p>,
    run: Run<'p>,
    waiting: &mut Items<Waiting<'p>>,
) -> Result<Run<'p>, Stop>
    requires programs { AreRunnable 1 programs.now }
    requires sound { Sound programs.now (arena_of session.old) given.now waiting.old run }
    requires here { load.place.file ≡ run.program.block.now.file }
    ensures takes { TakesLoad programs.now load.entry run.entry given.now result waiting.new waiting.old session.new session.old }
    ensures depth { session.new.work.depth ≡ session.old.work.depth }
{
    if let Some(name) = private_among(load.names) {
        return Err(fault_with(FaultKind::LoadPrivate, load.place, name));
    }
    let program = run.program;
    let found = look(
        alloc,
        programs,
        &mut session.arena,
        given,
        waiting.as_slice(),
        program.name.as_str(),
        load,
    )?;
    load_found(alloc, found, load, run, waiting)
}

/// What is left behind a file that gave this: the innermost one that waits goes on, and what it waited for has been put behind what files
/// gave. Where none waits, that is the end.
fn go_on<'p>(
    given: &mut Modules,
    waiting: &mut Items<Waiting<'p>>,
    ended: FileResult,
) -> Result<Turn<'p>, Stop>
    ensures { GoesBehind ended result given.new given.old waiting.new waiting.old }
{
    match waiting.pop() {
        None => Ok(Turn::Ended(ended)),
        Some(last) => {
            let Waiting {
                run,
                place,
                names,
                file,
            } = last;
            let went = with_names(place, names, ended.globals.as_slice(), run)?;
            let globals = ended.globals;
            put(given, Given { file, globals })?;
            Ok(Turn::Goes(went))
        }
    }
}

/// The run of a file whose load statements are done, and what is left behind it.
fn finish<'p>(
    alloc: Global,
    functions: &Functions<'p>,
    session: &mut Session,
    given: &mut Modules,
    run: Run<'p>,
    waiting: &mut Items<Waiting<'p>>,
) -> Result<Turn<'p>, Stop>
    requires got { OwnsFields (arena_of session.old) run.got }
    requires done { ops_loads (ops_of run.program.block.now.file run.rest.now) ≡ [] }
    ensures turns { (ps : List Program) → Sound ps (arena_of session.old) given.old waiting.old run.entry →
        TakesTurn functions.now ps run.entry result given.new given.old waiting.new waiting.old session.new session.old }
    ensures depth { session.new.work.depth ≡ session.old.work.depth }
{
    let program = run.program;
    let ended = run_file(
        alloc,
        program.block,
        functions,
        program.scope,
        run.got.as_slice(),
        session,
        &mut Natives,
    )?;
    go_on(given, waiting, ended)
}

/// The next load statement of a run, or the file itself where none is left.
fn take_turn<'p>(
    alloc: Global,
    programs: &[Program<'p>],
    functions: &Functions<'p>,
    session: &mut Session,
    given: &mut Modules,
    run: Run<'p>,
    waiting: &mut Items<Waiting<'p>>,
) -> Result<Turn<'p>, Stop>
    requires programs { AreRunnable 1 programs.now }
    requires sound { Sound programs.now (arena_of session.old) given.old waiting.old run }
    ensures turns { TakesTurn functions.now programs.now run.entry result given.new given.old waiting.new waiting.old session.new session.old }
    ensures depth { session.new.work.depth ≡ session.old.work.depth }
{
    match next_load(run.program.block.file, run.rest) {
        None => finish(alloc, functions, session, given, run, waiting),
        Some((load, rest)) => {
            let mut run = run;
            run.rest = rest;
            let run = take_load(
                alloc,
                programs,
                session,
                given.as_slice(),
                load,
                run,
                waiting,
            )?;
            Ok(Turn::Goes(run))
        }
    }
}

/// Goes on until no run is left. No run takes as many turns as a count of 64 bits has.
fn run_down<'p>(
    alloc: Global,
    programs: &[Program<'p>],
    functions: &Functions<'p>,
    session: &mut Session,
    given: &mut Modules,
    start: Run<'p>,
) -> Result<FileResult, Stop>
    requires programs { AreRunnable 1 programs.now }
    requires sound { Sound programs.now (arena_of session.old) given.old [] start }
    ensures ends { GaveOrFails session.new given.new (left_of (setting_in functions.now programs.now session.old) session.old given.old [] start.entry) result }
    ensures depth { session.new.work.depth ≡ session.old.work.depth }
{
    let mut waiting = Items::new(alloc);
    let mut run = start;
    let mut turns_left = u64::MAX;
    while turns_left > 0 {
        turns_left -= 1;
        match take_turn(
            alloc,
            programs,
            functions,
            session,
            given,
            run,
            &mut waiting,
        )? {
            Turn::Goes(next) => run = next,
            Turn::Ended(ended) => return Ok(ended),
        }
    }
    Err(Stop::Memory)
}

/// Runs the file at a place among these programs, which stand in the order of their numbers from 1, with the functions of all of them, where
/// `given` has what files of this session gave before. The result is what the file means as one of the units of these programs: it is run
/// behind the files that it loads, of which each one runs that isn't among `given` yet, and is put there when it ends. The session is left
/// with the objects and the steps that are left, as deep as it was.
///
/// A load statement of a name that begins with `_` is `LoadPrivate` with the name, of a path under which there is neither a file nor a
/// module `LoadMissing` with the path, of a file that is under way `LoadCycle` with the path, and of a name that what is loaded has no
/// value for `LoadMissing` with the name, each at the statement. The faults of the files are those that `run_file` tells. After a fault
/// `given` is of no use, and after want of memory neither is the session.
pub fn run_at<'p>(
    alloc: Global,
    programs: &[Program<'p>],
    functions: &Functions<'p>,
    session: &mut Session,
    given: &mut Modules,
    place: usize,
) -> Result<FileResult, Stop>
    requires programs { AreRunnable 1 programs.now }
    requires given { OwnsGiven (arena_of session.old) given.old }
    requires place { place < length programs.now }
    ensures runs { RunsFileAt programs.now functions.now (suc place) result given.new given.old session.new session.old }
    ensures depth { session.new.work.depth ≡ session.old.work.depth }
{
    let Some(program) = program_at(programs, place) else {
        unreachable!()
    };
    let start = Run {
        program,
        rest: program.block.block.as_slice(),
        got: Items::new(alloc),
        loads: programs.len(),
    };
    run_down(alloc, programs, functions, session, given, start)
}
