// The run of a file.
ghost use Rattle.std.specs.Prelude.{◌≡◌, ℕ, IfOk};
ghost use Rattle.ytt_base.specs.declared.fault.FaultKind.TheVariants as kind;
ghost use Rattle.ytt_base.specs.declared.fault.Stop.TheVariants as stop;
ghost use Rattle.ytt_base.specs.Outcomes.{fault_of};
ghost use Rattle.node_build.specs.View.{OwnsNodes, nodes_of};
ghost use Rattle.star_values.specs.Objects.{env_in, seen};
ghost use Rattle.star_values.specs.Owns.{Owns, OwnsEnv, OwnsFields};
ghost use Rattle.star_values.specs.View.{value_of};
ghost use Rattle.template_meaning.specs.Calls.{bottom_children};
ghost use Rattle.template_meaning.specs.Files.{bind_loaded, globals_in};
ghost use Rattle.star_eval.specs.FileRun.{RunsFile};
ghost use Rattle.star_eval.specs.Finishes.{EndsFile, Leaves, globals_of};
ghost use Rattle.star_eval.specs.Meets.{Acts, arena_of};
ghost use Rattle.star_eval.specs.Scope.{name_bound, variables_in};

use crate::frame::Code;
use crate::host::Host;
use crate::looped::{Finished, run_block};
use crate::names::find;
use crate::session::Session;
use node_build::Builder;
use object_arena::{Arena, Built, Mark, NamedBox, NamedValue, NamedValues, Value};
use sqlite_items::Items;
use star_calls::open_scope;
use star_functions::{FileBlock, Functions};
use star_resolve::Scope;
use std::alloc::Global;
use std::mem;
use ytt_base::fault::{Fault, FaultKind, Stop};
use ytt_base::text::{Memory, Text};

/// What a file gives: its documents, and its names with the values that they have at its end.
#[derive(Drop)]
pub struct FileResult {
    pub documents: Built,
    pub globals: NamedValues,
}

/// The refusal of a program in no proper form, of no place.
fn ill_formed(alloc: Global) -> Stop
    ensures { result ≡ stop.Fault (fault_of kind.CodeForm) }
{
    Stop::Fault(Fault {
        kind: FaultKind::CodeForm,
        place: None,
        detail: Text::new(alloc),
    })
}

/// The names of a scope that have a value, with it.
fn globals_of(alloc: Global, arena: &Arena, scope: &[NamedBox]) -> Result<NamedValues, Memory>
    requires { OwnsEnv (seen arena.now) scope.now }
    ensures meaning { IfOk result (λ gs. globals_of (seen arena.now) gs ≡ globals_in (seen arena.now).store (env_in (seen arena.now).held scope.now)) }
    ensures owned { IfOk result (OwnsFields (seen arena.now)) }
{
    let mut globals = Items::new(alloc);
    let mut rest = scope;
    while let [first, more @ ..] = rest {
        if let Some(value) = arena.boxed(first.at) {
            let name = arena.text(first.name).copy()?;
            globals.push(NamedValue { name, value })?;
        }
        rest = more;
    }
    Ok(globals)
}

/// What a file gives whose block ended, in its scope and with these open nodes. What was made since the mark is frozen.
fn end(
    alloc: Global,
    session: &mut Session,
    mark: Mark,
    scope: &[NamedBox],
    nodes: Builder,
) -> Result<FileResult, Memory>
    requires scope { OwnsEnv (arena_of session.old) scope.now }
    requires nodes { OwnsNodes (arena_of session.old) nodes }
    ensures ends { IfOk result
        (EndsFile mark.at (variables_in session.old scope.now) (bottom_children (nodes_of (arena_of session.old) nodes)) session.new session.old) }
    ensures work { session.new.work ≡ session.old.work }
{
    let globals = globals_of(alloc, &session.arena, scope)?;
    let documents = nodes.into_children();
    session.arena.freeze_since(mark);
    Ok(FileResult { documents, globals })
}

/// A name of the file gets the value that it was loaded with. A name that the file doesn't bind is `CodeForm` at no place.
fn bind_name(
    session: &mut Session,
    scope: &[NamedBox],
    name: &Text,
    value: Value,
) -> Result<(), Stop>
    requires scope { OwnsEnv (arena_of session.old) scope.now }
    requires value { Owns (arena_of session.old) value }
    ensures acts { Acts (name_bound name.now (value_of (arena_of session.old) value) (variables_in session.old scope.now)) result session.new session.old }
    ensures work { session.new.work ≡ session.old.work }
{
    match find(&session.arena, scope, name) {
        None => Err(ill_formed(session.arena.alloc())),
        Some(at) => {
            session.arena.set_box(at, value);
            Ok(())
        }
    }
}

/// The names of the file get the values that they were loaded with, in their order.
fn bind_loaded(session: &mut Session, scope: &[NamedBox], loaded: &[NamedValue]) -> Result<(), Stop>
    requires scope { OwnsEnv (arena_of session.old) scope.now }
    requires loaded { OwnsFields (arena_of session.old) loaded.now }
    ensures acts { Acts (bind_loaded (globals_of (arena_of session.old) loaded.now) (variables_in session.old scope.now)) result session.new session.old }
    ensures work { session.new.work ≡ session.old.work }
{
    let mut rest = loaded;
    while let Some((first, more)) = rest.split_first() {
        bind_name(session, scope, &first.name, first.value)?;
        rest = more;
    }
    Ok(())
}

/// Runs the block of a file in a session, with the names that it loaded and a host that answers the natives which aren't the language's
/// own, where these functions of files may be called, and the scope has the names of the file. The result is what the block means, from
/// the objects and the steps that the session has, and the host's state: its documents and its globals, or the fault that it ends with,
/// at its place. The session is left with the objects and the steps that are left, as deep as it was, and the host in the state that its
/// last answer left. What the session held before stays what it was, after a fault too. All that the file made is frozen at its end, but
/// not where it ends with a fault.
///
/// Names that were loaded are bound before the first item, a later one over an earlier one. The functions are those of all files of a
/// run, in one table that `functions_of` makes.
///
/// A pair whose key stands already is `KeyTwice` with the key, a name that has no value yet `NameUnset` with the
/// name, a value that an operator, a loop or a target isn't for `ValueKind`, an integer outside 128 bits
/// `IntOverflow`, a division by zero `DivideZero`, tuples that nest too deep `TooDeep`, arguments that don't fit parameters `ArgBind`,
/// a call past the session's depth `Depth`, and an act for which no step is left `Steps`. A block that doesn't bind a name that was
/// loaded is `CodeForm` at no place. After want of memory the session is of no use.
pub fn run_file<'p, H: Host>(
    alloc: Global,
    program: &'p FileBlock,
    functions: &Functions<'p>,
    globals: &Scope,
    loaded: &[NamedValue],
    session: &mut Session,
    host: &mut H,
) -> Result<FileResult, Stop>
    requires { OwnsFields (arena_of session.old) loaded.now }
    ensures runs { RunsFile H.answers program.now functions.now globals.now loaded.now result session.new session.old host.new host.old }
    ensures depth { session.new.work.depth ≡ session.old.work.depth }
{
    let depth = session.work.depth;
    let mark = session.arena.mark();
    let scope = open_scope(alloc, &mut session.arena, globals)?;
    bind_loaded(session, scope.as_slice(), loaded)?;
    let code = Code {
        file: program.file,
        functions: functions.shared()?,
    };
    let own = mem::replace(session, Session::new(alloc, 0, depth));
    let nodes = Builder::new(alloc);
    let finished = run_block(
        alloc,
        code,
        depth,
        program.block.as_slice(),
        scope,
        own,
        nodes,
        host,
    )?;
    left(alloc, finished, mark, depth, session)
}

/// What a file gives whose block ended so, and the session that it leaves.
fn left(
    alloc: Global,
    finished: Finished,
    mark: Mark,
    depth: u32,
    session: &mut Session,
) -> Result<FileResult, Stop>
    requires scope { OwnsEnv (arena_of finished.session) finished.scope }
    requires nodes { OwnsNodes (arena_of finished.session) finished.nodes }
    ensures leaves { Leaves mark.at finished finished.result result session.new }
    ensures depth { session.new.work.depth ≡ depth }
{
    let Finished {
        session: after,
        scope,
        nodes,
        result,
    } = finished;
    *session = after;
    session.work.depth = depth;
    match result {
        Ok(_flow) => Ok(end(alloc, session, mark, scope.as_slice(), nodes)?),
        Err(fault) => Err(Stop::Fault(fault)),
    }
}
