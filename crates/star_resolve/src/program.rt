// The events of programs.
ghost use Rattle.std.specs.Prelude.{◌≡◌, ◌∷◌, ◌++◌, [], reverse, IfOk, OnOk};
ghost use Rattle.star_resolve.specs.declared.event.Event.TheVariants as event;
ghost use Rattle.star_resolve.specs.Events.{functions_after, instruction_events, loaded_events, parameters_events, part_events, program_events};
ghost use Rattle.star_resolve.specs.Functions.{scope_size};
ghost use Rattle.star_resolve.specs.Gathered.{behind, front};
ghost use Rattle.star_tree.specs.Whole.{instruction_of, loaded_names_of, parameters_of, part_of, program_of};
ghost use Rattle.ytt_base.specs.Outcomes.{place_at};

use crate::event::{Event, Events, put_name};
use crate::walk::{put_expr, put_exprs, put_function, put_leave, put_params};
use sqlite_items::Items;
use star_tree::code::{Loaded, NodeOp, Params, Program, Stmt};
use std::alloc::Global;
use ytt_base::text::{Memory, Text, Texts};

/// Puts the beginning of a block that is no function's behind the events.
fn put_block(events: &mut Events) -> Result<(), Memory>
    ensures { OnOk result (events.new ≡ events.old ++ event.Block ∷ []) }
{
    events.push(Event::Block)?;
    Ok(())
}

/// Puts the names that a load statement binds behind the events.
fn put_loaded(
    file: u32,
    line: u32,
    loaded: &Items<Loaded>,
    events: &mut Events,
) -> Result<(), Memory>
    ensures { OnOk result (events.new ≡ events.old ++ loaded_events (place_at file line) (loaded_names_of loaded.now)) }
{
    for each in loaded.as_slice() {
        put_name(file, line, &each.bound, events)?;
    }
    Ok(())
}

/// The names of the next function.
pub(crate) fn next_names(alloc: Global, functions: &mut Items<Texts>) -> Texts
    ensures value { result ≡ front (reverse functions.old) }
    ensures rest { reverse functions.new ≡ behind (reverse functions.old) }
{
    match functions.pop() {
        Some(names) => names,
        None => Items::new(alloc),
    }
}

/// Puts the head of a function that binds these names behind the events.
fn put_def(
    alloc: Global,
    file: u32,
    params: &Params,
    names: Texts,
    events: &mut Events,
) -> Result<(), Memory>
    ensures { OnOk result (events.new ≡ events.old ++ (event.Function (scope_size names) ∷ (parameters_events (parameters_of file params.now) ++ event.Enter names ∷ []))) }
{
    put_function(alloc, &names, events)?;
    put_params(alloc, file, params, events)?;
    events.push(Event::Enter(names))?;
    Ok(())
}

/// Puts the events of a part of a node behind the others.
fn put_node(alloc: Global, file: u32, part: &NodeOp, events: &mut Events) -> Result<(), Memory>
    ensures { OnOk result (events.new ≡ events.old ++ part_events (part_of file part.now)) }
{
    match part {
        NodeOp::Note(_, _, args) => put_exprs(alloc, file, args, events),
        NodeOp::KeyFrom(_, key) => put_expr(alloc, file, key.get(), events),
        NodeOp::ValueFrom(_, value) => put_expr(alloc, file, value.get(), events),
        NodeOp::Start(_, _, _) | NodeOp::Key(_, _) | NodeOp::Value(_, _) | NodeOp::End(_) => Ok(()),
    }
}

/// Puts the events of a statement behind the others. The names of the functions that begin from here on
/// are those of `functions`, the next one last.
fn put_statement(
    alloc: Global,
    file: u32,
    stmt: &Stmt,
    functions: &mut Items<Texts>,
    events: &mut Events,
) -> Result<(), Memory>
    ensures events { OnOk result (events.new ≡ events.old ++ instruction_events (front (reverse functions.old)) (instruction_of file stmt.now)) }
    ensures rest { OnOk result (reverse functions.new ≡ functions_after (instruction_of file stmt.now) (reverse functions.old)) }
{
    match stmt {
        Stmt::Expr(_, expr) | Stmt::Return(_, expr) | Stmt::Elif(_, expr) => {
            put_expr(alloc, file, expr.get(), events)
        }
        Stmt::Assign(_, target, value) | Stmt::Augment(_, _, _, target, value) => {
            put_expr(alloc, file, target.get(), events)?;
            put_expr(alloc, file, value.get(), events)
        }
        Stmt::Load(line, _, loaded) => put_loaded(file, *line, loaded, events),
        Stmt::Break(_) | Stmt::Continue(_) | Stmt::Pass(_) | Stmt::Else(_) => Ok(()),
        Stmt::If(_, test) => {
            put_expr(alloc, file, test.get(), events)?;
            put_block(events)
        }
        Stmt::For(_, target, members) => {
            put_expr(alloc, file, target.get(), events)?;
            put_expr(alloc, file, members.get(), events)?;
            put_block(events)
        }
        Stmt::Def(line, _, _, name, params) => {
            put_name(file, *line, name, events)?;
            put_def(alloc, file, params, next_names(alloc, functions), events)
        }
        Stmt::Close(_) => put_leave(events),
        Stmt::Node(part) => put_node(alloc, file, part, events),
    }
}

/// The events of a program whose functions bind these names, the first one last.
pub(crate) fn events_of(
    alloc: Global,
    program: &Program,
    functions: Items<Texts>,
) -> Result<Events, Memory>
    ensures { IfOk result (λ events. events ≡ program_events (reverse functions) (program_of program.now)) }
{
    let mut left = functions;
    let mut events = Items::new(alloc);
    for stmt in program.code.as_slice() {
        put_statement(alloc, program.file, stmt, &mut left, &mut events)?;
    }
    Ok(events)
}
