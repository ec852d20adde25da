// Each name of a program as a variable.
ghost use Rattle.std.specs.Prelude.{◌≡◌, ◌∷◌, ◌++◌, [], Some, None, reverse, map as each, IfOk, OnOk, IsSome};
ghost use Rattle.code_spec.specs.Blocks.{blocks};
ghost use Rattle.code_spec.specs.Scopes.{program_names};
ghost use Rattle.star_resolve.specs.Answers.{answer_here, answers, found_in, refused};
ghost use Rattle.star_resolve.specs.Functions.{program_functions, scope_size};
ghost use Rattle.star_resolve.specs.Variables.{IfFault, IfRefused, each_once, program_fault, program_variables, unknown_name};
ghost use Rattle.star_tree.specs.Whole.{program_of};

use crate::event::{Event, Events};
use crate::levels::{Levels, Variable, find, follow};
use crate::scope::Scope;
use crate::scopes::{Walked, sizes_in, walk_through};
use sqlite_items::Items;
use star_tree::code::Program;
use std::alloc::Global;
use ytt_base::fault::{Fault, FaultKind, Place, Stop};
use ytt_base::text::{Memory, Names, Text};

/// Variables in the order of their names.
pub type Variables = Items<Variable>;

/// A program, and the variable of each name that stands in it, in text order; the names that the file
/// binds, which are its variables; and how many variables each function has, in text order, which is that
/// of the functions' numbers. The first variables of a function are its parameters, in their order, and a
/// lambda has no others.
#[derive(Drop)]
pub struct Resolved {
    pub program: Program,
    pub variables: Variables,
    pub globals: Scope,
    pub functions: Items<usize>,
}

/// The refusal of a name that is bound nowhere.
fn unknown(place: Place, name: &Text) -> Stop
    ensures { IfFault result (λ f. f ≡ unknown_name place name.now) }
{
    match name.copy() {
        Ok(detail) => Stop::Fault(Fault {
            kind: FaultKind::NameUnknown,
            place: Some(place),
            detail,
        }),
        Err(_) => Stop::Memory,
    }
}

/// Puts a variable behind the others.
fn put(variable: Variable, variables: &mut Variables) -> Result<(), Memory>
    ensures { OnOk result (variables.new ≡ variables.old ++ variable ∷ []) }
{
    variables.push(variable)?;
    Ok(())
}

/// Puts the variable of a name, if the event is one, behind the others.
fn answer(
    event: &Event,
    levels: &Levels,
    globals: &Scope,
    builtins: &Scope,
    variables: &mut Variables,
) -> Result<(), Stop>
    ensures bound { OnOk result (each Some variables.new ≡ each Some variables.old ++ found_in (answer_here globals.now builtins.now (reverse levels.now) event.now)) }
    ensures known { OnOk result (refused (answer_here globals.now builtins.now (reverse levels.now) event.now) ≡ None) }
    ensures told { IfRefused result (λ f. refused (answer_here globals.now builtins.now (reverse levels.now) event.now) ≡ Some f) }
{
    match event {
        Event::Name(place, name) => match find(levels, globals, builtins, name) {
            Some(found) => {
                put(found, variables)?;
                Ok(())
            }
            None => Err(unknown(*place, name)),
        },
        Event::Function(_) => Ok(()),
        Event::Enter(_) => Ok(()),
        Event::Block => Ok(()),
        Event::Leave => Ok(()),
    }
}

/// The variables of the names in events.
fn answer_all(
    alloc: Global,
    events: &Events,
    globals: &Scope,
    builtins: &Scope,
) -> Result<Variables, Stop>
    ensures bound { IfOk result (λ vs. each Some vs ≡ found_in (answers globals.now builtins.now [] events.now)) }
    ensures known { OnOk result (refused (answers globals.now builtins.now [] events.now) ≡ None) }
    ensures told { IfRefused result (λ f. refused (answers globals.now builtins.now [] events.now) ≡ Some f) }
{
    let mut levels = Items::new(alloc);
    let mut variables = Items::new(alloc);
    for event in events.as_slice() {
        answer(event, &levels, globals, builtins, &mut variables)?;
        follow(alloc, event, &mut levels)?;
    }
    Ok(variables)
}

/// The variables of the names in a program that was gone through.
fn variables_of(alloc: Global, walked: &Walked, builtins: &Names) -> Result<Variables, Stop>
    ensures bound { IfOk result (λ vs. each Some vs ≡ found_in (answers walked.now.globals (each_once builtins.now) [] walked.now.events)) }
    ensures known { OnOk result (refused (answers walked.now.globals (each_once builtins.now) [] walked.now.events) ≡ None) }
    ensures told { IfRefused result (λ f. refused (answers walked.now.globals (each_once builtins.now) [] walked.now.events) ≡ Some f) }
{
    let known = Scope::of(alloc, builtins)?;
    answer_all(alloc, &walked.events, &walked.globals, &known)
}

/// The program with the variable of each of its names.
///
/// Each name in code, each name that a `def` or a `load` binds, and each name of a target has one: it is
/// that of the innermost function or comprehension around it that binds the name anywhere, else of the
/// file, else of the language, whose names are `builtins`. Each block of the program must be closed where
/// it should be. The height of the code takes the machine's stack, and the height of blocks does not.
///
/// Where a name is bound nowhere, the first one in text order is a fault of the kind NameUnknown at its
/// place, with the name as the detail. Want of memory is `Stop::Memory`.
pub fn resolve(alloc: Global, program: Program, builtins: &Names) -> Result<Resolved, Stop>
    requires { IsSome (blocks (program_of program)) }
    ensures program { IfOk result (λ r. r.program ≡ program) }
    ensures variables { IfOk result (λ r. each Some r.variables ≡ program_variables builtins.now (program_of program)) }
    ensures globals { IfOk result (λ r. r.globals ≡ each_once (program_names (program_of program))) }
    ensures functions { IfOk result (λ r. r.functions ≡ each scope_size (program_functions (program_of program))) }
    ensures known { OnOk result (program_fault builtins.now (program_of program) ≡ None) }
    ensures unknown { IfRefused result (λ f. program_fault builtins.now (program_of program) ≡ Some f) }
{
    let walked = walk_through(alloc, &program)?;
    let variables = variables_of(alloc, &walked, builtins)?;
    let functions = sizes_in(alloc, &walked.events)?;
    Ok(Resolved {
        program,
        variables,
        globals: walked.globals,
        functions,
    })
}
