// What the scopes of a program bind.
ghost use Rattle.std.specs.Prelude.{◌≡◌, IfOk};
ghost use Rattle.star_resolve.specs.Events.{program_events, sizes_in};
ghost use Rattle.star_resolve.specs.Functions.{scope_size};
ghost use Rattle.star_resolve.specs.Gathered.{all_names, behind, front};
ghost use Rattle.star_resolve.specs.Variables.{each_once};
ghost use Rattle.star_tree.specs.Whole.{program_of};

use crate::event::{Event, Events};
use crate::gather::all_names;
use crate::program::{events_of, next_names};
use crate::scope::Scope;
use sqlite_items::Items;
use star_tree::code::Program;
use std::alloc::Global;
use ytt_base::text::{Memory, Texts};

/// The scope of a file, and the events of its program.
#[derive(Drop)]
pub(crate) struct Walked {
    pub globals: Scope,
    pub events: Events,
}

/// Goes through a program.
pub(crate) fn walk_through(alloc: Global, program: &Program) -> Result<Walked, Memory>
    ensures globals { IfOk result (λ w. w.globals ≡ each_once (front (all_names (program_of program.now)))) }
    ensures events { IfOk result (λ w. w.events ≡ program_events (behind (all_names (program_of program.now))) (program_of program.now)) }
{
    let mut functions = all_names(alloc, program.code.as_slice())?;
    let globals = Scope::of(alloc, &next_names(alloc, &mut functions))?;
    let events = events_of(alloc, program, functions)?;
    Ok(Walked { globals, events })
}

/// How many variables a scope has that binds these names.
pub(crate) fn size_of(alloc: Global, names: &Texts) -> Result<usize, Memory>
    ensures { IfOk result (λ size. size ≡ scope_size names.now) }
{
    let scope = Scope::of(alloc, names)?;
    Ok(scope.len())
}

/// How many variables each function has that stands in events.
pub(crate) fn sizes_in(alloc: Global, events: &Events) -> Result<Items<usize>, Memory>
    ensures { IfOk result (λ sizes. sizes ≡ sizes_in events.now) }
{
    let mut sizes = Items::new(alloc);
    for event in events.as_slice() {
        if let Event::Function(size) = event {
            sizes.push(*size)?;
        }
    }
    Ok(sizes)
}
