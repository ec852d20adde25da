// Variables: what is open while events are gone through, and what a name is there.
ghost use Rattle.std.specs.Prelude.{◌≡◌, reverse, OnOk};
ghost use Rattle.star_resolve.specs.Answers.{after_event, found, local_in};

use crate::event::Event;
use crate::scope::Scope;
use sqlite_items::Items;
use std::alloc::Global;
use ytt_base::text::{Memory, Text};

/// The variable that a name is. The numbers of a scope count the names that it binds, each once, in the
/// order in which it first binds them in its text, a function's parameters first; those of the language
/// in the order of its list.
#[derive(Clone, Copy, PartialEq, Eq)]
pub enum Variable {
    /// Of a function or a comprehension: how many of these stand between it and the name, and the number.
    Local(usize, usize),
    /// Of the file, with its number.
    Global(usize),
    /// Of the language, with its number.
    Builtin(usize),
}

/// What is open, the innermost last: a scope, or a block that has none.
pub(crate) type Levels = Items<Option<Scope>>;

/// An event begins a scope or a block, ends one, or does neither.
pub(crate) fn follow(alloc: Global, event: &Event, levels: &mut Levels) -> Result<(), Memory>
    ensures { OnOk result (reverse levels.new ≡ after_event event.now (reverse levels.old)) }
{
    match event {
        Event::Name(_, _) | Event::Function(_) => (),
        Event::Enter(names) => levels.push(Some(Scope::of(alloc, names)?))?,
        Event::Block => levels.push(None)?,
        Event::Leave => {
            levels.pop();
        }
    }
    Ok(())
}

/// The variable of the innermost scope that binds the name.
fn local(levels: &[Option<Scope>], name: &Text) -> Option<Variable>
    ensures { result ≡ local_in 0 name.now (reverse levels.now) }
{
    let mut outward = 0;
    for at in (0..levels.len()).rev() {
        if let Some(scope) = &levels[at] {
            if let Some(number) = scope.number(name) {
                return Some(Variable::Local(outward, number));
            }
            outward += 1;
        }
    }
    None
}

/// The variable of a name: of the innermost scope that binds it, of the file, or of the language.
pub(crate) fn find(
    levels: &Levels,
    globals: &Scope,
    builtins: &Scope,
    name: &Text,
) -> Option<Variable>
    ensures { result ≡ found globals.now builtins.now (reverse levels.now) name.now }
{
    if let Some(variable) = local(levels.as_slice(), name) {
        return Some(variable);
    }
    if let Some(number) = globals.number(name) {
        return Some(Variable::Global(number));
    }
    match builtins.number(name) {
        Some(number) => Some(Variable::Builtin(number)),
        None => None,
    }
}
