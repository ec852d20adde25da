// Code as a row of events, in text order: names where they stand, and where scopes begin and end.
ghost use Rattle.std.specs.Prelude.{◌≡◌, ◌∷◌, ◌++◌, [], OnOk};
ghost use Rattle.ytt_base.specs.Outcomes.{place_at};
ghost use Rattle.star_resolve.specs.declared.event.Event.TheVariants as event;

use sqlite_items::Items;
use ytt_base::fault::Place;
use ytt_base::text::{Memory, Text, Texts};

/// What stands next in code.
#[derive(Drop)]
pub enum Event {
    /// A name, to be read or to be bound.
    Name(Place, Text),
    /// A function stands here that has so many variables; its defaults come before it begins.
    Function(usize),
    /// A function or a comprehension begins, which binds these names.
    Enter(Texts),
    /// A block begins that binds no names of its own.
    Block,
    /// What began last ends.
    Leave,
}

/// Events in their order.
pub type Events = Items<Event>;

/// Puts a name behind the events.
pub(crate) fn put_name(file: u32, line: u32, name: &Text, events: &mut Events) -> Result<(), Memory>
    ensures { OnOk result (events.new ≡ events.old ++ event.Name (place_at file line) name.now ∷ []) }
{
    events.push(Event::Name(Place { file, line }, name.copy()?))?;
    Ok(())
}
