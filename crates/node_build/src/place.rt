// Where an item comes among those of a collection.
ghost use Rattle.std.specs.Prelude.{◌≡◌, ◌<◌, ◌++◌, ◌∷◌, [], vec_capacity, vec_len};
ghost use Rattle.node_build.specs.Positions.{Stands, placed, undone, undone_one};

use object_arena::BuiltItem;
use sqlite_items::Items;
use std::mem;

/// Behind the others, or in the place of one.
#[derive(Clone, Copy)]
pub(crate) enum Spot {
    Behind,
    At(usize),
}

/// What takes an item out again: it stands behind the others, or in the place of this one.
#[derive(Drop)]
pub(crate) enum Undo {
    Behind,
    At(usize, BuiltItem),
}

/// Puts an item where it comes.
pub(crate) fn place(items: &mut Vec<BuiltItem>, spot: Spot, item: BuiltItem) -> Undo
    requires room { vec_len items.old < vec_capacity items.old }
    requires stands { Stands spot items.old.items }
    ensures placed { items.new.items ≡ placed spot item items.old.items }
    ensures undone { undone_one result items.new.items ≡ items.old.items }
{
    match spot {
        Spot::Behind => {
            items.push_reserved(item);
            Undo::Behind
        }
        Spot::At(at) => Undo::At(at, mem::replace(&mut items[at], item)),
    }
}

/// Takes one item out again.
fn take_one_out(items: &mut Vec<BuiltItem>, step: Undo)
    ensures { items.new.items ≡ undone_one step items.old.items }
{
    match step {
        Undo::Behind => drop(items.pop()),
        Undo::At(at, item) => {
            if at < items.len() {
                drop(mem::replace(&mut items[at], item));
            } else {
                drop(item);
            }
        }
    }
}

/// Takes items out again, the last one first.
pub(crate) fn take_out(items: &mut Vec<BuiltItem>, mut log: Items<Undo>)
    ensures { items.new.items ≡ undone log items.old.items }
{
    while let Some(step) = log.pop() {
        take_one_out(items, step);
    }
}
