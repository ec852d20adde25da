// Lists that grow.
ghost use Rattle.std.specs.Prelude.{◌≡◌, ◌<◌, ◌++◌, ◌∷◌, [], OnErr, OnOk, vec_capacity, vec_len};

use sqlite_items::Items;
use ytt_base::text::Memory;

/// Puts an item behind those of a list.
pub(crate) fn push<T: Drop>(items: &mut Items<T>, item: T) -> Result<(), Memory>
    ensures ok { OnOk result (items.new ≡ items.old ++ item ∷ []) }
    ensures err { OnErr result (items.new ≡ items.old) }
{
    items.push(item)?;
    Ok(())
}

/// Makes room for one more item.
pub(crate) fn make_room<T>(items: &mut Vec<T>) -> Result<(), Memory>
    ensures same { items.new.items ≡ items.old.items }
    ensures room { OnOk result (vec_len items.new < vec_capacity items.new) }
{
    items.reserve(1)?;
    Ok(())
}
