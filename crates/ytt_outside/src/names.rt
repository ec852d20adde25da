// Names of a folder in the order of their bytes.
ghost use Rattle.std.specs.Prelude.{◌≡◌, IfOk, map, string_bytes};
ghost use Rattle.std.specs.BTreeSet.{keys};
ghost use Rattle.ytt_outside.specs.Names.{AreSorted};

use sqlite_items::Items;
use std::alloc::Global;
use std::collections::BTreeSet;
use ytt_base::text::{Memory, Names, Text};

/// The strings of a set as texts, in their order.
pub fn texts_of(alloc: Global, strings: BTreeSet<String>) -> Result<Names, Memory>
    ensures names { IfOk result (λ names. names ≡ map string_bytes (keys strings)) }
    ensures sorted { IfOk result AreSorted }
{
    let mut names: Names = Items::new(alloc);
    for string in strings {
        names.push(Text::of_string(string))?;
    }
    Ok(names)
}
