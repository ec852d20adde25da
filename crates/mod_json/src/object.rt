// Members that become an object.
ghost use Rattle.std.specs.Prelude.{◌≡◌, IfOk};
ghost use Rattle.serde_json.specs.Data.{no_members, object};
ghost use Rattle.serde_json.specs.View.{members_view, view};
ghost use Rattle.mod_json.specs.Walk.{put_each};

use serde_json::{Map, Value as Json};
use sqlite_items::Items;
use std::alloc::Global;
use ytt_base::text::Memory;

/// Members by their keys, in the order in which they were converted.
pub(crate) type Entries = Vec<(String, Json)>;

/// The object of these members, which has the first one of each key.
pub(crate) fn object_of(alloc: Global, entries: Entries) -> Result<Json, Memory>
    ensures { IfOk result (λ d. view d ≡ object (put_each entries.items no_members)) }
{
    let mut map = Map::new(alloc);
    let mut left = Items::from_vec(entries);
    while let Some((key, json)) = left.pop() {
        drop(map.insert(key, json)?);
    }
    Ok(Json::Object(map))
}
