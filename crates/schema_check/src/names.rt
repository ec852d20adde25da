// Names, and where each of them stands.
ghost use Rattle.std.specs.Prelude.{◌≡◌, ◌++◌, ◌∷◌, [], length, slice_get, OnErr, OnOk};
ghost use Rattle.std.specs.Option.{option_copied};
ghost use Rattle.schema_check.specs.Places.{place_of};

use sqlite_items::Items;
use std::alloc::Global;
use std::collections::HashMap;
use std::marker::Model;
use ytt_base::text::{Memory, Text};

/// Names in their order, seen as their list. A table tells where each stands first, so that a name is found in time that doesn't grow
/// with them.
#[derive(Drop)]
pub(crate) struct Names {
    names: Items<Text>,
    places: HashMap<String, u64>,
}

impl Model for Names {
    ghost use Rattle.std.specs.Prelude.{◌≡◌, List, ℕ};
    ghost use Rattle.std.specs.HashMap.{get_by_text};
    ghost use Rattle.schema_check.specs.Places.{place_of};

    ghost Value = { List (List ℕ) };

    ghost view = { λ n. n.names };

    ghost invariant = { λ n. (name : List ℕ) → get_by_text n.places name ≡ place_of name n.names };
}

impl Names {
    /// No names. It takes no memory.
    pub(crate) fn new(alloc: Global) -> Names
        ensures { result ≡ [] }
    {
        Names {
            names: Items::new(alloc),
            places: HashMap::new(alloc),
        }
    }

    /// How many there are.
    pub(crate) fn len(&self) -> usize
        ensures { result ≡ length self.now }
    {
        self.names.len()
    }

    /// The name at a place.
    pub(crate) fn get(&self, at: usize) -> Option<&Text>
        ensures { option_copied result ≡ slice_get self.now at }
    {
        self.names.get(at)
    }

    /// Where a name stands first, if it is one of them.
    pub(crate) fn place(&self, name: &Text) -> Option<u64>
        ensures { result ≡ place_of name.now self.now }
    {
        self.places.get(name.as_str()).copied()
    }

    /// Adds a name behind the others. After want of memory they are as before.
    pub(crate) fn push(&mut self, alloc: Global, name: Text) -> Result<(), Memory>
        ensures ok { OnOk result (self.new ≡ self.old ++ name ∷ []) }
        ensures err { OnErr result (self.new ≡ self.old) }
    {
        let own = String::from_str(alloc, name.as_str())?;
        if self.places.contains_key(own.as_str()) {
            self.names.push(name)?;
            return Ok(());
        }
        let place = self.names.len() as u64;
        self.names.push(name)?;
        if let Err(_) = self.places.insert(own, place) {
            drop(self.names.pop());
            return Err(Memory);
        }
        Ok(())
    }
}
