// The names of a scope, as a set in their order.
ghost use Rattle.std.specs.Prelude.{◌≡◌, [], bytes_eq, length, position, slice_get, IfNone, IfOk, IfSome, None, OnOk, Some};
ghost use Rattle.star_spec.specs.Names.{box_of};
ghost use Rattle.star_resolve.specs.Frames.{added, boxed};
ghost use Rattle.star_resolve.specs.Variables.{each_once, with_name};

use indexmap::IndexSet;
use std::alloc::Global;
use std::marker::Model;
use ytt_base::text::{Memory, Text, Texts};

/// The names of a scope, each once, seen as the list of them in the order in which they are first bound.
#[derive(Drop)]
pub struct Scope {
    names: IndexSet<String>,
}

impl Model for Scope {
    ghost use Rattle.std.specs.Prelude.{◌≡◌, List, ℕ, string_bytes, map as each};
    ghost use Rattle.star_resolve.specs.Variables.{each_once};

    ghost Value = { List (List ℕ) };

    ghost view = { λ s. each string_bytes s.names.keys };

    ghost invariant = { λ s. each_once (each string_bytes s.names.keys) ≡ each string_bytes s.names.keys };
}

impl Scope {
    fn new(alloc: Global) -> Scope
        ensures { result ≡ [] }
    {
        Scope {
            names: IndexSet::new(alloc),
        }
    }

    fn add(&mut self, alloc: Global, name: &Text) -> Result<(), Memory>
        ensures { OnOk result (self.new ≡ with_name self.old name.now) }
    {
        self.names.insert(String::from_str(alloc, name.as_str())?)?;
        Ok(())
    }

    /// The scope that binds these names.
    pub fn of(alloc: Global, names: &Texts) -> Result<Scope, Memory>
        ensures { IfOk result (λ scope. scope ≡ each_once names.now) }
    {
        let mut scope = Scope::new(alloc);
        for name in names.as_slice() {
            scope.add(alloc, name)?;
        }
        Ok(scope)
    }

    /// The scope that binds those of the names that are not among the known ones.
    pub fn besides(alloc: Global, known: &Texts, names: &Texts) -> Result<Scope, Memory>
        ensures { IfOk result (λ scope. scope ≡ added known.now names.now) }
    {
        let among = Scope::of(alloc, known)?;
        let mut scope = Scope::new(alloc);
        for name in names.as_slice() {
            if among.number(name).is_none() {
                scope.add(alloc, name)?;
            }
        }
        Ok(scope)
    }

    /// How many names it binds.
    pub fn len(&self) -> usize
        ensures { result ≡ length self.now }
    {
        self.names.len()
    }

    /// The name with a number, if there is one.
    pub fn name(&self, number: usize) -> Option<&str>
        ensures found { IfSome result (λ name. slice_get self.now number ≡ Some name.now) }
        ensures none { IfNone result (slice_get self.now number ≡ None) }
    {
        match self.names.get_index(number) {
            None => None,
            Some(name) => Some(name.as_str()),
        }
    }

    /// The number of a name, by its place among the names, if it is one of them. It is that of the name's box
    /// where the names get boxes in their order.
    pub fn number(&self, name: &Text) -> Option<usize>
        ensures place { result ≡ position (bytes_eq name.now) self.now }
        ensures boxes { result ≡ box_of name.now (boxed 0 self.now []) }
    {
        self.names.get_index_of(name.as_str())
    }
}
