// Types of data values.
ghost use Rattle.std.specs.Prelude.{◌≡◌, OnErr, OnOk};
ghost use Rattle.std.specs.Option.{option_map};
ghost use Rattle.ytt_base.specs.View.{key_of};
ghost use Rattle.schema_spec.specs.Schemas.{member, no_types, type_at};
ghost use Rattle.schema_check.specs.Places.{and_type, entry_at, type_count};
ghost use Rattle.schema_check.specs.View.{IsWhole, schema_of, types_of};

use crate::names::Names;
use sqlite_items::{Boxed, Items};
use std::alloc::Global;
use ytt_base::text::{Memory, Text};
use ytt_base::tree::{Key, Tree};

/// What a value of data may be: anything, a scalar of one kind, a map of exactly these keys, or a list of items of a type.
#[cycle(schema)]
#[derive(Drop)]
pub enum TypeKind {
    Any,
    Bool,
    Int,
    Str,
    Map(TypePairs),
    List(Boxed<Schema>),
}

/// A type of data values: what may stand there, whether null may too, and what stands there where nothing is given.
#[cycle(schema)]
#[derive(Drop)]
pub struct Schema {
    pub kind: TypeKind,
    pub nullable: bool,
    pub default: Tree,
}

/// The types of a map's keys in their order. A key is found in time that doesn't grow with them.
#[cycle(schema)]
#[derive(Drop)]
pub struct TypePairs {
    names: Names,
    types: Items<Schema>,
}

impl TypePairs {
    /// No types. It takes no memory.
    pub fn new(alloc: Global) -> TypePairs
        ensures none { types_of result ≡ no_types }
        ensures whole { IsWhole result }
    {
        TypePairs {
            names: Names::new(alloc),
            types: Items::new(alloc),
        }
    }

    /// Adds the type of a name behind the others. Of a name that stands twice the first type holds. After want of memory the types are as
    /// before.
    pub fn push(&mut self, alloc: Global, name: Text, schema: Schema) -> Result<(), Memory>
        requires { IsWhole self.old }
        ensures ok { OnOk result (types_of self.new ≡ and_type (types_of self.old) name (schema_of schema)) }
        ensures err { OnErr result (types_of self.new ≡ types_of self.old) }
        ensures whole { IsWhole self.new }
    {
        self.types.push(schema)?;
        if let Err(_) = self.names.push(alloc, name) {
            drop(self.types.pop());
            return Err(Memory);
        }
        Ok(())
    }

    /// How many there are.
    pub fn len(&self) -> usize
        ensures { result ≡ type_count (types_of self.now) }
    {
        self.names.len().min(self.types.len())
    }

    /// The name at a place, counted from 0, with its type.
    pub fn get(&self, at: usize) -> Option<(&Text, &Schema)>
        ensures { option_map (λ e. (e.0.now, schema_of e.1.now)) result ≡ entry_at at (types_of self.now) }
    {
        let name = self.names.get(at)?;
        let schema = self.types.get(at)?;
        Some((name, schema))
    }

    /// The type of a text key.
    fn type_at(&self, name: &Text) -> Option<&Schema>
        ensures { option_map (λ s. schema_of s.now) result ≡ type_at name.now (types_of self.now) }
    {
        let at = self.names.place(name)?;
        self.types.get(at as usize)
    }

    /// The type of a key, if it is one of the names.
    pub fn member(&self, key: &Key) -> Option<&Schema>
        ensures { option_map (λ s. schema_of s.now) result ≡ member (key_of key.now) (types_of self.now) }
    {
        match key {
            Key::Str(name) => self.type_at(name),
            Key::Null => None,
            Key::Bool(_) => None,
            Key::Int(_) => None,
        }
    }
}
