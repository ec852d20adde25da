// Changes of lists, of boxes, which are lists of at most one member, and of dicts. Each refuses a frozen object with `Frozen`, and
// then one that a loop walks with `Iterating`; where it refuses, or memory is wanting, nothing is changed.
ghost use Rattle.std.specs.Prelude.{◌≡◌, ◌++◌, ◌∷◌, [], List, IfOk, IsTrue, Some, OnOk, OnErr, IfNone};
ghost use Rattle.value_spec.specs.Keys.{IsKey};
ghost use Rattle.value_spec.specs.Store.{empty_out, extend_members, insert_member, push_member, remove_member, set_member, cut_key, put_key};
ghost use Rattle.value_spec.specs.Values as plain;
ghost use Rattle.star_values.specs.Answers.{Answers, TakesNone};
ghost use Rattle.star_values.specs.Changing.{InsertsAt, IsList, RemovesAt, SetsAt, contents_kind, has_members, has_room, is_walked, DecidesOne, Identified, IsDict, pairs_of};
ghost use Rattle.star_values.specs.Objects.{object_in};
ghost use Rattle.star_values.specs.Owns.{Owns, OwnsAll, OwnsContents};
ghost use Rattle.star_values.specs.View.{View, value_in, value_of, values_in};
ghost use Rattle.indexmap.specs.IndexMap.{get_by, insert_entry, shift_remove_entry};

use crate::object::{ArenaStop, Contents, Object};
use crate::value::Value;
use indexmap::IndexMap;
use ytt_base::text::Memory;

/// Puts a value behind those of a list.
fn put_last(items: &mut Vec<Value>, value: Value) -> Result<(), Memory>
    ensures ok { OnOk result (items.new.items ≡ items.old.items ++ value ∷ []) }
    ensures err { OnErr result (items.new.items ≡ items.old.items) }
{
    items.push(value)?;
    Ok(())
}

/// Puts values behind those of a list.
fn put_all(items: &mut Vec<Value>, more: &[Value]) -> Result<(), Memory>
    ensures ok { OnOk result (items.new.items ≡ items.old.items ++ more.now) }
    ensures err { OnErr result (items.new.items ≡ items.old.items) }
{
    items.extend_from_slice(more)?;
    Ok(())
}

/// Puts a value in the place of a member of a list.
fn set_at(items: &mut Vec<Value>, at: usize, value: Value) -> Result<(), ArenaStop>
    ensures { SetsAt result items.old.items at value items.new.items }
{
    if at >= items.len() {
        return Err(ArenaStop::IndexRange);
    }
    items[at] = value;
    Ok(())
}

/// Puts a value in front of the member at a place of a list, or behind all.
fn insert_at(items: &mut Vec<Value>, at: usize, value: Value) -> Result<(), ArenaStop>
    ensures { InsertsAt result items.old.items at value items.new.items }
{
    if at > items.len() {
        return Err(ArenaStop::IndexRange);
    }
    match items.insert(at, value) {
        Err(_) => Err(ArenaStop::Memory),
        Ok(()) => Ok(()),
    }
}

/// Takes the member at a place of a list out.
fn remove_at(items: &mut Vec<Value>, at: usize) -> Result<Value, ArenaStop>
    ensures { RemovesAt result items.old.items at items.new.items }
{
    if at >= items.len() {
        return Err(ArenaStop::IndexRange);
    }
    Ok(items.remove(at))
}

/// Two values are equal exactly where they are one: texts and tuples that are equal stand at one place.
pub fn equal_values_are_one()
    ensures { DecidesOne ⟦<Value as PartialEq>⟧.eq }
{}

/// Puts a value under a key: in the key's pair, or in a new one behind the others.
pub fn put_under(pairs: &mut IndexMap<Value, Value>, key: Value, value: Value) -> Result<(), Memory>
    ensures ok { OnOk result (pairs.new.entries ≡ insert_entry ⟦<Value as PartialEq>⟧.eq pairs.old.entries key value) }
    ensures err { OnErr result (pairs.new.entries ≡ pairs.old.entries) }
{
    pairs.insert(key, value)?;
    Ok(())
}

/// Takes the pair of a key out, while the others stay in their order, and gives its value.
fn cut_pair(pairs: &mut IndexMap<Value, Value>, key: Value) -> Option<Value>
    ensures value { result ≡ get_by (⟦<Value as PartialEq>⟧.eq key) pairs.old }
    ensures entries { pairs.new.entries ≡ shift_remove_entry (⟦<Value as PartialEq>⟧.eq key) pairs.old.entries }
    ensures unchanged { IfNone result (pairs.new.entries ≡ pairs.old.entries) }
{
    pairs.shift_remove(&key)
}

impl Object {
    /// Puts a value behind the members of a list, or into a box that has none.
    pub fn push(&mut self, value: Value) -> Result<(), ArenaStop>
        requires { IsTrue (has_room self.old.contents) }
        ensures meaning { (held : List plain.Value) → Answers (λ u. u) result (object_in held self.old) (object_in held self.new) (push_member (value_in held value) (object_in held self.old)) }
        ensures kind { contents_kind self.new.contents ≡ contents_kind self.old.contents }
        ensures owned { (a : View) → OwnsContents a self.old.contents → Owns a value → OwnsContents a self.new.contents }
    {
        // The marks come first, so that a push that is refused changes nothing.
        self.unlocked()?;
        match &mut self.contents {
            Contents::List(items) => put_last(items, value)?,
            Contents::Box(inside) => *inside = Some(value),
            _ => unreachable!(),
        }
        Ok(())
    }

    /// Puts values behind the members of a list.
    pub fn extend(&mut self, more: &[Value]) -> Result<(), ArenaStop>
        requires { IsList self.old.contents }
        ensures meaning { (held : List plain.Value) → Answers (λ u. u) result (object_in held self.old) (object_in held self.new) (extend_members (values_in held more.now) (object_in held self.old)) }
        ensures kind { contents_kind self.new.contents ≡ contents_kind self.old.contents }
        ensures owned { (a : View) → OwnsContents a self.old.contents → OwnsAll a more.now → OwnsContents a self.new.contents }
    {
        self.unlocked()?;
        match &mut self.contents {
            Contents::List(items) => put_all(items, more)?,
            _ => unreachable!(),
        }
        Ok(())
    }

    /// Puts a value in the place of a member. It also refuses with `IndexRange` where there is no such place.
    pub fn set(&mut self, at: usize, value: Value) -> Result<(), ArenaStop>
        requires { IsTrue (has_members (contents_kind self.old.contents)) }
        ensures meaning { (held : List plain.Value) → Answers (λ u. u) result (object_in held self.old) (object_in held self.new) (set_member at (value_in held value) (object_in held self.old)) }
        ensures kind { contents_kind self.new.contents ≡ contents_kind self.old.contents }
        ensures owned { (a : View) → OwnsContents a self.old.contents → Owns a value → OwnsContents a self.new.contents }
        ensures no_memory { TakesNone result }
    {
        self.unlocked()?;
        match &mut self.contents {
            Contents::List(items) => set_at(items, at, value),
            Contents::Box(inside) => {
                if at != 0 || inside.is_none() {
                    return Err(ArenaStop::IndexRange);
                }
                *inside = Some(value);
                Ok(())
            }
            _ => unreachable!(),
        }
    }

    /// Puts a value in front of the member at a place, or behind all. It also refuses with `IndexRange` past the length.
    pub fn insert(&mut self, at: usize, value: Value) -> Result<(), ArenaStop>
        requires { IsList self.old.contents }
        ensures meaning { (held : List plain.Value) → Answers (λ u. u) result (object_in held self.old) (object_in held self.new) (insert_member at (value_in held value) (object_in held self.old)) }
        ensures kind { contents_kind self.new.contents ≡ contents_kind self.old.contents }
        ensures owned { (a : View) → OwnsContents a self.old.contents → Owns a value → OwnsContents a self.new.contents }
    {
        self.unlocked()?;
        match &mut self.contents {
            Contents::List(items) => insert_at(items, at, value),
            _ => unreachable!(),
        }
    }

    /// Takes the member at a place out. It also refuses with `IndexRange` where there is no such place.
    pub fn remove(&mut self, at: usize) -> Result<Value, ArenaStop>
        requires { IsList self.old.contents }
        ensures meaning { (held : List plain.Value) → Answers (value_in held) result (object_in held self.old) (object_in held self.new) (remove_member at (object_in held self.old)) }
        ensures kind { contents_kind self.new.contents ≡ contents_kind self.old.contents }
        ensures owned { (a : View) → OwnsContents a self.old.contents → OwnsContents a self.new.contents }
        ensures given { (a : View) → OwnsContents a self.old.contents → IfOk result (Owns a) }
        ensures no_memory { TakesNone result }
    {
        self.unlocked()?;
        match &mut self.contents {
            Contents::List(items) => remove_at(items, at),
            _ => unreachable!(),
        }
    }

    /// Takes all members of a list, or all pairs of a dict, out.
    pub fn clear(&mut self) -> Result<(), ArenaStop>
        requires { IsTrue (is_walked (contents_kind self.old.contents)) }
        ensures meaning { (held : List plain.Value) → Answers (λ u. u) result (object_in held self.old) (object_in held self.new) (empty_out (object_in held self.old)) }
        ensures kind { contents_kind self.new.contents ≡ contents_kind self.old.contents }
        ensures owned { (a : View) → OwnsContents a self.old.contents → OwnsContents a self.new.contents }
        ensures no_memory { TakesNone result }
    {
        self.unlocked()?;
        match &mut self.contents {
            Contents::List(items) => items.clear(),
            Contents::Dict(pairs) => pairs.clear(),
            _ => unreachable!(),
        }
        Ok(())
    }

    /// Puts a value under a key of a dict: in the key's pair, or in a new one behind the others.
    pub fn put(&mut self, key: Value, value: Value) -> Result<(), ArenaStop>
        requires { IsDict self.old.contents }
        ensures meaning { (held : List plain.Value) → Identified held key (pairs_of self.old.contents) → Answers (λ u. u) result (object_in held self.old) (object_in held self.new) (put_key (value_in held key) (value_in held value) (object_in held self.old)) }
        ensures kind { contents_kind self.new.contents ≡ contents_kind self.old.contents }
        ensures owned { (a : View) → OwnsContents a self.old.contents → Owns a key → Owns a value → IsKey (value_of a key) → OwnsContents a self.new.contents }
    {
        equal_values_are_one();
        self.unlocked()?;
        match &mut self.contents {
            Contents::Dict(pairs) => put_under(pairs, key, value)?,
            _ => unreachable!(),
        }
        Ok(())
    }

    /// Takes the pair of a key out of a dict, and gives its value. The others stay in their order. It also refuses with
    /// `KeyMissing`.
    pub fn cut(&mut self, key: Value) -> Result<Value, ArenaStop>
        requires { IsDict self.old.contents }
        ensures meaning { (held : List plain.Value) → Identified held key (pairs_of self.old.contents) → Answers (value_in held) result (object_in held self.old) (object_in held self.new) (cut_key (value_in held key) (object_in held self.old)) }
        ensures kind { contents_kind self.new.contents ≡ contents_kind self.old.contents }
        ensures owned { (a : View) → OwnsContents a self.old.contents → OwnsContents a self.new.contents }
        ensures given { (a : View) → OwnsContents a self.old.contents → IfOk result (Owns a) }
        ensures no_memory { TakesNone result }
    {
        equal_values_are_one();
        self.unlocked()?;
        match &mut self.contents {
            Contents::Dict(pairs) => match cut_pair(pairs, key) {
                None => Err(ArenaStop::KeyMissing),
                Some(value) => Ok(value),
            },
            _ => unreachable!(),
        }
    }
}
