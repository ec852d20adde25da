// Values.
ghost use Rattle.std.specs.Prelude.{◌≡◌, slice_get};

use sqlite_items::{Items, at};
use ytt_base::fault::Place;
use ytt_base::text::Text;
use ytt_base::tree::{Key, Tree};

/// The kinds of what stands in an arena.
#[derive(Clone, Copy, PartialEq, Eq, Hash)]
pub enum Sort {
    Text,
    Tuple,
    Range,
    Struct,
    Fragment,
    Native,
    Module,
    List,
    Dict,
    Func,
    Box,
}

/// Where something stands in its arena, and of which kind it is. An arena makes it; no other crate looks inside.
#[derive(Clone, Copy, PartialEq, Eq, Hash)]
pub struct Ref {
    pub at: usize,
    pub sort: Sort,
}

impl Ref {
    /// A place, and the kind of what stands there.
    pub fn of(at: usize, sort: Sort) -> Ref
        ensures { result ≡ record { at = at; sort = sort } }
    {
        Ref { at, sort }
    }
}

/// A value. What is larger than a few words stands in an arena, which gave the Ref; that of a value is of the kind
/// that its variant names.
#[derive(Clone, Copy, PartialEq, Eq, Hash)]
pub enum Value {
    None,
    Bool(bool),
    Int(i128),
    Text(Ref),
    List(Ref),
    Dict(Ref),
    Tuple(Ref),
    Range(Ref),
    Struct(Ref),
    Fragment(Ref),
    Func(Ref),
    Native(Ref),
    Module(Ref),
}

/// A list of values.
pub type Values = Items<Value>;

/// The value at a place, if there is one.
pub fn value_at(values: &[Value], place: usize) -> Option<Value>
    ensures { result ≡ slice_get values.now place }
{
    at(values, place).copied()
}

/// A value with a name: an argument, a field of a struct, a global of a file.
#[derive(Drop)]
pub struct NamedValue {
    pub name: Text,
    pub value: Value,
}

/// Values with names, in their order.
pub type NamedValues = Items<NamedValue>;

/// The arguments of a call: those by position, and those by name.
#[derive(Drop)]
pub struct CallArgs {
    pub positional: Values,
    pub named: NamedValues,
}

/// The bounds and the step of a slice, None where one is absent.
#[derive(Clone, Copy)]
pub struct Cut {
    pub from: Value,
    pub to: Value,
    pub step: Value,
}

/// The steps that are left, and how many calls may still stand in one another.
#[derive(Clone, Copy)]
pub struct Work {
    pub steps: u64,
    pub depth: u32,
}

/// What a native answers: a value, or a call of a function that it asks for, and the tag by which it knows the call again.
#[derive(Drop)]
pub enum Reply {
    Value(Value),
    CallThen {
        function: Value,
        args: Values,
        tag: u64,
    },
}

/// A note with the values of its arguments.
#[derive(Drop)]
pub struct BuiltNote {
    pub name: Text,
    pub args: CallArgs,
}

/// The notes of an item, in their order.
pub type BuiltNotes = Items<BuiltNote>;

/// A document, a pair or an element that was built. A pair alone has a key.
#[cycle(built)]
#[derive(Drop)]
pub struct BuiltItem {
    pub place: Place,
    pub key: Option<Key>,
    pub notes: BuiltNotes,
    pub value: BuiltValue,
}

/// What a built item holds: a tree, the pairs of a map, or the elements of a list.
#[cycle(built)]
#[derive(Drop)]
pub enum BuiltValue {
    One(Tree),
    Map(Built),
    List(Built),
}

/// Items that were built, in their order.
pub type Built = Items<BuiltItem>;
