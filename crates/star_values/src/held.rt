// What values hold that never changes.
ghost use Rattle.std.specs.Prelude.{◌≡◌, List, Some, nat_eq, bytes_eq};
ghost use Rattle.std.specs.Hash as fed;
ghost use Rattle.std.specs.Cmp.Rules.{comparing, hashing};
ghost use Rattle.std.proofs.Common.{rules};
ghost use Rattle.value_spec.specs.Values as plain;
ghost use Rattle.star_values.specs.Objects.{held_value};
ghost use Rattle.star_values.specs.Owns.{held_sort};

use crate::value::{Built, NamedValues, Sort, Value};
use star_tree::ItemKind;
use std::hash::{Hash, Hasher};
use ytt_base::text::Text;

/// A text that is compared and hashed by its bytes.
#[derive(Drop)]
pub struct Word {
    pub text: Text,
}

impl PartialEq for Word {
    ghost eq = { λ a b. bytes_eq a.text b.text };

    ghost laws = { Prim.search (comparing, rules) };

    fn eq(&self, other: &Word) -> bool {
        self.text.as_str() == other.text.as_str()
    }
}

impl Eq for Word {
    ghost laws = { Prim.search (comparing, rules) };
}

impl Hash for Word {
    ghost hash_input = { λ w. fed.str w.text };

    ghost respects_eq = { Prim.search (hashing, rules) };

    fn hash<H: Hasher>(&self, state: &mut H) {
        self.text.as_str().hash(state);
    }
}

/// Who answers a call of a native: the language, whose functions and methods have names of their own, or the host.
#[derive(Clone, Copy, PartialEq, Eq)]
pub enum Answerer {
    Language,
    Host,
}

/// What a value holds besides texts and tuples.
#[derive(Drop)]
pub enum Thing {
    /// The numbers from the first on, before the second, by steps of the third, which isn't 0.
    Range(i128, i128, i128),
    Struct(NamedValues),
    Module(Text, NamedValues),
    /// Its name, and what it is of or what it holds.
    Native(Answerer, Text, Option<Value>),
    /// What `template.replace` gives: a value whose members take the place of a node.
    Replacement(Value),
    Fragment(ItemKind, Built),
}

/// A thing by its number, by which alone it is compared.
#[derive(Drop)]
pub struct Numbered {
    pub number: usize,
    pub thing: Thing,
}

impl PartialEq for Numbered {
    ghost eq = { λ a b. nat_eq a.number b.number };

    ghost laws = { Prim.search (comparing, rules) };

    fn eq(&self, other: &Numbered) -> bool {
        self.number == other.number
    }
}

impl Eq for Numbered {
    ghost laws = { Prim.search (comparing, rules) };
}

impl Hash for Numbered {
    ghost hash_input = { λ n. fed.usize n.number };

    ghost respects_eq = { Prim.search (hashing, rules) };

    fn hash<H: Hasher>(&self, state: &mut H) {
        self.number.hash(state);
    }
}

/// What values hold that never changes. Texts of the same bytes are equal, and so are tuples of the same values.
#[derive(PartialEq, Eq, Hash, Drop)]
pub enum Held {
    Text(Word),
    Tuple(Vec<Value>),
    Other(Numbered),
}

impl Held {
    /// Its kind.
    pub fn sort(&self) -> Sort
        ensures { (before : List plain.Value) → held_sort (Some (held_value before self.now)) ≡ Some result }
    {
        match self {
            Held::Text(_) => Sort::Text,
            Held::Tuple(_) => Sort::Tuple,
            Held::Other(numbered) => match &numbered.thing {
                Thing::Range(_, _, _) => Sort::Range,
                Thing::Struct(_) => Sort::Struct,
                Thing::Module(_, _) => Sort::Module,
                Thing::Native(_, _, _) => Sort::Native,
                Thing::Replacement(_) => Sort::Native,
                Thing::Fragment(_, _) => Sort::Fragment,
            },
        }
    }
}
