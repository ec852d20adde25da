// The keys of a map, as a set.

use std::alloc::Global;
use std::collections::HashSet;
use std::mem;
use ytt_base::text::Memory;
use ytt_base::tree::Key;

/// A set of keys by their kinds.
#[derive(Drop)]
struct Kinds {
    null: bool,
    yes: bool,
    no: bool,
    integers: HashSet<i128>,
    texts: HashSet<String>,
}

impl Kinds {
    ghost use Rattle.std.specs.Prelude.{◌≡◌, ◌||◌, not, false, IfOk, OnErr, OnOk};
    ghost use Rattle.ytt_base.specs.Trees.{Scalar, same_key};
    ghost use Rattle.ytt_base.specs.View.{key_of};
    ghost use Rattle.yaml_keys.specs.Seen.{is_among};

    /// No key. It takes no memory.
    fn new(alloc: Global) -> Kinds
        ensures { (key : Scalar) → is_among key result ≡ false }
    {
        Kinds {
            null: false,
            yes: false,
            no: false,
            integers: HashSet::new(alloc),
            texts: HashSet::new(alloc),
        }
    }

    /// Adds a key, and tells whether it is a new one.
    fn add(&mut self, alloc: Global, key: &Key) -> Result<bool, Memory>
        ensures told { IfOk result (λ is_new. is_new ≡ not (is_among (key_of key.now) self.old)) }
        ensures among { OnOk result ((other : Scalar) → is_among other self.new ≡ (same_key other (key_of key.now) || is_among other self.old)) }
        ensures kept { OnErr result ((other : Scalar) → is_among other self.new ≡ is_among other self.old) }
    {
        match key {
            Key::Null => Ok(!mem::replace(&mut self.null, true)),
            Key::Bool(true) => Ok(!mem::replace(&mut self.yes, true)),
            Key::Bool(false) => Ok(!mem::replace(&mut self.no, true)),
            Key::Int(n) => Ok(self.integers.insert(*n)?),
            Key::Str(text) => Ok(self.texts.insert(String::from_str(alloc, text.as_str())?)?),
        }
    }
}

/// A set of keys. It is a word long until a key comes.
#[derive(Drop)]
pub struct Seen {
    kinds: Option<Box<Kinds>>,
}

impl Seen {
    ghost use Rattle.std.specs.Prelude.{◌≡◌, ◌||◌, not, false, IfOk, OnErr, OnOk};
    ghost use Rattle.ytt_base.specs.Trees.{Scalar, same_key};
    ghost use Rattle.ytt_base.specs.View.{key_of};
    ghost use Rattle.yaml_keys.specs.Seen.{is_seen};

    /// No key. It takes no memory.
    pub fn new() -> Seen
        ensures { (key : Scalar) → is_seen key result ≡ false }
    {
        Seen { kinds: None }
    }

    /// Adds the first key.
    fn add_first(&mut self, alloc: Global, key: &Key) -> Result<bool, Memory>
        requires { (key : Scalar) → is_seen key self.old ≡ false }
        ensures told { IfOk result (λ is_new. is_new ≡ not (is_seen (key_of key.now) self.old)) }
        ensures seen { OnOk result ((other : Scalar) → is_seen other self.new ≡ (same_key other (key_of key.now) || is_seen other self.old)) }
        ensures kept { OnErr result ((other : Scalar) → is_seen other self.new ≡ is_seen other self.old) }
    {
        let mut kinds = Kinds::new(alloc);
        let is_new = kinds.add(alloc, key)?;
        self.kinds = Some(Box::new(alloc, kinds)?);
        Ok(is_new)
    }

    /// Adds a key, and tells whether it is a new one.
    pub fn add(&mut self, alloc: Global, key: &Key) -> Result<bool, Memory>
        ensures told { IfOk result (λ is_new. is_new ≡ not (is_seen (key_of key.now) self.old)) }
        ensures seen { OnOk result ((other : Scalar) → is_seen other self.new ≡ (same_key other (key_of key.now) || is_seen other self.old)) }
        ensures kept { OnErr result ((other : Scalar) → is_seen other self.new ≡ is_seen other self.old) }
    {
        match &mut self.kinds {
            Some(kinds) => kinds.add(alloc, key),
            None => self.add_first(alloc, key),
        }
    }
}
