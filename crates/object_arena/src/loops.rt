// Loops that walk objects, and marks.
ghost use Rattle.std.specs.Prelude.{◌≡◌, ◌<◌, ◌^◌};
ghost use Rattle.object_arena.specs.Names.{IfOk, IsSome, IsTrue, OnErr, OnOk, Some, length, nat_lt, slice_get, as_frozen, begin_loop, change, end_loop, freeze_since, object_at, seen, Grows, OwnsLent};
ghost use Rattle.object_arena.specs.Stands.{Lends, is_walked, loops_of};

use crate::arena::Arena;
use star_values::{Lent, Ref};
use ytt_base::text::Memory;

/// How far an arena had grown.
#[derive(Clone, Copy)]
pub struct Mark {
    pub(crate) at: usize,
}

impl Arena {
    /// How far it has grown.
    pub fn mark(&self) -> Mark
        ensures { result.at ≡ length (seen self.now).store }
    {
        Mark {
            at: self.object_count(),
        }
    }

    /// An object can't be changed any more.
    fn freeze_at(&mut self, at: usize)
        requires { at < length (seen self.old).store }
        ensures store { (seen self.new).store ≡ change as_frozen at (seen self.old).store }
        ensures held { (seen self.new).held ≡ (seen self.old).held }
        ensures grows { Grows (seen self.old) (seen self.new) }
    {
        let mut object = self.take(at);
        object.freeze();
        self.put_back(at, object);
    }

    /// Every object that was made since the mark can't be changed any more.
    pub fn freeze_since(&mut self, mark: Mark)
        ensures store { (seen self.new).store ≡ freeze_since mark.at (seen self.old).store }
        ensures held { (seen self.new).held ≡ (seen self.old).held }
        ensures grows { Grows (seen self.old) (seen self.new) }
    {
        let count = self.object_count();
        for at in mark.at..count {
            self.freeze_at(at);
        }
    }

    /// Whether one more loop may walk an object: fewer than 2^63 do.
    pub fn may_walk(&self, r: Ref) -> bool
        requires { IsSome (object_at (seen self.now) r.at) }
        ensures { result ≡ nat_lt (loops_of (slice_get (seen self.now).store r.at)) (2 ^ 63) }
    {
        self.object(r.at).contents.loops() < 1 << 63
    }

    /// One more loop walks a list or a dict, and goes over what is given. Where memory is wanting no member is changed.
    pub fn begin_loop(&mut self, r: Ref) -> Result<Lent, Memory>
        requires kind { IsTrue (is_walked (slice_get (seen self.old).store r.at)) }
        requires room { loops_of (slice_get (seen self.old).store r.at) < 2 ^ 63 }
        ensures store { OnOk result ((seen self.new).store ≡ begin_loop (Some r.at) (seen self.old).store) }
        ensures lent { IfOk result (Lends (seen self.old) r.at) }
        ensures owns { IfOk result (OwnsLent (seen self.new)) }
        ensures held { (seen self.new).held ≡ (seen self.old).held }
        ensures grows { Grows (seen self.old) (seen self.new) }
    {
        let mut object = self.take(r.at);
        let lent = object.begin_loop(self.alloc);
        self.put_back(r.at, object);
        lent
    }

    /// One loop less walks a list or a dict. What was lent to the loop is dropped before; where it is still held, and the loop
    /// is the last, nothing is changed, since taking it back would be a copy.
    pub fn end_loop(&mut self, r: Ref) -> Result<(), Memory>
        requires { IsTrue (is_walked (slice_get (seen self.old).store r.at)) }
        ensures store { OnOk result ((seen self.new).store ≡ end_loop (Some r.at) (seen self.old).store) }
        ensures err { OnErr result ((seen self.new).store ≡ (seen self.old).store) }
        ensures held { (seen self.new).held ≡ (seen self.old).held }
        ensures grows { Grows (seen self.old) (seen self.new) }
    {
        let mut object = self.take(r.at);
        let ended = object.end_loop();
        self.put_back(r.at, object);
        ended
    }
}
