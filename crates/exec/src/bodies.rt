// The queue of a dry run.
ghost use Rattle.std.specs.Prelude.{◌≡◌, [], ◌≤◌, ◌+◌, length, slice_get, IfNone, OnSome};

use arrayvec::ArrayVec;

// The lists of the bodies that a dry run queues: those from `first` on it still has to run, the oldest first. A run queues one for a step at most, so that 256 have room.
// kept: a place that goes on, and no `pop_at(0)`: that moves all that is left, by a `memmove` that a program would have to bring to a library for C.
#[derive(Drop)]
pub struct Bodies {
    pub lists: ArrayVec<u32, 256>,
    pub first: usize,

    ghost within: { first ≤ length lists.items },
}

impl Bodies {
    pub fn new() -> Bodies
        ensures { result.lists.items ≡ [] }
    {
        Bodies {
            lists: ArrayVec::new(),
            first: 0,
        }
    }

    // The oldest list is taken out.
    pub fn pop(&mut self) -> Option<u32>
        ensures value { result ≡ slice_get self.old.lists.items self.old.first }
        ensures next { OnSome result (self.new.first ≡ self.old.first + 1) }
        ensures absent { IfNone result (self.new.first ≡ self.old.first) }
        ensures lists { self.new.lists ≡ self.old.lists }
    {
        let list = self.lists.as_slice().get(self.first).copied()?;
        self.first += 1;
        Some(list)
    }
}
