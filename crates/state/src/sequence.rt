// The sequence numbers at the end of a call.
ghost use Rattle.std.specs.Prelude.{true, ◌≡◌, ◌-◌, ◌≤◌, ◌^◌, leb, get_or, drop};
ghost use Rattle.words.specs.Saturating.{max64};
ghost use Rattle.model.specs.Codec.{most};
ghost use Rattle.state.specs.Meaning.{Sound, AllNumbered, Holds, Counted, Below, meaning, numbered, pending_row};

use crate::{State, place};
use rows::PENDING_WORDS;
use rows::row::Row;

// Each record behind the stored ones gets the number at its offset.
// kept: not one map with `slots::move_all`: this adds to two words of the rows behind the stored ones, that writes whole slots, all of them. One map
// would take the first row, the width, the word and a closure, where these are two loops of three lines. Nor `chunks_exact_mut`, for the reason given there.
fn number_all(t: &mut [u32], stored: usize, next: u64)
    requires { Counted 32 pending_row t.old × (stored ≤ get_or t.old 0 0) × Below (2 ^ 64 - next) (drop stored ((most 32 pending_row).get t.old)) }
    ensures { Holds 32 pending_row t.new (numbered next stored ((most 32 pending_row).get t.old)) }
{
    let n = t[0] as usize;
    for i in stored..n {
        let k = 1 + i * PENDING_WORDS;
        let offset = u64::at(t, k);
        (next + offset).put(t, k);
    }
}

impl State {
    // Whether the next number is at most 2^64 - 1: where it is not, the call is refused with 31.
    pub fn next_fits(&self) -> bool
        ensures { result ≡ leb (meaning self.now).next max64 }
    {
        let next = u64::at(&self.words, place::NEXT);
        u64::at(&self.words, place::ACCEPTED) <= u64::MAX - next
    }

    // The records of the call get their numbers, and the store its next one: the same meaning, with no offset left. The last activation number is
    // one of 64 bits.
    pub fn assign_numbers(&mut self)
        requires { (leb (meaning self.old).next max64 ≡ true) × ((meaning self.old).last_number ≤ max64) }
        ensures { AllNumbered self.new (meaning self.old) }
    {
        let next = u64::at(&self.words, place::NEXT);
        let accepted = u64::at(&self.words, place::ACCEPTED);
        let stored = self.words[place::STORED] as usize;
        number_all(&mut self.words[place::PENDING..place::WEEK], stored, next);
        self.words[place::STORED] = self.words[place::PENDING];
        (next + accepted).put(&mut self.words, place::NEXT);
        0u64.put(&mut self.words, place::ACCEPTED);
    }
}
