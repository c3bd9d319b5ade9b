// The numbers of activations: the last one given, and how many were needed beyond 2^64 - 1; the last number is their sum.
ghost use Rattle.std.specs.Prelude.{◌≡◌, suc, ◌+◌, ◌<◌, leb};
ghost use Rattle.words.specs.Saturating.{max64};
ghost use Rattle.model.specs.Activate.{with_number};
ghost use Rattle.model.specs.State.{next_number};
ghost use Rattle.state.specs.Meaning.{Sound, Means, meaning, base};

use crate::{State, place};
use rows::row::Row;

impl State {
    // The number of an activation that begins. Each one has an outcome, so that a call never comes near 2^64 of them.
    pub fn take_number(&mut self) -> u64
        requires { (meaning self.old).last_number < max64 + max64 }
        ensures { Means self.new (base self.old) (with_number (suc (meaning self.old).last_number) (meaning self.old)) × (result ≡ next_number (meaning self.old).last_number) }
    {
        if let Some(number) = u64::at(&self.words, place::LAST).checked_add(1) {
            number.put(&mut self.words, place::LAST);
            return number;
        }
        let beyond = u64::at(&self.words, place::BEYOND);
        (beyond + 1).put(&mut self.words, place::BEYOND);
        u64::MAX
    }

    // Whether the last number is at most 2^64 - 1: where it is not, the call is refused with 32.
    pub fn last_fits(&self) -> bool
        ensures { result ≡ leb (meaning self.now).last_number max64 }
    {
        u64::at(&self.words, place::BEYOND) == 0
    }
}
