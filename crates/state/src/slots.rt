// The Every slots, at most 64: rows of rule, place, period and due time.
ghost use Rattle.std.specs.Prelude.{◌≡◌, [], ◌∷◌, ◌++◌, map, ◌≤◌, ◌<◌, get_or, take};
ghost use Rattle.model.specs.Codec.{most};
ghost use Rattle.model.specs.Lists.{keep};
ghost use Rattle.model.specs.Parts.{slot_row};
ghost use Rattle.model.specs.State.{with_rest, with_every};
ghost use Rattle.model.specs.Wheel.{moved};
ghost use Rattle.state.specs.Meaning.{Sound, Means, Holds, Counted, meaning, base};
ghost use Rattle.state.specs.Named.{slot_due};

use crate::{State, place, table};
use arrayvec::ArrayVec;
use model::EverySlot;
use rows::SLOT_WORDS;
use rows::put::clear;
use rows::row::Row;
use rows::tables::{Rows, table_at};

// The word of a row where its due time begins.
pub const DUE: usize = 3;

// A due slot is due again a period from now.
#[tactic(auto, unfolding(words::specs::Saturating::saturating_add))]
fn move_on(x: EverySlot, time: u64) -> EverySlot
    ensures { result ≡ moved time x }
{
    if x.due <= time {
        let due = time.saturating_add(x.period as u64);
        EverySlot { due, ..x }
    } else {
        x
    }
}

// Each due slot of a table is due again a period from now.
// kept: by the rows' places. Tried by `t[1..].chunks_exact_mut(SLOT_WORDS).take(n)`: what the function ensures does not close, since of a slice whose chunks were
// lent nothing is known afterwards but its length.
fn move_all(t: &mut [u32], time: u64)
    requires { Counted 64 slot_row t.old }
    ensures { Holds 64 slot_row t.new (map (moved time) ((most 64 slot_row).get t.old)) }
{
    let n = t[0] as usize;
    for i in 0..n {
        let k = 1 + i * SLOT_WORDS;
        let x = EverySlot::at(t, k);
        move_on(x, time).put(t, k);
    }
}

// A slot joins behind the others.
pub fn join(t: &mut [u32], x: EverySlot)
    requires { Counted 64 slot_row t.old × (get_or t.old 0 0 < 64) }
    ensures { Holds 64 slot_row t.new ((most 64 slot_row).get t.old ++ (x ∷ [])) }
{
    table::push(t, x);
}

impl State {
    // The slots.
    pub fn slots(&self) -> Rows<'_, EverySlot>
        ensures { result ≡ (meaning self.now).rest.every }
    {
        Rows::counted(&self.words, place::SLOTS)
    }

    // Each due slot is due again a period from now.
    pub fn move_slots(&mut self, time: u64)
        ensures { Means self.new (base self.old) (with_rest (with_every (map (moved time) (meaning self.old).rest.every) (meaning self.old).rest) (meaning self.old)) }
    {
        move_all(&mut self.words[place::SLOTS..place::PENDING], time);
    }

    // The due slots, in their order.
    pub fn due_slots(&self, time: u64) -> ArrayVec<EverySlot, 64>
        ensures { result.items ≡ keep (slot_due time) (meaning self.now).rest.every }
    {
        let n = self.words[place::SLOTS] as usize;
        let mut due: ArrayVec<EverySlot, 64> = table_at(&self.words, place::SLOTS + 1, n);
        due.retain(|x| x.due <= time);
        due
    }

    // No slot is left.
    pub fn drop_every(&mut self)
        ensures { Means self.new (base self.old) (with_rest (with_every [] (meaning self.old).rest) (meaning self.old)) }
    {
        clear(&mut self.words, place::SLOTS, place::PENDING - place::SLOTS);
    }
}
