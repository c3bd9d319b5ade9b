// Every slots where words keep them: the slot of a key, and two lists of slots compared.
ghost use Rattle.std.specs.Prelude.{◌≡◌};
ghost use Rattle.model.specs.Lists.{find};
ghost use Rattle.model.specs.Slots.{same_slot, due_or};
ghost use Rattle.model.specs.Store.{same_slots};

use model::EverySlot;
use rows::tables::Rows;

pub type Slots<'a> = Rows<'a, EverySlot>;

// What a slot is known by, whatever its due time.
#[derive(Clone, Copy, PartialEq, Eq)]
pub struct Key {
    pub rule: u32,
    pub place: u32,
    pub period: u32,
}

impl From<EverySlot> for Key {
    ghost from_gives = { λ x key. key ≡ record { rule = x.rule; place = x.place; period = x.period } };

    fn from(x: EverySlot) -> Key {
        Key {
            rule: x.rule,
            place: x.place,
            period: x.period,
        }
    }
}

impl Key {
    // Whether a slot is the one known by this.
    pub fn is_of(self, x: EverySlot) -> bool
        ensures { result ≡ same_slot self.rule self.place self.period x }
    {
        Key::from(x) == self
    }
}

// When the slot of a key is due: as one of these, even overdue, else at `fresh`.
pub fn due_of(slots: &Slots, key: Key, fresh: u64) -> u64
    ensures { result ≡ due_or fresh (find (same_slot key.rule key.place key.period) slots.now) }
{
    slots
        .iter()
        .find(|x| key.is_of(*x))
        .map_or(fresh, |x| x.due)
}

// Whether these are the others, whatever their due times.
// kept: no `==`, since two lists that differ in a due time are not equal.
pub fn same(slots: &Slots, others: &Slots) -> bool
    ensures { result ≡ same_slots slots.now others.now }
{
    slots.len() == others.len()
        && slots
            .iter()
            .zip(others.iter())
            .all(|(x, y)| Key::from(y).is_of(x))
}
