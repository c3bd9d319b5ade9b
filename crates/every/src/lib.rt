// The Every slots of a set: `rebuild_every` of wheel.rs.
#![tactic(auto)]

ghost use Rattle.std.specs.Prelude.{◌≡◌, true, [], ◌∷◌};
ghost use Rattle.model.specs.Parts.{slot_row};
ghost use Rattle.model.specs.Image.{few_enough};
ghost use Rattle.model.specs.Rules.{name_of, triggers_of};
ghost use Rattle.model.specs.Slots.{slots_from, rebuild_every};
ghost use Rattle.model.specs.State.{with_rest, with_every};
ghost use Rattle.model.specs.Store.{same_slots};
ghost use Rattle.model.specs.declared.Trigger.TheVariants.{Every};
ghost use Rattle.state.specs.Meaning.{Means, Holds, meaning, base};
ghost use Rattle.every.specs.Joined.{HasRoomFor, Joined};

pub mod kept;

use image::layout::Image;
use kept::{Key, Slots, due_of, same};
use model::{EverySlot, Trigger};
use state::State;
use state::place::{PENDING, SLOTS};

// What slots are built from: an image of at most as many as there is room for, the slots before it, and the time. All of it is read; the table that the slots join
// is written, so it stands beside.
#[derive(Clone, Copy)]
struct Rebuild<'a> {
    image: &'a Image<'a>,
    old: &'a Slots<'a>,
    time: u64,

    ghost few: { few_enough image.now ≡ true },
}

impl Rebuild<'_> {
    // The slot of an Every trigger.
    #[tactic(auto, unfolding(model::specs::Slots::slots_from, words::specs::Saturating::saturating_add))]
    fn slot_of(&self, key: Key) -> EverySlot
        ensures { slots_from self.now.old.now self.now.time key.rule key.place (Every key.period ∷ []) ≡ result ∷ [] }
    {
        let fresh = self.time.saturating_add(key.period as u64);
        let due = due_of(self.old, key, fresh);
        EverySlot {
            rule: key.rule,
            place: key.place,
            period: key.period,
            due,
        }
    }

    // The slot of a trigger, if it is an Every, joins the table t.
    #[tactic(auto, using(crate::proofs::Slots::adds_none))]
    fn join_slot(&self, rule: u32, place: u32, trigger: Trigger, t: &mut [u32])
        requires { HasRoomFor t.old (slots_from self.now.old.now self.now.time rule place (trigger ∷ [])) }
        ensures { Joined t.old (slots_from self.now.old.now self.now.time rule place (trigger ∷ [])) t.new }
    {
        if let Trigger::Every { period_ms } = trigger {
            let key = Key {
                rule,
                place,
                period: period_ms,
            };
            state::slots::join(t, self.slot_of(key));
        }
    }

    // The slots of rule i join the table t.
    fn join_rule(&self, i: u32, t: &mut [u32])
        requires { HasRoomFor t.old (slots_from self.now.old.now self.now.time (name_of self.now.image.now i) 0 (triggers_of self.now.image.now i)) }
        ensures { Joined t.old (slots_from self.now.old.now self.now.time (name_of self.now.image.now i) 0 (triggers_of self.now.image.now i)) t.new }
    {
        let rule = self.image.name_of(i);
        for (place, trigger) in (0..).zip(self.image.triggers(i)) {
            self.join_slot(rule, place, trigger, t);
        }
    }

    // The slots of the rules, by name and then by place, join the empty table t: one of the old slots keeps its due time.
    fn join_all(&self, t: &mut [u32])
        requires { Holds 64 slot_row t.old [] }
        ensures { Holds 64 slot_row t.new (rebuild_every self.now.image.now self.now.old.now self.now.time) }
    {
        let order = self.image.name_order();
        for i in order.as_slice() {
            self.join_rule(*i, t);
        }
    }
}

// The slots of a state become those of an image's rules: one of the old slots keeps its due time.
pub fn rebuild_every(image: &Image, old: &Slots, time: u64, v: &mut State)
    requires { few_enough image.now ≡ true }
    ensures { Means v.new (base v.old) (with_rest (with_every (rebuild_every image.now old.now time) (meaning v.old).rest) (meaning v.old)) }
{
    v.drop_every();
    Rebuild { image, old, time }.join_all(&mut v.words[SLOTS..PENDING]);
}

// Whether these slots are those of an image's rules, by name and then by place, whatever their due times.
pub fn same_slots(slots: &Slots, image: &Image) -> bool
    requires { few_enough image.now ≡ true }
    ensures { result ≡ same_slots slots.now (rebuild_every image.now [] 0) }
{
    let mut rebuilt = [0u32; PENDING - SLOTS];
    let none = Slots::new(&[], 0, 0);
    Rebuild {
        image,
        old: &none,
        time: 0,
    }
    .join_all(&mut rebuilt);
    same(slots, &Slots::counted(&rebuilt, 0))
}
