// The continuations that are due: all of them leave before the first goes on, also where an earlier one disables its rule. They are named by their
// indices, and each is read when its turn comes, from the store, which has the records as they stood before the tick (document 02, request 3).
ghost use Rattle.std.specs.Prelude.{◌≡◌, true, ◌≤◌, length};
ghost use Rattle.model.specs.Activate as model;
ghost use Rattle.model.specs.Lists.{all};
ghost use Rattle.model.specs.Wheel.{resume_all, fire_continuations};
ghost use Rattle.state.specs.Meaning.{meaning, stored_count, pending_count};
ghost use Rattle.activate.specs.Carried.{carried_by, Over};
ghost use Rattle.activate.specs.Handled.{Room};
ghost use Rattle.wheel.specs.Given.{env_of};
ghost use Rattle.wheel.specs.Tick.{HasRecords, Fires, fits_set, are_indices, records_in};

use crate::Env;
use activate::{Lent, resume};
use model::Pending;
use store::flat_part::rule_flat;
use store::volatile::pending_record;

impl Env<'_> {
    // One goes on. Its rule is loaded.
    fn resume_one(&self, lent: &mut Lent, c: Pending)
        requires fits { fits_set self.now.image.now c ≡ true }
        requires room { Room 1 (carried_by lent.old) }
        ensures { Over (Fires 1 (model.resume (env_of self.now) c)) lent.old lent.new }
    {
        if let Some(i) = self.image.rule_named(c.rule) {
            let steps = rule_flat(self.store, i);
            resume(self.snapshot, self.image, &steps, lent, i, c);
        }
    }

    // Those at some indices of the store's records go on, one after the other.
    fn resume_all(&self, lent: &mut Lent, due: &[usize])
        requires records { (length due.now ≤ 32) × (are_indices due.now ≡ true) × (all (fits_set self.now.image.now) (records_in self.now.store.now due.now) ≡ true) }
        requires room { Room 32 (carried_by lent.old) }
        ensures { Over (Fires 32 (resume_all (env_of self.now) (records_in self.now.store.now due.now))) lent.old lent.new }
    {
        for i in due {
            let c = pending_record(self.store, *i);
            self.resume_one(lent, c);
        }
    }

    // kept: `fire_timers` and `fire_every` have this shape and share no call. What is due are indices, timers or slots, each found, dropped and started by functions of
    // its own: one function for the three needs a trait with three functions and three impls of it, and each of these is four lines.
    pub fn fire_continuations(&self, lent: &mut Lent)
        requires records { (all (fits_set self.now.image.now) (meaning lent.old.state.now).pending ≡ true) × HasRecords self.now.store.now lent.old.state.now }
        requires v_value { (stored_count lent.old.state.now ≡ pending_count lent.old.state.now) × Room 32 (carried_by lent.old) }
        ensures { Over (Fires 32 (fire_continuations (env_of self.now))) lent.old lent.new }
    {
        let time = world::now_ms(self.snapshot);
        let due = lent.state.due_now(time);
        lent.state.without_due_continuations(time);
        self.resume_all(lent, due.as_slice());
    }
}
