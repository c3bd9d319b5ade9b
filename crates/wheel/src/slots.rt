// The Every slots that are due: each is due again a period from now, and then their rules start.
ghost use Rattle.std.specs.Prelude.{◌≤◌, length};
ghost use Rattle.model.specs.Wheel.{by_every, activate_each, fire_every};
ghost use Rattle.activate.specs.Carried.{carried_by, Over};
ghost use Rattle.activate.specs.Handled.{Room};
ghost use Rattle.wheel.specs.Given.{env_of};
ghost use Rattle.wheel.specs.Tick.{Fires, rules_of_slot, rules_of_slots};

use crate::{Env, Rule};
use activate::Lent;
use model::{EverySlot, TriggerKind};

impl Env<'_> {
    fn fire_slot(&self, lent: &mut Lent, slot: EverySlot)
        requires { Room 1 (carried_by lent.old) }
        ensures { Over (Fires 1 (activate_each (env_of self.now) by_every (rules_of_slot self.now.image.now slot))) lent.old lent.new }
    {
        if let Some(i) = self.image.rule_named(slot.rule) {
            let rule = Rule { env: self, i };
            rule.activate_if_enabled(lent, TriggerKind::Every);
        }
    }

    fn fire_slots(&self, lent: &mut Lent, due: &[EverySlot])
        requires few { length due.now ≤ 64 }
        requires room { Room 64 (carried_by lent.old) }
        ensures { Over (Fires 64 (activate_each (env_of self.now) by_every (rules_of_slots self.now.image.now due.now))) lent.old lent.new }
    {
        for slot in due {
            self.fire_slot(lent, *slot);
        }
    }

    // kept: see `fire_continuations`.
    pub fn fire_every(&self, lent: &mut Lent)
        requires { Room 64 (carried_by lent.old) }
        ensures { Over (Fires 64 (fire_every (env_of self.now))) lent.old lent.new }
    {
        let time = world::now_ms(self.snapshot);
        let due = lent.state.due_slots(time);
        lent.state.move_slots(time);
        self.fire_slots(lent, due.as_slice());
    }
}
