// The timers that are due: all of them leave, and then each starts the rules that have it as a trigger, in the order of their names.
ghost use Rattle.std.specs.Prelude.{◌≡◌, [], ◌∷◌, ◌≤◌, length};
ghost use Rattle.model.specs.Lists.{any, keep};
ghost use Rattle.model.specs.Rules.{triggers_of};
ghost use Rattle.model.specs.Wheel.{by_timer, fires_on, activate_each, rules_on_timer, fire_timers};
ghost use Rattle.activate.specs.Carried.{carried_by, Over};
ghost use Rattle.activate.specs.Handled.{Room};
ghost use Rattle.wheel.specs.Given.{env_of};
ghost use Rattle.wheel.specs.Tick.{Fires, on_timer, rules_of_timers};

use crate::{Env, Rule};
use activate::Lent;
use model::{NamedTimer, Trigger, TriggerKind};

fn is_timer(trigger: Trigger, timer: u32) -> bool
    ensures { result ≡ fires_on timer trigger }
{
    matches!(trigger, Trigger::TimerFires { timer: name } if name == timer)
}

impl Rule<'_, '_> {
    // A trigger of the rule is this timer.
    fn fires_on(&self, timer: u32) -> bool
        ensures { result ≡ any (fires_on timer) (triggers_of self.now.env.now.image.now self.now.i) }
    {
        let mut triggers = self.env.image.triggers(self.i);
        triggers.any(|trigger| is_timer(trigger, timer))
    }

    // The rule, where it has the timer as a trigger.
    fn fire_on_timer(&self, lent: &mut Lent, timer: u32)
        requires { Room 1 (carried_by lent.old) }
        ensures { Over (Fires 1 (activate_each (env_of self.now.env.now) by_timer (keep (on_timer self.now.env.now.image.now timer) (self.now.i ∷ [])))) lent.old lent.new }
    {
        if self.fires_on(timer) {
            self.activate_if_enabled(lent, TriggerKind::TimerFires);
        }
    }
}

impl Env<'_> {
    fn fire_one_timer(&self, lent: &mut Lent, timer: u32)
        requires { Room 64 (carried_by lent.old) }
        ensures { Over (Fires 64 (activate_each (env_of self.now) by_timer (rules_on_timer self.now.image.now timer))) lent.old lent.new }
    {
        for i in self.order {
            let rule = Rule { env: self, i: *i };
            rule.fire_on_timer(lent, timer);
        }
    }

    fn fire_due_timers(&self, lent: &mut Lent, due: &[NamedTimer])
        requires few { length due.now ≤ 16 }
        requires room { Room 1024 (carried_by lent.old) }
        ensures { Over (Fires 1024 (activate_each (env_of self.now) by_timer (rules_of_timers self.now.image.now due.now))) lent.old lent.new }
    {
        for t in due {
            self.fire_one_timer(lent, t.name);
        }
    }

    // kept: see `fire_continuations`.
    pub fn fire_timers(&self, lent: &mut Lent)
        requires { Room 1024 (carried_by lent.old) }
        ensures { Over (Fires 1024 (fire_timers (env_of self.now))) lent.old lent.new }
    {
        let time = world::now_ms(self.snapshot);
        let due = lent.state.due_timers(time);
        lent.state.without_due_timers(time);
        self.fire_due_timers(lent, due.as_slice());
    }
}
