// A rule starts, with the part of the flat steps that the store has for it.
ghost use Rattle.model.specs.Activate as model;
ghost use Rattle.model.specs.declared.Mode.TheVariants.{Auto};
ghost use Rattle.model.specs.Kinds.{trigger_number};
ghost use Rattle.model.specs.Wheel.{activate_if_enabled};
ghost use Rattle.activate.specs.Carried.{carried_by, Over};
ghost use Rattle.activate.specs.Handled.{Room};
ghost use Rattle.wheel.specs.Given.{env_of};
ghost use Rattle.wheel.specs.Tick.{Fires};

use crate::Rule;
use activate::{Lent, Mode, activate};
use model::TriggerKind;
use store::flat_part::rule_flat;

impl Rule<'_, '_> {
    pub fn activate(&self, lent: &mut Lent, kind: TriggerKind)
        requires { Room 1 (carried_by lent.old) }
        ensures { Over (Fires 1 (model.activate (env_of self.now.env.now) self.now.i (trigger_number kind) Auto)) lent.old lent.new }
    {
        let env = self.env;
        let steps = rule_flat(env.store, self.i);
        activate(
            env.snapshot,
            env.image,
            &steps,
            lent,
            self.i,
            kind,
            Mode::Auto,
        );
    }

    // Whether a rule is enabled is asked when its turn comes.
    pub fn activate_if_enabled(&self, lent: &mut Lent, kind: TriggerKind)
        requires { Room 1 (carried_by lent.old) }
        ensures { Over (Fires 1 (activate_if_enabled (env_of self.now.env.now) (trigger_number kind) self.now.i)) lent.old lent.new }
    {
        if lent.state.is_enabled(self.i as usize) {
            self.activate(lent, kind);
        }
    }
}
