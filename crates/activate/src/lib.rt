// One activation and one resumption: activate.rs, and `resume` of wheel.rs. Outcomes and effects go into words that the caller
// lends; where there is no room they are counted, and no word is written: the C interface answers with the counts.
#![tactic(auto)]

mod decide;
mod execute;
mod outcomes;

ghost use Rattle.std.specs.Prelude.{◌≡◌, ◌≤◌, ◌<◌};
ghost use Rattle.std.specs.Prelude.{Some};
ghost use Rattle.model.specs.Kinds.{trigger_number};
ghost use Rattle.model.specs.Rules.{name_of, rule_named, hold_hcl_of};
ghost use Rattle.image.specs.Accepted.{Accepted};
ghost use Rattle.activate.specs.Carried.{carried_by, Over};
ghost use Rattle.activate.specs.Handled.{Room, Activates, Resumes};

use crate::decide::Decision;
use counters::Counter;
use exec::{Env, Job};
use flat::FlatRule;
use image::layout::Image;
pub use model::Mode;
use model::{Pending, TriggerKind};
use state::State;
use state::reasons::Reason;

// What activations and resumptions did so far: how many outcomes and effects are written, or would be.
#[derive(Clone, Copy)]
pub struct Handled {
    pub outcomes: u32,
    pub effects: u32,
}

// Nothing is done yet.
pub const NOTHING: Handled = Handled {
    outcomes: 0,
    effects: 0,
};

// What a call lends for it: the words of the outcomes and of the effects, and the state; and what was done so far.
#[derive(Drop)]
pub struct Lent<'a> {
    pub outcomes: &'a mut [u32],
    pub effects: &'a mut [u32],
    pub state: &'a mut State,
    pub handled: Handled,
}

// The words of an outcome in a lent store.
pub const OUTCOME_WORDS: usize = 8;

// Rule i of the image, under an activation number.
// kept: the trigger is a number: `resume` has the one of its `Pending`, the record that the specification shares, and a `TriggerKind` made of it would be a number
// again in the outcome. The four parameters beside the image are the fields of the `Job`, but for the two that are read here.
fn job_of(image: &Image, i: u32, trigger: u32, dry: bool, number: u64) -> Job
    ensures { result ≡ record { rule = name_of image.now i; index = i; hold = hold_hcl_of image.now i; trigger = trigger; dry = dry; number = number } }
{
    Job {
        rule: image.name_of(i),
        index: i,
        hold: image.hold_hcl_of(i),
        trigger,
        dry,
        number,
    }
}

// Rule i, by a trigger kind of an outcome, with its part of the flat steps.
// kept: snapshot, image, rule and i side by side, here and in the two below: a struct of them would be made by each of the three callers, wheel's two and engine's, for this
// one call, and be taken apart there for the `Env`. That is written out in both: a function of the two would take the six fields that differ.
pub fn activate(
    snapshot: &[u32],
    image: &Image,
    rule: &FlatRule,
    lent: &mut Lent,
    i: u32,
    kind: TriggerKind,
    mode: Mode,
)
    requires accepted { Accepted image.now }
    requires room { Room 1 (carried_by lent.old) }
    ensures { Over (Activates snapshot.now image.now rule.now.part.now rule.now.own i (trigger_number kind) mode) lent.old lent.new }
{
    activate_by_number(snapshot, image, rule, lent, i, u32::from(kind), mode);
}

// The same by the number of a trigger kind. It may be any number: the outcome has it as it is.
pub fn activate_by_number(
    snapshot: &[u32],
    image: &Image,
    rule: &FlatRule,
    lent: &mut Lent,
    i: u32,
    kind: u32,
    mode: Mode,
)
    requires accepted { Accepted image.now }
    requires room { Room 1 (carried_by lent.old) }
    ensures { Over (Activates snapshot.now image.now rule.now.part.now rule.now.own i kind mode) lent.old lent.new }
{
    let dry = mode.is_dry();
    let job = job_of(image, i, kind, dry, 0);
    let env = Env {
        snapshot,
        image,
        job,
    };
    match decide::decide(&env, lent.state, mode) {
        Decision::Begins => execute::execute(&env, rule, lent),
        Decision::InCooldown => lent.state.bump(Counter::SuppressedCooldown, 1),
        Decision::Rejected => lent.state.bump(Counter::ConditionsRejected, 1),
        Decision::Unevaluable => {
            if !dry {
                lent.state.bump(Counter::PartialOutcomes, 1);
            }
            let effects = lent.handled.effects;
            // kept: by the number: must-fail/reason_3.edit gives another one here, which a fact refuses.
            lent.push_by_number(job, Reason::ConditionUnevaluable as u32, effects);
        }
    }
}

// A continuation of rule i goes on where it stood, under its own number.
pub fn resume(snapshot: &[u32], image: &Image, rule: &FlatRule, lent: &mut Lent, i: u32, c: Pending)
    requires named { rule_named image.now c.rule ≡ Some i }
    requires budget_bound { (c.budget ≤ 256) × Room 1 (carried_by lent.old) }
    ensures { Over (Resumes snapshot.now image.now rule.now.part.now rule.now.own i c) lent.old lent.new }
{
    let job = job_of(image, i, c.trigger, false, c.number);
    let env = Env {
        snapshot,
        image,
        job,
    };
    lent.state.bump(Counter::ContinuationsFired, 1);
    execute::run_wet(&env, rule, lent, c.point, c.budget);
}
