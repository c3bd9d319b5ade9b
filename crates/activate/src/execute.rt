// An activation that begins: `execute`. What a wet run and a resumption share is here too.
ghost use Rattle.std.specs.Prelude.{◌≡◌, true, ◌+◌, ◌≤◌, ◌<◌};
ghost use Rattle.words.specs.Saturating.{max64};
ghost use Rattle.image.specs.Accepted.{Accepted};
ghost use Rattle.state.specs.Meaning.{meaning};
ghost use Rattle.state.specs.Reasons.{reason_number};
ghost use Rattle.activate.specs.Carried.{carried_by, Over};
ghost use Rattle.activate.specs.Handled.{Room};
ghost use Rattle.activate.specs.Executes.{RunRoom, Starts, FinishesWet, RunsWet, RunsDry, Executes};

use crate::Lent;
use counters::Counter;
use exec::dry::run_steps_dry;
use exec::runs::run_steps;
use exec::{Env, Job};
use flat::FlatRule;
use model::Point;
use state::State;
use state::reasons::Reason;

// Where a rule's own list begins.
const START: Point = Point {
    list: 0,
    place: 0,
    jump: None,
};

// A wet activation is counted, its time is kept before its steps run, and it takes the next number: its job under that.
fn start(snapshot: &[u32], v: &mut State, job: Job) -> Job
    requires { (meaning v.old).last_number < max64 + max64 }
    ensures { Starts snapshot.now job v.old v.new result }
{
    let time = world::now_ms(snapshot);
    v.bump(Counter::ActivationsTotal, 1);
    v.set_last_activation(job.index as usize, Some(time));
    let number = v.take_number();
    Job { number, ..job }
}

// A wet run had so many effects, and this reason.
fn finish_wet(v: &mut State, effects: u32, reason: Option<Reason>)
    ensures { FinishesWet v.old effects (reason_number reason) v.new }
{
    v.bump(Counter::EffectsEmitted, effects);
    if reason.is_some() {
        v.bump(Counter::PartialOutcomes, 1);
    }
}

// A run from a point on, with a budget, and its outcome.
// kept: env, rule and lent side by side, here, in `run_dry` and in `execute`: the env and the rule are read and the lent is changed, and `execute` makes an `Env` anew, with
// the number that its job takes, so that a struct of the three would be made twice on the way of one activation.
pub fn run_wet(env: &Env, rule: &FlatRule, lent: &mut Lent, from: Point, most: u32)
    requires { (most ≤ 256) × RunRoom (carried_by lent.old) }
    ensures { Over (RunsWet env.now.snapshot.now env.now.image.now rule.now.part.now rule.now.own env.now.job from most) lent.old lent.new }
{
    let begun = lent.handled.effects;
    let run = run_steps(env, rule, lent.effects, lent.state, from, most, begun);
    finish_wet(lent.state, run.count - begun, run.reason);
    lent.push_outcome(env.job, run.reason, run.count);
}

// A dry run of the whole rule, and its outcome.
fn run_dry(env: &Env, rule: &FlatRule, lent: &mut Lent)
    requires { Accepted env.now.image.now × (env.now.job.dry ≡ true) × Room 1 (carried_by lent.old) }
    ensures { Over (RunsDry env.now.snapshot.now env.now.image.now rule.now.part.now rule.now.own env.now.job) lent.old lent.new }
{
    let begun = lent.handled.effects;
    let most = env.image.budget();
    let run = run_steps_dry(env, rule, lent.effects, lent.state, START, most, begun);
    lent.push_outcome(env.job, run.reason, run.count);
}

// kept: that the image is accepted is asked here, by `run_dry` and by `activate`, since it bounds the budget; `resume`, which takes the budget of its
// `Pending`, makes an Env of any image.
// kept: `Room 1` is asked here, by `run_dry`, `activate` and `resume`, and is no fact of a `Lent`: it is what one activation uses up, so that what was lent no longer has it
// behind the call. The wheel asks for `Room n` where n of them may start.
pub fn execute(env: &Env, rule: &FlatRule, lent: &mut Lent)
    requires { Accepted env.now.image.now × Room 1 (carried_by lent.old) }
    ensures { Over (Executes env.now.snapshot.now env.now.image.now rule.now.part.now rule.now.own env.now.job) lent.old lent.new }
{
    if env.job.dry {
        lent.state.bump(Counter::ActivationsDry, 1);
        return run_dry(env, rule, lent);
    }
    let job = start(env.snapshot, lent.state, env.job);
    let begun = Env { job, ..*env };
    let most = env.image.budget();
    run_wet(&begun, rule, lent, START, most);
}
