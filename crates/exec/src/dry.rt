// `run_steps`, dry: a wait waits for nothing, and an after's body goes behind all that is queued. Continuations are not touched.
ghost use Rattle.std.specs.Prelude.{◌≡◌, true, ◌<◌, ◌≤◌, ◌+◌, length};
ghost use Rattle.exec.specs.Done.{step_done, run_done};
ghost use Rattle.exec.specs.DryRuns.{DryStepsIn, queued, Queues, Moves, DryReady, RunsDry};

use crate::bodies::Bodies;
use crate::places::advance;
use crate::runs::{note_partial, take_step, unpaid};
use crate::{Env, RunResult, StepResult, steps};
use flat::{FlatRule, Placed};
use model::{Point, Step};
use state::State;

// kept: beside `exec`, whose three other arms are its calls too. One match of both would answer by two definitions of the specification, `exec` and `dry_step`, and
// ask of a dry run that one more continuation can be accepted, which `DryReady` does not say.
// kept: that the job is dry is asked here, by `run_steps_dry` and by activate's `run_dry`: a type for a dry job would be made for the one call of `run_dry`, and be opened for the outcome.
fn exec_dry(env: &Env, v: &mut State, here: Placed) -> StepResult
    requires { env.now.job.dry ≡ true }
    ensures { DryStepsIn env.now.snapshot.now env.now.image.now env.now.job v.old here.point here.step (step_done v.new result) }
{
    match here.step {
        Step::Primitive(i) => steps::primitive(env, v, here, i),
        Step::Wait(_) | Step::After(_) => steps::goes_on(advance(here.point, 0)),
        Step::Branch(c, t, n) => steps::run_branch(env, v, here.point, c, t, n),
        Step::Fail => steps::fail(v, here),
    }
}

// The body of an after goes behind all that is queued.
fn queue_body(bodies: &mut Bodies, here: Placed)
    requires { length bodies.old.lists.items < 256 }
    ensures queues { Queues (queued bodies.old) here.point here.step (queued bodies.new) }
    ensures most { length bodies.new.lists.items ≤ length bodies.old.lists.items + 1 }
{
    if let Step::After(_) = here.step {
        bodies.lists.push(here.point.place + 1);
    }
}

// Where a list is at its end, the next body that has a step is begun.
// kept: the loop counts nothing, it takes the oldest list until one has a step: no iterator gives that, since what is left stays queued.
fn next_step(rule: &FlatRule, from: Point, bodies: &mut Bodies) -> Option<Placed>
    ensures moves { Moves rule.now.part.now rule.now.own from (queued bodies.old) (queued bodies.new) result }
    ensures same { bodies.new.lists ≡ bodies.old.lists }
{
    let mut point = from;
    loop {
        if let Some(here) = rule.step_at(point) {
            return Some(here);
        }
        let list = bodies.pop()?;
        point = Point {
            list,
            place: 0,
            jump: None,
        };
    }
}

// A run of a rule from a point on, with a budget and no body queued yet.
pub fn run_steps_dry(
    env: &Env,
    rule: &FlatRule,
    effects: &mut [u32],
    v: &mut State,
    from: Point,
    budget: u32,
    count: u32,
) -> RunResult
    requires dry { env.now.job.dry ≡ true }
    requires dry_ready { DryReady v.old budget count }
    ensures { RunsDry env.now.snapshot.now env.now.image.now rule.now.part.now rule.now.own env.now.job v.old from budget count effects.old (run_done v.new result) effects.new }
{
    let mut run = RunResult {
        reason: None,
        count,
    };
    let mut point = from;
    let mut bodies = Bodies::new();
    for _ in 0..budget {
        let Some(here) = next_step(rule, point, &mut bodies) else {
            return run;
        };
        let d = exec_dry(env, v, here);
        run = take_step(run, effects, d);
        queue_body(&mut bodies, here);
        point = d.next.unwrap_or(here.point);
    }
    let left = next_step(rule, point, &mut bodies);
    run.reason = note_partial(run.reason, unpaid(left));
    run
}
