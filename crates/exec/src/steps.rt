// One paid step, by its kind: `exec`.
ghost use Rattle.std.specs.Prelude.{List, ℕ, suc, ◌+◌, ◌≤◌, ◌<◌};
ghost use Rattle.words.specs.Saturating.{max32, max64};
ghost use Rattle.model.specs.declared.Step.TheVariants.{Primitive, Wait, Branch, After, Fail};
ghost use Rattle.state.specs.Meaning.{accepted};
ghost use Rattle.state.specs.Reasons.{reason_number};
ghost use Rattle.exec.specs.Done.{action_done, step_done};
ghost use Rattle.exec.specs.Paid.{Follows, GoesOn, SchedulesOf, StepsAlways, StepsAt, StepsIn};

use crate::actions::perform_at;
use crate::answers::count_failed;
use crate::places::{advance, body_start, enter_then};
use crate::{Env, PrimResult, StepResult};
use eval::conditions::condition_at;
use flat::Placed;
use model::{Point, Step, Unevaluable};
use state::State;
use state::pending::Continuation;
use state::reasons::Reason;

// What an action did, and the run goes on. One that failed is counted.
fn after_prim(v: &mut State, a: PrimResult, to: Point) -> StepResult
    ensures { Follows (action_done v.old a) to (step_done v.new result) }
{
    match count_failed(a, v) {
        Ok(effect) => StepResult {
            effect,
            ..goes_on(to)
        },
        Err(Unevaluable) => StepResult {
            reason: Some(Reason::ConditionUnevaluable),
            ..goes_on(to)
        },
    }
}

// Nothing happens, and the run goes on.
pub fn goes_on(to: Point) -> StepResult
    ensures { (v : List ℕ) → GoesOn v to (step_done v result) }
{
    StepResult {
        effect: None,
        reason: None,
        next: Some(to),
    }
}

pub fn primitive(env: &Env, v: &mut State, here: Placed, i: u32) -> StepResult
    ensures { (b : ℕ) → StepsIn env.now.snapshot.now env.now.image.now env.now.job v.old b here.point (Primitive i) (step_done v.new result) }
{
    let done = perform_at(env, v, i);
    after_prim(v, done, advance(here.point, 0))
}

// A continuation of the job to a point is scheduled, with what is left of the budget: the reason that it notes.
fn schedule(env: &Env, v: &mut State, left: u32, ms: u32, to: Point) -> Option<Reason>
    requires { accepted v.old < max64 }
    ensures { SchedulesOf env.now.snapshot.now env.now.job v.old left ms to v.new (reason_number result) }
{
    let time = world::now_ms(env.snapshot);
    let job = env.job;
    let next = Continuation {
        rule: job.rule,
        trigger: job.trigger,
        number: job.number,
        budget: left,
        ms,
        point: to,
    };
    v.schedule_continuation(time, next)
}

// What follows a wait is scheduled, and the run ends: also where the continuation is dropped.
// kept: that one more can be accepted is asked here, by `schedule`, `run_after` and `exec`. It follows from `Ready`, which is of the whole run: the state and the
// budget left. A struct of the two would be made anew for each step, as the budget falls by one, and the state be lent through it again.
// kept: `left` and `here` stand side by side here, in `run_after` and in `exec`: a struct of them would be made anew for each step, and `schedule` needs the one, and
// `primitive`, `fail` and a dry run the other alone.
#[tactic(auto, unfolding(model::specs::Exec::exec))]
fn run_wait(env: &Env, v: &mut State, left: u32, here: Placed, ms: u32) -> StepResult
    requires { accepted v.old < max64 }
    ensures { StepsAt env.now.snapshot.now env.now.job v.old left here.point (Wait ms) (step_done v.new result) }
{
    let to = advance(here.point, 0);
    let reason = schedule(env, v, left, ms, to);
    StepResult {
        effect: None,
        reason,
        next: None,
    }
}

// The body is scheduled, and the run goes on behind the step: also where the continuation is dropped.
#[tactic(auto, unfolding(model::specs::Exec::exec))]
fn run_after(env: &Env, v: &mut State, left: u32, here: Placed, ms: u32) -> StepResult
    requires { accepted v.old < max64 }
    ensures { StepsAt env.now.snapshot.now env.now.job v.old left here.point (After ms) (step_done v.new result) }
{
    let body = body_start(here);
    let reason = schedule(env, v, left, ms, body);
    let to = advance(here.point, 0);
    StepResult {
        reason,
        ..goes_on(to)
    }
}

// A condition that cannot be evaluated skips both regions.
#[tactic(auto, unfolding(model::specs::Exec::exec, model::specs::Exec::run_branch))]
pub fn run_branch(env: &Env, v: &mut State, sp: Point, c: u32, t: u32, n: u32) -> StepResult
    requires { suc sp.place + (t + n) ≤ max32 }
    ensures { (b : ℕ) → StepsIn env.now.snapshot.now env.now.image.now env.now.job v.old b sp (Branch c t n) (step_done v.new result) }
{
    match condition_at(&env.given(v), c) {
        Some(true) => goes_on(enter_then(sp, t, n)),
        Some(false) => goes_on(advance(sp, t)),
        None => after_prim(v, Err(Unevaluable), advance(sp, t + n)),
    }
}

pub fn fail(v: &mut State, here: Placed) -> StepResult
    ensures { StepsAlways v.old here.point Fail (step_done v.new result) }
{
    after_prim(v, Err(Unevaluable), advance(here.point, 0))
}

#[tactic(auto, unfolding(model::specs::Exec::exec))]
pub fn exec(env: &Env, v: &mut State, left: u32, here: Placed) -> StepResult
    requires { accepted v.old < max64 }
    ensures { StepsIn env.now.snapshot.now env.now.image.now env.now.job v.old left here.point here.step (step_done v.new result) }
{
    match here.step {
        Step::Primitive(i) => primitive(env, v, here, i),
        Step::Wait(ms) => run_wait(env, v, left, here, ms),
        Step::Branch(c, t, n) => run_branch(env, v, here.point, c, t, n),
        Step::After(ms) => run_after(env, v, left, here, ms),
        Step::Fail => fail(v, here),
    }
}
