// Timers. A dry run changes none, and does not notice that 16 run.
ghost use Rattle.std.specs.Prelude.{List, ℕ};
ghost use Rattle.model.specs.declared.Action.TheVariants.{TimerStart, TimerRestart, TimerCancel};
ghost use Rattle.exec.specs.Done.{action_done};
ghost use Rattle.exec.specs.Results.{Performs, PerformsIn, Arms};

use crate::{Env, PrimResult};
use model::Unevaluable;
use state::State;

#[tactic(auto, unfolding(model::specs::Actions::arm_timer))]
fn arm_timer(env: &Env, v: &mut State, name: u32, ms: u32) -> PrimResult
    ensures { Arms env.now.snapshot.now env.now.job v.old name ms (action_done v.new result) }
{
    if env.job.dry {
        return Ok(None);
    }
    let due = world::now_ms(env.snapshot).saturating_add(u64::from(ms));
    if !v.try_arm_timer(name, due) {
        return Err(Unevaluable);
    }
    Ok(None)
}

#[tactic(auto, unfolding(model::specs::Actions::run_prim))]
pub fn timer_start(env: &Env, v: &mut State, timer: u32, ms: u32) -> PrimResult
    ensures { (image : List ℕ) → PerformsIn env.now.snapshot.now image env.now.job v.old (TimerStart timer ms) (action_done v.new result) }
{
    if v.has_timer(timer) {
        return Ok(None);
    }
    arm_timer(env, v, timer, ms)
}

#[tactic(auto, unfolding(model::specs::Actions::run_prim, model::specs::Actions::arm_timer))]
pub fn timer_restart(env: &Env, v: &mut State, timer: u32, ms: u32) -> PrimResult
    ensures { (image : List ℕ) → PerformsIn env.now.snapshot.now image env.now.job v.old (TimerRestart timer ms) (action_done v.new result) }
{
    if env.job.dry {
        return Ok(None);
    }
    v.cancel_timer(timer);
    arm_timer(env, v, timer, ms)
}

#[tactic(auto, unfolding(model::specs::Actions::run_prim))]
pub fn timer_cancel(env: &Env, v: &mut State, timer: u32) -> PrimResult
    ensures { Performs env.now.job v.old (TimerCancel timer) (action_done v.new result) }
{
    if !env.job.dry {
        v.cancel_timer(timer);
    }
    Ok(None)
}
