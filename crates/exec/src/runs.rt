// `run_steps`: a run of a rule from a point on, with a budget.
ghost use Rattle.std.specs.Prelude.{◌≡◌, ◌<◌};
ghost use Rattle.words.specs.Saturating.{max32};
ghost use Rattle.model.specs.Exec.{first_reason};
ghost use Rattle.state.specs.Reasons.{reason_number};
ghost use Rattle.exec.specs.Done.{run_done};
ghost use Rattle.exec.specs.Runs.{unpaid_of, Taken, Ready, Runs};

use crate::effects::put_effect;
use crate::steps::exec;
use crate::{Env, RunResult, StepResult};
use flat::FlatRule;
use model::Point;
use state::State;
use state::reasons::Reason;

// The first reason stays. By its number, 0 for none: also of numbers that no reason has.
pub fn first_reason(a: u32, b: u32) -> u32
    ensures { result ≡ first_reason a b }
{
    if a == 0 { b } else { a }
}

// The first reason stays.
pub fn note_partial(a: Option<Reason>, b: Option<Reason>) -> Option<Reason>
    ensures { reason_number result ≡ first_reason (reason_number a) (reason_number b) }
{
    a.or(b)
}

// Where a step is left and no budget for it, the reason is `EffectBudget`.
pub fn unpaid<T: Drop>(left: Option<T>) -> Option<Reason>
    ensures { reason_number result ≡ unpaid_of left }
{
    left.and(Some(Reason::EffectBudget))
}

// What a paid step did is taken over, and its effect written.
pub fn take_step(run: RunResult, effects: &mut [u32], d: StepResult) -> RunResult
    requires { run.count < max32 }
    ensures { Taken run effects.old d result effects.new }
{
    let reason = note_partial(run.reason, d.reason);
    let count = put_effect(effects, run.count, d.effect);
    RunResult { reason, count }
}

pub fn run_steps(
    env: &Env,
    rule: &FlatRule,
    effects: &mut [u32],
    v: &mut State,
    from: Point,
    budget: u32,
    count: u32,
) -> RunResult
    requires { Ready v.old budget count }
    ensures { Runs env.now.snapshot.now env.now.image.now rule.now.part.now rule.now.own env.now.job v.old from budget count effects.old (run_done v.new result) effects.new }
{
    let mut run = RunResult {
        reason: None,
        count,
    };
    let mut point = from;
    for left in (0..budget).rev() {
        let Some(here) = rule.step_at(point) else {
            return run;
        };
        let d = exec(env, v, left, here);
        run = take_step(run, effects, d);
        let Some(next) = d.next else {
            return run;
        };
        point = next;
    }
    run.reason = note_partial(run.reason, unpaid(rule.step_at(point)));
    run
}
