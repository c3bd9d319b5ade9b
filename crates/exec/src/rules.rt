// The bits of rules. Who disables a rule also strikes its continuations.
ghost use Rattle.model.specs.Rules.{rule_named};
ghost use Rattle.exec.specs.Done.{action_done};
ghost use Rattle.exec.specs.Results.{SetsBit};

use crate::{Env, PrimResult};
use model::Unevaluable;
use state::State;

pub fn set_rule_bit(env: &Env, v: &mut State, rule: u32, on: bool) -> PrimResult
    ensures { SetsBit env.now.job v.old rule on (rule_named env.now.image.now rule) (action_done v.new result) }
{
    let i = env.image.rule_named(rule).ok_or(Unevaluable)?;
    if !env.job.dry {
        v.set_enabled(rule, i as usize, on);
    }
    Ok(None)
}
