// The conditions on what the store keeps: rules, timers and variables.
ghost use Rattle.std.specs.Prelude.{◌≡◌, Some};
ghost use Rattle.model.specs.declared.Condition.TheVariants as condition;
ghost use Rattle.eval.specs.Equals.{Evaluates};

use crate::Env;
use crate::compare::{compare_i64, compare_text};
use crate::values::value_at;
use model::{Cmp, VarOperand, VarValue};

// False for a rule that is not loaded.
#[tactic(auto, unfolding(model::specs::Eval::eval_condition))]
pub fn rule_enabled(env: &Env, rule: u32) -> bool
    ensures { Evaluates env.now (condition.RuleEnabled rule) (Some result) }
{
    let place = env.image.rule_named(rule);
    place.is_some_and(|i| env.state.is_enabled(i as usize))
}

// True for a rule that is not loaded, and for one that never fired.
// kept: no `is_none_or`, as it would be no plainer: the ways out are the equations of `last_fired_older`, line for line.
#[tactic(auto, unfolding(words::specs::Saturating::saturating_sub, model::specs::Eval::last_fired_older, model::specs::Eval::eval_condition))]
pub fn last_fired_older_than(env: &Env, rule: u32, ms: u32) -> bool
    ensures { Evaluates env.now (condition.LastFiredOlderThan rule ms) (Some result) }
{
    let Some(i) = env.image.rule_named(rule) else {
        return true;
    };
    let Some(at) = env.state.last_activation(i as usize) else {
        return true;
    };
    u64::from(ms) < world::now_ms(env.snapshot).saturating_sub(at)
}

#[tactic(auto, unfolding(model::specs::Eval::eval_condition))]
pub fn timer_running(env: &Env, timer: u32) -> bool
    ensures { Evaluates env.now (condition.TimerRunning timer) (Some result) }
{
    env.state.has_timer(timer)
}

// An integer is compared with a value, a text with a text. Any other pairing differs, and so does a variable that is not there.
#[tactic(auto, unfolding(model::specs::Eval::eval_condition))]
pub fn compare_var(env: &Env, name: u32, cmp: Option<Cmp>, operand: VarOperand) -> Option<bool>
    ensures { Evaluates env.now (condition.VarCompare name cmp operand) result }
{
    match (env.state.variable(name), operand) {
        (Some(VarValue::Int(n)), VarOperand::Value(i)) => {
            let right = value_at(env, i)?;
            Some(compare_i64(cmp, n.cast_signed(), right))
        }
        (Some(VarValue::Text(held)), VarOperand::Text(text)) => Some(compare_text(cmp, held, text)),
        _ => Some(matches!(cmp, Some(Cmp::Ne))),
    }
}
