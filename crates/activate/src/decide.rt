// Whether a rule starts now: the part of `activate` in front of `execute`.
ghost use Rattle.state.specs.Meaning.{meaning};
ghost use Rattle.activate.specs.Decisions.{InCooldownIs, Decides};

use crate::Mode;
use eval::conditions::conditions_hold;
use exec::Env;
use state::State;

// kept: four ways to go on, of which three count something of their own; a Result with three errors would be matched in the same four arms.
#[derive(Clone, Copy)]
pub enum Decision {
    Begins,
    InCooldown,
    Rejected,
    Unevaluable,
}

// kept: no `is_some_and`, as it would be no plainer: the two ways out are the two equations of `within`, line for line, and the check finds both (tried: with a closure it does not).
#[tactic(auto, unfolding(model::specs::Activate::in_cooldown, words::specs::Saturating::saturating_sub))]
fn in_cooldown(env: &eval::Env, i: u32) -> bool
    ensures { InCooldownIs env.now.snapshot.now env.now.image.now i (meaning env.now.state.now).rest result }
{
    let Some(last) = env.state.last_activation(i as usize) else {
        return false;
    };
    let age = world::now_ms(env.snapshot).saturating_sub(last);
    age < env.image.cooldown_of(i) as u64
}

// Only an automatic activation waits for the cooldown.
#[tactic(auto, unfolding(model::specs::Activate::decide))]
pub fn decide(env: &Env, v: &State, mode: Mode) -> Decision
    ensures { Decides env.now.snapshot.now env.now.image.now env.now.job.index mode (meaning v.now).rest result }
{
    let i = env.job.index;
    let given = env.given(v);
    if mode.is_auto() && in_cooldown(&given, i) {
        return Decision::InCooldown;
    }
    match conditions_hold(&given, i) {
        Some(true) => Decision::Begins,
        Some(false) => Decision::Rejected,
        None => Decision::Unevaluable,
    }
}
