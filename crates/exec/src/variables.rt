// Variables, and the panel's selection: the actions that read a value. A dry run changes no variable, and does not notice that 16 stand.
ghost use Rattle.std.specs.Prelude.{List, ℕ};
ghost use Rattle.model.specs.declared.Action.TheVariants.{VarSet, VarAdd, PanelSelect};
ghost use Rattle.exec.specs.Done.{action_done};
ghost use Rattle.exec.specs.Results.{PerformsIn, Assigns, Adds};

use crate::answers::emits;
use crate::{Env, PrimResult};
use model::{EffectKind, Unevaluable, VarConstant, VarValue};
use state::State;

#[tactic(auto, unfolding(model::specs::Actions::var_set, state::specs::Named::lacks_room))]
fn assign(env: &Env, v: &mut State, name: u32, value: VarValue) -> PrimResult
    ensures { Assigns env.now.job v.old name value (action_done v.new result) }
{
    if env.job.dry {
        return Ok(None);
    }
    if !v.try_set_variable(name, value) {
        return Err(Unevaluable);
    }
    Ok(None)
}

// A text of more bytes than the limit is refused, in a dry run too.
#[tactic(auto, unfolding(model::specs::Actions::run_prim, model::specs::Actions::prim_var_set, model::specs::Actions::fails))]
pub fn var_set(env: &Env, v: &mut State, name: u32, value: VarConstant) -> PrimResult
    ensures { (snapshot : List ℕ) → PerformsIn snapshot env.now.image.now env.now.job v.old (VarSet name value) (action_done v.new result) }
{
    match value {
        VarConstant::Text { text, bytes } => {
            if env.image.text_limit() < bytes {
                return Err(Unevaluable);
            }
            assign(env, v, name, VarValue::Text(text))
        }
        VarConstant::Int(n) => assign(env, v, name, VarValue::Int(n)),
    }
}

// A number is added to what a variable holds: to 0 where there is none, to no text.
#[tactic(auto, unfolding(model::specs::Actions::fails))]
fn add_to(env: &Env, v: &mut State, name: u32, step: i64) -> PrimResult
    ensures { Adds env.now.job v.old name step (action_done v.new result) }
{
    match v.variable(name) {
        None => assign(env, v, name, VarValue::Int(step.cast_unsigned())),
        Some(VarValue::Int(n)) => {
            let sum = n.cast_signed().saturating_add(step);
            assign(env, v, name, VarValue::Int(sum.cast_unsigned()))
        }
        Some(VarValue::Text(_)) => Err(Unevaluable),
    }
}

#[tactic(auto, unfolding(model::specs::Actions::run_prim))]
pub fn var_add(env: &Env, v: &mut State, name: u32, delta: u32) -> PrimResult
    ensures { PerformsIn env.now.snapshot.now env.now.image.now env.now.job v.old (VarAdd name delta) (action_done v.new result) }
{
    let step = env.value_at(v, delta).ok_or(Unevaluable)?;
    add_to(env, v, name, step)
}

// From 0 to the group limit.
#[tactic(auto, unfolding(model::specs::Actions::run_prim, model::specs::Actions::fails))]
pub fn panel_select(env: &Env, v: &mut State, adapter: u32, group: u32, selected: u32) -> PrimResult
    ensures { PerformsIn env.now.snapshot.now env.now.image.now env.now.job v.old (PanelSelect adapter group selected) (action_done v.new result) }
{
    let n = env.value_at(v, selected).ok_or(Unevaluable)?;
    let most = env.image.group_limit();
    match u32::try_from(n) {
        Ok(n) if n <= most => emits(EffectKind::PanelSelect, adapter, group, n, 0),
        _ => Err(Unevaluable),
    }
}
