// Lights and scenes. The answers of `light_verb` and `scene_number` stand in the image.
ghost use Rattle.std.specs.Prelude.{◌≡◌, List, ℕ, ◌<◌, ◌%◌};
ghost use Rattle.model.specs.Lists.{or_else};
ghost use Rattle.model.specs.State.{cycle_pos_at};
ghost use Rattle.model.specs.declared.Action.TheVariants.{Light, Recall, Apply, Cycle, Percent};
ghost use Rattle.state.specs.Meaning.{meaning};
ghost use Rattle.exec.specs.Done.{action_done};
ghost use Rattle.exec.specs.Results.{Performs, PerformsIn, LevelAt};

use crate::answers::emits;
use crate::{Env, PrimResult};
use image::layout::Table;
use model::{EffectKind, Unevaluable};
use state::State;

// A light's own hold_hcl, or the rule's.
#[tactic(auto, unfolding(model::specs::Actions::run_prim, model::specs::Actions::prim_light))]
pub fn prim_light(
    env: &Env,
    v: &mut State,
    target: u32,
    hold: Option<u32>,
    answer: Result<Option<u32>, Unevaluable>,
) -> PrimResult
    ensures { Performs env.now.job v.old (Light target hold answer) (action_done v.new result) }
{
    let Some(verb) = answer? else {
        return Ok(None);
    };
    emits(
        EffectKind::Light,
        target,
        verb,
        hold.unwrap_or(env.job.hold),
        0,
    )
}

#[tactic(auto, unfolding(model::specs::Actions::run_prim, model::specs::Actions::prim_recall))]
pub fn prim_recall(
    env: &Env,
    v: &mut State,
    scene: Option<u32>,
    mark: u32,
    target: u32,
) -> PrimResult
    ensures { Performs env.now.job v.old (Recall scene mark target) (action_done v.new result) }
{
    let scene = scene.ok_or(Unevaluable)?;
    emits(EffectKind::SceneRecall, scene, mark, target, env.job.hold)
}

#[tactic(auto, unfolding(model::specs::Actions::run_prim, model::specs::Actions::prim_apply))]
pub fn prim_apply(env: &Env, v: &mut State, scene: Option<u32>) -> PrimResult
    ensures { Performs env.now.job v.old (Apply scene) (action_done v.new result) }
{
    let scene = scene.ok_or(Unevaluable)?;
    emits(EffectKind::SceneApply, scene, env.job.hold, 0, 0)
}

// The rule's position, modulo the length of the list at hand.
fn cycle_place(v: &State, index: u32, count: u32) -> u32
    requires { 0 < count }
    ensures { (result ≡ or_else 0 (cycle_pos_at (meaning v.now).rest index) % count) × (result < count) }
{
    v.cycle_pos(index as usize).unwrap_or(0) % count
}

#[tactic(auto, unfolding(model::specs::Actions::run_prim, model::specs::Actions::prim_cycle, model::specs::Actions::fails))]
pub fn prim_cycle(env: &Env, v: &mut State, first: u32, count: u32) -> PrimResult
    ensures { (snapshot : List ℕ) → PerformsIn snapshot env.now.image.now env.now.job v.old (Cycle first count) (action_done v.new result) }
{
    if count == 0 {
        return Err(Unevaluable);
    }
    let at = cycle_place(v, env.job.index, count);
    let scene = env.image.word_from(Table::Pool, first, at, 0);
    if !env.job.dry {
        v.set_cycle_pos(env.job.index as usize, Some((at + 1) % count));
    }
    emits(EffectKind::SceneRecall, scene, 0, 0, env.job.hold)
}

// The level of value i, where it can be evaluated and has one.
fn level_at(env: &Env, v: &State, i: u32) -> Option<u32>
    ensures { LevelAt env.now.snapshot.now env.now.image.now (meaning v.now).rest i result }
{
    curve::level_of(env.value_at(v, i)?)
}

// A value in parts per million of full light.
#[tactic(auto, unfolding(model::specs::Actions::run_prim))]
pub fn prim_percent(
    env: &Env,
    v: &mut State,
    target: u32,
    hold: Option<u32>,
    value: u32,
) -> PrimResult
    ensures { PerformsIn env.now.snapshot.now env.now.image.now env.now.job v.old (Percent target hold value) (action_done v.new result) }
{
    let level = level_at(env, v, value).ok_or(Unevaluable)?;
    emits(
        EffectKind::Level,
        target,
        level,
        hold.unwrap_or(env.job.hold),
        0,
    )
}
