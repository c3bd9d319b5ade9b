// A primitive action, by its kind: `run_prim`.
ghost use Rattle.exec.specs.Done.{action_done};
ghost use Rattle.exec.specs.Results.{PerformsIn, PerformsAt, ActsIn, ActsAt};

use crate::answers::{count_failed, emits};
use crate::{Env, PrimResult, lights, rules, timers, variables};
use image::action::action_of;
use image::layout::Table;
use model::{Action, EffectKind, Unevaluable};
use state::State;

// One arm for each kind. That it failed is not counted yet.
// kept: one match over the 24 kinds, of an arm each, and longer than 40 lines for that; parts of it, as it had once, need a clause that says which kinds are left.
#[tactic(auto, unfolding(model::specs::Actions::run_prim))]
fn perform(env: &Env, v: &mut State, action: Action) -> PrimResult
    ensures { PerformsIn env.now.snapshot.now env.now.image.now env.now.job v.old action (action_done v.new result) }
{
    match action {
        Action::Light {
            target,
            hold,
            answer,
        } => lights::prim_light(env, v, target, hold, answer),
        Action::Recall {
            scene,
            present,
            target,
        } => lights::prim_recall(env, v, scene, present, target),
        Action::Apply { scene } => lights::prim_apply(env, v, scene),
        Action::Cycle { first, count } => lights::prim_cycle(env, v, first, count),
        Action::Percent {
            target,
            hold,
            value,
        } => lights::prim_percent(env, v, target, hold, value),
        Action::HclResume { target } => emits(EffectKind::HclResume, target, 0, 0, 0),
        Action::HclHold { target } => emits(EffectKind::HclHold, target, 0, 0, 0),
        Action::HclEnable { schedule } => emits(EffectKind::HclSchedule, schedule, 1, 0, 0),
        Action::HclDisable { schedule } => emits(EffectKind::HclSchedule, schedule, 0, 0, 0),
        Action::FeedbackOn {
            adapter,
            address,
            instance,
        } => emits(EffectKind::InputFeedback, adapter, address, instance, 1),
        Action::FeedbackOff {
            adapter,
            address,
            instance,
        } => emits(EffectKind::InputFeedback, adapter, address, instance, 0),
        Action::PanelSelect {
            adapter,
            group,
            selected,
        } => variables::panel_select(env, v, adapter, group, selected),
        Action::CancelHold {
            adapter,
            address,
            instance,
        } => emits(EffectKind::CancelHold, adapter, address, instance, 0),
        Action::CatchMovement {
            adapter,
            address,
            instance,
        } => emits(EffectKind::CatchMovement, adapter, address, instance, 0),
        Action::TimerStart { timer, duration_ms } => timers::timer_start(
            env,
            v,
            timer,
            duration_ms,
        ),
        Action::TimerRestart { timer, duration_ms } => timers::timer_restart(
            env,
            v,
            timer,
            duration_ms,
        ),
        Action::TimerCancel { timer } => timers::timer_cancel(env, v, timer),
        Action::VarSet { name, value } => variables::var_set(env, v, name, value),
        Action::VarAdd { name, delta } => variables::var_add(env, v, name, delta),
        Action::RuleEnable { rule } => rules::set_rule_bit(env, v, rule, true),
        Action::RuleDisable { rule } => rules::set_rule_bit(env, v, rule, false),
        Action::MqttPublish {
            topic,
            payload,
            retain,
        } => emits(EffectKind::MqttPublish, topic, payload, retain, 0),
        Action::Log { text } => emits(EffectKind::Log, text, 0, 0, 0),
        Action::StatCount { name } => Ok(None),
    }
}

// Action i of the image.
pub(crate) fn perform_at(env: &Env, v: &mut State, i: u32) -> PrimResult
    ensures { PerformsAt env.now.snapshot.now env.now.image.now env.now.job v.old i (action_done v.new result) }
{
    let action = action_of(env.image.record_at(Table::Actions, i)).ok_or(Unevaluable)?;
    perform(env, v, action)
}

// An action by itself, in no step of a run: whatever came of it, the state is the specification's, with one more failed action where it failed.
pub fn run_prim(env: &Env, v: &mut State, action: Action) -> PrimResult
    ensures { ActsIn env.now.snapshot.now env.now.image.now env.now.job v.old action (action_done v.new result) }
{
    count_failed(perform(env, v, action), v)
}

// Action i of the image by itself.
pub fn prim_at(env: &Env, v: &mut State, i: u32) -> PrimResult
    ensures { ActsAt env.now.snapshot.now env.now.image.now env.now.job v.old i (action_done v.new result) }
{
    count_failed(perform_at(env, v, i), v)
}
