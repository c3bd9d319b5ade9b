// The condition of a record, and the conditions of a rule.
ghost use Rattle.eval.specs.Equals.{Evaluates, ConditionAt, RuleHolds};

use crate::Env;
use crate::state_conditions::{compare_var, last_fired_older_than, rule_enabled, timer_running};
use crate::world_conditions::{
    controller_active, day_in, device_online, group_state, hcl_state, input_light_is,
    input_occupancy, lamp_cct_is, lamp_is, lamp_level_is, sun_is, time_in_range,
};
use image::layout::Table;
use image::record::condition_of;
use model::Condition;

// One arm for each kind, so that it is longer than 40 lines.
// kept: each arm hands on the fields of its own variant, of other numbers and types, which functions of one type in a table could not take.
pub fn eval_condition(env: &Env, condition: Condition) -> Option<bool>
    ensures { Evaluates env.now condition result }
{
    match condition {
        Condition::TimeInRange { start, end } => time_in_range(env, start, end),
        Condition::DayIn { days } => day_in(env.snapshot, days),
        Condition::SunIs { up } => sun_is(env.snapshot, up),
        Condition::LampIs { adapter, id, on } => lamp_is(env.snapshot, adapter, id, on),
        Condition::LampLevel {
            adapter,
            id,
            cmp,
            value,
        } => lamp_level_is(env, adapter, id, cmp, value),
        Condition::LampCct {
            adapter,
            id,
            cmp,
            value,
        } => lamp_cct_is(env, adapter, id, cmp, value),
        Condition::GroupState { adapter, id, state } => group_state(
            env.snapshot,
            adapter,
            id,
            state,
        ),
        Condition::InputOccupancy {
            adapter,
            address,
            instance,
            occupied,
        } => input_occupancy(env.snapshot, adapter, address, instance, occupied),
        Condition::InputLight {
            adapter,
            address,
            instance,
            above,
            threshold,
        } => input_light_is(env, adapter, address, instance, above, threshold),
        Condition::HclState { target, state } => Some(hcl_state(env.snapshot, target, state)),
        Condition::DeviceOnline { adapter, address } => {
            Some(device_online(env.snapshot, adapter, address))
        }
        Condition::RuleEnabled { rule } => Some(rule_enabled(env, rule)),
        Condition::LastFiredOlderThan { rule, than_ms } => {
            Some(last_fired_older_than(env, rule, than_ms))
        }
        Condition::TimerRunning { timer } => Some(timer_running(env, timer)),
        Condition::ControllerActive => Some(controller_active(env.snapshot)),
        Condition::VarCompare { name, cmp, operand } => compare_var(env, name, cmp, operand),
    }
}

// Condition i of the image.
pub fn condition_at(env: &Env, i: u32) -> Option<bool>
    ensures { ConditionAt env.now i result }
{
    let condition = condition_of(env.image.record_at(Table::Conditions, i))?;
    eval_condition(env, condition)
}

// The conditions of a rule: the first that does not hold decides.
// kept: no chain, as it would be no plainer: three ways lead out of a turn, and a `try_fold` would have to carry which one was taken.
#[tactic(auto, using(crate::proofs::Holding::starts))]
pub fn conditions_hold(env: &Env, rule: u32) -> Option<bool>
    ensures { RuleHolds env.now rule result }
{
    let n = env.image.condition_count(rule);
    for k in 0..n {
        let condition = env.image.condition_at(rule, k)?;
        let holds = eval_condition(env, condition)?;
        if !holds {
            return Some(false);
        }
    }
    Some(true)
}
