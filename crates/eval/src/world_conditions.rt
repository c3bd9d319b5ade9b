// The conditions on the world, one function for each kind.
ghost use Rattle.std.specs.Prelude.{◌≡◌, Some};
ghost use Rattle.model.specs.declared.Condition.TheVariants as condition;
ghost use Rattle.eval.specs.Equals.{Decides, Evaluates, LevelIs};

use crate::Env;
use crate::compare::compare_i64;
use crate::time::{bound_at, has_day, minute_in_range, sun_is_up};
use crate::values::{eval_reading, value_at};
use model::{Cmp, GroupAggregate, HclState, Reading};

#[tactic(auto, unfolding(model::specs::Eval::eval_condition))]
pub fn time_in_range(env: &Env, start: u32, end: u32) -> Option<bool>
    ensures { Evaluates env.now (condition.TimeInRange start end) result }
{
    let wall = world::wall(env.snapshot)?;
    let from = bound_at(env.snapshot, env.image, start)?;
    let to = bound_at(env.snapshot, env.image, end)?;
    Some(minute_in_range(u64::from(wall.minutes_of_day), from, to))
}

#[tactic(auto, unfolding(model::specs::Eval::eval_condition))]
pub fn day_in(snapshot: &[u32], days: u32) -> Option<bool>
    ensures { Decides snapshot.now (condition.DayIn days) result }
{
    let wall = world::wall(snapshot)?;
    Some(has_day(days, wall.weekday))
}

#[tactic(auto, unfolding(model::specs::Eval::eval_condition))]
pub fn sun_is(snapshot: &[u32], up: bool) -> Option<bool>
    ensures { Decides snapshot.now (condition.SunIs up) result }
{
    let is_up = sun_is_up(snapshot)?;
    Some(is_up == up)
}

#[tactic(auto, unfolding(model::specs::Eval::eval_condition))]
pub fn lamp_is(snapshot: &[u32], adapter: u32, id: u32, on: bool) -> Option<bool>
    ensures { Decides snapshot.now (condition.LampIs adapter id on) result }
{
    let lamp = world::lamp(snapshot, adapter, id)?;
    Some(lamp.is_on == on)
}

// A lamp without a level is at none, and the value is not read.
fn level_is(env: &Env, cmp: Option<Cmp>, level: Option<u32>, value: u32) -> Option<bool>
    ensures { LevelIs env.now cmp level value result }
{
    match level {
        Some(n) => {
            let right = value_at(env, value)?;
            Some(compare_i64(cmp, i64::from(n), right))
        }
        None => Some(false),
    }
}

#[tactic(auto, unfolding(model::specs::Eval::eval_condition))]
pub fn lamp_level_is(env: &Env, adapter: u32, id: u32, cmp: Option<Cmp>, value: u32) -> Option<bool>
    ensures { Evaluates env.now (condition.LampLevel adapter id cmp value) result }
{
    let lamp = world::lamp(env.snapshot, adapter, id)?;
    level_is(env, cmp, lamp.level, value)
}

#[tactic(auto, unfolding(model::specs::Eval::eval_condition))]
pub fn lamp_cct_is(env: &Env, adapter: u32, id: u32, cmp: Option<Cmp>, value: u32) -> Option<bool>
    ensures { Evaluates env.now (condition.LampCct adapter id cmp value) result }
{
    let left = eval_reading(env.snapshot, env.state, Reading::LampCct(adapter, id))?;
    let right = value_at(env, value)?;
    Some(compare_i64(cmp, left, right))
}

#[tactic(auto, unfolding(model::specs::Eval::eval_condition))]
pub fn group_state(snapshot: &[u32], adapter: u32, id: u32, state: GroupAggregate) -> Option<bool>
    ensures { Decides snapshot.now (condition.GroupState adapter id state) result }
{
    let group = world::group(snapshot, adapter, id)?;
    Some(match state {
        GroupAggregate::AnyOn => group.any_on,
        GroupAggregate::AllOff => group.all_off,
    })
}

#[tactic(auto, unfolding(model::specs::Arith::compare_i64, model::specs::Eval::eval_reading, model::specs::Eval::eval_condition))]
pub fn input_occupancy(
    snapshot: &[u32],
    adapter: u32,
    address: u32,
    instance: u32,
    occupied: bool,
) -> Option<bool>
    ensures { Decides snapshot.now (condition.InputOccupancy adapter address instance occupied) result }
{
    let input = world::input(snapshot, adapter, address, instance)?;
    let word = input.occupied?;
    Some((word != 0) == occupied)
}

// Above is Gt, below Lt.
#[tactic(auto, unfolding(model::specs::Eval::eval_condition))]
pub fn input_light_is(
    env: &Env,
    adapter: u32,
    address: u32,
    instance: u32,
    above: bool,
    threshold: u32,
) -> Option<bool>
    ensures { Evaluates env.now (condition.InputLight adapter address instance above threshold) result }
{
    let reading = Reading::InputLight(adapter, address, instance);
    let left = eval_reading(env.snapshot, env.state, reading)?;
    let bound = value_at(env, threshold)?;
    Some(if above { bound < left } else { left < bound })
}

#[tactic(auto, unfolding(model::specs::Eval::eval_condition))]
pub fn hcl_state(snapshot: &[u32], target: u32, state: HclState) -> bool
    ensures { Decides snapshot.now (condition.HclState target state) (Some result) }
{
    world::hcl_target(snapshot, target).is_some_and(|hcl| match state {
        HclState::Enabled => hcl.enabled,
        HclState::Overridden => hcl.overridden,
    })
}

#[tactic(auto, unfolding(model::specs::Eval::eval_condition))]
pub fn device_online(snapshot: &[u32], adapter: u32, address: u32) -> bool
    ensures { Decides snapshot.now (condition.DeviceOnline adapter address) (Some result) }
{
    world::device(snapshot, adapter, address).is_some_and(|device| device.online)
}

#[tactic(auto, unfolding(model::specs::Eval::eval_condition))]
pub fn controller_active(snapshot: &[u32]) -> bool
    ensures { Decides snapshot.now condition.ControllerActive (Some result) }
{
    world::controller_active(snapshot)
}
