// Readings and values.
ghost use Rattle.state.specs.Meaning.{meaning};
ghost use Rattle.eval.specs.Equals.{ReadsIn, ValueIn, ValueAt};

use crate::{Env, time};
use image::layout::Table;
use image::record::value_of;
use model::{Reading, Value, VarValue};
use state::State;

// No event stands behind these calls.
// kept: each arm hands on the fields of its own variant, of other numbers and types, which functions of one type in a table could not take.
// kept: a snapshot and a state, here and in `eval_value`, and no `Env`: a reading looks at no image, so that it can be had where there is none.
#[tactic(auto, unfolding(model::specs::Eval::eval_reading))]
pub fn eval_reading(snapshot: &[u32], v: &State, reading: Reading) -> Option<i64>
    ensures { ReadsIn snapshot.now (meaning v.now).rest reading result }
{
    match reading {
        Reading::LampLevel(a, i) => world::lamp(snapshot, a, i)?.level.map(i64::from),
        Reading::LampCct(a, i) => world::lamp(snapshot, a, i)?.cct_kelvin.map(i64::from),
        Reading::LampIsOn(a, i) => Some(i64::from(world::lamp(snapshot, a, i)?.is_on)),
        Reading::LampLastLevel(a, i) => world::lamp(snapshot, a, i)?.last_level.map(i64::from),
        Reading::GroupAnyOn(a, i) => Some(i64::from(world::group(snapshot, a, i)?.any_on)),
        Reading::GroupAllOff(a, i) => Some(i64::from(world::group(snapshot, a, i)?.all_off)),
        Reading::GroupMemberCount(a, i) => {
            Some(i64::from(world::group(snapshot, a, i)?.member_count))
        }
        Reading::InputOccupied(a, i, k) => world::input(snapshot, a, i, k)?.occupied.map(i64::from),
        Reading::InputLight(a, i, k) => world::input(snapshot, a, i, k)?.light.map(i64::from),
        Reading::InputPosition(a, i, k) => world::input(snapshot, a, i, k)?.position.map(i64::from),
        Reading::InputLastEventAge(a, i, k) => {
            world::input(snapshot, a, i, k)?
                .last_event_age_ms
                .map(i64::from)
        }
        Reading::TimeNow => time::time_now(snapshot),
        Reading::TimeHour => time::time_hour(snapshot),
        Reading::TimeMinute => time::time_minute(snapshot),
        Reading::TimeWeekday => time::time_weekday(snapshot),
        Reading::SunRise => time::sun_rise(snapshot),
        Reading::SunSet => time::sun_set(snapshot),
        Reading::SunIsUp => time::sun_up(snapshot),
        Reading::Var(name) => match v.variable(name)? {
            VarValue::Int(n) => Some(n.cast_signed()),
            VarValue::Text(_) => None,
        },
        Reading::EventValue
        | Reading::EventDevice
        | Reading::EventInstance
        | Reading::EventOption => None,
    }
}

#[tactic(auto, unfolding(model::specs::Eval::eval_value, words::specs::Signed::clamped))]
pub fn eval_value(snapshot: &[u32], v: &State, value: Value) -> Option<i64>
    ensures { ValueIn snapshot.now (meaning v.now).rest value result }
{
    match value {
        Value::Literal { low, high } => Some(words::join_words(low, high).cast_signed()),
        Value::Reading { reading } => eval_reading(snapshot, v, reading),
        Value::Offset { reading, delta } => {
            let x = eval_reading(snapshot, v, reading)?;
            Some(x.saturating_add(i64::from(delta.cast_signed())))
        }
    }
}

// Value i of the image.
// kept: `condition_at` has this shape: each reads a record of its own table, by functions of its own, and what they share is one line.
pub fn value_at(env: &Env, i: u32) -> Option<i64>
    ensures { ValueAt env.now i result }
{
    let value = value_of(env.image.record_at(Table::Values, i))?;
    eval_value(env.snapshot, env.state, value)
}
