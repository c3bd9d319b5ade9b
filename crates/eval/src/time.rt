// The wall clock and the sun: readings, time bounds, ranges of minutes and sets of weekdays.
ghost use Rattle.std.specs.Prelude.{◌≡◌, ◌+◌, ◌*◌, ◌≤◌};
ghost use Rattle.words.specs.Saturating.{max32};
ghost use Rattle.model.specs.Arith.{has_day};
ghost use Rattle.model.specs.Eval.{solar_of, solar_time_of, minute_in_range};
ghost use Rattle.model.specs.Rules.{event_of};
ghost use Rattle.model.specs.declared.Reading.TheVariants as reading;
ghost use Rattle.eval.specs.Equals.{Reads, SunIsUp, Resolves, BoundAt};

use image::layout::{Image, Table};
use image::record::{bound_of, event_of};
use model::{SolarEvent, SunTimes, TimeBound};
use words::SolarTime;

// The minutes of a day and of a week.
pub const DAY_MINUTES: u64 = 1440;

pub const WEEK_MINUTES: u64 = 10080;

// The days of a week, a bit each.
pub const EVERY_DAY: u32 = 127;

// Readings that look at the snapshot alone, so that they ask for no image and no state.
#[tactic(auto, unfolding(model::specs::Eval::eval_reading))]
pub fn time_now(snapshot: &[u32]) -> Option<i64>
    ensures { Reads snapshot.now reading.TimeNow result }
{
    Some(i64::from(world::wall(snapshot)?.minutes_of_day))
}

#[tactic(auto, unfolding(model::specs::Eval::eval_reading))]
pub fn time_hour(snapshot: &[u32]) -> Option<i64>
    ensures { Reads snapshot.now reading.TimeHour result }
{
    Some(i64::from(world::wall(snapshot)?.minutes_of_day / 60))
}

#[tactic(auto, unfolding(model::specs::Eval::eval_reading))]
pub fn time_minute(snapshot: &[u32]) -> Option<i64>
    ensures { Reads snapshot.now reading.TimeMinute result }
{
    Some(i64::from(world::wall(snapshot)?.minutes_of_day % 60))
}

#[tactic(auto, unfolding(model::specs::Eval::eval_reading))]
pub fn time_weekday(snapshot: &[u32]) -> Option<i64>
    ensures { Reads snapshot.now reading.TimeWeekday result }
{
    Some(i64::from(world::wall(snapshot)?.weekday))
}

#[tactic(auto, unfolding(model::specs::Eval::eval_reading))]
pub fn sun_rise(snapshot: &[u32]) -> Option<i64>
    ensures { Reads snapshot.now reading.SunRise result }
{
    Some(i64::from(world::sun(snapshot)?.sunrise_min))
}

#[tactic(auto, unfolding(model::specs::Eval::eval_reading))]
pub fn sun_set(snapshot: &[u32]) -> Option<i64>
    ensures { Reads snapshot.now reading.SunSet result }
{
    Some(i64::from(world::sun(snapshot)?.sunset_min))
}

// From sunrise on, and before sunset.
#[tactic(auto, unfolding(model::specs::Eval::sun_is_up))]
pub fn sun_is_up(snapshot: &[u32]) -> Option<bool>
    ensures { SunIsUp snapshot.now result }
{
    let wall = world::wall(snapshot)?;
    let sun = world::sun(snapshot)?;
    Some((sun.sunrise_min..sun.sunset_min).contains(&wall.minutes_of_day))
}

#[tactic(auto, unfolding(model::specs::Eval::eval_reading))]
pub fn sun_up(snapshot: &[u32]) -> Option<i64>
    ensures { Reads snapshot.now reading.SunIsUp result }
{
    Some(i64::from(sun_is_up(snapshot)?))
}

// Whether a weekday is in a set: bit d for weekday d.
#[tactic(auto, using(crate::proofs::Numbers::no_day), unfolding(model::specs::Arith::has_day))]
pub fn has_day(days: u32, day: u32) -> bool
    ensures { result ≡ has_day days day }
{
    days.checked_shr(day).is_some_and(|d| d % 2 == 1)
}

// Both ends count. A range whose start is after its end goes past midnight.
#[tactic(auto, unfolding(model::specs::Eval::minute_in_range))]
pub fn minute_in_range(t: u64, start: u64, end: u64) -> bool
    ensures { result ≡ minute_in_range t start end }
{
    if start <= end {
        (start..=end).contains(&t)
    } else {
        start <= t || t <= end
    }
}

// The minute of the day that an hour and a minute are, whatever their words.
pub fn minute_of_day(hour: u32, minute: u32) -> u64
    ensures minute { result ≡ hour * 60 + minute }
    ensures within { result ≤ 61 * max32 }
{
    u64::from(hour) * 60 + u64::from(minute)
}

// An offset in milliseconds from sunrise or sunset.
#[tactic(auto, unfolding(model::specs::Eval::solar_time_of))]
pub fn solar_time(sun: SunTimes, event: SolarEvent, offset_ms: u32) -> SolarTime
    ensures { result ≡ solar_time_of sun event offset_ms }
{
    let base = match event {
        SolarEvent::Sunrise => sun.sunrise_min,
        SolarEvent::Sunset => sun.sunset_min,
    };
    words::solar_time(base, offset_ms)
}

// Its minute, by the word of an event: 0 is sunrise, any other number sunset.
#[tactic(auto, unfolding(model::specs::Eval::solar_of))]
pub fn solar_minute(sun: SunTimes, event: u32, offset_ms: u32) -> u32
    ensures { result ≡ solar_of sun (event_of event) offset_ms }
{
    solar_time(sun, event_of(event), offset_ms).minute
}

#[tactic(auto, unfolding(model::specs::Eval::resolve_time_bound, model::specs::Eval::solar_of))]
pub fn resolve_time_bound(snapshot: &[u32], bound: TimeBound) -> Option<u64>
    ensures { Resolves snapshot.now bound result }
{
    match bound {
        TimeBound::Clock { hour, minute } => Some(minute_of_day(hour, minute)),
        TimeBound::Solar { event, offset_ms } => {
            let sun = world::sun(snapshot)?;
            Some(u64::from(solar_time(sun, event, offset_ms).minute))
        }
    }
}

// Time bound i of the image.
pub fn bound_at(snapshot: &[u32], image: &Image, i: u32) -> Option<u64>
    ensures { BoundAt snapshot.now image.now i result }
{
    let bound = bound_of(image.record_at(Table::Bounds, i))?;
    resolve_time_bound(snapshot, bound)
}
