// What starts next by the wall clock, from a minute of the week on: document 02, request 7. How many minutes on each trigger is, where it
// is one within a week, and the least of them: no minute is asked for by itself.
#![tactic(auto)]

ghost use Rattle.std.specs.Prelude.{◌≡◌, map, ◌+◌, ◌*◌, ◌%◌, ◌<◌, ◌≤◌, min, eqb};
ghost use Rattle.std.specs.Option.{unwrap_or};
ghost use Rattle.words.specs.Saturating.{max32};
ghost use Rattle.model.specs.Arith.{has_day};
ghost use Rattle.model.specs.World.{is_one};
ghost use Rattle.model.specs.declared.Trigger.TheVariants as trigger;
ghost use Rattle.next.specs.NextStart.{on_days, due_in, starts_in, first_from, next_from};
ghost use Rattle.next.specs.Distance.{within, day_ahead, start_of, best_of};

use eval::time::{DAY_MINUTES, EVERY_DAY, WEEK_MINUTES, has_day, minute_of_day, solar_time};
use image::layout::{Image, Table};
use model::{SolarEvent, Trigger};

// In how many minutes a rule starts, and its name. The order is by the minutes, and then by the name.
#[derive(Clone, Copy, PartialEq, Eq, PartialOrd, Ord)]
pub struct FirstStart {
    pub minutes: u32,
    pub name: u32,
}

// What starts next in the world of a snapshot.
// kept: no Option, as there are three answers; and no `Result<Option<FirstStart>, ClockUnknown>`, which would be no plainer: it stands in the Result of
// `engine::next_start`, whose error is a refusal, and `Ok(Err(ClockUnknown))` is no refusal. Without a clock nothing is asked of this crate, so that only
// `engine` makes this of the Option that it gets.
#[derive(Clone, Copy)]
pub enum NextStart {
    NoStart,
    ClockUnknown,
    Start(FirstStart),
}

// A minute more than the last that is asked for.
const NEVER: u32 = 10081;

// So many minutes, if they are minutes of a week.
#[tactic(auto, unfolding(crate::specs::Distance::within))]
fn within(minutes: u32) -> Option<u32>
    ensures { result ≡ within minutes }
{
    (u64::from(minutes) <= WEEK_MINUTES).then_some(minutes)
}

// The least so far, or these minutes where they are fewer.
fn sooner(least: u32, minutes: Option<u32>) -> u32
    ensures { result ≡ min least (unwrap_or minutes 10081) }
{
    least.min(minutes.unwrap_or(NEVER))
}

// What is asked: the words of an image and of its rules' bits (1 is enabled), the sun's times, and the minute of the week it is.
#[derive(Clone, Copy)]
struct Asked<'a> {
    image: &'a Image<'a>,
    bits: &'a [u32],
    sun: Option<model::SunTimes>,
    t: u32,

    ghost in_week: { t < 10080 },
}

impl Asked<'_> {
    // To a minute of the week, at least 1 and at most a week.
    fn minutes_to(&self, target: u64) -> u32
        ensures first { result ≡ first_from (λ m. eqb (target % 10080) ((self.now.t + m) % 10080)) 1 10080 }
        ensures in_week { result ≤ 10080 }
    {
        let minute = (target % WEEK_MINUTES) as u32;
        if self.t < minute {
            minute - self.t
        } else {
            minute + WEEK_MINUTES as u32 - self.t
        }
    }

    // To a minute of one day, where the day is in the set.
    fn day_minutes(&self, days: u32, minute: u64, day: u32) -> Option<u32>
        requires { (minute ≤ 61 * max32) × (day < 7) }
        ensures { result ≡ within (first_from (λ m. day_ahead self.now.t days minute day m) 1 10080) }
    {
        if !has_day(days, day) {
            return None;
        }
        Some(self.minutes_to(day as u64 * DAY_MINUTES + minute))
    }

    // To a minute of these days.
    // kept: a fold from NEVER on, here and over the triggers of a rule, and no `filter_map(..).min()`: that has two loops, one to the first minutes that there are and one over the others, and
    // takes 1.3 times as long for 64 rules that share 380 triggers at a time.
    fn days_minutes(&self, days: u32, minute: u64) -> Option<u32>
        requires { minute ≤ 61 * max32 }
        ensures { result ≡ within (first_from (λ m. on_days ((self.now.t + m) % 10080) days minute) 1 10080) }
    {
        within((0..7).fold(NEVER, |least, day| {
            sooner(least, self.day_minutes(days, minute, day))
        }))
    }

    fn solar_minutes(&self, event: SolarEvent, offset_ms: u32) -> Option<u32>
        ensures { result ≡ within (first_from (λ m. due_in self.now.sun self.now.t (trigger.AtSolar event offset_ms) m) 1 10080) }
    {
        let sun = self.sun?;
        self.days_minutes(EVERY_DAY, solar_time(sun, event, offset_ms).minute as u64)
    }

    fn trigger_minutes(&self, trigger: Trigger) -> Option<u32>
        ensures { result ≡ within (first_from (λ m. due_in self.now.sun self.now.t trigger m) 1 10080) }
    {
        match trigger {
            Trigger::AtTime { hour, minute, days } => {
                self.days_minutes(days, minute_of_day(hour, minute))
            }
            Trigger::AtSolar { event, offset_ms } => self.solar_minutes(event, offset_ms),
            Trigger::TimerFires { .. } | Trigger::Every { .. } | Trigger::Other => None,
        }
    }

    // To the first start of rule i, which has none while its bit is not set.
    fn rule_minutes(&self, i: u32) -> Option<u32>
        ensures { result ≡ within (first_from (starts_in self.now.image.now (map is_one self.now.bits.now) self.now.sun self.now.t i) 1 10080) }
    {
        if fields::word(self.bits, i as usize) != 1 {
            return None;
        }
        let triggers = self.image.triggers(i);
        within(triggers.fold(NEVER, |least, x| sooner(least, self.trigger_minutes(x))))
    }

    // The first start of rule i, with its name.
    fn rule_start(&self, i: u32) -> Option<FirstStart>
        ensures { result ≡ start_of self.now.image.now (map is_one self.now.bits.now) self.now.sun self.now.t i }
    {
        let minutes = self.rule_minutes(i)?;
        let name = self.image.name_of(i);
        Some(FirstStart { minutes, name })
    }

    // The earliest start of all rules, and of those in one minute the one of the lowest name.
    fn earliest(&self) -> Option<FirstStart>
        ensures { result ≡ best_of self.now.image.now (map is_one self.now.bits.now) self.now.sun self.now.t }
    {
        (0..self.image.size_of(Table::Rules))
            .filter_map(|i| self.rule_start(i))
            .min()
    }
}

// From minute t of the week on, of an image and the words of its rules' bits: 1 is enabled.
pub fn next_from(
    image: &Image,
    bits: &[u32],
    sun: Option<model::SunTimes>,
    t: u32,
) -> Option<FirstStart>
    requires { t < 10080 }
    ensures { result ≡ next_from image.now (map is_one bits.now) sun t }
{
    let asked = Asked {
        image,
        bits,
        sun,
        t,
    };
    asked.earliest()
}
