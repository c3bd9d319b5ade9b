// The minutes of the week, and which of them are due. Sums are of 64 bits, so that any words have room.
ghost use Rattle.std.specs.Prelude.{◌≡◌, ◌*◌, ◌<◌, ◌≤◌};
ghost use Rattle.words.specs.Saturating.{max32};
ghost use Rattle.model.specs.Wheel.{week_minute, cyclic_dist, in_window, minute_due};
ghost use Rattle.world.specs.Ranges.{WallInRange};
ghost use Rattle.wheel.specs.Wall.{day_due};

use eval::time::{DAY_MINUTES, WEEK_MINUTES, has_day};
use model::WallTime;

pub fn week_minute(w: WallTime) -> u32
    requires { WallInRange w }
    ensures { (result ≡ week_minute w) × (result < 10080) }
{
    w.weekday * DAY_MINUTES as u32 + w.minutes_of_day
}

// How many minutes on `to` comes, within a week.
pub fn cyclic_dist(from: u64, to: u64) -> u64
    requires { to ≤ 100 * max32 }
    ensures { result ≡ cyclic_dist from to }
{
    (to + WEEK_MINUTES).saturating_sub(from) % WEEK_MINUTES
}

// The minutes that a tick looks at: those behind the base, so many at most.
#[derive(Clone, Copy)]
pub struct Window {
    pub base: u64,
    pub window: u64,
}

impl Window {
    // Behind the base, and no further than the window.
    pub fn in_window(self, target: u64) -> bool
        requires { target ≤ 100 * max32 }
        ensures { result ≡ in_window self.base self.window target }
    {
        (1..=self.window).contains(&cyclic_dist(self.base, target))
    }

    // A minute of one day is due.
    // kept: days and minute side by side, here and in next: a struct of both would be made at once where a trigger is taken apart, and hold a bound that two sums ask for.
    fn day_due(self, days: u32, minute: u64, day: u32) -> bool
        requires { (minute ≤ 61 * max32) × (day < 7) }
        ensures { result ≡ day_due self.base self.window days minute day }
    {
        has_day(days, day) && self.in_window(day as u64 * DAY_MINUTES + minute)
    }

    // A minute of these days is due.
    pub fn minute_due(self, days: u32, minute: u64) -> bool
        requires { minute ≤ 61 * max32 }
        ensures { result ≡ minute_due self.base self.window days minute }
    {
        (0..7).any(|day| self.day_due(days, minute, day))
    }
}
