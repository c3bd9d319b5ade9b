// The wall schedules: what has become due since the minute of the tick before, at most an hour of it; nothing where the clock was set back by
// up to two hours. Document 01, "Tick"; document 02, request 5.
ghost use Rattle.std.specs.Prelude.{◌≡◌, false, ◌<◌, ◌≤◌};
ghost use Rattle.std.specs.Prelude.{Some};
ghost use Rattle.model.specs.Rules.{name_order};
ghost use Rattle.model.specs.Wheel.{start_wall, fire_due_wall_rules, window_of, fire_window, is_set_back, fire_wall_at, fire_wall_schedules};
ghost use Rattle.state.specs.Meaning.{Means, meaning, base};
ghost use Rattle.world.specs.Ranges.{WallInRange};
ghost use Rattle.activate.specs.Carried.{carried_by, Over};
ghost use Rattle.activate.specs.Handled.{Room};
ghost use Rattle.wheel.specs.Given.{env_of};
ghost use Rattle.wheel.specs.Tick.{Fires, count_missed, without_wall};
ghost use Rattle.wheel.specs.Wall.{number_if};
ghost use Rattle.wheel.specs.Turns.{Turns};

use crate::minutes::{Window, cyclic_dist, week_minute};
use crate::wall::has_wall_triggers;
use crate::{Env, Rule};
use activate::Lent;
use counters::Counter;
use eval::time::WEEK_MINUTES;
use model::{TriggerKind, WallTime};
use state::State;

// At most so many minutes are made up for.
const CATCH_UP_MINUTES: u64 = 60;

// A clock set back by so many minutes at most starts nothing.
const SET_BACK_MINUTES: u64 = 120;

// A tick without the time that it was asked for is counted.
fn count_missed(v: &mut State, missed: bool)
    ensures { Means v.new (base v.old) (count_missed missed (meaning v.old)) }
{
    if missed {
        v.bump(Counter::TicksTimeUnsynced, 1);
    }
}

fn window_of(prev: u64, minute: u64) -> u64
    requires { minute < 10080 }
    ensures { (result ≡ window_of prev minute) × (result ≤ 60) }
{
    cyclic_dist(prev, minute).min(CATCH_UP_MINUTES)
}

// The clock was set back: the minute lies 1 to 120 minutes behind the one before, round the week.
fn is_set_back(prev: u32, minute: u64) -> bool
    ensures { result ≡ is_set_back prev minute }
{
    let behind = Window {
        base: minute,
        window: SET_BACK_MINUTES,
    };
    behind.in_window(prev as u64)
}

impl Rule<'_, '_> {
    // A rule starts, where a trigger of it is due.
    fn start_wall(&self, lent: &mut Lent, kind: Option<TriggerKind>)
        requires { Room 1 (carried_by lent.old) }
        ensures { Over (Fires 1 (start_wall (number_if kind) (env_of self.now.env.now) self.now.i)) lent.old lent.new }
    {
        if let Some(kind) = kind {
            self.activate(lent, kind);
        }
    }

    // A rule's turn. That a sun is missed in it is noted.
    fn wall_turn(&self, lent: &mut Lent, window: Window, solar_unsynced: &mut bool)
        requires { Room 1 (carried_by lent.old) }
        ensures { Over (Turns (env_of self.now.env.now) window.base window.window self.now.i solar_unsynced.old solar_unsynced.new) lent.old lent.new }
    {
        if lent.state.is_enabled(self.i as usize) {
            let due = self.due_wall_kind(window, solar_unsynced);
            self.start_wall(lent, due);
        }
    }
}

impl Env<'_> {
    fn fire_due_wall_rules(&self, lent: &mut Lent, window: Window)
        requires { Room 64 (carried_by lent.old) }
        ensures { Over (Fires 64 (fire_due_wall_rules (env_of self.now) window.base window.window false (name_order self.now.image.now))) lent.old lent.new }
    {
        let mut solar_unsynced = false;
        for i in self.order {
            let rule = Rule { env: self, i: *i };
            rule.wall_turn(lent, window, &mut solar_unsynced);
        }
        count_missed(lent.state, solar_unsynced);
    }

    fn fire_window(&self, lent: &mut Lent, minute: u64, window: u64)
        requires { Room 64 (carried_by lent.old) × (minute < 10080) × (window ≤ 60) }
        ensures { Over (Fires 64 (fire_window (env_of self.now) minute window)) lent.old lent.new }
    {
        if window == 0 || !has_wall_triggers(self.image, lent.state) {
            return;
        }
        let base = (minute + WEEK_MINUTES - window) % WEEK_MINUTES;
        self.fire_due_wall_rules(lent, Window { base, window });
    }

    // The minute of this tick is remembered, and what has become due since the one before starts, unless the clock was set back.
    fn fire_wall_at(&self, lent: &mut Lent, w: WallTime)
        requires { Room 64 (carried_by lent.old) × WallInRange w }
        ensures { Over (Fires 64 (fire_wall_at (Some w) (env_of self.now))) lent.old lent.new }
    {
        let prev = lent.state.prev_week_min();
        let minute = week_minute(w);
        lent.state.set_prev_week_min(Some(minute));
        let Some(before) = prev else { return };
        let to = minute as u64;
        if is_set_back(before, to) {
            return;
        }
        let window = window_of(before as u64, to);
        self.fire_window(lent, to, window);
    }

    // Without a wall clock the minute before is forgotten.
    fn without_clock(&self, v: &mut State)
        ensures { Means v.new (base v.old) (without_wall self.now.image.now (meaning v.old)) }
    {
        let missed = has_wall_triggers(self.image, v);
        count_missed(v, missed);
        v.set_prev_week_min(None);
    }

    pub fn fire_wall_schedules(&self, lent: &mut Lent)
        requires { Room 64 (carried_by lent.old) }
        ensures { Over (Fires 64 (fire_wall_schedules (env_of self.now))) lent.old lent.new }
    {
        match world::wall(self.snapshot) {
            Some(w) => self.fire_wall_at(lent, w),
            None => self.without_clock(lent.state),
        }
    }
}
