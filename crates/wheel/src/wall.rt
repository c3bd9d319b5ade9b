// Wall schedules: which trigger of a rule is due, and whether a rule has one.
ghost use Rattle.std.specs.Prelude.{◌≡◌, false, [], ◌∷◌};
ghost use Rattle.model.specs.Rules.{triggers_of};
ghost use Rattle.model.specs.Wheel.{due_wall_kind, is_wall_trigger, has_wall_triggers};
ghost use Rattle.state.specs.Meaning.{meaning};
ghost use Rattle.wheel.specs.Given.{env_of};
ghost use Rattle.wheel.specs.Wall.{Kind, kind_of_one, kind_and_sun, missed_too, enabled_wall};

use crate::Rule;
use crate::minutes::Window;
use eval::time::{EVERY_DAY, minute_of_day, solar_time};
use image::layout::{Image, Table};
use model::{Trigger, TriggerKind};
use state::State;

// A trigger asks for a sun that is not known.
#[derive(Clone, Copy)]
struct NoSun;

// The kind of a trigger, where a minute of the window is its minute.
fn trigger_kind(
    snapshot: &[u32],
    window: Window,
    trigger: Trigger,
) -> Result<Option<TriggerKind>, NoSun>
    ensures { Kind snapshot.now window.base window.window false (trigger ∷ []) (kind_of_one result) }
{
    match trigger {
        Trigger::AtTime { hour, minute, days } => {
            let at = minute_of_day(hour, minute);
            Ok(window.minute_due(days, at).then_some(TriggerKind::AtTime))
        }
        Trigger::AtSolar { event, offset_ms } => {
            let times = world::sun(snapshot).ok_or(NoSun)?;
            let at = u64::from(solar_time(times, event, offset_ms).minute);
            Ok(
                window
                    .minute_due(EVERY_DAY, at)
                    .then_some(TriggerKind::AtSolar),
            )
        }
        Trigger::TimerFires { .. } | Trigger::Every { .. } | Trigger::Other => Ok(None),
    }
}

// The kind of the first due trigger of rule i, as the snapshot has the sun. That one before it asks for a sun that is not known is noted.
// kept: the flag is lent beside the answer: a rule may miss the sun and be due by a later trigger, which no Result says both of; and a tick counts one miss for all its rules.
pub fn due_wall_kind(
    snapshot: &[u32],
    image: &Image,
    window: Window,
    i: u32,
    solar_unsynced: &mut bool,
) -> Option<TriggerKind>
    ensures { Kind snapshot.now window.base window.window solar_unsynced.old (triggers_of image.now i) (kind_and_sun result solar_unsynced.new) }
{
    for trigger in image.triggers(i) {
        match trigger_kind(snapshot, window, trigger) {
            Ok(Some(kind)) => return Some(kind),
            Ok(None) => {}
            Err(NoSun) => *solar_unsynced = true,
        }
    }
    None
}

impl Rule<'_, '_> {
    // That of the rule in a tick.
    pub(crate) fn due_wall_kind(
        &self,
        window: Window,
        solar_unsynced: &mut bool,
    ) -> Option<TriggerKind>
        ensures { kind_and_sun result solar_unsynced.new ≡ missed_too solar_unsynced.old (due_wall_kind (env_of self.now.env.now) window.base window.window (triggers_of self.now.env.now.image.now self.now.i)) }
    {
        let env = self.env;
        due_wall_kind(env.snapshot, env.image, window, self.i, solar_unsynced)
    }
}

fn is_wall_trigger(trigger: Trigger) -> bool
    ensures { result ≡ is_wall_trigger trigger }
{
    matches!(trigger, Trigger::AtTime { .. } | Trigger::AtSolar { .. })
}

// Rule i is enabled and has a wall trigger.
fn enabled_wall(image: &Image, v: &State, i: u32) -> bool
    ensures { result ≡ enabled_wall image.now (meaning v.now).rest i }
{
    v.is_enabled(i as usize) && image.triggers(i).any(|trigger| is_wall_trigger(trigger))
}

// An enabled rule has a wall trigger.
pub fn has_wall_triggers(image: &Image, v: &State) -> bool
    ensures { result ≡ has_wall_triggers image.now (meaning v.now).rest }
{
    (0..image.size_of(Table::Rules)).any(|i| enabled_wall(image, v, i))
}
