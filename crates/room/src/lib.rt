// The most outcomes and effects that a tick or run can give while a set is loaded, from its image alone: so that a caller lends room once, or
// does not load a set that needs more than the unit has.
#![tactic(auto)]

ghost use Rattle.std.specs.Prelude.{◌≡◌, [], cond, true, ◌^◌, ◌+◌, ◌-◌, ◌*◌, ◌≤◌, ◌<◌, min, max};
ghost use Rattle.model.specs.Image.{size_of};
ghost use Rattle.model.specs.Rows.{rules};
ghost use Rattle.model.specs.Wheel.{is_wall_trigger};
ghost use Rattle.model.specs.Asked.{shown_result};
ghost use Rattle.room.specs.Room.{is_timer_trigger, is_every_trigger, starts_of};
ghost use Rattle.room.specs.Needed.{room_for, numbers, Needs, begin_in, size_in, Summed, Listed};

use image::layout::{Image, Table};
use model::{Refusal, Trigger};

// The most rules of a set, and the most timers and continuations that wait in a state.
// kept: state's place.rt has the three numbers too. Neither crate stands on the other, and each proves its own against the specification.
const MOST_RULES: usize = 64;

const MOST_TIMERS: u64 = 16;

const MOST_PENDING: u64 = 32;

// The set of an image needs room for so many outcomes and so many effects.
// kept: beside activate's `Handled`, of the same two fields, which says how many there were: one type would let a room be told for what was done.
#[derive(Clone, Copy)]
pub struct Needed {
    pub outcomes: u32,
    pub effects: u32,
}

// Of all rules: how often a tick starts them, the effects of these starts, the longest list.
#[derive(Clone, Copy, Default)]
pub struct Sums {
    pub starts: u64,
    pub effects: u64,
    pub longest: u64,
}

// The triggers of a rule, counted: those of timers, the Every triggers, and those of the wall clock.
#[derive(Clone, Copy, Default)]
pub struct Tally {
    pub timers: u64,
    pub everys: u64,
    pub walls: u64,
}

impl Tally {
    // One trigger more.
    fn counted(self, t: Trigger) -> Tally
        requires { (self.timers < 2 ^ 32) × (self.everys < 2 ^ 32) × (self.walls < 2 ^ 32) }
        ensures { (result.timers ≡ self.timers + cond (is_timer_trigger t) 1 0) × (result.everys ≡ self.everys + cond (is_every_trigger t) 1 0) × (result.walls ≡ self.walls + cond (is_wall_trigger t) 1 0) }
    {
        match t {
            Trigger::TimerFires { .. } => Tally {
                timers: self.timers + 1,
                ..self
            },
            Trigger::Every { .. } => Tally {
                everys: self.everys + 1,
                ..self
            },
            Trigger::AtTime { .. } | Trigger::AtSolar { .. } => Tally {
                walls: self.walls + 1,
                ..self
            },
            Trigger::Other => self,
        }
    }
}

// How often a tick can start rule i.
// kept: one pass counts three kinds. `filter` and `count` would read every trigger three times, and the closure of a `fold` would have to count on from any
// tally, where only those of this loop have room for one more.
fn starts(image: &Image, i: u32) -> u64
    ensures { (result ≡ starts_of image.now i) × (result ≤ 4294967312) }
{
    let mut tally = Tally::default();
    for trigger in image.triggers(i) {
        tally = tally.counted(trigger);
    }
    tally.timers.min(MOST_TIMERS) + tally.everys + tally.walls.min(1)
}

// In the rows of the lists: behind how many steps the own list of rule i begins, and how many it has.
fn list_at(lists: &[u32], i: u32) -> (u64, u64)
    ensures begin { (result.0 ≡ begin_in lists.now i) × (result.0 ≤ 4294967295) }
    ensures size { (result.1 ≡ size_in lists.now i) × (result.1 ≤ 4294967295) }
{
    let at = i as usize * 2;
    let begin = fields::word(lists, at);
    let size = fields::word(lists, at + 1);
    (begin as u64, size as u64)
}

// A rule's bodies stand between the part of the rule before it and its own list.
// kept: two sums and a maximum in one pass, and `end` goes from each rule to the next. The closure of a `fold` over the four would have to add to any sums, where
// only those of this loop fit.
fn sum_rules(image: &Image, lists: &[u32]) -> Sums
    requires { Listed image.now lists.now }
    ensures { Summed image.now result }
{
    let n = image.size_of(Table::Rules);
    let b = image.budget() as u64;
    let mut sums = Sums::default();
    let mut end: u64 = 0;
    for i in 0..n {
        let s = starts(image, i);
        let (begin, own) = list_at(lists, i);
        sums.starts += s;
        sums.effects += s * b.min(own);
        sums.longest = sums.longest.max(own.max(begin - end));
        end = begin + own;
    }
    sums
}

// A tick's continuations and starts; or a run, where that gives more.
fn most_effects(b: u64, longest: u64, of_starts: u64) -> u64
    requires { (1 ≤ b) × (b ≤ 256) × (of_starts ≤ 70368744177664) }
    ensures { result ≡ max (min b longest) (32 * min (b - 1) longest + of_starts) }
{
    b.min(longest)
        .max(MOST_PENDING * (b - 1).min(longest) + of_starts)
}

// The room that the set needs, from the rows of its lists.
fn room(image: &Image, lists: &[u32]) -> Needed
    requires { Listed image.now lists.now }
    ensures { Needs image.now result }
{
    let b = image.budget() as u64;
    let s = sum_rules(image, lists);
    let effects = most_effects(b, s.longest, s.effects);
    Needed {
        outcomes: (MOST_PENDING + s.starts) as u32,
        effects: effects as u32,
    }
}

// What an image needs, or why load refuses it: for every slice.
pub fn room_for(words: &[u32]) -> Result<Needed, Refusal>
    ensures { shown_result numbers result [] ≡ room_for words.now }
{
    image::refusal(words)?;
    let mut lists = [0u32; 2 * MOST_RULES];
    let image = load::accepted(words, &mut lists)?;
    Ok(room(&image, &lists))
}
