// The next deadline: the least due time of the continuations, timers and Every slots, and a second from the last call where a wall
// schedule waits.
ghost use Rattle.std.specs.Prelude.{◌≡◌, List, min};
ghost use Rattle.std.specs.List.{reduce, flat_map};
ghost use Rattle.std.specs.Option.{option_to_list};
ghost use Rattle.model.specs.Steps.{FlatStep};
ghost use Rattle.model.specs.Wheel.{next_deadline};
ghost use Rattle.wheel.specs.Deadline.{store_of, Poll};

use crate::wall::has_wall_triggers;
use image::layout::Image;
use state::State;

const WALL_POLL_MS: u64 = 1000;

// The earliest of some times that may be missing.
fn earliest_of(times: &[Option<u64>]) -> Option<u64>
    ensures { result ≡ reduce min (flat_map option_to_list times.now) }
{
    times.iter().copied().flatten().min()
}

// A wall schedule is looked at again a second later.
fn wall_poll(image: Option<Image>, v: &State, last: u64) -> Option<u64>
    ensures { Poll image.entry v.now last result }
{
    has_wall_triggers(&image?, v).then_some(last.saturating_add(WALL_POLL_MS))
}

// When a store that was last called at `last` next has something to do. `image` is the loaded one, where there is one.
pub fn next_deadline(image: Option<Image>, v: &State, last: u64) -> Option<u64>
    ensures { (flat : List (List FlatStep)) → result ≡ next_deadline (store_of image.entry flat v.now last) }
{
    let poll = wall_poll(image, v, last);
    let slot = v.slots().map(|x| x.due).min();
    let timer = v.timers().map(|t| t.due).min();
    let record = v.pending().map(|c| c.due).min();
    earliest_of(&[record, timer, slot, poll])
}
