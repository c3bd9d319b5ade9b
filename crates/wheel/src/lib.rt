// The tick and the next deadline: wheel.rs.
#![tactic(auto)]

ghost use Rattle.std.specs.Prelude.{◌≡◌, ◌<◌};
ghost use Rattle.model.specs.Image.{size_of};
ghost use Rattle.model.specs.Rows.{rules};
ghost use Rattle.model.specs.Snapshot.{snapshot_refusal};
ghost use Rattle.wheel.specs.Tick.{Holds, Ordered};

mod continuations;
pub mod deadline;
pub mod minutes;
mod rules;
mod schedules;
mod slots;
pub mod tick;
mod timers;
pub mod wall;

use image::layout::Image;

// What a tick is given: the words of the snapshot, of the image and of the store that has its flat steps, and the image's rules in the order of
// their names.
// What a call lends, activate's `Lent`, goes beside it: it is changed, and this is only read, and copied into each `Rule`.
// kept: `Room n` is asked by each function that is lent it, since n is what that function may start: 1, 32, 64 or 1024.
#[derive(Clone, Copy)]
pub struct Env<'a> {
    pub snapshot: &'a [u32],
    pub image: &'a Image<'a>,
    pub store: &'a [u32],
    pub order: &'a [u32],

    ghost accepted: { snapshot_refusal snapshot.now ≡ 0 },
    ghost holds: { Holds store.now image.now },
    ghost ordered: { Ordered image.now order.now },
}

// One of the rules, by its place in the image.
#[derive(Clone, Copy)]
pub struct Rule<'a, 'w> {
    pub env: &'a Env<'w>,
    pub i: u32,

    ghost inside: { i < size_of env.now.image.now rules },
}
