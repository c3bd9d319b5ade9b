// What starts next by the wall clock, of a store that keeps the store rules: document 02, request 7.
ghost use Rattle.std.specs.Prelude.{◌≡◌, map, ◌<◌};
ghost use Rattle.model.specs.World.{is_one, world_of};
ghost use Rattle.next.specs.NextStart.{next_of_set, next_start};

use next::{FirstStart, NextStart};
use store::checked::Checked;
use store::table;
use wheel::minutes::week_minute;
use world::accepted::Accepted;

// The bits of the loaded rules, a word each.
fn bits_in<'a>(store: &Checked<'a>) -> &'a [u32]
    ensures { map is_one result.now ≡ store.now.vol.rest.enabled }
{
    let to = table::BITS + store.rule_count();
    &store.words()[table::BITS..to]
}

// From minute t of the week on: without a set nothing starts.
fn next_from(store: &Checked, sun: Option<model::SunTimes>, t: u32) -> Option<FirstStart>
    requires { t < 10080 }
    ensures { result ≡ next_of_set store.now.loaded store.now.vol.rest.enabled sun t }
{
    next::next_from(&store.image()?, bits_in(store), sun, t)
}

// In the world of a snapshot that is accepted.
// kept: a match, and no `map_or`, as it would be no plainer: one arm for each answer that `next_start` tells apart.
pub fn next_start(store: &Checked, snapshot: &Accepted) -> NextStart
    ensures { result ≡ next_start store.now (world_of snapshot.now) }
{
    let words = snapshot.words();
    let Some(w) = world::wall(words) else {
        return NextStart::ClockUnknown;
    };
    match next_from(store, world::sun(words), week_minute(w)) {
        Some(start) => NextStart::Start(start),
        None => NextStart::NoStart,
    }
}
