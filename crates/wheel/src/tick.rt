// The tick: continuations, timers, Every slots, wall schedules.
ghost use Rattle.model.specs.Wheel.{service_tick};
ghost use Rattle.activate.specs.Carried.{Over};
ghost use Rattle.eval.specs.Answers.{env_in};
ghost use Rattle.wheel.specs.Tick.{Ready, Fires, start};

use crate::Env;
use activate::{Lent, NOTHING};
use image::layout::Image;
use world::accepted::Accepted;

// `store` has the flat steps of the image, and the pending records as they stand before the tick; nothing else of it is read. The rules are put in the order of their names once.
// A tick begins with nothing done, whatever was done with what it is lent.
pub fn service_tick(snapshot: &Accepted, image: &Image, store: &[u32], lent: &mut Lent)
    requires { Ready image.now store.now lent.old.state.now }
    ensures { Over (λ x. Fires 1184 (service_tick (env_in snapshot.now image.now)) (start x.vol)) lent.old lent.new }
{
    lent.handled = NOTHING;
    let order = image.name_order();
    let env = Env {
        snapshot: snapshot.words(),
        image,
        store,
        order: order.as_slice(),
    };
    env.fire_continuations(lent);
    env.fire_timers(lent);
    env.fire_every(lent);
    env.fire_wall_schedules(lent);
}
