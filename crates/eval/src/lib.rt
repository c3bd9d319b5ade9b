// Conditions and values: eval.rs. A function reads the snapshot, the image and the state, and changes none of them. An answer is
// the specification's own option: `None` is Rust's `Err(Unevaluable)`.
#![tactic(auto)]

mod compare;
pub mod conditions;
mod state_conditions;
pub mod time;
pub mod values;
mod world_conditions;

use image::layout::Image;
use state::State;

// What conditions and values are evaluated in: the words of the snapshot, those of the image, and the state.
// kept: functions take it first, and it has no methods, as these would be no plainer: half of the kinds of conditions read the snapshot alone, and are functions of
// it, beside which the others stand in one match.
#[derive(Clone, Copy)]
pub struct Env<'a> {
    pub snapshot: &'a [u32],
    pub image: &'a Image<'a>,
    pub state: &'a State,
}
