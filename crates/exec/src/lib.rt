// The step runner: exec.rs. A function changes the words of the state in place, and returns what else came of it; a contract is one
// equation with a definition of the specification, on what the words mean before it and after it.
#![tactic(auto)]

pub mod actions;
mod answers;
mod bodies;
pub mod dry;
mod effects;
mod lights;
mod places;
mod rules;
pub mod runs;
pub mod steps;
mod timers;
mod variables;

ghost use Rattle.std.specs.Prelude.{◌≡◌};
ghost use Rattle.state.specs.Meaning.{meaning};
ghost use Rattle.exec.specs.Results.{ValueAt};

use image::layout::Image;
pub use model::Job;
use model::{Effect, Point, Unevaluable};
use state::State;
use state::reasons::Reason;

// What a run is given: the words of the snapshot and of the image, and what it knows of its rule.
// kept: the state stands beside it in each function, `env, v`. One struct of the four, lent as `&mut`, would let a function change all of them: beside what it does to
// `env.old.state.now` and `env.new.state.now`, each contract, also that of a `prim_*` which changes nothing else, would have to say that the call goes on with what it was
// given, `(env.new.snapshot ≡ env.old.snapshot) × (env.new.image ≡ env.old.image) × (env.new.job ≡ env.old.job)`, and each loop to carry it along; and the struct would be
// taken apart where conditions and values are evaluated, since `eval::Env` has the state shared. As it is, what stays is lent as `&Env`, and needs no clause.
// A run has its rule's steps beside it too: only what finds the next step reads them, and no action.
// kept: actions and steps are functions that take it, and no methods, as they would be no plainer: what they change is the state, so that `env` and `v` stand beside each other
// in both. Its two methods only read.
#[derive(Clone, Copy)]
pub struct Env<'a> {
    pub snapshot: &'a [u32],
    pub image: &'a Image<'a>,
    pub job: Job,
}

impl Env<'_> {
    // What conditions and values are evaluated in, with the state as it is now.
    pub fn given<'b>(&'b self, v: &'b State) -> eval::Env<'b>
        ensures { result ≡ record { snapshot = self.now.snapshot; image = self.now.image; state = v.entry } }
    {
        eval::Env {
            snapshot: self.snapshot,
            image: self.image,
            state: v,
        }
    }

    // Value i of the image, with the state as it is now.
    pub fn value_at(&self, v: &State, i: u32) -> Option<i64>
        ensures { ValueAt self.now.snapshot.now self.now.image.now (meaning v.now).rest i result }
    {
        eval::values::value_at(&self.given(v), i)
    }
}

// What came of an action: at most one effect. One that cannot be evaluated is an error, which `answers::count_failed` counts.
pub type PrimResult = Result<Option<Effect>, Unevaluable>;

// What came of one paid step: at most one effect, and where the run goes on, if it does.
#[derive(Clone, Copy)]
pub struct StepResult {
    pub effect: Option<Effect>,
    pub reason: Option<Reason>,
    pub next: Option<Point>,
}

// What came of a run so far: `count` effects are written, or would be.
// kept: the words of the effects stand beside their count. `activate` has the count in `Handled`, beside that of the outcomes: a struct of words and count would be made
// anew for each run, and the count be taken out of it for the outcome.
#[derive(Clone, Copy)]
pub struct RunResult {
    pub reason: Option<Reason>,
    pub count: u32,
}
