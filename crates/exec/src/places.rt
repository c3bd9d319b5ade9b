// Places of a run. Arriving at a place follows its jump at once.
ghost use Rattle.std.specs.Prelude.{◌≡◌, suc, ◌+◌, ◌≤◌};
ghost use Rattle.words.specs.Saturating.{max32};
ghost use Rattle.model.specs.Steps as model_steps;
ghost use Rattle.model.specs.Exec as model_exec;

use flat::Placed;
use model::{Jump, Point};

#[tactic(auto, unfolding(model::specs::Steps::arrive))]
pub fn arrive(to: Point) -> Point
    ensures { result ≡ model_steps.arrive to.list to.place to.jump }
{
    match to.jump {
        Some(j) if to.place == j.at => Point {
            place: j.to,
            jump: None,
            ..to
        },
        _ => to,
    }
}

// The point behind a step, and n steps further on.
// kept: the room behind a point is a fact of the step that stands there (`Placed`). What needs no more takes that; `advance`, `enter_then` and `run_branch` are given
// numbers that stand in the step, and ask for the room behind them.
pub fn advance(sp: Point, n: u32) -> Point
    requires { suc sp.place + n ≤ max32 }
    ensures { result ≡ model_exec.advance sp n }
{
    arrive(Point {
        place: sp.place + 1 + n,
        ..sp
    })
}

// Into the then-region: at its end the else-region is jumped over.
pub fn enter_then(sp: Point, t: u32, n: u32) -> Point
    requires { suc sp.place + (t + n) ≤ max32 }
    ensures { result ≡ model_exec.enter_then sp t n }
{
    let place = sp.place + 1;
    let past_else = Jump {
        at: place + t,
        to: place + t + n,
    };
    arrive(Point {
        place,
        jump: Some(past_else),
        ..sp
    })
}

// The body of the after that stands at a point of the rule's own list.
pub fn body_start(here: Placed) -> Point
    ensures { result ≡ model_exec.body_start here.point }
{
    Point {
        list: here.point.place + 1,
        place: 0,
        jump: None,
    }
}
