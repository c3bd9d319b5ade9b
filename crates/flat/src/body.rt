// The lists of a rule, in its part of the flat steps. "An after body is handed to the runner as a part of the flat list."
ghost use Rattle.std.specs.Prelude.{◌≡◌, ◌+◌, ◌*◌, ◌<◌, slice_get};
ghost use Rattle.flat.specs.Words.{body_words, list_words, step_of, steps_in};
ghost use Rattle.flat.specs.Near.{step_in, IsNear};
ghost use Rattle.flat.specs.Stands.{step_of_placed, StandsAt};

use crate::steps::place;
use crate::{FlatRule, Placed, StepKind};
use model::{Point, Step};

// The body of the after in row i of a rule's part of the flat steps: the part of its words that holds it.
pub fn after_body(part: &[u32], i: usize) -> &[u32]
    ensures { result.now ≡ body_words part.now i }
{
    let len = part.len();
    if len / 4 <= i || part[i * 4] != StepKind::After as u32 {
        return &[];
    }
    let from = place(part[i * 4 + 2] as usize, len);
    let size = place(part[i * 4 + 3] as usize, len - from);
    &part[from..from + size]
}

// kept: the numbers are those of `StepKind`, and an arm takes no cast: a `TryFrom<u32>` of `StepKind` has the same five numbers in its arms, and here
// a second match over five kinds and a refusal, which all other numbers, `Fail`, would have to take too.
fn decode(kind: u32, a: u32, b: u32, c: u32) -> Step
    ensures { result ≡ step_of (kind, (a, (b, c))) }
{
    match kind {
        0 => Step::Primitive(a),
        1 => Step::Wait(a),
        2 => Step::Branch(a, b, c),
        3 => Step::After(a),
        _ => Step::Fail,
    }
}

// The step at a place of a list.
fn step_at(list: &[u32], place: u32) -> Option<Step>
    ensures { result ≡ slice_get (steps_in list.now) place }
{
    let i = place as usize * 4;
    let step = list.get(i..i + 4)?;
    Some(decode(step[0], step[1], step[2], step[3]))
}

// The words of a list in any part of flat steps, whose own list stands behind `own` steps: list 0 is its own, list p + 1 the body of the
// after at place p of it.
pub fn list_of(part: &[u32], own: usize, list: u32) -> &[u32]
    ensures { result.now ≡ list_words part.now own list }
{
    if part.len() / 4 < own {
        return &[];
    }
    if list == 0 {
        return &part[own * 4..];
    }
    after_body(part, own + (list - 1) as usize)
}

impl<'a> FlatRule<'a> {
    // The words of one of the rule's lists.
    pub fn list_of(&self, list: u32) -> &'a [u32]
        ensures { result.now ≡ list_words self.now.part.now self.now.own list }
    {
        list_of(self.part, self.own, list)
    }

    // The step at a point, if its list is not at its end there.
    pub fn step_at(&self, point: Point) -> Option<Placed>
        ensures found { step_of_placed result ≡ step_in self.now.part.now self.now.own point }
        ensures at { StandsAt point result }
        ensures near { IsNear point (step_of_placed result) }
    {
        let step = step_at(self.list_of(point.list), point.place)?;
        Some(Placed { point, step })
    }
}
