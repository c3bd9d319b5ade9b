// Flattening: the action table of a rule image becomes flat steps of four words each, written into a lent tail of words: the bodies of a
// rule's afters, then its own list. Where the tail has no room, steps are counted and not written: so an empty tail gives the sizes alone.
#![tactic(auto)]

pub mod body;
mod context;
mod cycle;
mod records;
pub mod rules;
mod steps;

ghost use Rattle.std.specs.Prelude.{suc, ◌+◌, ◌/◌, ◌≤◌, length};
ghost use Rattle.words.specs.Saturating.{max32};
ghost use Rattle.flat.specs.Outcome.{Resolved};
ghost use Rattle.flat.specs.Load.{CheckedTables};
ghost use Rattle.flat.specs.Facts.{checked-prop, resolved-prop};
ghost use Rattle.flat.specs.Near.{NearLists, reach};

use model::{FlattenCtx, Point, Step};

// What flattening reads: the tables of a checked image, which block each action calls, the call depth and the repeat limit.
#[derive(Clone, Copy)]
pub struct Source<'a> {
    pub acts: &'a [u32],
    pub blocks: &'a [u32],
    pub rules: &'a [u32],
    pub calls: &'a [u16],
    pub depth: usize,
    pub limit: u32,

    ghost checked: { CheckedTables acts.now blocks.now rules.now depth limit } by { checked-prop _ _ _ _ _ },
    ghost resolved: { Resolved acts.now blocks.now calls.now (length acts.now / 8) } by { resolved-prop _ _ _ _ },
    ghost calls_len: { length acts.now / 8 ≤ length calls.now },
}

// What flattening a rule makes: how many steps its list has and how many its bodies, how many more actions may be taken, and whether all
// so far are those to be compared.
#[derive(Clone, Copy)]
pub struct Done {
    pub n: usize,
    pub m: usize,
    pub left: usize,
    pub same: bool,
}

// What flattening all rules makes: how many steps, and whether they are those to be compared.
#[derive(Clone, Copy)]
pub struct Made {
    pub size: usize,
    pub same: bool,
}

// A rule's part of the flat steps: the bodies of its afters, `own` steps, and behind them its own list.
#[derive(Clone, Copy)]
pub struct FlatRule<'a> {
    pub part: &'a [u32],
    pub own: usize,

    ghost near: { NearLists part.now own },
}

// A step of a rule and the point that it stands at. Behind the point there is room for all that the step leads to.
#[derive(Clone, Copy)]
pub struct Placed {
    pub point: Point,
    pub step: Step,

    ghost room: { suc point.place + reach step ≤ max32 },
}

// The kinds of steps, as the first word of a row has them.
#[derive(Clone, Copy)]
pub enum StepKind {
    Primitive = 0,
    Wait = 1,
    Branch = 2,
    After = 3,
    Fail = 4,
}

// Where actions stand: the calls left, and what is around them.
#[derive(Clone, Copy)]
pub struct Around {
    pub depth: usize,
    pub ctx: FlattenCtx,
}

// How far flattening is: how many steps the list has, and how many more actions may be taken.
#[derive(Clone, Copy)]
pub struct Progress {
    pub n: usize,
    pub left: usize,
}

// The bodies of a rule's afters: the words that they are written into, those that they are compared with, how many steps they are, and
// whether they are so far those to be compared.
// kept: words with a count beside them, and no `ArrayVec`: the words are a tail of the store's (document 01, "Where each form belongs"), which may be too short, and
// steps are counted past its end.
#[derive(Drop)]
pub struct Bodies<'a> {
    pub words: &'a mut [u32],
    pub seen: &'a [u32],
    pub count: usize,
    pub same: bool,
}
