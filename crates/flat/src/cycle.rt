// The cycle of flattening. "A block may call itself, down to the call depth limit": it falls on the calls left, then on the records
// left in the table. At most 12 lists are open at once (specs/OpenLists.antt, proofs/OpenBound.antt). A rule's own list is written into
// `list`, an after's body into `body`, and from there into the lent tail of the flat steps, that of `bodies`, which are compared too.
// More actions than the caller allowed are refused. The six functions call each other: they are read, and proved, together.
// kept: `list` and `body` are lent each for itself, beside `Bodies`, which is the same all through a rule: a repeat lends its list from its first copy on, and
// an after lends `body` as the list inside and no words as the body. A struct of the two would be made anew at both and handed on at
// the others. `at` changes from list to list and `p` from action to action, so that a struct of the two would be made anew for each action.
// kept: `first` and `count` stand beside them: words of the record of an action or of a block, of which a struct would be made at each of the six calls, for the
// one loop that reads it.
// kept: `Start`, that record i is one of the table, and that there are fewer than 256 steps stand in each `requires`: they are of the numbers of one call
// and of the length of the body that is lent to it, which no value goes with.
ghost use Rattle.std.specs.Prelude.{◌≡◌, ◌+◌, ◌/◌, ◌<◌, ◌≤◌, length};
ghost use Rattle.model.specs.declared.FlowAction.TheVariants.{After, Call, Repeat, Conditional};
ghost use Rattle.model.specs.Flat.{flatten_call};
ghost use Rattle.flat.specs.Outcome.{Start, Behind, action_in, list_at, action_at, form_at};
ghost use Rattle.flat.specs.Flattens.{FlattensList, FlattensAct, SameLent};

use crate::records::{called_block, read_action};
use crate::steps::{append_steps, copies, one_step, place, put, put_after};
use crate::{Around, Bodies, Progress, Source};
use model::{FlowAction, Refusal, Step};

// `count` actions from record `first` on, one after the other. Only nested lists and calls recurse.
#[cycle(flattening)]
pub fn flatten_list(
    t: &Source,
    list: &mut [u32],
    body: &mut [u32],
    bodies: &mut Bodies,
    first: u32,
    count: u32,
    at: Around,
    p: Progress,
) -> Result<Progress, Refusal>
    requires start { Start (length body.old) at.depth at.ctx p.n bodies.old.count p.left }
    requires count_in_bounds { first + count ≤ length t.now.acts.now / 8 }
    ensures out { FlattensList (list_at t.now.acts.now t.now.blocks.now at.depth first count at.ctx p.n bodies.old.count) p bodies.old bodies.new list.old list.new result }
    ensures lent { SameLent bodies.old bodies.new }
{
    let mut q = p;
    let from = first as usize;
    for i in from..from + count as usize {
        let full = 256 <= q.n;
        if full {
            return Ok(one_step(list, q, Step::Fail));
        }
        if q.left == 0 {
            return Err(Refusal::FlatSteps);
        }
        let here = Progress {
            left: q.left - 1,
            ..q
        };
        q = flatten_action(t, list, body, bodies, i, at, here)?;
    }
    Ok(q)
}

// The action of record i.
#[cycle(flattening)]
fn flatten_action(
    t: &Source,
    list: &mut [u32],
    body: &mut [u32],
    bodies: &mut Bodies,
    i: usize,
    at: Around,
    p: Progress,
) -> Result<Progress, Refusal>
    requires start { Start (length body.old) at.depth at.ctx p.n bodies.old.count p.left }
    requires i_in_bounds { (i < length t.now.acts.now / 8) × (p.n < 256) }
    ensures out { FlattensAct (action_at t.now.acts.now t.now.blocks.now at.depth i at.ctx p.n bodies.old.count) p bodies.old bodies.new list.old list.new result }
    ensures lent { SameLent bodies.old bodies.new }
{
    match read_action(t.acts, i) {
        FlowAction::Wait { duration_ms } => Ok(one_step(list, p, Step::Wait(duration_ms))),
        FlowAction::After {
            delay_ms,
            first,
            count,
        } => flatten_after(t, list, body, bodies, i, delay_ms, first, count, at, p),
        FlowAction::Call { block } => { flatten_call(t, list, body, bodies, i, block, at, p) }
        FlowAction::Repeat {
            times,
            first,
            count,
        } => flatten_repeat(t, list, body, bodies, i, times, first, count, at, p),
        FlowAction::Conditional {
            condition,
            then_first,
            then_count,
            else_first,
            else_count,
        } => flatten_branch(
            t, list, body, bodies, i, condition, then_first, then_count, else_first, else_count,
            at, p,
        ),
        FlowAction::Plain => Ok(one_step(list, p, Step::Primitive(i as u32))),
    }
}

// An after of record i: its body is a list of its own, and goes behind the rule's bodies.
#[cycle(flattening)]
fn flatten_after(
    t: &Source,
    list: &mut [u32],
    body: &mut [u32],
    bodies: &mut Bodies,
    i: usize,
    ms: u32,
    first: u32,
    count: u32,
    at: Around,
    p: Progress,
) -> Result<Progress, Refusal>
    requires start { Start (length body.old) at.depth at.ctx p.n bodies.old.count p.left }
    requires i_in_bounds { (i < length t.now.acts.now / 8) × (p.n < 256) × Behind (length t.now.acts.now / 8) i first count }
    ensures out { FlattensAct (form_at t.now.acts.now t.now.blocks.now at.depth i (After ms first count) at.ctx p.n bodies.old.count) p bodies.old bodies.new list.old list.new result }
    ensures lent { SameLent bodies.old bodies.new }
{
    if at.ctx.in_after {
        return Ok(one_step(list, p, Step::Fail));
    }
    let inner = at.within_after();
    let q = flatten_list(
        t,
        body,
        &mut [],
        bodies,
        first,
        count,
        inner,
        Progress { n: 0, ..p },
    )?;
    put_after(list, p.n, ms, bodies.count as u32, q.n as u32);
    append_steps(bodies, &body[..q.n * 4]);
    bodies.count += q.n;
    Ok(Progress {
        n: p.n + 1,
        left: q.left,
    })
}

// A call: the block's actions are written into the list around.
#[cycle(flattening)]
fn flatten_call(
    t: &Source,
    list: &mut [u32],
    body: &mut [u32],
    bodies: &mut Bodies,
    i: usize,
    name: u32,
    at: Around,
    p: Progress,
) -> Result<Progress, Refusal>
    requires start { Start (length body.old) at.depth at.ctx p.n bodies.old.count p.left }
    requires i_in_bounds { (i < length t.now.acts.now / 8) × (p.n < 256) × (action_in t.now.acts.now i ≡ Call name) }
    ensures out { FlattensList (flatten_call t.now.acts.now t.now.blocks.now at.depth name at.ctx p.n bodies.old.count) p bodies.old bodies.new list.old list.new result }
    ensures lent { SameLent bodies.old bodies.new }
{
    if at.depth == 0 {
        return Ok(one_step(list, p, Step::Fail));
    }
    let Some(block) = called_block(t.blocks, t.calls, i) else {
        return Ok(one_step(list, p, Step::Fail));
    };
    let inside = Around {
        depth: at.depth - 1,
        ..at
    };
    flatten_list(t, list, body, bodies, block.a, block.b, inside, p)
}

// A repeat of record i: its body is flattened once, as a list of its own, at the place of its first copy. If that does not fit, neither
// its steps nor its after bodies are kept.
#[cycle(flattening)]
fn flatten_repeat(
    t: &Source,
    list: &mut [u32],
    body: &mut [u32],
    bodies: &mut Bodies,
    i: usize,
    times: u32,
    first: u32,
    count: u32,
    at: Around,
    p: Progress,
) -> Result<Progress, Refusal>
    requires start { Start (length body.old) at.depth at.ctx p.n bodies.old.count p.left }
    requires i_in_bounds { (i < length t.now.acts.now / 8) × (p.n < 256) × Behind (length t.now.acts.now / 8) i first count }
    ensures out { FlattensAct (form_at t.now.acts.now t.now.blocks.now at.depth i (Repeat times first count) at.ctx p.n bodies.old.count) p bodies.old bodies.new list.old list.new result }
    ensures lent { SameLent bodies.old bodies.new }
{
    if at.repeat_fails(times) {
        return Ok(one_step(list, p, Step::Fail));
    }
    let inner = at.within_repeat();
    let count_before = bodies.count;
    let same_before = bodies.same;
    let from = place(p.n, list.len());
    let q = flatten_list(
        t,
        &mut list[from..],
        body,
        bodies,
        first,
        count,
        inner,
        Progress { n: 0, ..p },
    )?;
    if 256 < p.n + q.n {
        bodies.count = count_before;
        bodies.same = same_before;
        let over = Progress { left: q.left, ..p };
        return Ok(one_step(list, over, Step::Fail));
    }
    let n = copies(list, times, q.n, p.n);
    Ok(Progress { n, ..q })
}

// A conditional of record i: both regions are written into the list around, behind its step.
#[cycle(flattening)]
fn flatten_branch(
    t: &Source,
    list: &mut [u32],
    body: &mut [u32],
    bodies: &mut Bodies,
    i: usize,
    condition: u32,
    then_first: u32,
    then_count: u32,
    else_first: u32,
    else_count: u32,
    at: Around,
    p: Progress,
) -> Result<Progress, Refusal>
    requires start { Start (length body.old) at.depth at.ctx p.n bodies.old.count p.left }
    requires i_in_bounds { (i < length t.now.acts.now / 8) × (p.n < 256) × Behind (length t.now.acts.now / 8) i then_first then_count × Behind (length t.now.acts.now / 8) i else_first else_count }
    ensures out { FlattensAct (form_at t.now.acts.now t.now.blocks.now at.depth i (Conditional condition then_first then_count else_first else_count) at.ctx p.n bodies.old.count) p bodies.old bodies.new list.old list.new result }
    ensures lent { SameLent bodies.old bodies.new }
{
    if at.ctx.in_conditional {
        return Ok(one_step(list, p, Step::Fail));
    }
    let inner = at.within_conditional();
    let region = Progress { n: p.n + 1, ..p };
    let q = flatten_list(t, list, body, bodies, then_first, then_count, inner, region)?;
    let r = flatten_list(t, list, body, bodies, else_first, else_count, inner, q)?;
    let step = Step::Branch(condition, (q.n - p.n - 1) as u32, (r.n - q.n) as u32);
    put(list, p.n, step);
    Ok(r)
}
