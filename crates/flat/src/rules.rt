// Flattening all rules of an image: document 01, refusal 16, and the flat part of a store.
ghost use Rattle.std.specs.Prelude.{◌≡◌, [], ◌∷◌, ◌++◌, ◌+◌, ◌*◌, ◌/◌, ◌≤◌, ◌<◌, length, take};
ghost use Rattle.model.specs.Image.{size_of};
ghost use Rattle.model.specs.Flat.{flatten_rules};
ghost use Rattle.model.specs.Rows.{rules};
ghost use Rattle.flat.specs.Load.{RuleOut, EachOut, rule_at, Checked, Loading, Stored, flatten_tables, loaded, same_flat};

use crate::cycle::flatten_list;
use crate::records::find_calls;
use crate::steps::{append_steps, place, put_words};
use crate::{Around, Bodies, Done, Made, Progress, Source};
use image::layout::{Image, Table};
use model::{FlattenCtx, Refusal};

// The words of a list under way: no list passes 256 + 8 + 4 steps.
const LIST_WORDS: usize = 268 * 4;

// Refusal 16: "over 2,048 flat steps, or `flatten_action` taken over 65,536 times for all rules together".
pub const MOST_STEPS: usize = 2048;

const MOST_ACTIONS: usize = 65536;

// The row of list k: where it begins, and how many steps it has; written if there is room.
// kept: two words, and no `rows::row::Row`: this crate does not stand on `rows`, and store's `RulePart::begin` says what a row of its own would need.
fn put_list(lists: &mut [u32], k: usize, first: u32, size: u32)
    ensures { (k + 1) * 2 ≤ length lists.old →
        take ((k + 1) * 2) lists.new ≡ take (k * 2) lists.old ++ first ∷ size ∷ [] }
{
    put_words(lists, k.saturating_mul(2), &[first, size]);
}

// The part of rule k, whose list is said by words 8 and 9 of its 16: the bodies of its afters go to the front of the words, its own list
// behind them; `own` and `body` are for lists under way.
fn flatten_rule(
    t: &Source,
    own: &mut [u32],
    body: &mut [u32],
    words: &mut [u32],
    seen: &[u32],
    k: usize,
    left: usize,
    same: bool,
) -> Result<Done, Refusal>
    requires in_bounds { (1072 ≤ length own.old) × (1072 ≤ length body.old) × (k < length t.now.rules.now / 16) × (left ≤ 65536) }
    ensures { RuleOut (rule_at t.now.acts.now t.now.blocks.now t.now.rules.now t.now.depth t.now.limit k) left same seen.now words.new result }
{
    let first = t.rules[k * 16 + 8];
    let count = t.rules[k * 16 + 9];
    let at = Around {
        depth: t.depth,
        ctx: FlattenCtx {
            limit: t.limit,
            in_repeat: false,
            in_conditional: false,
            in_after: false,
        },
    };
    let mut bodies = Bodies {
        words,
        seen,
        count: 0,
        same,
    };
    let p = Progress { n: 0, left };
    let q = flatten_list(t, own, body, &mut bodies, first, count, at, p)?;
    append_steps(&mut bodies, &own[..q.n * 4]);
    Ok(Done {
        n: q.n,
        m: bodies.count,
        left: q.left,
        same: bodies.same,
    })
}

// The parts of all rules, one behind the other in `words`, and their rows in `lists`.
// kept: words, lists and seen go through three functions, each for itself: a struct of them would be made in two places, and hold the bound of words and of
// seen, 8,192, which three functions ask for. But here each rule takes its part of words and of seen as a `Bodies`, and lists go elsewhere, so that the struct is
// taken apart again.
// kept: `own` and `body` beside them: they are lent to each rule anew, one as its list and one as the body (see cycle.rt).
// kept: a loop over the numbers of the rules: k is also the row in `lists`, and the rule that `flatten_rule` says it flattens.
fn flatten_each(
    t: &Source,
    own: &mut [u32],
    body: &mut [u32],
    words: &mut [u32],
    lists: &mut [u32],
    seen: &[u32],
) -> Result<Made, Refusal>
    requires in_bounds { (1072 ≤ length own.old) × (1072 ≤ length body.old) × (length words.old ≤ 8192) × (length seen.now ≤ 8192) }
    ensures { EachOut (flatten_tables t.now.acts.now t.now.blocks.now t.now.rules.now t.now.depth t.now.limit) seen.now words.new lists.new result }
{
    let mut size: usize = 0;
    let mut left = MOST_ACTIONS;
    let mut same = true;
    for k in 0..t.rules.len() / 16 {
        let at = place(size, words.len());
        let behind = place(size, seen.len());
        let p = flatten_rule(
            t,
            own,
            body,
            &mut words[at..],
            &seen[behind..],
            k,
            left,
            same,
        )?;
        put_list(lists, k, (size + p.m) as u32, p.n as u32);
        size += p.m + p.n;
        left = p.left;
        same = p.same;
    }
    // Known only when all rules are flattened.
    if MOST_STEPS < size {
        return Err(Refusal::FlatSteps);
    }
    Ok(Made { size, same })
}

// The flat part of the set of these tables: its steps in `words`, the rows of its lists in `lists`, and 0 behind each.
fn flatten_tables(
    t: &Source,
    words: &mut [u32],
    lists: &mut [u32],
    seen: &[u32],
) -> Result<Made, Refusal>
    requires words_len_bound { (length words.old ≤ 8192) × (length seen.now ≤ 8192) }
    ensures { Loading (flatten_tables t.now.acts.now t.now.blocks.now t.now.rules.now t.now.depth t.now.limit) seen.now words.new lists.new result }
{
    let mut own = [0u32; LIST_WORDS];
    let mut body = [0u32; LIST_WORDS];
    let made = flatten_each(t, &mut own, &mut body, words, lists, seen)?;
    let end = place(made.size, words.len());
    words[end..].fill(0);
    let last = (t.rules.len() / 16 * 2).min(lists.len());
    lists[last..].fill(0);
    Ok(made)
}

// The flat part of the image's set: its steps in `words`, the rows of its lists in `lists`, both if they have room; and the steps are
// compared with `seen`, if that has any words.
// kept: that load has checked the image is asked here and by the two that call this: a type for it would be made by each caller of those, load and store, and be
// opened here alone, where the image becomes a `Source`, which holds what it says of the tables.
fn flatten_image(
    image: &[u32],
    words: &mut [u32],
    lists: &mut [u32],
    seen: &[u32],
) -> Result<Made, Refusal>
    requires checked { Checked image.now }
    requires words_len_bound { (length words.old ≤ 8192) × (length seen.now ≤ 8192) }
    ensures { Loading (flatten_rules image.now) seen.now words.new lists.new result }
{
    let tables = Image::new(image);
    let acts = tables.table(Table::Actions);
    let blocks = tables.table(Table::Blocks);
    let rules = tables.table(Table::Rules);
    let mut calls = [0u16; 512];
    find_calls(acts, blocks, &mut calls);
    let source = Source {
        acts,
        blocks,
        rules,
        calls: &calls,
        depth: tables.call_depth() as usize,
        limit: tables.repeat_limit(),
    };
    flatten_tables(&source, words, lists, seen)
}

// The flat part of the image's set. Lent no words, it says only whether the set is over the limits of refusal 16.
pub fn flatten_rules(image: &[u32], words: &mut [u32], lists: &mut [u32]) -> Result<usize, Refusal>
    requires checked { Checked image.now }
    requires words_len_bound { length words.old ≤ 8192 }
    ensures value { result ≡ loaded (flatten_rules image.now) }
    ensures stored { Stored (flatten_rules image.now) words.new lists.new result }
{
    let made = flatten_image(image, words, lists, &[])?;
    Ok(made.size)
}

// Whether the words of a store's flat part, the rows of its lists and its steps, are the flat form of its image. The steps are compared
// as they are flattened: there is no second copy of them.
pub fn same_flat(image: &[u32], lists: &[u32], steps: &[u32]) -> bool
    requires checked { Checked image.now }
    requires rules_bound { size_of image.now rules ≤ 64 }
    requires steps_len_bound { length steps.now ≤ 8192 }
    ensures { result ≡ same_flat (flatten_rules image.now) lists.now steps.now }
{
    let mut rows = [0u32; 128];
    let Ok(Made { size, same }) = flatten_image(image, &mut [], &mut rows, steps) else {
        return false;
    };
    same && size * 4 == steps.len() && lists == rows.as_slice()
}
