// Records of the action table and of the block table.
ghost use Rattle.std.specs.Prelude.{◌≡◌, [], ℕ, Some, ◌+◌, ◌*◌, ◌/◌, ◌≤◌, ◌<◌, length, get_or};
ghost use Rattle.std.specs.Option.{option_map};
ghost use Rattle.model.specs.Rules.{record_in, flow_of};
ghost use Rattle.model.specs.Flat.{block_named};
ghost use Rattle.flat.specs.Outcome.{action_in, block_at, called_in, Resolved};

use model::{FlowAction, Record};

// The first six words of record i.
// kept: no function shared with `Image::record_at`, which reads through fields' `Records`, where a word past the end is 0; here a clause says that the words are
// there. Shared it would be no plainer: a method of `Records` that reads six words, which of tables with one word to a record are not one record's.
pub fn read_record(t: &[u32], i: usize) -> Record
    requires { i < length t.now / 8 }
    ensures { result ≡ record_in t.now i }
{
    let at = i * 8;
    Record {
        kind: t[at],
        a: t[at + 1],
        b: t[at + 2],
        c: t[at + 3],
        d: t[at + 4],
        e: t[at + 5],
    }
}

// What a record says as an action.
pub fn flow_action(r: Record) -> FlowAction
    ensures { result ≡ flow_of r }
{
    match r.kind {
        23 => FlowAction::Wait { duration_ms: r.a },
        24 => FlowAction::After {
            delay_ms: r.a,
            first: r.b,
            count: r.c,
        },
        25 => FlowAction::Call { block: r.a },
        26 => FlowAction::Repeat {
            times: r.a,
            first: r.b,
            count: r.c,
        },
        27 => FlowAction::Conditional {
            condition: r.a,
            then_first: r.b,
            then_count: r.c,
            else_first: r.d,
            else_count: r.e,
        },
        _ => FlowAction::Plain,
    }
}

pub fn read_action(acts: &[u32], i: usize) -> FlowAction
    requires { i < length acts.now / 8 }
    ensures { result ≡ action_in acts.now i }
{
    flow_action(read_record(acts, i))
}

// Which block has this name. "Of two blocks of one name the first counts."
fn find_block(blocks: &[u32], name: u32) -> Option<usize>
    ensures result_value { option_map (record_in blocks.now) result ≡ block_named [] blocks.now name }
    ensures upper_bound { (k : ℕ) → result ≡ Some k → k < length blocks.now / 8 }
{
    (0..blocks.len() / 8).position(|i| blocks[i * 8] == name)
}

// Which block the action in record i calls.
fn find_called(acts: &[u32], blocks: &[u32], i: usize) -> Option<usize>
    requires { i < length acts.now / 8 }
    ensures result_value { option_map (record_in blocks.now) result ≡ called_in blocks.now (action_in acts.now i) }
    ensures upper_bound { (k : ℕ) → result ≡ Some k → k < length blocks.now / 8 }
{
    match read_action(acts, i) {
        FlowAction::Call { block } => find_block(blocks, block),
        _ => None,
    }
}

// Which block each action calls, looked up once for an image: 0 for none, k + 1 for block k. Tables of 4,096 words have no number above 512.
// kept: a number of 16 bits, and no Option (docs/DECISIONS.md, 161): 512 of them stand on the stack, which firmware sets aside for good, and an Option<u16> takes twice the
// room, so 1,024 bytes more in each call that flattens, 5 in 100 of a run's.
// kept: an index of both. Tried by `calls.iter_mut().zip(acts.chunks_exact(8))`: what the function ensures does not close, since nothing is known of the words that
// come back from an adapter of `iter_mut`.
pub fn find_calls(acts: &[u32], blocks: &[u32], calls: &mut [u16])
    requires { (length acts.now / 8 ≤ length calls.old) × (length blocks.now ≤ 4096) }
    ensures { Resolved acts.now blocks.now calls.new (length acts.now / 8) }
{
    for i in 0..acts.len() / 8 {
        calls[i] = find_called(acts, blocks, i).map_or(0, |k| k as u16 + 1);
    }
}

// The block that the action in record i calls.
pub fn called_block(blocks: &[u32], calls: &[u16], i: usize) -> Option<Record>
    requires { (i < length calls.now) × (get_or calls.now i 0 ≤ length blocks.now / 8) }
    ensures { result ≡ block_at blocks.now (get_or calls.now i 0) }
{
    let k = calls[i].checked_sub(1)?;
    Some(read_record(blocks, k as usize))
}
