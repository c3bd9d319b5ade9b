// The C interface as a static library: the functions of crate `cerambiu` under their C names, as include/cerambiu.h describes them. Each calls the function of its
// name there, and its contract is that function's.
// kept: each is the twin of that function, since a crate is a library or a static library, and not both: `play` uses the library.
#![tactic(auto)]

ghost use Rattle.std.specs.Prelude.{◌≡◌, [], length};
ghost use Rattle.model.specs.Calls.{new, load, unload, enable, tick, run, deadline, counters};
ghost use Rattle.model.specs.OnWords.{call_on};
ghost use Rattle.model.specs.Crontab.{crontab};
ghost use Rattle.model.specs.Readback.{readback_on};
ghost use Rattle.room.specs.Needed.{room_for};
ghost use Rattle.model.specs.ShortLists.{short_list};
ghost use Rattle.model.specs.Rewrite.{rewritten};
ghost use Rattle.engine.specs.Asked.{next_start_on};
ghost use Rattle.cerambiu.specs.Called.{called, answered};
ghost use Rattle.cerambiu.specs.Told.{tells, told, sending};

#[unsafe(no_mangle)]
pub extern "C" fn cerambiu_new(store: &mut [u32], time: u64) -> u32
    ensures { called result [] store.new [] [] ≡ answered 0 (call_on (new time) store.old) }
{
    cerambiu::cerambiu_new(store, time)
}

#[unsafe(no_mangle)]
pub extern "C" fn cerambiu_load(store: &mut [u32], time: u64, image: &[u32]) -> u32
    ensures { called result [] store.new [] [] ≡ answered 0 (call_on (load time image.now) store.old) }
{
    cerambiu::cerambiu_load(store, time, image)
}

#[unsafe(no_mangle)]
pub extern "C" fn cerambiu_unload(store: &mut [u32], time: u64) -> u32
    ensures { called result [] store.new [] [] ≡ answered 0 (call_on (unload time) store.old) }
{
    cerambiu::cerambiu_unload(store, time)
}

#[unsafe(no_mangle)]
pub extern "C" fn cerambiu_enable(store: &mut [u32], rule: u32, on: bool, answer: &mut [u32]) -> u32
    ensures { called result answer.new store.new [] [] ≡ answered (length answer.old) (call_on (enable rule on) store.old) }
{
    cerambiu::cerambiu_enable(store, rule, on, answer)
}

#[unsafe(no_mangle)]
pub extern "C" fn cerambiu_tick(
    store: &mut [u32],
    snapshot: &[u32],
    outcomes: &mut [u32],
    effects: &mut [u32],
    answer: &mut [u32],
) -> u32
    ensures { called result answer.new store.new outcomes.new effects.new ≡ answered (length answer.old) (call_on (tick snapshot.now (length outcomes.old) (length effects.old)) store.old) }
{
    cerambiu::cerambiu_tick(store, snapshot, outcomes, effects, answer)
}

#[unsafe(no_mangle)]
pub extern "C" fn cerambiu_run(
    store: &mut [u32],
    rule: u32,
    dry: bool,
    snapshot: &[u32],
    outcomes: &mut [u32],
    effects: &mut [u32],
    answer: &mut [u32],
) -> u32
    ensures { called result answer.new store.new outcomes.new effects.new ≡ answered (length answer.old) (call_on (run rule dry snapshot.now (length outcomes.old) (length effects.old)) store.old) }
{
    cerambiu::cerambiu_run(store, rule, dry, snapshot, outcomes, effects, answer)
}

#[unsafe(no_mangle)]
pub extern "C" fn cerambiu_next_deadline(store: &[u32], answer: &mut [u32]) -> u32
    ensures { called result answer.new store.now [] [] ≡ answered (length answer.old) (call_on deadline store.now) }
{
    cerambiu::cerambiu_next_deadline(store, answer)
}

#[unsafe(no_mangle)]
pub extern "C" fn cerambiu_counters(store: &[u32], answer: &mut [u32]) -> u32
    ensures { called result answer.new store.now [] [] ≡ answered (length answer.old) (call_on counters store.now) }
{
    cerambiu::cerambiu_counters(store, answer)
}

#[unsafe(no_mangle)]
pub extern "C" fn cerambiu_next_start(store: &[u32], snapshot: &[u32], answer: &mut [u32]) -> u32
    ensures { tells result answer.new [] ≡ told (length answer.old) (next_start_on snapshot.now store.now) }
{
    cerambiu::cerambiu_next_start(store, snapshot, answer)
}

#[unsafe(no_mangle)]
pub extern "C" fn cerambiu_readback(
    store: &[u32],
    rule: u32,
    snapshot: &[u32],
    readback: &mut [u32],
    answer: &mut [u32],
) -> u32
    ensures { tells result answer.new readback.new ≡ told (length answer.old) (readback_on rule snapshot.now (length readback.old) store.now) }
{
    cerambiu::cerambiu_readback(store, rule, snapshot, readback, answer)
}

#[unsafe(no_mangle)]
pub extern "C" fn cerambiu_telegrams(effects: &[u32], list: &mut [u32], answer: &mut [u32]) -> u32
    ensures { tells result answer.new list.new ≡ told (length answer.old) (sending (length list.old) effects.now) }
{
    cerambiu::cerambiu_telegrams(effects, list, answer)
}

#[unsafe(no_mangle)]
pub extern "C" fn cerambiu_crontab(
    line: &[u8],
    sunday: u32,
    triggers: &mut [u32],
    answer: &mut [u32],
) -> u32
    ensures { tells result answer.new triggers.new ≡ told (length answer.old) (crontab line.now sunday (length triggers.old)) }
{
    cerambiu::cerambiu_crontab(line, sunday, triggers, answer)
}

#[unsafe(no_mangle)]
pub extern "C" fn cerambiu_room(image: &[u32], answer: &mut [u32]) -> u32
    ensures { tells result answer.new [] ≡ told (length answer.old) (room_for image.now) }
{
    cerambiu::cerambiu_room(image, answer)
}

#[unsafe(no_mangle)]
pub extern "C" fn cerambiu_short_list(
    k: u32,
    actions: &[u32],
    values: &[u32],
    pool: &[u32],
    answer: &mut [u32],
) -> u32
    ensures { tells result answer.new [] ≡ told (length answer.old) (short_list k actions.now values.now pool.now) }
{
    cerambiu::cerambiu_short_list(k, actions, values, pool, answer)
}

#[unsafe(no_mangle)]
pub extern "C" fn cerambiu_rewrite(image: &[u32], lent: &mut [u32], answer: &mut [u32]) -> u32
    ensures { tells result answer.new lent.new ≡ told (length answer.old) (rewritten image.now (length lent.old)) }
{
    cerambiu::cerambiu_rewrite(image, lent, answer)
}
