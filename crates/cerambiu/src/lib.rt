// The calls of the C interface: the eight calls, the next start and the readback of crate `engine`, `telegrams`, `crontab`, `room`, `short_lists` and `rewrite`, as include/cerambiu.h describes them; crate `cerambiu_c` has
// them under C names. A call returns document 01's number of its refusal, 0 for none, and writes its values into the lent words of the answer. A contract is one
// equation with the specification's call on words (model's `call_on`), for all arguments.
#![tactic(auto)]

ghost use Rattle.std.specs.Prelude.{◌≡◌, List, [], ℕ, length};
ghost use Rattle.model.specs.Calls.{new, load, unload, enable, tick, run, deadline, counters};
ghost use Rattle.model.specs.OnWords.{call_on};
ghost use Rattle.model.specs.Crontab.{crontab};
ghost use Rattle.model.specs.Readback.{readback_on};
ghost use Rattle.next.specs.NextStart.{start_values};
ghost use Rattle.engine.specs.Answers.{values_of, no_values, enabled_values, handled_values, due_values, counter_values};
ghost use Rattle.room.specs.Needed.{numbers, room_for};
ghost use Rattle.model.specs.ShortLists.{short_list};
ghost use Rattle.model.specs.Rewrite.{rewritten};
ghost use Rattle.short_lists.specs.Answers.{list_words};
ghost use Rattle.engine.specs.Asked.{next_start_on};
ghost use Rattle.cerambiu.specs.Called.{called, answered, lent_answer};
ghost use Rattle.model.specs.Refusals.{refusal_number};
ghost use Rattle.cerambiu.specs.Told.{tells, told, one_value, count_values, sending};

use activate::Handled;
use model::Refusal;
use next::NextStart;
use room::Needed;
use short_lists::ShortList;

// What a call answers, as words.
trait Answer {
    ghost words: { Self → List ℕ };

    fn put(self, answer: &mut [u32])
        ensures { answer.new ≡ lent_answer (length answer.old) (words self) };
}

impl Answer for () {
    ghost words = { no_values };

    fn put(self, answer: &mut [u32]) {
        put_values(answer, &[]);
    }
}

// Yes 1 or no 0.
impl Answer for bool {
    ghost words = { enabled_values };

    fn put(self, answer: &mut [u32]) {
        put_values(answer, &[u32::from(self)]);
    }
}

// The numbers of outcomes and effects.
impl Answer for Handled {
    ghost words = { handled_values };

    fn put(self, answer: &mut [u32]) {
        put_values(answer, &[self.outcomes, self.effects]);
    }
}

// A mark and a time.
impl Answer for Option<u64> {
    ghost words = { due_values };

    fn put(self, answer: &mut [u32]) {
        match self {
            Some(time) => put_values(answer, &[1, words::low_word(time), words::high_word(time)]),
            None => put_values(answer, &[0, 0, 0]),
        }
    }
}

impl Answer for [u32; 16] {
    ghost words = { counter_values };

    fn put(self, answer: &mut [u32]) {
        put_values(answer, &self);
    }
}

// A mark, the minutes and the rule.
impl Answer for NextStart {
    ghost words = { start_values };

    fn put(self, answer: &mut [u32]) {
        match self {
            NextStart::NoStart => put_values(answer, &[0, 0, 0]),
            NextStart::ClockUnknown => put_values(answer, &[2, 0, 0]),
            NextStart::Start(start) => put_values(answer, &[1, start.minutes, start.name]),
        }
    }
}

// How many triggers a line of a crontab has, words an image that is written anew, or solar starts a rule.
impl Answer for u32 {
    ghost words = { one_value };

    fn put(self, answer: &mut [u32]) {
        put_values(answer, &[self]);
    }
}

// How many telegrams are in a list: two words, low first.
impl Answer for usize {
    ghost words = { count_values };

    fn put(self, answer: &mut [u32]) {
        let count = self as u64;
        put_values(answer, &[words::low_word(count), words::high_word(count)]);
    }
}

// The room for outcomes and effects.
// kept: the `put` of `Handled` once more: see `Needed` of room.
impl Answer for Needed {
    ghost words = { numbers };

    fn put(self, answer: &mut [u32]) {
        put_values(answer, &[self.outcomes, self.effects]);
    }
}

// The length of a short list and its places.
impl Answer for ShortList {
    ghost words = { list_words };

    fn put(self, answer: &mut [u32]) {
        let [first, second, third] = self.places;
        put_values(answer, &[self.length, first, second, third]);
    }
}

// Values past the end of the answer are not written; words behind the values are 0.
fn put_values(answer: &mut [u32], values: &[u32])
    ensures { answer.new ≡ lent_answer (length answer.old) values.now }
{
    lent_words::clear(answer);
    let n = values.len().min(answer.len());
    answer[..n].copy_from_slice(&values[..n]);
}

// A refusal has no values.
fn put_answer<T: Answer>(answer: &mut [u32], a: Result<T, Refusal>) -> u32
    ensures { (result ≡ refusal_number a) × (answer.new ≡ lent_answer (length answer.old) (values_of T.words a)) }
{
    match a {
        Ok(value) => {
            value.put(answer);
            0
        }
        Err(refusal) => {
            put_values(answer, &[]);
            u32::from(refusal)
        }
    }
}

pub fn cerambiu_new(store: &mut [u32], time: u64) -> u32
    ensures { called result [] store.new [] [] ≡ answered 0 (call_on (new time) store.old) }
{
    put_answer(&mut [], engine::new(store, time))
}

pub fn cerambiu_load(store: &mut [u32], time: u64, image: &[u32]) -> u32
    ensures { called result [] store.new [] [] ≡ answered 0 (call_on (load time image.now) store.old) }
{
    put_answer(&mut [], engine::load(store, time, image))
}

pub fn cerambiu_unload(store: &mut [u32], time: u64) -> u32
    ensures { called result [] store.new [] [] ≡ answered 0 (call_on (unload time) store.old) }
{
    put_answer(&mut [], engine::unload(store, time))
}

pub fn cerambiu_enable(store: &mut [u32], rule: u32, on: bool, answer: &mut [u32]) -> u32
    ensures { called result answer.new store.new [] [] ≡ answered (length answer.old) (call_on (enable rule on) store.old) }
{
    put_answer(answer, engine::enable(store, rule, on))
}

pub fn cerambiu_tick(
    store: &mut [u32],
    snapshot: &[u32],
    outcomes: &mut [u32],
    effects: &mut [u32],
    answer: &mut [u32],
) -> u32
    ensures { called result answer.new store.new outcomes.new effects.new ≡ answered (length answer.old) (call_on (tick snapshot.now (length outcomes.old) (length effects.old)) store.old) }
{
    put_answer(answer, engine::tick(store, snapshot, outcomes, effects))
}

pub fn cerambiu_run(
    store: &mut [u32],
    rule: u32,
    dry: bool,
    snapshot: &[u32],
    outcomes: &mut [u32],
    effects: &mut [u32],
    answer: &mut [u32],
) -> u32
    ensures { called result answer.new store.new outcomes.new effects.new ≡ answered (length answer.old) (call_on (run rule dry snapshot.now (length outcomes.old) (length effects.old)) store.old) }
{
    put_answer(
        answer,
        engine::run(store, rule, dry, snapshot, outcomes, effects),
    )
}

pub fn cerambiu_next_deadline(store: &[u32], answer: &mut [u32]) -> u32
    ensures { called result answer.new store.now [] [] ≡ answered (length answer.old) (call_on deadline store.now) }
{
    put_answer(answer, engine::next_deadline(store))
}

pub fn cerambiu_counters(store: &[u32], answer: &mut [u32]) -> u32
    ensures { called result answer.new store.now [] [] ≡ answered (length answer.old) (call_on counters store.now) }
{
    put_answer(answer, engine::counters(store))
}

pub fn cerambiu_next_start(store: &[u32], snapshot: &[u32], answer: &mut [u32]) -> u32
    ensures { tells result answer.new [] ≡ told (length answer.old) (next_start_on snapshot.now store.now) }
{
    put_answer(answer, engine::next_start(store, snapshot))
}

pub fn cerambiu_readback(
    store: &[u32],
    rule: u32,
    snapshot: &[u32],
    readback: &mut [u32],
    answer: &mut [u32],
) -> u32
    ensures { tells result answer.new readback.new ≡ told (length answer.old) (readback_on rule snapshot.now (length readback.old) store.now) }
{
    put_answer(answer, engine::readback(store, rule, snapshot, readback))
}

pub fn cerambiu_telegrams(effects: &[u32], list: &mut [u32], answer: &mut [u32]) -> u32
    ensures { tells result answer.new list.new ≡ told (length answer.old) (sending (length list.old) effects.now) }
{
    put_answer(answer, telegrams::telegrams(effects, list))
}

pub fn cerambiu_crontab(line: &[u8], sunday: u32, triggers: &mut [u32], answer: &mut [u32]) -> u32
    ensures { tells result answer.new triggers.new ≡ told (length answer.old) (crontab line.now sunday (length triggers.old)) }
{
    put_answer(answer, crontab::read(line, sunday, triggers))
}

// Asks no store: what an image needs, before it is loaded.
pub fn cerambiu_room(image: &[u32], answer: &mut [u32]) -> u32
    ensures { tells result answer.new [] ≡ told (length answer.old) (room_for image.now) }
{
    put_answer(answer, room::room_for(image))
}

pub fn cerambiu_short_list(
    k: u32,
    actions: &[u32],
    values: &[u32],
    pool: &[u32],
    answer: &mut [u32],
) -> u32
    ensures { tells result answer.new [] ≡ told (length answer.old) (short_list k actions.now values.now pool.now) }
{
    put_answer(answer, short_lists::short_list(k, actions, values, pool))
}

// Asks no store: an image written anew, equal sets as equal words.
pub fn cerambiu_rewrite(image: &[u32], lent: &mut [u32], answer: &mut [u32]) -> u32
    ensures { tells result answer.new lent.new ≡ told (length answer.old) (rewritten image.now (length lent.old)) }
{
    put_answer(answer, rewrite::rewrite(image, lent))
}
