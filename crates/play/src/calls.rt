// A line's call is made on what is lent, and its answer printed.
ghost use Rattle.std.specs.Prelude.{ℕ, ◌≡◌, ◌≢◌, List, MatchResult, length, min, get_or, set, take, drop, replicate};
ghost use Rattle.model.specs.Calls as Calls;
ghost use Rattle.model.specs.Crontab as Crontab;
ghost use Rattle.model.specs.Readback.{readback_on};
ghost use Rattle.model.specs.ShortLists.{short_list};
ghost use Rattle.model.specs.Rewrite.{rewritten};
ghost use Rattle.engine.specs.Asked.{next_start_on};
ghost use Rattle.room.specs.Needed.{room_for};
ghost use Rattle.cerambiu.specs.Told.{sending};
ghost use Rattle.script.specs.declared.calls.Call.TheVariants as Call;
ghost use Rattle.script.specs.Scan.{Ranged};
ghost use Rattle.play.specs.Printed.{telegram_lines, trigger_lines, start_lines, room_lines, place_lines, rewrite_lines, readback_lines};
ghost use Rattle.play.specs.Playing.{calling, asking, asking_store, beginning};
ghost use Rattle.play.specs.declared.output.Output.{Output};
ghost use Rattle.play.specs.Gathered.{Makes, Does, done, lent_after};

use crate::answers;
use crate::output::Output;
use script::calls::{EFFECT_WORDS, OUTCOME_WORDS};
use script::{Call, Command};
use store::table;

// The words of the store, of outcomes and of effects that later calls are lent.
#[derive(Clone, Copy, PartialEq, Eq)]
pub struct Settings {
    pub size: usize,
    pub outcomes: usize,
    pub effects: usize,
}

// A word more than a store has.
const STORE_WORDS: usize = table::WORDS + 1;

// What calls are lent. The store has a word to spare, so that a call on one that is too long can be tried. The words for effects also serve a call that
// answers into a store of its own: nothing of them is kept from call to call.
#[derive(Drop)]
pub struct Lent {
    store: [u32; STORE_WORDS],
    outcomes: [u32; OUTCOME_WORDS],
    effects: [u32; EFFECT_WORDS],
    settings: Settings,
}

// A call as a line says it: with the words of its list and the bytes of its text.
#[derive(Clone, Copy)]
pub struct Said<'a> {
    pub command: Command,
    pub list: &'a [u32],
    pub text: &'a [u8],
}

// The number of a refusal, as the C interface gives it.
#[derive(Clone, Copy, PartialEq, Eq)]
struct Refused(u32);

// kept: 0 is a number here, as it is at the C interface, whose refusals the player prints by their numbers.
fn accepted(number: u32) -> Result<(), Refused>
    ensures { MatchResult result (λ _. number ≡ 0) (λ e. (number ≡ e.0) × (number ≢ 0)) }
{
    match number {
        0 => Ok(()),
        _ => Err(Refused(number)),
    }
}

// kept: this and the thirteen below are a call of the C interface each, with arguments and a printer of its own, as it would be no plainer: one function over
// closures would need the contracts of both as `requires`. A function that cuts a store would save a line in eight of them and three in a tick and a run, and be two, for `&` and
// for `&mut`, each with the clauses of what comes back; a struct of the three stores would be made by `make` for a tick and a run alone, and say besides that the stores that come
// back are those that were lent.
// Tried: `new`, `load` and `unload` as arms of `make`, where the store is lent as a field: the clause `makes` did not close, which is of `self.new.store`.
fn new(size: usize, time: u64, store: &mut [u32]) -> Result<(), Refused>
    ensures { (o : Output) → Makes (calling size (Calls.new time) store.old) Call.New store.new o o result }
{
    let n = size.min(store.len());
    accepted(cerambiu::cerambiu_new(&mut store[..n], time))
}

fn load(size: usize, time: u64, image: &[u32], store: &mut [u32]) -> Result<(), Refused>
    ensures { (o : Output) → Makes (calling size (Calls.load time image.now) store.old) Call.Load store.new o o result }
{
    let n = size.min(store.len());
    accepted(cerambiu::cerambiu_load(&mut store[..n], time, image))
}

fn unload(size: usize, time: u64, store: &mut [u32]) -> Result<(), Refused>
    ensures { (o : Output) → Makes (calling size (Calls.unload time) store.old) Call.Unload store.new o o result }
{
    let n = size.min(store.len());
    accepted(cerambiu::cerambiu_unload(&mut store[..n], time))
}

fn enable(
    size: usize,
    rule: u32,
    on: bool,
    store: &mut [u32],
    out: &mut Output,
) -> Result<(), Refused>
    ensures { Makes (calling size (Calls.enable rule on) store.old) Call.Enable store.new out.old out.new result }
{
    let n = size.min(store.len());
    let mut answer = [0u32; 16];
    accepted(cerambiu::cerambiu_enable(&mut store[..n], rule, on, &mut answer))?;
    answers::enabled(out, rule, &answer);
    Ok(())
}

fn deadline(size: usize, store: &[u32], out: &mut Output) -> Result<(), Refused>
    ensures { Makes (calling size Calls.deadline store.now) Call.Deadline store.now out.old out.new result }
{
    let n = size.min(store.len());
    let mut answer = [0u32; 16];
    accepted(cerambiu::cerambiu_next_deadline(&store[..n], &mut answer))?;
    answers::deadline(out, &answer);
    Ok(())
}

fn counters(size: usize, store: &[u32], out: &mut Output) -> Result<(), Refused>
    ensures { Makes (calling size Calls.counters store.now) Call.Counters store.now out.old out.new result }
{
    let n = size.min(store.len());
    let mut answer = [0u32; 16];
    accepted(cerambiu::cerambiu_counters(&store[..n], &mut answer))?;
    answers::counters(out, &answer);
    Ok(())
}

fn tick(
    most: Settings,
    snapshot: &[u32],
    store: &mut [u32],
    outcomes: &mut [u32],
    effects: &mut [u32],
    out: &mut Output,
) -> Result<(), Refused>
    ensures { Makes (calling most.size (Calls.tick snapshot.now (min most.outcomes (length outcomes.old)) (min most.effects (length effects.old))) store.old) Call.Tick store.new out.old out.new result }
{
    let n = most.size.min(store.len());
    let os = most.outcomes.min(outcomes.len());
    let es = most.effects.min(effects.len());
    let outcomes = &mut outcomes[..os];
    let effects = &mut effects[..es];
    let mut answer = [0u32; 16];
    accepted(cerambiu::cerambiu_tick(&mut store[..n], snapshot, outcomes, effects, &mut answer))?;
    let time = world::now_ms(snapshot);
    answers::handled(out, Call::Tick, time, &answer, outcomes, effects);
    Ok(())
}

fn run(
    most: Settings,
    rule: u32,
    dry: bool,
    snapshot: &[u32],
    store: &mut [u32],
    outcomes: &mut [u32],
    effects: &mut [u32],
    out: &mut Output,
) -> Result<(), Refused>
    ensures { Makes (calling most.size (Calls.run rule dry snapshot.now (min most.outcomes (length outcomes.old)) (min most.effects (length effects.old))) store.old) Call.Run store.new out.old out.new result }
{
    let n = most.size.min(store.len());
    let os = most.outcomes.min(outcomes.len());
    let es = most.effects.min(effects.len());
    let outcomes = &mut outcomes[..os];
    let effects = &mut effects[..es];
    let mut answer = [0u32; 16];
    accepted(cerambiu::cerambiu_run(
        &mut store[..n],
        rule,
        dry,
        snapshot,
        outcomes,
        effects,
        &mut answer,
    ))?;
    let time = world::now_ms(snapshot);
    answers::handled(out, Call::Run, time, &answer, outcomes, effects);
    Ok(())
}

fn telegrams(
    room: usize,
    words: &[u32],
    effects: &mut [u32],
    out: &mut Output,
) -> Result<(), Refused>
    ensures { (w : List ℕ) → Makes (asking Call.Telegrams telegram_lines (sending (min room (length effects.old)) words.now) w) Call.Telegrams w out.old out.new result }
{
    let n = room.min(effects.len());
    let list = &mut effects[..n];
    let mut answer = [0u32; 16];
    accepted(cerambiu::cerambiu_telegrams(words, list, &mut answer))?;
    answers::telegrams(out, &answer, list);
    Ok(())
}

fn crontab(
    sunday: u32,
    room: usize,
    text: &[u8],
    effects: &mut [u32],
    out: &mut Output,
) -> Result<(), Refused>
    ensures { (w : List ℕ) → Makes (asking Call.Crontab trigger_lines (Crontab.crontab text.now sunday (min room (length effects.old))) w) Call.Crontab w out.old out.new result }
{
    let n = room.min(effects.len());
    let triggers = &mut effects[..n];
    let mut answer = [0u32; 16];
    accepted(cerambiu::cerambiu_crontab(text, sunday, triggers, &mut answer))?;
    answers::triggers(out, &answer, triggers);
    Ok(())
}

fn start(size: usize, snapshot: &[u32], store: &[u32], out: &mut Output) -> Result<(), Refused>
    ensures { Makes (asking_store size Call.Start start_lines (next_start_on snapshot.now) store.now) Call.Start store.now out.old out.new result }
{
    let n = size.min(store.len());
    let mut answer = [0u32; 16];
    accepted(cerambiu::cerambiu_next_start(&store[..n], snapshot, &mut answer))?;
    answers::start(out, &answer);
    Ok(())
}

fn room(image: &[u32], out: &mut Output) -> Result<(), Refused>
    ensures { (w : List ℕ) → Makes (asking Call.RoomFor room_lines (room_for image.now) w) Call.RoomFor w out.old out.new result }
{
    let mut answer = [0u32; 16];
    accepted(cerambiu::cerambiu_room(image, &mut answer))?;
    answers::room(out, &answer);
    Ok(())
}

// The words of a list are those of actions, then of values, then of the pool.
fn short_list(
    k: u32,
    actions: usize,
    values: usize,
    list: &[u32],
    out: &mut Output,
) -> Result<(), Refused>
    ensures { (w : List ℕ) → Makes (asking Call.ShortList place_lines (short_list k (take actions list.now) (take values (drop actions list.now)) (drop values (drop actions list.now))) w) Call.ShortList w out.old out.new result }
{
    let n = actions.min(list.len());
    let rest = &list[n..];
    let m = values.min(rest.len());
    let mut answer = [0u32; 16];
    accepted(cerambiu::cerambiu_short_list(k, &list[..n], &rest[..m], &rest[m..], &mut answer))?;
    answers::short_list(out, &answer);
    Ok(())
}

fn rewrite(room: usize, image: &[u32], effects: &mut [u32], out: &mut Output) -> Result<(), Refused>
    ensures { (w : List ℕ) → Makes (asking Call.Rewrite rewrite_lines (rewritten image.now (min room (length effects.old))) w) Call.Rewrite w out.old out.new result }
{
    let n = room.min(effects.len());
    let lent = &mut effects[..n];
    let mut answer = [0u32; 16];
    accepted(cerambiu::cerambiu_rewrite(image, lent, &mut answer))?;
    answers::rewrite(out, &answer, lent);
    Ok(())
}

fn readback(
    size: usize,
    rule: u32,
    room: usize,
    snapshot: &[u32],
    store: &[u32],
    effects: &mut [u32],
    out: &mut Output,
) -> Result<(), Refused>
    ensures { Makes (asking_store size Call.Readback readback_lines (readback_on rule snapshot.now (min room (length effects.old))) store.now) Call.Readback store.now out.old out.new result }
{
    let n = size.min(store.len());
    let es = room.min(effects.len());
    let starts = &mut effects[..es];
    let mut answer = [0u32; 16];
    accepted(cerambiu::cerambiu_readback(&store[..n], rule, snapshot, starts, &mut answer))?;
    answers::readback(out, &answer, starts);
    Ok(())
}

fn poke(store: &mut [u32], place: usize, word: u32)
    ensures { store.new ≡ set store.old place word }
{
    if place < store.len() {
        store[place] = word;
    }
}

impl Lent {
    // A store made new at time 0, which a script finds.
    pub fn new() -> Self
        ensures store { result.store ≡ (calling 16384 (Calls.new 0) (replicate 16385 0)).store }
        ensures settings { result.settings ≡ beginning }
    {
        let mut store = [0u32; STORE_WORDS];
        let _accepted = new(table::WORDS, 0, &mut store);
        Lent {
            store,
            outcomes: [0; OUTCOME_WORDS],
            effects: [0; EFFECT_WORDS],
            settings: Settings {
                size: table::WORDS,
                outcomes: OUTCOME_WORDS,
                effects: EFFECT_WORDS,
            },
        }
    }

    // Makes a call of the table.
    // kept: an arm for each call, which is what the enum is for; closures would hide what each is lent.
    #[tactic(auto, using(crate::proofs::Gathering::gathers_none), unfolding(crate::specs::Playing::doing))]
    fn make(&mut self, line: &Said, out: &mut Output) -> Result<(), Refused>
        requires { Ranged line.now.command }
        ensures makes { Makes (done line.now self.old) line.now.command.call self.new.store out.old out.new result }
        ensures settings { self.new.settings ≡ lent_after line.now self.old.settings }
    {
        let [a, b, c, _] = line.command.numbers;
        let (most, size) = (self.settings, self.settings.size);
        let (store, os, es) = (&mut self.store, &mut self.outcomes, &mut self.effects);
        match line.command.call {
            Call::New => new(size, a, store),
            Call::Load => load(size, a, line.list, store),
            Call::Unload => unload(size, a, store),
            Call::Enable => enable(size, a as u32, b == 1, store, out),
            Call::Tick => tick(most, line.list, store, os, es, out),
            Call::Run => run(most, a as u32, b == 1, line.list, store, os, es, out),
            Call::Deadline => deadline(size, store, out),
            Call::Counters => counters(size, store, out),
            Call::Telegrams => telegrams(a as usize, line.list, es, out),
            Call::Crontab => crontab(a as u32, b as usize, line.text, es, out),
            Call::Start => start(size, line.list, store, out),
            Call::RoomFor => room(line.list, out),
            Call::ShortList => short_list(a as u32, b as usize, c as usize, line.list, out),
            Call::Rewrite => rewrite(a as usize, line.list, es, out),
            Call::Readback => readback(size, a as u32, b as usize, line.list, store, es, out),
            Call::Lend => {
                (self.settings.outcomes, self.settings.effects) = (a as usize, b as usize);
                Ok(())
            }
            Call::Size => {
                self.settings.size = a as usize;
                Ok(())
            }
            Call::Poke => {
                poke(store, a as usize, b as u32);
                Ok(())
            }
            Call::Peek => {
                answers::peeked(out, a, fields::word(store, a as usize));
                Ok(())
            }
        }
    }

    // Makes the call that a line says, and prints its answer or its refusal.
    pub fn obey(&mut self, line: &Said, out: &mut Output)
        requires { Ranged line.now.command }
        ensures does { Does (done line.now self.old) self.new.store out.old out.new }
        ensures settings { self.new.settings ≡ lent_after line.now self.old.settings }
    {
        if let Err(Refused(number)) = self.make(line, out) {
            answers::refused(out, line.command.call, number);
        }
    }
}
