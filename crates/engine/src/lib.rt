// The eight calls: document 01, "Calls". Each is a function on lent words: the store, an image or a snapshot, and for tick and run the
// stores of outcomes and effects. A contract is one equation with the specification's call on words (model's `call_on`), for all
// arguments: the answer's number and values, and all lent words after the call. Beside them stand calls that only ask a store.
#![tactic(auto)]

ghost use Rattle.std.specs.Prelude.{◌≡◌, [], length};
ghost use Rattle.model.specs.Calls.{new, load, unload, enable, tick, run, deadline, counters};
ghost use Rattle.model.specs.OnWords.{call_on};
ghost use Rattle.model.specs.Asked.{shown_result};
ghost use Rattle.model.specs.Readback.{count_values, readback_on};
ghost use Rattle.next.specs.NextStart.{start_values};
ghost use Rattle.engine.specs.Seen.{seen};
ghost use Rattle.engine.specs.Answers.{shown, no_values, enabled_values, handled_values, due_values, counter_values};
ghost use Rattle.engine.specs.Asked.{next_start_on};

use activate::Handled;
use asked::{opened, opened_with};
use handle::{EngineInput, handle};
use load::Loadable;
use model::Refusal;
use next::NextStart;
use state::State;

pub mod asked;
mod handle;
mod readbacks;
mod sets;
mod starts;
mod stored;

// A new store, whatever the words were.
pub fn new(store: &mut [u32], time: u64) -> Result<(), Refusal>
    ensures { shown no_values result store.new [] [] ≡ seen (call_on (new time) store.old) }
{
    let words = store.as_mut_array().ok_or(Refusal::StoreLength)?;
    store::set::put_new(words, time);
    Ok(())
}

// A set of rules, from its image: what surviving names had is kept, and all continuations go.
pub fn load(store: &mut [u32], time: u64, image: &[u32]) -> Result<(), Refusal>
    ensures { shown no_values result store.new [] [] ≡ seen (call_on (load time image.now) store.old) }
{
    let words = store.as_mut_array().ok_or(Refusal::StoreLength)?;
    let checked = opened(words)?;
    let loadable = Loadable::of(image)?;
    let mut v = State::new();
    sets::with_set(&checked, &loadable, time, &mut v);
    store::put_set::put_loaded(words, &loadable);
    store::volatile::put_state(words, &v);
    store::set::put_last(words, time);
    Ok(())
}

// No set of rules.
// kept: `load`, `unload` and `enable` open the store and put the state back. `load` and `unload` put the set before it and the time behind it, and `enable`
// may end before it, so that one function would take a closure for each of these.
pub fn unload(store: &mut [u32], time: u64) -> Result<(), Refusal>
    ensures { shown no_values result store.new [] [] ≡ seen (call_on (unload time) store.old) }
{
    let words = store.as_mut_array().ok_or(Refusal::StoreLength)?;
    let checked = opened(words)?;
    let mut v = State::new();
    sets::without_set(&checked, &mut v);
    store::set::put_unloaded(words);
    store::volatile::put_state(words, &v);
    store::set::put_last(words, time);
    Ok(())
}

// A rule, by its name, is enabled or disabled; who disables also drops the rule's continuations. Whether there is such a rule.
pub fn enable(store: &mut [u32], rule: u32, on: bool) -> Result<bool, Refusal>
    ensures { shown enabled_values result store.new [] [] ≡ seen (call_on (enable rule on) store.old) }
{
    let words = store.as_mut_array().ok_or(Refusal::StoreLength)?;
    let checked = opened(words)?;
    let Some(i) = checked.rule_in(rule) else {
        return Ok(false);
    };
    let mut v = State::new();
    checked.begin(&mut v);
    v.set_enabled(rule, i as usize, on);
    // kept: this opens the value, so that what its type says of the words can be cited; no code comes of it. Without it, a clause of
    // each function that changes a `State` would say again that its words are sound.
    let _ = &v.words;
    store::volatile::put_state(words, &v);
    Ok(true)
}

// What is due in the world of a snapshot runs. Outcomes and effects go into the lent stores.
pub fn tick(
    store: &mut [u32],
    snapshot: &[u32],
    outcomes: &mut [u32],
    effects: &mut [u32],
) -> Result<Handled, Refusal>
    ensures { shown handled_values result store.new outcomes.new effects.new ≡ seen (call_on (tick snapshot.now (length outcomes.old) (length effects.old)) store.old) }
{
    handle(store, EngineInput::Tick, snapshot, outcomes, effects)
}

// A rule runs, by its name, in the world of a snapshot.
pub fn run(
    store: &mut [u32],
    rule: u32,
    dry: bool,
    snapshot: &[u32],
    outcomes: &mut [u32],
    effects: &mut [u32],
) -> Result<Handled, Refusal>
    ensures { shown handled_values result store.new outcomes.new effects.new ≡ seen (call_on (run rule dry snapshot.now (length outcomes.old) (length effects.old)) store.old) }
{
    let input = EngineInput::RunRule { name: rule, dry };
    handle(store, input, snapshot, outcomes, effects)
}

// When the store next has something to do.
pub fn next_deadline(store: &[u32]) -> Result<Option<u64>, Refusal>
    ensures { shown due_values result store.now [] [] ≡ seen (call_on deadline store.now) }
{
    let checked = opened(store)?;
    Ok(stored::next_deadline(&checked))
}

// The 12 counters, then how many are pending, timers, rules and variables.
pub fn counters(store: &[u32]) -> Result<[u32; 16], Refusal>
    ensures { shown counter_values result store.now [] [] ≡ seen (call_on counters store.now) }
{
    let checked = opened(store)?;
    Ok(stored::counters(&checked))
}

// What starts next by the wall clock, in the world of a snapshot.
pub fn next_start(store: &[u32], snapshot: &[u32]) -> Result<NextStart, Refusal>
    ensures { shown_result start_values result [] ≡ next_start_on snapshot.now store.now }
{
    let (checked, accepted) = opened_with(store, snapshot)?;
    Ok(starts::next_start(&checked, &accepted))
}

// The starts of a rule's AtSolar triggers in the world of a snapshot, in the words that are lent for them. How many they are.
pub fn readback(
    store: &[u32],
    rule: u32,
    snapshot: &[u32],
    starts: &mut [u32],
) -> Result<u32, Refusal>
    ensures { shown_result count_values result starts.new ≡ readback_on rule snapshot.now (length starts.old) store.now }
{
    lent_words::clear(starts);
    let (checked, accepted) = opened_with(store, snapshot)?;
    readbacks::readback(&checked, rule, &accepted, starts)
}
