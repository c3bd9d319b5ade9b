// Tick and run: `handle`.
ghost use Rattle.std.specs.Prelude.{◌≡◌, true, ◌||◌, length};
ghost use Rattle.model.specs.Lists.{present};
ghost use Rattle.model.specs.Refusals.{refusal_number};
ghost use Rattle.model.specs.State.{is_enabled};
ghost use Rattle.model.specs.Store.{read};
ghost use Rattle.state.specs.Meaning.{AllNumbered, meaning};
ghost use Rattle.activate.specs.Carried.{carried_by, SameLent, Over};
ghost use Rattle.activate.specs.Handled.{Room};
ghost use Rattle.model.specs.OnWords.{call_on};
ghost use Rattle.engine.specs.Seen.{seen};
ghost use Rattle.engine.specs.Answers.{shown, handled_values};
ghost use Rattle.engine.specs.Handling.{ran_in, ticked_in, over_of, Comes, Commits};
ghost use Rattle.engine.specs.Inputs.{dispatched_in, call_of};

use crate::asked::opened_with;
use activate::{Handled, Lent, Mode, NOTHING};
use counters::Counter;
use model::{Refusal, TriggerKind};
use state::State;
use store::checked::Checked;
use store::table;
use world::accepted::Accepted;

// What comes in beside the snapshot: a tick, or a rule that runs, by its name.
// kept: two kinds of the Rust's enum. An Option of a rule would not say that without one it is a tick.
#[derive(Clone, Copy)]
pub enum EngineInput {
    Tick,
    RunRule { name: u32, dry: bool },
}

// The lowest refusal of a call that has come so far, where there is one: there is no room for it, or no number.
fn fits(lent: &Lent) -> Result<(), Refusal>
    ensures { refusal_number result ≡ over_of (length lent.now.outcomes.now) (length lent.now.effects.now) (carried_by lent.now) }
{
    if lent.outcomes.len() / activate::OUTCOME_WORDS < lent.handled.outcomes as usize
        || lent.effects.len() / lent_words::EFFECT_WORDS < lent.handled.effects as usize
    {
        return Err(Refusal::LentStores);
    }
    if !lent.state.next_fits() {
        return Err(Refusal::SequenceNumber);
    }
    if !lent.state.last_fits() {
        return Err(Refusal::ActivationNumber);
    }
    Ok(())
}

// The call ends: it is refused with 30, 31 or 32, and leaves nothing in the lent stores, or the store is written.
fn commit(store: &mut [u32; table::WORDS], lent: &mut Lent, time: u64) -> Result<Handled, Refusal>
    requires { present (read store.old) ≡ true }
    ensures ends { Commits (carried_by lent.old) time store.old lent.old.outcomes.now lent.old.effects.now result store.new lent.new.outcomes.now lent.new.effects.now }
    ensures same { SameLent lent.old lent.new }
{
    match fits(lent) {
        Err(refusal) => {
            lent_words::clear(lent.outcomes);
            lent_words::clear(lent.effects);
            Err(refusal)
        }
        Ok(()) => {
            lent.state.assign_numbers();
            store::volatile::put_state(store, lent.state);
            store::set::put_last(store, time);
            Ok(lent.handled)
        }
    }
}

// A wet run asks whether the rule is enabled, a dry one does not.
fn starts(v: &State, i: u32, dry: bool) -> bool
    ensures { result ≡ (dry || is_enabled (meaning v.now).rest i) }
{
    dry || v.is_enabled(i as usize)
}

// `run_rule`: a rule that is not loaded does nothing.
// kept: store, snapshot and lent side by side, here, in `service` and in `dispatch`: a struct of the first two would be made in `handle` for one call of `dispatch`, and be taken
// apart in both functions that it leads to, since `activate` takes the words of any snapshot and no store, and `service_tick` no store that is checked.
fn run_rule(store: &Checked, snapshot: &[u32], lent: &mut Lent, name: u32, dry: bool)
    requires { Room 1 (carried_by lent.old) }
    ensures { Over (Comes (ran_in store.now.loaded name dry snapshot.now)) lent.old lent.new }
{
    let words = store.words();
    let Some(image) = store.image() else { return };
    let Some(i) = image.rule_named(name) else {
        return
    };
    if !starts(lent.state, i, dry) {
        return lent.state.bump(Counter::SuppressedDisabled, 1);
    }
    let mode = if dry { Mode::Dry } else { Mode::Manual };
    let steps = store::flat_part::rule_flat(words, i);
    let kind = TriggerKind::HttpTrigger;
    activate::activate(snapshot, &image, &steps, lent, i, kind, mode);
}

// `service_tick`: without a set nothing is due.
fn service(store: &Checked, snapshot: &Accepted, lent: &mut Lent)
    requires ready { AllNumbered lent.old.state.now store.now.vol }
    requires nothing { lent.old.handled ≡ record { outcomes = 0; effects = 0 } }
    ensures { Over (Comes (ticked_in store.now.loaded snapshot.now)) lent.old lent.new }
{
    if let Some(image) = store.image() {
        wheel::tick::service_tick(snapshot, &image, store.words(), lent);
    }
}

// What comes in is done. Inlined, as `handle` is: the stack of a run is then what a rule takes, and not what a tick does.
#[inline(always)]
fn dispatch(input: EngineInput, store: &Checked, snapshot: &Accepted, lent: &mut Lent)
    requires ready { AllNumbered lent.old.state.now store.now.vol }
    requires nothing { lent.old.handled ≡ record { outcomes = 0; effects = 0 } }
    ensures { Over (Comes (dispatched_in input store.now.loaded snapshot.now)) lent.old lent.new }
{
    match input {
        EngineInput::Tick => service(store, snapshot, lent),
        EngineInput::RunRule { name, dry } => run_rule(store, snapshot.words(), lent, name, dry),
    }
}

// In the world of a snapshot. Outcomes and effects go into the lent stores.
// kept: snapshot, outcomes and effects side by side, here, in `tick` and in `run`: they are what the C interface lends for these calls, each by itself, and the contract
// of a call is an equation of them.
#[inline(always)]
pub fn handle(
    store: &mut [u32],
    input: EngineInput,
    snapshot: &[u32],
    outcomes: &mut [u32],
    effects: &mut [u32],
) -> Result<Handled, Refusal>
    ensures { shown handled_values result store.new outcomes.new effects.new ≡ seen (call_on (call_of input snapshot.now (length outcomes.old) (length effects.old)) store.old) }
{
    lent_words::clear(outcomes);
    lent_words::clear(effects);
    let words = store.as_mut_array().ok_or(Refusal::StoreLength)?;
    let (checked, accepted) = opened_with(words, snapshot)?;
    let mut v = State::new();
    checked.begin(&mut v);
    let mut lent = Lent {
        outcomes,
        effects,
        state: &mut v,
        handled: NOTHING,
    };
    dispatch(input, &checked, &accepted, &mut lent);
    commit(words, &mut lent, world::now_ms(snapshot))
}
