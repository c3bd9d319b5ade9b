// The part of a store that calls change, as words, changed in place: a call copies the words out of the store, lends them down, and copies
// them back when it is not refused. Each operation changes a few words. A contract is one equation: the words after it mean (`meaning`) what
// a definition of the specification makes of what the words before it meant; `Means` says besides that the words keep their shape, and that
// the numbers are still counted from the same one.
//
// Sequence numbers. The specification numbers records without a bound, and refuses a call that takes the next number past
// 2^64 - 1 only at its end (31). So inside a call no number is made that could wrap: the next number of the store stays,
// beside it stands how many records the call has accepted, and the next number is their sum, in ℕ. A record of the call holds
// its offset from the store's next number. A new record goes behind those present and closing up keeps the order, so the records that came
// with the store stand in front: the first so many (`place::STORED`) hold their numbers, the others offsets. What is due is taken out before
// any record is accepted, so what is ordered there are the store's own numbers. `assign_numbers` gives each record its number at the end.
//
// Activation numbers likewise (32): the last one given counts up to 2^64 - 1, and beside it stands how many were needed beyond it.
#![tactic(auto)]

ghost use Rattle.std.specs.Prelude.{◌≡◌, ◌+◌, ◌≤◌, length};
ghost use Rattle.counters.specs.Counters.{counters_of, place_of_counter};
ghost use Rattle.model.specs.Parts.{any};
ghost use Rattle.model.specs.State.{with_rest, bump_by, with_prev_week_min};
ghost use Rattle.rows.specs.Places.{table_at, laid};
ghost use Rattle.state.specs.Meaning.{Sound, Means, MeansSoundly, meaning, base};

use counters::{Counter, Counters};
use rows::put::put_words;
use rows::row::{Row, option_at, put_option};
use std::marker::Model;

pub mod last_number;
pub mod pending;
pub mod place;
pub mod reasons;
pub mod rules;
pub mod selection;
pub mod sequence;
pub mod slots;
pub mod table;
pub mod timers;
pub mod variables;

// The words of a state, which are sound: seen as the list of them.
// kept: the words are open. `store::volatile` copies parts of them from a store's layout and back, and `every` builds the slots in their part: a method for each
// would lend the same words under another name.
#[derive(Drop)]
pub struct State {
    pub words: [u32; place::WORDS],
}

impl Model for State {
    ghost use Rattle.std.specs.Prelude.{List, ℕ};
    ghost use Rattle.state.specs.Meaning.{Sound};

    ghost Value = { List ℕ };

    ghost view = { λ s. s.words };

    ghost invariant = { λ s. Sound s.words };
}

// kept: document 01 wants the counters as one record, lent to a thin `bump`: so this reads each field by its name, and `put_counters` writes it. No `Row`: the
// specification's counters are a list of words, so that the record would stand in a codec which only these two and their callers could use.
fn counters_at(s: &[u32], k: usize) -> Counters
    requires { k ≤ 16384 }
    ensures { counters_of result ≡ table_at any 12 s.now k }
{
    Counters {
        activations_total: u32::at(s, k),
        activations_dry: u32::at(s, k + 1),
        suppressed_cooldown: u32::at(s, k + 2),
        suppressed_disabled: u32::at(s, k + 3),
        conditions_rejected: u32::at(s, k + 4),
        partial_outcomes: u32::at(s, k + 5),
        effects_emitted: u32::at(s, k + 6),
        actions_failed: u32::at(s, k + 7),
        continuations_scheduled: u32::at(s, k + 8),
        continuations_fired: u32::at(s, k + 9),
        continuations_dropped: u32::at(s, k + 10),
        ticks_time_unsynced: u32::at(s, k + 11),
    }
}

#[tactic(auto, unfolding(counters::specs::Counters::counters_of))]
fn put_counters(s: &mut [u32], k: usize, c: Counters)
    requires { k + 12 ≤ length s.old }
    ensures { s.new ≡ laid s.old k (counters_of c) }
{
    let values = [
        c.activations_total,
        c.activations_dry,
        c.suppressed_cooldown,
        c.suppressed_disabled,
        c.conditions_rejected,
        c.partial_outcomes,
        c.effects_emitted,
        c.actions_failed,
        c.continuations_scheduled,
        c.continuations_fired,
        c.continuations_dropped,
        c.ticks_time_unsynced,
    ];
    put_words(s, k, &values);
}

// kept: beside `set_prev_week_min`, since the proof needs that each word is below 2^32, which is known of a slice that is an argument and not of a field.
fn put_minute(w: &mut [u32], minute: Option<u32>)
    requires { Sound w.old }
    ensures { MeansSoundly w.new (base w.old) (with_rest (with_prev_week_min minute (meaning w.old).rest) (meaning w.old)) }
{
    put_option(w, place::WEEK, minute);
}

// For a caller that has the counter's number: it goes up by `by`, and a number past the last changes nothing.
pub fn bump(v: &mut State, which: u32, by: u32)
    ensures { Means v.new (base v.old) (with_rest (bump_by which by (meaning v.old).rest) (meaning v.old)) }
{
    let c = counters_at(&v.words, place::COUNTERS);
    let d = counters::with_bump(c, which, by);
    put_counters(&mut v.words, place::COUNTERS, d);
}

impl State {
    ghost use Rattle.std.specs.Prelude.{◌≡◌, replicate};
    ghost use Rattle.state.specs.Meaning.{state_words};

    // Of no rules, in which nothing is kept. Inlined, so that the array is made where it stays.
    #[inline(always)]
    pub fn new() -> State
        ensures { result ≡ replicate state_words 0 }
    {
        State {
            words: [0; place::WORDS],
        }
    }

    // A counter goes up by `by`: the 12 words are read into the record, which is lent, and written back.
    pub fn bump(&mut self, which: Counter, by: u32)
        ensures { Means self.new (base self.old) (with_rest (bump_by (place_of_counter which) by (meaning self.old).rest) (meaning self.old)) }
    {
        let mut c = counters_at(&self.words, place::COUNTERS);
        c.bump(which, by);
        put_counters(&mut self.words, place::COUNTERS, c);
    }

    // The minute of the week at the tick before.
    pub fn prev_week_min(&self) -> Option<u32>
        ensures { result ≡ (meaning self.now).rest.prev_week_min }
    {
        option_at(&self.words, place::WEEK)
    }

    pub fn set_prev_week_min(&mut self, minute: Option<u32>)
        ensures { Means self.new (base self.old) (with_rest (with_prev_week_min minute (meaning self.old).rest) (meaning self.old)) }
    {
        put_minute(&mut self.words, minute);
    }
}
