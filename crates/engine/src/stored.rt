// What a store answers of itself.
ghost use Rattle.std.specs.Prelude.{◌≡◌};
ghost use Rattle.model.specs.Calls.{counters_of};
ghost use Rattle.model.specs.Wheel.{next_deadline};

use rows::row::Row;
use state::State;
use state::place::COUNTER_WORDS;
use store::checked::Checked;
use store::table;

// The next deadline.
pub fn next_deadline(store: &Checked) -> Option<u64>
    ensures { result ≡ next_deadline store.now }
{
    let mut v = State::new();
    store.begin(&mut v);
    wheel::deadline::next_deadline(store.image(), &v, store.last_at())
}

// The 12 counters and the four gauges.
pub fn counters(store: &Checked) -> [u32; 16]
    ensures { result ≡ counters_of store.now }
{
    let words = store.words();
    let gauges = [
        u32::at(words, table::PENDING),
        u32::at(words, table::TIMERS),
        store.rule_count() as u32,
        u32::at(words, table::VARIABLES),
    ];
    let mut values = [0; 16];
    let (first, last) = values.split_at_mut(COUNTER_WORDS);
    first.copy_from_slice(&words[table::COUNTERS..table::STATE_END]);
    last.copy_from_slice(&gauges);
    values
}
