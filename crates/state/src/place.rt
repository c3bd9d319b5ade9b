// Where the parts of the state stand in its words, one behind the other: the words of a store that calls change, in the store's own order
// (docs/STORE.md), and behind them four parts that a call needs: how many records hold a number of the store, how many were accepted,
// how many activations found no number of 64 bits, how many rules there are. A counted part begins with its count.
use rows::row::Row;
use rows::{
    ACTIVATION_WORDS, PENDING_WORDS, POSITION_WORDS, SLOT_WORDS, TIMER_WORDS, VARIABLE_WORDS,
};

// The most rules, variables, timers, Every slots and pending records, and how many counters there are.
pub const MAX_RULES: usize = 64;

pub const MAX_VARIABLES: usize = 16;

pub const MAX_TIMERS: usize = 16;

pub const MAX_SLOTS: usize = 64;

pub const MAX_PENDING: usize = 32;

pub const COUNTER_WORDS: usize = 12;

pub const BITS: usize = 0;

pub const ACTIVATIONS: usize = BITS + MAX_RULES;

pub const POSITIONS: usize = ACTIVATIONS + MAX_RULES * ACTIVATION_WORDS;

pub const VARIABLES: usize = POSITIONS + MAX_RULES * POSITION_WORDS;

pub const TIMERS: usize = VARIABLES + 1 + MAX_VARIABLES * VARIABLE_WORDS;

pub const SLOTS: usize = TIMERS + 1 + MAX_TIMERS * TIMER_WORDS;

pub const PENDING: usize = SLOTS + 1 + MAX_SLOTS * SLOT_WORDS;

pub const WEEK: usize = PENDING + 1 + MAX_PENDING * PENDING_WORDS;

pub const NEXT: usize = WEEK + 1 + u32::WORDS;

pub const LAST: usize = NEXT + u64::WORDS;

pub const COUNTERS: usize = LAST + u64::WORDS;

// The words of the store end here.
pub const STORED: usize = COUNTERS + COUNTER_WORDS;

pub const ACCEPTED: usize = STORED + 1;

pub const BEYOND: usize = ACCEPTED + u64::WORDS;

pub const RULES: usize = BEYOND + u64::WORDS;

// The words of the state.
pub const WORDS: usize = RULES + 1;
