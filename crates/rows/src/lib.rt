// Rows of words at places: what they say, and words that say a value. The rows are those of the layout of a store (model's `Parts`).
#![tactic(auto)]

pub mod put;
pub mod records;
pub mod row;
pub mod tables;

use model::{EverySlot, NamedTimer, Pending, Variable};
use row::Row;

// The words of a rule's last activation, and of its cycle position: a mark, and a row behind it.
pub const ACTIVATION_WORDS: usize = 1 + u64::WORDS;

pub const POSITION_WORDS: usize = 1 + u32::WORDS;

// The words of a record.
pub const VARIABLE_WORDS: usize = Variable::WORDS;

pub const TIMER_WORDS: usize = NamedTimer::WORDS;

pub const SLOT_WORDS: usize = EverySlot::WORDS;

pub const PENDING_WORDS: usize = Pending::WORDS;
