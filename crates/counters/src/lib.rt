// The 12 counters of a store, the Rust's `EngineCounters` without the one that nothing counts, as one record. Document 01: the counters are one record, lent and
// changed in place (`bump`).
#![tactic(auto)]

ghost use Rattle.std.specs.Prelude.{◌≡◌, ◌≤◌, MatchOption};
ghost use Rattle.words.specs.Saturating.{max32, saturating_add};
ghost use Rattle.model.specs.State.{raised_at};
ghost use Rattle.counters.specs.Counters.{counters_of, place_of_counter};

// The name of a counter, in the order of the record.
#[derive(Clone, Copy)]
pub enum Counter {
    ActivationsTotal,
    ActivationsDry,
    SuppressedCooldown,
    SuppressedDisabled,
    ConditionsRejected,
    PartialOutcomes,
    EffectsEmitted,
    ActionsFailed,
    ContinuationsScheduled,
    ContinuationsFired,
    ContinuationsDropped,
    TicksTimeUnsynced,
}

#[derive(Clone, Copy)]
pub struct Counters {
    pub activations_total: u32,
    pub activations_dry: u32,
    pub suppressed_cooldown: u32,
    pub suppressed_disabled: u32,
    pub conditions_rejected: u32,
    pub partial_outcomes: u32,
    pub effects_emitted: u32,
    pub actions_failed: u32,
    pub continuations_scheduled: u32,
    pub continuations_fired: u32,
    pub continuations_dropped: u32,
    pub ticks_time_unsynced: u32,
}

// Up by `by`, at most to 2^32 - 1.
#[tactic(auto, unfolding(words::specs::Saturating::saturating_add))]
fn raise(counter: &mut u32, by: u32)
    ensures { counter.new ≡ saturating_add max32 counter.old by }
{
    *counter = counter.saturating_add(by);
}

impl Counters {
    // A counter goes up by `by`, and stops at 2^32 - 1.
    #[tactic(auto, unfolding(crate::specs::Counters::counters_of))]
    pub fn bump(&mut self, which: Counter, by: u32)
        ensures { counters_of self.new ≡ raised_at (place_of_counter which) by (counters_of self.old) }
    {
        // kept: an arm for each counter, as document 01 wants one record with a field for each, lent to a thin `bump`. Tried: a match that answers the field, raised once
        // behind it: nothing that can be cited says what the record ends as.
        match which {
            Counter::ActivationsTotal => raise(&mut self.activations_total, by),
            Counter::ActivationsDry => raise(&mut self.activations_dry, by),
            Counter::SuppressedCooldown => raise(&mut self.suppressed_cooldown, by),
            Counter::SuppressedDisabled => raise(&mut self.suppressed_disabled, by),
            Counter::ConditionsRejected => raise(&mut self.conditions_rejected, by),
            Counter::PartialOutcomes => raise(&mut self.partial_outcomes, by),
            Counter::EffectsEmitted => raise(&mut self.effects_emitted, by),
            Counter::ActionsFailed => raise(&mut self.actions_failed, by),
            Counter::ContinuationsScheduled => raise(&mut self.continuations_scheduled, by),
            Counter::ContinuationsFired => raise(&mut self.continuations_fired, by),
            Counter::ContinuationsDropped => raise(&mut self.continuations_dropped, by),
            Counter::TicksTimeUnsynced => raise(&mut self.ticks_time_unsynced, by),
        }
    }
}

// The counter of a number, which is its place in the record.
fn counter_at(which: u32) -> Option<Counter>
    ensures { MatchOption result (12 ≤ which) (λ x. place_of_counter x ≡ which) }
{
    match which {
        0 => Some(Counter::ActivationsTotal),
        1 => Some(Counter::ActivationsDry),
        2 => Some(Counter::SuppressedCooldown),
        3 => Some(Counter::SuppressedDisabled),
        4 => Some(Counter::ConditionsRejected),
        5 => Some(Counter::PartialOutcomes),
        6 => Some(Counter::EffectsEmitted),
        7 => Some(Counter::ActionsFailed),
        8 => Some(Counter::ContinuationsScheduled),
        9 => Some(Counter::ContinuationsFired),
        10 => Some(Counter::ContinuationsDropped),
        11 => Some(Counter::TicksTimeUnsynced),
        _ => None,
    }
}

// For a caller that has the counter's number: it goes up by `by`, and stops at 2^32 - 1. A number past the last changes nothing.
#[tactic(auto, unfolding(crate::specs::Counters::counters_of))]
pub fn bump(c: &mut Counters, which: u32, by: u32)
    ensures { counters_of c.new ≡ raised_at which by (counters_of c.old) }
{
    if let Some(counter) = counter_at(which) {
        c.bump(counter, by);
    }
}

// The same, for a caller that has the record by value.
pub fn with_bump(c: Counters, which: u32, by: u32) -> Counters
    ensures { counters_of result ≡ raised_at which by (counters_of c) }
{
    let mut d = c;
    bump(&mut d, which, by);
    d
}
