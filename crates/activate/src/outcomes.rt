// Outcomes go into words that the caller lends, in order. Where there is no room for one it is counted, and no
// word is written.
ghost use Rattle.std.specs.Prelude.{◌≡◌, ◌≤◌, ◌<◌};
ghost use Rattle.words.specs.Saturating.{max32};
ghost use Rattle.state.specs.Reasons.{reason_number};
ghost use Rattle.activate.specs.Carried.{SameLent};
ghost use Rattle.activate.specs.Outcomes.{Puts, Pushes};

use crate::{Handled, Lent, OUTCOME_WORDS};
use exec::Job;
use state::reasons::Reason;

// Outcome n, of a job, with `count` effects from effect `first` on.
// kept: no `rows::row::Row` of an outcome: its codec would be one more definition of the eight words, beside `outcome_words` of the specification, and the record that
// it is of would be made here alone and read nowhere. No `get_mut` of the eight either: the library promises nothing of what a slice ends as after it.
fn put_outcome(lent: &mut [u32], n: u32, job: Job, reason: u32, first: u32, count: u32)
    ensures { Puts lent.old n job reason first count lent.new }
{
    let k = n as usize * OUTCOME_WORDS;
    if k + OUTCOME_WORDS <= lent.len() {
        lent[k..k + OUTCOME_WORDS].copy_from_slice(&[
            job.rule,
            u32::from(job.dry),
            job.trigger,
            reason,
            first,
            count,
            words::low_word(job.number),
            words::high_word(job.number),
        ]);
    }
}

impl Lent<'_> {
    // The next outcome: with it there are `effects` effects.
    pub fn push_outcome(&mut self, job: Job, reason: Option<Reason>, effects: u32)
        requires { (self.old.handled.outcomes < max32) × (self.old.handled.effects ≤ effects) }
        ensures pushed { Pushes self.old.handled self.old.outcomes.now job (reason_number reason) effects self.new.handled self.new.outcomes.now }
        ensures same { SameLent self.old self.new × (self.new.effects.now ≡ self.old.effects.now) × (self.new.state.now ≡ self.old.state.now) }
    {
        self.push_by_number(job, reason.map_or(0, u32::from), effects);
    }

    // The same by the number of a reason, 0 for none. It may be any number: the outcome has it as it is.
    pub(crate) fn push_by_number(&mut self, job: Job, reason: u32, effects: u32)
        requires { (self.old.handled.outcomes < max32) × (self.old.handled.effects ≤ effects) }
        ensures pushed { Pushes self.old.handled self.old.outcomes.now job reason effects self.new.handled self.new.outcomes.now }
        ensures same { SameLent self.old self.new × (self.new.effects.now ≡ self.old.effects.now) × (self.new.state.now ≡ self.old.state.now) }
    {
        let Handled {
            outcomes: n,
            effects: first,
        } = self.handled;
        put_outcome(self.outcomes, n, job, reason, first, effects - first);
        self.handled = Handled {
            outcomes: n + 1,
            effects,
        };
    }
}
