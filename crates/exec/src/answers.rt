// An action that answers an effect, and one that failed.
ghost use Rattle.std.specs.Prelude.{◌≡◌};
ghost use Rattle.model.specs.Actions as model_actions;
ghost use Rattle.model.specs.Kinds.{kind_number};
ghost use Rattle.state.specs.Meaning.{Means, meaning, base};
ghost use Rattle.exec.specs.Done.{counted};
ghost use Rattle.exec.specs.Results.{AnswersOnly};

use crate::PrimResult;
use counters::Counter;
use model::{Effect, EffectKind};
use state::State;

pub fn emits(kind: EffectKind, a: u32, b: u32, c: u32, d: u32) -> PrimResult
    ensures { AnswersOnly (λ s. model_actions.emits s (kind_number kind) a b c d) result }
{
    let kind = kind as u32;
    Ok(Some(Effect { kind, a, b, c, d }))
}

// One that failed is counted, here and nowhere else.
pub fn count_failed(done: PrimResult, v: &mut State) -> PrimResult
    ensures { (result ≡ done) × Means v.new (base v.old) (counted done (meaning v.old)) }
{
    if done.is_err() {
        v.bump(Counter::ActionsFailed, 1);
    }
    done
}
