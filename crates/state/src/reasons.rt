// The reasons of an outcome: document 01, "Outcomes and effects".
ghost use Rattle.std.specs.Prelude.{◌≡◌};
ghost use Rattle.state.specs.Reasons.{reason_code};

#[derive(Clone, Copy)]
pub enum Reason {
    ConditionUnevaluable = 1,
    EffectBudget = 2,
}

impl From<Reason> for u32 {
    ghost from_gives = { λ reason number. number ≡ reason_code reason };

    fn from(reason: Reason) -> u32 {
        reason as u32
    }
}
