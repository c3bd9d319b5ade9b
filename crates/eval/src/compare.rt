// Tests and comparisons.
ghost use Rattle.std.specs.Prelude.{◌≡◌};
ghost use Rattle.model.specs.Arith.{compare_i64};
ghost use Rattle.model.specs.Eval.{compare_text};

use model::Cmp;

// What the image calls by no comparison is false.
#[tactic(auto, unfolding(model::specs::Arith::compare_i64))]
pub fn compare_i64(cmp: Option<Cmp>, left: i64, right: i64) -> bool
    ensures { result ≡ compare_i64 cmp left right }
{
    match cmp {
        Some(Cmp::Eq) => left == right,
        Some(Cmp::Ne) => left != right,
        Some(Cmp::Ge) => right <= left,
        Some(Cmp::Le) => left <= right,
        Some(Cmp::Gt) => right < left,
        Some(Cmp::Lt) => left < right,
        None => false,
    }
}

// Texts know only Eq and Ne.
#[tactic(auto, unfolding(model::specs::Eval::compare_text))]
pub fn compare_text(cmp: Option<Cmp>, left: u32, right: u32) -> bool
    ensures { result ≡ compare_text cmp left right }
{
    match cmp {
        Some(Cmp::Eq) => left == right,
        Some(Cmp::Ne) => left != right,
        _ => false,
    }
}
