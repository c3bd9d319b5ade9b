// All short lists for the bench: list k of all lists of up to three of a set of actions.
#![tactic(auto)]

mod checks;

ghost use Rattle.std.specs.Prelude.{◌≡◌, [], ◌∷◌, ◌≤◌, ◌<◌};
ghost use Rattle.model.specs.Asked.{shown_result};
ghost use Rattle.short_lists.specs.Answers.{list_words};
ghost use Rattle.model.specs.ShortLists.{count_of, list_at, places_of, actions_fit, short_list};

use model::Refusal;

// How many places a list has, and these; 0 past them.
// kept: a length beside the array, and no ArrayVec, as it would be no plainer: the four words are the answer, 0 past the length, and the definition is the list of them.
#[derive(Clone, Copy)]
pub struct ShortList {
    pub length: u32,
    pub places: [u32; 3],
}

// How many lists of up to three of n records there are.
fn count(n: u32) -> u32
    requires { n ≤ 8 }
    ensures { result ≡ count_of n }
{
    1 + n + n * n + n * n * n
}

// The places of list k, by division.
fn places(n: u32, k: u32) -> ShortList
    requires { (1 ≤ n) × (n ≤ 8) × (k < count_of n) }
    ensures { result.length ∷ result.places ≡ places_of (list_at n k) }
{
    if k == 0 {
        return ShortList {
            length: 0,
            places: [0; 3],
        };
    }
    let one = k - 1;
    if one < n {
        return ShortList {
            length: 1,
            places: [one, 0, 0],
        };
    }
    let two = one - n;
    let square = n * n;
    if two < square {
        return ShortList {
            length: 2,
            places: [two / n, two % n, 0],
        };
    }
    let three = two - square;
    let rest = three % square;
    ShortList {
        length: 3,
        places: [three / square, rest / n, rest % n],
    }
}

// 70: whether there are one to eight records.
#[tactic(auto, unfolding(model::specs::ShortLists::actions_fit))]
fn actions_fit(actions: &[u32]) -> bool
    ensures { result ≡ actions_fit actions.now }
{
    8 <= actions.len() && (actions.len() <= 64 && actions.len() % 8 == 0)
}

// List k of the short lists of the actions.
pub fn short_list(
    k: u32,
    actions: &[u32],
    values: &[u32],
    pool: &[u32],
) -> Result<ShortList, Refusal>
    ensures { shown_result list_words result [] ≡ short_list k actions.now values.now pool.now }
{
    if !actions_fit(actions) {
        return Err(Refusal::ActionWords);
    }
    if !checks::records_fit(actions, values, pool) {
        return Err(Refusal::ActionRecord);
    }
    let n = (actions.len() / 8) as u32;
    if count(n) <= k {
        return Err(Refusal::ListNumber);
    }
    Ok(places(n, k))
}
