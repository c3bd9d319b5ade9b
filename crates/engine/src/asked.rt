// Where a call on a store begins: words that are no store, or no snapshot that is accepted, are refused, and nothing changes.
ghost use Rattle.std.specs.Prelude.{◌≡◌, IfOk, Some};
ghost use Rattle.model.specs.Refusals.{refusal_number};
ghost use Rattle.model.specs.Store.{read};
ghost use Rattle.model.specs.Snapshot.{snapshot_refusal};
ghost use Rattle.engine.specs.Asked.{lowest_of};
ghost use Rattle.engine.specs.Seen.{refusal_of};

use model::Refusal;
use store::checked::Checked;
use world::accepted::Accepted;

// The store that the words say.
// kept: it only hands on to `Checked::of`. A rule of the project needs it: the names of edits stay, and refuses_every_store of this crate has its one place here, where
// all calls open a store, since a `Checked` is made in store alone.
pub fn opened(words: &[u32]) -> Result<Checked<'_>, Refusal>
    ensures number { refusal_number result ≡ refusal_of (read words.now) words.now }
    ensures value { IfOk result (λ store. read words.now ≡ Some store) }
{
    Checked::of(words)
}

// The same beside a snapshot: the lowest refusal of both.
pub fn opened_with<'a, 'b>(
    words: &'a [u32],
    snapshot: &'b [u32],
) -> Result<(Checked<'a>, Accepted<'b>), Refusal>
    ensures number { refusal_number result ≡ lowest_of (read words.now) words.now (snapshot_refusal snapshot.now) }
    ensures value { IfOk result (λ both. read words.now ≡ Some both.0) }
    ensures accepted { IfOk result (λ both. both.1 ≡ snapshot.now) }
{
    let store = opened(words)?;
    let accepted = Accepted::of(snapshot)?;
    Ok((store, accepted))
}
