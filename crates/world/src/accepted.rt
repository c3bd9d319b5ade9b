// A snapshot that is accepted.
use crate::refusal;
use model::Refusal;
use std::marker::Model;

// The words of a snapshot that is accepted, seen as these words.
#[derive(Drop)]
pub struct Accepted<'a> {
    words: &'a [u32],
}

impl<'a> Model for Accepted<'a> {
    ghost use Rattle.std.specs.Prelude.{◌≡◌, List, ℕ};
    ghost use Rattle.model.specs.Snapshot.{snapshot_refusal};

    ghost Value = { List ℕ };

    ghost view = { λ s. s.words.now };

    ghost invariant = { λ s. snapshot_refusal s.words.now ≡ 0 };
}

impl<'a> Accepted<'a> {
    ghost use Rattle.std.specs.Prelude.{◌≡◌, IfOk};
    ghost use Rattle.model.specs.Refusals.{refusal_number};
    ghost use Rattle.model.specs.Snapshot.{snapshot_refusal};

    // The words, where they are accepted; else why not.
    pub fn of(words: &'a [u32]) -> Result<Accepted<'a>, Refusal>
        ensures number { refusal_number result ≡ snapshot_refusal words.now }
        ensures value { IfOk result (λ snapshot. snapshot ≡ words.now) }
    {
        refusal(words)?;
        Ok(Accepted { words })
    }

    // The words themselves.
    pub fn words(&self) -> &'a [u32]
        ensures same { result.now ≡ self.now }
        ensures accepted { snapshot_refusal result.now ≡ 0 }
    {
        self.words
    }
}
