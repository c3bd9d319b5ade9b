// The words of a store that keeps every rule, seen as that store: who has them need not ask again.
use crate::{set, volatile};
use image::layout::{Image, Table};
use model::Refusal;
use state::State;
use std::marker::Model;

#[derive(Drop)]
pub struct Checked<'a> {
    words: &'a [u32],
}

impl<'a> Model for Checked<'a> {
    ghost use Rattle.std.specs.Prelude.{◌≡◌, true};
    ghost use Rattle.model.specs.Lists.{present};
    ghost use Rattle.model.specs.State.{Store};
    ghost use Rattle.model.specs.Store.{read};
    ghost use Rattle.store.specs.Reading.{store_at};

    ghost Value = { Store };

    ghost view = { λ c. store_at c.words.now };

    ghost invariant = { λ c. present (read c.words.now) ≡ true };
}

impl<'a> Checked<'a> {
    ghost use Rattle.std.specs.Prelude.{◌≡◌, ◌≤◌, ⊤, Some, IfOk, MatchOption, option_map};
    ghost use Rattle.model.specs.Calls.{rule_in};
    ghost use Rattle.model.specs.Load.{image_refusal};
    ghost use Rattle.model.specs.Refusals.{refusal_number};
    ghost use Rattle.model.specs.State.{RuleSet};
    ghost use Rattle.model.specs.Store.{read, rule_count};
    ghost use Rattle.state.specs.Meaning.{AllNumbered};
    ghost use Rattle.store.specs.Refused.{refusal_of};

    // The words, where they are those of a store; else why not.
    #[tactic(auto, using(crate::proofs::Refused::no_length))]
    pub fn of(words: &'a [u32]) -> Result<Checked<'a>, Refusal>
        ensures number { refusal_number result ≡ refusal_of (read words.now) words.now }
        ensures value { IfOk result (λ store. read words.now ≡ Some store) }
    {
        if !crate::sized(words) {
            return Err(Refusal::StoreLength);
        }
        if !crate::check(words) {
            return Err(Refusal::StoreRule);
        }
        Ok(Checked { words })
    }

    // Words that say this store.
    pub fn words(&self) -> &'a [u32]
        ensures { read result.now ≡ Some self.now }
    {
        self.words
    }

    // The time of the last call.
    pub fn last_at(&self) -> u64
        ensures { result ≡ self.now.now }
    {
        set::last_at(self.words)
    }

    // The loaded image; nothing where no set is loaded.
    // kept: no `then`, as it would be no plainer: its closure would ask what the branch knows, that a set is loaded.
    pub fn image(&self) -> Option<Image<'a>>
        ensures value { result ≡ option_map (λ (set : RuleSet). set.image) self.now.loaded }
        ensures accepted { MatchOption result ⊤ (λ img. image_refusal img ≡ 0) }
    {
        if set::is_loaded(self.words) {
            Some(Image::new(set::image_in(self.words)))
        } else {
            None
        }
    }

    // How many rules are loaded.
    // kept: a match. Tried `map_or(0, ..)`: that the answer is at most 64, which the image's acceptance gives in the first arm, did not close.
    pub fn rule_count(&self) -> usize
        ensures count { result ≡ rule_count self.now.loaded }
        ensures few { result ≤ 64 }
    {
        match self.image() {
            Some(image) => image.size_of(Table::Rules) as usize,
            None => 0,
        }
    }

    // The rule of a name in the loaded set.
    pub fn rule_in(&self, name: u32) -> Option<u32>
        ensures { result ≡ rule_in self.now.loaded name }
    {
        self.image()?.rule_named(name)
    }

    // The parts that calls change, as the words of a state.
    pub fn begin(&self, v: &mut State)
        ensures { AllNumbered v.new self.now.vol }
    {
        volatile::begin(self.words, self.rule_count(), &mut v.words);
    }
}
