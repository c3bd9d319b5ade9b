// What load says of an image: document 01, "Who can cause a refusal", 10 to 17, the lowest first.
#![tactic(auto)]

ghost use Rattle.std.specs.Prelude.{◌≡◌, ◌*◌, ◌-◌, ◌≤◌, ◌++◌, IfOk, length, not, replicate};
ghost use Rattle.model.specs.Field.{unless};
ghost use Rattle.model.specs.Image.{few_enough};
ghost use Rattle.model.specs.Flat.{flatten_rules, too_many_steps};
ghost use Rattle.model.specs.Load.{image_refusal};
ghost use Rattle.model.specs.Refusals.{refusal_number};
ghost use Rattle.image.specs.Accepted.{Accepted};
ghost use Rattle.flat.specs.Load.{list_part};

use image::layout::Image;
use model::Refusal;
use std::marker::Model;

// 16 and 17 of an image that passes 10 to 15: 16 is decided first. Flattening is lent no words for the steps, so that it only counts. The rows of the lists are
// written if there is room for all.
pub fn accepted<'a>(img: &'a [u32], lists: &mut [u32]) -> Result<Image<'a>, Refusal>
    requires { Accepted img.now }
    ensures number { refusal_number result ≡ unless (not (too_many_steps (flatten_rules img.now))) 16 (unless (few_enough img.now) 17 0) }
    ensures image { IfOk result (λ image. image ≡ img.now) }
    ensures rows { IfOk result (λ _. length (flatten_rules img.now) * 2 ≤ length lists.new →
        lists.new ≡ list_part (flatten_rules img.now) ++ replicate (length lists.new - length (flatten_rules img.now) * 2) 0) }
{
    // kept: a match that names 16, and no `?`: the wrong answer of must-fail/over_is_17.edit is one arm, which a fact refuses.
    match flat::rules::flatten_rules(img, &mut [], lists) {
        Ok(_) => {}
        Err(_) => return Err(Refusal::FlatSteps),
    }
    let image = Image::new(img);
    if !image.few_enough() {
        return Err(Refusal::TooMany);
    }
    Ok(image)
}

// Nothing for an image that load accepts, else the lowest number of a check that fails: for every slice.
pub fn refusal(img: &[u32]) -> Result<(), Refusal>
    ensures { refusal_number result ≡ image_refusal img.now }
{
    // kept: a match, and no `?`: the wrong answer of must-fail/tables_after_steps.edit is one arm, which a fact refuses.
    match image::refusal(img) {
        Ok(()) => {}
        Err(refusal) => return Err(refusal),
    }
    accepted(img, &mut [])?;
    Ok(())
}

// The words of an image that load accepts, seen as these words.
#[derive(Drop)]
pub struct Loadable<'a> {
    words: &'a [u32],
}

impl<'a> Model for Loadable<'a> {
    ghost use Rattle.std.specs.Prelude.{◌≡◌, List, ℕ};
    ghost use Rattle.model.specs.Load.{image_refusal};

    ghost Value = { List ℕ };

    ghost view = { λ i. i.words.now };

    ghost invariant = { λ i. image_refusal i.words.now ≡ 0 };
}

impl<'a> Loadable<'a> {
    ghost use Rattle.std.specs.Prelude.{IfOk};

    // The words, where load accepts them; else why not.
    pub fn of(words: &'a [u32]) -> Result<Loadable<'a>, Refusal>
        ensures number { refusal_number result ≡ image_refusal words.now }
        ensures value { IfOk result (λ image. image ≡ words.now) }
    {
        refusal(words)?;
        Ok(Loadable { words })
    }

    // The words themselves.
    pub fn words(&self) -> &'a [u32]
        ensures same { result.now ≡ self.now }
        ensures accepted { image_refusal result.now ≡ 0 }
    {
        self.words
    }
}
