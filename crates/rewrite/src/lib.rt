// One image for one rule set: an accepted image written anew from its tree.
#![tactic(auto)]

mod mention;
mod walk;
mod write;

ghost use Rattle.std.specs.Prelude.{◌≡◌, [], ◌∷◌, length};
ghost use Rattle.model.specs.Asked.{shown_result};
ghost use Rattle.model.specs.Rewrite.{rewritten};

use image::layout::Image;
use model::Refusal;

// The image written anew into the lent words, zeros behind it, or everywhere where it is refused. How many words it has.
pub fn rewrite(image: &[u32], store: &mut [u32]) -> Result<u32, Refusal>
    ensures { shown_result (λ n. n ∷ []) result store.new ≡ rewritten image.now (length store.old) }
{
    lent_words::clear(store);
    load::refusal(image)?;
    let image = Image::new(image);
    let mut counts = [0u32; 8];
    let size = write::count_words(&image, &mut counts);
    if size > walk::MOST_WORDS {
        return Err(Refusal::WrittenLength);
    }
    if store.len() < size as usize {
        return Err(Refusal::ImageStore);
    }
    write::write_words(&image, &counts, store);
    Ok(size)
}
