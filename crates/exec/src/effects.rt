// Effects go into words that the caller lends, in order. Where there is no room for one it is counted, and no
// word is written.
ghost use Rattle.std.specs.Prelude.{◌≡◌, ◌+◌, ◌<◌, length};
ghost use Rattle.words.specs.Saturating.{max32};
ghost use Rattle.model.specs.Lists.{to_list};
ghost use Rattle.lent_words.specs.PutEffects.{put_effects};

use model::Effect;

// The number of effects with this one.
#[tactic(auto, unfolding(lent_words::specs::PutEffects::put_effects))]
pub fn put_effect(words: &mut [u32], count: u32, effect: Option<Effect>) -> u32
    requires { count < max32 }
    ensures { (words.new ≡ put_effects words.old count (to_list effect)) × (result ≡ count + length (to_list effect)) }
{
    match effect {
        None => count,
        Some(x) => {
            lent_words::write_effect(words, count as usize, x);
            count + 1
        }
    }
}
