// Words that a caller lends: zeros in them, and effects written into them in order. Where there is no room for an effect no word is
// written.
#![tactic(auto)]

ghost use Rattle.std.specs.Prelude.{◌≡◌, length, replicate};
ghost use Rattle.lent_words.specs.PutEffects.{put_effect};

use model::Effect;

// The words of an effect.
pub const EFFECT_WORDS: usize = 5;

// Zeros in lent words.
// kept: it only hands on to `fill`, as it would be no plainer without: it is the one place that says what four crates ask of all words that are lent.
pub fn clear(words: &mut [u32])
    ensures { words.new ≡ replicate (length words.old) 0 }
{
    words.fill(0);
}

// Effect n, where there is room for it.
// kept: no `rows::row::Row`, as it would be no plainer: its codec would be one more definition of the five words, beside those of the specification, with a law that
// nothing else needs. No `get_mut` of the five either: the library promises nothing of what a slice ends as after it.
pub fn write_effect(words: &mut [u32], n: usize, x: Effect)
    ensures { words.new ≡ put_effect words.old n x }
{
    if n < words.len() / EFFECT_WORDS {
        let at = n * EFFECT_WORDS;
        words[at..at + EFFECT_WORDS].copy_from_slice(&[x.kind, x.a, x.b, x.c, x.d]);
    }
}
