// Values that stand in words: how many words each takes, what the words at a place say, and the words that say a value.
ghost use Rattle.std.specs.Prelude.{◌≡◌, ℕ, ◌+◌, ◌≤◌, ◌^◌, length};
ghost use Rattle.model.specs.Codec.{Row as RowCodec, wide, maybe};
ghost use Rattle.model.specs.Parts.{any};
ghost use Rattle.rows.specs.Places.{row_at, laid};
ghost use Rattle.rows.specs.Rows.{bool_row};
ghost use Rattle.rows.specs.Sizes.{Takes, word_takes, wide-takes, bool-takes};

use crate::put::clear;

pub trait Row: Copy {
    const WORDS: usize;

    ghost WORDS: { ℕ };

    // What its words say, and the words that say it.
    ghost codec: { RowCodec Self };

    // What stands at k; words past the end read as 0.
    fn at(s: &[u32], k: usize) -> Self
        requires { k + WORDS ≤ 2 ^ 64 }
        ensures { result ≡ row_at codec s.now k };

    // Written from k on; all other words stand.
    fn put(self, s: &mut [u32], k: usize)
        requires { k + WORDS ≤ length s.old }
        ensures { s.new ≡ laid s.old k (codec.put self) };

    ghost takes: { Takes codec WORDS };
}

// kept: `at` and `put` of these three are written one by one: one word, two words, and one word compared with 1 have nothing in common in which a generic
// function could vary.
impl Row for u32 {
    const WORDS: usize = 1;

    ghost WORDS = { 1 };

    ghost codec = { any };

    ghost takes = { word_takes 4294967295 };

    fn at(s: &[u32], k: usize) -> u32 {
        fields::word(s, k)
    }

    fn put(self, s: &mut [u32], k: usize) {
        s[k] = self;
    }
}

// Two words, the low one first.
impl Row for u64 {
    const WORDS: usize = 2;

    ghost WORDS = { 2 };

    ghost codec = { wide };

    ghost takes = { wide-takes };

    fn at(s: &[u32], k: usize) -> u64 {
        words::join_words(u32::at(s, k), u32::at(s, k + 1))
    }

    fn put(self, s: &mut [u32], k: usize) {
        words::low_word(self).put(s, k);
        words::high_word(self).put(s, k + 1);
    }
}

impl Row for bool {
    const WORDS: usize = 1;

    ghost WORDS = { 1 };

    ghost codec = { bool_row };

    ghost takes = { bool-takes };

    fn at(s: &[u32], k: usize) -> bool {
        u32::at(s, k) == 1
    }

    fn put(self, s: &mut [u32], k: usize) {
        u32::from(self).put(s, k);
    }
}

// A mark, and a row behind it that counts where the mark is not 0.
// kept: no `impl<T: Row> Row for Option<T>`: the law that fails is `most` of `takes`, at most 15 words, which says nothing of 1 + T.WORDS. One impl for each T
// that there is, u32, u64 and Jump, would say these two functions three times.
pub fn option_at<T: Row>(s: &[u32], k: usize) -> Option<T>
    requires { k + 1 + T.WORDS ≤ 2 ^ 64 }
    ensures { result ≡ row_at (maybe T.codec) s.now k }
{
    if u32::at(s, k) == 0 {
        return None;
    }
    Some(T::at(s, k + 1))
}

pub fn put_option<T: Row>(s: &mut [u32], k: usize, x: Option<T>)
    requires { k + 1 + T.WORDS ≤ length s.old }
    ensures { s.new ≡ laid s.old k ((maybe T.codec).put x) }
{
    match x {
        None => clear(s, k, 1 + T::WORDS),
        Some(x) => {
            1u32.put(s, k);
            x.put(s, k + 1);
        }
    }
}
