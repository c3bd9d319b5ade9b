// Words written at a place: all others stand.
ghost use Rattle.std.specs.Prelude.{◌≡◌, ◌+◌, ◌≤◌, length, replicate};
ghost use Rattle.rows.specs.Places.{laid};

use fields::moves;

// Words from k on.
#[tactic(auto, unfolding(crate::specs::Places::laid))]
pub fn put_words(s: &mut [u32], k: usize, words: &[u32])
    requires { k + length words.now ≤ length s.old }
    ensures { s.new ≡ laid s.old k words.now }
{
    moves::copy_words(&mut s[k..k + words.len()], words);
}

// n zeros from k on.
#[tactic(auto, unfolding(crate::specs::Places::laid))]
pub fn clear(s: &mut [u32], k: usize, n: usize)
    requires { k + n ≤ length s.old }
    ensures { s.new ≡ laid s.old k (replicate n 0) }
{
    s[k..k + n].fill(0);
}
