// The two passes: how many records of each table the written image has, then its words.
ghost use Rattle.std.specs.Prelude.{◌≡◌, ℕ, ◌<◌, ◌≤◌, length, get_or, replicate};
ghost use Rattle.model.specs.Answers.{lent};
ghost use Rattle.model.specs.Tree.{tree_of, tree_size, words_of, below_cells};
ghost use Rattle.image.specs.Accepted.{Accepted};
ghost use Rattle.rewrite.specs.Walk.{size_for, Counted, Placed, trailer_of, put_trailer};

use crate::mention::width_of;
use crate::walk::{put, walk_tables};
use image::layout::Image;

const TABLES: usize = 8;

// The limits of the trailer stand in front of the first words of the tables.
const LIMITS: u32 = 5;

const TRAILER: u32 = 13;

// The first pass is lent no words, so that it only counts.
pub fn count_words(image: &Image, counts: &mut [u32]) -> u32
    requires image { Accepted image.now }
    requires counts { counts.old ≡ replicate 8 0 }
    ensures { Counted image.now result counts.new }
{
    walk_tables(image, &mut [], counts, &[])
}

// The first words of the tables. Where the last one ends.
// kept: an index of both, as in flat's `find_calls`: nothing is known of the words that come back from an adapter of `iter_mut`.
fn place_tables(counts: &[u32], firsts: &mut [u32]) -> u32
    requires { (length counts.now ≡ 8) × (length firsts.old ≡ 8) × (size_for counts.now ≤ 4096) }
    ensures { Placed counts.now firsts.new result }
{
    let mut at = 0;
    for t in 0..TABLES {
        firsts[t] = at;
        at += width_of(t as u32) * counts[t];
    }
    at
}

// Word k of the trailer.
#[tactic(auto, unfolding(crate::specs::Walk::trailer_of))]
fn trailer_of(image: &Image, firsts: &[u32], k: u32) -> u32
    ensures { result ≡ trailer_of image.now firsts.now k }
{
    if k < LIMITS {
        return image.trailer_word(k);
    }
    fields::word(firsts, (k - LIMITS) as usize)
}

// The words of the trailer, from `at` on.
// kept: no fold, since no chain's proof goes through a closure that changes what it captures, here the words.
fn put_trailer(image: &Image, firsts: &[u32], at: u32, words: &mut [u32])
    requires { at ≤ 4096 }
    ensures { words.new ≡ put_trailer image.now firsts.now at 13 words.old }
{
    for k in 0..TRAILER {
        let w = trailer_of(image, firsts, k);
        put(words, (at + k) as usize, w);
    }
}

// The second pass: into words that are 0, and as many as the written image has at least.
pub fn write_words(image: &Image, counts: &[u32], words: &mut [u32])
    requires image { Accepted image.now }
    requires counts { (length counts.now ≡ 8) × ((u : ℕ) → u < 8 → get_or counts.now u 0 ≡ below_cells (tree_of image.now).lists u) }
    requires room { (tree_size (tree_of image.now) ≤ 4096) × (tree_size (tree_of image.now) ≤ length words.old) × (words.old ≡ replicate (length words.old) 0) }
    ensures { words.new ≡ lent (length words.old) (words_of (tree_of image.now)) }
{
    let mut firsts = [0u32; TABLES];
    let end = place_tables(counts, &mut firsts);
    let mut again = [0u32; TABLES];
    walk_tables(image, words, &mut again, &firsts);
    put_trailer(image, &firsts, end, words);
}
