// Tables of rows.
ghost use Rattle.std.specs.Prelude.{◌≡◌, ◌≤◌, ◌<◌, ◌+◌, ◌*◌, ◌^◌, length, get_or};
ghost use Rattle.std.specs.Iterator.{YieldsFirst, item_count};
ghost use Rattle.rows.specs.Places.{table_at};

use crate::row::Row;
use arrayvec::ArrayVec;
use std::marker::{Model, PhantomData};

// The rows that stand in words, n of them from place k on: seen as the list of what they say, and an iterator of it.
#[derive(Drop)]
pub struct Rows<'a, T: Row> {
    words: &'a [u32],
    k: usize,
    n: usize,
    says: PhantomData<T>,
}

impl<'a, T: Row> Model for Rows<'a, T> {
    ghost use Rattle.std.specs.Prelude.{◌<◌, ◌+◌, ◌*◌, ◌^◌, List};
    ghost use Rattle.rows.specs.Places.{table_at};

    ghost Value = { List T };

    ghost view = { λ r. table_at T.codec r.n r.words.now r.k };

    ghost invariant = { λ r. r.k + r.n * T.WORDS < 2 ^ 64 };
}

impl<'a, T: Row> Rows<'a, T> {
    pub fn new(words: &'a [u32], k: usize, n: usize) -> Rows<'a, T>
        requires { k + n * T.WORDS < 2 ^ 64 }
        ensures { result ≡ table_at T.codec n words.now k }
    {
        Rows {
            words,
            k,
            n,
            says: PhantomData,
        }
    }

    // Those of a table: its count stands at k, and they stand behind it.
    pub fn counted(words: &'a [u32], k: usize) -> Rows<'a, T>
        requires { k < length words.now }
        ensures { result ≡ table_at T.codec (get_or words.now k 0) words.now (k + 1) }
    {
        Rows::new(words, k + 1, words[k] as usize)
    }

    // The same rows, for a loop or a chain over them.
    pub fn iter(&self) -> Rows<'a, T>
        ensures { result ≡ self.now }
    {
        Rows {
            words: self.words,
            k: self.k,
            n: self.n,
            says: PhantomData,
        }
    }

    pub fn len(&self) -> usize
        ensures { result ≡ length self.now }
    {
        self.n
    }
}

impl<'a, T: Row> Iterator for Rows<'a, T> {
    type Item = T;

    ghost next_gives = { YieldsFirst (λ rest. rest) };

    ghost remaining = { item_count (λ rest. rest) };

    fn next(&mut self) -> Option<T> {
        if self.n == 0 {
            return None;
        }
        let x = T::at(self.words, self.k);
        self.k += T::WORDS;
        self.n -= 1;
        Some(x)
    }
}

// The n rows that stand from k on.
// kept: a loop that pushes: the library's `collect` into an `ArrayVec` takes an allocator, and answers a Result, as more rows could come than it holds; and by
// their places, since `Rows` asks that they end below 2^64: every caller's do, but this function is public and may not ask more than that they end at it.
pub fn table_at<T: Row + Default, const N: usize>(s: &[u32], k: usize, n: usize) -> ArrayVec<T, N>
    requires { (n ≤ N) × (k + n * T.WORDS ≤ 2 ^ 64) }
    ensures { result.items ≡ table_at T.codec n s.now k }
{
    let mut rows = ArrayVec::new();
    for i in 0..n {
        rows.push(T::at(s, k + i * T::WORDS));
    }
    rows
}
