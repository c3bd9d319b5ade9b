// A counted table in words, whatever its rows are: its count, rows of `width` words, zeros behind.
// kept: that words are a table of so many rows (`Counted`) is asked by six functions of slots.rt, timers.rt, variables.rt and sequence.rt. A struct of the lent words, with a count
// within them as its invariant, was tried in a proof apart, with rows of one word and without the zeros behind: `try_push` then asks nothing and all of it closes, but only where
// `new` and each method ensure that the words keep their ghost name: without that, what the lender's function ensures of its words does not close. So a clause stands in the place
// of the other. And the rows of variables and of pending records are not those of the `Row` of their types, which reads one word of a text, and no trigger past 4: the struct would
// serve two of the four tables.
ghost use Rattle.std.specs.Prelude.{◌≡◌, Bool, IsTrue, cond, [], ◌+◌, ◌-◌, ◌≤◌, ◌<◌, ltb, length, get_or, take};
ghost use Rattle.model.specs.Lists.{keep};
ghost use Rattle.state.specs.Tables.{First};
ghost use Rattle.state.specs.Cuts.{rows_in, table_of, wide_in, has_word, passes, with_row, HasRoom, Words, Fits, Table, RowSet};

use fields::moves;
use rows::put::clear;
use rows::row::Row;

// Row i.
// kept: a struct of table and width that knows `Fits` would be made anew at each turn of `close_up`, whose rows move before the count is written: so the clause
// stands with the three that ask it, this, `count_kept` and `move_row`.
fn row_of(t: &[u32], width: usize, i: usize) -> &[u32]
    requires { Fits width t.now × (i < get_or t.now 0 0) }
    ensures is { result.now ≡ get_or (rows_in width t.now) i [] }
    ensures long { length result.now ≡ width }
{
    let k = 1 + i * width;
    &t[k..k + width]
}

// The time at word `at` of row i.
pub fn wide_of(t: &[u32], width: usize, i: usize, at: usize) -> u64
    requires { Fits width t.now × (i < get_or t.now 0 0) × (at < width - 1) }
    ensures { result ≡ wide_in width t.now i at }
{
    let row = row_of(t, width, i);
    words::join_words(row[at], row[at + 1])
}

// The place of the first row whose word `at` is x, and the count where there is none.
pub fn first_with(t: &[u32], width: usize, at: usize, x: u32) -> usize
    requires { Fits width t.now × (at < width) }
    ensures { First (has_word at x) (rows_in width t.now) result }
{
    let n = t[0] as usize;
    for i in 0..n {
        let word = row_of(t, width, i)[at];
        if word == x {
            return i;
        }
    }
    n
}

// How many of the first m rows stay: those whose value at word `at` passes.
// kept: tried `(0..m).filter(..).count()`: its closure reads a row and calls `stays`, so it has to ask again all three clauses of this function.
pub fn count_kept<R: Row, F: Fn(R) -> bool>(
    t: &[u32],
    width: usize,
    at: usize,
    stays: &F,
    m: usize,
) -> usize
    ghost test: { R → Bool }
    requires fits { Fits width t.now × (m ≤ get_or t.now 0 0) × (at + R.WORDS ≤ width) }
    requires calls { F.IsAlwaysCallable stays.now }
    requires says { (x : _) (b : _) → F.post stays.now x b → b ≡ test x }
    ensures { result ≡ length (keep (passes R.codec at test) (take m (rows_in width t.now))) }
{
    let mut k = 0;
    for i in 0..m {
        if stays(R::at(row_of(t, width, i), at)) {
            k += 1;
        }
    }
    k
}

// A row joins behind the others.
pub fn push<R: Row>(t: &mut [u32], x: R)
    requires { HasRoom R.WORDS t.old }
    ensures rows { t.new ≡ with_row R.WORDS (R.codec.put x) t.old }
    ensures words { Words (R.codec.put x) }
{
    let n = t[0] as usize;
    x.put(t, 1 + n * R::WORDS);
    t[0] = n as u32 + 1;
}

// The same where fewer than `most` stand: whether it joins.
pub fn try_push<R: Row>(t: &mut [u32], x: R, most: usize) -> bool
    requires counted { 1 ≤ length t.old }
    requires room { get_or t.old 0 0 < most → HasRoom R.WORDS t.old }
    ensures rows { t.new ≡ cond result (with_row R.WORDS (R.codec.put x) t.old) t.old }
    ensures words { IsTrue result → Words (R.codec.put x) }
    ensures less { result ≡ ltb (get_or t.old 0 0) most }
{
    let less = (t[0] as usize) < most;
    if less {
        push(t, x);
    }
    less
}

// Row `from` is written over row `to`, which does not stand behind it.
fn move_row(t: &mut [u32], width: usize, from: usize, to: usize)
    requires { Fits width t.old × (to ≤ from) × (from < get_or t.old 0 0) }
    ensures { RowSet width t.old to (get_or (rows_in width t.old) from []) t.new }
{
    moves::copy_within(t, 1 + from * width, 1 + to * width, width);
}

// The rows that stay close up; how many they are.
// kept: the two clauses on the closure, here, in timers.rt and in pending.rt: one definition of both would take what F promises as arguments, and each caller open it again.
pub fn close_up<R: Row, F: Fn(R) -> bool>(
    t: &mut [u32],
    width: usize,
    at: usize,
    stays: &F,
) -> usize
    ghost test: { R → Bool }
    requires table { Table width t.old × (at + R.WORDS ≤ width) }
    requires calls { F.IsAlwaysCallable stays.now }
    requires says { (x : _) (b : _) → F.post stays.now x b → b ≡ test x }
    ensures rows { t.new ≡ table_of (length t.old - 1) (keep (passes R.codec at test) (rows_in width t.old)) }
    ensures count { result ≡ length (keep (passes R.codec at test) (rows_in width t.old)) }
{
    let n = t[0] as usize;
    let mut j = 0;
    for i in 0..n {
        if stays(R::at(row_of(t, width, i), at)) {
            move_row(t, width, i, j);
            j += 1;
        }
    }
    clear(t, 1 + j * width, (n - j) * width);
    t[0] = j as u32;
    j
}
