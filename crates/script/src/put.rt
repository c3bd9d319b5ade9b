// Names, texts and numbers put into bytes that a caller lends, one piece behind the other: it cannot fail, as a `write!` can. Each takes 32 bytes at most.
ghost use Rattle.std.specs.Prelude.{◌≡◌, ◌+◌, ◌≤◌, ◌<◌, [], ◌∷◌, ◌++◌, length, take};
ghost use Rattle.std.specs.Fmt.{decimal};
ghost use Rattle.script.specs.Table.{all_rows, row_of};
ghost use Rattle.script.specs.Print.{numbers, signed as Print·signed};
ghost use Rattle.script.specs.Put.{Puts};

use crate::calls;
use itoa::Buffer;

// Bytes behind the first `at`; where they end.
fn put(buf: &mut [u8], at: usize, bytes: &[u8]) -> usize
    requires { at + length bytes.now ≤ length buf.old }
    ensures stand { take result buf.new ≡ take at buf.old ++ bytes.now }
    ensures ends { result ≡ at + length bytes.now }
    ensures same { length buf.new ≡ length buf.old }
{
    let end = at + bytes.len();
    buf[at..end].copy_from_slice(bytes);
    end
}

// Bytes as they are.
pub fn text(buf: &mut [u8], at: usize, bytes: &[u8]) -> usize
    requires { (at + 32 ≤ length buf.old) × (length bytes.now ≤ 32) }
    ensures { Puts buf.old at 1 bytes.now buf.new result }
{
    put(buf, at, bytes)
}

// The name of the call of a number; a number of no call has none.
pub fn name(buf: &mut [u8], at: usize, call: u32) -> usize
    requires { at + 32 ≤ length buf.old }
    ensures { Puts buf.old at 1 (row_of all_rows call).name buf.new result }
{
    text(buf, at, calls::name_of(call).as_bytes())
}

// A number below 1,000, as most of those are that are printed: it needs no buffer for its digits.
fn few(buf: &mut [u8], at: usize, n: u64) -> usize
    requires { (n < 1000) × (at + 3 ≤ length buf.old) }
    ensures stand { take result buf.new ≡ take at buf.old ++ decimal n }
    ensures ends { result ≤ at + 3 }
    ensures same { length buf.new ≡ length buf.old }
{
    let last = b'0' + (n % 10) as u8;
    if n < 10 {
        return put(buf, at, &[last]);
    }
    let tens = b'0' + (n / 10 % 10) as u8;
    if n < 100 {
        return put(buf, at, &[tens, last]);
    }
    put(buf, at, &[b'0' + (n / 100) as u8, tens, last])
}

// A space and a number.
pub fn number(buf: &mut [u8], at: usize, n: u64) -> usize
    requires { at + 32 ≤ length buf.old }
    ensures { Puts buf.old at 1 (numbers (n ∷ [])) buf.new result }
{
    let behind = put(buf, at, b" ");
    if n < 1000 {
        return few(buf, behind, n);
    }
    let mut digits = Buffer::new();
    put(buf, behind, digits.format(n).as_bytes())
}

// A space and a signed word.
pub fn signed(buf: &mut [u8], at: usize, word: u32) -> usize
    requires { at + 32 ≤ length buf.old }
    ensures { Puts buf.old at 1 (Print·signed word) buf.new result }
{
    let mut digits = Buffer::new();
    let behind = put(buf, at, b" ");
    put(buf, behind, digits.format(word.cast_signed()).as_bytes())
}
