// What is printed is gathered in a buffer, and written out when it is full and whenever all input that has come is played. A line is gathered piece
// by piece, so that it may have any width. The buffer is an array, since a player that asks for no memory cannot run out of it.
ghost use Rattle.std.specs.Prelude.{◌≡◌, ◌+◌, ◌≤◌, ◌<◌, ◌^◌, [], IfSome, length};
ghost use Rattle.script.specs.Print.{numbers, line};
ghost use Rattle.play.specs.Printed.{words_at};
ghost use Rattle.play.specs.Gathered.{Gathers};

use arrayvec::ArrayVec;
use script::put;
use std::fmt;
use std::io::{Print, Stdout};

// The bytes that are gathered, and where they go, if it is still open.
#[derive(Drop)]
pub struct Output {
    bytes: ArrayVec<u8, 65536>,
    to: Option<Stdout>,
}

// A name, six numbers and the end of a line, at 32 bytes each, as `put` asks for.
pub const LINE_BYTES: usize = 256;

// Sends bytes out; where that fails, nothing more is.
fn send(to: Option<Stdout>, bytes: &[u8]) -> Option<Stdout> {
    to.filter(|to| to.write_all(bytes).is_ok())
}

impl Output {
    pub fn new(to: Stdout) -> Self
        ensures { result.bytes.items ≡ [] }
    {
        Output {
            bytes: ArrayVec::new(),
            to: Some(to),
        }
    }

    pub fn is_open(&self) -> bool {
        self.to.is_some()
    }

    // Writes out what was gathered.
    pub fn flush(&mut self)
        ensures { self.new.bytes.items ≡ [] }
    {
        self.to = send(self.to, self.bytes.as_slice());
        self.bytes.clear();
    }

    // Bytes as they are. A piece that is longer than the buffer goes out behind what was gathered.
    #[tactic(auto, using(crate::proofs::Gathering::gathers_gone))]
    pub fn text(&mut self, bytes: &[u8])
        ensures { Gathers self.old bytes.now self.new }
    {
        if self.bytes.try_extend_from_slice(bytes).is_err() {
            self.flush();
            if self.bytes.try_extend_from_slice(bytes).is_err() {
                self.to = send(self.to, bytes);
            }
        }
    }

    // What `write!` calls. A value that cannot be formatted ends the output. The library's `Display` promises nothing of a `fmt` that fails, so what is printed here are texts and
    // numbers, whose `fmt` is the library's.
    #[tactic(auto, using(crate::proofs::Gathering::gathers_text, crate::proofs::Gathering::gone_text))]
    pub fn write_fmt<D: fmt::Display + Drop>(&mut self, value: D)
        ensures { IfSome (D.output value) (λ text. Gathers self.old text self.new) }
    {
        if let Err(fmt::Error) = fmt::Write::write_fmt(self, value) {
            self.flush();
            self.to = None;
        }
    }

    // A line of a short name and few words of a store: the whole of it is one piece, put together in bytes that are lent for all lines, so that they are zeroed once.
    pub fn short_line(
        &mut self,
        piece: &mut [u8; LINE_BYTES],
        name: &[u8],
        words: &[u32],
        at: usize,
        count: usize,
    )
        requires { (length name.now ≤ 32) × (count ≤ 6) × (at + count < 2 ^ 64) }
        ensures { Gathers self.old (line name.now (numbers (words_at words.now at count))) self.new }
    {
        let mut n = put::text(piece, 0, name);
        // kept: places, as in `words`.
        for i in 0..count {
            n = put::number(piece, n, u64::from(fields::word(words, at + i)));
        }
        let end = put::text(piece, n, b"\n");
        self.text(&piece[..end]);
    }

    // Words of a store from a place on, each behind a space, and 0 past its end.
    pub fn words(&mut self, words: &[u32], at: usize, count: usize)
        requires { at + count < 2 ^ 64 }
        ensures { Gathers self.old (numbers (words_at words.now at count)) self.new }
    {
        // kept: places, since a word past the end is printed too, as zero.
        for i in 0..count {
            let mut piece = [0u8; 32];
            let n = put::number(&mut piece, 0, u64::from(fields::word(words, at + i)));
            self.text(&piece[..n]);
        }
    }
}

impl fmt::Write for Output {
    ghost write_str_gives = { Gathers };

    fn write_str(&mut self, s: &str) -> fmt::Result {
        self.text(s.as_bytes());
        Ok(())
    }
}
