// Bytes come in, and each line that ends is played.
ghost use Rattle.std.specs.Prelude.{◌≡◌, IfOk, IfSome, length};
ghost use Rattle.script.specs.Scan.{Parses, Finds};
ghost use Rattle.play.specs.Playing.{said, line_ends, byte_comes, bytes_come};
ghost use Rattle.play.specs.Example.{room, start};
ghost use Rattle.play.specs.Played.{Stands, Obeys, Follows, Reads};

use crate::calls::{Lent, Said};
use crate::output::Output;
use arrayvec::ArrayVec;
use script::calls::LIST_WORDS;
use script::complain::wrong_line;
use script::{Command, Wrong};
use std::io::{Read, Stdin, Stdout};

// The bytes of the longest line, and of the buffer that tells a longer one.
const LINE_BYTES: usize = 262144;

const LINE_ROOM: usize = LINE_BYTES + 1;

// Bytes for the line that says what is wrong with one.
const WRONG_BYTES: usize = 1024;

// Where a script stands: lines ended, the line that is being read, the list of the line before, what is lent, the output. Of a line its buffer has room
// for one byte more than a line may have: a line that is longer has that byte too, and what follows is not kept.
#[derive(Drop)]
pub struct Player {
    number: u64,
    line: ArrayVec<u8, LINE_ROOM>,
    list: [u32; LIST_WORDS],
    lent: Lent,
    output: Output,
}

// What a line says.
// kept: the clause `list`, which the type says too: without it `obey`, where the list is cut, is not proved (tried).
fn say(line: &[u8], list: &mut [u32; LIST_WORDS]) -> Result<Option<Command>, Wrong>
    ensures parses { Parses (said room line.now) list.old list.new result }
    ensures finds { IfOk result (λ o. IfSome o (Finds (said room line.now) line.now list.new)) }
    ensures list { length list.new ≡ 8192 }
{
    if line.len() > LINE_BYTES {
        return Err(Wrong::LineTooLong);
    }
    script::parse(line, list)
}

impl Player {
    #[tactic(auto, unfolding(crate::specs::Example::start))]
    pub fn new(to: Stdout) -> Self
        ensures { Stands result start }
    {
        Player {
            number: 0,
            line: ArrayVec::new(),
            list: [0; LIST_WORDS],
            lent: Lent::new(),
            output: Output::new(to),
        }
    }

    // Obeys the line that has ended.
    fn obey(&mut self)
        ensures { Obeys (said room self.old.line.items) self.old self.new }
    {
        let line = self.line.as_slice();
        match say(line, &mut self.list) {
            Ok(None) => {}
            Ok(Some(command)) => {
                let said = Said {
                    command,
                    list: &self.list[..command.words],
                    text: &line[line.len() - command.bytes..],
                };
                self.lent.obey(&said, &mut self.output);
            }
            Err(wrong) => {
                let mut said = [0u8; WRONG_BYTES];
                let n = wrong_line(&mut said, self.number, wrong);
                self.output.text(&said[..n]);
            }
        }
    }

    // Plays the line that has ended.
    fn end_line(&mut self)
        ensures { Follows (line_ends room) self.old self.new }
    {
        self.number = self.number.saturating_add(1);
        self.obey();
        self.line.clear();
    }

    fn feed_byte(&mut self, b: u8)
        ensures { Follows (byte_comes room b) self.old self.new }
    {
        if b == b'\n' {
            return self.end_line();
        }
        let _fits = self.line.try_push(b);
    }

    // Plays the lines that end in what was read; the rest of it is kept.
    #[tactic(auto, using(crate::proofs::Standing::follows_none, crate::proofs::Standing::follows_all))]
    fn feed(&mut self, input: &[u8])
        ensures { Follows (bytes_come room input.now) self.old self.new }
    {
        for b in input {
            self.feed_byte(*b);
        }
    }

    // Reads once, plays what came, and writes the answers out. The end of the input ends its last line, and so does a read that fails. Whether the
    // script goes on.
    #[tactic(auto, using(crate::proofs::Standing::reads_end))]
    fn read_some(&mut self, from: &mut Stdin) -> bool
        ensures { Reads self.old self.new }
    {
        let mut bytes = [0u8; 65536];
        let n = from.read(&mut bytes).unwrap_or(0);
        if n == 0 {
            self.end_line();
            self.output.flush();
            return false;
        }
        self.feed(&bytes[..n]);
        self.output.flush();
        self.output.is_open()
    }

    // kept: a `for` and no `loop`, since a proved loop has to end, and nothing says that the input does: it has a number of turns that no run uses up.
    #[tactic(auto, using(crate::proofs::Standing::reads_none, crate::proofs::Standing::reads_then))]
    pub fn play(&mut self, mut from: Stdin)
        ensures { Reads self.old self.new }
    {
        for _ in 0..u64::MAX {
            if !self.read_some(&mut from) {
                return;
            }
        }
    }
}
