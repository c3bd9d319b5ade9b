// The script language of the player: a line of bytes and the call that it is. One line is one call; a '#' starts a comment.
#![tactic(auto)]

pub mod calls;
pub mod complain;
pub mod put;
mod read;
mod scan;

ghost use Rattle.std.specs.Prelude.{length, IfOk, IfSome};
ghost use Rattle.script.specs.Table.{rows};
ghost use Rattle.script.specs.Script.{parse as Script·parse};
ghost use Rattle.script.specs.Scan.{Parses, Finds};

pub use calls::{Call, Param};
pub use complain::Wrong;

// A call of the table with its numbers, 0 past those that it has; `words` words of a list stand at the start of the lent list, and a text is
// the last `bytes` bytes of the line.
// kept: numbers by place, and no enum of calls with their fields, as it would be no plainer: parser, complaints and their proofs are about any row of the table,
// where such an enum takes a parser and a complaint for each call.
// kept: `words` and `bytes` are counts, and no slices, as it would be no plainer: this very struct is what the definition of a line gives, so that `Parses` is
// one equation with it. A slice is more than its words: with slices the definition takes a struct of its own, and a relation for the equation.
#[derive(Clone, Copy, PartialEq, Eq)]
pub struct Command {
    pub call: Call,
    pub numbers: [u64; 4],
    pub words: usize,
    pub bytes: usize,
}

// What a line says, if it says anything, with the words of its list in the lent list; words of it that were read before one that is wrong
// stand there too.
pub fn parse(line: &[u8], list: &mut [u32]) -> Result<Option<Command>, Wrong>
    ensures parses { Parses (Script·parse rows (length list.old) line.now) list.old list.new result }
    ensures finds { IfOk result (λ o. IfSome o (Finds (Script·parse rows (length list.old) line.now) line.now list.new)) }
{
    let text = scan::uncommented(line);
    let Some((name, rest)) = scan::next_word(text) else {
        return Ok(None);
    };
    let call = Call::named(name).ok_or(Wrong::NoSuchCall)?;
    let said = read::behind_name(line, text, rest, call);
    Ok(Some(read::call_of(said, call, list)?))
}
