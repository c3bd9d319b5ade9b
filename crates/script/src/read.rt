// A line's call is read from its words, one after the other.
ghost use Rattle.std.specs.Prelude.{◌≡◌, Ok, Err, Some, MatchResult, length};
ghost use Rattle.words.specs.Saturating.{max32};
ghost use Rattle.decimal.specs.Numbers.{argument_of};
ghost use Rattle.script.specs.Words.{words_of, uncommented, past_words};
ghost use Rattle.script.specs.Table.{rows};
ghost use Rattle.script.specs.Script.{parse_call, list_from, wanted_by, count_wrong, behind_name};
ghost use Rattle.script.specs.Scan.{NextNumber, AllNumbers, word_number, ListEnds, Counts, Parses};

use crate::calls::Tail;
use crate::{Call, Command, Param, Wrong, scan};
use decimal::NotANumber;

// A parameter of a call from the next word, and what stands behind it.
fn number(text: &[u8], call: Call, param: Param) -> Result<(u64, &[u8]), Wrong>
    ensures { NextNumber text.now call param result }
{
    let Some((word, rest)) = scan::next_word(text) else {
        return Err(Wrong::Missing { call, param });
    };
    match decimal::read(word, param.most()) {
        Ok(n) => Ok((n, rest)),
        Err(NotANumber::NoNumber) => Err(Wrong::NotDecimal { call, param }),
        Err(NotANumber::TooLarge) => Err(Wrong::OutOfRange { call, param }),
    }
}

// The numbers of a call, and what stands behind them.
fn numbers(text: &[u8], call: Call) -> Result<([u64; 4], &[u8]), Wrong>
    ensures { AllNumbers text.now call (rows call).params result }
{
    let mut numbers = [0u64; 4];
    let mut rest = text;
    for (i, param) in call.params().iter().enumerate() {
        (numbers[i], rest) = number(rest, call, *param)?;
    }
    Ok((numbers, rest))
}

// Word n of a list.
// kept: the match of `number` once more, over the two errors that the specification has for a word of a list. One function of both would be no plainer: it would
// be given both errors, made at each call, of which an arm names one here.
fn item(word: &[u8], call: Call, n: usize) -> Result<u32, Wrong>
    ensures { result ≡ word_number call n (argument_of max32 word.now) }
{
    match decimal::read(word, u32::MAX as u64) {
        Ok(v) => Ok(v as u32),
        Err(NotANumber::NoNumber) => Err(Wrong::WordNotDecimal { call, word: n }),
        Err(NotANumber::TooLarge) => Err(Wrong::WordOutOfRange { call, word: n }),
    }
}

// The words of a list, into the lent one.
fn items(text: &[u8], call: Call, list: &mut [u32]) -> Result<usize, Wrong>
    ensures { ListEnds (list_from call (length list.old) 0 (words_of text.now)) list.old list.new result }
{
    let room = list.len();
    let mut left = text;
    for (n, place) in list.iter_mut().enumerate() {
        let Some((word, rest)) = scan::next_word(left) else {
            return Ok(n);
        };
        *place = item(word, call, n)?;
        left = rest;
    }
    match scan::next_word(left) {
        None => Ok(room),
        Some(_) => Err(Wrong::ListTooLong { call, room }),
    }
}

// Whether a list has as many words as the numbers behind the first say.
#[tactic(auto, using(crate::proofs::Reading::too_few_words, crate::proofs::Reading::too_many_words, crate::proofs::Reading::as_wanted))]
fn counted(call: Call, numbers: [u64; 4], words: usize) -> Result<(), Wrong>
    ensures { Counts (count_wrong call (wanted_by numbers) words) result }
{
    let [_, a, b, c] = numbers;
    let wanted = a as u128 + b as u128 + c as u128;
    let given = words as u128;
    if given < wanted {
        return Err(Wrong::TooFewWords { call });
    }
    if wanted < given {
        return Err(Wrong::TooManyWords { call });
    }
    Ok(())
}

// The numbers and what stands behind them, from the bytes behind a call's name.
pub fn call_of(text: &[u8], call: Call, list: &mut [u32]) -> Result<Command, Wrong>
    ensures { MatchResult result (λ c. Parses (parse_call (rows call) (length list.old) call text.now) list.old list.new (Ok (Some c))) (λ w. Parses (parse_call (rows call) (length list.old) call text.now) list.old list.new (Err w)) }
{
    let (numbers, rest) = numbers(text, call)?;
    let command = Command {
        call,
        numbers,
        words: 0,
        bytes: 0,
    };
    match call.tail() {
        Tail::Nothing => match scan::next_word(rest) {
            None => Ok(command),
            Some(_) => Err(Wrong::TooManyWords { call }),
        },
        Tail::Words => {
            let words = items(rest, call, list)?;
            Ok(Command { words, ..command })
        }
        Tail::Parts => {
            let words = items(rest, call, list)?;
            counted(call, numbers, words)?;
            Ok(Command { words, ..command })
        }
        Tail::Text => {
            // It begins behind one blank.
            let bytes = rest.len().saturating_sub(1);
            Ok(Command { bytes, ..command })
        }
    }
}

// What stands behind a call's name: `rest`, which ends the text of the line, or the bytes from there to the end of the line if the call takes a text.
#[tactic(auto, using(crate::proofs::Reading::rest_within, crate::proofs::Reading::no_text, crate::proofs::Reading::to_end))]
pub fn behind_name<'a>(line: &'a [u8], text: &[u8], rest: &'a [u8], call: Call) -> &'a [u8]
    requires text { text.now ≡ uncommented line.now }
    requires rest { rest.now ≡ past_words 1 text.now }
    ensures { result.now ≡ behind_name (rows call) line.now }
{
    match call.tail() {
        Tail::Text => &line[text.len() - rest.len()..],
        _ => rest,
    }
}
