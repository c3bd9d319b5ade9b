// The line for text that is no call.
ghost use Rattle.std.specs.Prelude.{◌+◌, ◌≤◌, [], ◌∷◌, ◌++◌, length};
ghost use Rattle.script.specs.Table.{param_name, most_of};
ghost use Rattle.script.specs.Print.{numbers, of_call, over_text, wrong_text, wrong_line};
ghost use Rattle.script.specs.Put.{Puts, Prints};

use crate::put::{number, text};
use crate::{Call, Param};

// What is wrong with a line. The words of a list are numbered from 0.
#[derive(Clone, Copy, PartialEq, Eq)]
pub enum Wrong {
    NoSuchCall,
    Missing { call: Call, param: Param },
    NotDecimal { call: Call, param: Param },
    OutOfRange { call: Call, param: Param },
    WordNotDecimal { call: Call, word: usize },
    WordOutOfRange { call: Call, word: usize },
    TooFewWords { call: Call },
    TooManyWords { call: Call },
    ListTooLong { call: Call, room: usize },
    LineTooLong,
}

// The largest word.
const WORD_MOST: u64 = u32::MAX as u64;

// What is wrong with a number over the largest, put into lent bytes as `put` says; and so below. None of these types prints itself: the library's `Display` promises nothing of a `fmt` that fails.
fn put_over(buf: &mut [u8], at: usize, most: u64) -> usize
    requires { at + 64 ≤ length buf.old }
    ensures { Puts buf.old at 2 (over_text most) buf.new result }
{
    match most {
        u64::MAX => text(buf, at, b" does not fit into 64 bits"),
        WORD_MOST => text(buf, at, b" does not fit into 32 bits"),
        1 => text(buf, at, b" is neither 0 nor 1"),
        _ => {
            let a = text(buf, at, b" is over");
            number(buf, a, most)
        }
    }
}

// A call's name, a colon and a text.
fn of_call(buf: &mut [u8], at: usize, call: Call, bytes: &[u8]) -> usize
    requires { (at + 96 ≤ length buf.old) × (length bytes.now ≤ 32) }
    ensures { Puts buf.old at 3 (of_call call bytes.now) buf.new result }
{
    let a = text(buf, at, call.name().as_bytes());
    let b = text(buf, a, b": ");
    text(buf, b, bytes)
}

// A call's parameter and a text.
fn of_param(buf: &mut [u8], at: usize, call: Call, param: Param, bytes: &[u8]) -> usize
    requires { (at + 128 ≤ length buf.old) × (length bytes.now ≤ 32) }
    ensures { Puts buf.old at 4 (of_call call (param_name param ++ bytes.now)) buf.new result }
{
    let a = of_call(buf, at, call, param.name().as_bytes());
    text(buf, a, bytes)
}

// A call's parameter, over its largest number.
fn param_over(buf: &mut [u8], at: usize, call: Call, param: Param) -> usize
    requires { at + 160 ≤ length buf.old }
    ensures { Puts buf.old at 5 (of_call call (param_name param ++ over_text (most_of param))) buf.new result }
{
    let a = of_call(buf, at, call, param.name().as_bytes());
    put_over(buf, a, param.most())
}

// A call, a text, a number and a text.
fn counted(buf: &mut [u8], at: usize, call: Call, bytes: &[u8], n: u64, more: &[u8]) -> usize
    requires { (at + 160 ≤ length buf.old) × (length bytes.now ≤ 32) × (length more.now ≤ 32) }
    ensures { Puts buf.old at 5 (of_call call (bytes.now ++ (numbers (n ∷ []) ++ more.now))) buf.new result }
{
    let a = of_call(buf, at, call, bytes);
    let b = number(buf, a, n);
    text(buf, b, more)
}

// What is wrong.
fn message(buf: &mut [u8], at: usize, wrong: Wrong) -> usize
    requires { at + 160 ≤ length buf.old }
    ensures { Puts buf.old at 5 (wrong_text wrong) buf.new result }
{
    match wrong {
        Wrong::NoSuchCall => text(buf, at, b"no such call"),
        Wrong::Missing { call, param } => of_param(buf, at, call, param, b" is missing"),
        Wrong::NotDecimal { call, param } => {
            of_param(buf, at, call, param, b" is no decimal number")
        }
        Wrong::OutOfRange { call, param } => param_over(buf, at, call, param),
        Wrong::WordNotDecimal { call, word } => {
            counted(
                buf,
                at,
                call,
                b"word",
                word as u64,
                b" is no decimal number",
            )
        }
        Wrong::WordOutOfRange { call, word } => {
            counted(
                buf,
                at,
                call,
                b"word",
                word as u64,
                b" does not fit into 32 bits",
            )
        }
        Wrong::TooFewWords { call } => of_call(buf, at, call, b"a word too few"),
        Wrong::TooManyWords { call } => of_call(buf, at, call, b"a word too many"),
        Wrong::ListTooLong { call, room } => {
            counted(buf, at, call, b"more than", room as u64, b" words")
        }
        Wrong::LineTooLong => text(buf, at, b"line too long"),
    }
}

// The line's number and what is wrong with it; the answer is where it ends.
pub fn wrong_line(buf: &mut [u8], line: u64, wrong: Wrong) -> usize
    requires { 1024 ≤ length buf.old }
    ensures { Prints (wrong_line line wrong) buf.new result }
{
    let a = text(buf, 0, b"line");
    let b = number(buf, a, line);
    let c = text(buf, b, b": ");
    let d = message(buf, c, wrong);
    text(buf, d, b"\n")
}
