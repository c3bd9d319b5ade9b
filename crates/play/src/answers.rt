// What is printed for the values of an answer. The check compares the text of a `write!` with the definition's.
#![tactic(auto, using(crate::proofs::Gathering::gathers_by))]

ghost use Rattle.std.specs.Prelude.{◌≤◌, ◌<◌, ◌+◌, ◌^◌, ◌==◌, ◌++◌, [], get_or};
ghost use Rattle.model.specs.Text.{bytes_of};
ghost use Rattle.script.specs.Print.{numbers, signed, line, refused_line, enabled_line, peek_line, handled_line};
ghost use Rattle.play.specs.Printed.{words_at, row_line, row_lines, effect_lines, outcome_at, outcome_with, outcome_lines, handled_lines, deadline_of, telegram_lines, trigger_lines, start_lines, room_lines, place_lines, rewrite_lines, solar_line, solar_lines, readback_lines};
ghost use Rattle.play.specs.Gathered.{Gathers};

use crate::output::{LINE_BYTES, Output};
use script::Call;

// Words of a store, which end a line.
#[tactic(auto, using(crate::proofs::Gathering::gathers_lines))]
fn last(out: &mut Output, words: &[u32], at: usize, count: usize)
    requires { at + count < 2 ^ 64 }
    ensures { Gathers out.old (numbers (words_at words.now at count) ++ bytes_of "\n") out.new }
{
    out.words(words, at, count);
    out.text(b"\n")
}

// A name, and words of a store behind it.
#[tactic(auto, using(crate::proofs::Gathering::gathers_lines))]
fn named(out: &mut Output, name: &str, words: &[u32], at: usize, count: usize)
    requires { at + count < 2 ^ 64 }
    ensures { Gathers out.old (line name.now (numbers (words_at words.now at count))) out.new }
{
    out.text(name.as_bytes());
    last(out, words, at, count)
}

// A refusal of any call.
pub fn refused(out: &mut Output, call: Call, number: u32)
    ensures { Gathers out.old (refused_line call number) out.new }
{
    writeln!(out, "{} refused {number}", call.name())
}

pub fn enabled(out: &mut Output, rule: u32, answer: &[u32; 16])
    ensures { Gathers out.old (enabled_line rule (get_or answer.now 0 0 == 1)) out.new }
{
    let known = if answer[0] == 1 { "yes" } else { "no" };
    writeln!(out, "enable {rule} {known}")
}

pub fn counters(out: &mut Output, answer: &[u32; 16])
    ensures { Gathers out.old (line (bytes_of "counters") (numbers (words_at answer.now 0 16))) out.new }
{
    named(out, "counters", answer, 0, 16)
}

pub fn peeked(out: &mut Output, place: u64, word: u32)
    ensures { Gathers out.old (peek_line place word) out.new }
{
    writeln!(out, "peek {place} {word}")
}

// The room of an image.
pub fn room(out: &mut Output, answer: &[u32; 16])
    ensures { Gathers out.old (room_lines answer.now []) out.new }
{
    named(out, "room", answer, 0, 2)
}

// A short list: its length and three places.
pub fn short_list(out: &mut Output, answer: &[u32; 16])
    ensures { Gathers out.old (place_lines answer.now []) out.new }
{
    named(out, "shortlist", answer, 0, 4)
}

// An image written anew: how many words it has, and these.
pub fn rewrite(out: &mut Output, answer: &[u32; 16], image: &[u32])
    ensures { Gathers out.old (rewrite_lines answer.now image.now) out.new }
{
    out.text(b"rewrite");
    out.words(answer, 0, 1);
    last(out, image, 0, answer[0] as usize)
}

// The words of a record that a line shows: so many from word `from` on, of `width`.
#[derive(Clone, Copy)]
struct Columns {
    width: usize,
    from: usize,
    shown: usize,
}

// Words of record i behind a name.
fn row(out: &mut Output, piece: &mut [u8; LINE_BYTES], name: &str, x: Columns, ws: &[u32], i: usize)
    requires narrow { (x.width ≤ 64) × (x.from ≤ 64) × (x.shown ≤ 64) }
    requires within { i ≤ 8589934592 }
    ensures { Gathers out.old (row_line name.now x ws.now i) out.new }
{
    let at = x.width * i + x.from;
    if name.len() <= 32 && x.shown <= 6 {
        return out.short_line(piece, name.as_bytes(), ws, at, x.shown);
    }
    named(out, name, ws, at, x.shown)
}

// So many records of a lent store, from number `first` on.
// kept: places and no chunks of the store, since a record past its end is printed too, as zeros.
fn rows(out: &mut Output, name: &str, x: Columns, ws: &[u32], first: u32, count: u32)
    requires { (x.width ≤ 64) × (x.from ≤ 64) × (x.shown ≤ 64) }
    ensures { Gathers out.old (row_lines name.now x ws.now first count) out.new }
{
    let mut piece = [0; LINE_BYTES];
    for i in 0..count {
        row(out, &mut piece, name, x, ws, first as usize + i as usize);
    }
}

pub fn effects_of(out: &mut Output, first: u32, count: u32, effects: &[u32])
    ensures { Gathers out.old (effect_lines effects.now first count) out.new }
{
    let x = Columns {
        width: lent_words::EFFECT_WORDS,
        from: 0,
        shown: lent_words::EFFECT_WORDS,
    };
    rows(out, "effect", x, effects, first, count)
}

// Outcome i: rule, dry, trigger, reason and the count of its effects.
fn outcome_line(out: &mut Output, i: u32, outcomes: &[u32])
    ensures { Gathers out.old (outcome_at outcomes.now i) out.new }
{
    let at = activate::OUTCOME_WORDS * i as usize;
    out.text(b"rule");
    out.words(outcomes, at, 4);
    last(out, outcomes, at + 5, 1)
}

// Outcome i and its effects.
// kept: out, outcomes and effects side by side, here and in the two below: a struct of the two stores would be made for one call of `handled`, and be taken apart here.
#[tactic(auto, using(crate::proofs::Gathering::gathers_lines))]
fn outcome_of(out: &mut Output, i: u32, outcomes: &[u32], effects: &[u32])
    ensures { Gathers out.old (outcome_with outcomes.now effects.now i) out.new }
{
    outcome_line(out, i, outcomes);
    let at = activate::OUTCOME_WORDS * i as usize;
    let first = fields::word(outcomes, at + 4);
    let count = fields::word(outcomes, at + 5);
    effects_of(out, first, count, effects)
}

#[tactic(auto, using(crate::proofs::Gathering::gathers_none, crate::proofs::Gathering::gathers_then))]
fn outcomes_of(out: &mut Output, count: u32, outcomes: &[u32], effects: &[u32])
    ensures { Gathers out.old (outcome_lines outcomes.now effects.now count) out.new }
{
    // kept: places, for the reason at `rows`.
    for i in 0..count {
        outcome_of(out, i, outcomes, effects);
    }
}

// A call that has outcomes, its time and their number.
fn handled_line(out: &mut Output, call: Call, time: u64, count: u32)
    ensures { Gathers out.old (handled_line call time count) out.new }
{
    writeln!(out, "{} {time} {count}", call.name())
}

// A tick or a run at a time: its outcomes.
#[tactic(auto, using(crate::proofs::Gathering::gathers_lines))]
pub fn handled(
    out: &mut Output,
    call: Call,
    time: u64,
    answer: &[u32; 16],
    outcomes: &[u32],
    effects: &[u32],
)
    ensures { Gathers out.old (handled_lines call time answer.now outcomes.now effects.now) out.new }
{
    let count = answer[0];
    handled_line(out, call, time, count);
    outcomes_of(out, count, outcomes, effects)
}

// kept: the mark is a number, as the C interface writes it.
pub fn deadline(out: &mut Output, answer: &[u32; 16])
    ensures { Gathers out.old (deadline_of answer.now) out.new }
{
    match answer[0] {
        0 => writeln!(out, "deadline none"),
        _ => writeln!(out, "deadline {}", words::join_words(answer[1], answer[2])),
    }
}

// The list of telegrams: how many effects, and a line for each.
pub fn telegrams(out: &mut Output, answer: &[u32; 16], list: &[u32])
    ensures { Gathers out.old (telegram_lines answer.now list.now) out.new }
{
    let count = answer[0];
    writeln!(out, "telegrams {count}");
    effects_of(out, 0, count, list)
}

// A line of a crontab: how many triggers, and hour, minute and days of each.
pub fn triggers(out: &mut Output, answer: &[u32; 16], triggers: &[u32])
    ensures { Gathers out.old (trigger_lines answer.now triggers.now) out.new }
{
    let count = answer[0];
    let x = Columns {
        width: crontab::TRIGGER_WORDS,
        from: 1,
        shown: 3,
    };
    writeln!(out, "crontab {count}");
    rows(out, "trigger", x, triggers, 0, count)
}

// The next start: none, unknown, or minutes and rule, by the mark.
// kept: the mark is a number, as the C interface writes it.
#[tactic(auto, using(crate::proofs::Gathering::gathers_by), unfolding(crate::specs::Printed::words_at))]
pub fn start(out: &mut Output, answer: &[u32; 16])
    ensures { Gathers out.old (start_lines answer.now []) out.new }
{
    match answer[0] {
        0 => writeln!(out, "start none"),
        1 => writeln!(out, "start {} {}", answer[1], answer[2]),
        _ => writeln!(out, "start unknown"),
    }
}

// A signed word, which ends a line.
fn signed_last(out: &mut Output, word: u32)
    ensures { Gathers out.old (signed word ++ bytes_of "\n") out.new }
{
    writeln!(out, " {}", word.cast_signed())
}

// Solar start i: mark, minute, signed remainder.
fn solar_start(out: &mut Output, i: u32, starts: &[u32])
    ensures { Gathers out.old (solar_line starts.now i) out.new }
{
    let at = solar::START_WORDS * i as usize;
    out.text(b"start");
    out.words(starts, at, 2);
    signed_last(out, fields::word(starts, at + 2))
}

#[tactic(auto, using(crate::proofs::Gathering::gathers_none, crate::proofs::Gathering::gathers_then))]
fn solar_starts(out: &mut Output, count: u32, starts: &[u32])
    ensures { Gathers out.old (solar_lines starts.now count) out.new }
{
    // kept: places, for the reason at `rows`.
    for i in 0..count {
        solar_start(out, i, starts);
    }
}

// The solar starts of a rule: how many, and each of them.
pub fn readback(out: &mut Output, answer: &[u32; 16], starts: &[u32])
    ensures { Gathers out.old (readback_lines answer.now starts.now) out.new }
{
    let count = answer[0];
    writeln!(out, "readback {count}");
    solar_starts(out, count, starts)
}
