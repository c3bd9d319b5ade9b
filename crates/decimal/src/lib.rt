// Decimal numbers of any length.
#![tactic(auto)]

ghost use Rattle.std.specs.Prelude.{◌≡◌};
ghost use Rattle.model.specs.Lists.{all};
ghost use Rattle.model.specs.Digits.{is_digit, value_from};
ghost use Rattle.decimal.specs.Numbers.{fitted, argument_of};

// Why a text is not a number of at most so much.
#[derive(Clone, Copy, PartialEq, Eq)]
pub enum NotANumber {
    NoNumber,
    TooLarge,
}

fn all_digits(word: &[u8]) -> bool
    ensures { result ≡ all is_digit word.now }
{
    word.iter().all(|b| b.is_ascii_digit())
}

// What digits stand for, if 64 bits hold it.
// kept: no try_fold, as it would be no plainer: its closure would hold the same line, with a `?` of its own.
fn value_of(word: &[u8]) -> Option<u64>
    ensures { result ≡ fitted (value_from 0 word.now) }
{
    let mut n: u64 = 0;
    for b in word {
        n = n
            .checked_mul(10)?
            .checked_add(u64::from(b.saturating_sub(b'0')))?;
    }
    Some(n)
}

// A text that is to be a number of at most `most`. An empty one is 0.
// kept: not the library's `u64::from_str_radix`, as it would be no plainer: it wants a `&str`, takes a `+`, and stops at the first fault, where a number that is
// too long, with a letter behind it, is no number here.
// kept: a match, and no `filter` and `ok_or`, as it would be no plainer: one arm says both when a number is taken and that it is.
pub fn read(word: &[u8], most: u64) -> Result<u64, NotANumber>
    ensures { result ≡ argument_of most word.now }
{
    if !all_digits(word) {
        return Err(NotANumber::NoNumber);
    }
    match value_of(word) {
        Some(n) if n <= most => Ok(n),
        _ => Err(NotANumber::TooLarge),
    }
}
