// Words as parts of larger numbers, and the minute of the day. Each contract is one equation with a definition of specs/, over ℕ for unsigned numbers and
// over ℤ for signed ones; what the library's methods give in these words is in proofs/Laws.antt.
#![tactic(auto, unfolding(crate::specs::Pairs::joined, crate::specs::Pairs::low_of, crate::specs::Pairs::high_of))]

ghost use Rattle.std.specs.Prelude.{◌≡◌};
ghost use Rattle.words.specs.Pairs.{joined, low_of, high_of};
ghost use Rattle.words.specs.Solar.{solar_time};

// How many numbers a word has.
const BASE: u64 = 1 << 32;

// Two words as one 64-bit number, and back.
// kept: a product, `%` and `/`, as the definitions have them, here and in the two below. A cast asks that its value fits, so that `low_word` needs the `%` in any
// case, and a shift in the others would be a second way of saying the same.
pub fn join_words(low: u32, high: u32) -> u64
    ensures { result ≡ joined low high }
{
    u64::from(low) + BASE * u64::from(high)
}

pub fn low_word(x: u64) -> u32
    ensures { result ≡ low_of x }
{
    (x % BASE) as u32
}

pub fn high_word(x: u64) -> u32
    ensures { result ≡ high_of x }
{
    (x / BASE) as u32
}

// A minute of the day, and the milliseconds of an offset that make no whole minute.
#[derive(Clone, Copy)]
pub struct SolarTime {
    pub minute: u32,
    pub remainder: i32,
}

// The minute of the day at `offset` milliseconds, a signed word, from the minute `base`, and what is left of the offset.
pub fn solar_time(base: u32, offset: u32) -> SolarTime
    ensures { result ≡ solar_time base offset }
{
    let offset_ms = offset.cast_signed();
    let minutes = i64::from(base) + i64::from(offset_ms / 60_000);
    SolarTime {
        minute: minutes.rem_euclid(1_440) as u32,
        remainder: offset_ms % 60_000,
    }
}
