// The triggers of a line: their minutes and days, counted and written.
ghost use Rattle.std.specs.Prelude.{◌≡◌, ◌+◌, ◌*◌, ◌≤◌, ◌<◌, length, [], ◌∷◌, ◌/◌, ◌%◌};
ghost use Rattle.std.proofs.lemmas.List.Edits.{sets};
ghost use Rattle.model.specs.Crontab.{field_covers, day_bit, days};
ghost use Rattle.crontab.specs.Fields.{number};
ghost use Rattle.crontab.specs.Scanned.{Marked, marked, marked_minutes, written};

use crate::TRIGGER_WORDS;
use crate::parts::Field;

// The kind of an AtTime trigger, as an image numbers them.
// kept: a number with a name, as no other kind is written: image's `trigger_of` reads it. model's `TriggerKind` numbers what starts a rule, where AtTime is 3.
const AT_TIME: u32 = 2;

// kept: the minutes of a day, as `eval::time` has them too: neither crate stands on the other.
const DAY_MINUTES: u32 = 1440;

// The hours and the minutes of an hour that a line covers.
#[derive(Drop)]
pub struct Marks {
    hours: [bool; 24],
    minutes: [bool; 60],
}

// Which of the first N numbers a field of a line covers.
fn covered<const N: usize>(line: &[u8], field: Field) -> [bool; N]
    requires { N ≤ 60 }
    ensures { Marked (field_covers line.now (number field)) N result }
{
    std::array::from_fn(|v| field.covers(line, v as u32))
}

// The bit that day d there has here.
fn day_bit(line: &[u8], sunday: u32, d: u32) -> u32
    requires { (sunday ≤ 6) × (d < 7) }
    ensures { (result ≡ day_bit line.now sunday d) × (result ≤ 64) }
{
    if !Field::Weekday.covers(line, d) {
        return 0;
    }
    1 << ((sunday + d) % 7)
}

// The weekdays here.
pub fn days_of(line: &[u8], sunday: u32) -> u32
    requires { sunday ≤ 6 }
    ensures { result ≡ days line.now sunday }
{
    (0..7).map(|d| day_bit(line, sunday, d)).sum()
}

// The trigger of minute t, in place n.
fn put(store: &mut [u32], n: usize, t: u32, ds: u32)
    requires { 8 * n + 8 ≤ length store.old }
    ensures { store.new ≡ sets store.old (8 * n) (2 ∷ t / 60 ∷ t % 60 ∷ ds ∷ []) }
{
    let at = TRIGGER_WORDS * n;
    store[at..at + 4].copy_from_slice(&[AT_TIME, t / 60, t % 60, ds]);
}

impl Marks {
    pub fn of(line: &[u8]) -> Marks
        ensures hours { Marked (field_covers line.now 1) 24 result.hours }
        ensures minutes { Marked (field_covers line.now 0) 60 result.minutes }
    {
        let hours = covered::<24>(line, Field::Hour);
        let minutes = covered::<60>(line, Field::Minute);
        Marks { hours, minutes }
    }

    // Whether minute t of a day is marked.
    fn has(&self, t: u32) -> bool
        ensures { result ≡ marked self.now.hours self.now.minutes t }
    {
        let hour = self.hours.get((t / 60) as usize).copied().unwrap_or(false);
        hour && self.minutes[(t % 60) as usize]
    }

    // How many minutes of a day are marked.
    pub fn count(&self) -> u32
        ensures { (result ≡ length (marked_minutes self.now.hours self.now.minutes)) × (result ≤ 1440) }
    {
        let marked = (0..DAY_MINUTES).filter(|t| self.has(*t));
        marked.count() as u32
    }

    // The triggers of the marked minutes, one behind the other.
    // kept: by the place of each. Tried by `store.chunks_exact_mut(TRIGGER_WORDS).zip(marked)`: what the function ensures does not close, since the loop's invariant
    // can name the chunks that are left, and no word of the store that is written.
    // kept: the chain of `count` stands here again, as it would be no plainer: a result may not be `impl Iterator`, so that it would be a struct with an `impl`.
    pub fn write(&self, ds: u32, store: &mut [u32])
        requires { 8 * length (marked_minutes self.now.hours self.now.minutes) ≤ length store.old }
        ensures { store.new ≡ written ds store.old 0 (marked_minutes self.now.hours self.now.minutes) }
    {
        let marked = (0..DAY_MINUTES).filter(|t| self.has(*t));
        for (n, t) in marked.enumerate() {
            put(store, n, t, ds);
        }
    }
}
