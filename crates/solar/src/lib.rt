// The solar starts of a rule, counted and written, three words each: document 02, request 4.
#![tactic(auto)]

ghost use Rattle.std.specs.Prelude.{◌≡◌, ◌+◌, ◌*◌, ◌^◌, ◌≤◌, ◌<◌, length, replicate};
ghost use Rattle.std.proofs.lemmas.List.Edits.{sets};
ghost use Rattle.model.specs.Rules.{triggers_of};
ghost use Rattle.model.specs.Asked.{shown_result};
ghost use Rattle.model.specs.Readback.{start_words, start_of, solar_starts, count_values, shown_starts};
ghost use Rattle.solar.specs.Written.{written};

use eval::time::solar_time;
use image::layout::Image;
use model::{Refusal, SolarEvent, SunTimes, Trigger};

// The words of a start.
pub const START_WORDS: usize = 3;

// A mark that is 0, minute and remainder; without a sun 1, 0, 0.
#[tactic(auto, unfolding(model::specs::Readback::start_words))]
fn start_words(sun: Option<SunTimes>, event: SolarEvent, offset_ms: u32) -> [u32; START_WORDS]
    ensures { result ≡ start_words sun event offset_ms }
{
    match sun {
        Some(sun) => {
            let at = solar_time(sun, event, offset_ms);
            [0, at.minute, at.remainder.cast_unsigned()]
        }
        None => [1, 0, 0],
    }
}

// The start of an AtSolar trigger; the others have none.
#[tactic(auto, unfolding(model::specs::Readback::start_of))]
fn start_of(sun: Option<SunTimes>, trigger: Trigger) -> Option<[u32; START_WORDS]>
    ensures { result ≡ start_of sun trigger }
{
    match trigger {
        Trigger::AtSolar { event, offset_ms } => Some(start_words(sun, event, offset_ms)),
        Trigger::TimerFires { .. }
        | Trigger::Every { .. }
        | Trigger::AtTime { .. }
        | Trigger::Other => None,
    }
}

// How many starts rule i has.
fn count(image: &Image, i: u32, sun: Option<SunTimes>) -> usize
    ensures { (result ≡ length (solar_starts sun (triggers_of image.now i))) × (result < 2 ^ 32) }
{
    let triggers = image.triggers(i);
    triggers.filter_map(|x| start_of(sun, x)).count()
}

// Start n.
fn put(starts: &mut [u32], n: usize, start: &[u32; START_WORDS])
    requires { 3 * n + 3 ≤ length starts.old }
    ensures { starts.new ≡ sets starts.old (3 * n) start.now }
{
    let at = START_WORDS * n;
    starts[at..at + START_WORDS].copy_from_slice(start);
}

// The starts of rule i, one behind the other.
// kept: the chain of `count` stands here again, as in crontab's `Marks::write`: a result may not be `impl Iterator`.
fn put_all(image: &Image, i: u32, sun: Option<SunTimes>, starts: &mut [u32])
    requires { 3 * length (solar_starts sun (triggers_of image.now i)) ≤ length starts.old }
    ensures { starts.new ≡ written starts.old 0 (solar_starts sun (triggers_of image.now i)) }
{
    let triggers = image.triggers(i);
    let own = triggers.filter_map(|x| start_of(sun, x));
    for (n, start) in own.enumerate() {
        put(starts, n, &start);
    }
}

// The starts of rule i in words that are 0, if there is room for them: how many they are.
pub fn write(
    image: &Image,
    i: u32,
    sun: Option<SunTimes>,
    starts: &mut [u32],
) -> Result<u32, Refusal>
    requires { starts.old ≡ replicate (length starts.old) 0 }
    ensures { shown_result count_values result starts.new ≡ shown_starts (length starts.old) (solar_starts sun (triggers_of image.now i)) }
{
    let n = count(image, i, sun);
    if starts.len() / START_WORDS < n {
        return Err(Refusal::LentStores);
    }
    put_all(image, i, sun, starts);
    Ok(n as u32)
}
