// Patterns: an asterisk, or numbers and ranges joined by commas.
ghost use Rattle.std.specs.Prelude.{◌≡◌};
ghost use Rattle.model.specs.Crontab.{range_of, element_of, holds, is_asterisk, is_pattern, covers};

use crate::scan;

// The lowest and the highest number of a field.
// kept: no `RangeInclusive`, as it would be no plainer: it says also whether a loop has used it up, which each of the contracts here and in parts.rt
// would have to exclude, it is not `Copy`, and the specification's element is a pair.
#[derive(Clone, Copy)]
pub struct Bounds {
    pub lowest: u32,
    pub highest: u32,
}

// The first and the last of the numbers from a to b, if they are the field's.
#[tactic(auto, unfolding(model::specs::Crontab::range_of))]
fn range_of(bounds: Bounds, a: Option<u32>, b: Option<u32>) -> Option<(u32, u32)>
    ensures { result ≡ range_of bounds.lowest bounds.highest a b }
{
    let first = a?;
    let last = b?;
    let fits = bounds.lowest <= first && first <= last && last <= bounds.highest;
    fits.then_some((first, last))
}

fn element(bounds: Bounds, s: &[u8]) -> Option<(u32, u32)>
    ensures { result ≡ element_of bounds.lowest bounds.highest s.now }
{
    match s.iter().position(|b| *b == b'-') {
        Some(i) => range_of(bounds, scan::number(&s[..i]), scan::number(&s[i + 1..])),
        None => {
            let n = scan::number(s);
            range_of(bounds, n, n)
        }
    }
}

fn holds(range: Option<(u32, u32)>, v: u32) -> bool
    ensures { result ≡ holds v range }
{
    range.is_some_and(|(first, last)| (first..=last).contains(&v))
}

pub fn is_asterisk(s: &[u8]) -> bool
    ensures { result ≡ is_asterisk s.now }
{
    s.len() == 1 && s[0] == b'*'
}

// Whether every element is a number or a range of the field's.
pub fn is_pattern(bounds: Bounds, s: &[u8]) -> bool
    ensures { result ≡ is_pattern bounds.lowest bounds.highest s.now }
{
    is_asterisk(s)
        || s.split(|b| *b == b',')
            .all(|e| element(bounds, e).is_some())
}

// Whether an element holds the number v.
pub fn covers(bounds: Bounds, s: &[u8], v: u32) -> bool
    ensures { result ≡ covers bounds.lowest bounds.highest s.now v }
{
    is_asterisk(s)
        || s.split(|b| *b == b',')
            .any(|e| holds(element(bounds, e), v))
}
