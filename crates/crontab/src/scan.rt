// Parts of a text: the fields of a line, and decimal numbers.
ghost use Rattle.std.specs.Prelude.{◌≡◌, ◌≤◌, length};
ghost use Rattle.model.specs.Crontab.{until, is_blank, behind_first, field, number_of};
ghost use Rattle.crontab.specs.Scanned.{word_sized};

fn is_blank(b: u8) -> bool
    ensures { result ≡ is_blank b }
{
    b == b' ' || b == b'\t'
}

// How many bytes stand before the first blank, or all.
fn first_length(text: &[u8]) -> usize
    ensures place { result ≡ until is_blank text.now }
    ensures within { result ≤ length text.now }
{
    text.iter().position(|b| is_blank(*b)).unwrap_or(text.len())
}

// What stands behind the first field and the blanks after it.
fn behind_first(text: &[u8]) -> &[u8]
    ensures { result.now ≡ behind_first text.now }
{
    let rest = &text[first_length(text)..];
    let blanks = rest
        .iter()
        .position(|b| !is_blank(*b))
        .unwrap_or(rest.len());
    &rest[blanks..]
}

pub fn field(line: &[u8], k: usize) -> &[u8]
    ensures { result.now ≡ field k line.now }
{
    let mut rest = line;
    for _ in 0..k {
        rest = behind_first(rest);
    }
    &rest[..first_length(rest)]
}

// The number that decimal digits stand for, if 32 bits hold it.
pub fn number(s: &[u8]) -> Option<u32>
    ensures { result ≡ word_sized (number_of s.now) }
{
    if s.is_empty() {
        return None;
    }
    // kept: a match, and no `.ok().map(..)`: that 32 bits hold the number is known of what was read, and a closure would have to cast any number.
    match decimal::read(s, u32::MAX as u64) {
        Ok(n) => Some(n as u32),
        Err(_) => None,
    }
}
