// Bytes and words of a text.
ghost use Rattle.std.specs.Prelude.{◌≡◌, length};
ghost use Rattle.std.specs.Char.{is_ascii_whitespace};
ghost use Rattle.std.specs.List.{position_or_len};
ghost use Rattle.script.specs.Words.{uncommented};
ghost use Rattle.script.specs.Scan.{NextWord};

// The text in front of a comment.
pub fn uncommented(line: &[u8]) -> &[u8]
    ensures { result.now ≡ uncommented line.now }
{
    let end = line.iter().position(|b| *b == b'#').unwrap_or(line.len());
    &line[..end]
}

// How many bytes stand in front of the first white space.
fn word_len(text: &[u8]) -> usize
    ensures { result ≡ position_or_len is_ascii_whitespace text.now }
{
    text.iter()
        .position(|b| b.is_ascii_whitespace())
        .unwrap_or(text.len())
}

// The first word, and what stands behind it.
pub fn next_word(text: &[u8]) -> Option<(&[u8], &[u8])>
    ensures { NextWord text.now result }
{
    let text = text.trim_ascii_start();
    if text.is_empty() {
        return None;
    }
    Some(text.split_at(word_len(text)))
}
