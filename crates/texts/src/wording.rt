// A text cut into lines, a line into words, and numbers read from words. Words are bytes and no `str`: a file may hold any bytes, and a name is printed as it stands.
ghost use Rattle.std.specs.Prelude.{◌≡◌, ◌==◌, ◌-◌, ◌^◌, ◌<◌, ◌≤◌, [], ◌∷◌, length, map, IfOk, MatchOption};
ghost use Rattle.std.specs.Option.{option_map};
ghost use Rattle.std.specs.List.{before_first, after_first};
ghost use Rattle.std.specs.Str.{bytes_eq};
ghost use Rattle.texts.specs.Words.{blank, lines, gap, word_end, words, number_in, capped};

use std::alloc::{AllocError, Global};

// The bytes before the first `end`, and those after it.
fn cut_at(bytes: &[u8], end: u8) -> (&[u8], &[u8])
    ensures before { result.0.now ≡ before_first (λ b. b == end) bytes.now }
    ensures after { result.1.now ≡ after_first (λ b. b == end) bytes.now }
{
    match bytes.iter().position(|&byte| byte == end) {
        Some(at) => (&bytes[..at], &bytes[at + 1..]),
        None => (bytes, b""),
    }
}

// The first line of a text, and what follows it.
pub(crate) fn cut_line(text: &[u8]) -> (&[u8], &[u8])
    ensures first { 0 < length text.now → lines text.now ≡ result.0.now ∷ lines result.1.now }
    ensures less { 0 < length text.now → length result.1.now < length text.now }
{
    cut_at(text, b'\n')
}

// Whether a byte stands between words.
fn is_blank(byte: u8) -> bool
    ensures { result ≡ blank byte }
{
    matches!(byte, b' ' | b'\t' | b'\r')
}

// How many blanks a line begins with.
fn blanks(line: &[u8]) -> usize
    ensures is { result ≡ gap line.now }
    ensures within { result ≤ length line.now }
{
    let first = line.iter().position(|&byte| !is_blank(byte));
    first.unwrap_or(line.len())
}

// How many bytes of a word a line begins with.
fn word_end(line: &[u8]) -> usize
    ensures is { result ≡ word_end line.now }
    ensures within { result ≤ length line.now }
{
    let first = line.iter().position(|&byte| is_blank(byte) || byte == b'#');
    first.unwrap_or(line.len())
}

// The first word of a line, and what follows it.
fn next_word(line: &[u8]) -> Option<(&[u8], &[u8])>
    ensures { MatchOption result (words line.now ≡ []) (λ p. (words line.now ≡ p.0.now ∷ words p.1.now) × (length p.1.now < length line.now)) }
{
    let rest = &line[blanks(line)..];
    let end = word_end(rest);
    if end == 0 {
        None
    } else {
        Some((&rest[..end], &rest[end..]))
    }
}

// The words of a line. A loop, word by word: a chain of `split` and `filter`, behind a search for the `#`, went over each byte once more, and made a piece of each blank.
pub(crate) fn words_of<'a>(heap: Global, line: &'a [u8]) -> Result<Vec<&'a [u8]>, AllocError>
    ensures { IfOk result (λ v. map (λ x. x.now) v.items ≡ words line.now) }
{
    let mut all = Vec::new(heap);
    let mut rest = line;
    while let Some((word, after)) = next_word(rest) {
        all.push(word)?;
        rest = after;
    }
    Ok(all)
}

// Whether two words are the same: `==` would take no byte string, which is an array, beside a slice.
pub(crate) fn same(one: &[u8], other: &[u8]) -> bool
    ensures { result ≡ bytes_eq one.now other.now }
{
    one == other
}

// The number that a word writes, if it is one.
pub(crate) fn number(word: &[u8]) -> Option<u64>
    ensures { result ≡ option_map (capped (2 ^ 64 - 1)) (number_in word.now) }
{
    if word.is_empty() {
        return None;
    }
    let mut sum: u64 = 0;
    // A loop that ends at the first byte that is no digit: a `try_fold` would be no plainer.
    for &byte in word {
        if !byte.is_ascii_digit() {
            return None;
        }
        sum = sum
            .saturating_mul(10)
            .saturating_add(u64::from(byte - b'0'));
    }
    Some(sum)
}
