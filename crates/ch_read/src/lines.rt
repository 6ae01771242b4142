//! The lines of a file and the words of a line.
ghost use Rattle.std.specs.Prelude.{◌≡◌, ◌<◌, ◌≤◌, ◌==◌, not, [], ◌∷◌, length, take, position, None, MatchOption};
ghost use Rattle.ch_read.specs.Words.{is_blank, lines, words};
ghost use Rattle.ch_read.specs.RequestSteps.{HasNoLine, IsLineAhead};

/// Returns the place of the first line feed.
pub(crate) fn line_feed_at(bytes: &[u8]) -> Option<usize>
    ensures { result ≡ position (λ b. b == 10) bytes.now }
{
    bytes.iter().position(|b| *b == b'\n')
}

/// Returns the first line, and the bytes after it.
pub fn split_line(bytes: &[u8]) -> (&[u8], &[u8])
    requires { 0 < length bytes.now }
    ensures line { lines bytes.now ≡ result.0.now ∷ lines result.1.now }
    ensures less { length result.1.now < length bytes.now }
{
    match line_feed_at(bytes) {
        Some(at) => (&bytes[..at], &bytes[at + 1..]),
        None => (bytes, &[]),
    }
}

/// Whether the byte is a blank, which separates words.
pub(crate) fn blank(b: u8) -> bool
    ensures { result ≡ is_blank b }
{
    b == b' ' || b == b'\t' || b == b'\r' || b == b'\n'
}

/// Returns the place of the first blank.
fn blank_at(text: &[u8]) -> Option<usize>
    ensures { result ≡ position is_blank text.now }
{
    text.iter().position(|b| blank(*b))
}

/// Returns the place at which the first word begins.
pub(crate) fn word_at(text: &[u8]) -> Option<usize>
    ensures { result ≡ position (λ b. not (is_blank b)) text.now }
{
    text.iter().position(|b| !blank(*b))
}

/// Returns the first word and the bytes after it, or `None` if there is no word.
pub fn split_word(text: &[u8]) -> Option<(&[u8], &[u8])>
    ensures { MatchOption result (words text.now ≡ [])
        (λ (word, rest). (words text.now ≡ word.now ∷ words rest.now) × (0 < length word.now)) }
{
    let start = word_at(text)?;
    let from_word = &text[start..];
    match blank_at(from_word) {
        Some(end) => Some((&from_word[..end], &from_word[end..])),
        None => Some((from_word, &[])),
    }
}

/// Returns the place of the first line feed. The first `searched` bytes have none.
fn line_feed_past(bytes: &[u8], searched: usize) -> Option<usize>
    requires inside { searched ≤ length bytes.now }
    requires none { position (λ b. b == 10) (take searched bytes.now) ≡ None }
    ensures { result ≡ position (λ b. b == 10) bytes.now }
{
    let at = line_feed_at(&bytes[searched..])?;
    Some(searched + at)
}

/// Returns the first line and the number of its bytes with its line feed, or `None` if no line is whole. At the
/// end of the input the last line needs no line feed. The first `searched` bytes have no line feed, and are not
/// searched again.
pub fn line_ahead(bytes: &[u8], searched: usize, ended: bool) -> Option<(&[u8], usize)>
    requires inside { searched ≤ length bytes.now }
    requires none { position (λ b. b == 10) (take searched bytes.now) ≡ None }
    ensures { MatchOption result (HasNoLine ended bytes.now) (λ (text, taken). IsLineAhead ended bytes.now text.now taken) }
{
    match line_feed_past(bytes, searched) {
        Some(at) => Some((&bytes[..at], at + 1)),
        None if ended && !bytes.is_empty() => Some((bytes, bytes.len())),
        None => None,
    }
}
