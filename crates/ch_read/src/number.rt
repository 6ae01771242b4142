//! The numbers of a line.
ghost use Rattle.std.specs.Prelude.{◌≡◌, ◌<◌, ◌≤◌, [], Some, None, length, option_map, MatchOption};
ghost use Rattle.ch_read.specs.Forms.{numbers_after};
ghost use Rattle.ch_read.specs.Reading.{capped_number, AreCapped, HasFirstNumber, HasNoFirstNumber};
ghost use Rattle.ch_read.specs.Words.{number, words};

use crate::lines::{blank, split_word, word_at};

/// The most numbers that a line has.
pub const MOST_NUMBERS: usize = 5;

/// The greatest value for which one more digit is added without a look at the greatest `u64`.
const MOST_SHORT: u64 = 1 << 60;

/// Returns the value of a word of digits of any length. A value past `u64` is past each limit, and is read as
/// the greatest `u64`.
pub fn number_of(word: &[u8]) -> Option<u64>
    requires { 0 < length word.now }
    ensures { result ≡ option_map capped_number (number word.now) }
{
    let mut value = 0u64;
    for b in word {
        if !b.is_ascii_digit() {
            return None;
        }
        value = value
            .saturating_mul(10)
            .saturating_add(u64::from(*b - b'0'));
    }
    Some(value)
}

/// Returns the value of the first word as [`number_of`] does, and the bytes after the word. Returns `None` if there is
/// no word, or if it is no number.
///
/// Almost all words are digits alone. Their end is found and their value is computed in one pass.
fn first_number(text: &[u8]) -> Option<(u64, &[u8])>
    ensures { MatchOption result (HasNoFirstNumber (words text.now))
        (λ (value, rest). HasFirstNumber (words text.now) value (words rest.now)) }
{
    let start = word_at(text)?;
    let from_word = &text[start..];
    let mut value = 0u64;
    for (at, b) in from_word.iter().enumerate() {
        if !b.is_ascii_digit() || value > MOST_SHORT {
            if blank(*b) {
                return Some((value, &from_word[at..]));
            }
            return any_first_number(from_word);
        }
        value = value * 10 + u64::from(*b - b'0');
    }
    Some((value, &[]))
}

/// Does the same as [`first_number`] in two passes, for a word of any bytes.
fn any_first_number(text: &[u8]) -> Option<(u64, &[u8])>
    ensures { MatchOption result (HasNoFirstNumber (words text.now))
        (λ (value, rest). HasFirstNumber (words text.now) value (words rest.now)) }
{
    let (word, rest) = split_word(text)?;
    let value = number_of(word)?;
    Some((value, rest))
}

/// Returns the values of the words and then zeros, or `None` unless there are exactly `count` words and each is
/// a number.
pub fn numbers_of(text: &[u8], count: usize) -> Option<[u64; MOST_NUMBERS]>
    requires { count ≤ 5 }
    ensures { let numbers = numbers_after [] count (words text.now) in
        MatchOption result (numbers ≡ None) (AreCapped numbers) }
{
    let mut values = [0; MOST_NUMBERS];
    let mut rest = text;
    for i in 0..count {
        let (value, after) = first_number(rest)?;
        values[i] = value;
        rest = after;
    }
    match split_word(rest) {
        Some(_) => None,
        None => Some(values),
    }
}
