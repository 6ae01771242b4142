//! Item lines as programs write them: a letter, numbers of at most eight digits with one space before each, and a line
//! feed. They are read in one pass, and all other lines by their words.
ghost use Rattle.std.specs.Prelude.{◌≡◌, ◌<◌, ◌≤◌, [], ◌∷◌, Some, true, false, length, take, slice_index, MatchOption};
ghost use Rattle.std.specs.Str.{all_ascii_digits};
ghost use Rattle.std.specs.Str.Parse.{digits_value};
ghost use Rattle.ch_read.specs.Forms.{item_word, item_size};
ghost use Rattle.ch_read.specs.Reading.{capped_number};
ghost use Rattle.ch_read.specs.FirstLine.{HasSpacedNumber, BeginsWithItem};
ghost use Rattle.ch_read.specs.Words.{is_blank};

use crate::form::{Form, Part};
use crate::number::MOST_NUMBERS;

/// The most digits of a number in such a line.
const MOST_DIGITS: usize = 8;

/// Returns the part and the values of the item in the first line, and the bytes after it, or `None` if it is not such a
/// line.
pub(crate) fn plain_item(form: Form, bytes: &[u8]) -> Option<(Part, [u64; MOST_NUMBERS], &[u8])>
    requires { 0 < length bytes.now }
    ensures { MatchOption result (Unit {0}) (λ (part, values, rest).
        (item_word form part ≡ Some (take 1 bytes.now))
        × BeginsWithItem (take 1 bytes.now) (item_size form part) bytes.now values rest.now) }
{
    let part = part_of(form, bytes[0])?;
    let (values, rest) = plain_numbers(bytes, form.item_size(part))?;
    Some((part, values, rest))
}

/// Returns the part whose item lines begin with this letter, or `None` if there is none.
fn part_of(form: Form, letter: u8) -> Option<Part>
    ensures { MatchOption result (Unit {0}) (λ part. (item_word form part ≡ Some (letter ∷ [])) × (is_blank letter ≡ false)) }
{
    match (form, letter) {
        (Form::Graph, b'a')
        | (Form::Queries(_), b'q')
        | (Form::Nodes(_), b's')
        | (Form::Saved(_), b'o') => Some(Part::First),
        (Form::Saved(_), b'l') => Some(Part::Second),
        _ => None,
    }
}

/// Returns the values of the numbers after the first byte of the first line, and the bytes after the line, or `None` if
/// it is not a line with as many numbers in this form.
fn plain_numbers(bytes: &[u8], count: usize) -> Option<([u64; MOST_NUMBERS], &[u8])>
    requires some { 0 < length bytes.now }
    requires letter { is_blank (slice_index bytes.now 0) ≡ false }
    requires count { count ≤ 5 }
    ensures { MatchOption result (Unit {0}) (λ (values, rest). BeginsWithItem (take 1 bytes.now) count bytes.now values rest.now) }
{
    let mut values = [0; MOST_NUMBERS];
    let mut rest = &bytes[1..];
    for i in 0..count {
        let (value, after) = spaced_number(rest)?;
        values[i] = value;
        rest = after;
    }
    if rest.is_empty() || rest[0] != b'\n' {
        return None;
    }
    Some((values, &rest[1..]))
}

/// Returns the value of the digits after one space, and the bytes after them.
fn spaced_number(bytes: &[u8]) -> Option<(u64, &[u8])>
    ensures { MatchOption result (Unit {0}) (λ (value, rest). HasSpacedNumber bytes.now value rest.now) }
{
    if bytes.len() <= MOST_DIGITS || bytes[0] != b' ' {
        return None;
    }
    let text = &bytes[1..];
    let (value, count) = digits(text);
    if count == 0 {
        return None;
    }
    Some((value, &text[count..]))
}

/// Returns the value of the digits at the front, of which at most eight are read, and their number.
fn digits(text: &[u8]) -> (u64, usize)
    requires { 8 ≤ length text.now }
    ensures few { result.1 ≤ 8 }
    ensures digits { all_ascii_digits (take result.1 text.now) ≡ true }
    ensures value { result.0 ≡ capped_number (digits_value 10 (take result.1 text.now)) }
{
    let mut value = 0u64;
    for count in 0..MOST_DIGITS {
        let b = text[count];
        if !b.is_ascii_digit() {
            return (value, count);
        }
        value = value * 10 + u64::from(b - b'0');
    }
    (value, MOST_DIGITS)
}
