//! The check of the first line of bytes: in one pass where it has the form in which programs write items, and else by its words.
ghost use Rattle.std.specs.Prelude.{◌≡◌, ◌<◌, length, MatchResult};
ghost use Rattle.ch_read.specs.FirstLine.{item_line, IsFirstLine, FailsFirst};

use crate::check::{Line, check_line, check_values};
use crate::fault::FaultKind;
use crate::form::{Counts, Form, Heading, Item, Part};
use crate::lines::split_line;
use crate::plain_line::plain_item;

/// Judges the first line of bytes as [`check_line`] does, and returns its content and the bytes after it.
// Inlined, its result is not put into memory for each line.
#[inline(always)]
pub(crate) fn check_first_line(
    form: Form,
    seen: Option<Heading>,
    counts: Counts,
    bytes: &[u8],
) -> Result<(Line, &[u8]), FaultKind>
    requires { 0 < length bytes.now }
    ensures { MatchResult result (λ (line, rest). IsFirstLine form seen counts bytes.now line rest.now)
        (FailsFirst form seen counts bytes.now) }
{
    if let Some(heading) = seen {
        if let Some(found) = plain_item(form, bytes) {
            let (part, values, rest) = found;
            return match check_values(form, part, heading, counts.of(part), &values) {
                Ok(item) => Ok((line_of(part, item), rest)),
                Err(kind) => Err(kind),
            };
        }
    }
    let (text, rest) = split_line(bytes);
    let line = check_line(form, seen, counts, text)?;
    Ok((line, rest))
}

/// Makes the content of a line with an item of the part.
fn line_of(part: Part, item: Item) -> Line
    ensures { result ≡ item_line part item }
{
    match part {
        Part::First => Line::First(item),
        Part::Second => Line::Second(item),
    }
}
