//! The loop over the lines of a file of any kind.
ghost use Rattle.std.specs.Prelude.{◌≡◌, ◌≤◌, [], length, MatchResult};
ghost use Rattle.ch_read.specs.declared.form.Item.{Item};
ghost use Rattle.ch_read.specs.declared.form.Part.TheVariants as Part;
ghost use Rattle.ch_read.specs.Words.{lines};
ghost use Rattle.ch_read.specs.Reading.{IsFile, IsErrorOf, IsWithin, values_in};
ghost use Rattle.ch_read.specs.Sections.{AreLines, IsErrorAfter};

use crate::check::{Line, check_end};
use crate::fault::{ReadError, ReadFault};
use crate::first_line::check_first_line;
use crate::form::{Counts, Form, Heading, Item};
use std::alloc::Global;

/// A value that an item line names.
pub trait FromItem: Copy {
    ghost from_item_gives: { Item → Self };

    fn from_item(item: Item) -> Self
        ensures { result ≡ Self.from_item_gives item };
}

impl FromItem for () {
    ghost from_item_gives = { λ _. tt };

    fn from_item(_item: Item) {}
}

/// The content of some lines.
#[derive(Drop)]
pub(crate) struct Content<A, B> {
    /// The number of lines.
    pub(crate) lines: u64,
    /// The heading that was declared before the lines, or in them.
    pub(crate) seen: Option<Heading>,
    pub(crate) first: Vec<A>,
    pub(crate) second: Vec<B>,
}

/// Reads the content of the lines. `begun` is the heading that was declared before them, or `None`.
pub(crate) fn read_lines<A: FromItem, B: FromItem>(
    alloc: Global,
    form: Form,
    begun: Option<Heading>,
    bytes: &[u8],
) -> Result<Content<A, B>, ReadError>
    requires { IsWithin form begun [] [] }
    ensures { MatchResult result
        (λ content. AreLines A.from_item_gives B.from_item_gives form begun (lines bytes.now) content.lines content.seen content.first.items content.second.items
        × (content.lines ≤ length bytes.now))
        (IsErrorAfter form begun bytes.now) }
{
    let mut seen = begun;
    let mut first = Vec::new(alloc);
    let mut second = Vec::new(alloc);
    let mut line = 0u64;
    let mut rest = bytes;
    while !rest.is_empty() {
        line += 1;
        let counts = Counts::new(first.len(), second.len());
        let (content, after) = match check_first_line(form, seen, counts, rest) {
            Ok(judged) => judged,
            Err(kind) => return Err(ReadError::Fault(ReadFault { line, kind })),
        };
        match content {
            Line::Skipped => {}
            Line::Problem(heading) => seen = Some(heading),
            Line::First(item) => first.push(A::from_item(item))?,
            Line::Second(item) => second.push(B::from_item(item))?,
        }
        rest = after;
    }
    Ok(Content {
        lines: line,
        seen,
        first,
        second,
    })
}

/// Reads the heading of a file, and the items of its two parts in the order of their lines. A file without a
/// second part is read with `()` for `B`.
pub fn read_items<A: FromItem, B: FromItem>(
    alloc: Global,
    form: Form,
    bytes: &[u8],
) -> Result<(Heading, Vec<A>, Vec<B>), ReadError>
    ensures { MatchResult result
        (λ (heading, first, second). IsFile form bytes.now heading
        × (first.items ≡ values_in A.from_item_gives form Part.First (lines bytes.now))
        × (second.items ≡ values_in B.from_item_gives form Part.Second (lines bytes.now)))
        (IsErrorOf form bytes.now) }
{
    let read = match read_lines::<A, B>(alloc, form, None, bytes) {
        Ok(read) => read,
        Err(error) => return Err(error),
    };
    match check_end(read.seen, Counts::new(read.first.len(), read.second.len())) {
        Ok(heading) => Ok((heading, read.first, read.second)),
        Err(kind) => {
            let line = read.lines + 1;
            Err(ReadError::Fault(ReadFault { line, kind }))
        }
    }
}
