//! Reads files in sections that workers share.
ghost use Rattle.std.specs.Prelude.{◌≡◌, ◌<◌, ◌++◌, true, length, slice_index, Some, IfOk, MatchOption, MatchResult};
ghost use Rattle.std.specs.List.{flat_map};
ghost use Rattle.ch_read.specs.declared.form.Part.TheVariants as Part;
ghost use Rattle.ch_read.specs.Words.{lines};
ghost use Rattle.ch_read.specs.Checks.{is_size};
ghost use Rattle.ch_read.specs.Reading.{IsFile, IsErrorOf, values_in};
ghost use Rattle.ch_read.specs.Sections.{AreListsOf, BeginsWith, IsSection};

use crate::check::{Line, check_line};
use crate::fault::ReadError;
use crate::form::{Counts, Form, Heading};
use crate::lines::{line_feed_at, split_line};
use crate::reader::{FromItem, read_items, read_lines};
use ch_work::{Crew, Gate, ListJob, Open, Plan, joined, run_list};
use std::alloc::{AllocError, Global};
use std::marker::PhantomData;
use std::thread::Threads;

/// The size in bytes for sections of files. Each section has more bytes, except the last.
pub(crate) const SECTION: usize = 1 << 20;

/// Does the same as [`read_items`] with the workers of a crew, which share sections of more than `size` bytes.
/// If they find a fault, the caller reads the file again to find the first one.
pub(crate) fn read_items_by<
    R: Threads + Sync,
    G: Gate,
    A: FromItem + Send + Sync,
    B: FromItem + Send + Sync,
>(
    crew: &Crew<'_, R, G>,
    size: usize,
    form: Form,
    bytes: &[u8],
) -> Result<(Heading, Vec<A>, Vec<B>), ReadError>
    ensures { MatchResult result
        (λ (heading, first, second). IsFile form bytes.now heading
        × (first.items ≡ values_in A.from_item_gives form Part.First (lines bytes.now))
        × (second.items ≡ values_in B.from_item_gives form Part.Second (lines bytes.now)))
        (IsErrorOf form bytes.now) }
{
    if crew.plan.shares(bytes.len(), size.saturating_add(1)) {
        match read_sections::<R, G, A, B>(crew, size, form, bytes) {
            Ok(Some(read)) => return Ok(read),
            Ok(None) => {}
            Err(AllocError) => return Err(ReadError::NoMemory),
        }
    }
    read_items(crew.alloc, form, bytes)
}

/// Reads the heading and the items of a file without a fault. Returns `None` if the file has a fault.
fn read_sections<R: Threads + Sync, G: Gate, A: FromItem + Send + Sync, B: FromItem + Send + Sync>(
    crew: &Crew<'_, R, G>,
    size: usize,
    form: Form,
    bytes: &[u8],
) -> Result<Option<(Heading, Vec<A>, Vec<B>)>, AllocError>
    ensures { IfOk result (λ read. MatchOption read (Unit {0})
        (λ (heading, first, second). IsFile form bytes.now heading
        × (first.items ≡ values_in A.from_item_gives form Part.First (lines bytes.now))
        × (second.items ≡ values_in B.from_item_gives form Part.Second (lines bytes.now)))) }
{
    let Some((heading, rest)) = split_head(form, bytes) else {
        return Ok(None);
    };
    let sections = cut(crew.alloc, rest, size)?;
    let Some((firsts, seconds)) = lists_by::<R, G, A, B>(crew, form, heading, &sections)? else {
        return Ok(None);
    };
    let first = joined(crew.alloc, firsts)?;
    let second = joined(crew.alloc, seconds)?;
    if Counts::new(first.len(), second.len()) == heading.items {
        Ok(Some((heading, first, second)))
    } else {
        Ok(None)
    }
}

/// Returns the heading of the problem line and the bytes after the line, or `None` if a line up to it has a
/// fault.
fn split_head(form: Form, bytes: &[u8]) -> Option<(Heading, &[u8])>
    ensures { MatchOption result (Unit {0}) (λ (heading, rest). BeginsWith form bytes.now heading rest.now) }
{
    let mut rest = bytes;
    while !rest.is_empty() {
        let (text, after) = split_line(rest);
        match check_line(form, None, Counts::new(0, 0), text) {
            Ok(Line::Skipped) => rest = after,
            Ok(Line::Problem(heading)) => return Some((heading, after)),
            _ => return None,
        }
    }
    None
}

/// Returns the place of the first line feed from this place on.
fn line_feed_from(bytes: &[u8], from: usize) -> Option<usize>
    ensures { MatchOption result (Unit {0}) (λ at. (at < length bytes.now) × (slice_index bytes.now at ≡ 10)) }
{
    if from >= bytes.len() {
        return None;
    }
    let at = line_feed_at(&bytes[from..])?;
    Some(from + at)
}

/// Returns the first section of more than `size` bytes, which ends with a line feed, and the bytes after it.
fn split_section(bytes: &[u8], size: usize) -> Option<(&[u8], &[u8])>
    ensures { MatchOption result (Unit {0}) (λ (section, rest). (lines bytes.now ≡ lines section.now ++ lines rest.now) × (length rest.now < length bytes.now)) }
{
    let at = line_feed_from(bytes, size)?;
    Some((&bytes[..at + 1], &bytes[at + 1..]))
}

/// Cuts the bytes after line feeds into sections of more than `size` bytes each, except the last.
#[tactic(auto, using(crate::proofs::Cuts::more_sections))]
fn cut(alloc: Global, bytes: &[u8], size: usize) -> Result<Vec<&[u8]>, AllocError>
    ensures { IfOk result (λ sections. lines bytes.now ≡ flat_map (λ section. lines section.now) sections.items) }
{
    let mut sections = Vec::new(alloc);
    let mut rest = bytes;
    while let Some((section, after)) = split_section(rest, size) {
        sections.push(section)?;
        rest = after;
    }
    sections.push(rest)?;
    Ok(sections)
}

/// Reads the items of the first part and of the second from all sections, in the order of the sections. Returns
/// `None` if a section has a fault. The workers share the sections one by one. They do not pass the caller's
/// gate, because its stage of reading counts files.
fn lists_by<'a, R: Threads + Sync, G: Gate, A: FromItem + Send + Sync, B: FromItem + Send + Sync>(
    crew: &Crew<'_, R, G>,
    form: Form,
    heading: Heading,
    sections: &'a [&'a [u8]],
) -> Result<Option<(Vec<Vec<A>>, Vec<Vec<B>>)>, AllocError>
    requires { is_size form heading ≡ true }
    ensures { IfOk result (λ lists. MatchOption lists (Unit {0}) (λ (firsts, seconds).
        IsSection A.from_item_gives B.from_item_gives form heading (flat_map (λ section. lines section.now) sections.now)
        (flat_map (λ list. list.items) firsts.items) (flat_map (λ list. list.items) seconds.items))) }
{
    if u32::try_from(sections.len()).is_err() {
        return Ok(None);
    }
    let each = Crew {
        rt: crew.rt,
        alloc: crew.alloc,
        plan: Plan::new(crew.plan.workers(), 1, crew.plan.wide()),
        gate: &Open,
    };
    let job = SectionReader::<A, B> {
        form,
        heading,
        text: PhantomData,
        of: PhantomData,
    };
    let read = run_list(&each, sections, &job)?;
    lists_of(crew.alloc, read)
}

/// Returns the lists of all sections, or `None` if one was not read.
#[tactic(auto, using(crate::proofs::Cuts::lists_more))]
fn lists_of<A: Drop, B: Drop>(
    alloc: Global,
    sections: Vec<Option<(Vec<A>, Vec<B>)>>,
) -> Result<Option<(Vec<Vec<A>>, Vec<Vec<B>>)>, AllocError>
    ensures { IfOk result (λ lists. MatchOption lists (Unit {0}) (λ (firsts, seconds). AreListsOf sections.items firsts.items seconds.items)) }
{
    let mut firsts = Vec::with_capacity(alloc, sections.len())?;
    let mut seconds = Vec::with_capacity(alloc, sections.len())?;
    for section in sections {
        let Some((first, second)) = section else {
            return Ok(None);
        };
        firsts.push(first)?;
        seconds.push(second)?;
    }
    Ok(Some((firsts, seconds)))
}

/// The job that reads sections after this heading.
#[derive(Drop)]
struct SectionReader<'a, A, B> {
    form: Form,
    heading: Heading,
    text: PhantomData<&'a [u8]>,
    of: PhantomData<(A, B)>,
}

impl<'a, A: FromItem + Send + Sync, B: FromItem + Send + Sync> ListJob for SectionReader<'a, A, B> {
    type Item = &'a [u8];

    type Room = ();

    type Out = Option<(Vec<A>, Vec<B>)>;

    ghost takes = { λ job section. is_size job.form job.heading ≡ true };

    ghost meaning = { λ job section read. MatchOption read (Unit {0}) (λ (first, second).
        IsSection A.from_item_gives B.from_item_gives job.form job.heading (lines section.now) first.items second.items) };

    ghost clean = { λ job room. Unit {0} };

    fn room(&self, _alloc: Global) -> Result<(), AllocError> {
        Ok(())
    }

    fn value(
        &self,
        alloc: Global,
        _room: &mut (),
        section: &&'a [u8],
    ) -> Result<Option<(Vec<A>, Vec<B>)>, AllocError> {
        match read_lines::<A, B>(alloc, self.form, Some(self.heading), section) {
            Ok(content) => Ok(Some((content.first, content.second))),
            Err(ReadError::Fault(_)) => Ok(None),
            Err(ReadError::NoMemory) => Err(AllocError),
        }
    }
}
