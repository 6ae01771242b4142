//! Saved hierarchies.
ghost use Rattle.std.specs.Prelude.{ℕ, List};
ghost use Rattle.ch_graph.specs.Saved.{OrderAndLegs};
ghost use Rattle.ch_read.specs.declared.fault.ReadFault.{ReadFault as FaultAt};
ghost use Rattle.ch_read.specs.Answers.{AnswersWhere, seen_by_items};
ghost use Rattle.ch_read.specs.Checks.{IsFault};
ghost use Rattle.ch_read.specs.Names.{NamesOrder, NamesSaved};

use crate::fault::ReadError;
use crate::form::{Form, Item};
use crate::reader::{FromItem, read_items};
use crate::sections::{SECTION, read_items_by};
use ch_graph::{Cost, Saved, SavedLeg};
use ch_work::{Crew, Gate};
use std::alloc::Global;
use std::thread::Threads;

/// Reads the hierarchy that the bytes of a saved file name, on a graph of `n` nodes, which are numbered from 0.
/// Only the checks of lines are made, so the hierarchy may be wrong for the graph. The time is linear in the
/// number of bytes. Memory grows with the lines that were read, and not with the numbers in the problem line.
///
/// # Errors
/// The first fault of the first faulty line, or `NoMemory` if there is no memory for the order or the legs.
pub fn read_saved(alloc: Global, bytes: &[u8], n: u32) -> Result<Saved, ReadError>
    ensures value { (saved : OrderAndLegs) →
        AnswersWhere result (Ok saved) (NamesSaved bytes.now n saved) }
    ensures fault { (f : FaultAt) →
        AnswersWhere result (Err (ReadError.Fault f)) (IsFault (Form.Saved n) bytes.now f.line f.kind) }
{
    let (_, order, legs) = read_items(alloc, Form::Saved(n), bytes)?;
    Ok(Saved { order, legs })
}

/// Does the same as [`read_saved`] with the workers of a crew, which share sections of the file. They pass no
/// gate.
///
/// # Errors
/// The errors of [`read_saved`].
pub fn read_saved_by<R: Threads + Sync, G: Gate>(
    crew: &Crew<'_, R, G>,
    bytes: &[u8],
    n: u32,
) -> Result<Saved, ReadError>
    ensures value { (saved : OrderAndLegs) →
        AnswersWhere result (Ok saved) (NamesSaved bytes.now n saved) }
    ensures fault { (f : FaultAt) →
        AnswersWhere result (Err (ReadError.Fault f)) (IsFault (Form.Saved n) bytes.now f.line f.kind) }
{
    read_saved_in_sections(crew, SECTION, bytes, n)
}

/// Does the same as [`read_saved_by`] in sections of more than `size` bytes each, except the last. The result
/// does not depend on the size.
///
/// # Errors
/// The errors of [`read_saved`].
pub fn read_saved_in_sections<R: Threads + Sync, G: Gate>(
    crew: &Crew<'_, R, G>,
    size: usize,
    bytes: &[u8],
    n: u32,
) -> Result<Saved, ReadError>
    ensures value { (saved : OrderAndLegs) →
        AnswersWhere result (Ok saved) (NamesSaved bytes.now n saved) }
    ensures fault { (f : FaultAt) →
        AnswersWhere result (Err (ReadError.Fault f)) (IsFault (Form.Saved n) bytes.now f.line f.kind) }
{
    let (_, order, legs) = read_items_by::<R, G, u32, SavedLeg>(crew, size, Form::Saved(n), bytes)?;
    Ok(Saved { order, legs })
}

/// Reads the order that the bytes of a saved file name, on a graph of `n` nodes, with the workers of a crew. The lines
/// of its legs are judged as [`read_saved`] judges them, and no leg is kept: the call takes memory for the order alone.
///
/// # Errors
/// The errors of [`read_saved`].
pub fn read_order_by<R: Threads + Sync, G: Gate>(
    crew: &Crew<'_, R, G>,
    bytes: &[u8],
    n: u32,
) -> Result<Vec<u32>, ReadError>
    ensures value { (order : List ℕ) →
        AnswersWhere (seen_by_items result) (Ok order) (NamesOrder bytes.now n order) }
    ensures fault { (f : FaultAt) →
        AnswersWhere (seen_by_items result) (Err (ReadError.Fault f))
        (IsFault (Form.Saved n) bytes.now f.line f.kind) }
{
    let (_, order, _) = read_items_by::<R, G, u32, ()>(crew, SECTION, Form::Saved(n), bytes)?;
    Ok(order)
}

impl FromItem for SavedLeg {
    ghost from_item_gives = { λ item.
        record {
          from = item.first;
          to = item.second;
          cost = record { weight = item.weight; arcs = item.arcs };
          middle = item.middle;
        } };

    fn from_item(item: Item) -> SavedLeg {
        SavedLeg {
            from: item.first,
            to: item.second,
            cost: Cost {
                weight: item.weight,
                arcs: item.arcs,
            },
            middle: item.middle,
        }
    }
}
