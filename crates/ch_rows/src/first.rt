//! The first pairs of lists, and buckets of them: at each rank the targets that are nearest to its node.
ghost use Rattle.std.specs.Prelude.{◌≡◌, ◌<◌, ◌≤◌, length, map, All, IfOk, OnOk};
ghost use Rattle.ch_graph.specs.declared.limits.TheConstants.{MOST_LISTED};
ghost use Rattle.ch_rows.specs.Buckets.{AreRanksApart, AreSortedAndCut, HoldFirst, turned};
ghost use Rattle.ch_rows.specs.First.{IsSortedAndCut};

use crate::spaces::gathered;
use ch_graph::Rows;
use std::alloc::{AllocError, Global};

/// Makes the buckets of these lists of ranks and weights, one list for each place. Each bucket has the
/// weights and places at its rank, in order. With a number `count`, it keeps at most the first `count` of
/// them.
///
/// Leaving the rest out is exact. A bucket that leaves a target out keeps `count` other targets that come
/// before it there. A source that reaches the node reaches these too. So the target is not among the first
/// `count` of the source by way of this node.
pub(crate) fn buckets_of(
    alloc: Global,
    nodes: u32,
    lists: Vec<Vec<(u32, u64)>>,
    count: Option<u32>,
) -> Result<Rows<(u64, u32)>, AllocError>
    requires listed { length lists.items ≤ MOST_LISTED }
    requires ranks { All (λ list. All (λ entry. entry.0 < nodes) list.items) lists.items }
    requires apart { All (λ list. AreRanksApart list.items) lists.items }
    ensures { IfOk result (HoldFirst nodes count (map (λ list. list.items) lists.items)) }
{
    let rows = gathered(alloc, nodes, lists)?;
    first_of_each(alloc, &rows, count)
}

/// Puts each of the buckets in order of weight and place, and cuts it.
fn first_of_each(
    alloc: Global,
    rows: &Rows<(u32, u64)>,
    count: Option<u32>,
) -> Result<Rows<(u64, u32)>, AllocError>
    ensures { IfOk result (AreSortedAndCut count rows.now) }
{
    let number = rows.row_count();
    let mut firsts = Rows::with_room(alloc, number, 0)?;
    let mut row = Vec::new(alloc);
    for i in 0..number {
        turn(&mut row, rows.row(i))?;
        sort_and_cut(&mut row, count);
        firsts.push(&row)?;
    }
    Ok(firsts)
}

/// Puts a bucket into the row, each entry as its weight and its place.
fn turn(row: &mut Vec<(u64, u32)>, bucket: &[(u32, u64)]) -> Result<(), AllocError>
    ensures { OnOk result (row.new.items ≡ map turned bucket.now) }
{
    row.clear();
    for (place, weight) in bucket {
        row.push((*weight, *place))?;
    }
    Ok(())
}

/// Puts the pairs in order, and leaves out all after the first `count`.
pub(crate) fn sort_and_cut(row: &mut Vec<(u64, u32)>, count: Option<u32>)
    ensures { IsSortedAndCut count row.old.items row.new.items }
{
    row.sort_unstable();
    if let Some(most) = count {
        row.truncate(most as usize);
    }
}
