//! Searches that lower the words of a row, for tables and for near rows.
ghost use Rattle.std.specs.Prelude.{◌≡◌, ◌<◌, ◌≤◌, ℕ, List, [], length, slice_index_or, All, OnOk};
ghost use Rattle.ch_graph.specs.declared.limits.TheConstants.{MOST_WEIGHT};
ghost use Rattle.ch_hierarchy.specs.Hierarchy.{nodes_of};
ghost use Rattle.ch_query.specs.Distance.{IsKeptForSome};
ghost use Rattle.ch_query.specs.Lowered.{AreLowered, IsSumOver};
ghost use Rattle.ch_query.specs.SearchSpace.{IsRankedSpace};

use crate::scratch::Scratch;
use crate::start::Start;
use ch_graph::Rows;
use ch_hierarchy::Hierarchy;
use std::alloc::AllocError;

/// How the words of a row are lowered by a bucket. A row has a word for each place in a list of targets.
pub trait Lowering {
    /// What a bucket has for a place.
    type Entry: Copy;

    /// What keeps the words.
    type Row;

    /// The words of the places.
    ghost words: { Self.Row → List ℕ };

    /// The sums of a weight and a bucket: a relation between a place and its sums.
    ghost sums: { Self → ℕ → List Self.Entry → ℕ → ℕ → Type 0 };

    /// The condition on a bucket, for so many places.
    ghost fits: { ℕ → List Self.Entry → Type 0 };

    /// Lowers each place of a bucket to its sum with this weight, if that is less.
    ///
    /// # Errors
    /// `AllocError` if there is no memory.
    fn lower(
        &self,
        row: &mut Self::Row,
        weight: u64,
        bucket: &[Self::Entry],
    ) -> Result<(), AllocError>
        requires weight { weight ≤ MOST_WEIGHT }
        requires bucket { fits (length (words row.old)) bucket.now }
        ensures { OnOk result (AreLowered (sums self.now weight bucket.now) (words row.old) (words row.new)) };
}

/// Lowers the words of a row by the search space of a start, as [`ranked_spaces`](crate::ranked_spaces) finds it:
/// by the buckets of its ranks, each with the weight of the rank's node.
///
/// # Errors
/// `AllocError` if there is no memory. The scratch can still be used.
pub fn lower_by_search<L: Lowering>(
    hierarchy: &Hierarchy,
    scratch: &mut Scratch,
    start: Start,
    lowering: &L,
    buckets: &Rows<L::Entry>,
    row: &mut L::Row,
) -> Result<(), AllocError>
    requires kept { IsKeptForSome hierarchy.now }
    requires scratch { scratch.old ≡ nodes_of hierarchy.now }
    requires source { start.source < nodes_of hierarchy.now }
    requires ranks { length buckets.now ≡ nodes_of hierarchy.now }
    requires buckets { (rank : ℕ) → L.fits (length (L.words row.old)) (slice_index_or buckets.now rank []) }
    ensures lowered { OnOk result ((space : List (ℕ × ℕ)) × IsRankedSpace hierarchy.now start.side start.within start.source space × AreLowered (IsSumOver (L.sums lowering.now) space buckets.now) (L.words row.old) (L.words row.new)) }
    ensures scratch { scratch.new ≡ scratch.old }
{
    let Scratch { weights, found, .. } = scratch;
    weights.gather(hierarchy, found, start)?;
    lower_by_space(lowering, found, buckets, row)
}

/// Lowers the words of a row by the buckets of the ranks of a search space.
fn lower_by_space<L: Lowering>(
    lowering: &L,
    space: &[(u32, u64)],
    buckets: &Rows<L::Entry>,
    row: &mut L::Row,
) -> Result<(), AllocError>
    requires space { All (λ entry. (entry.0 < length buckets.now) × (entry.1 ≤ MOST_WEIGHT)) space.now }
    requires buckets { (rank : ℕ) → L.fits (length (L.words row.old)) (slice_index_or buckets.now rank []) }
    ensures { OnOk result (AreLowered (IsSumOver (L.sums lowering.now) space.now buckets.now) (L.words row.old) (L.words row.new)) }
{
    for (rank, weight) in space {
        lowering.lower(row, *weight, buckets.row(*rank))?;
    }
    Ok(())
}
