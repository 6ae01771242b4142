//! The sums of a search space up from a source and the buckets of the targets.
ghost use Rattle.std.specs.Prelude.{◌≤◌, ◌↔◌, IsTrue, length, All, OnOk};
ghost use Rattle.ch_graph.specs.declared.limits.TheConstants.{MOST_WEIGHT};
ghost use Rattle.ch_query.specs.Limits.{IsWithin};
ghost use Rattle.ch_query.specs.Lowered.{AreLowered};
ghost use Rattle.ch_rows.specs.Buckets.{IsBucketAmong, IsEntryAmong};
ghost use Rattle.ch_rows.specs.Offers.{AreOffered};
ghost use Rattle.ch_rows.specs.Sums.{IsSum, IsSumAt};

use crate::offers::Offers;
use ch_query::Lowering;
use std::alloc::AllocError;

/// Words of places, lowered by buckets of places and weights in any order.
pub(crate) struct Words;

impl Lowering for Words {
    type Entry = (u32, u64);

    type Row = Vec<u64>;

    ghost words = { λ row. row.items };

    ghost sums = { λ _. IsSumAt };

    ghost fits = { λ places. All (IsEntryAmong places) };

    fn lower(
        &self,
        row: &mut Vec<u64>,
        weight: u64,
        bucket: &[(u32, u64)],
    ) -> Result<(), AllocError> {
        lower(row, weight, bucket);
        Ok(())
    }
}

/// Offers of sums within a limit, by buckets of weights and places in order.
#[derive(Drop)]
pub(crate) struct SumsWithin {
    pub(crate) limit: Option<u64>,
}

impl Lowering for SumsWithin {
    type Entry = (u64, u32);

    type Row = Offers;

    ghost words = { λ offers. offers };

    ghost sums = { λ within weight bucket j x. IsSum within.limit weight bucket (x, j) };

    ghost fits = { IsBucketAmong };

    fn lower(
        &self,
        row: &mut Offers,
        weight: u64,
        bucket: &[(u64, u32)],
    ) -> Result<(), AllocError> {
        offer_row(row, weight, bucket, self.limit)
    }
}

/// Lowers each place of a bucket to its sum with this weight, if that is less.
fn lower(row: &mut [u64], weight: u64, bucket: &[(u32, u64)])
    requires weight { weight ≤ MOST_WEIGHT }
    requires bucket { All (IsEntryAmong (length row.old)) bucket.now }
    ensures { AreLowered (IsSumAt weight bucket.now) row.old row.new }
{
    for (place, rest) in bucket {
        let cell = *place as usize;
        row[cell] = row[cell].min(weight + *rest);
    }
}

/// Offers to each place of a bucket its sum with this weight, if that is within the limit. It stops at the
/// first sum that is not, because later sums are at least as great.
pub(crate) fn offer_row(
    offers: &mut Offers,
    weight: u64,
    bucket: &[(u64, u32)],
    within: Option<u64>,
) -> Result<(), AllocError>
    requires weight { weight ≤ MOST_WEIGHT }
    requires bucket { IsBucketAmong (length offers.old) bucket.now }
    ensures { OnOk result (AreOffered (IsSum within weight bucket.now) offers.old offers.new) }
{
    for (rest, place) in bucket {
        let sum = weight + *rest;
        if !is_within(within, sum) {
            return Ok(());
        }
        offers.offer(*place, sum)?;
    }
    Ok(())
}

/// Whether the weight is at most the limit, or there is no limit.
pub(crate) fn is_within(within: Option<u64>, weight: u64) -> bool
    ensures { IsTrue result ↔ IsWithin within weight }
{
    match within {
        Some(most) => weight <= most,
        None => true,
    }
}
