//! Legs with the same two nodes as an earlier leg.
ghost use Rattle.std.specs.Prelude.{◌≡◌, Contains, IfOk};
ghost use Rattle.ch_hierarchy.specs.declared.placing.Placed.{Placed as AnyPlaced};
ghost use Rattle.ch_hierarchy.specs.Doubles.{IsLessened, IsTwin};
ghost use Rattle.ch_hierarchy.specs.Sorting.{AreInOrder, IsPlacedBelow};

use crate::placing::Placed;
use std::alloc::{AllocError, Global};

/// Returns the least of `known` and the places of the entries that have the same two nodes as an earlier
/// entry.
///
/// The entries of each lower node are in order of higher node, and at equal higher nodes in order of place. So
/// among these, those of one higher node follow each other.
pub(crate) fn first_twin(
    alloc: Global,
    n: u32,
    entries: &[Placed],
    known: Option<usize>,
) -> Result<Option<usize>, AllocError>
    requires below { (e : AnyPlaced) → Contains entries.now e → IsPlacedBelow n e }
    requires order { AreInOrder entries.now }
    ensures { IfOk result (IsLessened (IsTwin entries.now) known) }
{
    // The higher node of the last entry of each lower node. It is n, which is no node, before the first
    // such entry.
    let mut last = vec![in alloc; n; n as usize]?;
    let mut least = known;
    for entry in entries {
        let lower = entry.lower as usize;
        if last[lower] == entry.higher {
            least = lesser(least, entry.place);
        }
        last[lower] = entry.higher;
    }
    Ok(least)
}

/// Returns the lesser of a known place, if there is one, and this place.
fn lesser(known: Option<usize>, place: usize) -> Option<usize>
    ensures { IsLessened (λ q. q ≡ place) known result }
{
    match known {
        Some(least) if least <= place => known,
        _ => Some(place),
    }
}
