//! The text of near rows, with nodes counted from 1. Each source has a line `n S K`. After it come its K
//! targets, each with its distance.
ghost use Rattle.std.specs.Prelude.{◌≡◌, ◌<◌, ◌++◌, length, flat_map, All, OnOk};
ghost use Rattle.ch_text.specs.NearText.{near_pair_text, near_row_text};

use crate::short_text::ShortText;
use crate::text::push_all;
use std::alloc::AllocError;

/// Adds the near row of a source to a text. A row has pairs of a distance and a place in the list of targets.
///
/// # Errors
/// `AllocError` if there is no memory for it. The text may then end in a part of the row.
pub fn push_near_row(
    text: &mut Vec<u8>,
    source: u32,
    targets: &[u32],
    row: &[(u64, u32)],
) -> Result<(), AllocError>
    requires { All (λ e. e.1 < length targets.now) row.now }
    ensures { OnOk result (text.new.items ≡ text.old.items ++ near_row_text targets.now (source, row.now)) }
{
    let mut start = ShortText::new();
    start.prepend_number(row.len() as u64);
    start.prepend(b' ');
    start.prepend_node(source);
    start.prepend(b' ');
    start.prepend(b'n');
    push_all(text, start.as_slice())?;
    push_targets(text, targets, row)?;
    push_all(text, b"\n")
}

/// Adds the targets of a row and their distances, with a blank before each.
fn push_targets(text: &mut Vec<u8>, targets: &[u32], row: &[(u64, u32)]) -> Result<(), AllocError>
    requires { All (λ e. e.1 < length targets.now) row.now }
    ensures { OnOk result (text.new.items ≡ text.old.items ++ flat_map (near_pair_text targets.now) row.now) }
{
    let mut pair = ShortText::new();
    for (weight, place) in row {
        pair.clear();
        pair.prepend_number(*weight);
        pair.prepend(b' ');
        pair.prepend_node(targets[*place as usize]);
        pair.prepend(b' ');
        push_all(text, pair.as_slice())?;
    }
    Ok(())
}
