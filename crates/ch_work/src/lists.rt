//! The lists that pieces made, joined into one list.
ghost use Rattle.std.specs.Prelude.{◌≡◌, ◌^◌, ◌-◌, min, vec_len, IfOk};
ghost use Rattle.std.specs.List.{flat_map, sum_by};

use std::alloc::{AllocError, Global};

/// Returns the number of items in all lists, or `usize::MAX` if there are more.
pub fn length_of<T: Drop>(lists: &[Vec<T>]) -> usize
    ensures { result ≡ min (sum_by vec_len lists.now) (2 ^ 64 - 1) }
{
    let mut length = 0usize;
    for list in lists {
        length = length.saturating_add(list.len());
    }
    length
}

/// Returns the items of the lists one after another, in order. The lists are those that the pieces of a job
/// made, as [`run_pieces`](crate::run_pieces) returns them. It reserves the room once.
///
/// # Errors
/// `AllocError` if there is no memory.
pub fn joined<T: Drop>(alloc: Global, lists: Vec<Vec<T>>) -> Result<Vec<T>, AllocError>
    ensures { IfOk result (λ all. all.items ≡ flat_map (λ list. list.items) lists.items) }
{
    let mut all = Vec::with_capacity(alloc, length_of(&lists))?;
    for mut list in lists {
        all.append(&mut list)?;
    }
    Ok(all)
}
