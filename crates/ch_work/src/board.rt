//! A board that workers share, each with a pass of its own.
//!
//! A board has a counter and cells. Passes claim the numbers of pieces from the counter, and offer weights
//! to the cells. A cell keeps the least weight that was offered to it.

mod known;
mod make;
mod rule;
mod steps;

ghost use Rattle.std.specs.Prelude.{◌≡◌, ◌+◌, []};
ghost use Rattle.ch_work.specs.Counts.{bit};

use atomic_table::{Seat, Table};
pub use known::{Known, Size};
use rule::Rule;
use std::alloc::Global;

/// A claim counter and cells of least weights, shared by passes.
///
/// Each claim, offer or look is at most one atomic operation on one word of the board. It waits for no
/// other pass, and takes no memory.
#[derive(Drop)]
pub struct Board {
    table: Table<(), Known, Size, Rule, Global>,
    alloc: Global,
    cells: u32,
    passes: u32,
    ghost words: { table.shared.table_id.words ≡ cells + 1 },
    ghost no_slots: { table.shared.table_id.slots ≡ 0 },
    ghost size_cells: { table.shared.key.cells ≡ cells },
    ghost size_passes: { table.shared.key.passes ≡ passes },
}

/// One worker's right to use a board.
#[derive(Drop)]
pub struct Pass {
    seat: Seat<(), Known>,
    pieces: u32,
    ended: bool,
    ghost no_slot: { seat.me.1 ≡ [] },
    ghost one_part: { seat.me.0.parts ≡ 1 },
    ghost same_pieces: { seat.me.0.pieces ≡ pieces },
    ghost same_end: { seat.me.0.ended ≡ bit ended },
}
