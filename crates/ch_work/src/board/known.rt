//! What proofs know of a pass, and the numbers that a board is made for.

use std::collections::LinkedList;

/// What a pass has done and seen. Clauses speak of it, and the program never makes a value of it.
pub struct Known {
    /// The number of pieces to claim.
    pub pieces: u64,
    /// The number of passes that this view stands for.
    pub parts: u64,
    /// The number of these passes that have ended.
    pub ended: u64,
    /// The numbers that it claimed, in order.
    pub claims: LinkedList<u32>,
    /// The cells and weights that it offered, in order.
    pub offers: LinkedList<(u32, u64)>,
    /// The cells and weights that it was shown, in order.
    pub shown: LinkedList<(u32, u64)>,
}

/// The numbers that a board is made for.
#[derive(Clone, Copy)]
pub struct Size {
    /// The number of pieces to claim.
    pub pieces: u64,
    /// The number of cells.
    pub cells: u64,
    /// The number of passes.
    pub passes: u64,
}
