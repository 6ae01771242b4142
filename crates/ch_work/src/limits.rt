//! The limits of work that workers share. Code, specifications and proofs cite them, here and in the crates
//! above.

/// The most workers, and the most passes of a board.
pub const MOST_WORKERS: u32 = 64;

/// The most items in a piece.
pub const MOST_PIECE: u32 = 1 << 20;

/// The most cells of a board.
pub const MOST_CELLS: u32 = 1 << 22;

/// The greatest weight that is offered to a cell: the sum of two walks of weight 2^60 at most.
pub const MOST_OFFER: u64 = 1 << 61;
