//! Gates that workers pass.

/// The stages of a run that take long.
#[derive(Clone, Copy, Debug, PartialEq, Eq)]
pub enum Stage {
    /// A file is read.
    Reading,
    /// The first priority of each node is computed, piece by piece.
    Ranking,
    /// Nodes are contracted.
    Building,
    /// A saved hierarchy is checked, piece by piece: the pairs of legs through each of its nodes.
    Checking,
    /// The search from each node of a list is done, piece by piece. The list is one of a table, or that of
    /// the targets of near rows.
    Searching,
    /// Answers, the cells of a table, or near rows are made. Plain answers and a sweep for near rows have
    /// no pieces; all others are made piece by piece.
    Answering,
}

/// A gate that each worker passes before it does a piece, and that hears how far a run is. A test may count
/// pieces in it or hold a worker up; a program may show progress. No answer depends on it.
pub trait Gate: Sync {
    /// The worker calls it with the number of the piece that it is about to do.
    fn pass(&self, piece: u32);

    /// Reports how far a stage is: `done` of `all`. It is called with 0 done when a stage begins, and again
    /// as the stage goes on.
    ///
    /// In a stage of pieces, the later progress comes only from the numbers given to `pass`.
    fn watch(&self, _stage: Stage, _done: u32, _all: u32) {}
}

/// The gate that does nothing.
#[derive(Clone, Copy, Debug, PartialEq, Eq)]
pub struct Open;

impl Gate for Open {
    fn pass(&self, _piece: u32) {}
}
