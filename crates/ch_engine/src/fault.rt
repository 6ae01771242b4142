//! The reasons why a network is not opened, and why a question is not answered.
ghost use Rattle.std.specs.Prelude.{◌≡◌};
ghost use Rattle.ch_engine.specs.declared.fault.OpenError.TheVariants as OpenError;
ghost use Rattle.ch_engine.specs.declared.fault.Refusal.TheVariants as Refusal;

use ch_graph::GraphFault;
use ch_hierarchy::CheckFault;
use ch_read::ReadFault;
use std::alloc::AllocError;
use thiserror::Error;

/// The reason why a network is not opened.
#[derive(Clone, Copy, Debug, PartialEq, Eq, Error)]
pub enum OpenError {
    /// There is no memory.
    #[error("out of memory")]
    NoMemory,
    /// This is the first fault of the graph's bytes.
    #[error("graph {0}")]
    BadGraph(ReadFault),
    /// This is the first fault of the saved hierarchy's bytes.
    #[error("saved {0}")]
    BadSaved(ReadFault),
    /// This is the first fault of the saved hierarchy for the graph.
    #[error("saved hierarchy refused: {0}")]
    WrongSaved(CheckFault),
    /// The lengths of the arrays of a graph differ.
    #[error("lengths that differ")]
    Lengths,
    /// This is the first fault of the arrays of a graph.
    #[error("graph {0}")]
    BadArrays(GraphFault),
    /// The graph has another number of nodes than the network in whose order it is built.
    #[error("another number of nodes")]
    OtherNodes,
    /// More than 100 per cent of the nodes would be ordered afresh.
    #[error("more than 100 per cent of the nodes ordered afresh")]
    FreshRange,
}

/// The reason why a question is not answered.
#[derive(Clone, Copy, Debug, PartialEq, Eq, Error)]
pub enum Refusal {
    /// There is no memory.
    #[error("out of memory")]
    NoMemory,
    /// A node is not below the number of nodes.
    #[error("node out of range")]
    NodeRange,
    /// The lengths of the arguments do not fit one another.
    #[error("lengths that do not fit")]
    Lengths,
    /// There are more sources, targets or places than [`MOST_LISTED`](ch_graph::limits::MOST_LISTED).
    #[error("too many nodes listed")]
    TooLarge,
    /// No places for near rows are kept.
    #[error("no places for near rows")]
    NoPlaces,
    /// No values of lines are kept.
    #[error("no values of lines")]
    NoValues,
}

impl From<AllocError> for OpenError {
    ghost from_gives = { λ _ error. error ≡ OpenError.NoMemory };

    fn from(_refused: AllocError) -> OpenError {
        OpenError::NoMemory
    }
}

impl From<AllocError> for Refusal {
    ghost from_gives = { λ _ refusal. refusal ≡ Refusal.NoMemory };

    fn from(_refused: AllocError) -> Refusal {
        Refusal::NoMemory
    }
}
