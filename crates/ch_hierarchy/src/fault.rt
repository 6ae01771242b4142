//! The faults of a saved hierarchy.
ghost use Rattle.std.specs.Prelude.{◌≡◌, Some};
ghost use Rattle.ch_hierarchy.specs.declared.fault.CheckError.TheVariants as CheckError;
ghost use Rattle.ch_hierarchy.specs.FaultText.{fault_text, error_text};

use std::alloc::AllocError;
use std::error::Error;
use std::fmt;

/// Why a saved hierarchy is wrong for a graph. The kinds are judged in this order.
///
/// All places are judged for one kind before the next kind. Within a kind, the fault names the least place
/// or node. Places and nodes are counted from 0.
#[derive(Clone, Copy, Debug, PartialEq, Eq)]
pub enum CheckFault {
    /// The order does not have each node of the graph exactly once.
    Order,
    /// The ends of the leg at this place are not two different nodes of the graph, or an earlier leg leads
    /// between the same nodes.
    Pair(usize),
    /// The leg at this place weighs more than [`MOST_WEIGHT`](ch_graph::limits::MOST_WEIGHT), or stands for
    /// at least as many arcs as there are nodes.
    Bound(usize),
    /// The leg at this place has no middle, and it is not an arc of the graph or does not stand for exactly
    /// one arc.
    Base(usize),
    /// The leg at this place has a middle, and it is not the sum of the two legs to and from that middle.
    Middle(usize),
    /// The arc of the graph at this place is no loop, and it has no leg that costs at most as much.
    Arc(usize),
    /// Two legs through this node lead between two different nodes, and every way up and then down between
    /// these costs more.
    Lower(u32),
}

/// Why a saved hierarchy is refused.
#[derive(Clone, Copy, Debug, PartialEq, Eq)]
pub enum CheckError {
    /// It has this fault, and no fault comes before it.
    Fault(CheckFault),
    /// Memory ran out before a fault was found.
    NoMemory,
}

impl fmt::Display for CheckFault {
    ghost output = { λ fault. Some (fault_text fault) };

    fn fmt<W: fmt::Write>(&self, f: &mut fmt::Formatter<W>) -> fmt::Result {
        match self {
            CheckFault::Order => f.write_str("order"),
            CheckFault::Pair(_) => f.write_str("pair"),
            CheckFault::Bound(_) => f.write_str("bound"),
            CheckFault::Base(_) => f.write_str("base"),
            CheckFault::Middle(_) => f.write_str("middle"),
            CheckFault::Arc(_) => f.write_str("arc"),
            CheckFault::Lower(_) => f.write_str("lower"),
        }
    }
}

impl fmt::Display for CheckError {
    ghost output = { λ error. Some (error_text error) };

    fn fmt<W: fmt::Write>(&self, f: &mut fmt::Formatter<W>) -> fmt::Result {
        match self {
            CheckError::Fault(fault) => write!(f, "{fault}"),
            CheckError::NoMemory => f.write_str("out of memory"),
        }
    }
}

impl Error for CheckFault {}

impl Error for CheckError {}

impl From<AllocError> for CheckError {
    ghost from_gives = { λ _ error. error ≡ CheckError.NoMemory };

    fn from(_refused: AllocError) -> CheckError {
        CheckError::NoMemory
    }
}
