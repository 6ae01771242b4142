//! The statuses that calls return.
ghost use Rattle.std.specs.Prelude.{◌≡◌};
ghost use Rattle.ch_c.specs.Calls.{refusal_status};

use ch_engine::Refusal;

/// The call is done.
pub(crate) const OK: u32 = 0;

/// There was no memory.
pub(crate) const NO_MEMORY: u32 = 1;

/// The handle is closed.
pub(crate) const CLOSED: u32 = 2;

/// The handle is open already.
pub(crate) const IS_OPEN: u32 = 3;

/// A node is not below the number of nodes.
pub(crate) const NODE_RANGE: u32 = 4;

/// The lengths do not fit one another.
pub(crate) const LENGTHS: u32 = 5;

/// There are more sources, targets or places than a list may have.
pub(crate) const TOO_LARGE: u32 = 6;

/// There is not enough room for the nodes of routes, the pairs of near rows, or the bytes of a text.
pub(crate) const TOO_SHORT: u32 = 7;

/// The bytes of the graph are faulty.
pub(crate) const BAD_GRAPH: u32 = 8;

/// The bytes of the saved hierarchy are faulty.
pub(crate) const BAD_SAVED: u32 = 9;

/// The saved hierarchy is not right for the graph.
pub(crate) const WRONG_SAVED: u32 = 10;

/// No places are kept.
pub(crate) const NO_PLACES: u32 = 11;

/// A sum is 2^64 or more.
pub(crate) const SUM_TOO_LARGE: u32 = 12;

/// The graph has another number of nodes than the network in whose order it is built.
pub(crate) const OTHER_NODES: u32 = 13;

/// More than 100 per cent of the nodes would be ordered afresh.
pub(crate) const FRESH_RANGE: u32 = 14;

/// The order of a topology has too many triangles.
pub(crate) const TRIANGLES: u32 = 15;

/// No values of lines are kept.
pub(crate) const NO_VALUES: u32 = 16;

/// Returns the status of a refusal.
pub(crate) fn status_of(refusal: Refusal) -> u32
    ensures { result ≡ refusal_status refusal }
{
    match refusal {
        Refusal::NoMemory => NO_MEMORY,
        Refusal::NodeRange => NODE_RANGE,
        Refusal::Lengths => LENGTHS,
        Refusal::TooLarge => TOO_LARGE,
        Refusal::NoPlaces => NO_PLACES,
        Refusal::NoValues => NO_VALUES,
    }
}

/// Proves the value of each status, which the definitions take from the code. `include/chtab.h` has these numbers.
pub fn numbers()
    ensures ok { OK ≡ 0 }
    ensures no_memory { NO_MEMORY ≡ 1 }
    ensures closed { CLOSED ≡ 2 }
    ensures is_open { IS_OPEN ≡ 3 }
    ensures node_range { NODE_RANGE ≡ 4 }
    ensures lengths { LENGTHS ≡ 5 }
    ensures too_large { TOO_LARGE ≡ 6 }
    ensures too_short { TOO_SHORT ≡ 7 }
    ensures bad_graph { BAD_GRAPH ≡ 8 }
    ensures bad_saved { BAD_SAVED ≡ 9 }
    ensures wrong_saved { WRONG_SAVED ≡ 10 }
    ensures no_places { NO_PLACES ≡ 11 }
    ensures sum_too_large { SUM_TOO_LARGE ≡ 12 }
    ensures other_nodes { OTHER_NODES ≡ 13 }
    ensures fresh_range { FRESH_RANGE ≡ 14 }
    ensures triangles { TRIANGLES ≡ 15 }
    ensures no_values { NO_VALUES ≡ 16 }
{}
