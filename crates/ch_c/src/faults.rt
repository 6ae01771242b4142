//! The fault of a refused file, as C sees it.
ghost use Rattle.std.specs.Prelude.{◌≡◌};
ghost use Rattle.ch_c.specs.Calls.{arrays_fault, error_status, fault_of as the_fault, check_fault, kind_number as the_number};

use crate::status::{
    BAD_GRAPH, BAD_SAVED, FRESH_RANGE, LENGTHS, NO_MEMORY, OTHER_NODES, WRONG_SAVED,
};
use ch_engine::OpenError;
use ch_graph::GraphFault;
use ch_hierarchy::CheckFault;
use ch_read::{FaultKind, ReadFault};

/// The first fault of a file. A number that the fault does not have is 0.
#[repr(C)]
#[derive(Clone, Copy, Debug, PartialEq, Eq)]
pub struct Fault {
    /// The line of the file, counted from 1.
    pub line: u64,
    /// The place of the leg, the arc or the node with the fault, counted from 0.
    pub place: u64,
    /// The kind: a `chtab_fault_kind` of `include/chtab.h`.
    pub kind: u32,
}

/// Writes the fault of an error, and returns its status.
pub(crate) fn tell(error: OpenError, fault: &mut Fault) -> u32
    ensures status { result ≡ error_status error }
    ensures fault { fault.new ≡ the_fault error }
{
    *fault = fault_of(error);
    status_of_error(&error)
}

/// Returns the status of an error.
fn status_of_error(error: &OpenError) -> u32
    ensures { result ≡ error_status error.now }
{
    match error {
        OpenError::NoMemory => NO_MEMORY,
        OpenError::BadGraph(_) => BAD_GRAPH,
        OpenError::BadSaved(_) => BAD_SAVED,
        OpenError::WrongSaved(_) => WRONG_SAVED,
        OpenError::Lengths => LENGTHS,
        OpenError::BadArrays(_) => BAD_GRAPH,
        OpenError::OtherNodes => OTHER_NODES,
        OpenError::FreshRange => FRESH_RANGE,
    }
}

/// Returns the fault of an error.
fn fault_of(error: OpenError) -> Fault
    ensures { result ≡ the_fault error }
{
    match error {
        OpenError::NoMemory | OpenError::Lengths => at(0, 0, 0),
        OpenError::OtherNodes | OpenError::FreshRange => at(0, 0, 0),
        OpenError::BadGraph(fault) => fault_of_read(fault),
        OpenError::BadSaved(fault) => fault_of_read(fault),
        OpenError::WrongSaved(fault) => fault_of_check(fault),
        OpenError::BadArrays(fault) => fault_of_arrays(fault),
    }
}

pub(crate) fn at(kind: u32, line: u64, place: u64) -> Fault
    ensures { result ≡ record { line = line; place = place; kind = kind } }
{
    Fault { line, place, kind }
}

pub(crate) fn fault_of_read(fault: ReadFault) -> Fault
    ensures { result ≡ record { line = fault.line; place = 0; kind = the_number fault.kind } }
{
    at(kind_number(fault.kind), fault.line, 0)
}

/// Returns the fault of arrays, with the kind that a file with these arcs would have.
pub(crate) fn fault_of_arrays(fault: GraphFault) -> Fault
    ensures { result ≡ arrays_fault fault }
{
    match fault {
        GraphFault::Size => at(kind_number(FaultKind::Size), 0, 0),
        GraphFault::NodeRange(place) => at(kind_number(FaultKind::NodeRange), 0, place as u64),
        GraphFault::Sum(place) => at(kind_number(FaultKind::Sum), 0, place as u64),
    }
}

fn kind_number(kind: FaultKind) -> u32
    ensures { result ≡ the_number kind }
{
    match kind {
        FaultKind::UnknownLine => 1,
        FaultKind::BadProblem => 2,
        FaultKind::SecondProblem => 3,
        FaultKind::NoProblem => 4,
        FaultKind::BadLine => 5,
        FaultKind::NodeRange => 6,
        FaultKind::Sum => 7,
        FaultKind::Size => 8,
        FaultKind::TooMany => 9,
        FaultKind::TooFew => 10,
    }
}

fn fault_of_check(fault: CheckFault) -> Fault
    ensures { result ≡ check_fault fault }
{
    match fault {
        CheckFault::Order => at(11, 0, 0),
        CheckFault::Pair(place) => at(12, 0, place as u64),
        CheckFault::Bound(place) => at(13, 0, place as u64),
        CheckFault::Base(place) => at(14, 0, place as u64),
        CheckFault::Middle(place) => at(15, 0, place as u64),
        CheckFault::Arc(place) => at(16, 0, place as u64),
        CheckFault::Lower(node) => at(17, 0, node as u64),
    }
}
