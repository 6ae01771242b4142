//! Files that are refused: the first check that fails names the fault, and its line.
use ch_read::{FaultKind, ReadError, ReadFault, read_graph, read_nodes, read_queries};
use std::test::Fail;

/// A file, and the line and the kind of its fault.
type Refused = (&'static [u8], u64, FaultKind);

const GRAPHS: [Refused; 14] = [
    (b"", 1, FaultKind::NoProblem),
    (b"c only\n", 2, FaultKind::NoProblem),
    (b"a 1 2 3\n", 1, FaultKind::NoProblem),
    (b"p sp 2\n", 1, FaultKind::BadProblem),
    (b"p sp 33554433 0\n", 1, FaultKind::Size),
    (b"p sp 1 0\np sp\n", 2, FaultKind::SecondProblem),
    (b"p sp 1 1\narc 1 1 1\n", 2, FaultKind::UnknownLine),
    (b"p sp 2 1\na 1 2 -3\n", 2, FaultKind::BadLine),
    (b"p sp 2 1\na 1 2 3 4\n", 2, FaultKind::BadLine),
    // The words of a line are judged before the number of lines, that before nodes, and nodes before the weight.
    (b"p sp 2 0\na 1 2 x\n", 2, FaultKind::BadLine),
    (b"p sp 2 0\na 1 9 1\n", 2, FaultKind::TooMany),
    (b"p sp 2 1\na 0 1 1\n", 2, FaultKind::NodeRange),
    (
        b"p sp 2 1\na 1 9 99999999999999999999\n",
        2,
        FaultKind::NodeRange,
    ),
    (b"p sp 2 1\na 1 2 99999999999999999999\n", 2, FaultKind::Sum),
];

/// Queries between two nodes.
const QUERIES: [Refused; 4] = [
    (b"p aux sp ss 1\nq 1 2\n", 1, FaultKind::BadProblem),
    (b"p aux sp p2p 2\nq 1 2\n", 3, FaultKind::TooFew),
    (b"p aux sp p2p 1\na 1 2 3\n", 2, FaultKind::UnknownLine),
    (b"p aux sp p2p 16777217\n", 1, FaultKind::Size),
];

/// Lists of two nodes.
const LISTS: [Refused; 2] = [
    (b"p aux sp ss 65537\n", 1, FaultKind::Size),
    (b"p aux sp ss 1\ns 3\n", 2, FaultKind::NodeRange),
];

#[test]
fn files_are_refused_at_the_first_check_that_fails(rt: HostRuntime) -> Result<(), Fail> {
    let alloc = rt.alloc();
    for (bytes, line, kind) in GRAPHS {
        let fault = ReadError::Fault(ReadFault { line, kind });
        assert_eq!(rt; read_graph(alloc, bytes).err(), Some(fault));
    }
    for (bytes, line, kind) in QUERIES {
        let fault = ReadError::Fault(ReadFault { line, kind });
        assert_eq!(rt; read_queries(alloc, bytes, 2).err(), Some(fault));
    }
    for (bytes, line, kind) in LISTS {
        let fault = ReadError::Fault(ReadFault { line, kind });
        assert_eq!(rt; read_nodes(alloc, bytes, 2).err(), Some(fault));
    }
    Ok(())
}
