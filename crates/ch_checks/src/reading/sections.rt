//! Files that workers read in sections.
use crate::again::{again, again_after};
use crate::crew::crew;
use crate::examples::RING;
use ch_read::{ReadError, read_graph_in_sections, read_saved_in_sections};
use ch_work::{CountingGate, Crew, Plan};
use std::alloc::AllocError;
use std::test::Fail;
use std::thread::Threads;

/// Reads the files of the ring in sections of this size, and returns the numbers of arcs and legs.
fn read_by<R: Threads + Sync>(
    crew: &Crew<'_, R, CountingGate>,
    size: usize,
) -> Result<(usize, usize), ReadError> {
    let graph = read_graph_in_sections(crew, size, RING.0)?;
    let saved = read_saved_in_sections(crew, size, RING.1, 5)?;
    Ok((graph.arcs().len(), saved.legs.len()))
}

/// Sections do not pass the caller's gate. It holds if any one request for memory is refused: the reader
/// answers `NoMemory`, and a second call answers as with enough memory.
#[test]
fn sections_are_read_refused_in_turn(rt: HostRuntime) -> Result<(), Fail> {
    let alloc = rt.alloc();
    let gate = again!(CountingGate::new(alloc, 8));
    for workers in [1, 2, 3, 4, 64] {
        let plan = Plan::new(workers, 1, 64);
        let crew = crew(&rt, alloc, &plan, &gate);
        for size in [0, 1, 5, 9, 40, 1000] {
            let counts = again_after!(ReadError::NoMemory, read_by(&crew, size));
            assert_eq!(rt; counts, (5, 8), "sections of {size}");
        }
    }
    for piece in 0..8 {
        assert_eq!(rt; gate.passes(piece), Some(0), "piece {piece}");
    }
    Ok(())
}
