//! Jobs that lower cells, with a concrete type. They test what no clause says: the calls succeed, and two
//! pieces are under way at once.
ghost use Rattle.std.specs.Prelude.{◌≡◌, ℕ, ◌+◌, ◌*◌, ◌<◌, ◌≤◌};

use crate::again::again;
use crate::crew::crew;
use ch_work::{Board, CellJob, MeetingGate, Open, Pass, Plan, pay, run_cells};
use std::alloc::{AllocError, Global};
use std::test::Fail;

/// Item i owes 9 - 2 i to the first of two cells.
#[derive(Drop)]
struct Falling {
    items: u32,
    ghost few: { items ≤ 4 },
}

impl CellJob for Falling {
    ghost size = { λ job. job.items };

    ghost cells = { λ job. 2 };

    ghost owes = { λ job from to cell x. (item : ℕ) × (from ≤ item) × (item < to) × (cell ≡ 0) × (x + 2 * item ≡ 9) };

    fn piece(
        &self,
        _alloc: Global,
        board: &Board,
        pass: &mut Pass,
        from: u32,
        to: u32,
    ) -> Result<(), AllocError> {
        for item in from..to {
            pay(board, pass, 0, u64::from(9 - 2 * item));
        }
        Ok(())
    }
}

#[test]
fn two_pieces_at_once(rt: HostRuntime) -> Result<(), Fail> {
    let gate = MeetingGate::new();
    let plan = Plan::new(2, 1, 64);
    let crew = crew(&rt, rt.alloc(), &plan, &gate);
    run_cells(&crew, 2, 2, &Falling { items: 2 })?;
    assert!(rt; gate.has_met());
    Ok(())
}

/// Returns the cells of a board of one cell. Two passes offered 9 and 7 to it.
fn offered_twice(alloc: Global) -> Result<Vec<Option<u64>>, AllocError> {
    let (board, mut passes) = Board::new(alloc, 3, 1, 2)?;
    let mut back = Vec::with_capacity(alloc, 2)?;
    if let (Some(mut second), Some(mut first)) = (passes.pop(), passes.pop()) {
        board.offer(&mut first, 0, 9);
        board.offer(&mut second, 0, 7);
        back.push(first)?;
        back.push(second)?;
        return board.close(back);
    }
    Err(AllocError)
}

/// It holds if any one request for memory is refused. The call that is refused answers `AllocError`. Made
/// again, it answers as with enough memory.
#[test]
fn refused_in_turn(rt: HostRuntime) -> Result<(), Fail> {
    let alloc = rt.alloc();
    let cells = again!(offered_twice(alloc));
    assert_eq!(rt; cells.as_slice(), [Some(7)].as_slice());
    let job = Falling { items: 2 };
    for workers in [1, 2] {
        let plan = Plan::new(workers, 1, 64);
        let cells = again!(run_cells(&crew(&rt, alloc, &plan, &Open), 2, 2, &job));
        assert_eq!(rt; cells.as_slice(), [Some(7), None].as_slice());
    }
    Ok(())
}
