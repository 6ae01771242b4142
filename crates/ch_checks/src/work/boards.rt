//! Boards: a look shows the offers of others, and at the end no number is left to claim.
ghost use Rattle.std.specs.Prelude.{◌≡◌, ◌≤◌};
ghost use Rattle.ch_work.specs.declared.limits.TheConstants.{MOST_OFFER};
ghost use Rattle.ch_work.specs.Passes.{IsPassOf, size_of};

use ch_work::{Board, Pass};
use std::alloc::{AllocError, Global};
use std::process::Abort;
use std::test::Fail;
use std::thread;
use std::thread::Threads;

#[test]
fn a_look_sees_others_and_numbers_end(rt: HostRuntime) -> Result<(), Fail> {
    let (board, mut passes) = Board::new(rt.alloc(), 1, 1, 2)?;
    let (Some(mut second), Some(mut first)) = (passes.pop(), passes.pop()) else {
        panic!(rt; "two passes were asked for")
    };
    assert_eq!(rt; board.look(&mut second, 0), None);
    board.offer(&mut first, 0, 7);
    assert_eq!(rt; board.look(&mut second, 0), Some(7));
    assert_eq!(rt; board.claim(&mut first), Some(0));
    assert_eq!(rt; board.claim(&mut first), None);
    assert_eq!(rt; board.claim(&mut second), None);
    Ok(())
}

/// What one thread did: how often it claimed each of three numbers, and the weight that it saw in the cell at the end.
type Done = ([u32; 3], Option<u64>);

/// Claims a number, and counts it if there is one.
fn claim(board: &Board, pass: &mut Pass, counts: &mut [u32; 3])
    requires { IsPassOf board.now pass.old }
    ensures { IsPassOf board.now pass.new }
{
    let Some(number) = board.claim(pass) else {
        return;
    };
    if let Some(count) = counts.get_mut(number as usize) {
        *count = count.saturating_add(1);
    }
}

/// Claims four times, offers a weight to the only cell, and looks at it.
fn work(board: &Board, pass: Pass, weight: u64) -> (Pass, Done)
    requires pass { IsPassOf board.now pass }
    requires cells { (size_of board.now).cells ≡ 1 }
    requires weight { weight ≤ MOST_OFFER }
    ensures { IsPassOf board.now result.0 }
{
    let mut pass = pass;
    let mut counts = [0u32; 3];
    claim(board, &mut pass, &mut counts);
    claim(board, &mut pass, &mut counts);
    claim(board, &mut pass, &mut counts);
    claim(board, &mut pass, &mut counts);
    board.offer(&mut pass, 0, weight);
    let seen = board.look(&mut pass, 0);
    (pass, (counts, seen))
}

/// Lets two threads work on a board of three numbers and one cell. Returns what each did, and the cell at the end.
fn shared<R: Threads + Abort + Sync>(
    rt: &R,
    alloc: Global,
) -> Result<(Done, Done, Vec<Option<u64>>), AllocError> {
    let (board, mut passes) = Board::new(alloc, 3, 1, 2)?;
    let (Some(second), Some(first)) = (passes.pop(), passes.pop()) else {
        panic!(rt; "two passes were asked for")
    };
    let (one, other) = thread::join(rt, || work(&board, first, 9), || work(&board, second, 7));
    passes.push(one.0)?;
    passes.push(other.0)?;
    Ok((one.1, other.1, board.close(passes)?))
}

/// Each number is claimed once, whichever thread comes first. The cell has the least offer, which the thread that
/// made it sees at once.
#[test]
fn two_threads_share_a_board(rt: HostRuntime) -> Result<(), Fail> {
    for _ in 0..200 {
        let (one, other, cells) = shared(&rt, rt.alloc())?;
        for (first, second) in one.0.iter().zip(other.0.iter()) {
            assert_eq!(rt; first.saturating_add(*second), 1);
        }
        assert!(rt; one.1 == Some(9) || one.1 == Some(7));
        assert_eq!(rt; other.1, Some(7));
        assert_eq!(rt; cells.as_slice(), [Some(7)].as_slice());
    }
    Ok(())
}
