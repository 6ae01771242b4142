//! Jobs that workers share: how often pieces pass the gate, two pieces at once, and a lack of memory.
mod boards;
mod cells;
mod rooms;

use crate::again::again;
use crate::crew::crew;
use ch_work::{CountingGate, Gate, Job, MeetingGate, Open, Plan, joined, run_pieces};
use std::alloc::{AllocError, Global};
use std::process::Abort;
use std::sync::atomic::{AtomicBool, Ordering};
use std::test::Fail;
use std::thread::Threads;

/// A job whose value of a range is the list of its numbers.
#[derive(Drop)]
struct Numbers {
    items: u32,
}

impl Job for Numbers {
    type Out = Vec<u32>;

    ghost size = { λ job. job.items };

    ghost meaning = { λ job from to list. Unit {0} };

    fn piece(&self, alloc: Global, from: u32, to: u32) -> Result<Vec<u32>, AllocError> {
        (from..to).collect(alloc)
    }
}

/// A job that is refused memory in the piece that begins with this item.
#[derive(Drop)]
struct Refused {
    items: u32,
    item: u32,
}

impl Job for Refused {
    type Out = u32;

    ghost size = { λ job. job.items };

    ghost meaning = { λ job from to value. Unit {0} };

    fn piece(&self, _alloc: Global, from: u32, _to: u32) -> Result<u32, AllocError> {
        if from == self.item {
            return Err(AllocError);
        }
        Ok(from)
    }
}

/// Expects that the joined values are the numbers of all items in order, and that each piece passes the
/// gate once.
fn expect_numbers<R: Threads + Abort + Sync>(
    rt: &R,
    alloc: Global,
    items: u32,
    plan: &Plan,
) -> Result<(), AllocError> {
    let gate = again!(CountingGate::new(alloc, 11));
    let job = Numbers { items };
    let values = run_pieces(&crew(rt, alloc, plan, &gate), items, &job)?;
    assert_eq!(rt; values.len(), plan.pieces(items) as usize);
    let numbers = joined(alloc, values)?;
    assert_eq!(rt; numbers.len(), items as usize);
    for (place, number) in numbers.iter().enumerate() {
        assert_eq!(rt; *number as usize, place);
    }
    for piece in 0..11 {
        let passes = u64::from(piece < plan.pieces(items));
        assert_eq!(rt; gate.passes(piece), Some(passes), "piece {piece}");
    }
    Ok(())
}

/// A piece that is refused memory ends only its own worker. The other worker does the rest, and the call
/// answers that memory ran out.
#[test]
fn want_of_memory_in_one_piece_is_answered(rt: HostRuntime) -> Result<(), Fail> {
    for item in 0..4 {
        let gate = CountingGate::new(rt.alloc(), 4)?;
        let job = Refused { items: 4, item };
        let plan = Plan::new(2, 1, 64);
        assert!(rt; run_pieces(&crew(&rt, rt.alloc(), &plan, &gate), 4, &job).is_err());
        for piece in 0..4 {
            assert_eq!(rt; gate.passes(piece), Some(1), "piece {piece}");
        }
    }
    Ok(())
}

#[test]
fn two_workers_meet_and_one_meets_nobody(rt: HostRuntime) -> Result<(), Fail> {
    let job = Numbers { items: 2 };
    let gate = MeetingGate::new();
    let plan = Plan::new(2, 1, 64);
    run_pieces(&crew(&rt, rt.alloc(), &plan, &gate), 2, &job)?;
    assert!(rt; gate.has_met());
    let gate = MeetingGate::waiting(1000);
    let plan = Plan::new(1, 1, 64);
    run_pieces(&crew(&rt, rt.alloc(), &plan, &gate), 2, &job)?;
    assert!(rt; !gate.has_met());
    Ok(())
}

/// A gate that holds piece 0 up until pieces 1, 2 and 3 have come, for at most 1,000,000,000 turns.
#[derive(Drop)]
struct SlowGate {
    come: [AtomicBool; 4],
    seen: AtomicBool,
}

impl SlowGate {
    /// Whether pieces 1, 2 and 3 have come.
    fn others_have_come(&self) -> bool {
        self.come[1].load(Ordering::SeqCst)
            && self.come[2].load(Ordering::SeqCst)
            && self.come[3].load(Ordering::SeqCst)
    }
}

impl Gate for SlowGate {
    fn pass(&self, piece: u32) {
        if let Some(come) = self.come.get(piece as usize) {
            come.store(true, Ordering::SeqCst);
        }
        if piece != 0 {
            return;
        }
        for _ in 0..1_000_000_000 {
            if self.others_have_come() {
                self.seen.store(true, Ordering::SeqCst);
                return;
            }
        }
    }
}

/// While one worker is held up in piece 0, the other does the rest.
#[test]
fn one_slow_piece(rt: HostRuntime) -> Result<(), Fail> {
    let gate = SlowGate {
        come: [
            AtomicBool::new(false),
            AtomicBool::new(false),
            AtomicBool::new(false),
            AtomicBool::new(false),
        ],
        seen: AtomicBool::new(false),
    };
    let plan = Plan::new(2, 1, 64);
    let crew = crew(&rt, rt.alloc(), &plan, &gate);
    run_pieces(&crew, 4, &Numbers { items: 4 })?;
    assert!(rt; gate.seen.load(Ordering::SeqCst));
    Ok(())
}

/// It holds if any one request for memory is refused. The call that is refused answers `AllocError`. Made
/// again, it answers as with enough memory.
#[test]
fn refused_in_turn(rt: HostRuntime) -> Result<(), Fail> {
    let alloc = rt.alloc();
    for workers in [1, 2] {
        let plan = Plan::new(workers, 2, 64);
        again!(expect_numbers(&rt, alloc, 5, &plan));
    }
    Ok(())
}
