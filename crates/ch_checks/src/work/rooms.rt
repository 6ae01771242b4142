//! Jobs with rooms, with concrete types. They test what no clause says: the number of rooms that are made.
ghost use Rattle.std.specs.Prelude.{◌≡◌, ◌+◌, ◌<◌, ◌^◌, [], ◌∷◌, length, All, IfOk};
ghost use Rattle.std.specs.List.{AllZip};

use crate::again::again;
use crate::crew::crew;
use ch_work::{ListJob, Open, Plan, RoomJob, run_list, run_list_in, run_pieces_in};
use std::alloc::{AllocError, Global};
use std::sync::atomic::{AtomicU64, Ordering};
use std::test::Fail;
use std::thread::Threads;

/// A job whose value of a range is its end, which is written into the room and removed again.
///
/// It counts its calls for a room, and refuses memory for more than `most` rooms.
#[derive(Drop)]
struct Ends {
    items: u32,
    most: u64,
    rooms: AtomicU64,
}

impl RoomJob for Ends {
    type Room = Vec<u32>;

    type Out = u32;

    ghost size = { λ job. job.items };

    ghost meaning = { λ job from to end. end ≡ to };

    ghost clean = { λ job room. room.items ≡ [] };

    fn room(&self, alloc: Global) -> Result<Vec<u32>, AllocError> {
        if self.rooms.fetch_add(1, Ordering::SeqCst) >= self.most {
            return Err(AllocError);
        }
        Ok(Vec::new(alloc))
    }

    fn piece(
        &self,
        _alloc: Global,
        room: &mut Vec<u32>,
        _from: u32,
        to: u32,
    ) -> Result<u32, AllocError> {
        room.push(to)?;
        Ok(room.pop().unwrap_or(0))
    }
}

/// Returns the ends of ten items in pieces of three.
fn run_ends<R: Threads + Sync>(
    rt: &R,
    alloc: Global,
    workers: u32,
    job: &Ends,
) -> Result<Vec<u32>, AllocError>
    requires workers { (0 < workers) × (workers < 65) }
    requires job { job.now.items ≡ 10 }
{
    let plan = Plan::new(workers, 3, 64);
    let mut rooms = Vec::new(alloc);
    run_pieces_in(&crew(rt, alloc, &plan, &Open), 10, &mut rooms, job)
}

/// Makes a job that has memory for `most` rooms and has made none yet.
fn job_with(most: u64) -> Ends
    ensures { result.items ≡ 10 }
{
    Ends {
        items: 10,
        most,
        rooms: AtomicU64::new(0),
    }
}

/// If there is no memory for the last room, the call answers that.
#[test]
fn each_worker_makes_a_room(rt: HostRuntime) -> Result<(), Fail> {
    for workers in [1, 2, 64] {
        let rooms = u64::from(workers.min(4));
        let job = job_with(rooms);
        let ends = run_ends(&rt, rt.alloc(), workers, &job)?;
        assert_eq!(rt; ends.as_slice(), [3, 6, 9, 10].as_slice());
        assert_eq!(rt; job.rooms.load(Ordering::SeqCst), rooms);
        let short = job_with(rooms.saturating_sub(1));
        assert!(rt; run_ends(&rt, rt.alloc(), workers, &short).is_err());
    }
    Ok(())
}

/// A job that adds `step` to each number, in a room of one place.
#[derive(Drop)]
struct Successors {
    step: u32,
}

impl ListJob for Successors {
    type Item = u32;

    type Room = Vec<u32>;

    type Out = u32;

    ghost takes = { λ job number. number + job.step < 2 ^ 32 };

    ghost meaning = { λ job number successor. successor ≡ number + job.step };

    ghost clean = { λ job room. room.items ≡ 0 ∷ [] };

    fn room(&self, alloc: Global) -> Result<Vec<u32>, AllocError> {
        Vec::from_slice(alloc, &[0])
    }

    fn value(&self, _alloc: Global, room: &mut Vec<u32>, item: &u32) -> Result<u32, AllocError> {
        room[0] = *item;
        let successor = room[0] + self.step;
        room[0] = 0;
        Ok(successor)
    }
}

/// Returns the successors of the numbers. The proof of a caller needs no answers of its own.
fn run_successors<R: Threads + Sync>(
    rt: &R,
    alloc: Global,
    numbers: &[u32],
    plan: &Plan,
) -> Result<Vec<u32>, AllocError>
    requires small { All (λ number. number < 1000) numbers.now }
    requires length { length numbers.now < 1000 }
    ensures { IfOk result (λ list. AllZip (λ number successor. successor ≡ number + 1) numbers.now list.items) }
{
    run_list(
        &crew(rt, alloc, plan, &Open),
        numbers,
        &Successors { step: 1 },
    )
}

/// Returns the successors of two lists, in rooms that stay.
fn in_rooms_that_stay<R: Threads + Sync>(
    rt: &R,
    alloc: Global,
    plan: &Plan,
    job: &Successors,
) -> Result<(Vec<u32>, Vec<u32>), AllocError>
    requires { job.now.step ≡ 1 }
{
    let crew = crew(rt, alloc, plan, &Open);
    let mut rooms = Vec::new(alloc);
    let first = run_list_in(&crew, &[3, 0], &mut rooms, job)?;
    let second = run_list_in(&crew, &[9], &mut rooms, job)?;
    Ok((first, second))
}

/// It holds if any one request for memory is refused.
#[test]
fn lists_and_rooms_refused_in_turn(rt: HostRuntime) -> Result<(), Fail> {
    let alloc = rt.alloc();
    let plan = Plan::new(2, 2, 64);
    let list = again!(run_successors(&rt, alloc, &[3, 0, 7], &plan));
    assert_eq!(rt; list.as_slice(), [4, 1, 8].as_slice());
    let (first, second) = again!(in_rooms_that_stay(&rt, alloc, &plan, &Successors { step: 1 }));
    assert_eq!(rt; first.as_slice(), [4, 1].as_slice());
    assert_eq!(rt; second.as_slice(), [10].as_slice());
    let found = again!(run_ends(&rt, alloc, 2, &job_with(64)));
    assert_eq!(rt; found.as_slice(), [3, 6, 9, 10].as_slice());
    Ok(())
}
