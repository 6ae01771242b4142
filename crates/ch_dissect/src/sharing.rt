//! Parts that workers share. Each worker cuts parts in a room of its own.
ghost use Rattle.std.specs.Prelude.{◌≡◌, ◌<◌, IfOk};

use crate::cutter::Cutter;
use crate::neighbours::Neighbours;
use crate::parts::Parts;
use ch_work::{Crew, Gate, ListJob, Plan, run_list};
use std::alloc::{AllocError, Global};
use std::thread::Threads;

/// How often the workers join their cuts. In each of the first rounds they cut the parts that are larger than half as many
/// nodes as in the round before, and in the last all that are left.
const ROUNDS: u32 = 6;

/// The least number of nodes that workers share.
const LEAST_SHARED: usize = 4096;

/// What a worker needs to cut parts: nodes in an order of its own.
#[derive(Drop)]
pub(crate) struct PartRoom {
    cutter: Cutter,
    parts: Parts,
}

/// The nodes of a part in a new order, and the parts of it that are not yet in order.
#[derive(Drop)]
pub(crate) struct Arranged {
    nodes: Vec<u32>,
    pending: Vec<(u32, u32)>,
}

/// The job that cuts parts, and leaves those with at most `least` nodes.
#[derive(Drop)]
pub(crate) struct PartJob<'a> {
    rows: &'a Neighbours,
    parts: &'a Parts,
    least: u32,
    ghost size: { parts.now.count ≡ rows.now.count },
}

impl ListJob for PartJob<'_> {
    type Item = (u32, u32);

    type Room = PartRoom;

    type Out = Arranged;

    ghost takes = { λ job part. Unit {0} };

    ghost meaning = { λ job part arranged. Unit {0} };

    ghost clean = { λ job room. room.parts.count ≡ job.rows.now.count };

    fn room(&self, alloc: Global) -> Result<PartRoom, AllocError> {
        Ok(PartRoom {
            cutter: Cutter::new(alloc)?,
            parts: self.parts.copied(alloc)?,
        })
    }

    fn value(
        &self,
        alloc: Global,
        room: &mut PartRoom,
        part: &(u32, u32),
    ) -> Result<Arranged, AllocError> {
        let (start, end) = *part;
        room.parts.pending.clear();
        room.parts.pending.push((start, end))?;
        let pending = room
            .cutter
            .cut_all(alloc, self.rows, &mut room.parts, self.least)?;
        let nodes = match room.parts.nodes.get(start as usize..end as usize) {
            Some(nodes) => Vec::from_slice(alloc, nodes)?,
            None => Vec::new(alloc),
        };
        Ok(Arranged { nodes, pending })
    }
}

/// Puts the nodes of a graph in order. Workers share the parts if there are enough nodes.
///
/// # Errors
/// `AllocError` if there is no memory.
pub(crate) fn in_order<R: Threads + Sync, G: Gate>(
    crew: &Crew<'_, R, G>,
    rows: &Neighbours,
) -> Result<Parts, AllocError>
    ensures { IfOk result (λ parts. parts.count ≡ rows.now.count) }
{
    if !crew.plan.shares(rows.count as usize, LEAST_SHARED) {
        return in_order_alone(crew.alloc, rows);
    }
    let mut parts = Parts::all(crew.alloc, rows.count)?;
    cut_rounds(crew, rows, &mut parts)?;
    Ok(parts)
}

/// Puts the nodes of a graph in order, without another worker.
///
/// # Errors
/// `AllocError` if there is no memory.
pub(crate) fn in_order_alone(alloc: Global, rows: &Neighbours) -> Result<Parts, AllocError>
    ensures { IfOk result (λ parts. parts.count ≡ rows.now.count) }
{
    let mut parts = Parts::all(alloc, rows.count)?;
    let mut cutter = Cutter::new(alloc)?;
    let _none = cutter.cut_all(alloc, rows, &mut parts, 0)?;
    Ok(parts)
}

/// Lets the workers cut the parts, in rounds.
fn cut_rounds<R: Threads + Sync, G: Gate>(
    crew: &Crew<'_, R, G>,
    rows: &Neighbours,
    parts: &mut Parts,
) -> Result<(), AllocError>
    requires { parts.old.count ≡ rows.now.count }
    ensures { parts.new.count ≡ parts.old.count }
{
    let by_part = Crew {
        rt: crew.rt,
        alloc: crew.alloc,
        plan: Plan::new(crew.plan.workers(), 1, 1),
        gate: crew.gate,
    };
    for round in 1..ROUNDS {
        cut_round(&by_part, rows, rows.count >> round, parts)?;
    }
    cut_round(&by_part, rows, 0, parts)
}

/// Lets the workers cut the pending parts with more than `least` nodes, and puts the nodes where they put them.
fn cut_round<R: Threads + Sync, G: Gate>(
    crew: &Crew<'_, R, G>,
    rows: &Neighbours,
    least: u32,
    parts: &mut Parts,
) -> Result<(), AllocError>
    requires { parts.old.count ≡ rows.now.count }
    ensures { parts.new.count ≡ parts.old.count }
{
    let pending = Vec::from_slice(crew.alloc, parts.pending.as_slice())?;
    let arranged = shared_out(crew, rows, least, parts, pending.as_slice())?;
    parts.pending.clear();
    put_arranged(pending.as_slice(), arranged.as_slice(), parts)
}

/// Puts the nodes of these parts where the workers put them, and makes what the workers left parts that are not yet in order.
fn put_arranged(
    pending: &[(u32, u32)],
    arranged: &[Arranged],
    parts: &mut Parts,
) -> Result<(), AllocError>
    ensures { parts.new.count ≡ parts.old.count }
{
    for number in 0..pending.len().min(arranged.len()) {
        let part = &arranged[number];
        parts.put_all(pending[number].0, part.nodes.as_slice());
        parts.pending.extend_from_slice(part.pending.as_slice())?;
    }
    Ok(())
}

/// Returns the parts as the workers arrange them.
fn shared_out<R: Threads + Sync, G: Gate>(
    crew: &Crew<'_, R, G>,
    rows: &Neighbours,
    least: u32,
    parts: &Parts,
    pending: &[(u32, u32)],
) -> Result<Vec<Arranged>, AllocError>
    requires { parts.now.count ≡ rows.now.count }
{
    if pending.len() > u32::MAX as usize {
        return Ok(Vec::new(crew.alloc));
    }
    let job = PartJob { rows, parts, least };
    run_list(crew, pending, &job)
}
