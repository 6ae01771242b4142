//! Priorities of nodes, in the queue of the remaining nodes.
ghost use Rattle.std.specs.Prelude.{◌≡◌, ◌^◌, ◌<◌, length, All, IfOk, OnOk};
ghost use Rattle.std.specs.List.{AllZip};
ghost use Rattle.ch_contract.specs.Rooms.{IsIdleRoom, IsReady};
ghost use Rattle.ch_contract.specs.Remaining.{legs_of};
ghost use Rattle.ch_order.specs.Priorities.{AreRefreshed, IsKeyIn};

use crate::keys::Keys;
use ch_contract::{HopBound, Remaining, Room};
use ch_queue::KeyQueue;
use ch_work::{Crew, Gate, ListJob, run_list_in};
use std::alloc::{AllocError, Global};
use std::thread::Threads;

/// The job that computes the keys of nodes with the remaining legs and these depths.
#[derive(Drop)]
pub(crate) struct PriorityJob<'a> {
    pub(crate) remaining: &'a Remaining,
    pub(crate) depths: &'a [u32],
    pub(crate) hops: HopBound,
    pub(crate) keys: Keys,
    ghost size: { length depths.now ≡ remaining.now.nodes },
}

impl ListJob for PriorityJob<'_> {
    type Item = u32;

    type Room = Room;

    type Out = i64;

    ghost takes = { λ job x. x < job.remaining.now.nodes };

    ghost meaning = { λ job x p. IsKeyIn job.keys job.remaining.now job.hops.number job.depths.now x p };

    ghost clean = { λ job room. IsIdleRoom room };

    fn room(&self, alloc: Global) -> Result<Room, AllocError> {
        Ok(Room::new(alloc))
    }

    fn value(&self, alloc: Global, room: &mut Room, item: &u32) -> Result<i64, AllocError> {
        room.forget();
        self.priority(alloc, room, *item)
    }
}

impl PriorityJob<'_> {
    /// Returns the key of a node. The node is judged in this room.
    pub(crate) fn priority(
        &self,
        alloc: Global,
        room: &mut Room,
        node: u32,
    ) -> Result<i64, AllocError>
        requires node { node < self.now.remaining.now.nodes }
        requires ready { IsReady self.now.remaining.now.nodes self.now.hops.number (legs_of self.now.remaining.now) room.old }
        ensures priority { IfOk result
            (IsKeyIn self.now.keys self.now.remaining.now self.now.hops.number self.now.depths.now node) }
        ensures ready { OnOk result (IsReady self.now.remaining.now.nodes self.now.hops.number
            (legs_of self.now.remaining.now) room.new) }
    {
        let most = self.keys.most_counted(self.remaining.count_touching(node));
        let measure = room.judge_up_to(alloc, self.remaining, node, self.hops, most)?;
        Ok(self.keys.by.key(measure, self.depths[node as usize]))
    }

    /// Gives these nodes the priorities that they have now. If they are at least `crew.plan.wide()` nodes, they
    /// are cut into pieces. Workers share the pieces and pass the gate with each piece. A single worker, or the
    /// worker of an only piece, uses the caller's room; otherwise the workers use `rooms`.
    pub(crate) fn refresh<R: Threads + Sync, G: Gate>(
        &self,
        crew: &Crew<'_, R, G>,
        nodes: &[u32],
        room: &mut Room,
        rooms: &mut Vec<Room>,
        waiting: &mut KeyQueue<i64>,
    ) -> Result<(), AllocError>
        requires nodes { All (λ x. x < self.now.remaining.now.nodes) nodes.now }
        requires count { length nodes.now < 2 ^ 32 }
        requires size { length waiting.old ≡ self.now.remaining.now.nodes }
        requires ready { IsReady self.now.remaining.now.nodes self.now.hops.number (legs_of self.now.remaining.now) room.old }
        requires rooms { All IsIdleRoom rooms.old.items }
        ensures anew { OnOk result (AreRefreshed
            (IsKeyIn self.now.keys self.now.remaining.now self.now.hops.number self.now.depths.now)
            nodes.now waiting.old waiting.new) }
        ensures ready { OnOk result (IsReady self.now.remaining.now.nodes self.now.hops.number
            (legs_of self.now.remaining.now) room.new) }
        ensures rooms { All IsIdleRoom rooms.new.items }
    {
        if nodes.len() < crew.plan.wide() as usize {
            return self.refresh_here(crew.alloc, nodes, room, waiting);
        }
        let piece = crew.plan.piece() as usize;
        if crew.plan.shares(nodes.len(), piece + 1) {
            return self.set_by_all(crew, nodes, rooms, waiting);
        }
        let mut number = 0;
        let mut from = 0;
        while from < nodes.len() {
            let to = nodes.len().min(from + piece);
            crew.gate.pass(number);
            self.refresh_here(crew.alloc, &nodes[from..to], room, waiting)?;
            number += 1;
            from = to;
        }
        Ok(())
    }

    /// Gives these nodes the priorities that they have now. Workers share them in pieces, and `rooms` keeps their
    /// rooms.
    pub(crate) fn set_by_all<R: Threads + Sync, G: Gate>(
        &self,
        crew: &Crew<'_, R, G>,
        nodes: &[u32],
        rooms: &mut Vec<Room>,
        waiting: &mut KeyQueue<i64>,
    ) -> Result<(), AllocError>
        requires nodes { All (λ x. x < self.now.remaining.now.nodes) nodes.now }
        requires count { length nodes.now < 2 ^ 32 }
        requires size { length waiting.old ≡ self.now.remaining.now.nodes }
        requires rooms { All IsIdleRoom rooms.old.items }
        ensures anew { OnOk result (AreRefreshed
            (IsKeyIn self.now.keys self.now.remaining.now self.now.hops.number self.now.depths.now)
            nodes.now waiting.old waiting.new) }
        ensures rooms { All IsIdleRoom rooms.new.items }
    {
        let priorities = run_list_in(crew, nodes, rooms, self)?;
        self.set_all(nodes, priorities.as_slice(), waiting);
        Ok(())
    }

    /// Gives these nodes the priorities that they have now, one after the other, in a new room. The room forgets the
    /// shortcuts of a node before it judges the next one, because few of these nodes are contracted soon.
    pub(crate) fn set_in_turn(
        &self,
        alloc: Global,
        nodes: &[u32],
        waiting: &mut KeyQueue<i64>,
    ) -> Result<(), AllocError>
        requires nodes { All (λ x. x < self.now.remaining.now.nodes) nodes.now }
        requires size { length waiting.old ≡ self.now.remaining.now.nodes }
        ensures { OnOk result (AreRefreshed
            (IsKeyIn self.now.keys self.now.remaining.now self.now.hops.number self.now.depths.now)
            nodes.now waiting.old waiting.new) }
    {
        let mut room = Room::new(alloc);
        for node in nodes {
            let priority = self.value(alloc, &mut room, node)?;
            waiting.set(*node, priority);
        }
        Ok(())
    }

    /// Gives these nodes the priorities that they have now. The nodes are judged in this room.
    pub(crate) fn refresh_here(
        &self,
        alloc: Global,
        nodes: &[u32],
        room: &mut Room,
        waiting: &mut KeyQueue<i64>,
    ) -> Result<(), AllocError>
        requires nodes { All (λ x. x < self.now.remaining.now.nodes) nodes.now }
        requires size { length waiting.old ≡ self.now.remaining.now.nodes }
        requires ready { IsReady self.now.remaining.now.nodes self.now.hops.number (legs_of self.now.remaining.now) room.old }
        ensures anew { OnOk result (AreRefreshed
            (IsKeyIn self.now.keys self.now.remaining.now self.now.hops.number self.now.depths.now)
            nodes.now waiting.old waiting.new) }
        ensures ready { OnOk result (IsReady self.now.remaining.now.nodes self.now.hops.number
            (legs_of self.now.remaining.now) room.new) }
    {
        for node in nodes {
            let priority = self.priority(alloc, room, *node)?;
            waiting.set(*node, priority);
        }
        Ok(())
    }

    /// Gives each of these nodes the priority at the same place.
    fn set_all(&self, nodes: &[u32], priorities: &[i64], waiting: &mut KeyQueue<i64>)
        requires nodes { All (λ x. x < self.now.remaining.now.nodes) nodes.now }
        requires priorities { AllZip (IsKeyIn self.now.keys self.now.remaining.now self.now.hops.number self.now.depths.now)
            nodes.now priorities.now }
        requires size { length waiting.old ≡ self.now.remaining.now.nodes }
        ensures { AreRefreshed (IsKeyIn self.now.keys self.now.remaining.now self.now.hops.number self.now.depths.now)
            nodes.now waiting.old waiting.new }
    {
        for (node, priority) in nodes.iter().zip(priorities) {
            waiting.set(*node, *priority);
        }
    }
}
