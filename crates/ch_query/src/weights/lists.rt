//! The search spaces of the nodes of a list, for tables and near rows. Workers share the nodes, or the caller
//! searches from them alone.
ghost use Rattle.std.specs.Prelude.{◌≡◌, ◌<◌, ◌≤◌, length, All, IfOk};
ghost use Rattle.std.specs.List.{AllZip};
ghost use Rattle.ch_graph.specs.declared.limits.TheConstants.{MOST_LISTED};
ghost use Rattle.ch_hierarchy.specs.Hierarchy.{nodes_of};
ghost use Rattle.ch_query.specs.Distance.{IsKeptForSome};
ghost use Rattle.ch_query.specs.SearchSpace.{IsRankedSpace};

use super::spaces::ranked_space;
use crate::scratch::Scratch;
use crate::start::Start;
use ch_hierarchy::{Hierarchy, Side};
use ch_work::{Crew, Gate, ListJob, Stage, run_list_in};
use std::alloc::{AllocError, Global};
use std::marker::Model;
use std::thread::Threads;

/// Returns the search space of each of these nodes, in their order: nodes that it reaches by legs to higher nodes
/// in this direction, with the weights of paths, in any order. In place of a node stands its rank, which is the number of
/// higher nodes. The hierarchy is right for some graph, and the scratches have room for its number of nodes.
///
/// A search goes on as that of [`distance`](crate::distance) does, but until no node is left. If a higher node shows a
/// lighter way to a node, that node is not expanded and has no entry. This is "stall on demand"
/// (Geisberger, Sanders, Schultes and Delling 2008).
///
/// Each node whose least path is a least walk of the graph has an entry with that weight. Distances lead
/// over these nodes. With a limit `within`, entries weigh at most that, and each such node whose weight is
/// at most that has an entry. A [`spread`](crate::spread) has the least paths to all nodes.
///
/// The workers share the nodes, and their scratches stay in `scratches` for further calls, as in [`run_list_in`]. It
/// reports to the gate when the searches begin.
///
/// # Errors
/// `AllocError` if there is no memory. All workers are joined before it returns.
pub fn ranked_spaces<R: Threads + Sync, G: Gate>(
    crew: &Crew<'_, R, G>,
    hierarchy: &Hierarchy,
    scratches: &mut Vec<Scratch>,
    nodes: &[u32],
    side: Side,
    within: Option<u64>,
) -> Result<Vec<Vec<(u32, u64)>>, AllocError>
    requires kept { IsKeptForSome hierarchy.now }
    requires scratches { All (λ scratch. scratch ≡ nodes_of hierarchy.now) scratches.old.items }
    requires nodes { All (λ x. x < nodes_of hierarchy.now) nodes.now }
    requires count { length nodes.now ≤ MOST_LISTED }
    ensures spaces { IfOk result (λ spaces. AllZip (λ node space. IsRankedSpace hierarchy.now side within node space.items) nodes.now spaces.items) }
    ensures scratches { All (λ scratch. scratch ≡ nodes_of hierarchy.now) scratches.new.items }
{
    let searches = Searches {
        hierarchy,
        side,
        within,
    };
    crew.gate
        .watch(Stage::Searching, 0, crew.plan.pieces(nodes.len() as u32));
    run_list_in(crew, nodes, scratches, &searches)
}

/// Like [`ranked_spaces`], by the caller alone. It starts no thread, passes no gate, and searches in a scratch
/// of the caller.
///
/// # Errors
/// `AllocError` if there is no memory. The scratch can still be used.
pub fn ranked_spaces_alone(
    alloc: Global,
    hierarchy: &Hierarchy,
    scratch: &mut Scratch,
    nodes: &[u32],
    side: Side,
    within: Option<u64>,
) -> Result<Vec<Vec<(u32, u64)>>, AllocError>
    requires kept { IsKeptForSome hierarchy.now }
    requires scratch { scratch.old ≡ nodes_of hierarchy.now }
    requires nodes { All (λ x. x < nodes_of hierarchy.now) nodes.now }
    ensures spaces { IfOk result (λ spaces. AllZip (λ node space. IsRankedSpace hierarchy.now side within node space.items) nodes.now spaces.items) }
    ensures scratch { scratch.new ≡ scratch.old }
{
    let mut spaces = Vec::with_capacity(alloc, nodes.len())?;
    for node in nodes {
        let start = Start {
            source: *node,
            side,
            within,
        };
        let space = ranked_space(alloc, hierarchy, scratch, start)?;
        spaces.push_reserved(space);
    }
    Ok(spaces)
}

/// The job that searches from nodes, in one direction, within a limit.
#[derive(Drop)]
struct Searches<'a> {
    hierarchy: &'a Hierarchy,
    side: Side,
    within: Option<u64>,
}

impl<'a> Model for Searches<'a> {
    ghost use Rattle.std.specs.Prelude.{ℕ, Option};
    ghost use Rattle.ch_hierarchy.specs.Hierarchy.{LevelsAndLegs};
    ghost use Rattle.ch_hierarchy.specs.declared.side.Side.{Side};
    ghost use Rattle.ch_query.specs.Distance.{IsKeptForSome};

    ghost Value = { LevelsAndLegs × Side × Option ℕ };

    ghost view = { λ job. (job.hierarchy.now, job.side, job.within) };

    ghost invariant = { λ job. IsKeptForSome job.hierarchy.now };
}

impl<'a> ListJob for Searches<'a> {
    ghost use Rattle.std.specs.Prelude.{◌≡◌, ◌<◌};
    ghost use Rattle.ch_hierarchy.specs.Hierarchy.{nodes_of};
    ghost use Rattle.ch_query.specs.SearchSpace.{IsRankedSpace};

    type Item = u32;

    type Room = Scratch;

    type Out = Vec<(u32, u64)>;

    ghost takes = { λ job node. node < nodes_of job.0 };

    ghost meaning = { λ job node space. IsRankedSpace job.0 job.1 job.2 node space.items };

    ghost clean = { λ job scratch. scratch ≡ nodes_of job.0 };

    fn room(&self, alloc: Global) -> Result<Scratch, AllocError> {
        Scratch::new(alloc, self.hierarchy.nodes())
    }

    fn value(
        &self,
        alloc: Global,
        room: &mut Scratch,
        item: &u32,
    ) -> Result<Vec<(u32, u64)>, AllocError> {
        let start = Start {
            source: *item,
            side: self.side,
            within: self.within,
        };
        ranked_space(alloc, self.hierarchy, room, start)
    }
}
