//! Answers to many queries.

pub(crate) mod one;
pub(crate) mod query_job;

ghost use Rattle.std.specs.Prelude.{◌≡◌, ◌≤◌, length, All, IfOk};
ghost use Rattle.std.specs.List.{AllZip};
ghost use Rattle.ch_graph.specs.declared.limits.TheConstants.{MOST_QUERIES};
ghost use Rattle.ch_hierarchy.specs.Hierarchy.{nodes_of};
ghost use Rattle.ch_query.specs.Distance.{IsKeptForSome};
ghost use Rattle.ch_query.specs.Replies.{AreQueries, IsReply};

use crate::scratch::Scratch;
use ch_graph::InArc;
use ch_hierarchy::Hierarchy;
use ch_work::{Crew, Gate, Stage, run_list_in};
use query_job::QueryJob;
use std::alloc::AllocError;
use std::marker::Model;
use std::thread::Threads;

/// The answer to a query. Contracts see the arcs as a list.
#[derive(Debug, Drop)]
pub struct Answer {
    /// The query's first node.
    pub from: u32,
    /// The query's second node.
    pub to: u32,
    /// The least weight of a walk from the first node to the second, or `None` if there is no walk.
    pub weight: Option<u64>,
    /// The arcs of the route, if routes are wanted and there is a walk.
    pub arcs: Option<Vec<InArc>>,
}

impl Model for Answer {
    ghost use Rattle.std.specs.Option.{option_map};
    ghost use Rattle.ch_query.specs.Values.{Reply};

    ghost Value = { Reply };

    ghost view = { λ a. record { from = a.from; to = a.to; weight = a.weight; arcs = option_map (λ arcs. arcs.items) a.arcs } };
}

/// Returns the answers to the queries, in their order. If `routes` is set, they have the arcs of the
/// routes.
///
/// Workers share the queries as the plan says. Each worker makes its room once, and answers one query after
/// the other.
///
/// # Errors
/// `AllocError` if there is no memory.
pub fn answer_all<R: Threads + Sync, G: Gate>(
    crew: &Crew<'_, R, G>,
    hierarchy: &Hierarchy,
    queries: &[(u32, u32)],
    routes: bool,
) -> Result<Vec<Answer>, AllocError>
    requires kept { IsKeptForSome hierarchy.now }
    requires queries { AreQueries (nodes_of hierarchy.now) queries.now }
    requires count { length queries.now ≤ MOST_QUERIES }
    ensures { IfOk result (λ answers. AllZip (IsReply hierarchy.now routes) queries.now answers.items) }
{
    let mut scratches = Vec::new(crew.alloc);
    answer_all_in(crew, hierarchy, &mut scratches, queries, routes)
}

/// Like [`answer_all`], but in scratches that stay, one for each worker. It is for callers that ask again
/// and again, because making a scratch takes a step for each node.
///
/// If there are too few scratches, workers make more. These are in `scratches` afterwards.
///
/// # Errors
/// `AllocError` if there is no memory. Some scratches may be gone then; those that are left serve further
/// queries.
pub fn answer_all_in<R: Threads + Sync, G: Gate>(
    crew: &Crew<'_, R, G>,
    hierarchy: &Hierarchy,
    scratches: &mut Vec<Scratch>,
    queries: &[(u32, u32)],
    routes: bool,
) -> Result<Vec<Answer>, AllocError>
    requires kept { IsKeptForSome hierarchy.now }
    requires scratches { All (λ scratch. scratch ≡ nodes_of hierarchy.now) scratches.old.items }
    requires queries { AreQueries (nodes_of hierarchy.now) queries.now }
    requires count { length queries.now ≤ MOST_QUERIES }
    ensures answers { IfOk result (λ answers. AllZip (IsReply hierarchy.now routes) queries.now answers.items) }
    ensures scratches { All (λ scratch. scratch ≡ nodes_of hierarchy.now) scratches.new.items }
{
    let job = QueryJob { hierarchy, routes };
    crew.gate.watch(Stage::Answering, 0, crew.plan.pieces(queries.len() as u32));
    run_list_in(crew, queries, scratches, &job)
}
