//! The texts of runs, made whole before the first write.
ghost use Rattle.std.specs.Prelude.{◌≡◌, ◌^◌, ◌<◌, ◌≤◌, ◌++◌, ◌∷◌, [], List, ℕ, length, flat_map, All, IfOk, OnOk};
ghost use Rattle.ch_graph.specs.declared.limits.TheConstants.{MOST_QUERIES};
ghost use Rattle.ch_graph.specs.Graph.{Network, IsWithinLimits};
ghost use Rattle.ch_hierarchy.specs.Hierarchy.{nodes_of};
ghost use Rattle.ch_hierarchy.specs.Kept.{IsKept};
ghost use Rattle.ch_query.specs.Replies.{AreQueries};
ghost use Rattle.ch_query.specs.Distance.{IsKeptForSome};
ghost use Rattle.ch_text.specs.Distances.{IsDistanceText};
ghost use Rattle.ch_run.specs.Text.{IsTextBy};
ghost use Rattle.ch_text.specs.TableText.{IsTableText};
ghost use Rattle.ch_run.specs.Lists.{AreLists};

use super::lines::{begin_answering, checked_length, lines_by};
use super::workers::{RouteLines, RowTexts};
use crate::plan::{Crew, Gate, Stage};
use ch_contract::Hierarchy;
use ch_graph::{Graph, plain_distance};
use ch_query::{Answer, QueryJob, Scratch};
use ch_rows::gather_rows;
use ch_text::push_answer;
use ch_work::joined;
use std::alloc::{AllocError, Global};
use std::thread::Threads;

/// Returns the text that answers the queries by a hierarchy, with their routes if `routes`, in parts. The workers of the crew
/// share the queries, and each writes the answers that it finds. The parts have fewer than 2^64 bytes.
pub(crate) fn answers_by<R: Threads + Sync, G: Gate>(
    crew: &Crew<'_, R, G>,
    hierarchy: &Hierarchy,
    queries: &[(u32, u32)],
    routes: bool,
) -> Result<Vec<Vec<u8>>, AllocError>
    requires kept { IsKeptForSome hierarchy.now }
    requires queries { AreQueries (nodes_of hierarchy.now) queries.now }
    requires count { length queries.now ≤ MOST_QUERIES }
    ensures text { IfOk result (λ parts. (g : Network) → IsWithinLimits g → IsKept g hierarchy.now →
        IsTextBy routes g (λ H. H ≡ hierarchy.now) queries.now (flat_map (λ part. part.items) parts.items)) }
    ensures length { IfOk result (λ parts. length (flat_map (λ part. part.items) parts.items) < 2 ^ 64) }
{
    begin_answering(crew, queries.len() as u32);
    if routes {
        let mut rooms = Vec::new(crew.alloc);
        return lines_by(crew, queries, &mut rooms, &RouteLines { hierarchy });
    }
    let mut scratches = Vec::new(crew.alloc);
    let job = QueryJob { hierarchy, routes };
    lines_by(crew, queries, &mut scratches, &job)
}

/// Does the same as [`answers_by`], in scratches of the caller, and joins the parts.
pub(crate) fn answers_in<R: Threads + Sync, G: Gate>(
    crew: &Crew<'_, R, G>,
    hierarchy: &Hierarchy,
    scratches: &mut Vec<Scratch>,
    queries: &[(u32, u32)],
    routes: bool,
) -> Result<Vec<u8>, AllocError>
    requires kept { IsKeptForSome hierarchy.now }
    requires scratches { All (λ scratch. scratch ≡ nodes_of hierarchy.now) scratches.old.items }
    requires queries { AreQueries (nodes_of hierarchy.now) queries.now }
    requires count { length queries.now ≤ MOST_QUERIES }
    ensures text { IfOk result (λ text. (g : Network) → IsWithinLimits g → IsKept g hierarchy.now →
        IsTextBy routes g (λ H. H ≡ hierarchy.now) queries.now text.items) }
    ensures scratches { All (λ scratch. scratch ≡ nodes_of hierarchy.now) scratches.new.items }
{
    begin_answering(crew, queries.len() as u32);
    let job = QueryJob { hierarchy, routes };
    let parts = lines_by(crew, queries, scratches, &job)?;
    joined(crew.alloc, parts)
}

/// Returns the text that answers the queries by rounds over all arcs, without a hierarchy and without routes. The caller alone
/// makes it.
pub(crate) fn plain_text<G: Gate>(
    alloc: Global,
    graph: &Graph,
    queries: &[(u32, u32)],
    gate: &G,
) -> Result<Vec<u8>, AllocError>
    requires queries { AreQueries graph.now.nodes queries.now }
    requires count { length queries.now ≤ MOST_QUERIES }
    ensures { IfOk result (λ text. IsDistanceText graph.now queries.now text.items) }
{
    let mut text = Vec::new(alloc);
    for (place, (from, to)) in queries.iter().enumerate() {
        gate.watch(Stage::Answering, place as u32, queries.len() as u32);
        push_plain(alloc, graph, *from, *to, &mut text)?;
    }
    Ok(text)
}

/// Adds the answer to a query, by its plain distance.
fn push_plain(
    alloc: Global,
    graph: &Graph,
    from: u32,
    to: u32,
    text: &mut Vec<u8>,
) -> Result<(), AllocError>
    requires nodes { (from < graph.now.nodes) × (to < graph.now.nodes) }
    ensures { OnOk result ((done : List (ℕ × ℕ)) → IsDistanceText graph.now done text.old.items →
        IsDistanceText graph.now (done ++ (from, to) ∷ []) text.new.items) }
{
    let weight = plain_distance(alloc, graph, from, to)?;
    let answer = Answer {
        from,
        to,
        weight,
        arcs: None,
    };
    push_answer(text, &answer)
}

/// Returns the text of the table of these lists, by a hierarchy.
pub(crate) fn table_by<R: Threads + Sync, G: Gate>(
    crew: &Crew<'_, R, G>,
    hierarchy: &Hierarchy,
    sources: &[u32],
    targets: &[u32],
    within: Option<u64>,
) -> Result<Vec<u8>, AllocError>
    requires kept { IsKeptForSome hierarchy.now }
    requires lists { AreLists (nodes_of hierarchy.now) sources.now targets.now }
    ensures { IfOk result (λ text. (g : Network) → IsWithinLimits g → IsKept g hierarchy.now →
        IsTableText g within sources.now targets.now text.items) }
{
    let parts = table_parts_by(crew, hierarchy, sources, targets, within)?;
    joined(crew.alloc, parts)
}

/// Returns the text of the table of these lists, by a hierarchy, in parts: a row for each source, in order. The
/// workers of the crew share the rows, as [`gather_rows`] says, and each writes those that it makes. The parts have
/// fewer than 2^64 bytes.
pub(crate) fn table_parts_by<R: Threads + Sync, G: Gate>(
    crew: &Crew<'_, R, G>,
    hierarchy: &Hierarchy,
    sources: &[u32],
    targets: &[u32],
    within: Option<u64>,
) -> Result<Vec<Vec<u8>>, AllocError>
    requires kept { IsKeptForSome hierarchy.now }
    requires lists { AreLists (nodes_of hierarchy.now) sources.now targets.now }
    ensures text { IfOk result (λ parts. (g : Network) → IsWithinLimits g → IsKept g hierarchy.now →
        IsTableText g within sources.now targets.now (flat_map (λ part. part.items) parts.items)) }
    ensures length { IfOk result (λ parts. length (flat_map (λ part. part.items) parts.items) < 2 ^ 64) }
{
    let parts = gather_rows(crew, hierarchy, sources, targets, within, &RowTexts)?;
    checked_length(parts)
}
