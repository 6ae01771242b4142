//! The texts of near rows, made whole before the first write.
ghost use Rattle.std.specs.Prelude.{◌≡◌, ◌^◌, ◌<◌, ◌≤◌, ℕ, length, flat_map, All, IfOk};
ghost use Rattle.ch_graph.specs.declared.limits.TheConstants.{MOST_LISTED};
ghost use Rattle.ch_graph.specs.Graph.{Network, IsWithinLimits};
ghost use Rattle.ch_hierarchy.specs.Hierarchy.{nodes_of};
ghost use Rattle.ch_hierarchy.specs.Kept.{IsKept};
ghost use Rattle.ch_rows.specs.Near.{wanted_within};
ghost use Rattle.ch_query.specs.Distance.{IsKeptForSome};
ghost use Rattle.ch_query.specs.Limits.{IsWithin};
ghost use Rattle.ch_run.specs.NearRun.{AreFewSources, AreNodeLists, nodes_of_sources};
ghost use Rattle.ch_run.specs.NearRows.{HasNearRows};
ghost use Rattle.ch_run.specs.Text.{IsNearTextFor};
ghost use Rattle.ch_text.specs.NearText.{nodes_in_order};

use super::lines::{begin_answering, lines_by};
use super::near_lines::{SearchedLines, SweptLines};
use crate::plan::{Crew, Gate};
use ch_contract::Hierarchy;
use ch_job::{Options, Sources};
use ch_rows::{NearRoom, NearTargets};
use std::alloc::{AllocError, Global};
use std::marker::Model;
use std::thread::Threads;

/// Targets that were searched from, with the rooms in which workers make rows to them.
#[derive(Drop)]
pub(crate) struct NearSearch<'a> {
    targets: NearTargets<'a>,
    count: Option<u32>,
    rooms: Vec<NearRoom>,
}

impl<'a> Model for NearSearch<'a> {
    ghost use Rattle.std.specs.Prelude.{◌≡◌, All};
    ghost use Rattle.ch_rows.specs.Near.{Wanted};
    ghost use Rattle.ch_rows.specs.Rooms.{IsNearRoomFor};

    ghost Value = { Wanted };

    ghost view = { λ near. near.targets };

    ghost invariant = { λ near. All (IsNearRoomFor near.targets) near.rooms.items × (near.count ≡ near.targets.count) };
}

impl<'a> NearSearch<'a> {
    /// Takes the targets, of which a row has at most `count`, with no room yet.
    pub(crate) fn new(alloc: Global, targets: NearTargets<'a>, count: Option<u32>) -> NearSearch<'a>
        requires { count ≡ targets.count }
        ensures { result ≡ targets.entry }
    {
        NearSearch {
            targets,
            count,
            rooms: Vec::new(alloc),
        }
    }

    /// Returns the targets, in order.
    pub(crate) fn targets(&self) -> &[u32]
        ensures { result.now ≡ self.now.targets }
    {
        self.targets.targets()
    }

    /// Returns the greatest number of targets in a row, or `None` if a row has all of them.
    pub(crate) fn count(&self) -> Option<u32>
        ensures { result ≡ self.now.count }
    {
        self.count
    }

    /// Returns the text of the near rows of these sources, in parts, within a limit that is at most the one of the search. The
    /// workers share the sources, and each searches from those that it takes and writes their rows. The parts have fewer than
    /// 2^64 bytes.
    pub(crate) fn text<R: Threads + Sync, G: Gate>(
        &mut self,
        crew: &Crew<'_, R, G>,
        sources: &[u32],
        within: Option<u64>,
    ) -> Result<Vec<Vec<u8>>, AllocError>
        requires sources { All (λ s. s < nodes_of self.old.hierarchy) sources.now }
        requires few { length sources.now ≤ MOST_LISTED }
        requires limit { (x : ℕ) → IsWithin within x → IsWithin self.old.limit x }
        ensures text { IfOk result (λ parts. HasNearRows (wanted_within self.old within) sources.now (flat_map (λ part. part.items) parts.items)) }
        ensures length { IfOk result (λ parts. length (flat_map (λ part. part.items) parts.items) < 2 ^ 64) }
        ensures same { self.new ≡ self.old }
    {
        begin_answering(crew, sources.len() as u32);
        let near = &self.targets;
        lines_by(
            crew,
            sources,
            &mut self.rooms,
            &SearchedLines { near, within },
        )
    }
}

/// Returns the text of the near rows of these sources, by a hierarchy, in parts. One sweep makes the rows of all nodes. It also
/// serves a list of at least half as many sources as nodes, rounded down: it needs no search from a source, and makes hardly more
/// than twice as many rows as are asked for. The parts have fewer than 2^64 bytes.
pub(crate) fn near_by<R: Threads + Sync, G: Gate>(
    crew: &Crew<'_, R, G>,
    hierarchy: &Hierarchy,
    sources: &Sources<Vec<u32>>,
    targets: &[u32],
    options: &Options,
) -> Result<Vec<Vec<u8>>, AllocError>
    requires kept { IsKeptForSome hierarchy.now }
    requires lists { AreNodeLists (nodes_of hierarchy.now) (nodes_of_sources (nodes_of hierarchy.now) sources.now) targets.now }
    requires few { AreFewSources sources.now }
    ensures text { IfOk result (λ parts. (g : Network) → IsWithinLimits g → IsKept g hierarchy.now →
        IsNearTextFor options.now g (nodes_of_sources g.nodes sources.now) targets.now (flat_map (λ part. part.items) parts.items)) }
    ensures length { IfOk result (λ parts. length (flat_map (λ part. part.items) parts.items) < 2 ^ 64) }
{
    let direction = options.direction;
    let within = options.within;
    let near = NearTargets::search(crew, hierarchy, direction, targets, within, options.count)?;
    let nodes = hierarchy.nodes();
    match sources {
        Sources::All => {
            let all = all_nodes(crew.alloc, nodes)?;
            swept_text(crew, &near, &all)
        }
        Sources::Listed(list) if list.len() < nodes as usize / 2 => {
            NearSearch::new(crew.alloc, near, options.count).text(crew, list, within)
        }
        Sources::Listed(list) => swept_text(crew, &near, list),
    }
}

/// Returns the nodes of a hierarchy of `nodes` nodes, in order.
fn all_nodes(alloc: Global, nodes: u32) -> Result<Vec<u32>, AllocError>
    ensures nodes { IfOk result (λ all. all.items ≡ nodes_in_order nodes) }
    ensures few { IfOk result (λ all. length all.items < 2 ^ 32) }
{
    let mut all = Vec::with_capacity(alloc, nodes as usize)?;
    for node in 0..nodes {
        all.push(node)?;
    }
    Ok(all)
}

/// Returns the text of the near rows of these sources, from the rows of all nodes, in parts. One worker makes the rows by a sweep,
/// and then the workers share the sources. Both are reported as one stage.
fn swept_text<R: Threads + Sync, G: Gate>(
    crew: &Crew<'_, R, G>,
    near: &NearTargets<'_>,
    sources: &[u32],
) -> Result<Vec<Vec<u8>>, AllocError>
    requires sources { All (λ s. s < nodes_of near.now.hierarchy) sources.now }
    requires few { length sources.now < 2 ^ 32 }
    ensures text { IfOk result (λ parts. HasNearRows near.now sources.now (flat_map (λ part. part.items) parts.items)) }
    ensures length { IfOk result (λ parts. length (flat_map (λ part. part.items) parts.items) < 2 ^ 64) }
{
    begin_answering(crew, sources.len() as u32);
    let rows = near.node_rows(crew.alloc)?;
    let mut rooms = Vec::new(crew.alloc);
    lines_by(crew, sources, &mut rooms, &SweptLines { near, rows: &rows })
}
