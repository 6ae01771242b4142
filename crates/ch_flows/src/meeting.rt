//! Where the tree of a source and the trees of targets meet, and the way of the route over this node.
ghost use Rattle.std.specs.Prelude.{◌≡◌, ◌↔◌, ◌+◌, ◌++◌, ◌<◌, [], ℕ, List, Option, ⊤, length, map, slice_index_or, All, IsTrue, IfOk, OnOk, MatchOption};
ghost use Rattle.ch_graph.specs.Cost.{IsBelow, cost_sum};
ghost use Rattle.ch_graph.specs.Rows.{pairs_at};
ghost use Rattle.ch_hierarchy.specs.Hierarchy.{LevelsAndLegs};
ghost use Rattle.ch_hierarchy.specs.declared.side.Side.TheVariants.{Up as UpSide, Down as DownSide};
ghost use Rattle.ch_flows.specs.declared.gathering.Branch.{Branch as AnyBranch};
ghost use Rattle.ch_flows.specs.declared.handing.Halves.{Halves as AnyHalves};
ghost use Rattle.ch_flows.specs.declared.plan.Link.{Link as AnyLink};
ghost use Rattle.ch_flows.specs.declared.tree.Mark.{Mark as AnyMark};
ghost use Rattle.ch_flows.specs.declared.tree.Tree.{Tree as AnyTree};
ghost use Rattle.ch_query.specs.Distance.{IsKeptForSome};
ghost use Rattle.ch_flows.specs.Found.{IsFound, is_way};
ghost use Rattle.ch_flows.specs.Meetings.{AreMeetings, AreStops, AreStopsAt, IsMeetingSoFar, IsNearer, kept_of};
ghost use Rattle.ch_flows.specs.Plans.{IsPlan};
ghost use Rattle.ch_flows.specs.Trees.{AreBranches, AreMarksInOrder, IsTree, mark_at};

use crate::tree::{Mark, Tree};
use ch_graph::{Cost, Rows};
use std::alloc::{AllocError, Global};

/// The sum of the costs of two trees at a node where they meet, and their branches there, if these are known.
#[derive(Clone, Copy)]
pub(crate) struct Meet {
    cost: Cost,
    up: Option<u32>,
    down: Option<u32>,
}

/// What is known of where two trees meet.
#[derive(Clone, Copy)]
pub(crate) enum Meeting {
    /// They do not meet.
    Nowhere,
    /// The least numbered node of those with the least sum of costs.
    At(Meet),
    /// A sum is too large for words.
    Unknown,
}

/// The way of a pair.
#[derive(Clone, Copy)]
pub(crate) enum Found {
    /// It goes up along the first branch and down along the second one.
    Between(u32, u32),
    /// Its legs are listed, if there is one.
    Listed(bool),
}

impl Found {
    /// Whether there is a way.
    pub(crate) fn is_way(self) -> bool
        ensures { result ≡ is_way self }
    {
        match self {
            Found::Between(_, _) => true,
            Found::Listed(is_found) => is_found,
        }
    }
}

/// Returns the way between the sources of two trees, one up and one down, which meet there. It is `None` if it is not known.
pub(crate) fn way_between(meeting: Meeting) -> Option<Found>
    ensures { MatchOption result ⊤ (λ found. (H : LevelsAndLegs) (links : List AnyLink) (parts : List (Option AnyHalves)) (rows columns : List AnyBranch) (ups downs : AnyTree) → IsKeptForSome H → IsPlan H links parts → AreBranches UpSide H links rows → AreBranches DownSide H links columns → IsTree UpSide H rows ups → IsTree DownSide H columns downs → IsMeetingSoFar ups.kept.items downs.kept.items (length ups.kept.items) meeting → IsFound H links rows columns ups.source downs.source [] found) }
{
    let meet = match meeting {
        Meeting::Unknown => return None,
        Meeting::Nowhere => return Some(Found::Listed(false)),
        Meeting::At(meet) => meet,
    };
    let up = meet.up?;
    let down = meet.down?;
    Some(Found::Between(up, down))
}

/// Returns for each node the trees that keep an entry there, by their places, each with what is known of it.
///
/// # Errors
/// `AllocError` if there is no memory.
pub(crate) fn stops_of(
    alloc: Global,
    nodes: u32,
    trees: &[Tree],
) -> Result<Rows<(usize, Mark)>, AllocError>
    requires { All (λ list. All (λ entry. entry.0 < nodes) list) (map kept_of trees.now) }
    ensures count { IfOk result (λ stops. length stops ≡ nodes) }
    ensures stops { IfOk result (λ stops. AreStops stops (map kept_of trees.now)) }
{
    let mut pairs = Vec::new(alloc);
    for c in 0..trees.len() {
        push_stops(c, &trees[c].kept, &mut pairs)?;
    }
    Rows::build(alloc, nodes, &pairs)
}

/// Appends the entries of a tree at this place, each after its node.
fn push_stops(
    place: usize,
    kept: &[(u32, Mark)],
    pairs: &mut Vec<(u32, (usize, Mark))>,
) -> Result<(), AllocError>
    ensures { OnOk result (pairs.new.items ≡ pairs.old.items ++ pairs_at place kept.now) }
{
    for (node, mark) in kept {
        pairs.push((*node, (place, *mark)))?;
    }
    Ok(())
}

/// Returns for each of some trees where it meets the tree with these entries. The stops are those of the trees.
///
/// # Errors
/// `AllocError` if there is no memory.
pub(crate) fn meetings(
    alloc: Global,
    kept: &[(u32, Mark)],
    stops: &Rows<(usize, Mark)>,
    trees: usize,
) -> Result<Vec<Meeting>, AllocError>
    requires nodes { (k : ℕ) → k < length kept.now → (mark_at kept.now k).0 < length stops.now }
    requires trees { (v : ℕ) → All (λ stop. stop.0 < trees) (slice_index_or stops.now v []) }
    ensures long { IfOk result (λ meetings. length meetings.items ≡ trees) }
    ensures meetings { IfOk result (λ meetings. (lists : List (List (ℕ × AnyMark))) → length lists ≡ trees → AreMarksInOrder kept.now → All AreMarksInOrder lists → AreStops stops.now lists → AreMeetings kept.now lists (length kept.now) meetings.items) }
{
    let mut meetings = vec![in alloc; Meeting::Nowhere; trees]?;
    for k in 0..kept.len() {
        let (node, mark) = kept[k];
        meet_at(mark, stops.row(node), meetings.as_mut_slice());
    }
    Ok(meetings)
}

/// Goes on with the trees that have entries at a node, where another tree has one with this mark.
fn meet_at(mark: Mark, stops: &[(usize, Mark)], meetings: &mut [Meeting])
    requires { All (λ stop. stop.0 < length meetings.old) stops.now }
    ensures long { length meetings.new ≡ length meetings.old }
    ensures met { (ups : List (ℕ × AnyMark)) (lists : List (List (ℕ × AnyMark))) (n node : ℕ) → n < length ups → mark_at ups n ≡ (node, mark) → length lists ≡ length meetings.old → AreMarksInOrder ups → All AreMarksInOrder lists → AreStopsAt lists node stops.now → AreMeetings ups lists n meetings.old → AreMeetings ups lists (n + 1) meetings.new }
{
    for j in 0..stops.len() {
        let (tree, other) = stops[j];
        let old = meetings[tree];
        meetings[tree] = nearer(old, mark, other);
    }
}

/// Returns where two trees meet after one more node that both have.
fn nearer(old: Meeting, up: Mark, down: Mark) -> Meeting
    ensures { IsNearer old (record { cost = cost_sum up.cost down.cost; up = up.spot; down = down.spot }) result }
{
    let Some(cost) = sum_of(up.cost, down.cost) else {
        return Meeting::Unknown;
    };
    let new = Meeting::At(Meet {
        cost,
        up: up.spot,
        down: down.spot,
    });
    match old {
        Meeting::Nowhere => new,
        Meeting::Unknown => old,
        Meeting::At(meet) => {
            if is_below(cost, meet.cost) {
                return new;
            }
            old
        }
    }
}

/// Whether `a` costs less than `b`.
pub(crate) fn is_below(a: Cost, b: Cost) -> bool
    ensures { IsTrue result ↔ IsBelow a b }
{
    a < b
}

/// Adds two costs, or returns `None` if the sum is too large for words.
pub(crate) fn sum_of(a: Cost, b: Cost) -> Option<Cost>
    ensures { MatchOption result ⊤ (λ sum. sum ≡ cost_sum a b) }
{
    let weight = a.weight.checked_add(b.weight)?;
    let arcs = a.arcs.checked_add(b.arcs)?;
    Some(Cost { weight, arcs })
}
