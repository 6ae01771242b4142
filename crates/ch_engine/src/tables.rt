//! Tables of distances as words, by search spaces and buckets (Knopp, Sanders, Schultes, Schulz and Wagner 2007).
ghost use Rattle.std.specs.Prelude.{◌≡◌, ◌*◌, ◌++◌, ◌<◌, ◌≤◌, ℕ, List, [], length, map, replicate, slice_index_or, All, IfOk, MatchOption, OnOk, ⊤};
ghost use Rattle.ch_graph.specs.Rows.{pairs_at};
ghost use Rattle.ch_graph.specs.declared.limits.TheConstants.{MOST_LISTED, MOST_WEIGHT};
ghost use Rattle.ch_query.specs.Distance.{IsKeptForSome};
ghost use Rattle.ch_hierarchy.specs.Hierarchy.{nodes_of};
ghost use Rattle.ch_hierarchy.specs.declared.side.Side.TheVariants.{Up};
ghost use Rattle.ch_query.specs.Lowered.{AreLowered};
ghost use Rattle.ch_query.specs.SearchSpace.{IsRankedSpace};
ghost use Rattle.ch_engine.specs.Cells.{AreTableCells};
ghost use Rattle.ch_engine.specs.Refusals.{AreNodes};
ghost use Rattle.ch_engine.specs.Slots.{named};
ghost use Rattle.ch_tree.specs.Tree.{IsTree};
ghost use Rattle.ch_engine.specs.Tables.{HoldSpaces, IsEntryAmong, IsMostSum, IsSumAt, IsSumBy, IsSumOfRank, IsTableRow, cell_word};

use crate::network::Network;
use crate::slots::Slots;
use crate::words::NO_DISTANCE;
use ch_graph::limits::MOST_SUM;
use ch_graph::{Rows, UNREACHED};
use ch_hierarchy::{Hierarchy, Side};
use ch_query::{Scratch, Start, ranked_spaces_alone};
use ch_tree::{TreeScratch, ranked_space};
use std::alloc::{AllocError, Global};

/// What a table is asked for.
#[derive(Clone, Copy)]
pub(crate) struct Asked<'a> {
    pub(crate) sources: &'a [u32],
    pub(crate) targets: &'a [u32],
    pub(crate) within: Option<u64>,
}

/// The search spaces down to all targets. Ranks that are in none of them have no slot.
#[derive(Drop)]
struct Buckets<'a> {
    targets: &'a [u32],
    slots: &'a Slots,
    /// By slot, the places of the targets whose search space has its rank, with the weights there.
    rows: Rows<(u32, u64)>,
}

impl Network {
    /// Returns the words of the `cells` cells of a table, row after row. It takes a search for each source and each target, and
    /// steps for what they find, and none for the other nodes. Searches go by the tree of the hierarchy if there is one.
    ///
    /// # Errors
    /// `AllocError` if there is no memory.
    pub(crate) fn table_words(
        &self,
        alloc: Global,
        scratch: &mut Scratch,
        by_tree: &mut Option<TreeScratch>,
        slots: &mut Slots,
        asked: Asked<'_>,
        cells: usize,
    ) -> Result<Vec<u64>, AllocError>
        requires scratch { scratch.old ≡ nodes_of self.now.0 }
        requires tree { MatchOption by_tree.old ⊤ (λ scratch. scratch ≡ nodes_of self.now.0) }
        requires slots { slots.old.numbers ≡ nodes_of self.now.0 }
        requires sources { AreNodes (nodes_of self.now.0) asked.sources.now }
        requires targets { AreNodes (nodes_of self.now.0) asked.targets.now }
        requires count { length asked.targets.now ≤ MOST_LISTED }
        ensures size { IfOk result (λ words. length words.items ≡ length asked.entry.sources.now * length asked.entry.targets.now) }
        ensures cells { IfOk result (λ words. AreTableCells self.now.0 asked.entry.within asked.entry.sources.now asked.entry.targets.now words.items) }
        ensures slots { slots.new.numbers ≡ slots.old.numbers }
        ensures scratch { scratch.new ≡ scratch.old }
        ensures tree { MatchOption by_tree.new ⊤ (λ scratch. scratch ≡ nodes_of self.now.0) }
    {
        let Asked {
            sources,
            targets,
            within,
        } = asked;
        let rows = self.find_entries(alloc, scratch, by_tree, slots, targets, within)?;
        let buckets = Buckets {
            targets,
            slots: &*slots,
            rows,
        };
        let mut words = Vec::with_capacity(alloc, cells)?;
        for i in 0..sources.len() {
            let start = Start {
                source: sources[i],
                side: Side::Up,
                within,
            };
            self.push_row(alloc, scratch, by_tree, start, &buckets, &mut words)?;
        }
        Ok(words)
    }

    /// Gives slots to the ranks that search spaces down to the targets have, and to no others. Returns for each slot the
    /// places of the targets whose search space has its rank, with the weights there.
    ///
    /// # Errors
    /// `AllocError` if there is no memory.
    fn find_entries(
        &self,
        alloc: Global,
        scratch: &mut Scratch,
        by_tree: &mut Option<TreeScratch>,
        slots: &mut Slots,
        targets: &[u32],
        within: Option<u64>,
    ) -> Result<Rows<(u32, u64)>, AllocError>
        requires scratch { scratch.old ≡ nodes_of self.now.0 }
        requires tree { MatchOption by_tree.old ⊤ (λ scratch. scratch ≡ nodes_of self.now.0) }
        requires slots { slots.old.numbers ≡ nodes_of self.now.0 }
        requires targets { AreNodes (nodes_of self.now.0) targets.now }
        requires count { length targets.now ≤ MOST_LISTED }
        ensures count { IfOk result (λ rows. length rows ≡ length slots.new.names) }
        ensures spaces { IfOk result (HoldSpaces self.now.0 within targets.now slots.new.names) }
        ensures slots { slots.new.numbers ≡ slots.old.numbers }
        ensures scratch { scratch.new ≡ scratch.old }
        ensures tree { MatchOption by_tree.new ⊤ (λ scratch. scratch ≡ nodes_of self.now.0) }
    {
        slots.clear();
        let mut pairs = Vec::new(alloc);
        for c in 0..targets.len() {
            let start = Start {
                source: targets[c],
                side: Side::Down,
                within,
            };
            let space = self.space(alloc, scratch, by_tree, start)?;
            push_entries(c as u32, &space, slots, &mut pairs)?;
        }
        Rows::build(alloc, slots.count(), &pairs)
    }

    /// Appends the row of the source of this start.
    fn push_row(
        &self,
        alloc: Global,
        scratch: &mut Scratch,
        by_tree: &mut Option<TreeScratch>,
        start: Start,
        buckets: &Buckets<'_>,
        words: &mut Vec<u64>,
    ) -> Result<(), AllocError>
        requires scratch { scratch.old ≡ nodes_of self.now.0 }
        requires tree { MatchOption by_tree.old ⊤ (λ scratch. scratch ≡ nodes_of self.now.0) }
        requires source { start.source < nodes_of self.now.0 }
        requires side { start.side ≡ Up }
        requires count { length buckets.now.rows ≡ length buckets.now.slots.now.names }
        requires spaces { HoldSpaces self.now.0 start.within buckets.now.targets.now buckets.now.slots.now.names buckets.now.rows }
        ensures row { OnOk result ((row : List ℕ) × (words.new.items ≡ words.old.items ++ row) × IsTableRow self.now.0 start.within start.source buckets.now.targets.now row) }
        ensures scratch { scratch.new ≡ scratch.old }
        ensures tree { MatchOption by_tree.new ⊤ (λ scratch. scratch ≡ nodes_of self.now.0) }
    {
        let space = self.space(alloc, scratch, by_tree, start)?;
        let mut row = unreached(alloc, buckets.targets.len())?;
        lower_row(&space, buckets, row.as_mut_slice());
        push_cells(&row, most_sum(start.within), words)
    }

    /// Returns the search space of this start, by the tree of the hierarchy if there is one.
    fn space(
        &self,
        alloc: Global,
        scratch: &mut Scratch,
        by_tree: &mut Option<TreeScratch>,
        start: Start,
    ) -> Result<Vec<(u32, u64)>, AllocError>
        requires scratch { scratch.old ≡ nodes_of self.now.0 }
        requires tree { MatchOption by_tree.old ⊤ (λ scratch. scratch ≡ nodes_of self.now.0) }
        requires node { start.source < nodes_of self.now.0 }
        ensures space { IfOk result (λ space. IsRankedSpace self.now.0 start.side start.within start.source space.items) }
        ensures among { IfOk result (λ space. All (λ e. (e.0 < nodes_of self.now.0) × (e.1 ≤ MOST_WEIGHT)) space.items) }
        ensures kept { IsKeptForSome self.now.0 }
        ensures scratch { scratch.new ≡ scratch.old }
        ensures tree { MatchOption by_tree.new ⊤ (λ scratch. scratch ≡ nodes_of self.now.0) }
    {
        let hierarchy = self.hierarchy();
        let tree = self.tree();
        let space = space_by(alloc, hierarchy, tree, scratch, by_tree, start)?;
        Ok(space)
    }
}

/// Returns the search space of this start, by the tree of the hierarchy if there is one.
fn space_by(
    alloc: Global,
    hierarchy: &Hierarchy,
    tree: Option<&[u32]>,
    scratch: &mut Scratch,
    by_tree: &mut Option<TreeScratch>,
    start: Start,
) -> Result<Vec<(u32, u64)>, AllocError>
    requires kept { IsKeptForSome hierarchy.now }
    requires tree { MatchOption tree ⊤ (λ parents. IsTree hierarchy.now parents.now) }
    requires scratch { scratch.old ≡ nodes_of hierarchy.now }
    requires room { MatchOption by_tree.old ⊤ (λ scratch. scratch ≡ nodes_of hierarchy.now) }
    requires source { start.source < nodes_of hierarchy.now }
    ensures space { IfOk result (λ space. IsRankedSpace hierarchy.now start.side start.within start.source space.items) }
    ensures scratch { scratch.new ≡ scratch.old }
    ensures room { MatchOption by_tree.new ⊤ (λ scratch. scratch ≡ nodes_of hierarchy.now) }
{
    match (tree, by_tree) {
        (Some(parents), Some(by_tree)) => ranked_space(alloc, hierarchy, parents, by_tree, start),
        _ => searched_space(alloc, hierarchy, scratch, start),
    }
}

/// Returns the search space of this start, by a search.
fn searched_space(
    alloc: Global,
    hierarchy: &Hierarchy,
    scratch: &mut Scratch,
    start: Start,
) -> Result<Vec<(u32, u64)>, AllocError>
    requires kept { IsKeptForSome hierarchy.now }
    requires scratch { scratch.old ≡ nodes_of hierarchy.now }
    requires source { start.source < nodes_of hierarchy.now }
    ensures space { IfOk result (λ space. IsRankedSpace hierarchy.now start.side start.within start.source space.items) }
    ensures scratch { scratch.new ≡ scratch.old }
{
    let nodes = [start.source];
    let mut spaces = ranked_spaces_alone(
        alloc,
        hierarchy,
        scratch,
        &nodes,
        start.side,
        start.within,
    )?;
    let Some(space) = spaces.pop() else {
        unreachable!()
    };
    Ok(space)
}

/// Appends the entries of the search space of the target at this place, each after the slot of its rank.
fn push_entries(
    place: u32,
    space: &[(u32, u64)],
    slots: &mut Slots,
    pairs: &mut Vec<(u32, (u32, u64))>,
) -> Result<(), AllocError>
    requires ranks { All (λ e. e.0 < slots.old.numbers) space.now }
    requires pairs { All (λ p. p.0 < length slots.old.names) pairs.old.items }
    ensures adds { OnOk result (named slots.new.names pairs.new.items ≡ named slots.old.names pairs.old.items ++ pairs_at place space.now) }
    ensures pairs { OnOk result (All (λ p. p.0 < length slots.new.names) pairs.new.items) }
    ensures slots { slots.new.numbers ≡ slots.old.numbers }
{
    for entry in space {
        let (rank, weight) = *entry;
        let slot = slots.slot_or_next(rank)?;
        pairs.push((slot, (place, weight)))?;
    }
    Ok(())
}

/// Returns a row of so many words, none of which is reached yet.
fn unreached(alloc: Global, columns: usize) -> Result<Vec<u64>, AllocError>
    ensures { IfOk result (λ row. row.items ≡ replicate columns UNREACHED) }
{
    vec![in alloc; UNREACHED; columns]
}

/// Lowers the words of a row by the buckets of the ranks of a search space.
fn lower_row(space: &[(u32, u64)], buckets: &Buckets<'_>, row: &mut [u64])
    requires space { All (λ e. e.1 ≤ MOST_WEIGHT) space.now }
    requires count { length buckets.now.rows ≡ length buckets.now.slots.now.names }
    requires buckets { (i : ℕ) → All (IsEntryAmong (length row.old)) (slice_index_or buckets.now.rows i []) }
    ensures { AreLowered (IsSumBy buckets.now.slots.now.names buckets.now.rows space.now) row.old row.new }
{
    for i in 0..space.len() {
        let (rank, weight) = space[i];
        lower_by_rank(rank, weight, buckets, row);
    }
}

/// Lowers the words of a row by the bucket of a rank, if it has one.
fn lower_by_rank(rank: u32, weight: u64, buckets: &Buckets<'_>, row: &mut [u64])
    requires weight { weight ≤ MOST_WEIGHT }
    requires count { length buckets.now.rows ≡ length buckets.now.slots.now.names }
    requires buckets { (i : ℕ) → All (IsEntryAmong (length row.old)) (slice_index_or buckets.now.rows i []) }
    ensures { AreLowered (IsSumOfRank buckets.now.slots.now.names buckets.now.rows rank weight) row.old row.new }
{
    let Some(slot) = buckets.slots.slot(rank) else {
        return;
    };
    lower(weight, buckets.rows.row(slot), row);
}

/// Lowers each place of a bucket to its sum with this weight, if that is less.
fn lower(weight: u64, bucket: &[(u32, u64)], row: &mut [u64])
    requires weight { weight ≤ MOST_WEIGHT }
    requires bucket { All (IsEntryAmong (length row.old)) bucket.now }
    ensures { AreLowered (IsSumAt weight bucket.now) row.old row.new }
{
    for (place, rest) in bucket {
        let cell = *place as usize;
        row[cell] = row[cell].min(weight + *rest);
    }
}

/// Appends the words of the cells of a row: each sum that is at most `most`, and the word for none in place of others.
fn push_cells(row: &[u64], most: u64, words: &mut Vec<u64>) -> Result<(), AllocError>
    ensures { OnOk result (words.new.items ≡ words.old.items ++ map (cell_word most) row.now) }
{
    for sum in row {
        words.push(word_within(*sum, most))?;
    }
    Ok(())
}

/// Returns a sum that is at most `most`, and the word for none in place of others.
#[inline]
fn word_within(sum: u64, most: u64) -> u64
    ensures { result ≡ cell_word most sum }
{
    if sum <= most { sum } else { NO_DISTANCE }
}

/// Returns the most that a sum of the weights of two paths within the limit may be.
fn most_sum(within: Option<u64>) -> u64
    ensures { IsMostSum within result }
{
    match within {
        Some(most) => most.min(MOST_SUM),
        None => MOST_SUM,
    }
}
