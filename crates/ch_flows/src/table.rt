//! Flows of the cells of a table: each target has a tree, and each row takes one more search.
ghost use Rattle.std.specs.Prelude.{◌≡◌, ◌+◌, ◌*◌, ◌<◌, ◌≤◌, [], ℕ, List, length, All, IfErr, IfOk, OnOk};
ghost use Rattle.ch_hierarchy.specs.Hierarchy.{LevelsAndLegs, nodes_of};
ghost use Rattle.ch_hierarchy.specs.declared.side.Side.TheVariants.{Down as DownSide};
ghost use Rattle.ch_query.specs.Distance.{IsKeptForSome};
ghost use Rattle.ch_flows.specs.declared.plan.Plan.{Plan as AnyPlan};
ghost use Rattle.ch_flows.specs.Cells.{AreSums, AreTargetTrees, AreTreesOfNodes, IsColumns, IsRowAt, IsRowTree, cell_sources, cell_targets, summed, summed_with};
ghost use Rattle.ch_flows.specs.Found.{AreWithin, is_way, legs_of};
ghost use Rattle.ch_flows.specs.Gathering.{AreStepsBack, IsNothing};
ghost use Rattle.ch_flows.specs.Handing.{AreParts};
ghost use Rattle.ch_flows.specs.Layouts.{IsLaid};
ghost use Rattle.ch_flows.specs.Plans.{AreCountedBy, AreFlowsOf, IsPairAt, IsPlanOf, IsRefusal, IsTallyBy};
ghost use Rattle.ch_flows.specs.Trees.{AreBranches};

use crate::gathering::{Branch, hand_on};
use crate::meeting::{Found, meetings, stops_of};
use crate::pairs::{FlowError, LegFlows, Way, finish};
use crate::plan::{Layout, Plan};
use crate::sums::{Sums, add_found};
use crate::tally::no_flows;
use crate::tree::{Mark, Root, Tree};
use ch_graph::Rows;
use ch_hierarchy::{Hierarchy, Side};
use ch_query::Scratch;
use std::alloc::{AllocError, Global};

/// The trees of the targets of a table.
#[derive(Drop)]
pub(crate) struct Columns {
    trees: Vec<Tree>,
    /// The branches of all trees.
    branches: Vec<Branch>,
    /// For each node the trees that keep an entry there, each with what is known of it.
    stops: Rows<(usize, Mark)>,
}

/// The tree of a row's source, and its branches.
#[derive(Drop)]
pub(crate) struct Row {
    tree: Tree,
    branches: Vec<Branch>,
}

/// Returns for each leg of the plan that is an arc the sum of the demands of the cells of a table whose routes take it, as
/// often as they take it. The demands are those of each source to all targets, row after row. A cell without a walk adds
/// nothing.
///
/// # Errors
/// `TooLarge` if some arc has more than [`MOST_FLOW`](crate::MOST_FLOW), and `NoMemory` if there is no memory.
pub fn table_flows(
    alloc: Global,
    hierarchy: &Hierarchy,
    plan: &Plan,
    scratch: &mut Scratch,
    sources: &[u32],
    targets: &[u32],
    demands: &[u64],
) -> Result<LegFlows, FlowError>
    requires kept { IsKeptForSome hierarchy.now }
    requires plan { IsPlanOf hierarchy.now plan.now }
    requires scratch { scratch.old ≡ nodes_of hierarchy.now }
    requires cells { length demands.now ≡ length sources.now * length targets.now }
    requires sources { All (λ node. node < nodes_of hierarchy.now) sources.now }
    requires targets { All (λ node. node < nodes_of hierarchy.now) targets.now }
    ensures long { IfOk result (λ flows. length flows.legs.items ≡ length plan.now.parts.items) }
    ensures flows { IfOk result (λ flows. AreFlowsOf hierarchy.now plan.now (cell_sources sources.now targets.now) (cell_targets sources.now targets.now) demands.now flows.legs.items flows.missed) }
    ensures refused { IfErr result (IsRefusal hierarchy.now plan.now (cell_sources sources.now targets.now) (cell_targets sources.now targets.now) demands.now) }
    ensures scratch { scratch.new ≡ scratch.old }
{
    let Ok(columns) = columns_of(alloc, hierarchy, &plan.layout, scratch, targets) else {
        return Err(FlowError::NoMemory);
    };
    let Ok(mut sums) = no_sums(alloc, plan, &columns) else {
        return Err(FlowError::NoMemory);
    };
    match fill_table(
        alloc, hierarchy, plan, scratch, sources, &columns, demands, &mut sums,
    ) {
        Ok(missed) => Ok(LegFlows {
            legs: sums.into_legs(),
            missed,
        }),
        Err(error) => Err(error),
    }
}

/// Returns the sums before any row.
fn no_sums(alloc: Global, plan: &Plan, columns: &Columns) -> Result<Sums, AllocError>
    ensures legs { IfOk result (λ sums. length sums.legs.items ≡ length plan.now.parts.items) }
    ensures columns { IfOk result (λ sums. length sums.columns.items ≡ length columns.now.branches.items) }
    ensures nothing { IfOk result (λ sums. IsNothing sums.row.items) }
    ensures none { IfOk result (λ sums. (H : LevelsAndLegs) → IsTallyBy H plan.now.layout.links.items [] (summed columns.now.branches.items sums)) }
{
    let legs = no_flows(alloc, plan.parts.len())?;
    let held = vec![in alloc; 0; columns.branches.len()]?;
    Ok(Sums {
        legs,
        row: Vec::new(alloc),
        columns: held,
    })
}

/// Finds the trees of targets, and where each node is in them.
fn columns_of(
    alloc: Global,
    hierarchy: &Hierarchy,
    layout: &Layout,
    scratch: &mut Scratch,
    targets: &[u32],
) -> Result<Columns, AllocError>
    requires laid { IsLaid hierarchy.now layout.now.starts.items layout.now.links.items (2 * nodes_of hierarchy.now) }
    requires scratch { scratch.old ≡ nodes_of hierarchy.now }
    requires targets { All (λ node. node < nodes_of hierarchy.now) targets.now }
    ensures trees { IfOk result (λ columns. AreTargetTrees targets.now (length targets.now) columns.trees.items) }
    ensures columns { IfOk result (λ columns. IsColumns hierarchy.now layout.now.links.items columns) }
    ensures scratch { scratch.new ≡ scratch.old }
{
    let mut branches = Vec::new(alloc);
    let trees = target_trees(alloc, hierarchy, layout, scratch, targets, &mut branches)?;
    let stops = stops_of(alloc, hierarchy.nodes(), &trees)?;
    Ok(Columns {
        trees,
        branches,
        stops,
    })
}

/// Finds the trees of targets, and appends their branches to none.
fn target_trees(
    alloc: Global,
    hierarchy: &Hierarchy,
    layout: &Layout,
    scratch: &mut Scratch,
    targets: &[u32],
    branches: &mut Vec<Branch>,
) -> Result<Vec<Tree>, AllocError>
    requires laid { IsLaid hierarchy.now layout.now.starts.items layout.now.links.items (2 * nodes_of hierarchy.now) }
    requires scratch { scratch.old ≡ nodes_of hierarchy.now }
    requires targets { All (λ node. node < nodes_of hierarchy.now) targets.now }
    requires branches { branches.old.items ≡ [] }
    ensures trees { IfOk result (λ trees. AreTargetTrees targets.now (length targets.now) trees.items) }
    ensures nodes { IfOk result (λ trees. AreTreesOfNodes hierarchy.now branches.new.items trees.items) }
    ensures branches { OnOk result (AreBranches DownSide hierarchy.now layout.now.links.items branches.new.items) }
    ensures scratch { scratch.new ≡ scratch.old }
{
    let mut trees = Vec::new(alloc);
    let mut places = vec![in alloc; 0; hierarchy.nodes() as usize]?;
    for i in 0..targets.len() {
        let root = Root {
            side: Side::Down,
            source: targets[i],
        };
        let tree = Tree::grow(
            alloc,
            hierarchy,
            layout,
            scratch,
            places.as_mut_slice(),
            root,
            branches,
        )?;
        trees.push(tree)?;
    }
    Ok(trees)
}

/// Finds the tree of a row's source.
fn row_of(
    alloc: Global,
    hierarchy: &Hierarchy,
    layout: &Layout,
    scratch: &mut Scratch,
    places: &mut [usize],
    source: u32,
) -> Result<Row, AllocError>
    requires laid { IsLaid hierarchy.now layout.now.starts.items layout.now.links.items (2 * nodes_of hierarchy.now) }
    requires scratch { scratch.old ≡ nodes_of hierarchy.now }
    requires places { length places.old ≡ nodes_of hierarchy.now }
    requires source { source < nodes_of hierarchy.now }
    ensures row { IfOk result (λ row. IsRowTree hierarchy.now layout.now.links.items row) }
    ensures source { IfOk result (λ row. row.tree.source ≡ source) }
    ensures scratch { scratch.new ≡ scratch.old }
    ensures places { length places.new ≡ length places.old }
{
    let mut branches = Vec::new(alloc);
    let root = Root {
        side: Side::Up,
        source,
    };
    let tree = Tree::grow(
        alloc,
        hierarchy,
        layout,
        scratch,
        places,
        root,
        &mut branches,
    )?;
    Ok(Row { tree, branches })
}

/// Writes the flows of all rows over none, and returns the number of cells without a walk.
fn fill_table(
    alloc: Global,
    hierarchy: &Hierarchy,
    plan: &Plan,
    scratch: &mut Scratch,
    sources: &[u32],
    columns: &Columns,
    demands: &[u64],
    sums: &mut Sums,
) -> Result<usize, FlowError>
    requires kept { IsKeptForSome hierarchy.now }
    requires plan { IsPlanOf hierarchy.now plan.now }
    requires scratch { scratch.old ≡ nodes_of hierarchy.now }
    requires cells { length demands.now ≡ length sources.now * length columns.now.trees.items }
    requires sources { All (λ node. node < nodes_of hierarchy.now) sources.now }
    requires columns { IsColumns hierarchy.now plan.now.layout.links.items columns.now }
    requires long { length sums.old.legs.items ≡ length plan.now.parts.items }
    requires held { length sums.old.columns.items ≡ length columns.now.branches.items }
    requires nothing { IsNothing sums.old.row.items }
    requires none { IsTallyBy hierarchy.now plan.now.layout.links.items [] (summed columns.now.branches.items sums.old) }
    ensures flows { IfOk result (λ missed. (targets : List ℕ) → AreTargetTrees targets (length targets) columns.now.trees.items → AreFlowsOf hierarchy.now plan.now (cell_sources sources.now targets) (cell_targets sources.now targets) demands.now sums.new.legs.items missed) }
    ensures refused { IfErr result (λ error. (targets : List ℕ) → AreTargetTrees targets (length targets) columns.now.trees.items → IsRefusal hierarchy.now plan.now (cell_sources sources.now targets) (cell_targets sources.now targets) demands.now error) }
    ensures scratch { scratch.new ≡ scratch.old }
    ensures long { OnOk result (length sums.new.legs.items ≡ length sums.old.legs.items) }
{
    let width = columns.trees.len();
    let Ok(mut places) = vec![in alloc; 0; hierarchy.nodes() as usize] else {
        return Err(FlowError::NoMemory);
    };
    let mut missed = 0;
    let mut first = 0;
    for i in 0..sources.len() {
        let Ok(row) = row_of(
            alloc,
            hierarchy,
            &plan.layout,
            scratch,
            places.as_mut_slice(),
            sources[i],
        ) else {
            return Err(FlowError::NoMemory);
        };
        let cells = &demands[first..first + width];
        match add_row(alloc, hierarchy, plan, scratch, &row, columns, cells, sums) {
            Ok(more) => {
                missed += more;
                first += width;
            }
            Err(error) => return Err(error),
        }
    }
    finish_table(plan, columns, missed, sums)
}

/// Hands on what is held for columns, and hands the flows of counted cells down to the arcs. Returns the number of cells
/// without a walk again.
fn finish_table(
    plan: &Plan,
    columns: &Columns,
    missed: usize,
    sums: &mut Sums,
) -> Result<usize, FlowError>
    requires parts { AreParts plan.now.parts.items }
    requires long { length sums.old.legs.items ≡ length plan.now.parts.items }
    requires held { length sums.old.columns.items ≡ length columns.now.branches.items }
    requires steps { AreStepsBack (length sums.old.legs.items) columns.now.branches.items }
    ensures flows { IfOk result (λ all. (H : LevelsAndLegs) (sources targets demands : List ℕ) → IsPlanOf H plan.now → AreCountedBy H plan.now.layout.links.items sources targets demands (length sources) (summed columns.now.branches.items sums.old) missed → AreFlowsOf H plan.now sources targets demands sums.new.legs.items all) }
    ensures refused { IfErr result (λ error. (H : LevelsAndLegs) (sources targets demands : List ℕ) → IsPlanOf H plan.now → AreCountedBy H plan.now.layout.links.items sources targets demands (length sources) (summed columns.now.branches.items sums.old) missed → IsRefusal H plan.now sources targets demands error) }
    ensures long { OnOk result (length sums.new.legs.items ≡ length sums.old.legs.items) }
{
    let Ok(()) = hand_on(
        &columns.branches,
        sums.columns.as_mut_slice(),
        sums.legs.as_mut_slice(),
    ) else {
        return Err(FlowError::TooLarge);
    };
    finish(plan, missed, sums.legs.as_mut_slice())
}

/// Adds the demands of a row, and returns the number of its cells without a walk.
fn add_row(
    alloc: Global,
    hierarchy: &Hierarchy,
    plan: &Plan,
    scratch: &mut Scratch,
    row: &Row,
    columns: &Columns,
    cells: &[u64],
    sums: &mut Sums,
) -> Result<usize, FlowError>
    requires kept { IsKeptForSome hierarchy.now }
    requires plan { IsPlanOf hierarchy.now plan.now }
    requires scratch { scratch.old ≡ nodes_of hierarchy.now }
    requires width { length cells.now ≡ length columns.now.trees.items }
    requires row { IsRowTree hierarchy.now plan.now.layout.links.items row.now }
    requires columns { IsColumns hierarchy.now plan.now.layout.links.items columns.now }
    requires long { length sums.old.legs.items ≡ length plan.now.parts.items }
    requires held { length sums.old.columns.items ≡ length columns.now.branches.items }
    requires nothing { IsNothing sums.old.row.items }
    ensures counted { IfOk result (λ more. (sources targets demands : List ℕ) (first missed : ℕ) → IsRowAt sources targets demands first row.now.tree.source columns.now.trees.items cells.now → AreCountedBy hierarchy.now plan.now.layout.links.items sources targets demands first (summed columns.now.branches.items sums.old) missed → AreCountedBy hierarchy.now plan.now.layout.links.items sources targets demands (first + length cells.now) (summed columns.now.branches.items sums.new) (missed + more)) }
    ensures few { IfOk result (λ more. more ≤ length cells.now) }
    ensures refused { IfErr result (λ error. (sources targets demands : List ℕ) (first missed : ℕ) → first + length cells.now ≤ length sources → IsRowAt sources targets demands first row.now.tree.source columns.now.trees.items cells.now → AreCountedBy hierarchy.now plan.now.layout.links.items sources targets demands first (summed columns.now.branches.items sums.old) missed → IsRefusal hierarchy.now plan.now sources targets demands error) }
    ensures scratch { scratch.new ≡ scratch.old }
    ensures long { OnOk result (length sums.new.legs.items ≡ length sums.old.legs.items) }
    ensures held { OnOk result (length sums.new.columns.items ≡ length sums.old.columns.items) }
    ensures nothing { OnOk result (IsNothing sums.new.row.items) }
{
    let Ok(()) = sums.row.resize(row.branches.len(), 0) else {
        return Err(FlowError::NoMemory);
    };
    let missed = match add_cells(alloc, hierarchy, plan, scratch, row, columns, cells, sums) {
        Ok(missed) => missed,
        Err(error) => return Err(error),
    };
    let Ok(()) = hand_on(
        &row.branches,
        sums.row.as_mut_slice(),
        sums.legs.as_mut_slice(),
    ) else {
        return Err(FlowError::TooLarge);
    };
    Ok(missed)
}

/// Adds the demands of a row's cells to legs, or holds them at branches. Returns the number of cells without a walk.
fn add_cells(
    alloc: Global,
    hierarchy: &Hierarchy,
    plan: &Plan,
    scratch: &mut Scratch,
    row: &Row,
    columns: &Columns,
    cells: &[u64],
    sums: &mut Sums,
) -> Result<usize, FlowError>
    requires kept { IsKeptForSome hierarchy.now }
    requires plan { IsPlanOf hierarchy.now plan.now }
    requires scratch { scratch.old ≡ nodes_of hierarchy.now }
    requires width { length cells.now ≡ length columns.now.trees.items }
    requires row { IsRowTree hierarchy.now plan.now.layout.links.items row.now }
    requires columns { IsColumns hierarchy.now plan.now.layout.links.items columns.now }
    requires long { length sums.old.legs.items ≡ length plan.now.parts.items }
    requires sums { AreSums row.now.branches.items columns.now.branches.items sums.old }
    ensures counted { IfOk result (λ more. (sources targets demands : List ℕ) (first missed : ℕ) → IsRowAt sources targets demands first row.now.tree.source columns.now.trees.items cells.now → AreCountedBy hierarchy.now plan.now.layout.links.items sources targets demands first (summed_with row.now.branches.items columns.now.branches.items sums.old) missed → AreCountedBy hierarchy.now plan.now.layout.links.items sources targets demands (first + length cells.now) (summed_with row.now.branches.items columns.now.branches.items sums.new) (missed + more)) }
    ensures few { IfOk result (λ more. more ≤ length cells.now) }
    ensures refused { IfErr result (λ error. (sources targets demands : List ℕ) (first missed : ℕ) → first + length cells.now ≤ length sources → IsRowAt sources targets demands first row.now.tree.source columns.now.trees.items cells.now → AreCountedBy hierarchy.now plan.now.layout.links.items sources targets demands first (summed_with row.now.branches.items columns.now.branches.items sums.old) missed → IsRefusal hierarchy.now plan.now sources targets demands error) }
    ensures scratch { scratch.new ≡ scratch.old }
    ensures long { OnOk result (length sums.new.legs.items ≡ length sums.old.legs.items) }
    ensures sums { OnOk result (AreSums row.now.branches.items columns.now.branches.items sums.new) }
{
    let trees = &columns.trees;
    let Ok(meetings) = meetings(alloc, &row.tree.kept, &columns.stops, trees.len()) else {
        return Err(FlowError::NoMemory);
    };
    let mut missed = 0;
    let mut way = Way {
        legs: Vec::new(alloc),
        places: Vec::new(alloc),
    };
    for c in 0..cells.len() {
        let Ok(found) = way.find_in(
            alloc,
            hierarchy,
            plan,
            scratch,
            &row.tree,
            &trees[c],
            meetings[c],
        ) else {
            return Err(FlowError::NoMemory);
        };
        match count(&way, found, row, columns, cells[c], sums) {
            Ok(more) => missed += more,
            Err(error) => return Err(error),
        }
    }
    Ok(missed)
}

/// Adds the demand of a cell to its way. Returns 1 if there is no way, and otherwise 0.
fn count(
    way: &Way,
    found: Found,
    row: &Row,
    columns: &Columns,
    demand: u64,
    sums: &mut Sums,
) -> Result<usize, FlowError>
    requires sums { AreSums row.now.branches.items columns.now.branches.items sums.old }
    requires within { AreWithin row.now.branches.items columns.now.branches.items found }
    requires listed { All (λ place. place < length sums.old.legs.items) way.now.places.items }
    ensures counted { IfOk result (λ more. (H : LevelsAndLegs) (plan : AnyPlan) (sources targets demands : List ℕ) (n missed : ℕ) → IsPlanOf H plan → IsPairAt H plan.layout.links.items sources targets demands n (legs_of row.now.branches.items columns.now.branches.items way.now.places.items found) (is_way found) demand → AreCountedBy H plan.layout.links.items sources targets demands n (summed_with row.now.branches.items columns.now.branches.items sums.old) missed → AreCountedBy H plan.layout.links.items sources targets demands (n + 1) (summed_with row.now.branches.items columns.now.branches.items sums.new) (missed + more)) }
    ensures few { IfOk result (λ more. more ≤ 1) }
    ensures refused { IfErr result (λ error. (H : LevelsAndLegs) (plan : AnyPlan) (sources targets demands : List ℕ) (n missed : ℕ) → IsPlanOf H plan → length sums.old.legs.items ≡ length plan.parts.items → n < length sources → IsPairAt H plan.layout.links.items sources targets demands n (legs_of row.now.branches.items columns.now.branches.items way.now.places.items found) (is_way found) demand → AreCountedBy H plan.layout.links.items sources targets demands n (summed_with row.now.branches.items columns.now.branches.items sums.old) missed → IsRefusal H plan sources targets demands error) }
    ensures legs { length sums.new.legs.items ≡ length sums.old.legs.items }
    ensures sums { AreSums row.now.branches.items columns.now.branches.items sums.new }
{
    let Ok(()) = add_found(
        &way.places,
        found,
        &row.branches,
        &columns.branches,
        demand,
        sums,
    ) else {
        return Err(FlowError::TooLarge);
    };
    Ok(if found.is_way() { 0 } else { 1 })
}
