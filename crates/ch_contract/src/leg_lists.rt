//! Lists of legs, one for each node.
ghost use Rattle.std.specs.Prelude.{◌≡◌, ℕ, ◌+◌, ◌<◌, ◌≤◌, ◌==◌, IsTrue, false, if◌then◌else◌, [], length, All, AllPairs, IfOk, OnOk, Some, None, option_map, find, replicate, slice_index_or, slice_set};
ghost use Rattle.ch_graph.specs.declared.limits.TheConstants.{MOST_NODES};
ghost use Rattle.ch_hierarchy.specs.declared.leg.Leg.{Leg};
ghost use Rattle.ch_contract.specs.Contraction.{IsPairBefore};
ghost use Rattle.ch_hierarchy.specs.Rows.{row, IsRow};
ghost use Rattle.ch_contract.specs.LegRows.{row_leg, label_of};
ghost use Rattle.ch_contract.specs.LegLists.{AreRows, HaveAll, IsEdited, IsPut, IsReplaced, IsSet, AreOverridden, end_of, legs_at, legs_from, legs_into, lighter_arc, other_of};

use crate::shortcut::Shortcut;
use ch_graph::Cost;
use ch_hierarchy::Leg;
use ch_lists::Lists;
use std::alloc::{AllocError, Global};
use std::marker::Model;

/// A list of legs for each node, and a second list for each node, with its legs when it was contracted. All
/// legs are in one array. When a node is contracted, its legs stay where they are.
#[derive(Drop)]
pub(crate) struct LegLists {
    nodes: u32,
    /// The list of each node, and then for each node the list that was set aside.
    lists: Lists<Leg>,
}

impl Model for LegLists {
    ghost use Rattle.std.specs.Prelude.{◌≡◌, ◌+◌, ◌≤◌, length, take, drop};
    ghost use Rattle.ch_graph.specs.declared.limits.TheConstants.{MOST_NODES};
    ghost use Rattle.ch_contract.specs.LegLists.{NodeLegs};

    ghost Value = { NodeLegs };

    ghost view = { λ s. record { rows = take s.nodes s.lists; aside = drop s.nodes s.lists } };

    ghost invariant = { λ s. (length s.lists ≡ s.nodes + s.nodes) × (s.nodes ≤ MOST_NODES) };
}

impl LegLists {
    /// Makes empty lists for `nodes` nodes. `rooms` has a capacity for the list of each node, and then one for
    /// the list of each node that is set aside. A list that outgrows its capacity has to move.
    pub(crate) fn new(alloc: Global, nodes: u32, rooms: &[u32]) -> Result<LegLists, AllocError>
        requires nodes { nodes ≤ MOST_NODES }
        requires rooms { length rooms.now ≡ nodes + nodes }
        ensures { IfOk result (λ lists. lists ≡ record { rows = replicate nodes []; aside = replicate nodes [] }) }
    {
        let lists = Lists::with_rooms(alloc, rooms, Leg::default())?;
        Ok(LegLists { nodes, lists })
    }

    /// Returns the legs of a node.
    #[inline]
    pub(crate) fn at(&self, node: u32) -> &[Leg]
        requires { node < length self.now.rows }
        ensures { result.now ≡ row self.now.rows node }
    {
        self.lists.at(node)
    }

    /// Returns the legs that were set aside for a node.
    pub(crate) fn aside(&self, node: u32) -> &[Leg]
        requires { node < length self.now.rows }
        ensures { result.now ≡ row self.now.aside node }
    {
        self.lists.at(self.nodes + node)
    }

    /// Takes the leg of `node` at `other` out, if there is one.
    pub(crate) fn take(&mut self, node: u32, other: u32)
        requires node { node < length self.old.rows }
        requires rows { AreRows self.old.rows }
        ensures legs { IsSet node other None self.old.rows self.new.rows }
        ensures aside { self.new.aside ≡ self.old.aside }
    {
        take_leg(&mut self.lists, node, other);
    }

    /// Puts the leg into the list of `node`. It replaces the leg with the same other node, if there is one.
    pub(crate) fn put(&mut self, node: u32, leg: Leg) -> Result<(), AllocError>
        requires node { node < length self.old.rows }
        requires rows { AreRows self.old.rows }
        ensures legs { OnOk result (IsSet node leg.node (Some (label_of leg)) self.old.rows self.new.rows) }
        ensures aside { OnOk result (self.new.aside ≡ self.old.aside) }
    {
        put_leg(&mut self.lists, node, leg)?;
        Ok(())
    }

    /// Puts an arc in as the leg of `node` at `other`. If there is a leg that weighs less, its weight is kept.
    pub(crate) fn put_arc(&mut self, node: u32, other: u32, weight: u64) -> Result<(), AllocError>
        requires node { node < length self.old.rows }
        requires rows { AreRows self.old.rows }
        ensures legs { OnOk result (IsSet node other (Some (lighter_arc weight (row_leg (row self.old.rows node) other))) self.old.rows self.new.rows) }
        ensures aside { OnOk result (self.new.aside ≡ self.old.aside) }
    {
        let weight = match weight_at(self.at(node), other) {
            Some(least) => weight.min(least),
            None => weight,
        };
        let leg = Leg {
            node: other,
            cost: Cost { weight, arcs: 1 },
            middle: None,
        };
        self.put(node, leg)?;
        Ok(())
    }

    /// Takes the legs at `v` out of the lists of these nodes. These have to be all nodes with a leg at `v`.
    pub(crate) fn take_from(&mut self, v: u32, others: &[Leg])
        requires rows { AreRows self.old.rows }
        requires nodes { All (λ l. l.node < length self.old.rows) others.now }
        requires covers { HaveAll self.old.rows v others.now }
        ensures size { length self.new.rows ≡ length self.old.rows }
        ensures rows { AreRows self.new.rows }
        ensures legs { (x y : ℕ) → row_leg (row self.new.rows x) y ≡ (if v == y then None else row_leg (row self.old.rows x) y) }
        ensures aside { self.new.aside ≡ self.old.aside }
    {
        for leg in others {
            self.take(leg.node, v);
        }
    }

    /// Sets the legs of a node aside. Its list is then empty.
    pub(crate) fn set_aside(&mut self, node: u32)
        requires { node < length self.old.rows }
        ensures rows { self.new.rows ≡ slice_set self.old.rows node [] }
        ensures aside { IsReplaced node (row self.old.rows node) self.old.aside self.new.aside }
    {
        self.lists.hand_over(node, self.nodes + node);
    }

    /// Puts the shortcuts of `v` into the lists of their nodes at this end.
    pub(crate) fn put_at(
        &mut self,
        end: End,
        v: u32,
        shortcuts: &[Shortcut],
    ) -> Result<(), AllocError>
        requires ends { All (λ s. end_of end s < length self.old.rows) shortcuts.now }
        requires rows { AreRows self.old.rows }
        requires ordered { AllPairs IsPairBefore shortcuts.now }
        ensures legs { OnOk result (AreOverridden (legs_at end) v shortcuts.now self.old.rows self.new.rows) }
        ensures aside { OnOk result (self.new.aside ≡ self.old.aside) }
    {
        for shortcut in shortcuts {
            let (node, other) = end.nodes_of(*shortcut);
            self.put(node, leg_of(other, *shortcut, v))?;
        }
        Ok(())
    }

    /// Returns the lists that were set aside, one for each node. They are moved together, and the rest of their
    /// array is given back.
    pub(crate) fn into_aside(self) -> Result<Lists<Leg>, AllocError>
        ensures { IfOk result (λ lists. lists ≡ self.aside) }
    {
        let mut aside = self.lists.skip(self.nodes);
        aside.pack()?;
        Ok(aside)
    }
}

/// The end of a leg in whose list it is. The lists of the legs from each node have them at their first nodes, and
/// the lists of the legs to each node at their second ones.
#[derive(Clone, Copy, Debug, PartialEq, Eq)]
pub(crate) enum End {
    First,
    Second,
}

impl End {
    /// Returns the node of a shortcut at this end, and then the one at the other end.
    fn nodes_of(self, shortcut: Shortcut) -> (u32, u32)
        ensures { (result.0 ≡ end_of self shortcut) × (result.1 ≡ other_of self shortcut) }
    {
        match self {
            End::First => (shortcut.from, shortcut.to),
            End::Second => (shortcut.to, shortcut.from),
        }
    }
}

/// Puts the shortcuts of `v` in on both sides. Each goes into the list of its first node and into the list of
/// its second node.
pub(crate) fn put_shortcuts(
    outs: &mut LegLists,
    ins: &mut LegLists,
    v: u32,
    shortcuts: &[Shortcut],
) -> Result<(), AllocError>
    requires from { All (λ s. s.from < length outs.old.rows) shortcuts.now }
    requires to { All (λ s. s.to < length ins.old.rows) shortcuts.now }
    requires out_rows { AreRows outs.old.rows }
    requires in_rows { AreRows ins.old.rows }
    requires ordered { AllPairs IsPairBefore shortcuts.now }
    ensures outs { OnOk result (AreOverridden legs_from v shortcuts.now outs.old.rows outs.new.rows) }
    ensures ins { OnOk result (AreOverridden legs_into v shortcuts.now ins.old.rows ins.new.rows) }
    ensures aside { OnOk result ((outs.new.aside ≡ outs.old.aside) × (ins.new.aside ≡ ins.old.aside)) }
{
    outs.put_at(End::First, v, shortcuts)?;
    ins.put_at(End::Second, v, shortcuts)?;
    Ok(())
}

/// Returns a shortcut of `v` as a leg in the list of one of its ends. `node` is its other end.
fn leg_of(node: u32, shortcut: Shortcut, v: u32) -> Leg
    ensures { result ≡ record { node = node; cost = shortcut.cost; middle = Some v } }
{
    Leg {
        node,
        cost: shortcut.cost,
        middle: Some(v),
    }
}

/// Returns the weight of the leg of the list at this node, or `None` if there is none.
fn weight_at(list: &[Leg], node: u32) -> Option<u64>
    ensures { result ≡ option_map (λ l. l.cost.weight) (find (λ l. l.node == node) list.now) }
{
    list.iter()
        .find(|leg| leg.node == node)
        .map(|leg| leg.cost.weight)
}

/// Returns the place of the first leg of the list whose node is at least `node`, or the length of the list if
/// there is none.
fn place_of(list: &[Leg], node: u32) -> usize
    requires { IsRow list.now }
    ensures bound { result ≤ length list.now }
    ensures before { (k : ℕ) (d : Leg) → k < result → (slice_index_or list.now k d).node < node }
    ensures after { (k : ℕ) (d : Leg) → result ≤ k → k < length list.now → node ≤ (slice_index_or list.now k d).node }
{
    list.partition_point(|leg| leg.node < node)
}

/// Takes the leg of a list at this node out, if there is one.
fn take_leg(lists: &mut Lists<Leg>, list: u32, node: u32)
    requires list { list < length lists.old }
    requires row { IsRow (row lists.old list) }
    ensures edited { IsEdited list lists.old lists.new }
    ensures row { IsRow (row lists.new list) }
    ensures legs { (x : ℕ) → row_leg (row lists.new list) x ≡ (if node == x then None else row_leg (row lists.old list) x) }
{
    let legs = lists.at(list);
    let place = place_of(legs, node);
    if place < legs.len() && legs[place].node == node {
        lists.remove(list, place);
    }
}

/// Writes the leg over the leg of a list at the same node, and returns whether there is one.
fn replace_leg(lists: &mut Lists<Leg>, list: u32, leg: Leg) -> bool
    requires list { list < length lists.old }
    requires row { IsRow (row lists.old list) }
    ensures replaced { IsTrue result → IsPut list leg lists.old lists.new }
    ensures free { result ≡ false → (lists.new ≡ lists.old) × (row_leg (row lists.old list) leg.node ≡ None) }
{
    let legs = lists.at(list);
    let place = place_of(legs, leg.node);
    if place < legs.len() && legs[place].node == leg.node {
        lists.set(list, place, leg);
        return true;
    }
    false
}

/// Puts the leg into a list that has none at its node.
fn insert_leg(lists: &mut Lists<Leg>, list: u32, leg: Leg) -> Result<(), AllocError>
    requires list { list < length lists.old }
    requires row { IsRow (row lists.old list) }
    requires free { row_leg (row lists.old list) leg.node ≡ None }
    ensures size { length lists.new ≡ length lists.old }
    ensures edited { OnOk result (IsEdited list lists.old lists.new) }
    ensures row { OnOk result (IsRow (row lists.new list)) }
    ensures legs { OnOk result ((x : ℕ) → row_leg (row lists.new list) x ≡ (if leg.node == x then Some (label_of leg) else row_leg (row lists.old list) x)) }
{
    let place = place_of(lists.at(list), leg.node);
    lists.insert(list, place, leg)?;
    Ok(())
}

/// Puts the leg into a list. It replaces the leg with the same other node, if there is one.
fn put_leg(lists: &mut Lists<Leg>, list: u32, leg: Leg) -> Result<(), AllocError>
    requires list { list < length lists.old }
    requires row { IsRow (row lists.old list) }
    ensures size { length lists.new ≡ length lists.old }
    ensures edited { OnOk result (IsEdited list lists.old lists.new) }
    ensures row { OnOk result (IsRow (row lists.new list)) }
    ensures legs { OnOk result ((x : ℕ) → row_leg (row lists.new list) x ≡ (if leg.node == x then Some (label_of leg) else row_leg (row lists.old list) x)) }
{
    if replace_leg(lists, list, leg) {
        return Ok(());
    }
    insert_leg(lists, list, leg)?;
    Ok(())
}
