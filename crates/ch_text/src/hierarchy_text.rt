//! The text of saved hierarchies, with nodes counted from 1. It has a line `p ch N L`, then a line `o V`
//! for each node, and then a line `l U V W A M` for each leg. The nodes are in order of level. The legs
//! are in the same order of nodes, and each node has first its legs to higher nodes.
ghost use Rattle.std.specs.Prelude.{◌≡◌, ◌≤◌, ◌<◌, ◌+◌, ◌++◌, length, flat_map, map, All, IfOk, OnOk, codes, decimal};
ghost use Rattle.ch_graph.specs.declared.limits.TheConstants.{MOST_NODES};
ghost use Rattle.ch_hierarchy.specs.Hierarchy.{nodes_of, IsLevelled};
ghost use Rattle.ch_hierarchy.specs.Written.{IsByLevel, leg_down, leg_up, legs_at};
ghost use Rattle.ch_text.specs.declared.short_text.TheConstants.{ROOM};
ghost use Rattle.ch_text.specs.SaveText.{IsHierarchyText, leg_text, middle_text, order_text};

use crate::short_text::ShortText;
use crate::text::push_all;
use ch_hierarchy::{Hierarchy, Leg};
use std::alloc::{AllocError, Global};

/// Returns the text of a hierarchy.
///
/// # Errors
/// `AllocError` if there is no memory for it.
pub fn save_text(alloc: Global, hierarchy: &Hierarchy) -> Result<Vec<u8>, AllocError>
    ensures { IfOk result (λ text. IsHierarchyText hierarchy.now text.items) }
{
    let order = nodes_by_level(alloc, hierarchy)?;
    let legs = count_legs(hierarchy, &order);
    let mut text = heading(alloc, order.len() as u64, legs)?;
    push_order(&mut text, &order)?;
    push_rows(&mut text, hierarchy, &order)?;
    Ok(text)
}

/// Returns the nodes in order of level.
fn nodes_by_level(alloc: Global, hierarchy: &Hierarchy) -> Result<Vec<u32>, AllocError>
    ensures order { IfOk result (λ order. IsByLevel hierarchy.now order.items) }
    ensures levelled { IsLevelled hierarchy.now }
{
    let nodes = hierarchy.nodes();
    let mut order = vec![in alloc; 0; nodes as usize]?;
    for node in 0..nodes {
        order[hierarchy.level(node) as usize - 1] = node;
    }
    Ok(order)
}

/// Returns how many legs these nodes have.
fn count_legs(hierarchy: &Hierarchy, nodes: &[u32]) -> u64
    requires count { length nodes.now ≤ MOST_NODES }
    requires within { All (λ node. node < nodes_of hierarchy.now) nodes.now }
    ensures { result ≡ length (flat_map (legs_at hierarchy.now) nodes.now) }
{
    let mut count = 0;
    for node in nodes {
        count += hierarchy.up(*node).len() as u64 + hierarchy.down(*node).len() as u64;
    }
    count
}

/// Returns the problem line.
fn heading(alloc: Global, nodes: u64, legs: u64) -> Result<Vec<u8>, AllocError>
    ensures { IfOk result (λ text. text.items ≡ codes "p ch " ++ decimal nodes ++ codes " " ++ decimal legs ++ codes "\n") }
{
    let mut numbers = ShortText::new();
    numbers.prepend(b'\n');
    numbers.prepend_number(legs);
    numbers.prepend(b' ');
    numbers.prepend_number(nodes);
    let mut text = Vec::new(alloc);
    push_all(&mut text, b"p ch ")?;
    push_all(&mut text, numbers.as_slice())?;
    Ok(text)
}

/// Adds a line for each node of the order.
fn push_order(text: &mut Vec<u8>, order: &[u32]) -> Result<(), AllocError>
    ensures { OnOk result (text.new.items ≡ text.old.items ++ flat_map order_text order.now) }
{
    let mut line = ShortText::new();
    for node in order {
        line.clear();
        line.prepend(b'\n');
        line.prepend_node(*node);
        line.prepend(b' ');
        line.prepend(b'o');
        push_all(text, line.as_slice())?;
    }
    Ok(())
}

/// Adds the legs of these nodes.
fn push_rows(text: &mut Vec<u8>, hierarchy: &Hierarchy, nodes: &[u32]) -> Result<(), AllocError>
    requires { All (λ node. node < nodes_of hierarchy.now) nodes.now }
    ensures { OnOk result (text.new.items ≡ text.old.items ++ flat_map leg_text (flat_map (legs_at hierarchy.now) nodes.now)) }
{
    for node in nodes {
        push_legs(text, hierarchy, *node)?;
    }
    Ok(())
}

/// Adds the legs of a node, those to higher nodes first.
fn push_legs(text: &mut Vec<u8>, hierarchy: &Hierarchy, node: u32) -> Result<(), AllocError>
    requires { node < nodes_of hierarchy.now }
    ensures { OnOk result (text.new.items ≡ text.old.items ++ flat_map leg_text (legs_at hierarchy.now node)) }
{
    push_ups(text, node, hierarchy.up(node))?;
    push_downs(text, node, hierarchy.down(node))
}

/// Adds legs from a node to higher ones.
fn push_ups(text: &mut Vec<u8>, node: u32, legs: &[Leg]) -> Result<(), AllocError>
    ensures { OnOk result (text.new.items ≡ text.old.items ++ flat_map leg_text (map (leg_up node) legs.now)) }
{
    let mut line = ShortText::new();
    for leg in legs {
        write_leg(&mut line, node, leg.node, leg);
        push_all(text, line.as_slice())?;
    }
    Ok(())
}

/// Adds legs to a node from higher ones.
fn push_downs(text: &mut Vec<u8>, node: u32, legs: &[Leg]) -> Result<(), AllocError>
    ensures { OnOk result (text.new.items ≡ text.old.items ++ flat_map leg_text (map (leg_down node) legs.now)) }
{
    let mut line = ShortText::new();
    for leg in legs {
        write_leg(&mut line, leg.node, node, leg);
        push_all(text, line.as_slice())?;
    }
    Ok(())
}

/// Writes the line of a leg from one node to another, in place of the earlier line.
fn write_leg(line: &mut ShortText, from: u32, to: u32, leg: &Leg)
    ensures { line.new ≡ leg_text (record { from = from; to = to; cost = leg.now.cost; middle = leg.now.middle }) }
{
    line.clear();
    line.prepend(b'\n');
    prepend_middle(line, leg.middle);
    line.prepend(b' ');
    line.prepend_number(leg.cost.arcs);
    line.prepend(b' ');
    line.prepend_number(leg.cost.weight);
    line.prepend_ends(b'l', from, to);
}

/// Puts the middle of a leg in front, or 0 if it has none.
fn prepend_middle(line: &mut ShortText, middle: Option<u32>)
    requires { length line.old + 20 ≤ ROOM }
    ensures text { line.new ≡ middle_text middle ++ line.old }
    ensures length { length line.new ≤ length line.old + 20 }
{
    match middle {
        Some(node) => line.prepend_node(node),
        None => line.prepend(b'0'),
    }
}
