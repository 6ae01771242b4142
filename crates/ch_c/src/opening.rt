//! The calls that open a handle, and the one that closes it.
ghost use Rattle.std.specs.Prelude.{◌≡◌, MatchOption, None};
ghost use Rattle.ch_c.specs.Calls.{IsOpening, IsOpeningLike, IsOpeningOfArrays, IsOpeningQuickly, IsSharing};

use crate::answers::{opened, opened_like, opened_of_arrays, opened_quickly, shared};
use crate::faults::{Fault, tell};
use crate::handle::Handle;
use crate::status::{CLOSED, IS_OPEN, NO_MEMORY, OK};
use std::alloc::Global;

/// Opens a closed handle with a graph and its saved hierarchy. The hierarchy is checked against the graph. If
/// `saved` is empty, the hierarchy is built by depth.
#[unsafe(no_mangle)]
pub extern "C" fn chtab_open(
    alloc: Global,
    handle: &mut Handle,
    graph: &[u8],
    saved: &[u8],
    fault: &mut Fault,
) -> u32
    ensures { IsOpening graph.now saved.now handle.old.engine.network handle.new.engine.network fault.old fault.new result }
{
    if handle.is_open() {
        return IS_OPEN;
    }
    match opened(alloc, graph, saved) {
        Ok(engine) => {
            handle.put(engine);
            OK
        }
        Err(error) => tell(error, fault),
    }
}

/// Opens a closed handle with the graph of `nodes` nodes where arc k leads from `tails[k]` to `heads[k]` and weighs
/// `weights[k]`. If `saved` is empty, the hierarchy is built as by [`chtab_open_quick`].
#[unsafe(no_mangle)]
pub extern "C" fn chtab_open_arrays(
    alloc: Global,
    handle: &mut Handle,
    nodes: u32,
    tails: &[u32],
    heads: &[u32],
    weights: &[u64],
    saved: &[u8],
    fault: &mut Fault,
) -> u32
    ensures { IsOpeningOfArrays nodes tails.now heads.now weights.now saved.now handle.old.engine.network handle.new.engine.network fault.old fault.new result }
{
    let is_open = handle.is_open();
    if is_open {
        return IS_OPEN;
    }
    match opened_of_arrays(alloc, nodes, tails, heads, weights, saved) {
        Ok(engine) => {
            handle.put(engine);
            OK
        }
        Err(error) => tell(error, fault),
    }
}

/// Opens a closed handle with a graph alone. The hierarchy is built in an order that takes little time to find.
#[unsafe(no_mangle)]
pub extern "C" fn chtab_open_quick(
    alloc: Global,
    handle: &mut Handle,
    graph: &[u8],
    fault: &mut Fault,
) -> u32
    ensures { IsOpeningQuickly graph.now handle.old.engine.network handle.new.engine.network fault.old fault.new result }
{
    let is_open = handle.is_open();
    if is_open {
        return IS_OPEN;
    }
    match opened_quickly(alloc, graph) {
        Ok(engine) => {
            handle.put(engine);
            OK
        }
        Err(error) => tell(error, fault),
    }
}

/// Opens a closed handle with a graph, such as the roads of an open handle with new weights. The hierarchy is built in the
/// order of that handle's hierarchy, and the last `fresh` per cent of the nodes are ordered afresh, by depth.
#[unsafe(no_mangle)]
pub extern "C" fn chtab_open_like(
    alloc: Global,
    second: &mut Handle,
    graph: &[u8],
    other: &mut Handle,
    fresh: u32,
    fault: &mut Fault,
) -> u32
    ensures opening { IsOpeningLike graph.now fresh other.old.engine.network second.old.engine.network second.new.engine.network fault.old fault.new result }
    ensures same { other.new.engine.network ≡ other.old.engine.network }
{
    if second.is_open() {
        return IS_OPEN;
    }
    let Some(engine) = other.take(alloc) else {
        return CLOSED;
    };
    let like = opened_like(alloc, graph, &engine, fresh);
    other.put(engine);
    match like {
        Ok(engine) => {
            second.put(engine);
            OK
        }
        Err(error) => tell(error, fault),
    }
}

/// Opens a closed handle in the network of an open one.
#[unsafe(no_mangle)]
pub extern "C" fn chtab_share(alloc: Global, handle: &mut Handle, other: &mut Handle) -> u32
    ensures sharing { IsSharing handle.old.engine.network other.old.engine.network other.new.engine.network result }
    ensures same { handle.new.engine.network ≡ handle.old.engine.network }
{
    if other.is_open() {
        return IS_OPEN;
    }
    let Some(engine) = handle.take(alloc) else {
        return CLOSED;
    };
    let second = shared(alloc, &engine);
    handle.put(engine);
    match second {
        Some(second) => {
            other.put(second);
            OK
        }
        None => NO_MEMORY,
    }
}

/// Closes an open handle, and gives its memory back.
#[unsafe(no_mangle)]
pub extern "C" fn chtab_close(alloc: Global, handle: &mut Handle) -> u32
    ensures status { MatchOption handle.old.engine.network (result ≡ CLOSED) (λ _. result ≡ OK) }
    ensures closed { handle.new.engine.network ≡ None }
{
    match handle.take(alloc) {
        Some(engine) => {
            drop(engine);
            OK
        }
        None => CLOSED,
    }
}
