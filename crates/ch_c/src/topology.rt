//! The handle of a topology that C holds, and the calls on it.
ghost use Rattle.std.specs.Prelude.{◌≡◌, ◌↔◌, IfErr, IfOk, IfSome, IsSome, MatchOption, None, Some};
ghost use Rattle.ch_engine.specs.Held.{KeepsNothing};
ghost use Rattle.ch_engine.specs.Topologies.{IsArraysTopologyError, IsOpenedWith, IsTopologyError, IsTopologyOfArrays, IsTopologyOpened, IsWeightsError};
ghost use Rattle.ch_c.specs.Topologies.{IsCustomizing, IsOrderWritten, IsTopologyOpening, IsTopologyOpeningOfArrays, IsTopologySharing, topology_fault, topology_status};
ghost use Rattle.ch_c.specs.declared.status.TheConstants.{OK};

use crate::erased_topology::ErasedTopology;
use crate::faults::{Fault, at, fault_of_arrays, fault_of_read, tell};
use crate::handle::Handle;
use crate::raw_box::RawBox;
use crate::status::{
    BAD_GRAPH, BAD_SAVED, CLOSED, IS_OPEN, LENGTHS, NO_MEMORY, OK, TRIANGLES, WRONG_SAVED,
};
use ch_engine::{Engine, OpenError, Topology, TopologyError};
use std::alloc::Global;
use std::mem;

/// The handle of a topology that C holds: 16 bytes, which are all 0 if it is closed.
#[repr(C)]
#[derive(Drop)]
pub struct TopologyHandle {
    is_open: u64,
    topology: ErasedTopology,
    ghost held: { IsSome topology.arcs ↔ (is_open ≡ 1) },
}

impl TopologyHandle {
    fn closed(alloc: Global) -> TopologyHandle
        ensures { result.topology.arcs ≡ None }
    {
        TopologyHandle {
            is_open: 0,
            topology: ErasedTopology::none(alloc),
        }
    }

    /// Puts a topology into a closed handle. An open one would lose its topology.
    fn put(&mut self, topology: Box<Topology, Global>)
        requires { self.old.topology.arcs ≡ None }
        ensures { self.new.topology.arcs ≡ Some topology.value }
    {
        *self = TopologyHandle {
            is_open: 1,
            topology: ErasedTopology::of(RawBox::of(topology)),
        };
    }

    /// Takes the topology out of an open handle, which is then closed. Returns `None` if the handle is closed already.
    fn take(&mut self, alloc: Global) -> Option<Box<Topology, Global>>
        ensures taken { MatchOption result (self.old.topology.arcs ≡ None) (λ topology. self.old.topology.arcs ≡ Some topology.value) }
        ensures closed { self.new.topology.arcs ≡ None }
    {
        let TopologyHandle { is_open, topology } = mem::replace(
            self,
            TopologyHandle::closed(alloc),
        );
        if is_open != 1 {
            return None;
        }
        Some(topology.into_box())
    }

    /// Puts a topology into a closed handle, or writes the fault of its error. Returns the status.
    fn put_or_tell(
        &mut self,
        opened: Result<Box<Topology, Global>, TopologyError>,
        fault: &mut Fault,
    ) -> u32
        requires { self.old.topology.arcs ≡ None }
        ensures opened { IfOk opened (λ topology. (result ≡ OK) × (self.new.topology.arcs ≡ Some topology.value) × (fault.new ≡ fault.old)) }
        ensures refused { IfErr opened (λ error. (result ≡ topology_status error) × (self.new.topology.arcs ≡ None) × (fault.new ≡ topology_fault error)) }
    {
        match opened {
            Ok(topology) => {
                self.put(topology);
                OK
            }
            Err(error) => tell_topology(error, fault),
        }
    }
}

/// Opens a closed handle with the topology of a graph, in the order that the bytes name: a saved hierarchy, or its lines `p`
/// and `o` alone. If `order` is empty, it is a nested dissection order.
#[unsafe(no_mangle)]
pub extern "C" fn chtab_topology_open(
    alloc: Global,
    topology: &mut TopologyHandle,
    graph: &[u8],
    order: &[u8],
    fault: &mut Fault,
) -> u32
    ensures { IsTopologyOpening graph.now order.now topology.old.topology.arcs topology.new.topology.arcs fault.old fault.new result }
{
    let is_open = topology.is_open == 1;
    if is_open {
        return IS_OPEN;
    }
    let opened = opened(alloc, graph, order);
    topology.put_or_tell(opened, fault)
}

/// Opens a closed handle with the topology of the arcs from `tails[k]` to `heads[k]` between `nodes` nodes.
#[unsafe(no_mangle)]
pub extern "C" fn chtab_topology_open_arrays(
    alloc: Global,
    topology: &mut TopologyHandle,
    nodes: u32,
    tails: &[u32],
    heads: &[u32],
    order: &[u8],
    fault: &mut Fault,
) -> u32
    ensures { IsTopologyOpeningOfArrays nodes tails.now heads.now order.now topology.old.topology.arcs topology.new.topology.arcs fault.old fault.new result }
{
    let is_open = topology.is_open == 1;
    if is_open {
        return IS_OPEN;
    }
    let opened = opened_of_arrays(alloc, nodes, tails, heads, order);
    topology.put_or_tell(opened, fault)
}

/// Opens a closed handle with the topology of an open one.
#[unsafe(no_mangle)]
pub extern "C" fn chtab_topology_share(
    alloc: Global,
    topology: &mut TopologyHandle,
    other: &mut TopologyHandle,
) -> u32
    ensures sharing { IsTopologySharing topology.old.topology.arcs other.old.topology.arcs other.new.topology.arcs result }
    ensures same { topology.new.topology.arcs ≡ topology.old.topology.arcs }
{
    if other.is_open == 1 {
        return IS_OPEN;
    }
    let Some(first) = topology.take(alloc) else {
        return CLOSED;
    };
    let second = shared(alloc, &first);
    topology.put(first);
    match second {
        Some(second) => {
            other.put(second);
            OK
        }
        None => NO_MEMORY,
    }
}

/// Writes the nodes in the order of the topology.
#[unsafe(no_mangle)]
pub extern "C" fn chtab_topology_order(
    alloc: Global,
    topology: &mut TopologyHandle,
    order: &mut [u32],
) -> u32
    ensures written { IsOrderWritten topology.old.topology.arcs order.old order.new result }
    ensures same { topology.new.topology.arcs ≡ topology.old.topology.arcs }
{
    let Some(first) = topology.take(alloc) else {
        return CLOSED;
    };
    let status = write_order(&first, order);
    topology.put(first);
    status
}

/// Closes an open handle, and gives its memory back.
#[unsafe(no_mangle)]
pub extern "C" fn chtab_topology_close(alloc: Global, topology: &mut TopologyHandle) -> u32
    ensures status { MatchOption topology.old.topology.arcs (result ≡ CLOSED) (λ _. result ≡ OK) }
    ensures closed { topology.new.topology.arcs ≡ None }
{
    match topology.take(alloc) {
        Some(first) => {
            drop(first);
            OK
        }
        None => CLOSED,
    }
}

/// Opens a closed handle with the graph that has the arcs of an open topology, where arc k weighs `weights[k]`.
#[unsafe(no_mangle)]
pub extern "C" fn chtab_customized(
    alloc: Global,
    handle: &mut Handle,
    topology: &mut TopologyHandle,
    weights: &[u64],
    fault: &mut Fault,
) -> u32
    ensures customizing { IsCustomizing topology.old.topology.arcs weights.now handle.old.engine.network handle.new.engine.network fault.old fault.new result }
    ensures same { topology.new.topology.arcs ≡ topology.old.topology.arcs }
{
    if handle.is_open() {
        return IS_OPEN;
    }
    let Some(arcs) = topology.take(alloc) else {
        return CLOSED;
    };
    let customized = customized(alloc, &arcs, weights);
    topology.put(arcs);
    match customized {
        Ok(engine) => {
            handle.put(engine);
            OK
        }
        Err(error) => tell(error, fault),
    }
}

/// Opens a topology on the heap, from the bytes of a graph and of an order.
///
/// # Errors
/// The errors of [`Topology::open`].
fn opened(alloc: Global, graph: &[u8], order: &[u8]) -> Result<Box<Topology, Global>, TopologyError>
    ensures value { IfOk result (λ topology. IsTopologyOpened graph.now order.now topology.value) }
    ensures error { IfErr result (IsTopologyError graph.now order.now) }
{
    let topology = Topology::open(alloc, graph, order)?;
    match Box::new(alloc, topology) {
        Ok(topology) => Ok(topology),
        Err(_) => Err(TopologyError::NoMemory),
    }
}

/// Opens a topology on the heap, from the arrays of a graph and the bytes of an order.
///
/// # Errors
/// The errors of [`Topology::open_arrays`].
fn opened_of_arrays(
    alloc: Global,
    nodes: u32,
    tails: &[u32],
    heads: &[u32],
    order: &[u8],
) -> Result<Box<Topology, Global>, TopologyError>
    ensures value { IfOk result (λ topology. IsTopologyOfArrays nodes tails.now heads.now order.now topology.value) }
    ensures error { IfErr result (IsArraysTopologyError nodes tails.now heads.now order.now) }
{
    let topology = Topology::open_arrays(alloc, nodes, tails, heads, order)?;
    match Box::new(alloc, topology) {
        Ok(topology) => Ok(topology),
        Err(_) => Err(TopologyError::NoMemory),
    }
}

/// Makes a second topology of the same arcs on the heap, or returns `None` if there is no memory.
fn shared(alloc: Global, topology: &Topology) -> Option<Box<Topology, Global>>
    ensures { IfSome result (λ second. second.value ≡ topology.now) }
{
    match topology.share() {
        Ok(second) => match Box::new(alloc, second) {
            Ok(second) => Some(second),
            Err(_) => None,
        },
        Err(_) => None,
    }
}

/// Writes the nodes in order, if there is room for just them, and returns the status.
fn write_order(topology: &Topology, order: &mut [u32]) -> u32
    ensures { IsOrderWritten (Some topology.now) order.old order.new result }
{
    let nodes = topology.order();
    if order.len() != nodes.len() {
        return LENGTHS;
    }
    order.copy_from_slice(nodes);
    OK
}

/// Opens an engine on the heap for the arcs of a topology with these weights.
///
/// # Errors
/// The errors of [`Engine::customized`].
fn customized(
    alloc: Global,
    topology: &Topology,
    weights: &[u64],
) -> Result<Box<Engine, Global>, OpenError>
    ensures value { IfOk result (λ engine. KeepsNothing engine.value × IsOpenedWith topology.now weights.now engine.value.hierarchy engine.value.lines) }
    ensures error { IfErr result (IsWeightsError topology.now weights.now) }
{
    let engine = Engine::customized(alloc, topology, weights)?;
    match Box::new(alloc, engine) {
        Ok(engine) => Ok(engine),
        Err(_) => Err(OpenError::NoMemory),
    }
}

/// Writes the fault of an error, and returns its status.
fn tell_topology(error: TopologyError, fault: &mut Fault) -> u32
    ensures status { result ≡ topology_status error }
    ensures fault { fault.new ≡ topology_fault error }
{
    *fault = fault_of_topology(error);
    status_of_topology(&error)
}

/// Returns the status of an error.
fn status_of_topology(error: &TopologyError) -> u32
    ensures { result ≡ topology_status error.now }
{
    match error {
        TopologyError::NoMemory => NO_MEMORY,
        TopologyError::BadGraph(_) | TopologyError::BadArrays(_) => BAD_GRAPH,
        TopologyError::Lengths => LENGTHS,
        TopologyError::BadOrder(_) => BAD_SAVED,
        TopologyError::WrongOrder => WRONG_SAVED,
        TopologyError::Triangles => TRIANGLES,
    }
}

/// Returns the fault of an error.
fn fault_of_topology(error: TopologyError) -> Fault
    ensures { result ≡ topology_fault error }
{
    match error {
        TopologyError::NoMemory | TopologyError::Lengths => at(0, 0, 0),
        TopologyError::Triangles => at(0, 0, 0),
        TopologyError::BadGraph(fault) => fault_of_read(fault),
        TopologyError::BadOrder(fault) => fault_of_read(fault),
        TopologyError::BadArrays(fault) => fault_of_arrays(fault),
        TopologyError::WrongOrder => at(11, 0, 0),
    }
}
