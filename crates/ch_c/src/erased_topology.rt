//! A topology behind a pointer to bytes, which C can hold.
ghost use Rattle.std.specs.Prelude.{◌≡◌, IsSome, Option, None, Some};
ghost use Rattle.ch_engine.specs.declared.topology.Topology.{Topology as Arcs};
ghost use Rattle.ch_c.specs.ErasedTopology.{coded_topology, owns_topology};

use crate::raw_box::RawBox;
use ch_engine::Topology;
use std::alloc::Global;
use std::marker::Model;
use std::ptr::null_mut;

/// A topology on the heap, or none.
#[repr(C)]
#[derive(Drop)]
pub struct ErasedTopology {
    at: *mut u8,
    alloc: Global,
    pub ghost arcs: { Option Arcs } by { coded_topology },
}

impl Model for ErasedTopology {
    ghost also_owns = { λ erased. owns_topology erased.alloc erased.at erased.arcs };
}

impl ErasedTopology {
    /// Makes a value without a topology.
    pub(crate) fn none(alloc: Global) -> ErasedTopology
        ensures { result.arcs ≡ None }
    {
        ErasedTopology {
            at: null_mut(),
            alloc,
        }
    }

    /// Takes the topology of a raw box.
    pub(crate) fn of(topology: RawBox<Topology>) -> ErasedTopology
        ensures { result.arcs ≡ Some topology.value }
    {
        let RawBox { at, alloc } = topology;
        ErasedTopology {
            at: at as *mut u8,
            alloc,
        }
    }

    /// Returns the topology in its box.
    pub(crate) fn into_box(self) -> Box<Topology, Global>
        requires { IsSome self.arcs }
        ensures { self.arcs ≡ Some result.value }
    {
        let ErasedTopology { at, alloc } = self;
        unsafe { Box::from_raw(alloc, at as *mut Topology) }
    }
}
