//! An engine behind a pointer to bytes, which C can hold.
ghost use Rattle.std.specs.Prelude.{◌≡◌, IsSome, Option, None, Some};
ghost use Rattle.ch_engine.specs.declared.engine.Engine.{Engine as Network};
ghost use Rattle.ch_c.specs.Erased.{coded_network, owns_network};

use crate::raw_box::RawBox;
use ch_engine::Engine;
use std::alloc::Global;
use std::marker::Model;
use std::ptr::null_mut;

/// An engine on the heap, or none.
#[repr(C)]
#[derive(Drop)]
pub struct ErasedEngine {
    at: *mut u8,
    alloc: Global,
    pub ghost network: { Option Network } by { coded_network },
}

impl Model for ErasedEngine {
    ghost also_owns = { λ erased. owns_network erased.alloc erased.at erased.network };
}

impl ErasedEngine {
    /// Makes a value without an engine.
    pub(crate) fn none(alloc: Global) -> ErasedEngine
        ensures { result.network ≡ None }
    {
        ErasedEngine {
            at: null_mut(),
            alloc,
        }
    }

    /// Takes the engine of a raw box.
    pub(crate) fn of(engine: RawBox<Engine>) -> ErasedEngine
        ensures { result.network ≡ Some engine.value }
    {
        let RawBox { at, alloc } = engine;
        ErasedEngine {
            at: at as *mut u8,
            alloc,
        }
    }

    /// Returns the engine in its box.
    pub(crate) fn into_box(self) -> Box<Engine, Global>
        requires { IsSome self.network }
        ensures { self.network ≡ Some result.value }
    {
        let ErasedEngine { at, alloc } = self;
        unsafe { Box::from_raw(alloc, at as *mut Engine) }
    }
}
