//! The contraction of one node.
ghost use Rattle.std.specs.Prelude.{◌≡◌, ℕ, ◌<◌, [], All, AllPairs, IfOk};
ghost use Rattle.ch_contract.specs.Legs.{AreLegsWithin, SameLegs, IsLegWithin, turned_legs};
ghost use Rattle.ch_contract.specs.Contraction.{AreShortcuts, Contracts, IsPairBefore, leg_after_shortcuts, legs_after_contraction, shortcut_label};
ghost use Rattle.ch_contract.specs.LegRows.{AreLegsFrom, AreLegsTo};
ghost use Rattle.ch_contract.specs.Remaining.{legs_of, IsSetAside};

use crate::hop_bound::HopBound;
use crate::leg_lists::put_shortcuts;
use crate::remaining::Remaining;
use crate::remaining::light::are_light;
use crate::shortcut::Shortcut;
use ch_hierarchy::Leg;
use smallvec::SmallVec;
use std::alloc::AllocError;

/// The legs of a contracted node, each list in order of the other node.
#[derive(Debug, Drop)]
pub struct Removed {
    /// The legs from the node.
    pub up: SmallVec<Leg, 4>,
    /// The legs to the node.
    pub down: SmallVec<Leg, 4>,
}

impl Remaining {
    /// Takes `v` out with all legs that touch it, and puts its shortcuts in. A shortcut takes the place of an
    /// older leg between its ends, which cost more.
    ///
    /// # Errors
    /// `AllocError` if there is no memory for the search, for the shortcuts, or for the legs that the call
    /// returns. All legs are dropped, because they may be half contracted. The graph can be opened again.
    pub fn contract(self, v: u32, hops: HopBound) -> Result<(Remaining, Removed), AllocError>
        requires node { v < self.nodes }
        ensures nodes { IfOk result (λ r. r.0.nodes ≡ self.nodes) }
        ensures legs { IfOk result (λ r. Contracts self.nodes hops.number (legs_of self) v (legs_of r.0)) }
        ensures up { IfOk result (λ r. AreLegsFrom (legs_of self) v r.1.up.items) }
        ensures down { IfOk result (λ r. AreLegsTo (legs_of self) v r.1.down.items) }
    {
        let shortcuts = self.shortcuts(v, hops)?;
        let removed = self.legs_at(v)?;
        let remaining = self.contract_with(v, shortcuts.as_slice())?;
        Ok((remaining, removed))
    }

    /// Copies the legs of `v`.
    fn legs_at(&self, v: u32) -> Result<Removed, AllocError>
        requires { v < self.now.nodes }
        ensures up { IfOk result (λ r. AreLegsFrom (legs_of self.now) v r.up.items) }
        ensures down { IfOk result (λ r. AreLegsTo (legs_of self.now) v r.down.items) }
    {
        let up = SmallVec::from_slice(self.alloc, self.out_legs(v))?;
        let down = SmallVec::from_slice(self.alloc, self.in_legs(v))?;
        Ok(Removed { up, down })
    }

    /// Takes `v` out with all legs that touch it, and sets its own lists aside.
    pub(crate) fn take_out(self, v: u32) -> Remaining
        requires node { v < self.nodes }
        ensures nodes { result.nodes ≡ self.nodes }
        ensures legs { SameLegs (legs_of result) (legs_after_contraction (legs_of self) v []) }
        ensures up { IsSetAside (legs_of self) v self.ups result.ups }
        ensures down { IsSetAside (turned_legs (legs_of self)) v self.downs result.downs }
        ensures limits { AreLegsWithin self.nodes (legs_of self) }
    {
        let Remaining {
            nodes,
            mut outs,
            mut ins,
            light,
            alloc,
        } = self;
        outs.set_aside(v);
        ins.set_aside(v);
        outs.take_from(v, ins.aside(v));
        ins.take_from(v, outs.aside(v));
        Remaining {
            nodes,
            outs,
            ins,
            light,
            alloc,
        }
    }

    /// Puts these shortcuts of `v` in.
    pub(crate) fn put(self, v: u32, shortcuts: &[Shortcut]) -> Result<Remaining, AllocError>
        requires ordered { AllPairs IsPairBefore shortcuts.now }
        requires within { All (λ s. IsLegWithin self.nodes s.from s.to (shortcut_label v s)) shortcuts.now }
        ensures nodes { IfOk result (λ r. r.nodes ≡ self.nodes) }
        ensures legs { IfOk result (λ r. (u w : ℕ) → legs_of r u w ≡ leg_after_shortcuts v shortcuts.now u w (legs_of self u w)) }
        ensures aside { IfOk result (λ r. (r.ups ≡ self.ups) × (r.downs ≡ self.downs)) }
    {
        let Remaining {
            nodes,
            mut outs,
            mut ins,
            light,
            alloc,
        } = self;
        put_shortcuts(&mut outs, &mut ins, v, shortcuts)?;
        Ok(Remaining {
            nodes,
            outs,
            ins,
            light: light && are_light(shortcuts),
            alloc,
        })
    }

    /// Takes `v` out with all legs that touch it, sets its own lists aside, and puts the shortcuts of `v` in.
    pub(crate) fn contract_with(
        self,
        v: u32,
        shortcuts: &[Shortcut],
    ) -> Result<Remaining, AllocError>
        requires node { v < self.nodes }
        requires shortcuts { (h : ℕ) × AreShortcuts self.nodes h (legs_of self) v shortcuts.now }
        ensures nodes { IfOk result (λ r. r.nodes ≡ self.nodes) }
        ensures legs { IfOk result (λ r. SameLegs (legs_of r) (legs_after_contraction (legs_of self) v shortcuts.now)) }
        ensures up { IfOk result (λ r. IsSetAside (legs_of self) v self.ups r.ups) }
        ensures down { IfOk result (λ r. IsSetAside (turned_legs (legs_of self)) v self.downs r.downs) }
    {
        self.take_out(v).put(v, shortcuts)
    }
}
