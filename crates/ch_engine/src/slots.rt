//! Sparse sets of numbers, such as the nodes that some searches reach (Briggs and Torczon 1993).
ghost use Rattle.std.specs.Prelude.{◌≡◌, ◌<◌, ◌↔◌, [], length, IfOk, IsSome, IsTrue, MatchOption, OnOk, ⊤};
ghost use Rattle.ch_engine.specs.Slots.{IsNamedMore, IsSlotFound, IsSlotOf};

use std::alloc::{AllocError, Global};
use std::marker::Model;

/// Numbers that have a slot each, from 0 on. To make room takes a step for each number that may have a slot. After that,
/// what is done to the set takes steps for its own numbers alone.
#[derive(Drop)]
pub(crate) struct Slots {
    /// By number, where its slot may be. Only a slot with this name is one, so hints that are left from earlier sets do no harm.
    hints: Vec<u32>,
    /// By slot, the number that has it.
    names: Vec<u32>,
}

impl Model for Slots {
    ghost use Rattle.std.specs.Prelude.{length};
    ghost use Rattle.ch_engine.specs.Slots.{AreHinted, Slotted};

    ghost Value = { Slotted };

    ghost view = { λ slots. record { numbers = length slots.hints.items; names = slots.names.items } };

    ghost invariant = { λ slots. AreHinted slots.hints.items slots.names.items };
}

impl Slots {
    /// Makes a set where numbers below `numbers` may have slots, and none has one yet.
    ///
    /// # Errors
    /// `AllocError` if there is no memory.
    pub(crate) fn new(alloc: Global, numbers: u32) -> Result<Slots, AllocError>
        ensures { IfOk result (λ slots. slots ≡ record { numbers = numbers; names = [] }) }
    {
        let hints = vec![in alloc; 0; numbers as usize]?;
        Ok(Slots {
            hints,
            names: Vec::new(alloc),
        })
    }

    /// Makes a set where numbers below `numbers` may have slots, unless there is one already.
    ///
    /// # Errors
    /// `AllocError` if there is no memory. Then there is none.
    pub(crate) fn keep(
        alloc: Global,
        kept: &mut Option<Slots>,
        numbers: u32,
    ) -> Result<(), AllocError>
        requires { MatchOption kept.old ⊤ (λ slots. slots.numbers ≡ numbers) }
        ensures numbers { MatchOption kept.new ⊤ (λ slots. slots.numbers ≡ numbers) }
        ensures some { OnOk result (IsSome kept.new) }
    {
        if kept.is_some() {
            return Ok(());
        }
        let slots = Slots::new(alloc, numbers)?;
        *kept = Some(slots);
        Ok(())
    }

    /// Takes all numbers out.
    pub(crate) fn clear(&mut self)
        ensures { self.new ≡ record { numbers = self.old.numbers; names = [] } }
    {
        self.names.clear();
    }

    /// Returns how many numbers have a slot.
    pub(crate) fn count(&self) -> u32
        ensures { result ≡ length self.now.names }
    {
        self.names.len() as u32
    }

    /// Whether a number may have a slot.
    #[inline]
    pub(crate) fn may_have(&self, number: u32) -> bool
        ensures { IsTrue result ↔ (number < self.now.numbers) }
    {
        (number as usize) < self.hints.len()
    }

    /// Returns the slot of a number, or `None` if it has none.
    #[inline]
    pub(crate) fn slot(&self, number: u32) -> Option<u32>
        ensures { IsSlotFound self.now.names number result }
    {
        if number as usize >= self.hints.len() {
            return None;
        }
        let slot = self.hints[number as usize];
        if slot as usize >= self.names.len() || self.names[slot as usize] != number {
            return None;
        }
        Some(slot)
    }

    /// Returns the slot of a number. If it has none, it gets the next one.
    ///
    /// # Errors
    /// `AllocError` if there is no memory. Then the set is as before.
    pub(crate) fn slot_or_next(&mut self, number: u32) -> Result<u32, AllocError>
        requires { number < self.old.numbers }
        ensures slot { IfOk result (IsSlotOf self.new.names number) }
        ensures more { IsNamedMore number self.old.names self.new.names }
        ensures numbers { self.new.numbers ≡ self.old.numbers }
    {
        if let Some(slot) = self.slot(number) {
            return Ok(slot);
        }
        let next = self.names.len() as u32;
        self.names.push(number)?;
        self.hints[number as usize] = next;
        Ok(next)
    }
}
