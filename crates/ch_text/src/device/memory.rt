//! Devices over memory, for tests. Contracts know their bytes. They fail at the calls that a test
//! chooses.

ghost use Rattle.std.specs.Prelude.{◌≡◌, ◌+◌, ◌-◌, ◌<◌, ◌≤◌, ◌↔◌, [], None, Some, IfOk, IsErr, IsTrue, OnErr, OnOk, length, min, vec_capacity, vec_len};
ghost use Rattle.ch_text.specs.Device.{CanCountOneMore, GivesBytes, TakesBytes, idle_writes, failures_in, turns_after};

use super::{DeviceFault, Input, Output};
use std::alloc::{AllocError, Global};

/// The call of a device that goes wrong: the one after `before` others, or none.
#[derive(Clone, Copy, Debug, PartialEq, Eq)]
struct Turn {
    before: Option<u64>,
}

impl Turn {
    const NEVER: Turn = Turn { before: None };

    /// Counts a call, and returns whether it is the one that goes wrong.
    fn has_come(&mut self) -> bool
        ensures come { IsTrue result ↔ (self.old.before ≡ Some 0) }
        ensures turns { self.new.before ≡ turns_after self.old.before }
    {
        match self.before {
            None => false,
            Some(0) => {
                self.before = None;
                true
            }
            Some(before) => {
                self.before = Some(before - 1);
                false
            }
        }
    }
}

/// An input over a slice of bytes.
#[derive(Clone, Copy, Debug)]
pub struct MemoryInput<'a> {
    left: &'a [u8],
    most: usize,
    fault: Turn,
    failures: u64,
    ghost gives_some: { 0 < most },
}

impl<'a> MemoryInput<'a> {
    /// Makes an input of these bytes. Each read gives at most `most` of them, and no read fails.
    pub fn new(bytes: &'a [u8], most: usize) -> Self
        requires { 0 < most }
        ensures left { ⟦<MemoryInput<'a> as Input>⟧.left result ≡ Some bytes.now }
        ensures most { result.most ≡ most }
        ensures turn { result.fault.before ≡ None }
        ensures failed { ⟦<MemoryInput<'a> as Input>⟧.failed result ≡ 0 }
    {
        MemoryInput {
            left: bytes,
            most,
            fault: Turn::NEVER,
            failures: 0,
        }
    }

    /// Makes the read after `reads` others fail.
    pub fn failing_after(self, reads: u64) -> Self
        ensures turn { result.fault.before ≡ Some reads }
        ensures most { result.most ≡ self.entry.most }
        ensures left { ⟦<MemoryInput<'a> as Input>⟧.left result ≡ ⟦<MemoryInput<'a> as Input>⟧.left self.entry }
        ensures failed { ⟦<MemoryInput<'a> as Input>⟧.failed result ≡ ⟦<MemoryInput<'a> as Input>⟧.failed self.entry }
    {
        MemoryInput {
            left: self.left,
            most: self.most,
            fault: Turn {
                before: Some(reads),
            },
            failures: self.failures,
        }
    }
}

impl Input for MemoryInput<'_> {
    ghost failed = { λ d. d.failures };

    ghost read_gives = { λ old buffer answer new. GivesBytes (Some old.left.now) (Some new.left.now) answer buffer × (new.failures ≡ old.failures + failures_in answer) };

    ghost left = { λ d. Some d.left.now };

    ghost tells = { λ old buffer answer new made. made.0 };

    ghost counts = { λ old buffer answer new made. made.1 };

    // It fails at its turn, and at no other read.
    fn read(&mut self, buffer: &mut [u8]) -> Result<usize, DeviceFault>
        requires { CanCountOneMore self.old.failures }
        ensures fits { IfOk result (λ count. count ≤ length buffer.new) }
        ensures made { GivesBytes (Some self.old.left.now) (Some self.new.left.now) result buffer.new × (self.new.failures ≡ self.old.failures + failures_in result) }
        ensures gives { IfOk result (λ count. count ≡ min (min (length self.old.left.now) (length buffer.old)) self.old.most) }
        ensures turn { IsErr result ↔ (self.old.fault.before ≡ Some 0) }
        ensures turns { self.new.fault.before ≡ turns_after self.old.fault.before }
        ensures most { self.new.most ≡ self.old.most }
    {
        if self.fault.has_come() {
            self.failures += 1;
            return Err(DeviceFault);
        }
        let count = self.left.len().min(buffer.len()).min(self.most);
        let (given, left) = self.left.split_at(count);
        buffer[..count].copy_from_slice(given);
        self.left = left;
        Ok(count)
    }

    fn failures(&self) -> u64 {
        self.failures
    }
}

/// An output into memory that was reserved before its first write.
#[derive(Debug, Drop)]
pub struct MemoryOutput {
    taken: Vec<u8>,
    room: usize,
    most: usize,
    fault: Turn,
    pause: Turn,
    failures: u64,
    zeros: u64,
    ghost fits: { vec_len taken ≤ room },
    ghost is_reserved: { room ≤ vec_capacity taken },
}

impl MemoryOutput {
    /// Makes an output with room for `room` bytes. Each write takes at most `most` bytes, and none once
    /// the output is full. No write fails.
    pub fn new(alloc: Global, room: usize, most: usize) -> Result<Self, AllocError>
        ensures taken { IfOk result (λ output. ⟦<MemoryOutput as Output>⟧.taken output ≡ Some []) }
        ensures room { IfOk result (λ output. output.room ≡ room) }
        ensures most { IfOk result (λ output. output.most ≡ most) }
        ensures turn { IfOk result (λ output. output.fault.before ≡ None) }
        ensures pause { IfOk result (λ output. output.pause.before ≡ None) }
        ensures failed { IfOk result (λ output. ⟦<MemoryOutput as Output>⟧.failed output ≡ 0) }
        ensures idle { IfOk result (λ output. ⟦<MemoryOutput as Output>⟧.idle output ≡ 0) }
    {
        Ok(MemoryOutput {
            taken: Vec::with_capacity(alloc, room)?,
            room,
            most,
            fault: Turn::NEVER,
            pause: Turn::NEVER,
            failures: 0,
            zeros: 0,
        })
    }

    /// Makes the write after `writes` others fail.
    pub fn failing_after(mut self, writes: u64) -> Self
        ensures turn { result.fault.before ≡ Some writes }
        ensures pause { result.pause.before ≡ self.pause.before }
        ensures room { result.room ≡ self.room }
        ensures most { result.most ≡ self.most }
        ensures taken { ⟦<MemoryOutput as Output>⟧.taken result ≡ ⟦<MemoryOutput as Output>⟧.taken self }
        ensures failed { ⟦<MemoryOutput as Output>⟧.failed result ≡ ⟦<MemoryOutput as Output>⟧.failed self }
        ensures idle { ⟦<MemoryOutput as Output>⟧.idle result ≡ ⟦<MemoryOutput as Output>⟧.idle self }
    {
        self.fault = Turn {
            before: Some(writes),
        };
        self
    }

    /// Makes the write after `writes` others take no byte. Writes that fail are not counted here.
    pub fn idle_after(mut self, writes: u64) -> Self
        ensures pause { result.pause.before ≡ Some writes }
        ensures turn { result.fault.before ≡ self.fault.before }
        ensures room { result.room ≡ self.room }
        ensures most { result.most ≡ self.most }
        ensures taken { ⟦<MemoryOutput as Output>⟧.taken result ≡ ⟦<MemoryOutput as Output>⟧.taken self }
        ensures failed { ⟦<MemoryOutput as Output>⟧.failed result ≡ ⟦<MemoryOutput as Output>⟧.failed self }
        ensures idle { ⟦<MemoryOutput as Output>⟧.idle result ≡ ⟦<MemoryOutput as Output>⟧.idle self }
    {
        self.pause = Turn {
            before: Some(writes),
        };
        self
    }

    /// Returns the bytes that were taken.
    pub fn bytes(&self) -> &[u8]
        ensures { ⟦<MemoryOutput as Output>⟧.taken self.now ≡ Some result.now }
    {
        self.taken.as_slice()
    }
}

impl Output for MemoryOutput {
    ghost failed = { λ d. d.failures };

    ghost idle = { λ d. d.zeros };

    ghost write_gives = { λ old bytes answer new. TakesBytes (Some old.taken.items) (Some new.taken.items) answer bytes
        × (new.failures ≡ old.failures + failures_in answer) × (new.zeros ≡ old.zeros + idle_writes answer bytes) };

    ghost taken = { λ d. Some d.taken.items };

    ghost tells = { λ old bytes answer new made. made.0 };

    ghost counts = { λ old bytes answer new made. (made.1, made.2) };

    // It fails at its turn, and at no other write. At the turn of its pause it takes no byte.
    fn write(&mut self, bytes: &[u8]) -> Result<usize, DeviceFault>
        requires failures { CanCountOneMore self.old.failures }
        requires zeros { CanCountOneMore self.old.zeros }
        ensures fits { IfOk result (λ count. count ≤ length bytes.now) }
        ensures made { TakesBytes (Some self.old.taken.items) (Some self.new.taken.items) result bytes.now
            × (self.new.failures ≡ self.old.failures + failures_in result) × (self.new.zeros ≡ self.old.zeros + idle_writes result bytes.now) }
        ensures turn { IsErr result ↔ (self.old.fault.before ≡ Some 0) }
        ensures turns { self.new.fault.before ≡ turns_after self.old.fault.before }
        ensures pause { self.old.pause.before ≡ Some 0 → IfOk result (λ count. count ≡ 0) }
        ensures takes { (self.old.pause.before ≡ Some 0 → ⊥) → IfOk result (λ count. count
            ≡ min (min (length bytes.now) self.old.most) (self.old.room - vec_len self.old.taken)) }
        ensures room { self.new.room ≡ self.old.room }
        ensures most { self.new.most ≡ self.old.most }
        ensures pauses { OnOk result (self.new.pause.before ≡ turns_after self.old.pause.before) }
        ensures no_pause { OnErr result (self.new.pause.before ≡ self.old.pause.before) }
    {
        if self.fault.has_come() {
            self.failures += 1;
            return Err(DeviceFault);
        }
        let room = self.room - self.taken.len();
        let count = if self.pause.has_come() {
            0
        } else {
            bytes.len().min(self.most).min(room)
        };
        let Ok(()) = self.taken.extend_from_slice(&bytes[..count]) else {
            unreachable!();
        };
        if count == 0 && !bytes.is_empty() {
            self.zeros += 1;
        }
        Ok(count)
    }

    fn failures(&self) -> u64 {
        self.failures
    }

    fn zeros(&self) -> u64 {
        self.zeros
    }
}
