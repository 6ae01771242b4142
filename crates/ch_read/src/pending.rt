//! The bytes of a stream that the reader has not read yet.
ghost use Rattle.std.specs.Prelude.{◌≡◌, ◌<◌, ◌≤◌, ◌↔◌, ◌*◌, ◌++◌, [], None, ◌==◌, length, take, drop, position, vec_len, IsTrue, MatchOption, OnErr, OnOk};
ghost use Rattle.ch_read.specs.RequestSteps.{HasNoLine, IsLineAhead};

use crate::lines::line_ahead;
use crate::request::MOST_LINE;
use std::alloc::{AllocError, Global};
use std::marker::Model;

/// The bytes after the last line that was read. Contracts see these bytes.
#[derive(Drop)]
pub(crate) struct Pending {
    bytes: Vec<u8>,
    // the number of bytes of lines that were read
    start: usize,
    // the number of bytes after these that were searched and have no line feed
    searched: usize,
}

impl Model for Pending {
    ghost use Rattle.std.specs.Prelude.{◌≡◌, ◌≤◌, ◌+◌, ◌==◌, ℕ, List, None, length, position, take, drop};

    ghost Value = { List ℕ };

    ghost view = { λ p. drop p.start p.bytes.items };

    ghost invariant = { λ p. (p.start + p.searched ≤ length p.bytes.items)
        × (position (λ b. b == 10) (take p.searched (drop p.start p.bytes.items)) ≡ None) };
}

impl Pending {
    /// Makes a value without bytes.
    pub(crate) fn new(alloc: Global) -> Pending
        ensures { result ≡ [] }
    {
        Pending {
            bytes: Vec::new(alloc),
            start: 0,
            searched: 0,
        }
    }

    /// Appends these bytes.
    pub(crate) fn extend(&mut self, bytes: &[u8]) -> Result<(), AllocError>
        ensures extended { OnOk result (self.new ≡ self.old ++ bytes.now) }
        ensures same { OnErr result (self.new ≡ self.old) }
    {
        self.start = forget(&mut self.bytes, self.start);
        self.bytes.extend_from_slice(bytes)
    }

    /// Returns the first line and the number of its bytes with its line feed, or `None` if no line is whole. At
    /// the end of the input the last line needs no line feed.
    pub(crate) fn line(&self, ended: bool) -> Option<(&[u8], usize)>
        ensures { MatchOption result (HasNoLine ended self.now) (λ (text, taken). IsLineAhead ended self.now text.now taken) }
    {
        line_ahead(&self.bytes[self.start..], self.searched, ended)
    }

    /// Whether there are more bytes than a line may have.
    pub(crate) fn is_long(&self) -> bool
        ensures { IsTrue result ↔ (MOST_LINE < length self.now) }
    {
        self.bytes.len() - self.start > MOST_LINE
    }

    /// Remembers that these bytes have no line feed. They are not searched again when more bytes have come.
    pub(crate) fn note_searched(&mut self)
        requires { position (λ b. b == 10) self.old ≡ None }
        ensures { self.new ≡ self.old }
    {
        self.searched = self.bytes.len() - self.start;
    }

    /// Goes past the first `taken` bytes.
    pub(crate) fn advance(&mut self, taken: usize)
        requires { taken ≤ length self.old }
        ensures { self.new ≡ drop taken self.old }
    {
        self.start += taken;
        self.searched = 0;
    }
}

/// Drops the first `start` bytes if they are at least half of all. Returns the number of bytes at the front
/// that are still to be skipped. At most half of the kept bytes are to be skipped, and a call moves at most as
/// many bytes as it drops.
fn forget(bytes: &mut Vec<u8>, start: usize) -> usize
    requires { start ≤ vec_len bytes.old }
    ensures same { drop result bytes.new.items ≡ drop start bytes.old.items }
    ensures half { 2 * result ≤ vec_len bytes.new }
{
    let left = bytes.len() - start;
    if start < left {
        return start;
    }
    bytes.copy_within(start.., 0);
    bytes.truncate(left);
    0
}
