//! Short texts: a line of a text, or a cell of a row.
ghost use Rattle.std.specs.Prelude.{◌≡◌, ◌+◌, ◌<◌, ◌≤◌, [], ◌∷◌, ◌++◌, length, codes, decimal};
ghost use Rattle.ch_text.specs.declared.short_text.TheConstants.{ROOM};
ghost use Rattle.ch_text.specs.Distances.{node_text, weight_text};

use itoa::write_digits;
use std::marker::Model;

/// The most bytes of a short text: those of the line of a leg with 20 digits in each number, and some
/// more.
pub const ROOM: usize = 112;

/// A text that is written from its end to its front, because the digits of a number are found from the
/// last one on. So a line is one slice when it is added to others. Contracts see its bytes.
#[derive(Drop)]
pub struct ShortText {
    bytes: [u8; ROOM],
    start: usize,
}

impl Model for ShortText {
    ghost use Rattle.std.specs.Prelude.{◌≤◌, ℕ, List, drop};
    ghost use Rattle.ch_text.specs.declared.short_text.TheConstants.{ROOM};

    ghost Value = { List ℕ };

    ghost view = { λ t. drop t.start t.bytes };

    ghost invariant = { λ t. t.start ≤ ROOM };
}

impl ShortText {
    /// Makes a text without bytes.
    #[inline]
    pub fn new() -> ShortText
        ensures { result ≡ [] }
    {
        ShortText {
            bytes: [0; ROOM],
            start: ROOM,
        }
    }

    /// Removes all bytes.
    #[inline]
    pub(crate) fn clear(&mut self)
        ensures { self.new ≡ [] }
    {
        self.start = ROOM;
    }

    /// Puts a byte in front.
    #[inline]
    pub fn prepend(&mut self, byte: u8)
        requires { length self.old < ROOM }
        ensures text { self.new ≡ byte ∷ self.old }
        ensures length { length self.new ≡ length self.old + 1 }
    {
        self.start -= 1;
        self.bytes[self.start] = byte;
    }

    /// Puts bytes in front.
    pub fn prepend_slice(&mut self, bytes: &[u8])
        requires { length self.old + length bytes.now ≤ ROOM }
        ensures text { self.new ≡ bytes.now ++ self.old }
        ensures length { length self.new ≡ length self.old + length bytes.now }
    {
        let start = self.start - bytes.len();
        self.bytes[start..self.start].copy_from_slice(bytes);
        self.start = start;
    }

    /// Puts a number in front, in decimal.
    #[inline]
    pub fn prepend_number(&mut self, number: u64)
        requires { length self.old + 20 ≤ ROOM }
        ensures text { self.new ≡ decimal number ++ self.old }
        ensures length { length self.new ≤ length self.old + 20 }
    {
        self.start = write_digits(number, &mut self.bytes, self.start);
    }

    /// Puts a node in front, counted from 1.
    #[inline]
    pub(crate) fn prepend_node(&mut self, node: u32)
        requires { length self.old + 20 ≤ ROOM }
        ensures text { self.new ≡ node_text node ++ self.old }
        ensures length { length self.new ≤ length self.old + 20 }
    {
        self.prepend_number(node as u64 + 1);
    }

    /// Puts a distance in front, or `-` if there is none.
    #[inline]
    pub(crate) fn prepend_weight(&mut self, weight: Option<u64>)
        requires { length self.old + 20 ≤ ROOM }
        ensures text { self.new ≡ weight_text weight ++ self.old }
        ensures length { length self.new ≤ length self.old + 20 }
    {
        match weight {
            Some(weight) => self.prepend_number(weight),
            None => self.prepend(b'-'),
        }
    }

    /// Puts a letter and two nodes in front, and a space after each.
    #[inline]
    pub(crate) fn prepend_ends(&mut self, letter: u8, from: u32, to: u32)
        requires { length self.old + 44 ≤ ROOM }
        ensures text { self.new ≡ letter ∷ (codes " " ++ node_text from ++ codes " " ++ node_text to ++ codes " " ++ self.old) }
        ensures length { length self.new ≤ length self.old + 44 }
    {
        self.prepend(b' ');
        self.prepend_node(to);
        self.prepend(b' ');
        self.prepend_node(from);
        self.prepend(b' ');
        self.prepend(letter);
    }

    /// Returns the bytes of the text.
    #[inline]
    pub fn as_slice(&self) -> &[u8]
        ensures { result.now ≡ self.now }
    {
        &self.bytes[self.start..]
    }
}
