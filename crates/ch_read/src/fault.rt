//! The faults of files, and their texts.
ghost use Rattle.std.specs.Prelude.{◌≡◌, Some};
ghost use Rattle.ch_read.specs.declared.fault.ReadError.TheVariants as ReadError;
ghost use Rattle.ch_read.specs.Text.{kind_text, fault_text, error_text};

use std::alloc::AllocFailed;
use std::error::Error;
use std::fmt;

/// The kind of a fault of a line, or of the end of a file.
#[derive(Clone, Copy, Debug, PartialEq, Eq)]
pub enum FaultKind {
    /// The first word is neither `p` nor a letter of the file's items.
    UnknownLine,
    /// A problem line does not have the words of its form.
    BadProblem,
    /// A problem line comes after another.
    SecondProblem,
    /// An item, or the end, comes before any problem line.
    NoProblem,
    /// An item does not have the words of its form.
    BadLine,
    /// A node is not from 1 to the number of nodes, or a middle is above the number of nodes.
    NodeRange,
    /// A number is too large:
    ///
    /// - The number of nodes times the weight of an arc is more than 2^60.
    /// - A leg weighs more than 2^60, or has more than 2^25 arcs.
    /// - The limit of a request is more than 2^60.
    Sum,
    /// A declared number is above its limit, or a hierarchy does not have as many nodes as its graph.
    Size,
    /// There are more items than declared.
    TooMany,
    /// There are fewer items than declared.
    TooFew,
}

/// The first fault of a file, by the order of checks in this crate's documentation.
#[derive(Clone, Copy, Debug, PartialEq, Eq)]
pub struct ReadFault {
    /// The line, counted from 1. For the end of the file it is the number of lines plus one.
    pub line: u64,
    pub kind: FaultKind,
}

/// The reason why a reader has no value.
#[derive(Clone, Copy, Debug, PartialEq, Eq)]
pub enum ReadError {
    /// The file has this fault.
    Fault(ReadFault),
    /// There was no memory for the items, and no line up to there has a fault.
    NoMemory,
}

impl fmt::Display for FaultKind {
    ghost output = { λ kind. Some (kind_text kind) };

    fn fmt<W: fmt::Write>(&self, f: &mut fmt::Formatter<W>) -> fmt::Result {
        match self {
            FaultKind::UnknownLine => f.write_str("unknown line"),
            FaultKind::BadProblem => f.write_str("bad problem line"),
            FaultKind::SecondProblem => f.write_str("second problem line"),
            FaultKind::NoProblem => f.write_str("no problem line"),
            FaultKind::BadLine => f.write_str("bad line"),
            FaultKind::NodeRange => f.write_str("node out of range"),
            FaultKind::Sum => f.write_str("weight too large"),
            FaultKind::Size => f.write_str("size too large"),
            FaultKind::TooMany => f.write_str("too many lines"),
            FaultKind::TooFew => f.write_str("too few lines"),
        }
    }
}

impl fmt::Display for ReadFault {
    ghost output = { λ fault. Some (fault_text fault) };

    fn fmt<W: fmt::Write>(&self, f: &mut fmt::Formatter<W>) -> fmt::Result {
        let line = self.line;
        let kind = self.kind;
        write!(f, "line {line}: {kind}")
    }
}

impl fmt::Display for ReadError {
    ghost output = { λ error. Some (error_text error) };

    fn fmt<W: fmt::Write>(&self, f: &mut fmt::Formatter<W>) -> fmt::Result {
        match self {
            ReadError::Fault(fault) => write!(f, "{fault}"),
            ReadError::NoMemory => f.write_str("out of memory"),
        }
    }
}

impl Error for FaultKind {}

impl Error for ReadFault {}

impl Error for ReadError {}

impl<T: Drop> From<AllocFailed<T>> for ReadError {
    ghost from_gives = { λ _ error. error ≡ ReadError.NoMemory };

    fn from(_refused: AllocFailed<T>) -> ReadError {
        ReadError::NoMemory
    }
}
