//! Why a run gave no answer.

ghost use Rattle.std.specs.Prelude.{◌≡◌, ◌+◌, ◌≤◌, ◌++◌, Some, codes, decimal, length};
ghost use Rattle.ch_hierarchy.specs.FaultText.{fault_text as check_fault_text};
ghost use Rattle.ch_read.specs.Text.{kind_text};
ghost use Rattle.ch_run.specs.Fault.{fault_text, fault_words, input_name, judged, read_heading, status_of};

use ch_contract::CheckFault;
use ch_read::{FaultKind, ReadError, ReadFault};
use ch_text::ShortText;
use std::alloc::{AllocError, AllocFailed};
use std::fmt;
use thiserror::Error;

/// One of a run's inputs.
#[derive(Clone, Copy, Debug, PartialEq, Eq)]
pub enum Which {
    Graph,
    Saved,
    Order,
    Queries,
    Sources,
    Targets,
    Requests,
}

impl Which {
    /// Returns what a reader made of this input. An error of the reader is a fault of the run.
    pub(crate) fn judged<V>(self, read: Result<V, ReadError>) -> Result<V, RunFault>
        ensures { result ≡ judged self read }
    {
        match read {
            Ok(value) => Ok(value),
            Err(ReadError::Fault(fault)) => Err(RunFault::Read(self, fault)),
            Err(ReadError::NoMemory) => Err(RunFault::Memory),
        }
    }

    /// Returns the word for this input.
    fn name(self) -> &'static str
        ensures text { result.now ≡ input_name self }
        ensures short { length result.now ≤ 8 }
    {
        match self {
            Which::Graph => "graph",
            Which::Saved => "saved",
            Which::Order => "order",
            Which::Queries => "queries",
            Which::Sources => "sources",
            Which::Targets => "targets",
            Which::Requests => "requests",
        }
    }

    /// Returns the first word of a fault of this input, with a space.
    fn heading(self) -> &'static str
        ensures text { result.now ≡ read_heading self }
        ensures short { length result.now ≤ 8 }
    {
        match self {
            Which::Graph => "graph ",
            Which::Saved => "saved ",
            Which::Order => "order ",
            Which::Queries => "queries ",
            Which::Sources => "sources ",
            Which::Targets => "targets ",
            Which::Requests => "request ",
        }
    }
}

impl fmt::Display for Which {
    ghost output = { λ which. Some (input_name which) };

    fn fmt<W: fmt::Write>(&self, f: &mut fmt::Formatter<W>) -> fmt::Result {
        f.write_str(self.name())
    }
}

/// Why a run gave no answer, or no further one. Its `Display` is the line that the program writes to
/// standard error, without the name of the program before it ([`fault_line`]).
///
/// If the fault is not `Write`, nothing was written. A run over requests is the exception: it may have
/// answered some of them.
#[derive(Clone, Copy, Debug, PartialEq, Eq, Error)]
pub enum RunFault {
    /// This input is refused for this fault. Requests are refused for a fault of a line, or of their
    /// end.
    Read(Which, ReadFault),
    /// The lists of two files make more than 2^22 cells: the number of sources times the number of
    /// targets.
    Cells,
    /// The table that begins at this line of the requests has more than 2^22 cells.
    CellsAt(u64),
    /// The new weight on this line of the requests is for no arc of the graph.
    NoArcAt(u64),
    /// New weights begin at this line of the requests, but the hierarchy is not customized.
    FixedAt(u64),
    /// There was not enough memory.
    Memory,
    /// This input couldn't be opened or read.
    Device(Which),
    /// A write failed, or took no byte, after this many bytes were written.
    Write(u64),
    /// The saved hierarchy is not right for the graph, and this is its first fault.
    Check(CheckFault),
    /// The order does not have each node of the graph exactly once.
    Order,
    /// When the turn of this node comes in the order, more than 128 edges touch it, and more than a hundredth of the nodes
    /// are left. The text counts nodes from 1.
    Crowded(u32),
}

impl fmt::Display for RunFault {
    ghost output = { λ fault. Some (fault_words fault) };

    fn fmt<W: fmt::Write>(&self, f: &mut fmt::Formatter<W>) -> fmt::Result {
        match self {
            RunFault::Read(which, fault) => {
                let heading = which.heading();
                write!(f, "{heading}{fault}")
            }
            RunFault::Cells => f.write_str("too many cells"),
            RunFault::CellsAt(line) => write!(f, "request line {line}: too many cells"),
            RunFault::NoArcAt(line) => write!(f, "request line {line}: no such arc"),
            RunFault::FixedAt(line) => write!(f, "request line {line}: needs --customizable"),
            RunFault::Memory => f.write_str("out of memory"),
            RunFault::Device(which) => write!(f, "cannot read {which}"),
            RunFault::Write(count) => write!(f, "cannot write after {count} bytes"),
            RunFault::Check(fault) => write!(f, "saved hierarchy refused: {fault}"),
            RunFault::Order => f.write_str("order refused: a node occurs twice"),
            RunFault::Crowded(node) => {
                let number = u64::from(*node) + 1;
                write!(f, "order refused: too many edges at node {number}")
            }
        }
    }
}

/// Returns the words for a kind of fault of a file.
fn kind_words(kind: FaultKind) -> &'static str
    ensures text { result.now ≡ kind_text kind }
    ensures short { length result.now ≤ 19 }
{
    match kind {
        FaultKind::UnknownLine => "unknown line",
        FaultKind::BadProblem => "bad problem line",
        FaultKind::SecondProblem => "second problem line",
        FaultKind::NoProblem => "no problem line",
        FaultKind::BadLine => "bad line",
        FaultKind::NodeRange => "node out of range",
        FaultKind::Sum => "weight too large",
        FaultKind::Size => "size too large",
        FaultKind::TooMany => "too many lines",
        FaultKind::TooFew => "too few lines",
    }
}

/// Returns the word for a fault of a saved hierarchy.
fn check_word(fault: CheckFault) -> &'static str
    ensures text { result.now ≡ check_fault_text fault }
    ensures short { length result.now ≤ 6 }
{
    match fault {
        CheckFault::Order => "order",
        CheckFault::Pair(_) => "pair",
        CheckFault::Bound(_) => "bound",
        CheckFault::Base(_) => "base",
        CheckFault::Middle(_) => "middle",
        CheckFault::Arc(_) => "arc",
        CheckFault::Lower(_) => "lower",
    }
}

/// Returns the words of a fault, with a line feed.
fn words_of(fault: &RunFault) -> ShortText
    ensures text { result ≡ fault_words fault.now ++ codes "\n" }
    ensures short { length result ≤ 64 }
{
    let mut line = ShortText::new();
    line.prepend(b'\n');
    match *fault {
        RunFault::Read(which, fault) => {
            line.prepend_slice(kind_words(fault.kind).as_bytes());
            line.prepend_slice(b": ");
            line.prepend_number(fault.line);
            line.prepend_slice(b"line ");
            line.prepend_slice(which.heading().as_bytes());
        }
        RunFault::Cells => line.prepend_slice(b"too many cells"),
        RunFault::CellsAt(place) => prepend_at(&mut line, place, b": too many cells"),
        RunFault::NoArcAt(place) => prepend_at(&mut line, place, b": no such arc"),
        RunFault::FixedAt(place) => prepend_at(&mut line, place, b": needs --customizable"),
        RunFault::Memory => line.prepend_slice(b"out of memory"),
        RunFault::Device(which) => {
            line.prepend_slice(which.name().as_bytes());
            line.prepend_slice(b"cannot read ");
        }
        RunFault::Write(count) => {
            line.prepend_slice(b" bytes");
            line.prepend_number(count);
            line.prepend_slice(b"cannot write after ");
        }
        RunFault::Check(fault) => {
            line.prepend_slice(check_word(fault).as_bytes());
            line.prepend_slice(b"saved hierarchy refused: ");
        }
        RunFault::Order => line.prepend_slice(b"order refused: a node occurs twice"),
        RunFault::Crowded(node) => {
            line.prepend_number(u64::from(node) + 1);
            line.prepend_slice(b"order refused: too many edges at node ");
        }
    }
    line
}

/// Puts the words for a fault at a line of the requests in front. `words` come after the number of the line.
fn prepend_at(text: &mut ShortText, line: u64, words: &[u8])
    requires { length text.old + length words.now ≤ 32 }
    ensures text { text.new ≡ (codes "request line " ++ decimal line ++ words.now) ++ text.old }
    ensures length { length text.new ≤ length text.old + length words.now + 33 }
{
    text.prepend_slice(words);
    text.prepend_number(line);
    text.prepend_slice(b"request line ");
}

/// Returns the line of a fault, with its line feed. It takes no memory, so it can report a lack of
/// memory.
pub fn fault_line(fault: &RunFault) -> ShortText
    ensures { result ≡ fault_text fault.now ++ codes "\n" }
{
    let mut line = words_of(fault);
    line.prepend_slice(b"chtab: ");
    line
}

impl From<AllocError> for RunFault {
    ghost use Rattle.ch_run.specs.declared.fault.RunFault.TheVariants.{Memory};

    ghost from_gives = { λ _ fault. fault ≡ Memory };

    fn from(_error: AllocError) -> RunFault {
        RunFault::Memory
    }
}

impl<T: Drop> From<AllocFailed<T>> for RunFault {
    ghost use Rattle.ch_run.specs.declared.fault.RunFault.TheVariants.{Memory};

    ghost from_gives = { λ _ fault. fault ≡ Memory };

    fn from(_refused: AllocFailed<T>) -> RunFault {
        RunFault::Memory
    }
}

/// Returns the program's exit status for a fault. It is 1 if a file, a request, a saved hierarchy, an order or
/// the size of a table was refused. It is 3 if the system refused memory, a file or a write.
pub fn status(fault: &RunFault) -> u8
    ensures { result ≡ status_of fault.now }
{
    match fault {
        RunFault::Read(..)
        | RunFault::Check(_)
        | RunFault::Order
        | RunFault::Crowded(_)
        | RunFault::Cells
        | RunFault::CellsAt(_)
        | RunFault::NoArcAt(_)
        | RunFault::FixedAt(_) => 1,
        RunFault::Memory | RunFault::Device(_) | RunFault::Write(_) => 3,
    }
}
