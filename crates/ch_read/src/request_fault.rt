//! The faults of streams of requests, and their texts.
ghost use Rattle.std.specs.Prelude.{◌≡◌, Some};
ghost use Rattle.ch_read.specs.declared.request_fault.RequestError.TheVariants as RequestError;
ghost use Rattle.ch_read.specs.RequestText.{request_error_text, request_fault_text};

use crate::fault::ReadFault;
use std::alloc::AllocFailed;
use std::error::Error;
use std::fmt;

/// The first fault of a stream of requests, by the order of checks in this crate's documentation.
#[derive(Clone, Copy, Debug, PartialEq, Eq)]
pub enum RequestFault {
    /// A line, or the end, has this fault.
    Line(ReadFault),
    /// The table that this line begins has more cells than the limit.
    Cells(u64),
}

/// The reason why a reader of requests gives no request.
#[derive(Clone, Copy, Debug, PartialEq, Eq)]
pub enum RequestError {
    /// The next thing in the stream is this fault.
    Fault(RequestFault),
    /// There was no memory for a listed node.
    NoMemory,
}

impl fmt::Display for RequestFault {
    ghost output = { λ fault. Some (request_fault_text fault) };

    fn fmt<W: fmt::Write>(&self, f: &mut fmt::Formatter<W>) -> fmt::Result {
        match self {
            RequestFault::Line(fault) => write!(f, "{fault}"),
            RequestFault::Cells(line) => write!(f, "line {line}: too many cells"),
        }
    }
}

impl fmt::Display for RequestError {
    ghost output = { λ error. Some (request_error_text error) };

    fn fmt<W: fmt::Write>(&self, f: &mut fmt::Formatter<W>) -> fmt::Result {
        match self {
            RequestError::Fault(fault) => write!(f, "{fault}"),
            RequestError::NoMemory => f.write_str("out of memory"),
        }
    }
}

impl Error for RequestFault {}

impl Error for RequestError {}

impl From<RequestFault> for RequestError {
    ghost from_gives = { λ fault error. error ≡ RequestError.Fault fault };

    fn from(fault: RequestFault) -> RequestError {
        RequestError::Fault(fault)
    }
}

impl<T: Drop> From<AllocFailed<T>> for RequestError {
    ghost from_gives = { λ _ error. error ≡ RequestError.NoMemory };

    fn from(_refused: AllocFailed<T>) -> RequestError {
        RequestError::NoMemory
    }
}
