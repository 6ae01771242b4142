//! Why the words give no line.

ghost use Rattle.std.specs.Prelude.{◌≡◌, IfOk};
ghost use Rattle.std.specs.String.{string_bytes};
ghost use Rattle.clap.specs.Words.{kind_of};
ghost use Rattle.clap.specs.declared.error.kind.ErrorKind.{ErrorKind as KindOf};
ghost use Rattle.ch_words.specs.Line.{IsRefusedFor, IsShownAs, IsToldBy, IsToldOf, line_status_of};

use clap::error::ErrorKind;
use std::alloc::{AllocError, Global};
use std::fmt;
use thiserror::Error;

/// Why the words give no line.
#[derive(Debug, Drop, Error)]
pub enum LineFault {
    /// The words ask for help or for the version, and this is the text of it.
    #[error("{0}")]
    Help(String),
    /// The words are refused, and this text says why.
    #[error("{0}")]
    Refused(String),
    /// There was not enough memory.
    #[error("chtab: out of memory")]
    NoMemory,
}

impl From<AllocError> for LineFault {
    ghost use Rattle.ch_words.specs.declared.fault.LineFault.TheVariants.{NoMemory};

    ghost from_gives = { λ _ fault. fault ≡ NoMemory };

    fn from(_error: AllocError) -> LineFault {
        LineFault::NoMemory
    }
}

/// Returns the program's exit status if no line is read. It is 0 for help and for the version, 2 for words that
/// are refused, and 3 for a lack of memory.
pub fn line_status(fault: &LineFault) -> u8
    ensures { result ≡ line_status_of fault.now }
{
    match fault {
        LineFault::Help(_) => 0,
        LineFault::Refused(_) => 2,
        LineFault::NoMemory => 3,
    }
}

/// Returns the fault of words that are refused for the reason in the text, or `NoMemory`.
pub fn refused(alloc: Global, text: &str) -> LineFault
    ensures { IsRefusedFor text.now result }
{
    match String::from_str(alloc, text) {
        Ok(text) => LineFault::Refused(text),
        Err(_) => LineFault::NoMemory,
    }
}

/// An error of clap, which says why the words give no line.
///
/// Clap's contracts don't say which text an error shows. Here that text has a name and no meaning. That is why no
/// code can make it up.
pub(crate) trait Refusal {
    // the kind of the error
    ghost kind: { Self → KindOf };

    /// Returns the kind of the error.
    fn reason(&self) -> ErrorKind
        ensures { result ≡ kind self.now };
}

impl Refusal for clap::Error {
    ghost kind = { kind_of };

    fn reason(&self) -> ErrorKind {
        self.kind()
    }
}

/// Returns the text that a value shows.
fn text_of<D: fmt::Display>(alloc: Global, shown: &D) -> Result<String, AllocError>
    ensures { IfOk result (λ text. IsShownAs (D.output shown.now) (string_bytes text)) }
{
    format!(in alloc; "{shown}")
}

/// Returns the fault for an error, with the text that the error shows, or `NoMemory`.
pub(crate) fn fault_of<E: Refusal + fmt::Display>(alloc: Global, error: &E) -> LineFault
    ensures kind { IsToldOf (E.kind error.now) result }
    ensures text { IsToldBy (E.output error.now) result }
{
    let Ok(text) = text_of(alloc, error) else {
        return LineFault::NoMemory;
    };
    match error.reason() {
        ErrorKind::OutOfMemory => LineFault::NoMemory,
        ErrorKind::DisplayHelp | ErrorKind::DisplayVersion => LineFault::Help(text),
        _ => LineFault::Refused(text),
    }
}
