//! Files that are opened by their names.

ghost use Rattle.std.specs.Prelude.{◌≡◌, ℕ, List, Result, IfOk};
ghost use Rattle.ch_line.specs.Files.{FileState, Opens};
ghost use Rattle.ch_line.specs.declared.files.OpenFault.{OpenFault as FaultOf};

mod memory;

use ch_run::Input;
pub use memory::{MemoryFile, MemoryFiles};
use thiserror::Error;

/// Why a file wasn't opened.
#[derive(Clone, Copy, Debug, PartialEq, Eq, Error)]
pub enum OpenFault {
    /// The system refused it.
    #[error("the file cannot be opened")]
    Refused,
    /// There was not enough memory.
    #[error("out of memory")]
    Memory,
}

/// Opens files by their names, and closes them.
///
/// What one call may do has a name here (`opens`, `closes`), but no meaning. That is why a clause over any files says
/// exactly which files were opened and closed, under which names.
///
/// Each implementation also says what contracts know of a name (`known`). With files in memory, they know which names
/// have a file, and its bytes. With the system's files, they know nothing. Two laws tie the calls to that.
pub trait Files {
    type Input: Input + Drop;

    // the state of the file of this name, as far as contracts know it
    ghost known: { Self → List ℕ → FileState };
    // the calls of `open` that may happen: the files before, the name, the answer, and the files after
    ghost opens: { Self → List ℕ → Result Self.Input FaultOf → Self → Type 0 };
    // the calls of `close` that may happen: the files before, the opened file as it was left, and the files after
    ghost closes: { Self → Self.Input → Self → Type 0 };

    /// Opens the file of this name, at its first byte.
    fn open(&mut self, name: &str) -> Result<Self::Input, OpenFault>
        ensures fresh { IfOk result (λ input. Self.Input.failed input ≡ 0) }
        ensures made { opens self.old name.now result self.new };

    /// Closes a file that was opened.
    fn close(&mut self, input: Self::Input)
        ensures made { closes self.old input self.new };

    // an opened file has the bytes that are known of its name, and a missing file is not opened
    ghost tells: { (old : Self) → (name : List ℕ) → (answer : Result Self.Input FaultOf) → (new : Self) → opens old name answer new → Opens Self.Input.left (known old name) answer × (known new ≡ known old) };
    // what is known of names stays
    ghost keeps: { (old : Self) → (input : Self.Input) → (new : Self) → closes old input new → known new ≡ known old };
}
