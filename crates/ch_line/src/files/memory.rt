//! Files in memory, for tests. Contracts know their bytes.

ghost use Rattle.std.specs.Prelude.{◌≡◌, ◌<◌, ℕ, List};
ghost use Rattle.ch_line.specs.Files.{OpensWhole, state_among, whole_opens};
ghost use Rattle.std.proofs.Common.{ap};

use super::{Files, OpenFault};
use ch_run::{Input, MemoryInput};

/// A file in memory.
#[derive(Clone, Copy, Debug)]
pub struct MemoryFile<'a> {
    pub name: &'a str,
    pub bytes: &'a [u8],
}

/// Files in memory, which are read in portions. Of files with one name, the first is opened.
#[derive(Clone, Copy, Debug)]
pub struct MemoryFiles<'a> {
    files: &'a [MemoryFile<'a>],
    most: usize,
    ghost gives_some: { 0 < most },
}

impl<'a> MemoryFiles<'a> {
    /// Makes files of this list. Each read of their inputs gives at most `most` bytes, where `most` is
    /// at least 1.
    pub fn new(files: &'a [MemoryFile<'a>], most: usize) -> Self
        requires { 0 < most }
        ensures known { (name : List ℕ) → ⟦<MemoryFiles<'a> as Files>⟧.known result name ≡ state_among files.now name }
        ensures most { result.most ≡ most }
    {
        MemoryFiles { files, most }
    }
}

impl<'a> Files for MemoryFiles<'a> {
    type Input = MemoryInput<'a>;

    ghost known = { λ files name. state_among files.files.now name };

    // Each file is opened, whole and in these portions, and no other. Neither call changes the files.
    ghost opens = { λ old name answer new. OpensWhole old.most (state_among old.files.now name) answer × (new ≡ old) };

    ghost closes = { λ old _ new. new ≡ old };

    ghost tells = { λ old name answer new made. (whole_opens old.most (state_among old.files.now name) answer made.0, ap (λ files name. state_among files.files.now name) made.1) };

    ghost keeps = { λ old input new made. ap (λ files name. state_among files.files.now name) made };

    fn open(&mut self, name: &str) -> Result<MemoryInput<'a>, OpenFault> {
        for file in self.files {
            if file.name == name {
                return Ok(MemoryInput::new(file.bytes, self.most));
            }
        }
        Err(OpenFault::Refused)
    }

    fn close(&mut self, _input: MemoryInput<'a>) {}
}
