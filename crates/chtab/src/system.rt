//! The system's side of the program: its words, its files and its streams.
//!
//! Each call of `std` that the program makes of the system has a name here, and no meaning: to open a file, to let
//! it go, to read it, to give the streams, to write to one, and to tell the words of the command line. That is why the
//! contract of [`start`] says which of these calls were made, and what the program did with their answers. That a call does what
//! `std` says of it is trusted. No contract of `std` says which words there are, or which bytes a file has.

ghost use Rattle.std.specs.Prelude.{◌≡◌, ℕ, List, MatchResult, Result, String as StringOf, Vec as VecOf, map, ⊤};
ghost use Rattle.std.proofs.Common.{refl};
ghost use Rattle.std.specs.String.{string_bytes};
ghost use Rattle.std.specs.declared.io.Error.{Error as IoError};
ghost use Rattle.std.specs.declared.alloc.Global.{Global as GlobalOf};
ghost use Rattle.ch_line.specs.Files.{FileState};
ghost use Rattle.ch_text.specs.declared.device.file.ReaderInput.{ReaderInput as InputOf};
ghost use Rattle.ch_text.specs.declared.device.file.WriterOutput.{WriterOutput as OutputOf};
ghost use Rattle.chtab.specs.Program.{AnswersFault, IsAnswer, IsEnd};
ghost use Rattle.chtab.specs.System.{AreWords, IsOpening};
ghost use Rattle.chtab.specs.declared.program.ProgramFault.{ProgramFault as FaultOf};
ghost use Rattle.chtab.specs.declared.system.SystemFiles.{SystemFiles as FilesOf};
ghost use Rattle.ch_words.specs.declared.fault.LineFault.{LineFault as LineFaultOf};

use crate::program::{self, System};
use ch_line::{Files, OpenFault};
use ch_run::{Input, Output, ReadOnce, ReaderInput, WriteOnce, WriterOutput};
use ch_watch::{Lines, Timer, Watcher};
use ch_words::{LineFault, refused};
use std::alloc::Global;
use std::io::{self, ErrorKind, IsTerminal, Stderr, Stdin, Stdout};
use std::rt::Env;
use std::thread::Threads;
use std::{env, fs, rt};

/// What opens files by one call of `std` each, and lets them go. The effect of a call has a name here, but no meaning.
pub trait OpenOnce {
    type File: ReadOnce + Drop;

    // what one opening may do: the state before, the name, the answer, and the state after
    ghost open_gives: { Self → List ℕ → Result Self.File IoError → Self → Type 0 };
    // what letting a file go may do: the state before, the file as its reads left it, and the state after
    ghost close_gives: { Self → Self.File → Self → Type 0 };

    /// Makes one opening of `std`.
    fn open_once(&mut self, name: &str) -> io::Result<Self::File>
        ensures made { open_gives self.old name.now result self.new };

    /// Lets the file go, which closes it.
    fn close_once(&mut self, file: Self::File)
        ensures made { close_gives self.old file self.new };
}

/// The files of the host.
#[derive(Drop)]
pub struct HostFiles<'a, R: rt::Files> {
    rt: &'a R,
}

impl<'a, R: rt::Files> HostFiles<'a, R> {
    /// Makes the files of this host.
    pub fn new(rt: &'a R) -> Self
        ensures { result.rt ≡ rt.entry }
    {
        HostFiles { rt }
    }
}

impl<'a, R: rt::Files> OpenOnce for HostFiles<'a, R> {
    type File = R::File;

    ghost open_gives = { λ _ _ _ _. ⊤ };

    ghost close_gives = { λ _ _ _. ⊤ };

    fn open_once(&mut self, name: &str) -> io::Result<R::File> {
        fs::open(self.rt, name)
    }

    fn close_once(&mut self, _file: R::File) {}
}

/// The files that one opens by their names, one call of `std` for each.
#[derive(Drop)]
pub struct SystemFiles<P: OpenOnce + Drop> {
    opener: P,
}

impl<P: OpenOnce + Drop> SystemFiles<P> {
    /// Makes the files that this opens.
    pub fn new(opener: P) -> Self
        ensures { result.opener ≡ opener }
    {
        SystemFiles { opener }
    }
}

impl<P: OpenOnce + Drop> Files for SystemFiles<P> {
    type Input = ReaderInput<P::File>;

    ghost known = { λ _ _. FileState.Untold };

    // One opening of the very name was made, and the input reads the very file that it gave. A fault tells why it gave none
    ghost opens = { λ old name answer new. (made : Result P.File IoError) × P.open_gives old.opener name made new.opener × IsOpening made answer };

    // The file that was read is let go
    ghost closes = { λ old input new. P.close_gives old.opener input.reader new.opener };

    ghost tells = { λ old name answer new made. (tt, refl) };

    ghost keeps = { λ old input new made. refl };

    fn open(&mut self, name: &str) -> Result<ReaderInput<P::File>, OpenFault> {
        match self.opener.open_once(name) {
            Ok(file) => Ok(ReaderInput::new(file)),
            Err(error) if error.kind() == ErrorKind::OutOfMemory => Err(OpenFault::Memory),
            Err(_) => Err(OpenFault::Refused),
        }
    }

    fn close(&mut self, input: ReaderInput<P::File>) {
        self.opener.close_once(input.into_reader());
    }
}

/// What tells the words of the command line by one call of `std`. The effect of the call has a name here, but no meaning.
pub trait WordsOnce {
    // what the call may answer
    ghost words_give: { Self → Result (VecOf (StringOf GlobalOf) GlobalOf) IoError → Type 0 };

    /// Asks `std` for all words, the program's name among them.
    fn words_once(&self, alloc: Global) -> io::Result<Vec<String>>
        ensures made { words_give self.now result };
}

impl<R: Env + AllocGlobal> WordsOnce for R {
    ghost words_give = { λ _ _. ⊤ };

    fn words_once(&self, alloc: Global) -> io::Result<Vec<String>> {
        Ok(env::args(self)?.collect(alloc)?)
    }
}

/// Returns the words after the program's name.
///
/// # Errors
/// `Refused` for a word that is not UTF-8; `NoMemory`.
pub fn words_of<R: WordsOnce>(rt: &R, alloc: Global) -> Result<Vec<String>, LineFault>
    ensures { (told : Result (VecOf (StringOf GlobalOf) GlobalOf) IoError) × R.words_give rt.now told × AreWords told result }
{
    match rt.words_once(alloc) {
        Ok(mut words) => {
            if !words.is_empty() {
                words.remove(0);
            }
            Ok(words)
        }
        Err(error) if error.kind() == ErrorKind::OutOfMemory => Err(LineFault::NoMemory),
        Err(_) => Err(refused(alloc, "chtab: a word is not UTF-8\n")),
    }
}

/// What gives the streams of a program. The effect of the one call has a name here, but no meaning. The call takes the
/// giver, so that no code can make it twice.
pub trait StreamsOnce {
    type Input: ReadOnce + Drop;

    type Output: WriteOnce + Drop;

    type Errors: WriteOnce + Drop;

    type Terminal: IsTerminal + Lines + Drop;

    // what the call may give: standard input, standard output, and standard error
    ghost streams_give: { Self → Self.Input → Self.Output → Self.Errors → Type 0 };

    /// Takes standard input, standard output and standard error. The last stream is standard error too, for reports of
    /// progress.
    fn streams_once(self) -> (Self::Input, Self::Output, Self::Errors, Self::Terminal)
        ensures made { streams_give self result.0 result.1 result.2 };
}

impl StreamsOnce for &HostRuntime {
    type Input = Stdin;

    type Output = Stdout;

    type Errors = Stderr;

    type Terminal = Stderr;

    ghost streams_give = { λ _ _ _ _. ⊤ };

    fn streams_once(self) -> (Stdin, Stdout, Stderr, Stderr) {
        (self.stdin(), self.stdout(), self.stderr(), self.stderr())
    }
}

/// Runs the program on the words of its command line, over the files and the streams that these give, and returns its
/// exit status. Reports of progress go to the terminal. It gets them if the words ask for them, or if it is a terminal
/// and a stage takes long.
pub fn start<R, P, S>(rt: &R, opener: P, streams: S) -> u8
where
    R: Threads + Timer + AllocGlobal + WordsOnce,
    P: OpenOnce + Drop,
    S: StreamsOnce,
    ensures { (told : Result (VecOf (StringOf GlobalOf) GlobalOf) IoError) × (words : Result (VecOf (StringOf GlobalOf) GlobalOf) LineFaultOf) × (answer : Result Unit FaultOf)
        × (files : FilesOf P P.File) × (files' : FilesOf P P.File) × (requests : InputOf S.Input) × (requests' : InputOf S.Input)
        × (output : OutputOf S.Output) × (output' : OutputOf S.Output) × (errors : OutputOf S.Errors) × (errors' : OutputOf S.Errors)
        × (files.opener ≡ opener) × S.streams_give streams requests.reader output.writer errors.writer
        × R.words_give rt.now told × AreWords told words
        × MatchResult words
        (λ list. IsAnswer ⟦<SystemFiles<P> as Files>⟧.opens ⟦<SystemFiles<P> as Files>⟧.closes
        ⟦<ReaderInput<P::File> as Input>⟧.read_gives ⟦<ReaderInput<P::File> as Input>⟧.origin
        ⟦<ReaderInput<S::Input> as Input>⟧.read_gives ⟦<ReaderInput<S::Input> as Input>⟧.failed
        ⟦<WriterOutput<S::Output> as Output>⟧.write_gives ⟦<WriterOutput<S::Output> as Output>⟧.failed ⟦<WriterOutput<S::Output> as Output>⟧.idle
        (map string_bytes list.items) files files' requests requests' output output' answer)
        (λ fault. (files' ≡ files) × (requests' ≡ requests)
        × AnswersFault ⟦<WriterOutput<S::Output> as Output>⟧.write_gives fault output output' answer)
        × IsEnd ⟦<WriterOutput<S::Errors> as Output>⟧.write_gives answer errors errors' result }
{
    let (input, output, errors, terminal) = streams.streams_once();
    let watcher = Watcher::new(rt, &terminal, rt.alloc(), terminal.is_terminal());
    let system = System {
        rt,
        alloc: rt.alloc(),
    };
    let words = words_of(rt, rt.alloc());
    program::run(
        &system,
        &mut SystemFiles::new(opener),
        &mut ReaderInput::new(input),
        &mut WriterOutput::new(output),
        &mut WriterOutput::new(errors),
        words,
        &watcher,
    )
}
