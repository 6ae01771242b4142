//! Devices over the readers and writers of `std`.
//!
//! Contracts know the bytes of these devices if they know those of the reader or writer. They know those
//! of a stream in memory, but not those of a file or of a stream of the system.

ghost use Rattle.std.specs.Prelude.{◌≡◌, ◌+◌, ◌≤◌, ℕ, List, Option, Result, IfOk, length};
ghost use Rattle.std.specs.Io.{ReadsAtMost, WritesAtMost};
ghost use Rattle.std.specs.Io.KnownBytes.{ReadConsumes, WriteAppends};
ghost use Rattle.std.specs.declared.io.Error.{Error as IoError};
ghost use Rattle.ch_text.specs.Calls.{IsDeviceRead, IsDeviceWrite, IsReadOf, IsWriteOf};
ghost use Rattle.ch_text.specs.Device.{CanCountOneMore, idle_writes, failures_in};
ghost use Rattle.ch_text.specs.Told.{reader_tells, writer_tells};

use super::{DeviceFault, Input, Output};
use std::io::{self, ErrorKind, Read, Write};

/// A source that is read by one call at a time: any reader of `std`.
///
/// The effect of a call has a name here, but no meaning. That is why a clause over all sources says
/// which calls were made.
pub trait ReadOnce {
    // the bytes that are left, if they are known
    ghost remaining: { Self → Option (List ℕ) };
    // what one read may do: the source before, the buffer after, the answer, and the source after
    ghost read_gives: { Self → List ℕ → Result ℕ IoError → Self → Type 0 };

    /// Makes one read of `std`.
    fn read_once(&mut self, buffer: &mut [u8]) -> io::Result<usize>
        ensures bound { ReadsAtMost result buffer.new }
        ensures made { read_gives self.old buffer.new result self.new };

    // a read takes known bytes from the front of those that are left
    ghost tells: { (old : Self) → (buffer : List ℕ) → (answer : Result ℕ IoError) → (new : Self) → read_gives old buffer answer new → ReadConsumes (remaining old) (remaining new) answer buffer };
}

impl<D: Read> ReadOnce for D {
    ghost remaining = { D.Read.remaining };

    ghost read_gives = { λ old buffer result new. ReadsAtMost result buffer × ReadConsumes (D.Read.remaining old) (D.Read.remaining new) result buffer };

    ghost tells = { λ old buffer answer new made. made.1 };

    fn read_once(&mut self, buffer: &mut [u8]) -> io::Result<usize> {
        self.read(buffer)
    }
}

/// A sink that is written to by one call at a time: any writer of `std`. For the name of its effect see
/// [`ReadOnce`].
pub trait WriteOnce {
    // the bytes that the sink holds, if they are known
    ghost contents: { Self → Option (List ℕ) };
    // what one write may do: the sink before, the bytes, the answer, and the sink after
    ghost write_gives: { Self → List ℕ → Result ℕ IoError → Self → Type 0 };

    /// Makes one write of `std`.
    fn write_once(&mut self, bytes: &[u8]) -> io::Result<usize>
        ensures bound { WritesAtMost result bytes.now }
        ensures made { write_gives self.old bytes.now result self.new };

    // a write puts its bytes behind the known bytes of the sink
    ghost tells: { (old : Self) → (bytes : List ℕ) → (answer : Result ℕ IoError) → (new : Self) → write_gives old bytes answer new → WriteAppends (contents old) (contents new) answer bytes };
}

impl<D: Write> WriteOnce for D {
    ghost contents = { D.Write.contents };

    ghost write_gives = { λ old bytes result new. WritesAtMost result bytes × WriteAppends (D.Write.contents old) (D.Write.contents new) result bytes };

    ghost tells = { λ old bytes answer new made. made.1 };

    fn write_once(&mut self, bytes: &[u8]) -> io::Result<usize> {
        self.write(bytes)
    }
}

/// An input over a reader. It makes an interrupted read again.
#[derive(Drop)]
pub struct ReaderInput<D: ReadOnce + Drop> {
    reader: D,
    failures: u64,
}

impl<D: ReadOnce + Drop> ReaderInput<D> {
    /// Makes an input over the reader. Nothing is read yet.
    pub fn new(reader: D) -> Self
        ensures reader { result.reader ≡ reader }
        ensures left { ⟦<ReaderInput<D> as Input>⟧.left result ≡ D.remaining reader }
        ensures failed { ⟦<ReaderInput<D> as Input>⟧.failed result ≡ 0 }
    {
        ReaderInput {
            reader,
            failures: 0,
        }
    }

    /// Returns the reader, where its reads left it.
    pub fn into_reader(self) -> D
        ensures { result ≡ self.reader }
    {
        self.reader
    }
}

/// Reads once, and again after each read that was interrupted.
fn read_uninterrupted<D: ReadOnce>(reader: &mut D, buffer: &mut [u8]) -> io::Result<usize>
    ensures fits { IfOk result (λ count. count ≤ length buffer.new) }
    ensures made { IsReadOf D.read_gives reader.old buffer.old result reader.new buffer.new }
{
    for _ in 0..u64::MAX {
        match reader.read_once(buffer) {
            Err(error) if error.kind() == ErrorKind::Interrupted => {}
            answer => return answer,
        }
    }
    reader.read_once(buffer)
}

impl<D: ReadOnce + Drop> Input for ReaderInput<D> {
    ghost failed = { λ d. d.failures };

    ghost read_gives = { λ old buffer answer new. IsDeviceRead D.read_gives old.reader buffer answer new.reader × (new.failures ≡ old.failures + failures_in answer) };

    ghost left = { λ d. D.remaining d.reader };

    ghost tells = { λ old buffer answer new made. reader_tells D.read_gives D.remaining D.tells old.reader buffer answer new.reader made.0 };

    ghost counts = { λ old buffer answer new made. made.1 };

    // It gives the bytes that the reader gave, and fails if the reader failed.
    fn read(&mut self, buffer: &mut [u8]) -> Result<usize, DeviceFault>
        requires { CanCountOneMore self.old.failures }
        ensures fits { IfOk result (λ count. count ≤ length buffer.new) }
        ensures made { IsDeviceRead D.read_gives self.old.reader buffer.new result self.new.reader
            × (self.new.failures ≡ self.old.failures + failures_in result) }
    {
        match read_uninterrupted(&mut self.reader, buffer) {
            Ok(count) => Ok(count),
            Err(_) => {
                self.failures += 1;
                Err(DeviceFault)
            }
        }
    }

    fn failures(&self) -> u64 {
        self.failures
    }
}

/// An output over a writer. It makes an interrupted write again.
///
/// A writer may keep bytes in a buffer of its own, though no stream of the system does. Bytes in such a
/// buffer count as written, and are not flushed.
#[derive(Drop)]
pub struct WriterOutput<D: WriteOnce + Drop> {
    writer: D,
    failures: u64,
    zeros: u64,
}

impl<D: WriteOnce + Drop> WriterOutput<D> {
    /// Makes an output over the writer. Nothing is written yet.
    pub fn new(writer: D) -> Self
        ensures writer { result.writer ≡ writer }
        ensures taken { ⟦<WriterOutput<D> as Output>⟧.taken result ≡ D.contents writer }
        ensures failed { ⟦<WriterOutput<D> as Output>⟧.failed result ≡ 0 }
        ensures idle { ⟦<WriterOutput<D> as Output>⟧.idle result ≡ 0 }
    {
        WriterOutput {
            writer,
            failures: 0,
            zeros: 0,
        }
    }
}

/// Writes once, and again after each write that was interrupted.
fn write_uninterrupted<D: WriteOnce>(writer: &mut D, bytes: &[u8]) -> io::Result<usize>
    ensures fits { IfOk result (λ count. count ≤ length bytes.now) }
    ensures made { IsWriteOf D.write_gives writer.old bytes.now result writer.new }
{
    for _ in 0..u64::MAX {
        match writer.write_once(bytes) {
            Err(error) if error.kind() == ErrorKind::Interrupted => {}
            answer => return answer,
        }
    }
    writer.write_once(bytes)
}

impl<D: WriteOnce + Drop> Output for WriterOutput<D> {
    ghost failed = { λ d. d.failures };

    ghost idle = { λ d. d.zeros };

    ghost write_gives = { λ old bytes answer new. IsDeviceWrite D.write_gives old.writer bytes answer new.writer
        × (new.failures ≡ old.failures + failures_in answer) × (new.zeros ≡ old.zeros + idle_writes answer bytes) };

    ghost taken = { λ d. D.contents d.writer };

    ghost tells = { λ old bytes answer new made. writer_tells D.write_gives D.contents D.tells old.writer bytes answer new.writer made.0 };

    ghost counts = { λ old bytes answer new made. (made.1, made.2) };

    // It takes the bytes that the writer took, and fails if the writer failed.
    fn write(&mut self, bytes: &[u8]) -> Result<usize, DeviceFault>
        requires failures { CanCountOneMore self.old.failures }
        requires zeros { CanCountOneMore self.old.zeros }
        ensures fits { IfOk result (λ count. count ≤ length bytes.now) }
        ensures made { IsDeviceWrite D.write_gives self.old.writer bytes.now result self.new.writer
            × (self.new.failures ≡ self.old.failures + failures_in result) × (self.new.zeros ≡ self.old.zeros + idle_writes result bytes.now) }
    {
        match write_uninterrupted(&mut self.writer, bytes) {
            Ok(count) => {
                if count == 0 && !bytes.is_empty() {
                    self.zeros += 1;
                }
                Ok(count)
            }
            Err(_) => {
                self.failures += 1;
                Err(DeviceFault)
            }
        }
    }

    fn failures(&self) -> u64 {
        self.failures
    }

    fn zeros(&self) -> u64 {
        self.zeros
    }
}
