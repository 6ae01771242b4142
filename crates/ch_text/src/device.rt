//! The devices that a run reads its files from and writes its text to.

ghost use Rattle.std.specs.Prelude.{◌≡◌, ◌+◌, ◌≤◌, ℕ, List, Option, Result, Some, codes, length, vec_len, IfOk, IfErr, OnOk};
ghost use Rattle.ch_text.specs.Device.{CanCountOneMore, GivesBytes, TakesBytes, idle_writes, failures_in};
ghost use Rattle.ch_text.specs.Moves.{GaveAll, GaveSome, Took, TookUntilFault};
ghost use Rattle.ch_text.specs.declared.device.DeviceFault.{DeviceFault as Failure};

mod file;
mod memory;

pub use file::{ReadOnce, ReaderInput, WriteOnce, WriterOutput};
pub use memory::{MemoryInput, MemoryOutput};
use std::alloc::{AllocError, Global};
use std::fmt;
use thiserror::Error;

/// The number of bytes that [`read_all`] has room for at each read.
const ROOM: usize = 65_536;

/// The fault of a read or a write that failed.
#[derive(Clone, Copy, Debug, PartialEq, Eq, Error)]
pub struct DeviceFault;

impl fmt::Display for DeviceFault {
    ghost output = { λ _. Some (codes "a device failed") };

    fn fmt<W: fmt::Write>(&self, f: &mut fmt::Formatter<W>) -> fmt::Result {
        f.write_str("a device failed")
    }
}

/// A source of bytes that counts its faults.
///
/// What one read may do has a name here (`read_gives`), but no meaning. Contracts say of an input which reads
/// were made, one after the other, and what each of them gave. No code can claim a read that it did not make,
/// of a file or of any other input. Two laws tie the reads to what a program sees of an input: to its bytes, if
/// they are known, as those of memory are (`tells`), and to its count of failures (`counts`).
pub trait Input {
    // what one read may do: the input before, the buffer after, the answer, and the input after
    ghost read_gives: { Self → List ℕ → Result ℕ Failure → Self → Type 0 };
    // how many reads have failed
    ghost failed: { Self → ℕ };
    // the bytes that are left, if they are known
    ghost left: { Self → Option (List ℕ) };
    // the number of the input. Reads keep it, so a clause can say that an input is still the same one
    ghost origin: { Self → ℕ } = { λ _. 0 };

    /// Reads into the front of `buffer`, and returns the number of bytes read.
    ///
    /// `Ok(0)` into a buffer with room is the end of the input. An `Err` raises the count of failures by
    /// one. If the bytes are known, an `Err` has taken none of them.
    fn read(&mut self, buffer: &mut [u8]) -> Result<usize, DeviceFault>
        requires { CanCountOneMore (failed self.old) }
        ensures fits { IfOk result (λ n. n ≤ length buffer.new) }
        ensures made { read_gives self.old buffer.new result self.new }
        ensures same { origin self.new ≡ origin self.old };

    /// Returns how many reads have failed.
    fn failures(&self) -> u64
        ensures { result ≡ failed self.now };

    // a read takes known bytes from the front of those that are left
    ghost tells: { (old : Self) → (buffer : List ℕ) → (answer : Result ℕ Failure) → (new : Self) → read_gives old buffer answer new → GivesBytes (left old) (left new) answer buffer };
    // a read that failed raises the count of failures by one, and no other read raises it
    ghost counts: { (old : Self) → (buffer : List ℕ) → (answer : Result ℕ Failure) → (new : Self) → read_gives old buffer answer new → failed new ≡ failed old + failures_in answer };
}

/// A sink of bytes that counts its faults.
///
/// What one write may do has a name, but no meaning, as for an [`Input`]. The same laws tie the writes to the
/// bytes that were taken, if they are known (`taken`), and to the counts.
pub trait Output {
    // what one write may do: the output before, the bytes, the answer, and the output after
    ghost write_gives: { Self → List ℕ → Result ℕ Failure → Self → Type 0 };
    // how many writes have failed
    ghost failed: { Self → ℕ };
    // how many writes of some bytes took none
    ghost idle: { Self → ℕ };
    // the bytes that were taken, if they are known
    ghost taken: { Self → Option (List ℕ) };

    /// Writes from the front of `bytes`, and returns the number of bytes taken.
    ///
    /// An `Err` raises the count of failures by one. If the bytes are known, an `Err` has taken none.
    /// Otherwise it may have taken some, which are not counted.
    fn write(&mut self, bytes: &[u8]) -> Result<usize, DeviceFault>
        requires failures { CanCountOneMore (failed self.old) }
        requires zeros { CanCountOneMore (idle self.old) }
        ensures fits { IfOk result (λ n. n ≤ length bytes.now) }
        ensures made { write_gives self.old bytes.now result self.new };

    /// Returns how many writes have failed.
    fn failures(&self) -> u64
        ensures { result ≡ failed self.now };

    /// Returns how many writes of some bytes took none.
    fn zeros(&self) -> u64
        ensures { result ≡ idle self.now };

    // a write puts its bytes behind the known bytes that were taken
    ghost tells: { (old : Self) → (bytes : List ℕ) → (answer : Result ℕ Failure) → (new : Self) → write_gives old bytes answer new → TakesBytes (taken old) (taken new) answer bytes };
    // a write that failed raises the count of failures by one. A write of some bytes that took none raises that of idle writes
    ghost counts: { (old : Self) → (bytes : List ℕ) → (answer : Result ℕ Failure) → (new : Self) → write_gives old bytes answer new → (failed new ≡ failed old + failures_in answer) × (idle new ≡ idle old + idle_writes answer bytes) };
}

/// Why an input wasn't read to its end.
#[derive(Clone, Copy, Debug, PartialEq, Eq, Error)]
pub enum ReadAllFault {
    /// A read failed.
    #[error("a read failed")]
    Device,
    /// There was no memory for the bytes.
    #[error("out of memory")]
    Memory,
}

impl From<AllocError> for ReadAllFault {
    ghost use Rattle.ch_text.specs.declared.device.ReadAllFault.TheVariants.{Memory};

    ghost from_gives = { λ _ fault. fault ≡ Memory };

    fn from(_error: AllocError) -> ReadAllFault {
        ReadAllFault::Memory
    }
}

impl From<DeviceFault> for ReadAllFault {
    ghost use Rattle.ch_text.specs.declared.device.ReadAllFault.TheVariants.{Device};

    ghost from_gives = { λ _ fault. fault ≡ Device };

    fn from(_fault: DeviceFault) -> ReadAllFault {
        ReadAllFault::Device
    }
}

/// Returns a buffer of `size` bytes.
fn buffer_of(alloc: Global, size: usize) -> Result<Vec<u8>, AllocError>
    ensures { IfOk result (λ buffer. vec_len buffer ≡ size) }
{
    Vec::from_elem(alloc, 0, size)
}

/// Reads the input to its end. A read that fails is not tried again.
///
/// # Errors
/// `Device` if a read failed. `Memory` if there is no memory for the bytes. Then no read has failed, and
/// the input is where its reads left it.
pub fn read_all<I: Input>(alloc: Global, input: &mut I) -> Result<Vec<u8>, ReadAllFault>
    requires { CanCountOneMore (I.failed input.old) }
    ensures bytes { IfOk result (λ bytes. GaveAll I.read_gives input.old bytes.items input.new) }
    ensures part { IfErr result (GaveSome I.read_gives input.old input.new) }
    ensures same { I.origin input.new ≡ I.origin input.old }
{
    let mut buffer = buffer_of(alloc, ROOM)?;
    let mut bytes = Vec::new(alloc);
    loop {
        let count = input.read(&mut buffer)?;
        if count == 0 {
            return Ok(bytes);
        }
        bytes.extend_from_slice(&buffer[..count])?;
    }
}

/// Writes all of the bytes, in as many writes as the output needs.
///
/// It ends at the first write that fails, or that takes none of some bytes. The `Err` is the number of
/// bytes that were taken before.
pub fn write_all<O: Output>(output: &mut O, bytes: &[u8]) -> Result<(), u64>
    requires failures { CanCountOneMore (O.failed output.old) }
    requires zeros { CanCountOneMore (O.idle output.old) }
    ensures done { OnOk result (Took O.write_gives output.old bytes.now output.new) }
    ensures part { IfErr result (λ count. TookUntilFault O.write_gives output.old bytes.now count output.new) }
{
    let mut count = 0;
    while count < bytes.len() {
        match output.write(&bytes[count..]) {
            Ok(taken) if taken > 0 => count += taken,
            _ => return Err(count as u64),
        }
    }
    Ok(())
}
