//! Writes the text of a run to its output.
ghost use Rattle.std.specs.Prelude.{◌≡◌, ◌^◌, ◌<◌, true, length, flat_map, IfErr};
ghost use Rattle.ch_text.specs.Device.{CanCountOneMore};
ghost use Rattle.ch_run.specs.Run.{IsWrite};
ghost use Rattle.ch_run.specs.Serving.{WritesMore};
ghost use Rattle.ch_run.specs.Story.{Writes};

use crate::fault::RunFault;
use ch_text::{Output, write_all};

/// Returns whether both counts of an output have room for one more failed write. Nothing is written to one that has no room.
fn has_room<O: Output>(output: &O) -> bool
    ensures failures { result ≡ true → CanCountOneMore (O.failed output.now) }
    ensures zeros { result ≡ true → CanCountOneMore (O.idle output.now) }
{
    output.failures() < u64::MAX && output.zeros() < u64::MAX
}

/// Writes the whole text of a run.
pub(crate) fn write_text<O: Output>(output: &mut O, text: &[u8]) -> Result<(), RunFault>
    ensures wrote { Writes O.write_gives output.old output.new (λ bytes. bytes ≡ text.now) result }
{
    if !has_room(output) {
        return Err(RunFault::Memory);
    }
    match write_all(output, text) {
        Ok(()) => Ok(()),
        Err(count) => Err(RunFault::Write(count)),
    }
}

/// Writes the text of a run that was made in parts, part after part.
pub(crate) fn write_parts<O: Output>(output: &mut O, parts: &[Vec<u8>]) -> Result<(), RunFault>
    requires length { length (flat_map (λ part. part.items) parts.now) < 2 ^ 64 }
    ensures wrote { Writes O.write_gives output.old output.new (λ bytes. bytes ≡ flat_map (λ part. part.items) parts.now) result }
{
    if !has_room(output) {
        return Err(RunFault::Memory);
    }
    let mut written = 0;
    for part in parts {
        write_more(output, part, &mut written)?;
    }
    Ok(())
}

/// Writes more answers, and adds their bytes to the count of those written before. Nothing is written to an output that has
/// no room for one more failed write.
pub(crate) fn write_answers<O: Output>(
    output: &mut O,
    answers: &[u8],
    written: &mut u64,
) -> Result<(), RunFault>
    ensures more { WritesMore O.write_gives output.old output.new written.old written.new answers.now result }
{
    if !has_room(output) {
        return Err(RunFault::Memory);
    }
    write_more(output, answers, written)
}

/// Writes more of a text, and adds its bytes to the count of those written before.
fn write_more<O: Output>(output: &mut O, more: &[u8], written: &mut u64) -> Result<(), RunFault>
    requires failures { CanCountOneMore (O.failed output.old) }
    requires zeros { CanCountOneMore (O.idle output.old) }
    ensures more { WritesMore O.write_gives output.old output.new written.old written.new more.now result }
    ensures own { IfErr result IsWrite }
{
    match write_all(output, more) {
        Ok(()) => {
            *written = written.saturating_add(more.len() as u64);
            Ok(())
        }
        Err(count) => Err(RunFault::Write(written.saturating_add(count))),
    }
}
