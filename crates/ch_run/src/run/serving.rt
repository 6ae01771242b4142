//! Reads requests and answers them as they come.
ghost use Rattle.std.specs.Prelude.{◌≡◌, ◌+◌, ◌<◌, ◌≤◌, length, false, [], None, Ok, Err, IfErr, IfOk, IfSome, OnErr, OnOk};
ghost use Rattle.ch_read.specs.Requests.{AreNewWeights, ArePlaces, IsUsedUp, starting};
ghost use Rattle.ch_run.specs.Ask.{Serves, no_places};
ghost use Rattle.ch_text.specs.Device.{CanCountOneMore, failures_in};
ghost use Rattle.ch_text.specs.declared.device.DeviceFault.{DeviceFault as Failure};
ghost use Rattle.ch_run.specs.Run.{reading};
ghost use Rattle.ch_run.specs.Serving.{GoesOn, IsRoomFor, ServesOn, places_kept, places_of, rules_by, rules_in, situation_of, weights_waiting};

use super::answering::{Answering, Room, answer_requests};
use super::batch::{Batch, Then, gather, refusal};
use super::inputs::counts_one_more;
use super::keeping::{KeptPlaces, places_in, room_with};
use super::loading::Checked;
use crate::fault::{RunFault, Which};
use crate::plan::{Crew, Gate};
use ch_job::Options;
use ch_read::{NewWeights, RequestReader};
use ch_text::{Input, Output};
use std::thread::Threads;

/// The most bytes of requests that one read gives.
const ROOM: usize = 65_536;

/// How far a stream of requests is read and answered.
#[derive(Drop)]
struct Stream {
    reader: RequestReader,
    /// Whether the last read found the end.
    ended: bool,
    /// The number of bytes of the answers, up to 2^64 - 1.
    written: u64,
}

/// Reads requests to their end. It answers each one as soon as it is whole, before the next read.
pub(crate) fn serve<R: Threads + Sync, J: Input, O: Output, G: Gate>(
    crew: &Crew<'_, R, G>,
    checked: Checked,
    options: &Options,
    requests: &mut J,
    output: &mut O,
) -> Result<(), RunFault>
    ensures { Serves (rules_in options.now checked.frame) O.write_gives checked.graph.nodes (situation_of checked no_places)
        (reading J.read_gives requests.old requests.new) output.old output.new result }
{
    if !counts_one_more(requests) {
        return Err(RunFault::Memory);
    }
    let mut buffer = Vec::from_elem(crew.alloc, 0, ROOM)?;
    let mut stream = Stream {
        reader: RequestReader::new(crew.alloc, checked.graph().nodes()),
        ended: false,
        written: 0,
    };
    serve_all(
        crew,
        checked,
        options,
        &mut buffer,
        &mut stream,
        requests,
        output,
    )
}

/// Does the same with the caller's buffer for each read, and a stream of which nothing is read. New weights hold for the
/// requests after them.
fn serve_all<R: Threads + Sync, J: Input, O: Output, G: Gate>(
    crew: &Crew<'_, R, G>,
    checked: Checked,
    options: &Options,
    buffer: &mut [u8],
    stream: &mut Stream,
    requests: &mut J,
    output: &mut O,
) -> Result<(), RunFault>
    requires buffer { 0 < length buffer.old }
    requires requests { CanCountOneMore (J.failed requests.old) }
    requires reader { stream.old.reader ≡ starting checked.graph.nodes }
    requires none { (stream.old.ended ≡ false) × (stream.old.written ≡ 0) }
    ensures { Serves (rules_in options.now checked.frame) O.write_gives checked.graph.nodes (situation_of checked no_places)
        (reading J.read_gives requests.old requests.new) output.old output.new result }
{
    let mut current = checked;
    let mut kept = None;
    for _ in 0..u64::MAX {
        let by = Answering {
            checked: &current,
            options,
        };
        let Some(weights) = serve_by(crew, &by, &mut kept, buffer, stream, requests, output)? else {
            return Ok(());
        };
        current = current.weighed(crew, &weights)?;
    }
    Err(RunFault::Memory)
}

/// Reads requests and answers them with the same weights, up to new weights or to the end. `kept` has the places for near
/// rows.
fn serve_by<R: Threads + Sync, J: Input, O: Output, G: Gate>(
    crew: &Crew<'_, R, G>,
    by: &Answering<'_>,
    kept: &mut Option<KeptPlaces>,
    buffer: &mut [u8],
    stream: &mut Stream,
    requests: &mut J,
    output: &mut O,
) -> Result<Option<NewWeights>, RunFault>
    requires buffer { 0 < length buffer.old }
    requires kept { IfSome kept.old (ArePlaces by.now.checked.now.graph.nodes) }
    requires nodes { stream.old.reader.nodes ≡ by.now.checked.now.graph.nodes }
    requires requests { CanCountOneMore (J.failed requests.old) }
    ensures served { ServesOn (rules_by by.now) J.read_gives requests.old requests.new O.write_gives by.now.checked.now.graph.nodes stream.old.ended stream.new.ended
        stream.old.reader stream.new.reader output.old output.new (situation_of by.now.checked.now (places_kept kept.old))
        (situation_of by.now.checked.now (places_kept kept.new)) stream.old.written stream.new.written result }
    ensures kept { IfOk result (λ _. IfSome kept.new (ArePlaces by.now.checked.now.graph.nodes)) }
    ensures nodes { stream.new.reader.nodes ≡ stream.old.reader.nodes }
    ensures reads { IfOk result (λ _. J.failed requests.new ≡ J.failed requests.old) }
    ensures weights { IfOk result (λ given. IfSome given (AreNewWeights by.now.checked.now.graph.nodes)) }
    ensures buffer { length buffer.new ≡ length buffer.old }
{
    let mut room = room_with(crew, by, kept)?;
    let Some(weights) = serve_in(crew, by, &mut room, buffer, stream, requests, output)? else {
        return Ok(None);
    };
    *kept = places_in(crew.alloc, by, &room)?;
    Ok(Some(weights))
}

/// Does the same in this room.
fn serve_in<'a, R: Threads + Sync, J: Input, O: Output, G: Gate>(
    crew: &Crew<'_, R, G>,
    by: &Answering<'a>,
    room: &mut Room<'a>,
    buffer: &mut [u8],
    stream: &mut Stream,
    requests: &mut J,
    output: &mut O,
) -> Result<Option<NewWeights>, RunFault>
    requires buffer { 0 < length buffer.old }
    requires room { IsRoomFor by.now.options.now.direction by.now.checked.now room.old }
    requires nodes { stream.old.reader.nodes ≡ by.now.checked.now.graph.nodes }
    requires requests { CanCountOneMore (J.failed requests.old) }
    ensures served { ServesOn (rules_by by.now) J.read_gives requests.old requests.new O.write_gives by.now.checked.now.graph.nodes stream.old.ended stream.new.ended
        stream.old.reader stream.new.reader output.old output.new (situation_of by.now.checked.now (places_of room.old.near))
        (situation_of by.now.checked.now (places_of room.new.near)) stream.old.written stream.new.written result }
    ensures room { IfOk result (λ _. IsRoomFor by.now.options.now.direction by.now.checked.now room.new) }
    ensures nodes { stream.new.reader.nodes ≡ stream.old.reader.nodes }
    ensures reads { IfOk result (λ _. J.failed requests.new ≡ J.failed requests.old) }
    ensures weights { IfOk result (λ given. IfSome given (AreNewWeights by.now.checked.now.graph.nodes)) }
    ensures buffer { length buffer.new ≡ length buffer.old }
{
    for _ in 0..u64::MAX {
        if let Some(weights) = answer_whole(crew, by, room, stream, output)? {
            return Ok(Some(weights));
        }
        if stream.ended {
            return Ok(None);
        }
        let count = read_once(requests, buffer)?;
        if count == 0 {
            stream.ended = true;
        } else {
            stream.reader.feed(&buffer[..count])?;
        }
    }
    Err(RunFault::Memory)
}

/// Reads requests once.
fn read_once<J: Input>(requests: &mut J, buffer: &mut [u8]) -> Result<usize, RunFault>
    requires { CanCountOneMore (J.failed requests.old) }
    ensures fits { IfOk result (λ count. count ≤ length buffer.new) }
    ensures given { IfOk result (λ count. J.read_gives requests.old buffer.new (Ok count) requests.new) }
    ensures failures { J.failed requests.new ≡ J.failed requests.old + failures_in result }
    ensures failed { OnErr result ((fault : Failure) × J.read_gives requests.old buffer.new (Err fault) requests.new) }
    ensures own { IfErr result (λ fault. fault ≡ RunFault.Device Which.Requests) }
    ensures buffer { length buffer.new ≡ length buffer.old }
{
    match requests.read(buffer) {
        Ok(count) => Ok(count),
        Err(_) => Err(RunFault::Device(Which::Requests)),
    }
}

/// Answers all requests that are whole, up to new weights.
fn answer_whole<'a, R: Threads + Sync, O: Output, G: Gate>(
    crew: &Crew<'_, R, G>,
    by: &Answering<'a>,
    room: &mut Room<'a>,
    stream: &mut Stream,
    output: &mut O,
) -> Result<Option<NewWeights>, RunFault>
    requires room { IsRoomFor by.now.options.now.direction by.now.checked.now room.old }
    requires nodes { stream.old.reader.nodes ≡ by.now.checked.now.graph.nodes }
    ensures answered { GoesOn (rules_by by.now) O.write_gives by.now.checked.now.graph.nodes stream.old.ended stream.old.reader stream.new.reader [] weights_waiting
        output.old output.new (situation_of by.now.checked.now (places_of room.old.near)) (situation_of by.now.checked.now (places_of room.new.near))
        stream.old.written stream.new.written result }
    ensures used_up { IfOk result (λ given. given ≡ None → IsUsedUp stream.old.ended stream.new.reader) }
    ensures ended { stream.new.ended ≡ stream.old.ended }
    ensures nodes { stream.new.reader.nodes ≡ stream.old.reader.nodes }
    ensures room { OnOk result (IsRoomFor by.now.options.now.direction by.now.checked.now room.new) }
    ensures weights { IfOk result (λ given. IfSome given (AreNewWeights by.now.checked.now.graph.nodes)) }
{
    for _ in 0..u64::MAX {
        let Batch { requests, then } = gather(crew.alloc, &mut stream.reader, stream.ended);
        answer_requests(crew, by, room, &requests, output, &mut stream.written)?;
        match then {
            Then::More => {}
            Then::Nothing => return Ok(None),
            Then::NewWeights(weights) => return Ok(Some(weights)),
            Then::Stop(error) => return Err(refusal(error)),
        }
    }
    Err(RunFault::Memory)
}
