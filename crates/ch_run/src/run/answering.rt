//! Answers requests that came together, in order.
ghost use Rattle.std.specs.Prelude.{◌≡◌, ◌≤◌, ◌++◌, Bool, List, [], None, length, map, All, OnOk};
ghost use Rattle.ch_graph.specs.declared.limits.TheConstants.{MOST_LISTED};
ghost use Rattle.ch_read.specs.declared.request.Asked.{Asked};
ghost use Rattle.ch_read.specs.declared.request.Asked.TheVariants.{Request as Asks};
ghost use Rattle.ch_read.specs.Requests.{IsRequest, Standing};
ghost use Rattle.ch_run.specs.Serving.{GoesOn, IsRoomFor, places_of, rules_by, situation_of};

use super::first::answer_first;
use super::loading::Checked;
use super::near_texts::NearSearch;
use super::output::write_answers;
use crate::fault::RunFault;
use crate::plan::{Crew, Gate};
use ch_job::Options;
use ch_query::Scratch;
use ch_read::Request;
use ch_text::Output;
use std::alloc::Global;
use std::thread::Threads;

/// The graph, the hierarchy and the options that answer requests. The hierarchy is right for the graph.
#[derive(Drop)]
pub(crate) struct Answering<'a> {
    pub(crate) checked: &'a Checked,
    pub(crate) options: &'a Options,
}

/// The memory that a run over requests keeps from one request to the next.
#[derive(Drop)]
pub(crate) struct Room<'a> {
    /// The scratches in which workers answer queries.
    pub(crate) scratches: Vec<Scratch>,
    /// The places that were given last, with the searches from them, if any were given.
    pub(crate) near: Option<NearSearch<'a>>,
}

impl<'a> Room<'a> {
    /// Makes a room that keeps nothing yet.
    pub(crate) fn new(alloc: Global) -> Room<'a>
        ensures scratches { result.scratches.items ≡ [] }
        ensures near { result.near ≡ None }
    {
        Room {
            scratches: Vec::new(alloc),
            near: None,
        }
    }
}

/// Answers requests in order, with one text for each group of like requests. It adds the bytes that the
/// output took to `written`, up to 2^64 - 1.
pub(crate) fn answer_requests<'a, R: Threads + Sync, O: Output, G: Gate>(
    crew: &Crew<'_, R, G>,
    by: &Answering<'a>,
    room: &mut Room<'a>,
    requests: &[Request],
    output: &mut O,
    written: &mut u64,
) -> Result<(), RunFault>
    requires room { IsRoomFor by.now.options.now.direction by.now.checked.now room.old }
    requires each { All (IsRequest by.now.checked.now.graph.nodes) requests.now }
    requires few { length requests.now ≤ MOST_LISTED }
    ensures answers { (ended : Bool) (reader : Standing) (later : List Asked) → GoesOn (rules_by by.now) O.write_gives by.now.checked.now.graph.nodes ended
        reader reader (map Asks requests.now ++ later) (λ _. later) output.old output.new (situation_of by.now.checked.now (places_of room.old.near))
        (situation_of by.now.checked.now (places_of room.new.near)) written.old written.new result }
    ensures room { OnOk result (IsRoomFor by.now.options.now.direction by.now.checked.now room.new) }
{
    let mut rest = requests;
    while !rest.is_empty() {
        let first = answer_first(crew, by, room, rest)?;
        write_answers(output, &first.text, written)?;
        rest = &rest[first.count..];
    }
    Ok(())
}
