//! Batches of requests that came together.
ghost use Rattle.std.specs.Prelude.{◌≡◌, ◌≤◌, ◌++◌, length, map, All};
ghost use Rattle.ch_graph.specs.declared.limits.TheConstants.{MOST_LISTED};
ghost use Rattle.ch_read.specs.declared.request.Asked.TheVariants.{Request as Asks};
ghost use Rattle.ch_read.specs.Requests.{Gives, IsRequest, Standing};
ghost use Rattle.ch_run.specs.Serving.{AreWithin, IsAfter, request_refusal, weights_after};

use crate::fault::{RunFault, Which};
use ch_read::{Asked, NewWeights, Request, RequestError, RequestFault, RequestReader};
use std::alloc::Global;

/// The most requests of a batch.
const TOGETHER: usize = 65_536;

/// Requests that came together, and what comes after them.
#[derive(Drop)]
pub(crate) struct Batch {
    pub(crate) requests: Vec<Request>,
    pub(crate) then: Then,
}

/// What comes after the requests of a batch.
#[derive(Drop)]
pub(crate) enum Then {
    /// More requests may come.
    More,
    /// No further request is whole.
    Nothing,
    /// New weights.
    NewWeights(NewWeights),
    /// The reader stopped for this error.
    Stop(RequestError),
}

/// Gathers the requests that are whole before the next new weights, or the first of them, if there are more than
/// `TOGETHER`.
pub(crate) fn gather(alloc: Global, reader: &mut RequestReader, ended: bool) -> Batch
    ensures nodes { reader.new.nodes ≡ reader.old.nodes }
    ensures given { (gave : Standing) × Gives ended reader.old gave (map Asks result.requests.items ++ weights_after result.then) × IsAfter ended gave reader.new result.then }
    ensures weights { AreWithin reader.old.nodes result.then }
    ensures each { All (IsRequest reader.old.nodes) result.requests.items }
    ensures few { length result.requests.items ≤ MOST_LISTED }
{
    let mut requests = Vec::new(alloc);
    for _ in 0..TOGETHER {
        match reader.next(alloc, ended) {
            Ok(Some(Asked::Weights(weights))) => {
                let then = Then::NewWeights(weights);
                return Batch { requests, then };
            }
            Ok(Some(Asked::Request(request))) => {
                let Ok(()) = requests.push(request) else {
                    let then = Then::Stop(RequestError::NoMemory);
                    return Batch { requests, then };
                };
            }
            Ok(None) => {
                let then = Then::Nothing;
                return Batch { requests, then };
            }
            Err(error) => {
                let then = Then::Stop(error);
                return Batch { requests, then };
            }
        }
    }
    let then = Then::More;
    Batch { requests, then }
}

/// Returns the fault of a run whose reader of requests gives this error.
pub(crate) fn refusal(error: RequestError) -> RunFault
    ensures { result ≡ request_refusal error }
{
    match error {
        RequestError::Fault(RequestFault::Line(fault)) => RunFault::Read(Which::Requests, fault),
        RequestError::Fault(RequestFault::Cells(line)) => RunFault::CellsAt(line),
        RequestError::NoMemory => RunFault::Memory,
    }
}
