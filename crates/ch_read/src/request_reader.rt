//! A reader of requests, whose bytes come in parts.
ghost use Rattle.std.specs.Prelude.{◌≡◌, [], None, IfErr, IfOk, OnErr, OnOk};
ghost use Rattle.ch_read.specs.Requests.{Gives, IsErrorAhead, IsGiven, IsUsedUp, at_most_one, fed, starting};
ghost use Rattle.ch_read.specs.RequestSteps.{IsGivenBy, IsStep};

use crate::begun::BegunLists;
use crate::fault::FaultKind;
use crate::pending::Pending;
use crate::request::Asked;
use crate::request_fault::RequestError;
use crate::request_line::{fault_at, read_line};
use std::alloc::{AllocError, Global};
use std::marker::Model;

/// The result of one line.
#[derive(Drop)]
enum Step {
    /// The line completed no request.
    Quiet,
    Given(Asked),
    /// There was no whole line.
    UsedUp,
}

/// A reader of requests on a graph, and of new weights. Contracts see the number of lines that were read, the
/// request that these began, and the bytes after them. The reader keeps no line that it has read, and no request
/// that it has given.
#[derive(Drop)]
pub struct RequestReader {
    nodes: u32,
    line: u64,
    begun: BegunLists,
    pending: Pending,
}

impl Model for RequestReader {
    ghost use Rattle.ch_read.specs.Requests.{Standing};
    ghost use Rattle.ch_read.specs.RequestSteps.{IsBegun};

    ghost Value = { Standing };

    ghost view = { λ r. record { nodes = r.nodes; line = r.line; begun = r.begun; pending = r.pending } };

    ghost invariant = { λ r. IsBegun r.nodes r.begun };
}

impl RequestReader {
    /// Makes a reader of requests on a graph of `nodes` nodes, without any bytes.
    pub fn new(alloc: Global, nodes: u32) -> RequestReader
        ensures { result ≡ starting nodes }
    {
        RequestReader {
            nodes,
            line: 0,
            begun: BegunLists::none(alloc),
            pending: Pending::new(alloc),
        }
    }

    /// Takes the next bytes.
    ///
    /// # Errors
    /// `AllocError` if there is no memory for the bytes. Then none of them was taken.
    pub fn feed(&mut self, bytes: &[u8]) -> Result<(), AllocError>
        ensures fed { OnOk result (self.new ≡ fed self.old bytes.now) }
        ensures same { OnErr result (self.new ≡ self.old) }
    {
        self.pending.extend(bytes)
    }

    /// Returns the next whole request or new weights, or `None` if no line completes any. `ended` says that the input has
    /// ended: then its last line needs no line feed, and `None` means that everything was read.
    ///
    /// # Errors
    /// The next fault, which each further call returns again, or `NoMemory`. The reader then stands before the
    /// line that met it.
    pub fn next(&mut self, alloc: Global, ended: bool) -> Result<Option<Asked>, RequestError>
        ensures nodes { self.new.nodes ≡ self.old.nodes }
        ensures given { IfOk result (λ given. Gives ended self.old self.new (at_most_one given)) }
        ensures used_up { IfOk result (λ given. given ≡ None → IsUsedUp ended self.new) }
        ensures fault { IfErr result (IsErrorAhead ended self.old) }
        ensures same_or_on { OnErr result (Gives ended self.old self.new []) }
        ensures within { IfOk result (IsGiven self.old.nodes) }
    {
        loop {
            match self.step(alloc, ended)? {
                Step::Quiet => {}
                Step::Given(asked) => return Ok(Some(asked)),
                Step::UsedUp => return Ok(None),
            }
        }
    }

    /// Reads a line, if one is whole.
    fn step(&mut self, alloc: Global, ended: bool) -> Result<Step, RequestError>
        ensures nodes { self.new.nodes ≡ self.old.nodes }
        ensures step { IfOk result (IsStep ended self.old self.new) }
        ensures fault { IfErr result (IsErrorAhead ended self.old) }
        ensures within { IfOk result (IsGivenBy self.old.nodes) }
        ensures same { OnErr result (self.new ≡ self.old) }
    {
        let line = self.line.saturating_add(1);
        let Some((text, taken)) = self.pending.line(ended) else {
            if self.pending.is_long() {
                return Err(RequestError::Fault(fault_at(line, FaultKind::BadLine)));
            }
            self.pending.note_searched();
            if ended && !self.begun.is_whole() {
                return Err(RequestError::Fault(fault_at(line, FaultKind::TooFew)));
            }
            return Ok(Step::UsedUp);
        };
        let given = read_line(alloc, self.nodes, line, &mut self.begun, text)?;
        self.line = line;
        self.pending.advance(taken);
        match given {
            Some(asked) => Ok(Step::Given(asked)),
            None => Ok(Step::Quiet),
        }
    }
}
