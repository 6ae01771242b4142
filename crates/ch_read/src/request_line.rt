//! The checks of a line of requests, and its result.
ghost use Rattle.std.specs.Prelude.{◌≡◌, ◌<◌, ◌≤◌, ◌+◌, ◌*◌, ℕ, [], None, length, IfOk, MatchOption, OnErr, MatchResult};
ghost use Rattle.ch_read.specs.declared.request_fault.RequestFault.TheVariants as RequestFault;
ghost use Rattle.ch_read.specs.Words.{words};
ghost use Rattle.ch_read.specs.Forms.{numbers_after};
ghost use Rattle.ch_read.specs.Names.{node_from, pair_from};
ghost use Rattle.ch_read.specs.Requests.{IsGiven, IsNewWeight, IsRequest, count_or_all, failing_at, is_limit, listed_checks, near_checks, numbers_and_limit, places_checks, places_from, query_checks, row_from, table_fault, table_from, text_fault, wanted, weight_checks, weight_from, weights_checks, weights_from};
ghost use Rattle.ch_read.specs.RequestSteps.{FailsAs, IsBegun, IsLimited, IsLineError, Makes, PassesAs};

use crate::begun::{BegunLists, Purpose};
use crate::check::{check_item, is_letter, split_item};
use crate::fault::{FaultKind, ReadFault};
use crate::form::{Form, Heading, Part};
use crate::new_weights::{MOST_NEW_WEIGHTS, NewWeight};
use crate::number::numbers_of;
use crate::request::{Asked, MOST_LINE, Request};
use crate::request_fault::{RequestError, RequestFault};
use ch_graph::limits::{MOST_LISTED, MOST_WEIGHT};
use ch_work::limits::MOST_CELLS;
use std::alloc::Global;

/// Judges a line. Returns the request or the new weights that it completes, if any, and updates those whose lists are being read.
pub(crate) fn read_line(
    alloc: Global,
    nodes: u32,
    line: u64,
    begun: &mut BegunLists,
    text: &[u8],
) -> Result<Option<Asked>, RequestError>
    requires { IsBegun nodes begun.old }
    ensures value { MatchResult result (Makes nodes line begun.old begun.new text.now) (IsLineError (text_fault nodes line begun.old text.now)) }
    ensures within { IfOk result (λ given. IsGiven nodes given × IsBegun nodes begun.new) }
    ensures same { OnErr result (begun.new ≡ begun.old) }
{
    if text.len() > MOST_LINE {
        return Err(RequestError::Fault(fault_at(line, FaultKind::BadLine)));
    }
    let Some((first, rest)) = split_item(text) else {
        return Ok(None);
    };
    if is_letter(first, b'q') {
        let (from, to) = check_query(nodes, line, begun, rest)?;
        return Ok(Some(Asked::Request(Request::Query(from, to))));
    }
    if is_letter(first, b'r') {
        let (from, to) = check_query(nodes, line, begun, rest)?;
        return Ok(Some(Asked::Request(Request::Route(from, to))));
    }
    if is_letter(first, b'n') {
        return Ok(Some(Asked::Request(check_near(nodes, line, begun, rest)?)));
    }
    if is_letter(first, b'w') {
        begin_weights(line, begun, rest)?;
        return Ok(begun.settle(alloc));
    }
    if is_letter(first, b'a') {
        let weight = check_weight(nodes, line, begun, rest)?;
        begun.push_weight(weight)?;
        return Ok(begun.settle(alloc));
    }
    if is_letter(first, b't') {
        begin_table(line, begun, rest)?;
    } else if is_letter(first, b'p') {
        begin_places(line, begun, rest)?;
    } else if is_letter(first, b's') {
        let node = check_listed(nodes, line, begun, rest)?;
        begun.push(node)?;
    } else {
        return Err(RequestError::Fault(fault_at(line, FaultKind::UnknownLine)));
    }
    Ok(begun.settle(alloc))
}

/// Makes a fault of this kind at a line.
pub(crate) fn fault_at(line: u64, kind: FaultKind) -> RequestFault
    ensures { result ≡ RequestFault.Line (record { line = line; kind = kind }) }
{
    RequestFault::Line(ReadFault { line, kind })
}

/// Judges the rest of a line after its `q` or `r`.
fn check_query(
    nodes: u32,
    line: u64,
    begun: &BegunLists,
    rest: &[u8],
) -> Result<(u32, u32), RequestFault>
    ensures value { let numbers = numbers_after [] 2 (words rest.now) in
        let fault = failing_at line (query_checks nodes begun.now numbers) in
        MatchResult result (PassesAs fault numbers pair_from) (FailsAs fault) }
    ensures within { IfOk result (λ pair. (pair.0 < nodes) × (pair.1 < nodes)) }
{
    if !begun.is_whole() {
        return Err(fault_at(line, FaultKind::TooFew));
    }
    let one = Some(Heading::new(nodes, 1, 0));
    match check_item(Form::Queries(nodes), Part::First, one, 0, rest) {
        Ok(item) => Ok((item.first, item.second)),
        Err(kind) => Err(fault_at(line, kind)),
    }
}

/// Judges the rest of a line after its `n`. Returns the request for its near row.
fn check_near(
    nodes: u32,
    line: u64,
    begun: &BegunLists,
    rest: &[u8],
) -> Result<Request, RequestFault>
    ensures value { let numbers = numbers_and_limit [] 1 (words rest.now) in
        let fault = failing_at line (near_checks nodes begun.now numbers) in
        MatchResult result (PassesAs fault numbers row_from) (FailsAs fault) }
    ensures within { IfOk result (IsRequest nodes) }
{
    if !begun.is_whole() {
        return Err(fault_at(line, FaultKind::TooFew));
    }
    let Some(near) = read_limited(rest, 1) else {
        return Err(fault_at(line, FaultKind::BadLine));
    };
    if near.first < 1 || near.first > u64::from(nodes) {
        return Err(fault_at(line, FaultKind::NodeRange));
    }
    if !is_limit(near.within) {
        return Err(fault_at(line, FaultKind::Sum));
    }
    Ok(Request::Near((near.first - 1) as u32, near.within))
}

/// Judges the rest of a line after its `t`, and begins its table.
fn begin_table(line: u64, begun: &mut BegunLists, rest: &[u8]) -> Result<(), RequestFault>
    ensures value { let numbers = numbers_and_limit [] 2 (words rest.now) in
        let fault = table_fault line begun.old numbers in
        MatchResult result (λ _. PassesAs fault numbers table_from begun.new) (FailsAs fault) }
    ensures within { IfOk result (λ _. (nodes : ℕ) → IsBegun nodes begun.new) }
    ensures same { OnErr result (begun.new ≡ begun.old) }
{
    if !begun.is_whole() {
        return Err(fault_at(line, FaultKind::TooFew));
    }
    let Some(table) = read_limited(rest, 2) else {
        return Err(fault_at(line, FaultKind::BadLine));
    };
    if table.first > MOST_LISTED || table.second > MOST_LISTED {
        return Err(fault_at(line, FaultKind::Size));
    }
    if !is_limit(table.within) {
        return Err(fault_at(line, FaultKind::Sum));
    }
    if table.first * table.second > u64::from(MOST_CELLS) {
        return Err(RequestFault::Cells(line));
    }
    begun.begin(Purpose::Table(table.within), table.first, table.second);
    Ok(())
}

/// Judges the rest of a line after its `p`, and begins its places.
fn begin_places(line: u64, begun: &mut BegunLists, rest: &[u8]) -> Result<(), RequestFault>
    ensures value { let numbers = numbers_after [] 2 (words rest.now) in
        let fault = failing_at line (places_checks begun.old numbers) in
        MatchResult result (λ _. PassesAs fault numbers places_from begun.new) (FailsAs fault) }
    ensures within { IfOk result (λ _. (nodes : ℕ) → IsBegun nodes begun.new) }
    ensures same { OnErr result (begun.new ≡ begun.old) }
{
    if !begun.is_whole() {
        return Err(fault_at(line, FaultKind::TooFew));
    }
    let Some(values) = numbers_of(rest, 2) else {
        return Err(fault_at(line, FaultKind::BadLine));
    };
    let places = values[0];
    let count = values[1];
    if places > MOST_LISTED || count > MOST_LISTED {
        return Err(fault_at(line, FaultKind::Size));
    }
    begun.begin(Purpose::Places(count_or_all(count as u32)), 0, places);
    Ok(())
}

/// Returns the greatest number of places in a near row, or `None` for 0, which stands for all.
fn count_or_all(count: u32) -> Option<u32>
    ensures { result ≡ count_or_all count }
{
    if count == 0 { None } else { Some(count) }
}

/// Judges the rest of a line after its `w`, and begins its new weights.
fn begin_weights(line: u64, begun: &mut BegunLists, rest: &[u8]) -> Result<(), RequestFault>
    ensures value { let numbers = numbers_after [] 1 (words rest.now) in
        let fault = failing_at line (weights_checks begun.old numbers) in
        MatchResult result (λ _. PassesAs fault numbers (weights_from line) begun.new) (FailsAs fault) }
    ensures within { IfOk result (λ _. (nodes : ℕ) → IsBegun nodes begun.new) }
    ensures same { OnErr result (begun.new ≡ begun.old) }
{
    if !begun.is_whole() {
        return Err(fault_at(line, FaultKind::TooFew));
    }
    let Some(values) = numbers_of(rest, 1) else {
        return Err(fault_at(line, FaultKind::BadLine));
    };
    let weights = values[0];
    if weights > MOST_NEW_WEIGHTS {
        return Err(fault_at(line, FaultKind::Size));
    }
    begun.begin_weights(line, weights);
    Ok(())
}

/// Judges the rest of a line after its `a`. Returns the new weight of its arcs.
fn check_weight(
    nodes: u32,
    line: u64,
    begun: &BegunLists,
    rest: &[u8],
) -> Result<NewWeight, RequestFault>
    ensures value { let numbers = numbers_after [] 3 (words rest.now) in
        let fault = failing_at line (weight_checks nodes begun.now numbers) in
        MatchResult result (PassesAs fault numbers (weight_from line)) (FailsAs fault) }
    ensures within { IfOk result (λ weight. IsNewWeight nodes weight × (length begun.now.weighed < begun.now.weights)) }
{
    let all = Some(Heading::new(nodes, begun.weights(), 0));
    match check_item(Form::Graph, Part::First, all, begun.weight_count(), rest) {
        Ok(item) => Ok(NewWeight {
            from: item.first,
            to: item.second,
            weight: item.weight,
            line,
        }),
        Err(kind) => Err(fault_at(line, kind)),
    }
}

/// Judges the rest of a line after its `s`.
fn check_listed(nodes: u32, line: u64, begun: &BegunLists, rest: &[u8]) -> Result<u32, RequestFault>
    ensures value { let numbers = numbers_after [] 1 (words rest.now) in
        let fault = failing_at line (listed_checks nodes begun.now numbers) in
        MatchResult result (PassesAs fault numbers node_from) (FailsAs fault) }
    ensures within { IfOk result (λ node. (node < nodes) × (length begun.now.listed < wanted begun.now)) }
{
    let all = Some(Heading::new(nodes, begun.wanted(), 0));
    match check_item(Form::Nodes(nodes), Part::First, all, begun.count(), rest) {
        Ok(item) => Ok(item.first),
        Err(kind) => Err(fault_at(line, kind)),
    }
}

/// One or two numbers of a line, and the limit after them, if there is one.
#[derive(Clone, Copy, Debug, PartialEq, Eq)]
struct Limited {
    first: u64,
    /// The second number. If the line has only one number, it is the limit or 0.
    second: u64,
    within: Option<u64>,
}

/// Returns the numbers of the words, or `None` unless there are exactly `count`, or one more, which is the
/// limit.
fn read_limited(rest: &[u8], count: usize) -> Option<Limited>
    requires { count ≤ 2 }
    ensures { let numbers = numbers_and_limit [] count (words rest.now) in MatchOption result (numbers ≡ None) (IsLimited count numbers) }
{
    if let Some(values) = numbers_of(rest, count) {
        let first = values[0];
        let second = values[1];
        return Some(Limited {
            first,
            second,
            within: None,
        });
    }
    let values = numbers_of(rest, count + 1)?;
    let first = values[0];
    let second = values[1];
    let most = values[count];
    Some(Limited {
        first,
        second,
        within: Some(most),
    })
}

/// Whether a limit is at most the greatest distance, or there is no limit.
fn is_limit(within: Option<u64>) -> bool
    ensures { result ≡ is_limit within }
{
    match within {
        Some(most) => most <= MOST_WEIGHT,
        None => true,
    }
}
