//! Answers the first of the requests that came together.
ghost use Rattle.std.specs.Prelude.{◌≡◌, ◌<◌, ◌≤◌, true, false, ⊤, ◌∷◌, List, None, Some, length, All, IfOk, MatchOption};
ghost use Rattle.ch_graph.specs.declared.limits.TheConstants.{MOST_LISTED};
ghost use Rattle.ch_read.specs.Requests.{ArePlaces, AreTwoLists, IsRequest};
ghost use Rattle.ch_read.specs.RequestLists.{PlaceList};
ghost use Rattle.ch_read.specs.declared.request.Request.{Request as RequestKind};
ghost use Rattle.ch_read.specs.declared.request.Request.TheVariants as RequestOf;
ghost use Rattle.ch_run.specs.Ask.{limit_of};
ghost use Rattle.ch_run.specs.Serving.{AnswersFirst, AreFirstOf, IsAnswerBy, IsRoomFor, IsSearched, asked_for, near_row_of, places_of};

use super::answering::{Answering, Room};
use super::near_texts::NearSearch;
use super::texts::{answers_in, table_by};
use crate::plan::{Crew, Gate};
use crate::routes::has_routes;
use ch_job::Options;
use ch_read::{NearPlaces, Request, TableLists};
use ch_rows::NearTargets;
use ch_text::push_near_row;
use ch_work::joined;
use std::alloc::{AllocError, Global};
use std::thread::Threads;

/// The most near rows of requests that are made together. Their text is in memory at once.
const ROWS_TOGETHER: usize = 4096;

/// The text that answers the first of some requests, and the number of these.
#[derive(Drop)]
pub(crate) struct FirstAnswers {
    pub(crate) text: Vec<u8>,
    pub(crate) count: usize,
}

/// Answers the first request. Queries and near rows like it that come right after it are answered with
/// it.
pub(crate) fn answer_first<'a, R: Threads + Sync, G: Gate>(
    crew: &Crew<'_, R, G>,
    by: &Answering<'a>,
    room: &mut Room<'a>,
    requests: &[Request],
) -> Result<FirstAnswers, AllocError>
    requires room { IsRoomFor by.now.options.now.direction by.now.checked.now room.old }
    requires some { 0 < length requests.now }
    requires each { All (IsRequest by.now.checked.now.graph.nodes) requests.now }
    requires few { length requests.now ≤ MOST_LISTED }
    ensures first { IfOk result (λ first. AnswersFirst (IsAnswerBy by.now) (places_of room.old.near) (places_of room.new.near) requests.now first.text.items first.count) }
    ensures room { IfOk result (λ _. IsRoomFor by.now.options.now.direction by.now.checked.now room.new) }
{
    let rest = &requests[1..];
    match &requests[0] {
        Request::Query(from, to) => first_pairs(crew, by, room, (*from, *to), rest, false),
        Request::Route(from, to) => first_pairs(crew, by, room, (*from, *to), rest, true),
        Request::Near(source, within) => first_rows(crew, by, room, *source, *within, rest),
        Request::Table(lists) => first_table(crew, by, lists),
        Request::Places(places) => take_places(crew, by, room, places),
    }
}

/// Answers a query, and with it the queries like it that come right after it. All have their routes, or
/// all are answered as the run answers queries.
fn first_pairs<R: Threads + Sync, G: Gate>(
    crew: &Crew<'_, R, G>,
    by: &Answering<'_>,
    room: &mut Room<'_>,
    first: (u32, u32),
    rest: &[Request],
    routed: bool,
) -> Result<FirstAnswers, AllocError>
    requires room { IsRoomFor by.now.options.now.direction by.now.checked.now room.old }
    requires each { All (IsRequest by.now.checked.now.graph.nodes) (asked_for routed first ∷ rest.now) }
    requires few { length rest.now < MOST_LISTED }
    ensures first { IfOk result (λ answers. AnswersFirst (IsAnswerBy by.now) (places_of room.old.near) (places_of room.new.near) (asked_for routed first ∷ rest.now) answers.text.items answers.count) }
    ensures room { IfOk result (λ _. IsRoomFor by.now.options.now.direction by.now.checked.now room.new) }
{
    let pairs = pairs_in_front(crew.alloc, first, rest, routed)?;
    let count = pairs.len();
    let text = answers_in(
        crew,
        by.checked.hierarchy(),
        &mut room.scratches,
        &pairs,
        has_routes(by.options, routed),
    )?;
    Ok(FirstAnswers { text, count })
}

/// Returns the nodes of the queries in front that are like this first one.
fn pairs_in_front(
    alloc: Global,
    first: (u32, u32),
    rest: &[Request],
    routed: bool,
) -> Result<Vec<(u32, u32)>, AllocError>
    ensures { IfOk result (λ pairs. AreFirstOf (asked_for routed) (asked_for routed first ∷ rest.now) pairs.items) }
{
    let mut pairs = Vec::new(alloc);
    pairs.push(first)?;
    for request in rest {
        let Some(pair) = pair_of(request, routed) else {
            return Ok(pairs);
        };
        pairs.push(pair)?;
    }
    Ok(pairs)
}

/// Returns the nodes of a query that asks for its route if `routed`, and that does not if not. Returns
/// `None` for any other request.
fn pair_of(request: &Request, routed: bool) -> Option<(u32, u32)>
    ensures { MatchOption result ⊤ (λ pair. request.now ≡ asked_for routed pair) }
{
    match request {
        Request::Query(from, to) if !routed => Some((*from, *to)),
        Request::Route(from, to) if routed => Some((*from, *to)),
        _ => None,
    }
}

/// Answers a near row, and with it those with the same limit that come right after it, at most
/// [`ROWS_TOGETHER`] in all. If no places were given, it answers only this one, and the row is empty.
fn first_rows<R: Threads + Sync, G: Gate>(
    crew: &Crew<'_, R, G>,
    by: &Answering<'_>,
    room: &mut Room<'_>,
    source: u32,
    within: Option<u64>,
    rest: &[Request],
) -> Result<FirstAnswers, AllocError>
    requires room { IsRoomFor by.now.options.now.direction by.now.checked.now room.old }
    requires each { All (IsRequest by.now.checked.now.graph.nodes) (near_row_of within source ∷ rest.now) }
    requires few { length rest.now < MOST_LISTED }
    ensures first { IfOk result (λ answers. AnswersFirst (IsAnswerBy by.now) (places_of room.old.near) (places_of room.new.near) (near_row_of within source ∷ rest.now) answers.text.items answers.count) }
    ensures room { IfOk result (λ _. IsRoomFor by.now.options.now.direction by.now.checked.now room.new) }
{
    let Some(near) = &mut room.near else {
        let mut text = Vec::new(crew.alloc);
        push_near_row(&mut text, source, &[], &[])?;
        return Ok(FirstAnswers { text, count: 1 });
    };
    let sources = sources_in_front(crew.alloc, source, within, rest)?;
    let count = sources.len();
    let within = limit_of(by.options, within);
    let parts = near.text(crew, &sources, within)?;
    let text = joined(crew.alloc, parts)?;
    Ok(FirstAnswers { text, count })
}

/// Returns the sources of the near rows in front with this limit, at most [`ROWS_TOGETHER`]. The first
/// of them is `first`.
fn sources_in_front(
    alloc: Global,
    first: u32,
    within: Option<u64>,
    rest: &[Request],
) -> Result<Vec<u32>, AllocError>
    ensures { IfOk result (λ sources. AreFirstOf (near_row_of within) (near_row_of within first ∷ rest.now) sources.items) }
{
    let mut sources = Vec::new(alloc);
    sources.push(first)?;
    for request in rest {
        let Some(source) = source_of(request, within) else {
            return Ok(sources);
        };
        if sources.len() >= ROWS_TOGETHER {
            return Ok(sources);
        }
        sources.push(source)?;
    }
    Ok(sources)
}

/// Returns the source of a near row with this limit, or `None` for any other request.
fn source_of(request: &Request, within: Option<u64>) -> Option<u32>
    ensures { MatchOption result ⊤ (λ source. request.now ≡ near_row_of within source) }
{
    match request {
        Request::Near(source, other) if *other == within => Some(*source),
        _ => None,
    }
}

/// Returns the limit of a request: its own, or that of the run if it has none.
fn limit_of(options: &Options, within: Option<u64>) -> Option<u64>
    ensures { result ≡ limit_of options.now within }
{
    match within {
        Some(most) => Some(most),
        None => options.within,
    }
}

/// Answers a table.
fn first_table<R: Threads + Sync, G: Gate>(
    crew: &Crew<'_, R, G>,
    by: &Answering<'_>,
    lists: &TableLists,
) -> Result<FirstAnswers, AllocError>
    requires lists { AreTwoLists by.now.checked.now.graph.nodes lists.now }
    ensures { (places : PlaceList) (rest : List RequestKind) → IfOk result (λ answers. AnswersFirst (IsAnswerBy by.now) places places (RequestOf.Table lists.now ∷ rest) answers.text.items answers.count) }
{
    let within = limit_of(by.options, lists.within());
    let sources = lists.sources();
    let targets = lists.targets();
    let text = table_by(crew, by.checked.hierarchy(), sources, targets, within)?;
    Ok(FirstAnswers { text, count: 1 })
}

/// Takes these places instead of those that were given last, and searches from each.
fn take_places<'a, R: Threads + Sync, G: Gate>(
    crew: &Crew<'_, R, G>,
    by: &Answering<'a>,
    room: &mut Room<'a>,
    places: &NearPlaces,
) -> Result<FirstAnswers, AllocError>
    requires room { IsRoomFor by.now.options.now.direction by.now.checked.now room.old }
    requires places { ArePlaces by.now.checked.now.graph.nodes places.now }
    ensures first { (rest : List RequestKind) → IfOk result (λ answers. AnswersFirst (IsAnswerBy by.now) (places_of room.old.near) (places_of room.new.near) (RequestOf.Places places.now ∷ rest) answers.text.items answers.count) }
    ensures room { IfOk result (λ _. IsRoomFor by.now.options.now.direction by.now.checked.now room.new) }
{
    // The memory of the earlier searches is freed for these.
    room.near = None;
    room.near = Some(search_from(crew, by, places.nodes(), places.count())?);
    Ok(FirstAnswers {
        text: Vec::new(crew.alloc),
        count: 1,
    })
}

/// Searches from each of these places, of which a near row has at most `count`.
pub(crate) fn search_from<'a, R: Threads + Sync, G: Gate>(
    crew: &Crew<'_, R, G>,
    by: &Answering<'a>,
    nodes: &[u32],
    count: Option<u32>,
) -> Result<NearSearch<'a>, AllocError>
    requires places { ArePlaces by.now.checked.now.graph.nodes (record { nodes = nodes.now; count = count }) }
    ensures places { IfOk result (λ near. places_of (Some near) ≡ record { nodes = nodes.now; count = count }) }
    ensures searched { IfOk result (λ near. IsSearched by.now.options.now.direction by.now.checked.now (Some near)) }
{
    let direction = by.options.direction;
    let hierarchy = by.checked.hierarchy();
    let near = NearTargets::search(crew, hierarchy, direction, nodes, None, count)?;
    Ok(NearSearch::new(crew.alloc, near, count))
}
