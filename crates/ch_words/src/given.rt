//! The values that the words give to the arguments of a tool.

ghost use Rattle.std.specs.Prelude.{◌≡◌, ◌≤◌, ◌⊎◌, IfErr, IfOk, IfSome, IsNone, Some, codes, option_map};
ghost use Rattle.std.specs.String.{string_bytes};
ghost use Rattle.clap.specs.Words.{first_of, found_of, kind_of, rows_of};
ghost use Rattle.clap.specs.declared.error.kind.ErrorKind.TheVariants.{ArgumentConflict, WrongNumberOfValues};
ghost use Rattle.ch_graph.specs.declared.limits.TheConstants.{MOST_WEIGHT};
ghost use Rattle.ch_work.specs.Plan.{IsWithinLimits};
ghost use Rattle.ch_job.specs.Job.{AreAllowed, IsCount};
ghost use Rattle.ch_words.specs.Line.{AreFilesIn, AreFlagsIn, AreRefusedLists, AreRefusedOrders, IsAllowed, IsCustomizableAlone, IsCustomizableMessage, IsCustomizableMixed, IsDirectionIn, IsFlagIn, IsGivenBy, IsMixMessage, IsMixed, IsOrderIn, IsOrdersMessage, IsQuickIn, IsPlanIn, IsRefusedMix, IsSourceIn, IsToldOf, IsUnmixed, fresh_in, is_given, name_of, number_in, place_of};

use crate::fault::{LineFault, fault_of};
use crate::form::{near_command, tool_command};
use crate::line::Line;
use ch_graph::limits::{MOST_HOPS, MOST_LISTED, MOST_WEIGHT};
use ch_job::{Direction, HopBound, Job, Options, OrderBy, Percent, Question, Source, Sources};
use ch_work::Plan;
use ch_work::limits::{MOST_PIECE, MOST_WORKERS};
use clap::ArgMatches;
use clap::error::ErrorKind;
use std::alloc::{AllocError, Global};

/// While a hierarchy is built, workers share a job only if it has at least this many nodes.
const WIDE: u32 = 64;

/// Returns the file of this name, if one is given.
fn file_given(
    alloc: Global,
    matches: &ArgMatches<'_>,
    name: &str,
) -> Result<Option<String>, AllocError>
    ensures { IfOk result (λ file. option_map string_bytes file ≡ first_of name.now (rows_of (found_of matches.now))) }
{
    match matches.get_str(name) {
        Some(file) => Ok(Some(String::from_str(alloc, file)?)),
        None => Ok(None),
    }
}

/// Returns the file of this name. Clap has refused words without it.
fn file_of(alloc: Global, matches: &ArgMatches<'_>, name: &str) -> Result<String, AllocError>
    ensures { IfOk result (λ file. Some (string_bytes file) ≡ first_of name.now (rows_of (found_of matches.now))) }
{
    match file_given(alloc, matches, name)? {
        Some(file) => Ok(file),
        None => Err(AllocError),
    }
}

/// Returns the question of the tool of this name, with the files that its arguments are given. Clap has refused words
/// that name no tool.
///
/// # Errors
/// `Refused` for lists that `near` doesn't read; `NoMemory`.
fn question_of(
    alloc: Global,
    name: &str,
    matches: &ArgMatches<'_>,
) -> Result<Question<String>, LineFault>
    ensures named { IfOk result (λ question. name.now ≡ name_of question) }
    ensures files { IfOk result (AreFilesIn (rows_of (found_of matches.now))) }
    ensures refused { IfErr result (AreRefusedLists name.now (rows_of (found_of matches.now))) }
{
    match name {
        "dist" => Ok(Question::Queries(file_of(alloc, matches, "QUERIES")?)),
        "table" => Ok(Question::Table {
            sources: file_of(alloc, matches, "SOURCES")?,
            targets: file_of(alloc, matches, "TARGETS")?,
        }),
        "near" => near_of(alloc, matches),
        "save" => Ok(Question::Hierarchy),
        "ask" => Ok(Question::Requests),
        _ => Err(LineFault::NoMemory),
    }
}

/// Returns the question of near rows: from a list of sources, or with `--all` from each node.
///
/// # Errors
/// `Refused` for a wrong number of lists: `--all` needs one, and otherwise two are needed. Clap only
/// knows that there are one or two. `NoMemory`.
fn near_of(alloc: Global, matches: &ArgMatches<'_>) -> Result<Question<String>, LineFault>
    ensures named { IfOk result (λ question. codes "near" ≡ name_of question) }
    ensures files { IfOk result (AreFilesIn (rows_of (found_of matches.now))) }
    ensures refused { IfErr result (AreRefusedLists (codes "near") (rows_of (found_of matches.now))) }
{
    // Clap has refused words without lists.
    let Some(lists) = matches.get_strs("LISTS") else {
        return Err(LineFault::NoMemory);
    };
    if flag_of(matches, "all") {
        if lists.len() != 1 {
            return Err(other_lists(alloc));
        }
        let targets = String::from_str(alloc, lists[0])?;
        let sources = Sources::All;
        return Ok(Question::Near { sources, targets });
    }
    if lists.len() != 2 {
        return Err(other_lists(alloc));
    }
    let sources = String::from_str(alloc, lists[0])?;
    let targets = String::from_str(alloc, lists[1])?;
    let sources = Sources::Listed(sources);
    Ok(Question::Near { sources, targets })
}

/// Returns the fault for lists that `near` doesn't read.
fn other_lists(alloc: Global) -> LineFault
    ensures { IsToldOf WrongNumberOfValues result }
{
    match lists_error(alloc) {
        Ok(error) => fault_of(alloc, &error),
        Err(_) => LineFault::NoMemory,
    }
}

/// Makes clap's error for lists that `near` doesn't read.
fn lists_error(alloc: Global) -> Result<clap::Error, AllocError>
    ensures { IfOk result (λ error. kind_of error ≡ WrongNumberOfValues) }
{
    near_command(alloc)?.error(
        ErrorKind::WrongNumberOfValues,
        "SOURCES and TARGETS are needed, or with --all TARGETS alone",
    )
}

/// Returns the number of this name. Clap has refused words that don't give one from 1 to `most`.
fn number_of(matches: &ArgMatches<'_>, name: &str, most: u32) -> Result<u32, AllocError>
    ensures range { IfOk result (λ number. (1 ≤ number) × (number ≤ most)) }
    ensures given { IfOk result (λ number. Some number ≡ number_in (rows_of (found_of matches.now)) name.now) }
{
    match matches.get_one(name) {
        Some(number) if 1 <= number && number <= most => Ok(number),
        _ => Err(AllocError),
    }
}

/// Returns the number of this name, if one is given. Clap has refused numbers above `most`.
fn limit_given(matches: &ArgMatches<'_>, name: &str, most: u64) -> Result<Option<u64>, AllocError>
    ensures range { IfOk result (λ limit. IfSome limit (λ number. number ≤ most)) }
    ensures given { IfOk result (λ limit. limit ≡ number_in (rows_of (found_of matches.now)) name.now) }
{
    match matches.try_get_one::<u64>(name) {
        Ok(None) => Ok(None),
        Ok(Some(number)) if number <= most => Ok(Some(number)),
        _ => Err(AllocError),
    }
}

/// Returns the most targets of a near row, if a number is given. Clap has refused 0 and numbers above
/// [`MOST_LISTED`].
fn count_given(matches: &ArgMatches<'_>) -> Result<Option<u32>, AllocError>
    ensures range { IfOk result (λ count. IfSome count IsCount) }
    ensures given { IfOk result (λ count. count ≡ number_in (rows_of (found_of matches.now)) (codes "count")) }
{
    match limit_given(matches, "count", MOST_LISTED)? {
        None => Ok(None),
        Some(0) => Err(AllocError),
        Some(count) => Ok(Some(count as u32)),
    }
}

/// Returns the per cent of the nodes that are ordered afresh: the given number, or 5. Clap has refused numbers above
/// 100.
fn fresh_given(matches: &ArgMatches<'_>) -> Result<Percent, AllocError>
    ensures { IfOk result (λ fresh. fresh.number ≡ fresh_in (rows_of (found_of matches.now))) }
{
    match limit_given(matches, "fresh", 100)? {
        None => Ok(Percent { number: 5 }),
        Some(fresh) => Ok(Percent {
            number: fresh as u32,
        }),
    }
}

/// Returns whether the flag of this name is given.
fn flag_of(matches: &ArgMatches<'_>, name: &str) -> bool
    ensures { IsFlagIn (rows_of (found_of matches.now)) name.now result }
{
    matches.get_flag(name)
}

/// Returns the order that the words choose for a tool that writes routes.
fn order_of(matches: &ArgMatches<'_>) -> OrderBy
    ensures { IsOrderIn (rows_of (found_of matches.now)) result }
{
    if flag_of(matches, "deep") {
        OrderBy::Depth
    } else {
        OrderBy::Difference
    }
}

/// Returns the order that the words choose for a hierarchy that is saved, and whether they choose the one that takes the
/// least time to find in its place.
///
/// # Errors
/// `Refused` if both orders are given; `NoMemory`.
fn saved_order_of(
    alloc: Global,
    question: &Question<String>,
    matches: &ArgMatches<'_>,
) -> Result<(OrderBy, bool), LineFault>
    ensures order { IfOk result (λ (order, quick). IsOrderIn (rows_of (found_of matches.now)) order) }
    ensures quick { IfOk result (λ (order, quick). IsQuickIn (rows_of (found_of matches.now)) quick) }
    ensures refused { IfErr result (AreRefusedOrders (rows_of (found_of matches.now))) }
{
    match (flag_of(matches, "deep"), flag_of(matches, "quick")) {
        (false, false) => Ok((OrderBy::Difference, false)),
        (false, true) => Ok((OrderBy::Difference, true)),
        (true, false) => Ok((OrderBy::Depth, false)),
        (true, true) => Err(two_orders(alloc, question, matches)),
    }
}

/// Returns the fault for both orders.
fn two_orders(alloc: Global, question: &Question<String>, matches: &ArgMatches<'_>) -> LineFault
    ensures { IsToldOf ArgumentConflict result }
{
    conflict(alloc, question, orders_message(matches))
}

/// Returns why both orders are refused. Like clap, the message names first the one that is given first.
fn orders_message(matches: &ArgMatches<'_>) -> &'static str
    ensures { IsOrdersMessage (place_of (found_of matches.now) (codes "deep")) (place_of (found_of matches.now) (codes "quick")) result.now }
{
    match (matches.index_of("deep"), matches.index_of("quick")) {
        (Some(deep), Some(quick)) if quick < deep => {
            "the argument '--quick' cannot be used with '--deep'"
        }
        _ => "the argument '--deep' cannot be used with '--quick'",
    }
}

/// Returns the fault for arguments that don't go together, as this message says.
fn conflict(alloc: Global, question: &Question<String>, message: &str) -> LineFault
    ensures { IsToldOf ArgumentConflict result }
{
    match conflict_error(alloc, question, message) {
        Ok(error) => fault_of(alloc, &error),
        Err(_) => LineFault::NoMemory,
    }
}

/// Makes clap's error for arguments that don't go together, with this message.
fn conflict_error(
    alloc: Global,
    question: &Question<String>,
    message: &str,
) -> Result<clap::Error, AllocError>
    ensures { IfOk result (λ error. kind_of error ≡ ArgumentConflict) }
{
    tool_command(alloc, question)?.error(ErrorKind::ArgumentConflict, message)
}

/// Returns whether a value is given for this name.
fn has_value(matches: &ArgMatches<'_>, name: &str) -> bool
    ensures { result ≡ is_given (rows_of (found_of matches.now)) name.now }
{
    matches.get_str(name).is_some()
}

/// Returns why an order is mixed with other options, if it is: `--like` goes with neither `--saved` nor `--deep` nor
/// `--quick`, and `--fresh` needs `--like`.
fn mix_of(matches: &ArgMatches<'_>) -> Option<&'static str>
    ensures none { IsNone result → IsUnmixed (rows_of (found_of matches.now)) }
    ensures some { IfSome result (λ _. IsMixed (rows_of (found_of matches.now))) }
    ensures message { IfSome result (λ message. IsMixMessage (rows_of (found_of matches.now)) message.now) }
{
    if !has_value(matches, "like") {
        if has_value(matches, "fresh") {
            return Some("the argument '--fresh' cannot be used without '--like'");
        }
        return None;
    }
    if has_value(matches, "saved") {
        return Some("the argument '--like' cannot be used with '--saved'");
    }
    if flag_of(matches, "deep") {
        return Some("the argument '--like' cannot be used with '--deep'");
    }
    if flag_of(matches, "quick") {
        return Some("the argument '--like' cannot be used with '--quick'");
    }
    None
}

/// Returns why `--customizable` is mixed with other options, if it is: it goes with none of `--saved`, `--fresh`, `--deep`
/// and `--quick`.
fn customizable_mix_of(matches: &ArgMatches<'_>) -> Option<&'static str>
    ensures none { IsNone result → IsCustomizableAlone (rows_of (found_of matches.now)) }
    ensures some { IfSome result (λ _. IsCustomizableMixed (rows_of (found_of matches.now))) }
    ensures message { IfSome result (λ message. IsCustomizableMessage (rows_of (found_of matches.now)) message.now) }
{
    if !flag_of(matches, "customizable") {
        return None;
    }
    let has_saved = has_value(matches, "saved");
    if has_saved {
        return Some("the argument '--customizable' cannot be used with '--saved'");
    }
    let has_fresh = has_value(matches, "fresh");
    if has_fresh {
        return Some("the argument '--customizable' cannot be used with '--fresh'");
    }
    if flag_of(matches, "deep") {
        return Some("the argument '--customizable' cannot be used with '--deep'");
    }
    if flag_of(matches, "quick") {
        return Some("the argument '--customizable' cannot be used with '--quick'");
    }
    None
}

/// Returns the plan that the words give.
fn plan_of(matches: &ArgMatches<'_>) -> Result<Plan, AllocError>
    ensures limits { IfOk result IsWithinLimits }
    ensures given { IfOk result (IsPlanIn (rows_of (found_of matches.now))) }
{
    let workers = number_of(matches, "workers", MOST_WORKERS)?;
    let piece = number_of(matches, "piece", MOST_PIECE)?;
    Ok(Plan::new(workers, piece, WIDE))
}

/// Returns the direction that the words choose for near rows.
fn direction_of(matches: &ArgMatches<'_>) -> Direction
    ensures { IsDirectionIn (rows_of (found_of matches.now)) result }
{
    if flag_of(matches, "from") {
        Direction::From
    } else {
        Direction::To
    }
}

/// Returns the options for a question. A tool has some of the flags, and the others are off.
///
/// # Errors
/// `Refused` if both orders are given; `NoMemory`.
fn options_of(
    alloc: Global,
    question: &Question<String>,
    matches: &ArgMatches<'_>,
) -> Result<Options, LineFault>
    ensures allowed { IfOk result AreAllowed }
    ensures hops { IfOk result (λ options. Some options.hops.number ≡ number_in (rows_of (found_of matches.now)) (codes "hops")) }
    ensures flags { IfOk result (AreFlagsIn (rows_of (found_of matches.now)) question.now) }
    ensures limit { IfOk result (λ options. options.within ≡ number_in (rows_of (found_of matches.now)) (codes "within")) }
    ensures count { IfOk result (λ options. options.count ≡ number_in (rows_of (found_of matches.now)) (codes "count")) }
    ensures refused { IfErr result (AreRefusedOrders (rows_of (found_of matches.now))) }
{
    let ((order, quick), plain, routes, direction) = match question {
        Question::Queries(_) => (
            (order_of(matches), false),
            flag_of(matches, "plain"),
            flag_of(matches, "routes"),
            Direction::To,
        ),
        Question::Table { .. } => ((OrderBy::Difference, false), false, false, Direction::To),
        Question::Near { .. } => (
            (OrderBy::Difference, false),
            false,
            false,
            direction_of(matches),
        ),
        Question::Hierarchy => (
            saved_order_of(alloc, question, matches)?,
            false,
            false,
            Direction::To,
        ),
        Question::Requests => (
            (order_of(matches), false),
            false,
            flag_of(matches, "routes"),
            Direction::To,
        ),
    };
    Ok(Options {
        plain,
        routes,
        hops: HopBound {
            number: number_of(matches, "hops", MOST_HOPS)?,
        },
        order,
        quick,
        within: limit_given(matches, "within", MOST_WEIGHT)?,
        count: count_given(matches)?,
        direction,
    })
}

/// Returns where the hierarchy comes from: the file that is given, or the graph alone, and whether it is customized. Plain
/// distances take no file.
///
/// # Errors
/// `Refused` if options are given that don't go together; `NoMemory`.
fn source_of(
    alloc: Global,
    question: &Question<String>,
    options: &Options,
    matches: &ArgMatches<'_>,
) -> Result<Source<String>, LineFault>
    ensures given { IfOk result (IsSourceIn (rows_of (found_of matches.now)) options.now) }
    ensures unmixed { IfOk result (λ _. IsUnmixed (rows_of (found_of matches.now))) }
    ensures customizable { IfOk result (λ _. IsCustomizableAlone (rows_of (found_of matches.now))) }
    ensures refused { IfErr result (IsRefusedMix (rows_of (found_of matches.now))) }
{
    if let Some(message) = mix_of(matches) {
        return Err(conflict(alloc, question, message));
    }
    if let Some(message) = customizable_mix_of(matches) {
        return Err(conflict(alloc, question, message));
    }
    if options.plain {
        return Ok(Source::Built);
    }
    if let Some(saved) = file_given(alloc, matches, "saved")? {
        return Ok(Source::Saved(saved));
    }
    let hops = options.hops;
    let customizable = flag_of(matches, "customizable");
    let Some(order) = file_given(alloc, matches, "like")? else {
        if customizable {
            return Ok(Source::Dissected { hops });
        }
        return Ok(Source::Built);
    };
    if customizable {
        return Ok(Source::Customized { order, hops });
    }
    let fresh = fresh_given(matches)?;
    Ok(Source::Like { order, fresh, hops })
}

/// Returns the line of the tool of this name, with the values of its arguments.
///
/// # Errors
/// `Refused` for lists that `near` doesn't read, if both orders are given, and if other options don't go together;
/// `NoMemory`.
pub fn line_of(alloc: Global, name: &str, matches: &ArgMatches<'_>) -> Result<Line, LineFault>
    ensures named { IfOk result (λ line. name.now ≡ name_of line.job.question) }
    ensures allowed { IfOk result IsAllowed }
    ensures given { IfOk result (IsGivenBy (rows_of (found_of matches.now))) }
    ensures refused { IfErr result (λ fault. AreRefusedLists name.now (rows_of (found_of matches.now)) fault
        ⊎ AreRefusedOrders (rows_of (found_of matches.now)) fault ⊎ IsRefusedMix (rows_of (found_of matches.now)) fault) }
{
    let graph = file_of(alloc, matches, "GRAPH")?;
    let question = question_of(alloc, name, matches)?;
    let options = options_of(alloc, &question, matches)?;
    let source = source_of(alloc, &question, &options, matches)?;
    Ok(Line {
        job: Job {
            graph,
            source,
            question,
            options,
            plan: plan_of(matches)?,
        },
        progress: flag_of(matches, "progress"),
    })
}
