//! The checks of one line.
ghost use Rattle.std.specs.Prelude.{◌≡◌, ◌<◌, ◌^◌, ℕ, List, [], ◌∷◌, Some, None, take, slice_index, true, false, MatchOption, MatchResult, codes};
ghost use Rattle.std.specs.List.{list_all};
ghost use Rattle.std.specs.Str.{bytes_eq};
ghost use Rattle.ch_read.specs.Words.{words};
ghost use Rattle.ch_read.specs.Forms.{problem_words, problem_size, numbers_after, heading_from, item_word, item_size, node_count};
ghost use Rattle.ch_read.specs.Checks.{is_size, is_skipped, is_node, is_middle, are_nodes, is_weight, passes, problem_checks, item_checks, line_checks, end_checks};
ghost use Rattle.ch_read.specs.Reading.{AreCapped, IsOther, IsAfter, item_from, IsProblem, IsItem, IsLine, IsEnd, Fails};

use crate::fault::FaultKind;
use crate::form::{Counts, Form, Heading, Item, Part};
use crate::lines::split_word;
use crate::number::{MOST_NUMBERS, numbers_of};
use ch_graph::limits::{MOST_ARCS, MOST_LEGS, MOST_LISTED, MOST_NODES, MOST_QUERIES, MOST_WEIGHT};

/// The content of a line that passes its checks.
#[derive(Drop)]
pub enum Line {
    /// No word, or a comment.
    Skipped,
    Problem(Heading),
    /// An item of the first part.
    First(Item),
    /// An item of the second part.
    Second(Item),
}

/// Judges a line. `seen` is the heading before it, if there is one, and `counts` are the numbers of items
/// before it.
pub fn check_line(
    form: Form,
    seen: Option<Heading>,
    counts: Counts,
    line: &[u8],
) -> Result<Line, FaultKind>
    ensures { let ws = words line.now in
        MatchResult result (IsLine form seen counts ws) (Fails (line_checks form seen counts ws)) }
{
    let Some((first, rest)) = split_item(line) else {
        return Ok(Line::Skipped);
    };
    if is_letter(first, b'p') {
        return Ok(Line::Problem(check_problem(form, seen, rest)?));
    }
    if is_item_word(form, Part::First, first) {
        return Ok(Line::First(check_item(form, Part::First, seen, counts.first, rest)?));
    }
    if is_item_word(form, Part::Second, first) {
        return Ok(Line::Second(check_item(form, Part::Second, seen, counts.second, rest)?));
    }
    Err(FaultKind::UnknownLine)
}

/// Returns the first word of a line and the bytes after it, or `None` if the line has no word or is a comment.
pub(crate) fn split_item(line: &[u8]) -> Option<(&[u8], &[u8])>
    ensures { MatchOption result (is_skipped (words line.now) ≡ true)
        (λ (first, rest). (words line.now ≡ first.now ∷ words rest.now) × (is_skipped (words line.now) ≡ false)) }
{
    let (first, rest) = split_word(line)?;
    if first[0] == b'c' {
        None
    } else {
        Some((first, rest))
    }
}

/// Judges the end of a file. `seen` is the heading of the file, if there is one, and `counts` are its numbers
/// of items.
pub fn check_end(seen: Option<Heading>, counts: Counts) -> Result<Heading, FaultKind>
    ensures { MatchResult result (IsEnd seen counts) (Fails (end_checks seen counts)) }
{
    let Some(heading) = seen else {
        return Err(FaultKind::NoProblem);
    };
    if counts.first < heading.items.first || counts.second < heading.items.second {
        return Err(FaultKind::TooFew);
    }
    Ok(heading)
}

/// Whether the word is this letter alone.
pub(crate) fn is_letter(word: &[u8], letter: u8) -> bool
    ensures { result ≡ bytes_eq word.now (letter ∷ []) }
{
    word.len() == 1 && word[0] == letter
}

/// Whether this is the first word of the items of the part.
fn is_item_word(form: Form, part: Part, word: &[u8]) -> bool
    ensures { result ≡ passes (bytes_eq word.now) (item_word form part) }
{
    match form.item_letter(part) {
        Some(letter) => is_letter(word, letter),
        None => false,
    }
}

/// Judges the rest of a problem line after its `p`.
fn check_problem(form: Form, seen: Option<Heading>, rest: &[u8]) -> Result<Heading, FaultKind>
    ensures { let ws = codes "p" ∷ words rest.now in
        MatchResult result (IsProblem form seen ws) (Fails (problem_checks form seen ws)) }
{
    if seen.is_some() {
        return Err(FaultKind::SecondProblem);
    }
    let Some(values) = problem_numbers(form, rest) else {
        return Err(FaultKind::BadProblem);
    };
    heading_of(form, &values).ok_or(FaultKind::Size)
}

/// Returns the numbers of a problem line from the text after its `p`.
fn problem_numbers(form: Form, rest: &[u8]) -> Option<[u64; MOST_NUMBERS]>
    ensures { let numbers = numbers_after (problem_words form) (problem_size form) (words rest.now) in
        MatchOption result (numbers ≡ None) (AreCapped numbers) }
{
    numbers_of(after_problem_words(form, rest)?, form.problem_size())
}

/// Returns the text after the words of a problem line, from the text after its `p`.
fn after_problem_words(form: Form, rest: &[u8]) -> Option<&[u8]>
    ensures { let front = problem_words form in
        let ws = words rest.now in
        MatchOption result (IsOther front ws) (λ after. IsAfter front ws (words after.now)) }
{
    match form {
        Form::Graph => after_word(rest, b"sp"),
        Form::Queries(_) => after_word(after_auxiliary(rest)?, b"p2p"),
        Form::Nodes(_) => after_word(after_auxiliary(rest)?, b"ss"),
        Form::Saved(_) => after_word(rest, b"ch"),
    }
}

/// Returns the text after the words that query files and lists have in common.
fn after_auxiliary(rest: &[u8]) -> Option<&[u8]>
    ensures { let front = codes "aux" ∷ codes "sp" ∷ [] in
        let ws = words rest.now in
        MatchOption result (IsOther front ws) (λ after. IsAfter front ws (words after.now)) }
{
    after_word(after_word(rest, b"aux")?, b"sp")
}

/// Returns the text after the first word if it is this word, and `None` otherwise.
fn after_word<'a>(text: &'a [u8], word: &[u8]) -> Option<&'a [u8]>
    ensures { let front = word.now ∷ [] in
        let ws = words text.now in
        MatchOption result (IsOther front ws) (λ after. IsAfter front ws (words after.now)) }
{
    let (first, rest) = split_word(text)?;
    if first == word { Some(rest) } else { None }
}

/// Returns the heading of a problem line with these numbers, or `None` if it is not within the limits.
fn heading_of(form: Form, values: &[u64; MOST_NUMBERS]) -> Option<Heading>
    ensures { let declared = heading_from form values.now in
        MatchOption result (is_size form declared ≡ false)
        (λ h. (h ≡ declared) × (is_size form declared ≡ true)) }
{
    match form {
        Form::Graph if values[0] <= u64::from(MOST_NODES) && values[1] <= MOST_ARCS as u64 => {
            Some(Heading::new(values[0] as u32, values[1], 0))
        }
        Form::Queries(nodes) if values[0] <= MOST_QUERIES => {
            Some(Heading::new(nodes, values[0], 0))
        }
        Form::Nodes(nodes) if values[0] <= MOST_LISTED => Some(Heading::new(nodes, values[0], 0)),
        Form::Saved(nodes) if values[0] == u64::from(nodes) && values[1] <= MOST_LEGS => {
            Some(Heading::new(nodes, values[0], values[1]))
        }
        _ => None,
    }
}

/// Judges the rest of an item line after its letter. `count` is the number of items of its part before it.
pub(crate) fn check_item(
    form: Form,
    part: Part,
    seen: Option<Heading>,
    count: u64,
    rest: &[u8],
) -> Result<Item, FaultKind>
    ensures { let numbers = numbers_after [] (item_size form part) (words rest.now) in
        MatchResult result (IsItem form part seen count numbers)
        (Fails (item_checks form part seen count numbers)) }
{
    let Some(heading) = seen else {
        return Err(FaultKind::NoProblem);
    };
    let Some(values) = numbers_of(rest, form.item_size(part)) else {
        return Err(FaultKind::BadLine);
    };
    check_values(form, part, heading, count, &values)
}

/// Judges an item with as many numbers as its form has, after this heading. `count` is the number of items of its part
/// before it.
pub(crate) fn check_values(
    form: Form,
    part: Part,
    heading: Heading,
    count: u64,
    values: &[u64; MOST_NUMBERS],
) -> Result<Item, FaultKind>
    requires { (ws : List (List ℕ)) × AreCapped (numbers_after [] (item_size form part) ws) values.now }
    ensures { (ws : List (List ℕ)) → let numbers = numbers_after [] (item_size form part) ws in
        AreCapped numbers values.now → MatchResult result (IsItem form part (Some heading) count numbers)
        (Fails (item_checks form part (Some heading) count numbers)) }
{
    if count >= heading.items.of(part) {
        return Err(FaultKind::TooMany);
    }
    if !are_in_range(form, part, heading.nodes, values) {
        return Err(FaultKind::NodeRange);
    }
    if !is_light(form, part, heading.nodes, values) {
        return Err(FaultKind::Sum);
    }
    Ok(item_of(values))
}

/// Whether each node of an item is from 1 to the number of nodes. A middle may be 0 too.
fn are_in_range(form: Form, part: Part, nodes: u32, values: &[u64; MOST_NUMBERS]) -> bool
    ensures { result ≡ are_nodes form part nodes values.now }
{
    are_ends_in_range(form, part, nodes, values) && is_middle_in_range(form, part, nodes, values)
}

/// Whether each node that must be there is from 1 to the number of nodes.
fn are_ends_in_range(form: Form, part: Part, nodes: u32, values: &[u64; MOST_NUMBERS]) -> bool
    ensures { result ≡ list_all (is_node nodes) (take (node_count form part) values.now) }
{
    values[..form.node_count(part)]
        .iter()
        .all(|value| 1 <= *value && *value <= u64::from(nodes))
}

/// Whether a leg's middle is at most the number of nodes.
fn is_middle_in_range(form: Form, part: Part, nodes: u32, values: &[u64; MOST_NUMBERS]) -> bool
    ensures { result ≡ is_middle form part nodes values.now }
{
    match (form, part) {
        (Form::Saved(_), Part::Second) => values[4] <= u64::from(nodes),
        (Form::Graph, _)
        | (Form::Queries(_), _)
        | (Form::Nodes(_), _)
        | (Form::Saved(_), Part::First) => true,
    }
}

/// Whether the weight and the arcs of an item are within the limits.
fn is_light(form: Form, part: Part, nodes: u32, values: &[u64; MOST_NUMBERS]) -> bool
    ensures { result ≡ is_weight form part nodes values.now }
{
    match (form, part) {
        (Form::Graph, _) => u64::from(nodes)
            .checked_mul(values[2])
            .is_some_and(|sum| sum <= MOST_WEIGHT),
        (Form::Saved(_), Part::Second) => {
            values[2] <= MOST_WEIGHT && values[3] <= u64::from(MOST_NODES)
        }
        (Form::Queries(_), _) | (Form::Nodes(_), _) | (Form::Saved(_), Part::First) => true,
    }
}

/// Makes the item of these numbers. A number that the item does not have is 0 among them.
fn item_of(values: &[u64; MOST_NUMBERS]) -> Item
    requires first { slice_index values.now 0 < 2 ^ 32 }
    requires second { slice_index values.now 1 < 2 ^ 32 }
    requires middle { slice_index values.now 4 < 2 ^ 32 }
    ensures { result ≡ item_from values.now }
{
    Item {
        first: (values[0] as u32).saturating_sub(1),
        second: (values[1] as u32).saturating_sub(1),
        weight: values[2],
        arcs: values[3],
        middle: (values[4] as u32).checked_sub(1),
    }
}
