//! The texts of answers and tables, with nodes counted from 1. An answer is a line `d S T X`, with `-`
//! for the distance if there is no walk. If it has a route, a line `r K` and K lines `a U V W` follow. A
//! row of a table is a line `t S`, with the distance to each target after it.
ghost use Rattle.std.specs.Prelude.{◌≡◌, ◌++◌, flat_map, Some, OnOk};
ghost use Rattle.ch_text.specs.Routes.{answer_text, arc_text, route_text};
ghost use Rattle.ch_text.specs.Distances.{distance_text};
ghost use Rattle.ch_text.specs.TableText.{cell_text, row_text};

use crate::short_text::ShortText;
use ch_graph::InArc;
use ch_query::Answer;
use std::alloc::AllocError;

/// Adds an answer to a text, with its route if it has one.
///
/// # Errors
/// `AllocError` if there is no memory for it. The text may then end in a part of the answer.
pub fn push_answer(text: &mut Vec<u8>, answer: &Answer) -> Result<(), AllocError>
    ensures { OnOk result (text.new.items ≡ text.old.items ++ answer_text answer.now) }
{
    push_distance(text, answer)?;
    match &answer.arcs {
        Some(arcs) => push_route(text, arcs),
        None => Ok(()),
    }
}

/// Adds the row of a source to a text.
///
/// # Errors
/// `AllocError` if there is no memory for it. The text may then end in a part of the row.
pub fn push_row(text: &mut Vec<u8>, source: u32, cells: &[Option<u64>]) -> Result<(), AllocError>
    ensures { OnOk result (text.new.items ≡ text.old.items ++ row_text (source, cells.now)) }
{
    let mut start = ShortText::new();
    start.prepend_node(source);
    start.prepend(b' ');
    start.prepend(b't');
    push_all(text, start.as_slice())?;
    push_cells(text, cells)?;
    push_all(text, b"\n")
}

/// Adds the cells of a row, with a blank before each.
fn push_cells(text: &mut Vec<u8>, cells: &[Option<u64>]) -> Result<(), AllocError>
    ensures { OnOk result (text.new.items ≡ text.old.items ++ flat_map cell_text cells.now) }
{
    let mut short = ShortText::new();
    for cell in cells {
        short.clear();
        short.prepend_weight(*cell);
        short.prepend(b' ');
        push_all(text, short.as_slice())?;
    }
    Ok(())
}

/// Adds the line of a distance.
fn push_distance(text: &mut Vec<u8>, answer: &Answer) -> Result<(), AllocError>
    ensures { OnOk result (text.new.items ≡ text.old.items ++ distance_text answer.now) }
{
    let mut line = ShortText::new();
    line.prepend(b'\n');
    line.prepend_weight(answer.weight);
    line.prepend_ends(b'd', answer.from, answer.to);
    push_all(text, line.as_slice())
}

/// Adds the lines of a route: the number of its arcs, and the arcs.
fn push_route(text: &mut Vec<u8>, arcs: &[InArc]) -> Result<(), AllocError>
    ensures { OnOk result (text.new.items ≡ text.old.items ++ route_text (Some arcs.now)) }
{
    let mut line = ShortText::new();
    line.prepend(b'\n');
    line.prepend_number(arcs.len() as u64);
    line.prepend(b' ');
    line.prepend(b'r');
    push_all(text, line.as_slice())?;
    push_arcs(text, arcs)
}

/// Adds a line for each arc.
fn push_arcs(text: &mut Vec<u8>, arcs: &[InArc]) -> Result<(), AllocError>
    ensures { OnOk result (text.new.items ≡ text.old.items ++ flat_map arc_text arcs.now) }
{
    let mut line = ShortText::new();
    for arc in arcs {
        write_arc(&mut line, arc);
        push_all(text, line.as_slice())?;
    }
    Ok(())
}

/// Writes the line of an arc, in place of the earlier line.
fn write_arc(line: &mut ShortText, arc: &InArc)
    ensures { line.new ≡ arc_text arc.now }
{
    line.clear();
    line.prepend(b'\n');
    line.prepend_number(arc.weight);
    line.prepend_ends(b'a', arc.from, arc.to);
}

/// Adds bytes.
pub(crate) fn push_all(text: &mut Vec<u8>, bytes: &[u8]) -> Result<(), AllocError>
    ensures { OnOk result (text.new.items ≡ text.old.items ++ bytes.now) }
{
    text.extend_from_slice(bytes)
}
