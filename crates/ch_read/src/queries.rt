//! Query files.
ghost use Rattle.std.specs.Prelude.{ℕ, ◌<◌, ◌≤◌, List, All, IfOk, vec_len};
ghost use Rattle.ch_graph.specs.declared.limits.TheConstants.{MOST_QUERIES};
ghost use Rattle.ch_read.specs.declared.fault.ReadFault.{ReadFault as FaultAt};
ghost use Rattle.ch_read.specs.Answers.{AnswersWhere, seen_by_items};
ghost use Rattle.ch_read.specs.Checks.{IsFault};
ghost use Rattle.ch_read.specs.Names.{NamesQueries};

use crate::fault::ReadError;
use crate::form::{Form, Item};
use crate::reader::{FromItem, read_items};
use std::alloc::Global;

/// Reads the queries that the bytes of a `.p2p` file name: pairs of nodes of a graph of `n` nodes, which are
/// numbered from 0. The time is linear in the number of bytes, and memory grows with the lines that were read.
///
/// # Errors
/// The first fault of the first faulty line, or `NoMemory` if there is no memory for the pairs.
pub fn read_queries(alloc: Global, bytes: &[u8], n: u32) -> Result<Vec<(u32, u32)>, ReadError>
    ensures value { (pairs : List (ℕ × ℕ)) →
        AnswersWhere (seen_by_items result) (Ok pairs) (NamesQueries bytes.now n pairs) }
    ensures fault { (f : FaultAt) →
        AnswersWhere (seen_by_items result) (Err (ReadError.Fault f))
        (IsFault (Form.Queries n) bytes.now f.line f.kind) }
    ensures range { IfOk result (λ v. All (λ p. (p.0 < n) × (p.1 < n)) v.items) }
    ensures size { IfOk result (λ v. vec_len v ≤ MOST_QUERIES) }
{
    let (_, pairs, _) = read_items::<(u32, u32), ()>(alloc, Form::Queries(n), bytes)?;
    Ok(pairs)
}

impl FromItem for (u32, u32) {
    ghost from_item_gives = { λ item. (item.first, item.second) };

    fn from_item(item: Item) -> (u32, u32) {
        (item.first, item.second)
    }
}
