//! Lists of nodes.
ghost use Rattle.std.specs.Prelude.{ℕ, ◌<◌, ◌≤◌, List, All, IfOk, vec_len};
ghost use Rattle.ch_graph.specs.declared.limits.TheConstants.{MOST_LISTED};
ghost use Rattle.ch_read.specs.declared.fault.ReadFault.{ReadFault as FaultAt};
ghost use Rattle.ch_read.specs.Answers.{AnswersWhere, seen_by_items};
ghost use Rattle.ch_read.specs.Checks.{IsFault};
ghost use Rattle.ch_read.specs.Names.{NamesNodes};

use crate::fault::ReadError;
use crate::form::{Form, Item};
use crate::reader::{FromItem, read_items};
use std::alloc::Global;

/// Reads the nodes that the bytes of a `.ss` file name, on a graph of `n` nodes. They are numbered from 0. The
/// time is linear in the number of bytes, and memory grows with the lines that were read.
///
/// # Errors
/// The first fault of the first faulty line, or `NoMemory` if there is no memory for the nodes.
pub fn read_nodes(alloc: Global, bytes: &[u8], n: u32) -> Result<Vec<u32>, ReadError>
    ensures value { (nodes : List ℕ) →
        AnswersWhere (seen_by_items result) (Ok nodes) (NamesNodes bytes.now n nodes) }
    ensures fault { (f : FaultAt) →
        AnswersWhere (seen_by_items result) (Err (ReadError.Fault f))
        (IsFault (Form.Nodes n) bytes.now f.line f.kind) }
    ensures range { IfOk result (λ v. All (λ x. x < n) v.items) }
    ensures size { IfOk result (λ v. vec_len v ≤ MOST_LISTED) }
{
    let (_, nodes, _) = read_items::<u32, ()>(alloc, Form::Nodes(n), bytes)?;
    Ok(nodes)
}

impl FromItem for u32 {
    ghost from_item_gives = { λ item. item.first };

    fn from_item(item: Item) -> u32 {
        item.first
    }
}
