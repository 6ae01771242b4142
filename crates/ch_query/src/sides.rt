//! Searches by costs, from both sides of a query. Each is Dijkstra's algorithm, along legs to higher nodes.

pub(crate) mod climbing;
mod growing;
mod labels;
pub(crate) mod meeting;
pub(crate) mod search;
mod spreading;

ghost use Rattle.std.specs.Prelude.{◌≡◌, IfOk};

pub use growing::{TreeNode, search_tree};
use search::Search;
pub use spreading::spread;
use std::alloc::{AllocError, Global};
use std::marker::Model;

/// Two searches for costs, one for each side, as they are between queries for routes. Contracts see the number of
/// nodes that they have room for.
#[derive(Drop)]
pub struct Sides {
    pub(crate) up: Search,
    pub(crate) down: Search,
}

impl Model for Sides {
    ghost use Rattle.std.specs.Prelude.{ℕ, length};
    ghost use Rattle.ch_query.specs.Scratches.{AreSides};

    ghost Value = { ℕ };

    ghost view = { λ s. length s.up.labels.costs };

    ghost invariant = { λ s. AreSides (length s.up.labels.costs) s.up s.down };
}

impl Sides {
    /// Makes two clean searches with room for `nodes` nodes. They request 104 bytes for each node, and write 48 of them.
    ///
    /// # Errors
    /// `AllocError` if there is no memory, or `nodes` is more than 2^31 - 1.
    pub fn new(alloc: Global, nodes: u32) -> Result<Sides, AllocError>
        ensures { IfOk result (λ s. s ≡ nodes) }
    {
        let up = Search::new(alloc, nodes)?;
        let down = Search::new(alloc, nodes)?;
        Ok(Sides { up, down })
    }
}
