//! How the nodes of a hierarchy are dealt over the pieces of a job.
ghost use Rattle.std.specs.Prelude.{◌≡◌, ◌<◌, ◌≤◌};
ghost use Rattle.ch_graph.specs.declared.limits.TheConstants.{MOST_NODES};
ghost use Rattle.ch_rows.specs.Dealing.{item_of, turn_of};
ghost use Rattle.ch_work.specs.declared.limits.TheConstants.{MOST_PIECE};

use std::marker::Model;

/// Which item each node is, in a job whose items are nodes.
///
/// From the highest node on, each piece in turn gets one node, and fills its items from the end. The last
/// piece may be shorter. Once it is full, the pieces before it get the rest. So the pieces share the high
/// nodes, which owe most to a table, and each piece does its low nodes first.
#[derive(Drop)]
pub(crate) struct Dealing {
    nodes: u32,
    piece: u32,
    /// The number of pieces before the last.
    before: u32,
    /// The number of items of the last piece.
    last: u32,
}

impl Model for Dealing {
    ghost use Rattle.std.specs.Prelude.{◌≡◌, ◌<◌, ◌≤◌};
    ghost use Rattle.ch_graph.specs.declared.limits.TheConstants.{MOST_NODES};
    ghost use Rattle.ch_rows.specs.Dealing.{Deal, before_last, last_size};
    ghost use Rattle.ch_work.specs.declared.limits.TheConstants.{MOST_PIECE};

    ghost Value = { Deal };

    ghost view = { λ d. record { nodes = d.nodes; piece = d.piece } };

    ghost invariant = { λ d. (d.nodes ≤ MOST_NODES) × (0 < d.piece) × (d.piece ≤ MOST_PIECE)
        × (d.before ≡ before_last (record { nodes = d.nodes; piece = d.piece })) × (d.last ≡ last_size (record { nodes = d.nodes; piece = d.piece })) };
}

impl Dealing {
    /// Deals `nodes` nodes over pieces of `piece` items.
    pub(crate) fn new(nodes: u32, piece: u32) -> Dealing
        requires nodes { nodes ≤ MOST_NODES }
        requires piece { (0 < piece) × (piece ≤ MOST_PIECE) }
        ensures { result ≡ record { nodes = nodes; piece = piece } }
    {
        let before = nodes.saturating_sub(1) / piece;
        Dealing {
            nodes,
            piece,
            before,
            last: nodes - before * piece,
        }
    }

    /// The number of nodes that are dealt.
    pub(crate) fn nodes(&self) -> u32
        ensures nodes { result ≡ self.now.nodes }
        ensures piece { 0 < self.now.piece }
    {
        self.nodes
    }

    /// Returns the item of the node of this rank.
    pub(crate) fn item(&self, rank: u32) -> u32
        requires { rank < self.now.nodes }
        ensures item { result ≡ item_of self.now rank }
        ensures below { result < self.now.nodes }
    {
        let piece = self.piece;
        let (place, round) = self.turn(rank);
        let end = ((place + 1) * piece).min(self.nodes);
        end - 1 - round
    }

    /// Returns the piece and the round of the node of this rank.
    fn turn(&self, rank: u32) -> (u32, u32)
        requires { rank < self.now.nodes }
        ensures { result ≡ turn_of self.now rank }
    {
        let all = self.before + 1;
        // Most nodes that searches reach are dealt in the first round. That round needs no division.
        if rank < all {
            return (rank, 0);
        }
        let to_all = self.last * all;
        if rank < to_all {
            (rank % all, rank / all)
        } else {
            let rest = rank - to_all;
            (rest % self.before, self.last + rest / self.before)
        }
    }
}
