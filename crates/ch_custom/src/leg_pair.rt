//! The legs between the two nodes of a pair of a topology, in both directions.
ghost use Rattle.std.specs.Prelude.{◌≡◌};
ghost use Rattle.ch_custom.specs.LegPairs.{leg_at as leg_of_held, leg_of, held_none, no_pair, lightened_pair};
ghost use Rattle.ch_custom.specs.LegPairs.{turned_pair, unbeaten_held, unbeaten_pair};

use ch_graph::Cost;
use ch_graph::limits::MOST_WEIGHT;
use ch_hierarchy::{Leg, Side};

/// The middle of a leg that is an arc.
pub const NO_MIDDLE: u32 = u32::MAX;

/// The middle of a leg that is dearer than another way between its ends, and has the cost of that way.
pub const BEATEN: u32 = u32::MAX - 1;

/// A leg in one direction, in 16 bytes. One that weighs more than [`MOST_WEIGHT`] stands for no leg.
#[derive(Clone, Copy)]
pub struct Held {
    /// The weight of the walk that the leg stands for.
    pub weight: u64,
    /// The number of its arcs.
    pub arcs: u32,
    /// The node that the leg was made over, or [`NO_MIDDLE`].
    pub middle: u32,
}

/// The legs of a pair of nodes in both directions, in 40 bytes. They stand in the row of the lower node.
#[derive(Clone, Copy)]
pub struct LegPair {
    /// The higher node.
    pub node: u32,
    /// The leg to the higher node.
    pub up: Held,
    /// The leg from the higher node.
    pub down: Held,
}

impl LegPair {
    /// The pair of a row with this higher node, without a leg.
    pub(crate) fn none(node: u32) -> LegPair
        ensures { result ≡ no_pair node }
    {
        LegPair {
            node,
            up: no_leg(),
            down: no_leg(),
        }
    }

    /// The leg in this direction.
    pub(crate) fn leg(&self, side: Side) -> Leg
        ensures { result ≡ leg_of side self.now }
    {
        match side {
            Side::Up => leg_at(self.node, self.up),
            Side::Down => leg_at(self.node, self.down),
        }
    }

    /// The pair as the higher node sees it: with its legs in the other directions.
    #[inline]
    pub(crate) fn turned(self) -> LegPair
        ensures { result ≡ turned_pair self }
    {
        LegPair {
            node: self.node,
            up: self.down,
            down: self.up,
        }
    }

    /// The pair without the legs that are [`BEATEN`].
    pub(crate) fn unbeaten(self) -> LegPair
        ensures { result ≡ unbeaten_pair self }
    {
        LegPair {
            node: self.node,
            up: unbeaten(self.up),
            down: unbeaten(self.down),
        }
    }

    /// The pair with an arc of this weight in this direction, if it is lighter than the leg there and leads to or
    /// from `other`.
    pub(crate) fn lightened(self, side: Side, other: u32, weight: u64) -> LegPair
        ensures { result ≡ lightened_pair side other weight self }
    {
        let arc = Held {
            weight,
            arcs: 1,
            middle: NO_MIDDLE,
        };
        match side {
            Side::Up => {
                if self.node == other && weight < self.up.weight {
                    LegPair {
                        node: self.node,
                        up: arc,
                        down: self.down,
                    }
                } else {
                    self
                }
            }
            Side::Down => {
                if self.node == other && weight < self.down.weight {
                    LegPair {
                        node: self.node,
                        up: self.up,
                        down: arc,
                    }
                } else {
                    self
                }
            }
        }
    }
}

/// No leg.
fn no_leg() -> Held
    ensures { result ≡ held_none }
{
    Held {
        weight: MOST_WEIGHT + 1,
        arcs: 0,
        middle: NO_MIDDLE,
    }
}

/// The leg, or none if it is [`BEATEN`].
fn unbeaten(held: Held) -> Held
    ensures { result ≡ unbeaten_held held }
{
    if held.middle == BEATEN {
        no_leg()
    } else {
        held
    }
}

/// The leg to or from this node.
fn leg_at(node: u32, held: Held) -> Leg
    ensures { result ≡ leg_of_held node held }
{
    let middle = if held.middle == NO_MIDDLE {
        None
    } else {
        Some(held.middle)
    };
    Leg {
        node,
        cost: Cost {
            weight: held.weight,
            arcs: u64::from(held.arcs),
        },
        middle,
    }
}
