//! Routes: two searches meet, the way leads back from there to both ends, and its legs are unpacked.

pub(crate) mod ancestors;
mod descent;
mod legs;
pub(crate) mod query;
pub(crate) mod tries;
pub(crate) mod unique;
pub(crate) mod unpacking;
pub(crate) mod way;

use ch_graph::InArc;
use std::marker::Model;

/// A walk from one node to another. Contracts see its arcs as a list.
#[derive(Debug, Drop)]
pub struct Route {
    /// The sum of the weights of its arcs, at most 2^60.
    pub weight: u64,
    /// Its arcs, in order.
    pub arcs: Vec<InArc>,
}

impl Model for Route {
    ghost use Rattle.ch_query.specs.Values.{Way};

    ghost Value = { Way };

    ghost view = { λ route. record { weight = route.weight; arcs = route.arcs.items } };
}
