//! Arcs of the input.

/// An arc of the input: a one-way road from one node to another. Nodes are numbered from 0.
#[derive(Clone, Copy, Debug, PartialEq, Eq)]
pub struct InArc {
    pub from: u32,
    pub to: u32,
    /// The cost of travelling the arc, in the unit of the input, such as metres or milliseconds.
    pub weight: u64,
}
