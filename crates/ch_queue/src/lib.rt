//! A priority queue of ids whose keys may change. The least key leaves first, and of equal keys the one
//! with the least id.
//!
//! [`KeyQueue`] holds the frontier of a shortest-path search: the nodes that are reached and not settled,
//! by cost. In contraction it holds the nodes that remain, by priority. The crate stands on std alone.
//!
//! Proved for every key type with a lawful `Ord`:
//!
//! - The queue is a finite map from the ids below a fixed number to keys.
//! - Each method returns and changes what its contract says, and leaves all other entries as they are.
//! - `least` and `pop` return the least (key, id). Only `new` takes memory.
#![tactic(auto)]

mod heap;
mod queue;

pub use queue::KeyQueue;
