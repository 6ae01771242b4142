//! Contraction hierarchies whose nodes are contracted one after the other, each time the node of the least key.
//!
//! It stands on ch_contract, ch_graph, ch_hierarchy, ch_queue and ch_work. These statements are proved:
//!
//! - [`build_in_turn`] makes the hierarchy that the rules name, by the difference ([`build`]) or by depth. It
//!   does not depend on how workers share the work. The rules name only one, and it is kept for its graph.
//! - [`build_alone`] makes the one by depth without any thread.
//! - [`build_like`] and [`build_like_alone`] make the hierarchy in an order like a given one: its first nodes come
//!   as given, and the last per cent are ordered afresh by depth. They refuse an order that would join too many nodes by legs.
//! - [`build_quickly`] makes a kept hierarchy whose order no rule names, in the least time, and [`build_like_quickly`]
//!   one that begins like a given one. They are for answers that do not depend on the order. [`build_quickly_alone`]
//!   starts no thread.
#![tactic(auto)]

mod construction;
mod keys;
mod priority;

pub use construction::{
    LikeError, OrderError, build, build_alone, build_in_turn, build_like, build_like_alone,
    build_like_quickly, build_quickly, build_quickly_alone,
};
