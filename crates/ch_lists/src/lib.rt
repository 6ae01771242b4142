//! Lists that grow and shrink, all in one array.
//!
//! [`Lists`] holds the legs of each node, in a hierarchy and while one is built: many lists, most of them
//! short. A list has no memory of its own, so an empty list without room takes 12 bytes. The crate stands
//! on std alone.
//!
//! Proved for every type of values:
//!
//! - The lists are those that the calls describe. Each list behaves as it would alone.
//! - A call that finds no memory leaves the lists as they were. Only `with_rooms`, `insert` and `pack` take
//!   memory.
#![tactic(auto)]

mod lists;
mod packing;
mod place;

pub use lists::Lists;
