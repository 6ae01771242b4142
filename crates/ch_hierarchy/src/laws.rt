//! Laws. Each is the contract of a function that does nothing.

pub mod kept;
pub mod saved;
