//! Laws of the definitions. Each is the contract of a function that does nothing.

pub mod keeping;
pub mod like;
pub mod one_order;
