//! Pieces that are done.

/// The number of a piece that is done, and its value.
#[derive(Drop)]
pub(crate) struct Done<X> {
    pub(crate) number: u32,
    pub(crate) value: X,
}
