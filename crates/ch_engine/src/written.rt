//! The number of near rows, routes or sums that were written, and why no more.

/// The number of near rows or routes that were written, and why no more were.
#[derive(Clone, Copy, Debug, PartialEq, Eq)]
pub struct Written {
    /// The number of rows or routes. They are those of the first sources.
    pub count: u64,
    /// The reason why no more were written.
    pub end: End,
}

/// The reason why no more near rows or routes were written.
#[derive(Clone, Copy, Debug, PartialEq, Eq)]
pub enum End {
    /// All were written.
    All,
    /// The next one needs more room than the arrays have left.
    NoRoom,
    /// There was no memory for the next one.
    NoMemory,
}

/// The number of sources or pairs whose sums were written, and why no more were.
#[derive(Clone, Copy, Debug, PartialEq, Eq)]
pub struct Summed {
    /// The number of sources or pairs. They are the first ones.
    pub count: u64,
    /// The reason why no more were written.
    pub end: SumsEnd,
}

/// The reason why the sums of no more sources or pairs were written.
#[derive(Clone, Copy, Debug, PartialEq, Eq)]
pub enum SumsEnd {
    /// All were written.
    All,
    /// A sum of the next source or pair is 2^64 or more.
    TooLarge,
    /// There was no memory for the row of the next source, or for the route of the next pair.
    NoMemory,
}

/// The number of near rows that were written with their sums, and why no more were.
#[derive(Clone, Copy, Debug, PartialEq, Eq)]
pub struct SummedRows {
    /// The number of rows. They are those of the first sources.
    pub count: u64,
    /// The reason why no more were written.
    pub end: RowsEnd,
}

/// The reason why no more near rows were written with their sums.
#[derive(Clone, Copy, Debug, PartialEq, Eq)]
pub enum RowsEnd {
    /// All were written.
    All,
    /// The next one needs more room than the arrays have left.
    NoRoom,
    /// A sum of the next one is 2^64 or more.
    TooLarge,
    /// There was no memory for the next one.
    NoMemory,
}
