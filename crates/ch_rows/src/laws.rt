//! Laws of near rows. Each is the contract of a function that does nothing.
ghost use Rattle.ch_rows.specs.NearLaws.{NearRowsAreNearest, OneNearestRow};

/// If a hierarchy is right for a graph within the limits, a near row by it has the first targets. They are in
/// order of the least weights of walks and then of place, and have these weights.
pub fn near_rows_are_nearest()
    ensures { NearRowsAreNearest }
{}

/// A source has at most one such row.
pub fn one_nearest_row()
    ensures { OneNearestRow }
{}
