//! The rule of a board, and its steps. Nothing makes values of these types.
ghost use Rattle.ch_work.specs.Rule.{Kept};
ghost use Rattle.ch_work.specs.Steps.{nothing_known, Claims, Offers, Looks, less_one, one_part, both, Enters};

use crate::board::known::{Known, Size};
use atomic_table::{Join, Play, Split, TableRule};

/// The rule that a board keeps between any two steps.
pub struct Rule;

impl TableRule<(), Known, Size> for Rule {
    ghost holds = { Kept };

    ghost first = { λ k. nothing_known k.pieces k.passes };
}

/// A pass claims the next number, or ends.
pub struct Claim;

impl Play<(), Known> for Claim {
    ghost then = { Claims };
}

/// A pass offers a weight to a cell.
pub struct Offer;

impl Play<(), Known> for Offer {
    ghost then = { Offers };
}

/// A pass is shown the weight in a cell.
pub struct Look;

impl Play<(), Known> for Look {
    ghost then = { Looks };
}

/// One pass is split off from a view that stands for several.
pub struct SplitOff;

impl Split<Known> for SplitOff {
    ghost left = { less_one };

    ghost right = { one_part };
}

/// A pass is joined to other passes.
pub struct TakeIn;

impl Join<Known> for TakeIn {
    ghost both = { both };

    ghost spent = { nothing_known 0 0 };
}

/// A new view is made that stands for no pass.
pub struct Enter;

impl Play<(), Known> for Enter {
    ghost then = { Enters };
}
