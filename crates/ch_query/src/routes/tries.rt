//! When the route between two nodes is first searched for by weights alone.

/// The number of ties, less that of other ends, after which searches by weights alone are left out for a while.
const MOST_TIES: u32 = 4;

/// The number of routes for which they are left out then.
const LEFT_OUT: u32 = 60;

/// Whether searches by weights alone are worth it. Where most of them meet a tie, as on a lattice of equal weights, two
/// searches take longer than one. So they are left out there, and tried again now and then.
#[derive(Clone, Copy)]
pub(crate) struct Tries {
    ties: u32,
    left_out: u32,
}

impl Tries {
    /// No try has been made.
    pub(crate) fn new() -> Tries {
        Tries {
            ties: 0,
            left_out: 0,
        }
    }

    /// Whether the next route is first searched for by weights alone.
    pub(crate) fn is_due(&mut self) -> bool {
        if self.left_out == 0 {
            return true;
        }
        self.left_out -= 1;
        false
    }

    /// Takes note of how such a search ended.
    pub(crate) fn note(&mut self, is_tied: bool) {
        if !is_tied {
            self.ties = self.ties.saturating_sub(1);
        } else if self.ties < MOST_TIES {
            self.ties += 1;
        } else {
            self.left_out = LEFT_OUT;
        }
    }
}
