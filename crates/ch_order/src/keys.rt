//! Keys of the nodes in the queue. That of a hub may be a bound of its priority.
ghost use Rattle.std.specs.Prelude.{ℕ, ◌<◌, ◌≤◌, ◌^◌, ◌<ℤ◌};
ghost use Rattle.ch_contract.specs.Contraction.{key_by};

use ch_contract::OrderBy;

/// How many times building starts with greater keys as bounds. After these all keys are exact.
pub(crate) const TRIES: u32 = 3;

/// The greatest exact key of the first try. In road networks all nodes that are contracted have lesser keys.
pub(crate) const FIRST_EXACT: i64 = 1 << 14;

/// The greatest exact key of a try is so many times that of the try before.
pub(crate) const GROWTH: i64 = 64;

/// Which numbers are the keys of nodes: priorities in this order, and up to which number they are exact.
///
/// A hub may have a shortcut for each pair of its neighbours, and gets a new priority whenever one of these is contracted.
/// So its shortcuts are counted until its key is above `exact`. The order is the same, unless such a node comes first.
#[derive(Clone, Copy)]
pub(crate) struct Keys {
    pub(crate) by: OrderBy,
    /// A key up to this one is the priority of its node. A greater key is at most the priority.
    pub(crate) exact: i64,
}

impl Keys {
    /// Returns how many shortcuts of a node are counted. If so many legs touch the node and it has more shortcuts, its key is
    /// above the greatest exact one.
    pub(crate) fn most_counted(self, legs: u64) -> u64
        requires { legs ≤ 2 ^ 26 }
        ensures { (shortcuts depth : ℕ) → result < shortcuts → self.exact <ℤ key_by self.by shortcuts legs depth }
    {
        let most = self.exact.max(0) as u64 + legs;
        match self.by {
            OrderBy::Difference => most,
            OrderBy::Depth => most / 2,
        }
    }
}
