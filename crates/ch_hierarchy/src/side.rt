//! The two directions of a search.
ghost use Rattle.std.specs.Prelude.{◌≡◌, ◌/◌, ◌^◌, ◌<◌};
ghost use Rattle.ch_hierarchy.specs.Side.{other, state_of};

/// A direction of search along legs to higher nodes.
#[derive(Clone, Copy, Debug, PartialEq, Eq)]
pub enum Side {
    /// Along legs from a node to higher ones.
    Up,
    /// Backwards, along legs from higher nodes to a node.
    Down,
}

impl Side {
    /// The opposite direction.
    #[inline]
    pub fn other(self) -> Side
        ensures { result ≡ other self }
    {
        match self {
            Side::Up => Side::Down,
            Side::Down => Side::Up,
        }
    }

    /// The number of a node of this rank in this direction: twice the rank, plus one for the direction
    /// down.
    #[inline]
    pub fn state(self, rank: u32) -> u32
        requires { rank < 2 ^ 31 }
        ensures { result ≡ state_of self rank }
    {
        match self {
            Side::Up => 2 * rank,
            Side::Down => 2 * rank + 1,
        }
    }

    /// The direction of such a number. Half of the number, rounded down, is the rank.
    #[inline]
    pub fn of_state(state: u32) -> Side
        ensures { state ≡ state_of result (state / 2) }
    {
        if state % 2 == 0 { Side::Up } else { Side::Down }
    }
}
