//! The searches of one worker, over words or over pairs.
ghost use Rattle.std.specs.Prelude.{◌≡◌, ◌<◌, length, IfOk, OnOk};
ghost use Rattle.ch_contract.specs.Contraction.{AreShortcuts};
ghost use Rattle.ch_contract.specs.Measures.{IsMeasureUpTo};
ghost use Rattle.ch_contract.specs.Remaining.{legs_of};
ghost use Rattle.ch_contract.specs.ShortcutLists.{AreUpTo};

use crate::held_cost::Word;
use crate::hop_bound::HopBound;
use crate::measure::Measure;
use crate::remaining::Remaining;
use crate::shortcut::Shortcut;
use crate::witness_search::WitnessSearch;
use ch_graph::Cost;
use std::alloc::{AllocError, Global};

/// The searches of one worker. Each gets its room when it is first used.
#[derive(Drop)]
pub struct WitnessSearches {
    /// The search over words, for legs that are light enough.
    pub(crate) words: WitnessSearch<Word>,
    /// The search over pairs of weight and arcs, for all other legs.
    pub(crate) pairs: WitnessSearch<Cost>,
}

impl WitnessSearches {
    ghost use Rattle.ch_contract.specs.Rooms.{AreIdle};

    /// Makes searches without room. It takes no memory.
    pub(crate) fn new(alloc: Global) -> WitnessSearches
        ensures { AreIdle result }
    {
        WitnessSearches {
            words: WitnessSearch::idle(alloc),
            pairs: WitnessSearch::idle(alloc),
        }
    }

    /// Returns the number of shortcuts of `v` and the number of legs that touch it. `list` becomes the list of
    /// its shortcuts. If they are more than `most`, more than `most` of them are counted, and they are not all in the list.
    pub(crate) fn measure(
        &mut self,
        alloc: Global,
        remaining: &Remaining,
        list: &mut Vec<Shortcut>,
        v: u32,
        hops: HopBound,
        most: u64,
    ) -> Result<Measure, AllocError>
        requires node { v < remaining.now.nodes }
        requires idle { AreIdle self.old }
        ensures measure { IfOk result (IsMeasureUpTo most remaining.now.nodes hops.number (legs_of remaining.now) v) }
        ensures count { IfOk result (λ m. m.shortcuts ≡ length list.new.items) }
        ensures list { OnOk result (AreUpTo most (AreShortcuts remaining.now.nodes hops.number (legs_of remaining.now) v) list.new.items) }
        ensures idle { OnOk result (AreIdle self.new) }
    {
        if remaining.is_light() {
            self.words.fit(alloc, remaining.nodes())?;
            return remaining.measure_in(&mut self.words, list, v, hops, most);
        }
        self.pairs.fit(alloc, remaining.nodes())?;
        remaining.measure_in(&mut self.pairs, list, v, hops, most)
    }
}
