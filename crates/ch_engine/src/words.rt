//! Distances as words of 64 bits.
ghost use Rattle.std.specs.Prelude.{◌≡◌, ◌↔◌, IsTrue};
ghost use Rattle.ch_engine.specs.Cells.{word_of as the_word};
ghost use Rattle.ch_engine.specs.Refusals.{AreNodes};

/// The word for no distance. Each distance is less.
pub const NO_DISTANCE: u64 = u64::MAX;

/// Returns the word of an answer.
pub(crate) fn word_of(answer: Option<u64>) -> u64
    ensures { result ≡ the_word answer }
{
    match answer {
        Some(weight) => weight,
        None => NO_DISTANCE,
    }
}

/// Whether all numbers are nodes of a network of `nodes` nodes.
pub(crate) fn are_nodes(numbers: &[u32], nodes: u32) -> bool
    ensures { IsTrue result ↔ AreNodes nodes numbers.now }
{
    for number in numbers {
        if *number >= nodes {
            return false;
        }
    }
    true
}

/// Whether all numbers of both lists are nodes of a network of `nodes` nodes.
pub(crate) fn are_both_nodes(sources: &[u32], targets: &[u32], nodes: u32) -> bool
    ensures { IsTrue result ↔ AreNodes nodes sources.now × AreNodes nodes targets.now }
{
    are_nodes(sources, nodes) && are_nodes(targets, nodes)
}
