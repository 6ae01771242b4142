//! Tests whether legs are light enough for searches over words.
ghost use Rattle.std.specs.Prelude.{◌≤◌, All, IsTrue};
ghost use Rattle.ch_contract.specs.declared.held_cost.TheConstants.{MOST_LIGHT};

use crate::held_cost::MOST_LIGHT;
use crate::shortcut::Shortcut;
use ch_graph::InArc;

/// Whether all these arcs are light enough for searches over words.
pub(super) fn are_light_arcs(arcs: &[InArc]) -> bool
    ensures { IsTrue result → All (λ a. a.weight ≤ MOST_LIGHT) arcs.now }
{
    for arc in arcs {
        if arc.weight > MOST_LIGHT {
            return false;
        }
    }
    true
}

/// Whether all these shortcuts are light enough for searches over words.
pub(super) fn are_light(shortcuts: &[Shortcut]) -> bool
    ensures { IsTrue result → All (λ s. s.cost.weight ≤ MOST_LIGHT) shortcuts.now }
{
    for shortcut in shortcuts {
        if shortcut.cost.weight > MOST_LIGHT {
            return false;
        }
    }
    true
}
