//! The leg that a row has at a node.
ghost use Rattle.std.specs.Prelude.{◌≡◌, Contains};
ghost use Rattle.ch_hierarchy.specs.declared.leg.Leg.{Leg as RowLeg};

use ch_hierarchy::Leg;

/// Returns the leg of the row at `node`, which the row has. Most rows are short, so it looks from the first
/// leg on.
pub(crate) fn leg_at(row: &[Leg], node: u32) -> Leg
    requires { (l : RowLeg) × Contains row.now l × (l.node ≡ node) }
    ensures { Contains row.now result × (result.node ≡ node) }
{
    match row.iter().find(|leg| leg.node == node) {
        Some(leg) => *leg,
        None => unreachable!(),
    }
}
