//! The values of lines that an engine keeps, and the sums along legs for values.
ghost use Rattle.std.specs.Prelude.{◌≡◌, length, option_map, IfErr, IfOk, IfSome, MatchOption, OnOk, ⊤};
ghost use Rattle.std.specs.Arc.{arc_value};
ghost use Rattle.ch_hierarchy.specs.Hierarchy.{LevelsAndLegs};
ghost use Rattle.ch_engine.specs.Held.{with_values};
ghost use Rattle.ch_engine.specs.LegSums.{AreKeptOfLines, AreKeptSums, values_of};
ghost use Rattle.ch_engine.specs.Lines.{Lines};
ghost use Rattle.ch_engine.specs.Refusals.{IsRefusalOfValues};

use crate::engine::Engine;
use crate::fault::Refusal;
use crate::leg_sums::KeptSums;
use std::alloc::{AllocError, Global};
use std::sync::Arc;

impl Engine {
    /// Keeps a value for each line of the graph, such as its metres, for [`Engine::kept_table_sums`] and
    /// [`Engine::kept_near_sums`]. They replace the values that were kept. It takes a step for each leg of the hierarchy, unless the same values are kept already.
    ///
    /// # Errors
    /// `Lengths` if there is not a value for each line; or `NoMemory`. Then the values that were kept stay.
    pub fn keep_values(&mut self, alloc: Global, values: &[u64]) -> Result<(), Refusal>
        ensures kept { OnOk result (self.new ≡ with_values self.old values.now) }
        ensures fit { OnOk result (length values.now ≡ self.old.lines.count) }
        ensures refused { IfErr result (λ refusal. (self.new ≡ self.old) × IsRefusalOfValues self.old.lines.count (length values.now) refusal) }
    {
        if values.len() != self.network.count() {
            return Err(Refusal::Lengths);
        }
        let kept = self.sums_for(alloc, values)?;
        self.values = Some(kept);
        self.place_trees = None;
        Ok(())
    }

    /// Returns the sums along all legs for these values. Those of the kept values and of the last call are not found again.
    ///
    /// # Errors
    /// `AllocError` if there is no memory.
    pub(crate) fn sums_for(
        &mut self,
        alloc: Global,
        values: &[u64],
    ) -> Result<Arc<KeptSums, Global>, AllocError>
        ensures sums { IfOk result (λ kept. AreKeptSums self.old.hierarchy self.old.lines (arc_value kept)) }
        ensures values { IfOk result (λ kept. (arc_value kept).values.items ≡ values.now) }
        ensures same { self.new ≡ self.old }
    {
        if let Some(kept) = self.known_sums(values) {
            return Ok(kept);
        }
        self.sums = None;
        let kept = self.network.kept_sums(alloc, values)?;
        self.sums = Some(Arc::try_clone(&kept)?);
        Ok(kept)
    }

    /// Returns the sums along all legs for these values, if they are the kept ones or those of the last call.
    pub(crate) fn known_sums(&self, values: &[u64]) -> Option<Arc<KeptSums, Global>>
        ensures sums { IfSome result (λ kept. AreKeptSums self.now.hierarchy self.now.lines (arc_value kept)) }
        ensures values { IfSome result (λ kept. (arc_value kept).values.items ≡ values.now) }
    {
        match of_values(&self.values, values) {
            Some(kept) => Some(kept),
            None => of_values(&self.sums, values),
        }
    }
}

/// Returns sums along legs, if they are for these values.
fn of_values(kept: &Option<Arc<KeptSums, Global>>, values: &[u64]) -> Option<Arc<KeptSums, Global>>
    ensures sums { (H : LevelsAndLegs) (lines : Lines) → MatchOption kept.now ⊤ (λ sums. AreKeptSums H lines (arc_value sums)) → IfSome result (λ sums. AreKeptSums H lines (arc_value sums)) }
    ensures values { IfSome result (λ sums. (arc_value sums).values.items ≡ values.now) }
{
    let Some(kept) = kept else {
        return None;
    };
    if kept.values.as_slice() != values {
        return None;
    }
    match Arc::try_clone(kept) {
        Ok(kept) => Some(kept),
        Err(_) => None,
    }
}

/// Returns kept values for a second engine.
///
/// # Errors
/// `AllocError` if more engines share them than can be counted.
pub(crate) fn shared(
    kept: &Option<Arc<KeptSums, Global>>,
) -> Result<Option<Arc<KeptSums, Global>>, AllocError>
    ensures values { IfOk result (λ second. option_map (λ sums. values_of (arc_value sums)) second ≡ option_map (λ sums. values_of (arc_value sums)) kept.now) }
    ensures sums { (H : LevelsAndLegs) (lines : Lines) → MatchOption kept.now ⊤ (λ sums. AreKeptOfLines H lines (arc_value sums)) → IfOk result (λ second. MatchOption second ⊤ (λ sums. AreKeptOfLines H lines (arc_value sums))) }
{
    match kept {
        Some(kept) => Ok(Some(Arc::try_clone(kept)?)),
        None => Ok(None),
    }
}
