//! Jobs that gather the rows of a table.
ghost use Rattle.std.specs.Prelude.{◌≡◌, ◌∷◌, ◌++◌, [], ℕ, List, Option, length, map, OnOk};

use std::alloc::{AllocError, Global};

/// Work that gathers the rows of a table, as their text. The workers share the rows in ranges, and what is
/// gathered of a range is one value.
pub trait RowJob: Sync {
    /// What is gathered of a range of rows.
    type Out: Send + Drop;

    /// The meaning of what is gathered: a relation between the sources of the rows, the cells of each row,
    /// and the value.
    ghost meaning: { Self → List ℕ → List (List (Option ℕ)) → Self.Out → Type 0 };

    /// Begins, without a row.
    fn start(&self, alloc: Global) -> Self::Out
        ensures { meaning self.now [] [] result };

    /// Adds the row of a source: a cell for each target.
    ///
    /// # Errors
    /// `AllocError` if there is no memory.
    fn add(
        &self,
        alloc: Global,
        gathered: &mut Self::Out,
        source: u32,
        cells: &[Option<u64>],
    ) -> Result<(), AllocError>
        ensures { OnOk result ((sources : List ℕ) (rows : List (List (Option ℕ))) → length rows ≡ length sources → meaning self.now sources rows gathered.old →
            meaning self.now (sources ++ source ∷ []) (rows ++ cells.now ∷ []) gathered.new) };
}

/// The job that keeps the cells of each row.
pub(crate) struct KeptRows;

impl RowJob for KeptRows {
    type Out = Vec<Vec<Option<u64>>>;

    ghost meaning = { λ job sources rows kept. map (λ row. row.items) kept.items ≡ rows };

    fn start(&self, alloc: Global) -> Vec<Vec<Option<u64>>> {
        Vec::new(alloc)
    }

    fn add(
        &self,
        alloc: Global,
        gathered: &mut Vec<Vec<Option<u64>>>,
        _source: u32,
        cells: &[Option<u64>],
    ) -> Result<(), AllocError> {
        gathered.push(Vec::from_slice(alloc, cells)?)?;
        Ok(())
    }
}
