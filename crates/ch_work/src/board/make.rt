//! Making a board, and closing it.
ghost use Rattle.std.specs.Prelude.{slice_index, slice_index_or, ℕ, ◌≡◌, ◌+◌, ◌-◌, ◌<◌, ◌≤◌, ◌∷◌, [], IfOk, vec_len, replicate, length, map, All};
ghost use Rattle.std.specs.Slots.{slots_items, slots_len, IsFull};
ghost use Rattle.ch_work.specs.declared.limits.TheConstants.{MOST_WORKERS, MOST_CELLS};
ghost use Rattle.ch_work.specs.Passes.{view_of, size_of, IsPassOf};
ghost use Rattle.ch_work.specs.Rule.{none_yet, Settled, Sums, IsRead};
ghost use Rattle.ch_work.specs.Steps.{nothing_known, both};

use crate::board::known::{Known, Size};
use crate::board::rule::{Enter, Rule, SplitOff, TakeIn};
use crate::board::{Board, Pass};
use atomic_table::{Closed, Seat, Table};
use std::alloc::{AllocError, Global};

impl Board {
    /// Makes a board of `pieces` pieces and `cells` cells, and `passes` passes to use it. There is at least
    /// one pass, and the cells and passes are within the [`limits`](crate::limits).
    ///
    /// # Errors
    /// `AllocError` if there is no memory.
    pub fn new(
        alloc: Global,
        pieces: u32,
        cells: u32,
        passes: u32,
    ) -> Result<(Board, Vec<Pass>), AllocError>
        requires cells { cells ≤ MOST_CELLS }
        requires passes { (0 < passes) × (passes ≤ MOST_WORKERS) }
        ensures size { IfOk result (λ made. size_of made.0 ≡ record { pieces = pieces; cells = cells; passes = passes }) }
        ensures count { IfOk result (λ made. vec_len made.1 ≡ passes) }
        ensures passes { IfOk result (λ made. All (λ pass. IsPassOf made.0 pass × (view_of pass ≡ nothing_known pieces 1)) made.1.items) }
    {
        let words = words_of(alloc, cells)?;
        let size = Size {
            pieces: u64::from(pieces),
            cells: u64::from(cells),
            passes: u64::from(passes),
        };
        let (table, root) = Table::of_words(alloc, words.as_slice(), &size)?;
        let all = passes_of(alloc, &table, root, pieces, passes)?;
        let board = Board {
            table,
            alloc,
            cells,
            passes,
        };
        Ok((board, all))
    }

    /// Closes the board and returns the final weight of each cell, or `None` for a cell without an offer.
    ///
    /// All passes of the board come back here. So no number was claimed twice. If a pass has ended, every
    /// number was claimed.
    ///
    /// # Errors
    /// `AllocError` if there is no memory.
    pub fn close(self, passes: Vec<Pass>) -> Result<Vec<Option<u64>>, AllocError>
        requires count { vec_len passes ≡ (size_of self).passes }
        requires board { All (IsPassOf self) passes.items }
        ensures { IfOk result (λ cells. Settled (size_of self) (map view_of passes.items) cells.items) }
    {
        let all = self.gathered(passes);
        let Board {
            table,
            alloc,
            cells,
            ..
        } = self;
        let closed = table.close_with(all);
        let values = read_cells(alloc, &closed, cells);
        closed.free();
        values
    }

    /// Joins the views of all passes into one.
    fn gathered(&self, passes: Vec<Pass>) -> Seat<(), Known>
        requires board { All (IsPassOf self.now) passes.items }
        ensures board { result.table_id ≡ self.now.table.shared.table_id }
        ensures view { Sums result.me.0 (map view_of passes.items) }
    {
        let (_, mut all) = self.table.shared.load_new_seat::<Enter>(0);
        for pass in passes {
            self.take_in(&mut all, pass);
        }
        all
    }

    /// Adds one more pass.
    fn take_in(&self, all: &mut Seat<(), Known>, pass: Pass)
        requires board { (all.old.table_id ≡ self.now.table.shared.table_id) × IsPassOf self.now pass }
        ensures board { all.new.table_id ≡ all.old.table_id }
        ensures view { all.new.me.0 ≡ both all.old.me.0 (view_of pass) }
    {
        let Pass { seat, .. } = pass;
        self.table.shared.join_seat::<TakeIn>(all, seat);
    }
}

/// Returns the words of a new board: the counter, and then the cells.
fn words_of(alloc: Global, cells: u32) -> Result<Vec<u64>, AllocError>
    ensures { IfOk result (λ words. words.items ≡ 0 ∷ replicate cells none_yet) }
{
    let mut words = Vec::with_capacity(alloc, cells as usize + 1)?;
    words.push(0)?;
    for _ in 0..cells {
        words.push(u64::MAX)?;
    }
    Ok(words)
}

/// Splits `passes` passes off.
fn passes_of(
    alloc: Global,
    table: &Table<(), Known, Size, Rule, Global>,
    root: Seat<(), Known>,
    pieces: u32,
    passes: u32,
) -> Result<Vec<Pass>, AllocError>
    requires table { (root.table_id ≡ table.now.shared.table_id) × (0 < table.now.shared.table_id.words) }
    requires root { root.me ≡ (nothing_known pieces passes, []) }
    ensures count { IfOk result (λ all. vec_len all ≡ passes) }
    ensures each { IfOk result (λ all. All (λ pass. (pass.seat.table_id ≡ table.now.shared.table_id) × (view_of pass ≡ nothing_known pieces 1)) all.items) }
{
    let mut root = root;
    let mut all = Vec::with_capacity(alloc, passes as usize)?;
    for i in 0..passes {
        all.push(split_off(table, &mut root, pieces, passes - i))?;
    }
    Ok(all)
}

/// Splits one pass off from the `left` passes that remain.
fn split_off(
    table: &Table<(), Known, Size, Rule, Global>,
    root: &mut Seat<(), Known>,
    pieces: u32,
    left: u32,
) -> Pass
    requires table { (root.old.table_id ≡ table.now.shared.table_id) × (0 < table.now.shared.table_id.words) }
    requires root { (0 < left) × (root.old.me ≡ (nothing_known pieces left, [])) }
    ensures table { root.new.table_id ≡ root.old.table_id }
    ensures root { root.new.me ≡ (nothing_known pieces (left - 1), []) }
    ensures pass { (result.seat.table_id ≡ root.old.table_id) × (view_of result ≡ nothing_known pieces 1) }
{
    let seat = table.shared.split_seat::<SplitOff>(root);
    Pass {
        seat,
        pieces,
        ended: false,
    }
}

/// Returns the weights of all cells.
fn read_cells(
    alloc: Global,
    closed: &Closed<(), Global>,
    cells: u32,
) -> Result<Vec<Option<u64>>, AllocError>
    requires { (slots_len closed.now.words ≡ cells + 1) × IsFull closed.now.words }
    ensures count { IfOk result (λ values. length values.items ≡ cells) }
    ensures each { IfOk result (λ values. (i : ℕ) (d : _) → i < cells → IsRead (slice_index (slots_items closed.now.words) (i + 1)) (slice_index_or values.items i d)) }
{
    let mut values = Vec::with_capacity(alloc, cells as usize)?;
    for cell in 0..cells {
        values.push(cell_value(closed, cell))?;
    }
    Ok(values)
}

/// Returns the weight of a cell, or `None` if none was offered.
fn cell_value(closed: &Closed<(), Global>, cell: u32) -> Option<u64>
    requires { (cell + 1 < slots_len closed.now.words) × IsFull closed.now.words }
    ensures { IsRead (slice_index (slots_items closed.now.words) (cell + 1)) result }
{
    let word = closed.word(cell as usize + 1);
    if word == u64::MAX { None } else { Some(word) }
}
