// A square of cells in which places of a matrix are marked. A cell is one place, or a square of places where there are
// more rows than a picture has pixels.

ghost use Rattle.std.specs.Prelude.{◌≡◌, ◌≢◌, ◌↔◌, ◌<◌, true, ℕ, [], IfOk, length, max, min, slice_index};
ghost use Rattle.amd_report.specs.Grids.{AddsBoth, AddsPlace, HasCells, IsMarked, IsSquareFor, ShowsPlaces, cell_of};

use std::alloc::{AllocError, Allocator};

/// The most cells in a line, which is the width of a picture in pixels.
pub const SIDE: usize = 400;

/// A square of cells.
#[derive(Drop)]
pub struct Grid<A: Allocator> {
    /// The rows of the matrix that fall into one line of cells.
    step: usize,
    /// The cells in a line.
    side: usize,
    /// For each cell, line by line, 1 where it is marked, and else 0.
    marks: Vec<u8, A>,
}

/// Marks a cell.
fn set_mark(marks: &mut [u8], cell: usize)
    ensures size { length marks.new ≡ length marks.old }
    ensures marked { cell < length marks.old → slice_index marks.new cell ≢ 0 }
    ensures others { (k : ℕ) → k ≢ cell → slice_index marks.new k ≡ slice_index marks.old k }
    ensures kept { (k : ℕ) → slice_index marks.old k ≢ 0 → slice_index marks.new k ≢ 0 }
{
    if cell < marks.len() {
        marks[cell] = 1;
    }
}

/// Whether a cell is marked.
fn has_mark(marks: &[u8], cell: usize) -> bool
    ensures { (result ≡ true) ↔ (slice_index marks.now cell ≢ 0) }
{
    marks.get(cell).copied().unwrap_or(0) != 0
}

impl<A: Allocator> Grid<A> {
    /// A square without marks, for a matrix with so many rows.
    pub fn new(alloc: A, rows: usize) -> Result<Grid<A>, AllocError>
        ensures square { IfOk result (λ g. IsSquareFor g rows) }
        ensures covers { IfOk result (λ g. HasCells g rows) }
        ensures blank { IfOk result (λ g. ShowsPlaces g []) }
    {
        let step = rows.div_ceil(SIDE).max(1);
        let side = rows.div_ceil(step);
        let marks = vec![in alloc; 0; side.saturating_mul(side)]?;
        Ok(Grid { step, side, marks })
    }

    /// The cells in a line.
    pub fn side(&self) -> usize
        ensures { result ≡ self.now.side }
    {
        self.side
    }

    /// The rows that fall into one line of cells, at least one.
    pub fn step(&self) -> usize
        ensures { result ≡ max self.now.step 1 }
    {
        self.step.max(1)
    }

    /// The cells, line by line: 1 where one is marked, and else 0.
    pub fn marks(&self) -> &[u8]
        ensures { result.now ≡ self.now.marks.items }
    {
        &self.marks
    }

    /// The cell of a place.
    fn cell(&self, row: usize, column: usize) -> usize
        ensures { result ≡ min (cell_of self.now (row, column)) 18446744073709551615 }
    {
        let step = self.step.max(1);
        let line = (row / step).saturating_mul(self.side);
        line.saturating_add(column / step)
    }

    /// Marks a place.
    pub fn mark(&mut self, row: usize, column: usize)
        ensures { AddsPlace self.old self.new (row, column) }
    {
        let cell = self.cell(row, column);
        set_mark(&mut self.marks, cell);
    }

    /// Marks a place and its mirror.
    pub fn mark_both(&mut self, row: usize, column: usize)
        ensures { AddsBoth self.old self.new row column }
    {
        self.mark(row, column);
        self.mark(column, row);
    }

    /// Whether the cell of a place is marked.
    fn has(&self, row: usize, column: usize) -> bool
        ensures { (result ≡ true) ↔ IsMarked self.now row column }
    {
        has_mark(&self.marks, self.cell(row, column))
    }

    /// Whether the cells of a place and of its mirror are marked.
    pub fn has_both(&self, row: usize, column: usize) -> bool
        ensures { (result ≡ true) ↔ (IsMarked self.now row column × IsMarked self.now column row) }
    {
        self.has(row, column) && self.has(column, row)
    }
}
