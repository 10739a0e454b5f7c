// The cells that the fill falls into: the entries of the factor below the diagonal that are no edges, and their
// mirrors. The factor is given by supernodes. Columns of one supernode that fall into one column of cells have the same
// rows, so a row is looked at once for them, and again only as far as its entries are edges: no entry is listed.

ghost use Rattle.std.specs.Prelude.{◌≡◌, ◌≢◌, ◌↔◌, ◌+◌, ◌-◌, ◌++◌, ◌∷◌, ◌/◌, ◌%◌, ◌<◌, ◌≤◌, ◌⊎◌, ℕ};
ghost use Rattle.std.specs.Prelude.{List, [], true, false, Contains, IfOk, OnOk, length, max, slice_index};
ghost use Rattle.amd_report.specs.Fills.{AddsFill, AreBoth, AreCuts, AreOpened, IsBlockFill, IsColumnFill, IsFillOf};
ghost use Rattle.amd_report.specs.Fills.{IsReady, ShowsFill};
ghost use Rattle.amd_report.specs.Fills.{Sifts, TakesEntry};
ghost use Rattle.amd_report.specs.Grids.{HasCells, IsSquareFor};

use crate::grids::Grid;
use crate::pattern::rows_between;
use std::alloc::{AllocError, Allocator};
use std::mem::swap;

/// The rows of the columns under way.
#[derive(Drop)]
struct Work<A: Allocator> {
    /// For each row one more than the last column that had an edge with it; 0 where none had.
    edge: Vec<usize, A>,
    /// The rows that may have a cell without a mark.
    open: Vec<usize, A>,
    /// Those of them that stay open.
    kept: Vec<usize, A>,
}

/// A number of a list; 0 past its end.
fn number_at(numbers: &[usize], k: usize) -> usize
    ensures { result ≡ slice_index numbers.now k }
{
    numbers.get(k).copied().unwrap_or(0)
}

/// Stamps a row, where there is one.
fn stamp_row(stamp: usize, row: usize, edge: &mut [usize])
    ensures size { length edge.new ≡ length edge.old }
    ensures row { row < length edge.old → slice_index edge.new row ≡ stamp }
    ensures others { (j : ℕ) → j ≢ row → slice_index edge.new j ≡ slice_index edge.old j }
{
    if row < edge.len() {
        edge[row] = stamp;
    }
}

/// Stamps the later neighbours of column `k`.
fn stamp(k: usize, later: &[usize], edge: &mut [usize])
    requires column { k < 18446744073709551615 }
    requires old { (j : ℕ) → slice_index edge.old j ≤ k }
    ensures size { length edge.new ≡ length edge.old }
    ensures stamped { (j : ℕ) → j < length edge.old → (slice_index edge.new j ≡ k + 1) ↔ Contains later.now j }
    ensures most { (j : ℕ) → slice_index edge.new j ≤ k + 1 }
{
    'rows: for &row in later {
        stamp_row(k + 1, row, edge);
    }
}

/// Looks at an entry of column `k`: marks it, with its mirror, where it is no edge. Returns whether its cells may still
/// have no mark.
fn take_entry<A: Allocator>(k: usize, row: usize, edge: &[usize], grid: &mut Grid<A>) -> bool
    requires column { k < 18446744073709551615 }
    requires covers { HasCells grid.old (length edge.now) }
    requires inside { k < length edge.now }
    ensures takes { TakesEntry grid.old grid.new k row edge.now }
    ensures stays { result ≡ true → slice_index edge.now row ≡ k + 1 }
    ensures done { result ≡ false → k < row → row < length edge.now → AreBoth grid.new k row }
{
    if row <= k || row >= edge.len() || grid.has_both(row, k) {
        return false;
    }
    if number_at(edge, row) == k + 1 {
        return true;
    }
    grid.mark_both(row, k);
    false
}

/// Marks the entry of column `k` in an open row where it is fill, and keeps the row where it stays open.
fn sift_row<A: Allocator, B: Allocator>(
    k: usize,
    row: usize,
    edge: &[usize],
    kept: &mut Vec<usize, B>,
    grid: &mut Grid<A>,
) -> Result<(), AllocError>
    requires column { k < 18446744073709551615 }
    requires covers { HasCells grid.old (length edge.now) }
    requires inside { k < length edge.now }
    ensures takes { OnOk result (TakesEntry grid.old grid.new k row edge.now) }
    ensures keeps { OnOk result (
        ((kept.new.items ≡ kept.old.items ++ row ∷ []) × (slice_index edge.now row ≡ k + 1))
        ⊎ ((kept.new.items ≡ kept.old.items) × (k < row → row < length edge.now → AreBoth grid.new k row))) }
{
    if take_entry(k, row, edge, grid) {
        kept.push(row)?;
    }
    Ok(())
}

/// Marks the fill of column `k` in the open rows, and keeps those that stay open.
fn sift<A: Allocator, B: Allocator>(
    k: usize,
    edge: &[usize],
    open: &[usize],
    kept: &mut Vec<usize, B>,
    grid: &mut Grid<A>,
) -> Result<(), AllocError>
    requires column { k < 18446744073709551615 }
    requires covers { HasCells grid.old (length edge.now) }
    requires inside { k < length edge.now }
    ensures { OnOk result (Sifts grid.old grid.new k edge.now open.now kept.new.items) }
{
    kept.clear();
    'open: for &row in open {
        sift_row(k, row, edge, kept, grid)?;
    }
    Ok(())
}

/// Makes the rows of column `k` the open ones: those behind it before `end`, and those below the block.
fn open_rows<A: Allocator>(
    k: usize,
    end: usize,
    below: &[usize],
    open: &mut Vec<usize, A>,
) -> Result<(), AllocError>
    requires { k < end }
    ensures { OnOk result (AreOpened k end below.now open.new.items) }
{
    open.clear();
    'block: for row in k + 1..end {
        open.push(row)?;
    }
    open.extend_from_slice(below)?;
    Ok(())
}

/// Opens the rows of column `k` anew where it `begins`.
fn open_column<A: Allocator>(
    k: usize,
    begins: bool,
    end: usize,
    below: &[usize],
    open: &mut Vec<usize, A>,
) -> Result<(), AllocError>
    requires { k < end }
    ensures { OnOk result (((begins ≡ false) × (open.new.items ≡ open.old.items))
        ⊎ AreOpened k end below.now open.new.items) }
{
    if begins {
        open_rows(k, end, below, open)?;
    }
    Ok(())
}

/// Marks the fill of column `k` in the open rows, by its later neighbours, and keeps the rows that stay open.
fn sift_column<A: Allocator, B: Allocator>(
    k: usize,
    later: &[usize],
    edge: &mut [usize],
    open: &[usize],
    kept: &mut Vec<usize, B>,
    grid: &mut Grid<A>,
) -> Result<(), AllocError>
    requires covers { HasCells grid.old (length edge.old) }
    requires column { k < length edge.old }
    requires stamps { (j : ℕ) → slice_index edge.old j ≤ k }
    ensures room { OnOk result (length edge.new ≡ length edge.old) }
    ensures stamps { OnOk result ((j : ℕ) → slice_index edge.new j ≤ k + 1) }
    ensures adds { OnOk result ((end : ℕ) (below : List ℕ) → IsReady grid.old (length edge.old) k end below open.now →
        AddsFill grid.old grid.new (length edge.old) (IsColumnFill k end below later.now)) }
    ensures ready { OnOk result ((end : ℕ) (below : List ℕ) →
        (k + 1) / max grid.old.step 1 ≡ k / max grid.old.step 1 →
        IsReady grid.old (length edge.old) k end below open.now →
        IsReady grid.new (length edge.old) (k + 1) end below kept.new.items) }
{
    stamp(k, later, edge);
    sift(k, edge, open, kept, grid)?;
    Ok(())
}

/// Marks the fill of column `k`, of a supernode that ends before `end` and has the rows `below`. Its rows are opened
/// anew where it is the first one of the supernode, or the first one in its column of cells.
fn mark_column<A: Allocator>(
    k: usize,
    begins: bool,
    end: usize,
    below: &[usize],
    later: &[usize],
    work: &mut Work<A>,
    grid: &mut Grid<A>,
) -> Result<(), AllocError>
    requires covers { HasCells grid.old (length work.old.edge.items) }
    requires column { k < length work.old.edge.items }
    requires inside { k < end }
    requires stamps { (j : ℕ) → slice_index work.old.edge.items j ≤ k }
    requires ready { begins ≡ false →
        IsReady grid.old (length work.old.edge.items) k end below.now work.old.open.items }
    ensures room { OnOk result (length work.new.edge.items ≡ length work.old.edge.items) }
    ensures stamps { OnOk result ((j : ℕ) → slice_index work.new.edge.items j ≤ k + 1) }
    ensures adds { OnOk result (AddsFill grid.old grid.new (length work.old.edge.items)
        (IsColumnFill k end below.now later.now)) }
    ensures ready { OnOk result ((k + 1) / max grid.old.step 1 ≡ k / max grid.old.step 1 →
        IsReady grid.new (length work.old.edge.items) (k + 1) end below.now work.new.open.items) }
{
    open_column(k, begins, end, below, &mut work.open)?;
    sift_column(k, later, &mut work.edge, &work.open, &mut work.kept, grid)?;
    swap(&mut work.open, &mut work.kept);
    Ok(())
}

/// Whether the rows of column `k` are opened anew: it is the first one of its supernode, or the first one in its column
/// of cells, which has `step` columns.
fn begins_rows(k: usize, first: usize, step: usize) -> bool
    requires { 0 < step }
    ensures { result ≡ false → (k ≢ first) × (k % step ≢ 0) }
{
    k == first || k % step == 0
}

/// Marks the fill of the columns from `first` on, before `end`: those of a supernode with the rows `below`.
fn mark_supernode<A: Allocator>(
    first: usize,
    end: usize,
    below: &[usize],
    starts: &[usize],
    later: &[usize],
    work: &mut Work<A>,
    grid: &mut Grid<A>,
) -> Result<(), AllocError>
    requires covers { HasCells grid.old (length work.old.edge.items) }
    requires order { first ≤ end }
    requires inside { end ≤ length work.old.edge.items }
    requires stamps { (j : ℕ) → slice_index work.old.edge.items j ≤ first }
    ensures room { OnOk result (length work.new.edge.items ≡ length work.old.edge.items) }
    ensures stamps { OnOk result ((j : ℕ) → slice_index work.new.edge.items j ≤ end) }
    ensures adds { OnOk result (AddsFill grid.old grid.new (length work.old.edge.items)
        (IsBlockFill first end below.now starts.now later.now)) }
{
    'columns: for k in first..end {
        let begins = begins_rows(k, first, grid.step());
        let near = rows_between(starts, later, k);
        mark_column(k, begins, end, below, near, work, grid)?;
    }
    Ok(())
}

/// Marks the fill of the supernodes that begin at the columns `first`.
fn mark_supernodes<A: Allocator>(
    first: &[usize],
    ptr: &[usize],
    rows: &[usize],
    starts: &[usize],
    later: &[usize],
    work: &mut Work<A>,
    grid: &mut Grid<A>,
) -> Result<(), AllocError>
    requires covers { HasCells grid.old (length work.old.edge.items) }
    requires cuts { AreCuts first.now (length work.old.edge.items) }
    requires stamps { (j : ℕ) → slice_index work.old.edge.items j ≡ 0 }
    ensures { OnOk result (AddsFill grid.old grid.new (length work.old.edge.items)
        (IsFillOf first.now ptr.now rows.now starts.now later.now (length first.now - 1))) }
{
    'supernodes: for s in 0..first.len().saturating_sub(1) {
        let begin = number_at(first, s);
        let end = number_at(first, s + 1);
        let below = rows_between(ptr, rows, s);
        mark_supernode(begin, end, below, starts, later, work, grid)?;
    }
    Ok(())
}

/// A square in which the fill of a factor with `n` columns is marked: its supernodes begin at the columns `first`,
/// those of `rows` below their blocks are told by `ptr`, and the later neighbours of each column by `starts`.
///
/// # Errors
///
/// A refused request for memory.
pub fn fill_grid<A: Allocator + Copy>(
    alloc: A,
    n: usize,
    first: &[usize],
    ptr: &[usize],
    rows: &[usize],
    starts: &[usize],
    later: &[usize],
) -> Result<Grid<A>, AllocError>
    requires { AreCuts first.now n }
    ensures square { IfOk result (λ g. IsSquareFor g n) }
    ensures shows { IfOk result (λ g. ShowsFill g n
        (IsFillOf first.now ptr.now rows.now starts.now later.now (length first.now - 1))) }
{
    let mut grid = Grid::new(alloc, n)?;
    let mut work = Work {
        edge: vec![in alloc; 0; n]?,
        open: Vec::new(alloc),
        kept: Vec::new(alloc),
    };
    mark_supernodes(first, ptr, rows, starts, later, &mut work, &mut grid)?;
    Ok(grid)
}
