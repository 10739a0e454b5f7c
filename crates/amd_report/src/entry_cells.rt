// The cells that the entries of a matrix fall into, in an order of its rows.

ghost use Rattle.std.specs.Prelude.{◌≡◌, ◌++◌, ℕ, List, IfOk, slice_index};
ghost use Rattle.amd_report.specs.Grids.{IsSquareFor, SameCells, ShowsPlaces, column_places, drawn_places};
ghost use Rattle.amd_report.specs.Grids.{entry_places};

use crate::grids::Grid;
use crate::pattern::rows_between;
use std::alloc::{AllocError, Allocator};

/// The place of a row.
fn place_of(places: &[usize], row: usize) -> usize
    ensures { result ≡ slice_index places.now row }
{
    places.get(row).copied().unwrap_or(0)
}

/// Marks the entry at a place, and its mirror where the pattern is `mirrored`.
fn mark_entry<A: Allocator>(grid: &mut Grid<A>, row: usize, column: usize, mirrored: bool)
    ensures same { SameCells grid.old grid.new }
    ensures shows { (marked : List (ℕ × ℕ)) → ShowsPlaces grid.old marked →
        ShowsPlaces grid.new (marked ++ drawn_places mirrored row column) }
{
    if mirrored {
        grid.mark_both(row, column);
    } else {
        grid.mark(row, column);
    }
}

/// Marks the entries in some rows of the column at a place.
fn mark_column<A: Allocator>(
    grid: &mut Grid<A>,
    rows: &[usize],
    column: usize,
    places: &[usize],
    mirrored: bool,
)
    ensures same { SameCells grid.old grid.new }
    ensures shows { (marked : List (ℕ × ℕ)) → ShowsPlaces grid.old marked →
        ShowsPlaces grid.new (marked ++ column_places mirrored places.now column rows.now) }
{
    'rows: for &row in rows {
        let place = place_of(places, row);
        mark_entry(grid, place, column, mirrored);
    }
}

/// A square in which the entries of a matrix with `n` rows are marked, each at the places of its row and of its column,
/// and its mirror too where the pattern is `mirrored`.
///
/// # Errors
///
/// A refused request for memory.
pub fn entry_grid<A: Allocator>(
    alloc: A,
    n: usize,
    a_p: &[usize],
    a_i: &[usize],
    places: &[usize],
    mirrored: bool,
) -> Result<Grid<A>, AllocError>
    ensures square { IfOk result (λ g. IsSquareFor g n) }
    ensures shows { IfOk result (λ g. ShowsPlaces g (entry_places mirrored places.now a_p.now a_i.now n)) }
{
    let mut grid = Grid::new(alloc, n)?;
    'columns: for j in 0..n {
        let rows = rows_between(a_p, a_i, j);
        let column = place_of(places, j);
        mark_column(&mut grid, rows, column, places, mirrored);
    }
    Ok(grid)
}
