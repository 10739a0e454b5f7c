// The degrees of a pattern that has no entry above the diagonal: a row has as many neighbours as its column has other
// rows, and as it stands in other columns. Where it stands is counted in one pass over all entries, with no loop for
// each column: most columns are short. Source: Amestoy, Davis and Duff 2004 (the forming of A + A').

ghost use Rattle.std.specs.Prelude.{◌≡◌, ◌<◌, ◌≤◌, ◌+◌, ℕ, map, length, pos, slice_index, IfNone, IfSome};
ghost use Rattle.std.specs.Vec.{vec_capacity};
ghost use Rattle.amd_model.specs.Input.Columns.{at, IsRow};
ghost use Rattle.amd_model.specs.Input.Pattern.{graph_of, diagonal_count};
ghost use Rattle.amd_types.specs.Naturals.{naturals, is_entry};
ghost use Rattle.amd_edges.specs.Visits.{AreCounts};
ghost use Rattle.amd_input.specs.Degrees.{CountDegrees, IsReadyToCount, IsRisingForm};
ghost use Rattle.amd_input.specs.LowerRows.{AreLow, CountOwn, CountRows, DropDiagonals, HasRowAbove, times};
ghost use Rattle.amd_input.specs.Mirrors.{CountOthers};

use amd_types::index::Index;
use amd_types::internal::count_at;
use amd_words::{Cell, Unsigned, cell_at, cell_of, put_cell};
use std::alloc::Allocator;

/// How many other rows a column has, and whether it has a diagonal entry.
#[derive(Clone, Copy)]
struct Own {
    others: usize,
    diagonal: bool,
}

/// Counts the other rows of column `k`, one of `size`; `None` exactly where its first row stands above the diagonal.
fn own_rows<I: Index>(size: usize, k: usize, a_p: &[I], a_i: &[I]) -> Option<Own>
    requires input { IsRisingForm size (map I.value a_p.now) (map I.value a_i.now) }
    requires k_in { k < size }
    ensures own { IfSome result (CountOwn size (naturals (map I.value a_p.now)) (naturals (map I.value a_i.now)) k) }
    ensures above { IfNone result (HasRowAbove size (naturals (map I.value a_p.now)) (naturals (map I.value a_i.now))) }
{
    let start = count_at(a_p, k);
    let rows = count_at(a_p, k + 1) - start;
    if rows == 0 {
        return Some(Own {
            others: 0,
            diagonal: false,
        });
    }
    let first = count_at(a_i, start);
    if first < k {
        return None;
    }
    if first == k {
        return Some(Own {
            others: rows - 1,
            diagonal: true,
        });
    }
    Some(Own {
        others: rows,
        diagonal: false,
    })
}

/// Whether column `k`, one of `size`, has a diagonal entry. No row stands above the diagonal.
fn has_diagonal<I: Index>(size: usize, k: usize, a_p: &[I], a_i: &[I]) -> bool
    requires input { IsRisingForm size (map I.value a_p.now) (map I.value a_i.now) }
    requires low { AreLow size (naturals (map I.value a_p.now)) (naturals (map I.value a_i.now)) size }
    requires k_in { k < size }
    ensures { result ≡ is_entry size (naturals (map I.value a_p.now)) (naturals (map I.value a_i.now)) k k }
{
    let start = count_at(a_p, k);
    start < count_at(a_p, k + 1) && count_at(a_i, start) == k
}

/// Appends the number of other rows of each of `size` columns to an empty list, and returns the number of diagonal
/// entries; `None` exactly where a row stands above the diagonal.
fn own_degrees<I: Index, U: Unsigned, A: Allocator>(
    size: usize,
    a_p: &[I],
    a_i: &[I],
    degrees: &mut Vec<Cell<U>, A>,
) -> Option<usize>
    requires ready { IsReadyToCount size (map I.value a_p.now) (map I.value a_i.now) U.MOST (vec_capacity degrees.old)
        degrees.old.items }
    ensures others { IfSome result (λ diagonals. CountOthers size (naturals (map I.value a_p.now))
        (naturals (map I.value a_i.now)) size degrees.new.items) }
    ensures low { IfSome result (λ diagonals. AreLow size (naturals (map I.value a_p.now))
        (naturals (map I.value a_i.now)) size) }
    ensures diagonals { IfSome result (λ diagonals. diagonals ≡
        diagonal_count size (map I.value a_p.now) (map I.value a_i.now)) }
    ensures above { IfNone result (HasRowAbove size (naturals (map I.value a_p.now)) (naturals (map I.value a_i.now))) }
    ensures room { vec_capacity degrees.new ≡ vec_capacity degrees.old }
{
    let mut diagonals = 0;
    'columns: for k in 0..size {
        let own = own_rows(size, k, a_p, a_i)?;
        degrees.push_reserved(cell_of(own.others));
        if own.diagonal {
            diagonals += 1;
        }
    }
    Some(diagonals)
}

/// Adds to the numbers how often each row stands at the first `entries` places.
fn add_rows<I: Index, U: Unsigned>(entries: usize, a_i: &[I], numbers: &mut [Cell<U>])
    requires within { entries ≤ length a_i.now }
    requires rows { (q : ℕ) → q < entries → IsRow (pos (length numbers.old)) (at (map I.value a_i.now) q) }
    requires fits { (i : ℕ) → i < length numbers.old →
        slice_index numbers.old i + times (naturals (map I.value a_i.now)) entries i ≤ U.MOST }
    ensures { CountRows (naturals (map I.value a_i.now)) entries numbers.old numbers.new }
{
    'places: for q in 0..entries {
        let row = count_at(a_i, q);
        let number = cell_at(numbers, row);
        put_cell(numbers, row, number + 1);
    }
}

/// Takes 1 off the number of each of `size` columns that has a diagonal entry. No row stands above the diagonal.
fn drop_diagonals<I: Index, U: Unsigned>(size: usize, a_p: &[I], a_i: &[I], numbers: &mut [Cell<U>])
    requires input { IsRisingForm size (map I.value a_p.now) (map I.value a_i.now) }
    requires low { AreLow size (naturals (map I.value a_p.now)) (naturals (map I.value a_i.now)) size }
    requires long { length numbers.old ≡ size }
    ensures { DropDiagonals size (naturals (map I.value a_p.now)) (naturals (map I.value a_i.now)) size numbers.old
        numbers.new }
{
    'columns: for k in 0..size {
        if has_diagonal(size, k, a_p, a_i) {
            let number = cell_at(numbers, k);
            put_cell(numbers, k, number.saturating_sub(1));
        }
    }
}

/// Makes the numbers of other rows in the columns into the degrees of the rows.
fn add_others<I: Index, U: Unsigned>(
    size: usize,
    a_p: &[I],
    a_i: &[I],
    diagonals: usize,
    numbers: &mut [Cell<U>],
)
    requires input { IsRisingForm size (map I.value a_p.now) (map I.value a_i.now) }
    requires low { AreLow size (naturals (map I.value a_p.now)) (naturals (map I.value a_i.now)) size }
    requires fits { size ≤ U.MOST }
    requires diagonals { diagonals ≡ diagonal_count size (map I.value a_p.now) (map I.value a_i.now) }
    requires others { CountOthers size (naturals (map I.value a_p.now)) (naturals (map I.value a_i.now)) size
        numbers.old }
    ensures { AreCounts (graph_of size (map I.value a_p.now) (map I.value a_i.now))
        ((graph_of size (map I.value a_p.now) (map I.value a_i.now)).edge) numbers.new }
{
    let entries = count_at(a_p, size);
    add_rows(entries, a_i, numbers);
    if diagonals > 0 {
        drop_diagonals(size, a_p, a_i, numbers);
    }
}

/// Appends the degree of each of `size` rows to an empty list, and returns the number of diagonal entries; or `None`,
/// exactly where a row stands above the diagonal.
pub fn lower_degrees<I: Index, U: Unsigned, A: Allocator>(
    size: usize,
    a_p: &[I],
    a_i: &[I],
    degrees: &mut Vec<Cell<U>, A>,
) -> Option<usize>
    requires ready { IsReadyToCount size (map I.value a_p.now) (map I.value a_i.now) U.MOST (vec_capacity degrees.old)
        degrees.old.items }
    ensures counted { IfSome result (CountDegrees size (map I.value a_p.now) (map I.value a_i.now) degrees.new.items) }
    ensures low { IfSome result (λ diagonals. AreLow size (naturals (map I.value a_p.now))
        (naturals (map I.value a_i.now)) size) }
    ensures above { IfNone result (HasRowAbove size (naturals (map I.value a_p.now)) (naturals (map I.value a_i.now))) }
    ensures room { vec_capacity degrees.new ≡ vec_capacity degrees.old }
{
    let diagonals = own_degrees(size, a_p, a_i, degrees)?;
    add_others(size, a_p, a_i, diagonals, degrees);
    Some(diagonals)
}
