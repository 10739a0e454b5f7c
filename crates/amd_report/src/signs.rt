// The degrees of the rows of a sorted matrix: by `aat` where most entries have a mirror. Else the columns are met in
// turn. An entry below the diagonal gives an edge, and so does one above it without a mirror, which would stand in an
// earlier column. A row has the signs of the columns that it was met in, two of 64 for each: a column whose signs it
// lacks has no mirror, and only another one is searched. Source: Bloom 1970; Amestoy, Davis and Duff 2004 (the forming
// of A + A').

ghost use Rattle.std.specs.Prelude.{◌≡◌, ◌<◌, ◌≤◌, ◌+◌, ◌^◌, ◌&&◌, nat_lt, map, pos, length, slice_index, slice_set};
ghost use Rattle.std.specs.Prelude.{IfOk, OnOk, SomeIff};
ghost use Rattle.amd_model.specs.Below.{count_below, sum_below};
ghost use Rattle.amd_model.specs.Input.Columns.{IsColumnForm, IsSorted};
ghost use Rattle.amd_types.specs.Naturals.{count_graph, is_before};
ghost use Rattle.amd_edges.specs.Visits.{AreCounts};
ghost use Rattle.amd_input.specs.Degrees.{AreDegrees};
ghost use Rattle.amd_input.specs.PatternFigures.{HasPatternFigures};
ghost use Rattle.amd_report.specs.Signs.{HaveSigns, IsRisingForm, edge_met, signs_after, signs_of};

use amd_input::aat::aat;
use amd_types::amd::{Info, Status};
use std::alloc::{AllocError, Allocator};

/// The signs of a column, two of 64 bits.
fn signs_of(column: usize) -> usize
    ensures { result ≡ signs_of column }
{
    let mixed = column.wrapping_mul(0x9E37_79B9_7F4A_7C15);
    1 << (mixed >> 58) | 1 << ((mixed >> 52) % 64)
}

/// Whether a row stands in a column.
fn has_row(row: usize, column: usize, n: usize, a_p: &[usize], a_i: &[usize]) -> bool
    requires form { IsRisingForm n a_p.now a_i.now }
    requires inside { column < n }
    ensures { result ≡ is_before a_p.now a_i.now (slice_index a_p.now (column + 1)) row column }
{
    let end = a_p[column + 1];
    let mut low = a_p[column];
    let mut high = end;
    'halves: while low < high {
        let middle = low + (high - low) / 2;
        if a_i[middle] < row {
            low = middle + 1;
        } else {
            high = middle;
        }
    }
    low < end && a_i[low] == row
}

/// Whether an entry off the diagonal is above it and has a mirror, which stands in a column that was met.
fn has_mirror(row: usize, column: usize, a_p: &[usize], a_i: &[usize], signs: &[usize]) -> bool
    requires form { IsRisingForm (length signs.now) a_p.now a_i.now }
    requires inside { column < length signs.now }
    requires signs { HaveSigns a_p.now a_i.now column 0 signs.now }
    ensures { result ≡ (nat_lt row column && is_before a_p.now a_i.now (slice_index a_p.now (row + 1)) column row) }
{
    if row >= column {
        return false;
    }
    let wanted = signs_of(row);
    signs[column] & wanted == wanted && has_row(column, row, signs.len(), a_p, a_i)
}

/// Gives a row the signs of a column, where its entry is below the diagonal.
fn sign(row: usize, column: usize, signs: &mut [usize])
    requires { row < length signs.old }
    ensures { signs.new ≡ signs_after signs.old row column }
{
    if row > column {
        signs[row] |= signs_of(column);
    }
}

/// Meets the entry at a place of a column, and returns the degree of the column's row. The other degrees stand in the
/// list.
fn meet_entry(
    place: usize,
    column: usize,
    a_p: &[usize],
    a_i: &[usize],
    signs: &mut [usize],
    degrees: &mut [usize],
    degree: usize,
) -> usize
    requires sizes { length signs.old ≡ length degrees.old }
    requires form { IsRisingForm (length degrees.old) a_p.now a_i.now }
    requires inside { column < length degrees.old }
    requires from { slice_index a_p.now column ≤ place }
    requires to { place < slice_index a_p.now (column + 1) }
    requires signs { HaveSigns a_p.now a_i.now column place signs.old }
    requires degrees { AreCounts (count_graph (length degrees.old) a_p.now a_i.now)
        (edge_met (length degrees.old) a_p.now a_i.now column place) (slice_set degrees.old column degree) }
    ensures sizes { (length signs.new ≡ length signs.old) × (length degrees.new ≡ length degrees.old) }
    ensures signs { HaveSigns a_p.now a_i.now column (place + 1) signs.new }
    ensures degrees { AreCounts (count_graph (length degrees.old) a_p.now a_i.now)
        (edge_met (length degrees.old) a_p.now a_i.now column (place + 1)) (slice_set degrees.new column result) }
{
    let row = a_i[place];
    if row == column {
        return degree;
    }
    if has_mirror(row, column, a_p, a_i, signs) {
        return degree;
    }
    sign(row, column, signs);
    degrees[row] += 1;
    degree + 1
}

/// Meets the entries of a column.
fn meet_column(
    column: usize,
    a_p: &[usize],
    a_i: &[usize],
    signs: &mut [usize],
    degrees: &mut [usize],
)
    requires sizes { length signs.old ≡ length degrees.old }
    requires form { IsRisingForm (length degrees.old) a_p.now a_i.now }
    requires inside { column < length degrees.old }
    requires signs { HaveSigns a_p.now a_i.now column 0 signs.old }
    requires degrees { AreCounts (count_graph (length degrees.old) a_p.now a_i.now)
        (edge_met (length degrees.old) a_p.now a_i.now column 0) degrees.old }
    ensures sizes { (length signs.new ≡ length signs.old) × (length degrees.new ≡ length degrees.old) }
    ensures signs { HaveSigns a_p.now a_i.now (column + 1) 0 signs.new }
    ensures degrees { AreCounts (count_graph (length degrees.old) a_p.now a_i.now)
        (edge_met (length degrees.old) a_p.now a_i.now (column + 1) 0) degrees.new }
{
    let end = a_p[column + 1];
    let mut degree = degrees[column];
    'places: for place in a_p[column]..end {
        degree = meet_entry(place, column, a_p, a_i, signs, degrees, degree);
    }
    degrees[column] = degree;
}

/// Meets the entries of all columns.
fn meet_columns(a_p: &[usize], a_i: &[usize], signs: &mut [usize], degrees: &mut [usize])
    requires sizes { length signs.old ≡ length degrees.old }
    requires form { IsRisingForm (length degrees.old) a_p.now a_i.now }
    requires signs { HaveSigns a_p.now a_i.now 0 0 signs.old }
    requires degrees { AreCounts (count_graph (length degrees.old) a_p.now a_i.now)
        (edge_met (length degrees.old) a_p.now a_i.now 0 0) degrees.old }
    ensures size { length degrees.new ≡ length degrees.old }
    ensures degrees { AreCounts (count_graph (length degrees.old) a_p.now a_i.now)
        (edge_met (length degrees.old) a_p.now a_i.now (length degrees.old) 0) degrees.new }
{
    'columns: for column in 0..degrees.len() {
        meet_column(column, a_p, a_i, signs, degrees);
    }
}

/// How many entries of `n` columns are on the diagonal.
fn count_diagonal(n: usize, a_p: &[usize], a_i: &[usize]) -> usize
    requires { IsRisingForm n a_p.now a_i.now }
    ensures { result ≡ count_below n (λ v. is_before a_p.now a_i.now (slice_index a_p.now (v + 1)) v v) }
{
    let mut count = 0;
    'columns: for column in 0..n {
        if has_row(column, column, n, a_p, a_i) {
            count += 1;
        }
    }
    count
}

/// The sum of some numbers, where it is at most the greatest `usize`.
fn sum_of(numbers: &[usize]) -> Option<usize>
    ensures { SomeIff result (sum_below (length numbers.now) (λ k. slice_index numbers.now k) < 2 ^ 64)
        (sum_below (length numbers.now) (λ k. slice_index numbers.now k)) }
{
    let mut sum: usize = 0;
    'numbers: for &number in numbers {
        sum = sum.checked_add(number)?;
    }
    Some(sum)
}

/// The degree of each of `n` rows.
///
/// # Errors
///
/// A refused request for memory.
fn degrees_of<A: Allocator + Copy>(
    alloc: A,
    n: usize,
    a_p: &[usize],
    a_i: &[usize],
) -> Result<Vec<usize, A>, AllocError>
    requires { IsRisingForm n a_p.now a_i.now }
    ensures { IfOk result (λ v. AreCounts (count_graph n a_p.now a_i.now) ((count_graph n a_p.now a_i.now).edge)
        v.items) }
{
    let mut signs = vec![in alloc; 0; n]?;
    let mut degrees = vec![in alloc; 0; n]?;
    meet_columns(a_p, a_i, &mut signs, &mut degrees);
    Ok(degrees)
}

/// The sum of the degrees and the degree of each row of a sorted matrix; writes the figures of its pattern.
///
/// # Errors
///
/// `OutOfMemory` where an allocation was refused.
pub(crate) fn sorted_degrees<A: Allocator + Copy>(
    alloc: A,
    n: usize,
    a_p: &[usize],
    a_i: &[usize],
    info: &mut Info,
) -> Result<(usize, Vec<usize, A>), Status>
    requires form { IsColumnForm (pos n) n (map pos a_p.now) (map pos a_i.now) }
    requires sorted { IsSorted n (map pos a_p.now) (map pos a_i.now) }
    ensures degrees { IfOk result (λ a. AreDegrees n (map pos a_p.now) (map pos a_i.now) a.0 a.1.items) }
    ensures figures { OnOk result (HasPatternFigures n (map pos a_p.now) (map pos a_i.now) info.new) }
    ensures status { OnOk result (info.new.status ≡ info.old.status) }
{
    if is_mostly_mirrored(n, a_p, a_i) {
        return aat(alloc, n, a_p, a_i, info);
    }
    let degrees = degrees_of(alloc, n, a_p, a_i)?;
    let Some(sum) = sum_of(&degrees) else {
        return Err(Status::OutOfMemory);
    };
    let diagonals = count_diagonal(n, a_p, a_i);
    let outside = a_p[n] - diagonals;
    info.n = n;
    info.nz = a_p[n];
    info.nz_diag = diagonals;
    info.nz_a_plus_at = sum;
    info.symmetry = sum == outside;
    Ok((sum, degrees))
}

/// Whether an entry off the diagonal of a column has no mirror: the first one, or the last one where that is on it.
fn lacks_mirror(column: usize, n: usize, a_p: &[usize], a_i: &[usize]) -> bool
    requires form { IsRisingForm n a_p.now a_i.now }
    requires inside { column < n }
{
    let (begin, end) = (a_p[column], a_p[column + 1]);
    if begin == end {
        return false;
    }
    let first = a_i[begin];
    let row = if first == column { a_i[end - 1] } else { first };
    !has_row(column, row, n, a_p, a_i)
}

/// Whether most of the entries have a mirror, judged by one of each of a thousand columns.
fn is_mostly_mirrored(n: usize, a_p: &[usize], a_i: &[usize]) -> bool
    requires form { IsColumnForm (pos n) n (map pos a_p.now) (map pos a_i.now) }
    requires sorted { IsSorted n (map pos a_p.now) (map pos a_i.now) }
{
    let step = n / 1000 + 1;
    let samples = n / step;
    let mut lacking = 0;
    'samples: for sample in 0..samples {
        if lacks_mirror(sample * step, n, a_p, a_i) {
            lacking += 1;
        }
    }
    lacking <= samples / 2
}
