// The profile of the pattern of A + A': over the rows the sum of how far before the diagonal the first entry is.
// Source: George and Liu 1981.

ghost use Rattle.std.specs.Prelude.{◌≡◌, ◌<◌, ◌+◌, ◌-◌, ℕ, pos, map, min, length, true};
ghost use Rattle.std.specs.Prelude.{slice_index, slice_set, IfOk};
ghost use Rattle.amd_model.specs.Below.{sum_below};
ghost use Rattle.amd_model.specs.Input.Columns.{IsColumnForm, IsSorted};
ghost use Rattle.amd_model.specs.Input.Pattern.{IsSymmetric, graph_of};
ghost use Rattle.amd_report.specs.Passes.{AreFirsts, IsForm, first_row};
ghost use Rattle.amd_report.specs.Shapes.{IsProfile};
ghost use Rattle.amd_report.specs.Signs.{IsRisingForm};

use crate::components::own_links;
use std::alloc::{AllocError, Allocator};

/// Lowers the first neighbour of a row to another one, where that is before it.
fn lower(row: usize, other: usize, firsts: &mut [usize])
    requires { row < length firsts.old }
    ensures { firsts.new ≡ slice_set firsts.old row (min (slice_index firsts.old row) other) }
{
    firsts[row] = firsts[row].min(other);
}

/// Meets the entries of a column.
fn meet_column(column: usize, a_p: &[usize], a_i: &[usize], firsts: &mut [usize])
    requires inside { column < length firsts.old }
    requires form { IsForm (length firsts.old) a_p.now a_i.now }
    requires firsts { AreFirsts a_p.now a_i.now column 0 firsts.old }
    ensures size { length firsts.new ≡ length firsts.old }
    ensures firsts { AreFirsts a_p.now a_i.now (column + 1) 0 firsts.new }
{
    let end = a_p[column + 1];
    'places: for place in a_p[column]..end {
        let row = a_i[place];
        lower(row.max(column), row.min(column), firsts);
    }
}

/// Meets the entries of a matrix with `n` rows and columns.
fn meet_entries(n: usize, a_p: &[usize], a_i: &[usize], firsts: &mut [usize])
    requires size { length firsts.old ≡ n }
    requires form { IsForm n a_p.now a_i.now }
    requires firsts { AreFirsts a_p.now a_i.now 0 0 firsts.old }
    ensures size { length firsts.new ≡ n }
    ensures firsts { AreFirsts a_p.now a_i.now n 0 firsts.new }
{
    'columns: for column in 0..n {
        meet_column(column, a_p, a_i, firsts);
    }
}

/// The sum of how far before each row its first neighbour is.
fn sum_of(firsts: &[usize]) -> u128
    ensures { result ≡ sum_below (length firsts.now) (λ i. i - slice_index firsts.now i) }
{
    let mut sum = 0;
    'rows: for row in 0..firsts.len() {
        sum += row.saturating_sub(firsts[row]) as u128;
    }
    sum
}

/// The profile of a matrix with `n` rows and columns.
///
/// # Errors
///
/// A refused request for memory.
fn profile<A: Allocator>(
    alloc: A,
    n: usize,
    a_p: &[usize],
    a_i: &[usize],
) -> Result<u128, AllocError>
    requires { IsColumnForm (pos n) n (map pos a_p.now) (map pos a_i.now) }
    ensures { IfOk result (IsProfile (graph_of n (map pos a_p.now) (map pos a_i.now))) }
{
    let mut firsts = own_links(alloc, n)?;
    meet_entries(n, a_p, a_i, &mut firsts);
    Ok(sum_of(&firsts))
}

/// How far before the diagonal the first entry of a column is; 0 where none is before it.
fn before_diagonal(column: usize, n: usize, a_p: &[usize], a_i: &[usize]) -> usize
    requires form { IsRisingForm n a_p.now a_i.now }
    requires inside { column < n }
    ensures { result ≡ column - first_row a_p.now a_i.now column }
{
    let (begin, end) = (a_p[column], a_p[column + 1]);
    if begin < end {
        return column.saturating_sub(a_i[begin]);
    }
    0
}

/// The profile of a symmetric matrix with `n` rows and columns: the first neighbour of a row is the first entry of its
/// column.
fn symmetric_profile(n: usize, a_p: &[usize], a_i: &[usize]) -> u128
    requires form { IsColumnForm (pos n) n (map pos a_p.now) (map pos a_i.now) }
    requires sorted { IsSorted n (map pos a_p.now) (map pos a_i.now) }
    requires symmetric { IsSymmetric n (map pos a_p.now) (map pos a_i.now) }
    ensures { IsProfile (graph_of n (map pos a_p.now) (map pos a_i.now)) result }
{
    let mut sum = 0;
    'columns: for column in 0..n {
        sum += before_diagonal(column, n, a_p, a_i) as u128;
    }
    sum
}

/// The profile of a sorted matrix with `n` rows and columns, of which is known whether it is symmetric.
///
/// # Errors
///
/// A refused request for memory.
pub(crate) fn profile_of<A: Allocator>(
    alloc: A,
    n: usize,
    a_p: &[usize],
    a_i: &[usize],
    symmetric: bool,
) -> Result<u128, AllocError>
    requires form { IsColumnForm (pos n) n (map pos a_p.now) (map pos a_i.now) }
    requires sorted { IsSorted n (map pos a_p.now) (map pos a_i.now) }
    requires symmetric { symmetric ≡ true → IsSymmetric n (map pos a_p.now) (map pos a_i.now) }
    ensures { IfOk result (IsProfile (graph_of n (map pos a_p.now) (map pos a_i.now))) }
{
    if symmetric {
        return Ok(symmetric_profile(n, a_p, a_i));
    }
    profile(alloc, n, a_p, a_i)
}
