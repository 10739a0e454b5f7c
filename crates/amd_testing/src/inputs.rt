// Families of inputs for tests, in column form with `n` rows and columns: named graphs, and matrices drawn from a seed
// by a linear congruential generator.

ghost use Rattle.std.specs.Prelude.{◌≤◌};

use std::alloc::{AllocError, AllocFailed, Global};

/// Adds the rows of the entries in column `j`, in the order in which they stand.
fn push_rows(entries: &[(i64, i64)], j: i64, a_i: &mut Vec<i64>) -> Result<(), AllocFailed<i64>> {
    for &(row, column) in entries {
        if column == j {
            a_i.push(row)?;
        }
    }
    Ok(())
}

/// The column form of a list of entries, each a row and a column. A column has its rows in the order in which they
/// stand there. This is slow: it takes `n` times as many steps as there are entries.
pub fn columns_of(
    alloc: Global,
    n: i64,
    entries: &[(i64, i64)],
) -> Result<(Vec<i64>, Vec<i64>), AllocError> {
    let mut a_p = Vec::new(alloc);
    let mut a_i = Vec::new(alloc);
    a_p.push(0)?;
    for j in 0..n {
        push_rows(entries, j, &mut a_i)?;
        a_p.push(i64::try_from(a_i.len()).unwrap_or(i64::MAX))?;
    }
    Ok((a_p, a_i))
}

/// Adds the entries of column `j` of a full matrix without its diagonal, from row `from` on.
fn push_column(
    from: i64,
    n: i64,
    j: i64,
    entries: &mut Vec<(i64, i64)>,
) -> Result<(), AllocFailed<(i64, i64)>> {
    for i in from..n {
        if i != j {
            entries.push((i, j))?;
        }
    }
    Ok(())
}

/// A star whose centre is row 0.
pub fn star(alloc: Global, n: i64) -> Result<(Vec<i64>, Vec<i64>), AllocError> {
    let mut entries = Vec::new(alloc);
    push_column(0, n, 0, &mut entries)?;
    columns_of(alloc, n, &entries)
}

/// A star whose centre is the last row.
pub fn star_to_last(alloc: Global, n: i64) -> Result<(Vec<i64>, Vec<i64>), AllocError> {
    let last = n.saturating_sub(1);
    let mut entries = Vec::new(alloc);
    for i in 1..n {
        entries.push((last, i.saturating_sub(1)))?;
    }
    columns_of(alloc, n, &entries)
}

/// The entries of a path: each row but the first one in the column before its own.
fn path_entries(alloc: Global, n: i64) -> Result<Vec<(i64, i64)>, AllocFailed<(i64, i64)>> {
    let mut entries = Vec::new(alloc);
    for i in 1..n {
        entries.push((i, i.saturating_sub(1)))?;
    }
    Ok(entries)
}

/// A path, in which each row is joined to the next one.
pub fn path(alloc: Global, n: i64) -> Result<(Vec<i64>, Vec<i64>), AllocError> {
    let entries = path_entries(alloc, n)?;
    columns_of(alloc, n, &entries)
}

/// A cycle of at least three rows: a path whose last row is joined to the first one.
pub fn cycle(alloc: Global, n: i64) -> Result<(Vec<i64>, Vec<i64>), AllocError> {
    let mut entries = path_entries(alloc, n)?;
    entries.push((n.saturating_sub(1), 0))?;
    columns_of(alloc, n, &entries)
}

/// A square grid with `side` rows of the matrix on each side, at least one: each is joined to the one on its right and
/// to the one below it.
pub fn grid(alloc: Global, side: i64) -> Result<(Vec<i64>, Vec<i64>), AllocError> {
    let width = side.max(1);
    let n = width.saturating_mul(width);
    let mut entries = Vec::new(alloc);
    for i in 0..n {
        if i % width != width - 1 {
            entries.push((i.saturating_add(1), i))?;
        }
        if i < n.saturating_sub(width) {
            entries.push((i.saturating_add(width), i))?;
        }
    }
    columns_of(alloc, n, &entries)
}

/// A complete graph by the entries below the diagonal alone.
pub fn complete_below(alloc: Global, n: i64) -> Result<(Vec<i64>, Vec<i64>), AllocError> {
    let mut entries = Vec::new(alloc);
    for j in 0..n {
        push_column(j, n, j, &mut entries)?;
    }
    columns_of(alloc, n, &entries)
}

/// A complete graph: a full matrix without its diagonal.
pub fn complete(alloc: Global, n: i64) -> Result<(Vec<i64>, Vec<i64>), AllocError> {
    let mut entries = Vec::new(alloc);
    for j in 0..n {
        push_column(0, n, j, &mut entries)?;
    }
    columns_of(alloc, n, &entries)
}

/// Draws a number below `n`, or 0 where `n` is 0: the generator's state makes one step, and its upper 31 bits are
/// taken. The factor and the summand are those of Knuth's generator for MMIX.
pub fn draw(state: &mut u64, n: u64) -> i64 {
    *state = state
        .wrapping_mul(6364136223846793005)
        .wrapping_add(1442695040888963407);
    i64::try_from(*state / 8589934592 % n.max(1)).unwrap_or(0)
}

/// The number of rows of a matrix that is drawn from a seed: from 1 to 40.
fn rows_of(seed: u64) -> u64
    ensures { result ≤ 40 }
{
    1 + seed % 40
}

/// Adds three entries for each row, drawn from a seed, the row of an entry before its column.
fn push_drawn(seed: u64, entries: &mut Vec<(i64, i64)>) -> Result<(), AllocFailed<(i64, i64)>> {
    let n = rows_of(seed);
    let mut state = seed;
    for _ in 0..3 * n {
        let row = draw(&mut state, n);
        entries.push((row, draw(&mut state, n)))?;
    }
    Ok(())
}

/// A matrix drawn from a seed. Most of them are jumbled. The result begins with the number of rows.
pub fn drawn(alloc: Global, seed: u64) -> Result<(i64, Vec<i64>, Vec<i64>), AllocError> {
    let n = i64::try_from(rows_of(seed)).unwrap_or(0);
    let mut entries = Vec::new(alloc);
    push_drawn(seed, &mut entries)?;
    let (a_p, a_i) = columns_of(alloc, n, &entries)?;
    Ok((n, a_p, a_i))
}

/// A matrix drawn from a seed, with a column 0 that has each row, so that row 0 may be dense.
pub fn drawn_with_hub(alloc: Global, seed: u64) -> Result<(i64, Vec<i64>, Vec<i64>), AllocError> {
    let n = i64::try_from(rows_of(seed)).unwrap_or(0);
    let mut entries = Vec::new(alloc);
    for i in 0..n {
        entries.push((i, 0))?;
    }
    push_drawn(seed, &mut entries)?;
    let (a_p, a_i) = columns_of(alloc, n, &entries)?;
    Ok((n, a_p, a_i))
}
