// The definitions of an input and of its pattern, written down as they are said and computed slowly, to compare with. A
// column form, its edges and its degrees are those of the AMD user guide; the dense row parameter is a whole number of
// thousandths.

use std::alloc::{AllocError, AllocFailed, Global};

/// The number at a place as a count. Where there is none, or it is negative, this is the greatest count.
pub fn count_at(numbers: &[i64], place: usize) -> usize {
    match numbers.get(place) {
        Some(&number) => usize::try_from(number).unwrap_or(usize::MAX),
        None => usize::MAX,
    }
}

/// The places of a column: the first one, and the one after the last.
fn column(a_p: &[i64], j: usize) -> (usize, usize) {
    (count_at(a_p, j), count_at(a_p, j.saturating_add(1)))
}

/// Whether no pointer up to the last one is below the one before it.
fn never_descends(n: usize, a_p: &[i64]) -> bool {
    for j in 0..n {
        let (from, to) = column(a_p, j);
        if to < from {
            return false;
        }
    }
    true
}

/// Whether the first `places` numbers are rows of a matrix with `m` rows.
fn are_rows(m: i64, places: usize, a_i: &[i64]) -> bool {
    for k in 0..places {
        match a_i.get(k) {
            Some(&row) if 0 <= row && row < m => {}
            _ => return false,
        }
    }
    true
}

/// Whether an input is a column form with `n` columns and `m` rows.
pub fn is_column_form(n: i64, m: i64, a_p: &[i64], a_i: &[i64]) -> bool {
    let Ok(columns) = usize::try_from(n) else {
        return false;
    };
    let end = count_at(a_p, columns);
    columns < a_p.len()
        && count_at(a_p, 0) == 0
        && never_descends(columns, a_p)
        && end <= a_i.len()
        && are_rows(m, end, a_i)
}

/// Whether some row at the places from `from` on, before `to`, is not greater than the one before it.
fn has_descent(from: usize, to: usize, a_i: &[i64]) -> bool {
    for k in from..to {
        if k > from && count_at(a_i, k) <= count_at(a_i, k - 1) {
            return true;
        }
    }
    false
}

/// Whether some column of a column form is not strictly rising.
pub fn is_jumbled(n: usize, a_p: &[i64], a_i: &[i64]) -> bool {
    for j in 0..n {
        let (from, to) = column(a_p, j);
        if has_descent(from, to, a_i) {
            return true;
        }
    }
    false
}

/// Whether the pattern has the pair of row `i` and column `j`.
pub fn has_pair(a_p: &[i64], a_i: &[i64], i: usize, j: usize) -> bool {
    let (from, to) = column(a_p, j);
    for k in from..to {
        if count_at(a_i, k) == i {
            return true;
        }
    }
    false
}

/// Whether `i` and `j` are joined by an edge.
pub fn is_edge(a_p: &[i64], a_i: &[i64], i: usize, j: usize) -> bool {
    i != j && (has_pair(a_p, a_i, i, j) || has_pair(a_p, a_i, j, i))
}

/// The number of edges of row `i`.
pub fn degree(n: usize, a_p: &[i64], a_i: &[i64], i: usize) -> usize {
    let mut count = 0usize;
    for j in 0..n {
        if is_edge(a_p, a_i, i, j) {
            count = count.saturating_add(1);
        }
    }
    count
}

/// The number of pairs in column `j`.
fn pairs_of_column(n: usize, a_p: &[i64], a_i: &[i64], j: usize) -> usize {
    let mut count = 0usize;
    for i in 0..n {
        if has_pair(a_p, a_i, i, j) {
            count = count.saturating_add(1);
        }
    }
    count
}

/// The number of pairs of the pattern.
pub fn nz(n: usize, a_p: &[i64], a_i: &[i64]) -> usize {
    let mut count = 0usize;
    for j in 0..n {
        count = count.saturating_add(pairs_of_column(n, a_p, a_i, j));
    }
    count
}

/// The number of pairs of a row with its own column.
pub fn nz_diag(n: usize, a_p: &[i64], a_i: &[i64]) -> usize {
    let mut count = 0usize;
    for j in 0..n {
        if has_pair(a_p, a_i, j, j) {
            count = count.saturating_add(1);
        }
    }
    count
}

/// Twice the number of edges: the sum of the degrees.
pub fn nz_a_plus_at(n: usize, a_p: &[i64], a_i: &[i64]) -> usize {
    let mut count = 0usize;
    for i in 0..n {
        count = count.saturating_add(degree(n, a_p, a_i, i));
    }
    count
}

/// Whether each pair of column `j` has its mirror in the pattern.
fn is_mirrored(n: usize, a_p: &[i64], a_i: &[i64], j: usize) -> bool {
    for i in 0..n {
        if has_pair(a_p, a_i, i, j) && !has_pair(a_p, a_i, j, i) {
            return false;
        }
    }
    true
}

/// Whether the pattern is its own transpose.
pub fn symmetric(n: usize, a_p: &[i64], a_i: &[i64]) -> bool {
    for j in 0..n {
        if !is_mirrored(n, a_p, a_i, j) {
            return false;
        }
    }
    true
}

/// Whether `(1000 d)^2 <= t^2 n`. The left side stops at the greatest number, which the right side never reaches.
fn is_within(d: usize, t: i32, n: usize) -> bool {
    let side = (d as u128).saturating_mul(1000);
    let parameter = t.unsigned_abs() as u128;
    side.saturating_mul(side)
        <= parameter
            .saturating_mul(parameter)
            .saturating_mul(n as u128)
}

/// The greatest `d` of at most `n` for which `(1000 d)^2 <= t^2 n`.
fn greatest_within(t: i32, n: usize) -> usize {
    let mut greatest = 0;
    for d in 0..n {
        if !is_within(d.saturating_add(1), t, n) {
            return greatest;
        }
        greatest = d.saturating_add(1);
    }
    greatest
}

/// The greatest degree of a row that is not dense, for the dense row parameter `t`.
pub fn threshold(t: i32, n: usize) -> usize {
    let bound = if t >= 0 {
        greatest_within(t, n)
    } else {
        n.saturating_sub(2)
    };
    bound.max(16).min(n)
}

/// For each row whether it is dense.
pub fn dense_rows(
    alloc: Global,
    t: i32,
    n: usize,
    a_p: &[i64],
    a_i: &[i64],
) -> Result<Vec<bool>, AllocError> {
    let limit = threshold(t, n);
    let mut dense = Vec::new(alloc);
    for i in 0..n {
        dense.push(degree(n, a_p, a_i, i) > limit)?;
    }
    Ok(dense)
}

/// How many of these are true.
pub fn how_many(answers: &[bool]) -> usize {
    let mut count = 0usize;
    for &answer in answers {
        if answer {
            count = count.saturating_add(1);
        }
    }
    count
}

/// Whether the chosen rows stand last in a list of all rows, rising.
pub fn stand_last(chosen: &[bool], p: &[i64]) -> bool {
    let start = p.len().saturating_sub(how_many(chosen));
    for k in 0..p.len() {
        let row = count_at(p, k);
        let Some(&is_chosen) = chosen.get(row) else {
            return false;
        };
        if is_chosen != (k >= start) || (k > start && count_at(p, k - 1) >= row) {
            return false;
        }
    }
    true
}

/// Adds the columns in which row `i` stands, rising.
fn push_columns(
    n: usize,
    a_p: &[i64],
    a_i: &[i64],
    i: usize,
    columns: &mut Vec<i64>,
) -> Result<(), AllocFailed<i64>> {
    for j in 0..n {
        if has_pair(a_p, a_i, i, j) {
            columns.push(i64::try_from(j).unwrap_or(i64::MAX))?;
        }
    }
    Ok(())
}

/// The transposed pattern in column form, each column strictly rising.
pub fn clean_transpose(
    alloc: Global,
    n: usize,
    a_p: &[i64],
    a_i: &[i64],
) -> Result<(Vec<i64>, Vec<i64>), AllocError> {
    let mut pointers = Vec::new(alloc);
    let mut columns = Vec::new(alloc);
    pointers.push(0)?;
    for i in 0..n {
        push_columns(n, a_p, a_i, i, &mut columns)?;
        pointers.push(i64::try_from(columns.len()).unwrap_or(i64::MAX))?;
    }
    Ok((pointers, columns))
}

/// Whether both lists have `n` numbers and each undoes the other.
pub fn are_inverse(n: usize, p: &[i64], p_inv: &[i64]) -> bool {
    for k in 0..n {
        if count_at(p_inv, count_at(p, k)) != k || count_at(p, count_at(p_inv, k)) != k {
            return false;
        }
    }
    p.len() == n && p_inv.len() == n
}
