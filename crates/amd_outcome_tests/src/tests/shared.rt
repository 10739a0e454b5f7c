// Counts where the columns share entries, and where they cannot: a clique, all columns of which are the tail of the
// first one, and a fan, each column of whose first half has a row that is new, so that the columns take more room than
// they are given. The sizes were worked by hand.

use crate::tests::orders::rows_of;
use amd_symbolic::{Fault, counts};
use amd_testing::check;
use amd_testing::refusing::{Refusing, each_refused};
use std::alloc::{AllocError, Global};
use std::process::Abort;
use std::test::Fail;

/// The number of rows of each of the two matrices.
const ROWS: i64 = 400;

/// The number of rows in the first half of the fan.
const HALF: i64 = 200;

/// A matrix, the order of its rows as they stand, and the number of entries of each column under it.
struct Sized {
    a_p: Vec<i64>,
    a_i: Vec<i64>,
    p: Vec<i64>,
    sizes: Vec<usize>,
}

impl Drop for Sized {
    fn drop(self) {
        let Sized {
            a_p: _,
            a_i: _,
            p: _,
            sizes: _,
        } = self;
    }
}

/// The rows before `j` that an entry joins with it, in a clique.
fn clique_rows(a_i: &mut Vec<i64>, j: i64) -> Result<(), AllocError> {
    for i in 0..j {
        a_i.push(i)?;
    }
    Ok(())
}

/// The rows before `j` that an entry joins with it, in a fan: the one before it, and for a row of the second half the
/// one that stands as far from the first row as it does from the last.
fn fan_rows(a_i: &mut Vec<i64>, j: i64) -> Result<(), AllocError> {
    if j > HALF {
        a_i.push(ROWS.saturating_sub(j).saturating_sub(1))?;
    }
    if j > 0 {
        a_i.push(j.saturating_sub(1))?;
    }
    Ok(())
}

/// How many rows stand behind `k`.
fn behind(k: i64) -> i64 {
    ROWS.saturating_sub(k).saturating_sub(1)
}

/// A clique: column `k` has all rows behind it.
fn clique(alloc: Global) -> Result<Sized, AllocError> {
    let mut a_p = Vec::new(alloc);
    let mut a_i = Vec::new(alloc);
    let mut sizes = Vec::new(alloc);
    a_p.push(0i64)?;
    for j in 0..ROWS {
        clique_rows(&mut a_i, j)?;
        a_p.push(i64::try_from(a_i.len()).unwrap_or(0))?;
        sizes.push(usize::try_from(behind(j)).unwrap_or(0))?;
    }
    let p = rows_of(alloc, ROWS)?;
    Ok(Sized { a_p, a_i, p, sizes })
}

/// A fan: column `k` of the first half has the next row and the last `k + 1`; the second half becomes a clique.
fn fan(alloc: Global) -> Result<Sized, AllocError> {
    let mut a_p = Vec::new(alloc);
    let mut a_i = Vec::new(alloc);
    let mut sizes = Vec::new(alloc);
    a_p.push(0i64)?;
    for j in 0..ROWS {
        fan_rows(&mut a_i, j)?;
        a_p.push(i64::try_from(a_i.len()).unwrap_or(0))?;
        let size = behind(j).min(j.saturating_add(2));
        let size = if j == HALF - 1 { HALF } else { size };
        sizes.push(usize::try_from(size).unwrap_or(0))?;
    }
    let p = rows_of(alloc, ROWS)?;
    Ok(Sized { a_p, a_i, p, sizes })
}

/// The sum of some sizes.
fn sum_of(sizes: &[usize]) -> u128 {
    let mut total = 0u128;
    for &size in sizes {
        total = total.saturating_add(size as u128);
    }
    total
}

/// Asks for the counts of a matrix, and says whether there was an answer.
fn asks(rt: &impl Abort, heap: &Refusing<Global>, matrix: &Sized) -> bool {
    match counts(heap, ROWS, &matrix.a_p, &matrix.a_i, &matrix.p) {
        Ok(counted) => {
            check!(rt; counted.sizes.as_slice() == matrix.sizes.as_slice());
            check!(rt; counted.need.lnz == sum_of(&matrix.sizes));
            true
        }
        Err(fault) => {
            check!(rt; fault == Fault::OutOfMemory);
            false
        }
    }
}

/// The place of each row, two lists for the neighbours, and five for the columns.
#[test]
fn each_request_where_columns_share_all(rt: HostRuntime) -> Result<(), Fail> {
    let matrix = clique(rt.alloc())?;
    let refusals = each_refused(rt.alloc(), |heap| asks(&rt, heap, &matrix));
    check!(&rt; refusals == Ok(8));
    Ok(())
}

/// These, two for more rows, and then those of the count by meetings: the places once more, two lists for each side's
/// neighbours, the parents, the work and the sizes.
#[test]
fn each_request_where_columns_share_too_little(rt: HostRuntime) -> Result<(), Fail> {
    let matrix = fan(rt.alloc())?;
    let refusals = each_refused(rt.alloc(), |heap| asks(&rt, heap, &matrix));
    check!(&rt; refusals == Ok(18));
    Ok(())
}
