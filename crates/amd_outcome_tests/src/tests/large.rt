// A matrix with many rows: where no request is refused there is an answer, whatever the size. It is the path, in the
// order of its rows: each column has one entry, the next row, but for the last one; the last two columns are one
// supernode, and each other is one by itself. This was worked by hand.

use crate::tests::orders::rows_of;
use amd::Control;
use amd_symbolic::{
    analyze, analyze_counts, columns, columns_into, counts, supernode_sizes, supernodes,
};
use amd_testing::check;
use amd_testing::inputs::path;
use std::alloc::{AllocError, Global};
use std::process::Abort;
use std::test::Fail;

/// The number of rows.
const ROWS: i64 = 131_074;

/// The number of entries of the factor.
const ENTRIES: usize = 131_073;

/// A path, and the order of its rows.
struct Rows {
    a_p: Vec<i64>,
    a_i: Vec<i64>,
    p: Vec<i64>,
}

impl Drop for Rows {
    fn drop(self) {
        let Rows {
            a_p: _,
            a_i: _,
            p: _,
        } = self;
    }
}

/// The path.
fn many_rows(alloc: Global) -> Result<Rows, Fail> {
    let (a_p, a_i) = path(alloc, ROWS)?;
    let p = rows_of(alloc, ROWS)?;
    Ok(Rows { a_p, a_i, p })
}

/// Whether each column but the last has the next one as its parent.
fn are_parents(parent: &[Option<usize>]) -> bool {
    for (k, &above) in parent.iter().enumerate() {
        let next = if k < ENTRIES { Some(k + 1) } else { None };
        if above != next {
            return false;
        }
    }
    parent.len() == ENTRIES + 1
}

/// Asserts that the path has its columns, in the room that they need.
fn check_columns(rt: &impl Abort, alloc: Global, path: &Rows) {
    let Ok(factor) = columns(alloc, ROWS, &path.a_p, &path.a_i, &path.p, ENTRIES) else {
        panic!(rt; "no columns");
    };
    check!(rt; factor.rows.len() == ENTRIES && are_parents(&factor.parent));
}

/// Asserts that the columns of the path are written into numbers.
fn check_columns_into(rt: &impl Abort, alloc: Global, path: &Rows) -> Result<(), AllocError> {
    let mut rows = vec![in alloc; 0i64; ENTRIES]?;
    let Ok(frame) = columns_into(alloc, ROWS, &path.a_p, &path.a_i, &path.p, &mut rows) else {
        panic!(rt; "no columns in numbers");
    };
    check!(rt; rows.last() == Some(&(ROWS - 1)) && are_parents(&frame.parent));
    Ok(())
}

#[test]
fn columns_of_many_rows(rt: HostRuntime) -> Result<(), Fail> {
    let path = many_rows(rt.alloc())?;
    check_columns(&rt, rt.alloc(), &path);
    check_columns_into(&rt, rt.alloc(), &path)?;
    Ok(())
}

/// Asserts that the path has its counts.
fn check_counts(rt: &impl Abort, alloc: Global, path: &Rows) {
    let Ok(counted) = counts(alloc, ROWS, &path.a_p, &path.a_i, &path.p) else {
        panic!(rt; "no counts");
    };
    check!(rt; counted.need.lnz == ENTRIES as u128 && are_parents(&counted.parent));
}

/// Asserts that the path has its supernodes.
fn check_supernodes(rt: &impl Abort, alloc: Global, path: &Rows) {
    let Ok(made) = supernodes(alloc, ROWS, &path.a_p, &path.a_i, &path.p) else {
        panic!(rt; "no supernodes");
    };
    check!(rt; made.parent.len() == ENTRIES && made.rows.len() == ENTRIES - 1);
}

/// Asserts that the supernodes of the path have their sizes.
fn check_sizes(rt: &impl Abort, alloc: Global, path: &Rows) {
    let Ok(sizes) = supernode_sizes(alloc, ROWS, &path.a_p, &path.a_i, &path.p) else {
        panic!(rt; "no sizes");
    };
    check!(rt; sizes.supernodes == ENTRIES && sizes.rows == ENTRIES - 1);
}

#[test]
fn counts_of_many_rows(rt: HostRuntime) -> Result<(), Fail> {
    let path = many_rows(rt.alloc())?;
    check_counts(&rt, rt.alloc(), &path);
    check_supernodes(&rt, rt.alloc(), &path);
    check_sizes(&rt, rt.alloc(), &path);
    Ok(())
}

/// Asserts that the path is ordered, with its factor.
fn check_analysis(rt: &impl Abort, alloc: Global, path: &Rows) {
    let answer = analyze(alloc, ROWS, &path.a_p, &path.a_i, &Control::default());
    let Ok((p, _, info, factor)) = answer else {
        panic!(rt; "no factor");
    };
    check!(rt; p.len() == ENTRIES + 1 && info.lnz == ENTRIES && factor.rows.len() == ENTRIES);
}

/// Asserts that the path is ordered, with its counts.
fn check_analyzed_counts(rt: &impl Abort, alloc: Global, path: &Rows) {
    let answer = analyze_counts(alloc, ROWS, &path.a_p, &path.a_i, &Control::default());
    let Ok((_, _, _, counted)) = answer else {
        panic!(rt; "no counts");
    };
    check!(rt; counted.need.lnz == ENTRIES as u128);
}

#[test]
fn analyses_of_many_rows(rt: HostRuntime) -> Result<(), Fail> {
    let path = many_rows(rt.alloc())?;
    check_analysis(&rt, rt.alloc(), &path);
    check_analyzed_counts(&rt, rt.alloc(), &path);
    Ok(())
}
