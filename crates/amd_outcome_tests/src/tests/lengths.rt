// The counts beside the columns themselves, on graphs that are larger than those that searches for paths follow, under
// orders that fill in much: the rows as they stand, reversed, and as they are drawn. And stars from their centre on.

use crate::checks::check_under;
use crate::tests::orders::{other_orders, rows_of};
use amd::{Control, order};
use amd_symbolic::{Counts, Factor, columns, counts};
use amd_testing::check;
use amd_testing::families::{Family, each_member};
use amd_testing::inputs::{star, star_to_last};
use std::alloc::{AllocError, Global};
use std::process::Abort;
use std::test::Fail;

/// Whether the sizes are the lengths of the columns, and the parents are the same.
fn are_lengths(counted: &Counts<Global>, factor: &Factor<Global>) -> bool {
    let mut end = 0usize;
    for (k, &size) in counted.sizes.iter().enumerate() {
        if factor.ptr.get(k) != Some(&end) {
            return false;
        }
        end = end.saturating_add(size);
    }
    factor.ptr.len() == counted.sizes.len().saturating_add(1)
        && factor.ptr.last() == Some(&end)
        && factor.rows.len() == end
        && factor.parent.as_slice() == counted.parent.as_slice()
}

/// The sum of the sizes.
fn room_of(counted: &Counts<Global>) -> usize {
    let mut room = 0usize;
    for &size in counted.sizes.iter() {
        room = room.saturating_add(size);
    }
    room
}

/// Asserts that under an order the sizes are the lengths of the columns, with their sum as room.
fn check_order(rt: &impl Abort, alloc: Global, n: i64, a_p: &[i64], a_i: &[i64], p: &[i64]) {
    let Ok(counted) = counts(alloc, n, a_p, a_i, p) else {
        panic!(rt; "no counts");
    };
    let Ok(factor) = columns(alloc, n, a_p, a_i, p, room_of(&counted)) else {
        panic!(rt; "no columns");
    };
    check_under(rt, are_lengths(&counted, &factor), p, a_p, a_i);
}

/// Compares under the order of an ordering, and under five that are none.
fn check_orders(
    rt: &impl Abort,
    alloc: Global,
    n: i64,
    a_p: &[i64],
    a_i: &[i64],
) -> Result<(), AllocError> {
    let Ok((p, _, _)) = order(alloc, n, a_p, a_i, &Control::default()) else {
        panic!(rt; "no ordering");
    };
    check_order(rt, alloc, n, a_p, a_i, &p);
    for rows in &other_orders(alloc, n, 3)? {
        check_order(rt, alloc, n, a_p, a_i, rows);
    }
    Ok(())
}

/// Families of graphs, and some of their sizes.
static GRAPHS: [(Family, i64); 22] = [
    (Family::Empty, 90),
    (Family::Path, 3),
    (Family::Path, 60),
    (Family::Path, 90),
    (Family::Cycle, 3),
    (Family::Cycle, 60),
    (Family::Cycle, 90),
    (Family::Star, 3),
    (Family::Star, 60),
    (Family::Star, 90),
    (Family::StarToLast, 3),
    (Family::StarToLast, 60),
    (Family::StarToLast, 90),
    (Family::CompleteBelow, 3),
    (Family::CompleteBelow, 60),
    (Family::CompleteBelow, 90),
    (Family::Complete, 3),
    (Family::Complete, 60),
    (Family::Complete, 90),
    (Family::Grid, 1),
    (Family::Grid, 8),
    (Family::Grid, 15),
];

#[test]
fn lengths_of_families(rt: HostRuntime) -> Result<(), Fail> {
    let alloc = rt.alloc();
    for &(family, size) in &GRAPHS {
        each_member(
            alloc,
            family,
            size,
            size,
            |n, a_p, a_i| check_orders(&rt, alloc, n, a_p, a_i),
        )?;
    }
    Ok(())
}

#[test]
fn lengths_of_drawn_matrices(rt: HostRuntime) -> Result<(), Fail> {
    let alloc = rt.alloc();
    for family in [Family::Drawn, Family::DrawnWithHub] {
        each_member(
            alloc,
            family,
            1,
            120,
            |n, a_p, a_i| check_orders(&rt, alloc, n, a_p, a_i),
        )?;
    }
    Ok(())
}

/// Whether each column has all rows behind it, and the next one is its parent.
fn is_full(counted: &Counts<Global>) -> bool {
    let mut next = 1usize;
    for (k, &size) in counted.sizes.iter().enumerate() {
        let behind = counted.sizes.len().saturating_sub(next);
        let parent = if behind == 0 { None } else { Some(next) };
        if size != behind || counted.parent.get(k) != Some(&parent) {
            return false;
        }
        next = next.saturating_add(1);
    }
    counted.parent.len() == counted.sizes.len()
}

/// Asserts that under an order each column of a star has all rows behind it.
fn check_full(rt: &impl Abort, alloc: Global, n: i64, a_p: &[i64], a_i: &[i64], p: &[i64]) {
    let Ok(counted) = counts(alloc, n, a_p, a_i, p) else {
        panic!(rt; "no counts");
    };
    check!(rt; is_full(&counted));
    check_order(rt, alloc, n, a_p, a_i, p);
}

/// Asserts the same of both stars of so many rows, each from its centre on.
fn check_stars(rt: &impl Abort, alloc: Global, n: i64) -> Result<(), AllocError> {
    let mut p = rows_of(alloc, n)?;
    let (a_p, a_i) = star(alloc, n)?;
    check_full(rt, alloc, n, &a_p, &a_i, &p);
    let (b_p, b_i) = star_to_last(alloc, n)?;
    p.reverse();
    check_full(rt, alloc, n, &b_p, &b_i, &p);
    Ok(())
}

/// The rows around the centre are all joined by it, so that nothing stays empty below the diagonal.
#[test]
fn stars_from_their_centre_on(rt: HostRuntime) -> Result<(), Fail> {
    for n in 2..=40 {
        check_stars(&rt, rt.alloc(), n)?;
    }
    Ok(())
}
