// The lists of the neighbours of each row, in a vector for each, in the order in which the walk meets the edges.

use crate::tests::sorted::degrees_of;
use amd_edges::lists::starting_lists;
use amd_types::amd::Info;
use std::alloc::Global;
use std::process::Abort;

/// A sorted matrix, and the list of each of its rows.
#[derive(Drop)]
struct ListsCase<'a> {
    what: &'a str,
    n: i64,
    a_p: &'a [i64],
    a_i: &'a [i64],
    lists: &'a [&'a [usize]],
}

/// Matrices with their lists, worked by hand in the order in which the walk meets the edges. Those of the last one do
/// not all rise.
static MATRICES: [ListsCase<'static>; 3] = [
    ListsCase {
        what: "a four-cycle",
        n: 4,
        a_p: &[0, 2, 3, 4, 4],
        a_i: &[1, 3, 2, 3],
        lists: &[&[1, 3], &[0, 2], &[1, 3], &[0, 2]],
    },
    ListsCase {
        what: "the five-row matrix of the demo",
        n: 5,
        a_p: &[0, 2, 6, 10, 12, 14],
        a_i: &[0, 1, 0, 1, 2, 4, 1, 2, 3, 4, 2, 3, 1, 4],
        lists: &[&[1], &[0, 2, 4], &[1, 3, 4], &[2], &[1, 2]],
    },
    ListsCase {
        what: "five rows whose lists do not all rise",
        n: 5,
        a_p: &[0, 1, 2, 3, 3, 6],
        a_i: &[4, 3, 3, 1, 2, 3],
        lists: &[&[4], &[4, 3], &[4, 3], &[1, 2, 4], &[1, 2, 3, 0]],
    },
];

/// The lists of a sorted matrix.
fn lists_of(rt: &impl Abort, alloc: Global, n: i64, a_p: &[i64], a_i: &[i64]) -> Vec<Vec<usize>> {
    let mut info = Info::new(0);
    let (degrees, _) = degrees_of(rt, alloc, n, a_p, a_i, 0, &mut info);
    let Ok(rows) = starting_lists(alloc, degrees.len(), a_p, a_i, &degrees) else {
        panic!(rt; "no lists");
    };
    rows
}

/// Whether lists are those of a case.
fn are_lists(case: &ListsCase, rows: &[Vec<usize>]) -> bool {
    for (list, row) in case.lists.iter().zip(rows) {
        if row.as_slice() != *list {
            return false;
        }
    }
    rows.len() == case.lists.len()
}

/// Asserts that the lists of a matrix are those of the case.
fn check(rt: &impl Abort, alloc: Global, case: &ListsCase) {
    let rows = lists_of(rt, alloc, case.n, case.a_p, case.a_i);
    assert!(rt; are_lists(case, &rows), "{}", case.what);
}

#[test]
fn lists_stand_in_the_order_of_the_walk(rt: HostRuntime) {
    for case in &MATRICES {
        check(&rt, rt.alloc(), case);
    }
}
