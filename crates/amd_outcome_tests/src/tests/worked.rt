// Worked matrices with the factors under orders of their rows: the pointers, the entries and the parents. The tests of
// refused memory ask for the columns of each of them; they are stored cases of `amd_replay` too.

use amd::Control;
use amd_symbolic::{Factor, analyze};
use amd_testing::check;
use std::alloc::{Allocator, Global};
use std::process::Abort;

/// A matrix, an order of its rows, a room, and the factor under that order.
#[derive(Drop)]
pub struct FactorCase<'a> {
    pub what: &'a str,
    pub n: i64,
    pub a_p: &'a [i64],
    pub a_i: &'a [i64],
    pub p: &'a [i64],
    pub room: usize,
    pub ptr: &'a [usize],
    pub rows: &'a [usize],
    pub parent: &'a [Option<usize>],
}

/// Worked matrices. The first four are under the order that an ordering gives them. In some the room is more than is
/// needed.
static WORKED: [FactorCase<'static>; 9] = [
    FactorCase {
        what: "a four-cycle",
        n: 4,
        a_p: &[0, 2, 3, 4, 4],
        a_i: &[1, 3, 2, 3],
        p: &[3, 0, 1, 2],
        room: 5,
        ptr: &[0, 2, 4, 5, 5],
        rows: &[1, 3, 2, 3, 3],
        parent: &[Some(1), Some(2), Some(3), None],
    },
    FactorCase {
        what: "five rows, one entry without its mirror",
        n: 5,
        a_p: &[0, 2, 6, 10, 12, 14],
        a_i: &[0, 1, 0, 1, 2, 4, 1, 2, 3, 4, 2, 3, 1, 4],
        p: &[0, 3, 2, 4, 1],
        room: 5,
        ptr: &[0, 1, 2, 4, 5, 5],
        rows: &[4, 2, 3, 4, 4],
        parent: &[Some(4), Some(2), Some(3), Some(4), None],
    },
    FactorCase {
        what: "no rows",
        n: 0,
        a_p: &[],
        a_i: &[],
        p: &[],
        room: 0,
        ptr: &[0],
        rows: &[],
        parent: &[],
    },
    FactorCase {
        what: "no rows, and pointers that are no column form",
        n: 0,
        a_p: &[7],
        a_i: &[-1],
        p: &[],
        room: 3,
        ptr: &[0],
        rows: &[],
        parent: &[],
    },
    FactorCase {
        what: "one row with an entry on its diagonal, and numbers behind the end",
        n: 1,
        a_p: &[0, 1, 7],
        a_i: &[0, 9],
        p: &[0],
        room: 0,
        ptr: &[0, 0],
        rows: &[],
        parent: &[None],
    },
    FactorCase {
        what: "one edge and an empty row, which stands first",
        n: 3,
        a_p: &[0, 1, 1, 1],
        a_i: &[2],
        p: &[1, 0, 2],
        room: 9,
        ptr: &[0, 0, 1, 1],
        rows: &[2],
        parent: &[None, Some(2), None],
    },
    FactorCase {
        what: "one edge by repeated entries above the diagonal",
        n: 2,
        a_p: &[0, 0, 3],
        a_i: &[0, 1, 0],
        p: &[1, 0],
        room: 1,
        ptr: &[0, 1, 1],
        rows: &[1],
        parent: &[Some(1), None],
    },
    FactorCase {
        what: "a path, whose middle row stands first and joins the ends",
        n: 3,
        a_p: &[0, 1, 2, 2],
        a_i: &[1, 2],
        p: &[1, 2, 0],
        room: 3,
        ptr: &[0, 2, 3, 3],
        rows: &[1, 2, 2],
        parent: &[Some(1), Some(2), None],
    },
    FactorCase {
        what: "a path, whose middle row stands last",
        n: 3,
        a_p: &[0, 1, 2, 2],
        a_i: &[1, 2],
        p: &[2, 0, 1],
        room: 2,
        ptr: &[0, 1, 2, 2],
        rows: &[2, 2],
        parent: &[Some(2), Some(2), None],
    },
];

/// The worked matrices. A proof of each function that names the list itself would hold all of it.
pub fn worked() -> &'static [FactorCase<'static>] {
    &WORKED
}

/// The four-cycle of the worked matrices.
pub fn four_cycle() -> &'static FactorCase<'static> {
    &WORKED[0]
}

/// Asserts that a factor is that of a case.
pub fn check_factor<A: Allocator>(rt: &impl Abort, case: &FactorCase, factor: &Factor<A>) {
    let lists_are = factor.ptr.as_slice() == case.ptr && factor.rows.as_slice() == case.rows;
    check!(rt; lists_are && factor.parent.as_slice() == case.parent, case.what);
}

/// Asserts that an analysis of a case gives its order and its factor.
fn check_analysis(rt: &impl Abort, alloc: Global, case: &FactorCase) {
    let answer = analyze(alloc, case.n, case.a_p, case.a_i, &Control::default());
    let Ok((p, p_inv, info, factor)) = answer else {
        panic!(rt; "no answer for {}", case.what);
    };
    check!(rt; p.as_slice() == case.p && p_inv.len() == case.p.len());
    check!(rt; info.lnz == case.rows.len());
    check_factor(rt, case, &factor);
}

#[test]
fn worked_analyses(rt: HostRuntime) {
    for case in worked().iter().take(4) {
        check_analysis(&rt, rt.alloc(), case);
    }
}
