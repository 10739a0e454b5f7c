// The engine in place beside the plain one: equal answers on matrices that are drawn, in a workspace with no word to
// spare and in one with more, in both widths of words, and from first flags with and without a reset of the counters.
// Cycles, whose lists are packed, are in `families`.

use crate::tests::sorted::{Sorted, first_flags, order_in_place, order_plainly, unmarked};
use amd_input::preprocess::preprocess;
use amd_input::valid::valid;
use amd_testing::check;
use amd_testing::inputs::{drawn, drawn_with_hub};
use amd_testing::records::numbers_of;
use amd_types::amd::{Control, Info, Status};
use std::alloc::{AllocError, Global};
use std::process::Abort;
use std::test::Fail;

/// The greatest number of rows of these tests.
const MOST_ROWS: usize = 1000;

/// Asserts that the engine in place has this answer from each of these first flags on, with so many words to spare.
pub fn check_flags(
    rt: &impl Abort,
    alloc: Global,
    flags: &[usize],
    more: usize,
    matrix: &Sorted,
    control: &Control,
    wanted: (&[i64], &[i64]),
    figures: [usize; 11],
) {
    let size = wanted.0.len();
    for &flag in flags {
        let mut found = Info::new(0);
        let Ok((p, p_inv)) = order_in_place(
            rt, alloc, alloc, flag, more, matrix, control, &mut found,
        ) else {
            panic!(rt; "no answer in place");
        };
        check!(rt; p.as_slice() == wanted.0 && p_inv.as_slice() == wanted.1);
        check!(rt; found.n_cmp_a <= size);
        found.n_cmp_a = 0;
        check!(rt; numbers_of(&found) == figures);
    }
}

/// Asserts that both engines answer the same for a sorted matrix.
fn agree(rt: &impl Abort, alloc: Global, matrix: &Sorted, control: &Control) {
    let mut info = Info::new(0);
    let (p, p_inv) = order_plainly(rt, alloc, matrix, control, &mut info);
    let wanted = (p.as_slice(), p_inv.as_slice());
    let flags = first_flags(rt, p.len());
    for more in [0, 1, p.len().min(MOST_ROWS)] {
        check_flags(
            rt,
            alloc,
            &flags,
            more,
            matrix,
            control,
            wanted,
            numbers_of(&info),
        );
    }
}

/// Compares the engines on a sorted matrix, with each way of absorption.
fn agree_with(rt: &impl Abort, alloc: Global, matrix: &Sorted, dense: i32) {
    for aggressive in [false, true] {
        agree(rt, alloc, matrix, &Control { dense, aggressive });
    }
}

/// Compares the engines on a sorted matrix with nothing marked, and with these marks.
fn agree_marked(rt: &impl Abort, alloc: Global, matrix: &Sorted, marks: &[bool], dense: i32) {
    agree_with(rt, alloc, matrix, dense);
    let marked = Sorted {
        n: matrix.n,
        a_p: matrix.a_p,
        a_i: matrix.a_i,
        hold: Some(marks),
    };
    agree_with(rt, alloc, &marked, dense);
}

/// Which of `n` rows are each third one.
fn third_rows(alloc: Global, n: i64) -> Result<Vec<bool>, AllocError> {
    let mut marks = Vec::new(alloc);
    for k in 0..n {
        marks.push(k % 3 == 0)?;
    }
    Ok(marks)
}

/// Cleans a matrix, and compares the engines with nothing marked and with each third row marked.
fn compare(
    rt: &impl Abort,
    alloc: Global,
    n: i64,
    a_p: &[i64],
    a_i: &[i64],
    dense: i32,
) -> Result<(), Fail> {
    assert!(rt; n > 0 && valid(n, n, a_p, a_i) != Status::Invalid);
    let marks = third_rows(alloc, n)?;
    let Ok((c_p, c_i)) = preprocess(alloc, n, a_p, a_i) else {
        panic!(rt; "no transpose");
    };
    agree_marked(rt, alloc, &unmarked(n, &c_p, &c_i), &marks, dense);
    Ok(())
}

/// Compares the engines on a matrix that was drawn.
fn compare_drawn(
    rt: &impl Abort,
    alloc: Global,
    matrix: (i64, Vec<i64>, Vec<i64>),
    dense: i32,
) -> Result<(), Fail> {
    compare(rt, alloc, matrix.0, &matrix.1, &matrix.2, dense)
}

#[test]
fn engines_agree(rt: HostRuntime) -> Result<(), Fail> {
    let alloc = rt.alloc();
    for seed in 1..10 {
        compare_drawn(&rt, alloc, drawn(alloc, seed)?, 10000)?;
        compare_drawn(&rt, alloc, drawn_with_hub(alloc, seed)?, 0)?;
    }
    Ok(())
}

#[test]
fn engines_agree_on_empty_rows(rt: HostRuntime) -> Result<(), Fail> {
    let a_p = vec![in rt.alloc(); 0; 256]?;
    compare(&rt, rt.alloc(), 255, &a_p, &[], 10000)
}
