// Inputs that are no column form, orders of no rows, and rooms that no memory holds. The faults follow from the
// definitions: the first of them, in that order. More orders that do not list each row once, and rooms that are too
// small, are stored cases of `amd_replay`.

use crate::tests::worked::four_cycle;
use amd::Control;
use amd_symbolic::{Fault, analyze, analyze_holding, columns};
use amd_testing::check;
use amd_testing::refusing::Refusing;
use std::alloc::Global;
use std::process::Abort;

/// An input that is no column form: the number of rows, the pointers, and the row indices.
pub type NoForm = (i64, &'static [i64], &'static [i64]);

/// Inputs that are no column form.
static NO_FORMS: [NoForm; 9] = [
    (2, &[0, 2, 1], &[0, 1]),
    (1, &[1, 1], &[0]),
    (1, &[0, 1], &[1]),
    (1, &[0, 1], &[-1]),
    (-1, &[0], &[]),
    (1, &[], &[]),
    (2, &[0, 1], &[0]),
    (2, &[0, 1, 3], &[0, 1]),
    (2, &[0, 2, 3], &[1, 0, 5]),
];

/// The inputs that are no column form. A proof of each function that names the list itself would hold all of it.
pub fn no_forms() -> &'static [NoForm] {
    &NO_FORMS
}

/// Asserts that the columns of a factor are refused as those of no column form, whatever the order and the room are.
fn check_no_form(rt: &impl Abort, heap: &Refusing<Global>, n: i64, a_p: &[i64], a_i: &[i64]) {
    for p in [[].as_slice(), &[0], &[0, 1], &[0, 0, -1]] {
        for room in [0, 1, usize::MAX] {
            let fault = columns(heap, n, a_p, a_i, p, room).err();
            assert!(rt;
                fault == Some(Fault::NotColumnForm),
                "{a_p:?} {a_i:?} {p:?}"
            );
        }
    }
}

/// No memory is asked before this answer: the first request would be refused.
#[test]
fn inputs_that_are_no_column_form(rt: HostRuntime) {
    let heap = Refusing::new(rt.alloc(), 1);
    for &(n, a_p, a_i) in no_forms() {
        check_no_form(&rt, &heap, n, a_p, a_i);
        let fault = analyze(&heap, n, a_p, a_i, &Control::default()).err();
        check!(&rt; fault == Some(Fault::NotColumnForm));
    }
    check!(&rt; heap.requests() == 0);
}

/// Marks of another length than the matrix, and a matrix that is no column form with marks: no memory is asked.
#[test]
fn marks_that_are_not_one_for_each_row(rt: HostRuntime) {
    let heap = Refusing::new(rt.alloc(), 1);
    let pointers = [0i64, 2, 3, 4, 4].as_slice();
    for (a_p, hold) in [
        (pointers, [true; 3].as_slice()),
        (pointers, &[false; 5]),
        (pointers, &[]),
        (&[0, 2, 3, 4, 5], &[false; 4]),
    ] {
        let rows = [1, 3, 2, 3];
        let answer = analyze_holding(&heap, 4, a_p, &rows, &Control::default(), hold);
        check!(&rt; answer.err() == Some(Fault::NotColumnForm));
    }
    check!(&rt; heap.requests() == 0);
}

/// For no rows the order must be empty, and nothing else is looked at.
#[test]
fn orders_of_no_rows(rt: HostRuntime) {
    let heap = Refusing::new(rt.alloc(), 1);
    for (a_p, p) in [
        ([].as_slice(), [0].as_slice()),
        (&[7], &[0]),
        (&[0], &[0, 1]),
        (&[0], &[-1]),
    ] {
        let fault = columns(&heap, 0i64, a_p, &[], p, 0).err();
        check!(&rt; fault == Some(Fault::NotPermutation));
    }
    check!(&rt; heap.requests() == 0);
}

/// A room that no memory holds is refused as memory is.
#[test]
fn rooms_that_no_memory_holds(rt: HostRuntime) {
    let case = four_cycle();
    for room in [usize::MAX, 1 << 61] {
        let fault = columns(rt.alloc(), case.n, case.a_p, case.a_i, case.p, room).err();
        check!(&rt; fault == Some(Fault::OutOfMemory));
    }
}
