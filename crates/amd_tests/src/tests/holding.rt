// Rows that a caller wants held last: worked matrices with their answers, marks that are not one for each row, refused
// memory, answers with nothing held, and matrices drawn from seeds with rows drawn to be held. The worked answers are
// from a plain program that follows the rules; where nothing is held, the answer must be that of `order`.

use crate::checks::check_chosen;
use crate::tests::comparison::is_ordered;
use crate::tests::factors::check_bounds;
use crate::tests::memory::{check_refusals, is_answer};
use crate::tests::worked::{OrderingCase, check_nothing};
use amd::{Control, Info, Status, order, order_holding};
use amd_testing::choices::CHOICES;
use amd_testing::families::{Family, member};
use amd_testing::inputs::draw;
use amd_testing::records::numbers_of;
use amd_testing::refusing::{Refusing, each_refused};
use amd_testing::{check, plain};
use std::alloc::{AllocError, Global};
use std::process::Abort;
use std::test::Fail;

/// A matrix with rows that are held last, and its answer.
#[derive(Drop)]
struct Held<'a> {
    hold: &'a [bool],
    case: OrderingCase<'a>,
}

/// Worked matrices.
static HELD: [Held<'static>; 5] = [
    Held {
        hold: &[false, true, false],
        case: OrderingCase {
            what: "a path of three rows, an end held",
            n: 3,
            a_p: &[0, 1, 2, 2],
            a_i: &[1, 2],
            jumbled: false,
            p: &[0, 2, 1],
            figures: [2, 0, 4, 1, 2, 2, 2, 2],
            symmetric: false,
        },
    },
    Held {
        hold: &[true, false, false, false],
        case: OrderingCase {
            what: "a four-cycle, one row held",
            n: 4,
            a_p: &[0, 2, 3, 4, 4],
            a_i: &[1, 3, 2, 3],
            jumbled: false,
            p: &[3, 1, 2, 0],
            figures: [4, 0, 8, 1, 5, 7, 9, 3],
            symmetric: false,
        },
    },
    Held {
        hold: &[true, true, true, true],
        case: OrderingCase {
            what: "a four-cycle, all rows held",
            n: 4,
            a_p: &[0, 2, 3, 4, 4],
            a_i: &[1, 3, 2, 3],
            jumbled: false,
            p: &[0, 1, 2, 3],
            figures: [4, 0, 8, 4, 6, 10, 14, 4],
            symmetric: false,
        },
    },
    Held {
        hold: &[false, true, false],
        case: OrderingCase {
            what: "one edge, and an empty row that is held",
            n: 3,
            a_p: &[0, 1, 1, 1],
            a_i: &[2],
            jumbled: false,
            p: &[0, 2, 1],
            figures: [1, 0, 2, 1, 3, 4, 5, 3],
            symmetric: false,
        },
    },
    Held {
        hold: &[true, false, false],
        case: OrderingCase {
            what: "three rows in which a held neighbour counts in a degree",
            n: 3,
            a_p: &[0, 1, 2, 2],
            a_i: &[2, 2],
            jumbled: false,
            p: &[2, 1, 0],
            figures: [2, 0, 4, 1, 3, 4, 5, 3],
            symmetric: false,
        },
    },
];

/// Orders, and says whether there was an answer, which must be that of the case.
fn orders(rt: &impl Abort, heap: &Refusing<Global>, held: &Held) -> bool {
    let case = &held.case;
    let control = Control::default();
    let answer = order_holding(heap, case.n, case.a_p, case.a_i, &control, held.hold);
    is_answer(rt, case, answer)
}

#[test]
fn worked_matrices_and_each_request(rt: HostRuntime) {
    for held in &HELD {
        let refusals = each_refused(rt.alloc(), |heap| orders(&rt, heap, held));
        check_refusals(&rt, held.case.what, refusals);
    }
}

/// Marks of another length than the matrix, and a matrix that is no column form: the number of rows, the pointers, the
/// rows and the marks.
static MISMATCHED: [(i64, &[i64], &[i64], &[bool]); 7] = [
    (3, &[0, 1, 2, 2], &[1, 2], &[true]),
    (3, &[0, 1, 2, 2], &[1, 2], &[]),
    (3, &[0, 1, 2, 2], &[1, 2], &[false; 4]),
    (3, &[0, 1, 2, 2], &[2, 1, 9], &[false; 2]),
    (3, &[0, 1, 2, 2], &[1, 3], &[true; 3]),
    (-1, &[0], &[], &[]),
    (-1, &[0], &[], &[true]),
];

/// No memory is asked before these answers.
#[test]
fn marks_that_are_not_one_for_each_row(rt: HostRuntime) {
    let heap = Refusing::new(rt.alloc(), 1);
    let control = Control::default();
    for &(n, a_p, a_i, hold) in &MISMATCHED {
        let status = order_holding(&heap, n, a_p, a_i, &control, hold).err();
        check!(&rt; status == Some(Status::Invalid));
    }
    check!(&rt; heap.requests() == 0);
}

#[test]
fn no_rows(rt: HostRuntime) {
    let heap = Refusing::new(rt.alloc(), 1);
    let control = Control::default();
    for (a_p, hold) in [
        ([].as_slice(), [true; 3].as_slice()),
        ([7].as_slice(), [true; 3].as_slice()),
        ([0].as_slice(), [].as_slice()),
    ] {
        let Ok((p, p_inv, info)) = order_holding(&heap, 0i64, a_p, &[], &control, hold) else {
            panic!(rt; "no answer");
        };
        check!(&rt; p.is_empty() && p_inv.is_empty());
        check_nothing(&rt, &info);
    }
    check!(&rt; heap.requests() == 0);
}

/// Whether two records are one.
fn is_same_record(one: &Info, other: &Info) -> bool {
    numbers_of(one) == numbers_of(other)
        && one.symmetry == other.symmetry
        && one.status == other.status
}

/// Asserts that with nothing held the answer is that of `order`.
pub fn check_nothing_held(
    rt: &impl Abort,
    alloc: Global,
    n: i64,
    a_p: &[i64],
    a_i: &[i64],
    control: &Control,
) -> Result<(), AllocError> {
    let hold = vec![in alloc; false; usize::try_from(n).unwrap_or(0)]?;
    let Ok((p, p_inv, info)) = order(alloc, n, a_p, a_i, control) else {
        panic!(rt; "no answer");
    };
    let Ok((r, r_inv, other)) = order_holding(alloc, n, a_p, a_i, control, &hold) else {
        panic!(rt; "no answer with marks");
    };
    let is_ordered = r.as_slice() == p.as_slice() && r_inv.as_slice() == p_inv.as_slice();
    let is_same = is_ordered && is_same_record(&other, &info);
    check_chosen(rt, is_same, control, a_p, a_i);
    Ok(())
}

/// Adds to the rows that are chosen about a fifth of all, drawn from a seed, and returns the marks of those that were
/// drawn.
fn draw_marks(alloc: Global, seed: u64, chosen: &mut [bool]) -> Result<Vec<bool>, AllocError> {
    let mut marks = Vec::new(alloc);
    let mut state = seed;
    for mark in chosen {
        let held = draw(&mut state, 5) == 0;
        marks.push(held)?;
        *mark = *mark || held;
    }
    Ok(marks)
}

/// Orders a matrix with drawn rows held, and asserts that exactly these and the dense ones stand last, rising, that
/// they are counted, and that the figures bound what the factor needs.
fn check_drawn(
    rt: &impl Abort,
    alloc: Global,
    seed: u64,
    control: &Control,
    n: i64,
    a_p: &[i64],
    a_i: &[i64],
) -> Result<(), AllocError> {
    let size = usize::try_from(n).unwrap_or(0);
    let mut last = plain::dense_rows(alloc, control.dense, size, a_p, a_i)?;
    let hold = draw_marks(alloc, seed, &mut last)?;
    let Ok((p, p_inv, info)) = order_holding(alloc, n, a_p, a_i, control, &hold) else {
        panic!(rt; "no answer");
    };
    let holds = is_ordered(size, &last, info.n_dense, &p, &p_inv);
    check_chosen(rt, holds, control, a_p, a_i);
    check_bounds(rt, alloc, a_p, a_i, &p, &info)?;
    Ok(())
}

/// Orders a drawn matrix of a family with drawn rows held, with each choice.
fn check_seed(rt: &impl Abort, alloc: Global, family: Family, seed: u64) -> Result<(), AllocError> {
    let (n, a_p, a_i) = member(alloc, family, i64::try_from(seed).unwrap_or(0))?;
    for control in &CHOICES {
        check_drawn(rt, alloc, seed, control, n, &a_p, &a_i)?;
    }
    Ok(())
}

#[test]
fn drawn_matrices_with_held_rows(rt: HostRuntime) -> Result<(), Fail> {
    for seed in 1..=64 {
        check_seed(&rt, rt.alloc(), Family::Drawn, seed)?;
        check_seed(&rt, rt.alloc(), Family::DrawnWithHub, seed)?;
    }
    Ok(())
}
