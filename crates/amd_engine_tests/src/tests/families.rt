// Families of graphs of several sizes and matrices drawn from seeds, each with every choice of a caller, through four
// calls: `order`, `amd_1` and `amd_2` with no word to spare, and the plain engine; and through the engine from each
// first flag, in words of both widths. There is one answer. In the crate `amd_tests` the answers of `order` over the
// same families are compared with what the factor needs.

use crate::tests::in_place::check_flags;
use crate::tests::own_lists::order_numbers;
use crate::tests::sorted::{Sorted, first_flags, order_exactly, order_plainly, unmarked};
use amd::{Control, Info, Status, order};
use amd_input::preprocess::preprocess;
use amd_input::valid::valid;
use amd_testing::check;
use amd_testing::families::{Family, each_member};
use amd_testing::records::numbers_of;
use std::alloc::{AllocError, Global};
use std::process::Abort;
use std::test::Fail;

/// An order of rows, its inverse, and the record.
#[derive(Drop)]
struct Answer {
    p: Vec<i64>,
    p_inv: Vec<i64>,
    info: Info,
}

/// The answer of `order`.
fn ordered(
    rt: &impl Abort,
    alloc: Global,
    n: i64,
    a_p: &[i64],
    a_i: &[i64],
    control: &Control,
) -> Answer {
    let Ok((p, p_inv, info)) = order(alloc, n, a_p, a_i, control) else {
        panic!(rt; "no answer");
    };
    Answer { p, p_inv, info }
}

/// The answer of the plain engine.
fn ordered_plainly(rt: &impl Abort, alloc: Global, matrix: &Sorted, control: &Control) -> Answer {
    let mut info = Info::new(0);
    let (p, p_inv) = order_plainly(rt, alloc, matrix, control, &mut info);
    Answer { p, p_inv, info }
}

/// The answer of `amd_1` with no word to spare.
fn ordered_exactly(rt: &impl Abort, alloc: Global, matrix: &Sorted, control: &Control) -> Answer {
    let mut info = Info::new(0);
    let (p, p_inv) = order_exactly(rt, alloc, matrix, control, &mut info);
    Answer { p, p_inv, info }
}

/// The answer of `amd_2` over lists of numbers, with no word to spare.
fn ordered_over_numbers(
    rt: &impl Abort,
    alloc: Global,
    matrix: &Sorted,
    control: &Control,
) -> Answer {
    let mut info = Info::new(0);
    let listed = order_numbers(rt, alloc, matrix, control, &mut info);
    Answer {
        p: listed.p,
        p_inv: listed.p_inv,
        info,
    }
}

/// Asserts that lists were packed once for a row at most, and forgets how often.
fn take_packings(rt: &impl Abort, answer: &mut Answer) -> usize {
    let packings = answer.info.n_cmp_a;
    check!(rt; packings <= answer.p.len());
    answer.info.n_cmp_a = 0;
    packings
}

/// Whether two answers are the same. The status is not compared: a sorted form may be that of a jumbled matrix.
fn are_same(one: &Answer, other: &Answer) -> bool {
    one.p.as_slice() == other.p.as_slice()
        && one.p_inv.as_slice() == other.p_inv.as_slice()
        && one.info.symmetry == other.info.symmetry
        && numbers_of(&one.info) == numbers_of(&other.info)
}

/// Asserts that an answer for a sorted matrix is the one that is wanted. Returns how often lists were packed.
fn packings_of(
    rt: &impl Abort,
    mut found: Answer,
    wanted: &Answer,
    matrix: &Sorted,
    control: &Control,
) -> usize {
    let packings = take_packings(rt, &mut found);
    assert!(rt;
        are_same(&found, wanted),
        "{control:?} {:?} {:?}",
        matrix.a_p,
        matrix.a_i
    );
    packings
}

/// Asserts that the engine in place has this answer from each first flag on.
fn check_first_flags(
    rt: &impl Abort,
    alloc: Global,
    matrix: &Sorted,
    control: &Control,
    answer: &Answer,
) {
    check_flags(
        rt,
        alloc,
        &first_flags(rt, answer.p.len()),
        0,
        matrix,
        control,
        (&answer.p, &answer.p_inv),
        numbers_of(&answer.info),
    );
}

/// Asserts that there is one answer for a matrix, of which a sorted form is given too, with one choice of a caller.
/// Returns how often lists were packed with no word to spare.
fn compare_choice(
    rt: &impl Abort,
    alloc: Global,
    a_p: &[i64],
    a_i: &[i64],
    matrix: &Sorted,
    control: &Control,
) -> usize {
    let mut answer = ordered(rt, alloc, matrix.n, a_p, a_i, control);
    take_packings(rt, &mut answer);
    let exact = ordered_exactly(rt, alloc, matrix, control);
    let packings = packings_of(rt, exact, &answer, matrix, control);
    let over = ordered_over_numbers(rt, alloc, matrix, control);
    check!(rt; packings_of(rt, over, &answer, matrix, control) == packings);
    let plain = ordered_plainly(rt, alloc, matrix, control);
    check!(rt; packings_of(rt, plain, &answer, matrix, control) == 0);
    check_first_flags(rt, alloc, matrix, control, &answer);
    packings
}

/// Asserts that there is one answer with each choice of a caller, and returns how often lists were packed at least.
fn compare_choices(
    rt: &impl Abort,
    alloc: Global,
    a_p: &[i64],
    a_i: &[i64],
    matrix: &Sorted,
) -> usize {
    let mut least = usize::MAX;
    for dense in [10000, 0, -1] {
        for aggressive in [false, true] {
            let control = Control { dense, aggressive };
            least = least.min(compare_choice(rt, alloc, a_p, a_i, matrix, &control));
        }
    }
    least
}

/// Asserts that there is one answer for a matrix with jumbled columns. Returns how often lists were packed at least.
fn compare_jumbled(rt: &impl Abort, alloc: Global, n: i64, a_p: &[i64], a_i: &[i64]) -> usize {
    assert!(rt; n > 0 && valid(n, n, a_p, a_i) == Status::OkButJumbled);
    let Ok((c_p, c_i)) = preprocess(alloc, n, a_p, a_i) else {
        panic!(rt; "no transpose");
    };
    compare_choices(rt, alloc, a_p, a_i, &unmarked(n, &c_p, &c_i))
}

/// Asserts that there is one answer for a matrix, by the sorted form that `order` takes. Returns how often lists were
/// packed at least.
fn compare(rt: &impl Abort, alloc: Global, n: i64, a_p: &[i64], a_i: &[i64]) -> usize {
    match valid(n, n, a_p, a_i) {
        Status::OK => {
            check!(rt; n > 0);
            compare_choices(rt, alloc, a_p, a_i, &unmarked(n, a_p, a_i))
        }
        _ => compare_jumbled(rt, alloc, n, a_p, a_i),
    }
}

/// The least size from which on the elements of a family do not fit where there is no word to spare: those of a cycle
/// of nine rows or more.
fn packed_from(family: Family) -> i64 {
    match family {
        Family::Cycle => 9,
        _ => i64::MAX,
    }
}

/// Families of graphs and of drawn matrices, with the first and the last of their sizes or seeds.
static FAMILIES: [(Family, i64, i64); 7] = [
    (Family::Path, 1, 30),
    (Family::Cycle, 3, 40),
    (Family::Star, 2, 20),
    (Family::StarToLast, 2, 20),
    (Family::CompleteBelow, 1, 20),
    (Family::Grid, 1, 12),
    (Family::Drawn, 1, 64),
];

/// Asserts that there is one answer for a matrix of a family.
fn check_member(rt: &impl Abort, alloc: Global, family: Family, n: i64, a_p: &[i64], a_i: &[i64]) {
    let packings = compare(rt, alloc, n, a_p, a_i);
    check!(rt; n < packed_from(family) || packings >= 1);
}

#[test]
fn engines_of_families(rt: HostRuntime) -> Result<(), Fail> {
    let alloc = rt.alloc();
    for &(family, first, last) in &FAMILIES {
        each_member(alloc, family, first, last, |n, a_p, a_i| {
            check_member(&rt, alloc, family, n, a_p, a_i);
            Ok(())
        })?;
    }
    Ok(())
}
