// Worked matrices through the engine in place, from first flags with and without a reset of the counters, in words of
// both widths, with no word to spare and with those of `order`; through the plain engine; and through `amd_1` and
// `amd_2_from` by themselves, the latter over lists that were laid. The answers were worked by hand, and come from the
// Rust crate `amd` and from a plain program that follows the rules.

use crate::tests::in_place_matrices::{EngineCase, matrices};
use crate::tests::laid::{are_words, order_laid};
use crate::tests::sorted::{Sorted, first_flags, order_exactly, order_in_place, order_plainly};
use amd_testing::check;
use amd_testing::inputs::complete;
use amd_testing::plain::are_inverse;
use amd_types::amd::{Control, Info};
use amd_words::{Signed, Unsigned};
use std::alloc::Global;
use std::process::Abort;
use std::test::Fail;

/// Whether figures are those of a case.
fn are_figures(case: &EngineCase, info: &Info) -> bool {
    let figures = [
        info.n_dense,
        info.lnz,
        info.n_mult_subs_ldl,
        info.n_mult_subs_lu,
        info.d_max,
    ];
    figures == case.figures && info.n_div == info.lnz
}

/// Whether permutations and figures are those of a case.
fn is_ordered(case: &EngineCase, p: &[i64], p_inv: &[i64], info: &Info) -> bool {
    p == case.p && are_inverse(case.p.len(), p, p_inv) && are_figures(case, info)
}

/// Whether an answer of the engine in place is that of a case.
pub fn is_answer(case: &EngineCase, p: &[i64], p_inv: &[i64], info: &Info) -> bool {
    let is_packed = info.n_cmp_a <= case.p.len() && (!case.packs || info.n_cmp_a >= 1);
    is_packed && is_ordered(case, p, p_inv, info)
}

/// The matrix of a case.
pub fn matrix_of<'a>(case: &EngineCase<'a>) -> Sorted<'a> {
    Sorted {
        n: case.n,
        a_p: case.a_p,
        a_i: case.a_i,
        hold: case.hold,
    }
}

/// What the caller of a case chooses.
pub fn control_of(case: &EngineCase) -> Control {
    Control {
        dense: case.dense,
        aggressive: case.aggressive,
    }
}

/// Asserts that the engine in place gives the answer of a case from each first flag on, with so many words to spare.
fn check(rt: &impl Abort, alloc: Global, case: &EngineCase, more: usize) {
    let what = case.what;
    let matrix = matrix_of(case);
    let control = control_of(case);
    for flag in first_flags(rt, case.p.len()) {
        let mut info = Info::new(0);
        let Ok((p, p_inv)) = order_in_place(
            rt, alloc, alloc, flag, more, &matrix, &control, &mut info,
        ) else {
            panic!(rt; "no answer for {what} from {flag} on");
        };
        assert!(rt; is_answer(case, &p, &p_inv, &info), "{what} from {flag} on");
    }
}

/// Asserts that the plain engine gives the answer of a case, and packs nothing.
fn check_plainly(rt: &impl Abort, alloc: Global, case: &EngineCase) {
    let mut info = Info::new(0);
    let (p, p_inv) = order_plainly(rt, alloc, &matrix_of(case), &control_of(case), &mut info);
    check!(rt; info.n_cmp_a == 0 && is_ordered(case, &p, &p_inv, &info), case.what);
}

/// Asserts that `amd_1` gives the answer of a case, with no word to spare.
fn check_amd_1(rt: &impl Abort, alloc: Global, case: &EngineCase) {
    let mut info = Info::new(0);
    let (p, p_inv) = order_exactly(rt, alloc, &matrix_of(case), &control_of(case), &mut info);
    check!(rt; is_answer(case, &p, &p_inv, &info), case.what);
}

/// Asserts that `amd_2_from` gives the answer of a case over lists that were laid in words of these widths, and tells
/// its elements.
fn check_amd_2_from<S: Signed, P: Signed, U: Unsigned>(
    rt: &impl Abort,
    alloc: Global,
    case: &EngineCase,
) {
    let mut info = Info::new(0);
    let control = control_of(case);
    let (blocks, p_inv, p, fronts) = order_laid::<S, P, U>(
        rt,
        alloc,
        &matrix_of(case),
        &control,
        &mut info,
    );
    check!(rt; is_answer(case, &p, &p_inv, &info), case.what);
    assert!(rt; are_words(&blocks, case.blocks), "blocks of {}", case.what);
    assert!(rt; are_words(&fronts, case.fronts), "fronts of {}", case.what);
}

/// The words to spare are none, and a fifth of the sum of the degrees: of the cycle these are 5, and it takes 42
/// words at least.
#[test]
fn worked_matrices(rt: HostRuntime) {
    for case in matrices() {
        check(&rt, rt.alloc(), case, 0);
        check(&rt, rt.alloc(), case, 1);
        check(&rt, rt.alloc(), case, 5);
    }
}

#[test]
fn worked_matrices_through_each_call(rt: HostRuntime) {
    for case in matrices() {
        check_plainly(&rt, rt.alloc(), case);
        check_amd_1(&rt, rt.alloc(), case);
        check_amd_2_from::<i32, i32, u32>(&rt, rt.alloc(), case);
        check_amd_2_from::<i32, isize, u32>(&rt, rt.alloc(), case);
        check_amd_2_from::<i32, isize, usize>(&rt, rt.alloc(), case);
        check_amd_2_from::<isize, isize, usize>(&rt, rt.alloc(), case);
    }
}

/// Eighteen rows that are all dense.
fn all_dense<'a>(a_p: &'a [i64], a_i: &'a [i64]) -> EngineCase<'a> {
    EngineCase {
        what: "a complete graph whose rows are dense",
        n: 18,
        a_p,
        a_i,
        dense: -1,
        aggressive: true,
        hold: None,
        p: &[0, 1, 2, 3, 4, 5, 6, 7, 8, 9, 10, 11, 12, 13, 14, 15, 16, 17],
        blocks: &[0, 0, 0, 0, 0, 0, 0, 0, 0, 0, 0, 0, 0, 0, 0, 0, 0, 0],
        fronts: &[
            -1, -1, -1, -1, -1, -1, -1, -1, -1, -1, -1, -1, -1, -1, -1, -1, -1, -1,
        ],
        figures: [18, 153, 969, 1785, 18],
        packs: false,
    }
}

/// Where all rows are dense there is no round.
#[test]
fn no_round(rt: HostRuntime) -> Result<(), Fail> {
    let (a_p, a_i) = complete(rt.alloc(), 18)?;
    let case = all_dense(&a_p, &a_i);
    check(&rt, rt.alloc(), &case, 0);
    check_amd_2_from::<isize, isize, usize>(&rt, rt.alloc(), &case);
    Ok(())
}
