// Worked inputs of `order` with their answers: the permutation and each figure. They come from worked examples, from
// the Rust crate `amd`, and from a plain program that follows the rules. The stored cases of `amd_replay` have these
// and more; here each is also ordered with nothing held, and compared with what its factor needs.

use crate::tests::can_24::{JUMBLED_POINTERS, JUMBLED_ROWS, POINTERS, ROWS};
use crate::tests::factors::check_bounds;
use crate::tests::holding::check_nothing_held;
use crate::tests::small_matrices::matrices;
use amd::{Control, Info, Status, order};
use amd_testing::check;
use amd_testing::inputs::cycle;
use amd_testing::plain::are_inverse;
use amd_testing::records::numbers_of;
use std::alloc::{AllocError, Global};
use std::process::Abort;
use std::test::Fail;

/// An input and its answer. The figures are `nz`, `nz_diag`, `nz_a_plus_at`, `n_dense`, `lnz`, those of `LDL'` and of
/// `LU`, and `d_max`; the divisions are as many as `lnz`, and the compactions at most as many as the rows.
#[derive(Drop)]
pub struct OrderingCase<'a> {
    pub what: &'a str,
    pub n: i64,
    pub a_p: &'a [i64],
    pub a_i: &'a [i64],
    pub jumbled: bool,
    pub p: &'a [i64],
    pub figures: [usize; 8],
    pub symmetric: bool,
}

/// Whether a record is that of a case.
fn is_told(case: &OrderingCase, info: &Info) -> bool {
    let status = if case.jumbled {
        Status::OkButJumbled
    } else {
        Status::OK
    };
    let n = usize::try_from(case.n).unwrap_or(0);
    let [nz, nz_diag, nz_a_plus_at, n_dense, lnz, ldl, lu, d_max] = case.figures;
    let numbers = [
        n,
        nz,
        nz_diag,
        nz_a_plus_at,
        n_dense,
        info.n_cmp_a,
        lnz,
        lnz,
        ldl,
        lu,
        d_max,
    ];
    let is_packed_rarely = info.n_cmp_a <= info.n;
    info.status == status
        && info.symmetry == case.symmetric
        && is_packed_rarely
        && numbers_of(info) == numbers
}

/// Asserts that an answer is that of a case.
pub fn check_answer(rt: &impl Abort, case: &OrderingCase, p: &[i64], p_inv: &[i64], info: &Info) {
    let is_ordered = p == case.p && are_inverse(info.n, p, p_inv);
    check!(rt; is_ordered && is_told(case, info), case.what);
}

/// Asserts that `order` gives the answer of a case, also with nothing held, and that its figures bound what the factor
/// needs.
fn check(
    rt: &impl Abort,
    alloc: Global,
    control: &Control,
    case: &OrderingCase,
) -> Result<(), AllocError> {
    let what = case.what;
    let Ok((p, p_inv, info)) = order(alloc, case.n, case.a_p, case.a_i, control) else {
        panic!(rt; "no answer for {what}");
    };
    check_answer(rt, case, &p, &p_inv, &info);
    check_nothing_held(rt, alloc, case.n, case.a_p, case.a_i, control)?;
    check_bounds(rt, alloc, case.a_p, case.a_i, &p, &info)?;
    Ok(())
}

/// The choice of a caller with this dense row parameter, in thousandths.
pub fn with_dense(dense: i32) -> Control {
    Control {
        dense,
        aggressive: true,
    }
}

#[test]
fn small_matrices(rt: HostRuntime) -> Result<(), Fail> {
    for case in matrices() {
        check(&rt, rt.alloc(), &Control::default(), case)?;
    }
    Ok(())
}

/// Asserts that a record is that of a matrix without rows.
pub fn check_nothing(rt: &impl Abort, info: &Info) {
    check!(rt; info.status == Status::OK && !info.symmetry && numbers_of(info) == [0; 11]);
}

#[test]
fn matrices_without_rows(rt: HostRuntime) {
    for a_p in [[].as_slice(), [7].as_slice(), [0, 1].as_slice()] {
        let Ok((p, p_inv, info)) = order(rt.alloc(), 0i64, a_p, &[], &Control::default()) else {
            panic!(rt; "no answer");
        };
        check!(&rt; p.is_empty() && p_inv.is_empty());
        check_nothing(&rt, &info);
    }
}

/// A matrix whose row 0 is dense where the parameter is 0.
pub static DENSE_ROW: OrderingCase<'static> = OrderingCase {
    what: "twenty rows, of which one is dense and one stands apart",
    n: 20,
    a_p: &[
        0, 17, 17, 17, 17, 17, 17, 17, 17, 17, 17, 17, 17, 17, 17, 17, 17, 17, 17, 18, 18,
    ],
    a_i: &[
        1, 2, 3, 4, 5, 6, 7, 8, 9, 10, 11, 12, 13, 14, 15, 16, 17, 19,
    ],
    jumbled: false,
    p: &[
        1, 2, 3, 4, 5, 6, 7, 8, 9, 10, 11, 12, 13, 14, 15, 16, 17, 18, 19, 0,
    ],
    figures: [18, 0, 36, 1, 20, 21, 22, 3],
    symmetric: false,
};

#[test]
fn a_dense_row_beside_others(rt: HostRuntime) -> Result<(), Fail> {
    check(&rt, rt.alloc(), &with_dense(0), &DENSE_ROW)?;
    Ok(())
}

#[test]
fn can_24_and_its_jumbled_form(rt: HostRuntime) -> Result<(), Fail> {
    let heap = rt.alloc();
    let p = [
        22, 20, 10, 23, 12, 5, 16, 8, 14, 4, 15, 7, 1, 9, 13, 17, 0, 2, 3, 6, 11, 18, 21, 19,
    ];
    let sorted = OrderingCase {
        what: "the Harwell/Boeing matrix can_24",
        n: 24,
        a_p: &POINTERS,
        a_i: &ROWS,
        jumbled: false,
        p: &p,
        figures: [160, 24, 136, 0, 97, 275, 453, 8],
        symmetric: true,
    };
    check(&rt, heap, &Control::default(), &sorted)?;
    let jumbled = OrderingCase {
        what: "can_24 with jumbled columns, repeats and entries left out",
        n: 24,
        a_p: &JUMBLED_POINTERS,
        a_i: &JUMBLED_ROWS,
        jumbled: true,
        p: &p,
        figures: [102, 17, 136, 0, 97, 275, 453, 8],
        symmetric: false,
    };
    check(&rt, heap, &Control::default(), &jumbled)?;
    Ok(())
}

/// How often `order` compacts its workspace for a cycle with `n` rows.
fn compactions_of_cycle(rt: &impl Abort, alloc: Global, n: i64) -> Result<usize, AllocError> {
    let (a_p, a_i) = cycle(alloc, n)?;
    let Ok((_, _, info)) = order(alloc, n, &a_p, &a_i, &Control::default()) else {
        panic!(rt; "no answer for a cycle");
    };
    Ok(info.n_cmp_a)
}

/// With as many words as `order` has, which are a fifth more than the lists take and one for each row, the lists of 13
/// rows are never packed, and those of 14 rows are. With a word less those of 13 rows would be, and with a word more
/// those of 14 rows would not.
#[test]
fn words_of_the_workspace(rt: HostRuntime) -> Result<(), Fail> {
    check!(&rt; compactions_of_cycle(&rt, rt.alloc(), 13)? == 0);
    check!(&rt; compactions_of_cycle(&rt, rt.alloc(), 14)? >= 1);
    Ok(())
}
