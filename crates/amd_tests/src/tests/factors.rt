// The figures of an ordering beside what the factor under its permutation needs, which is found by searches for paths.
// The expected needs come from worked examples and from an independent program that follows the rules, which is no part
// of this repository.

use crate::checks::check_matrix;
use crate::tests::can_24::{POINTERS, ROWS};
use amd::{Control, Info, order};
use amd_testing::check;
use amd_testing::factors::{SearchedFactor, SearchedNeed, factor_of, fills_nothing, need_of};
use amd_testing::inputs::star;
use std::alloc::{AllocError, Global};
use std::process::Abort;
use std::test::Fail;

/// The figures of a record that bound what a factor needs.
fn bounds_in(info: &Info) -> SearchedNeed {
    SearchedNeed {
        lnz: info.lnz,
        n_mult_subs_ldl: info.n_mult_subs_ldl,
        n_mult_subs_lu: info.n_mult_subs_lu,
        d_max: info.d_max,
    }
}

/// Whether no bound is below the need.
fn covers(bounds: &SearchedNeed, need: &SearchedNeed) -> bool {
    need.lnz <= bounds.lnz
        && need.n_mult_subs_ldl <= bounds.n_mult_subs_ldl
        && need.n_mult_subs_lu <= bounds.n_mult_subs_lu
        && need.d_max <= bounds.d_max
}

/// Asserts that no figure of an ordering is below what the factor under its permutation needs, and returns the factor.
pub fn check_bounds(
    rt: &impl Abort,
    alloc: Global,
    a_p: &[i64],
    a_i: &[i64],
    p: &[i64],
    info: &Info,
) -> Result<SearchedFactor, AllocError> {
    let factor = factor_of(alloc, a_p, a_i, p)?;
    let is_covered = covers(&bounds_in(info), &need_of(&factor.columns));
    check_matrix(rt, is_covered && info.n_div == info.lnz, a_p, a_i);
    Ok(factor)
}

/// Asserts that the factor of a forest without dense rows has its edges alone, and that the bounds say so.
pub fn check_forest(rt: &impl Abort, factor: &SearchedFactor, info: &Info) {
    check!(rt; info.n_dense == 0 && info.lnz == info.nz_a_plus_at / 2);
    check!(rt; need_of(&factor.columns).lnz == info.lnz && fills_nothing(factor));
}

/// A matrix, an order of its rows, and what the factor under it needs.
#[derive(Drop)]
struct NeedCase<'a> {
    what: &'a str,
    a_p: &'a [i64],
    a_i: &'a [i64],
    p: &'a [i64],
    need: SearchedNeed,
}

/// Worked matrices with what their factors need.
static FACTORS: [NeedCase<'static>; 2] = [
    NeedCase {
        what: "seven rows, whose bounds are exact",
        a_p: &[0, 2, 6, 9, 11, 12, 12, 12],
        a_i: &[5, 6, 2, 3, 4, 5, 3, 4, 6, 4, 6, 5],
        p: &[0, 6, 1, 3, 4, 5, 2],
        need: SearchedNeed {
            lnz: 15,
            n_mult_subs_ldl: 29,
            n_mult_subs_lu: 43,
            d_max: 5,
        },
    },
    NeedCase {
        what: "twenty rows, whose bounds count a dense row that has few edges to the others",
        a_p: &[
            0, 17, 17, 17, 17, 17, 17, 17, 17, 17, 17, 17, 17, 17, 17, 17, 17, 17, 17, 18, 18,
        ],
        a_i: &[
            1, 2, 3, 4, 5, 6, 7, 8, 9, 10, 11, 12, 13, 14, 15, 16, 17, 19,
        ],
        p: &[
            1, 2, 3, 4, 5, 6, 7, 8, 9, 10, 11, 12, 13, 14, 15, 16, 17, 18, 19, 0,
        ],
        need: SearchedNeed {
            lnz: 18,
            n_mult_subs_ldl: 18,
            n_mult_subs_lu: 18,
            d_max: 2,
        },
    },
];

/// Asserts what the factor of a case needs.
fn check_need(rt: &impl Abort, alloc: Global, case: &NeedCase) -> Result<(), AllocError> {
    let factor = factor_of(alloc, case.a_p, case.a_i, case.p)?;
    check!(rt; need_of(&factor.columns) == case.need, case.what);
    Ok(())
}

#[test]
fn needs_of_factors(rt: HostRuntime) -> Result<(), Fail> {
    for case in &FACTORS {
        check_need(&rt, rt.alloc(), case)?;
    }
    let can_24 = NeedCase {
        what: "can_24, whose bounds are a little above",
        a_p: &POINTERS,
        a_i: &ROWS,
        p: &[
            22, 20, 10, 23, 12, 5, 16, 8, 14, 4, 15, 7, 1, 9, 13, 17, 0, 2, 3, 6, 11, 18, 21, 19,
        ],
        need: SearchedNeed {
            lnz: 96,
            n_mult_subs_ldl: 268,
            n_mult_subs_lu: 440,
            d_max: 7,
        },
    };
    Ok(check_need(&rt, rt.alloc(), &can_24)?)
}

/// Orders a forest, and asserts that nothing fills in.
fn order_forest(
    rt: &impl Abort,
    alloc: Global,
    n: i64,
    a_p: &[i64],
    a_i: &[i64],
) -> Result<(), AllocError> {
    let Ok((p, _p_inv, info)) = order(alloc, n, a_p, a_i, &Control::default()) else {
        panic!(rt; "no answer");
    };
    let factor = check_bounds(rt, alloc, a_p, a_i, &p, &info)?;
    check_forest(rt, &factor, &info);
    Ok(())
}

#[test]
fn forests_do_not_fill_in(rt: HostRuntime) -> Result<(), Fail> {
    let heap = rt.alloc();
    order_forest(&rt, heap, 3, &[0, 1, 1, 1], &[2])?;
    order_forest(&rt, heap, 3, &[0, 1, 2, 2], &[1, 2])?;
    let (star_p, star_i) = star(heap, 18)?;
    order_forest(&rt, heap, 18, &star_p, &star_i)?;
    Ok(())
}
