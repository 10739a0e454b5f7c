// The calls beside the definitions in their plain form, on matrices drawn from seeds, jumbled and sorted, with and
// without a row that has an edge to each other one.

use crate::checks::{check_chosen, check_matrix};
use amd::aat::aat;
use amd::preprocess::preprocess;
use amd::valid::valid;
use amd::{Control, Info, Status, order};
use amd_testing::families::{Family, member};
use amd_testing::{check, plain};
use std::alloc::{AllocError, Global};
use std::process::Abort;
use std::test::Fail;

/// The figures of a pattern by their definitions.
fn figures_of(n: usize, a_p: &[i64], a_i: &[i64]) -> [usize; 4] {
    [
        n,
        plain::nz(n, a_p, a_i),
        plain::nz_diag(n, a_p, a_i),
        plain::nz_a_plus_at(n, a_p, a_i),
    ]
}

/// The figures that a record tells.
fn figures_in(info: &Info) -> [usize; 4] {
    [info.n, info.nz, info.nz_diag, info.nz_a_plus_at]
}

/// The status of a column form by the definition.
fn class_of(n: usize, a_p: &[i64], a_i: &[i64]) -> Status {
    if plain::is_jumbled(n, a_p, a_i) {
        Status::OkButJumbled
    } else {
        Status::OK
    }
}

/// Whether a record tells the figures of a pattern.
fn has_figures(n: usize, a_p: &[i64], a_i: &[i64], info: &Info) -> bool {
    figures_in(info) == figures_of(n, a_p, a_i) && info.symmetry == plain::symmetric(n, a_p, a_i)
}

/// Whether two lists are inverse permutations, in which the rows chosen as dense, as many as are told, stand last.
pub fn is_ordered(n: usize, chosen: &[bool], n_dense: usize, p: &[i64], p_inv: &[i64]) -> bool {
    n_dense == plain::how_many(chosen)
        && plain::are_inverse(n, p, p_inv)
        && plain::stand_last(chosen, p)
}

/// Whether `order` has an answer for a column form, and it is what the definitions say. The rows chosen as dense are
/// those that the definition chooses.
fn is_answered(
    alloc: Global,
    control: &Control,
    n: i64,
    a_p: &[i64],
    a_i: &[i64],
    chosen: &[bool],
) -> bool {
    let Ok((p, p_inv, info)) = order(alloc, n, a_p, a_i, control) else {
        return false;
    };
    let size = chosen.len();
    info.status == class_of(size, a_p, a_i)
        && has_figures(size, a_p, a_i, &info)
        && is_ordered(size, chosen, info.n_dense, &p, &p_inv)
}

/// Orders with one dense row parameter, and asserts that the answer is what the definitions say.
fn compare_order(
    rt: &impl Abort,
    alloc: Global,
    dense: i32,
    n: i64,
    a_p: &[i64],
    a_i: &[i64],
) -> Result<(), AllocError> {
    let control = Control {
        dense,
        aggressive: true,
    };
    let size = usize::try_from(n).unwrap_or(0);
    let chosen = plain::dense_rows(alloc, dense, size, a_p, a_i)?;
    let holds = is_answered(alloc, &control, n, a_p, a_i, &chosen);
    check_chosen(rt, holds, &control, a_p, a_i);
    Ok(())
}

/// Asserts that `preprocess` answers the transpose of a column form, cleaned.
fn compare_preprocess(
    rt: &impl Abort,
    alloc: Global,
    n: i64,
    a_p: &[i64],
    a_i: &[i64],
    b_p: &[i64],
    b_i: &[i64],
) {
    match valid(n, n, a_p, a_i) {
        Status::OK => {}
        Status::OkButJumbled => {}
        _ => panic!(rt; "no column form"),
    }
    let Ok((pointers, columns)) = preprocess(alloc, n, a_p, a_i) else {
        panic!(rt; "no answer");
    };
    let is_same = pointers.as_slice() == b_p && columns.as_slice() == b_i;
    check_matrix(rt, is_same, a_p, a_i);
}

/// Whether these are the degrees of all rows.
fn are_degrees(n: usize, a_p: &[i64], a_i: &[i64], degrees: &[usize]) -> bool {
    for (i, &degree) in degrees.iter().enumerate() {
        if degree != plain::degree(n, a_p, a_i, i) {
            return false;
        }
    }
    degrees.len() == n
}

/// Asserts that `aat` answers the degrees and figures of a sorted column form.
fn compare_aat(rt: &impl Abort, alloc: Global, n: i64, a_p: &[i64], a_i: &[i64]) {
    let Status::OK = valid(n, n, a_p, a_i) else {
        panic!(rt; "not sorted");
    };
    let mut info = Info::new(0);
    let Ok((total, degrees)) = aat(alloc, n, a_p, a_i, &mut info) else {
        panic!(rt; "no answer");
    };
    let size = usize::try_from(n).unwrap_or(0);
    let is_counted = total == info.nz_a_plus_at && are_degrees(size, a_p, a_i, &degrees);
    let holds = is_counted && has_figures(size, a_p, a_i, &info);
    check_matrix(rt, holds, a_p, a_i);
}

/// Compares each call on a matrix and on its transpose, which is sorted.
fn compare(
    rt: &impl Abort,
    alloc: Global,
    n: i64,
    a_p: &[i64],
    a_i: &[i64],
) -> Result<(), AllocError> {
    check!(rt; plain::is_column_form(n, n, a_p, a_i));
    let (b_p, b_i) = plain::clean_transpose(alloc, usize::try_from(n).unwrap_or(0), a_p, a_i)?;
    compare_preprocess(rt, alloc, n, a_p, a_i, &b_p, &b_i);
    compare_aat(rt, alloc, n, &b_p, &b_i);
    for dense in [10000, 0, -1] {
        compare_order(rt, alloc, dense, n, a_p, a_i)?;
        compare_order(rt, alloc, dense, n, &b_p, &b_i)?;
    }
    Ok(())
}

/// Compares each call on the matrices of a family.
fn compare_drawn(rt: &impl Abort, alloc: Global, family: Family) -> Result<(), AllocError> {
    for seed in 1..=64 {
        let (n, a_p, a_i) = member(alloc, family, seed)?;
        compare(rt, alloc, n, &a_p, &a_i)?;
    }
    Ok(())
}

#[test]
fn calls_agree_with_the_definitions(rt: HostRuntime) -> Result<(), Fail> {
    Ok(compare_drawn(&rt, rt.alloc(), Family::Drawn)?)
}

#[test]
fn calls_agree_with_the_definitions_on_a_hub(rt: HostRuntime) -> Result<(), Fail> {
    Ok(compare_drawn(&rt, rt.alloc(), Family::DrawnWithHub)?)
}
