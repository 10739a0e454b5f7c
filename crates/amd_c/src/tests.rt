// Each exported function on its happy path, with worked answers, and what a refusal leaves. The matrix with five rows
// is that of the AMD user guide.

use crate::int32::{
    rimopaku_aat_i32, rimopaku_columns_i32, rimopaku_counts_i32, rimopaku_order_holding_i32,
    rimopaku_order_i32, rimopaku_postorder_i32, rimopaku_preprocess_i32, rimopaku_valid_i32,
};
use crate::int64::{
    rimopaku_aat_i64, rimopaku_columns_i64, rimopaku_counts_i64, rimopaku_order_holding_i64,
    rimopaku_order_i64, rimopaku_postorder_i64, rimopaku_preprocess_i64, rimopaku_valid_i64,
};
use crate::rimopaku_defaults;
use amd::Info;
use amd_calls::records::{Parameters, SaturatedNeed, Statistics, statistics_of};

/// The parameters of a caller who chooses nothing.
fn defaults() -> Parameters {
    let mut parameters = Parameters {
        dense: 0,
        aggressive: false,
    };
    rimopaku_defaults(&mut parameters);
    parameters
}

/// The numbers of a record, in the order of its fields.
fn numbers_of(told: &Statistics) -> [usize; 11] {
    [
        told.n,
        told.nz,
        told.nz_diag,
        told.nz_a_plus_at,
        told.n_dense,
        told.n_cmp_a,
        told.bounds.lnz,
        told.bounds.n_div,
        told.bounds.n_mult_subs_ldl,
        told.bounds.n_mult_subs_lu,
        told.bounds.d_max,
    ]
}

/// A record in which no call has written.
fn blank() -> Statistics {
    statistics_of(&Info::new(77))
}

/// A record of needs in which no call has written.
fn no_needs() -> SaturatedNeed {
    SaturatedNeed {
        lnz: 77,
        n_mult_subs_ldl: 77,
        n_mult_subs_lu: 77,
        d_max: 77,
    }
}

/// The needs, in the order of the fields.
fn figures_of(needs: &SaturatedNeed) -> [usize; 4] {
    [
        needs.lnz,
        needs.n_mult_subs_ldl,
        needs.n_mult_subs_lu,
        needs.d_max,
    ]
}

#[test]
fn five_rows(rt: HostRuntime) {
    let a_p = [0, 2, 6, 10, 12, 14];
    let a_i = [0, 1, 0, 1, 2, 4, 1, 2, 3, 4, 2, 3, 1, 4];
    let mut p = [-5; 5];
    let mut p_inv = [-5; 5];
    let mut told = blank();
    let number = rimopaku_order_i32(
        rt.alloc(),
        5,
        &a_p,
        &a_i,
        &defaults(),
        &mut p,
        &mut p_inv,
        &mut told,
    );
    assert!(rt; number == 0 && p == [0, 3, 2, 4, 1] && p_inv == [0, 4, 2, 1, 3]);
    assert!(rt; numbers_of(&told) == [5, 14, 5, 10, 0, 0, 5, 5, 6, 7, 3]);
    assert!(rt; !told.symmetry && rimopaku_valid_i32(5, 5, &a_p, &a_i) == 0);
}

#[test]
fn a_jumbled_path(rt: HostRuntime) {
    let a_p = [0, 3, 3, 4];
    let a_i = [2, 0, 2, 1, -5, 77];
    let mut p = [-5; 3];
    let mut p_inv = [-5; 3];
    let mut told = blank();
    let number = rimopaku_order_i64(
        rt.alloc(),
        3,
        &a_p,
        &a_i,
        &defaults(),
        &mut p,
        &mut p_inv,
        &mut told,
    );
    assert!(rt; number == 1 && p == [1, 0, 2] && p_inv == [1, 0, 2]);
    let numbers = [told.nz, told.nz_diag, told.nz_a_plus_at, told.bounds.lnz];
    assert!(rt; numbers == [3, 1, 4, 2] && rimopaku_valid_i64(3, 3, &a_p, &a_i) == 1);
}

#[test]
fn a_row_of_a_cycle_held_last(rt: HostRuntime) {
    let hold = [true, false, false, false];
    let mut p = [-5i32; 4];
    let mut p_inv = [-5i32; 4];
    let mut told = blank();
    let number = rimopaku_order_holding_i32(
        rt.alloc(),
        4,
        &[0, 2, 3, 4, 4],
        &[1, 3, 2, 3],
        &defaults(),
        &hold,
        &mut p,
        &mut p_inv,
        &mut told,
    );
    assert!(rt; number == 0 && p == [3, 1, 2, 0] && p_inv == [3, 1, 2, 0]);
    assert!(rt; [told.n_dense, told.bounds.lnz, told.bounds.d_max] == [1, 5, 3]);
}

#[test]
fn results_that_are_too_short(rt: HostRuntime) {
    let a_p = [0i64, 1, 2, 2];
    let a_i = [1i64, 2];
    let mut p = [-5; 3];
    let mut p_inv = [-6; 3];
    let mut told = blank();
    let first = rimopaku_order_i64(
        rt.alloc(),
        3,
        &a_p,
        &a_i,
        &defaults(),
        &mut p[..2],
        &mut p_inv,
        &mut told,
    );
    let second = rimopaku_order_i64(
        rt.alloc(),
        3,
        &a_p,
        &a_i,
        &defaults(),
        &mut p,
        &mut p_inv[..2],
        &mut told,
    );
    assert!(rt; first == -2 && second == -2);
    assert!(rt; p == [-5; 3] && p_inv == [-6; 3] && told.n == 77);
}

#[test]
fn inputs_that_are_refused(rt: HostRuntime) {
    let a_p = [0i64, 1, 2, 2];
    let a_i = [1i64, 2];
    let mut p = [-5; 3];
    let mut p_inv = [-6; 3];
    let mut told = blank();
    let few_marks = rimopaku_order_holding_i64(
        rt.alloc(),
        3,
        &a_p,
        &a_i,
        &defaults(),
        &[true, false],
        &mut p,
        &mut p_inv,
        &mut told,
    );
    let few_pointers = rimopaku_order_i64(
        rt.alloc(),
        3,
        &a_p[1..],
        &a_i,
        &defaults(),
        &mut p,
        &mut p_inv,
        &mut told,
    );
    assert!(rt; few_marks == -2 && few_pointers == -2);
    assert!(rt; p == [-5; 3] && p_inv == [-6; 3] && told.n == 77);
}

#[test]
fn columns_of_a_cycle(rt: HostRuntime) {
    let a_p = [0, 2, 3, 4, 4];
    let a_i = [1, 3, 2, 3];
    let mut ptr = [-5; 5];
    let mut rows = [-5; 6];
    let mut parent = [-5; 4];
    let order = [0, 1, 2, 3];
    let number = rimopaku_columns_i32(
        rt.alloc(),
        4,
        &a_p,
        &a_i,
        &order,
        &mut ptr,
        &mut rows,
        &mut parent,
    );
    assert!(rt; number == 0 && ptr == [0, 2, 4, 5, 5]);
    assert!(rt; rows == [1, 3, 2, 3, 3, -5] && parent == [1, 2, 3, -1]);
    let small = rimopaku_columns_i32(
        rt.alloc(),
        4,
        &a_p,
        &a_i,
        &order,
        &mut ptr,
        &mut rows[..4],
        &mut parent,
    );
    assert!(rt; small == -4);
    let twice = rimopaku_columns_i32(
        rt.alloc(),
        4,
        &a_p,
        &a_i,
        &[0, 0, 2, 3],
        &mut ptr,
        &mut rows,
        &mut parent,
    );
    assert!(rt; twice == -3 && rows == [1, 3, 2, 3, 3, -5]);
}

#[test]
fn columns_that_are_refused(rt: HostRuntime) {
    let a_p = [0, 2, 3, 4, 4];
    let a_i = [1, 3, 2, 3];
    let mut ptr = [-5; 5];
    let mut rows = [-5; 6];
    let mut parent = [-5; 4];
    let order = [0, 1, 2, 3];
    let few_pointers = rimopaku_columns_i32(
        rt.alloc(),
        4,
        &a_p[..4],
        &a_i,
        &order,
        &mut ptr,
        &mut rows,
        &mut parent,
    );
    let short = rimopaku_columns_i32(
        rt.alloc(),
        4,
        &a_p,
        &a_i,
        &order,
        &mut ptr[..4],
        &mut rows,
        &mut parent,
    );
    let few_parents = rimopaku_columns_i32(
        rt.alloc(),
        4,
        &a_p,
        &a_i,
        &order,
        &mut ptr,
        &mut rows,
        &mut parent[..3],
    );
    assert!(rt; few_pointers == -2 && short == -2 && few_parents == -2);
    assert!(rt; ptr == [-5; 5] && rows == [-5; 6] && parent == [-5; 4]);
}

#[test]
fn counts_of_five_rows(rt: HostRuntime) {
    let a_p = [0, 2, 6, 10, 12, 14];
    let a_i = [0, 1, 0, 1, 2, 4, 1, 2, 3, 4, 2, 3, 1, 4];
    let mut sizes = [-5; 5];
    let mut parent = [-5; 5];
    let mut needs = no_needs();
    let number = rimopaku_counts_i32(
        rt.alloc(),
        5,
        &a_p,
        &a_i,
        &[0, 3, 2, 4, 1],
        &mut sizes,
        &mut parent,
        &mut needs,
    );
    assert!(rt; number == 0 && sizes == [1, 1, 2, 1, 0] && parent == [4, 2, 3, 4, -1]);
    assert!(rt; figures_of(&needs) == [5, 6, 7, 3]);
}

#[test]
fn counts_of_a_cycle_in_64_bits(rt: HostRuntime) {
    let a_p = [0i64, 2, 3, 4, 4];
    let a_i = [1i64, 3, 2, 3];
    let mut sizes = [-5; 4];
    let mut parent = [-5; 4];
    let mut needs = no_needs();
    let twice = rimopaku_counts_i64(
        rt.alloc(),
        4,
        &a_p,
        &a_i,
        &[0, 0, 2, 3],
        &mut sizes,
        &mut parent,
        &mut needs,
    );
    assert!(rt; twice == -3 && sizes == [-5; 4] && parent == [-5; 4] && needs.lnz == 77);
    let number = rimopaku_counts_i64(
        rt.alloc(),
        4,
        &a_p,
        &a_i,
        &[0, 1, 2, 3],
        &mut sizes,
        &mut parent,
        &mut needs,
    );
    assert!(rt; number == 0 && sizes == [2, 2, 1, 0] && parent == [1, 2, 3, -1]);
    assert!(rt; figures_of(&needs) == [5, 7, 9, 3]);
}

#[test]
fn counts_that_are_refused(rt: HostRuntime) {
    let a_p = [0, 2, 3, 4, 4];
    let a_i = [1, 3, 2, 3];
    let mut sizes = [-5; 4];
    let mut parent = [-5; 4];
    let mut needs = no_needs();
    let order = [0, 1, 2, 3];
    let few_pointers = rimopaku_counts_i32(
        rt.alloc(),
        4,
        &a_p[..4],
        &a_i,
        &order,
        &mut sizes,
        &mut parent,
        &mut needs,
    );
    let few_sizes = rimopaku_counts_i32(
        rt.alloc(),
        4,
        &a_p,
        &a_i,
        &order,
        &mut sizes[..3],
        &mut parent,
        &mut needs,
    );
    let few_parents = rimopaku_counts_i32(
        rt.alloc(),
        4,
        &a_p,
        &a_i,
        &order,
        &mut sizes,
        &mut parent[..3],
        &mut needs,
    );
    assert!(rt; few_pointers == -2 && few_sizes == -2 && few_parents == -2);
    assert!(rt; sizes == [-5; 4] && parent == [-5; 4] && figures_of(&needs) == [77; 4]);
}

#[test]
fn a_cycle_in_64_bits(rt: HostRuntime) {
    let a_p = [0i64, 2, 3, 4, 4];
    let a_i = [1i64, 3, 2, 3];
    let hold = [true, false, false, false];
    let mut p = [-5; 4];
    let mut p_inv = [-5; 4];
    let mut told = blank();
    let number = rimopaku_order_holding_i64(
        rt.alloc(),
        4,
        &a_p,
        &a_i,
        &defaults(),
        &hold,
        &mut p,
        &mut p_inv,
        &mut told,
    );
    assert!(rt; number == 0 && p == [3, 1, 2, 0] && p_inv == [3, 1, 2, 0] && told.bounds.lnz == 5);
    let mut ptr = [-5; 5];
    let mut rows = [-5; 5];
    let mut parent = [-5; 4];
    let written = rimopaku_columns_i64(
        rt.alloc(),
        4,
        &a_p,
        &a_i,
        &p,
        &mut ptr,
        &mut rows,
        &mut parent,
    );
    assert!(rt; written == 0 && ptr == [0, 2, 4, 5, 5]);
    assert!(rt; rows == [2, 3, 2, 3, 3] && parent == [2, 2, 3, -1]);
}

#[test]
fn no_rows(rt: HostRuntime) {
    let mut told = blank();
    let number = rimopaku_order_i32(
        rt.alloc(),
        0,
        &[7],
        &[],
        &defaults(),
        &mut [],
        &mut [],
        &mut told,
    );
    assert!(rt; number == 0 && !told.symmetry && numbers_of(&told) == [0; 11]);
    let mut ptr = [-5i64];
    let written = rimopaku_columns_i64(rt.alloc(), 0, &[7], &[], &[], &mut ptr, &mut [], &mut []);
    assert!(rt; written == 0 && ptr == [0]);
    let mut needs = no_needs();
    let counted = rimopaku_counts_i32(rt.alloc(), 0, &[7], &[], &[], &mut [], &mut [], &mut needs);
    assert!(rt; counted == 0 && figures_of(&needs) == [0; 4]);
}

#[test]
fn degrees_and_rows(rt: HostRuntime) {
    let a_p = [0, 2, 6, 10, 12, 14];
    let a_i = [0, 1, 0, 1, 2, 4, 1, 2, 3, 4, 2, 3, 1, 4];
    let mut degrees = [-5; 5];
    let mut told = blank();
    let number = rimopaku_aat_i32(rt.alloc(), 5, &a_p, &a_i, &mut degrees, &mut told);
    assert!(rt; number == 0 && degrees == [1, 3, 3, 1, 2] && !told.symmetry);
    assert!(rt; numbers_of(&told) == [5, 14, 5, 10, 0, 0, 0, 0, 0, 0, 0]);
    let mut pointers = [-5; 6];
    let mut indices = [-5; 15];
    let written = rimopaku_preprocess_i32(rt.alloc(), 5, &a_p, &a_i, &mut pointers, &mut indices);
    assert!(rt; written == 0 && pointers == [0, 2, 6, 9, 11, 14]);
    assert!(rt; indices == [0, 1, 0, 1, 2, 4, 1, 2, 3, 2, 3, 1, 2, 4, -5]);
}

#[test]
fn a_jumbled_matrix_has_rows_and_no_degrees(rt: HostRuntime) {
    let a_p = [0i64, 3, 3, 4];
    let a_i = [2i64, 0, 2, 1, -5, 77];
    let mut degrees = [-5; 3];
    let mut told = blank();
    let number = rimopaku_aat_i64(rt.alloc(), 3, &a_p, &a_i, &mut degrees, &mut told);
    assert!(rt; number == -2 && degrees == [-5; 3] && told.n == 77);
    let mut pointers = [-5; 4];
    let mut indices = [-5; 3];
    let small = rimopaku_preprocess_i64(
        rt.alloc(),
        3,
        &a_p,
        &a_i,
        &mut pointers,
        &mut indices[..2],
    );
    assert!(rt; small == -4 && pointers == [-5; 4] && indices == [-5; 3]);
    let written = rimopaku_preprocess_i64(rt.alloc(), 3, &a_p, &a_i, &mut pointers, &mut indices);
    assert!(rt; written == 0 && pointers == [0, 1, 2, 3] && indices == [0, 2, 0]);
}

#[test]
fn a_forest(rt: HostRuntime) {
    let parent = [3, 4, -1, 4, -1];
    let nv = [1, 1, 0, 1, 2];
    let f_size = [2, 5, 0, 3, 2];
    let mut order = [-5; 5];
    let number = rimopaku_postorder_i32(rt.alloc(), 5, &parent, &nv, &f_size, &mut order);
    assert!(rt; number == 0 && order == [0, 2, -1, 1, 3]);
    let mut places = [-5i64; 2];
    let above = [-1i64, 0];
    let rows = [1i64, 1];
    let wide = rimopaku_postorder_i64(rt.alloc(), 2, &above, &rows, &rows, &mut places);
    assert!(rt; wide == 0 && places == [1, 0]);
}

#[test]
fn lists_that_are_no_forest(rt: HostRuntime) {
    let ones = [1, 1, 1];
    let mut order = [-5; 3];
    let circle = rimopaku_postorder_i32(rt.alloc(), 3, &[1, 0, -1], &ones, &ones, &mut order);
    let itself = rimopaku_postorder_i32(rt.alloc(), 3, &[-1, -1, 2], &ones, &ones, &mut order);
    let beyond = rimopaku_postorder_i32(rt.alloc(), 3, &[3, -1, -1], &ones, &ones, &mut order);
    let below = rimopaku_postorder_i32(rt.alloc(), 3, &[-2, -1, -1], &ones, &ones, &mut order);
    let none = rimopaku_postorder_i32(rt.alloc(), 3, &[1, -1, -1], &[1, 0, 1], &ones, &mut order);
    let size = rimopaku_postorder_i32(rt.alloc(), 3, &[1, -1, -1], &ones, &[1, -1, 1], &mut order);
    let short = rimopaku_postorder_i32(rt.alloc(), 3, &[1, -1], &ones, &ones, &mut order);
    assert!(rt; [circle, itself, beyond, below, none, size, short] == [-2; 7] && order == [-5; 3]);
}
