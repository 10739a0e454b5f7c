// The calls for supernodes on their happy path, with worked answers, and what a refusal leaves. The matrix with five
// rows is that of the AMD user guide: in the order 0, 3, 2, 4, 1 its factor has the columns {4}, {2}, {3, 4}, {4} and
// {}, and so the supernodes {0}, {1} and {2, 3, 4}.

ghost use Rattle.std.specs.Prelude.{◌≤◌};

use crate::int32::{
    rimopaku_supernode_sizes_i32, rimopaku_supernodes_and_sizes_i32, rimopaku_supernodes_i32,
};
use crate::int64::{
    rimopaku_supernode_sizes_i64, rimopaku_supernodes_and_sizes_i64, rimopaku_supernodes_i64,
};
use amd_calls::records::SupernodeSizes;
use std::alloc::Global;

/// The matrix with five rows, and its order.
const FIVE_P: [i32; 6] = [0, 2, 6, 10, 12, 14];

const FIVE_I: [i32; 14] = [0, 1, 0, 1, 2, 4, 1, 2, 3, 4, 2, 3, 1, 4];

const FIVE_ORDER: [i32; 5] = [0, 3, 2, 4, 1];

/// Sizes in which no call has written.
fn no_sizes() -> SupernodeSizes {
    SupernodeSizes {
        supernodes: 77,
        rows: 77,
    }
}

#[test]
fn supernodes_of_five_rows(rt: HostRuntime) {
    let mut sizes = no_sizes();
    let (a_p, a_i, p) = (&FIVE_P, &FIVE_I, &FIVE_ORDER);
    let number = rimopaku_supernode_sizes_i32(rt.alloc(), 5, a_p, a_i, p, &mut sizes);
    assert!(rt; number == 0 && sizes.supernodes == 3 && sizes.rows == 2);
    let mut first = [-5; 5];
    let mut ptr = [-5; 5];
    let mut rows = [-5; 3];
    let mut parent = [-5; 4];
    let number = rimopaku_supernodes_i32(
        rt.alloc(),
        5,
        a_p,
        a_i,
        p,
        &mut first,
        &mut ptr,
        &mut rows,
        &mut parent,
    );
    assert!(rt; number == 0 && first == [0, 1, 2, 5, -5] && ptr == [0, 1, 2, 2, -5]);
    assert!(rt; rows == [4, 2, -5] && parent == [2, 2, -1, -5]);
}

#[test]
fn supernodes_of_a_cycle_in_64_bits(rt: HostRuntime) {
    // The rows 0 and 2, and 1 and 3, are no neighbours; the first column has 1 and 3, and then those two are joined.
    let a_p = [0, 2, 3, 4, 4];
    let a_i = [1, 3, 2, 3];
    let p = [0, 1, 2, 3];
    let mut sizes = no_sizes();
    let number = rimopaku_supernode_sizes_i64(rt.alloc(), 4, &a_p, &a_i, &p, &mut sizes);
    assert!(rt; number == 0 && sizes.supernodes == 2 && sizes.rows == 2);
    let mut first = [-5; 3];
    let mut ptr = [-5; 3];
    let mut rows = [-5; 2];
    let mut parent = [-5; 2];
    let number = rimopaku_supernodes_i64(
        rt.alloc(),
        4,
        &a_p,
        &a_i,
        &p,
        &mut first,
        &mut ptr,
        &mut rows,
        &mut parent,
    );
    assert!(rt; number == 0 && first == [0, 1, 4] && ptr == [0, 2, 2]);
    assert!(rt; rows == [1, 3] && parent == [1, -1]);
}

#[test]
fn sizes_that_are_refused(rt: HostRuntime) {
    let a_p = [0, 2, 3, 4, 4];
    let a_i = [1, 3, 2, 3];
    let mut sizes = no_sizes();
    let twice = rimopaku_supernode_sizes_i64(rt.alloc(), 4, &a_p, &a_i, &[0, 1, 2, 2], &mut sizes);
    let few_rows = rimopaku_supernode_sizes_i32(
        rt.alloc(),
        4,
        &[0, 2, 3, 4, 4],
        &[1, 3, 2],
        &[0; 4],
        &mut sizes,
    );
    assert!(rt; twice == -3 && few_rows == -2 && sizes.supernodes == 77 && sizes.rows == 77);
    let nothing = rimopaku_supernode_sizes_i32(rt.alloc(), 0, &[7], &[], &[], &mut sizes);
    assert!(rt; nothing == 0 && sizes.supernodes == 0 && sizes.rows == 0);
}

/// The number that the supernodes of a cycle of four rows give in arrays of these lengths; 1 if any was written.
fn refused_cycle(
    alloc: Global,
    p: &[i32],
    first: usize,
    ptr: usize,
    rows: usize,
    parent: usize,
) -> i32
    requires { (first ≤ 4) × (ptr ≤ 4) × (rows ≤ 4) × (parent ≤ 4) }
{
    let mut begins = [-5; 4];
    let mut pointers = [-5; 4];
    let mut entries = [-5; 4];
    let mut parents = [-5; 4];
    let number = rimopaku_supernodes_i32(
        alloc,
        4,
        &[0, 2, 3, 4, 4],
        &[1, 3, 2, 3],
        p,
        &mut begins[..first],
        &mut pointers[..ptr],
        &mut entries[..rows],
        &mut parents[..parent],
    );
    let before = [-5; 4];
    if begins == before && pointers == before && entries == before && parents == before {
        number
    } else {
        1
    }
}

#[test]
fn supernodes_that_are_refused(rt: HostRuntime) {
    let p = [0, 1, 2, 3];
    let alloc = rt.alloc();
    assert!(rt;
        refused_cycle(alloc, &p, 3, 3, 2, 1) == -2 && refused_cycle(alloc, &p, 3, 2, 2, 2) == -2
    );
    assert!(rt;
        refused_cycle(alloc, &p, 2, 2, 2, 1) == -4 && refused_cycle(alloc, &p, 3, 3, 1, 2) == -4
    );
    assert!(rt; refused_cycle(alloc, &[0, 1, 1, 3], 3, 3, 2, 2) == -3);
}

/// The number that the supernodes of a cycle of four rows give in arrays with as many places as columns and so many for
/// rows, and the sizes that are told.
fn told_cycle(alloc: Global, p: &[i64], rows: usize) -> (i32, SupernodeSizes)
    requires { rows ≤ 4 }
{
    let mut begins = [-5; 5];
    let mut pointers = [-5; 5];
    let mut entries = [-5; 4];
    let mut parents = [-5; 4];
    let mut sizes = no_sizes();
    let number = rimopaku_supernodes_and_sizes_i64(
        alloc,
        4,
        &[0, 2, 3, 4, 4],
        &[1, 3, 2, 3],
        p,
        &mut begins,
        &mut pointers,
        &mut entries[..rows],
        &mut parents,
        &mut sizes,
    );
    (number, sizes)
}

#[test]
fn sizes_that_are_told_beside(rt: HostRuntime) {
    let (number, sizes) = told_cycle(rt.alloc(), &[0, 1, 2, 3], 4);
    assert!(rt; number == 0 && sizes.supernodes == 2 && sizes.rows == 2);
    let (number, sizes) = told_cycle(rt.alloc(), &[0, 1, 2, 3], 1);
    assert!(rt; number == -4 && sizes.supernodes == 2 && sizes.rows == 2);
    let (number, sizes) = told_cycle(rt.alloc(), &[0, 1, 1, 3], 4);
    assert!(rt; number == -3 && sizes.supernodes == 77 && sizes.rows == 77);
}

/// The number and the sizes of the one call for five rows, which writes into these arrays.
fn told_five(
    alloc: Global,
    first: &mut [i32],
    ptr: &mut [i32],
    rows: &mut [i32],
    parent: &mut [i32],
) -> (i32, SupernodeSizes) {
    let mut sizes = no_sizes();
    let number = rimopaku_supernodes_and_sizes_i32(
        alloc,
        5,
        &FIVE_P,
        &FIVE_I,
        &FIVE_ORDER,
        first,
        ptr,
        rows,
        parent,
        &mut sizes,
    );
    (number, sizes)
}

#[test]
fn supernodes_in_one_call(rt: HostRuntime) {
    let mut first = [-5; 6];
    let mut ptr = [-5; 6];
    let mut rows = [-5; 5];
    let mut parent = [-5; 5];
    let (number, sizes) = told_five(rt.alloc(), &mut first, &mut ptr, &mut rows, &mut parent);
    assert!(rt; number == 0 && sizes.supernodes == 3 && sizes.rows == 2);
    assert!(rt; first == [0, 1, 2, 5, -5, -5] && ptr == [0, 1, 2, 2, -5, -5]);
    assert!(rt; rows == [4, 2, -5, -5, -5] && parent == [2, 2, -1, -5, -5]);
}
