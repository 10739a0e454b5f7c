// The columns that supernodes stand for, on worked matrices, and how much room supernodes need; with each request
// refused in turn, and where the input or the order is none. And two orderings whose blocks of the assembly tree are no
// supernodes. The answers were worked by hand, or come from an independent program that follows the definitions, which
// is no part of this repository.

use crate::tests::worked::{FactorCase, check_factor, four_cycle, worked};
use amd::{Control, order};
use amd_symbolic::{Fault, expand, supernode_sizes, supernodes};
use amd_testing::check;
use amd_testing::refusing::{Refusing, each_refused};
use std::alloc::Global;
use std::process::Abort;

/// How many supernodes the worked matrices have, and how many rows below the blocks.
const SIZES: [(usize, usize); 9] = [
    // {0} with two rows, and {1, 2, 3}
    (2, 2),
    // {0} with the row 4, {1} with 2, and {2, 3, 4}
    (3, 2),
    (0, 0),
    (0, 0),
    (1, 0),
    // {0}, and {1, 2}
    (2, 0),
    (1, 0),
    (1, 0),
    // {0} with the row 2, and {1, 2}
    (2, 1),
];

/// Asks for the columns of a case by its supernodes, and says whether there was an answer.
fn asks(rt: &impl Abort, heap: &Refusing<Global>, case: &FactorCase) -> bool {
    match supernodes(heap, case.n, case.a_p, case.a_i, case.p) {
        Ok(made) => match expand(heap, &made) {
            Ok(factor) => {
                check_factor(rt, case, &factor);
                true
            }
            Err(_) => false,
        },
        Err(fault) => {
            check!(rt; fault == Fault::OutOfMemory);
            false
        }
    }
}

#[test]
fn each_request_of_an_expansion(rt: HostRuntime) {
    for case in worked() {
        match each_refused(rt.alloc(), |heap| asks(&rt, heap, case)) {
            Ok(count) => check!(&rt; 0 < count, case.what),
            Err(_) => panic!(&rt; "{}", case.what),
        }
    }
}

/// Asks for the sizes of the supernodes of a case, and says whether there was an answer.
fn asks_sizes(
    rt: &impl Abort,
    heap: &Refusing<Global>,
    case: &FactorCase,
    wanted: (usize, usize),
) -> bool {
    match supernode_sizes(heap, case.n, case.a_p, case.a_i, case.p) {
        Ok(sizes) => {
            check!(rt; (sizes.supernodes, sizes.rows) == wanted, case.what);
            true
        }
        Err(fault) => {
            check!(rt; fault == Fault::OutOfMemory);
            false
        }
    }
}

/// No rows need no memory.
#[test]
fn each_request_of_sizes(rt: HostRuntime) {
    for (case, &wanted) in worked().iter().zip(&SIZES) {
        match each_refused(rt.alloc(), |heap| asks_sizes(&rt, heap, case, wanted)) {
            Ok(count) => check!(&rt; (0 < count) == (0 < case.n), case.what),
            Err(_) => panic!(&rt; "{}", case.what),
        }
    }
}

/// Inputs that are no column form make no request; orders that do not list each row once are told as such.
#[test]
fn inputs_that_have_no_sizes(rt: HostRuntime) {
    let heap = Refusing::new(rt.alloc(), 1);
    let short = supernode_sizes(&heap, 2i64, &[0, 1, 3], &[0, 1], &[0, 1]).err();
    let negative = supernode_sizes(&heap, -1i64, &[0], &[], &[]).err();
    check!(&rt; short == Some(Fault::NotColumnForm) && negative == Some(Fault::NotColumnForm));
    let order_of_none = supernode_sizes(&heap, 0i64, &[], &[], &[0]).err();
    check!(&rt; order_of_none == Some(Fault::NotPermutation) && heap.requests() == 0);
    let case = four_cycle();
    for p in [[].as_slice(), &[0, 1, 1, 2], &[0, 1, 2], &[0, 1, 2, 4]] {
        let fault = supernode_sizes(rt.alloc(), case.n, case.a_p, case.a_i, p).err();
        check!(&rt; fault == Some(Fault::NotPermutation));
    }
}

/// A block whose front is not exact is cut. The last row is ordered first, and the others are one block, {0, 1, 2, 3},
/// since 0, 1 and 2 are eliminated with 3. But no path joins 0 with 1 before 2 comes, and so 1 is no entry of its
/// column.
#[test]
fn a_block_that_is_cut(rt: HostRuntime) {
    let a_p = [0i64, 2, 4, 5, 6, 6];
    let a_i = [2i64, 3, 2, 3, 4, 4];
    let Ok((p, _, _)) = order(rt.alloc(), 5, &a_p, &a_i, &Control::default()) else {
        panic!(rt; "no answer");
    };
    check!(&rt; p.as_slice() == [4, 0, 1, 2, 3].as_slice());
    let Ok(made) = supernodes(rt.alloc(), 5, &a_p, &a_i, &p) else {
        panic!(rt; "no supernodes");
    };
    check!(&rt; made.first.as_slice() == [0, 1, 2, 5].as_slice() && made.rows.as_slice() == [3, 4, 3, 4].as_slice());
}

/// A supernode need not lie in one block: the fourth and fifth places are blocks of one row each, {8} and {2}, and one
/// supernode.
#[test]
fn blocks_that_are_one_supernode(rt: HostRuntime) {
    let a_p = [0i64, 2, 3, 5, 7, 9, 9, 10, 10, 10];
    let a_i = [2i64, 7, 6, 7, 8, 5, 6, 5, 6, 8];
    let Ok((p, _, _)) = order(rt.alloc(), 9, &a_p, &a_i, &Control::default()) else {
        panic!(rt; "no answer");
    };
    check!(&rt; p.as_slice() == [0, 7, 1, 8, 2, 6, 4, 5, 3].as_slice());
    let Ok(made) = supernodes(rt.alloc(), 9, &a_p, &a_i, &p) else {
        panic!(rt; "no supernodes");
    };
    check!(&rt; made.first.as_slice() == [0, 2, 3, 5, 6, 9].as_slice());
    check!(&rt; made.rows.as_slice() == [4, 5, 5, 6, 8].as_slice());
}
