// The engine in place with refused memory: each request refused in turn, over the worked matrices and in words of both
// widths, and nothing left behind; workspaces that no memory holds. How many requests there are does not depend on the
// number of rounds, and on the workspace only where it is larger than what an allocator keeps as one list.

use crate::tests::in_place_matrices::{EngineCase, matrices};
use crate::tests::in_place_rows::{control_of, is_answer, matrix_of};
use crate::tests::sorted::{Sorted, order_in_place, order_sparing, unmarked};
use amd_testing::check;
use amd_testing::inputs::path;
use amd_testing::refusing::{Refusing, each_refused};
use amd_types::amd::{Control, Info, Status};
use std::alloc::Global;
use std::process::Abort;
use std::test::Fail;

/// Orders the matrix of a case from a first flag on, with so many words to spare, and says whether there was an answer,
/// which must be that of the case.
fn orders(
    rt: &impl Abort,
    heap: &Refusing<Global>,
    alloc: Global,
    (flag, more): (usize, usize),
    case: &EngineCase,
) -> bool {
    let mut info = Info::new(0);
    let (matrix, control) = (matrix_of(case), control_of(case));
    match order_in_place(rt, heap, alloc, flag, more, &matrix, &control, &mut info) {
        Ok((p, p_inv)) => {
            check!(rt; is_answer(case, &p, &p_inv, &info), case.what);
            true
        }
        Err(status) => {
            check!(rt; status == Status::OutOfMemory, case.what);
            false
        }
    }
}

/// Asserts that the engine in place answers, or is refused memory, whichever of its requests is refused.
fn check_requests(rt: &impl Abort, heap: Global, flag: usize, case: &EngineCase) {
    let refusals = each_refused(heap, |refusing| orders(rt, refusing, heap, (flag, 0), case));
    check!(rt; 0 < refusals.unwrap_or(0), case.what);
}

/// The first flag 2 has words of 32 bits, and the other one has wider words.
#[test]
fn each_request_of_the_engine_in_place(rt: HostRuntime) {
    for case in matrices() {
        check_requests(&rt, rt.alloc(), 2, case);
        check_requests(&rt, rt.alloc(), 1 << 32, case);
    }
}

/// Asserts that a workspace with so many words to spare is refused.
fn check_workspace(rt: &impl Abort, alloc: Global, more: usize, case: &EngineCase) {
    let heap = Refusing::new(alloc, 0);
    let answered = orders(rt, &heap, alloc, (2, more), case);
    check!(rt; !answered, case.what);
}

/// So many words are refused as memory is, and what was granted before comes back.
#[test]
fn workspaces_that_no_memory_holds(rt: HostRuntime) {
    for case in matrices() {
        check_workspace(&rt, rt.alloc(), 1 << 58, case);
        check_workspace(&rt, rt.alloc(), (1 << 60) - 1, case);
    }
}

/// The number of requests for a path, whose rounds are nearly as many as its rows.
fn requests_for_path(rt: &impl Abort, alloc: Global, n: i64, flag: usize) -> Result<u64, Fail> {
    let (a_p, a_i) = path(alloc, n)?;
    let matrix = unmarked(n, &a_p, &a_i);
    let heap = Refusing::new(alloc, 0);
    let mut info = Info::new(0);
    let control = Control::default();
    let answered = order_in_place(rt, &heap, alloc, flag, 0, &matrix, &control, &mut info).is_ok();
    check!(rt; answered && heap.granted() == heap.released());
    Ok(heap.requests())
}

#[test]
fn rounds_ask_for_no_memory(rt: HostRuntime) -> Result<(), Fail> {
    for flag in [2, 1 << 32] {
        let requests = requests_for_path(&rt, rt.alloc(), 10, flag)?;
        for n in [11, 30, 100, 300, 1000] {
            check!(&rt; requests_for_path(&rt, rt.alloc(), n, flag)? == requests);
        }
    }
    Ok(())
}

/// Whether `amd_1` orders a matrix, with so many words to spare.
fn is_ordered_sparing(
    rt: &impl Abort,
    heap: &Refusing<Global>,
    alloc: Global,
    more: usize,
    matrix: &Sorted,
) -> bool {
    let (mut info, control) = (Info::new(0), Control::default());
    order_sparing(rt, heap, alloc, more, matrix, &control, &mut info).is_ok()
}

/// How many requests `amd_1` makes for a pair of rows with so many words to spare, each of them refused in turn.
fn requests_sparing(rt: &impl Abort, alloc: Global, more: usize) -> u64 {
    let pair = unmarked(2, &[0, 1, 1], &[1]);
    each_refused(
        alloc,
        |heap| is_ordered_sparing(rt, heap, alloc, more, &pair),
    )
    .unwrap_or(0)
}

/// The workspace of a pair of rows has four words and those to spare; a block of the size that is counted has half of
/// it and nine words.
#[test]
fn asks_for_two_blocks_of_a_large_workspace(rt: HostRuntime) {
    let requests = requests_sparing(&rt, rt.alloc(), 0);
    check!(&rt; requests > 0 && requests_sparing(&rt, rt.alloc(), 8_379_996) == requests);
    check!(&rt; requests_sparing(&rt, rt.alloc(), 8_379_998) == requests.saturating_add(2));
    check!(&rt; requests_sparing(&rt, rt.alloc(), 14_399_998) == requests);
    let heap = Refusing::counting(rt.alloc(), 0, 4 * (4_190_001 + 9));
    let pair = unmarked(2, &[0, 1, 1], &[1]);
    check!(&rt; is_ordered_sparing(&rt, &heap, rt.alloc(), 8_379_998, &pair));
    check!(&rt; heap.of_size() == 2);
}
