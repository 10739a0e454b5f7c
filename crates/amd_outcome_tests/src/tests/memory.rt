// Refused memory: each request in turn is refused, until a run makes no request of that number. Each run that met a
// refusal answers `OutOfMemory`, and the first one without gives the answer. After each of them as many blocks came
// back as were granted.

use crate::tests::comparison::{UNTOUCHED, are_written};
use crate::tests::worked::{FactorCase, check_factor, four_cycle, worked};
use amd::Control;
use amd_symbolic::{Factor, Fault, analyze, analyze_holding, columns, columns_into};
use amd_testing::check;
use amd_testing::refusing::{Refusing, each_refused};
use std::alloc::{Allocator, Global};
use std::process::Abort;

/// Asserts that an answer is the factor of a case, or that memory was refused, and says whether it is the former.
fn is_answer<A: Allocator>(
    rt: &impl Abort,
    case: &FactorCase,
    answer: Result<Factor<A>, Fault>,
) -> bool {
    match answer {
        Ok(factor) => {
            check_factor(rt, case, &factor);
            true
        }
        Err(fault) => {
            check!(rt; fault == Fault::OutOfMemory);
            false
        }
    }
}

/// Asks for the columns of a case, and says whether there was an answer.
fn asks(rt: &impl Abort, heap: &Refusing<Global>, case: &FactorCase) -> bool {
    let answer = columns(heap, case.n, case.a_p, case.a_i, case.p, case.room);
    is_answer(rt, case, answer)
}

/// The number of requests of `columns` for a matrix with entries: the place of each row, two lists for the neighbours,
/// and six for the factor.
const REQUESTS: u64 = 9;

#[test]
fn each_request_of_columns(rt: HostRuntime) {
    for case in worked() {
        let refusals = each_refused(rt.alloc(), |heap| asks(&rt, heap, case));
        check!(&rt; matches!(refusals, Ok(1..)), case.what);
    }
    let refusals = each_refused(rt.alloc(), |heap| asks(&rt, heap, four_cycle()));
    check!(&rt; refusals == Ok(REQUESTS), four_cycle().what);
}

/// Asks for the columns of a case in numbers, and says whether there was an answer.
fn asks_into(rt: &impl Abort, heap: &Refusing<Global>, case: &FactorCase) -> bool {
    let mut rows = [UNTOUCHED; 9];
    match columns_into(heap, case.n, case.a_p, case.a_i, case.p, &mut rows) {
        Ok(frame) => {
            let is_frame = frame.ptr.as_slice() == case.ptr
                && frame.parent.as_slice() == case.parent;
            check!(rt; is_frame && are_written(&rows, case.rows), case.what);
            true
        }
        Err(fault) => {
            check!(rt; fault == Fault::OutOfMemory && are_written(&rows, &[]), case.what);
            false
        }
    }
}

/// All requests of `columns` but that for the entries.
#[test]
fn each_request_of_columns_into(rt: HostRuntime) {
    for case in worked() {
        let refusals = each_refused(rt.alloc(), |heap| asks_into(&rt, heap, case));
        check!(&rt; matches!(refusals, Ok(1..)), case.what);
    }
    let refusals = each_refused(rt.alloc(), |heap| asks_into(&rt, heap, four_cycle()));
    check!(&rt; refusals == Ok(REQUESTS - 1), four_cycle().what);
}

/// How many requests of each size in bytes there are for the four-cycle with room for seven entries, which one list
/// has: four lists have a number for each row, as there are four entries, two have one more, and two have for each row
/// a parent or none.
static SIZES: [(usize, u64); 4] = [(4 * 8, 4), (5 * 8, 2), (7 * 8, 1), (4 * 16, 2)];

#[test]
fn sizes_of_the_requests_of_columns(rt: HostRuntime) {
    let case = four_cycle();
    for (size, count) in &SIZES {
        let heap = Refusing::counting(rt.alloc(), 0, *size);
        let is_answered = columns(&heap, case.n, case.a_p, case.a_i, case.p, 7).is_ok();
        assert!(rt;
            is_answered && heap.of_size() == *count,
            "{size} bytes: {}",
            heap.of_size()
        );
    }
}

/// Asks for a factor that there is not, and says whether that was answered.
fn meets_fault(
    rt: &impl Abort,
    heap: &Refusing<Global>,
    p: &[i64],
    room: usize,
    want: &Fault,
) -> bool {
    let case = four_cycle();
    let Err(fault) = columns(heap, case.n, case.a_p, case.a_i, p, room) else {
        panic!(rt; "a factor");
    };
    check!(rt; fault == *want || fault == Fault::OutOfMemory);
    fault == *want
}

/// Memory that was needed to decide a fault, and was refused, takes its place.
#[test]
fn each_request_before_a_fault(rt: HostRuntime) {
    for (p, room, want) in [
        ([3, 0, 1, 1], 5, Fault::NotPermutation),
        ([3, 0, 1, 2], 4, Fault::RoomTooSmall),
    ] {
        let refusals = each_refused(rt.alloc(), |heap| meets_fault(&rt, heap, &p, room, &want));
        check!(&rt; matches!(refusals, Ok(1..)), "a fault");
    }
}

/// Analyzes a four-cycle, and says whether there was an answer.
fn analyzes(rt: &impl Abort, heap: &Refusing<Global>) -> bool {
    let case = four_cycle();
    match analyze(heap, case.n, case.a_p, case.a_i, &Control::default()) {
        Ok((p, _, info, factor)) => {
            check!(rt; p.as_slice() == case.p && info.lnz == 5);
            is_answer(rt, case, Ok(factor))
        }
        Err(fault) => is_answer::<&Refusing<Global>>(rt, case, Err(fault)),
    }
}

/// A four-cycle with row 0 held last, and the factor under the order that it is given.
static HELD: FactorCase<'static> = FactorCase {
    what: "a four-cycle, one row held",
    n: 4,
    a_p: &[0, 2, 3, 4, 4],
    a_i: &[1, 3, 2, 3],
    p: &[3, 1, 2, 0],
    room: 5,
    ptr: &[0, 2, 4, 5, 5],
    rows: &[2, 3, 2, 3, 3],
    parent: &[Some(2), Some(2), Some(3), None],
};

/// Analyzes it, and says whether there was an answer.
fn analyzes_holding(rt: &impl Abort, heap: &Refusing<Global>) -> bool {
    let hold = [true, false, false, false];
    let control = Control::default();
    match analyze_holding(heap, HELD.n, HELD.a_p, HELD.a_i, &control, &hold) {
        Ok((p, _, info, factor)) => {
            check!(rt; p.as_slice() == HELD.p && info.n_dense == 1);
            is_answer(rt, &HELD, Ok(factor))
        }
        Err(fault) => is_answer::<&Refusing<Global>>(rt, &HELD, Err(fault)),
    }
}

/// The 13 requests before those for the columns are those of `order`.
#[test]
fn each_request_of_the_analyses(rt: HostRuntime) {
    let analyzing = each_refused(rt.alloc(), |heap| analyzes(&rt, heap));
    check!(&rt; analyzing == Ok(13 + REQUESTS));
    let holding = each_refused(rt.alloc(), |heap| analyzes_holding(&rt, heap));
    check!(&rt; holding == Ok(13 + REQUESTS));
}
