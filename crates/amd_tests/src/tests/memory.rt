// Refused memory: each request in turn is refused, until a run makes no request of that number. Each run that met a
// refusal answers `OutOfMemory`, and the first one without gives the answer. After each of them as many blocks came
// back as were granted. How many requests there are does not depend on the number of rounds.

use crate::tests::small_matrices::matrices;
use crate::tests::worked::{DENSE_ROW, OrderingCase, check_answer, with_dense};
use amd::aat::aat;
use amd::preprocess::preprocess;
use amd::valid::valid;
use amd::{Control, Info, Status, order, order_holding, order_into, order_into_narrow};
use amd_testing::check;
use amd_testing::choices::CHOICES;
use amd_testing::inputs::path;
use amd_testing::records::numbers_of;
use amd_testing::refusing::{Refusing, Slip, each_refused};
use std::alloc::{AllocError, Allocator, Global};
use std::process::Abort;
use std::test::Fail;

/// Asserts that some requests were refused, and that no run did wrong.
pub fn check_refusals(rt: &impl Abort, what: &str, refusals: Result<u64, Slip>) {
    match refusals {
        Ok(count) => check!(rt; 0 < count, what),
        Err(slip) => panic!(rt; "{what}: {slip:?}"),
    }
}

/// Asserts that an answer is that of a case, or that memory was refused, and says whether it is the former.
pub fn is_answer<A: Allocator>(
    rt: &impl Abort,
    case: &OrderingCase,
    answer: Result<(Vec<i64, A>, Vec<i64, A>, Info), Status>,
) -> bool {
    match answer {
        Ok((p, p_inv, info)) => {
            check_answer(rt, case, &p, &p_inv, &info);
            true
        }
        Err(status) => {
            check!(rt; status == Status::OutOfMemory);
            false
        }
    }
}

/// Orders, and says whether there was an answer, which must be that of the case.
fn orders(
    rt: &impl Abort,
    heap: &Refusing<Global>,
    control: &Control,
    case: &OrderingCase,
) -> bool {
    let answer = order(heap, case.n, case.a_p, case.a_i, control);
    is_answer(rt, case, answer)
}

/// Marks that hold no row.
static NONE: [bool; 20] = [false; 20];

/// The same with marks that hold no row.
fn orders_holding_none(
    rt: &impl Abort,
    heap: &Refusing<Global>,
    control: &Control,
    case: &OrderingCase,
) -> bool {
    let hold = NONE.get(..case.p.len()).unwrap_or(&[]);
    let answer = order_holding(heap, case.n, case.a_p, case.a_i, control, hold);
    is_answer(rt, case, answer)
}

/// What stands in lists of a caller that nothing was written to.
const UNTOUCHED: i64 = -7;

/// The same into lists of the caller, which are as before where there is no answer.
fn orders_into(
    rt: &impl Abort,
    heap: &Refusing<Global>,
    control: &Control,
    case: &OrderingCase,
) -> bool {
    let (mut p, mut p_inv) = ([UNTOUCHED; 20], [UNTOUCHED; 20]);
    let (Some(rows), Some(places)) = (p.get_mut(..case.p.len()), p_inv.get_mut(..case.p.len()))
    else {
        return false;
    };
    match order_into(
        heap, case.n, case.a_p, case.a_i, control, None, rows, places,
    ) {
        Ok(info) => {
            check_answer(rt, case, rows, places, &info);
            true
        }
        Err(status) => {
            check!(rt; status == Status::OutOfMemory);
            check!(rt; p == [UNTOUCHED; 20] && p_inv == [UNTOUCHED; 20]);
            false
        }
    }
}

/// Asserts that so many requests were refused, and that no run did wrong.
pub fn check_requests(rt: &impl Abort, what: &str, refusals: Result<u64, Slip>, wanted: u64) {
    match refusals {
        Ok(count) => assert!(rt; count == wanted, "{what}: {count} requests"),
        Err(slip) => panic!(rt; "{what}: {slip:?}"),
    }
}

/// The number of requests of `order`: a block that is given back at once; eight lists with a place for each row, and
/// the buckets; the words of the lists; and two for the result. A jumbled matrix takes two more for its transpose.
fn requests_of(case: &OrderingCase) -> u64 {
    if case.jumbled { 15 } else { 13 }
}

/// Orders with each request refused in turn, again with marks that hold no row, and into lists of the caller, which
/// takes two requests less.
fn check_order(rt: &impl Abort, alloc: Global, control: &Control, case: &OrderingCase) {
    let wanted = requests_of(case);
    let refusals = each_refused(alloc, |heap| orders(rt, heap, control, case));
    check_requests(rt, case.what, refusals, wanted);
    let holding = each_refused(alloc, |heap| orders_holding_none(rt, heap, control, case));
    check_requests(rt, case.what, holding, wanted);
    let into = each_refused(alloc, |heap| orders_into(rt, heap, control, case));
    check_requests(rt, case.what, into, wanted.saturating_sub(2));
}

/// The inputs are shared references, so no run can change them.
#[test]
fn each_request_of_order(rt: HostRuntime) {
    for case in matrices() {
        check_order(&rt, rt.alloc(), &Control::default(), case);
    }
    check_order(&rt, rt.alloc(), &with_dense(0), &DENSE_ROW);
}

/// What stands in lists of 32 bits that nothing was written to.
const UNTOUCHED_NARROW: [i32; 5] = [-7; 5];

/// Orders a matrix with five rows in 32 bits into lists of the caller, which are as before where there is no answer,
/// and says whether there was one.
fn orders_narrow(rt: &impl Abort, heap: &Refusing<Global>, a_i: &[i32; 14]) -> bool {
    let (mut p, mut p_inv) = (UNTOUCHED_NARROW, UNTOUCHED_NARROW);
    let a_p = [0, 2, 6, 10, 12, 14];
    let control = Control::default();
    match order_into_narrow(heap, 5, &a_p, a_i, &control, None, &mut p, &mut p_inv) {
        Ok(info) => {
            check!(rt; p == [0, 3, 2, 4, 1] && p_inv == [0, 4, 2, 1, 3] && info.lnz == 5);
            true
        }
        Err(status) => {
            check!(rt; status == Status::OutOfMemory);
            check!(rt; p == UNTOUCHED_NARROW && p_inv == UNTOUCHED_NARROW);
            false
        }
    }
}

/// In 32 bits the places of the permutation and its inverse serve as lists: four requests less than those of `order`,
/// also where the columns are jumbled.
#[test]
fn each_request_in_32_bits(rt: HostRuntime) {
    let sorted = [0, 1, 0, 1, 2, 4, 1, 2, 3, 4, 2, 3, 1, 4];
    let refusals = each_refused(rt.alloc(), |heap| orders_narrow(&rt, heap, &sorted));
    check_requests(&rt, "sorted", refusals, 9);
    let jumbled = [1, 0, 4, 1, 2, 0, 1, 2, 3, 4, 2, 3, 1, 4];
    let refusals = each_refused(rt.alloc(), |heap| orders_narrow(&rt, heap, &jumbled));
    check_requests(&rt, "jumbled", refusals, 11);
}

/// A matrix, and how many requests of each size in bytes its ordering makes.
#[derive(Drop)]
struct Sizes<'a> {
    n: i64,
    a_p: &'a [i64],
    a_i: &'a [i64],
    sizes: [(usize, u64); 5],
}

/// Seven lists have 4 bytes for each row and three have 8, of which two are the result. The words of the lists have 4
/// bytes each, and are the sum of the degrees, a fifth of it, and the number of rows. One bucket has 4 bytes. The block
/// that is given back at once has so many words for the entries in the place of the degrees, and 9 for each row.
static SIZES: [Sizes<'static>; 2] = [
    // 8 + 1 + 4 words, 4 + 0 + 4 for the entries
    Sizes {
        n: 4,
        a_p: &[0, 2, 3, 4, 4],
        a_i: &[1, 3, 2, 3],
        sizes: [(16, 7), (32, 3), (4 * 13, 1), (4, 1), (4 * (8 + 36), 1)],
    },
    // 10 + 2 + 5 words, 14 + 2 + 5 for the entries
    Sizes {
        n: 5,
        a_p: &[0, 2, 6, 10, 12, 14],
        a_i: &[0, 1, 0, 1, 2, 4, 1, 2, 3, 4, 2, 3, 1, 4],
        sizes: [(20, 7), (40, 3), (4 * 17, 1), (4, 1), (4 * (21 + 45), 1)],
    },
];

/// Asserts that so many requests of this size are made for a matrix.
fn check_size(rt: &impl Abort, alloc: Global, matrix: &Sizes, size: usize, count: u64) {
    let heap = Refusing::counting(alloc, 0, size);
    let is_answered = order(&heap, matrix.n, matrix.a_p, matrix.a_i, &Control::default()).is_ok();
    assert!(rt;
        is_answered && heap.of_size() == count,
        "{size} bytes: {}",
        heap.of_size()
    );
}

#[test]
fn sizes_of_the_requests_of_order(rt: HostRuntime) {
    for matrix in &SIZES {
        for (size, count) in &matrix.sizes {
            check_size(&rt, rt.alloc(), matrix, *size, *count);
        }
    }
}

/// Lists of a caller that have not one place for each row are refused before any request.
#[test]
fn lists_of_the_wrong_length(rt: HostRuntime) {
    let heap = Refusing::new(rt.alloc(), 0);
    let (mut p, mut p_inv) = ([UNTOUCHED; 2], [UNTOUCHED; 3]);
    let control = Control::default();
    let refused = order_into(
        &heap,
        2,
        &[0, 1, 2],
        &[1, 0],
        &control,
        None,
        &mut p,
        &mut p_inv,
    );
    check!(&rt; refused.err() == Some(Status::Invalid) && heap.requests() == 0);
    check!(&rt; p == [UNTOUCHED; 2] && p_inv == [UNTOUCHED; 3]);
}

/// The number of requests of `order` for a path, whose rounds are nearly as many as its rows.
fn requests_for_path(
    rt: &impl Abort,
    alloc: Global,
    n: i64,
    control: &Control,
) -> Result<u64, AllocError> {
    let (a_p, a_i) = path(alloc, n)?;
    let heap = Refusing::new(alloc, 0);
    let is_answered = order(&heap, n, &a_p, &a_i, control).is_ok();
    assert!(rt; is_answered && heap.granted() == heap.released(), "{n}");
    Ok(heap.requests())
}

#[test]
fn rounds_ask_for_no_memory(rt: HostRuntime) -> Result<(), Fail> {
    for control in &CHOICES {
        let requests = requests_for_path(&rt, rt.alloc(), 10, control)?;
        for n in [11, 30, 100, 300, 1000] {
            assert!(rt;
                requests_for_path(&rt, rt.alloc(), n, control)? == requests,
                "{n}"
            );
        }
    }
    Ok(())
}

/// The status with which `order` refuses an input, if it does.
fn refusal_of(heap: &Refusing<Global>, n: i64, a_p: &[i64], a_i: &[i64]) -> Option<Status> {
    order(heap, n, a_p, a_i, &Control::default()).err()
}

/// Inputs without rows, and inputs that are no column form, with the status of the refusal.
static WITHOUT_REQUESTS: [(i64, &[i64], &[i64], Option<Status>); 9] = [
    (0, &[], &[], None),
    (0, &[7], &[], None),
    (2, &[0, 2, 1], &[0, 1], Some(Status::Invalid)),
    (1, &[1, 1], &[0], Some(Status::Invalid)),
    (1, &[0, 1], &[1], Some(Status::Invalid)),
    (-1, &[0], &[], Some(Status::Invalid)),
    (2, &[0, 1], &[0], Some(Status::Invalid)),
    (2, &[0, 1, 3], &[0, 1], Some(Status::Invalid)),
    (2, &[0, 2, 3], &[1, 0, 5], Some(Status::Invalid)),
];

#[test]
fn calls_that_ask_no_memory(rt: HostRuntime) {
    let heap = Refusing::new(rt.alloc(), 1);
    for (n, a_p, a_i, wanted) in &WITHOUT_REQUESTS {
        assert!(rt; refusal_of(&heap, *n, a_p, a_i) == *wanted, "{n} {a_p:?}");
    }
    check!(&rt; heap.requests() == 0);
}

/// Transposes, and says whether there was an answer.
fn transposes(rt: &impl Abort, heap: &Refusing<Global>) -> bool {
    let a_p = [0i64, 3, 3, 4];
    let a_i = [2, 0, 2, 1];
    let Status::OkButJumbled = valid(3, 3, &a_p, &a_i) else {
        panic!(rt; "not jumbled");
    };
    match preprocess(heap, 3, &a_p, &a_i) {
        Ok((pointers, columns)) => {
            check!(rt; pointers.as_slice() == [0, 1, 2, 3].as_slice());
            check!(rt; columns.as_slice() == [0, 2, 0].as_slice());
            true
        }
        Err(status) => {
            check!(rt; status == Status::OutOfMemory);
            false
        }
    }
}

/// Builds the five rows of the demo and a choice, and orders them: each refused request becomes a status by `?`.
fn built<A: Allocator + Copy>(alloc: A) -> Result<(Vec<i64, A>, Vec<i64, A>, Info), Status> {
    let mut a_p = Vec::new(alloc);
    for pointer in [0, 2, 6, 10, 12, 14] {
        a_p.push(pointer)?;
    }
    let a_i = vec![in alloc; 0, 1, 0, 1, 2, 4, 1, 2, 3, 4, 2, 3, 1, 4]?;
    let control = Box::new(alloc, Control::default())?;
    order(alloc, 5, &a_p, &a_i, &control)
}

/// Builds and orders, and says whether there was an answer.
fn builds(rt: &impl Abort, heap: &Refusing<Global>) -> bool {
    match built(heap) {
        Ok((p, _, _)) => {
            check!(rt; p.as_slice() == [0, 3, 2, 4, 1].as_slice());
            true
        }
        Err(status) => {
            check!(rt; status == Status::OutOfMemory);
            false
        }
    }
}

#[test]
fn each_request_of_a_caller(rt: HostRuntime) {
    let refusals = each_refused(rt.alloc(), |heap| builds(&rt, heap));
    check_refusals(&rt, "a matrix that is built and ordered", refusals);
}

/// A record in which each number is another one.
fn filled_info() -> Info {
    Info {
        status: Status::OkButJumbled,
        n: 101,
        nz: 102,
        symmetry: true,
        nz_diag: 103,
        nz_a_plus_at: 104,
        n_dense: 105,
        n_cmp_a: 106,
        lnz: 107,
        n_div: 108,
        n_mult_subs_ldl: 109,
        n_mult_subs_lu: 110,
        d_max: 111,
    }
}

/// Counts the edges, and says whether there was an answer.
fn counts(rt: &impl Abort, heap: &Refusing<Global>) -> bool {
    let a_p = [0i64, 2, 6, 10, 12, 14];
    let a_i = [0, 1, 0, 1, 2, 4, 1, 2, 3, 4, 2, 3, 1, 4];
    let mut info = filled_info();
    let Status::OK = valid(5, 5, &a_p, &a_i) else {
        panic!(rt; "not sorted");
    };
    let outcome = aat(heap, 5, &a_p, &a_i, &mut info);
    check!(rt; info.status == Status::OkButJumbled);
    match outcome {
        Ok((total, degrees)) => {
            let numbers = [5, 14, 5, 10, 105, 106, 107, 108, 109, 110, 111];
            check!(rt; total == 10 && degrees.as_slice() == [1, 3, 3, 1, 2].as_slice());
            check!(rt; numbers_of(&info) == numbers && !info.symmetry);
            true
        }
        Err(status) => {
            check!(rt; status == Status::OutOfMemory);
            check!(rt; numbers_of(&info) == numbers_of(&filled_info()) && info.symmetry);
            false
        }
    }
}

#[test]
fn each_request_of_the_inner_calls(rt: HostRuntime) {
    let transposing = each_refused(rt.alloc(), |heap| transposes(&rt, heap));
    check_refusals(&rt, "preprocess", transposing);
    let counting = each_refused(rt.alloc(), |heap| counts(&rt, heap));
    check_refusals(&rt, "aat", counting);
}
