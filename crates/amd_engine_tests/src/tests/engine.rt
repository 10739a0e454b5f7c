// The plain engine by itself: refused memory, and nothing left behind. The answer is that of the crate `amd` for these
// five rows.

use crate::tests::sorted::degrees_of;
use amd_plain::plain::plain_1;
use amd_testing::check;
use amd_testing::refusing::{Refusing, each_refused};
use amd_types::amd::{Control, Info, Status};
use std::alloc::Global;
use std::process::Abort;

/// An order of rows and its inverse, with memory that may be refused.
type Outcome<'a> = Result<
    (
        Vec<i64, &'a Refusing<Global>>,
        Vec<i64, &'a Refusing<Global>>,
    ),
    Status,
>;

/// Whether there is an answer, which must be the one that is wanted.
fn is_answered(rt: &impl Abort, outcome: &Outcome, wanted: (&[i64], &[i64])) -> bool {
    match outcome {
        Ok((p, p_inv)) => {
            check!(rt; p.as_slice() == wanted.0 && p_inv.as_slice() == wanted.1);
            true
        }
        Err(status) => {
            check!(rt; *status == Status::OutOfMemory);
            false
        }
    }
}

/// Orders a sorted matrix, whose degrees are counted with memory of their own, and says whether there was an answer,
/// which must be the one that is wanted.
fn orders(
    rt: &impl Abort,
    heap: &Refusing<Global>,
    alloc: Global,
    n: i64,
    a_p: &[i64],
    a_i: &[i64],
    wanted: (&[i64], &[i64]),
) -> bool {
    let mut info = Info::new(0);
    let (degrees, _) = degrees_of(rt, alloc, n, a_p, a_i, 0, &mut info);
    let control = Control::default();
    let outcome = plain_1(heap, n, a_p, a_i, &degrees, &control, None, &mut info);
    is_answered(rt, &outcome, wanted)
}

/// The five rows of the demo.
#[test]
fn each_request_of_the_plain_engine(rt: HostRuntime) {
    let a_p = [0, 2, 6, 10, 12, 14].as_slice();
    let a_i = [0, 1, 0, 1, 2, 4, 1, 2, 3, 4, 2, 3, 1, 4].as_slice();
    let wanted = ([0, 3, 2, 4, 1].as_slice(), [0, 4, 2, 1, 3].as_slice());
    let heap = rt.alloc();
    let refusals = each_refused(
        heap,
        |refusing| orders(&rt, refusing, heap, 5, a_p, a_i, wanted),
    );
    check!(&rt; 0 < refusals.unwrap_or(0));
}
