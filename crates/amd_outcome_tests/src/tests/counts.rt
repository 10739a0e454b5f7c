// The counts of the columns: on worked matrices, with each request refused in turn, and where the input or the order is
// none. And whether counts are those of a factor that searches for paths find.

use crate::tests::orders::no_orders;
use crate::tests::refusals::no_forms;
use crate::tests::worked::{FactorCase, four_cycle, worked};
use amd::Control;
use amd_symbolic::{Counts, Fault, analyze_counts, counts};
use amd_testing::check;
use amd_testing::factors::{SearchedFactor, need_of};
use amd_testing::refusing::{Refusing, each_refused};
use std::alloc::{Allocator, Global};
use std::process::Abort;

/// Whether counts are those of the slow factor: the sizes of its columns, their first entries, and what they need.
pub fn are_counts(counted: &Counts<Global>, slow: &SearchedFactor) -> bool {
    if counted.sizes.len() != slow.columns.len() || counted.parent.len() != slow.columns.len() {
        return false;
    }
    for (k, column) in slow.columns.iter().enumerate() {
        if counted.sizes.get(k) != Some(&column.len())
            || counted.parent.get(k) != Some(&column.first().copied())
        {
            return false;
        }
    }
    let need = need_of(&slow.columns);
    counted.need.lnz == need.lnz as u128
        && counted.need.n_mult_subs_ldl == need.n_mult_subs_ldl as u128
        && counted.need.n_mult_subs_lu == need.n_mult_subs_lu as u128
        && counted.need.d_max == need.d_max as u128
}

/// Asserts that counts are those of a case.
fn check_counts<A: Allocator>(rt: &impl Abort, case: &FactorCase, counted: &Counts<A>) {
    check!(rt; counted.parent.as_slice() == case.parent, case.what);
    let mut end = 0usize;
    for (k, &size) in counted.sizes.iter().enumerate() {
        check!(rt; case.ptr.get(k) == Some(&end), case.what);
        end = end.saturating_add(size);
    }
    check!(rt; case.ptr.last() == Some(&end) && counted.need.lnz == end as u128, case.what);
}

/// Asks for the counts of a case, and says whether there was an answer.
fn asks(rt: &impl Abort, heap: &Refusing<Global>, case: &FactorCase) -> bool {
    match counts(heap, case.n, case.a_p, case.a_i, case.p) {
        Ok(counted) => {
            check_counts(rt, case, &counted);
            true
        }
        Err(fault) => {
            check!(rt; fault == Fault::OutOfMemory);
            false
        }
    }
}

/// No rows need no memory; each other case makes some request.
#[test]
fn each_request_of_counts(rt: HostRuntime) {
    for case in worked() {
        match each_refused(rt.alloc(), |heap| asks(&rt, heap, case)) {
            Ok(count) => check!(&rt; (0 < count) == (0 < case.n), case.what),
            Err(_) => panic!(&rt; "{}", case.what),
        }
    }
}

/// Asks for an ordering and its counts, and says whether there was an answer.
fn analyzes(rt: &impl Abort, heap: &Refusing<Global>, case: &FactorCase) -> bool {
    match analyze_counts(heap, case.n, case.a_p, case.a_i, &Control::default()) {
        Ok((p, _, _, counted)) => {
            check!(rt; p.as_slice() == case.p);
            check_counts(rt, case, &counted);
            true
        }
        Err(fault) => {
            check!(rt; fault == Fault::OutOfMemory);
            false
        }
    }
}

#[test]
fn each_request_of_analyze_counts(rt: HostRuntime) {
    match each_refused(rt.alloc(), |heap| analyzes(&rt, heap, four_cycle())) {
        Ok(count) => check!(&rt; 0 < count),
        Err(_) => panic!(&rt; "a four-cycle"),
    }
}

/// Inputs that are no column form make no request, and neither do no rows.
#[test]
fn inputs_that_have_no_counts(rt: HostRuntime) {
    let heap = Refusing::new(rt.alloc(), 1);
    for &(n, a_p, a_i) in no_forms() {
        let fault = counts(&heap, n, a_p, a_i, &[0, 1]).err();
        check!(&rt; fault == Some(Fault::NotColumnForm));
        let fault = analyze_counts(&heap, n, a_p, a_i, &Control::default()).err();
        check!(&rt; fault == Some(Fault::NotColumnForm));
    }
    let fault = counts(&heap, 0i64, &[], &[], &[0]).err();
    check!(&rt; fault == Some(Fault::NotPermutation));
    check!(&rt; heap.requests() == 0);
}

/// Orders that do not list each row once are told as such.
#[test]
fn orders_that_have_no_counts(rt: HostRuntime) {
    let case = four_cycle();
    for &p in no_orders() {
        let fault = counts(rt.alloc(), case.n, case.a_p, case.a_i, p).err();
        check!(&rt; fault == Some(Fault::NotPermutation));
    }
}
