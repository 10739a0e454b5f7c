// The helpers of `amd_testing`, on which other tests stand: an allocator that refuses a request, writers with faults,
// and the definitions of an input and of a factor in their plain form. The columns, sums and thresholds were worked by
// hand.

use amd_testing::check;
use amd_testing::factors::{SearchedFactor, SearchedNeed, factor_of, fills_nothing, need_of};
use amd_testing::plain::{are_inverse, clean_transpose, is_column_form, is_jumbled, threshold};
use amd_testing::refusing::{Refusing, Slip, each_refused};
use amd_testing::writers::{Faulty, Slow, WriterFault};
use std::alloc::{AllocError, Allocator, Global};
use std::io;
use std::io::Write;
use std::mem::forget;
use std::process::Abort;
use std::test::Fail;

/// Asserts that a factor has these columns.
fn check_columns(rt: &impl Abort, factor: &SearchedFactor, columns: &[&[usize]]) {
    check!(rt; factor.columns.len() == columns.len());
    for (column, want) in factor.columns.iter().zip(columns) {
        check!(rt; column.as_slice() == *want);
    }
}

#[test]
fn a_four_cycle_fills_in(rt: HostRuntime) -> Result<(), Fail> {
    let factor = factor_of(rt.alloc(), &[0, 2, 3, 4, 4], &[1, 3, 2, 3], &[3, 0, 1, 2])?;
    check_columns(&rt, &factor, &[&[1, 3], &[2, 3], &[3], &[]]);
    check!(&rt; !fills_nothing(&factor));
    let need = SearchedNeed {
        lnz: 5,
        n_mult_subs_ldl: 7,
        n_mult_subs_lu: 9,
        d_max: 3,
    };
    check!(&rt; need_of(&factor.columns) == need);
    Ok(())
}

#[test]
fn five_rows_do_not_fill_in(rt: HostRuntime) -> Result<(), Fail> {
    let a_p = [0, 2, 6, 10, 12, 14];
    let a_i = [0, 1, 0, 1, 2, 4, 1, 2, 3, 4, 2, 3, 1, 4];
    let factor = factor_of(rt.alloc(), &a_p, &a_i, &[0, 3, 2, 4, 1])?;
    check_columns(&rt, &factor, &[&[4], &[2], &[3, 4], &[4], &[]]);
    check!(&rt; fills_nothing(&factor));
    Ok(())
}

#[test]
fn no_rows_need_nothing(rt: HostRuntime) -> Result<(), Fail> {
    let factor = factor_of(rt.alloc(), &[], &[], &[])?;
    check_columns(&rt, &factor, &[]);
    check!(&rt; fills_nothing(&factor));
    check!(&rt; need_of(&factor.columns).d_max == 0);
    Ok(())
}

/// Parameters in thousandths, numbers of rows, and thresholds: by `(1000 d)^2 <= t^2 n`, where `t` is not negative.
static THRESHOLDS: [(i32, usize, usize); 11] = [
    (10000, 1, 1),
    (-1, 1, 1),
    (-1, 17, 16),
    (-1, 18, 16),
    (-1, 19, 17),
    (4006, 18, 16),
    (4007, 18, 17),
    (1160, 625, 29),
    (8200, 225, 123),
    (i32::MIN, 40, 38),
    (i32::MAX, 40, 40),
];

#[test]
fn thresholds(rt: HostRuntime) {
    for &(t, n, want) in &THRESHOLDS {
        assert!(rt; threshold(t, n) == want, "{t} {n}");
    }
}

#[test]
fn jumbled_columns(rt: HostRuntime) -> Result<(), Fail> {
    let a_p = [0, 3, 3, 4];
    let a_i = [2, 0, 2, 1];
    check!(&rt; is_column_form(3, 3, &a_p, &a_i) && is_jumbled(3, &a_p, &a_i));
    let (pointers, columns) = clean_transpose(rt.alloc(), 3, &a_p, &a_i)?;
    check!(&rt; pointers.as_slice() == [0, 1, 2, 3].as_slice());
    check!(&rt; columns.as_slice() == [0, 2, 0].as_slice());
    check!(&rt; are_inverse(3, &[1, 2, 0], &[2, 0, 1]));
    check!(&rt; !are_inverse(3, &[1, 2, 0], &[1, 2, 0]));
    Ok(())
}

/// Makes three lists of one number, each of which asks once.
fn three_lists<A: Allocator + Copy>(alloc: A) -> Result<usize, AllocError> {
    let first = Vec::<u8, A>::with_capacity(alloc, 1)?;
    let second = Vec::<u8, A>::with_capacity(alloc, 1)?;
    let third = Vec::<u8, A>::with_capacity(alloc, 1)?;
    Ok(
        first
            .capacity()
            .min(second.capacity())
            .min(third.capacity()),
    )
}

/// Asserts what is refused and counted where this request of three is refused.
fn check_counts(rt: &impl Abort, alloc: Global, refuse_at: u64, fails: bool, counts: [u64; 3]) {
    let heap = Refusing::new(alloc, refuse_at);
    let is_refused = three_lists(&heap).is_err();
    check!(rt; is_refused == fails && heap.refused() == fails);
    check!(rt; [heap.requests(), heap.granted(), heap.released()] == counts);
}

#[test]
fn refuses_the_chosen_request(rt: HostRuntime) {
    for (refuse_at, fails, counts) in [
        (0, false, [3, 3, 3]),
        (1, true, [1, 0, 0]),
        (2, true, [2, 1, 1]),
        (3, true, [3, 2, 2]),
        (4, false, [3, 3, 3]),
    ] {
        check_counts(&rt, rt.alloc(), refuse_at, fails, counts);
    }
}

/// What a call does: all that it should, or it hides that a request was refused, gives up, or forgets a list.
#[derive(Clone, Copy, Drop)]
enum Deed {
    Fair,
    Hides,
    GivesUp,
    Forgets,
}

/// Makes one list that is never given back.
fn forget_list(heap: &Refusing<Global>) -> bool {
    let Ok(list) = Vec::<u8, _>::with_capacity(heap, 1) else {
        return false;
    };
    forget(list);
    true
}

/// Makes three lists, and says whether there was a result.
fn has_result(deed: Deed, heap: &Refusing<Global>) -> bool {
    match deed {
        Deed::Fair => three_lists(heap).is_ok(),
        Deed::Hides => three_lists(heap).is_ok() || heap.refused(),
        Deed::GivesUp => false,
        Deed::Forgets => forget_list(heap) && three_lists(heap).is_ok(),
    }
}

/// What is noticed of a call with each of its requests refused in turn.
fn noticed(alloc: Global, deed: Deed) -> Result<u64, Slip> {
    each_refused(alloc, |heap| has_result(deed, heap))
}

#[test]
fn notices_what_a_call_does_wrong(rt: HostRuntime) {
    check!(&rt; noticed(rt.alloc(), Deed::Fair) == Ok(3));
    check!(&rt; noticed(rt.alloc(), Deed::Hides) == Err(Slip::Answered(1)));
    check!(&rt; noticed(rt.alloc(), Deed::GivesUp) == Err(Slip::Unanswered(1)));
    check!(&rt; noticed(rt.alloc(), Deed::Forgets) == Err(Slip::Unbalanced(2)));
}

/// Writes three words.
fn three_words<W: Write>(out: &mut W) -> io::Result<()> {
    for word in [b"one".as_slice(), b"two", b"three"] {
        out.write_all(word)?;
    }
    Ok(())
}

/// Asserts how many calls a writer with a fault gets, what it takes, and that the fault is told where it comes.
fn check_fault(
    rt: &impl Abort,
    alloc: Global,
    fault: WriterFault,
    fault_at: u64,
    calls: u64,
    text: &[u8],
) {
    let mut out = Faulty::new(Vec::new(alloc), fault, fault_at);
    let fails = three_words(&mut out).is_err();
    check!(rt; fails == (out.faults() == 1) && out.calls() == calls && out.bytes() == text);
}

#[test]
fn has_its_fault_at_the_chosen_call(rt: HostRuntime) {
    for fault in [WriterFault::Fails, WriterFault::TakesNothing] {
        for (fault_at, calls, text) in [
            (0, 3, b"onetwothree".as_slice()),
            (1, 1, b""),
            (2, 2, b"one"),
            (3, 3, b"onetwo"),
            (4, 3, b"onetwothree"),
        ] {
            check_fault(&rt, rt.alloc(), fault, fault_at, calls, text);
        }
    }
}

/// The rest of a word of which one byte was taken is written by one call more.
#[test]
fn takes_one_byte_at_the_chosen_call(rt: HostRuntime) {
    for (fault_at, calls, faults) in [(0, 3, 0), (1, 4, 1), (2, 4, 1), (3, 4, 1), (4, 3, 0)] {
        let mut out = Faulty::new(Vec::new(rt.alloc()), WriterFault::TakesOne, fault_at);
        let is_written = three_words(&mut out).is_ok();
        check!(&rt; is_written && out.bytes() == b"onetwothree".as_slice());
        check!(&rt; out.calls() == calls && out.faults() == faults);
    }
}

#[test]
fn takes_all_in_the_end(rt: HostRuntime) {
    let mut out = Slow::new(Vec::new(rt.alloc()));
    check!(&rt; three_words(&mut out).is_ok());
    check!(&rt; out.bytes() == b"onetwothree".as_slice());
}
