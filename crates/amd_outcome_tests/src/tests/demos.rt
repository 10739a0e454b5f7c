// The demos, over writers that keep what they take: whole texts, matrices of the other kind and matrices that are none,
// refused memory, and writers with faults.

ghost use Rattle.std.specs.Prelude.{◌<◌};

use crate::tests::demo_texts::{ORDER, SIMPLE, STATISTICS};
use crate::tests::jumbled_texts::JUMBLED;
use amd::{Control, order};
use amd_demos::can_24::{JUMBLED_POINTERS, JUMBLED_ROWS, POINTERS, ROWS};
use amd_demos::demo::{Form, demo_to};
use amd_demos::jumbled::jumbled_to;
use amd_demos::matrix::DemoMatrix;
use amd_demos::order::order_to;
use amd_demos::simple::simple_to;
use amd_testing::check;
use amd_testing::refusing::Refusing;
use amd_testing::writers::{Faulty, Slow, WriterFault};
use std::alloc::{AllocError, Allocator, Global};
use std::io::Write;
use std::process::Abort;
use std::test::Fail;

/// More calls than a demo makes to its writer.
const MANY: u64 = 5000;

/// More bytes than a demo writes.
const ROOM: usize = 9000;

/// The line where there is no ordering.
const FAILED: &str = "AMD failed\n";

/// A demo without its allocator and writer.
#[derive(Clone, Copy, Debug)]
enum Demo {
    Simple,
    Order,
    Jumbled,
}

/// Runs a demo.
fn run<W: Write, A: Allocator + Copy>(demo: Demo, alloc: A, out: &mut W) -> u8 {
    match demo {
        Demo::Simple => {
            let a_i = [0, 1, 0, 1, 2, 4, 1, 2, 3, 4, 2, 3, 1, 4];
            simple_to(alloc, 5, &[0, 2, 6, 10, 12, 14], &a_i, out)
        }
        Demo::Order => order_to(alloc, out),
        Demo::Jumbled => jumbled_to(alloc, out),
    }
}

/// The parts of a text, one after the other.
fn joined(alloc: Global, parts: &[&str]) -> Result<Vec<u8>, AllocError> {
    let mut text = Vec::new(alloc);
    for part in parts {
        text.extend_from_slice(part.as_bytes())?;
    }
    Ok(text)
}

/// What a demo writes.
fn text_of(alloc: Global, demo: Demo) -> Result<Vec<u8>, AllocError> {
    match demo {
        Demo::Simple => joined(alloc, &SIMPLE),
        Demo::Order => joined(alloc, &ORDER),
        Demo::Jumbled => joined(alloc, &JUMBLED),
    }
}

#[test]
fn whole_texts(rt: HostRuntime) -> Result<(), Fail> {
    for demo in [Demo::Simple, Demo::Order, Demo::Jumbled] {
        let mut out = Slow::new(Vec::new(rt.alloc()));
        let status = run(demo, rt.alloc(), &mut out);
        let text = text_of(rt.alloc(), demo)?;
        assert!(rt; status == 0 && out.bytes() == text.as_slice(), "{demo:?}");
    }
    Ok(())
}

#[test]
fn small_matrices_without_an_ordering(rt: HostRuntime) {
    let a_i = [0, 1, 0, 1, 2, 4, 1, 2, 3, 4, 2, 3, 1, 4];
    for (n, a_p, refuse_at) in [
        // The last pointer is past the end.
        (5, [0, 2, 6, 10, 12, 15], 0),
        // The third column is jumbled.
        (5, [0, 2, 4, 10, 12, 14], 0),
        (5, [0, 2, 6, 10, 12, 14], 1),
        (-5, [0, 2, 6, 10, 12, 14], 0),
    ] {
        let mut out = Vec::new(rt.alloc());
        let heap = Refusing::new(rt.alloc(), refuse_at);
        let status = simple_to(&heap, n, &a_p, &a_i, &mut out);
        assert!(rt;
            status == 1 && out.as_slice() == FAILED.as_bytes(),
            "{a_p:?}"
        );
    }
}

#[test]
fn no_rows(rt: HostRuntime) {
    let mut out = Vec::new(rt.alloc());
    let heap = Refusing::new(rt.alloc(), 1);
    check!(&rt; simple_to(&heap, 0, &[7], &[], &mut out) == 0);
    check!(&rt; out.starts_with(b"P = []\nPInv = []\n\nAMD results:\n"));
}

/// Runs a demo with a refused request and a writer over an array, and asserts that these parts alone are written, that
/// the line of failure stands in the place of the others, and that nothing is left. Returns whether there was such a
/// request.
fn check_refused(
    rt: &impl Abort,
    alloc: Global,
    demo: Demo,
    parts: &[&str],
    refuse_at: u64,
) -> Result<bool, AllocError> {
    let mut array = [0; ROOM];
    let mut rest = array.as_mut_slice();
    let heap = Refusing::new(alloc, refuse_at);
    let status = run(demo, &heap, &mut rest);
    let taken = ROOM.saturating_sub(rest.len());
    let mut text = joined(alloc, parts)?;
    text.extend_from_slice(FAILED.as_bytes())?;
    let is_told = if heap.refused() {
        status == 1 && array.get(..taken) == Some(text.as_slice())
    } else {
        status == 0
    };
    assert!(rt;
        is_told && heap.granted() == heap.released(),
        "{demo:?} at {refuse_at}"
    );
    Ok(heap.refused())
}

/// Runs a demo with each request refused in turn, from the number `first` on and before `end`, until a run meets no
/// refusal. Returns the number of the last request that was refused, or 0.
fn check_requests(
    rt: &impl Abort,
    alloc: Global,
    demo: Demo,
    parts: &[&str],
    first: u64,
    end: u64,
) -> Result<u64, AllocError> {
    let mut refused = 0;
    for refuse_at in first..end {
        if !check_refused(rt, alloc, demo, parts, refuse_at)? {
            break;
        }
        refused = refuse_at;
    }
    Ok(refused)
}

#[test]
fn each_request(rt: HostRuntime) -> Result<(), Fail> {
    let [size, columns, heading, plot, ..] = JUMBLED;
    for (demo, input) in [
        (Demo::Simple, [].as_slice()),
        (Demo::Jumbled, &[size, columns, heading, plot]),
    ] {
        let refused = check_requests(&rt, rt.alloc(), demo, input, 1, MANY)?;
        assert!(rt; 0 < refused && refused < MANY - 1, "{demo:?}");
    }
    Ok(())
}

/// How many requests the ordering of the matrix can_24 makes.
fn requests_of_ordering(rt: &impl Abort, alloc: Global) -> u64 {
    let heap = Refusing::new(alloc, 0);
    let answer = order(&heap, 24i32, &POINTERS, &ROWS, &Control::default());
    check!(rt; answer.is_ok());
    heap.requests()
}

/// Memory that is refused for the ordering leaves the input alone, and memory that is refused for the factor all but
/// the factor.
#[test]
fn each_request_of_ordering_and_factor(rt: HostRuntime) -> Result<(), Fail> {
    let ordering = requests_of_ordering(&rt, rt.alloc());
    let behind = ordering.saturating_add(1);
    let refused = check_requests(&rt, rt.alloc(), Demo::Order, &ORDER[..4], 1, behind)?;
    check!(&rt; refused == ordering);
    let refused = check_requests(&rt, rt.alloc(), Demo::Order, &ORDER[..9], behind, MANY)?;
    check!(&rt; ordering < refused && refused < MANY - 1);
    Ok(())
}

#[test]
fn matrices_of_the_other_kind(rt: HostRuntime) -> Result<(), Fail> {
    let sorted = DemoMatrix {
        n: 24,
        a_p: &POINTERS,
        a_i: &ROWS,
    };
    let jumbled = DemoMatrix {
        n: 24,
        a_p: &JUMBLED_POINTERS,
        a_i: &JUMBLED_ROWS,
    };
    let [_, _, _, _, sorted_record, ..] = ORDER;
    let [_, _, _, _, jumbled_record, ..] = JUMBLED;
    for (form, matrix, line, record) in [
        (
            Form::Sorted,
            &jumbled,
            "return value from amd::order: OkButJumbled (should be OK)\n",
            jumbled_record,
        ),
        (
            Form::Jumbled,
            &sorted,
            "return value from amd::order: OK (should be OkButJumbled)\n",
            sorted_record,
        ),
    ] {
        let mut out = Vec::new(rt.alloc());
        let status = demo_to(rt.alloc(), form, matrix, &mut out);
        let Some((_, results)) = record.split_once('\n') else {
            panic!(rt; "no line");
        };
        let end = joined(rt.alloc(), &[line, results, STATISTICS, FAILED])?;
        assert!(rt; status == 1 && out.ends_with(&end), "{line}");
    }
    Ok(())
}

#[test]
fn matrices_that_are_none(rt: HostRuntime) {
    for (n, a_p, a_i) in [
        // The end of the last column is past the end of the rows.
        (24, POINTERS.as_slice(), [0, 1].as_slice()),
        (-1, &[0], &[]),
        (2, &[], &[]),
        (2, &[0], &[0]),
        (2, &[0, -1, 2], &[0, 1]),
        (2, &[0, 2, 1], &[0, 1]),
        (1, &[i32::MIN, i32::MIN], &[]),
        (2, &[0, 1, 2], &[i32::MAX, i32::MIN]),
    ] {
        let matrix = DemoMatrix { n, a_p, a_i };
        for form in [Form::Sorted, Form::Jumbled] {
            let mut out = Vec::new(rt.alloc());
            let heap = Refusing::new(rt.alloc(), 1);
            let status = demo_to(&heap, form, &matrix, &mut out);
            let is_told = out.starts_with(b"AMD demo, with ") && out.ends_with(FAILED.as_bytes());
            assert!(rt; status == 1 && is_told, "{a_p:?}");
        }
    }
}

/// Runs a demo with a fault at one call to its writer, and asserts that nothing is written after it, or, where it is no
/// failure, that all is written. Returns whether that call was made.
fn check_fault(
    rt: &impl Abort,
    alloc: Global,
    demo: Demo,
    fault: WriterFault,
    fault_at: u64,
) -> Result<bool, AllocError> {
    let mut out = Faulty::new(Vec::new(alloc), fault, fault_at);
    let status = run(demo, alloc, &mut out);
    let text = text_of(alloc, demo)?;
    let is_made = out.faults() != 0;
    let is_failure = matches!(fault, WriterFault::Fails | WriterFault::TakesNothing);
    let is_told = if is_made && is_failure {
        status == 1 && out.calls() == fault_at && text.starts_with(out.bytes())
    } else {
        status == 0 && out.bytes() == text.as_slice()
    };
    assert!(rt; is_told, "{demo:?}, {fault:?} at {fault_at}");
    Ok(is_made)
}

/// How many calls to its writer a demo makes.
fn calls_of(alloc: Global, demo: Demo) -> u64 {
    let mut out = Faulty::new(Vec::new(alloc), WriterFault::Fails, 0);
    run(demo, alloc, &mut out);
    out.calls()
}

/// Asserts what a demo does at a fault, with a fault at one call in `step`, and at the last one, and that it meets none
/// after that.
fn check_faults(rt: &impl Abort, alloc: Global, demo: Demo, step: usize) -> Result<(), AllocError>
    requires { 0 < step }
{
    let calls = calls_of(alloc, demo);
    assert!(rt; 0 < calls && calls < MANY, "{demo:?}");
    for fault in [
        WriterFault::Fails,
        WriterFault::TakesNothing,
        WriterFault::TakesOne,
    ] {
        for fault_at in (1..calls).step_by(step) {
            check!(rt; check_fault(rt, alloc, demo, fault, fault_at)?);
        }
        check!(rt; check_fault(rt, alloc, demo, fault, calls)?);
        check!(rt; !check_fault(rt, alloc, demo, fault, calls.saturating_add(1))?);
    }
    Ok(())
}

#[test]
fn writers_with_faults(rt: HostRuntime) -> Result<(), Fail> {
    check_faults(&rt, rt.alloc(), Demo::Simple, 1)?;
    // Each long demo makes some thousand calls to its writer, and each fault costs a run, so that only some calls are
    // tried.
    check_faults(&rt, rt.alloc(), Demo::Order, 499)?;
    check_faults(&rt, rt.alloc(), Demo::Jumbled, 499)?;
    Ok(())
}

/// Runs a demo with its first request refused and a fault at one call to its writer, and returns how many calls it
/// made.
fn calls_without_memory(
    rt: &impl Abort,
    alloc: Global,
    demo: Demo,
    fault: WriterFault,
    fault_at: u64,
) -> u64 {
    let heap = Refusing::new(alloc, 1);
    let mut out = Faulty::new(Vec::new(alloc), fault, fault_at);
    check!(rt; run(demo, &heap, &mut out) == 1);
    out.calls()
}

/// Where there is no ordering, and the line that tells this cannot be written, nothing more is tried.
#[test]
fn failures_that_cannot_be_told(rt: HostRuntime) {
    for demo in [Demo::Simple, Demo::Order, Demo::Jumbled] {
        let last = calls_without_memory(&rt, rt.alloc(), demo, WriterFault::Fails, 0);
        for fault in [WriterFault::Fails, WriterFault::TakesNothing] {
            check!(&rt; calls_without_memory(&rt, rt.alloc(), demo, fault, last) == last);
        }
    }
}
