// The exact factor in a workspace that was made once: what it writes for a matrix that fits, also behind a refusal, and
// which input it refuses. The factor was worked by hand.

use crate::tests::comparison::{UNTOUCHED, are_written};
use crate::tests::worked::four_cycle;
use amd_symbolic::{FactorWorkspace, Refusal, factor_bytes};
use amd_testing::check;
use amd_testing::refusing::{Refusing, each_refused};
use std::alloc::{Allocator, Global};
use std::process::Abort;

/// Asserts that a workspace writes the columns of the four-cycle.
fn check_columns<A: Allocator + Copy>(rt: &impl Abort, workspace: &mut FactorWorkspace<A>) {
    let case = four_cycle();
    let mut ptr = [9; 5];
    let mut parent = [None; 4];
    let mut rows = [UNTOUCHED; 9];
    let written = workspace.columns_within(
        4i64,
        case.a_p,
        case.a_i,
        case.p,
        &mut ptr,
        &mut parent,
        &mut rows,
    );
    check!(rt; written.is_ok() && are_written(&rows, case.rows));
    check!(rt; ptr.as_slice() == case.ptr && parent.as_slice() == case.parent);
}

/// Asserts that a workspace writes the counts of the four-cycle.
fn check_counts<A: Allocator + Copy>(rt: &impl Abort, workspace: &mut FactorWorkspace<A>) {
    let case = four_cycle();
    let mut counts = [9; 4];
    let mut parent = [None; 4];
    let written = workspace.counts_within(
        4i64,
        case.a_p,
        case.a_i,
        case.p,
        &mut counts,
        &mut parent,
    );
    check!(rt; matches!(written, Ok(need) if need.lnz == 5));
    check!(rt; counts.as_slice() == [2, 2, 1, 0].as_slice() && parent.as_slice() == case.parent);
}

/// Makes a workspace in which the four-cycle fits just so, and says whether there was memory.
fn makes(rt: &impl Abort, heap: &Refusing<Global>) -> bool {
    let Ok(mut workspace) = FactorWorkspace::new(heap, 4, 4) else {
        return false;
    };
    check_columns(rt, &mut workspace);
    check_counts(rt, &mut workspace);
    true
}

/// The number of requests of a workspace: that for all numbers, and that for the parents.
const REQUESTS: u64 = 2;

#[test]
fn each_request_of_a_workspace(rt: HostRuntime) {
    let refusals = each_refused(rt.alloc(), |heap| makes(&rt, heap));
    check!(&rt; refusals == Ok(REQUESTS));
}

/// What a workspace for so many rows and entries answers for the columns of a matrix with four rows, where there is
/// room for so many entries.
fn refusal_of(
    alloc: Global,
    rows: usize,
    entries: usize,
    a_p: &[i64],
    p: &[i64],
    room: usize,
) -> Option<Refusal> {
    let mut workspace = FactorWorkspace::new(alloc, rows, entries).ok()?;
    let mut written = vec![in alloc; UNTOUCHED; room].ok()?;
    let mut ptr = [9; 5];
    let mut parent = [None; 4];
    workspace
        .columns_within(
            4i64,
            a_p,
            four_cycle().a_i,
            p,
            &mut ptr,
            &mut parent,
            &mut written,
        )
        .err()
}

/// The same for the four-cycle.
fn refusal_of_cycle(alloc: Global, rows: usize, entries: usize, room: usize) -> Option<Refusal> {
    refusal_of(alloc, rows, entries, four_cycle().a_p, four_cycle().p, room)
}

#[test]
fn what_does_not_fit_in_a_workspace(rt: HostRuntime) {
    let alloc = rt.alloc();
    check!(&rt; refusal_of_cycle(alloc, 4, 4, 5) == None);
    check!(&rt; refusal_of_cycle(alloc, 3, 4, 5) == Some(Refusal::TooLarge));
    check!(&rt; refusal_of_cycle(alloc, 4, 3, 5) == Some(Refusal::TooLarge));
    check!(&rt; refusal_of_cycle(alloc, 4, 4, 4) == Some(Refusal::TooSmall(5)));
}

#[test]
fn what_is_no_input_of_a_workspace(rt: HostRuntime) {
    let case = four_cycle();
    let no_form = refusal_of(rt.alloc(), 4, 4, &[0, 2, 1, 4, 4], case.p, 5);
    check!(&rt; no_form == Some(Refusal::NotColumnForm));
    let no_order = refusal_of(rt.alloc(), 4, 4, case.a_p, &[3, 0, 1, 1], 5);
    check!(&rt; no_order == Some(Refusal::NotPermutation));
}

/// The bytes in a block: for 5 rows and 14 entries eight for each of 2 * 14 + 11 * 5 + 7 numbers, and 16 for each row;
/// none where they are no number of 64 bits.
#[test]
fn bytes_of_a_block(rt: HostRuntime) {
    check!(&rt; factor_bytes(5, 14) == Some(720 + 80));
    check!(&rt; factor_bytes(usize::MAX, usize::MAX).is_none());
}
