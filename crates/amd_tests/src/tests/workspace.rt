// Orderings in a workspace that was made once. Each answer is that of `order` and `order_holding`, whatever the
// workspace ordered before. What is no input or does not fit is refused, and changes nothing. Behind the making of the
// workspace no call asks for memory, seen by an allocator that counts. The refusals are those of the definitions.

use crate::checks::check_chosen;
use amd::{Control, Info, Refusal, Workspace, order, order_holding, order_marked, workspace_bytes};
use amd_testing::check;
use amd_testing::choices::CHOICES;
use amd_testing::families::{Family, member};
use amd_testing::inputs::draw;
use amd_testing::records::numbers_of;
use amd_testing::refusing::{Refusing, each_refused};
use std::alloc::{AllocError, Allocator, Global};
use std::process::Abort;
use std::test::Fail;

/// More rows and entries than a drawn matrix has: 40 rows, and 160 entries.
const ROWS: usize = 40;

const ENTRIES: usize = 160;

/// A number that no call writes.
const UNTOUCHED: i64 = -7;

/// Whether two records are one, but for the count of compactions where the words are fewer.
fn is_same_record(one: &Info, other: &Info) -> bool {
    let mut left = numbers_of(one);
    let mut right = numbers_of(other);
    // The sixth number is the count of compactions.
    left[5] = 0;
    right[5] = 0;
    left == right && one.symmetry == other.symmetry && one.status == other.status
}

/// Asserts that a workspace gives the answer of `order` for a matrix, or with marks that of `order_holding`.
fn check_order<A: Allocator + Copy>(
    rt: &impl Abort,
    alloc: Global,
    workspace: &mut Workspace<A>,
    control: &Control,
    a_p: &[i64],
    a_i: &[i64],
    hold: Option<&[bool]>,
) -> Result<(), AllocError> {
    let size = a_p.len().saturating_sub(1);
    let n = i64::try_from(size).unwrap_or(0);
    let mut r = vec![in alloc; UNTOUCHED; size]?;
    let mut r_inv = vec![in alloc; UNTOUCHED; size]?;
    let answer = match hold {
        Some(hold) => order_holding(alloc, n, a_p, a_i, control, hold),
        None => order(alloc, n, a_p, a_i, control),
    };
    let Ok((p, p_inv, info)) = answer else {
        panic!(rt; "no answer");
    };
    let again = match hold {
        Some(hold) => workspace.order_holding(n, a_p, a_i, control, hold, &mut r, &mut r_inv),
        None => workspace.order(n, a_p, a_i, control, &mut r, &mut r_inv),
    };
    let Ok(other) = again else {
        panic!(rt; "no answer in a workspace");
    };
    let is_ordered = r.as_slice() == p.as_slice() && r_inv.as_slice() == p_inv.as_slice();
    let is_same = is_ordered && is_same_record(&other, &info);
    check_chosen(rt, is_same, control, a_p, a_i);
    Ok(())
}

/// The numbers in 32 bits.
fn narrowed(alloc: Global, numbers: &[i64]) -> Result<Vec<i32>, AllocError> {
    let mut narrow = Vec::new(alloc);
    for &number in numbers {
        narrow.push(i32::try_from(number).unwrap_or(0))?;
    }
    Ok(narrow)
}

/// Whether a workspace gives the answer of `order` in 32 bits, where the lists of the caller are two of its own.
fn is_same_narrow<A: Allocator + Copy>(
    rt: &impl Abort,
    alloc: Global,
    workspace: &mut Workspace<A>,
    control: &Control,
    a_p: &[i32],
    a_i: &[i32],
    hold: Option<&[bool]>,
) -> Result<bool, AllocError> {
    let size = a_p.len().saturating_sub(1);
    let n = i32::try_from(size).unwrap_or(0);
    let mut r = vec![in alloc; -7i32; size]?;
    let mut r_inv = vec![in alloc; -7i32; size]?;
    let Ok((p, p_inv, info)) = order_marked(alloc, n, a_p, a_i, control, hold) else {
        panic!(rt; "no answer");
    };
    let (q, q_inv) = (r.as_mut_slice(), r_inv.as_mut_slice());
    let again = match hold {
        Some(marks) => workspace.order_holding_narrow(n, a_p, a_i, control, marks, q, q_inv),
        None => workspace.order_narrow(n, a_p, a_i, control, q, q_inv),
    };
    let Ok(other) = again else {
        panic!(rt; "no answer in a workspace");
    };
    let is_ordered = r.as_slice() == p.as_slice() && r_inv.as_slice() == p_inv.as_slice();
    Ok(is_ordered && is_same_record(&other, &info))
}

/// Marks of about a fifth of the rows, drawn from a seed.
fn drawn_marks(alloc: Global, seed: u64, size: usize) -> Result<Vec<bool>, AllocError> {
    let mut marks = Vec::new(alloc);
    let mut state = seed;
    for _ in 0..size {
        marks.push(draw(&mut state, 5) == 0)?;
    }
    Ok(marks)
}

/// Orders a drawn matrix of a family in the workspace, with one of the choices, and again with drawn rows held; in 32
/// bits with these for every other seed.
fn check_seed<A: Allocator + Copy>(
    rt: &impl Abort,
    alloc: Global,
    workspace: &mut Workspace<A>,
    family: Family,
    seed: i64,
) -> Result<(), AllocError> {
    let (_, a_p, a_i) = member(alloc, family, seed)?;
    let number = u64::try_from(seed).unwrap_or(0);
    let Some(control) = CHOICES.get(usize::try_from(seed % 6).unwrap_or(0)) else {
        panic!(rt; "six choices");
    };
    let hold = drawn_marks(alloc, number, a_p.len().saturating_sub(1))?;
    let marks = Some(hold.as_slice());
    check_order(rt, alloc, workspace, control, &a_p, &a_i, None)?;
    check_order(rt, alloc, workspace, control, &a_p, &a_i, marks)?;
    let (b_p, b_i) = (narrowed(alloc, &a_p)?, narrowed(alloc, &a_i)?);
    let narrow_marks = if seed % 2 == 0 { marks } else { None };
    let is_same = is_same_narrow(rt, alloc, workspace, control, &b_p, &b_i, narrow_marks)?;
    check_chosen(rt, is_same, control, &a_p, &a_i);
    Ok(())
}

/// Sizes from 1 to 40 rows follow each other, jumbled and sorted ones, in one workspace that asks for no memory.
#[test]
fn drawn_matrices_in_one_workspace(rt: HostRuntime) -> Result<(), Fail> {
    let heap = Refusing::new(rt.alloc(), 0);
    let mut workspace = Workspace::new(&heap, ROWS, ENTRIES)?;
    let requests = heap.requests();
    for seed in 1..=5000 {
        check_seed(&rt, rt.alloc(), &mut workspace, Family::Drawn, seed)?;
        check_seed(&rt, rt.alloc(), &mut workspace, Family::DrawnWithHub, seed)?;
    }
    check!(&rt; heap.requests() == requests);
    Ok(())
}

/// A path, a star, a grid and a complete graph, each in a workspace that it fits just so, and again after the others.
#[test]
fn families_in_workspaces_that_they_fit(rt: HostRuntime) -> Result<(), Fail> {
    let alloc = rt.alloc();
    let families = [
        Family::Empty,
        Family::Path,
        Family::Star,
        Family::StarToLast,
        Family::Complete,
        Family::Grid,
    ];
    for family in families {
        for size in 1..=6 {
            let (_, a_p, a_i) = member(alloc, family, size)?;
            let mut workspace = Workspace::new(alloc, a_p.len().saturating_sub(1), a_i.len())?;
            for control in &CHOICES {
                check_order(&rt, alloc, &mut workspace, control, &a_p, &a_i, None)?;
            }
        }
    }
    Ok(())
}

/// A four-cycle.
const CYCLE_P: [i64; 5] = [0, 2, 3, 4, 4];

const CYCLE_I: [i64; 4] = [1, 3, 2, 3];

/// What a workspace for so many rows and entries answers for a matrix with places for so many rows, and whether both
/// lists and the next answer are as before.
fn refusal_of(
    rt: &impl Abort,
    alloc: Global,
    made: (usize, usize),
    n: i64,
    a_p: &[i64],
    places: (usize, usize),
) -> Result<Option<Refusal>, AllocError> {
    let mut workspace = Workspace::new(alloc, made.0, made.1)?;
    let mut p = vec![in alloc; UNTOUCHED; places.0]?;
    let mut p_inv = vec![in alloc; UNTOUCHED; places.1]?;
    let control = Control::default();
    let Err(refusal) = workspace.order(n, a_p, &CYCLE_I, &control, &mut p, &mut p_inv) else {
        return Ok(None);
    };
    check!(rt; p.iter().all(|&row| row == UNTOUCHED));
    check!(rt; p_inv.iter().all(|&row| row == UNTOUCHED));
    check_order(rt, alloc, &mut workspace, &control, &[0, 1, 1], &[1], None)?;
    Ok(Some(refusal))
}

#[test]
fn what_does_not_fit(rt: HostRuntime) -> Result<(), Fail> {
    let alloc = rt.alloc();
    let fits = refusal_of(&rt, alloc, (4, 4), 4, &CYCLE_P, (4, 4))?;
    check!(&rt; fits == None);
    let rows = refusal_of(&rt, alloc, (3, 4), 4, &CYCLE_P, (4, 4))?;
    check!(&rt; rows == Some(Refusal::TooLarge));
    let entries = refusal_of(&rt, alloc, (4, 3), 4, &CYCLE_P, (4, 4))?;
    check!(&rt; entries == Some(Refusal::TooLarge));
    Ok(())
}

#[test]
fn what_is_no_input(rt: HostRuntime) -> Result<(), Fail> {
    let alloc = rt.alloc();
    let descends = refusal_of(&rt, alloc, (4, 4), 4, &[0, 2, 1, 4, 4], (4, 4))?;
    check!(&rt; descends == Some(Refusal::Invalid));
    let short = refusal_of(&rt, alloc, (4, 4), 4, &CYCLE_P, (3, 4))?;
    check!(&rt; short == Some(Refusal::Invalid));
    let long = refusal_of(&rt, alloc, (4, 4), 4, &CYCLE_P, (4, 5))?;
    check!(&rt; long == Some(Refusal::Invalid));
    let negative = refusal_of(&rt, alloc, (4, 4), -1, &CYCLE_P, (0, 0))?;
    check!(&rt; negative == Some(Refusal::Invalid));
    let both = refusal_of(&rt, alloc, (3, 4), 4, &[0, 2, 1, 4, 4], (4, 4))?;
    check!(&rt; both == Some(Refusal::Invalid));
    Ok(())
}

#[test]
fn marks_that_are_not_one_for_each_row(rt: HostRuntime) -> Result<(), Fail> {
    let mut workspace = Workspace::new(rt.alloc(), 4, 4)?;
    let mut p = [UNTOUCHED; 4];
    let mut p_inv = [UNTOUCHED; 4];
    let control = Control::default();
    let refused = workspace.order_holding(
        4, &CYCLE_P, &CYCLE_I, &control, &[true; 3], &mut p, &mut p_inv,
    );
    check!(&rt; refused.err() == Some(Refusal::Invalid) && p == [UNTOUCHED; 4]);
    Ok(())
}

#[test]
fn no_rows(rt: HostRuntime) -> Result<(), Fail> {
    let mut workspace = Workspace::new(rt.alloc(), 0, 0)?;
    let control = Control::default();
    let answer = workspace.order(0i64, &[7], &[], &control, &mut [], &mut []);
    check!(&rt; matches!(answer, Ok(info) if numbers_of(&info) == numbers_of(&Info::new(0))));
    let answer = workspace.order_narrow(0, &[7], &[], &control, &mut [], &mut []);
    check!(&rt; matches!(answer, Ok(info) if numbers_of(&info) == numbers_of(&Info::new(0))));
    Ok(())
}

/// In 32 bits too a matrix that does not fit, and what is no input, are told apart, and the lists stay.
#[test]
fn refusals_in_32_bits(rt: HostRuntime) -> Result<(), Fail> {
    let control = Control::default();
    let (a_p, a_i) = ([0, 2, 3, 4, 4], [1, 3, 2, 3]);
    let mut p = [-7; 4];
    let mut p_inv = [-7; 4];
    let mut small = Workspace::new(rt.alloc(), 4, 3)?;
    let refused = small.order_narrow(4, &a_p, &a_i, &control, &mut p, &mut p_inv);
    check!(&rt; refused.err() == Some(Refusal::TooLarge));
    let mut workspace = Workspace::new(rt.alloc(), 4, 4)?;
    let marks = [true; 3];
    let refused = workspace.order_holding_narrow(
        4, &a_p, &a_i, &control, &marks, &mut p, &mut p_inv,
    );
    check!(&rt; refused.err() == Some(Refusal::Invalid));
    let refused = workspace.order_narrow(4, &a_p, &a_p, &control, &mut p, &mut p_inv);
    check!(&rt; refused.err() == Some(Refusal::Invalid));
    check!(&rt; p == [-7; 4] && p_inv == [-7; 4]);
    Ok(())
}

/// Makes a workspace in which the four-cycle fits, and says whether there was memory.
fn makes(rt: &impl Abort, alloc: Global, heap: &Refusing<Global>) -> bool {
    let Ok(mut workspace) = Workspace::new(heap, 4, 4) else {
        return false;
    };
    let control = Control::default();
    let checked = check_order(
        rt,
        alloc,
        &mut workspace,
        &control,
        &CYCLE_P,
        &CYCLE_I,
        None,
    );
    check!(rt; checked.is_ok());
    true
}

/// The number of requests of a workspace: eight lists with a place for each row, one with a place for each bucket, the
/// words of the lists, and two lists for the transpose of a jumbled matrix.
const REQUESTS: u64 = 12;

#[test]
fn each_request_of_a_workspace(rt: HostRuntime) {
    let alloc = rt.alloc();
    let refusals = each_refused(alloc, |heap| makes(&rt, alloc, heap));
    check!(&rt; refusals == Ok(REQUESTS));
}

/// More words than `isize::MAX` are refused before any request.
#[test]
fn a_workspace_of_too_many_words(rt: HostRuntime) {
    let heap = Refusing::new(rt.alloc(), 0);
    check!(&rt; Workspace::new(&heap, 1, 1 << 62).is_err());
    check!(&rt; Workspace::new(&heap, 1 << 63, 0).is_err());
    check!(&rt; heap.requests() == 0);
}

/// The bytes in a block. For 5 rows and 14 entries: four for each of 3 * 16 + 12 * 8 + 4 words. For 2^30 entries: eight
/// for each of 3 * 2^30 + 4. None where they are no number of 64 bits.
#[test]
fn bytes_of_a_block(rt: HostRuntime) {
    check!(&rt; workspace_bytes(5, 14) == Some(592));
    check!(&rt; workspace_bytes(0, 1 << 30) == Some(25_769_803_808));
    check!(&rt; workspace_bytes(usize::MAX, usize::MAX).is_none());
}
