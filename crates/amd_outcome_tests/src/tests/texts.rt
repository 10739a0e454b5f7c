// The texts of `control` and `info`: whole texts, numbers at the ends of their ranges, and writers with faults. The
// texts of the demos are those of the Rust crate's demos, but for the line on symmetry, which follows the definition;
// the others have the same form, with sums worked by hand.

use crate::tests::demo_texts::{FIVE_ROWS, STATISTICS};
use amd::{Control, Info, Status, control, info};
use amd_testing::check;
use amd_testing::writers::{Faulty, Slow, WriterFault};
use std::alloc::Global;
use std::io;
use std::io::{ErrorKind, Write};
use std::process::Abort;
use std::test::Fail;

/// More calls than a text makes to a writer.
const MANY: u64 = 2000;

/// The text for the default.
const DEFAULT_TEXT: &str = "
AMD: approximate minimum degree ordering
    dense row parameter: 10
    (rows with more than max (10 * sqrt(n), 16) entries are
    considered \"dense\", and placed last in output permutation)
    aggressive absorption:  yes
    size of AMD integer: 8

";

/// The text for a parameter of 0, with aggressive absorption.
const ZERO_TEXT: &str = "
AMD: approximate minimum degree ordering
    dense row parameter: 0
    (rows with more than max (0 * sqrt(n), 16) entries are
    considered \"dense\", and placed last in output permutation)
    aggressive absorption:  yes
    size of AMD integer: 8

";

/// The text for a negative parameter, without aggressive absorption.
const NEGATIVE_TEXT: &str = "
AMD: approximate minimum degree ordering
    dense row parameter: -0.5
    no rows treated as dense
    aggressive absorption:  no
    size of AMD integer: 8

";

/// The text for a record whose numbers that are summed are the greatest ones.
const GREATEST_TEXT: &str = "
AMD results:
    status:                                             unknown
    n, dimension of A:                                  18446744073709551615
    nz, number of nonzeros in A:                        2
    symmetry of A:                                      true
    number of nonzeros on diagonal:                     3
    nonzeros in pattern of A+A' (excl. diagonal):       4
    # dense rows/columns of A+A':                       5
    # of memory compactions:                            6

    The following approximate statistics are for a subsequent
    factorization of A(P,P) + A(P,P)'.  They are slight upper
    bounds if there are no dense rows/columns in A+A', and become
    looser if dense rows/columns exist.

    nonzeros in L (excluding diagonal):                 18446744073709551615
    nonzeros in L (including diagonal):                 36893488147419103230
    # divide operations for LDL' or LU:                 18446744073709551615
    # multiply-subtract operations for LDL':            18446744073709551615
    # multiply-subtract operations for LU:              18446744073709551615
    max nz. in any column of L (incl. diagonal):        7

    chol flop count for real A, sqrt counted as 1 flop: 73786976294838206460
    LDL' flop count for real A:                         55340232221128654845
    LDL' flop count for complex A:                      313594649253062377455
    LU flop count for real A (with no pivoting):        55340232221128654845
    LU flop count for complex A (with no pivoting):     313594649253062377455

";

/// The record of the five-row matrix of the demo.
fn five_rows() -> Info {
    Info {
        status: Status::OK,
        n: 5,
        nz: 14,
        symmetry: false,
        nz_diag: 5,
        nz_a_plus_at: 10,
        n_dense: 0,
        n_cmp_a: 0,
        lnz: 5,
        n_div: 5,
        n_mult_subs_ldl: 6,
        n_mult_subs_lu: 7,
        d_max: 3,
    }
}

/// A record whose numbers that are summed are the greatest ones.
fn greatest() -> Info {
    Info {
        status: Status::OutOfMemory,
        n: usize::MAX,
        nz: 2,
        symmetry: true,
        nz_diag: 3,
        nz_a_plus_at: 4,
        n_dense: 5,
        n_cmp_a: 6,
        lnz: usize::MAX,
        n_div: usize::MAX,
        n_mult_subs_ldl: usize::MAX,
        n_mult_subs_lu: usize::MAX,
        d_max: 7,
    }
}

/// The record of a graph of 24 rows, with a status.
fn can_24(status: Status) -> Info {
    Info {
        status,
        n: 24,
        nz: 160,
        symmetry: true,
        nz_diag: 24,
        nz_a_plus_at: 136,
        n_dense: 0,
        n_cmp_a: 0,
        lnz: 97,
        n_div: 97,
        n_mult_subs_ldl: 275,
        n_mult_subs_lu: 453,
        d_max: 8,
    }
}

/// Asserts the text of what a caller chooses.
fn check_control(rt: &impl Abort, alloc: Global, dense: i32, aggressive: bool, text: &str) {
    let mut out = Vec::new(alloc);
    let is_written = control(&Control { dense, aggressive }, &mut out).is_ok();
    assert!(rt;
        is_written && out.as_slice() == text.as_bytes(),
        "at {dense}"
    );
}

/// Asserts the text of what the ordering tells.
fn check_info(rt: &impl Abort, alloc: Global, record: &Info, text: &str) {
    let mut out = Vec::new(alloc);
    check!(rt; info(record, &mut out).is_ok() && out.as_slice() == text.as_bytes());
}

#[test]
fn whole_texts_of_control(rt: HostRuntime) {
    check_control(&rt, rt.alloc(), 10000, true, DEFAULT_TEXT);
    check_control(&rt, rt.alloc(), 0, true, ZERO_TEXT);
    check_control(&rt, rt.alloc(), -500, false, NEGATIVE_TEXT);
}

#[test]
fn parameters_from_zero_on(rt: HostRuntime) -> Result<(), Fail> {
    for (dense, shown) in [
        (0, "0"),
        (1, "0.001"),
        (10, "0.01"),
        (100, "0.1"),
        (120, "0.12"),
        (500, "0.5"),
        (1000, "1"),
        (12345, "12.345"),
        (20050, "20.05"),
        (i32::MAX, "2147483.647"),
    ] {
        let text = format!(in rt.alloc();
            "
AMD: approximate minimum degree ordering
    dense row parameter: {shown}
    (rows with more than max ({shown} * sqrt(n), 16) entries are
    considered \"dense\", and placed last in output permutation)
    aggressive absorption:  no
    size of AMD integer: 8

"
        )?;
        check_control(&rt, rt.alloc(), dense, false, &text);
    }
    Ok(())
}

#[test]
fn negative_parameters(rt: HostRuntime) -> Result<(), Fail> {
    for (dense, shown) in [
        (-1, "-0.001"),
        (-1000, "-1"),
        (-12340, "-12.34"),
        (i32::MIN, "-2147483.648"),
    ] {
        let text = format!(in rt.alloc();
            "
AMD: approximate minimum degree ordering
    dense row parameter: {shown}
    no rows treated as dense
    aggressive absorption:  yes
    size of AMD integer: 8

"
        )?;
        check_control(&rt, rt.alloc(), dense, true, &text);
    }
    Ok(())
}

#[test]
fn whole_texts_of_info(rt: HostRuntime) {
    check_info(&rt, rt.alloc(), &five_rows(), FIVE_ROWS);
    check_info(&rt, rt.alloc(), &greatest(), GREATEST_TEXT);
}

#[test]
fn statuses(rt: HostRuntime) -> Result<(), Fail> {
    for (status, shown) in [
        (Status::OK, "OK"),
        (Status::Invalid, "invalid matrix"),
        (Status::OkButJumbled, "OK, but jumbled"),
        (Status::OutOfMemory, "unknown"),
    ] {
        let text = format!(in rt.alloc();
            "
AMD results:
    status:                                             {shown}
    n, dimension of A:                                  24
    nz, number of nonzeros in A:                        160
    symmetry of A:                                      true
    number of nonzeros on diagonal:                     24
{STATISTICS}"
        )?;
        check_info(&rt, rt.alloc(), &can_24(status), &text);
    }
    Ok(())
}

/// A choice and a record, and their texts.
#[derive(Drop)]
struct Written {
    choice: Control,
    record: Info,
    texts: (&'static [u8], &'static [u8]),
}

/// What is written with faults: texts of both kinds.
fn both_kinds() -> [Written; 2] {
    [
        Written {
            choice: Control::default(),
            record: five_rows(),
            texts: (DEFAULT_TEXT.as_bytes(), FIVE_ROWS.as_bytes()),
        },
        Written {
            choice: Control {
                dense: -500,
                aggressive: false,
            },
            record: greatest(),
            texts: (NEGATIVE_TEXT.as_bytes(), GREATEST_TEXT.as_bytes()),
        },
    ]
}

/// Writes both texts.
fn both_texts<W: Write>(written: &Written, out: &mut W) -> io::Result<()> {
    control(&written.choice, out)?;
    info(&written.record, out)
}

/// Whether bytes are both texts, one after the other.
fn are_both(written: &Written, bytes: &[u8]) -> bool {
    let (first, second) = written.texts;
    bytes.len() == first.len().saturating_add(second.len())
        && bytes.starts_with(first)
        && bytes.ends_with(second)
}

/// Writes both texts with a fault at one call, and says whether that call was made. The fault is told, where it has a
/// kind, and nothing is written behind it. Where it has none, all is written.
fn both_with_fault(
    rt: &impl Abort,
    alloc: Global,
    written: &Written,
    (fault, kind): (WriterFault, Option<ErrorKind>),
    fault_at: u64,
) -> bool {
    let mut out = Faulty::new(Vec::new(alloc), fault, fault_at);
    let told = both_texts(written, &mut out)
        .err()
        .map(|error| error.kind());
    if out.faults() == 0 || kind.is_none() {
        check!(rt; told.is_none() && are_both(written, out.bytes()));
    } else {
        check!(rt; told == kind && out.faults() == 1 && out.calls() == fault_at);
    }
    out.faults() > 0
}

/// Writes both texts with a fault at each call in turn, until a run has none.
fn check_each_call(
    rt: &impl Abort,
    alloc: Global,
    written: &Written,
    fault: (WriterFault, Option<ErrorKind>),
) {
    let mut faults = 0;
    for fault_at in 1..MANY {
        if !both_with_fault(rt, alloc, written, fault, fault_at) {
            break;
        }
        faults = fault_at;
    }
    check!(rt; 0 < faults && faults < MANY - 1);
}

#[test]
fn each_call_to_a_writer(rt: HostRuntime) {
    for written in &both_kinds() {
        for fault in [
            (WriterFault::Fails, Some(ErrorKind::Other)),
            (WriterFault::TakesNothing, Some(ErrorKind::WriteZero)),
            (WriterFault::TakesOne, None),
            (WriterFault::Interrupted, None),
        ] {
            check_each_call(&rt, rt.alloc(), written, fault);
        }
    }
}

#[test]
fn a_writer_of_one_byte_a_call(rt: HostRuntime) -> Result<(), Fail> {
    for written in &both_kinds() {
        let mut out = Slow::new(Vec::new(rt.alloc()));
        both_texts(written, &mut out)?;
        check!(&rt; are_both(written, out.bytes()));
    }
    Ok(())
}
