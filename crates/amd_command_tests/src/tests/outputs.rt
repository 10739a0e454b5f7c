// What is written, writers with a fault at each call, and each request for memory refused in turn.

use amd::{Control, Info};
use amd_cli::causes::Cause;
use amd_cli::held::read_held;
use amd_command::analysis::{Analysis, analyze_matrix};
use amd_command::faults::cause_of;
use amd_command::ordering::order_matrix;
use amd_command::permuted::permuted;
use amd_command::picture::{MOST_ROWS, Source, write_picture};
use amd_market::reader::{Matrix, read_matrix};
use amd_report::description::write_facts;
use amd_report::factor_text::{write_columns, write_comparison};
use amd_report::facts::facts_of;
use amd_report::figures::write_figures;
use amd_report::pattern::write_matrix;
use amd_report::rows::write_rows;
use amd_report::tree::{write_supernodes, write_tree};
use amd_symbolic::supernodes;
use amd_testing::check;
use amd_testing::refusing::{Refusing, each_refused};
use amd_testing::writers::{Faulty, WriterFault};
use std::alloc::{Allocator, Global};
use std::cell::Cell;
use std::io::Write;
use std::process::Abort;
use std::test::Fail;

/// A path of three rows, which stand in the order 1, 3, 2, with an entry of the diagonal.
pub const PATH: &str = "%%MatrixMarket matrix coordinate pattern symmetric\n3 3 3\n1 1\n3 1\n3 2\n";

/// What `info` tells of it.
pub const PATH_FACTS: &str =
    "    format of the file                                  Matrix Market coordinate
    field of the file                                   pattern
    symmetry of the file                                symmetric
    rows                                                3
    entries                                             5
    duplicates dropped                                  0
    symmetric pattern                                   yes
    entries on the diagonal                             1
    edges                                               2
    mirrored entries off the diagonal                   4
    pattern symmetry                                    100.0 %
    bandwidth below the diagonal                        2
    bandwidth above the diagonal                        2
    profile of A + A'                                   2
    components of A + A'                                1
    greatest degree                                     2
    mean degree                                         1.33
    rows of degree 0                                    0
    dense threshold                                     3
    rows above the threshold                            0
";

/// Five rows, one entry without its mirror.
const FIVE: &str = "%%MatrixMarket matrix coordinate pattern general
5 5 14
1 1
2 1
1 2
2 2
3 2
5 2
2 3
3 3
4 3
5 3
3 4
4 4
2 5
5 5
";

/// What `analyze` writes of them: the rows stand in the order 1, 4, 3, 5, 2, and the columns have the places 4; 2; 3
/// and 4; 4; none.
const FIVE_COLUMNS: &str = "1 2 1\n4 3 1\n3 5 2\n5 2 1\n2 0 0\n";

/// What it tells of them.
const FIVE_FIGURES: &str = "    rows                                                5
    entries                                             14
    duplicates dropped                                  0
    status                                              OK
    rows placed last (dense or held)                    0
    workspace compactions                               0
    entries of L below the diagonal                     5, at most 5
    divisions                                           5, at most 5
    multiply-subtracts for LDL'                         6, at most 6
    multiply-subtracts for LU                           7, at most 7
    largest column, with its diagonal                   3, at most 3
";

/// Writes an order and its figures, and what the matrix is.
fn write_order_of<W: Write, A: Allocator + Copy>(
    alloc: A,
    matrix: &Matrix<A>,
    p: &[usize],
    info: &Info,
    out: &mut W,
) -> Result<(), Cause> {
    let facts = facts_of(alloc, matrix, &Control::default())?;
    write_rows(p, out)?;
    write_figures(info, matrix.repeats, out)?;
    write_facts(&facts, out)?;
    Ok(())
}

/// Writes the columns of a factor and what it needs.
fn write_factor_of<W: Write, A: Allocator + Copy>(
    analysis: &Analysis<A>,
    repeats: usize,
    out: &mut W,
) -> Result<(), Cause> {
    let counts = &analysis.counts;
    write_columns(&analysis.p, &counts.parent, &counts.sizes, out)?;
    write_comparison(&counts.need, &analysis.info, repeats, out)?;
    Ok(())
}

/// Works out the factor of a matrix with marked rows held last, and writes it, the matrix in an order, and the tree.
fn write_factor_and_tree<W: Write, A: Allocator + Copy>(
    alloc: A,
    matrix: &Matrix<A>,
    marks: &[bool],
    p: &[usize],
    out: &mut W,
) -> Result<(), Cause> {
    let analysis = analyze_matrix(alloc, matrix, &Control::default(), Some(marks)).map_err(
        cause_of,
    )?;
    write_factor_of(&analysis, matrix.repeats, out)?;
    write_matrix(&permuted(alloc, matrix, p)?, out)?;
    write_tree(&analysis.counts.parent, out)?;
    Ok(())
}

/// Writes the supernodes of a matrix in an order.
fn write_supernodes_of<W: Write, A: Allocator + Copy>(
    alloc: A,
    matrix: &Matrix<A>,
    p: &[usize],
    out: &mut W,
) -> Result<(), Cause> {
    let made = supernodes(alloc, matrix.n, &matrix.a_p, &matrix.a_i, p).map_err(cause_of)?;
    write_supernodes(&made.first, &made.ptr, &made.parent, out)?;
    Ok(())
}

/// Draws a matrix with so many edges in an order.
fn write_picture_of<W: Write, A: Allocator + Copy>(
    alloc: A,
    matrix: &Matrix<A>,
    p: &[usize],
    edges: usize,
    out: &mut W,
) -> Result<(), Cause> {
    let source = Source {
        name: "path",
        edges,
        symmetric: false,
        most: MOST_ROWS,
    };
    let _drawn = write_picture(alloc, matrix, p, &source, out)?;
    Ok(())
}

/// Orders a matrix with marked rows held last, tells what it is, works out the factor and its supernodes, and draws it.
fn write_all_held<W: Write, A: Allocator + Copy>(
    alloc: A,
    matrix: &Matrix<A>,
    marks: &[bool],
    out: &mut W,
) -> Result<(), Cause> {
    let (p, info) = order_matrix(alloc, matrix, &Control::default(), Some(marks))?;
    write_order_of(alloc, matrix, &p, &info, out)?;
    write_factor_and_tree(alloc, matrix, marks, &p, out)?;
    write_supernodes_of(alloc, matrix, &p, out)?;
    write_picture_of(alloc, matrix, &p, info.nz_a_plus_at / 2, out)
}

/// Reads the path and writes all of it, with the second row held last.
fn write_all_of<W: Write, A: Allocator + Copy>(alloc: A, out: &mut W) -> Result<(), Cause> {
    let matrix = read_matrix(alloc, PATH.as_bytes()).map_err(Cause::Text)?;
    let marks = read_held(alloc, matrix.n, "2\n".as_bytes()).map_err(Cause::Text)?;
    write_all_held(alloc, &matrix, &marks, out)
}

/// Row 2 is held last. Row 3 comes first and joins the rows 1 and 2, so that there is one entry of fill, and one
/// supernode.
#[test]
fn what_is_written(rt: HostRuntime) -> Result<(), Fail> {
    let mut out = Vec::new(rt.alloc());
    check!(&rt; write_all_of(rt.alloc(), &mut out).is_ok());
    let text = String::from_utf8_lossy(rt.alloc(), &out)?;
    let text = text.as_str();
    check!(&rt; text.starts_with("3\n1\n2\n    rows "));
    check!(&rt; text.contains(PATH_FACTS));
    check!(&rt; text.contains("\n3 1 2\n1 2 1\n2 0 0\n    rows "));
    check!(&rt; text.contains("\n2\n3\n0\n1 3 0 0\n<svg "));
    check!(&rt; text.contains(">after, fill: 1<") && text.ends_with(">fill</text>\n</svg>\n"));
    Ok(())
}

/// The factor of the five rows.
fn five_analyzed(rt: &impl Abort, alloc: Global) -> Analysis<Global> {
    let Ok(matrix) = read_matrix(alloc, FIVE.as_bytes()) else {
        panic!(rt; "no matrix");
    };
    let Ok(analysis) = analyze_matrix(alloc, &matrix, &Control::default(), None) else {
        panic!(rt; "no factor");
    };
    analysis
}

/// Asserts what is written of its columns.
fn check_columns(rt: &impl Abort, alloc: Global, analysis: &Analysis<Global>) {
    let counts = &analysis.counts;
    let mut columns = Vec::new(alloc);
    check!(rt; write_columns(&analysis.p, &counts.parent, &counts.sizes, &mut columns).is_ok());
    check!(rt; columns.as_slice() == FIVE_COLUMNS.as_bytes());
}

/// Asserts what is told of it.
fn check_figures(rt: &impl Abort, alloc: Global, analysis: &Analysis<Global>) {
    let mut figures = Vec::new(alloc);
    check!(rt; write_comparison(&analysis.counts.need, &analysis.info, 0, &mut figures).is_ok());
    check!(rt; figures.as_slice() == FIVE_FIGURES.as_bytes());
}

#[test]
fn columns_worked_by_hand(rt: HostRuntime) {
    let analysis = five_analyzed(&rt, rt.alloc());
    check!(&rt; analysis.p.as_slice() == [0, 3, 2, 4, 1].as_slice());
    check!(&rt; analysis.counts.sizes.as_slice() == [1, 1, 2, 1, 0].as_slice());
    check_columns(&rt, rt.alloc(), &analysis);
    check_figures(&rt, rt.alloc(), &analysis);
}

/// The first call of a writer fails, the fourth, the seventh, and so on, in a run each.
#[test]
fn writers_with_faults(rt: HostRuntime) {
    let mut calls = 0;
    'faults: for third in 0..333u64 {
        let fault_at = 3 * third + 1;
        let mut out = Faulty::new(Vec::new(rt.alloc()), WriterFault::Fails, fault_at);
        let answer = write_all_of(rt.alloc(), &mut out);
        if out.faults() == 0 {
            check!(&rt; answer.is_ok());
            break 'faults;
        }
        check!(&rt; out.calls() == fault_at && matches!(&answer, Err(Cause::Write(_))));
        calls = fault_at;
    }
    check!(&rt; 20 < calls);
    check!(&rt; calls < 996);
}

/// Whether all was written, and no request refused; where it was not written, that was for want of memory. A run that
/// writes all although a request was refused is counted.
fn is_written(
    rt: &impl Abort,
    heap: &Refusing<Global>,
    room: &Global,
    written: &Cell<u64>,
) -> bool {
    let mut out = Vec::new(*room);
    match write_all_of(heap, &mut out) {
        Ok(()) => {
            written.set(written.get().wrapping_add(1));
            !heap.refused()
        }
        Err(cause) => {
            check!(rt; cause.exit_status() == 1);
            false
        }
    }
}

/// The reader asks for room for all entries at once, and does without where that is refused. So two runs write all:
/// that one, and the last.
#[test]
fn refused_memory(rt: HostRuntime) {
    let room = rt.alloc();
    let written = Cell::new(0u64);
    match each_refused(rt.alloc(), |heap| is_written(&rt, heap, &room, &written)) {
        Ok(count) => check!(&rt; 20 < count),
        Err(slip) => panic!(&rt; "{slip:?}"),
    }
    check!(&rt; written.get() == 2);
}

#[test]
fn empty_matrix(rt: HostRuntime) -> Result<(), Fail> {
    let mut out = Vec::new(rt.alloc());
    let info = Info::new(0);
    check!(&rt; write_rows(&[], &mut out).is_ok());
    check!(&rt; out.is_empty());
    check!(&rt; write_figures(&info, 0, &mut out).is_ok());
    Ok(())
}
