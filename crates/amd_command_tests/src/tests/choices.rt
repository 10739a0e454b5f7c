// What a caller chooses is heard, and what an ordering tells stands beside what the factor needs: twenty rows, of which
// one is dense by a low threshold, so that each bound is above the need. The order, the bounds and the needs come from
// an independent program that follows the rules; the thresholds follow from their definition.

use amd::Control;
use amd_command::analysis::analyze_matrix;
use amd_command::ordering::order_matrix;
use amd_market::headers::{Field, Format, Header, Symmetry};
use amd_market::reader::Matrix;
use amd_market::sources::Source;
use amd_report::factor_text::write_comparison;
use amd_report::facts::facts_of;
use amd_report::figures::write_figures;
use amd_testing::check;
use std::alloc::{AllocError, Global};
use std::process::Abort;
use std::test::Fail;

/// What the file of a matrix would say that has a pattern alone.
pub const PATTERN: Source = Source::Market(Header {
    format: Format::Coordinate,
    field: Field::Pattern,
    symmetry: Symmetry::General,
});

/// The first row has an edge with each of the next seventeen, and the two last ones with each other.
fn twenty_rows(alloc: Global) -> Result<Matrix<Global>, AllocError> {
    let mut a_p = vec![in alloc; 17; 21]?;
    a_p[0] = 0;
    a_p[19] = 18;
    a_p[20] = 18;
    let mut a_i = Vec::new(alloc);
    for row in 1..18 {
        a_i.push(row)?;
    }
    a_i.push(19)?;
    Ok(Matrix {
        n: 20,
        a_p,
        a_i,
        source: PATTERN,
        repeats: 0,
    })
}

/// Their order where the first row is dense.
static ORDER: [usize; 20] = [
    1, 2, 3, 4, 5, 6, 7, 8, 9, 10, 11, 12, 13, 14, 15, 16, 17, 18, 19, 0,
];

/// What `order` tells then, and behind it `analyze`, which is told that the file had three duplicates.
const FIGURES: &str = "    rows                                                20
    entries                                             18
    duplicates dropped                                  0
    status                                              OK
    rows placed last (dense or held)                    1
    workspace compactions                               0
    entries of L below the diagonal, at most            20
    divisions, at most                                  20
    multiply-subtracts for LDL', at most                21
    multiply-subtracts for LU, at most                  22
    largest column, with its diagonal, at most          3
    rows                                                20
    entries                                             18
    duplicates dropped                                  3
    status                                              OK, but with duplicates
    rows placed last (dense or held)                    1
    workspace compactions                               0
    entries of L below the diagonal                     18, at most 20
    divisions                                           18, at most 20
    multiply-subtracts for LDL'                         18, at most 21
    multiply-subtracts for LU                           18, at most 22
    largest column, with its diagonal                   2, at most 3
";

/// A dense row parameter in thousandths.
fn with_dense(dense: i32) -> Control {
    Control {
        dense,
        aggressive: true,
    }
}

/// Orders these rows and writes the figures.
fn write_ordered(rt: &impl Abort, heap: Global, matrix: &Matrix<Global>, out: &mut Vec<u8>) {
    let Ok((p, info)) = order_matrix(heap, matrix, &with_dense(0), Some(&[false; 20])) else {
        panic!(rt; "no ordering");
    };
    check!(rt; p.as_slice() == ORDER.as_slice());
    check!(rt; write_figures(&info, 0, out).is_ok());
}

/// Works out their factor and writes its figures.
fn write_analyzed(rt: &impl Abort, heap: Global, matrix: &Matrix<Global>, out: &mut Vec<u8>) {
    let Ok(analysis) = analyze_matrix(heap, matrix, &with_dense(0), None) else {
        panic!(rt; "no factor");
    };
    check!(rt; analysis.p.as_slice() == ORDER.as_slice());
    check!(rt; write_comparison(&analysis.counts.need, &analysis.info, 3, out).is_ok());
}

#[test]
fn a_dense_row_by_choice(rt: HostRuntime) -> Result<(), Fail> {
    let heap = rt.alloc();
    let matrix = twenty_rows(heap)?;
    let mut out = Vec::new(heap);
    write_ordered(&rt, heap, &matrix, &mut out);
    write_analyzed(&rt, heap, &matrix, &mut out);
    check!(&rt; out.as_slice() == FIGURES.as_bytes());
    Ok(())
}

/// The first row has 17 edges: it is above a threshold of 16, and not above one of 17.
#[test]
fn a_degree_at_the_threshold(rt: HostRuntime) -> Result<(), Fail> {
    let matrix = twenty_rows(rt.alloc())?;
    for (dense, threshold, above) in [(0, 16, 1), (3810, 17, 0)] {
        let Ok(facts) = facts_of(rt.alloc(), &matrix, &with_dense(dense)) else {
            panic!(&rt; "no facts");
        };
        let is_told = facts.threshold == threshold && facts.degrees.above == above;
        check!(&rt; is_told);
    }
    Ok(())
}
