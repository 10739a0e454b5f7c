// What is drawn: the fill of the exact factor, and not that which the ordering bounds; shapes of cells; trees of
// supernodes. The matrices and the figures of their factors are worked examples and the one of the demos. The layout of
// the larger tree is that of an independent program.

use crate::tests::choices::PATTERN;
use amd_cli::causes::Cause;
use amd_command::ordering::order_matrix;
use amd_command::picture::{MOST_ROWS, Source, write_picture};
use amd_demos::can_24::{POINTERS, ROWS};
use amd_market::reader::Matrix;
use amd_report::shapes::write_shape;
use amd_report::tree_picture::write_tree_picture;
use amd_symbolic::supernodes;
use amd_testing::check;
use std::alloc::{AllocError, Global};
use std::process::Abort;
use std::test::Fail;

/// Numbers of 32 bits, none of them below 0, as sizes.
fn sizes_of(alloc: Global, numbers: &[i32]) -> Result<Vec<usize>, AllocError> {
    let mut sizes = Vec::new(alloc);
    for &number in numbers {
        sizes.push(usize::try_from(number).unwrap_or(0))?;
    }
    Ok(sizes)
}

/// A matrix in column form.
fn matrix_of(alloc: Global, a_p: &[i32], a_i: &[i32]) -> Result<Matrix<Global>, AllocError> {
    Ok(Matrix {
        n: a_p.len().saturating_sub(1),
        a_p: sizes_of(alloc, a_p)?,
        a_i: sizes_of(alloc, a_i)?,
        source: PATTERN,
        repeats: 0,
    })
}

/// What is drawn of a matrix with so many edges.
fn source_of(edges: usize) -> Source<'static> {
    Source {
        name: "drawn",
        edges,
        symmetric: true,
        most: MOST_ROWS,
    }
}

/// The pointers of twenty rows, of which the first has an edge with each of the next seventeen, and the nineteenth one
/// with the last.
const DENSE_POINTERS: [i32; 21] = [
    0, 17, 17, 17, 17, 17, 17, 17, 17, 17, 17, 17, 17, 17, 17, 17, 17, 17, 17, 18, 18,
];

/// Their rows.
const DENSE_ROWS: [i32; 18] = [
    1, 2, 3, 4, 5, 6, 7, 8, 9, 10, 11, 12, 13, 14, 15, 16, 17, 19,
];

/// The order of these rows: the dense one is last.
const DENSE_ORDER: [usize; 20] = [
    1, 2, 3, 4, 5, 6, 7, 8, 9, 10, 11, 12, 13, 14, 15, 16, 17, 18, 19, 0,
];

/// The text of the picture of a matrix with so many edges in an order.
fn picture_of(
    rt: &impl Abort,
    alloc: Global,
    matrix: &Matrix<Global>,
    p: &[usize],
    edges: usize,
) -> Result<String, Fail> {
    let mut out = Vec::new(alloc);
    check!(rt; write_picture(alloc, matrix, p, &source_of(edges), &mut out).is_ok());
    Ok(String::from_utf8_lossy(alloc, &out)?)
}

/// The factor has the 18 edges alone, though the bound is 20 entries.
#[test]
fn no_fill_where_the_bound_has_some(rt: HostRuntime) -> Result<(), Fail> {
    let alloc = rt.alloc();
    let matrix = matrix_of(alloc, &DENSE_POINTERS, &DENSE_ROWS)?;
    let text = picture_of(&rt, alloc, &matrix, &DENSE_ORDER, 18)?;
    check!(&rt; text.contains(">drawn: 20 rows, 18 entries, 18 edges<"));
    check!(&rt; text.contains(">before, fill: 136<") && text.contains(">after, fill: 0<"));
    Ok(())
}

/// What is no order of the rows is not drawn.
#[test]
fn rows_in_no_order(rt: HostRuntime) -> Result<(), Fail> {
    let alloc = rt.alloc();
    let matrix = matrix_of(alloc, &DENSE_POINTERS, &DENSE_ROWS)?;
    let mut none = Vec::new(alloc);
    let outcome = write_picture(alloc, &matrix, &[0; 20], &source_of(18), &mut none);
    check!(&rt; matches!(outcome, Err(Cause::Form)) && none.is_empty());
    Ok(())
}

/// How many entries the columns of the exact factor of the 24 rows have below the diagonal, in the order of the
/// elimination.
const COLUMN_SIZES: [usize; 24] = [
    3, 4, 5, 3, 4, 5, 3, 3, 4, 4, 5, 5, 5, 4, 6, 6, 6, 6, 5, 4, 3, 2, 1, 0,
];

/// The line, the first cell and the width of a rectangle that a path draws as `M{from} {line}h{width}v1h-{width}z`.
fn run_of(text: &str) -> Option<(usize, usize, usize)> {
    let (from, rest) = text.split_once(' ')?;
    let (line, rest) = rest.split_once('h')?;
    let (width, _) = rest.split_once('v')?;
    Some((line.parse().ok()?, from.parse().ok()?, width.parse().ok()?))
}

/// Counts the cells of a rectangle below the diagonal, each in its column.
fn count_run(line: usize, from: usize, width: usize, sizes: &mut [usize]) {
    for column in from..from.saturating_add(width) {
        if let Some(size) = sizes.get_mut(column)
            && column < line
        {
            *size = size.saturating_add(1);
        }
    }
}

/// Counts the cells that the paths of a text draw below the diagonal, each in its column.
fn count_cells(text: &str, sizes: &mut [usize]) {
    for piece in text.split('M') {
        if let Some((line, from, width)) = run_of(piece) {
            count_run(line, from, width, sizes);
        }
    }
}

/// The text of the picture of the 24 rows in the order that they get.
fn picture_of_can_24(rt: &impl Abort, alloc: Global) -> Result<String, Fail> {
    let matrix = matrix_of(alloc, &POINTERS, &ROWS)?;
    let Ok((p, _)) = order_matrix(alloc, &matrix, &Default::default(), None) else {
        panic!(rt; "no ordering");
    };
    picture_of(rt, alloc, &matrix, &p, 68)
}

/// Entries and fill together are the columns of the exact factor: 68 edges and 28 entries of fill, and not the 29 of
/// the bound.
#[test]
fn fill_of_can_24(rt: HostRuntime) -> Result<(), Fail> {
    let text = picture_of_can_24(&rt, rt.alloc())?;
    check!(&rt; text.contains(">drawn: 24 rows, 160 entries, 68 edges<"));
    check!(&rt; text.contains(">before, fill: 78<") && text.contains(">after, fill: 28<"));
    let Some((_, after)) = text.as_str().split_once(">after, ") else {
        panic!(&rt; "no panel");
    };
    let mut sizes = [0; 24];
    count_cells(after, &mut sizes);
    check!(&rt; sizes == COLUMN_SIZES);
    Ok(())
}

/// The cells of each kind in three lines, among them the last one of each line.
#[test]
fn cells_of_three_kinds(rt: HostRuntime) -> Result<(), Fail> {
    let kinds = [1, 0, 2, 2, 2, 2, 0, 3, 1];
    let mut out = Vec::new(rt.alloc());
    check!(&rt; write_shape(3, &kinds, 1, "red", 100, &mut out).is_ok());
    check!(&rt; write_shape(3, &kinds, 2, "blue", 50, &mut out).is_ok());
    check!(&rt; write_shape(3, &kinds, 4, "green", 50, &mut out).is_ok());
    let text = String::from_utf8_lossy(rt.alloc(), &out)?;
    check!(&rt; text.as_str() == concat!(
        "<path fill=\"red\" fill-opacity=\"100%\" d=\"M0 0h1v1h-1zM2 2h1v1h-1z\"/>\n",
        "<path fill=\"blue\" fill-opacity=\"50%\" d=\"M2 0h1v1h-1zM0 1h3v1h-3z\"/>\n"
    ));
    Ok(())
}

/// The text of the picture of the twenty rows where no more than 16 rows of a factor are drawn: its fill is not.
fn picture_without_fill(rt: &impl Abort, alloc: Global) -> Result<String, Fail> {
    let matrix = matrix_of(alloc, &DENSE_POINTERS, &DENSE_ROWS)?;
    let mut source = source_of(18);
    source.most = 16;
    let mut out = Vec::new(alloc);
    let Ok(drawn) = write_picture(alloc, &matrix, &DENSE_ORDER, &source, &mut out) else {
        panic!(rt; "no picture");
    };
    check!(rt; drawn.before && !drawn.after);
    Ok(String::from_utf8_lossy(alloc, &out)?)
}

/// Where a factor has more rows below the blocks of its supernodes than are drawn, its fill is left out, and its count
/// stands.
#[test]
fn a_factor_that_is_too_large(rt: HostRuntime) -> Result<(), Fail> {
    let text = picture_without_fill(&rt, rt.alloc())?;
    let Some((before, after)) = text.as_str().split_once(">after, fill: 0<") else {
        panic!(&rt; "no panel");
    };
    check!(&rt; before.contains("#e07b39") && !before.contains("left out"));
    check!(&rt; after.contains(">the fill is left out: the factor is too large to draw<"));
    Ok(())
}

/// The pointers of five rows, of which the first has edges with the second, the fourth and the last one, and the third
/// one with the last.
const FIVE_POINTERS: [i32; 6] = [0, 3, 3, 4, 4, 4];

/// Their rows.
const FIVE_ROWS: [i32; 4] = [1, 3, 4, 4];

/// The text of the tree of a matrix in an order.
fn tree_of(alloc: Global, matrix: &Matrix<Global>, p: &[usize]) -> Result<String, Fail> {
    let mut out = Vec::new(alloc);
    if let Ok(made) = supernodes(alloc, matrix.n, &matrix.a_p, &matrix.a_i, p) {
        let (first, ptr) = (&made.first, &made.ptr);
        let _drawn = write_tree_picture(alloc, "tree", first, ptr, &made.parent, &mut out);
    }
    Ok(String::from_utf8_lossy(alloc, &out)?)
}

/// Three columns are children of the block of the last two, and stand in no postorder: each lies under that, beside the
/// others.
#[test]
fn the_smallest_tree_in_no_postorder(rt: HostRuntime) -> Result<(), Fail> {
    let alloc = rt.alloc();
    let matrix = matrix_of(alloc, &FIVE_POINTERS, &FIVE_ROWS)?;
    let text = tree_of(alloc, &matrix, &[1, 2, 3, 4, 0])?;
    check!(&rt; text.contains(">tree: 5 rows, 4 supernodes on 2 levels, largest front 2 rows<"));
    check!(&rt; text.contains(" d=\"M0 0h5v1h-5zM0 1h3v1h-3z\"/>"));
    check!(&rt; text.contains(" d=\"M2 1h1v1h-1zM1 1h1v1h-1zM0 1h1v1h-1zM0 0h5v1h-5z\"/>"));
    Ok(())
}

/// The outlines of the blocks of the 24 rows.
const BLOCKS: &str = concat!(
    "M14 3h1v1h-1zM14 2h2v1h-2zM14 1h3v1h-3zM8 6h1v1h-1zM8 5h2v1h-2zM8 4h3v1h-3z",
    "M2 8h1v1h-1zM0 9h1v1h-1zM0 8h2v1h-2zM0 7h4v1h-4zM0 6h5v1h-5zM0 5h6v1h-6z",
    "M0 4h8v1h-8zM0 3h12v1h-12zM0 2h13v1h-13zM0 1h14v1h-14zM0 0h24v1h-24z"
);

#[test]
fn tree_of_can_24(rt: HostRuntime) -> Result<(), Fail> {
    let alloc = rt.alloc();
    let matrix = matrix_of(alloc, &POINTERS, &ROWS)?;
    let Ok((p, _)) = order_matrix(alloc, &matrix, &Default::default(), None) else {
        panic!(&rt; "no ordering");
    };
    let text = tree_of(alloc, &matrix, &p)?;
    check!(&rt; text.contains(">tree: 24 rows, 17 supernodes on 10 levels, largest front 7 rows<"));
    check!(&rt; text.contains(BLOCKS));
    Ok(())
}

/// The numbers from 0 up to a count, which is not among them.
fn numbers_below(alloc: Global, count: usize) -> Result<Vec<usize>, AllocError> {
    let mut numbers = Vec::new(alloc);
    for number in 0..count {
        numbers.push(number)?;
    }
    Ok(numbers)
}

/// The parents in a chain of 20,000 supernodes: the next one of each, and none of the last.
fn parents_in_chain(alloc: Global) -> Result<Vec<Option<usize>>, AllocError> {
    let mut parents = Vec::new(alloc);
    for s in 1..20_000usize {
        parents.push(Some(s))?;
    }
    parents.push(None)?;
    Ok(parents)
}

/// The text of the picture of this chain, each with one row.
fn chain_drawn(rt: &impl Abort, alloc: Global) -> Result<String, Fail> {
    let first = numbers_below(alloc, 20_001)?;
    let parents = parents_in_chain(alloc)?;
    let mut out = Vec::new(alloc);
    check!(rt; write_tree_picture(alloc, "chain", &first, &first, &parents, &mut out).is_ok());
    Ok(String::from_utf8_lossy(alloc, &out)?)
}

/// A chain of 20,000 supernodes has 120 lines, and a cell is 25 columns on 167 levels.
#[test]
fn a_long_chain(rt: HostRuntime) -> Result<(), Fail> {
    let text = chain_drawn(&rt, rt.alloc())?;
    check!(&rt; text.contains(" viewBox=\"0 0 860 2270\"") && text.as_str().len() < 100_000);
    check!(&rt; text.contains(">A cell is 25 columns on 167 levels, and shows the largest front in it.<"));
    Ok(())
}
