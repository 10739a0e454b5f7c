// The families of inputs by name, so that a test goes through a table of them.

use crate::inputs::{
    complete, complete_below, cycle, drawn, drawn_with_hub, grid, path, star, star_to_last,
};
use std::alloc::{AllocError, Global};

/// A family of inputs: those of `inputs`, each under its name there, and matrices without entries.
#[derive(Clone, Copy, Debug, Drop)]
pub enum Family {
    Empty,
    Path,
    Cycle,
    Star,
    StarToLast,
    CompleteBelow,
    Complete,
    Grid,
    Drawn,
    DrawnWithHub,
}

/// How many rows the graph of a family has at this size. A grid has the size on each side.
fn rows_of(family: Family, size: i64) -> i64 {
    match family {
        Family::Grid => size.max(1).saturating_mul(size.max(1)),
        _ => size,
    }
}

/// Pointers of so many columns without entries.
fn without_entries(alloc: Global, n: i64) -> Result<(Vec<i64>, Vec<i64>), AllocError> {
    let mut a_p = Vec::new(alloc);
    a_p.push(0)?;
    for _ in 0..n {
        a_p.push(0)?;
    }
    Ok((a_p, Vec::new(alloc)))
}

/// The graph of a family at this size; without entries where the family has matrices that are drawn.
fn graph_of(alloc: Global, family: Family, size: i64) -> Result<(Vec<i64>, Vec<i64>), AllocError> {
    match family {
        Family::Path => path(alloc, size),
        Family::Cycle => cycle(alloc, size),
        Family::Star => star(alloc, size),
        Family::StarToLast => star_to_last(alloc, size),
        Family::CompleteBelow => complete_below(alloc, size),
        Family::Complete => complete(alloc, size),
        Family::Grid => grid(alloc, size),
        _ => without_entries(alloc, size),
    }
}

/// The input of a family at this size, which is the seed of a matrix that is drawn: the number of rows, the pointers
/// and the rows.
pub fn member(
    alloc: Global,
    family: Family,
    size: i64,
) -> Result<(i64, Vec<i64>, Vec<i64>), AllocError> {
    let seed = u64::try_from(size).unwrap_or(0);
    match family {
        Family::Drawn => drawn(alloc, seed),
        Family::DrawnWithHub => drawn_with_hub(alloc, seed),
        _ => {
            let (a_p, a_i) = graph_of(alloc, family, size)?;
            Ok((rows_of(family, size), a_p, a_i))
        }
    }
}

/// Hands the matrix of a family at each of these sizes to a test: the number of rows, the pointers and the rows.
///
/// # Errors
///
/// A refused request for memory, also that of the test, which ends the walk.
pub fn each_member<F: Fn(i64, &[i64], &[i64]) -> Result<(), AllocError>>(
    alloc: Global,
    family: Family,
    first: i64,
    last: i64,
    test: F,
) -> Result<(), AllocError>
    requires { F.IsAlwaysCallable test }
{
    for size in first..=last {
        let (n, a_p, a_i) = member(alloc, family, size)?;
        test(n, &a_p, &a_i)?;
    }
    Ok(())
}
