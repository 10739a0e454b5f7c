// Reads the matrix of a file: a text in the coordinate format of the Matrix Market where the name ends in `.mtx`, and
// else the binary form of `amd_cases`.

ghost use Rattle.std.specs.Prelude.{IfOk};

use amd_cases::matrix::{BinaryMatrix, read_matrix};
use amd_market::reader::{Matrix as Listed, read_matrix as read_listed};
use amd_types::index::Index;
use amd_types::signed::SignedIndex;
use anyhow::{Context, Result};
use std::alloc::Global;
use std::fs;
use std::io::BufReader;
use std::rt::Files;

/// Numbers in the type that was asked for.
fn converted<R: Alloc<A = Global>, I: Index>(rt: &R, numbers: &[usize]) -> Result<Vec<I>> {
    let mut list = Vec::with_capacity(rt.alloc(), numbers.len())?;
    'numbers: for &number in numbers {
        let number = I::from_count(number);
        list.push(number.context("a number does not fit")?)?;
    }
    Ok(list)
}

/// A matrix of the Matrix Market in the type of numbers that was asked for.
fn narrowed<R: Alloc<A = Global>, I: Index>(
    rt: &R,
    matrix: &Listed<Global>,
) -> Result<BinaryMatrix<I, Global>>
    ensures { IfOk result (λ m. I.fits (I.value m.n)) }
{
    let n = I::from_count(matrix.n);
    Ok(BinaryMatrix {
        n: n.context("a number does not fit")?,
        a_p: converted(rt, &matrix.a_p)?,
        a_i: converted(rt, &matrix.a_i)?,
    })
}

/// Reads the matrix of the file at a path.
pub fn read_file<R: Files + Alloc<A = Global>, I: SignedIndex>(
    rt: &R,
    path: &str,
) -> Result<BinaryMatrix<I, Global>>
    ensures { IfOk result (λ m. I.fits (I.value m.n)) }
{
    let mut file = BufReader::new(rt.alloc(), fs::open(rt, path)?)?;
    if path.ends_with(".mtx") {
        return narrowed(rt, &read_listed(rt.alloc(), file)?);
    }
    Ok(read_matrix(rt.alloc(), &mut file)?)
}
