// Tells the memory that a call of `order` takes beside its input, by an allocator that counts.

use amd::{Control, Info, Status, order};
use amd_cases::matrix::BinaryMatrix;
use amd_testing::refusing::Refusing;
use anyhow::{Context, Result, bail};
use num_traits::PrimInt;
use std::alloc::Global;

/// What the calls returned, which is the same each time, and the memory of the call that took most.
#[derive(Drop)]
pub struct Taken<I> {
    pub p: Vec<I>,
    pub info: Info,
    /// The most bytes that stood at once.
    pub peak: u64,
    /// How many requests that call made.
    pub requests: u64,
}

/// A copy of a list that does not need the allocator which that list came from.
fn copied<I: Copy>(alloc: Global, numbers: &[I]) -> Result<Vec<I>> {
    Ok(Vec::from_slice(alloc, numbers)?)
}

/// Orders a matrix by the default control once.
fn taken_once<R: Alloc<A = Global>, I: PrimInt>(
    rt: &R,
    matrix: &BinaryMatrix<I, Global>,
) -> Result<Taken<I>>
    requires { I.fits (I.value matrix.now.n) }
{
    let control = Control::default();
    let heap = Refusing::new(rt.alloc(), 0);
    let answer = order(&heap, matrix.n, &matrix.a_p, &matrix.a_i, &control);
    let (peak, requests) = (heap.peak(), heap.requests());
    match answer {
        Ok((p, _, info)) => Ok(Taken {
            p: copied(rt.alloc(), &p)?,
            info,
            peak,
            requests,
        }),
        Err(Status::Invalid) => bail!("the file holds no column form"),
        Err(_) => bail!("out of memory"),
    }
}

/// Orders a matrix by the default control some times.
pub fn most_taken<R: Alloc<A = Global>, I: PrimInt>(
    rt: &R,
    matrix: &BinaryMatrix<I, Global>,
    repeats: usize,
) -> Result<Taken<I>>
    requires { I.fits (I.value matrix.now.n) }
{
    let mut most = taken_once(rt, matrix)?;
    'repeats: for _ in 1..repeats {
        let taken = taken_once(rt, matrix)?;
        if taken.peak > most.peak {
            most = taken;
        }
    }
    Ok(most)
}
