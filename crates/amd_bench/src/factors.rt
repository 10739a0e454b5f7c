// Times the exact factor of a matrix: `columns` under an order that was made before, or `analyze`, which makes the
// order too.

use amd::{Control, order};
use amd_cases::matrix::BinaryMatrix;
use amd_symbolic::{Factor, Fault, analyze, columns};
use anyhow::{Context, Result, bail};
use num_traits::PrimInt;
use std::alloc::Global;
use std::rt::Clock;
use std::time::{Duration, Instant};

/// What the calls returned, which is the same each time, and how long each took.
#[derive(Drop)]
pub struct Factored {
    pub factor: Factor<Global>,
    pub times: Vec<Duration>,
}

/// What stands for a factor that was not made.
fn told(fault: Fault) -> &'static str {
    match fault {
        Fault::NotColumnForm => "the file holds no column form",
        Fault::NotPermutation => "the order is no permutation",
        Fault::RoomTooSmall => "the factor passes its bound",
        Fault::OutOfMemory => "out of memory",
    }
}

/// Makes the columns of a matrix under an order, with this room, and says how long that took.
fn time_columns<R: Clock + Alloc<A = Global>, I: PrimInt>(
    rt: &R,
    matrix: &BinaryMatrix<I, Global>,
    p: &[I],
    room: usize,
) -> Result<(Factor<Global>, Duration)>
    requires { I.fits (I.value matrix.now.n) }
{
    let start = Instant::now(rt)?;
    let answer = columns(rt.alloc(), matrix.n, &matrix.a_p, &matrix.a_i, p, room);
    let time = start.elapsed(rt)?;
    match answer {
        Ok(factor) => Ok((factor, time)),
        Err(fault) => bail!("{}", told(fault)),
    }
}

/// Orders a matrix by the default control and makes the columns under this order, and says how long that took.
fn time_analysis<R: Clock + Alloc<A = Global>, I: PrimInt>(
    rt: &R,
    matrix: &BinaryMatrix<I, Global>,
) -> Result<(Factor<Global>, Duration)>
    requires { I.fits (I.value matrix.now.n) }
{
    let control = Control::default();
    let start = Instant::now(rt)?;
    let answer = analyze(rt.alloc(), matrix.n, &matrix.a_p, &matrix.a_i, &control);
    let time = start.elapsed(rt)?;
    match answer {
        Ok((_, _, _, factor)) => Ok((factor, time)),
        Err(fault) => bail!("{}", told(fault)),
    }
}

/// Makes the columns of a matrix some times, under the order by the default control, with its bound as room.
#[inline(never)]
pub fn columns_often<R: Clock + Alloc<A = Global>, I: PrimInt>(
    rt: &R,
    matrix: &BinaryMatrix<I, Global>,
    repeats: usize,
) -> Result<Factored>
    requires { I.fits (I.value matrix.now.n) }
{
    let control = Control::default();
    let ordering = order(rt.alloc(), matrix.n, &matrix.a_p, &matrix.a_i, &control);
    let Ok((p, _, info)) = ordering else {
        bail!("no ordering");
    };
    let mut times = Vec::new(rt.alloc());
    let mut last = None;
    'repeats: for _ in 0..repeats {
        // The factor before is given back outside the time.
        last = None;
        let (factor, time) = time_columns(rt, matrix, &p, info.lnz)?;
        last = Some(factor);
        times.push(time)?;
    }
    let factor = last.context("no repeats")?;
    Ok(Factored { factor, times })
}

/// Orders a matrix by the default control and makes the columns under this order, some times.
#[inline(never)]
pub fn analyze_often<R: Clock + Alloc<A = Global>, I: PrimInt>(
    rt: &R,
    matrix: &BinaryMatrix<I, Global>,
    repeats: usize,
) -> Result<Factored>
    requires { I.fits (I.value matrix.now.n) }
{
    let mut times = Vec::new(rt.alloc());
    let mut last = None;
    'repeats: for _ in 0..repeats {
        // The factor before is given back outside the time.
        last = None;
        let (factor, time) = time_analysis(rt, matrix)?;
        last = Some(factor);
        times.push(time)?;
    }
    let factor = last.context("no repeats")?;
    Ok(Factored { factor, times })
}
