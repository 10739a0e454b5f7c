// Times orderings in a workspace that was made before: what a caller waits for who takes memory once. The making of the
// workspace is not timed.

use crate::Outcome;
use amd::{Control, Info, Refusal, Workspace};
use amd_cases::matrix::BinaryMatrix;
use anyhow::{Context, Result, bail};
use num_traits::PrimInt;
use std::alloc::Global;
use std::rt::Clock;
use std::time::{Duration, Instant};

/// A workspace, and the lists into which it orders.
#[derive(Drop)]
struct OwnLists<I> {
    workspace: Workspace<Global>,
    p: Vec<I>,
    p_inv: Vec<I>,
}

/// A workspace for a matrix, and lists for its permutation.
fn lists_for<R: Alloc<A = Global>, I: PrimInt>(
    rt: &R,
    matrix: &BinaryMatrix<I, Global>,
) -> Result<OwnLists<I>> {
    let size = matrix.a_p.len().saturating_sub(1);
    let p = vec![in rt.alloc(); I::zero(); size]?;
    let p_inv = vec![in rt.alloc(); I::zero(); size]?;
    let workspace = Workspace::new(rt.alloc(), size, matrix.a_i.len())?;
    Ok(OwnLists {
        workspace,
        p,
        p_inv,
    })
}

/// Orders a matrix by the default control, and says how long that took. It is compiled apart from its caller, so that
/// no other loop takes its registers.
#[inline(never)]
fn time_within<R: Clock, I: PrimInt>(
    rt: &R,
    matrix: &BinaryMatrix<I, Global>,
    lists: &mut OwnLists<I>,
) -> Result<(Info, Duration)>
    requires { I.fits (I.value matrix.now.n) }
{
    let control = Control::default();
    let (p, p_inv) = (&mut lists.p, &mut lists.p_inv);
    let start = Instant::now(rt)?;
    let answer = lists
        .workspace
        .order(matrix.n, &matrix.a_p, &matrix.a_i, &control, p, p_inv);
    let time = start.elapsed(rt)?;
    match answer {
        Ok(info) => Ok((info, time)),
        Err(Refusal::Invalid) => bail!("the file holds no column form"),
        Err(Refusal::TooLarge) => bail!("the workspace is too small"),
    }
}

/// Orders a matrix by the default control some times, in one workspace: what each ordering tells, and the times.
fn times_within<R: Clock + Alloc<A = Global>, I: PrimInt>(
    rt: &R,
    matrix: &BinaryMatrix<I, Global>,
    repeats: usize,
    lists: &mut OwnLists<I>,
) -> Result<(Info, Vec<Duration>)>
    requires { I.fits (I.value matrix.now.n) }
{
    let mut times = Vec::new(rt.alloc());
    let mut last = None;
    'repeats: for _ in 0..repeats {
        let (info, time) = time_within(rt, matrix, lists)?;
        times.push(time)?;
        last = Some(info);
    }
    let info = last.context("no repeats")?;
    Ok((info, times))
}

/// Orders a matrix by the default control some times, in one workspace.
pub fn order_within_often<R: Clock + Alloc<A = Global>, I: PrimInt>(
    rt: &R,
    matrix: &BinaryMatrix<I, Global>,
    repeats: usize,
) -> Result<Outcome<I>>
    requires { I.fits (I.value matrix.now.n) }
{
    let mut lists = lists_for(rt, matrix)?;
    match times_within(rt, matrix, repeats, &mut lists) {
        Ok((info, times)) => Ok(Outcome {
            p: lists.p,
            info,
            times,
        }),
        Err(error) => Err(error),
    }
}
