//! Times `order` on a matrix file: `amd_bench FILE i32|i64 REPEATS`. A file whose name ends in `.mtx` is a text
//! of the Matrix Market, and any other one has the binary format of `amd_cases`. With a fourth word, `columns` or
//! `analyze`, it times that call of `amd_symbolic`, `columns` under the order that `order` gives. With `within` it
//! times orderings in a workspace that was made before, and with `stages` the stages of a call of `order`. With `peak`
//! it tells the memory of a call.
//!
//! It prints one line: the type of numbers, the name of the file, the figures of the ordering and a hash of the
//! permutation, or the number of the factor's entries and a hash of them, and the least and the median time of a call
//! in nanoseconds. For `stages` it prints a line for each stage, and one for a whole call, with the hash of the
//! permutation; for `peak`, in place of times, the most bytes that stood at once beside the input, and the number of
//! requests for memory. Reading the file is not timed. With other arguments it says on standard error how it is called,
//! and ends with status 2. Where the file cannot be read or holds no matrix, and where memory is refused, a message
//! names the file, and the status is 1.
#![tactic(auto)]

mod factors;
mod memory;
mod reading;
mod stages;
mod within;

use crate::factors::{Factored, analyze_often, columns_often};
use crate::memory::{Taken, most_taken};
use crate::reading::read_file;
use crate::stages::{Staged, stages_often};
use crate::within::order_within_often;
use amd::{Control, Info, Status, order};
use amd_cases::matrix::BinaryMatrix;
use amd_types::index::Index;
use anyhow::{Context, Result, bail};
use num_traits::PrimInt;
use std::alloc::Global;
use std::env;
use std::process::ExitCode;
use std::rt::{Clock, Runtime};
use std::time::{Duration, Instant};

/// What the calls returned, which is the same each time, and how long each took.
#[derive(Drop)]
pub struct Outcome<I> {
    pub p: Vec<I>,
    pub info: Info,
    pub times: Vec<Duration>,
}

/// Orders a matrix by the default control, and says how long that took. It is compiled apart from its caller, so that
/// no other loop takes its registers.
#[inline(never)]
fn time_order<R: Clock + Alloc<A = Global>, I: PrimInt>(
    rt: &R,
    matrix: &BinaryMatrix<I, Global>,
) -> Result<(Vec<I>, Info, Duration)>
    requires { I.fits (I.value matrix.now.n) }
{
    let control = Control::default();
    let start = Instant::now(rt)?;
    let answer = order(rt.alloc(), matrix.n, &matrix.a_p, &matrix.a_i, &control);
    let time = start.elapsed(rt)?;
    match answer {
        Ok((p, _, info)) => Ok((p, info, time)),
        Err(Status::Invalid) => bail!("the file holds no column form"),
        Err(_) => bail!("out of memory"),
    }
}

/// Orders a matrix by the default control some times.
fn order_often<R: Clock + Alloc<A = Global>, I: PrimInt>(
    rt: &R,
    matrix: &BinaryMatrix<I, Global>,
    repeats: usize,
) -> Result<Outcome<I>>
    requires { I.fits (I.value matrix.now.n) }
{
    let mut times = Vec::new(rt.alloc());
    let mut last = None;
    'repeats: for _ in 0..repeats {
        let (p, info, time) = time_order(rt, matrix)?;
        last = Some((p, info));
        times.push(time)?;
    }
    let (p, info) = last.context("no repeats")?;
    Ok(Outcome { p, info, times })
}

/// A hash of a list: from a fixed start, each number is mixed in by an exclusive or and a product. The factor is the
/// FNV-1a prime, and the start any fixed number, the same in the programs that `docs/BENCHMARKS.md` compares.
fn hash_of<I: Index>(numbers: &[I]) -> Result<u64> {
    let mut hash: u64 = 1469598103934665603;
    'numbers: for number in numbers {
        let number = number.to_count().context("a negative row")?;
        hash = (hash ^ number as u64).wrapping_mul(1099511628211);
    }
    Ok(hash)
}

/// Ends a line with the least and the median of times.
fn print_times<R: Print>(rt: &R, mut times: Vec<Duration>) -> Result<()> {
    times.sort_unstable();
    let least = times.first().context("no repeats")?.as_nanos();
    let middle = times.get(times.len() / 2);
    let median = middle.context("no repeats")?.as_nanos();
    println!(rt; " min_ns={least} med_ns={median}")?;
    Ok(())
}

/// Prints the figures of an ordering.
fn print_figures<R: Print>(rt: &R, info: &Info) -> Result<()> {
    print!(rt; " n={} nz={}", info.n, info.nz)?;
    print!(rt; " nzaat={} lnz={}", info.nz_a_plus_at, info.lnz)?;
    print!(rt; " ldl={} lu={}", info.n_mult_subs_ldl, info.n_mult_subs_lu)?;
    print!(rt;
        " dmax={} ndense={} ncmpa={}",
        info.d_max, info.n_dense, info.n_cmp_a
    )?;
    Ok(())
}

/// Begins a line with what `order` returned.
fn print_ordering<R: Print, I: Index>(
    rt: &R,
    kind: &str,
    name: &str,
    p: &[I],
    info: &Info,
) -> Result<()> {
    let hash = hash_of(p)?;
    print!(rt; "rattle {kind} {name}")?;
    print_figures(rt, info)?;
    print!(rt; " phash={hash:016x}")?;
    Ok(())
}

/// Prints what the calls of `order` returned, and their times.
fn print_outcome<R: Print, I: Index>(
    rt: &R,
    kind: &str,
    name: &str,
    outcome: Outcome<I>,
) -> Result<()> {
    print_ordering(rt, kind, name, &outcome.p, &outcome.info)?;
    print_times(rt, outcome.times)
}

/// Prints what the calls of `order` returned, and the memory of one.
fn print_taken<R: Print, I: Index>(rt: &R, kind: &str, name: &str, taken: &Taken<I>) -> Result<()> {
    print_ordering(rt, kind, name, &taken.p, &taken.info)?;
    println!(rt; " peak={} requests={}", taken.peak, taken.requests)?;
    Ok(())
}

/// Prints what the calls of `columns` or `analyze` returned, and their times.
fn print_factored<R: Print>(
    rt: &R,
    kind: &str,
    name: &str,
    what: &str,
    factored: Factored,
) -> Result<()> {
    let hash = hash_of(&factored.factor.rows)?;
    let entries = factored.factor.rows.len();
    print!(rt; "rattle {kind} {name} {what} entries={entries} hash={hash:016x}")?;
    print_times(rt, factored.times)
}

/// The times of a stage in each of some calls, which have their stages in one order.
fn times_of<R: Alloc<A = Global>>(
    rt: &R,
    calls: &[Vec<(&'static str, Duration)>],
    stage: usize,
) -> Result<Vec<Duration>> {
    let mut times = Vec::with_capacity(rt.alloc(), calls.len())?;
    'calls: for call in calls {
        let (_, time) = call.get(stage).context("no such stage")?;
        times.push(*time)?;
    }
    Ok(times)
}

/// Prints a line with the times of each stage; that of the whole call, the last one, has the hash of the permutation.
fn print_staged<R: Print + Alloc<A = Global>, I: Index>(
    rt: &R,
    kind: &str,
    name: &str,
    staged: &Staged<I>,
) -> Result<()> {
    let hash = hash_of(&staged.p)?;
    let stages = staged.calls.first().context("no repeats")?;
    'stages: for (place, (stage, _)) in stages.iter().enumerate() {
        print!(rt; "rattle {kind} {name} {stage}")?;
        if *stage == "whole" {
            print!(rt; " phash={hash:016x}")?;
        }
        print_times(rt, times_of(rt, &staged.calls, place)?)?;
    }
    Ok(())
}

/// What the words of a command line ask for: a file, a type of numbers, a call, and how often.
#[derive(Clone, Copy)]
struct Request<'a> {
    path: &'a str,
    kind: &'a str,
    call: &'a str,
    repeats: usize,
}

/// What the words ask for, of which the first is the name of the program; `None` where they are not those that it
/// takes.
fn request_of(words: &[String]) -> Option<Request<'_>> {
    let (path, kind, repeats, call) = match words {
        [_, path, kind, repeats] => (path, kind.as_str(), repeats, "order"),
        [_, path, kind, repeats, call] => (path, kind.as_str(), repeats, call.as_str()),
        _ => return None,
    };
    let repeats: usize = repeats.parse().ok()?;
    let is_kind = matches!(kind, "i32" | "i64");
    let is_call = matches!(
        call,
        "order" | "within" | "columns" | "analyze" | "stages" | "peak"
    );
    if !is_kind || !is_call || repeats == 0 {
        return None;
    }
    Some(Request {
        path,
        kind,
        call,
        repeats,
    })
}

/// Times a call on a matrix, and prints what it returned.
fn time_call<R: Runtime + Alloc<A = Global>, I: PrimInt>(
    rt: &R,
    request: &Request<'_>,
    name: &str,
    matrix: &BinaryMatrix<I, Global>,
) -> Result<()>
    requires { I.fits (I.value matrix.now.n) }
{
    let (kind, call, repeats) = (request.kind, request.call, request.repeats);
    match call {
        "columns" => print_factored(rt, kind, name, call, columns_often(rt, matrix, repeats)?),
        "analyze" => print_factored(rt, kind, name, call, analyze_often(rt, matrix, repeats)?),
        "within" => print_outcome(rt, kind, name, order_within_often(rt, matrix, repeats)?),
        "stages" => print_staged(rt, kind, name, &stages_often(rt, matrix, repeats)?),
        "peak" => print_taken(rt, kind, name, &most_taken(rt, matrix, repeats)?),
        _ => print_outcome(rt, kind, name, order_often(rt, matrix, repeats)?),
    }
}

/// Times a call on the matrix of a file in one type of numbers.
fn time_file<R: Runtime + Alloc<A = Global>, I: PrimInt>(
    rt: &R,
    request: &Request<'_>,
) -> Result<()> {
    let path = request.path;
    let matrix: BinaryMatrix<I, Global> = read_file(rt, path)?;
    let name = path.rsplit('/').next().unwrap_or(path);
    time_call(rt, request, name, &matrix)
}

/// Times what is asked for.
fn answer<R: Runtime + Alloc<A = Global>>(rt: &R, request: &Request<'_>) -> Result<()> {
    match request.kind {
        "i32" => time_file::<_, i32>(rt, request),
        _ => time_file::<_, i64>(rt, request),
    }
}

fn main(rt: HostRuntime) -> Result<ExitCode> {
    let words: Vec<String> = env::args(&rt)?.collect(rt.alloc())?;
    let Some(request) = request_of(&words) else {
        eprintln!(rt;
            "usage: amd_bench FILE i32|i64 REPEATS [order|within|columns|analyze|stages|peak]"
        )?;
        return Ok(ExitCode::from(2));
    };
    answer(&rt, &request).context(request.path)?;
    Ok(ExitCode::SUCCESS)
}
