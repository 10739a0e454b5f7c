//! Orders the cases of its standard input and writes the results, one item a line:
//!
//!     CASE k
//!     STATUS OK | OkButJumbled | Invalid
//!     P ..
//!     PINV ..
//!     INFO n nz symmetry(0|1) nz_diag nz_a_plus_at n_dense lnz n_div ldl lu d_max
//!     END
//!
//! Where the status is `Invalid` the three lines behind it are left out. The format of the input is that of
//! `amd_cases`; with `HOLD` the marked rows are held last. A case with `PERM` and `ROOM` asks for the columns of the
//! factor instead. Its result has these lines in place of the four between `CASE` and `END`, with -1 for no parent:
//!
//!     FAULT Ok | NotColumnForm | NotPermutation | RoomTooSmall
//!     PTR ..
//!     ROWS ..
//!     PARENT ..
//!
//! Where there is a fault the three lists are empty. The items `T`, `AGG` and `HOLD` of such a case are not used.
//!
//! At a line that is at fault, at a case with `PERM` or `ROOM` alone, and at a negative room, the program names it on
//! standard error and ends with status 1; the results before it are written.
#![tactic(auto)]

use amd::{Control, Info, Status, order, order_holding};
use amd_cases::cases::Case;
use amd_cases::reader::CaseReader;
use amd_symbolic::{Factor, Fault, columns};
use anyhow::{Result, bail};
use std::alloc::Allocator;
use std::fmt::Display;
use std::io;
use std::io::{BufWriter, Read, Write};

/// Writes a keyword and numbers in one line.
fn write_numbers<W: Write, N: Display>(
    out: &mut W,
    keyword: &str,
    numbers: &[N],
) -> io::Result<()> {
    write!(out, "{keyword}")?;
    'numbers: for number in numbers {
        write!(out, " {number}")?;
    }
    writeln!(out)
}

/// Writes the figures of an ordering in one line.
fn write_info<W: Write>(out: &mut W, info: &Info) -> io::Result<()> {
    let symmetry = u8::from(info.symmetry);
    write!(out, "INFO {} {} {symmetry}", info.n, info.nz)?;
    write!(out, " {} {}", info.nz_diag, info.nz_a_plus_at)?;
    write!(out, " {} {} {}", info.n_dense, info.lnz, info.n_div)?;
    write!(out, " {} {}", info.n_mult_subs_ldl, info.n_mult_subs_lu)?;
    writeln!(out, " {}", info.d_max)
}

/// An ordering: the permutation, its inverse, and the record.
type Ordering<A> = (Vec<i64, A>, Vec<i64, A>, Info);

/// Orders a case, with its marked rows held last where it has marks.
fn order_case<A: Allocator + Copy>(
    alloc: A,
    case: &Case<A>,
    control: &Control,
) -> Result<Ordering<A>, Status> {
    match &case.hold {
        Some(hold) => order_holding(alloc, case.n, &case.a_p, &case.a_i, control, hold),
        None => order(alloc, case.n, &case.a_p, &case.a_i, control),
    }
}

/// Orders a case and writes what is known.
fn write_ordering<W: Write, A: Allocator + Copy>(
    alloc: A,
    case: &Case<A>,
    out: &mut W,
) -> Result<()> {
    let control = Control {
        dense: case.dense,
        aggressive: case.aggressive,
    };
    match order_case(alloc, case, &control) {
        Ok((p, p_inv, info)) => {
            writeln!(out, "STATUS {:?}", info.status)?;
            write_numbers(out, "P", &p)?;
            write_numbers(out, "PINV", &p_inv)?;
            write_info(out, &info)?;
        }
        Err(Status::Invalid) => writeln!(out, "STATUS Invalid")?,
        Err(_) => bail!("out of memory"),
    }
    Ok(())
}

/// Writes the parents of the columns in one line.
fn write_parents<W: Write>(out: &mut W, parents: &[Option<usize>]) -> io::Result<()> {
    write!(out, "PARENT")?;
    'parents: for parent in parents {
        match parent {
            Some(place) => write!(out, " {place}")?,
            None => write!(out, " -1")?,
        }
    }
    writeln!(out)
}

/// Writes the columns of a factor.
fn write_factor<W: Write, A: Allocator>(out: &mut W, factor: &Factor<A>) -> io::Result<()> {
    write_numbers(out, "PTR", &factor.ptr)?;
    write_numbers(out, "ROWS", &factor.rows)?;
    write_parents(out, &factor.parent)
}

/// The room that is asked for first.
const FIRST_ROOM: usize = 1024;

/// The columns of the factor of a case under a permutation, where they have no more than `room` entries. Since memory
/// is asked for all of a room, whatever the factor needs, it is doubled from a small one on until it is enough: a case
/// with a great room and few rows asks for no more than that.
fn columns_within<A: Allocator + Copy>(
    alloc: A,
    case: &Case<A>,
    p: &[i64],
    room: usize,
) -> Result<Factor<A>, Fault> {
    let mut tried = room.min(FIRST_ROOM);
    'rooms: for _ in 0..usize::BITS {
        match columns(alloc, case.n, &case.a_p, &case.a_i, p, tried) {
            Err(Fault::RoomTooSmall) if tried < room => {
                tried = tried.saturating_mul(2).min(room);
            }
            outcome => return outcome,
        }
    }
    columns(alloc, case.n, &case.a_p, &case.a_i, p, room)
}

/// Writes the columns of the factor of a case under a permutation, where they have no more than `room` entries.
fn write_columns<W: Write, A: Allocator + Copy>(
    alloc: A,
    case: &Case<A>,
    p: &[i64],
    room: usize,
    out: &mut W,
) -> Result<()> {
    match columns_within(alloc, case, p, room) {
        Ok(factor) => {
            writeln!(out, "FAULT Ok")?;
            write_factor(out, &factor)?;
        }
        Err(Fault::OutOfMemory) => bail!("out of memory"),
        Err(fault) => writeln!(out, "FAULT {fault:?}\nPTR\nROWS\nPARENT")?,
    }
    Ok(())
}

/// The permutation and the room with which a case asks for the columns of the factor, where it does.
fn columns_asked<A: Allocator>(case: &Case<A>) -> Result<Option<(&[i64], usize)>> {
    let number = case.number;
    match (&case.permutation, case.room) {
        (None, None) => Ok(None),
        (Some(p), Some(room)) => match usize::try_from(room) {
            Ok(room) => Ok(Some((p, room))),
            Err(_) => bail!("case {number} has a negative room"),
        },
        _ => bail!("case {number} has PERM or ROOM alone"),
    }
}

/// Writes the result of a case.
fn answer<W: Write, A: Allocator + Copy>(alloc: A, case: &Case<A>, out: &mut W) -> Result<()> {
    let asked = columns_asked(case)?;
    let number = case.number;
    writeln!(out, "CASE {number}")?;
    match asked {
        Some((p, room)) => write_columns(alloc, case, p, room, out)?,
        None => write_ordering(alloc, case, out)?,
    }
    writeln!(out, "END")?;
    Ok(())
}

/// Writes the result of each case of an input.
fn replay<R: Read + Drop, W: Write, A: Allocator + Copy>(
    alloc: A,
    input: R,
    out: &mut W,
) -> Result<()> {
    let mut cases = CaseReader::new(alloc, input);
    // The loop has a bound because every function must return; no input has so many cases.
    'cases: for _ in 0..u64::MAX {
        let Some(case) = cases.next_case()? else {
            return Ok(());
        };
        answer(alloc, &case, out)?;
    }
    bail!("too many cases")
}

fn main(rt: HostRuntime) -> Result<()> {
    let mut out = BufWriter::new(rt.alloc(), io::writer(&rt))?;
    let outcome = replay(rt.alloc(), rt.reader(), &mut out);
    out.flush()?;
    outcome
}
