// The demo that orders one small matrix and prints the permutation, its inverse, and what the ordering tells, after the
// first demo of the AMD user guide.

ghost use Rattle.std.specs.Prelude.{◌≡◌, ◌≢◌, ◌≤◌, pos, true, false, IfOk, OnOk};
ghost use Rattle.std.specs.Io.KnownBytes.{Appends};
ghost use Rattle.amd_demos.specs.Lines.{failure_line};
ghost use Rattle.amd_demos.specs.Demos.{HasOrdering, ordering_text};

use crate::numbers::write_list;
use crate::outcome::write_failure;
use amd::{Control, Info, Status, info, order};
use std::alloc::Allocator;
use std::io;
use std::io::Write;

/// Writes an ordering: a permutation, its inverse, and the record.
fn write_ordering<W: Write>(p: &[i32], p_inv: &[i32], told: &Info, out: &mut W) -> io::Result<()>
    ensures { OnOk result (Appends (W.contents out.old) (W.contents out.new) (ordering_text p.now p_inv.now told.now)) }
{
    write_list("P", p, out)?;
    write_list("PInv", p_inv, out)?;
    info(told, out)?;
    Ok(())
}

/// Orders a matrix, and writes the ordering, or that there is none. Returns whether it was the former.
fn print_outcome<W: Write, A: Allocator + Copy>(
    alloc: A,
    n: i32,
    a_p: &[i32],
    a_i: &[i32],
    out: &mut W,
) -> io::Result<bool>
    ensures ordered { IfOk result (λ ordered. ordered ≡ true →
        HasOrdering n a_p.now a_i.now (W.contents out.old) (W.contents out.new)) }
    ensures failure { IfOk result (λ ordered. ordered ≡ false →
        Appends (W.contents out.old) (W.contents out.new) failure_line) }
    ensures some_rows { IfOk result (λ ordered. ordered ≡ false → n ≢ pos 0) }
{
    match order(alloc, n, a_p, a_i, &Control::default()) {
        Ok((p, p_inv, told)) if told.status == Status::OK => {
            write_ordering(&p, &p_inv, &told, out)?;
            Ok(true)
        }
        _ => {
            write_failure(out)?;
            Ok(false)
        }
    }
}

/// Orders a matrix in column form with `n` rows and sorted columns, and writes the permutation, its inverse, and what
/// the ordering tells. Where there is no ordering, or `n` is not 0 and the columns are not sorted, the one line `AMD
/// failed` comes in their place. The result is the exit status: 0 where an ordering was written, else 1. After a fault
/// of the writer nothing more is written.
///
/// The contract speaks of the status 0 alone: what a writer holds does not tell its faults. The contract of
/// `print_outcome` tells the line where there was no fault.
pub fn simple_to<W: Write, A: Allocator + Copy>(
    alloc: A,
    n: i32,
    a_p: &[i32],
    a_i: &[i32],
    out: &mut W,
) -> u8
    ensures status { result ≤ 1 }
    ensures written { result ≡ 0 → HasOrdering n a_p.now a_i.now (W.contents out.old) (W.contents out.new) }
{
    match print_outcome(alloc, n, a_p, a_i, out) {
        Ok(true) => 0,
        _ => 1,
    }
}
