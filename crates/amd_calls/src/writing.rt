// Writes an ordering into a caller's arrays, for any integer type and any allocator. The arrays and the record stay as
// they were where there is no ordering.

ghost use Rattle.std.specs.Prelude.{◌↔◌, IsTrue, map};
ghost use Rattle.std.specs.Option.{option_copied};
ghost use Rattle.amd_calls.specs.Calls.{HasPlaces, OrdersInto, memory};
ghost use Rattle.amd_engine.specs.InPlace.{values};

use crate::matrix::Matrix;
use crate::records::{Parameters, Statistics, control_of, number_of, tell};
use amd_types::index::Index;
use amd_types::internal::to_count;
use std::alloc::Allocator;

/// Whether each of two arrays has `n` places.
pub fn have_places<I: Index>(n: I, p: &[I], p_inv: &[I]) -> bool
    ensures { IsTrue result ↔ HasPlaces (I.value n) (map I.value p.now) (map I.value p_inv.now) }
{
    match to_count(n) {
        Some(count) => p.len() == count && p_inv.len() == count,
        None => false,
    }
}

/// Orders a matrix into the caller's arrays, with or without marks of rows to hold last, and returns the number of the
/// status.
///
/// The input is as that of `order` of the crate `amd`, and with marks as that of `order_holding`: `hold` then has one
/// for each of the `n` rows. The permutation is written into `p`, its inverse into `p_inv`, and what the ordering tells
/// into `statistics`. Each of the two arrays has `n` places. The status is `OkButJumbled` where some column is out of
/// order or has a duplicate, else `OK`.
///
/// # Errors
///
/// A status that is an error; all stays as it was. `Invalid` exactly where `p` or `p_inv` has not `n` places, or
/// `order`, with marks `order_holding`, returns it. `OutOfMemory` as they do.
///
/// Source: AMD user guide; Amestoy, Davis and Duff 1996 and 2004.
pub fn order_into<I: Index, A: Allocator + Copy>(
    alloc: A,
    matrix: Matrix<'_, I>,
    parameters: &Parameters,
    hold: Option<&[bool]>,
    p: &mut [I],
    p_inv: &mut [I],
    statistics: &mut Statistics,
) -> i32
    // A number of a primitive type is always in range.
    requires fits { I.fits (I.value matrix.n) }
    ensures { OrdersInto (option_copied hold.entry) (I.value matrix.entry.n) parameters.now
        (map I.value matrix.entry.a_p.now) (map I.value matrix.entry.a_i.now)
        (memory (map I.value p.old) (map I.value p_inv.old) statistics.old)
        (memory (map I.value p.new) (map I.value p_inv.new) statistics.new) result }
{
    let Matrix { n, a_p, a_i } = matrix;
    let control = control_of(parameters);
    match amd::order_into(alloc, n, a_p, a_i, &control, hold, p, p_inv) {
        Ok(info) => tell(&info, statistics),
        Err(status) => number_of(&status),
    }
}

/// As `order_into`, for numbers of 32 bits. It asks for two lists less where words of 32 bits hold all numbers: `p` and
/// `p_inv` then serve in their place, and the permutation and its inverse are written into them at the end.
///
/// # Errors
///
/// As `order_into`.
///
/// Source: AMD user guide; Amestoy, Davis and Duff 1996 and 2004.
pub fn order_into_narrow<A: Allocator + Copy>(
    alloc: A,
    matrix: Matrix<'_, i32>,
    parameters: &Parameters,
    hold: Option<&[bool]>,
    p: &mut [i32],
    p_inv: &mut [i32],
    statistics: &mut Statistics,
) -> i32
    ensures { OrdersInto (option_copied hold.entry) matrix.entry.n parameters.now
        (values matrix.entry.a_p.now) (values matrix.entry.a_i.now)
        (memory (values p.old) (values p_inv.old) statistics.old)
        (memory (values p.new) (values p_inv.new) statistics.new) result }
{
    let Matrix { n, a_p, a_i } = matrix;
    let control = control_of(parameters);
    match amd::order_into_narrow(alloc, n, a_p, a_i, &control, hold, p, p_inv) {
        Ok(info) => tell(&info, statistics),
        Err(status) => number_of(&status),
    }
}
