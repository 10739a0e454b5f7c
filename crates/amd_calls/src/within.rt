// Writes an ordering into a caller's arrays, for any integer type, in a block of memory that the caller lends. Nothing
// but the input and the size of the block is a reason to refuse.

ghost use Rattle.std.specs.Prelude.{◌≡◌, map, min};
ghost use Rattle.std.specs.Option.{option_copied};
ghost use Rattle.amd.specs.Blocks.{workspace_bytes};
ghost use Rattle.amd_calls.specs.Calls.{OrdersWithin, memory};
ghost use Rattle.amd_engine.specs.InPlace.{values};

use crate::matrix::Matrix;
use crate::records::{Parameters, Statistics, control_of, number_of, tell};
use amd::{Piece, Refusal, Status, order_in_block, order_in_block_narrow, workspace_bytes};
use amd_types::index::Index;

/// The bytes of a workspace in a block for so many rows and entries, or the greatest count where they are more.
pub fn bytes_or_most(rows: usize, entries: usize) -> usize
    ensures { result ≡ min (workspace_bytes rows entries) 18446744073709551615 }
{
    workspace_bytes(rows, entries).unwrap_or(usize::MAX)
}

/// Orders a matrix into the caller's arrays as [`crate::writing::order_into`] does, in memory that the caller lends,
/// and returns the number of the status.
///
/// # Errors
///
/// A status that is an error; all stays as it was. `Invalid` exactly where `p` or `p_inv` has not `n` places, or
/// `order`, with marks `order_holding`, returns it. `OutOfMemory` exactly where the call is valid otherwise, `n` is not
/// 0, and the block has fewer bytes than `workspace_bytes` of the crate `amd` tells for `n` rows and `a_p[n]` entries.
///
/// Source: AMD user guide; Amestoy, Davis and Duff 1996 and 2004.
pub fn order_within<I: Index>(
    matrix: Matrix<'_, I>,
    parameters: &Parameters,
    hold: Option<&[bool]>,
    block: Piece,
    p: &mut [I],
    p_inv: &mut [I],
    statistics: &mut Statistics,
) -> i32
    // A number of a primitive type is always in range.
    requires fits { I.fits (I.value matrix.n) }
    ensures { OrdersWithin (option_copied hold.entry) (I.value matrix.entry.n) parameters.now
        (map I.value matrix.entry.a_p.now) (map I.value matrix.entry.a_i.now) block.size
        (memory (map I.value p.old) (map I.value p_inv.old) statistics.old)
        (memory (map I.value p.new) (map I.value p_inv.new) statistics.new) result }
{
    let Matrix { n, a_p, a_i } = matrix;
    let control = control_of(parameters);
    match order_in_block(block, n, a_p, a_i, &control, hold, p, p_inv) {
        Ok(info) => tell(&info, statistics),
        Err(Refusal::Invalid) => number_of(&Status::Invalid),
        Err(Refusal::TooLarge) => number_of(&Status::OutOfMemory),
    }
}

/// As `order_within`, for numbers of 32 bits. Where words of 32 bits hold all numbers, `p` and `p_inv` serve as two of
/// the lists until the permutation and its inverse are written into them.
///
/// # Errors
///
/// As `order_within`.
///
/// Source: AMD user guide; Amestoy, Davis and Duff 1996 and 2004.
pub fn order_within_narrow(
    matrix: Matrix<'_, i32>,
    parameters: &Parameters,
    hold: Option<&[bool]>,
    block: Piece,
    p: &mut [i32],
    p_inv: &mut [i32],
    statistics: &mut Statistics,
) -> i32
    ensures { OrdersWithin (option_copied hold.entry) matrix.entry.n parameters.now (values matrix.entry.a_p.now)
        (values matrix.entry.a_i.now) block.size (memory (values p.old) (values p_inv.old) statistics.old)
        (memory (values p.new) (values p_inv.new) statistics.new) result }
{
    let Matrix { n, a_p, a_i } = matrix;
    let control = control_of(parameters);
    match order_in_block_narrow(block, n, a_p, a_i, &control, hold, p, p_inv) {
        Ok(info) => tell(&info, statistics),
        Err(Refusal::Invalid) => number_of(&Status::Invalid),
        Err(Refusal::TooLarge) => number_of(&Status::OutOfMemory),
    }
}
