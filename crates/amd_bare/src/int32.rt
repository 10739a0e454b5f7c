// The exports for `int32_t`. Each is a thin call of `amd_calls` over the memory that is lent, and says its contract
// again.

ghost use Rattle.std.specs.Prelude.{◌≡◌, None, Some, min};
ghost use Rattle.amd.specs.Blocks.{workspace_bytes};
ghost use Rattle.amd_calls.specs.Calls.{OrdersWithin, memory};
ghost use Rattle.amd_calls.specs.Columns.{arrays};
ghost use Rattle.amd_calls.specs.Counting.{tallies};
ghost use Rattle.amd_calls.specs.Within.{ColumnsWithin, CountsWithin, columns_bytes, counts_bytes};

use amd_calls::bytes;
use amd_calls::factor_within::{columns_within, counts_within};
use amd_calls::factors::number_of_end;
use amd_calls::matrix::Matrix;
use amd_calls::records::{Parameters, SaturatedNeed, Statistics};
use amd_calls::within::{bytes_or_most, order_within_narrow};
use amd_lent::Piece;

/// How many bytes of a block an ordering takes, for every matrix with so many rows and entries; `SIZE_MAX` where that
/// is no `size_t`, and no block is so large.
#[unsafe(no_mangle)]
pub extern "C" fn rimopaku_workspace_bytes_i32(rows: usize, entries: usize) -> usize
    ensures { result ≡ min (workspace_bytes rows entries) 18446744073709551615 }
{
    bytes_or_most(rows, entries)
}

/// How many bytes of a block the counts of a factor take, for every matrix with so many rows and entries: 16 for each
/// entry, 112 for each row, and 64; `SIZE_MAX` where that is no `size_t`, and no block is so large.
#[unsafe(no_mangle)]
pub extern "C" fn rimopaku_counts_bytes_i32(rows: usize, entries: usize) -> usize
    ensures { result ≡ min (counts_bytes rows entries) 18446744073709551615 }
{
    bytes::counts_bytes(rows, entries)
}

/// How many bytes of a block the columns of a factor take, for every matrix with so many rows and entries: 8 for each
/// entry, 40 for each row, and 16, in whole units of 16, and 32 for each row; `SIZE_MAX` where that is no `size_t`.
#[unsafe(no_mangle)]
pub extern "C" fn rimopaku_columns_bytes_i32(rows: usize, entries: usize) -> usize
    ensures { result ≡ min (columns_bytes rows entries) 18446744073709551615 }
{
    bytes::columns_bytes(rows, entries)
}

/// Orders a matrix in memory that is lent, as `order` of the crate `amd`, and returns the number of the status.
///
/// The permutation is written into `p`, its inverse into `p_inv`, and what the ordering tells into `statistics`. `p`
/// and `p_inv` have `n` places each. For `n = 0` only `statistics` is written. The number is 1 where some column is out
/// of order or has a duplicate, else 0.
///
/// # Errors
///
/// A negative number; `p`, `p_inv` and `statistics` stay as they were. It is -2, `Invalid`, exactly where `p` or
/// `p_inv` has not `n` places, or `n` is not 0 and the input is no column form; and -1, `OutOfMemory`, exactly where
/// the call is valid otherwise, `n` is not 0, and the block has fewer bytes than
/// `rimopaku_workspace_bytes_i32(n, a_p[n])`.
///
/// Source: AMD user guide; Amestoy, Davis and Duff 1996 and 2004.
#[unsafe(no_mangle)]
pub extern "C" fn rimopaku_order_within_i32(
    lent: Piece,
    n: i32,
    a_p: &[i32],
    a_i: &[i32],
    parameters: &Parameters,
    p: &mut [i32],
    p_inv: &mut [i32],
    statistics: &mut Statistics,
) -> i32
    ensures { OrdersWithin None n parameters.now a_p.now a_i.now lent.size (memory p.old p_inv.old statistics.old)
        (memory p.new p_inv.new statistics.new) result }
{
    let matrix = Matrix { n, a_p, a_i };
    order_within_narrow(matrix, parameters, None, lent, p, p_inv, statistics)
}

/// Orders a matrix with rows held last in memory that is lent, as `order_holding` of the crate `amd`, and returns the
/// number of the status.
///
/// `hold` has one mark for each of the `n` rows. The rest is as for `rimopaku_order_within_i32`.
///
/// # Errors
///
/// A negative number; `p`, `p_inv` and `statistics` stay as they were. It is -2, `Invalid`, exactly where `p` or
/// `p_inv` has not `n` places, or `n` is not 0 and either the input is no column form or `hold` has not `n` marks; and
/// -1, `OutOfMemory`, exactly where the call is valid otherwise, `n` is not 0, and the block has fewer bytes than
/// `rimopaku_workspace_bytes_i32(n, a_p[n])`.
///
/// Source: AMD user guide; Amestoy, Davis and Duff 1996 and 2004.
#[unsafe(no_mangle)]
pub extern "C" fn rimopaku_order_holding_within_i32(
    lent: Piece,
    n: i32,
    a_p: &[i32],
    a_i: &[i32],
    parameters: &Parameters,
    hold: &[bool],
    p: &mut [i32],
    p_inv: &mut [i32],
    statistics: &mut Statistics,
) -> i32
    ensures { OrdersWithin (Some hold.now) n parameters.now a_p.now a_i.now lent.size
        (memory p.old p_inv.old statistics.old) (memory p.new p_inv.new statistics.new) result }
{
    let matrix = Matrix { n, a_p, a_i };
    order_within_narrow(matrix, parameters, Some(hold), lent, p, p_inv, statistics)
}

/// Writes the columns of a factor in memory that is lent, as `columns` of the crate `amd_symbolic` returns them, and
/// returns 0.
///
/// Where each column begins, and the end of the last one, is written into `ptr`, which has `n + 1` places; the entries
/// are written into `rows`, whose length is the room; and the parents into `parent`, which has `n` places, with -1 for
/// none. What follows the entries in `rows` stays.
///
/// # Errors
///
/// A negative number; the arrays stay as they were, but that after -4 `rows` may have some of the entries. It is the
/// first of these: -2, `NotColumnForm`, exactly where `ptr` or `parent` has not that many places, or `n` is not 0 and
/// the input is no column form; -1, `OutOfMemory`, exactly where `n` is not 0 and the block has fewer bytes than
/// `rimopaku_columns_bytes_i32(n, a_p[n])`; -3, `NotPermutation`, exactly where `p` does not list each number below
/// `n`, once; and -4, `RoomTooSmall`, exactly where the factor has more entries than `rows` has places, or than the
/// type can count.
///
/// Source: Rose, Tarjan and Lueker 1976; Liu 1990; Davis 2005.
#[unsafe(no_mangle)]
pub extern "C" fn rimopaku_columns_within_i32(
    lent: Piece,
    n: i32,
    a_p: &[i32],
    a_i: &[i32],
    p: &[i32],
    ptr: &mut [i32],
    rows: &mut [i32],
    parent: &mut [i32],
) -> i32
    ensures { ColumnsWithin 2147483647 n a_p.now a_i.now p.now lent.size
        (arrays ptr.old rows.old parent.old)
        (arrays ptr.new rows.new parent.new) result }
{
    let most = i32::MAX as usize;
    let matrix = Matrix { n, a_p, a_i };
    number_of_end(&columns_within(lent, most, matrix, p, ptr, rows, parent))
}

/// Writes how many entries each column of a factor has, in memory that is lent, as `counts` of the crate `amd_symbolic`
/// returns it, and returns 0.
///
/// The number of entries of each column is written into `sizes`, and the parents into `parent`, with -1 for none. Each
/// of the two has `n` places. What the factor needs is written into `needs`; its figures saturate. No entry is written,
/// and the memory that is taken does not grow with the factor.
///
/// # Errors
///
/// A negative number; `sizes`, `parent` and `needs` stay as they were. It is the first of these: -2, `NotColumnForm`,
/// exactly where `sizes` or `parent` has not `n` places, or `n` is not 0 and the input is no column form; -1,
/// `OutOfMemory`, exactly where `n` is not 0 and the block has fewer bytes than `rimopaku_counts_bytes_i32(n, a_p[n])`;
/// and -3, `NotPermutation`, exactly where `p` does not list each number below `n`, once.
///
/// Source: Rose, Tarjan and Lueker 1976; Liu 1986; Gilbert, Ng and Peyton 1994.
#[unsafe(no_mangle)]
pub extern "C" fn rimopaku_counts_within_i32(
    lent: Piece,
    n: i32,
    a_p: &[i32],
    a_i: &[i32],
    p: &[i32],
    sizes: &mut [i32],
    parent: &mut [i32],
    needs: &mut SaturatedNeed,
) -> i32
    ensures { CountsWithin n a_p.now a_i.now p.now lent.size (tallies sizes.old parent.old needs.old)
        (tallies sizes.new parent.new needs.new) result }
{
    let matrix = Matrix { n, a_p, a_i };
    number_of_end(&counts_within(lent, matrix, p, sizes, parent, needs))
}
