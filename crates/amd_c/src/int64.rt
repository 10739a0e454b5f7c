// The exports for `int64_t`. Each hands its arguments on as slices and records, and says the contract of that call
// again.

ghost use Rattle.std.specs.Prelude.{◌≡◌, ◌<◌, ◌≤◌, ◌+◌, ℕ, pos, List, None, Some, length};
ghost use Rattle.amd_model.specs.Graph.{Graph};
ghost use Rattle.amd_workspace.specs.Laying.{IsLaidOut};
ghost use Rattle.amd_engine.specs.InPlace.{LaysGraph};
ghost use Rattle.amd_calls.specs.Calls.{ClassifiesInput, OrdersInto, memory};
ghost use Rattle.amd_calls.specs.Columns.{ColumnsInto, arrays};
ghost use Rattle.amd_calls.specs.Counting.{CountsInto, tallies};
ghost use Rattle.amd_c_calls.specs.Forests.{PostorderInto};
ghost use Rattle.amd_c_calls.specs.Laid.{EliminatesInto, HasPlacesFor, elimination};
ghost use Rattle.amd_c_calls.specs.Patterns.{DegreesInto, RowFormInto, counted, row_arrays};
ghost use Rattle.amd_c_calls.specs.Supernodal.{SizesInto, SupernodesAndSizes, SupernodesInto, blocks};

use amd::valid::valid;
use amd_c_calls::forests::postorder_into;
use amd_c_calls::laid::eliminate_into;
use amd_c_calls::lent::{Lists, Places};
use amd_c_calls::patterns::{degrees_into, row_form_into};
use amd_c_calls::supernodal::{sizes_of, supernode_sizes_into, supernodes_and_sizes_into};
use amd_calls::counting::counts_into;
use amd_calls::factors::{columns_into, number_of_end};
use amd_calls::matrix::Matrix;
use amd_calls::records::{Parameters, SaturatedNeed, Statistics, SupernodeSizes, number_of};
use amd_calls::writing::order_into;
use std::alloc::Global;

/// Orders a matrix, as `order` of the crate `amd`, and returns the number of the status.
///
/// The permutation is written into `p`, its inverse into `p_inv`, and what the ordering tells into `statistics`. `p`
/// and `p_inv` have `n` places each. For `n = 0` only `statistics` is written. The number is 1 where some column is out
/// of order or has a duplicate, else 0. See `include/rimopaku.h` for what a caller must uphold.
///
/// # Errors
///
/// A negative number; `p`, `p_inv` and `statistics` stay as they were. It is -2, `Invalid`, exactly where `p` or
/// `p_inv` has not `n` places, or `n` is not 0 and the input is no column form; and -1, `OutOfMemory`, as `order` says.
///
/// Source: AMD user guide; Amestoy, Davis and Duff 1996 and 2004.
#[unsafe(no_mangle)]
pub extern "C" fn rimopaku_order_i64(
    alloc: Global,
    n: i64,
    a_p: &[i64],
    a_i: &[i64],
    parameters: &Parameters,
    p: &mut [i64],
    p_inv: &mut [i64],
    statistics: &mut Statistics,
) -> i32
    ensures { OrdersInto None n parameters.now a_p.now a_i.now (memory p.old p_inv.old statistics.old)
        (memory p.new p_inv.new statistics.new) result }
{
    let matrix = Matrix { n, a_p, a_i };
    order_into(alloc, matrix, parameters, None, p, p_inv, statistics)
}

/// Orders a matrix with rows held last, as `order_holding` of the crate `amd`, and returns the number of the status.
///
/// `hold` has one mark for each of the `n` rows. The permutation is written into `p`, its inverse into `p_inv`, and
/// what the ordering tells into `statistics`. `p` and `p_inv` have `n` places each. For `n = 0` only `statistics` is
/// written. The number is 1 where some column is out of order or has a duplicate, else 0. See `include/rimopaku.h` for
/// what a caller must uphold.
///
/// # Errors
///
/// A negative number; `p`, `p_inv` and `statistics` stay as they were. It is -2, `Invalid`, exactly where `p` or
/// `p_inv` has not `n` places, or `n` is not 0 and either the input is no column form or `hold` has not `n` marks; and
/// -1, `OutOfMemory`, as `order_holding` says.
///
/// Source: AMD user guide; Amestoy, Davis and Duff 1996 and 2004.
#[unsafe(no_mangle)]
pub extern "C" fn rimopaku_order_holding_i64(
    alloc: Global,
    n: i64,
    a_p: &[i64],
    a_i: &[i64],
    parameters: &Parameters,
    hold: &[bool],
    p: &mut [i64],
    p_inv: &mut [i64],
    statistics: &mut Statistics,
) -> i32
    ensures { OrdersInto (Some hold.now) n parameters.now a_p.now a_i.now (memory p.old p_inv.old statistics.old)
        (memory p.new p_inv.new statistics.new) result }
{
    let matrix = Matrix { n, a_p, a_i };
    order_into(alloc, matrix, parameters, Some(hold), p, p_inv, statistics)
}

/// The number of the status of an input with `n_row` rows and `n_col` columns, as `valid` of the crate `amd`.
///
/// It is -2, `Invalid`, where the input is no column form; else 1, `OkButJumbled`, where some column is out of order or
/// has a duplicate; else 0, `OK`. Any numbers and lengths are allowed, and no memory is taken. See `include/rimopaku.h`
/// for what a caller must uphold.
///
/// Source: AMD user guide.
#[unsafe(no_mangle)]
pub extern "C" fn rimopaku_valid_i64(n_row: i64, n_col: i64, a_p: &[i64], a_i: &[i64]) -> i32
    ensures { ClassifiesInput n_row n_col a_p.now a_i.now result }
{
    number_of(&valid(n_row, n_col, a_p, a_i))
}

/// Writes the columns of a factor, as `columns` of the crate `amd_symbolic` returns them, and returns 0.
///
/// Where each column begins, and the end of the last one, is written into `ptr`, which has `n + 1` places; the entries
/// are written into `rows`, whose length is the room; and the parents into `parent`, which has `n` places, with -1 for
/// none. What follows the entries in `rows` stays. See `include/rimopaku.h` for what a caller must uphold.
///
/// # Errors
///
/// A negative number; the arrays stay as they were, but that after -4 and -1 `rows` may have some of the entries. It is
/// -2, `NotColumnForm`, exactly where `ptr` or `parent` has not that many places, or `n` is not 0 and the input is no
/// column form. It is -3, `NotPermutation`, where `p` does not list each number below `n`, once; -4, `RoomTooSmall`,
/// where the factor has more entries than `rows` has places; and -1, `OutOfMemory`, where a request for memory was
/// refused, or a number is too large for the type. The last may come in place of the two before it.
///
/// Source: Rose, Tarjan and Lueker 1976; Liu 1990; Davis 2005.
#[unsafe(no_mangle)]
pub extern "C" fn rimopaku_columns_i64(
    alloc: Global,
    n: i64,
    a_p: &[i64],
    a_i: &[i64],
    p: &[i64],
    ptr: &mut [i64],
    rows: &mut [i64],
    parent: &mut [i64],
) -> i32
    ensures { ColumnsInto n a_p.now a_i.now p.now
        (arrays ptr.old rows.old parent.old)
        (arrays ptr.new rows.new parent.new) result }
{
    let matrix = Matrix { n, a_p, a_i };
    number_of_end(&columns_into(alloc, matrix, p, ptr, rows, parent))
}

/// Writes how many entries each column of a factor has, as `counts` of the crate `amd_symbolic` returns it, and returns
/// 0.
///
/// The number of entries of each column is written into `sizes`, and the parents into `parent`, with -1 for none. Each
/// of the two has `n` places. What the factor needs is written into `needs`; its figures saturate. The memory
/// that is taken does not grow with the factor. See `include/rimopaku.h` for what a caller must uphold.
///
/// # Errors
///
/// A negative number; `sizes`, `parent` and `needs` stay as they were. It is -2, `NotColumnForm`, exactly where `sizes`
/// or `parent` has not `n` places, or `n` is not 0 and the input is no column form. It is -3, `NotPermutation`, where
/// `p` does not list each number below `n`, once; and -1, `OutOfMemory`, where a request for memory was refused, which
/// may come in place of the one before it.
///
/// Source: Rose, Tarjan and Lueker 1976; Liu 1986; Gilbert, Ng and Peyton 1994.
#[unsafe(no_mangle)]
pub extern "C" fn rimopaku_counts_i64(
    alloc: Global,
    n: i64,
    a_p: &[i64],
    a_i: &[i64],
    p: &[i64],
    sizes: &mut [i64],
    parent: &mut [i64],
    needs: &mut SaturatedNeed,
) -> i32
    ensures { CountsInto n a_p.now a_i.now p.now (tallies sizes.old parent.old needs.old)
        (tallies sizes.new parent.new needs.new) result }
{
    let matrix = Matrix { n, a_p, a_i };
    number_of_end(&counts_into(alloc, matrix, p, sizes, parent, needs))
}

/// Writes how much room the supernodes of a factor need, as `supernode_sizes` of the crate `amd_symbolic` returns it,
/// and returns 0.
///
/// `rimopaku_supernodes_i64` then needs `supernodes` places in `parent`, one more in `first` and in `ptr`, and `rows`
/// places in `rows`. No row is written, and the memory that is taken does not grow with the factor. See
/// `include/rimopaku.h` for what a caller must uphold.
///
/// # Errors
///
/// A negative number; `sizes` stays as it was. It is -2, `NotColumnForm`, exactly where `n` is not 0 and the input is
/// no column form. It is -3, `NotPermutation`, where `p` does not list each number below `n`, once; and -1,
/// `OutOfMemory`, where a request for memory was refused, which may come in place of the one before it.
///
/// Source: Liu 1986; Gilbert, Ng and Peyton 1994; Liu, Ng and Peyton 1993.
#[unsafe(no_mangle)]
pub extern "C" fn rimopaku_supernode_sizes_i64(
    alloc: Global,
    n: i64,
    a_p: &[i64],
    a_i: &[i64],
    p: &[i64],
    sizes: &mut SupernodeSizes,
) -> i32
    ensures { SizesInto n a_p.now a_i.now p.now sizes.old sizes.new result }
{
    let matrix = Matrix { n, a_p, a_i };
    number_of_end(&supernode_sizes_into(alloc, matrix, p, sizes))
}

/// Writes the supernodes of a factor, as `supernodes` of the crate `amd_symbolic` returns them, and returns 0.
///
/// Where each supernode begins, and behind them `n`, is written into `first`; where the rows of each begin, and the end
/// of the last ones, into `ptr`; the rows below the blocks into `rows`; and the parents into `parent`, with -1 for
/// none. `first` and `ptr` have one place more than `parent`. There may be more places than
/// `rimopaku_supernode_sizes_i64` says: what follows in each array stays. See `include/rimopaku.h` for what a caller
/// must uphold.
///
/// # Errors
///
/// A negative number; the arrays stay as they were. It is -2, `NotColumnForm`, exactly where `first` or `ptr` has not
/// one place more than `parent`, or `n` is not 0 and the input is no column form. It is -3, `NotPermutation`, where `p`
/// does not list each number below `n`, once; -4, `RoomTooSmall`, where there are more supernodes than `parent` has
/// places, or more rows below the blocks than `rows` has; and -1, `OutOfMemory`, where a request for memory was
/// refused, or a number is too large for the type. The last may come in place of the two before it.
///
/// Source: Rose, Tarjan and Lueker 1976; Liu 1990; Liu, Ng and Peyton 1993.
#[unsafe(no_mangle)]
pub extern "C" fn rimopaku_supernodes_i64(
    alloc: Global,
    n: i64,
    a_p: &[i64],
    a_i: &[i64],
    p: &[i64],
    first: &mut [i64],
    ptr: &mut [i64],
    rows: &mut [i64],
    parent: &mut [i64],
) -> i32
    ensures { SupernodesInto n a_p.now a_i.now p.now (blocks first.old ptr.old rows.old parent.old)
        (blocks first.new ptr.new rows.new parent.new) result }
{
    let sizes = &mut sizes_of(0, 0);
    let matrix = Matrix { n, a_p, a_i };
    number_of_end(&supernodes_and_sizes_into(alloc, matrix, p, first, ptr, rows, parent, sizes))
}

/// Writes the supernodes of a factor as `rimopaku_supernodes_i64`, and how much room they need into `sizes`, and
/// returns 0. One call is enough where the arrays are long, and where they are not it tells how long they have to be.
///
/// # Errors
///
/// The numbers of `rimopaku_supernodes_i64`; the arrays stay as they were. After -4 `sizes` tells how many supernodes
/// there are, and how many rows below their blocks; after any other number it stays as it was.
///
/// Source: Rose, Tarjan and Lueker 1976; Liu 1990; Liu, Ng and Peyton 1993.
#[unsafe(no_mangle)]
pub extern "C" fn rimopaku_supernodes_and_sizes_i64(
    alloc: Global,
    n: i64,
    a_p: &[i64],
    a_i: &[i64],
    p: &[i64],
    first: &mut [i64],
    ptr: &mut [i64],
    rows: &mut [i64],
    parent: &mut [i64],
    sizes: &mut SupernodeSizes,
) -> i32
    ensures { SupernodesAndSizes n a_p.now a_i.now p.now (blocks first.old ptr.old rows.old parent.old)
        (blocks first.new ptr.new rows.new parent.new) sizes.old sizes.new result }
{
    let matrix = Matrix { n, a_p, a_i };
    number_of_end(&supernodes_and_sizes_into(alloc, matrix, p, first, ptr, rows, parent, sizes))
}

/// Writes the degrees of the rows of a matrix by the pattern of `A + A'`, as `aat` of the crate `amd`, and returns 0.
///
/// Each column of the input is sorted and has no duplicates. The degrees are written into `degrees`, which has `n`
/// places. Of `statistics` the fields `n`, `nz`, `symmetry`, `nz_diag` and `nz_a_plus_at` tell the pattern, and the
/// others are 0. See `include/rimopaku.h` for what a caller must uphold.
///
/// # Errors
///
/// A negative number; `degrees` and `statistics` stay as they were. It is -2, `NotColumnForm`, exactly where `degrees`
/// has not `n` places, or the input is no column form with sorted columns; and -1, `OutOfMemory`, as `aat` says.
///
/// Source: AMD user guide; Amestoy, Davis and Duff 2004.
#[unsafe(no_mangle)]
pub extern "C" fn rimopaku_aat_i64(
    alloc: Global,
    n: i64,
    a_p: &[i64],
    a_i: &[i64],
    degrees: &mut [i64],
    statistics: &mut Statistics,
) -> i32
    ensures { DegreesInto n a_p.now a_i.now (counted degrees.old statistics.old)
        (counted degrees.new statistics.new) result }
{
    let matrix = Matrix { n, a_p, a_i };
    number_of_end(&degrees_into(alloc, matrix, degrees, statistics))
}

/// Writes the row form of a matrix, as `preprocess` of the crate `amd` returns it, and returns 0.
///
/// It is the column form of the transpose, with sorted columns and no duplicates. Where each row begins, and the end of
/// the last one, is written into `pointers`, which has `n + 1` places; and the columns of each row into `indices`. What
/// follows them in `indices` stays. See `include/rimopaku.h` for what a caller must uphold.
///
/// # Errors
///
/// A negative number; the arrays stay as they were. It is -2, `NotColumnForm`, exactly where `pointers` has not `n + 1`
/// places, or the input is no column form; -4, `RoomTooSmall`, only where `indices` has fewer places than the pattern
/// has entries; and -1, `OutOfMemory`, as `preprocess` says.
///
/// Source: AMD user guide.
#[unsafe(no_mangle)]
pub extern "C" fn rimopaku_preprocess_i64(
    alloc: Global,
    n: i64,
    a_p: &[i64],
    a_i: &[i64],
    pointers: &mut [i64],
    indices: &mut [i64],
) -> i32
    ensures { RowFormInto n a_p.now a_i.now (row_arrays pointers.old indices.old)
        (row_arrays pointers.new indices.new) result }
{
    let matrix = Matrix { n, a_p, a_i };
    number_of_end(&row_form_into(alloc, matrix, pointers, indices))
}

/// Writes the postorder of an assembly tree, as `postorder` of the crate `amd_postorder`, and returns the number of the
/// status.
///
/// Place `e` holds an element where `nv[e]` is above 0; `parent[e]` is then an element or -1, and `f_size[e]` is not
/// negative. All arrays have `n` places. The number of each element is written into `order`, and -1 for what is no
/// element. See `include/rimopaku.h` for what a caller must uphold.
///
/// # Errors
///
/// A negative number; `order` stays as it was. It is -2, `Invalid`, exactly where an array has not `n` places, or the
/// lists are no forest; and -1, `OutOfMemory`, where a request for memory was refused.
///
/// Source: Amestoy, Davis and Duff 2004.
#[unsafe(no_mangle)]
pub extern "C" fn rimopaku_postorder_i64(
    alloc: Global,
    n: i64,
    parent: &[i64],
    nv: &[i64],
    f_size: &[i64],
    order: &mut [i64],
) -> i32
    ensures { PostorderInto n parent.now nv.now f_size.now order.old order.new result }
{
    let status = postorder_into(alloc, n, parent, nv, f_size, order);
    number_of(&status)
}

/// Eliminates the rows of lists that are laid in the caller's workspace, as `amd_2` of the crate `amd_engine`, and
/// returns 0.
///
/// There is at least one row, and each array but `iw` has `n` places. The list of row `i` is the `len[i]` numbers from
/// place `pe[i]` of `iw` on: the neighbours of the row, each once. The lists fill the first `pfree` places, and
/// `pfree + n` is at most the length of `iw`; behind them any numbers are allowed. The number of rows of the block of
/// each element is written into `nv`, the inverse of the permutation into `p_inv`, the permutation into `p`, the number
/// of rows of the front of each element into `e_len`, with 0 and -1 for what is none, and the parent of each element
/// into `pe`, with -1 for none, or else a link toward the element of the row. Of `statistics` the field `n` and those
/// of the elimination are told, and the others are 0. See `include/rimopaku.h` for what a caller must uphold.
///
/// # Errors
///
/// -1, `OutOfMemory`, where a request for memory was refused; all but `pe`, `iw` and `len` stays as it was.
///
/// Source: Amestoy, Davis and Duff 1996 and 2004.
#[unsafe(no_mangle)]
pub extern "C" fn rimopaku_amd_2_i64(
    alloc: Global,
    n: i64,
    pe: &mut [isize],
    iw: &mut [isize],
    len: &mut [usize],
    pfree: usize,
    parameters: &Parameters,
    nv: &mut [i64],
    p_inv: &mut [i64],
    p: &mut [i64],
    e_len: &mut [isize],
    statistics: &mut Statistics,
) -> i32
    requires size { n ≡ pos (length len.old) }
    requires some { 0 < length len.old }
    requires laid { IsLaidOut (length len.old) iw.old pe.old len.old pfree }
    requires graph { (g : Graph) × (lists : ℕ → List ℕ) × LaysGraph g lists iw.old pe.old len.old }
    requires room { pfree + length len.old ≤ length iw.old }
    requires places { HasPlacesFor (length len.old) (elimination nv.old p.old p_inv.old e_len.old statistics.old) }
    ensures { EliminatesInto parameters.now iw.old pe.old len.old pe.new
        (elimination nv.old p.old p_inv.old e_len.old statistics.old)
        (elimination nv.new p.new p_inv.new e_len.new statistics.new) result }
{
    let mut lists = Lists { pe, iw, len, pfree };
    let mut places = Places {
        nv,
        p_inv,
        p,
        e_len,
    };
    let status = eliminate_into(alloc, n, &mut lists, parameters, &mut places, statistics);
    number_of(&status)
}
