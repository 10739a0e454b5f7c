// Writes the supernodes of a factor into a caller's arrays, and how much room they need into a record, for any integer
// type. The arrays and the record are written last, so they stay as they were where there is a fault. Source: Liu, Ng
// and Peyton 1993 (fundamental supernodes).

ghost use Rattle.std.specs.Prelude.{◌≡◌, ◌↔◌, IsTrue, map};
ghost use Rattle.amd_factor.specs.Partitions.{OrderedMatrix};
ghost use Rattle.amd_factor.specs.Premises.{IsFitMatrix};
ghost use Rattle.amd_c_calls.specs.Supernodal.{HasBlockPlaces, LeavesSizes, LeavesSupernodes, TellsSizes, blocks};

use amd_calls::factors::{has_numbers, has_parents, write_first_numbers, write_first_parents};
use amd_calls::matrix::Matrix;
use amd_calls::records::SupernodeSizes;
use amd_factor::{Fault, supernode_partition, supernode_sizes, write_rows};
use amd_types::index::Index;
use amd_types::signed::SignedIndex;
use num_traits::PrimInt;
use std::alloc::Global;

/// Writes how much room the supernodes of the factor of a matrix under the order `p` need.
///
/// The input is as that of `supernode_sizes` of the crate `amd_symbolic`.
///
/// # Errors
///
/// Those of `supernode_sizes`; `sizes` stays as it was.
///
/// Source: Liu, Ng and Peyton 1993.
pub fn supernode_sizes_into<I: PrimInt>(
    alloc: Global,
    matrix: Matrix<'_, I>,
    p: &[I],
    sizes: &mut SupernodeSizes,
) -> Result<(), Fault>
    // A number of a primitive type is always in range.
    requires fits { I.fits (I.value matrix.n) }
    ensures { LeavesSizes (I.value matrix.entry.n) (map I.value matrix.entry.a_p.now)
        (map I.value matrix.entry.a_i.now) (map I.value p.now) sizes.old sizes.new result }
{
    let Matrix { n, a_p, a_i } = matrix;
    let found = supernode_sizes(alloc, n, a_p, a_i, p)?;
    *sizes = sizes_of(found.supernodes, found.rows);
    Ok(())
}

/// The record of a number of supernodes and of rows below their blocks.
pub fn sizes_of(supernodes: usize, rows: usize) -> SupernodeSizes
    ensures { (result.supernodes ≡ supernodes) × (result.rows ≡ rows) }
{
    SupernodeSizes { supernodes, rows }
}

/// Whether two arrays have one place more than a third.
fn have_block_places<I: Index>(first: &[I], ptr: &[I], parent: &[I]) -> bool
    ensures { IsTrue result ↔ HasBlockPlaces (map I.value first.now) (map I.value ptr.now) (map I.value parent.now) }
{
    first.len().checked_sub(1) == Some(parent.len())
        && ptr.len().checked_sub(1) == Some(parent.len())
}

/// Writes the supernodes of the matrix and the order `m`, and how much room they need.
fn matrix_supernodes_into<I: SignedIndex>(
    alloc: Global,
    p: &[I],
    matrix: Matrix<'_, I>,
    first: &mut [I],
    ptr: &mut [I],
    rows: &mut [I],
    parent: &mut [I],
    sizes: &mut SupernodeSizes,
) -> Result<(), Fault>
    ghost m: { OrderedMatrix }
    requires { IsFitMatrix I.fits m (I.value matrix.n) (map I.value matrix.a_p.now) (map I.value matrix.a_i.now)
        (map I.value p.now) }
    ensures left { LeavesSupernodes m.size m.pointers m.indices m.list
        (blocks (map I.value first.old) (map I.value ptr.old) (map I.value rows.old) (map I.value parent.old))
        (blocks (map I.value first.new) (map I.value ptr.new) (map I.value rows.new) (map I.value parent.new)) result }
    ensures told { TellsSizes m.size m.pointers m.indices m.list sizes.old sizes.new result }
{
    let Matrix { n, a_p, a_i } = matrix;
    if !have_block_places(first, ptr, parent) {
        return Err(Fault::NotColumnForm);
    }
    let found = supernode_partition(alloc, n, a_p, a_i, p)?;
    let below = found.cut.ptr[found.cut.parent.len()];
    if found.cut.parent.len() > parent.len() || below > rows.len() {
        *sizes = sizes_of(found.cut.parent.len(), below);
        return Err(Fault::RoomTooSmall);
    }
    if !has_numbers::<I>(&found.cut.first)
        || !has_numbers::<I>(&found.cut.ptr)
        || !has_parents::<I>(&found.cut.parent)
    {
        return Err(Fault::OutOfMemory);
    }
    let cut = write_rows(found, &mut rows[..below]);
    write_first_numbers(&cut.first, first);
    write_first_numbers(&cut.ptr, ptr);
    write_first_parents(&cut.parent, parent);
    *sizes = sizes_of(cut.parent.len(), below);
    Ok(())
}

/// Writes the supernodes of the factor of a matrix under the order `p` into the caller's arrays, and how much room they
/// need into `sizes`.
///
/// The input is as that of `supernodes` of the crate `amd_symbolic`. Where each supernode begins, and behind them `n`,
/// is written into `first`; where the rows of each begin, and the end of the last ones, into `ptr`; the rows below the
/// blocks into `rows`; and the parents into `parent`, with -1 for none. `first` and `ptr` have one place more than
/// `parent`. What follows in each array stays.
///
/// # Errors
///
/// Those of `supernodes`; the arrays stay as they were. `NotColumnForm` also where `first` or `ptr` has not one place
/// more than `parent`, `RoomTooSmall` where there are more supernodes than `parent` has places, or more rows than
/// `rows` has, and `OutOfMemory` also where a number is too large for the type. After `RoomTooSmall` `sizes` tells how
/// much room is needed; after any other it stays as it was.
///
/// Source: Rose, Tarjan and Lueker 1976; Liu 1990; Liu, Ng and Peyton 1993.
pub fn supernodes_and_sizes_into<I: SignedIndex>(
    alloc: Global,
    matrix: Matrix<'_, I>,
    p: &[I],
    first: &mut [I],
    ptr: &mut [I],
    rows: &mut [I],
    parent: &mut [I],
    sizes: &mut SupernodeSizes,
) -> Result<(), Fault>
    // A number of a primitive type is always in range.
    requires fits { I.fits (I.value matrix.n) }
    ensures left { LeavesSupernodes (I.value matrix.entry.n) (map I.value matrix.entry.a_p.now)
        (map I.value matrix.entry.a_i.now) (map I.value p.now)
        (blocks (map I.value first.old) (map I.value ptr.old) (map I.value rows.old) (map I.value parent.old))
        (blocks (map I.value first.new) (map I.value ptr.new) (map I.value rows.new) (map I.value parent.new)) result }
    ensures told { TellsSizes (I.value matrix.entry.n) (map I.value matrix.entry.a_p.now)
        (map I.value matrix.entry.a_i.now) (map I.value p.now) sizes.old sizes.new result }
{
    matrix_supernodes_into(alloc, p, matrix, first, ptr, rows, parent, sizes)
}
