// Writes the counts and the columns of a factor into a caller's arrays, for any integer type, in a block of memory that
// the caller lends. Nothing but the input, the order, the arrays and the size of the block is a reason to refuse.

ghost use Rattle.std.specs.Prelude.{ℕ, ◌≡◌, ◌≢◌, ◌≤◌, ◌<◌, ◌+◌, ◌*◌, ◌⊎◌, pos, negsuc, length, map, slice_index};
ghost use Rattle.std.specs.Prelude.{IfOk, IfErr};
ghost use Rattle.amd_types.specs.Naturals.{naturals};
ghost use Rattle.amd_factor.specs.Factors.{IsFault, WritesFactor};
ghost use Rattle.amd_factor.specs.Orders.{Order};
ghost use Rattle.amd_factor.specs.Within.{IsPosed};
ghost use Rattle.amd_factor.specs.declared.factor.Fault.TheVariants.{NotPermutation, RoomTooSmall};
ghost use Rattle.amd_calls.specs.Columns.{arrays};
ghost use Rattle.amd_calls.specs.Counting.{LeavesCounts, tallies};
ghost use Rattle.amd_calls.specs.Within.{LeavesWithin, Suffice, TellsWhether, columns_bytes, counts_bytes};

use crate::bytes::{columns_lists, counts_lists};
use crate::counting::saturated_need;
use crate::factors::{have_column_places, write_numbers, write_parents};
use crate::matrix::Matrix;
use crate::records::SaturatedNeed;
use crate::writing::have_places;
use amd_factor::Fault;
use amd_factor::counted::need_of_sizes;
use amd_factor::entrance::rows_of;
use amd_factor::factor::fault_for;
use amd_factor::inside::counts_inside;
use amd_factor::lent::lent_columns;
use amd_factor::places::place_rows;
use amd_lent::Piece;
use amd_types::index::Index;
use amd_types::internal::count_at;
use amd_types::signed::SignedIndex;

/// Writes how many entries each column of the factor of a matrix has, as [`crate::counting::counts_into`], in a block
/// that the caller lends. The type has -1.
///
/// # Errors
///
/// The first of these; all stays as it was:
///
/// * `NotColumnForm` exactly where `sizes` or `parent` has not `n` places, or `n` is not 0 and the input is no column
///   form.
/// * `OutOfMemory` exactly where `n` is not 0 and the block has fewer than [`crate::bytes::counts_bytes`]`(n, a_p[n])`
///   bytes.
/// * `NotPermutation` exactly where `p` does not list each number below `n`, once.
///
/// Source: Rose, Tarjan and Lueker 1976; Liu 1986; Gilbert, Ng and Peyton 1994.
pub fn counts_within<I: SignedIndex>(
    block: Piece,
    matrix: Matrix<'_, I>,
    p: &[I],
    sizes: &mut [I],
    parent: &mut [I],
    needs: &mut SaturatedNeed,
) -> Result<(), Fault>
    // A number of a primitive type is always in range.
    requires fits { I.fits (I.value matrix.n) }
    requires signed { I.fits (negsuc 0) }
    ensures left { LeavesCounts (I.value matrix.entry.n) (map I.value matrix.entry.a_p.now)
        (map I.value matrix.entry.a_i.now) (map I.value p.now)
        (tallies (map I.value sizes.old) (map I.value parent.old) needs.old)
        (tallies (map I.value sizes.new) (map I.value parent.new) needs.new) result }
    ensures block { TellsWhether (Suffice counts_bytes (I.value matrix.entry.n) (map I.value matrix.entry.a_p.now)
        block.size) result }
{
    let Matrix { n, a_p, a_i } = matrix;
    if !have_places(n, sizes, parent) {
        return Err(Fault::NotColumnForm);
    }
    let size = match rows_of(n, a_p, a_i, p) {
        Ok(size) => size,
        Err(unfit) => return Err(fault_for(unfit)),
    };
    if size == 0 {
        *needs = saturated_need(&need_of_sizes(&[]));
        return Ok(());
    }
    let Some((mut numbers, mut links)) = counts_lists(block, size, count_at(a_p, size)) else {
        return Err(Fault::OutOfMemory);
    };
    let (counts, memory) = numbers.split_at_mut(size);
    let (parents, _) = links.split_at_mut(size);
    let Some(need) = counts_inside(a_p, a_i, p, counts, parents, memory) else {
        return Err(Fault::NotPermutation);
    };
    write_numbers(counts, sizes);
    write_parents(parents, parent);
    *needs = saturated_need(&need);
    Ok(())
}

/// Writes the columns of the factor of a column form, with all lists for the work in `memory` and `links`, and returns
/// the number of their entries.
///
/// # Errors
///
/// `NotPermutation` exactly where `p` does not list each row, once; and then nothing is written but in `memory`. Else
/// `RoomTooSmall` exactly where there are more entries than `rows` has places.
fn columns_inside<I: Index>(
    a_p: &[I],
    a_i: &[I],
    p: &[I],
    pointers: &mut [usize],
    parents: &mut [Option<usize>],
    rows: &mut [I],
    memory: &mut [usize],
    links: &mut [Option<usize>],
) -> Result<usize, Fault>
    ghost o: { Order }
    requires posed { IsPosed o (length parents.old) (map I.value a_p.now) (map I.value a_i.now) (map I.value p.now) }
    requires fits { (j : ℕ) → j < length parents.old → I.fits (pos j) }
    requires lists { (length pointers.old ≡ length parents.old + 1) × (length parents.old ≤ length links.old) }
    requires room { slice_index (naturals (map I.value a_p.now)) (length parents.old) + 4 * length parents.old + 1
        ≤ length memory.old }
    ensures factor { IfOk result (λ total. (w : WritesFactor (pos (length parents.old)) (map I.value a_p.now)
        (map I.value a_i.now) (map I.value p.now) (map I.value rows.old) (map I.value rows.new) pointers.new
        parents.new) × (total ≡ length w.entries)) }
    ensures fault { IfErr result (IsFault (pos (length parents.old)) (map I.value a_p.now) (map I.value a_i.now)
        (map I.value p.now) (length rows.old)) }
    ensures reason { IfErr result (λ e. (e ≡ NotPermutation) ⊎ (e ≡ RoomTooSmall)) }
    ensures kept { IfErr result (λ e. e ≢ RoomTooSmall → rows.new ≡ rows.old) }
{
    let size = parents.len();
    let (places, memory) = memory.split_at_mut(size);
    places.fill(size);
    if !place_rows(p, places) {
        return Err(Fault::NotPermutation);
    }
    match lent_columns(a_p, a_i, places, pointers, parents, rows, memory, links) {
        Some(total) => Ok(total),
        None => Err(Fault::RoomTooSmall),
    }
}

/// Writes the columns of the factor of a matrix, as [`crate::factors::columns_into`], in a block that the caller lends.
/// The type has -1 and the number `most`.
///
/// # Errors
///
/// The first of these:
///
/// * `NotColumnForm` exactly where `ptr` has not `n + 1` places or `parent` not `n`, or `n` is not 0 and the input is
///   no column form.
/// * `OutOfMemory` exactly where `n` is not 0 and the block has fewer than [`crate::bytes::columns_bytes`]`(n, a_p[n])`
///   bytes.
/// * `NotPermutation` exactly where `p` does not list each number below `n`, once.
/// * `RoomTooSmall` exactly where the factor has more entries than `rows` has places, or more than `most`.
///
/// After `RoomTooSmall` some of the entries may stand in `rows`; all else stays as it was.
///
/// Source: Rose, Tarjan and Lueker 1976; Liu 1990; Davis 2005.
pub fn columns_within<I: SignedIndex>(
    block: Piece,
    most: usize,
    matrix: Matrix<'_, I>,
    p: &[I],
    ptr: &mut [I],
    rows: &mut [I],
    parent: &mut [I],
) -> Result<(), Fault>
    // A number of a primitive type is always in range.
    requires fits { I.fits (I.value matrix.n) }
    requires signed { I.fits (negsuc 0) }
    requires most { I.fits (pos most) }
    ensures left { LeavesWithin most (I.value matrix.entry.n) (map I.value matrix.entry.a_p.now)
        (map I.value matrix.entry.a_i.now) (map I.value p.now)
        (arrays (map I.value ptr.old) (map I.value rows.old) (map I.value parent.old))
        (arrays (map I.value ptr.new) (map I.value rows.new) (map I.value parent.new)) result }
    ensures block { TellsWhether (Suffice columns_bytes (I.value matrix.entry.n) (map I.value matrix.entry.a_p.now)
        block.size) result }
{
    let Matrix { n, a_p, a_i } = matrix;
    if !have_column_places(n, ptr, parent) {
        return Err(Fault::NotColumnForm);
    }
    let size = match rows_of(n, a_p, a_i, p) {
        Ok(size) => size,
        Err(unfit) => return Err(fault_for(unfit)),
    };
    if size == 0 {
        write_numbers(&[0], ptr);
        return Ok(());
    }
    let Some((mut numbers, mut links)) = columns_lists(block, size, count_at(a_p, size)) else {
        return Err(Fault::OutOfMemory);
    };
    let (pointers, memory) = numbers.split_at_mut(size + 1);
    let (parents, links) = links.split_at_mut(size);
    let total = match columns_inside(a_p, a_i, p, pointers, parents, rows, memory, links) {
        Ok(total) => total,
        Err(fault) => return Err(fault),
    };
    if total > most {
        return Err(Fault::RoomTooSmall);
    }
    write_numbers(pointers, ptr);
    write_parents(parents, parent);
    Ok(())
}
