// Writes the columns of a factor into a caller's arrays, for any integer type and any allocator. The entries are
// written in place, and the short arrays last, so those stay as they were where there is a fault.

ghost use Rattle.std.specs.Prelude.{ℕ, ◌≡◌, ◌<◌, ◌≤◌, ◌↔◌, ◌++◌, IsTrue, None, drop, length, map, pos, slice_index};
ghost use Rattle.std.specs.Prelude.{slice_index_or, true};
ghost use Rattle.num_traits.specs.Laws.{Checks};
ghost use Rattle.amd_calls.specs.Columns.{HasColumnPlaces, LeavesColumns, arrays, number_of_end, parent_number};

use crate::matrix::Matrix;
use amd_factor::Fault;
use amd_types::index::Index;
use amd_types::internal::{from_count, to_count};
use amd_types::signed::SignedIndex;
use num_traits::PrimInt;
use std::alloc::Allocator;

/// The number of an outcome: 0 where the columns were written, -1 for `OutOfMemory`, -2 for `NotColumnForm`, -3 for
/// `NotPermutation` and -4 for `RoomTooSmall`.
pub fn number_of_end(outcome: &Result<(), Fault>) -> i32
    ensures { result ≡ number_of_end outcome.now }
{
    match outcome {
        Ok(()) => 0,
        Err(Fault::OutOfMemory) => -1,
        Err(Fault::NotColumnForm) => -2,
        Err(Fault::NotPermutation) => -3,
        Err(Fault::RoomTooSmall) => -4,
    }
}

/// Whether an array has `n + 1` places, and another one `n`.
pub fn have_column_places<I: Index>(n: I, ptr: &[I], parent: &[I]) -> bool
    ensures { IsTrue result ↔ HasColumnPlaces (I.value n) (map I.value ptr.now) (map I.value parent.now) }
{
    match to_count(n) {
        Some(count) => parent.len() == count && ptr.len().checked_sub(1) == Some(count),
        None => false,
    }
}

/// Whether the caller's type has each of these natural numbers.
pub fn has_numbers<I: Index>(naturals: &[usize]) -> bool
    ensures { result ≡ true → (k : ℕ) → k < length naturals.now → I.fits (pos (slice_index naturals.now k)) }
{
    'naturals: for k in 0..naturals.len() {
        if from_count::<I>(naturals[k]).is_none() {
            return false;
        }
    }
    true
}

/// Writes natural numbers, which the caller's type has, as numbers of it.
pub fn write_numbers<I: Index>(naturals: &[usize], numbers: &mut [I])
    requires room { length numbers.old ≡ length naturals.now }
    requires fits { (k : ℕ) → k < length naturals.now → I.fits (pos (slice_index naturals.now k)) }
    ensures { map I.value numbers.new ≡ map pos naturals.now }
{
    'naturals: for k in 0..naturals.len() {
        let Some(number) = from_count(naturals[k]) else {
            unreachable!()
        };
        numbers[k] = number;
    }
}

/// The number of a parent, -1 for none, where the type has it.
fn number_of_parent<I: SignedIndex>(parent: Option<usize>) -> Option<I>
    ensures { Checks I.value I.fits (parent_number parent) result }
{
    match parent {
        Some(place) => from_count(place),
        None => I::from_signed(-1),
    }
}

/// Whether the caller's type has the number of each of the parents.
pub fn has_parents<I: SignedIndex>(parents: &[Option<usize>]) -> bool
    ensures { result ≡ true → (k : ℕ) → k < length parents.now →
        I.fits (parent_number (slice_index_or parents.now k None)) }
{
    'parents: for k in 0..parents.len() {
        if number_of_parent::<I>(parents[k]).is_none() {
            return false;
        }
    }
    true
}

/// Writes natural numbers, which the caller's type has, as the first numbers of an array; those behind them stay.
pub fn write_first_numbers<I: Index>(naturals: &[usize], numbers: &mut [I])
    requires room { length naturals.now ≤ length numbers.old }
    requires fits { (k : ℕ) → k < length naturals.now → I.fits (pos (slice_index naturals.now k)) }
    ensures { map I.value numbers.new ≡ map pos naturals.now ++ drop (length naturals.now) (map I.value numbers.old) }
{
    write_numbers(naturals, &mut numbers[..naturals.len()]);
}

/// Writes the numbers of parents, which the caller's type has.
pub fn write_parents<I: SignedIndex>(parents: &[Option<usize>], numbers: &mut [I])
    requires room { length numbers.old ≡ length parents.now }
    requires fits { (k : ℕ) → k < length parents.now → I.fits (parent_number (slice_index_or parents.now k None)) }
    ensures { map I.value numbers.new ≡ map parent_number parents.now }
{
    'parents: for k in 0..parents.len() {
        let Some(number) = number_of_parent(parents[k]) else {
            unreachable!()
        };
        numbers[k] = number;
    }
}

/// Writes the numbers of parents, which the caller's type has, as the first ones of an array; those behind them stay.
pub fn write_first_parents<I: SignedIndex>(parents: &[Option<usize>], numbers: &mut [I])
    requires room { length parents.now ≤ length numbers.old }
    requires fits { (k : ℕ) → k < length parents.now → I.fits (parent_number (slice_index_or parents.now k None)) }
    ensures { map I.value numbers.new ≡ map parent_number parents.now ++
        drop (length parents.now) (map I.value numbers.old) }
{
    write_parents(parents, &mut numbers[..parents.len()]);
}

/// Writes the columns of the factor of a matrix under the order `p` into the caller's arrays.
///
/// The input is as that of `columns` of the crate `amd_symbolic`, with the length of `rows` as room. Where each column
/// begins, and the end of the last one, is written into `ptr`, which has `n + 1` places; the entries are written into
/// `rows`; and the parents into `parent`, which has `n` places, with -1 for none. What follows the entries in `rows`
/// stays.
///
/// # Errors
///
/// Those of `columns`; `ptr` and `parent` stay as they were, and so does `rows`, but that after `RoomTooSmall` and
/// `OutOfMemory` some of the entries may stand there. `NotColumnForm` also where `ptr` or `parent` has not that many
/// places, and `OutOfMemory` also where a number is too large for the type.
///
/// Source: Rose, Tarjan and Lueker 1976; Liu 1990; Davis 2005.
pub fn columns_into<I: PrimInt, A: Allocator + Copy>(
    alloc: A,
    matrix: Matrix<'_, I>,
    p: &[I],
    ptr: &mut [I],
    rows: &mut [I],
    parent: &mut [I],
) -> Result<(), Fault>
    // A number of a primitive type is always in range.
    requires fits { I.fits (I.value matrix.n) }
    ensures { LeavesColumns (I.value matrix.entry.n) (map I.value matrix.entry.a_p.now)
        (map I.value matrix.entry.a_i.now) (map I.value p.now)
        (arrays (map I.value ptr.old) (map I.value rows.old) (map I.value parent.old))
        (arrays (map I.value ptr.new) (map I.value rows.new) (map I.value parent.new)) result }
{
    let Matrix { n, a_p, a_i } = matrix;
    if !have_column_places(n, ptr, parent) {
        return Err(Fault::NotColumnForm);
    }
    let frame = amd_factor::columns_into(alloc, n, a_p, a_i, p, rows)?;
    if !has_numbers::<I>(&frame.ptr) || !has_parents::<I>(&frame.parent) {
        return Err(Fault::OutOfMemory);
    }
    write_numbers(&frame.ptr, ptr);
    write_parents(&frame.parent, parent);
    Ok(())
}
