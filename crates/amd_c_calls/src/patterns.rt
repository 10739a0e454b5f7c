// Writes the degrees of a matrix, and its row form, into a caller's arrays, for any integer type. The arrays and the
// record are written last, so they stay as they were where there is a fault. Source: AMD user guide.

ghost use Rattle.std.specs.Prelude.{◌↔◌, IsTrue, map};
ghost use Rattle.amd_c_calls.specs.Patterns.{HasPointerPlaces, HasRowPlaces, IsSortedForm, LeavesDegrees};
ghost use Rattle.amd_c_calls.specs.Patterns.{LeavesRowForm, counted, row_arrays};
ghost use Rattle.amd_model.specs.Input.Columns.{IsInput};

use amd_calls::factors::{has_numbers, write_numbers};
use amd_calls::matrix::Matrix;
use amd_calls::records::{Statistics, statistics_of};
use amd_factor::Fault;
use amd_input::aat::aat;
use amd_input::preprocess::preprocess;
use amd_input::valid::valid;
use amd_types::amd::{Info, Status};
use amd_types::index::Index;
use amd_types::internal::to_count;
use num_traits::PrimInt;
use std::alloc::Global;

/// Whether an array has `n` places.
pub fn has_row_places<I: Index>(n: I, numbers: &[I]) -> bool
    ensures { IsTrue result ↔ HasRowPlaces (I.value n) (map I.value numbers.now) }
{
    to_count(n) == Some(numbers.len())
}

/// Whether an array has `n + 1` places.
fn has_pointer_places<I: Index>(n: I, pointers: &[I]) -> bool
    ensures { IsTrue result ↔ HasPointerPlaces (I.value n) (map I.value pointers.now) }
{
    match to_count(n) {
        Some(count) => pointers.len().checked_sub(1) == Some(count),
        None => false,
    }
}

/// Whether an input with `n` rows and columns is a column form, sorted or not.
fn is_column_form<I: PrimInt>(n: I, a_p: &[I], a_i: &[I]) -> bool
    ensures { IsTrue result ↔ IsInput (I.value n) (I.value n) (map I.value a_p.now) (map I.value a_i.now) }
{
    match valid(n, n, a_p, a_i) {
        Status::OK | Status::OkButJumbled => true,
        Status::Invalid | Status::OutOfMemory => false,
    }
}

/// Whether an input with `n` rows and columns is a column form with strictly ascending columns.
fn is_sorted_form<I: PrimInt>(n: I, a_p: &[I], a_i: &[I]) -> bool
    ensures { IsTrue result ↔ IsSortedForm (I.value n) (map I.value a_p.now) (map I.value a_i.now) }
{
    match valid(n, n, a_p, a_i) {
        Status::OK => true,
        Status::OkButJumbled | Status::Invalid | Status::OutOfMemory => false,
    }
}

/// Writes the degrees of the rows of a matrix by the pattern of `A + A'`, and the figures of its pattern.
///
/// The input is as that of `aat` of the crate `amd`: each column is strictly ascending. `degrees` has `n` places. Of
/// `statistics` the fields `n`, `nz`, `symmetry`, `nz_diag` and `nz_a_plus_at` tell the pattern, and the others are 0.
///
/// # Errors
///
/// All stays as it was. `NotColumnForm` exactly where `degrees` has not `n` places, or the input is no column form with
/// sorted columns. `OutOfMemory` as `aat` says.
///
/// Source: AMD user guide; Amestoy, Davis and Duff 2004.
pub fn degrees_into<I: PrimInt>(
    alloc: Global,
    matrix: Matrix<'_, I>,
    degrees: &mut [I],
    statistics: &mut Statistics,
) -> Result<(), Fault>
    ensures { LeavesDegrees (I.value matrix.entry.n) (map I.value matrix.entry.a_p.now)
        (map I.value matrix.entry.a_i.now)
        (counted (map I.value degrees.old) statistics.old) (counted (map I.value degrees.new) statistics.new) result }
{
    let Matrix { n, a_p, a_i } = matrix;
    if !has_row_places(n, degrees) || !is_sorted_form(n, a_p, a_i) {
        return Err(Fault::NotColumnForm);
    }
    let mut info = Info::new(degrees.len());
    let Ok((_, counts)) = aat(alloc, n, a_p, a_i, &mut info) else {
        return Err(Fault::OutOfMemory);
    };
    if !has_numbers::<I>(&counts) {
        return Err(Fault::OutOfMemory);
    }
    write_numbers(&counts, degrees);
    *statistics = statistics_of(&info);
    Ok(())
}

/// Writes the row form of a matrix, which is the column form of its transpose.
///
/// The input is as that of `preprocess` of the crate `amd`: any column form, jumbled or not. Where each row begins, and
/// the end of the last one, is written into `pointers`, which has `n + 1` places, and the columns of each row, strictly
/// ascending, into `indices`. What follows them in `indices` stays.
///
/// # Errors
///
/// All stays as it was. `NotColumnForm` exactly where `pointers` has not `n + 1` places, or the input is no column
/// form. `RoomTooSmall` where `indices` has fewer places than the pattern has entries. `OutOfMemory` as `preprocess`
/// says.
///
/// Source: AMD user guide.
pub fn row_form_into<I: PrimInt>(
    alloc: Global,
    matrix: Matrix<'_, I>,
    pointers: &mut [I],
    indices: &mut [I],
) -> Result<(), Fault>
    // A number of a primitive type is always in range.
    requires fits { I.fits (I.value matrix.n) }
    ensures { LeavesRowForm (I.value matrix.entry.n) (map I.value matrix.entry.a_p.now)
        (map I.value matrix.entry.a_i.now)
        (row_arrays (map I.value pointers.old) (map I.value indices.old))
        (row_arrays (map I.value pointers.new) (map I.value indices.new)) result }
{
    let Matrix { n, a_p, a_i } = matrix;
    if !has_pointer_places(n, pointers) || !is_column_form(n, a_p, a_i) {
        return Err(Fault::NotColumnForm);
    }
    let Ok((begins, columns)) = preprocess(alloc, n, a_p, a_i) else {
        return Err(Fault::OutOfMemory);
    };
    if columns.len() > indices.len() {
        return Err(Fault::RoomTooSmall);
    }
    pointers.copy_from_slice(&begins);
    indices[..columns.len()].copy_from_slice(&columns);
    Ok(())
}
