// An ordering of one matrix into lists that are there: memory is taken as soon as it is known how much that is, and
// given back at the end. Source: AMD user guide; Amestoy, Davis and Duff 1996 and 2004.

ghost use Rattle.std.specs.Prelude.{◌≡◌, ◌<◌, ◌≤◌, ◌+◌, ◌*◌, ◌/◌, ◌^◌, ℕ, false, pos, map, length, slice_index};
ghost use Rattle.std.specs.Prelude.{IfOk, IfErr};
ghost use Rattle.std.specs.Option.{option_copied, SomeIff};
ghost use Rattle.amd_model.specs.Input.Pattern.{is_pair};
ghost use Rattle.amd_lists.specs.Sizes.{AreWideEnough};
ghost use Rattle.amd_types.specs.Naturals.{naturals};
ghost use Rattle.amd_workspace.specs.Lists.{HasRoom};
ghost use Rattle.amd.specs.Answers.{OrdersMatrix};
ghost use Rattle.amd.specs.Within.{IsGiven, IsGivenBy, OrdersGiven};

use crate::request::{Matrix, Request};
use crate::within::{count_degrees, order_sorted};
use amd_engine::amd_1::{ask_for_most, holds};
use amd_input::preprocess::row_form_with;
use amd_types::amd::Info;
use amd_types::index::Index;
use amd_types::internal::{count_at, from_count};
use amd_words::{Signed, Unsigned};
use amd_workspace::lists::Memory;
use std::alloc::{AllocError, Allocator};

/// The most words of the lists of a matrix with so many rows and entries: two for each entry, with a fifth more, and
/// one for each row, where they are at most `isize::MAX`.
pub fn most_words(rows: usize, entries: usize) -> Option<usize>
    ensures { SomeIff result (2 * entries + 2 * entries / 5 + rows < 2 ^ 63) (2 * entries + 2 * entries / 5 + rows) }
{
    let twice = entries.checked_mul(2)?;
    let words = twice.checked_add(twice / 5)?.checked_add(rows)?;
    if words < 1 << 63 { Some(words) } else { None }
}

/// Orders a matrix with sorted columns in memory with room for its rows; that of its words is taken here.
///
/// # Errors
///
/// A refused request for memory. `p` and `p_inv` are then as before.
fn order_counted<I: Index, J: Index, S: Signed, P: Signed, U: Unsigned, A: Allocator + Copy>(
    alloc: A,
    memory: &mut Memory<S, P, U, A>,
    a_p: &[J],
    a_i: &[J],
    request: &Request<'_>,
    p: &mut [I],
    p_inv: &mut [I],
) -> Result<Info, AllocError>
    requires given { IsGiven (option_copied request.now.hold) false (map J.value a_p.now) (map J.value a_i.now)
        (length p.old) (length p_inv.old) }
    requires fits { (k : ℕ) → k < length p.old → I.fits (pos k) }
    requires room { HasRoom (length p.old) 0 memory.old }
    requires narrow { AreWideEnough S.MOST P.MOST U.MOST (length p.old)
        (2 * slice_index (naturals (map J.value a_p.now)) (length p.old)
        + 2 * slice_index (naturals (map J.value a_p.now)) (length p.old) / 5 + length p.old) }
    requires few { 2 * slice_index (naturals (map J.value a_p.now)) (length p.old)
        + 2 * slice_index (naturals (map J.value a_p.now)) (length p.old) / 5 + length p.old < 2 ^ 63 }
    ensures orders { IfOk result (OrdersMatrix (option_copied request.now.hold) (length p.old)
        request.now.control.now (is_pair (length p.old) (map J.value a_p.now) (map J.value a_i.now))
        (map J.value a_p.now) (map J.value a_i.now) (map I.value p.new) (map I.value p_inv.new)) }
    ensures kept { IfErr result (λ e. (p.new ≡ p.old) × (p_inv.new ≡ p_inv.old)) }
{
    let size = p.len();
    let mut info = Info::new(size);
    let nzaat = count_degrees(memory, size, a_p, a_i, &mut info);
    let room = nzaat + nzaat / 5 + size;
    memory.words.iw = Vec::with_capacity(alloc, room)?;
    order_sorted(memory, a_p, a_i, room, request, p, p_inv, &mut info);
    Ok(info)
}

/// Orders a matrix in these widths, by its transpose where it is jumbled, whose numbers are of type `J`.
///
/// # Errors
///
/// A refused request for memory. `p` and `p_inv` are then as before.
fn order_in<I: Index, J: Index, S: Signed, P: Signed, U: Unsigned, A: Allocator + Copy>(
    alloc: A,
    matrix: &Matrix<'_, I>,
    request: &Request<'_>,
    p: &mut [I],
    p_inv: &mut [I],
) -> Result<Info, AllocError>
    requires given { IsGivenBy I.value matrix.now request.now (length p.old) (length p_inv.old) }
    requires narrow { AreWideEnough S.MOST P.MOST U.MOST (length p.old)
        (2 * slice_index (naturals (map I.value matrix.now.a_p.now)) (length p.old)
        + 2 * slice_index (naturals (map I.value matrix.now.a_p.now)) (length p.old) / 5 + length p.old) }
    requires few { 2 * slice_index (naturals (map I.value matrix.now.a_p.now)) (length p.old)
        + 2 * slice_index (naturals (map I.value matrix.now.a_p.now)) (length p.old) / 5 + length p.old < 2 ^ 63 }
    requires fits { (k : ℕ) → k < length p.old → I.fits (pos k) }
    ensures orders { IfOk result (OrdersGiven I.value matrix.now request.now (length p.old) (map I.value p.new)
        (map I.value p_inv.new)) }
    ensures kept { IfErr result (λ e. (p.new ≡ p.old) × (p_inv.new ≡ p_inv.old)) }
{
    let size = p.len();
    let mut memory: Memory<S, P, U, A> = Memory::with_room(alloc, size, 0)?;
    let (a_p, a_i) = (matrix.a_p, matrix.a_i);
    if !matrix.jumbled {
        return order_counted(alloc, &mut memory, a_p, a_i, request, p, p_inv);
    }
    if from_count::<J>(size).is_none() {
        return Err(AllocError);
    }
    let (c_p, c_i): (Vec<J, A>, Vec<J, A>) = row_form_with(
        alloc,
        size,
        a_p,
        a_i,
        &mut memory.lists.w,
        &mut memory.words.next,
    )?;
    order_counted(alloc, &mut memory, &c_p, &c_i, request, p, p_inv)
}

/// Orders a matrix with at least one row in the least widths that its rows and entries need; a jumbled one by its
/// transpose. Writes the permutation into `p` and its inverse into `p_inv`, which have a place for each row, and
/// answers the record, whose status is `OK`.
///
/// # Errors
///
/// A refused request for memory; or its words could be more than `isize::MAX`; or no width holds two more than its
/// rows. `p` and `p_inv` are then as before.
pub fn order_once<I: Index, A: Allocator + Copy>(
    alloc: A,
    matrix: &Matrix<'_, I>,
    request: &Request<'_>,
    p: &mut [I],
    p_inv: &mut [I],
) -> Result<Info, AllocError>
    requires given { IsGivenBy I.value matrix.now request.now (length p.old) (length p_inv.old) }
    requires fits { (k : ℕ) → k < length p.old → I.fits (pos k) }
    ensures orders { IfOk result (OrdersGiven I.value matrix.now request.now (length p.old) (map I.value p.new)
        (map I.value p_inv.new)) }
    ensures kept { IfErr result (λ e. (p.new ≡ p.old) × (p_inv.new ≡ p_inv.old)) }
{
    let size = p.len();
    let entries = count_at(matrix.a_p, size);
    let Some(most) = most_words(size, entries) else {
        return Err(AllocError);
    };
    ask_for_most(alloc, size, 9, entries + entries / 5 + size)?;
    if holds::<i32, i32, u32>(size, most, 2) {
        return order_in::<I, i32, i32, i32, u32, A>(alloc, matrix, request, p, p_inv);
    }
    if holds::<i32, isize, u32>(size, most, 2) {
        return order_in::<I, i32, i32, isize, u32, A>(alloc, matrix, request, p, p_inv);
    }
    if holds::<i32, isize, usize>(size, most, 2) {
        return order_in::<I, isize, i32, isize, usize, A>(alloc, matrix, request, p, p_inv);
    }
    if holds::<isize, isize, usize>(size, most, 2) {
        return order_in::<I, isize, isize, isize, usize, A>(alloc, matrix, request, p, p_inv);
    }
    Err(AllocError)
}
