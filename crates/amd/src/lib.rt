//! An approximate minimum degree ordering of sparse matrices.
//!
//! [`order`] takes the pattern of a square matrix by columns and returns a permutation of its rows, its inverse, and
//! figures. [`order_holding`] does the same with rows that a caller wants last. A [`Workspace`] is memory that is taken
//! once: its calls give the same answers, ask for no memory, and refuse nothing but wrong or too large inputs.
//! [`control`] and [`info`] write what a caller chooses and what the ordering tells, as text.
#![tactic(auto)]

mod block;
mod entrance;
mod into;
pub mod laws;
mod lent;
mod narrow;
mod once;
mod refusal;
mod request;
mod widths;
mod within;
mod workspace;

ghost use Rattle.std.specs.Prelude.{◌≡◌, Some, map, IfOk, IfErr};
ghost use Rattle.std.specs.Option.{option_copied};
ghost use Rattle.amd.specs.Answers.{IsOrdering, IsOrderingHolding, IsRefusal, IsRefusalHolding};

use crate::entrance::{class_of, jumbled_of};
use crate::once::order_once;
use crate::request::{Matrix, Request};
use amd_engine::fresh::room_for;
pub use amd_input::{aat, preprocess, valid};
pub use amd_lent::{Lodged, Piece};
pub use amd_texts::{control, info};
pub use amd_types::amd::{Control, Info, Status};
pub use block::{order_in_block, order_in_block_narrow};
pub use into::order_into;
pub use lent::workspace_bytes;
pub use narrow::order_into_narrow;
pub use refusal::Refusal;
pub use workspace::Workspace;
/// Internal: how the crates over this one read a caller's numbers. It is no part of what the ordering promises.
use amd_types::index::Index;
pub use amd_types::internal;
use amd_types::internal::to_count;
use num_traits::PrimInt;
use std::alloc::Allocator;

/// Orders as [`order`] does, and where there are marks as [`order_holding`] does; both of them call it.
///
/// # Errors
///
/// Those of `order`, and with marks those of `order_holding`.
///
/// Source: AMD user guide; Amestoy, Davis and Duff 1996 and 2004.
pub fn order_marked<I: Index, A: Allocator + Copy>(
    alloc: A,
    n: I,
    a_p: &[I],
    a_i: &[I],
    control: &Control,
    hold: Option<&[bool]>,
) -> Result<(Vec<I, A>, Vec<I, A>, Info), Status>
    // A number of a primitive type is always in range.
    requires fits { I.fits (I.value n) }
    ensures ordering { IfOk result (λ a. IsOrderingHolding (option_copied hold.entry) (I.value n) control.now.dense
        control.now.aggressive (map I.value a_p.now) (map I.value a_i.now) (map I.value a.0.items)
        (map I.value a.1.items) a.2) }
    ensures refusal { IfErr result (λ e. IsRefusalHolding (option_copied hold.entry) (I.value n) (map I.value a_p.now)
        (map I.value a_i.now) e) }
{
    let Some(count) = to_count(n) else {
        return Err(Status::Invalid);
    };
    if count == 0 {
        return Ok((Vec::new(alloc), Vec::new(alloc), Info::new(0)));
    }
    let status = class_of(n, count, a_p, a_i, hold);
    let Some(jumbled) = jumbled_of(&status) else {
        return Err(status);
    };
    let mut p = room_for(alloc, count)?;
    let mut p_inv = room_for(alloc, count)?;
    let request = Request { control, hold };
    let mut info = order_once(
        alloc,
        &Matrix { a_p, a_i, jumbled },
        &request,
        &mut p,
        &mut p_inv,
    )?;
    info.status = status;
    Ok((p, p_inv, info))
}

/// Orders the rows of a square matrix by the pattern of `A + A'`; returns the permutation, its inverse, and the record.
///
/// The matrix has `n` columns, and column `j` holds the rows `a_i[a_p[j]..a_p[j + 1]]`. The permutation `p` and its
/// inverse `p_inv` have `n` numbers each, in `0..n`: row `p[k]` is at place `k`, and `p_inv[p[k]]` is `k`. The record
/// tells what is known of the matrix. Its status is `OkButJumbled` where some column is out of order or has a
/// duplicate, else `OK`.
///
/// The input is a *column form*: `n` is not negative; `a_p` has at least `n + 1` pointers, of which the first is 0; up
/// to `a_p[n]`, which is at most the length of `a_i`, they never descend; and the row indices before place `a_p[n]` lie
/// in `0..n`. What follows is ignored. Columns may be out of order and have duplicates. A sorted input is used as it
/// is, and a jumbled one is replaced by its sorted transpose.
///
/// For `n = 0` the result is two empty vectors and `Info::new(0)`, whatever the pointers are.
///
/// The contract bounds `n_cmp_a` by `n` and says no more of it. It cannot say that `OutOfMemory` has no other cause
/// than those below.
///
/// # Errors
///
/// `Invalid` exactly where `n` is not 0 and the input is no column form; no memory is asked before. `OutOfMemory`, only
/// for a column form with `n` not 0, where an allocation was refused, or the words of the lists could be more than
/// `isize::MAX`. Two refusals more no input of a primitive type reaches: where no width holds `n + 2`, and where the
/// type of a transpose lacks a pointer of it.
///
/// Source: AMD user guide; Amestoy, Davis and Duff 1996 and 2004.
pub fn order<I: PrimInt, A: Allocator + Copy>(
    alloc: A,
    n: I,
    a_p: &[I],
    a_i: &[I],
    control: &Control,
) -> Result<(Vec<I, A>, Vec<I, A>, Info), Status>
    // A number of a primitive type is always in range.
    requires fits { I.fits (I.value n) }
    ensures ordering { IfOk result (λ a. IsOrdering (I.value n) control.now.dense control.now.aggressive
        (map I.value a_p.now) (map I.value a_i.now) (map I.value a.0.items) (map I.value a.1.items) a.2) }
    ensures refusal { IfErr result (λ e. IsRefusal (I.value n) (map I.value a_p.now) (map I.value a_i.now) e) }
{
    order_marked(alloc, n, a_p, a_i, control, None)
}

/// Orders as [`order`] does, with the rows marked in `hold` held last beside the dense ones.
///
/// `hold` has one mark for each of the `n` rows. The permutation and its inverse have `n` numbers each. The marked rows
/// and the dense ones take no part in the elimination, come last, together in ascending order, and are counted in
/// `n_dense`. A marked row may be empty. With nothing marked, and where each marked row is dense anyway, the result is
/// that of `order`.
///
/// For `n = 0` the result is two empty vectors and `Info::new(0)`, whatever the pointers and the marks are.
///
/// # Errors
///
/// `Invalid` exactly where `n` is not 0 and either the input is no column form or `hold` has not one mark for each of
/// the `n` rows; no memory is asked before. `OutOfMemory` as `order`.
///
/// Source: AMD user guide; Amestoy, Davis and Duff 1996 and 2004.
pub fn order_holding<I: PrimInt, A: Allocator + Copy>(
    alloc: A,
    n: I,
    a_p: &[I],
    a_i: &[I],
    control: &Control,
    hold: &[bool],
) -> Result<(Vec<I, A>, Vec<I, A>, Info), Status>
    // A number of a primitive type is always in range.
    requires fits { I.fits (I.value n) }
    ensures ordering { IfOk result (λ a. IsOrderingHolding (Some hold.now) (I.value n) control.now.dense
        control.now.aggressive (map I.value a_p.now) (map I.value a_i.now) (map I.value a.0.items)
        (map I.value a.1.items) a.2) }
    ensures refusal { IfErr result (λ e. IsRefusalHolding (Some hold.now) (I.value n) (map I.value a_p.now)
        (map I.value a_i.now) e) }
{
    order_marked(alloc, n, a_p, a_i, control, Some(hold))
}
