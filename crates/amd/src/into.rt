// An ordering of one matrix into the caller's own lists: no other place is taken for the permutation and its inverse.
// Source: AMD user guide; Amestoy, Davis and Duff 1996 and 2004.

ghost use Rattle.std.specs.Prelude.{◌≡◌, map, IfOk, IfErr};
ghost use Rattle.std.specs.Option.{option_copied};
ghost use Rattle.amd.specs.Answers.{IsOrderingHolding};
ghost use Rattle.amd.specs.Within.{IsIntoRefusal};

use crate::entrance::jumbled_of;
use crate::once::order_once;
use crate::request::{Matrix, Request};
use crate::workspace::valid_rows;
use amd_types::amd::{Control, Info, Status};
use amd_types::index::Index;
use std::alloc::Allocator;

/// Orders the rows of a square matrix, as [`crate::order_marked`] does, into lists of the caller: writes the
/// permutation into `p` and its inverse into `p_inv`, which have `n` places each, and returns the record.
///
/// # Errors
///
/// * `Invalid` exactly where `n` is not 0 and the input is no column form, or has marks and not one for each row; or
///   where `p` or `p_inv` has not `n` places.
/// * `OutOfMemory` as `order`, only where the call is valid and `n` is not 0.
///
/// After an error `p` and `p_inv` are as before.
///
/// Source: AMD user guide; Amestoy, Davis and Duff 1996 and 2004.
pub fn order_into<I: Index, A: Allocator + Copy>(
    alloc: A,
    n: I,
    a_p: &[I],
    a_i: &[I],
    control: &Control,
    hold: Option<&[bool]>,
    p: &mut [I],
    p_inv: &mut [I],
) -> Result<Info, Status>
    // A number of a primitive type is always in range.
    requires fits { I.fits (I.value n) }
    ensures ordering { IfOk result (λ info. IsOrderingHolding (option_copied hold.entry) (I.value n)
        control.now.dense control.now.aggressive (map I.value a_p.now) (map I.value a_i.now) (map I.value p.new)
        (map I.value p_inv.new) info) }
    ensures refusal { IfErr result (IsIntoRefusal (option_copied hold.entry) (I.value n) (map I.value a_p.now)
        (map I.value a_i.now) (map I.value p.old) (map I.value p_inv.old)) }
    ensures kept { IfErr result (λ e. (p.new ≡ p.old) × (p_inv.new ≡ p_inv.old)) }
{
    let request = Request { control, hold };
    let Some((size, status)) = valid_rows(n, a_p, a_i, hold, p, p_inv) else {
        return Err(Status::Invalid);
    };
    if size == 0 {
        return Ok(Info::new(0));
    }
    let Some(jumbled) = jumbled_of(&status) else {
        unreachable!()
    };
    let mut info = order_once(alloc, &Matrix { a_p, a_i, jumbled }, &request, p, p_inv)?;
    info.status = status;
    Ok(info)
}
