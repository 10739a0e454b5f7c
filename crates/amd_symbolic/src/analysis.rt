// An ordering and the factor under it in one call: the record of the ordering tells a room that is never too small.

ghost use Rattle.std.specs.Prelude.{◌≡◌, ◌≢◌, ℤ, Bool, Option, List, Some, map, IfOk, IfErr};
ghost use Rattle.amd.specs.Answers.{IsOrdering, IsOrderingHolding};
ghost use Rattle.amd_factor.specs.Factors.{IsFactorOf};
ghost use Rattle.amd_symbolic.specs.Faults.{IsAnalysisFault, IsFaultHolding};

use amd::{Control, Info, Status, order, order_holding};
use amd_factor::factor::matrix_columns;
use amd_factor::{Factor, Fault};
use amd_types::index::Index;
use num_traits::PrimInt;
use std::alloc::Allocator;

/// The factor under the order that an ordering gave, with room for as many entries as its record tells.
fn reserved_columns<I: Index, A: Allocator + Copy>(
    alloc: A,
    n: I,
    a_p: &[I],
    a_i: &[I],
    p: &[I],
    info: &Info,
) -> Result<Factor<A>, Fault>
    requires ordering { (hold : Option (List Bool)) × (t : ℤ) × (aggressive : Bool) × (q : List ℤ) ×
        IsOrderingHolding hold (I.value n) t aggressive (map I.value a_p.now) (map I.value a_i.now) (map I.value p.now)
        q info.now }
    ensures factor { IfOk result (λ f. IsFactorOf (I.value n) (map I.value a_p.now) (map I.value a_i.now)
        (map I.value p.now) f.ptr.items f.rows.items f.parent.items) }
    ensures fault { IfErr result (λ e. e ≡ Fault.OutOfMemory) }
{
    if info.lnz == usize::MAX {
        return Err(Fault::OutOfMemory);
    }
    match matrix_columns(alloc, n, a_p, a_i, p, info.lnz) {
        Ok(factor) => Ok(factor),
        Err(Fault::OutOfMemory) => Err(Fault::OutOfMemory),
        Err(Fault::NotColumnForm) => unreachable!(),
        Err(Fault::NotPermutation) => unreachable!(),
        Err(Fault::RoomTooSmall) => unreachable!(),
    }
}

/// The fault that a refusal of an ordering is.
pub(crate) fn fault_of(refusal: Status) -> Fault
    ensures form { refusal ≡ Status.Invalid → result ≡ Fault.NotColumnForm }
    ensures memory { refusal ≢ Status.Invalid → result ≡ Fault.OutOfMemory }
{
    match refusal {
        Status::Invalid => Fault::NotColumnForm,
        _ => Fault::OutOfMemory,
    }
}

/// Orders as [`amd::order`] does; returns the permutation `p`, its inverse, the record, and the factor under `p`.
///
/// The input is a column form as that of [`amd::order`]. The permutation and its inverse have `n` numbers each. The
/// factor is that of [`columns`] with this order and `info.lnz` as room, which is never too small: it has `n + 1`
/// pointers, `ptr[n]` entries, at most `info.lnz`, and `n` parents.
///
/// For `n = 0` the result is two empty vectors, `Info::new(0)` and a factor of which `ptr` is `[0]`, whatever the
/// pointers are.
///
/// # Errors
///
/// `NotColumnForm` exactly where `n` is not 0 and the input is no column form; no memory is asked before. `OutOfMemory`
/// where an allocation was refused, the workspace would have more than `isize::MAX` words, or `lnz` is `usize::MAX`. No
/// other fault.
///
/// Source: AMD user guide; Amestoy, Davis and Duff 1996 and 2004; Rose, Tarjan and Lueker 1976; Liu 1990; Davis 2005.
pub fn analyze<I: PrimInt, A: Allocator + Copy>(
    alloc: A,
    n: I,
    a_p: &[I],
    a_i: &[I],
    control: &Control,
) -> Result<(Vec<I, A>, Vec<I, A>, Info, Factor<A>), Fault>
    // A number of a primitive type is always in range.
    requires fits { I.fits (I.value n) }
    ensures ordering { IfOk result (λ a. IsOrdering (I.value n) control.now.dense control.now.aggressive
        (map I.value a_p.now) (map I.value a_i.now) (map I.value a.0.items) (map I.value a.1.items) a.2) }
    ensures factor { IfOk result (λ a. IsFactorOf (I.value n) (map I.value a_p.now) (map I.value a_i.now)
        (map I.value a.0.items) a.3.ptr.items a.3.rows.items a.3.parent.items) }
    ensures fault { IfErr result (λ e. IsAnalysisFault (I.value n) (map I.value a_p.now) (map I.value a_i.now) e) }
{
    let (p, p_inv, info) = match order(alloc, n, a_p, a_i, control) {
        Ok(answer) => answer,
        Err(refusal) => return Err(fault_of(refusal)),
    };
    let factor = reserved_columns(alloc, n, a_p, a_i, &p, &info)?;
    Ok((p, p_inv, info, factor))
}

/// Orders as [`amd::order_holding`] does, with the rows marked in `hold` held last, and returns the factor too.
///
/// `hold` has one mark for each of the `n` rows. The results have the lengths that [`analyze`] gives them. For `n = 0`
/// they are as there, whatever the pointers and the marks are.
///
/// Room for `info.lnz` entries is reserved, which counts all rows held last as one full block. Where they are many it
/// is far more than the factor has: [`crate::analyze_counts_holding`] counts first, and [`crate::columns_into`] then
/// takes just so many places.
///
/// # Errors
///
/// `NotColumnForm` exactly where `order_holding` returns `Invalid`: `n` is not 0 and either the input is no column form
/// or `hold` has not one mark for each of the `n` rows. `OutOfMemory` as `analyze`. No other fault.
///
/// Source: AMD user guide; Amestoy, Davis and Duff 1996 and 2004; Rose, Tarjan and Lueker 1976; Liu 1990; Davis 2005.
pub fn analyze_holding<I: PrimInt, A: Allocator + Copy>(
    alloc: A,
    n: I,
    a_p: &[I],
    a_i: &[I],
    control: &Control,
    hold: &[bool],
) -> Result<(Vec<I, A>, Vec<I, A>, Info, Factor<A>), Fault>
    // A number of a primitive type is always in range.
    requires fits { I.fits (I.value n) }
    ensures ordering { IfOk result (λ a. IsOrderingHolding (Some hold.now) (I.value n) control.now.dense
        control.now.aggressive (map I.value a_p.now) (map I.value a_i.now) (map I.value a.0.items)
        (map I.value a.1.items) a.2) }
    ensures factor { IfOk result (λ a. IsFactorOf (I.value n) (map I.value a_p.now) (map I.value a_i.now)
        (map I.value a.0.items) a.3.ptr.items a.3.rows.items a.3.parent.items) }
    ensures fault { IfErr result (λ e. IsFaultHolding (Some hold.now) (I.value n) (map I.value a_p.now)
        (map I.value a_i.now) e) }
{
    let (p, p_inv, info) = match order_holding(alloc, n, a_p, a_i, control, hold) {
        Ok(answer) => answer,
        Err(refusal) => return Err(fault_of(refusal)),
    };
    let factor = reserved_columns(alloc, n, a_p, a_i, &p, &info)?;
    Ok((p, p_inv, info, factor))
}
