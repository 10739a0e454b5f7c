// An ordering and the counts of the factor under it in one call, without the columns.

ghost use Rattle.std.specs.Prelude.{◌≡◌, map, List, ℤ, Bool, Option, Some, IfOk, IfErr};
ghost use Rattle.amd.specs.Answers.{IsOrdering, IsOrderingHolding};
ghost use Rattle.amd_factor.specs.Counted.{IsCountsOf};
ghost use Rattle.amd_symbolic.specs.Faults.{IsAnalysisFault, IsFaultHolding};

use crate::analysis::fault_of;
use amd::{Control, Info, order, order_holding};
use amd_factor::counting::matrix_counts;
use amd_factor::{Counts, Fault};
use amd_types::index::Index;
use num_traits::PrimInt;
use std::alloc::Allocator;

/// The counts under the order that an ordering gave.
fn ordered_counts<I: Index, A: Allocator + Copy>(
    alloc: A,
    n: I,
    a_p: &[I],
    a_i: &[I],
    p: &[I],
    info: &Info,
) -> Result<Counts<A>, Fault>
    requires ordering { (hold : Option (List Bool)) × (t : ℤ) × (aggressive : Bool) × (q : List ℤ) ×
        IsOrderingHolding hold (I.value n) t aggressive (map I.value a_p.now) (map I.value a_i.now) (map I.value p.now)
        q info.now }
    ensures counts { IfOk result (λ c. IsCountsOf (I.value n) (map I.value a_p.now) (map I.value a_i.now)
        (map I.value p.now) c.sizes.items c.parent.items c.need) }
    ensures fault { IfErr result (λ e. e ≡ Fault.OutOfMemory) }
{
    match matrix_counts(alloc, n, a_p, a_i, p) {
        Ok(counted) => Ok(counted),
        Err(Fault::OutOfMemory) => Err(Fault::OutOfMemory),
        Err(Fault::NotColumnForm) => unreachable!(),
        Err(Fault::NotPermutation) => unreachable!(),
        Err(Fault::RoomTooSmall) => unreachable!(),
    }
}

/// Orders as [`amd::order`] does; returns the permutation `p`, its inverse, the record, and the counts under `p`.
///
/// The input is a column form as that of [`amd::order`]. The permutation and its inverse have `n` numbers each. The
/// counts are those of [`counts`] with this order: what the exact factor needs stands beside the bounds of the record.
///
/// For `n = 0` the result is two empty vectors, `Info::new(0)` and counts of no column, whatever the pointers are.
///
/// # Errors
///
/// `NotColumnForm` exactly where `n` is not 0 and the input is no column form; no memory is asked before. `OutOfMemory`
/// where an allocation was refused, or the workspace would have more than `isize::MAX` words. No other fault.
///
/// Source: AMD user guide; Amestoy, Davis and Duff 1996 and 2004; Rose, Tarjan and Lueker 1976; Liu 1986;
/// Gilbert, Ng and Peyton 1994.
pub fn analyze_counts<I: PrimInt, A: Allocator + Copy>(
    alloc: A,
    n: I,
    a_p: &[I],
    a_i: &[I],
    control: &Control,
) -> Result<(Vec<I, A>, Vec<I, A>, Info, Counts<A>), Fault>
    // A number of a primitive type is always in range.
    requires fits { I.fits (I.value n) }
    ensures ordering { IfOk result (λ a. IsOrdering (I.value n) control.now.dense control.now.aggressive
        (map I.value a_p.now) (map I.value a_i.now) (map I.value a.0.items) (map I.value a.1.items) a.2) }
    ensures counts { IfOk result (λ a. IsCountsOf (I.value n) (map I.value a_p.now) (map I.value a_i.now)
        (map I.value a.0.items) a.3.sizes.items a.3.parent.items a.3.need) }
    ensures fault { IfErr result (λ e. IsAnalysisFault (I.value n) (map I.value a_p.now) (map I.value a_i.now) e) }
{
    let (p, p_inv, info) = match order(alloc, n, a_p, a_i, control) {
        Ok(answer) => answer,
        Err(refusal) => return Err(fault_of(refusal)),
    };
    let counted = ordered_counts(alloc, n, a_p, a_i, &p, &info)?;
    Ok((p, p_inv, info, counted))
}

/// Orders as [`amd::order_holding`] does, with the rows marked in `hold` held last, and returns the counts too.
///
/// `hold` has one mark for each of the `n` rows. The results have the lengths that [`analyze_counts`] gives them. For
/// `n = 0` they are as there, whatever the pointers and the marks are.
///
/// # Errors
///
/// `NotColumnForm` exactly where `order_holding` returns `Invalid`: `n` is not 0 and either the input is no column form
/// or `hold` has not one mark for each of the `n` rows. `OutOfMemory` as `analyze_counts`. No other fault.
///
/// Source: AMD user guide; Amestoy, Davis and Duff 1996 and 2004; Rose, Tarjan and Lueker 1976; Liu 1986;
/// Gilbert, Ng and Peyton 1994.
pub fn analyze_counts_holding<I: PrimInt, A: Allocator + Copy>(
    alloc: A,
    n: I,
    a_p: &[I],
    a_i: &[I],
    control: &Control,
    hold: &[bool],
) -> Result<(Vec<I, A>, Vec<I, A>, Info, Counts<A>), Fault>
    // A number of a primitive type is always in range.
    requires fits { I.fits (I.value n) }
    ensures ordering { IfOk result (λ a. IsOrderingHolding (Some hold.now) (I.value n) control.now.dense
        control.now.aggressive (map I.value a_p.now) (map I.value a_i.now) (map I.value a.0.items)
        (map I.value a.1.items) a.2) }
    ensures counts { IfOk result (λ a. IsCountsOf (I.value n) (map I.value a_p.now) (map I.value a_i.now)
        (map I.value a.0.items) a.3.sizes.items a.3.parent.items a.3.need) }
    ensures fault { IfErr result (λ e. IsFaultHolding (Some hold.now) (I.value n) (map I.value a_p.now)
        (map I.value a_i.now) e) }
{
    let (p, p_inv, info) = match order_holding(alloc, n, a_p, a_i, control, hold) {
        Ok(answer) => answer,
        Err(refusal) => return Err(fault_of(refusal)),
    };
    let counted = ordered_counts(alloc, n, a_p, a_i, &p, &info)?;
    Ok((p, p_inv, info, counted))
}
