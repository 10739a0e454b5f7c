// Writes the counts of a factor's columns into a caller's arrays, for any integer type and any allocator. The arrays
// and the record are written last, so they stay as they were where there is a fault.

ghost use Rattle.std.specs.Prelude.{◌≡◌, map};
ghost use Rattle.amd_model.specs.Figures.{cut};
ghost use Rattle.amd_calls.specs.Counting.{LeavesCounts, saturated_need, tallies};

use crate::factors::{write_numbers, write_parents};
use crate::matrix::Matrix;
use crate::records::SaturatedNeed;
use crate::writing::have_places;
use amd_factor::Fault;
use amd_factor::counting::matrix_counts;
use amd_factor::needs::Need;
use amd_types::signed::SignedIndex;
use std::alloc::Allocator;

/// A figure, or the greatest count where the figure exceeds it.
#[tactic(auto, unfolding(amd_model::specs::Figures::cut))]
fn cut_to_count(figure: u128) -> usize
    ensures { result ≡ cut figure }
{
    figure.min(usize::MAX as u128) as usize
}

/// What a factor needs, each figure cut at the greatest count.
pub fn saturated_need(need: &Need) -> SaturatedNeed
    ensures { result ≡ saturated_need need.now }
{
    SaturatedNeed {
        lnz: cut_to_count(need.lnz),
        n_mult_subs_ldl: cut_to_count(need.n_mult_subs_ldl),
        n_mult_subs_lu: cut_to_count(need.n_mult_subs_lu),
        d_max: cut_to_count(need.d_max),
    }
}

/// Writes how many entries each column of the factor of a matrix has under the order `p`, and what the factor needs.
///
/// The input is as that of `counts` of the crate `amd_symbolic`. The number of entries of each column is written into
/// `sizes`, and the parents into `parent`, with -1 for none. Each of the two has `n` places. What the factor needs is
/// written into `needs`, each figure cut at the greatest count.
///
/// # Errors
///
/// Those of `counts`; all stays as it was. `NotColumnForm` also where `sizes` or `parent` has not `n` places, and
/// `OutOfMemory` also where the type has no -1.
///
/// Source: Rose, Tarjan and Lueker 1976; Liu 1986; Gilbert, Ng and Peyton 1994.
pub fn counts_into<I: SignedIndex, A: Allocator + Copy>(
    alloc: A,
    matrix: Matrix<'_, I>,
    p: &[I],
    sizes: &mut [I],
    parent: &mut [I],
    needs: &mut SaturatedNeed,
) -> Result<(), Fault>
    // A number of a primitive type is always in range.
    requires fits { I.fits (I.value matrix.n) }
    ensures { LeavesCounts (I.value matrix.entry.n) (map I.value matrix.entry.a_p.now)
        (map I.value matrix.entry.a_i.now) (map I.value p.now)
        (tallies (map I.value sizes.old) (map I.value parent.old) needs.old)
        (tallies (map I.value sizes.new) (map I.value parent.new) needs.new) result }
{
    let Matrix { n, a_p, a_i } = matrix;
    if !have_places(n, sizes, parent) {
        return Err(Fault::NotColumnForm);
    }
    let counted = matrix_counts(alloc, n, a_p, a_i, p)?;
    let Some(_) = I::from_signed(-1) else {
        return Err(Fault::OutOfMemory);
    };
    write_numbers(&counted.sizes, sizes);
    write_parents(&counted.parent, parent);
    *needs = saturated_need(&counted.need);
    Ok(())
}
