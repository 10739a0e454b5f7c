// The ordering of a matrix with the counts of the exact factor under it.

ghost use Rattle.std.specs.Prelude.{ℤ, List, pos, map, IfOk, IfErr};
ghost use Rattle.std.specs.Option.{option_copied};
ghost use Rattle.amd.specs.Answers.{IsOrderingHolding};
ghost use Rattle.amd_factor.specs.Counted.{IsCountsOf};
ghost use Rattle.amd_symbolic.specs.Faults.{IsFaultHolding};

use amd::{Control, Info};
use amd_market::reader::Matrix;
use amd_symbolic::{Counts, Fault, analyze_counts, analyze_counts_holding};
use std::alloc::Allocator;

/// An ordering, and the counts of the exact factor under it.
#[derive(Drop)]
pub struct Analysis<A: Allocator> {
    /// The permutation: row `p[k]` stands at place `k`.
    pub p: Vec<usize, A>,
    /// What the ordering tells.
    pub info: Info,
    /// How many entries the columns of the factor under it have, the parents, and what the factor needs.
    pub counts: Counts<A>,
}

/// Orders a matrix, with the marked rows held last where there are marks, and returns the counts of the factor under
/// the ordering with it. No memory is asked for the entries of the factor.
///
/// # Errors
///
/// Those of `analyze_counts` and `analyze_counts_holding`.
pub fn analyze_matrix<A: Allocator + Copy>(
    alloc: A,
    matrix: &Matrix<A>,
    control: &Control,
    hold: Option<&[bool]>,
) -> Result<Analysis<A>, Fault>
    ensures ordering { IfOk result (λ a. (q : List ℤ) ×
        IsOrderingHolding (option_copied hold.entry) (pos matrix.now.n) control.now.dense control.now.aggressive
        (map pos matrix.now.a_p.items) (map pos matrix.now.a_i.items) (map pos a.p.items) q a.info) }
    ensures counts { IfOk result (λ a. IsCountsOf (pos matrix.now.n) (map pos matrix.now.a_p.items)
        (map pos matrix.now.a_i.items) (map pos a.p.items) a.counts.sizes.items a.counts.parent.items
        a.counts.need) }
    ensures fault { IfErr result (λ e. IsFaultHolding (option_copied hold.entry) (pos matrix.now.n)
        (map pos matrix.now.a_p.items) (map pos matrix.now.a_i.items) e) }
{
    match hold {
        Some(marks) => {
            let answer = analyze_counts_holding(
                alloc,
                matrix.n,
                &matrix.a_p,
                &matrix.a_i,
                control,
                marks,
            );
            let (p, _, info, counts) = answer?;
            Ok(Analysis { p, info, counts })
        }
        None => {
            let answer = analyze_counts(alloc, matrix.n, &matrix.a_p, &matrix.a_i, control);
            let (p, _, info, counts) = answer?;
            Ok(Analysis { p, info, counts })
        }
    }
}
