// The ordering of a matrix that was read.

ghost use Rattle.std.specs.Prelude.{ℤ, List, pos, map, IfOk, IfErr};
ghost use Rattle.std.specs.Option.{option_copied};
ghost use Rattle.amd.specs.Answers.{IsOrderingHolding, IsRefusalHolding};

use amd::{Control, Info, Status, order_marked};
use amd_market::reader::Matrix;
use std::alloc::Allocator;

/// Orders a matrix, with the marked rows held last where there are marks, and returns the permutation and what it
/// tells: row `p[k]` stands at place `k`.
///
/// # Errors
///
/// Those of `order` and `order_holding`.
pub fn order_matrix<A: Allocator + Copy>(
    alloc: A,
    matrix: &Matrix<A>,
    control: &Control,
    hold: Option<&[bool]>,
) -> Result<(Vec<usize, A>, Info), Status>
    ensures ordering { IfOk result (λ a. (q : List ℤ) ×
        IsOrderingHolding (option_copied hold.entry) (pos matrix.now.n) control.now.dense control.now.aggressive
        (map pos matrix.now.a_p.items) (map pos matrix.now.a_i.items) (map pos a.0.items) q a.1) }
    ensures refusal { IfErr result (λ e. IsRefusalHolding (option_copied hold.entry) (pos matrix.now.n)
        (map pos matrix.now.a_p.items) (map pos matrix.now.a_i.items) e) }
{
    let (p, _, info) = order_marked(alloc, matrix.n, &matrix.a_p, &matrix.a_i, control, hold)?;
    Ok((p, info))
}
