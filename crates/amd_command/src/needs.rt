// What the factor of a matrix needs under an order of its rows, as they stand or another one. The columns are counted
// and not written.

ghost use Rattle.std.specs.Prelude.{◌≡◌, pos, map, IfOk, IfErr};
ghost use Rattle.amd_factor.specs.Counted.{IsCountsFault};
ghost use Rattle.amd_command.specs.Needs.{IsNeedUnder, standing_rows};

use amd_factor::needs::Need;
use amd_market::reader::Matrix;
use amd_symbolic::{Fault, counts};
use std::alloc::{AllocError, Allocator};

/// What the factor of a matrix needs under an order of its rows.
///
/// # Errors
///
/// Those of `counts`.
pub fn need_under<A: Allocator + Copy>(
    alloc: A,
    matrix: &Matrix<A>,
    p: &[usize],
) -> Result<Need, Fault>
    ensures need { IfOk result (IsNeedUnder matrix.now.n matrix.now.a_p.items matrix.now.a_i.items p.now) }
    ensures fault { IfErr result (IsCountsFault (pos matrix.now.n) (map pos matrix.now.a_p.items)
        (map pos matrix.now.a_i.items) (map pos p.now)) }
{
    let counted = counts(alloc, matrix.n, &matrix.a_p, &matrix.a_i, p)?;
    Ok(counted.need)
}

/// The rows as they stand.
pub fn standing_order<A: Allocator>(alloc: A, n: usize) -> Result<Vec<usize, A>, AllocError>
    ensures { IfOk result (λ v. v.items ≡ standing_rows n) }
{
    let mut order = Vec::with_capacity(alloc, n)?;
    'rows: for row in 0..n {
        order.push(row)?;
    }
    Ok(order)
}
