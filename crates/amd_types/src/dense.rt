// The number of edges above which a row is dense. The rule is that of the AMD user guide, with the parameter in
// thousandths and a whole root in place of a float's.

ghost use Rattle.std.specs.Prelude.{◌≡◌, true, pos};
ghost use Rattle.amd_model.specs.Input.Dense.{IsRawThreshold, IsThreshold};

use crate::amd::Control;

/// As `dense_root`, for each number of rows, in 128 bits.
fn wide_root(n: usize, dense: u32) -> usize
    ensures { IsRawThreshold n (pos dense) result }
{
    let dense = dense as u128;
    let square = dense * dense * (n as u128);
    (square.isqrt() / 1000) as usize
}

/// The largest `d` with `(1000 d)^2 <= dense^2 n`. The square has 64 bits but for very many rows, and a root is found
/// bit by bit.
fn dense_root(n: usize, dense: u32) -> usize
    ensures { IsRawThreshold n (pos dense) result }
{
    let parameter = dense as usize;
    match (parameter * parameter).checked_mul(n) {
        Some(square) => square.isqrt() / 1000,
        None => wide_root(n, dense),
    }
}

/// Whether a matrix has so few rows that its threshold is their number: the root is at least `n` exactly where
/// `(1000 n)^2 <= dense^2 n`. Then it is not taken, which for a handful of rows is a good part of an ordering.
fn has_few_rows(n: usize, dense: u32) -> bool
    ensures { result ≡ true → IsThreshold n (pos dense) n }
{
    let parameter = dense as usize;
    n <= parameter * parameter / 1_000_000
}

/// The threshold of a matrix with `n` rows: a row with more edges is dense.
///
/// For a parameter of `dense` thousandths it is `dense / 1000 * sqrt(n)`, rounded down to a whole number, and for a
/// negative one `n - 2`, but 0 for `n < 2`; raised to 16 where it is less, and afterwards cut to `n`. Any `n` and any
/// parameter are allowed.
///
/// Source: AMD user guide.
pub fn dense_threshold(n: usize, control: &Control) -> usize
    ensures { IsThreshold n control.now.dense result }
{
    let dense = control.dense;
    if dense < 0 {
        return n.saturating_sub(2).max(16).min(n);
    }
    let dense = dense.unsigned_abs();
    if has_few_rows(n, dense) {
        return n;
    }
    dense_root(n, dense).max(16).min(n)
}
