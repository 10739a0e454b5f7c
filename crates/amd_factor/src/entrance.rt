// What each call on a matrix and an order tests first: whether the input is a column form, and, where there are no
// rows, whether the order is empty.

ghost use Rattle.std.specs.Prelude.{◌≡◌, ◌≢◌, [], pos, map, IfOk, IfErr};
ghost use Rattle.amd_model.specs.Input.Columns.{IsColumnForm};
ghost use Rattle.amd_factor.specs.Unfit.{IsUnfit};

use crate::forms::is_form;
use amd_types::index::Index;
use amd_types::internal::to_count;
use thiserror::Error;

/// Why a matrix and an order are not fit for a factor.
#[derive(Clone, Copy, PartialEq, Debug, Drop, Error)]
pub enum Unfit {
    /// The input is no column form.
    #[error("the input is no column form")]
    NotColumnForm,
    /// The order does not list each row, once.
    #[error("the order does not list each row, once")]
    NotPermutation,
}

/// How many rows a matrix has that is a column form, or has no rows under an empty order.
///
/// # Errors
///
/// `NotColumnForm` exactly where `n` is not 0 and the input is no column form. `NotPermutation` where `n` is 0 and `p`
/// is not empty.
pub fn rows_of<I: Index>(n: I, a_p: &[I], a_i: &[I], p: &[I]) -> Result<usize, Unfit>
    ensures size { IfOk result (λ size. pos size ≡ I.value n) }
    ensures form { IfOk result (λ size. size ≢ 0 →
        IsColumnForm (pos size) size (map I.value a_p.now) (map I.value a_i.now)) }
    ensures none { IfOk result (λ size. size ≡ 0 → map I.value p.now ≡ []) }
    ensures unfit { IfErr result (λ e. IsUnfit (I.value n) (map I.value a_p.now) (map I.value a_i.now)
        (map I.value p.now) e) }
{
    let Some(size) = to_count(n) else {
        return Err(Unfit::NotColumnForm);
    };
    if size == 0 {
        return if p.is_empty() {
            Ok(0)
        } else {
            Err(Unfit::NotPermutation)
        };
    }
    if !is_form(n, size, a_p, a_i) {
        return Err(Unfit::NotColumnForm);
    }
    Ok(size)
}
