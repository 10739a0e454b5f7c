// Why a workspace refuses a matrix and an order: nothing but the input and the caller's room is a reason.

ghost use Rattle.std.specs.Prelude.{◌≡◌};
ghost use Rattle.amd_factor.specs.Within.{refusal_of};

use crate::entrance::Unfit;
use thiserror::Error;

/// Why a workspace wrote no counts or no columns.
#[derive(PartialEq, Clone, Debug, Drop, Error)]
pub enum Refusal {
    /// The input is no column form; `amd::order` tells what that is.
    #[error("the input is no column form")]
    NotColumnForm,
    /// It has more rows or entries than the workspace was made for.
    #[error("the input has more rows or entries than the workspace was made for")]
    TooLarge,
    /// The order does not list each row, once.
    #[error("the order does not list each row, once")]
    NotPermutation,
    /// There is no room for all entries of the factor: it has so many, or `u128::MAX` where it has more.
    #[error("there is no room for the entries of the factor, which has {0} of them")]
    TooSmall(u128),
}

/// The refusal of a matrix and an order that are not fit for a factor.
pub fn refusal_for(unfit: Unfit) -> Refusal
    ensures { result ≡ refusal_of unfit }
{
    match unfit {
        Unfit::NotColumnForm => Refusal::NotColumnForm,
        Unfit::NotPermutation => Refusal::NotPermutation,
    }
}
