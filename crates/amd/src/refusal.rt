// Why a workspace refuses to order: nothing but the input and the caller's lists is a reason.

use thiserror::Error;

/// Why a workspace ordered nothing.
#[derive(PartialEq, Eq, Clone, Copy, Debug, Drop, Error)]
pub enum Refusal {
    /// The input is no column form, or has not one mark for each row where it has marks; or the lists for the
    /// permutation and its inverse have not one place for each row.
    #[error("the input is no column form, or a list has not one place for each row")]
    Invalid,
    /// The input has more rows or entries than the workspace was made for.
    #[error("the input has more rows or entries than the workspace was made for")]
    TooLarge,
}
