// What is wrong with rows, or with places, that are no order of all of them.

ghost use Rattle.std.specs.Prelude.{◌≡◌, ◌≢◌, ◌<◌, ℕ, List, false, true, length, slice_index};
ghost use Rattle.std.specs.Prelude.{slice_index_or, IfOk, IfSome, MatchOption};
ghost use Rattle.amd_cli.specs.Orders.{AreSeen, IsBadPlace, IsOrderFault};

use std::alloc::{AllocError, Allocator};
use thiserror::Error;

/// What is wrong with rows, or places, that are no order of all of them; it names one by its number, from 1 on.
#[derive(Clone, Copy, Debug, Drop, Error)]
pub enum OrderFault {
    /// This row stands there more than once.
    #[error("row {0} stands there more than once")]
    Twice(u128),
    /// This row does not stand there.
    #[error("row {0} does not stand there")]
    Missing(u128),
    /// This place stands there more than once.
    #[error("place {0} stands there more than once")]
    TwicePlace(u128),
    /// This place does not stand there.
    #[error("place {0} does not stand there")]
    MissingPlace(u128),
}

impl OrderFault {
    /// The same fault of places, where it is one of rows.
    pub fn of_places(self) -> OrderFault
        ensures { (n : ℕ) → (rows : List ℕ) → IsOrderFault n rows self → IsOrderFault n rows result }
    {
        match self {
            OrderFault::Twice(number) => OrderFault::TwicePlace(number),
            OrderFault::Missing(number) => OrderFault::MissingPlace(number),
            OrderFault::TwicePlace(_) | OrderFault::MissingPlace(_) => self,
        }
    }
}

/// The first place of a row that stands before it too, or that has no mark. The rows before that place are marked.
fn bad_place(rows: &[usize], seen: &mut [bool]) -> Option<usize>
    requires { (i : ℕ) → slice_index_or seen.old i false ≡ false }
    ensures size { length seen.new ≡ length seen.old }
    ensures found { MatchOption result (AreSeen rows.now (length rows.now) seen.new)
        (IsBadPlace rows.now (length seen.old)) }
{
    'rows: for (place, &row) in rows.iter().enumerate() {
        if row >= seen.len() || seen[row] {
            return Some(place);
        }
        seen[row] = true;
    }
    None
}

/// What is wrong with rows, of `n`, that are no order of them; `None` where nothing is found, or a row is none.
///
/// # Errors
///
/// Memory was refused.
pub fn order_fault<A: Allocator>(
    alloc: A,
    n: usize,
    rows: &[usize],
) -> Result<Option<OrderFault>, AllocError>
    ensures { IfOk result (λ o. IfSome o (IsOrderFault n rows.now)) }
{
    let mut seen = vec![in alloc; false; n]?;
    if let Some(place) = bad_place(rows, &mut seen) {
        let row = rows[place];
        return Ok(if row < n {
            Some(OrderFault::Twice(row as u128 + 1))
        } else {
            None
        });
    }
    match seen.iter().position(|was| !*was) {
        Some(row) => Ok(Some(OrderFault::Missing(row as u128 + 1))),
        None => Ok(None),
    }
}
