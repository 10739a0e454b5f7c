// The rows held last: those that a caller marks, and the dense ones. Source: the AMD user guide on dense rows.

ghost use Rattle.std.specs.Prelude.{◌≡◌, ◌<◌, ◌||◌, ℕ, nat_lt, length, IfOk};
ghost use Rattle.std.specs.Option.{option_copied};
ghost use Rattle.amd_model.specs.Input.Held.{HasMarks, is_marked};
ghost use Rattle.amd_plain.specs.Views.{mark_at, num};

use amd_types::held::is_held;
use std::alloc::{AllocError, Allocator};

/// A mark for each row that is held last: it is marked in `hold`, or its degree is above the threshold of dense rows.
///
/// # Errors
///
/// `AllocError` for a refused request.
pub fn rows_held_last<A: Allocator + Copy>(
    alloc: A,
    degrees: &[usize],
    threshold: usize,
    hold: Option<&[bool]>,
) -> Result<Vec<bool, A>, AllocError>
    requires marks { HasMarks (option_copied hold) (length degrees.now) }
    ensures size { IfOk result (λ v. length v.items ≡ length degrees.now) }
    ensures rows { IfOk result (λ v. (i : ℕ) → i < length degrees.now →
        mark_at v.items i ≡ (is_marked (option_copied hold.entry) i || nat_lt threshold (num degrees.now i))) }
{
    let mut last = Vec::with_capacity(alloc, degrees.len())?;
    'rows: for i in 0..degrees.len() {
        last.push_reserved(is_held(hold, i) || degrees[i] > threshold);
    }
    Ok(last)
}
