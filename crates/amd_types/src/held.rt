// Whether a caller marked a row to be held last.

ghost use Rattle.std.specs.Prelude.{◌≡◌, ◌<◌, ℕ};
ghost use Rattle.std.specs.Option.{option_copied};
ghost use Rattle.amd_model.specs.Input.Held.{HasMarks, is_marked};

/// Whether a row is marked; without a list of marks none is.
///
/// `row` is below the number of rows, and the list, where it is given, has one mark for each row.
#[inline]
pub fn is_held(hold: Option<&[bool]>, row: usize) -> bool
    requires within { (n : ℕ) × (row < n) × HasMarks (option_copied hold) n }
    ensures { result ≡ is_marked (option_copied hold.entry) row }
{
    match hold {
        Some(marks) => marks[row],
        None => false,
    }
}
