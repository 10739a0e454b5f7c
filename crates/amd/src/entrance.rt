// What each ordering tests first: the status of its input, with the marks of rows to hold last. Source: AMD user guide.

ghost use Rattle.std.specs.Prelude.{◌≡◌, ◌≢◌, pos, map};
ghost use Rattle.std.specs.Option.{option_copied};
ghost use Rattle.amd_model.specs.Input.Held.{HasMarks};
ghost use Rattle.amd_types.specs.Statuses.{IsStatusOf};
ghost use Rattle.amd.specs.Within.{jumbled_by};

use amd_input::valid::status_of;
use amd_types::amd::Status;
use amd_types::index::Index;

/// The status of an input with marks of rows to hold last: that of the column form, but `Invalid` where there are marks
/// and not one for each of the `count` rows.
pub fn class_of<I: Index>(n: I, count: usize, a_p: &[I], a_i: &[I], hold: Option<&[bool]>) -> Status
    requires fits { I.fits (I.value n) }
    requires count { I.value n ≡ pos count }
    ensures marks { result ≢ Status.Invalid → HasMarks (option_copied hold.entry) count }
    ensures status { HasMarks (option_copied hold.entry) count →
        IsStatusOf (I.value n) (I.value n) (map I.value a_p.now) (map I.value a_i.now) result }
{
    match hold {
        Some(marks) if marks.len() != count => Status::Invalid,
        _ => status_of(n, n, a_p, a_i),
    }
}

/// Whether a matrix of this status is jumbled, where it is a column form.
pub fn jumbled_of(status: &Status) -> Option<bool>
    ensures { result ≡ jumbled_by status.now }
{
    match status {
        Status::OK => Some(false),
        Status::OkButJumbled => Some(true),
        Status::Invalid | Status::OutOfMemory => None,
    }
}
