// What `check!` of `amd_testing` calls: an assertion as a function, since a call is quicker to prove than an `assert!`
// in each place. And the same for assertions that show a matrix where they fail.

ghost use Rattle.std.specs.Prelude.{IsTrue};

use amd::Control;
use std::process::Abort;

/// Ends the run with a text unless something holds.
pub fn check(rt: &impl Abort, holds: bool, what: &str)
    ensures { IsTrue holds }
{
    assert!(rt; holds, "{what}");
}

/// Ends the run with a matrix unless something holds.
pub fn check_matrix(rt: &impl Abort, holds: bool, a_p: &[i64], a_i: &[i64])
    ensures { IsTrue holds }
{
    assert!(rt; holds, "{a_p:?} {a_i:?}");
}

/// Ends the run with a matrix and a choice of a caller unless something holds.
pub fn check_chosen(rt: &impl Abort, holds: bool, control: &Control, a_p: &[i64], a_i: &[i64])
    ensures { IsTrue holds }
{
    assert!(rt; holds, "{control:?} {a_p:?} {a_i:?}");
}
