// What `check!` of `amd_testing` calls: an assertion as a function, since a call is quicker to prove than an `assert!`
// in each place.

ghost use Rattle.std.specs.Prelude.{IsTrue};

use std::process::Abort;

/// Ends the run with a text unless something holds.
pub fn check(rt: &impl Abort, holds: bool, what: &str)
    ensures { IsTrue holds }
{
    assert!(rt; holds, "{what}");
}
