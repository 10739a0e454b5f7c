// The assertion of the tests. A library has no function that may end the process, so what the macro calls stands in
// each crate of tests that uses it.

/// Asserts a condition, over a reference to a runtime, by `check` in the module `checks` of the crate. A failure shows
/// the condition, or the text that is given.
#[macro_export]
macro_rules! check {
    ($rt:expr; $holds:expr) => {
        crate::checks::check($rt, $holds, stringify!($holds))
    };
    ($rt:expr; $holds:expr, $what:expr) => {
        crate::checks::check($rt, $holds, $what)
    };
}
