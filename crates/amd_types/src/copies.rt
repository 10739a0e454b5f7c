// What a caller may rest on of copies and comparisons of the types that callers see: a clone is the same value and
// never fails, and `==` of two statuses says whether they are one. Each is the contract of a function.

ghost use Rattle.std.specs.Prelude.{◌≡◌, ◌↔◌, IsTrue};

use crate::amd::{Control, Info, Status};

/// The clone of a choice, which is the same.
pub fn copied_control(control: &Control) -> Control
    ensures { result ≡ control.now }
{
    match control.clone() {
        Ok(copy) => copy,
        Err(_) => unreachable!(),
    }
}

/// The clone of a record, which is the same.
pub fn copied_info(info: &Info) -> Info
    ensures { result ≡ info.now }
{
    match info.clone() {
        Ok(copy) => copy,
        Err(_) => unreachable!(),
    }
}

/// The clone of a status, which is the same.
pub fn copied_status(status: &Status) -> Status
    ensures { result ≡ status.now }
{
    match status.clone() {
        Ok(copy) => copy,
        Err(_) => unreachable!(),
    }
}

/// Whether two statuses are one.
pub fn is_same_status(one: &Status, other: &Status) -> bool
    ensures { IsTrue result ↔ one.now ≡ other.now }
{
    one == other
}
