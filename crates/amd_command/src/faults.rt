// Why a run ends early after a fault of the exact factor.

use amd_cli::causes::Cause;
use amd_symbolic::Fault;

/// The cause that a fault of the exact factor is.
pub fn cause_of(fault: Fault) -> Cause {
    match fault {
        Fault::OutOfMemory => Cause::Memory,
        Fault::NotColumnForm | Fault::NotPermutation | Fault::RoomTooSmall => Cause::Form,
    }
}
