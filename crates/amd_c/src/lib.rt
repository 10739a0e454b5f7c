//! The library as C calls it: `order`, `order_holding`, `valid`, `aat` and `preprocess` of the crate `amd`, `columns`,
//! `counts` and `supernodes` of the crate `amd_factor`, and `amd_2` of the crate `amd_engine`, for `int32_t`
//! ([`int32`]) and `int64_t` ([`int64`]).
//!
//! A slice crosses as a pointer and a length, and a record by its address. An ordering is written into the caller's
//! arrays, and a call returns the number of a status. The header `include/rimopaku.h` says what a caller must uphold.
#![tactic(auto)]

pub mod int32;
pub mod int64;

ghost use Rattle.std.specs.Prelude.{◌≡◌, pos, true};

use amd::Control;
use amd_calls::records::Parameters;

/// Writes the default parameters: 10000 thousandths, aggressive absorption.
///
/// Source: AMD user guide.
#[unsafe(no_mangle)]
pub extern "C" fn rimopaku_defaults(parameters: &mut Parameters)
    ensures dense { parameters.new.dense ≡ pos 10000 }
    ensures aggressive { parameters.new.aggressive ≡ true }
{
    let Control { dense, aggressive } = Control::default();
    *parameters = Parameters { dense, aggressive };
}

#[cfg(test)]
mod supernode_tests;
#[cfg(test)]
mod tests;
