//! Prints a jumbled form of the matrix can_24, its ordering, and the permuted matrix.
#![tactic(auto)]

use amd_demos::jumbled::jumbled_to;
use std::io;
use std::process::ExitCode;

fn main(rt: HostRuntime) -> ExitCode {
    let mut out = io::writer(&rt);
    ExitCode::from(jumbled_to(rt.alloc(), &mut out))
}
