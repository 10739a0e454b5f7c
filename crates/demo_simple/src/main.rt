//! Orders one small matrix and prints the permutation, its inverse, and what the ordering tells.
#![tactic(auto)]

use amd_demos::simple::simple_to;
use std::io;
use std::process::ExitCode;

fn main(rt: HostRuntime) -> ExitCode {
    let a_p = [0, 2, 6, 10, 12, 14];
    let a_i = [0, 1, 0, 1, 2, 4, 1, 2, 3, 4, 2, 3, 1, 4];
    let mut out = io::writer(&rt);
    ExitCode::from(simple_to(rt.alloc(), 5, &a_p, &a_i, &mut out))
}
