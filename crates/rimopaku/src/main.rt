//! Orders the rows of a sparse matrix in a file, works out the exact factor, or tells what the
//! matrix is.
//!
//!     rimopaku order FILE.mtx [--dense T] [--no-aggressive] [--hold PATH] [--out PATH] [--json] [--progress] [--quiet]
//!         [--yes] [--memory LIMIT] [--inverse] [--zero-based] [--compare [--with PATH | --with-inverse PATH]]
//!         [--factor PATH] [--permuted PATH] [--tree PATH] [--postorder PATH] [--picture PATH [--symmetric]]
//!         [--tree-picture PATH]
//!     rimopaku analyze FILE.mtx [--dense T] [--no-aggressive] [--hold PATH] [--out PATH] [--json] [--progress]
//!         [--quiet] [--yes] [--memory LIMIT]
//!     rimopaku info FILE.mtx [--dense T] [--json] [--progress] [--quiet] [--yes] [--memory LIMIT]
//!         [--exact [--with PATH | --with-inverse PATH]]
//!
//! `-` in place of a file is standard input, or standard output. `order` writes the permutation, the number of a row a
//! line. `analyze` writes a line for each column of the factor, in the order of the elimination: three numbers with a
//! space between them, which are the row of the column, the row of its parent in the elimination tree, or 0 where it
//! has none, and how many entries the column has below the diagonal. Rows count from 1. Figures and messages go to
//! standard error; with `--json` the figures stand in one object beside the permutation. `--compare` and `--exact`
//! count what the factor needs as the rows stand, as they are ordered, and in the order that the file of `--with`
//! lists, or that of `--with-inverse` by places. Each place of an output is checked before the work; one that is also
//! an input, or another output, is refused.
//!
//! The exit status is 0 where all was done, 1 where memory was refused or an output failed, 2 where an argument or an
//! input is wrong, and 3 where a picture could not be drawn or written, but all else is. With a status of 2, and
//! where memory was refused with a status of 1, no output is written.
#![tactic(auto)]

use amd_command::program::{complain_of_word, run};
use anyhow::Result;
use std::env;
use std::process::ExitCode;

fn main(rt: HostRuntime) -> Result<ExitCode> {
    if complain_of_word(&rt)? {
        return Ok(ExitCode::from(2));
    }
    let words: Vec<String> = env::args(&rt)?.collect(rt.alloc())?;
    Ok(ExitCode::from(run(&rt, &words)))
}
