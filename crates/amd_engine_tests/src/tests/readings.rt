// What a reader of cases returns, in short: a case has several lists, and each place that holds one is slow to prove.

use amd_cases::faults::CaseFault;
use amd_cases::reader::{CaseError, CaseReader};
use std::alloc::Allocator;
use std::io::Read;

/// What a reader returned.
#[derive(Clone, Copy, PartialEq, Debug, Drop)]
pub enum Reading {
    /// A case: its number, and the number of its rows.
    Case(i64, i64),
    /// The end.
    End,
    /// A line that is refused, and why.
    Fault(u64, CaseFault),
    /// The input cannot be read.
    Broken,
    /// An error was told before.
    Stopped,
}

/// What a reader returns next.
pub fn reading_of<R: Read + Drop, A: Allocator + Copy>(cases: &mut CaseReader<R, A>) -> Reading {
    match cases.next_case() {
        Ok(Some(case)) => Reading::Case(case.number, case.n),
        Ok(None) => Reading::End,
        Err(CaseError::Line { line, fault }) => Reading::Fault(line, fault),
        Err(CaseError::Input { .. }) => Reading::Broken,
        Err(CaseError::Stopped) => Reading::Stopped,
    }
}
