// A reader of cases, one after another, which holds one line and one case. The format is that of the root; the reader
// of lines is that of the crate `amd_lines`. No more is read of a line that is too long than the most that a line may
// have, and a block.

ghost use Rattle.std.specs.Prelude.{◌≡◌, ◌∷◌, [], None, true, false, IfOk, IfErr, MatchOption, is_err};
ghost use Rattle.amd_lines.specs.Lines.{TakesNotes, lines_read, rest_of};
ghost use Rattle.amd_cases.specs.Reading.{TakesItems, ReadsBody, ReadsCase, NamesLast};
ghost use Rattle.amd_cases.specs.Reading.{case_error, has_failed, lines_of};
ghost use Rattle.amd_cases.specs.declared.reader.CaseError.TheVariants as error;

use crate::cases::{Case, Draft};
use crate::faults::CaseFault;
use crate::items::{Item, item_of};
use amd_lines::errors::{LineCause, LineError};
use amd_lines::lines::LineReader;
use std::alloc::Allocator;
use std::io;
use std::io::Read;
use thiserror::Error;

/// The most bytes that a line may have, with its line feed.
pub const LONGEST_LINE: usize = 1 << 24;

/// Why there is no next case.
#[derive(Debug, Drop, Error)]
pub enum CaseError {
    /// A line is at fault; lines count from 1.
    #[error("line {line}: {fault}")]
    Line {
        /// The number of the line; where the input ends inside a case, that of the last line.
        line: u64,
        /// What is wrong with it.
        fault: CaseFault,
    },
    /// The input could not be read.
    #[error("behind line {line}: {error}")]
    Input {
        /// The number of the last line that was read.
        line: u64,
        /// What the input answered.
        error: io::Error,
    },
    /// An error came before, and nothing is read behind it.
    #[error("nothing is read behind an error")]
    Stopped,
}

impl From<LineError> for CaseError {
    ghost from_gives = { λ unread e. e ≡ case_error unread.line unread.cause };

    fn from(unread: LineError) -> CaseError {
        let LineError { line, cause } = unread;
        let fault = match cause {
            LineCause::Input(error) => return CaseError::Input { line, error },
            LineCause::Long => CaseFault::Long,
            LineCause::Lines => CaseFault::Lines,
            LineCause::OutOfMemory => CaseFault::OutOfMemory,
        };
        CaseError::Line { line, fault }
    }
}

/// A reader of the cases of an input.
#[derive(Drop)]
pub struct CaseReader<R: Read + Drop, A: Allocator> {
    lines: LineReader<R, A>,
    alloc: A,
    failed: bool,
}

impl<R: Read + Drop, A: Allocator + Copy> CaseReader<R, A> {
    /// A reader that stands before the first line.
    pub fn new(alloc: A, input: R) -> CaseReader<R, A>
        ensures source { rest_of R.remaining (lines_of result) ≡ R.remaining input }
        ensures lines { lines_read (lines_of result) ≡ 0 }
        ensures ready { has_failed result ≡ false }
    {
        CaseReader {
            lines: LineReader::new(alloc, input, LONGEST_LINE),
            alloc,
            failed: false,
        }
    }

    /// A fault of the line that was read last.
    fn at_line(&self, fault: CaseFault) -> CaseError
        ensures { result ≡ error.Line (lines_read (lines_of self.now)) fault }
    {
        CaseError::Line {
            line: self.lines.number(),
            fault,
        }
    }

    /// The item of the next line that has a word, if there is one.
    fn take_item(&mut self) -> Result<Option<Item<A>>, CaseError>
        ensures takes { IfOk result (λ o.
            MatchOption o (TakesNotes None R.remaining (lines_of self.old) (lines_of self.new))
            (λ i. TakesItems R.remaining (lines_of self.old) (lines_of self.new) (i ∷ []))) }
        ensures line { IfErr result (NamesLast R.remaining (lines_of self.old) (lines_of self.new)) }
    {
        if !self.lines.take_telling(None)? {
            return Ok(None);
        }
        match item_of(self.alloc, self.lines.line()) {
            Ok(item) => Ok(Some(item)),
            Err(fault) => Err(self.at_line(fault)),
        }
    }

    /// The rest of a case behind its first line.
    fn take_body(&mut self, number: i64) -> Result<Case<A>, CaseError>
        ensures takes { IfOk result (ReadsBody R.remaining (lines_of self.old) (lines_of self.new) number) }
        ensures line { IfErr result (NamesLast R.remaining (lines_of self.old) (lines_of self.new)) }
    {
        let mut draft = Draft::new(number);
        'items: loop {
            match self.take_item()? {
                None => return Err(self.at_line(CaseFault::Unfinished)),
                Some(Item::End) => match draft.finish() {
                    Ok(case) => return Ok(case),
                    Err(fault) => return Err(self.at_line(fault)),
                },
                Some(item) => {
                    if let Err(fault) = draft.add(item) {
                        return Err(self.at_line(fault));
                    }
                }
            }
        }
    }

    /// The next case, where no error came before.
    fn take_case(&mut self) -> Result<Option<Case<A>>, CaseError>
        ensures takes { IfOk result (λ o.
            MatchOption o (TakesNotes None R.remaining (lines_of self.old) (lines_of self.new))
            (ReadsCase R.remaining (lines_of self.old) (lines_of self.new))) }
        ensures line { IfErr result (NamesLast R.remaining (lines_of self.old) (lines_of self.new)) }
    {
        match self.take_item()? {
            None => Ok(None),
            Some(Item::Case(number)) => Ok(Some(self.take_body(number)?)),
            Some(_) => Err(self.at_line(CaseFault::Outside)),
        }
    }

    /// The next case, and `None` at the end of the input. After an error each further call returns `Stopped`.
    ///
    /// # Errors
    ///
    /// `Line` for a line at fault, an input that ends inside a case or refused memory, `Input` where the input cannot
    /// be read, and `Stopped` after an error. But for `Stopped`, the contract does not say when an error comes, nor
    /// which fault it names; it says that the line is the last of those that were read.
    pub fn next_case(&mut self) -> Result<Option<Case<A>>, CaseError>
        ensures takes { IfOk result (λ o.
            MatchOption o (TakesNotes None R.remaining (lines_of self.old) (lines_of self.new))
            (ReadsCase R.remaining (lines_of self.old) (lines_of self.new))) }
        ensures line { IfErr result (NamesLast R.remaining (lines_of self.old) (lines_of self.new)) }
        ensures stopped { has_failed self.old ≡ true → result ≡ Err error.Stopped }
        ensures fails { has_failed self.new ≡ is_err result }
    {
        if self.failed {
            return Err(CaseError::Stopped);
        }
        let outcome = self.take_case();
        self.failed = outcome.is_err();
        outcome
    }
}
