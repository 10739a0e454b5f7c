// The lines of a matrix file: how long they may be, which of them are notes, and the error that names one. The reader
// of lines is that of the crate `amd_lines`; no more is read of a line that is too long than a block, and a note that
// is longer is passed piece by piece.

ghost use Rattle.std.specs.Prelude.{◌≡◌, [], ℕ, List, IfOk, IfErr};
ghost use Rattle.amd_lines.specs.Lines.{TakesLine, TakesNext, FailsAt, MeetsLong, MeetsTelling, lines_read, percent};
ghost use Rattle.amd_market.specs.Faults.{IsTold, IsUnread, IfTooLong, named_line};

use crate::faults::{ReadError, ReadFault};
use crate::found::found_in;
use amd_lines::lines::LineReader;
use std::alloc::Allocator;
use std::io::Read;

/// The most bytes that a line may have, with its line feed.
pub const LONGEST_LINE: usize = 1 << 16;

/// A fault of the line that was read last, with what is wrong there.
pub fn at_line<R: Read + Drop, A: Allocator>(
    lines: &LineReader<R, A>,
    fault: ReadFault,
) -> ReadError
    ensures { IsTold (lines_read lines.now) fault result }
{
    ReadError::Line {
        line: lines.number(),
        fault,
        found: found_in(lines.line(), fault),
    }
}

/// A fault of a text that ends behind the line that was read last, where at that line it would be about its words.
pub(crate) fn at_end<R: Read + Drop, A: Allocator>(
    lines: &LineReader<R, A>,
    fault: ReadFault,
) -> ReadError
    ensures { IsTold (lines_read lines.now) fault result }
{
    ReadError::Line {
        line: lines.number(),
        fault,
        found: None,
    }
}

/// Reads the next line, and says whether there was one.
pub(crate) fn take_line<R: Read + Drop, A: Allocator>(
    lines: &mut LineReader<R, A>,
) -> Result<bool, ReadError>
    ensures takes { IfOk result (TakesLine R.remaining lines.old lines.new) }
    ensures fails { IfErr result (λ e. FailsAt R.remaining lines.old (named_line e)) }
    ensures unread { IfErr result IsUnread }
    ensures long { IfErr result (λ e. IfTooLong e (MeetsLong R.remaining lines.old [] (named_line e))) }
{
    Ok(lines.take_line()?)
}

/// Reads lines up to the next one that has a word and is no note, and says whether there was one.
pub fn take_telling<R: Read + Drop, A: Allocator>(
    lines: &mut LineReader<R, A>,
) -> Result<bool, ReadError>
    ensures takes { IfOk result (TakesNext percent R.remaining lines.old lines.new) }
    ensures fails { IfErr result (λ e. FailsAt R.remaining lines.old (named_line e)) }
    ensures unread { IfErr result IsUnread }
    ensures long { IfErr result (λ e. IfTooLong e (MeetsTelling percent R.remaining lines.old (named_line e))) }
{
    Ok(lines.take_telling(Some(b'%'))?)
}
