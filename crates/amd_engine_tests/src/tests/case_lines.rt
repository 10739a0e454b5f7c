// The lines of a case file that are no items: lines without a word, which are passed over, and lines that are too long,
// which are refused before they were read whole.

use crate::tests::readings::{Reading, reading_of};
use amd_cases::faults::CaseFault;
use amd_cases::reader::{CaseReader, LONGEST_LINE};
use amd_testing::check;
use std::alloc::Global;
use std::io;
use std::io::Read;

/// Two cases with lines of white space before, within and behind them.
const SPACED: &[u8] =
    b"\n \t\r\nCASE 1\n\nN 1\n  \nAP 0 0\nAI\n\nEND\n\n\nCASE 2\nN 0\nAP\nAI\nEND\n\n ";

#[test]
fn lines_without_a_word(rt: HostRuntime) {
    let mut cases = CaseReader::new(rt.alloc(), SPACED);
    check!(&rt; reading_of(&mut cases) == Reading::Case(1, 1));
    check!(&rt; reading_of(&mut cases) == Reading::Case(2, 0));
    check!(&rt; reading_of(&mut cases) == Reading::End);
    let mut blank = CaseReader::new(rt.alloc(), b"\n\n \t".as_slice());
    check!(&rt; reading_of(&mut blank) == Reading::End);
}

/// Whether a text is refused for this line.
fn is_refused<R: Read + Drop>(
    alloc: Global,
    input: R,
    wanted: u64,
    wanted_fault: CaseFault,
) -> bool {
    let mut cases = CaseReader::new(alloc, input);
    reading_of(&mut cases) == Reading::Fault(wanted, wanted_fault)
}

/// Texts with lines without a word, which count as the others do, each with the line at fault.
static FAULTS: [(&[u8], u64, CaseFault); 3] = [
    (b"\n \nN 1\n", 3, CaseFault::Outside),
    (b"\nCASE 1\n\nN x\n", 4, CaseFault::Numbers),
    (b"CASE 1\n\n\n", 3, CaseFault::Unfinished),
];

#[test]
fn faults_behind_lines_without_a_word(rt: HostRuntime) {
    for (text, line, fault) in &FAULTS {
        check!(&rt; is_refused(rt.alloc(), *text, *line, *fault));
    }
}

/// How many bytes a reader of lines reads in one go.
const BLOCK: usize = 131072;

/// A reader of a line that begins in some way and does not end, up to a number of bytes behind which it must not be
/// read.
#[derive(Drop)]
struct Endless<'a> {
    front: &'a [u8],
    left: usize,
}

impl Read for Endless<'_> {
    fn read(&mut self, buf: &mut [u8]) -> io::Result<usize> {
        if !self.front.is_empty() {
            return self.front.read(buf);
        }
        if self.left == 0 {
            return Err(io::Error::from(io::ErrorKind::Other));
        }
        let count = buf.len().min(self.left);
        buf[..count].fill(b' ');
        self.left -= count;
        Ok(count)
    }
}

/// What stands before a line goes on, and the number of that line.
static FRONTS: [(&[u8], u64); 3] = [(b"CASE 1", 1), (b"CASE 1\nAP 0", 2), (b"\n\nnothing", 3)];

/// Where a line with a word goes on and on, no more is read of it than a line may have, and one block.
#[test]
fn a_line_without_an_end(rt: HostRuntime) {
    for (front, line) in &FRONTS {
        let left = LONGEST_LINE + BLOCK;
        let input = Endless {
            front: *front,
            left,
        };
        check!(&rt; is_refused(rt.alloc(), input, *line, CaseFault::Long));
    }
}

/// A case whose first line has so many bytes, with its line feed.
fn case_of(alloc: Global, bytes: usize) -> Result<Vec<u8>, std::alloc::AllocError> {
    let mut text = Vec::new(alloc);
    text.extend_from_slice(b"CASE 1")?;
    text.resize(bytes.saturating_sub(1), b' ')?;
    text.extend_from_slice(b"\nN 0\nAP\nAI\nEND\n")?;
    Ok(text)
}

/// The longest line that there may be, and one that is longer by a byte.
#[test]
fn the_longest_line(rt: HostRuntime) -> Result<(), std::test::Fail> {
    let text = case_of(rt.alloc(), LONGEST_LINE)?;
    let mut cases = CaseReader::new(rt.alloc(), text.as_slice());
    check!(&rt; reading_of(&mut cases) == Reading::Case(1, 0));
    let text = case_of(rt.alloc(), LONGEST_LINE + 1)?;
    check!(&rt; is_refused(rt.alloc(), text.as_slice(), 1, CaseFault::Long));
    Ok(())
}

/// A line without a word may have any length.
#[test]
fn a_long_line_without_a_word(rt: HostRuntime) -> Result<(), std::test::Fail> {
    let mut text = Vec::new(rt.alloc());
    text.resize(LONGEST_LINE + 1, b' ')?;
    text.extend_from_slice(b"\nCASE 1\nN 0\nAP\nAI\nEND\n")?;
    let mut cases = CaseReader::new(rt.alloc(), text.as_slice());
    check!(&rt; reading_of(&mut cases) == Reading::Case(1, 0));
    Ok(())
}
