// The rows that a caller wants last, from a text with the number of one row a line. Rows count from 1; lines without a
// word, and lines whose first word begins with `%`, are passed over. A row may stand there more than once.

ghost use Rattle.std.specs.Prelude.{◌≡◌, ℕ, length, IfOk, IfErr, IfSome, MatchOption};
ghost use Rattle.amd_cli.specs.Held.{SpellsRow, MarksRows, NamesNoRow};

use amd_lines::lines::LineReader;
use amd_lines::words::first_word;
use amd_market::entries::{index_of, row_fault};
use amd_market::faults::{ReadError, ReadFault};
use amd_market::lines::{LONGEST_LINE, at_line, take_telling};
use std::alloc::Allocator;
use std::io::Read;

/// The row of `n`, from 0 on, whose number stands alone in a line.
pub fn row_of(line: &[u8], n: usize) -> Option<usize>
    ensures { MatchOption result ((i : ℕ) → SpellsRow n line.now i → ⊥) (SpellsRow n line.now) }
{
    let (word, rest) = first_word(line)?;
    if first_word(rest).is_some() {
        return None;
    }
    index_of(word, n)
}

/// What is wrong with a line that is no row of `n`.
pub fn held_fault(line: &[u8], n: usize) -> ReadFault {
    match first_word(line) {
        Some((word, rest)) if first_word(rest).is_none() => match row_fault(word, n) {
            ReadFault::Entry => ReadFault::Held,
            fault => fault,
        },
        _ => ReadFault::Held,
    }
}

/// The marks of `n` rows: those that a text lists are marked.
///
/// # Errors
///
/// `Line` for the first line that says something but is no row, for one that is too long, and where memory was refused;
/// `Input` where the input cannot be read. Each names the line that was read last.
pub fn read_held<R: Read + Drop, A: Allocator + Copy>(
    alloc: A,
    n: usize,
    input: R,
) -> Result<Vec<bool, A>, ReadError>
    ensures size { IfOk result (λ v. length v.items ≡ n) }
    ensures marks { IfOk result (λ v. IfSome (R.remaining input) (λ bytes. MarksRows bytes n v.items)) }
    ensures line { IfErr result (λ e. IfSome (R.remaining input) (λ bytes. NamesNoRow bytes n e)) }
{
    let mut lines = LineReader::new(alloc, input, LONGEST_LINE);
    let Ok(mut marks) = vec![in alloc; false; n] else {
        return Err(at_line(&lines, ReadFault::OutOfMemory));
    };
    'rows: for _ in 0..u64::MAX {
        if !take_telling(&mut lines)? {
            return Ok(marks);
        }
        let Some(row) = row_of(lines.line(), n) else {
            return Err(at_line(&lines, held_fault(lines.line(), n)));
        };
        marks[row] = true;
    }
    Err(at_line(&lines, ReadFault::Lines))
}
