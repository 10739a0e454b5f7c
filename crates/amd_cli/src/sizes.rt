// Whether a matrix asks for more memory than it may: the rows and the entries that its line of the size tells, looked
// at before the matrix is read. How many bytes a row and an entry take was measured, and is what a run takes about.
// What stands in the first lines of a text is tested alone.

ghost use Rattle.std.specs.Prelude.{◌≡◌, ◌↔◌, IsTrue, unwrap_or};
ghost use Rattle.amd_cli.specs.Limits.{AsksTooMuch, IsUnjustified, bytes_for, entry_bytes, row_bytes};

use crate::causes::{Cause, Source};
use crate::request::Allowance;
use amd_lines::lines::LineReader;
use amd_market::entries::{Size, size_of};
use amd_market::lines::{LONGEST_LINE, take_telling};
use std::alloc::{Allocator, Global};
use std::io;
use std::io::Read;

/// So many bytes of a pipe are looked at first, for its line of the size.
const FIRST_BYTES: usize = 4096;

/// What a run does with a matrix.
#[derive(Clone, Copy)]
pub enum Work {
    /// It tells what the matrix is.
    Facts,
    /// It orders the matrix.
    Order,
    /// It counts the entries of the factor too.
    Factor,
}

/// How much memory a run may take, and what it does with it.
#[derive(Clone, Copy)]
pub struct Budget {
    /// How much it may take.
    pub allowance: Allowance,
    /// What it does.
    pub work: Work,
}

/// The size that the first line of a text tells that says something, if it tells one of a square matrix.
pub fn told_size<R: Read + Drop, A: Allocator + Copy>(alloc: A, input: R) -> Option<Size> {
    let mut lines = LineReader::new(alloc, input, LONGEST_LINE);
    if !take_telling(&mut lines).ok()? {
        return None;
    }
    size_of(lines.line()).ok()
}

/// Whether a line that says something ends in a text.
fn has_telling_line(text: &[u8]) -> bool {
    let Some(end) = text.iter().rposition(|&byte| byte == b'\n') else {
        return false;
    };
    let whole = text.get(..end).unwrap_or(&[]);
    whole.split(|&byte| byte == b'\n').any(is_telling)
}

/// Whether a line says something: it has a word, and is no note.
fn is_telling(line: &[u8]) -> bool {
    match line.iter().position(|byte| !byte.is_ascii_whitespace()) {
        Some(place) => line.get(place).copied() != Some(b'%'),
        None => false,
    }
}

/// The first bytes of an input, up to a line that says something, and some more.
pub fn head_of<I: Read + Drop>(alloc: Global, input: &mut I) -> io::Result<Vec<u8>> {
    let mut head = Vec::new(alloc);
    'parts: for _ in 0..usize::BITS {
        let more = head.len().max(FIRST_BYTES);
        let added = input.by_ref().take(more as u64).read_to_end(&mut head)?;
        if added < more || has_telling_line(&head) {
            return Ok(head);
        }
    }
    Ok(head)
}

/// How many bytes a run takes for a row.
fn row_bytes(work: Work) -> u64
    ensures { result ≡ row_bytes work }
{
    match work {
        Work::Facts => 24,
        Work::Order => 64,
        Work::Factor => 128,
    }
}

/// How many bytes a run takes for an entry.
fn entry_bytes(work: Work) -> u64
    ensures { result ≡ entry_bytes work }
{
    match work {
        Work::Facts => 8,
        Work::Order => 16,
        Work::Factor => 32,
    }
}

/// How many bytes a run takes, about, for so many rows and entries, cut at the greatest number of 64 bits.
pub fn bytes_for(work: Work, rows: u64, entries: u64) -> u64
    ensures { result ≡ bytes_for work rows entries }
{
    let for_rows = row_bytes(work).saturating_mul(rows);
    let for_entries = entry_bytes(work).saturating_mul(entries);
    for_rows.saturating_add(for_entries)
}

/// Whether so many rows take a gibibyte or more, and are more than what should justify them.
pub fn is_unjustified(rows: u64, source: u64) -> bool
    ensures { IsTrue result ↔ IsUnjustified rows source }
{
    source < rows && 24 * rows as u128 >= 1 << 30
}

/// What should justify the rows of a matrix: the bytes of its file, or its entries where those are not known.
fn source_of(entries: u64, bytes: Option<u64>) -> u64
    ensures { result ≡ unwrap_or bytes entries }
{
    bytes.unwrap_or(entries)
}

/// Whether a run with so many rows and entries, from so many bytes where they are known, may not take the memory.
fn asks_too_much(budget: Budget, rows: u64, entries: u64, bytes: Option<u64>) -> bool
    ensures { IsTrue result ↔ AsksTooMuch budget.allowance budget.work rows entries bytes }
{
    match budget.allowance {
        Allowance::Any => false,
        Allowance::Limit(limit) => bytes_for(budget.work, rows, entries) > limit,
        Allowance::Justified => is_unjustified(rows, source_of(entries, bytes)),
    }
}

/// Why such a run is refused.
fn refusal(budget: Budget, rows: u64, entries: u64, bytes: Option<u64>) -> Cause {
    match budget.allowance {
        Allowance::Limit(_) => Cause::Limit {
            mebibytes: bytes_for(budget.work, rows, entries).div_ceil(1 << 20),
        },
        _ => Cause::Large {
            rows,
            gibibytes: rows.saturating_mul(24) >> 30,
            source: if bytes.is_some() {
                Source::Bytes
            } else {
                Source::Entries
            },
        },
    }
}

/// Refuses a matrix of a size that asks for more memory than it may, from so many bytes where they are known.
///
/// # Errors
///
/// `Limit` or `Large` exactly where it asks for more.
pub fn check_told(budget: Budget, told: Option<Size>, bytes: Option<u64>) -> Result<(), Cause> {
    let Some(size) = told else {
        return Ok(());
    };
    let (rows, entries) = (size.rows as u64, size.entries as u64);
    if asks_too_much(budget, rows, entries, bytes) {
        return Err(refusal(budget, rows, entries, bytes));
    }
    Ok(())
}
