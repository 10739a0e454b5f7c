// The numbers that a text lists, one a line, or two: read as the rows to hold last are, but that they may count from 0.
// `listing` says what they tell.

ghost use Rattle.std.specs.Prelude.{IfOk, IfErr, IfSome, MatchOption, ℕ};
ghost use Rattle.amd_cli.specs.Listed.{ListsEach, NamesNone};
ghost use Rattle.amd_cli.specs.Orders.{AreNumbers, SpellsListed, SpellsUpTo};
ghost use Rattle.amd_lines.specs.Words.{words};

use amd_lines::lines::LineReader;
use amd_lines::words::{first_word, number_of};
use amd_market::entries::row_fault;
use amd_market::faults::{ReadError, ReadFault};
use amd_market::lines::{LONGEST_LINE, at_line, take_telling};
use std::alloc::Allocator;
use std::io::Read;

/// The numbers of a line.
#[derive(Clone, Copy, PartialEq, Debug, Drop)]
pub enum Numbers {
    /// One.
    One(usize),
    /// Two.
    Two(usize, usize),
}

/// A line of a list.
#[derive(Clone, Copy, Debug, Drop)]
pub struct Listed {
    /// Its number, from 1 on.
    pub line: u64,
    /// What it has.
    pub numbers: Numbers,
}

/// The number up to `n` that a word spells.
fn number_up_to(word: &[u8], n: usize) -> Option<usize>
    ensures { MatchOption result ((k : ℕ) → SpellsUpTo n word.now k → ⊥) (SpellsUpTo n word.now) }
{
    let number = usize::try_from(number_of(word)?).ok()?;
    if number <= n { Some(number) } else { None }
}

/// The numbers up to `n` that a line has, if it has one or two of them and no other word.
fn numbers_of(line: &[u8], n: usize) -> Option<Numbers>
    ensures { MatchOption result ((x : Numbers) → AreNumbers n (words line.now) x → ⊥)
        (AreNumbers n (words line.now)) }
{
    let (word, rest) = first_word(line)?;
    let first = number_up_to(word, n)?;
    let Some((word, rest)) = first_word(rest) else {
        return Some(Numbers::One(first));
    };
    let second = number_up_to(word, n)?;
    if first_word(rest).is_some() {
        return None;
    }
    Some(Numbers::Two(first, second))
}

/// What is wrong with a word that is no number up to `n`, or with the line where it is one.
fn word_fault(word: &[u8], n: usize) -> ReadFault {
    if number_up_to(word, n).is_some() {
        return ReadFault::Held;
    }
    match row_fault(word, n) {
        ReadFault::Entry => ReadFault::Held,
        fault => fault,
    }
}

/// What is wrong with a line that has other words than one number up to `n` or two.
fn listed_fault(line: &[u8], n: usize) -> ReadFault {
    match first_word(line) {
        Some((word, rest)) => match (number_up_to(word, n), first_word(rest)) {
            (Some(_), Some((second, _))) => word_fault(second, n),
            _ => word_fault(word, n),
        },
        None => ReadFault::Held,
    }
}

/// The lines of a text, each with one number up to `n` or two, and notes between them.
///
/// # Errors
///
/// `Line` for the first line that says something but has other words, for one that is too long, and where memory was
/// refused; `Input` where the input cannot be read. Each names the line that was read last.
pub fn read_listed<R: Read + Drop, A: Allocator + Copy>(
    alloc: A,
    n: usize,
    input: R,
) -> Result<Vec<Listed, A>, ReadError>
    ensures lists { IfOk result (λ v. IfSome (R.remaining input) (λ bytes. ListsEach (SpellsListed n) bytes v.items)) }
    ensures line { IfErr result (λ e. IfSome (R.remaining input) (λ bytes. NamesNone (SpellsListed n) bytes e)) }
{
    let mut lines = LineReader::new(alloc, input, LONGEST_LINE);
    let mut listed = Vec::new(alloc);
    'list: for _ in 0..u64::MAX {
        if !take_telling(&mut lines)? {
            return Ok(listed);
        }
        let Some(numbers) = numbers_of(lines.line(), n) else {
            return Err(at_line(&lines, listed_fault(lines.line(), n)));
        };
        let line = lines.number();
        let Ok(()) = listed.push(Listed { line, numbers }) else {
            return Err(at_line(&lines, ReadFault::OutOfMemory));
        };
    }
    Err(at_line(&lines, ReadFault::Lines))
}
