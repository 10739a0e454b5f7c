// The line of the size, and the lines of the entries.

ghost use Rattle.std.specs.Prelude.{◌≡◌, ◌≢◌, ◌+◌, ◌∷◌, [], ℕ, take, List, pos, IsTrue, ◌↔◌};
ghost use Rattle.std.specs.Prelude.{IfErr, IfSome, MatchOption, MatchResult};
ghost use Rattle.amd_lines.specs.Words.{words, SpellsNumber, StaysInLine, EndsAt};
ghost use Rattle.amd_market.specs.Entries.{SpellsSize, SpellsIndex, SpellsEntry, AreValues, BeginsEntry, BeginsValues};
ghost use Rattle.amd_market.specs.Entries.{is_value};
ghost use Rattle.amd_market.specs.Faults.{HasSizeFault, HasRowFault, HasColumnFault, HasValueFault, HasEntryFault};

use crate::faults::ReadFault;
use crate::headers::Field;
use amd_lines::values::{behind_float, is_double};
use amd_lines::words::{bare_end, first_number, first_word, number_of};

/// How large a matrix is.
#[derive(Clone, Copy)]
pub struct Size {
    /// The number of rows.
    pub rows: usize,
    /// The number of columns.
    pub columns: usize,
    /// The number of entries that the file lists.
    pub entries: usize,
}

/// The number of things that a word spells.
pub(crate) fn count_of(word: &[u8]) -> Option<usize>
    ensures { MatchOption result ((k : ℕ) → SpellsNumber word.now (pos k) → ⊥) (λ k. SpellsNumber word.now (pos k)) }
{
    usize::try_from(number_of(word)?).ok()
}

/// The row or column of `n` that a word spells, from 0 on; the word counts from 1.
pub fn index_of(word: &[u8], n: usize) -> Option<usize>
    ensures { MatchOption result ((i : ℕ) → SpellsIndex word.now n i → ⊥) (SpellsIndex word.now n) }
{
    let place = count_of(word)?.checked_sub(1)?;
    if place < n { Some(place) } else { None }
}

/// Whether a word is a number.
fn is_number(word: &[u8]) -> bool
    ensures { result ≡ is_value word.now }
{
    fast_float::parse::<f64, &[u8]>(word).is_ok() || is_double(word)
}

/// Whether a text is so many numbers.
pub(crate) fn has_values(text: &[u8], count: usize) -> bool
    ensures { IsTrue result ↔ AreValues count (words text.now) }
{
    let mut left = text;
    'words: for _done in 0..count {
        match first_word(left) {
            None => return false,
            Some((word, rest)) => {
                if !is_number(word) {
                    return false;
                }
                left = rest;
            }
        }
    }
    first_word(left).is_none()
}

/// The words of a line that has three.
fn three_words(line: &[u8]) -> Option<(&[u8], &[u8], &[u8])>
    ensures { MatchOption result ((f s t : List ℕ) → words line.now ≢ f ∷ (s ∷ (t ∷ [])))
        (λ p. words line.now ≡ p.0.now ∷ (p.1.now ∷ (p.2.now ∷ []))) }
{
    let (first, rest) = first_word(line)?;
    let (second, rest) = first_word(rest)?;
    let (third, rest) = first_word(rest)?;
    if first_word(rest).is_none() {
        Some((first, second, third))
    } else {
        None
    }
}

/// The numbers that a line spells.
fn spelled_size(line: &[u8]) -> Option<Size>
    ensures { MatchOption result ((r c e : ℕ) → SpellsSize line.now r c e → ⊥)
        (λ s. SpellsSize line.now s.rows s.columns s.entries) }
{
    let (first, second, third) = three_words(line)?;
    Some(Size {
        rows: count_of(first)?,
        columns: count_of(second)?,
        entries: count_of(third)?,
    })
}

/// The size that a line spells: `Size` where it spells none, and `NotSquare` where it is not square.
pub fn size_of(line: &[u8]) -> Result<Size, ReadFault>
    ensures size { MatchResult result (λ s. (s.columns ≡ s.rows) × SpellsSize line.now s.rows s.rows s.entries)
        (λ _. (r k : ℕ) → SpellsSize line.now r r k → ⊥) }
    ensures fault { IfErr result (λ f. HasSizeFault f line.now) }
{
    let Some(size) = spelled_size(line) else {
        return Err(ReadFault::Size);
    };
    if size.rows != size.columns {
        return Err(ReadFault::NotSquare {
            rows: size.rows,
            columns: size.columns,
        });
    }
    Ok(size)
}

/// What is wrong with the word of a row, of so many.
pub fn row_fault(word: &[u8], rows: usize) -> ReadFault
    ensures { HasRowFault result word.now rows }
{
    match number_of(word) {
        Some(number) => ReadFault::Row { number, rows },
        None => ReadFault::Entry,
    }
}

/// What is wrong with the word of a column, of so many.
fn column_fault(word: &[u8], columns: usize) -> ReadFault
    ensures { HasColumnFault result word.now columns }
{
    match number_of(word) {
        Some(number) => ReadFault::Column { number, columns },
        None => ReadFault::Entry,
    }
}

/// What is wrong with a text that is not so many numbers.
pub(crate) fn value_fault(text: &[u8], count: usize) -> ReadFault
    ensures { HasValueFault result count (words text.now) }
{
    let mut left = text;
    'words: for _done in 0..count {
        match first_word(left) {
            None => return ReadFault::NoValue,
            Some((_, rest)) => left = rest,
        }
    }
    if first_word(left).is_some() {
        ReadFault::Words
    } else {
        ReadFault::Value
    }
}

/// The row or column of `n` that the first word of a text spells, from 0 on, and what stands behind that word, where it
/// is on the first line. `None` says nothing of the text.
#[inline]
fn plain_index(text: &[u8], n: usize) -> Option<(usize, &[u8])>
    ensures word { IfSome result (λ p. (w : List ℕ) × (words text.now ≡ w ∷ words p.1.now) × SpellsIndex w n p.0) }
    ensures line { IfSome result (λ p. StaysInLine text.now p.1.now) }
{
    let (number, rest) = first_number(text)?;
    if number == 0 || number > n {
        return None;
    }
    Some((number - 1, rest))
}

/// The row and the column, from 0 on, of an entry that is written in digits at the front of a text, and what stands
/// behind them, where they are on the first line. `None` says nothing of the text.
#[inline]
fn plain_front(text: &[u8], n: usize) -> Option<(usize, usize, &[u8])>
    ensures entry { IfSome result (λ p. BeginsEntry n text.now p.0 p.1 p.2.now) }
    ensures line { IfSome result (λ p. StaysInLine text.now p.2.now) }
{
    let (row, rest) = plain_index(text, n)?;
    let (column, rest) = plain_index(rest, n)?;
    Some((row, column, rest))
}

/// What stands behind so many numbers at the front of a text, where they are in digits on the first line. `None` says
/// nothing of the text.
#[inline]
fn behind_values(text: &[u8], count: usize) -> Option<&[u8]>
    ensures values { IfSome result (λ r. BeginsValues count text.now r.now) }
    ensures line { IfSome result (λ r. StaysInLine text.now r.now) }
{
    let mut left = text;
    'words: for _done in 0..count {
        left = behind_float(left)?;
    }
    Some(left)
}

/// The row and the column, from 0 on, of the entry that the first line of a text spells, where these and the value are
/// in digits, and the place of the line feed that ends this line. `None` says nothing of the text.
#[inline(always)]
pub(crate) fn plain_entry(text: &[u8], field: Field, n: usize) -> Option<(usize, usize, usize)>
    ensures ends { IfSome result (λ p. EndsAt text.now p.2) }
    ensures entry { IfSome result (λ p. SpellsEntry field n (take (p.2 + 1) text.now) (p.0, p.1)) }
{
    let (row, column, behind) = plain_front(text, n)?;
    let rest = behind_values(behind, field.words())?;
    let place = bare_end(rest)?;
    Some((row, column, text.len() - rest.len() + place))
}

/// The row and the column, from 0 on, of the entry that a line spells, or what is wrong with the line.
pub fn entry_of(line: &[u8], field: Field, n: usize) -> Result<(usize, usize), ReadFault>
    ensures entry { MatchResult result (λ p. SpellsEntry field n line.now (p.0, p.1))
        (λ _. (e : ℕ × ℕ) → SpellsEntry field n line.now e → ⊥) }
    ensures fault { IfErr result (λ f. HasEntryFault field n f line.now) }
{
    let Some((first, rest)) = first_word(line) else {
        return Err(ReadFault::Entry);
    };
    let Some((second, rest)) = first_word(rest) else {
        return Err(ReadFault::Entry);
    };
    let Some(row) = index_of(first, n) else {
        return Err(row_fault(first, n));
    };
    let Some(column) = index_of(second, n) else {
        return Err(column_fault(second, n));
    };
    if has_values(rest, field.words()) {
        Ok((row, column))
    } else {
        Err(value_fault(rest, field.words()))
    }
}
