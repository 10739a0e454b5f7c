// The text of a matrix whose rows and columns stand at other places, made from the text of the matrix: the first line,
// the line of the size, and the line of each entry, with its value as it is spelled there. Of an entry that stands for
// its mirror image too the one below the diagonal is written: of a skew-symmetric matrix with the other sign where that
// is the mirror image, of a hermitian one with the other sign of the imaginary part. Source: the Matrix Market exchange
// formats.

ghost use Rattle.std.specs.Prelude.{◌≡◌, ◌++◌, ◌∷◌, [], ◌+◌, ◌&&◌, ℕ, List, codes, decimal, false, flat_map, length};
ghost use Rattle.std.specs.Prelude.{nat_lt, true};
ghost use Rattle.std.specs.Prelude.{if◌then◌else◌, IfOk, IfSome, MatchOption, OnOk, slice_index};
ghost use Rattle.amd_lines.specs.Lines.{TakesLine, TakesNext, percent};
ghost use Rattle.amd_lines.specs.Words.{words};
ghost use Rattle.amd_market.specs.Entries.{BeginsEntry};
ghost use Rattle.amd_market.specs.Headers.{SpellsHeader, is_array, is_mirrored, value_words};
ghost use Rattle.amd_market.specs.declared.headers.Header.{Header};
ghost use Rattle.amd_market.specs.declared.headers.Symmetry.TheVariants as kind;
ghost use Rattle.amd_cli.specs.Valued.{ListsNothing, PlacesText, SpellsValued, TakesListed, TakesPlaced};
ghost use Rattle.amd_cli.specs.Valued.{Valued, ended, entry_text, mirrored_values, negated, placed_text, spaced};
ghost use Rattle.amd_cli.specs.Valued.{words_of};

use crate::causes::Cause;
use amd_lines::lines::LineReader;
use amd_lines::words::first_word;
use amd_market::entries::index_of;
use amd_market::faults::ReadError;
use amd_market::headers::{Field, Format, Header, Symmetry, header_of};
use amd_market::lines::{LONGEST_LINE, take_telling};
use std::alloc::{AllocError, Allocator};
use std::io::{Read, Write};

/// The words of a value.
#[derive(Clone, Copy)]
pub enum Value<'a> {
    /// None.
    Nothing,
    /// A number.
    Number(&'a [u8]),
    /// The real and the imaginary part.
    Parts(&'a [u8], &'a [u8]),
}

/// The first word of a text and no other one.
fn one_word(text: &[u8]) -> Option<&[u8]>
    ensures { IfSome result (λ w. words text.now ≡ w.now ∷ []) }
{
    let (word, rest) = first_word(text)?;
    if first_word(rest).is_none() {
        Some(word)
    } else {
        None
    }
}

/// The value that a text spells in the words of a field.
fn value_of(text: &[u8], field: Field) -> Option<Value<'_>>
    ensures words { IfSome result (λ v. words text.now ≡ words_of v) }
    ensures counted { IfSome result (λ v. length (words_of v) ≡ value_words field) }
{
    match field {
        Field::Pattern => {
            if first_word(text).is_none() {
                Some(Value::Nothing)
            } else {
                None
            }
        }
        Field::Complex => {
            let (real, rest) = first_word(text)?;
            Some(Value::Parts(real, one_word(rest)?))
        }
        _ => Some(Value::Number(one_word(text)?)),
    }
}

/// The row and the column, of `n`, at the front of a line, and what stands behind them.
fn front_of(line: &[u8], n: usize) -> Option<(usize, usize, &[u8])>
    ensures { IfSome result (λ p. BeginsEntry n line.now p.0 p.1 p.2.now) }
{
    let (first, rest) = first_word(line)?;
    let (second, rest) = first_word(rest)?;
    Some((index_of(first, n)?, index_of(second, n)?, rest))
}

/// Writes the number of the other sign.
fn write_negated<A: Allocator>(word: &[u8], out: &mut Vec<u8, A>) -> Result<(), AllocError>
    ensures { OnOk result (out.new.items ≡ out.old.items ++ negated word.now) }
{
    let rest = match word.split_first() {
        Some((b'-', rest)) => return out.extend_from_slice(rest),
        Some((b'+', rest)) => rest,
        _ => word,
    };
    out.push(b'-')?;
    out.extend_from_slice(rest)
}

/// Writes a space and a number, or the one of the other sign.
fn write_number<A: Allocator>(
    word: &[u8],
    turned: bool,
    out: &mut Vec<u8, A>,
) -> Result<(), AllocError>
    ensures { OnOk result (out.new.items ≡ out.old.items ++ spaced (if turned then negated word.now else word.now)) }
{
    out.push(b' ')?;
    if turned {
        write_negated(word, out)
    } else {
        out.extend_from_slice(word)
    }
}

/// Writes a value, or that of the mirror image.
fn write_value<A: Allocator>(
    value: Value<'_>,
    symmetry: Symmetry,
    mirrored: bool,
    out: &mut Vec<u8, A>,
) -> Result<(), AllocError>
    ensures { OnOk result (out.new.items ≡ out.old.items ++ flat_map spaced
        (if mirrored then mirrored_values symmetry (words_of value.entry) else words_of value.entry)) }
{
    let skew = mirrored && matches!(symmetry, Symmetry::SkewSymmetric);
    let hermitian = mirrored && matches!(symmetry, Symmetry::Hermitian);
    match value {
        Value::Nothing => Ok(()),
        Value::Number(number) => write_number(number, skew, out),
        Value::Parts(real, imaginary) => {
            write_number(real, skew, out)?;
            write_number(imaginary, skew || hermitian, out)
        }
    }
}

/// Writes a row and a column, from 1 on.
fn write_pair<A: Allocator>(row: usize, column: usize, out: &mut Vec<u8, A>) -> Result<(), Cause>
    ensures { OnOk result (out.new.items ≡ out.old.items ++ (decimal (row + 1) ++ codes " " ++ decimal (column + 1))) }
{
    let (left, right) = (row as u128 + 1, column as u128 + 1);
    write!(out, "{left} {right}")?;
    Ok(())
}

/// The place of a row.
fn place_of(places: &[usize], row: usize) -> usize
    ensures { result ≡ slice_index places.now row }
{
    places.get(row).copied().unwrap_or(0)
}

/// Writes the line of an entry at its places.
fn write_placed<A: Allocator>(
    symmetry: Symmetry,
    row: usize,
    column: usize,
    value: Value<'_>,
    out: &mut Vec<u8, A>,
) -> Result<(), Cause>
    ensures { OnOk result (out.new.items ≡ out.old.items ++ (if is_mirrored symmetry && nat_lt row column
        then entry_text column row (mirrored_values symmetry (words_of value.entry))
        else entry_text row column (words_of value.entry))) }
{
    let mirrored = symmetry.is_mirrored() && row < column;
    let (left, right) = if mirrored {
        (column, row)
    } else {
        (row, column)
    };
    write_pair(left, right, out)?;
    write_value(value, symmetry, mirrored, out)?;
    out.push(b'\n')?;
    Ok(())
}

/// Writes the entry of a line at its places.
fn write_entry<A: Allocator>(
    line: &[u8],
    header: Header,
    places: &[usize],
    out: &mut Vec<u8, A>,
) -> Result<(), Cause>
    ensures { OnOk result ((e : Valued) × SpellsValued header.field (length places.now) line.now e ×
        (out.new.items ≡ out.old.items ++ placed_text header.symmetry places.now e)) }
{
    let Some((row, column, rest)) = front_of(line, places.len()) else {
        return Err(Cause::Form);
    };
    let Some(value) = value_of(rest, header.field) else {
        return Err(Cause::Form);
    };
    let (left, right) = (place_of(places, row), place_of(places, column));
    write_placed(header.symmetry, left, right, value, out)?;
    Ok(())
}

/// Reads the first line, and says whether there was one.
fn first_line<R: Read + Drop, A: Allocator>(lines: &mut LineReader<R, A>) -> Result<bool, Cause>
    ensures { IfOk result (TakesLine R.remaining lines.old lines.new) }
{
    match lines.take_line() {
        Ok(some) => Ok(some),
        Err(error) => Err(Cause::Text(ReadError::from(error))),
    }
}

/// Reads the next line that says something, and says whether there was one.
fn next_line<R: Read + Drop, A: Allocator>(lines: &mut LineReader<R, A>) -> Result<bool, Cause>
    ensures { IfOk result (TakesNext percent R.remaining lines.old lines.new) }
{
    match take_telling(lines) {
        Ok(some) => Ok(some),
        Err(error) => Err(Cause::Text(error)),
    }
}

/// Writes the entries of the lines that are left, each at its places.
fn write_entries<R: Read + Drop, A: Allocator + Copy>(
    lines: &mut LineReader<R, A>,
    header: Header,
    places: &[usize],
    out: &mut Vec<u8, A>,
) -> Result<(), Cause>
    ensures { OnOk result (TakesPlaced R.remaining lines.old lines.new header places.now out.old.items
        out.new.items) }
{
    'entries: for _ in 0..u64::MAX {
        if !next_line(lines)? {
            return Ok(());
        }
        write_entry(lines.line(), header, places, out)?;
    }
    Err(Cause::Form)
}

/// Writes a line, with a line feed at its end.
fn write_line<A: Allocator>(line: &[u8], out: &mut Vec<u8, A>) -> Result<(), AllocError>
    ensures { OnOk result (out.new.items ≡ out.old.items ++ ended line.now) }
{
    out.extend_from_slice(line)?;
    if line.last().copied() == Some(b'\n') {
        return Ok(());
    }
    out.push(b'\n')?;
    Ok(())
}

/// The header of a text that lists entries with a line each.
fn listing_header(line: &[u8]) -> Option<Header>
    ensures { MatchOption result ((h : Header) → SpellsHeader line.now h → is_array h.format ≡ true)
        (λ h. SpellsHeader line.now h × (is_array h.format ≡ false)) }
{
    match header_of(line) {
        Ok(header) => match header.format {
            Format::Coordinate => Some(header),
            Format::Array => None,
        },
        Err(_) => None,
    }
}

/// Writes the line of the size, and then the entries, each at its places.
fn write_listed<R: Read + Drop, A: Allocator + Copy>(
    lines: &mut LineReader<R, A>,
    header: Header,
    places: &[usize],
    out: &mut Vec<u8, A>,
) -> Result<(), Cause>
    ensures { OnOk result (TakesListed R.remaining lines.old lines.new header places.now out.old.items
        out.new.items) }
{
    if !next_line(lines)? {
        return Err(Cause::Form);
    }
    write_line(lines.line(), out)?;
    write_entries(lines, header, places, out)?;
    Ok(())
}

/// The text of a matrix whose row and column `i` stand at place `places[i]`, with the entries of a text and their
/// values. The text is that of a matrix of the Matrix Market which lists its entries; of another one there is none.
/// Lines that begin with `%` are left out.
///
/// # Errors
///
/// `Form` and `Text` where the text is none of a matrix with so many rows; `Memory` where memory was refused.
pub fn text_at_places<R: Read + Drop, A: Allocator + Copy>(
    alloc: A,
    input: R,
    places: &[usize],
) -> Result<Option<Vec<u8, A>>, Cause>
    ensures { IfOk result (λ o. IfSome (R.remaining input) (λ bytes. MatchOption o (ListsNothing bytes)
        (λ text. PlacesText bytes places.now text.items))) }
{
    let mut lines = LineReader::new(alloc, input, LONGEST_LINE);
    if !first_line(&mut lines)? {
        return Err(Cause::Form);
    }
    let Some(header) = listing_header(lines.line()) else {
        return Ok(None);
    };
    let mut out = Vec::new(alloc);
    write_line(lines.line(), &mut out)?;
    write_listed(&mut lines, header, places, &mut out)?;
    Ok(Some(out))
}
