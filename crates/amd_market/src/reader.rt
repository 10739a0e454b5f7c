// The matrix that a file holds. The parts of a file are read one after another: the header, the size, the entries, and
// what stands behind them. The reading of an array is in `dense`, and that of a Harwell-Boeing file in `boeing`.

ghost use Rattle.std.specs.Prelude.{◌≡◌, ◌<◌, ◌≤◌, ◌^◌, ◌∷◌, [], ℕ, List, All, true, false};
ghost use Rattle.std.specs.Prelude.{IfOk, IfErr, IfSome, MatchOption, OnOk};
ghost use Rattle.amd_market.specs.Headers.{SpellsHeader, is_array, is_void};
ghost use Rattle.amd_market.specs.Entries.{SpellsSize, SpellsEntry};
ghost use Rattle.amd_lines.specs.Lines.{TakesLines, TakesTelling, TakesNotes, line_of, percent};
ghost use Rattle.amd_market.specs.Files.{TakesEntries, TakesBody, FailsFor, SpellsFile, NamesFault};
ghost use Rattle.amd_market.specs.Columns.{HoldsOnce};
ghost use Rattle.amd_market.specs.Keys.{pairs_of_keys};
ghost use Rattle.amd_market.specs.Pairs.{pairs_in, AreFor};
ghost use Rattle.amd_market.specs.Faults.{HasHeaderFault};
ghost use Rattle.amd_market.specs.Stops.{FirstStops, SizeStops, EntryStops, EntriesStop, MoreStops};
ghost use Rattle.amd_market.specs.Stops.{ListedStops, ArrayStops, BodyStops};
ghost use Rattle.amd_market.specs.declared.faults.ReadFault.TheVariants as fault;
ghost use Rattle.amd_market.specs.declared.sources.Source.TheVariants as source;

use crate::boeing::take_boeing;
use crate::columns::MOST_SORTED;
use crate::dense::{take_shape, take_values};
use crate::entries::{Size, entry_of, plain_entry, size_of};
use crate::faults::{ReadError, ReadFault};
use crate::headers::{Field, Format, Header, header_of, unknown_fault};
use crate::lines::{LONGEST_LINE, at_end, at_line, take_line, take_telling};
pub use crate::matrices::Matrix;
use crate::matrices::{Pairs, add_keys, add_pairs, keys_for, matrix_of, pairs_for};
use crate::sources::Source;
use amd_lines::lines::LineReader;
use std::alloc::Allocator;
use std::io::Read;

/// Reads the header; `None` where the first line is none of the Matrix Market.
fn take_header<R: Read + Drop, A: Allocator>(
    lines: &mut LineReader<R, A>,
) -> Result<Option<Header>, ReadError>
    ensures takes { IfOk result (λ o. TakesLines R.remaining lines.old lines.new (line_of lines.new ∷ []) ×
        MatchOption o (HasHeaderFault fault.Banner (line_of lines.new))
        (λ h. SpellsHeader (line_of lines.new) h × (is_void h ≡ false))) }
    ensures fails { IfErr result (FailsFor FirstStops R.remaining lines.old) }
{
    if !take_line(lines)? {
        return Err(at_line(lines, ReadFault::Empty));
    }
    match header_of(lines.line()) {
        Ok(header) => {
            if header.is_void() {
                return Err(at_line(lines, ReadFault::Void));
            }
            Ok(Some(header))
        }
        Err(ReadFault::Banner) => Ok(None),
        Err(fault) => Err(at_line(lines, fault)),
    }
}

/// Reads the size.
fn take_size<R: Read + Drop, A: Allocator>(lines: &mut LineReader<R, A>) -> Result<Size, ReadError>
    ensures takes { IfOk result (λ s. (line : List ℕ) × TakesTelling percent R.remaining lines.old lines.new line ×
        SpellsSize line s.rows s.rows s.entries) }
    ensures fails { IfErr result (FailsFor SizeStops R.remaining lines.old) }
{
    if !take_telling(lines)? {
        return Err(at_end(lines, ReadFault::Size));
    }
    match size_of(lines.line()) {
        Ok(size) => Ok(size),
        Err(fault) => Err(at_line(lines, fault)),
    }
}

/// Reads the next entry of a matrix with `n` rows and columns, on a line of any kind.
#[cold]
fn take_entry<R: Read + Drop, A: Allocator>(
    lines: &mut LineReader<R, A>,
    header: Header,
    done: usize,
    size: Size,
) -> Result<(usize, usize), ReadError>
    ensures takes { IfOk result (λ e. (line : List ℕ) × TakesTelling percent R.remaining lines.old lines.new line ×
        SpellsEntry header.field size.rows line e) }
    ensures fails { IfErr result (FailsFor (EntryStops header.field size.rows done size.entries [])
        R.remaining lines.old) }
{
    if !take_telling(lines)? {
        return Err(at_line(
            lines,
            ReadFault::Missing {
                found: done,
                told: size.entries,
            },
        ));
    }
    match entry_of(lines.line(), header.field, size.rows) {
        Ok(entry) => Ok(entry),
        Err(fault) => Err(at_line(lines, fault)),
    }
}

/// Reads the next entry of a matrix with `n` rows and columns, where it is written in digits on a line that stands
/// whole before the reader. Else nothing is read, and `None` says nothing of the line.
#[inline(always)]
fn take_plain<R: Read + Drop, A: Allocator>(
    lines: &mut LineReader<R, A>,
    field: Field,
    n: usize,
) -> Option<(usize, usize)>
    ensures { MatchOption result (lines.new ≡ lines.old)
        (λ e. TakesTelling percent R.remaining lines.old lines.new (line_of lines.new) ×
        SpellsEntry field n (line_of lines.new) (e.0, e.1)) }
{
    let (row, column, place) = plain_entry(lines.ahead(), field, n)?;
    lines.pass_next(place + 1);
    Some((row, column))
}

/// Reads the next entry of a matrix with `n` rows and columns.
#[inline(always)]
fn next_entry<R: Read + Drop, A: Allocator>(
    lines: &mut LineReader<R, A>,
    header: Header,
    size: Size,
    done: usize,
) -> Result<(usize, usize), ReadError>
    ensures takes { IfOk result (λ e. (line : List ℕ) × TakesTelling percent R.remaining lines.old lines.new line ×
        SpellsEntry header.field size.rows line e) }
    ensures fails { IfErr result (FailsFor (EntryStops header.field size.rows done size.entries [])
        R.remaining lines.old) }
{
    match take_plain(lines, header.field, size.rows) {
        Some(entry) => Ok(entry),
        None => take_entry(lines, header, done, size),
    }
}

/// Reads the entries, and returns the keys of the pairs that they stand for.
fn take_keys<R: Read + Drop, A: Allocator + Copy>(
    alloc: A,
    lines: &mut LineReader<R, A>,
    header: Header,
    size: Size,
) -> Result<Vec<usize, A>, ReadError>
    requires { size.rows ≤ 2 ^ 32 }
    ensures takes { IfOk result (λ v. TakesEntries R.remaining lines.old lines.new header size.rows size.entries
        (pairs_of_keys v.items)) }
    ensures fails { IfErr result (FailsFor (EntriesStop header.field size.rows size.entries []) R.remaining lines.old) }
{
    let mut keys = keys_for(alloc, header.symmetry, size.entries);
    'entries: for done in 0..size.entries {
        let entry = next_entry(lines, header, size, done)?;
        let Ok(()) = add_keys(&mut keys, header.symmetry, entry) else {
            return Err(at_line(lines, ReadFault::OutOfMemory));
        };
    }
    Ok(keys)
}

/// Reads the entries of a matrix of any size, and returns the pairs that they stand for.
fn take_pairs<R: Read + Drop, A: Allocator + Copy>(
    alloc: A,
    lines: &mut LineReader<R, A>,
    header: Header,
    size: Size,
) -> Result<Vec<(usize, usize), A>, ReadError>
    ensures takes { IfOk result (λ v. TakesEntries R.remaining lines.old lines.new header size.rows size.entries
        v.items) }
    ensures fails { IfErr result (FailsFor (EntriesStop header.field size.rows size.entries []) R.remaining lines.old) }
{
    let mut pairs = pairs_for(alloc, header.symmetry, size.entries);
    'entries: for done in 0..size.entries {
        let entry = next_entry(lines, header, size, done)?;
        let Ok(()) = add_pairs(&mut pairs, header.symmetry, entry) else {
            return Err(at_line(lines, ReadFault::OutOfMemory));
        };
    }
    Ok(pairs)
}

/// Reads the entries, and returns the pairs that they stand for, as keys where they have some.
fn take_entries<R: Read + Drop, A: Allocator + Copy>(
    alloc: A,
    lines: &mut LineReader<R, A>,
    header: Header,
    size: Size,
) -> Result<Pairs<A>, ReadError>
    ensures takes { IfOk result (λ p. TakesEntries R.remaining lines.old lines.new header size.rows size.entries
        (pairs_in p)) }
    ensures kind { IfOk result (AreFor size.rows) }
    ensures fails { IfErr result (FailsFor (EntriesStop header.field size.rows size.entries []) R.remaining lines.old) }
{
    if size.rows > MOST_SORTED {
        return match take_pairs(alloc, lines, header, size) {
            Ok(pairs) => Ok(Pairs::Listed(pairs)),
            Err(error) => Err(error),
        };
    }
    match take_keys(alloc, lines, header, size) {
        Ok(keys) => Ok(Pairs::Keys(keys)),
        Err(error) => Err(error),
    }
}

/// Reads what stands behind the entries, where nothing may stand but notes.
fn take_end<R: Read + Drop, A: Allocator>(
    lines: &mut LineReader<R, A>,
    more: ReadFault,
) -> Result<(), ReadError>
    ensures takes { OnOk result (TakesNotes percent R.remaining lines.old lines.new) }
    ensures fails { IfErr result (FailsFor (MoreStops more []) R.remaining lines.old) }
{
    if take_telling(lines)? {
        return Err(at_line(lines, more));
    }
    Ok(())
}

/// Reads the size and the entries, and returns the number of rows and the pairs that the entries stand for.
fn take_listed<R: Read + Drop, A: Allocator + Copy>(
    alloc: A,
    lines: &mut LineReader<R, A>,
    header: Header,
) -> Result<(usize, Pairs<A>), ReadError>
    requires { is_array header.format ≡ false }
    ensures takes { IfOk result (λ r. TakesBody R.remaining lines.old lines.new header r.0 (pairs_in r.1)) }
    ensures kind { IfOk result (λ r. AreFor r.0 r.1) }
    ensures inside { IfOk result (λ r. All (λ p. (p.0 < r.0) × (p.1 < r.0)) (pairs_in r.1)) }
    ensures fails { IfErr result (FailsFor (ListedStops header) R.remaining lines.old) }
{
    let size = take_size(lines)?;
    let pairs = take_entries(alloc, lines, header, size)?;
    take_end(lines, ReadFault::More { told: size.entries })?;
    Ok((size.rows, pairs))
}

/// Reads the size and the values of an array, and returns the number of rows and the pairs that the values that are not
/// zero stand for.
fn take_array<R: Read + Drop, A: Allocator + Copy>(
    alloc: A,
    lines: &mut LineReader<R, A>,
    header: Header,
) -> Result<(usize, Pairs<A>), ReadError>
    requires { is_array header.format ≡ true }
    ensures takes { IfOk result (λ r. TakesBody R.remaining lines.old lines.new header r.0 (pairs_in r.1)) }
    ensures kind { IfOk result (λ r. AreFor r.0 r.1) }
    ensures inside { IfOk result (λ r. All (λ p. (p.0 < r.0) × (p.1 < r.0)) (pairs_in r.1)) }
    ensures fails { IfErr result (FailsFor (ArrayStops header) R.remaining lines.old) }
{
    let n = take_shape(lines)?;
    let pairs = take_values(alloc, lines, header, n)?;
    take_end(lines, ReadFault::MorePlaces)?;
    Ok((n, Pairs::Listed(pairs)))
}

/// Reads what stands behind a header, and returns the number of rows and the pairs that the entries stand for.
fn take_body<R: Read + Drop, A: Allocator + Copy>(
    alloc: A,
    lines: &mut LineReader<R, A>,
    header: Header,
) -> Result<(usize, Pairs<A>), ReadError>
    ensures takes { IfOk result (λ r. TakesBody R.remaining lines.old lines.new header r.0 (pairs_in r.1)) }
    ensures kind { IfOk result (λ r. AreFor r.0 r.1) }
    ensures inside { IfOk result (λ r. All (λ p. (p.0 < r.0) × (p.1 < r.0)) (pairs_in r.1)) }
    ensures fails { IfErr result (FailsFor (BodyStops header.format header) R.remaining lines.old) }
{
    match header.format {
        Format::Coordinate => take_listed(alloc, lines, header),
        Format::Array => take_array(alloc, lines, header),
    }
}

/// Reads the matrix behind a header.
fn take_market<R: Read + Drop, A: Allocator + Copy>(
    alloc: A,
    lines: &mut LineReader<R, A>,
    header: Header,
) -> Result<Matrix<A>, ReadError>
    ensures takes { IfOk result (λ m. (pairs : List (ℕ × ℕ)) × (m.source ≡ source.Market header) ×
        TakesBody R.remaining lines.old lines.new header m.n pairs ×
        HoldsOnce m.n pairs m.a_p.items m.a_i.items m.repeats) }
    ensures fails { IfErr result (FailsFor (BodyStops header.format header) R.remaining lines.old) }
{
    let (n, pairs) = take_body(alloc, lines, header)?;
    match matrix_of(alloc, Source::Market(header), n, pairs) {
        Ok(matrix) => Ok(matrix),
        Err(_) => Err(at_line(lines, ReadFault::OutOfMemory)),
    }
}

/// Reads the matrix that a file of the Matrix Market spells, up to the end of the input, or that a Harwell-Boeing or a
/// Rutherford-Boeing file spells, up to its last row. Which of them it is its first lines tell.
///
/// The rows of each column rise, and a pair that the text spells more than once stands there once. Memory is asked for
/// as entries are read, and for the columns when all of them were.
///
/// # Errors
///
/// `Line` for a line at fault, an input that ends too early, or refused memory; `Input` where the input cannot be read.
/// Each names the line that was read last, or the first one where the second shows that it is no matrix file. The lines
/// before it can be read on, and the fault is that of this line, or of a text that ends behind it.
pub fn read_matrix<R: Read + Drop, A: Allocator + Copy>(
    alloc: A,
    input: R,
) -> Result<Matrix<A>, ReadError>
    ensures spells { IfOk result (λ m. IfSome (R.remaining input)
        (λ bytes. SpellsFile bytes m.source m.n m.a_p.items m.a_i.items m.repeats)) }
    ensures line { IfErr result (λ e. IfSome (R.remaining input) (λ bytes. NamesFault bytes e)) }
{
    let mut lines = LineReader::new(alloc, input, LONGEST_LINE);
    let header = take_header(&mut lines)?;
    let unknown = at_line(&lines, unknown_fault(lines.line()));
    match header {
        Some(header) => take_market(alloc, &mut lines, header),
        None => match take_boeing(alloc, &mut lines)? {
            Some(matrix) => Ok(matrix),
            None => Err(unknown),
        },
    }
}
