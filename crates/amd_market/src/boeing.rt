// The matrix that a Harwell-Boeing or a Rutherford-Boeing file holds: in column form, its pointers and rows in fields
// of fixed width. The values behind them are not read. Source: the Harwell-Boeing and Rutherford-Boeing exchange
// formats.

ghost use Rattle.std.specs.Prelude.{◌≡◌, ◌++◌, ◌∷◌, ◌+◌, ◌<◌, ◌==◌, ◌↔◌, [], ℕ, List, cond, length};
ghost use Rattle.amd_market.specs.Keys.{IsLevel};
ghost use Rattle.std.specs.Prelude.{slice_index, slice_range};
ghost use Rattle.std.specs.Prelude.{OnOk, IfOk, IfErr, IsTrue, MatchOption, All, flat_map};
ghost use Rattle.amd_lines.specs.Words.{words};
ghost use Rattle.amd_market.specs.Headers.{pairs_of};
ghost use Rattle.amd_market.specs.Boeing.{SpellsCounts, SpellsKind, SpellsLayout, SpellsTable};
ghost use Rattle.amd_market.specs.Boeing.{SpellsHead, SpellsColumns, SpellsBoeing};
ghost use Rattle.amd_market.specs.Boeing.{column_entries, listed_entries, ArePointers};
ghost use Rattle.amd_lines.specs.Lines.{TakesLines, line_of, rest_of};
ghost use Rattle.amd_market.specs.Faults.{HasCardFault, HasLayoutFault};
ghost use Rattle.amd_market.specs.Stops.{StopsBehind, CardStops, HeadStops, TableStop, PointersStop, ColumnsStop};
ghost use Rattle.amd_market.specs.Stops.{BoeingStops, LacksCounts, NoLine, NoEnd, all};
ghost use Rattle.amd_market.specs.Files.{FailsFor};

use crate::cards::{Kind, kind_of, layout_of, sides_of};
use crate::faults::{ReadError, ReadFault};
use crate::fields::{Listed, add_numbers, behind_bytes};
use crate::formats::{Fields, Layout};
use crate::headers::Symmetry;
use crate::lines::{at_line, take_line};
use crate::matrices::{Matrix, Pairs, add_pairs, matrix_of, pairs_for};
use crate::sources::Source;
use amd_lines::lines::LineReader;
use std::alloc::{AllocError, Allocator};
use std::io::Read;

/// Reads a line, where there must be one.
fn take_some<R: Read + Drop, A: Allocator>(lines: &mut LineReader<R, A>) -> Result<(), ReadError>
    ensures takes { OnOk result (TakesLines R.remaining lines.old lines.new (line_of lines.new ∷ [])) }
    ensures fails { IfErr result (FailsFor (CardStops NoLine []) R.remaining lines.old) }
{
    if take_line(lines)? {
        Ok(())
    } else {
        Err(at_line(lines, ReadFault::Short))
    }
}

/// Reads the second line, and returns how many lines of right-hand sides it tells; `None` where it is no such line.
fn take_sides<R: Read + Drop, A: Allocator>(
    lines: &mut LineReader<R, A>,
) -> Result<Option<usize>, ReadError>
    ensures takes { IfOk result (λ o. MatchOption o (LacksCounts (rest_of R.remaining lines.old)) (λ sides.
        (line : List ℕ) × TakesLines R.remaining lines.old lines.new (line ∷ []) × SpellsCounts (words line) sides)) }
    ensures fails { IfErr result (FailsFor (StopsBehind all NoLine NoEnd []) R.remaining lines.old) }
{
    if !take_line(lines)? {
        return Ok(None);
    }
    Ok(sides_of(lines.line()))
}

/// Reads the third line.
fn take_kind<R: Read + Drop, A: Allocator>(lines: &mut LineReader<R, A>) -> Result<Kind, ReadError>
    ensures takes { IfOk result (λ k. (line : List ℕ) × TakesLines R.remaining lines.old lines.new (line ∷ []) ×
        SpellsKind line k.letters k.n k.n k.entries) }
    ensures fails { IfErr result (FailsFor (CardStops HasCardFault []) R.remaining lines.old) }
{
    take_some(lines)?;
    match kind_of(lines.line()) {
        Ok(kind) => Ok(kind),
        Err(fault) => Err(at_line(lines, fault)),
    }
}

/// Reads the line about right-hand sides, where there are any.
fn take_extra<R: Read + Drop, A: Allocator>(
    lines: &mut LineReader<R, A>,
    sides: usize,
) -> Result<(), ReadError>
    ensures takes { OnOk result ((more : List (List ℕ)) × TakesLines R.remaining lines.old lines.new more ×
        (length more ≡ cond (sides == 0) 0 1)) }
    ensures fails { IfErr result (FailsFor (λ s. (0 < sides) × CardStops NoLine [] s) R.remaining lines.old) }
{
    if sides == 0 {
        return Ok(());
    }
    take_some(lines)
}

/// Reads the fourth line.
fn take_layout<R: Read + Drop, A: Allocator + Copy>(
    alloc: A,
    lines: &mut LineReader<R, A>,
) -> Result<Layout, ReadError>
    ensures takes { IfOk result (λ l. (line : List ℕ) × TakesLines R.remaining lines.old lines.new (line ∷ []) ×
        SpellsLayout line l) }
    ensures fails { IfErr result (FailsFor (CardStops HasLayoutFault []) R.remaining lines.old) }
{
    take_some(lines)?;
    let Ok(layout) = layout_of(alloc, lines.line()) else {
        return Err(at_line(lines, ReadFault::OutOfMemory));
    };
    match layout {
        Some(layout) => Ok(layout),
        None => Err(at_line(lines, ReadFault::Layout)),
    }
}

/// Reads so many numbers from 1 to `bound`, up to the end of a line.
fn take_numbers<R: Read + Drop, A: Allocator + Copy>(
    alloc: A,
    lines: &mut LineReader<R, A>,
    fields: Fields,
    count: usize,
    bound: usize,
    listed: Listed,
) -> Result<Vec<usize, A>, ReadError>
    ensures takes { IfOk result (λ v. (ls : List (List ℕ)) × TakesLines R.remaining lines.old lines.new ls ×
        SpellsTable fields bound count ls v.items) }
    ensures fails { IfErr result (FailsFor (TableStop listed fields count bound []) R.remaining lines.old) }
{
    let mut numbers = Vec::new(alloc);
    'lines: while numbers.len() < count {
        take_some(lines)?;
        let here = fields.per_line.min(count - numbers.len());
        let added = add_numbers(
            &mut numbers,
            behind_bytes(lines.line(), fields.skipped),
            fields.width,
            here,
            bound,
            listed,
        );
        if let Err(fault) = added {
            return Err(at_line(lines, fault));
        }
    }
    Ok(numbers)
}

/// Adds the pairs that the rows of a column stand for.
fn add_column<A: Allocator>(
    pairs: &mut Vec<(usize, usize), A>,
    symmetry: Symmetry,
    column: usize,
    rows: &[usize],
) -> Result<(), AllocError>
    ensures { OnOk result (pairs.new.items ≡
        pairs.old.items ++ flat_map (pairs_of symmetry) (column_entries rows.now column)) }
{
    'rows: for row in rows {
        add_pairs(pairs, symmetry, (*row, column))?;
    }
    Ok(())
}

/// The rows of a column, which stand between its pointer and the next.
fn own_rows<'a>(pointers: &[usize], rows: &'a [usize], column: usize) -> &'a [usize]
    requires pointers { (n : ℕ) × (column < n) × ArePointers n (length rows.now) pointers.now }
    ensures { result.now ≡
        slice_range rows.now (slice_index pointers.now column) (slice_index pointers.now (column + 1)) }
{
    let Some(own) = rows.get(pointers[column]..pointers[column + 1]) else {
        unreachable!();
    };
    own
}

/// The pairs that pointers and rows stand for.
fn listed_pairs<A: Allocator>(
    alloc: A,
    kind: Kind,
    pointers: &[usize],
    rows: &[usize],
) -> Result<Vec<(usize, usize), A>, AllocError>
    requires { ArePointers kind.n (length rows.now) pointers.now }
    ensures { IfOk result (λ v. v.items ≡
        flat_map (pairs_of kind.letters.symmetry) (listed_entries pointers.now rows.now kind.n)) }
{
    let symmetry = kind.letters.symmetry;
    let mut pairs = pairs_for(alloc, symmetry, rows.len());
    'columns: for column in 0..kind.n {
        let own = own_rows(pointers, rows, column);
        add_column(&mut pairs, symmetry, column, own)?;
    }
    Ok(pairs)
}

/// Whether each number is at least the one before.
fn are_rising(numbers: &[usize]) -> bool
    ensures { IsTrue result ↔ IsLevel numbers.now }
{
    'places: for place in 1..numbers.len() {
        if numbers[place] < numbers[place - 1] {
            return false;
        }
    }
    true
}

/// Whether pointers are those of `n` columns with so many entries.
fn are_pointers(pointers: &[usize], n: usize, entries: usize) -> bool
    requires { length pointers.now ≡ n + 1 }
    ensures { IsTrue result ↔ ArePointers n entries pointers.now }
{
    pointers[0] == 0 && pointers[n] == entries && are_rising(pointers)
}

/// Reads the pointers.
fn take_pointers<R: Read + Drop, A: Allocator + Copy>(
    alloc: A,
    lines: &mut LineReader<R, A>,
    fields: Fields,
    kind: Kind,
) -> Result<Vec<usize, A>, ReadError>
    ensures takes { IfOk result (λ v. (ls : List (List ℕ)) × TakesLines R.remaining lines.old lines.new ls ×
        SpellsTable fields (kind.entries + 1) (kind.n + 1) ls v.items) }
    ensures pointers { IfOk result (λ v. ArePointers kind.n kind.entries v.items) }
    ensures fails { IfErr result (FailsFor (PointersStop kind fields []) R.remaining lines.old) }
{
    let Some(count) = kind.n.checked_add(1) else {
        return Err(at_line(lines, ReadFault::OutOfMemory));
    };
    let Some(bound) = kind.entries.checked_add(1) else {
        return Err(at_line(lines, ReadFault::OutOfMemory));
    };
    let pointers = take_numbers(alloc, lines, fields, count, bound, Listed::Pointers)?;
    if are_pointers(&pointers, kind.n, kind.entries) {
        Ok(pointers)
    } else {
        Err(at_line(lines, ReadFault::Pointers))
    }
}

/// Reads the lines before the pointers; `None` where the second line is none of a Harwell-Boeing file.
fn take_head<R: Read + Drop, A: Allocator + Copy>(
    alloc: A,
    lines: &mut LineReader<R, A>,
) -> Result<Option<(Kind, Layout)>, ReadError>
    ensures takes { IfOk result (λ o. MatchOption o (LacksCounts (rest_of R.remaining lines.old)) (λ h.
        (ls : List (List ℕ)) × TakesLines R.remaining lines.old lines.new ls × SpellsHead ls h.0 h.1)) }
    ensures fails { IfErr result (FailsFor HeadStops R.remaining lines.old) }
{
    let Some(sides) = take_sides(lines)? else {
        return Ok(None);
    };
    let kind = take_kind(lines)?;
    let layout = take_layout(alloc, lines)?;
    take_extra(lines, sides)?;
    Ok(Some((kind, layout)))
}

/// Reads pointers and rows, and returns the pairs that they stand for.
fn take_columns<R: Read + Drop, A: Allocator + Copy>(
    alloc: A,
    lines: &mut LineReader<R, A>,
    kind: Kind,
    layout: Layout,
) -> Result<Vec<(usize, usize), A>, ReadError>
    ensures takes { IfOk result (λ v. (ls : List (List ℕ)) × TakesLines R.remaining lines.old lines.new ls ×
        SpellsColumns ls kind layout v.items) }
    ensures inside { IfOk result (λ v. All (λ p. (p.0 < kind.n) × (p.1 < kind.n)) v.items) }
    ensures fails { IfErr result (FailsFor (ColumnsStop kind layout []) R.remaining lines.old) }
{
    let pointers = take_pointers(alloc, lines, layout.pointers, kind)?;
    let rows = take_numbers(
        alloc,
        lines,
        layout.rows,
        kind.entries,
        kind.n,
        Listed::Rows,
    )?;
    match listed_pairs(alloc, kind, &pointers, &rows) {
        Ok(pairs) => Ok(pairs),
        Err(_) => Err(at_line(lines, ReadFault::OutOfMemory)),
    }
}

/// Reads the matrix of a file whose first line was read; `None` where the second line is none of such a file.
pub(crate) fn take_boeing<R: Read + Drop, A: Allocator + Copy>(
    alloc: A,
    lines: &mut LineReader<R, A>,
) -> Result<Option<Matrix<A>>, ReadError>
    ensures takes { IfOk result (λ o. MatchOption o (LacksCounts (rest_of R.remaining lines.old)) (λ m.
        (ls : List (List ℕ)) × TakesLines R.remaining lines.old lines.new ls ×
        SpellsBoeing ls m.source m.n m.a_p.items m.a_i.items m.repeats)) }
    ensures fails { IfErr result (FailsFor BoeingStops R.remaining lines.old) }
{
    let Some((kind, layout)) = take_head(alloc, lines)? else {
        return Ok(None);
    };
    let pairs = take_columns(alloc, lines, kind, layout)?;
    match matrix_of(
        alloc,
        Source::Boeing(kind.letters),
        kind.n,
        Pairs::Listed(pairs),
    ) {
        Ok(matrix) => Ok(Some(matrix)),
        Err(_) => Err(at_line(lines, ReadFault::OutOfMemory)),
    }
}
