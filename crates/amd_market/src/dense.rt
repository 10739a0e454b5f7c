// The values of an array: a line for each place, column by column, of which those that are not zero are entries.
// Source: the Matrix Market exchange formats.

ghost use Rattle.std.specs.Prelude.{◌≡◌, ◌-◌, ◌+◌, ◌^◌, ◌<◌, ◌≤◌, ◌∷◌, [], ℕ, List, IfOk, IfErr, OnOk};
ghost use Rattle.amd_market.specs.Arrays.{SpellsShape, SpellsValue, column_places, array_places, first_row};
ghost use Rattle.amd_lines.specs.Lines.{TakesTelling, percent};
ghost use Rattle.amd_market.specs.Files.{TakesValues, FailsFor};
ghost use Rattle.amd_market.specs.Stops.{ShapeStops, ValueStops, ValuesStop};

use crate::arrays::{shape_of, value_of};
use crate::faults::{ReadError, ReadFault};
use crate::headers::{Field, Header, Symmetry};
use crate::lines::{at_end, at_line, take_telling};
use crate::matrices::add_pairs;
use amd_lines::lines::LineReader;
use std::alloc::Allocator;
use std::io::Read;

/// Reads the number of rows and columns.
pub(crate) fn take_shape<R: Read + Drop, A: Allocator>(
    lines: &mut LineReader<R, A>,
) -> Result<usize, ReadError>
    ensures takes { IfOk result (λ n. (line : List ℕ) × TakesTelling percent R.remaining lines.old lines.new line ×
        SpellsShape line n n) }
    ensures fails { IfErr result (FailsFor ShapeStops R.remaining lines.old) }
{
    if !take_telling(lines)? {
        return Err(at_end(lines, ReadFault::Shape));
    }
    match shape_of(lines.line()) {
        Ok(n) => Ok(n),
        Err(fault) => Err(at_line(lines, fault)),
    }
}

/// Reads the next value, that of a place, and says whether it is not zero.
fn take_value<R: Read + Drop, A: Allocator>(
    lines: &mut LineReader<R, A>,
    field: Field,
    place: (usize, usize),
) -> Result<bool, ReadError>
    requires { (place.0 + 1 < 2 ^ 64) × (place.1 + 1 < 2 ^ 64) }
    ensures takes { IfOk result (λ b. (line : List ℕ) × TakesTelling percent R.remaining lines.old lines.new line ×
        SpellsValue field line b) }
    ensures fails { IfErr result (FailsFor (ValueStops field place []) R.remaining lines.old) }
{
    if !take_telling(lines)? {
        return Err(at_line(
            lines,
            ReadFault::NoPlace {
                row: place.0 + 1,
                column: place.1 + 1,
            },
        ));
    }
    match value_of(lines.line(), field) {
        Ok(other) => Ok(other),
        Err(fault) => Err(at_line(lines, fault)),
    }
}

/// The first row of a column that is listed.
fn first_row(symmetry: Symmetry, column: usize, n: usize) -> usize
    requires { column < n }
    ensures { result ≡ first_row symmetry column }
{
    match symmetry {
        Symmetry::General => 0,
        Symmetry::Symmetric | Symmetry::Hermitian => column,
        Symmetry::SkewSymmetric => column + 1,
    }
}

/// Reads the value of a place, and adds the pairs that it stands for where it is not zero.
fn take_place<R: Read + Drop, A: Allocator + Copy>(
    lines: &mut LineReader<R, A>,
    header: Header,
    place: (usize, usize),
    pairs: &mut Vec<(usize, usize), A>,
) -> Result<(), ReadError>
    requires { (place.0 + 1 < 2 ^ 64) × (place.1 + 1 < 2 ^ 64) }
    ensures takes { OnOk result (TakesValues R.remaining lines.old lines.new header (place ∷ [])
        pairs.old.items pairs.new.items) }
    ensures fails { IfErr result (FailsFor (ValuesStop header.field (place ∷ []) []) R.remaining lines.old) }
{
    let other = take_value(lines, header.field, place)?;
    if !other {
        return Ok(());
    }
    match add_pairs(pairs, header.symmetry, place) {
        Ok(()) => Ok(()),
        Err(_) => Err(at_line(lines, ReadFault::OutOfMemory)),
    }
}

/// Reads the values of a column from a row on, up to the last of `n`, and adds the pairs that they stand for.
fn take_column<R: Read + Drop, A: Allocator + Copy>(
    lines: &mut LineReader<R, A>,
    header: Header,
    first: usize,
    n: usize,
    column: usize,
    pairs: &mut Vec<(usize, usize), A>,
) -> Result<(), ReadError>
    requires rows { first ≤ n }
    requires column { column < n }
    ensures takes { OnOk result (TakesValues R.remaining lines.old lines.new header
        (column_places first column (n - first)) pairs.old.items pairs.new.items) }
    ensures fails { IfErr result (FailsFor (ValuesStop header.field
        (column_places first column (n - first)) []) R.remaining lines.old) }
{
    'rows: for row in first..n {
        take_place(lines, header, (row, column), pairs)?;
    }
    Ok(())
}

/// Reads the values of an array with `n` rows and columns, and returns the pairs that they stand for.
pub(crate) fn take_values<R: Read + Drop, A: Allocator + Copy>(
    alloc: A,
    lines: &mut LineReader<R, A>,
    header: Header,
    n: usize,
) -> Result<Vec<(usize, usize), A>, ReadError>
    ensures takes { IfOk result (λ v. TakesValues R.remaining lines.old lines.new header
        (array_places header.symmetry n n) [] v.items) }
    ensures fails { IfErr result (FailsFor (ValuesStop header.field
        (array_places header.symmetry n n) []) R.remaining lines.old) }
{
    let mut pairs = Vec::new(alloc);
    'columns: for column in 0..n {
        let first = first_row(header.symmetry, column, n);
        take_column(lines, header, first, n, column, &mut pairs)?;
    }
    Ok(pairs)
}
