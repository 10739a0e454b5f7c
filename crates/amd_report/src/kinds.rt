// What the cells of a panel show: entries of the matrix, fill, both, or nothing.

ghost use Rattle.std.specs.Prelude.{◌≡◌, ◌<◌, ℕ, IfOk, length, slice_index};
ghost use Rattle.amd_report.specs.Kinds.{AreKinds, kind_of};

use std::alloc::{AllocError, Allocator};

/// The kind of a cell with entries alone.
pub const ENTRIES: u8 = 1;

/// The kind of a cell with fill alone.
pub const FILL: u8 = 2;

/// The kind of a cell with both.
pub const BOTH: u8 = 3;

/// The kind of a cell: 0 where nothing falls into it.
fn kind_of(entries: u8, fill: u8) -> u8
    ensures { result ≡ kind_of entries fill }
{
    match (entries != 0, fill != 0) {
        (true, true) => BOTH,
        (true, false) => ENTRIES,
        (false, true) => FILL,
        (false, false) => 0,
    }
}

/// A number of a list; 0 past its end.
fn mark_at(marks: &[u8], cell: usize) -> u8
    ensures { result ≡ slice_index marks.now cell }
{
    marks.get(cell).copied().unwrap_or(0)
}

/// The kind of each cell, by those in which entries are marked and those in which fill is.
pub fn kinds_of<A: Allocator>(
    alloc: A,
    entries: &[u8],
    fill: &[u8],
) -> Result<Vec<u8, A>, AllocError>
    ensures { IfOk result (λ kinds. AreKinds entries.now fill.now kinds.items) }
{
    let mut kinds = Vec::with_capacity(alloc, entries.len())?;
    'cells: for cell in 0..entries.len() {
        kinds.push(kind_of(mark_at(entries, cell), mark_at(fill, cell)))?;
    }
    Ok(kinds)
}
