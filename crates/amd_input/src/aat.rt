// The degrees of the rows of a matrix, and the figures of its pattern: those of the pattern of A + A' (Amestoy, Davis
// and Duff 2004). `aat_within` writes them into lists that are handed in, and `aat` takes the memory for them.

ghost use Rattle.std.specs.Prelude.{◌≡◌, ◌<◌, ◌^◌, ◌-◌, ◌*◌, ◌==◌, map, slice_index, slice_set, unsigned_abs};
ghost use Rattle.std.specs.Prelude.{◌≤◌, ◌∷◌, [], IfOk, IfErr, IfNone, IfSome, OnOk, OnErr, pos};
ghost use Rattle.std.specs.Vec.{vec_capacity};
ghost use Rattle.amd_model.specs.Input.Columns.{IsColumnForm, IsInput, IsSorted, IsSortedInput};
ghost use Rattle.amd_types.specs.Naturals.{naturals};
ghost use Rattle.amd_edges.specs.Visits.{AreCounts};
ghost use Rattle.amd_input.specs.Degrees.{AreDegrees, CountDegrees, IsEmptyFor, IsRisingForm};
ghost use Rattle.amd_input.specs.LowerRows.{HasRowAbove};
ghost use Rattle.amd_input.specs.PatternFigures.{HasPatternFigures};
ghost use Rattle.amd_types.specs.declared.amd.Status.TheVariants.{OutOfMemory};

use crate::cells::{numbers_of, total, zeros};
use crate::lower::lower_degrees;
use crate::mirrors::mirrored_degrees;
use amd_edges::walk::{Visitor, walk};
use amd_types::amd::{Info, Status};
use amd_types::index::Index;
use amd_types::internal::{count_at, known_count};
use amd_words::{Cell, Unsigned, cell_of, number_of};
use num_traits::PrimInt;
use std::alloc::{AllocError, Allocator};
use std::mem::replace;

/// A counter of the arcs of each row, in cells. A count is below the number of rows, which a cell must hold.
#[derive(Drop)]
pub struct DegreeCounter<U: Unsigned, A: Allocator> {
    /// The number of arcs of each row.
    pub degrees: Vec<Cell<U>, A>,
}

impl<U: Unsigned, A: Allocator> Visitor for DegreeCounter<U, A> {
    ghost holds = { λ g seen arcs v. AreCounts g seen v.degrees.items × (g.size ≤ U.MOST) };

    ghost runs = { λ g seen arcs j mark v. AreCounts g seen (slice_set v.degrees.items j mark) × (g.size ≤ U.MOST) };

    ghost room = { λ v. vec_capacity v.degrees ∷ [] };

    fn arc(&mut self, i: usize, j: usize) {
        self.degrees[i] = cell_of(number_of(&self.degrees[i]) + 1);
    }

    fn begin(&self, j: usize) -> usize {
        number_of(&self.degrees[j])
    }

    fn edge(&mut self, i: usize, j: usize, mark: usize) -> usize {
        self.degrees[i] = cell_of(number_of(&self.degrees[i]) + 1);
        mark + 1
    }

    fn end(&mut self, j: usize, mark: usize) {
        self.degrees[j] = cell_of(mark);
    }
}

/// Appends the degree of each of `size` rows to an empty list, and returns the number of diagonal entries, from the
/// columns alone; or `None`, where the pattern is not found to be symmetric and has an entry above the diagonal.
fn degrees_by_columns<I: Index, U: Unsigned, A: Allocator>(
    size: usize,
    a_p: &[I],
    a_i: &[I],
    next: &mut Vec<Cell<U>, A>,
    degrees: &mut Vec<Cell<U>, A>,
) -> Option<usize>
    requires input { IsRisingForm size (map I.value a_p.now) (map I.value a_i.now) }
    requires fits { (size ≤ U.MOST) × (slice_index (naturals (map I.value a_p.now)) size ≤ U.MOST) }
    requires next { IsEmptyFor size (vec_capacity next.old) next.old.items }
    requires degrees { IsEmptyFor size (vec_capacity degrees.old) degrees.old.items }
    ensures counted { IfSome result (CountDegrees size (map I.value a_p.now) (map I.value a_i.now) degrees.new.items) }
    ensures above { IfNone result (HasRowAbove size (naturals (map I.value a_p.now)) (naturals (map I.value a_i.now))) }
    ensures room { (vec_capacity next.new ≡ vec_capacity next.old) ×
        (vec_capacity degrees.new ≡ vec_capacity degrees.old) }
{
    let mirrored = mirrored_degrees(size, a_p, a_i, next, degrees);
    if mirrored.is_some() {
        return mirrored;
    }
    degrees.clear();
    lower_degrees(size, a_p, a_i, degrees)
}

/// Writes the degree of each of `size` rows, and returns the number of diagonal entries: from the columns alone where
/// that is possible, and else by a walk over the edges. Both lists are taken out of their places while they are
/// written, since behind a reference each step loads where they stand.
fn count_degrees<I: Index, U: Unsigned, A: Allocator + Copy>(
    size: usize,
    a_p: &[I],
    a_i: &[I],
    next: &mut Vec<Cell<U>, A>,
    counter: &mut DegreeCounter<U, A>,
) -> usize
    requires input { IsRisingForm size (map I.value a_p.now) (map I.value a_i.now) }
    requires room { (size ≤ vec_capacity next.old) × (size ≤ vec_capacity counter.old.degrees) }
    requires fits { (size ≤ U.MOST) × (slice_index (naturals (map I.value a_p.now)) size ≤ U.MOST) }
    ensures counted { CountDegrees size (map I.value a_p.now) (map I.value a_i.now) counter.new.degrees.items result }
    ensures room { (vec_capacity next.new ≡ vec_capacity next.old) ×
        (vec_capacity counter.new.degrees ≡ vec_capacity counter.old.degrees) }
{
    let alloc = *next.allocator();
    let mut ends = replace(next, Vec::new(alloc));
    let mut own = DegreeCounter {
        degrees: replace(&mut counter.degrees, Vec::new(alloc)),
    };
    ends.clear();
    own.degrees.clear();
    let diagonals = match degrees_by_columns(size, a_p, a_i, &mut ends, &mut own.degrees) {
        Some(diagonals) => diagonals,
        None => {
            ends.clear();
            zeros(&mut own.degrees, size);
            walk(size, a_p, a_i, &mut ends, &mut own)
        }
    };
    *next = ends;
    counter.degrees = own.degrees;
    diagonals
}

/// The figures of a pattern by its numbers of rows, of entries, of diagonal entries and of arcs.
fn write_figures(size: usize, entries: usize, diagonals: usize, sum: usize, info: &mut Info)
    requires { diagonals ≤ entries }
    ensures { info.new ≡ record info.old {
      n = size;
      nz = entries;
      symmetry = sum == entries - diagonals;
      nz_diag = diagonals;
      nz_a_plus_at = sum;
    } }
{
    info.n = size;
    info.nz = entries;
    info.nz_diag = diagonals;
    info.nz_a_plus_at = sum;
    info.symmetry = sum == entries - diagonals;
}

/// The sum of the degrees and the degree of each row, by the pattern of `A + A'`, in lists that are handed in; writes
/// the figures of the pattern. Nothing is allocated, so nothing can refuse.
///
/// The input is a column form with `size` rows and columns, each of which is strictly ascending. `next` and the list of
/// `counter` have room for `size` numbers; what stands in them before does not matter, and they keep their memory. A
/// cell can hold `size` and the number of entries, and twice the entries are below 2^64. The list of `counter`
/// then has the degrees; what `next` holds is not said. The sum is at most twice the entries.
///
/// The figures are those that [`aat`] writes.
///
/// Source: AMD user guide; Amestoy, Davis and Duff 2004.
pub fn aat_within<I: Index, U: Unsigned, A: Allocator + Copy>(
    size: usize,
    a_p: &[I],
    a_i: &[I],
    next: &mut Vec<Cell<U>, A>,
    counter: &mut DegreeCounter<U, A>,
    info: &mut Info,
) -> usize
    requires form { IsColumnForm (pos size) size (map I.value a_p.now) (map I.value a_i.now) }
    requires sorted { IsSorted size (map I.value a_p.now) (map I.value a_i.now) }
    requires room { (size ≤ vec_capacity next.old) × (size ≤ vec_capacity counter.old.degrees) }
    requires fits { (size ≤ U.MOST) × (slice_index (naturals (map I.value a_p.now)) size ≤ U.MOST) }
    requires small { 2 * slice_index (naturals (map I.value a_p.now)) size < 2 ^ 64 }
    ensures degrees { AreDegrees size (map I.value a_p.now) (map I.value a_i.now) result counter.new.degrees.items }
    ensures few { result ≤ 2 * slice_index (naturals (map I.value a_p.now)) size }
    ensures figures { HasPatternFigures size (map I.value a_p.now) (map I.value a_i.now) info.new }
    ensures others { info.new ≡ record info.old {
      n = info.new.n;
      nz = info.new.nz;
      symmetry = info.new.symmetry;
      nz_diag = info.new.nz_diag;
      nz_a_plus_at = info.new.nz_a_plus_at;
    } }
    ensures room { (vec_capacity next.new ≡ vec_capacity next.old) ×
        (vec_capacity counter.new.degrees ≡ vec_capacity counter.old.degrees) }
{
    let entries = count_at(a_p, size);
    let diagonals = count_degrees(size, a_p, a_i, next, counter);
    let Some(sum) = total(&counter.degrees) else {
        unreachable!()
    };
    write_figures(size, entries, diagonals, sum, info);
    sum
}

/// The number of diagonal entries, and a counter with the degree of each of `size` rows.
///
/// # Errors
///
/// A refused request for memory.
fn degrees_of<I: Index, A: Allocator + Copy>(
    alloc: A,
    size: usize,
    a_p: &[I],
    a_i: &[I],
) -> Result<(usize, DegreeCounter<usize, A>), AllocError>
    requires input { IsRisingForm size (map I.value a_p.now) (map I.value a_i.now) }
    ensures { IfOk result (λ r. CountDegrees size (map I.value a_p.now) (map I.value a_i.now) r.1.degrees.items r.0) }
{
    let mut next = Vec::with_capacity(alloc, size)?;
    let degrees = Vec::with_capacity(alloc, size)?;
    let mut counter = DegreeCounter { degrees };
    let diagonals = count_degrees(size, a_p, a_i, &mut next, &mut counter);
    Ok((diagonals, counter))
}

/// The sum of the degrees and the degree of each row, by the pattern of `A + A'`; writes the figures of the pattern.
///
/// The input is a column form with `n` rows and columns, each of which is strictly ascending: `valid` tells `OK`. `a_p`
/// has at least `n + 1` pointers, and `a_i` at least `a_p[n]` row indices; what follows is ignored. The list that is
/// returned has `n` degrees, each below `n`.
///
/// The figures of the pattern are written into `n`, `nz`, `symmetry`, `nz_diag` and `nz_a_plus_at` of `info`, of which
/// the other fields stay. The pattern is symmetric where there are as many arcs as entries off the diagonal.
///
/// # Errors
///
/// `OutOfMemory` where an allocation was refused, or the sum of the degrees is above the greatest `usize`, which no
/// input that fits into memory reaches; `info` is then as it was.
///
/// Source: AMD user guide; Amestoy, Davis and Duff 2004.
pub fn aat<I: PrimInt, A: Allocator + Copy>(
    alloc: A,
    n: I,
    a_p: &[I],
    a_i: &[I],
    info: &mut Info,
) -> Result<(usize, Vec<usize, A>), Status>
    requires form { IsInput (I.value n) (I.value n) (map I.value a_p.now) (map I.value a_i.now) }
    requires sorted { IsSortedInput (I.value n) (map I.value a_p.now) (map I.value a_i.now) }
    ensures degrees { IfOk result (λ a. AreDegrees (unsigned_abs (I.value n)) (map I.value a_p.now)
        (map I.value a_i.now) a.0 a.1.items) }
    ensures figures { OnOk result (HasPatternFigures (unsigned_abs (I.value n)) (map I.value a_p.now)
        (map I.value a_i.now) info.new) }
    ensures others { OnOk result (info.new ≡ record info.old {
      n = info.new.n;
      nz = info.new.nz;
      symmetry = info.new.symmetry;
      nz_diag = info.new.nz_diag;
      nz_a_plus_at =
          info.new.nz_a_plus_at;
    }) }
    ensures refused { IfErr result (λ e. e ≡ OutOfMemory) }
    ensures unchanged { OnErr result (info.new ≡ info.old) }
{
    let size = known_count(n);
    let entries = count_at(a_p, size);
    let (diagonals, counter) = degrees_of(alloc, size, a_p, a_i)?;
    let Some(sum) = total(&counter.degrees) else {
        return Err(Status::OutOfMemory);
    };
    // The list is copied once, from cells to the numbers that a caller reads.
    let degrees = numbers_of(alloc, &counter.degrees)?;
    write_figures(size, entries, diagonals, sum, info);
    Ok((sum, degrees))
}
