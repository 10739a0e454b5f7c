// The arcs of a matrix under an order of its rows: each entry off the diagonal gives one, from the later one of its two
// places to the earlier one. A walk over the entries hands them to a visitor, one at a time, with the numbers that it
// writes.

ghost use Rattle.std.specs.Prelude.{◌≡◌, ◌<◌, ◌≤◌, ◌+◌, ◌∷◌, [], ℕ, List, pos, map, length, slice_index};
ghost use Rattle.amd_model.specs.Input.Columns.{IsColumnForm};
ghost use Rattle.amd_types.specs.Naturals.{naturals};
ghost use Rattle.amd_factor.specs.Arcs.{HasForm, HasOrder, IsNext, arcs_before, arcs_of};
ghost use Rattle.amd_factor.specs.Places.{ArePlaces};

use amd_types::index::Index;
use amd_types::internal::count_at;

/// A matrix with `size` rows and columns, and the place of each of its rows in an order. The matrix may have columns
/// out of order and repeats.
#[derive(Drop)]
pub struct PlacedMatrix<'a, I: Index> {
    pub size: usize,
    /// Where the entries of each column begin, and behind them the end of the last one.
    pub a_p: &'a [I],
    /// The row of each entry.
    pub a_i: &'a [I],
    pub places: &'a [usize],
}

/// What takes the arcs of an order of `n` rows, one at a time, and writes two lists of numbers by them. What holds of
/// it and of the lists speaks of `n`, of all arcs that it is to take, and of those that it took, the last one first.
pub trait ArcVisitor {
    ghost holds: { ℕ → List (ℕ × ℕ) → List (ℕ × ℕ) → Self → List ℕ → List ℕ → Type 0 };

    /// Takes the arc from the place `later` to the place `earlier`.
    fn arc(&self, starts: &mut [usize], neighbours: &mut [usize], later: usize, earlier: usize)
        requires { (n : ℕ) × (all : List (ℕ × ℕ)) × (arcs : List (ℕ × ℕ)) ×
            holds n all arcs self.now starts.old neighbours.old × IsNext n all arcs later earlier }
        ensures { (n : ℕ) (all : List (ℕ × ℕ)) (arcs : List (ℕ × ℕ)) →
            holds n all arcs self.now starts.old neighbours.old → IsNext n all arcs later earlier →
            holds n all ((later, earlier) ∷ arcs) self.now starts.new neighbours.new };
}

/// The later and the earlier of two places.
#[inline]
fn in_order(a: usize, b: usize) -> (usize, usize)
    ensures up { b < a → (result.0 ≡ a) × (result.1 ≡ b) }
    ensures down { a ≤ b → (result.0 ≡ b) × (result.1 ≡ a) }
{
    if b < a { (a, b) } else { (b, a) }
}

/// Hands on the arcs of the entries of a column, one of `size`.
///
/// Which of the two places of an entry is the later one is as good as drawn, so that is no branch: only its test
/// against an entry on the diagonal is one.
fn column<I: Index, V: ArcVisitor>(
    size: usize,
    column: usize,
    a_p: &[I],
    a_i: &[I],
    places: &[usize],
    visitor: &V,
    starts: &mut [usize],
    neighbours: &mut [usize],
)
    requires form { IsColumnForm (pos size) size (map I.value a_p.now) (map I.value a_i.now) }
    requires places { (rows : List ℕ) × ArePlaces size rows places.now }
    requires column_in { column < size }
    requires held { V.holds size
        (arcs_before places.now (naturals (map I.value a_p.now)) (naturals (map I.value a_i.now)) size)
        (arcs_before places.now (naturals (map I.value a_p.now)) (naturals (map I.value a_i.now)) column)
        visitor.now starts.old neighbours.old }
    ensures held { V.holds size
        (arcs_before places.now (naturals (map I.value a_p.now)) (naturals (map I.value a_i.now)) size)
        (arcs_before places.now (naturals (map I.value a_p.now)) (naturals (map I.value a_i.now)) (column + 1))
        visitor.now starts.new neighbours.new }
{
    let here = places[column];
    let end = count_at(a_p, column + 1);
    'entries: for entry in count_at(a_p, column)..end {
        let there = places[count_at(a_i, entry)];
        if there != here {
            let (later, earlier) = in_order(here, there);
            visitor.arc(starts, neighbours, later, earlier);
        }
    }
}

/// Hands on the arcs of all entries of a matrix, column by column; each repeat gives its arc again.
pub fn walk<I: Index, V: ArcVisitor>(
    matrix: &PlacedMatrix<'_, I>,
    visitor: &V,
    starts: &mut [usize],
    neighbours: &mut [usize],
)
    requires form { HasForm I.value matrix.now }
    requires places { HasOrder matrix.now }
    requires held { V.holds matrix.now.size (arcs_of I.value matrix.now) [] visitor.now starts.old neighbours.old }
    ensures held { V.holds matrix.now.size (arcs_of I.value matrix.now) (arcs_of I.value matrix.now)
        visitor.now starts.new neighbours.new }
{
    let size = matrix.size;
    'columns: for j in 0..size {
        column(
            size,
            j,
            matrix.a_p,
            matrix.a_i,
            matrix.places,
            visitor,
            starts,
            neighbours,
        );
    }
}
