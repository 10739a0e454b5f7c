// A walk over the edges of a matrix: each edge is met once, whether the pattern holds it once or twice, and a visitor
// is told both of its arcs. For each column in turn its upper entries are read, and with each of them the lower entries
// of that row's own column that come before; a pointer of each column says how far it was read. Source: Amestoy, Davis
// and Duff 2004 (the forming of A + A').

ghost use Rattle.std.specs.Prelude.{◌≡◌, ◌<◌, ◌≤◌, ◌+◌, ◌++◌, ◌∷◌, ℕ, Bool, List, [], true, false, pos, map, length};
ghost use Rattle.std.specs.Prelude.{slice_index, slice_set};
ghost use Rattle.std.specs.Vec.{vec_capacity};
ghost use Rattle.amd_model.specs.Graph.{Graph};
ghost use Rattle.amd_model.specs.Input.Columns.{IsColumnForm, IsSorted};
ghost use Rattle.amd_model.specs.Input.Pattern.{graph_of, diagonal_count, is_pair};
ghost use Rattle.amd_model.specs.Quotient.{met_below, met_edges};
ghost use Rattle.amd_types.specs.Naturals.{naturals};
ghost use Rattle.amd_edges.specs.Visits.{IsNew, IsNewEdge, arcs_of, with_arc, with_edge};
ghost use Rattle.amd_edges.specs.Walk.{IsReadTo, IsScanOf, edges_before, entry_read, graph_read, lower_start, met_read};

use amd_types::index::Index;
use amd_types::internal::count_at;
use amd_words::{Cell, Unsigned, cell_of, number_of};
use std::alloc::Allocator;

/// What takes the arcs of a graph: one at a time, or in a run of edges of one row, whose next place the walk holds
/// meanwhile, as a mark. What holds of it speaks of the set of the arcs that it took, and of their list.
pub trait Visitor {
    ghost holds: { Graph → (ℕ → ℕ → Bool) → List (ℕ × ℕ) → Self → Type 0 };

    // What holds in a run of a row, with the mark of that row.
    ghost runs: { Graph → (ℕ → ℕ → Bool) → List (ℕ × ℕ) → ℕ → ℕ → Self → Type 0 };

    // How much room its lists have: no arc changes it.
    ghost room: { Self → List ℕ };

    /// Takes the arc from `i` to `j`.
    fn arc(&mut self, i: usize, j: usize)
        requires { (g : Graph) × (seen : ℕ → ℕ → Bool) × (arcs : List (ℕ × ℕ)) × holds g seen arcs self.old ×
            IsNew g seen i j }
        ensures held { (g : Graph) (seen : ℕ → ℕ → Bool) (arcs : List (ℕ × ℕ)) → holds g seen arcs self.old →
            IsNew g seen i j → holds g (with_arc seen i j) (arcs ++ (i, j) ∷ []) self.new }
        ensures kept { room self.new ≡ room self.old };

    /// Begins a run of row `j`. Returns its mark.
    fn begin(&self, j: usize) -> usize
        requires { (g : Graph) × (seen : ℕ → ℕ → Bool) × (arcs : List (ℕ × ℕ)) × holds g seen arcs self.now ×
            (j < g.size) }
        ensures { (g : Graph) (seen : ℕ → ℕ → Bool) (arcs : List (ℕ × ℕ)) → holds g seen arcs self.now →
            runs g seen arcs j result self.now };

    /// Takes both arcs of the edge of `i` and `j`, that from `i` before the other, in a run of row `j` with this mark.
    /// Returns the next mark.
    fn edge(&mut self, i: usize, j: usize, mark: usize) -> usize
        requires { (g : Graph) × (seen : ℕ → ℕ → Bool) × (arcs : List (ℕ × ℕ)) × runs g seen arcs j mark self.old ×
            IsNewEdge g seen i j }
        ensures held { (g : Graph) (seen : ℕ → ℕ → Bool) (arcs : List (ℕ × ℕ)) → runs g seen arcs j mark self.old →
            IsNewEdge g seen i j →
            runs g (with_edge seen i j) ((arcs ++ (i, j) ∷ []) ++ (j, i) ∷ []) j result self.new }
        ensures kept { room self.new ≡ room self.old };

    /// Ends a run of row `j` with this mark.
    fn end(&mut self, j: usize, mark: usize)
        requires { (g : Graph) × (seen : ℕ → ℕ → Bool) × (arcs : List (ℕ × ℕ)) × runs g seen arcs j mark self.old ×
            (j < g.size) }
        ensures held { (g : Graph) (seen : ℕ → ℕ → Bool) (arcs : List (ℕ × ℕ)) → runs g seen arcs j mark self.old →
            j < g.size → holds g seen arcs self.new }
        ensures kept { room self.new ≡ room self.old };
}

/// Reads the lower entries of column `j`, one of `size`, that were not read yet, up to row `k`.
fn lower<I: Index, V: Visitor, U: Unsigned, A: Allocator>(
    size: usize,
    j: usize,
    k: usize,
    a_p: &[I],
    a_i: &[I],
    next: &mut Vec<Cell<U>, A>,
    visitor: &mut V,
)
    requires form { IsColumnForm (pos size) size (map I.value a_p.now) (map I.value a_i.now) }
    requires sorted { IsSorted size (map I.value a_p.now) (map I.value a_i.now) }
    requires fits { slice_index (naturals (map I.value a_p.now)) size ≤ U.MOST }
    requires before { j < k }
    requires k_in { k ≤ size }
    requires mirror { k < size → entry_read size (map I.value a_p.now) (map I.value a_i.now) j k ≡ true }
    requires scan { IsScanOf size (map I.value a_p.now) (map I.value a_i.now) next.old.items k j }
    requires held { (arcs : List (ℕ × ℕ)) × V.holds (graph_read size (map I.value a_p.now) (map I.value a_i.now))
        (met_read size (map I.value a_p.now) (map I.value a_i.now) next.old.items k (j + 1)) arcs visitor.old }
    ensures scan { IsScanOf size (map I.value a_p.now) (map I.value a_i.now) next.new.items k (j + 1) }
    ensures held { (arcs : List (ℕ × ℕ)) → V.holds (graph_read size (map I.value a_p.now) (map I.value a_i.now))
        (met_read size (map I.value a_p.now) (map I.value a_i.now) next.old.items k (j + 1)) arcs visitor.old →
        V.holds (graph_read size (map I.value a_p.now) (map I.value a_i.now))
        (met_read size (map I.value a_p.now) (map I.value a_i.now) next.new.items k (j + 1))
        (arcs ++ arcs_of (met_below (entry_read size (map I.value a_p.now) (map I.value a_i.now)) k j)) visitor.new }
    ensures room { vec_capacity next.new ≡ vec_capacity next.old }
    ensures kept { V.room visitor.new ≡ V.room visitor.old }
{
    let end = count_at(a_p, j + 1);
    let mut place = number_of(&next[j]);
    let mut mark = visitor.begin(j);
    'rows: while place < end && count_at(a_i, place) < k {
        mark = visitor.edge(count_at(a_i, place), j, mark);
        place += 1;
    }
    visitor.end(j, mark);
    if place < end && count_at(a_i, place) == k {
        place += 1;
    }
    next[j] = cell_of(place);
}

/// Reads the upper entries of column `k`, one of `size`, adds its pointer, and says whether it has a diagonal entry.
fn column<I: Index, V: Visitor, U: Unsigned, A: Allocator>(
    size: usize,
    k: usize,
    a_p: &[I],
    a_i: &[I],
    next: &mut Vec<Cell<U>, A>,
    visitor: &mut V,
) -> bool
    requires form { IsColumnForm (pos size) size (map I.value a_p.now) (map I.value a_i.now) }
    requires sorted { IsSorted size (map I.value a_p.now) (map I.value a_i.now) }
    requires fits { slice_index (naturals (map I.value a_p.now)) size ≤ U.MOST }
    requires k_in { k < size }
    requires room { size ≤ vec_capacity next.old }
    requires scan { IsScanOf size (map I.value a_p.now) (map I.value a_i.now) next.old.items k 0 }
    requires held { V.holds (graph_read size (map I.value a_p.now) (map I.value a_i.now))
        (met_read size (map I.value a_p.now) (map I.value a_i.now) next.old.items k 0)
        (arcs_of (edges_before (entry_read size (map I.value a_p.now) (map I.value a_i.now)) k)) visitor.old }
    ensures scan { IsScanOf size (map I.value a_p.now) (map I.value a_i.now) next.new.items (k + 1) 0 }
    ensures held { V.holds (graph_read size (map I.value a_p.now) (map I.value a_i.now))
        (met_read size (map I.value a_p.now) (map I.value a_i.now) next.new.items (k + 1) 0)
        (arcs_of (edges_before (entry_read size (map I.value a_p.now) (map I.value a_i.now)) (k + 1))) visitor.new }
    ensures room { vec_capacity next.new ≡ vec_capacity next.old }
    ensures diagonal { result ≡ entry_read size (map I.value a_p.now) (map I.value a_i.now) k k }
    ensures kept { V.room visitor.new ≡ V.room visitor.old }
{
    let end = count_at(a_p, k + 1);
    let mut place = count_at(a_p, k);
    'upper: while place < end && count_at(a_i, place) < k {
        let j = count_at(a_i, place);
        visitor.arc(j, k);
        visitor.arc(k, j);
        lower(size, j, k, a_p, a_i, next, visitor);
        place += 1;
    }
    let diagonal = place < end && count_at(a_i, place) == k;
    if diagonal {
        place += 1;
    }
    next.push_reserved(cell_of(place));
    diagonal
}

/// Reads the rows of column `j`, one of `size`, from the place `first` on. They are all that is left of it, so no row
/// is compared.
fn column_end<I: Index, V: Visitor>(
    size: usize,
    j: usize,
    first: usize,
    a_p: &[I],
    a_i: &[I],
    visitor: &mut V,
)
    requires form { IsColumnForm (pos size) size (map I.value a_p.now) (map I.value a_i.now) }
    requires sorted { IsSorted size (map I.value a_p.now) (map I.value a_i.now) }
    requires row { j < size }
    requires held { (t : List ℕ) × (arcs : List (ℕ × ℕ)) ×
        IsReadTo size (map I.value a_p.now) (map I.value a_i.now) t j first ×
        V.holds (graph_read size (map I.value a_p.now) (map I.value a_i.now))
        (met_read size (map I.value a_p.now) (map I.value a_i.now) t size (j + 1)) arcs visitor.old }
    ensures held { (t : List ℕ) (arcs : List (ℕ × ℕ)) →
        IsReadTo size (map I.value a_p.now) (map I.value a_i.now) t j first →
        V.holds (graph_read size (map I.value a_p.now) (map I.value a_i.now))
        (met_read size (map I.value a_p.now) (map I.value a_i.now) t size (j + 1)) arcs visitor.old →
        V.holds (graph_read size (map I.value a_p.now) (map I.value a_i.now))
        (met_read size (map I.value a_p.now) (map I.value a_i.now)
        (slice_set t j (slice_index (naturals (map I.value a_p.now)) (j + 1))) size (j + 1))
        (arcs ++ arcs_of (met_below (entry_read size (map I.value a_p.now) (map I.value a_i.now)) size j)) visitor.new }
    ensures kept { V.room visitor.new ≡ V.room visitor.old }
{
    let end = count_at(a_p, j + 1);
    let mut mark = visitor.begin(j);
    'rows: for place in first..end {
        mark = visitor.edge(count_at(a_i, place), j, mark);
    }
    visitor.end(j, mark);
}

/// Reads the lower entries of column `j`, one of `size`, that were not read yet.
fn column_rest<I: Index, V: Visitor, U: Unsigned, A: Allocator>(
    size: usize,
    j: usize,
    a_p: &[I],
    a_i: &[I],
    next: &mut Vec<Cell<U>, A>,
    visitor: &mut V,
)
    requires form { IsColumnForm (pos size) size (map I.value a_p.now) (map I.value a_i.now) }
    requires sorted { IsSorted size (map I.value a_p.now) (map I.value a_i.now) }
    requires fits { slice_index (naturals (map I.value a_p.now)) size ≤ U.MOST }
    requires row { j < size }
    requires scan { IsScanOf size (map I.value a_p.now) (map I.value a_i.now) next.old.items size j }
    requires held { (arcs : List (ℕ × ℕ)) × V.holds (graph_read size (map I.value a_p.now) (map I.value a_i.now))
        (met_read size (map I.value a_p.now) (map I.value a_i.now) next.old.items size (j + 1)) arcs visitor.old }
    ensures scan { IsScanOf size (map I.value a_p.now) (map I.value a_i.now) next.new.items size (j + 1) }
    ensures held { (arcs : List (ℕ × ℕ)) → V.holds (graph_read size (map I.value a_p.now) (map I.value a_i.now))
        (met_read size (map I.value a_p.now) (map I.value a_i.now) next.old.items size (j + 1)) arcs visitor.old →
        V.holds (graph_read size (map I.value a_p.now) (map I.value a_i.now))
        (met_read size (map I.value a_p.now) (map I.value a_i.now) next.new.items size (j + 1))
        (arcs ++ arcs_of (met_below (entry_read size (map I.value a_p.now) (map I.value a_i.now)) size j)) visitor.new }
    ensures room { vec_capacity next.new ≡ vec_capacity next.old }
    ensures kept { V.room visitor.new ≡ V.room visitor.old }
{
    let first = number_of(&next[j]);
    column_end(size, j, first, a_p, a_i, visitor);
    next[j] = cell_of(count_at(a_p, j + 1));
}

/// Reads the lower entries of each of the `size` columns that were not read yet.
fn rest<I: Index, V: Visitor, U: Unsigned, A: Allocator>(
    size: usize,
    a_p: &[I],
    a_i: &[I],
    next: &mut Vec<Cell<U>, A>,
    visitor: &mut V,
)
    requires form { IsColumnForm (pos size) size (map I.value a_p.now) (map I.value a_i.now) }
    requires sorted { IsSorted size (map I.value a_p.now) (map I.value a_i.now) }
    requires fits { slice_index (naturals (map I.value a_p.now)) size ≤ U.MOST }
    requires scan { IsScanOf size (map I.value a_p.now) (map I.value a_i.now) next.old.items size 0 }
    requires held { V.holds (graph_read size (map I.value a_p.now) (map I.value a_i.now))
        (met_read size (map I.value a_p.now) (map I.value a_i.now) next.old.items size 0)
        (arcs_of (edges_before (entry_read size (map I.value a_p.now) (map I.value a_i.now)) size)) visitor.old }
    ensures held { V.holds (graph_of size (map I.value a_p.now) (map I.value a_i.now))
        ((graph_of size (map I.value a_p.now) (map I.value a_i.now)).edge)
        (arcs_of (met_edges size (is_pair size (map I.value a_p.now) (map I.value a_i.now)))) visitor.new }
    ensures room { vec_capacity next.new ≡ vec_capacity next.old }
    ensures kept { V.room visitor.new ≡ V.room visitor.old }
{
    'columns: for j in 0..size {
        column_rest(size, j, a_p, a_i, next, visitor);
    }
}

/// Meets each edge of a sorted column form once, and returns the number of diagonal entries. The matrix has `size` rows
/// and columns, and `next` is empty and has room for a pointer of each column; a cell can hold the last pointer.
/// `next` keeps its memory; what it holds afterwards is not said.
///
/// For each column `k` in turn: each upper entry `j < k` of it, rising, gives the edge of `j` and `k`, and after it the
/// lower entries of column `j` that were not read yet and are below `k` give theirs; an entry `k` itself is passed
/// over. At the end the lower entries that were never read give theirs. The visitor is handed both arcs of each edge,
/// the one from its first row to its second one before the other.
pub fn walk<I: Index, V: Visitor, U: Unsigned, A: Allocator>(
    size: usize,
    a_p: &[I],
    a_i: &[I],
    next: &mut Vec<Cell<U>, A>,
    visitor: &mut V,
) -> usize
    requires form { IsColumnForm (pos size) size (map I.value a_p.now) (map I.value a_i.now) }
    requires sorted { IsSorted size (map I.value a_p.now) (map I.value a_i.now) }
    requires fits { slice_index (naturals (map I.value a_p.now)) size ≤ U.MOST }
    requires empty { length next.old.items ≡ 0 }
    requires room { size ≤ vec_capacity next.old }
    requires held { V.holds (graph_of size (map I.value a_p.now) (map I.value a_i.now)) (λ a b. false) [] visitor.old }
    ensures held { V.holds (graph_of size (map I.value a_p.now) (map I.value a_i.now))
        ((graph_of size (map I.value a_p.now) (map I.value a_i.now)).edge)
        (arcs_of (met_edges size (is_pair size (map I.value a_p.now) (map I.value a_i.now)))) visitor.new }
    ensures diagonals { result ≡ diagonal_count size (map I.value a_p.now) (map I.value a_i.now) }
    ensures room { vec_capacity next.new ≡ vec_capacity next.old }
    ensures kept { V.room visitor.new ≡ V.room visitor.old }
{
    let mut diagonals = 0;
    'columns: for k in 0..size {
        if column(size, k, a_p, a_i, next, visitor) {
            diagonals += 1;
        }
    }
    rest(size, a_p, a_i, next, visitor);
    diagonals
}

/// The place of the first row of column `j`, one of `size`, below the diagonal, or the end of the column. No row stands
/// above the diagonal.
pub fn lower_first<I: Index>(size: usize, j: usize, a_p: &[I], a_i: &[I]) -> usize
    requires form { IsColumnForm (pos size) size (map I.value a_p.now) (map I.value a_i.now) }
    requires row { j < size }
    ensures { result ≡ lower_start (naturals (map I.value a_p.now)) (naturals (map I.value a_i.now)) j }
{
    let first = count_at(a_p, j);
    if first < count_at(a_p, j + 1) && count_at(a_i, first) == j {
        first + 1
    } else {
        first
    }
}

/// As `walk`, where no entry of the matrix is above the diagonal: no column waits for another one, so no pointer is
/// kept of how far it was read.
pub fn walk_lower<I: Index, V: Visitor>(size: usize, a_p: &[I], a_i: &[I], visitor: &mut V)
    requires form { IsColumnForm (pos size) size (map I.value a_p.now) (map I.value a_i.now) }
    requires sorted { IsSorted size (map I.value a_p.now) (map I.value a_i.now) }
    requires lower { (i j : ℕ) → is_pair size (map I.value a_p.now) (map I.value a_i.now) i j ≡ true → j ≤ i }
    requires held { V.holds (graph_of size (map I.value a_p.now) (map I.value a_i.now)) (λ a b. false) [] visitor.old }
    ensures held { V.holds (graph_of size (map I.value a_p.now) (map I.value a_i.now))
        ((graph_of size (map I.value a_p.now) (map I.value a_i.now)).edge)
        (arcs_of (met_edges size (is_pair size (map I.value a_p.now) (map I.value a_i.now)))) visitor.new }
    ensures kept { V.room visitor.new ≡ V.room visitor.old }
{
    'columns: for j in 0..size {
        let first = lower_first(size, j, a_p, a_i);
        column_end(size, j, first, a_p, a_i, visitor);
    }
}
