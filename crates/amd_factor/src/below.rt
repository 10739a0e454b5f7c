// The rows below the block of each supernode, row by row: each row climbs from the supernodes of its earlier neighbours
// up to those that have it, or to its own, and so the rows of each come in ascending order. Source: Liu 1990; Liu, Ng
// and Peyton 1993. The rows are written as numbers of the caller's type.

ghost use Rattle.std.specs.Prelude.{ℕ, ◌≡◌, ◌<◌, ◌+◌, ◌-◌, length, map, slice_index};
ghost use Rattle.amd_types.specs.Naturals.{naturals};
ghost use Rattle.amd_factor.specs.Numbers.{AreNonNegative};
ghost use Rattle.amd_factor.specs.Partitions.{Climbs, IsMarkedBy, MarkedBefore, Partition, WrittenTo};
ghost use Rattle.amd_factor.specs.Premises.{CanAddRow, CanClimb, CanFillRows, CanPutRow};
ghost use Rattle.amd_factor.specs.Supernodes.{HoldSupernodes};

use crate::neighbours::Neighbours;
use crate::partition::LentCut;
use amd_types::index::Index;
use amd_types::internal::from_count;

/// Writes 0 into each place.
fn clear<I: Index>(numbers: &mut [I])
    ensures room { length numbers.new ≡ length numbers.old }
    ensures told { AreNonNegative (map I.value numbers.new) }
{
    let zero = I::zero();
    'numbers: for k in 0..numbers.len() {
        numbers[k] = zero;
    }
}

/// Puts the row `j`, which is that number, behind the rows of supernode `s`, marks that, and returns the parent of `s`.
fn put_row<I: Index>(
    j: usize,
    number: I,
    s: usize,
    parent: &[Option<usize>],
    next: &mut [usize],
    mark: &mut [usize],
    rows: &mut [I],
) -> usize
    ghost b: { Partition }
    requires { CanPutRow b j (I.value number) s parent.now next.old mark.old (map I.value rows.old) }
    ensures told { AreNonNegative (map I.value rows.new) }
    ensures climbs { Climbs b j result next.new mark.new (naturals (map I.value rows.new)) }
    ensures higher { s < result }
    ensures marked { IsMarkedBy mark.new j s }
    ensures others { (t : ℕ) → ¬ (t ≡ s) → slice_index mark.new t ≡ slice_index mark.old t }
{
    mark[s] = j + 1;
    rows[next[s]] = number;
    next[s] += 1;
    parent[s].unwrap()
}

/// Puts the row `j` in supernode `from` and in those over it, up to one that has its mark.
fn climb<I: Index>(
    j: usize,
    number: I,
    from: usize,
    parent: &[Option<usize>],
    next: &mut [usize],
    mark: &mut [usize],
    rows: &mut [I],
)
    ghost b: { Partition }
    requires { CanClimb b j (I.value number) from parent.now next.old mark.old (map I.value rows.old) }
    ensures told { AreNonNegative (map I.value rows.new) }
    ensures climbs { Climbs b j (slice_index b.owner j) next.new mark.new (naturals (map I.value rows.new)) }
    ensures marked { IsMarkedBy mark.new j from }
    ensures kept { (t : ℕ) → IsMarkedBy mark.old j t → IsMarkedBy mark.new j t }
{
    let mut s = from;
    'up: while mark[s] != j + 1 {
        s = put_row(j, number, s, parent, next, mark, rows);
    }
}

/// Puts the row `j` in each supernode below whose block it is.
fn add_row<I: Index>(
    j: usize,
    number: I,
    earlier: &[usize],
    cut: &LentCut<'_>,
    next: &mut [usize],
    mark: &mut [usize],
    rows: &mut [I],
)
    ghost b: { Partition }
    requires { CanAddRow b j (I.value number) earlier.now cut.now next.old mark.old (map I.value rows.old) }
    ensures told { AreNonNegative (map I.value rows.new) }
    ensures written { WrittenTo b (j + 1) next.new (naturals (map I.value rows.new)) }
    ensures marks { MarkedBefore b (j + 1) mark.new }
{
    mark[cut.owner[j]] = j + 1;
    'earlier: for &i in earlier {
        climb(j, number, cut.owner[i], cut.parent, next, mark, rows);
    }
}

/// Writes the rows below the block of each supernode.
///
/// `earlier` names the places before each place whose rows an edge joins with its own. It may leave out a place that
/// stands over one that it names, since a climb from there comes by.
///
/// `next` and `mark`, which are for the work alone, have as many places as there are supernodes.
///
/// No memory is asked for. The steps are as many as there are earlier neighbours, rows below the blocks, and places.
pub fn fill_rows<I: Index>(
    earlier: &Neighbours<'_>,
    cut: &LentCut<'_>,
    next: &mut [usize],
    mark: &mut [usize],
    rows: &mut [I],
)
    ghost b: { Partition }
    requires { CanFillRows b I.fits earlier.now cut.now next.old mark.old (length rows.old) }
    ensures told { AreNonNegative (map I.value rows.new) }
    ensures rows { HoldSupernodes b.order.graph b.order.rows b.first b.ptr (naturals (map I.value rows.new)) b.parent }
{
    next.copy_from_slice(&cut.ptr[..cut.first.len() - 1]);
    mark.fill(0);
    clear(rows);
    'rows: for j in 0..cut.owner.len() {
        let Some(number) = from_count(j) else {
            unreachable!()
        };
        let neighbours = &earlier.places[earlier.starts[j]..earlier.starts[j + 1]];
        add_row(j, number, neighbours, cut, next, mark, rows);
    }
}
