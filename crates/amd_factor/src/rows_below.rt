// A factor by supernodes: runs of places whose columns differ in their own places alone. The rows below the blocks are
// written into memory that the caller lends, when all else is known. Source: Liu, Ng and Peyton 1993.

ghost use Rattle.std.specs.Prelude.{◌≡◌, length, map};
ghost use Rattle.amd_types.specs.Naturals.{naturals};
ghost use Rattle.amd_factor.specs.Numbers.{AreNonNegative};
ghost use Rattle.amd_factor.specs.Partitions.{OrderedMatrix};
ghost use Rattle.amd_factor.specs.Premises.{CanWriteRows};
ghost use Rattle.amd_factor.specs.Supernodes.{IsSupernodesOf};

use crate::below::fill_rows;
use crate::neighbours::{NeighbourLists, Neighbours};
use crate::partition::{Cut, LentCut};
use amd_types::index::Index;
use std::alloc::Allocator;

/// The columns of a factor below its diagonal, by supernodes.
///
/// A supernode is a longest run of places of which each but the last has the next one as its parent, and one entry more
/// than that has. Column `k` of a supernode has the places behind `k` in it, and then the rows below its block, which
/// are the same for all its columns. In the fields, `m` is the number of supernodes.
#[derive(Drop)]
pub struct Supernodes<A: Allocator> {
    /// Where each supernode begins, and behind them the number of columns: `m + 1` places, ascending from 0, and no two
    /// are equal.
    pub first: Vec<usize, A>,
    /// Where the rows of each supernode begin, and behind them the end of the last ones: `m + 1` pointers, ascending
    /// from 0. The last one is the length of `rows`.
    pub ptr: Vec<usize, A>,
    /// The rows below the blocks: those of supernode `s` are `rows[ptr[s]..ptr[s + 1]]`, which are places from
    /// `first[s + 1]` on, in ascending order.
    pub rows: Vec<usize, A>,
    /// The parent of each of the `m` supernodes: the one that the first of its rows lies in, or `None` where it has no
    /// rows.
    pub parent: Vec<Option<usize>, A>,
}

/// A factor by supernodes, but for the rows below the blocks, and what it takes to write these.
#[derive(Drop)]
pub struct Partitioned<A: Allocator> {
    /// Where each supernode and its rows begin, and its parent, as in [`Supernodes`]; and the supernode of each place.
    pub cut: Cut<A>,
    /// The earlier neighbours of each place, but for some that stand over others.
    pub lists: NeighbourLists<A>,
    /// For the work alone: a place for each supernode.
    pub next: Vec<usize, A>,
    /// For the work alone: a place for each supernode.
    pub mark: Vec<usize, A>,
}

/// Writes the rows below the blocks into `rows`, which has as many places as the last pointer says. The type of its
/// numbers has the number of rows of the matrix. No memory is asked for; what the work took is given back.
///
/// Source: Liu 1990; Liu, Ng and Peyton 1993.
pub fn write_rows<I: Index, A: Allocator>(partition: Partitioned<A>, rows: &mut [I]) -> Cut<A>
    ghost m: { OrderedMatrix }
    requires { CanWriteRows I.fits m partition (length rows.old) }
    ensures same { result ≡ partition.cut }
    ensures told { AreNonNegative (map I.value rows.new) }
    ensures supernodes { IsSupernodesOf m.size m.pointers m.indices m.list partition.cut.first.items
        partition.cut.ptr.items (naturals (map I.value rows.new)) partition.cut.parent.items }
{
    let mut next = partition.next;
    let mut mark = partition.mark;
    let cut = partition.cut;
    let earlier = Neighbours {
        starts: &partition.lists.starts,
        places: &partition.lists.neighbours,
    };
    let lent = LentCut {
        first: &cut.first,
        owner: &cut.owner,
        ptr: &cut.ptr,
        parent: &cut.parent,
    };
    fill_rows(&earlier, &lent, &mut next, &mut mark, rows);
    cut
}
