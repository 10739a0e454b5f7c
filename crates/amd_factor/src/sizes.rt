// How many entries each column of a factor has, and the parents, in nearly linear time: the elimination tree, its ranks
// in postorder, and a sweep over the arcs. Source: Liu 1986; Gilbert, Ng and Peyton 1994. The lists of earlier and of
// later neighbours and the memory are the caller's.

ghost use Rattle.amd_factor.specs.Neighbours.{HasLater};
ghost use Rattle.amd_factor.specs.Orders.{Order};
ghost use Rattle.amd_factor.specs.Premises.{HasTreeRoom, ThinsTree};
ghost use Rattle.amd_factor.specs.Sizes.{AreBothLists, HasCountRoom, HoldSizes};

use crate::neighbours::Neighbours;
use crate::ranks::{RankedTree, go_up, measure, rank_places};
use crate::sweep::sweep;
use crate::tree::elimination_tree;

/// Writes the number of entries of each column of the factor of a graph under an order of its rows, by the parents in
/// the elimination tree.
///
/// `later[starts[j]..starts[j + 1]]` names places after `j`: those whose rows an edge joins with that at place `j`, or
/// fewer, where an edge joins them with one below it in the tree. `counts` has `n` places, for `n` rows; `work`, which
/// is for the work alone, has `8 n + 5`.
///
/// No memory is asked for.
pub fn count_by_tree(
    starts: &[usize],
    later: &[usize],
    parent: &[Option<usize>],
    counts: &mut [usize],
    work: &mut [usize],
)
    ghost at: { Order × Order }
    requires thins { ThinsTree at.0 at.1 parent.now }
    requires later { HasLater at.1 starts.now later.now }
    requires room { HasTreeRoom at.0 counts.old work.old }
    ensures { HoldSizes at.0.graph at.0.rows counts.new parent.now }
{
    let n = counts.len();
    let (order, rest) = work.split_at_mut(n);
    let (up, rest) = rest.split_at_mut(n);
    let (last, rest) = rest.split_at_mut(n);
    let (size, rest) = rest.split_at_mut(n + 1);
    let (link, rest) = rest.split_at_mut(n + 1);
    let (rank, rest) = rest.split_at_mut(n + 1);
    let (plus, minus) = rest.split_at_mut(n + 1);
    go_up(parent, up);
    measure(up, size);
    rank_places(up, size, link, rank);
    let later = Neighbours {
        starts,
        places: later,
    };
    let tree = RankedTree { up, size, rank };
    sweep(&later, &tree, order, link, last, plus, minus, counts);
}

/// Writes the number of entries of each column of the factor of a graph under an order of its rows, and the parents.
///
/// `earlier[starts[j]..starts[j + 1]]` names the places before `j` whose rows an edge joins with that at place `j`, and
/// `later[later_starts[j]..later_starts[j + 1]]` those after it. `parent` and `counts` have `n` places each, for `n`
/// rows; `work`, which is for the work alone, has `8 n + 5`.
///
/// No memory is asked for. The steps are as many as there are neighbours and rows, times at most the logarithm of the
/// number of rows.
pub fn count_by_meetings(
    starts: &[usize],
    earlier: &[usize],
    later_starts: &[usize],
    later: &[usize],
    parent: &mut [Option<usize>],
    counts: &mut [usize],
    work: &mut [usize],
)
    ghost o: { Order }
    requires lists { AreBothLists o starts.now earlier.now later_starts.now later.now }
    requires room { HasCountRoom o parent.old counts.old work.old }
    ensures { HoldSizes o.graph o.rows counts.new parent.new }
{
    let (ancestor, _) = work.split_at_mut(counts.len());
    elimination_tree(starts, earlier, parent, ancestor);
    count_by_tree(later_starts, later, parent, counts, work);
}
