// The elimination tree in nearly linear time: each row climbs from its earlier neighbours by links to ancestors, and
// all links on the way are drawn to the row itself, so that no way is climbed twice. Source: Liu 1986.

ghost use Rattle.std.specs.Prelude.{ℕ, ◌+◌, length};
ghost use Rattle.amd_factor.specs.Orders.{Order};
ghost use Rattle.amd_factor.specs.Premises.{CanLinkRow, CanMakeTree};
ghost use Rattle.amd_factor.specs.Walks.{TellParents};
ghost use Rattle.amd_factor.specs.Ancestors.{StartsClimb, Climbing, IsDone};

/// Climbs from the earlier neighbour `j` of row `i` to the root of its tree, which row `i` becomes the parent of. Each
/// place on the way is linked to row `i`.
fn climb(j: usize, i: usize, parent: &mut [Option<usize>], ancestor: &mut [usize])
    ghost o: { Order }
    requires { StartsClimb o j i parent.old ancestor.old }
    ensures climbing { Climbing o i i parent.new ancestor.new }
    ensures done { IsDone o i parent.new j }
    ensures kept { (m : ℕ) → IsDone o i parent.old m → IsDone o i parent.new m }
{
    let mut k = j;
    'up: while k != i {
        let next = ancestor[k];
        ancestor[k] = i;
        if next == k {
            parent[k] = Some(i);
            k = i;
        } else {
            k = next;
        }
    }
}

/// Makes row `i` the parent of the roots of the trees of its earlier neighbours.
fn link_row(i: usize, earlier: &[usize], parent: &mut [Option<usize>], ancestor: &mut [usize])
    ghost o: { Order }
    requires { CanLinkRow o i earlier.now parent.old ancestor.old }
    ensures parents { TellParents o (i + 1) parent.new }
    ensures climbing { Climbing o i i parent.new ancestor.new }
{
    'earlier: for &j in earlier {
        climb(j, i, parent, ancestor);
    }
}

/// Writes the parents of the elimination tree of a graph under an order of its rows.
///
/// `earlier[starts[j]..starts[j + 1]]` names the places before `j` whose rows an edge joins with that at place `j`.
/// `parent` and `ancestor` have as many places as there are rows; `ancestor` is for the work alone.
pub fn elimination_tree(
    starts: &[usize],
    earlier: &[usize],
    parent: &mut [Option<usize>],
    ancestor: &mut [usize],
)
    ghost o: { Order }
    requires { CanMakeTree o starts.now earlier.now parent.old ancestor.old }
    ensures { TellParents o (length o.rows) parent.new }
{
    parent.fill(None);
    'rows: for i in 0..ancestor.len() {
        ancestor[i] = i;
        link_row(i, &earlier[starts[i]..starts[i + 1]], parent, ancestor);
    }
}
