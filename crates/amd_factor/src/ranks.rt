// The postorder of a forest whose parents stand behind their children: the size of each subtree, and the rank of each
// place, below which its subtree stands without a gap. No walk is needed: sizes are summed up from the children to the
// parents, and ranks are dealt out from the parents to the children. A place that has no parent goes up to the number
// of places, which stands over all.

ghost use Rattle.std.specs.Prelude.{◌≡◌, ◌+◌, length, slice_index};
ghost use Rattle.amd_factor.specs.Ranks.{GoesToParents, GoesUp, Measured, Ranked};

/// A forest with its sizes and ranks, as a sweep over the arcs of its places reads it.
#[derive(Drop)]
pub struct RankedTree<'a> {
    /// Where each place goes up to.
    pub up: &'a [usize],
    /// How many places the subtree of each place has.
    pub size: &'a [usize],
    /// The rank of each place.
    pub rank: &'a [usize],
}

/// Writes where each place goes up to.
pub fn go_up(parent: &[Option<usize>], up: &mut [usize])
    requires { length up.old ≡ length parent.now }
    ensures { GoesToParents parent.now up.new }
{
    'places: for k in 0..up.len() {
        up[k] = parent[k].unwrap_or(up.len());
    }
}

/// Writes how many places the subtree of each place has.
pub fn measure(up: &[usize], size: &mut [usize])
    requires rises { GoesUp up.now }
    requires room { length size.old ≡ length up.now + 1 }
    ensures measured { Measured up.now size.new }
    ensures all { slice_index size.new (length up.now) ≡ length up.now + 1 }
{
    size.fill(1);
    'places: for k in 0..up.len() {
        size[up[k]] += size[k];
    }
}

/// Writes the rank of each place; `next` is for the work alone.
pub fn rank_places(up: &[usize], size: &[usize], next: &mut [usize], rank: &mut [usize])
    requires rises { GoesUp up.now }
    requires measured { Measured up.now size.now }
    requires all { slice_index size.now (length up.now) ≡ length up.now + 1 }
    requires next { length next.old ≡ length up.now + 1 }
    requires rank { length rank.old ≡ length up.now + 1 }
    ensures { Ranked up.now size.now rank.new }
{
    let mut k = up.len();
    next[k] = k;
    rank[k] = k;
    'places: while k > 0 {
        k -= 1;
        let over = up[k];
        let last = next[over] - 1;
        next[over] -= size[k];
        next[k] = last;
        rank[k] = last;
    }
}
