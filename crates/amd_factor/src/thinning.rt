// Fewer arcs that leave the counts as they are: a row leaves out earlier neighbours that are the parents of others.
// Such a place stands over one that the row keeps, so it is in the subtree of the row all the same. On cliques, and
// where a node has several unknowns, most arcs are left out. Source: Liu 1986 (the skeleton of a graph).

ghost use Rattle.std.specs.Prelude.{ℕ, ◌≡◌, ◌<◌, ◌≤◌, ◌+◌, ◌⊎◌, Some, None, length, slice_index, slice_index_or};
ghost use Rattle.amd_factor.specs.Neighbours.{HasEarlier};
ghost use Rattle.amd_factor.specs.Orders.{Order};
ghost use Rattle.amd_factor.specs.Premises.{CanThin};
ghost use Rattle.amd_factor.specs.Thinning.{Keeps, IsThinned, Thins, order_of_lists};

// A row with no more earlier neighbours keeps them all: to look for parents among them would cost more than it saves.
const FEW: usize = 4;

/// Marks the parents of the places of a list, but none where they are few.
fn mark_parents(list: &[usize], stamp: usize, parent: &[Option<usize>], mark: &mut [usize])
    requires places { (x : ℕ) → x < length list.now → slice_index list.now x < length parent.now }
    requires parents { (j q : ℕ) → slice_index_or parent.now j None ≡ Some q → q < length mark.old }
    ensures marks { (q : ℕ) → (slice_index mark.new q ≡ slice_index mark.old q) ⊎ ((slice_index mark.new q ≡ stamp) ×
        (x : ℕ) × (x < length list.now) × (slice_index_or parent.now (slice_index list.now x) None ≡ Some q)) }
{
    if list.len() <= FEW {
        return;
    }
    'places: for k in 0..list.len() {
        if let Some(over) = parent[list[k]] {
            mark[over] = stamp;
        }
    }
}

/// Moves the places of `lists[begin..end]` that have not this mark to place `first` and those behind it, and returns
/// where they end. Whether a place has it is as good as drawn, so that is no branch.
fn keep_unmarked(
    begin: usize,
    end: usize,
    first: usize,
    stamp: usize,
    mark: &[usize],
    lists: &mut [usize],
) -> usize
    requires range { (first ≤ begin) × (begin ≤ end) × (end ≤ length lists.old) }
    requires places { (y : ℕ) → begin ≤ y → y < end → slice_index lists.old y < length mark.now }
    ensures { Keeps begin end first result stamp mark.now lists.old lists.new }
{
    let mut next = first;
    'places: for place in begin..end {
        let j = lists[place];
        lists[next] = j;
        next += if mark[j] == stamp { 0 } else { 1 };
    }
    next
}

/// Leaves parents of other places out of `lists[begin..end]`, moves what is left to place `first` and those behind it,
/// and returns where it ends.
fn thin_row(
    begin: usize,
    end: usize,
    first: usize,
    stamp: usize,
    parent: &[Option<usize>],
    mark: &mut [usize],
    lists: &mut [usize],
) -> usize
    requires range { (first ≤ begin) × (begin ≤ end) × (end ≤ length lists.old) }
    requires places { (y : ℕ) → begin ≤ y → y < end → slice_index lists.old y < length mark.old }
    requires parents { (j q : ℕ) → slice_index_or parent.now j None ≡ Some q → q < length mark.old }
    requires room { length parent.now ≡ length mark.old }
    requires unmarked { (q : ℕ) → slice_index mark.old q < stamp }
    ensures thinned { IsThinned begin end first result parent.now lists.old lists.new }
    ensures marks { (q : ℕ) → slice_index mark.new q ≤ stamp }
{
    if first == begin && end - begin <= FEW {
        return end;
    }
    mark_parents(&lists[begin..end], stamp, parent, mark);
    keep_unmarked(begin, end, first, stamp, mark, lists)
}

/// Leaves parents of other places out of the list of each row, in place. The rest moves up.
///
/// `lists[starts[j]..starts[j + 1]]` names the places before `j` whose rows an edge joins with that at place `j`.
/// `mark` has a place for each row, and is for the work alone.
pub fn thin_lists(
    starts: &mut [usize],
    lists: &mut [usize],
    parent: &[Option<usize>],
    mark: &mut [usize],
)
    ghost o: { Order }
    requires { CanThin o starts.old lists.old parent.now mark.old }
    ensures thins { Thins o (order_of_lists (length o.rows) starts.new lists.new) }
    ensures earlier { HasEarlier (order_of_lists (length o.rows) starts.new lists.new) starts.new lists.new }
{
    mark.fill(0);
    let mut begin = starts[0];
    let mut first = begin;
    'rows: for i in 0..mark.len() {
        let end = starts[i + 1];
        first = thin_row(begin, end, first, i + 1, parent, mark, lists);
        starts[i + 1] = first;
        begin = end;
    }
}
