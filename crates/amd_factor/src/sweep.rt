// The arcs of all places, in the order of the ranks of the places, and the counts that they leave. Source: Gilbert, Ng
// and Peyton 1994.

ghost use Rattle.std.specs.Prelude.{ℕ, ◌≡◌, ◌<◌, ◌≤◌, ◌+◌, ◌-◌, ◌^◌, length, slice_index};
ghost use Rattle.amd_factor.specs.Meetings.{CountsTargets, IsByRank, IsScene, Met, Scene, Taken, sum_before, sum_to};
ghost use Rattle.amd_factor.specs.Neighbours.{HasLater};
ghost use Rattle.amd_factor.specs.Premises.{CanMeetArcs, CanTellCounts, HasSweepRoom, IsTreeOf};

use crate::meeting::take_arcs;
use crate::neighbours::Neighbours;
use crate::ranks::RankedTree;

/// Writes the places by their ranks.
pub fn place_by_rank(rank: &[usize], order: &mut [usize])
    ghost s: { Scene }
    requires scene { IsScene s }
    requires ranks { rank.now ≡ s.rank }
    requires room { length order.old ≡ length s.up }
    ensures { IsByRank s order.new }
{
    'places: for k in 0..order.len() {
        order[rank[k]] = k;
    }
}

/// Links each place to itself.
fn link_to_themselves(link: &mut [usize])
    ensures { (k : ℕ) → k < length link.old → slice_index link.new k ≡ k }
{
    'links: for k in 0..link.len() {
        link[k] = k;
    }
}

/// Writes by ranks how much the arcs from each place add, and how much their meetings take.
///
/// `order` holds the places by their ranks. `link` and `last` are for the work alone.
pub fn meet_arcs(
    later: &Neighbours<'_>,
    tree: &RankedTree<'_>,
    order: &[usize],
    link: &mut [usize],
    last: &mut [usize],
    plus: &mut [usize],
    minus: &mut [usize],
)
    ghost s: { Scene }
    requires tree { IsTreeOf s tree.now }
    requires later { HasLater s.order later.now.starts.now later.now.places.now }
    requires lists { CanMeetArcs s order.now link.old last.old plus.old minus.old }
    ensures met { Met s (Taken s (length s.up)) last.new plus.new minus.new }
    ensures room { sum_to plus.new (length s.up + 1) ≤ length later.now.places.now }
{
    let n = tree.up.len();
    last.fill(n);
    plus.fill(0);
    minus.fill(0);
    link_to_themselves(link);
    'ranks: for t in 0..order.len() {
        let j = order[t];
        let list = &later.places[later.starts[j]..later.starts[j + 1]];
        take_arcs(j, list, tree.rank, link, last, plus, minus);
        link[j] = tree.up[j];
    }
}

/// Puts in the place of each number its sum with those before it.
fn add_up(numbers: &mut [usize])
    requires { sum_to numbers.old (length numbers.old) < 2 ^ 64 }
    ensures { (k : ℕ) → k < length numbers.old → slice_index numbers.new k ≡ sum_to numbers.old (k + 1) }
{
    let mut total = 0;
    'numbers: for k in 0..numbers.len() {
        total += numbers[k];
        numbers[k] = total;
    }
}

/// The sum over the `size` ranks up to `last`, by the sums up to each rank.
fn sum_over(sums: &[usize], last: usize, size: usize) -> usize
    requires last { last < length sums.now }
    requires some { 0 < size }
    requires rises { sum_before sums.now (last + 1 - size) ≤ slice_index sums.now last }
    ensures { result + sum_before sums.now (last + 1 - size) ≡ slice_index sums.now last }
{
    if size > last {
        sums[last]
    } else {
        sums[last] - sums[last - size]
    }
}

/// Writes how many entries each column has, by what was added and taken at each rank, which is summed up in place.
pub fn tell_counts(
    tree: &RankedTree<'_>,
    plus: &mut [usize],
    minus: &mut [usize],
    counts: &mut [usize],
)
    ghost s: { Scene }
    requires tree { IsTreeOf s tree.now }
    requires lists { CanTellCounts s plus.old minus.old counts.old }
    ensures { (k : ℕ) → k < length s.up → CountsTargets s (Taken s (length s.up)) k (slice_index counts.new k) }
{
    add_up(plus);
    add_up(minus);
    'columns: for k in 0..counts.len() {
        let added = sum_over(plus, tree.rank[k], tree.size[k]);
        let taken = sum_over(minus, tree.rank[k], tree.size[k]);
        counts[k] = added - taken;
    }
}

/// Writes how many entries each column has, by the later neighbours of all places and the elimination tree.
///
/// `order`, `link`, `last`, `plus` and `minus` are for the work alone.
pub fn sweep(
    later: &Neighbours<'_>,
    tree: &RankedTree<'_>,
    order: &mut [usize],
    link: &mut [usize],
    last: &mut [usize],
    plus: &mut [usize],
    minus: &mut [usize],
    counts: &mut [usize],
)
    ghost s: { Scene }
    requires tree { IsTreeOf s tree.now }
    requires later { HasLater s.order later.now.starts.now later.now.places.now }
    requires room { HasSweepRoom s order.old link.old last.old plus.old minus.old counts.old }
    ensures { (k : ℕ) → k < length s.up → CountsTargets s (Taken s (length s.up)) k (slice_index counts.new k) }
{
    place_by_rank(tree.rank, order);
    meet_arcs(later, tree, order, link, last, plus, minus);
    tell_counts(tree, plus, minus, counts);
}
