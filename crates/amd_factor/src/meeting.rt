// The counts by what rows meet: each arc adds 1 to the column that it leads from and to all over it, and takes 1 from
// the column where it meets the arc before it of the same row. Source: Gilbert, Ng and Peyton 1994.

ghost use Rattle.std.specs.Prelude.{ℕ, ◌≡◌, ◌≢◌, ◌≤◌, ◌+◌, length};
ghost use Rattle.amd_factor.specs.Meetings.{IsLowest, IsScene, Links, Met, Scene, Taken, sum_to};
ghost use Rattle.amd_factor.specs.Premises.{CanTakeArcs, IsNextPlace};

/// The lowest place over `start`, or `start`, that is not linked yet. Links on the way are drawn up.
fn find(start: usize, link: &mut [usize]) -> usize
    ghost at: { Scene × ℕ }
    requires scene { IsScene at.0 }
    requires place { start ≤ length at.0.up }
    requires links { Links at.0 at.1 link.old }
    ensures links { Links at.0 at.1 link.new }
    ensures lowest { IsLowest at.0 at.1 start result }
{
    let mut x = start;
    'up: while link[x] != x {
        let over = link[link[x]];
        link[x] = over;
        x = over;
    }
    x
}

/// Where an arc to place `i` meets the last one before it, which came from place `before`: at the lowest place over
/// that one, or at it, that is not linked yet; or at `i` itself, where `before` is `none`, since there was no such arc.
fn meet(i: usize, before: usize, none: usize, link: &mut [usize]) -> usize
    ghost at: { Scene × ℕ }
    requires scene { IsScene at.0 }
    requires place { before ≤ length at.0.up }
    requires links { Links at.0 at.1 link.old }
    ensures links { Links at.0 at.1 link.new }
    ensures first { before ≡ none → result ≡ i }
    ensures lowest { before ≢ none → IsLowest at.0 at.1 before result }
{
    if before == none {
        i
    } else {
        find(before, link)
    }
}

/// Takes the arcs from place `j`, which lead to the places of `later`.
pub fn take_arcs(
    j: usize,
    later: &[usize],
    rank: &[usize],
    link: &mut [usize],
    last: &mut [usize],
    plus: &mut [usize],
    minus: &mut [usize],
)
    ghost at: { Scene × ℕ }
    requires place { IsNextPlace at.0 at.1 j later.now rank.now }
    requires lists { CanTakeArcs at.0 at.1 (length later.now) link.old last.old plus.old minus.old }
    ensures links { Links at.0 at.1 link.new }
    ensures met { Met at.0 (Taken at.0 (at.1 + 1)) last.new plus.new minus.new }
    ensures sum { sum_to plus.new (length at.0.up + 1) ≡ sum_to plus.old (length at.0.up + 1) + length later.now }
{
    let n = last.len();
    let here = rank[j];
    'arcs: for &i in later {
        let meeting = meet(i, last[i], n, link);
        let there = rank[meeting];
        plus[here] += 1;
        minus[there] += 1;
        last[i] = j;
    }
}
