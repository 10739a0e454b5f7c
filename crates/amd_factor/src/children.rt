// The children of the columns in lists, by one link a column: a column to come is linked to the last one of its
// children, and a child to the one before it.

ghost use Rattle.std.specs.Prelude.{ℕ, ◌≡◌, ◌<◌, ◌≤◌, ◌+◌, ◌-◌, true, length, slice_index, MatchOption};
ghost use Rattle.amd_factor.specs.Orders.{Order};
ghost use Rattle.amd_factor.specs.Gathering.{Column, IsChild, LinkChildren};
ghost use Rattle.amd_factor.specs.Planning.{CanCompare};
ghost use Rattle.amd_factor.specs.Trees.{IsParent};

/// A child of column `k` that has the most entries; none where there is no child. Those of a column before `k` begin
/// and end at its places in `starts` and `ends`.
pub fn greatest_child(
    k: usize,
    link: &[Option<usize>],
    starts: &[usize],
    ends: &[usize],
) -> Option<usize>
    ghost c: { Column }
    requires { CanCompare c k link.now starts.now ends.now }
    ensures child { MatchOption result ((m : ℕ) → ¬ (IsChild c m)) (λ child. IsChild c child) }
    ensures greatest { MatchOption result (Unit {0}) (λ child. (m : ℕ) → IsChild c m →
        slice_index ends.now m - slice_index starts.now m ≤ slice_index ends.now child
        - slice_index starts.now child) }
{
    let Some(mut greatest) = link[k] else {
        return None;
    };
    let mut next = link[greatest];
    'children: while let Some(child) = next {
        if ends[greatest] - starts[greatest] < ends[child] - starts[child] {
            greatest = child;
        }
        next = link[child];
    }
    Some(greatest)
}

/// Whether column `k` has one child and no other.
pub fn has_only_child(k: usize, link: &[Option<usize>]) -> bool
    ghost c: { Column }
    requires place { c.place ≡ k }
    requires inside { c.place < length c.order.rows }
    requires links { LinkChildren c.order c.place link.now }
    ensures only { result ≡ true → (m n : ℕ) → IsChild c m → IsChild c n → m ≡ n }
{
    match link[k] {
        Some(child) => link[child].is_none(),
        None => false,
    }
}

/// Puts column `k` before the other children of its parent.
pub fn link_child(k: usize, parent: usize, link: &mut [Option<usize>])
    ghost o: { Order }
    requires parent { IsParent o.graph o.rows k parent }
    requires links { LinkChildren o k link.old }
    ensures links { LinkChildren o (k + 1) link.new }
{
    link[k] = link[parent];
    link[parent] = Some(k);
}
