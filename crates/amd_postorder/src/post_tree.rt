// The numbering of one tree in postorder, along links to a first child and a next sibling. Source: Amestoy, Davis and
// Duff 2004.

ghost use Rattle.std.specs.Prelude.{◌≡◌, ◌+◌, ◌<◌, ◌≤◌, List, ℕ, length};
ghost use Rattle.amd_postorder.specs.Trees.{FitsTree, ListsTree, NumbersFrom, StaysOutside};

use crate::link::Link;

/// Numbers the nodes of the tree below `root` from `k` on in postorder, and returns the number after the last.
///
/// `child[i]` names the first child of node `i`, and `sibling[i]` the next one after it; a link that names none ends a
/// list. `order[i]` becomes the number of node `i`. All nodes are places of `child` and `order`, and all but the root
/// are places of `sibling`. There are at most `stack.len()` nodes, and `k` plus their number is at most `nn`; links can
/// name the root, and each number below `nn`. There is no recursion: the stack holds the path from the root to the node
/// at hand, and a place of `child` the child to go to next, so it is used up. Places of `order` and `child` of no node
/// of this tree stay. What the stack then holds is not said.
pub fn post_tree<L: Link>(
    root: usize,
    k: usize,
    child: &mut [L],
    sibling: &[L],
    order: &mut [L],
    stack: &mut [L],
    nn: usize,
) -> usize
    requires fits { FitsTree (L.read child.old) (L.read sibling.now) (L.read order.old) (L.read stack.old) root k nn }
    requires numbers { nn ≤ L.reach }
    requires root { root < L.reach }
    ensures next { (listing : List ℕ) → ListsTree (L.read child.old) (L.read sibling.now) root listing → result ≡ k
        + length listing }
    ensures numbered { (listing : List ℕ) → ListsTree (L.read child.old) (L.read sibling.now) root listing →
        NumbersFrom k listing (L.read order.new) }
    ensures order { (listing : List ℕ) → ListsTree (L.read child.old) (L.read sibling.now) root listing →
        StaysOutside listing (L.read order.old) (L.read order.new) }
    ensures child { (listing : List ℕ) → ListsTree (L.read child.old) (L.read sibling.now) root listing →
        StaysOutside listing (L.read child.old) (L.read child.new) }
{
    let mut next = k;
    let mut height = 1;
    L::set_link(stack, 0, root);
    'nodes: while height > 0 {
        let Some(node) = L::link_at(stack, height - 1) else {
            unreachable!();
        };
        match L::link_at(child, node) {
            Some(down) => {
                L::copy_link(child, node, sibling, down);
                L::set_link(stack, height, down);
                height += 1;
            }
            None => {
                prove!(next < nn);
                L::set_link(order, node, next);
                height -= 1;
                next += 1;
            }
        }
    }
    next
}
