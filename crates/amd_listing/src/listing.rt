// The listing at the end of an elimination, and its inverse: the assembly tree in postorder, of each block its other
// rows rising and then its pivot row, and after all blocks the rows held last, rising. Source: Amestoy, Davis and Duff
// 2004.

ghost use Rattle.std.specs.Prelude.{◌≡◌, ◌<◌, ◌≤◌, ◌+◌, ℕ, List, length, map, pos};
ghost use Rattle.amd_types.specs.Permutations.{AreInverse};
ghost use Rattle.amd_listing.specs.Ended.{HasEnded, ListsEnded, Shortens};

use crate::blocks::{block_starts, by_place};
use crate::rows::place_rows;
use amd_postorder::postorder::postorder_in;
use amd_words::{Cell, Signed, Unsigned, Word};

/// Writes the listing of an elimination that has ended, and its inverse: `link` names for each row the row or parent to
/// which it is linked, `nv` the number of rows of each block, and `f_size` that of each front. `child` and `sibling`
/// are room, and so are `p` and `p_inv` until the listing is written; what the four held goes. Links are shortened; an
/// element keeps its parent.
pub fn listing<S: Signed, P: Signed, U: Unsigned>(
    link: &mut [Word<P>],
    nv: &[Word<S>],
    f_size: &[Word<P>],
    child: &mut [Cell<U>],
    sibling: &mut [Cell<U>],
    p: &mut [Cell<U>],
    p_inv: &mut [Cell<U>],
)
    requires ended { HasEnded link.old nv.now f_size.now }
    requires lengths { (length child.old ≡ length nv.now) × (length sibling.old ≡ length nv.now) ×
        (length p.old ≡ length nv.now) × (length p_inv.old ≡ length nv.now) }
    requires narrow { (length nv.now + 2 ≤ P.MOST) × (length nv.now + 2 ≤ U.MOST) }
    ensures lists { (rows : List ℕ) × (map pos p.new ≡ map pos rows) × ListsEnded link.old nv.now f_size.now rows }
    ensures inverse { AreInverse (length nv.now) (map pos p.new) (map pos p_inv.new) }
    ensures shortens { Shortens nv.now link.old link.new }
{
    // At first `p` has the place of each element, and `p_inv` is the stack of the postorder.
    postorder_in(nv.len(), link, nv, f_size, child, sibling, p, p_inv);
    let count = by_place(p, child);
    let end = block_starts(nv, child, count, sibling, p, p_inv);
    place_rows(link, nv, sibling, end, p, p_inv);
}
